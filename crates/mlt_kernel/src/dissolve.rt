//! One picture dissolved into another.

ghost use Rattle.std.specs.Prelude.{◌≡◌, ◌+◌, ◌≤◌, length};
ghost use Rattle.mlt_base.specs.Mixing.{table, blended, dissolved};

use crate::share::share_of;
use mlt_base::Q16;

/// Dissolves `dst` into `src`, byte by byte and alpha too: at `q` 0 it stays, at 65536 it is `src`.
/// The slices are of one length, and `q` is at most 65536.
pub fn dissolve(dst: &mut [u8], src: &[u8], q: Q16)
    requires same { length dst.old ≡ length src.now }
    requires share { q.0 ≤ 65536 }
    ensures { dst.new ≡ table (length dst.old) (dissolved q.0 dst.old src.now) }
{
    if q.0 == 65536 {
        dst.copy_from_slice(src);
    } else if q.0 > 0 {
        dissolve_partly(dst, src, q.0 as u16, (65536 - q.0) as u16);
    }
}

/// Dissolves by a share `q` that is neither nothing nor the whole; `p` is the rest of 65536.
fn dissolve_partly(dst: &mut [u8], src: &[u8], q: u16, p: u16)
    requires same { length dst.old ≡ length src.now }
    requires whole { p + q ≡ 65536 }
    ensures { dst.new ≡ table (length dst.old) (dissolved q dst.old src.now) }
{
    for i in 0..dst.len() {
        dst[i] = blended(q, p, dst[i], src[i]);
    }
}

/// A byte of both: the lesser one, and of the gap to the other one the share that is its own.
fn blended(q: u16, p: u16, x: u8, z: u8) -> u8
    requires { p + q ≡ 65536 }
    ensures { result ≡ blended q x z }
{
    let low = x.min(z);
    let gap = x.max(z) - low;
    let share = if z >= x { q } else { p };
    low + share_of(gap, share)
}
