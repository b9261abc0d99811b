//! A share of a byte.

ghost use Rattle.std.specs.Prelude.{◌≡◌, ◌+◌, ◌*◌, ◌/◌, ◌≤◌};

/// A share of a byte, in 65536 parts, to the nearest whole number. The product is taken in two halves of
/// 16 bits, so that a loop over bytes goes over eight of them at a time.
#[inline(always)]
pub(crate) fn share_of(whole: u8, share: u16) -> u8
    ensures value { result ≡ (whole * share + 32768) / 65536 }
    ensures below { result ≤ whole }
{
    let high = (whole as u32 * share as u32 / 65536) as u16;
    let rest = (whole as u16).wrapping_mul(share);
    (high + rest / 32768) as u8
}
