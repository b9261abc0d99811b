//! Bytes that are filled with one pixel again and again, as fast as memory is copied.

ghost use Rattle.std.specs.Prelude.{◌≡◌, ℕ, ◌+◌, ◌*◌, ◌%◌, ◌<◌, ◌≤◌, ◌++◌, length, take, drop, replicate};
ghost use Rattle.std.specs.List.{concat};
ghost use Rattle.mlt_base.specs.Picture.{plain};
ghost use Rattle.mlt_image.specs.View.{pixel};

use crate::colour::Colour;

/// The most bytes that are copied at once. It is a multiple of 3 and of 4, and so few that they stay
/// in the processor's nearest memory.
const BLOCK: usize = 12288;

/// Gives every pixel of a picture this colour. The slice has four bytes a pixel.
pub fn fill(dst: &mut [u8], colour: Colour)
    requires { length dst.old % 4 ≡ 0 }
    ensures { (count : ℕ) → length dst.old ≡ count * 4 → dst.new ≡ plain count (pixel colour) }
{
    tile(dst, &[colour.r, colour.g, colour.b, colour.a]);
}

/// Fills the bytes with the bytes of a pixel, again and again from the first on. A pixel has as many
/// bytes as go whole into 12288, such as 3 or 4.
pub fn tile(bytes: &mut [u8], pixel: &[u8])
    requires some { 0 < length pixel.now }
    requires block { BLOCK % length pixel.now ≡ 0 }
    ensures { (count : ℕ) → length bytes.old ≡ count * length pixel.now → bytes.new ≡ concat (replicate count pixel.now) }
{
    if bytes.len() < pixel.len() {
        return;
    }
    bytes[..pixel.len()].copy_from_slice(pixel);
    let mut filled = pixel.len();
    while filled < bytes.len() {
        let more = filled.min(BLOCK).min(bytes.len() - filled);
        copy_front(bytes, filled, more);
        filled += more;
    }
}

/// Copies the first bytes behind those that are filled.
fn copy_front(bytes: &mut [u8], filled: usize, more: usize)
    requires enough { more ≤ filled }
    requires room { filled + more ≤ length bytes.old }
    ensures { bytes.new ≡ take filled bytes.old ++ (take more bytes.old ++ drop (filled + more) bytes.old) }
{
    let (front, back) = bytes.split_at_mut(filled);
    back[..more].copy_from_slice(&front[..more]);
}
