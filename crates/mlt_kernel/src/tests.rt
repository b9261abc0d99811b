//! The kernels beside their formulas, written plainly, at every number of pixels up to 130.

ghost use Rattle.std.specs.Prelude.{◌≡◌, ◌%◌, ◌≤◌, length};

use crate::dissolve::dissolve;
use crate::over::over;
use crate::pixel::{Pixel, pixel_at, put_pixel};
use crate::scale::scale;
use mlt_base::Q16;

/// What alphas a picture has.
#[derive(Clone, Copy, Debug)]
enum Alphas {
    Any,
    Opaque,
    Clear,
}

/// The kinds of alphas, each of which is tried over each.
const KINDS: [Alphas; 3] = [Alphas::Any, Alphas::Opaque, Alphas::Clear];

/// An alpha of the kind, made of a number. Where it is any, every fourth is 0 and every fourth 255.
fn alpha_of(alphas: Alphas, number: u8) -> u8 {
    match alphas {
        Alphas::Any if number % 4 == 0 => 0,
        Alphas::Any if number % 4 == 1 => 255,
        Alphas::Any => number,
        Alphas::Opaque => 255,
        Alphas::Clear => 0,
    }
}

/// Fills a picture with the bytes of a simple generator.
fn paint(picture: &mut [u8], seed: u32, alphas: Alphas) {
    let mut state = seed;
    for k in 0..picture.len() {
        state = state.wrapping_mul(1664525).wrapping_add(1013904223);
        let number = (state / 16777216) as u8;
        picture[k] = if k % 4 == 3 {
            alpha_of(alphas, number)
        } else {
            number
        };
    }
}

/// Fills the bytes `from` to before `to` of a picture.
fn paint_part(picture: &mut [u8], from: usize, to: usize, seed: u32, alphas: Alphas)
    requires order { from ≤ to }
    requires room { to ≤ length picture.old }
{
    paint(&mut picture[from..to], seed, alphas);
}

/// A byte dissolved into another by `q`.
fn plain_dissolved(x: u8, z: u8, q: u32) -> u64
    requires { q ≤ 65536 }
{
    (u64::from(x) * u64::from(65536 - q) + u64::from(z) * u64::from(q) + 32768) / 65536
}

/// A byte of channel `k % 4` at a level.
fn plain_scaled(k: usize, x: u8, level: u32) -> u64 {
    if k % 4 == 3 {
        return u64::from(x);
    }
    ((u64::from(x) * u64::from(level) + 32768) / 65536).min(255)
}

/// A byte of channel `k % 4` with another laid over it, where `a` and `b` are their alphas.
fn plain_laid(k: usize, x: u8, z: u8, a: u8, b: u8, opacity: u8) -> u64
    requires { opacity ≤ 100 }
{
    let below = u64::from(a);
    let above = (u64::from(b) * u64::from(opacity) + 50) / 100;
    let weight = 255 * above + below * (255 - above);
    if weight == 0 {
        0
    } else if k % 4 == 3 {
        (weight + 127) / 255
    } else {
        (u64::from(z) * above * 255 + u64::from(x) * below * (255 - above) + weight / 2) / weight
    }
}

/// The first byte of `new` that isn't `old` dissolved into `src`.
fn first_undissolved(old: &[u8], src: &[u8], new: &[u8], q: u32) -> Option<usize>
    requires src { length src.now ≡ length old.now }
    requires new { length new.now ≡ length old.now }
    requires share { q ≤ 65536 }
{
    for k in 0..old.len() {
        if u64::from(new[k]) != plain_dissolved(old[k], src[k], q) {
            return Some(k);
        }
    }
    None
}

/// The first byte of `new` that isn't `old` at the level.
fn first_unscaled(old: &[u8], new: &[u8], level: u32) -> Option<usize>
    requires { length new.now ≡ length old.now }
{
    for k in 0..old.len() {
        if u64::from(new[k]) != plain_scaled(k, old[k], level) {
            return Some(k);
        }
    }
    None
}

/// The first byte of `new` that isn't `old` with `src` laid over it.
fn first_unlaid(old: &[u8], src: &[u8], new: &[u8], opacity: u8) -> Option<usize>
    requires src { length src.now ≡ length old.now }
    requires new { length new.now ≡ length old.now }
    requires whole { length old.now % 4 ≡ 0 }
    requires hundredths { opacity ≤ 100 }
{
    for k in 0..old.len() {
        let alpha = k / 4 * 4 + 3;
        if u64::from(new[k]) != plain_laid(k, old[k], src[k], old[alpha], src[alpha], opacity) {
            return Some(k);
        }
    }
    None
}

#[test]
fn one_pixel_of_each(rt: HostRuntime) {
    let mut dissolved = [255, 0, 0, 255];
    dissolve(&mut dissolved, &[0, 0, 255, 255], Q16(32768));
    assert_eq!(rt; dissolved, [128, 0, 128, 255]);
    let mut laid = [255, 0, 0, 255];
    over(&mut laid, &[0, 0, 255, 128], 100);
    assert_eq!(rt; laid, [127, 0, 128, 255]);
    let mut scaled = [200, 200, 200, 255];
    scale(&mut scaled, Q16(32768));
    assert_eq!(rt; scaled, [100, 100, 100, 255]);
    let mut written = [1, 2, 3, 4, 5];
    put_pixel(
        &mut written,
        1,
        Pixel {
            r: 9,
            g: 8,
            b: 7,
            a: 255,
        },
    );
    assert_eq!(rt; written, [1, 9, 8, 7, 255]);
    assert_eq!(rt;
        pixel_at(&written, 1),
        Pixel {
            r: 9,
            g: 8,
            b: 7,
            a: 255
        }
    );
}

#[test]
fn dissolve_at_every_number_of_pixels(rt: HostRuntime) {
    let mut old = [0; 520];
    let mut src = [0; 520];
    paint(&mut old, 1, Alphas::Any);
    paint(&mut src, 2, Alphas::Any);
    for pixels in 0..131 {
        let len = pixels * 4;
        for q in [0, 1, 20000, 32768, 65535, 65536] {
            let mut new = old;
            dissolve(&mut new[..len], &src[..len], Q16(q));
            let wrong = first_undissolved(&old[..len], &src[..len], &new[..len], q);
            assert_eq!(rt; wrong, None, "{pixels} pixels at {q}");
        }
    }
}

#[test]
fn scale_at_every_number_of_pixels(rt: HostRuntime) {
    let mut old = [0; 520];
    paint(&mut old, 3, Alphas::Any);
    for pixels in 0..131 {
        let len = pixels * 4;
        for level in [
            0, 1, 40000, 65535, 65536, 65537, 16777215, 16777216, 4294967295,
        ] {
            let mut new = old;
            scale(&mut new[..len], Q16(level));
            let wrong = first_unscaled(&old[..len], &new[..len], level);
            assert_eq!(rt; wrong, None, "{pixels} pixels at {level}");
        }
    }
}

#[test]
fn over_at_every_number_of_pixels(rt: HostRuntime) {
    let mut old = [0; 520];
    let mut src = [0; 520];
    for below in KINDS {
        for above in KINDS {
            paint(&mut old, 4, below);
            paint(&mut src, 5, above);
            for pixels in 0..131 {
                let len = pixels * 4;
                for opacity in [0, 1, 50, 99, 100] {
                    let mut new = old;
                    over(&mut new[..len], &src[..len], opacity);
                    let wrong = first_unlaid(&old[..len], &src[..len], &new[..len], opacity);
                    assert_eq!(rt;
                        wrong,
                        None,
                        "{pixels} pixels, {above:?} over {below:?} at {opacity}"
                    );
                }
            }
        }
    }
}

#[test]
fn over_where_blocks_differ(rt: HostRuntime) {
    let mut old = [0; 4000];
    let mut src = [0; 4000];
    paint_part(&mut old, 0, 3000, 6, Alphas::Opaque);
    paint_part(&mut old, 3000, 4000, 7, Alphas::Any);
    paint_part(&mut src, 0, 1024, 8, Alphas::Opaque);
    paint_part(&mut src, 1024, 2048, 9, Alphas::Clear);
    paint_part(&mut src, 2048, 4000, 10, Alphas::Any);
    for opacity in [50, 100] {
        let mut new = old;
        over(&mut new, &src, opacity);
        assert_eq!(rt;
            first_unlaid(&old, &src, &new, opacity),
            None,
            "at {opacity}"
        );
    }
}
