//! Pictures beside their formulas, written plainly, and the texts of colours.

ghost use Rattle.std.specs.Prelude.{◌≡◌, ◌+◌, ◌*◌, ◌≤◌, vec_len, IfOk};

use super::*;
use mlt_base::{Geometry, Still};
use std::alloc::{AllocError, Global};
use std::test::Fail;

/// As many bytes of a simple generator; each fourth is 255 where the picture is opaque.
fn painted(alloc: Global, count: usize, opaque: bool) -> Result<Vec<u8>, AllocError>
    ensures { IfOk result (λ bytes. vec_len bytes ≡ count) }
{
    let mut bytes = vec![in alloc; 0u8; count]?;
    let mut state: u32 = 1;
    for k in 0..bytes.len() {
        state = state.wrapping_mul(1664525).wrapping_add(1013904223);
        bytes[k] = if opaque && k % 4 == 3 {
            255
        } else {
            (state / 16777216) as u8
        };
    }
    Ok(bytes)
}

/// The bytes of a picture.
fn bytes_of(width: u32, height: u32) -> usize
    requires width { width ≤ 4096 }
    requires height { height ≤ 4096 }
    ensures { result ≡ width * height * 4 }
{
    width as usize * height as usize * 4
}

/// How much of a side is taken, and how much is free before it.
fn plain_side(own: u32, other: u32, side: u32, across: u32) -> (u32, u32) {
    let allowed = u64::from(own) * u64::from(across);
    let taken = if allowed >= u64::from(other) * u64::from(side) {
        side
    } else {
        (allowed / u64::from(other.max(1))).max(1) as u32
    };
    (taken, side.saturating_sub(taken) / 2)
}

/// The pixel before a place, the one behind it, and the share of the latter.
fn plain_place(pixels: u32, taken: u32, at: u32) -> (u32, u32, u64)
    requires { pixels ≤ 4096 }
    ensures before { result.0 ≤ 4095 }
    ensures behind { result.1 ≤ 4095 }
    ensures share { result.2 ≤ 65535 }
{
    let last = pixels.saturating_sub(1);
    let middle = u128::from(2 * u64::from(at) + 1) * u128::from(pixels) * 65536
        / u128::from(2 * u64::from(taken.max(1)));
    let place = middle.saturating_sub(32768).min(u128::from(last) * 65536) as u64;
    let before = (place / 65536) as u32;
    (before, (before + 1).min(last), place % 65536)
}

/// A channel of a pixel of a source.
fn plain_channel(src: &Still, x: u32, y: u32, channel: usize) -> u64
    requires x { x ≤ 4095 }
    requires y { y ≤ 4095 }
    requires channel { channel ≤ 3 }
    ensures { result ≤ 255 }
{
    let at = (y * src.width() + x) as usize * 4 + channel;
    u64::from(src.pixels().get(at).copied().unwrap_or(0))
}

/// A share of `z` and the rest of `x`.
fn plain_mix(x: u64, z: u64, share: u64) -> u64
    requires x { x ≤ 67108864 }
    requires z { z ≤ 67108864 }
    requires share { share ≤ 65535 }
    ensures { result ≤ (x + z) * 65536 }
{
    x * (65536 - share) + z * share
}

/// A channel at column `u` and row `v` of a source that is stretched.
fn plain_stretched(src: &Still, taken: (u32, u32), u: u32, v: u32, channel: usize) -> u64
    requires { channel ≤ 3 }
{
    let (left, right, across) = plain_place(src.width(), taken.0, u);
    let (above, below, down) = plain_place(src.height(), taken.1, v);
    let top = plain_mix(
        plain_channel(src, left, above, channel),
        plain_channel(src, right, above, channel),
        across,
    );
    let bottom = plain_mix(
        plain_channel(src, left, below, channel),
        plain_channel(src, right, below, channel),
        across,
    );
    (plain_mix(top, bottom, down) + 2147483648) / 4294967296
}

/// The first byte of a frame that isn't as the source fitted into it has it.
fn first_unfitted(src: &Still, frame: &[u8], width: u32, height: u32) -> Option<usize>
    requires { 1 ≤ width }
{
    let (wide, left) = plain_side(src.width(), src.height(), width, height);
    let (high, top) = plain_side(src.height(), src.width(), height, width);
    for k in 0..frame.len() {
        let x = (k / 4 % width as usize) as u32;
        let y = u32::try_from(k / 4 / width as usize).unwrap_or(u32::MAX);
        let inside = left <= x && x - left < wide && top <= y && y - top < high;
        let wanted = if inside {
            plain_stretched(src, (wide, high), x - left, y - top, k % 4)
        } else {
            0
        };
        if u64::from(frame[k]) != wanted {
            return Some(k);
        }
    }
    None
}

#[test]
fn colours(rt: HostRuntime) {
    let rows = [
        ("black", Some([0, 0, 0, 255])),
        ("white", Some([255, 255, 255, 255])),
        ("red", Some([255, 0, 0, 255])),
        ("green", Some([0, 255, 0, 255])),
        ("blue", Some([0, 0, 255, 255])),
        ("0x0a141e28", Some([10, 20, 30, 40])),
        ("0xFFfE0109", Some([255, 254, 1, 9])),
        ("#0A141e", Some([10, 20, 30, 255])),
        ("#280a141e", Some([10, 20, 30, 40])),
        ("", None),
        ("Red", None),
        ("reds", None),
        ("#0a141", None),
        ("#0a141g", None),
        ("0x0a141e", None),
        ("0X0a141e28", None),
        ("0a141e28", None),
    ];
    for (text, wanted) in rows {
        let read = Colour::read(text).map(|colour| [colour.r, colour.g, colour.b, colour.a]);
        assert_eq!(rt; read, wanted, "{text}");
    }
}

#[test]
fn fits(rt: HostRuntime) -> Result<(), Fail> {
    let alloc = rt.alloc();
    let rows = [
        (1, 1, 2, 1),
        (2, 1, 4, 1),
        (1, 2, 3, 1),
        (3, 2, 3, 2),
        (3, 2, 7, 2),
        (3, 2, 3, 7),
        (3, 4, 7, 5),
        (7, 5, 3, 4),
        (9, 1, 4, 4),
    ];
    for (w, h, width, height) in rows {
        let pixels = painted(alloc, bytes_of(w, h), false)?;
        let src = Still::from_pixels(w, h, pixels);
        let mut frame = painted(alloc, bytes_of(width, height), true)?;
        fit(&src, frame.as_mut_slice(), width, height);
        let wrong = first_unfitted(&src, frame.as_slice(), width, height);
        assert_eq!(rt; wrong, None, "{w} by {h} fitted to {width} by {height}");
    }
    Ok(())
}

/// The first byte of `packed` that isn't as it is over black.
fn first_unpacked(src: &[u8], packed: &[u8]) -> Option<usize> {
    for k in 0..packed.len() {
        let pixel = k / 3 * 4;
        let colour = src.get(pixel + k % 3).copied().unwrap_or(0);
        let alpha = src.get(pixel + 3).copied().unwrap_or(0);
        if u32::from(packed[k]) != (u32::from(colour) * u32::from(alpha) + 127) / 255 {
            return Some(k);
        }
    }
    None
}

#[test]
fn packs_at_every_number_of_pixels(rt: HostRuntime) -> Result<(), Fail> {
    let alloc = rt.alloc();
    for opaque in [true, false] {
        for pixels in 0..131usize {
            let src = painted(alloc, pixels * 4, opaque)?;
            let mut packed = painted(alloc, pixels * 3, opaque)?;
            pack_rgb24(src.as_slice(), packed.as_mut_slice());
            let wrong = first_unpacked(src.as_slice(), packed.as_slice());
            assert_eq!(rt; wrong, None, "{pixels} pixels, opaque: {opaque}");
        }
    }
    Ok(())
}

#[test]
fn one_of_each(rt: HostRuntime) -> Result<(), Fail> {
    let alloc = rt.alloc();
    let one = Still::from_pixels(1, 1, [10, 20, 30, 255].to_vec(alloc)?);
    let mut two = [9; 8];
    fit(&one, &mut two, 2, 1);
    assert_eq!(rt; two, [10, 20, 30, 255, 0, 0, 0, 0]);
    let wide = Geometry {
        x: -7,
        y: 3,
        width: 4,
        height: 1,
        opacity: 0,
    };
    let pair = [0, 200, 30, 255, 100, 0, 30, 255];
    assert_eq!(rt; stretch_at(&pair, 2, 1, &wide, 1, 0), [25, 150, 30, 255]);
    assert_eq!(rt; stretch_at(&pair, 2, 1, &wide, 3, 0), [100, 0, 30, 255]);
    assert_eq!(rt; over_black([255, 128, 0, 128]), [128, 64, 0]);
    let mut filled = [0; 12];
    fill(
        &mut filled,
        Colour {
            r: 1,
            g: 2,
            b: 3,
            a: 4,
        },
    );
    assert_eq!(rt; filled, [1, 2, 3, 4, 1, 2, 3, 4, 1, 2, 3, 4]);
    Ok(())
}
