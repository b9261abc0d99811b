//! Where a picture goes in a frame, and how large and opaque it is there.

ghost use Rattle.std.specs.Prelude.{◌≡◌, ℕ, ◌≤◌, ℤ, Option, IfSome, unsigned_abs};
ghost use Rattle.std.specs.Option.{option_map};
ghost use Rattle.mlt_base.specs.declared.limits.TheConstants.{MOST_CORNER, MOST_HUNDREDTHS, MOST_OFFSET, MOST_OPACITY, MOST_PIXELS};
ghost use Rattle.mlt_base.specs.SplitOnce.{split_once};
ghost use Rattle.mlt_base.specs.Geometry.{near_zero, counted, hundredths, offset_from, offset, extent_from, extent, corner_cut, corner, area, area_from, shape, geometry};

use crate::limits::{MOST_HUNDREDTHS, MOST_OFFSET, MOST_OPACITY, MOST_PIXELS};
use crate::profile::Profile;
use crate::reading::split_once;
use crate::whole::whole_of;

/// Where a picture goes in a frame: its left upper corner and its size, in pixels, and its opacity in
/// hundredths, 0 to 100.
///
/// The corner may lie outside the frame, up to 40,960 pixels from its left or upper edge. Width and
/// height are 1 to 4096. A call that is handed one asks for these ranges (`IsPlacement` in
/// `specs/GeometryView`).
#[derive(Clone, Copy, Debug)]
pub struct Geometry {
    pub x: i32,
    pub y: i32,
    pub width: u32,
    pub height: u32,
    pub opacity: u8,
}

/// A whole number at most so far from 0.
#[tactic(auto, unfolding(crate::specs::Geometry::near_zero))]
fn near_zero(limit: u32, text: &[u8]) -> Option<i32>
    requires { limit ≤ MOST_OFFSET }
    ensures value { result ≡ near_zero limit text.now }
    ensures near { IfSome result (λ n. unsigned_abs n ≤ limit) }
{
    match whole_of(text) {
        Ok(n) if n.unsigned_abs() <= u64::from(limit) => Some(n as i32),
        _ => None,
    }
}

/// A whole number from low to high.
#[tactic(auto, unfolding(crate::specs::Geometry::counted))]
fn counted(low: u32, high: u32, text: &[u8]) -> Option<u32>
    requires { high ≤ MOST_OFFSET }
    ensures value { result ≡ counted low high text.now }
    ensures from { IfSome result (λ n. low ≤ n) }
    ensures to { IfSome result (λ n. n ≤ high) }
{
    let n = near_zero(high, text)?;
    if n >= 0 && n as u32 >= low {
        Some(n as u32)
    } else {
        None
    }
}

/// Hundredths of a size, rounded towards 0.
fn hundredths(size: u32, n: i32) -> i32
    requires small { unsigned_abs n ≤ MOST_HUNDREDTHS }
    requires sized { size ≤ MOST_PIXELS }
    ensures value { result ≡ hundredths size n }
    ensures near { unsigned_abs result ≤ MOST_CORNER }
{
    let pixels = (n.unsigned_abs() * size / 100) as i32;
    if n < 0 { -pixels } else { pixels }
}

/// Where a picture begins along a size: in pixels, or in hundredths of the size.
#[tactic(auto, unfolding(crate::specs::Geometry::offset))]
fn offset(size: u32, text: &[u8]) -> Option<i32>
    requires { size ≤ MOST_PIXELS }
    ensures value { result ≡ offset size text.now }
    ensures near { IfSome result (λ n. unsigned_abs n ≤ MOST_CORNER) }
{
    match split_once(b'%', text) {
        None => near_zero(MOST_OFFSET, text),
        Some((front, [])) => Some(hundredths(size, near_zero(MOST_HUNDREDTHS, front)?)),
        Some(_) => None,
    }
}

/// How far a picture goes along a size: in pixels, or in hundredths of the size.
#[tactic(auto, unfolding(crate::specs::Geometry::extent))]
fn extent(size: u32, text: &[u8]) -> Option<u32>
    requires { size ≤ MOST_PIXELS }
    ensures value { result ≡ extent size text.now }
    ensures from { IfSome result (λ n. 1 ≤ n) }
    ensures to { IfSome result (λ n. n ≤ MOST_PIXELS) }
{
    match split_once(b'%', text) {
        None => counted(1, MOST_PIXELS, text),
        Some((front, [])) => Some(
            (counted(1, MOST_HUNDREDTHS, front)? * size / 100)
                .min(MOST_PIXELS)
                .max(1),
        ),
        Some(_) => None,
    }
}

/// Two texts around a `/`, or around a `,` where there is no `/`.
fn corner_cut(text: &[u8]) -> Option<(&[u8], &[u8])>
    ensures { option_map (λ x. (x.0.now, x.1.now)) result ≡ corner_cut text.now (split_once 47 text.now) }
{
    match split_once(b'/', text) {
        Some(parts) => Some(parts),
        None => split_once(b',', text),
    }
}

/// X and Y.
#[tactic(auto, unfolding(crate::specs::Geometry::corner))]
fn corner(width: u32, height: u32, text: &[u8]) -> Option<(i32, i32)>
    requires width { width ≤ MOST_PIXELS }
    requires height { height ≤ MOST_PIXELS }
    ensures value { result ≡ corner width height text.now }
    ensures x { IfSome result (λ n. unsigned_abs n.0 ≤ MOST_CORNER) }
    ensures y { IfSome result (λ n. unsigned_abs n.1 ≤ MOST_CORNER) }
{
    let (x, y) = corner_cut(text)?;
    Some((offset(width, x)?, offset(height, y)?))
}

/// W and H.
#[tactic(auto, unfolding(crate::specs::Geometry::area))]
fn area(width: u32, height: u32, text: &[u8]) -> Option<(u32, u32)>
    requires width { width ≤ MOST_PIXELS }
    requires height { height ≤ MOST_PIXELS }
    ensures value { result ≡ area width height text.now }
    ensures from { IfSome result (λ n. (1 ≤ n.0) × (1 ≤ n.1)) }
    ensures to { IfSome result (λ n. (n.0 ≤ MOST_PIXELS) × (n.1 ≤ MOST_PIXELS)) }
{
    let (w, h) = split_once(b'x', text)?;
    Some((extent(width, w)?, extent(height, h)?))
}

/// W, H and O, which is 100 where nothing is said.
#[tactic(auto, unfolding(crate::specs::Geometry::shape))]
fn shape(width: u32, height: u32, text: &[u8]) -> Option<(u32, u32, u32)>
    requires width { width ≤ MOST_PIXELS }
    requires height { height ≤ MOST_PIXELS }
    ensures value { result ≡ shape width height text.now }
    ensures from { IfSome result (λ n. (1 ≤ n.0) × (1 ≤ n.1)) }
    ensures to { IfSome result (λ n. (n.0 ≤ MOST_PIXELS) × (n.1 ≤ MOST_PIXELS) × (n.2 ≤ MOST_OPACITY)) }
{
    match split_once(b':', text) {
        None => {
            let (w, h) = area(width, height, text)?;
            Some((w, h, MOST_OPACITY))
        }
        Some((size, rest)) => {
            let (w, h) = area(width, height, size)?;
            Some((w, h, counted(0, MOST_OPACITY, rest)?))
        }
    }
}

impl Geometry {
    ghost use Rattle.mlt_base.specs.GeometryView.{rectangle_of, IsPlacement};

    /// Reads a geometry, `X/Y:WxH` or `X/Y:WxH:O`, in a profile; `,` may stand for `/`.
    ///
    /// X and Y are whole numbers, -16384 to 16384, or hundredths of the profile's width and height with
    /// a `%` behind them, -1000 to 1000; W and H are 1 to 4096, or 1 to 1000 hundredths, which are then
    /// taken as at least 1 and at most 4096 pixels. O is 0 to 100, and 100 where it isn't given. `None`
    /// comes where the text has no such form or a number is out of its range.
    #[tactic(auto, unfolding(crate::specs::Geometry::geometry))]
    pub fn read(text: &str, profile: &Profile) -> Option<Geometry>
        ensures value { option_map rectangle_of result ≡ geometry profile.now.width profile.now.height text.now }
        ensures range { IfSome result IsPlacement }
    {
        let (first, second) = split_once(b':', text.as_bytes())?;
        let (x, y) = corner(profile.width, profile.height, first)?;
        let (width, height, opacity) = shape(profile.width, profile.height, second)?;
        Some(Geometry {
            x,
            y,
            width,
            height,
            opacity: opacity as u8,
        })
    }
}
