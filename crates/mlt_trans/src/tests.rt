//! Small pictures through each merge, as the definitions compute them.

ghost use Rattle.std.specs.Prelude.{◌≡◌, ◌≤◌, None};
ghost use Rattle.std.specs.Option.{option_copied};
ghost use Rattle.mlt_base.specs.GeometryView.{IsPlacement};
ghost use Rattle.mlt_trans.specs.Maps.{IsMap};
ghost use Rattle.mlt_tree.specs.Merges.{map_of};
ghost use Rattle.mlt_tree.specs.Ranges.{IsMergeStep};
ghost use Rattle.mlt_tree.specs.declared.merge.MergeStep.TheVariants.{Composite};

use super::*;
use mlt_base::{Geometry, Q16, SourceNo};
use mlt_slice::Alone;
use mlt_tree::MergeStep;
use std::alloc::AllocError;

/// Opaque red.
const RED: [u8; 4] = [255, 0, 0, 255];

/// Opaque blue.
const BLUE: [u8; 4] = [0, 0, 255, 255];

/// What a merge without a map makes of one pixel and another.
fn one(step: MergeStep, a: [u8; 4], b: [u8; 4]) -> [u8; 4]
    requires range { IsMergeStep step }
    requires unmapped { map_of step ≡ None }
{
    let mut picture = a;
    merge_pictures(&step, &mut picture, &b, None, 1, &Alone);
    picture
}

/// Four opaque pixels, each of whose colours are one number.
fn greys(numbers: [u8; 4]) -> [u8; 16] {
    let mut picture = [255; 16];
    for k in 0..16 {
        if k % 4 < 3 {
            picture[k] = numbers[k / 4];
        }
    }
    picture
}

/// A geometry.
fn geometry_of(x: i32, y: i32, width: u32, height: u32, opacity: u8) -> Geometry
    ensures { result ≡ record { x = x; y = y; width = width; height = height; opacity = opacity } }
{
    Geometry {
        x,
        y,
        width,
        height,
        opacity,
    }
}

/// Two columns and two rows, with others laid over them.
fn four(geometry: Geometry) -> [u8; 16]
    requires { IsPlacement geometry }
{
    let mut picture = greys([1, 2, 3, 4]);
    let step = MergeStep::Composite { geometry };
    merge_pictures(
        &step,
        &mut picture,
        &greys([50, 60, 70, 80]),
        None,
        2,
        &Alone,
    );
    picture
}

/// The same, by columns that may be kept.
fn four_again(geometry: Geometry, kept: &mut KeptColumns) -> [u8; 16]
    requires { IsPlacement geometry }
{
    let mut picture = greys([1, 2, 3, 4]);
    let step = MergeStep::Composite { geometry };
    merge_again(
        &step,
        &mut picture,
        &greys([50, 60, 70, 80]),
        None,
        2,
        kept,
        &Alone,
    );
    picture
}

/// The same, written to another picture.
fn four_from(geometry: Geometry, kept: &mut KeptColumns) -> [u8; 16]
    requires { IsPlacement geometry }
{
    let mut picture = [9; 16];
    let step = MergeStep::Composite { geometry };
    merge_from(
        &step,
        &greys([1, 2, 3, 4]),
        &mut picture,
        &greys([50, 60, 70, 80]),
        None,
        2,
        kept,
        &Alone,
    );
    picture
}

/// Two red pixels that turn blue by a map of two greys.
fn wiped(softness: u32, q: u32, map: [u8; 8]) -> [u8; 8]
    requires { (softness ≤ 65536) × (q ≤ 65536) }
{
    let mut picture = [255, 0, 0, 255, 255, 0, 0, 255];
    let step = MergeStep::Luma {
        map: Some(SourceNo(0)),
        softness: Q16(softness),
        q: Q16(q),
    };
    merge_pictures(
        &step,
        &mut picture,
        &[0, 0, 255, 255, 0, 0, 255, 255],
        Some(&map),
        2,
        &Alone,
    );
    picture
}

#[test]
fn merges_of_pixels(rt: HostRuntime) {
    let half = MergeStep::Luma {
        map: None,
        softness: Q16(0),
        q: Q16(32768),
    };
    assert_eq!(rt; one(half, RED, BLUE), [128, 0, 128, 255]);
    assert_eq!(rt;
        one(MergeStep::Matte, [255, 0, 0, 7], [255, 255, 255, 3]),
        [255, 0, 0, 255]
    );
    assert_eq!(rt; one(MergeStep::Matte, BLUE, RED), [0, 0, 255, 76]);
    let whole = MergeStep::Composite {
        geometry: geometry_of(0, 0, 1, 1, 100),
    };
    assert_eq!(rt; one(whole, RED, [0, 0, 255, 128]), [127, 0, 128, 255]);
    assert_eq!(rt; one(MergeStep::Mix { p: 0, len: 1 }, RED, BLUE), RED);
    assert_eq!(rt; one(MergeStep::Sum, RED, BLUE), RED);
}

#[test]
fn rectangles(rt: HostRuntime) {
    assert_eq!(rt; four(geometry_of(1, 1, 2, 2, 100)), greys([1, 2, 3, 50]));
    assert_eq!(rt; four(geometry_of(-1, -1, 2, 2, 100)), greys([80, 2, 3, 4]));
    assert_eq!(rt; four(geometry_of(0, 1, 1, 1, 100)), greys([1, 2, 65, 4]));
    assert_eq!(rt; four(geometry_of(2, 0, 2, 2, 100)), greys([1, 2, 3, 4]));
    assert_eq!(rt; four(geometry_of(-1, 0, 3, 1, 100)), greys([65, 70, 3, 4]));
}

#[test]
fn columns_are_kept(rt: HostRuntime) -> Result<(), AllocError> {
    let mut kept = KeptColumns::new(rt.alloc())?;
    for _ in 0..2 {
        for width in 1..12 {
            let geometry = geometry_of(-1, 0, width, 2, 100);
            assert_eq!(rt; four_again(geometry, &mut kept), four(geometry));
            assert_eq!(rt; four_from(geometry, &mut kept), four(geometry));
        }
    }
    let whole = geometry_of(0, 0, 2, 2, 100);
    assert_eq!(rt; four_again(whole, &mut kept), greys([50, 60, 70, 80]));
    assert_eq!(rt; four_from(whole, &mut kept), greys([50, 60, 70, 80]));
    Ok(())
}

/// A red pixel that turns blue by a map, written to another one.
fn turned(map: Option<SourceNo>, light: Option<&[u8]>, kept: &mut KeptColumns) -> [u8; 4]
    requires { IsMap map 4 (option_copied light) }
{
    let step = MergeStep::Luma {
        map,
        softness: Q16(65536),
        q: Q16(32768),
    };
    let mut picture = [9; 4];
    merge_from(&step, &RED, &mut picture, &BLUE, light, 1, kept, &Alone);
    picture
}

#[test]
fn merges_into_others(rt: HostRuntime) -> Result<(), AllocError> {
    let mut kept = KeptColumns::new(rt.alloc())?;
    assert_eq!(rt; turned(None, None, &mut kept), [128, 0, 128, 255]);
    let light = [0, 0, 0, 255];
    assert_eq!(rt; turned(Some(SourceNo(0)), Some(&light), &mut kept), BLUE);
    let mut picture = [9; 4];
    merge_from(
        &MergeStep::Matte,
        &RED,
        &mut picture,
        &BLUE,
        None,
        1,
        &mut kept,
        &Alone,
    );
    assert_eq!(rt; picture, [255, 0, 0, 28]);
    Ok(())
}

#[test]
fn maps(rt: HostRuntime) {
    assert_eq!(rt;
        wiped(0, 32768, [127, 127, 127, 255, 128, 128, 128, 255]),
        [0, 0, 255, 255, 255, 0, 0, 255]
    );
    assert_eq!(rt;
        wiped(65536, 16384, [0, 0, 0, 255, 255, 255, 255, 255]),
        [128, 0, 128, 255, 255, 0, 0, 255]
    );
    assert_eq!(rt;
        wiped(65536, 65536, [0, 0, 0, 255, 255, 255, 255, 255]),
        [0, 0, 255, 255, 0, 0, 255, 255]
    );
}
