//! A table with a colour and a picture.

use super::*;
use mlt_base::{Profile, Rate, SourceNo, Still};
use mlt_image::Colour;
use mlt_tree::SourceKind;
use std::test::Fail;

#[test]
fn a_colour_and_a_picture_are_loaded(rt: HostRuntime) -> Result<(), Fail> {
    let alloc = rt.alloc();
    let mut table = SourceTable::new(alloc);
    let half_red = Colour {
        r: 255,
        g: 0,
        b: 0,
        a: 128,
    };
    assert_eq!(rt; table.add_colour(half_red)?, SourceNo(0));
    let mut still = Still::new(alloc, 1, 1)?;
    still.pixels_mut().copy_from_slice(&[10, 20, 30, 255]);
    assert_eq!(rt; table.add_still(still)?, SourceNo(1));
    let profile = Profile {
        width: 2,
        height: 1,
        rate: Rate { num: 25, den: 1 },
    };
    assert_eq!(rt; table.kind(SourceNo(0)), SourceKind::Colour);
    assert_eq!(rt; table.kind(SourceNo(1)), SourceKind::Still);
    assert_eq!(rt; table.length(SourceNo(0), &profile), 15000);
    assert_eq!(rt; table.length(SourceNo(1), &profile), 15000);
    assert!(rt; table.source(SourceNo(2)).is_none());
    let mut frame = [7; 8];
    table.load_into(SourceNo(0), &mut frame, &profile);
    assert_eq!(rt; frame, [255, 0, 0, 128, 255, 0, 0, 128]);
    table.load_into(SourceNo(1), &mut frame, &profile);
    assert_eq!(rt; frame, [10, 20, 30, 255, 0, 0, 0, 0]);
    Ok(())
}
