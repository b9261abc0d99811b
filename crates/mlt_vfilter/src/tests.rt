//! Small pictures through each filter, as the definitions compute them.

ghost use Rattle.std.specs.Prelude.{◌≡◌};
ghost use Rattle.mlt_tree.specs.Ranges.{IsFilterStep};
ghost use Rattle.mlt_tree.specs.declared.filter.FilterStep.TheVariants.{Crop};

use super::*;
use mlt_base::Q16;
use mlt_slice::Alone;
use mlt_tree::FilterStep;

/// What a filter makes of one pixel, written to another one.
fn one(step: FilterStep, pixel: [u8; 4]) -> [u8; 4]
    requires { IsFilterStep step }
{
    let mut picture = [0; 4];
    apply_from(&step, &pixel, &mut picture, 1, &Alone);
    picture
}

/// Six pixels, each of whose bytes are one number.
fn greys(numbers: [u8; 6]) -> [u8; 24] {
    let mut picture = [0; 24];
    for k in 0..24 {
        picture[k] = numbers[k / 4];
    }
    picture
}

/// What a filter makes of two columns and three rows.
fn six(step: FilterStep) -> [u8; 24]
    requires { IsFilterStep step }
{
    let mut picture = greys([1, 2, 3, 4, 5, 6]);
    apply(&step, &mut picture, 2, &Alone);
    picture
}

/// The same, written to another picture.
fn six_from(step: FilterStep) -> [u8; 24]
    requires { IsFilterStep step }
{
    let mut picture = [9; 24];
    apply_from(&step, &greys([1, 2, 3, 4, 5, 6]), &mut picture, 2, &Alone);
    picture
}

/// A crop.
fn crop_of(left: u32, right: u32, top: u32, bottom: u32) -> FilterStep
    ensures { result ≡ Crop left right top bottom }
{
    FilterStep::Crop {
        left,
        right,
        top,
        bottom,
    }
}

#[test]
fn filters_of_pixels(rt: HostRuntime) {
    let half = Q16(32768);
    let most = Q16(4294967295);
    assert_eq!(rt; one(FilterStep::Invert, [255, 0, 0, 7]), [0, 255, 255, 7]);
    assert_eq!(rt;
        one(FilterStep::Greyscale, [0, 255, 255, 255]),
        [178, 178, 178, 255]
    );
    assert_eq!(rt;
        one(FilterStep::Threshold { midpoint: 200 }, [0, 255, 255, 255]),
        [0, 0, 0, 255]
    );
    assert_eq!(rt;
        one(FilterStep::Threshold { midpoint: 178 }, [0, 255, 255, 9]),
        [255, 255, 255, 9]
    );
    assert_eq!(rt;
        one(FilterStep::Sepia, [255, 0, 0, 255]),
        [116, 96, 76, 255]
    );
    assert_eq!(rt;
        one(FilterStep::Sepia, [255, 255, 255, 1]),
        [255, 255, 255, 1]
    );
    assert_eq!(rt;
        one(FilterStep::Brightness { level: half }, [200, 255, 1, 200]),
        [100, 128, 1, 200]
    );
    assert_eq!(rt;
        one(FilterStep::Brightness { level: most }, [1, 0, 255, 3]),
        [255, 0, 255, 3]
    );
    assert_eq!(rt;
        one(FilterStep::Opacity { level: half }, [200, 255, 1, 255]),
        [200, 255, 1, 128]
    );
    assert_eq!(rt;
        one(
            FilterStep::SwapChannels {
                order: [2, 1, 0, 3]
            },
            [1, 2, 3, 4]
        ),
        [3, 2, 1, 4]
    );
    assert_eq!(rt;
        one(
            FilterStep::SwapChannels {
                order: [3, 3, 0, 0]
            },
            [1, 2, 3, 4]
        ),
        [4, 4, 1, 1]
    );
    assert_eq!(rt;
        one(FilterStep::Volume { level: Q16(0) }, [1, 2, 3, 4]),
        [1, 2, 3, 4]
    );
}

#[test]
fn filters_of_places(rt: HostRuntime) {
    assert_eq!(rt;
        six(FilterStep::Mirror { vertical: false }),
        greys([2, 1, 4, 3, 6, 5])
    );
    assert_eq!(rt;
        six(FilterStep::Mirror { vertical: true }),
        greys([5, 6, 3, 4, 1, 2])
    );
    assert_eq!(rt; six(crop_of(1, 0, 1, 0)), greys([0, 0, 0, 4, 0, 6]));
    assert_eq!(rt; six(crop_of(0, 1, 0, 1)), greys([1, 0, 3, 0, 0, 0]));
    assert_eq!(rt; six(crop_of(0, 0, 0, 4096)), greys([0, 0, 0, 0, 0, 0]));
    assert_eq!(rt;
        six(FilterStep::Obscure { size: 2 }),
        greys([1, 1, 1, 1, 5, 5])
    );
    assert_eq!(rt; six_from(crop_of(1, 0, 1, 0)), greys([0, 0, 0, 4, 0, 6]));
    assert_eq!(rt;
        six_from(FilterStep::Mirror { vertical: true }),
        greys([5, 6, 3, 4, 1, 2])
    );
}
