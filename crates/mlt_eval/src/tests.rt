//! Fitted pictures, a rack and rendered frames as a caller sees them.

ghost use Rattle.std.specs.Prelude.{◌≡◌, ◌<◌, None, length, IfOk};
ghost use Rattle.mlt_base.specs.ProfileView.{measures_of};
ghost use Rattle.mlt_tree.specs.Show.{AreFitted};
ghost use Rattle.mlt_frame.specs.Started.{CanRun};
ghost use Rattle.mlt_pool.specs.Counts.{all_lent};

use super::*;
use mlt_base::{Pos, Profile, Q16, Rate, SourceNo, Text};
use mlt_frame::{Frame, Op, OpStack};
use mlt_graph::{Format, Output, Pix};
use mlt_image::Colour;
use mlt_pool::Pool;
use mlt_slice::Alone;
use mlt_source::SourceTable;
use mlt_tree::{FilterStep, MergeStep};
use std::alloc::{AllocError, Global};
use std::test::Fail;

/// Whether a value may be sent to a thread and shared with one: where this can be called, it may.
fn may_cross<T: Send + Sync>(_value: &T) -> bool {
    true
}

/// Whether there is a rack of `count` blocks of 100 bytes, and how many blocks are lent while there is
/// and afterwards, where two blocks are home.
fn lend_rack(alloc: Global, count: u32) -> Result<(bool, u64, u64), AllocError> {
    let mut pool = Pool::new(alloc);
    if pool.reserve(12, 2).is_err() {
        pool.close();
        return Err(AllocError);
    }
    match Rack::new(alloc, &mut pool, count, 100) {
        Ok(Some(rack)) => {
            let crosses = may_cross(&rack);
            let during = pool.lent();
            rack.end(&mut pool);
            let after = pool.lent();
            pool.close();
            Ok((crosses, during, after))
        }
        Ok(None) => {
            let lent = pool.lent();
            pool.close();
            Ok((false, lent, lent))
        }
        Err(refused) => {
            pool.close();
            Err(refused)
        }
    }
}

#[test]
fn a_rack_takes_its_blocks_and_brings_them_home(rt: HostRuntime) -> Result<(), Fail> {
    let rows = [(0, (true, 0, 0)), (2, (true, 2, 0)), (3, (false, 0, 0))];
    for (count, told) in rows {
        assert_eq!(rt; lend_rack(rt.alloc(), count)?, told);
    }
    Ok(())
}

/// Frames of two pixels, one beside the other.
fn two_pixels() -> Profile
    ensures { (result.width ≡ 2) × (result.height ≡ 1) }
{
    Profile {
        width: 2,
        height: 1,
        rate: Rate { num: 1000, den: 1 },
    }
}

#[test]
fn a_fitted_picture_is_found_by_its_number(rt: HostRuntime) -> Result<(), Fail> {
    let alloc = rt.alloc();
    let mut table = SourceTable::new(alloc);
    let grey = Colour {
        r: 7,
        g: 7,
        b: 7,
        a: 255,
    };
    let no = table.add_colour(grey)?;
    let profile = two_pixels();
    let mut fitted = Fitted::new(alloc, 1)?;
    let still = Fitted::make(alloc, &table, no, &profile)?;
    assert!(rt; may_cross(&fitted));
    assert_eq!(rt; fitted.spare(), 1);
    assert!(rt; fitted.add(no, still));
    let second = Fitted::make(alloc, &table, no, &profile)?;
    assert!(rt; !fitted.add(SourceNo(9), second));
    assert!(rt; fitted.find(SourceNo(9)).is_none());
    let Some(place) = fitted.find(no) else {
        return Err(Fail::new("not found"));
    };
    assert_eq!(rt;
        fitted.pixels(place),
        [7, 7, 7, 255, 7, 7, 7, 255].as_slice()
    );
    fitted.clear();
    assert!(rt; fitted.find(no).is_none());
    Ok(())
}

/// An opaque colour, and one that can be seen through.
fn two_sources(alloc: Global) -> Result<SourceTable, AllocError>
    ensures { IfOk result (λ table. length table ≡ 2) }
{
    let mut table = SourceTable::new(alloc);
    table.add_colour(Colour {
        r: 200,
        g: 100,
        b: 50,
        a: 255,
    })?;
    table.add_colour(Colour {
        r: 10,
        g: 20,
        b: 30,
        a: 128,
    })?;
    Ok(table)
}

/// The first source's picture, fitted.
fn fit_first(alloc: Global, table: &SourceTable, profile: &Profile) -> Result<Fitted, AllocError>
    requires { 0 < length table.now }
    ensures { IfOk result (λ fitted. AreFitted (measures_of profile.now) table.now fitted.fits) }
{
    let still = Fitted::make(alloc, table, SourceNo(0), profile)?;
    let mut fitted = Fitted::new(alloc, 1)?;
    fitted.add(SourceNo(0), still);
    Ok(fitted)
}

/// An output without sound.
fn pictures_alone(alloc: Global, pix: Pix) -> Result<Output, AllocError>
    ensures { IfOk result (λ output. (output.pix ≡ pix) × (output.audio ≡ None)) }
{
    Ok(Output {
        video: Text::new(alloc, "-")?,
        audio: None,
        pix,
        first: Pos(0),
        last: Pos(0),
        workers: 0,
        buffer: 25,
        slices: 1,
        cache: 4,
        channels: 2,
        format: Format::S16,
    })
}

/// The stack of these operations.
fn stack_of(alloc: Global, ops: &[Op]) -> Result<OpStack, AllocError>
    ensures { IfOk result (λ stack. stack.ops ≡ ops.now) }
{
    let mut stack = OpStack::new(alloc);
    for op in ops {
        if let Err(refused) = stack.push(*op) {
            return Err(refused.1);
        }
    }
    Ok(stack)
}

/// What a rendered frame told: whether its bytes are those that are expected, its position, how many sources
/// it loaded, and how many bytes of sound it has.
type Told = (bool, u32, u32, usize);

/// What a rendered frame tells.
fn tell(rendered: &Rendered, expected: &[u8]) -> Told {
    (
        may_cross(rendered) && rendered.video() == expected,
        rendered.at().0,
        rendered.loads(),
        rendered.sound().len(),
    )
}

/// Renders a frame with operations on two sources, the first of which is fitted, in a rack of three blocks
/// that are longer than a picture.
fn render_lent(
    alloc: Global,
    pool: &mut Pool,
    ops: &[Op],
    pix: Pix,
    expected: &[u8],
) -> Result<Option<Told>, AllocError>
    requires runs { CanRun 3 2 ops.now }
    ensures { all_lent pool.new ≡ all_lent pool.old }
{
    let profile = two_pixels();
    let table = two_sources(alloc)?;
    let fitted = fit_first(alloc, &table, &profile)?;
    let output = pictures_alone(alloc, pix)?;
    let image = stack_of(alloc, ops)?;
    if output.piece(&profile) > 200 {
        return Ok(None);
    }
    let Ok(Some(mut rack)) = Rack::new(alloc, pool, 3, 200) else {
        return Ok(None);
    };
    let Some(lease) = pool.lend(200) else {
        rack.end(pool);
        return Ok(None);
    };
    let frame = Frame::new(Pos(5), image, OpStack::new(alloc), lease);
    let rendered = render(frame, &table, &fitted, &mut rack, &Alone, &profile, &output);
    let told = tell(&rendered, expected);
    let (lease, _) = rendered.into_parts();
    pool.home(lease);
    rack.end(pool);
    Ok(Some(told))
}

/// The same with a pool of its own.
fn render_ops(
    alloc: Global,
    ops: &[Op],
    pix: Pix,
    expected: &[u8],
) -> Result<Option<Told>, AllocError>
    requires runs { CanRun 3 2 ops.now }
{
    let mut pool = Pool::new(alloc);
    if pool.reserve(12, 4).is_err() {
        pool.close();
        return Err(AllocError);
    }
    let told = render_lent(alloc, &mut pool, ops, pix, expected);
    pool.close();
    told
}

/// The load of the source that is fitted.
const FIRST: Op = Op::Load {
    source: SourceNo(0),
    at: Pos(5),
};

/// The load of the other one.
const SECOND: Op = Op::Load {
    source: SourceNo(1),
    at: Pos(5),
};

/// Turns the colours of the top register around.
const INVERT: Op = Op::Filter {
    depth: 0,
    step: FilterStep::Invert,
};

/// Leaves the upper one of the top two registers.
const UPPER: Op = Op::Keep { row: 1, count: 2 };

/// Leaves the lower one of the top two registers.
const LOWER: Op = Op::Keep { row: 0, count: 2 };

/// Dissolves the lower one of the top two registers into the upper one, halfway.
const DISSOLVE: Op = Op::Merge {
    a: 1,
    b: 0,
    step: MergeStep::Luma {
        map: None,
        softness: Q16(0),
        q: Q16(32768),
    },
};

/// Wipes from the lower one of the top two registers to the upper one, softly, by the source that isn't fitted.
const WIPE: Op = Op::Merge {
    a: 1,
    b: 0,
    step: MergeStep::Luma {
        map: Some(SourceNo(1)),
        softness: Q16(65536),
        q: Q16(16384),
    },
};

#[test]
fn frames_are_rendered(rt: HostRuntime) -> Result<(), Fail> {
    let alloc = rt.alloc();
    let fitted = render_ops(alloc, &[FIRST], Pix::Rgb, &[200, 100, 50, 200, 100, 50])?;
    assert_eq!(rt; fitted, Some((true, 5, 1, 0)));
    let filtered = render_ops(
        alloc,
        &[FIRST, INVERT],
        Pix::Rgba,
        &[55, 155, 205, 255, 55, 155, 205, 255],
    )?;
    assert_eq!(rt; filtered, Some((true, 5, 1, 0)));
    let nothing = render_ops(alloc, &[Op::Absent], Pix::Rgb, &[0; 6])?;
    assert_eq!(rt; nothing, Some((true, 5, 0, 0)));
    let kept = render_ops(
        alloc,
        &[FIRST, SECOND, UPPER],
        Pix::Rgb,
        &[5, 10, 15, 5, 10, 15],
    )?;
    assert_eq!(rt; kept, Some((true, 5, 2, 0)));
    let dissolved = render_ops(
        alloc,
        &[FIRST, SECOND, DISSOLVE, LOWER],
        Pix::Rgba,
        &[105, 60, 40, 192, 105, 60, 40, 192],
    )?;
    assert_eq!(rt; dissolved, Some((true, 5, 2, 0)));
    let wiped = render_ops(
        alloc,
        &[FIRST, SECOND, WIPE, LOWER],
        Pix::Rgba,
        &[118, 66, 41, 200, 118, 66, 41, 200],
    )?;
    assert_eq!(rt; wiped, Some((true, 5, 2, 0)));
    Ok(())
}
