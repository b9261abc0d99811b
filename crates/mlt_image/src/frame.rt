//! Pictures fitted into a frame, with their shape kept and transparent black around them.

ghost use Rattle.std.specs.Prelude.{◌≡◌, ℕ, ◌+◌, ◌-◌, ◌*◌, ◌/◌, ◌<◌, ◌≤◌, length, slice_index};
ghost use Rattle.mlt_base.specs.Mixing.{table};
ghost use Rattle.mlt_base.specs.Fitting.{inner, inset, along, framed, fitted};
ghost use Rattle.mlt_image.specs.Kept.{stretched_row, AreRows};
ghost use Rattle.mlt_image.specs.Bordered.{IsBordered};

use crate::rows::Rows;
use crate::stretch::{along, places};
use mlt_base::Still;
use mlt_base::limits::MOST_PIXELS;

/// The most columns of a frame.
const MOST_COLUMNS: usize = MOST_PIXELS as usize;

/// A frame of `width` by `height` pixels, 1 to 4096 each, and the width and height of the picture inside it.
#[derive(Clone, Copy)]
struct Frame {
    width: u32,
    height: u32,
    wide: u32,
    high: u32,
    ghost width_at_most: { width ≤ 4096 },
    ghost height_at_most: { height ≤ 4096 },
    ghost wide_at_least_one: { 1 ≤ wide },
    ghost high_at_least_one: { 1 ≤ high },
    ghost wide_within: { wide ≤ width },
    ghost high_within: { high ≤ height },
}

impl Frame {
    /// Columns before the inner picture.
    fn left(&self) -> usize
        ensures { result ≡ inset self.now.width self.now.wide }
    {
        (self.width - self.wide) as usize / 2
    }

    /// Rows above the inner picture.
    fn top(&self) -> usize
        ensures { result ≡ inset self.now.height self.now.high }
    {
        (self.height - self.high) as usize / 2
    }

    /// Bytes of a row.
    fn row_bytes(&self) -> usize
        ensures { result ≡ self.now.width * 4 }
    {
        self.width as usize * 4
    }
}

/// Fits a picture into a frame of `width` by `height` pixels, each 1 to 4096: as large as its shape allows,
/// in the middle, and transparent black around it. The slice has four bytes a pixel.
pub fn fit(src: &Still, dst: &mut [u8], width: u32, height: u32)
    requires width_from { 1 ≤ width }
    requires width_to { width ≤ 4096 }
    requires height_from { 1 ≤ height }
    requires height_to { height ≤ 4096 }
    requires sized { length dst.old ≡ width * height * 4 }
    ensures { dst.new ≡ table (width * height * 4) (fitted src.now width height) }
{
    if src.width() == width && src.height() == height {
        dst.copy_from_slice(src.pixels());
    } else {
        let frame = Frame {
            width,
            height,
            wide: inner(src.width(), src.height(), width, height),
            high: inner(src.height(), src.width(), height, width),
        };
        fit_inside(src, dst, &frame);
    }
}

/// How much of a frame's side a source's own side takes, where both have another side too.
fn inner(own: u32, other: u32, side: u32, across: u32) -> u32
    requires own { own ≤ 4096 }
    requires other { other ≤ 4096 }
    requires some { 1 ≤ side }
    requires side { side ≤ 4096 }
    requires across { across ≤ 4096 }
    requires other_some { 1 ≤ other }
    ensures value { result ≡ inner own other side across }
    ensures least { 1 ≤ result }
    ensures most { result ≤ side }
{
    if other * side <= own * across {
        side
    } else {
        (own * across / other).max(1)
    }
}

/// Makes bytes transparent black.
fn clear(bytes: &mut [u8])
    ensures { (k : ℕ) → slice_index bytes.new k ≡ 0 }
{
    bytes.fill(0);
}

/// Writes the inner picture, and transparent black above, below and beside it.
fn fit_inside(src: &Still, dst: &mut [u8], frame: &Frame)
    requires sized { length dst.old ≡ frame.now.width * frame.now.height * 4 }
    ensures { dst.new ≡ table (length dst.old) (framed src.now frame.now.width frame.now.height frame.now.wide frame.now.high) }
{
    let (above, rest) = dst.split_at_mut(frame.top() * frame.row_bytes());
    let (middle, below) = rest.split_at_mut(frame.high as usize * frame.row_bytes());
    clear(above);
    write_rows(src, middle, frame);
    clear(below);
}

/// Writes the rows that the inner picture takes.
fn write_rows(src: &Still, rows: &mut [u8], frame: &Frame)
    requires sized { length rows.old ≡ frame.now.high * (frame.now.width * 4) }
    ensures { (k : ℕ) → k < length rows.old
        → slice_index rows.new k ≡ framed src.now frame.now.width frame.now.height frame.now.wide frame.now.high (inset frame.now.height frame.now.high * (frame.now.width * 4) + k) }
{
    if frame.wide == src.width() && frame.high == src.height() {
        copy_rows(src, rows, frame);
    } else {
        stretch_rows(src, rows, frame);
    }
}

/// Writes the rows that the inner picture takes, where it is the source itself.
fn copy_rows(src: &Still, rows: &mut [u8], frame: &Frame)
    requires sized { length rows.old ≡ frame.now.high * (frame.now.width * 4) }
    requires wide { frame.now.wide ≡ src.now.width }
    requires high { frame.now.high ≡ src.now.height }
    ensures { (k : ℕ) → k < length rows.old
        → slice_index rows.new k ≡ framed src.now frame.now.width frame.now.height frame.now.wide frame.now.high (inset frame.now.height frame.now.high * (frame.now.width * 4) + k) }
{
    let bytes = frame.row_bytes();
    let own_bytes = frame.wide as usize * 4;
    for v in 0..frame.high as usize {
        let own = &src.pixels()[v * own_bytes..v * own_bytes + own_bytes];
        copy_row(own, &mut rows[v * bytes..v * bytes + bytes], frame);
    }
}

/// Writes a row of the source, and transparent black beside it.
fn copy_row(own: &[u8], row: &mut [u8], frame: &Frame)
    requires own { length own.now ≡ frame.now.wide * 4 }
    requires row { length row.old ≡ frame.now.width * 4 }
    ensures { IsBordered (inset frame.now.width frame.now.wide * 4) (frame.now.wide * 4) (slice_index own.now) row.new }
{
    let (left, rest) = row.split_at_mut(frame.left() * 4);
    let (inside, right) = rest.split_at_mut(frame.wide as usize * 4);
    clear(left);
    inside.copy_from_slice(own);
    clear(right);
}

/// Writes the rows that the inner picture takes, stretched from the source.
fn stretch_rows(src: &Still, rows: &mut [u8], frame: &Frame)
    requires sized { length rows.old ≡ frame.now.high * (frame.now.width * 4) }
    ensures { (k : ℕ) → k < length rows.old
        → slice_index rows.new k ≡ framed src.now frame.now.width frame.now.height frame.now.wide frame.now.high (inset frame.now.height frame.now.high * (frame.now.width * 4) + k) }
{
    let mut columns = [0; MOST_COLUMNS];
    stretch_each(src, &mut columns[..frame.wide as usize], rows, frame);
}

/// Writes them one by one, with room for the place of each column.
fn stretch_each(src: &Still, columns: &mut [u32], rows: &mut [u8], frame: &Frame)
    requires columns { length columns.old ≡ frame.now.wide }
    requires sized { length rows.old ≡ frame.now.high * (frame.now.width * 4) }
    ensures { (k : ℕ) → k < length rows.old
        → slice_index rows.new k ≡ framed src.now frame.now.width frame.now.height frame.now.wide frame.now.high (inset frame.now.height frame.now.high * (frame.now.width * 4) + k) }
{
    let bytes = frame.row_bytes();
    places(src.width(), columns);
    let mut kept = Rows::new();
    for v in 0..frame.high as usize {
        let place = along(src.height(), frame.high, v as u32);
        let row = &mut rows[v * bytes..v * bytes + bytes];
        stretch_row(src, columns, place, &mut kept, row, frame);
    }
}

/// Writes the row at a place down the source, stretched across, and transparent black beside it.
fn stretch_row(
    src: &Still,
    columns: &[u32],
    place: u32,
    kept: &mut Rows,
    row: &mut [u8],
    frame: &Frame,
)
    requires columns { length columns.now ≡ frame.now.wide }
    requires inside { (u : ℕ) → u < length columns.now → slice_index columns.now u ≤ (src.now.width - 1) * 65536 }
    requires place { place ≤ (src.now.height - 1) * 65536 }
    requires row { length row.old ≡ frame.now.width * 4 }
    requires kept { AreRows src.now.pixels src.now.width columns.now kept.old }
    ensures kept { AreRows src.now.pixels src.now.width columns.now kept.new }
    ensures row { IsBordered (inset frame.now.width frame.now.wide * 4) (frame.now.wide * 4)
        (stretched_row src.now.pixels src.now.width src.now.height columns.now place) row.new }
{
    let (left, rest) = row.split_at_mut(frame.left() * 4);
    let (inside, right) = rest.split_at_mut(frame.wide as usize * 4);
    clear(left);
    kept.stretch(
        src.pixels(),
        src.width() as usize,
        src.height() as usize,
        columns,
        place,
        inside,
    );
    clear(right);
}
