//! Composite: one picture laid over the other at a place and a size.
//!
//! Only the columns of the rectangle that lie in the frame are stretched, and their places along the picture are
//! found once for all rows, and kept for the next frame.

ghost use Rattle.std.specs.Prelude.{◌≡◌, ℕ, ◌+◌, ◌*◌, ◌%◌, ◌<◌, ◌≤◌, List, length, slice_index, Some, IfSome};
ghost use Rattle.mlt_base.specs.GeometryView.{IsPlacement};
ghost use Rattle.mlt_base.specs.Mixing.{table, alpha_at, strength, laid_channel};
ghost use Rattle.mlt_slice.specs.Rows.{by_bytes};
ghost use Rattle.mlt_tree.specs.Merges.{offset_in};
ghost use Rattle.mlt_tree.specs.declared.merge.MergeStep.TheVariants.{Composite};
ghost use Rattle.mlt_trans.specs.Placed.{IsVisible, laid_by_row, laid_row};
ghost use Rattle.mlt_trans.specs.Ready.{IsRoom, Keeps};

use crate::columns::Columns;
use mlt_base::Geometry;
use mlt_base::limits::MOST_PIXELS;
use mlt_image::rows::Rows;
use mlt_image::stretch::along;
use mlt_kernel::over::over;

/// The most bytes of a row.
const MOST_BYTES: usize = MOST_PIXELS as usize * 4;

/// The places of a frame's side that show a rectangle: `count` from `from` on. The first of them shows the
/// rectangle's place `skip`.
#[derive(Clone, Copy)]
pub struct Part {
    pub from: usize,
    pub skip: usize,
    pub count: usize,
}

/// The places of a side that show a rectangle of so many places from `start` on.
fn visible(start: i32, size: u32, side: u32) -> Part
    ensures { IsVisible start size side result.from result.skip result.count }
{
    let size = size as usize;
    let side = side as usize;
    if start < 0 {
        let skip = (start.unsigned_abs() as usize).min(size);
        Part {
            from: 0,
            skip,
            count: (size - skip).min(side),
        }
    } else {
        let from = (start as usize).min(side);
        Part {
            from,
            skip: 0,
            count: size.min(side - from),
        }
    }
}

/// How far a place lies behind a start, where it is one of so many from there; the start may lie before place 0.
fn offset_in(start: i32, size: u32, at: u32) -> Option<u32>
    ensures value { result ≡ offset_in start size at }
    ensures below { IfSome result (λ place. place < size) }
{
    if start < 0 {
        let place = u64::from(at) + u64::from(start.unsigned_abs());
        if place < u64::from(size) {
            Some(place as u32)
        } else {
            None
        }
    } else {
        let first = start as u32;
        if first <= at && u64::from(at) < u64::from(first) + u64::from(size) {
            Some(at - first)
        } else {
            None
        }
    }
}

/// Lays `top` over a row, from pixel `from` on.
fn lay(row: &mut [u8], from: usize, top: &[u8], opacity: u8)
    requires room { from * 4 + length top.now ≤ length row.old }
    requires pixels { length top.now % 4 ≡ 0 }
    requires hundredths { opacity ≤ 100 }
    ensures done { (j : ℕ) → j < length top.now → slice_index row.new (from * 4 + j)
        ≡ laid_channel (j % 4) (alpha_at row.old (from * 4 + j)) (strength (alpha_at top.now j) opacity) (slice_index row.old (from * 4 + j)) (slice_index top.now j) }
    ensures before { (k : ℕ) → k < from * 4 → slice_index row.new k ≡ slice_index row.old k }
    ensures after { (k : ℕ) → from * 4 + length top.now ≤ k → slice_index row.new k ≡ slice_index row.old k }
{
    let at = from * 4;
    over(&mut row[at..at + top.len()], top, opacity);
}

/// What stretching keeps from one row to the next: the columns of the frame that show the rectangle, rows of the
/// picture, and room for a stretched one.
#[derive(Drop)]
pub struct Room {
    pub columns: Part,
    pub rows: Rows,
    pub top: [u8; MOST_BYTES],
}

impl Room {
    /// For a rectangle in a frame of `width` columns; no row is kept yet.
    pub fn new(geometry: &Geometry, width: u32) -> Room
        requires { IsPlacement geometry.now }
        ensures { (above : List ℕ) → IsRoom geometry.now width above result }
    {
        Room {
            columns: visible(geometry.x, geometry.width, width),
            rows: Rows::new(),
            top: [0; MOST_BYTES],
        }
    }
}

/// A picture of `width` by `height` pixels, and where it is laid over one of the same size.
#[derive(Clone, Copy)]
pub(crate) struct Layer<'a> {
    pub b: &'a [u8],
    pub width: u32,
    pub height: u32,
    pub geometry: Geometry,
    pub ghost some_columns: { 1 ≤ width },
    pub ghost few_columns: { width ≤ 4096 },
    pub ghost some_rows: { 1 ≤ height },
    pub ghost few_rows: { height ≤ 4096 },
    pub ghost sized: { length b.now ≡ width * height * 4 },
    pub ghost placed: { IsPlacement geometry },
}

impl Layer<'_> {
    /// Lays it over the row of a number: its own rows where nothing is kept, else stretched ones. `columns` has the
    /// places of the rectangle's columns.
    pub fn lay(&self, columns: &Columns, kept: &mut Option<Room>, number: u32, row: &mut [u8])
        requires columns { columns.now ≡ record { pixels = self.now.width; taken = self.now.geometry.width } }
        requires keeps { Keeps (Composite self.now.geometry) self.now.width self.now.height self.now.b.now kept.old }
        requires long { length row.old ≡ self.now.width * 4 }
        ensures keeps { Keeps (Composite self.now.geometry) self.now.width self.now.height self.now.b.now kept.new }
        ensures row { row.new ≡ by_bytes (laid_row self.now.geometry (record { width = self.now.width; height = self.now.height; pixels = self.now.b.now })) number row.old }
    {
        let geometry = self.geometry;
        if let Some(v) = offset_in(geometry.y, geometry.height, number) {
            match kept {
                None => self.lay_own(v, row),
                Some(room) => self.lay_stretched(columns, room, v, row),
            }
        }
    }

    /// Lays its row `v` over a row, where its rectangle has its own size.
    fn lay_own(&self, v: u32, row: &mut [u8])
        requires wide { self.now.geometry.width ≡ self.now.width }
        requires high { self.now.geometry.height ≡ self.now.height }
        requires long { length row.old ≡ self.now.width * 4 }
        requires below { v < self.now.height }
        ensures { row.new ≡ table (length row.old) (laid_by_row self.now.geometry (record { width = self.now.width; height = self.now.height; pixels = self.now.b.now }) (Some v) row.old) }
    {
        let columns = visible(self.geometry.x, self.geometry.width, self.width);
        let at = (v as usize * self.width as usize + columns.skip) * 4;
        let top = &self.b[at..at + columns.count * 4];
        lay(row, columns.from, top, self.geometry.opacity);
    }

    /// Lays row `v` of its rectangle over a row, stretched by the places of the rectangle's columns.
    fn lay_stretched(&self, columns: &Columns, room: &mut Room, v: u32, row: &mut [u8])
        requires columns { columns.now ≡ record { pixels = self.now.width; taken = self.now.geometry.width } }
        requires room { IsRoom self.now.geometry self.now.width self.now.b.now room.old }
        requires long { length row.old ≡ self.now.width * 4 }
        requires below { v < self.now.geometry.height }
        ensures room { IsRoom self.now.geometry self.now.width self.now.b.now room.new }
        ensures row { row.new ≡ table (length row.old) (laid_by_row self.now.geometry (record { width = self.now.width; height = self.now.height; pixels = self.now.b.now }) (Some v) row.old) }
    {
        let Part { from, skip, count } = room.columns;
        let place = along(self.height, self.geometry.height, v);
        let all = &mut room.top[..];
        let top = &mut all[..count * 4];
        room.rows.stretch(
            self.b,
            self.width as usize,
            self.height as usize,
            columns.seen(skip, count),
            place,
            top,
        );
        lay(row, from, top, self.geometry.opacity);
    }
}
