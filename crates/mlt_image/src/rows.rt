//! Rows of a source that are kept while it is stretched.
//!
//! Two rows that follow one another are never both even or both odd, so one of each is kept, and a row
//! of a source that grows is mixed across once.

ghost use Rattle.std.specs.Prelude.{◌≡◌, ◌≢◌, ℕ, ◌+◌, ◌-◌, ◌*◌, ◌/◌, ◌%◌, ◌<◌, ◌≤◌, List, length, slice_index, Some};
ghost use Rattle.mlt_base.specs.Mixing.{table};
ghost use Rattle.mlt_image.specs.Kept.{across_at, kept_row, IsRow, AreRows, stretched_row};

use crate::stretch::{across, down};
use mlt_base::limits::MOST_PIXELS;

/// The values of a row of the most pixels.
const MOST_VALUES: usize = MOST_PIXELS as usize * 4;

/// A row of a source, mixed across: its number, where there is one, and four values a place.
#[derive(Drop)]
pub struct Row {
    pub y: Option<usize>,
    pub values: [u32; MOST_VALUES],
}

impl Row {
    /// Mixes row `y` of a source across, where it isn't kept already.
    fn keep(&mut self, pixels: &[u8], width: usize, y: usize, places: &[u32])
        requires some { 1 ≤ width }
        requires row { (y * width + width) * 4 ≤ length pixels.now }
        requires inside { (u : ℕ) → u < length places.now → slice_index places.now u ≤ (width - 1) * 65536 }
        requires few { length places.now ≤ 4096 }
        requires kept { IsRow pixels.now width places.now self.old }
        ensures kept { IsRow pixels.now width places.now self.new }
        ensures named { self.new.y ≡ Some y }
    {
        match self.y {
            Some(kept) if kept == y => {}
            _ => {
                across(
                    pixels,
                    width,
                    y,
                    places,
                    &mut self.values[..places.len() * 4],
                );
                self.y = Some(y);
            }
        }
    }
}

/// The rows between which a source is mixed down: one is even and one is odd.
#[derive(Drop)]
pub struct Rows {
    pub even: Row,
    pub odd: Row,
}

impl Rows {
    /// No rows yet.
    pub fn new() -> Rows
        ensures { (pixels : List ℕ) (width : ℕ) (places : List ℕ) → AreRows pixels width places result }
    {
        Rows {
            even: Row {
                y: None,
                values: [0; MOST_VALUES],
            },
            odd: Row {
                y: None,
                values: [0; MOST_VALUES],
            },
        }
    }

    /// The row that is kept where row `y` is.
    fn row(&self, y: usize) -> &Row
        ensures { result.now ≡ kept_row self.now y }
    {
        if y % 2 == 0 { &self.even } else { &self.odd }
    }

    /// Keeps row `y` of a source; the row before it and the one behind it stay.
    fn keep(&mut self, pixels: &[u8], width: usize, y: usize, places: &[u32])
        requires some { 1 ≤ width }
        requires row { (y * width + width) * 4 ≤ length pixels.now }
        requires inside { (u : ℕ) → u < length places.now → slice_index places.now u ≤ (width - 1) * 65536 }
        requires few { length places.now ≤ 4096 }
        requires kept { AreRows pixels.now width places.now self.old }
        ensures kept { AreRows pixels.now width places.now self.new }
        ensures named { (kept_row self.new y).y ≡ Some y }
        ensures other { (z : ℕ) → z % 2 ≢ y % 2 → kept_row self.new z ≡ kept_row self.old z }
    {
        if y % 2 == 0 {
            self.even.keep(pixels, width, y, places);
        } else {
            self.odd.keep(pixels, width, y, places);
        }
    }

    /// Writes the row at a place down a source of `width` by `height` pixels, stretched across at as many
    /// places as `out` has pixels, at most 4096. No place lies behind the last pixel of its side.
    pub fn stretch(
        &mut self,
        pixels: &[u8],
        width: usize,
        height: usize,
        places: &[u32],
        place: u32,
        out: &mut [u8],
    )
        requires width { 1 ≤ width }
        requires height { 1 ≤ height }
        requires sized { length pixels.now ≡ width * height * 4 }
        requires inside { (u : ℕ) → u < length places.now → slice_index places.now u ≤ (width - 1) * 65536 }
        requires few { length places.now ≤ 4096 }
        requires place { place ≤ (height - 1) * 65536 }
        requires room { length out.old ≡ length places.now * 4 }
        requires kept { AreRows pixels.now width places.now self.old }
        ensures kept { AreRows pixels.now width places.now self.new }
        ensures row { out.new ≡ table (length out.old) (stretched_row pixels.now width height places.now place) }
    {
        let y = place as usize / 65536;
        let share = place % 65536;
        let values = places.len() * 4;
        self.keep(pixels, width, y, places);
        if share == 0 {
            let row = &self.row(y).values[..values];
            down(row, row, share, out);
        } else {
            self.keep(pixels, width, y + 1, places);
            down(
                &self.row(y).values[..values],
                &self.row(y + 1).values[..values],
                share,
                out,
            );
        }
    }
}
