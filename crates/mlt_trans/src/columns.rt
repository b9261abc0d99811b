//! The places of a rectangle's columns, kept from one merge to the next.
//!
//! A picture that is laid over another one in frame after frame is stretched by the same columns each time, so
//! their places are worked out once. What is kept changes no picture.

ghost use Rattle.std.specs.Prelude.{◌≡◌, ◌+◌, ◌<◌, ◌≤◌, length, true, false, replicate, slice_index_or, ◌==◌, ◌&&◌, IfOk, IfSome, IfNone};
ghost use Rattle.mlt_base.specs.Fitting.{along};
ghost use Rattle.mlt_base.specs.Mixing.{table};
ghost use Rattle.mlt_tree.specs.Ranges.{IsMergeStep};
ghost use Rattle.mlt_trans.specs.Columns.{no_columns, is_kept, with_columns, kept_after};
ghost use Rattle.mlt_trans.specs.Placed.{places_of};
ghost use Rattle.mlt_trans.specs.Ready.{HasColumns};

use mlt_base::limits::MOST_PIXELS;
use mlt_image::stretch::places;
use mlt_tree::MergeStep;
use std::alloc::{AllocError, Global};
use std::marker::Model;

/// The most columns of a rectangle.
const MOST_COLUMNS: usize = MOST_PIXELS as usize;

/// How many rectangles' columns are kept.
const MOST_KEPT: usize = 8;

/// The places of one rectangle's columns along a picture's, seen as how many columns the picture has and how many
/// the rectangle.
#[derive(Drop)]
pub struct Columns {
    pixels: u32,
    taken: u32,
    places: [u32; MOST_COLUMNS],
}

impl Model for Columns {
    ghost use Rattle.std.specs.Prelude.{◌≡◌, ◌≤◌, take};
    ghost use Rattle.mlt_base.specs.Fitting.{along};
    ghost use Rattle.mlt_base.specs.Mixing.{table};
    ghost use Rattle.mlt_trans.specs.Columns.{Widths};

    ghost Value = { Widths };

    ghost view = { λ c. record { pixels = c.pixels; taken = c.taken } };

    ghost invariant = { λ c. (c.taken ≤ 4096) × (take c.taken c.places ≡ table c.taken (along c.pixels c.taken)) };
}

impl Columns {
    /// No column yet.
    pub fn new() -> Columns
        ensures { result ≡ record { pixels = 1; taken = 0 } }
    {
        Columns {
            pixels: 1,
            taken: 0,
            places: [0; MOST_COLUMNS],
        }
    }

    /// Whether it is that of so many columns along so many.
    fn is_of(&self, pixels: u32, taken: u32) -> bool
        ensures { result ≡ (self.now.pixels == pixels) && (self.now.taken == taken) }
    {
        self.pixels == pixels && self.taken == taken
    }

    /// The columns of a merge's rectangle in pictures of `width` columns; where it has none, no column.
    pub fn of(step: &MergeStep, width: u32) -> Columns
        requires range { IsMergeStep step.now }
        requires width { (1 ≤ width) × (width ≤ 4096) }
        ensures { HasColumns step.now width result }
    {
        let mut columns = Columns::new();
        if let MergeStep::Composite { geometry } = step {
            columns.find(width, geometry.width);
        }
        columns
    }

    /// Works the places of `taken` columns along `pixels` out, where they aren't those that it has.
    pub fn find(&mut self, pixels: u32, taken: u32)
        requires some { 1 ≤ pixels }
        requires few { pixels ≤ 4096 }
        requires small { taken ≤ 4096 }
        ensures { self.new ≡ record { pixels = pixels; taken = taken } }
    {
        if !self.is_of(pixels, taken) {
            places(pixels, &mut self.places[..taken as usize]);
            self.pixels = pixels;
            self.taken = taken;
        }
    }

    /// The places of all columns.
    fn all(&self) -> &[u32]
        ensures places { result.now ≡ table self.now.taken (along self.now.pixels self.now.taken) }
        ensures long { length result.now ≡ self.now.taken }
        ensures few { self.now.taken ≤ 4096 }
    {
        &self.places[..self.taken as usize]
    }

    /// The places of `count` of the columns from `skip` on.
    pub fn seen(&self, skip: usize, count: usize) -> &[u32]
        requires { skip + count ≤ self.now.taken }
        ensures { result.now ≡ places_of self.now.pixels self.now.taken skip count }
    {
        &self.all()[skip..skip + count]
    }
}

/// The places of the columns of several rectangles, seen as their widths and which of them is the oldest: those of
/// eight widths serve from frame to frame, and of more than eight the oldest make room. No picture depends on it.
#[derive(Drop)]
pub struct KeptColumns {
    columns: Vec<Columns>,
    oldest: usize,
}

impl Model for KeptColumns {
    ghost use Rattle.std.specs.Prelude.{◌≡◌, ◌<◌, length};
    ghost use Rattle.mlt_trans.specs.Columns.{Kept};

    ghost Value = { Kept };

    ghost view = { λ k. record { widths = k.columns.items; oldest = k.oldest } };

    ghost invariant = { λ k. (length k.columns.items ≡ 8) × (k.oldest < 8) };
}

impl KeptColumns {
    /// No columns yet, with room for all that are kept.
    pub fn new(alloc: Global) -> Result<KeptColumns, AllocError>
        ensures { IfOk result (λ kept. kept ≡ record { widths = replicate 8 no_columns; oldest = 0 }) }
    {
        let mut columns = Vec::with_capacity(alloc, MOST_KEPT)?;
        for _ in 0..MOST_KEPT {
            columns.push_reserved(Columns::new());
        }
        Ok(KeptColumns { columns, oldest: 0 })
    }

    /// The columns at a place.
    pub fn at(&self, place: usize) -> &Columns
        requires { place < length self.now.widths }
        ensures { result.now ≡ slice_index_or self.now.widths place no_columns }
    {
        &self.columns[place]
    }

    /// The place of the columns that a merge of pictures of `width` columns needs, which are worked out where they
    /// aren't kept; of a merge that needs none, any place.
    pub fn ask_for(&mut self, step: &MergeStep, width: u32) -> usize
        requires range { IsMergeStep step.now }
        requires width { (1 ≤ width) × (width ≤ 4096) }
        ensures kept { self.new ≡ kept_after step.now width self.old }
        ensures place { result < length self.new.widths }
        ensures asked { HasColumns step.now width (slice_index_or self.new.widths result no_columns) }
    {
        match step {
            MergeStep::Composite { geometry } => self.ask(width, geometry.width),
            _ => self.oldest,
        }
    }

    /// The place of the columns of `taken` along `pixels`. Where they aren't kept they are worked out in place of the
    /// oldest.
    fn ask(&mut self, pixels: u32, taken: u32) -> usize
        requires some { 1 ≤ pixels }
        requires few { pixels ≤ 4096 }
        requires small { taken ≤ 4096 }
        ensures kept { self.new ≡ with_columns (record { pixels = pixels; taken = taken }) self.old }
        ensures place { result < length self.new.widths }
        ensures asked { slice_index_or self.new.widths result no_columns ≡ record { pixels = pixels; taken = taken } }
    {
        match find(self.columns.as_slice(), pixels, taken) {
            Some(place) => place,
            None => {
                let place = self.oldest;
                self.columns[place].find(pixels, taken);
                self.oldest = (place + 1) % MOST_KEPT;
                place
            }
        }
    }
}

/// The place of the first columns of `taken` along `pixels`. `None` exactly where there are none.
fn find(columns: &[Columns], pixels: u32, taken: u32) -> Option<usize>
    ensures some { IfSome result (λ place. (place < length columns.now) × (slice_index_or columns.now place no_columns ≡ record { pixels = pixels; taken = taken })) }
    ensures kept { IfSome result (λ _. is_kept columns.now (record { pixels = pixels; taken = taken }) ≡ true) }
    ensures none { IfNone result (is_kept columns.now (record { pixels = pixels; taken = taken }) ≡ false) }
{
    for (place, one) in columns.iter().enumerate() {
        if one.is_of(pixels, taken) {
            return Some(place);
        }
    }
    None
}
