//! Work that goes row by row: one loop for all of it.

ghost use Rattle.std.specs.Prelude.{◌≡◌, ℕ, ◌/◌, ◌%◌, ◌<◌, ◌^◌, List, length};
ghost use Rattle.mlt_slice.specs.Rows.{IsWorked};

use crate::rows::{Bands, RowWork};

/// Work that makes each row of the row that was there, and may keep something from one row of a band to the next.
pub trait RowByRow {
    /// What it keeps. No row depends on it.
    type Kept: Drop;

    /// How many bytes a row of this work has.
    ghost row_bytes: { Self → ℕ };

    /// What it makes of a row, by the row's number and bytes.
    ghost makes: { Self → ℕ → List ℕ → List ℕ };

    /// What holds of what it keeps.
    ghost keeps: { Self → Self.Kept → Type 0 };

    /// What it keeps before the first row of a band.
    fn begin(&self) -> Self::Kept
        ensures { keeps self.now result };

    /// Works the row of a number.
    fn row(&self, kept: &mut Self::Kept, number: u32, row: &mut [u8])
        requires bytes { length row.old ≡ row_bytes self.now }
        requires keeps { keeps self.now kept.old }
        ensures keeps { keeps self.now kept.new }
        ensures row { row.new ≡ makes self.now number row.old }
        ensures long { length row.new ≡ length row.old };
}

/// Such work, as work on the rows of a band.
#[derive(Drop)]
struct ByRows<'a, W: RowByRow> {
    work: &'a W,
    row_bytes: usize,
    ghost bytes: { W.row_bytes work.now ≡ row_bytes },
    ghost some: { 0 < row_bytes },
}

impl<W: RowByRow> RowWork for ByRows<'_, W> {
    ghost row_bytes = { λ rows. rows.row_bytes };

    ghost makes = { λ rows. W.makes rows.work.now };

    fn work(&self, first_row: u32, band: &mut [u8]) {
        let mut kept = self.work.begin();
        let row_bytes = self.row_bytes;
        let rows = band.len() / row_bytes;
        for k in 0..rows {
            let at = k * row_bytes;
            let number = first_row + k as u32;
            self.work
                .row(&mut kept, number, &mut band[at..at + row_bytes]);
        }
    }
}

/// Does work to every row of a picture, whose numbers are counted from 0. A row has `row_bytes` bytes, at least 1 and
/// as many as a row of the work; the picture has whole rows, fewer than 2^32.
pub fn run_rows<W: RowByRow + Sync, B: Bands>(
    bands: &B,
    work: &W,
    picture: &mut [u8],
    row_bytes: usize,
)
where
    W::Kept: Sync,
    requires bytes { (0 < row_bytes) × (row_bytes ≡ W.row_bytes work.now) }
    requires whole { length picture.old % row_bytes ≡ 0 }
    requires numbers { length picture.old / row_bytes < 2 ^ 32 }
    ensures { IsWorked (W.makes work.now) row_bytes 0 picture.old picture.new }
{
    bands.run(&ByRows { work, row_bytes }, picture, row_bytes);
}
