//! Work on the rows of a picture, each of which is written in another form as soon as it is made.

ghost use Rattle.std.specs.Prelude.{◌≡◌, ℕ, ◌*◌, ◌/◌, ◌%◌, ◌<◌, ◌≤◌, ◌^◌, List, length};
ghost use Rattle.mlt_slice.specs.Rows.{IsPacked, packed_from};

use crate::each::{RowByRow, run_rows};
use crate::rows::Bands;

/// The most bytes of a row of a picture.
const MOST_BYTES: usize = 16384;

/// A form in which rows are written.
pub trait RowPack {
    /// How many bytes a row of a picture has.
    ghost row_bytes: { Self → ℕ };

    /// How many bytes it has in this form.
    ghost out_bytes: { Self → ℕ };

    /// What is written of a row.
    ghost packs: { Self → List ℕ → List ℕ };

    /// Writes a row.
    fn pack(&self, row: &[u8], out: &mut [u8])
        requires bytes { length row.now ≡ row_bytes self.now }
        requires out { length out.old ≡ out_bytes self.now }
        ensures row { out.new ≡ packs self.now row.now }
        ensures long { length out.new ≡ length out.old };
}

/// What the work keeps, and room for a row.
#[derive(Drop)]
struct Scratch<K: Drop> {
    kept: K,
    row: [u8; MOST_BYTES],
}

/// Work on rows that are copied from another picture, worked in a room of their own, and written from there.
#[derive(Drop)]
struct PackedRows<'a, W: RowByRow, P: RowPack> {
    work: &'a W,
    pack: &'a P,
    src: &'a [u8],
    row_bytes: usize,
    out_bytes: usize,
    ghost bytes: { W.row_bytes work.now ≡ row_bytes },
    ghost packs: { P.row_bytes pack.now ≡ row_bytes },
    ghost out: { P.out_bytes pack.now ≡ out_bytes },
    ghost few: { row_bytes ≤ 16384 },
}

impl<W: RowByRow, P: RowPack> RowByRow for PackedRows<'_, W, P> {
    type Kept = Scratch<W::Kept>;

    ghost row_bytes = { λ rows. rows.out_bytes };

    ghost makes = { λ rows. packed_from (P.packs rows.pack.now) (W.makes rows.work.now) rows.row_bytes rows.src.now };

    ghost keeps = { λ rows scratch. W.keeps rows.work.now scratch.kept };

    fn begin(&self) -> Scratch<W::Kept> {
        Scratch {
            kept: self.work.begin(),
            row: [0; MOST_BYTES],
        }
    }

    fn row(&self, scratch: &mut Scratch<W::Kept>, number: u32, row: &mut [u8]) {
        let at = number as usize * self.row_bytes;
        if at + self.row_bytes <= self.src.len() {
            let room = &mut scratch.row[..];
            let own = &mut room[..self.row_bytes];
            own.copy_from_slice(&self.src[at..at + self.row_bytes]);
            self.work.row(&mut scratch.kept, number, own);
            self.pack.pack(own, row);
        }
    }
}

/// Does work to every row of `src`, and writes what it makes to `out` in another form, row for row. A row of `src` has
/// `row_bytes` bytes, 1 to 16384, and one of `out` `out_bytes`, at least 1; both have whole rows, and as many, fewer
/// than 2^32. Each row is written while it is near.
pub fn run_packed<W: RowByRow + Sync, P: RowPack + Sync, B: Bands>(
    bands: &B,
    work: &W,
    pack: &P,
    src: &[u8],
    out: &mut [u8],
    row_bytes: usize,
    out_bytes: usize,
)
where
    W::Kept: Sync,
    requires bytes { (0 < row_bytes) × (row_bytes ≡ W.row_bytes work.now) × (row_bytes ≡ P.row_bytes pack.now) }
    requires out { (0 < out_bytes) × (out_bytes ≡ P.out_bytes pack.now) }
    requires few { row_bytes ≤ 16384 }
    requires whole { (length src.now % row_bytes ≡ 0) × (length out.old % out_bytes ≡ 0) }
    requires same { length out.old / out_bytes ≡ length src.now / row_bytes }
    requires numbers { length out.old / out_bytes < 2 ^ 32 }
    ensures rows { IsPacked (P.packs pack.now) (W.makes work.now) row_bytes out_bytes src.now out.new }
    ensures long { length out.new ≡ length out.old }
{
    let rows = PackedRows {
        work,
        pack,
        src,
        row_bytes,
        out_bytes,
    };
    run_rows(bands, &rows, out, out_bytes);
}
