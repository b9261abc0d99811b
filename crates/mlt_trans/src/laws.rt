//! Laws of the definitions: each is the contract of a function that does nothing.

ghost use Rattle.mlt_trans.specs.Rows.{MergesGoByRows};

/// Merges of pictures are merges of their rows.
pub fn merges_go_by_rows()
    ensures { MergesGoByRows }
{}
