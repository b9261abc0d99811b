//! Laws of the definitions: each is the contract of a function that does nothing.

ghost use Rattle.mlt_vfilter.specs.Rows.{FiltersGoByRows};

/// The rows that a filter makes, where it goes by rows, are those of the picture that it makes.
pub fn filters_go_by_rows()
    ensures { FiltersGoByRows }
{}
