//! Options, by their words.

ghost use Rattle.std.specs.Prelude.{◌≡◌, find};
ghost use Rattle.mlt_tree.specs.Table.{is_named, option_of};
ghost use Rattle.mlt_tree.specs.GroupWords.{is_option};

use mlt_tree::{OPTIONS, Row};

/// Whether a word is to be an option: it begins with `-` and goes on.
pub fn is_option(word: &str) -> bool
    ensures { result ≡ is_option word.now }
{
    matches!(word.as_bytes(), [b'-', _, ..])
}

/// The option of this word, if there is one.
#[tactic(auto, unfolding(mlt_tree::specs::Table::option_of))]
pub fn option_row(word: &str) -> Option<Row>
    ensures { result ≡ option_of word.now }
{
    row_named(&OPTIONS, word.as_bytes())
}

/// The first row of a word.
fn row_named(rows: &[Row], word: &[u8]) -> Option<Row>
    ensures { result ≡ find (is_named word.now) rows.now }
{
    for row in rows {
        if row.name.as_bytes() == word {
            return Some(*row);
        }
    }
    None
}
