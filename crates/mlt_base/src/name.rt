//! Names in tables.

ghost use Rattle.std.specs.Prelude.{◌≡◌, ◌<◌, length, IsTrue};
ghost use Rattle.mlt_base.specs.Name.{name_of, is_spelled};

use crate::reading::length_before;

/// A name of a table, which blanks fill up to 13 bytes.
///
/// It holds no reference, so that a contract can name a table that the code reads too.
#[derive(Clone, Copy, Debug)]
pub struct Name(pub [u8; 13]);

impl Name {
    /// The bytes of the name, without the blanks that fill it up.
    pub fn as_bytes(&self) -> &[u8]
        ensures { result.now ≡ name_of self.now }
    {
        let (name, _blanks) = self.0.split_at(length_before(b' ', &self.0));
        name
    }

    /// The name as a text. Each name of a table is one: it has a letter, and all of it is ASCII.
    #[tactic(auto, using(crate::proofs::Names::some, crate::proofs::Names::text))]
    pub fn as_str(&self) -> &str
        requires { IsTrue (is_spelled self.now) }
        ensures value { result.now ≡ name_of self.now }
        ensures some { 0 < length result.now }
    {
        match str::from_utf8(self.as_bytes()) {
            Ok(text) => text,
            Err(_) => unreachable!(),
        }
    }
}
