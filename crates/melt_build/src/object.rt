//! The properties of an object by their names.

ghost use Rattle.std.specs.Prelude.{◌≡◌, ◌≤◌, ◌<◌, [], length, IfOk};
ghost use Rattle.std.specs.Option.{option_copied};
ghost use Rattle.melt_build.specs.Object.{HoldsTexts, text_in};

use mlt_base::Try;
use mlt_props::{Bag, Bin, Ends};
use mlt_tree::Prop;
use std::alloc::{AllocError, Global};

/// A file that a property owns. No word that is built loads one, so nothing stands in it yet.
pub(crate) struct Loaded;

impl Ends for Loaded {}

/// The files whose properties have ended, by their number.
#[derive(Drop)]
struct Ended {
    count: u64,
}

impl Bin<Loaded> for Ended {
    ghost use Rattle.std.specs.Prelude.{◌-◌, ◌^◌, replicate};
    ghost use Rattle.melt_build.specs.Loaded.{loaded};

    ghost ended = { λ bin. replicate bin.count loaded };

    ghost free = { λ bin. 2 ^ 64 - 1 - bin.count };

    fn put(&mut self, value: Loaded) {
        let Loaded = value;
        self.count += 1;
    }
}

/// No file has ended.
fn no_file() -> Ended
    ensures { result.count ≡ 0 }
{
    Ended { count: 0 }
}

/// The properties of an object: the text of each name, and the words that they come from, of which the
/// last with a name counts. It is ended by [`Object::end`].
pub(crate) struct Object<'a> {
    pub texts: Bag<Loaded>,
    pub words: &'a [Prop],
    pub ghost same: { HoldsTexts texts words.now },
    pub ghost few: { length texts ≤ length words.now },
}

impl<'a> Object<'a> {
    /// The properties of these words.
    pub fn read(alloc: Global, words: &'a [Prop]) -> Result<Object<'a>, AllocError>
        ensures { IfOk result (λ object. object.words.now ≡ words.now) }
    {
        let mut texts = Bag::new(alloc);
        for prop in words {
            match texts.set_text(prop.name.as_str(), prop.value.as_str(), &mut no_file()) {
                Ok(()) => {}
                Err(Try::Fault(_)) => {}
                Err(Try::Memory) => {
                    texts.close(&mut no_file());
                    return Err(AllocError);
                }
            }
        }
        Ok(Object { texts, words })
    }

    /// No properties.
    pub fn none(alloc: Global) -> Object<'a>
        ensures { result.words.now ≡ [] }
    {
        Object {
            texts: Bag::new(alloc),
            words: &[],
        }
    }

    /// The text of a name, where a property has it.
    pub fn text(&self, name: &str) -> Option<&str>
        requires { 0 < length name.now }
        ensures { option_copied result ≡ text_in name.now self.now.words.now }
    {
        self.texts.get_text(name)
    }

    /// Lets the properties go.
    pub fn end(self) {
        let Object { texts, words: _ } = self;
        texts.close(&mut no_file());
    }
}
