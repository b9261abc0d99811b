//! Properties by name, in order.

ghost use Rattle.std.specs.Prelude.{◌≡◌, ◌+◌, ◌<◌, ◌≤◌, ◌↔◌, ◌++◌, [], ◌∷◌, length, Err, slice_get, is_some, option_map, option_copied, option_to_list, IsSome, IsNone, IfNone, OnSome, IfErr, OnOk, OnErr};
ghost use Rattle.mlt_base.specs.declared.refusal.Try.TheVariants.{Fault};
ghost use Rattle.mlt_props.specs.BadName.{bad_name};
ghost use Rattle.mlt_props.specs.Contents.{content};
ghost use Rattle.mlt_props.specs.Entries.{Sets, SetsAll, SetsSome, HasDistinctNames, text_of, number_of, owned_of, as_owned, all_owned, without, passed};
ghost use Rattle.mlt_props.specs.Entries.Content.{Words, Whole, Kept};

use crate::bin::{Bin, Ends};
use crate::held::{self, Held};
use indexmap::IndexMap;
use mlt_base::Try;
use std::alloc::{AllocError, Global};
use std::marker::Model;

/// The fault of a name that is empty.
#[derive(Clone, Copy, Debug, PartialEq, Eq)]
pub struct BadName;

/// Properties by name, in order: a list of names, no name twice, each with a text, a whole number or an
/// owned value.
///
/// A bag is not let go of: [`close`](Bag::close) ends it.
pub struct Bag<D: Ends> {
    entries: IndexMap<String, Held<D>>,
}

impl<D: Ends> Model for Bag<D> {
    ghost use Rattle.mlt_props.specs.Entries.{Entries};

    ghost Value = { Entries D };

    ghost use Rattle.mlt_props.specs.Contents.{entries_of};

    ghost view = { λ b. entries_of b.entries.entries };
}

impl<D: Ends> Bag<D> {
    /// An empty bag, which takes no memory yet.
    pub fn new(alloc: Global) -> Bag<D>
        ensures { result ≡ [] }
    {
        Bag {
            entries: IndexMap::new(alloc),
        }
    }

    /// How many properties there are.
    pub fn count(&self) -> usize
        ensures count { result ≡ length self.now }
        ensures distinct { HasDistinctNames self.now }
    {
        self.entries.len()
    }

    /// The name of a property by its place, counted from 0; `None` where the place isn't below the count.
    pub fn name_at(&self, index: usize) -> Option<&str>
        ensures name { option_copied result ≡ option_map (λ e. e.0) (slice_get self.now index) }
        ensures found { IsSome result ↔ (index < length self.now) }
    {
        let (name, _value) = self.entries.get_index(index)?;
        Some(name.as_str())
    }

    /// The text of a name; `None` where no text has the name.
    pub fn get_text(&self, name: &str) -> Option<&str>
        ensures { option_copied result ≡ text_of self.now name.now }
    {
        match held::value_of(&self.entries, name)? {
            Held::Text(text) => Some(text.as_str()),
            Held::Int(_) | Held::Owned(_) => None,
        }
    }

    /// The whole number of a name; `None` where no whole number has the name.
    pub fn get_int(&self, name: &str) -> Option<i64>
        ensures { result ≡ number_of self.now name.now }
    {
        match held::value_of(&self.entries, name)? {
            Held::Int(number) => Some(*number),
            Held::Text(_) | Held::Owned(_) => None,
        }
    }

    /// Sets a name to a text, of which the bag keeps a copy. A name that is there keeps its place, a new
    /// one goes last. An owned value that it had before is put into the bin, which needs a free place.
    ///
    /// A refusal changes nothing: `BadName` where the name is empty.
    pub fn set_text<B: Bin<D>>(
        &mut self,
        name: &str,
        text: &str,
        bin: &mut B,
    ) -> Result<(), Try<BadName>>
        requires { 0 < B.free bin.old }

        ensures set { OnOk result (Sets name.now (Words text.now) self.old self.new (B.ended bin.old) (B.ended bin.new)) }
        ensures name { (result ≡ Err (Fault bad_name)) ↔ (length name.now ≡ 0) }
        ensures same { OnErr result (self.new ≡ self.old) }
        ensures bin_same { OnErr result (B.ended bin.new ≡ B.ended bin.old) }

        // Each value that is put in takes one place; at most one is, and at most one name is new.
        ensures places { B.free bin.new + length (B.ended bin.new) ≡ B.free bin.old + length (B.ended bin.old) }
        ensures room { B.free bin.old ≤ B.free bin.new + 1 }
        ensures grows { length self.new ≤ length self.old + 1 }
    {
        if name.is_empty() {
            return Err(Try::Fault(BadName));
        }
        let text = String::from_str(*self.entries.allocator(), text)?;
        self.set_unowned(name, Held::Text(text), bin)?;
        Ok(())
    }

    /// Sets a name to a whole number. A name that is there keeps its place, a new one goes last. An owned
    /// value that it had before is put into the bin, which needs a free place.
    ///
    /// A refusal changes nothing: `BadName` where the name is empty.
    pub fn set_int<B: Bin<D>>(
        &mut self,
        name: &str,
        value: i64,
        bin: &mut B,
    ) -> Result<(), Try<BadName>>
        requires { 0 < B.free bin.old }

        ensures set { OnOk result (Sets name.now (Whole value) self.old self.new (B.ended bin.old) (B.ended bin.new)) }
        ensures name { (result ≡ Err (Fault bad_name)) ↔ (length name.now ≡ 0) }
        ensures same { OnErr result (self.new ≡ self.old) }
        ensures bin_same { OnErr result (B.ended bin.new ≡ B.ended bin.old) }

        // Each value that is put in takes one place; at most one is, and at most one name is new.
        ensures places { B.free bin.new + length (B.ended bin.new) ≡ B.free bin.old + length (B.ended bin.old) }
        ensures room { B.free bin.old ≤ B.free bin.new + 1 }
        ensures grows { length self.new ≤ length self.old + 1 }
    {
        if name.is_empty() {
            return Err(Try::Fault(BadName));
        }
        self.set_unowned(name, Held::Int(value), bin)?;
        Ok(())
    }

    /// Sets a name to an owned value. A name that is there keeps its place, a new one goes last. An owned
    /// value that it had before is put into the bin, which needs a free place.
    ///
    /// A refusal changes nothing and hands the value back: `BadName` where the name is empty.
    pub fn set_owned<B: Bin<D>>(
        &mut self,
        name: &str,
        value: D,
        bin: &mut B,
    ) -> Result<(), (D, Try<BadName>)>
        requires { 0 < B.free bin.old }

        ensures set { OnOk result (Sets name.now (Kept value) self.old self.new (B.ended bin.old) (B.ended bin.new)) }
        ensures name { (result ≡ Err (value, Fault bad_name)) ↔ (length name.now ≡ 0) }
        ensures back { IfErr result (λ e. e.0 ≡ value) }
        ensures same { OnErr result (self.new ≡ self.old) }
        ensures bin_same { OnErr result (B.ended bin.new ≡ B.ended bin.old) }

        // Each value that is put in takes one place; at most one is, and at most one name is new.
        ensures places { B.free bin.new + length (B.ended bin.new) ≡ B.free bin.old + length (B.ended bin.old) }
        ensures room { B.free bin.old ≤ B.free bin.new + 1 }
        ensures grows { length self.new ≤ length self.old + 1 }
    {
        if name.is_empty() {
            return Err((value, Try::Fault(BadName)));
        }
        match self.set(name, Held::Owned(value), bin) {
            Ok(()) => Ok(()),
            Err(held) => Err((held::owned(held), Try::Memory)),
        }
    }

    /// Takes out the owned value of a name, and its property with it: later ones close up. `None` where
    /// no owned value has the name, and nothing changes then.
    pub fn take_owned(&mut self, name: &str) -> Option<D>
        ensures value { result ≡ owned_of self.old name.now }
        ensures taken { OnSome result (self.new ≡ without self.old name.now) }
        ensures none { IfNone result (self.new ≡ self.old) }
    {
        if !self.owns(name) {
            return None;
        }
        held::as_owned(held::remove(&mut self.entries, name)?)
    }

    /// Sets, in order, each text and whole number of another bag whose name begins with the prefix, as
    /// `set_text` and `set_int` do. The bin needs a free place for each property of this bag.
    ///
    /// Where memory is wanted, the first of these settings are done.
    pub fn pass<B: Bin<D>>(
        &mut self,
        from: &Bag<D>,
        prefix: &str,
        bin: &mut B,
    ) -> Result<(), AllocError>
        requires { length self.old ≤ B.free bin.old }

        ensures all { OnOk result (SetsAll (passed prefix.now from.now) self.old self.new (B.ended bin.old) (B.ended bin.new)) }
        ensures some { OnErr result (SetsSome (passed prefix.now from.now) self.old self.new (B.ended bin.old) (B.ended bin.new)) }

        // Each value that is put in takes one place; at most those of this bag are.
        ensures places { B.free bin.new + length (B.ended bin.new) ≡ B.free bin.old + length (B.ended bin.old) }
        ensures room { B.free bin.old ≤ B.free bin.new + length self.old }
        ensures grows { length self.new ≤ length self.old + length from.now }
    {
        for (name, value) in &from.entries {
            self.pass_one(prefix, name.as_str(), value, bin)?;
        }
        Ok(())
    }

    /// Ends the bag: puts its owned values into the bin, in order. The bin needs a free place for each
    /// property.
    pub fn close<B: Bin<D>>(self, bin: &mut B)
        requires { length self ≤ B.free bin.old }

        ensures ended { B.ended bin.new ≡ B.ended bin.old ++ all_owned self }

        // Each value that is put in takes one place; at most those of the bag are.
        ensures places { B.free bin.new + length (B.ended bin.new) ≡ B.free bin.old + length (B.ended bin.old) }
        ensures room { B.free bin.old ≤ B.free bin.new + length self }
    {
        let Bag { mut entries } = self;
        // The last entry comes out first.
        entries.reverse();
        while let Some((_name, held)) = entries.pop() {
            held::end(held, bin);
        }
        entries.destroy_empty();
    }

    /// Sets a name, empty or not, to a value, which comes back where memory is wanted.
    fn set<B: Bin<D>>(&mut self, name: &str, value: Held<D>, bin: &mut B) -> Result<(), Held<D>>
        requires { length (option_to_list (owned_of self.old name.now)) ≤ B.free bin.old }
        ensures set { OnOk result (Sets name.now (content value) self.old self.new (B.ended bin.old) (B.ended bin.new)) }
        ensures back { IfErr result (λ v. v ≡ value) }
        ensures same { OnErr result (self.new ≡ self.old) }
        ensures bin_same { OnErr result (B.ended bin.new ≡ B.ended bin.old) }
        ensures places { B.free bin.new + length (B.ended bin.new) ≡ B.free bin.old + length (B.ended bin.old) }
        ensures grows { length self.new ≤ length self.old + 1 }
    {
        if let Some(before) = held::replace(&mut self.entries, name, value)? {
            held::end(before, bin);
        }
        Ok(())
    }

    /// Sets a name, empty or not, to a text or a whole number.
    fn set_unowned<B: Bin<D>>(
        &mut self,
        name: &str,
        value: Held<D>,
        bin: &mut B,
    ) -> Result<(), AllocError>
        requires room { length (option_to_list (owned_of self.old name.now)) ≤ B.free bin.old }
        requires unowned { IsNone (as_owned (content value)) }
        ensures set { OnOk result (Sets name.now (content value) self.old self.new (B.ended bin.old) (B.ended bin.new)) }
        ensures same { OnErr result (self.new ≡ self.old) }
        ensures bin_same { OnErr result (B.ended bin.new ≡ B.ended bin.old) }
        ensures places { B.free bin.new + length (B.ended bin.new) ≡ B.free bin.old + length (B.ended bin.old) }
        ensures grows { length self.new ≤ length self.old + 1 }
    {
        match self.set(name, value, bin) {
            Ok(()) => Ok(()),
            Err(Held::Text(_) | Held::Int(_)) => Err(AllocError),
            Err(Held::Owned(_value)) => unreachable!(),
        }
    }

    /// Whether an owned value has the name.
    fn owns(&self, name: &str) -> bool
        ensures { result ≡ is_some (owned_of self.now name.now) }
    {
        held::value_of(&self.entries, name).is_some_and(held::is_owned)
    }

    /// Sets a property of another bag, where it is passed.
    fn pass_one<B: Bin<D>>(
        &mut self,
        prefix: &str,
        name: &str,
        value: &Held<D>,
        bin: &mut B,
    ) -> Result<(), AllocError>
        requires { length (all_owned self.old) ≤ B.free bin.old }
        ensures set { OnOk result (SetsAll (passed prefix.now ((name.now, content value.now) ∷ [])) self.old self.new (B.ended bin.old) (B.ended bin.new)) }
        ensures same { OnErr result (self.new ≡ self.old) }
        ensures bin_same { OnErr result (B.ended bin.new ≡ B.ended bin.old) }
        ensures places { B.free bin.new + length (B.ended bin.new) ≡ B.free bin.old + length (B.ended bin.old) }
        ensures room { B.free bin.old + length (all_owned self.new) ≤ B.free bin.new + length (all_owned self.old) }
        ensures grows { length self.new ≤ length self.old + 1 }
    {
        if !held::is_passed(prefix, name, value) {
            return Ok(());
        }
        let copy = held::copy(*self.entries.allocator(), value)?;
        self.set_unowned(name, copy, bin)?;
        Ok(())
    }
}
