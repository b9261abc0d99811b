//! The values of properties: of several with one name the last counts, and a fault is at its own word.

ghost use Rattle.std.specs.Prelude.{◌≡◌, ◌≤◌, ◌<◌, ◌^◌, ◌++◌, ℕ, length, All, IfOk, IfSome, IsSome, IsTrue, fold};
ghost use Rattle.std.specs.Option.{option_copied};
ghost use Rattle.mlt_base.specs.Name.{is_spelled};
ghost use Rattle.mlt_base.specs.ProfileView.{measures_of};
ghost use Rattle.mlt_base.specs.Try.{TryGives};
ghost use Rattle.mlt_tree.specs.Props as meaning;
ghost use Rattle.mlt_tree.specs.Props.{later as later_of, last_named, counted as counted_of, distant as distant_of, timed as timed_of, in_range as in_range_of, distance_within, chosen as chosen_of, keyed as keyed_of, channel_of, channels_of, lettered as lettered_of, shared as shared_of, placed as placed_of};
ghost use Rattle.mlt_base.specs.GeometryView.{IsPlacement};
ghost use Rattle.melt_build.specs.Properties.{front_in, behind_front, props_in};
ghost use Rattle.melt_build.specs.Object.{text_in};
ghost use Rattle.melt_build.specs.Reads.{at_place};

use crate::object::Object;
use crate::refused;
use mlt_base::{Animation, Geometry, Name, Profile, Try, read_decimal, read_time, read_whole};
use mlt_tree::{
    Animated, Area, Cause, Choice, Count, Distance, FileName, Letters, Moment, Number, Prop,
    Refusal, Share,
};
use std::alloc::Global;

/// This property where it has the name, else the one found before.
fn later<'a>(found: Option<&'a Prop>, prop: &'a Prop, name: &str) -> Option<&'a Prop>
    ensures { option_copied result ≡ later_of name.now (option_copied found.entry) prop.now }
{
    if prop.name.as_str() == name {
        Some(prop)
    } else {
        found
    }
}

/// The last property of the name, after what was found before.
fn last_in<'a>(found: Option<&'a Prop>, props: &'a [Prop], name: &str) -> Option<&'a Prop>
    ensures { option_copied result ≡ fold (later_of name.now) (option_copied found.entry) props.now }
{
    let mut last = found;
    for prop in props {
        last = later(last, prop, name);
    }
    last
}

/// The last property of the name, of the inherited ones and then the group's own.
fn last_named<'a>(inherited: &'a [Prop], own: &'a [Prop], name: &str) -> Option<&'a Prop>
    ensures { option_copied result ≡ last_named name.now (inherited.now ++ own.now) }
{
    last_in(last_in(None, inherited, name), own, name)
}

/// A whole number from `low` to `high`.
fn in_range(low: u32, high: u32, value: i64) -> Result<u32, Cause>
    ensures value { (place : ℕ) → at_place place result ≡ in_range_of low high place value }
    ensures range { IfOk result (λ n. (low ≤ n) × (n ≤ high)) }
{
    if i64::from(low) <= value && value <= i64::from(high) {
        Ok(value as u32)
    } else {
        Err(Cause::OutOfRange {
            value,
            low: i64::from(low),
            high: i64::from(high),
        })
    }
}

/// A text as a whole number from `low` to `high`.
#[tactic(auto, unfolding(mlt_tree::specs::Props::counted))]
pub(crate) fn counted(low: u32, high: u32, text: &str) -> Result<u32, Cause>
    ensures value { (place : ℕ) → at_place place result ≡ counted_of low high place text.now }
    ensures range { IfOk result (λ n. (low ≤ n) × (n ≤ high)) }
{
    in_range(low, high, read_whole(text)?)
}

/// How far a whole number is from 0, at most `high`.
fn distance_within(high: u32, value: i64) -> Result<u32, Cause>
    requires { high < 1000 }
    ensures value { (place : ℕ) → at_place place result ≡ distance_within high place value }
    ensures range { IfOk result (λ n. n ≤ high) }
{
    let limit = i64::from(high);
    if -limit <= value && value <= limit {
        Ok(value.unsigned_abs() as u32)
    } else {
        Err(Cause::OutOfRange {
            value,
            low: -limit,
            high: limit,
        })
    }
}

#[tactic(auto, unfolding(mlt_tree::specs::Props::distant))]
/// A text as a whole number at most `high` from 0.
fn distant(high: u32, text: &str) -> Result<u32, Cause>
    requires { high < 1000 }
    ensures value { (place : ℕ) → at_place place result ≡ distant_of high place text.now }
    ensures range { IfOk result (λ n. n ≤ high) }
{
    distance_within(high, read_whole(text)?)
}

/// A text as a position.
#[tactic(auto, unfolding(mlt_tree::specs::Props::timed))]
pub(crate) fn timed(profile: &Profile, text: &str) -> Result<u32, Cause>
    ensures value { (place : ℕ) → at_place place result ≡ timed_of (measures_of profile.now) place text.now }
    ensures range { IfOk result (λ n. n < 2 ^ 31) }
{
    Ok(read_time(text, profile.rate)?.0)
}

/// Whether a text is the second of a row's words.
fn chosen(row: &Choice, text: &str) -> Result<bool, Cause>
    ensures { (place : ℕ) → at_place place result ≡ chosen_of row.now place text.now }
{
    let bytes = text.as_bytes();
    if bytes == row.first.as_bytes() {
        Ok(false)
    } else if bytes == row.second.as_bytes() {
        Ok(true)
    } else {
        Err(Cause::BadValue)
    }
}

/// A text as a number that may go from key to key, for the word at a place.
#[tactic(auto, unfolding(mlt_tree::specs::Props::keyed))]
fn keyed(alloc: Global, place: u32, text: &str) -> Result<Animation, Try<Refusal>>
    ensures { TryGives (λ keys. keys) result (keyed_of place text.now) }
{
    match Animation::read(alloc, text) {
        Ok(keys) => Ok(keys),
        Err(Try::Fault(fault)) => Err(Try::Fault(Refusal::at(place, Cause::from(fault)))),
        Err(Try::Memory) => Err(Try::Memory),
    }
}

/// A channel by its letter.
fn channel_of(letter: u8) -> Option<u8>
    ensures value { result ≡ channel_of letter }
    ensures range { IfSome result (λ channel. channel < 4) }
{
    match letter {
        b'r' => Some(0),
        b'g' => Some(1),
        b'b' => Some(2),
        b'a' => Some(3),
        _ => None,
    }
}

/// The channels of four letters.
fn channels_of(letters: &[u8]) -> Option<[u8; 4]>
    requires { length letters.now ≡ 4 }
    ensures value { result ≡ channels_of letters.now }
    ensures range { IfSome result (All (λ channel. channel < 4)) }
{
    let first = channel_of(letters[0])?;
    let second = channel_of(letters[1])?;
    let third = channel_of(letters[2])?;
    let fourth = channel_of(letters[3])?;
    Some([first, second, third, fourth])
}

/// A text as a letter for each of the four channels, for the word at a place.
#[tactic(auto, unfolding(mlt_tree::specs::Props::lettered))]
fn lettered(place: u32, text: &str) -> Result<[u8; 4], Refusal>
    ensures value { result ≡ lettered_of place text.now }
    ensures range { IfOk result (All (λ channel. channel < 4)) }
{
    let letters = text.as_bytes();
    if letters.len() != 4 {
        return Err(Refusal::at(place, Cause::BadValue));
    }
    match channels_of(letters) {
        Some(order) => Ok(order),
        None => Err(Refusal::at(place, Cause::BadValue)),
    }
}

/// A text as a number from 0 to 1, in 65536ths.
#[tactic(auto, unfolding(mlt_tree::specs::Props::shared))]
fn shared(text: &str) -> Result<u32, Cause>
    ensures value { (place : ℕ) → at_place place result ≡ shared_of place text.now }
    ensures range { IfOk result (λ q. q ≤ 65536) }
{
    let q = read_decimal(text)?.0;
    if q <= 65536 {
        Ok(q)
    } else {
        Err(Cause::BadValue)
    }
}

/// A text as a place and a size in a frame of this profile.
#[tactic(auto, unfolding(mlt_tree::specs::Props::placed))]
fn placed(profile: &Profile, text: &str) -> Result<Geometry, Cause>
    ensures value { (place : ℕ) → at_place place result ≡ placed_of (measures_of profile.now) place text.now }
    ensures range { IfOk result IsPlacement }
{
    match Geometry::read(text, profile) {
        Some(geometry) => Ok(geometry),
        None => Err(Cause::BadValue),
    }
}

/// The value behind the `:` of a group's word, as that of a property, by the place of the word.
#[derive(Clone, Copy)]
pub(crate) struct Front<'v> {
    pub place: u32,
    pub name: Name,
    pub value: &'v str,
}

/// The properties that an object is given: the one that its word holds, then those that it inherits, and then its
/// own.
#[derive(Clone, Copy)]
pub(crate) struct Properties<'v, 'b, 'a> {
    pub front: Option<Front<'v>>,
    pub inherited: &'b Object<'a>,
    pub own: &'b Object<'a>,
}

impl Properties<'_, '_, '_> {
    /// The text of the property that the word holds, if it has this name.
    fn front_text(&self, name: &str) -> Option<&str>
        ensures { option_copied result ≡ text_in name.now (front_in self.now.front) }
    {
        match self.front {
            None => None,
            Some(front) => {
                if front.name.as_bytes() == name.as_bytes() {
                    Some(front.value)
                } else {
                    None
                }
            }
        }
    }

    /// The text of a name behind the one that the word holds, where there is one.
    fn later_text(&self, name: &str) -> Option<&str>
        requires { 0 < length name.now }
        ensures { option_copied result ≡ text_in name.now (behind_front self.now) }
    {
        match self.own.text(name) {
            Some(text) => Some(text),
            None => self.inherited.text(name),
        }
    }

    /// The text of a name, where there is one.
    fn text(&self, name: &str) -> Option<&str>
        requires { 0 < length name.now }
        ensures { option_copied result ≡ text_in name.now (props_in self.now) }
    {
        match self.later_text(name) {
            Some(text) => Some(text),
            None => self.front_text(name),
        }
    }

    /// The place of the last property of a name, which is given.
    fn place_of(&self, name: &str) -> u32
        requires { IsSome (last_named name.now (props_in self.now)) }
        ensures { IfSome (last_named name.now (props_in self.now)) (λ prop. result ≡ prop.place) }
    {
        match last_named(self.inherited.words, self.own.words, name) {
            Some(prop) => prop.place,
            None => match self.front {
                Some(front) => front.place,
                None => unreachable!(),
            },
        }
    }

    /// The value of a property that is given, or the refusal of its word.
    fn at_word<T>(&self, name: &str, read: Result<T, Cause>) -> Result<T, Refusal>
        requires { IsSome (last_named name.now (props_in self.now)) }
        ensures { IfSome (last_named name.now (props_in self.now)) (λ prop. result ≡ at_place prop.place read) }
    {
        refused::at_place(self.place_of(name), read)
    }

    /// The number of a row, which may go from key to key, or its default.
    pub(crate) fn animated(&self, alloc: Global, row: &Animated) -> Result<Animation, Try<Refusal>>
        requires name { IsTrue (is_spelled row.now.name) }
        requires default { IsTrue (is_spelled row.now.default) }
        ensures { TryGives (λ keys. keys) result (meaning.animated row.now (props_in self.now)) }
    {
        let name = row.name.as_str();
        match self.text(name) {
            None => keyed(alloc, 0, row.default.as_str()),
            Some(text) => keyed(alloc, self.place_of(name), text),
        }
    }

    /// The four channels of a row, or their default.
    pub(crate) fn letters(&self, row: &Letters) -> Result<[u8; 4], Refusal>
        requires name { IsTrue (is_spelled row.now.name) }
        requires default { IsTrue (is_spelled row.now.default) }
        ensures value { result ≡ meaning.letters row.now (props_in self.now) }
        ensures range { IfOk result (All (λ channel. channel < 4)) }
    {
        let name = row.name.as_str();
        match self.text(name) {
            None => lettered(0, row.default.as_str()),
            Some(text) => lettered(self.place_of(name), text),
        }
    }

    /// The whole number of a row, or its default.
    pub(crate) fn count(&self, row: &Count) -> Result<u32, Refusal>
        requires name { IsTrue (is_spelled row.now.name) }
        requires default { (row.now.low ≤ row.now.default) × (row.now.default ≤ row.now.high) }
        ensures value { result ≡ meaning.count row.now (props_in self.now) }
        ensures range { IfOk result (λ n. (row.now.low ≤ n) × (n ≤ row.now.high)) }
    {
        let name = row.name.as_str();
        let Some(text) = self.text(name) else {
            return Ok(row.default);
        };
        self.at_word(name, counted(row.low, row.high, text))
    }

    /// The whole number of a row, where there is one.
    pub(crate) fn number(&self, row: &Number) -> Result<Option<u32>, Refusal>
        requires { IsTrue (is_spelled row.now.name) }
        ensures value { result ≡ meaning.number row.now (props_in self.now) }
        ensures range { IfOk result (λ given. IfSome given (λ n. (row.now.low ≤ n) × (n ≤ row.now.high))) }
    {
        let name = row.name.as_str();
        let Some(text) = self.text(name) else {
            return Ok(None);
        };
        Ok(Some(self.at_word(name, counted(row.low, row.high, text))?))
    }

    /// The distance of a row's number from 0, or 0.
    pub(crate) fn distance(&self, row: &Distance) -> Result<u32, Refusal>
        requires name { IsTrue (is_spelled row.now.name) }
        requires high { row.now.high < 1000 }
        ensures value { result ≡ meaning.distance row.now (props_in self.now) }
        ensures range { IfOk result (λ n. n ≤ row.now.high) }
    {
        let name = row.name.as_str();
        let Some(text) = self.text(name) else {
            return Ok(0);
        };
        self.at_word(name, distant(row.high, text))
    }

    /// Whether it is the second of a row's words.
    pub(crate) fn choice(&self, row: &Choice) -> Result<bool, Refusal>
        requires { IsTrue (is_spelled row.now.name) }
        ensures { result ≡ meaning.choice row.now (props_in self.now) }
    {
        let name = row.name.as_str();
        let Some(text) = self.text(name) else {
            return Ok(false);
        };
        self.at_word(name, chosen(row, text))
    }

    /// The position of a row, where there is one.
    pub(crate) fn moment(&self, row: &Moment, profile: &Profile) -> Result<Option<u32>, Refusal>
        requires { IsTrue (is_spelled row.now.name) }
        ensures value { result ≡ meaning.moment row.now (measures_of profile.now) (props_in self.now) }
        ensures range { IfOk result (λ given. IfSome given (λ n. n < 2 ^ 31)) }
    {
        let name = row.name.as_str();
        let Some(text) = self.text(name) else {
            return Ok(None);
        };
        Ok(Some(self.at_word(name, timed(profile, text))?))
    }

    /// The position of a row, or the first.
    pub(crate) fn moment_or_first(&self, row: &Moment, profile: &Profile) -> Result<u32, Refusal>
        requires { IsTrue (is_spelled row.now.name) }
        ensures value { result ≡ meaning.moment_or_first row.now (measures_of profile.now) (props_in self.now) }
        ensures range { IfOk result (λ n. n < 2 ^ 31) }
    {
        let name = row.name.as_str();
        let Some(text) = self.text(name) else {
            return Ok(0);
        };
        self.at_word(name, timed(profile, text))
    }

    /// The number of a row from 0 to 1, in 65536ths, or 0.
    pub(crate) fn share(&self, row: &Share) -> Result<u32, Refusal>
        requires { IsTrue (is_spelled row.now.name) }
        ensures value { result ≡ meaning.share row.now (props_in self.now) }
        ensures range { IfOk result (λ q. q ≤ 65536) }
    {
        let name = row.name.as_str();
        let Some(text) = self.text(name) else {
            return Ok(0);
        };
        self.at_word(name, shared(text))
    }

    /// The place and the size of a row, in a frame of this profile, or its default.
    pub(crate) fn area(&self, row: &Area, profile: &Profile) -> Result<Geometry, Refusal>
        requires name { IsTrue (is_spelled row.now.name) }
        requires default { IsTrue (is_spelled row.now.default) }
        ensures value { result ≡ meaning.area row.now (measures_of profile.now) (props_in self.now) }
        ensures range { IfOk result IsPlacement }
    {
        let name = row.name.as_str();
        match self.text(name) {
            None => refused::at_place(0, placed(profile, row.default.as_str())),
            Some(text) => self.at_word(name, placed(profile, text)),
        }
    }

    /// The name of a row's file, where there is one.
    pub(crate) fn file_name(&self, row: &FileName) -> Option<&str>
        requires { IsTrue (is_spelled row.now.name) }
        ensures { option_copied result ≡ meaning.file_name row.now (props_in self.now) }
    {
        self.text(row.name.as_str())
    }
}
