//! Words, read from the left.

ghost use Rattle.std.specs.Prelude.{◌≡◌, List, map, string_bytes, Ok};
ghost use Rattle.mlt_base.specs.Try.{TryGives};
ghost use Rattle.mlt_tree.specs.Words.{begin, finish, free_word, groups, groups_of, option_word, plain_word, property_word, nothing_read, step, then_last};
ghost use Rattle.melt_words.specs.View.{last_of, state_of};

use crate::options::{is_option, option_row};
use crate::property::divided;
use mlt_base::limits::MOST_WORDS;
use mlt_base::{Text, Try, WordCause, WordFault};
use mlt_tree::{Group, GroupKind, GroupList, Prop, PropList};
use std::alloc::Global;
use std::mem;

/// What the next word finds before it.
#[derive(Drop)]
enum Last {
    /// No word at all.
    Nothing,
    /// An option that takes the word as its argument, and whether properties may follow.
    Waiting {
        place: u32,
        kind: GroupKind,
        properties: bool,
    },
    /// A group, and whether properties may follow.
    Open {
        group: Group,
        properties: bool,
    },
}

/// How far words are read: the groups behind which another stands, and the last one.
#[derive(Drop)]
struct Reading {
    alloc: Global,
    done: GroupList,
    last: Last,
}

impl Reading {
    /// Before the first word.
    fn new(alloc: Global) -> Reading
        ensures { state_of result ≡ nothing_read }
    {
        Reading {
            alloc,
            done: GroupList::new(alloc),
            last: Last::Nothing,
        }
    }

    /// Puts the last group behind the others, and another in its place.
    fn then_last(&mut self, last: Last) -> Result<(), Try<WordFault>>
        ensures { TryGives (λ _. state_of self.new) result (Ok (then_last (last_of last) (state_of self.old))) }
    {
        match mem::replace(&mut self.last, last) {
            Last::Open { group, .. } => match self.done.push(group) {
                Ok(()) => Ok(()),
                Err(_) => Err(Try::Memory),
            },
            _ => Ok(()),
        }
    }

    /// Begins a group that has no property yet.
    fn begin(
        &mut self,
        place: u32,
        kind: GroupKind,
        arg: &str,
        properties: bool,
    ) -> Result<(), Try<WordFault>>
        ensures { TryGives (λ _. state_of self.new) result (Ok (begin place kind arg.now properties (state_of self.old))) }
    {
        let group = Group {
            place,
            kind,
            arg: Text::new(self.alloc, arg)?,
            props: PropList::new(self.alloc),
        };
        self.then_last(Last::Open { group, properties })
    }

    /// An option is a group at once, or waits for its argument.
    #[tactic(auto, unfolding(mlt_tree::specs::Words::option_word))]
    fn option_word(&mut self, place: u32, word: &str) -> Result<(), Try<WordFault>>
        ensures { TryGives (λ _. state_of self.new) result (option_word place word.now (state_of self.old)) }
    {
        let Some(row) = option_row(word) else {
            return refused(place, WordCause::UnknownOption);
        };
        let Some(kind) = row.kind else {
            return refused(place, WordCause::Unsupported);
        };
        if row.argument {
            self.then_last(Last::Waiting {
                place,
                kind,
                properties: row.properties,
            })
        } else {
            self.begin(place, kind, "", row.properties)
        }
    }

    /// A property has a name, and is the last group's, where that takes any.
    #[tactic(auto, unfolding(mlt_tree::specs::Words::property_word))]
    fn property_word(&mut self, place: u32, name: &str, value: &str) -> Result<(), Try<WordFault>>
        ensures { TryGives (λ _. state_of self.new) result (property_word place name.now value.now (state_of self.old)) }
    {
        if name.is_empty() {
            return refused(place, WordCause::StrayProperty);
        }
        let alloc = self.alloc;
        match &mut self.last {
            Last::Open {
                group,
                properties: true,
            } => {
                let prop = Prop {
                    place,
                    name: Text::new(alloc, name)?,
                    value: Text::new(alloc, value)?,
                };
                match group.props.push(prop) {
                    Ok(()) => Ok(()),
                    Err(_) => Err(Try::Memory),
                }
            }
            _ => refused(place, WordCause::StrayProperty),
        }
    }

    /// A word that is no option's argument.
    fn free_word(&mut self, place: u32, word: &str) -> Result<(), Try<WordFault>>
        ensures { TryGives (λ _. state_of self.new) result (free_word place word.now (state_of self.old)) }
    {
        if is_option(word) {
            return self.option_word(place, word);
        }
        match divided(word) {
            Some((name, value)) => self.property_word(place, name, value),
            None => self.begin(place, GroupKind::Producer, word, true),
        }
    }

    /// One word: the argument of the option before it, or free.
    #[tactic(auto, unfolding(mlt_tree::specs::Words::step))]
    fn step(&mut self, place: u32, word: &str) -> Result<(), Try<WordFault>>
        ensures { TryGives (λ _. state_of self.new) result (step place word.now (state_of self.old)) }
    {
        match self.last {
            Last::Waiting {
                place: option,
                kind,
                properties,
            } => self.begin(option, kind, word, properties),
            _ => self.free_word(place, word),
        }
    }

    /// The groups, unless an option still waits for its argument.
    #[tactic(auto, unfolding(mlt_tree::specs::Words::finish))]
    fn finish(mut self) -> Result<GroupList, Try<WordFault>>
        ensures { TryGives (λ list. list) result (finish (state_of self)) }
    {
        if let Last::Waiting { place, .. } = self.last {
            return refused(place, WordCause::MissingArgument);
        }
        self.then_last(Last::Nothing)?;
        Ok(self.done)
    }
}

/// A fault of the word at a place.
fn refused<T>(place: u32, cause: WordCause) -> Result<T, Try<WordFault>>
    ensures { result ≡ Err (Try.Fault (record { place = place; cause = cause })) }
{
    Err(Try::Fault(WordFault { place, cause }))
}

/// The groups that words make up, in order, or the first fault.
///
/// Words are read from the left. A word that begins with `-` and goes on is an option of the table; an
/// option that takes an argument takes the next word as it is. Any other word with `=` is a property of
/// the group before it, and any other word is a producer. Refused are more than 10,000 words, before
/// all else; a word that is to be an option and is none; one that is not supported; an option without
/// its argument; and a property without a name, or behind no group that takes properties. Takes time
/// in proportion to the words.
#[tactic(auto, unfolding(mlt_tree::specs::Words::groups))]
pub fn groups(alloc: Global, words: &[String]) -> Result<GroupList, Try<WordFault>>
    ensures { TryGives (λ list. list) result (groups (map string_bytes words.now)) }
{
    if words.len() > MOST_WORDS as usize {
        return refused(MOST_WORDS, WordCause::TooMany(MOST_WORDS));
    }
    let mut reading = Reading::new(alloc);
    for (index, word) in words.iter().enumerate() {
        reading.step(index as u32, word.as_str())?;
    }
    reading.finish()
}
