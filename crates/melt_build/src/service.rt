//! The producer, the filter, the merge or the consumer that a word names, and its argument.

ghost use Rattle.std.specs.Prelude.{◌≡◌, nat_eq, find};
ghost use Rattle.std.specs.Option.{option_map, option_copied};
ghost use Rattle.mlt_base.specs.SplitOnce.{split_once};
ghost use Rattle.mlt_tree.specs.Services.{is_id, ends_in, producer_named, producer_of_file, stands_alone, with_arg, producer_of, raw_of, colour_name, output_name, by_id, raw_by_id, called, is_filter, filter_named, is_merge, merge_named};
ghost use Rattle.melt_build.specs.Service.{named_view, called_view};

use mlt_base::Name;
use mlt_tree::Producer;
use mlt_tree::services::{FILTERS, FilterRow, MERGES, MergeRow, PRODUCERS, ProducerRow, RAW};

/// A producer and its argument.
#[derive(Clone, Copy)]
pub(crate) struct Named<'a> {
    pub producer: Producer,
    pub arg: &'a str,
}

/// The row of an id.
fn row_of_id(rows: &[ProducerRow], id: &str) -> Option<ProducerRow>
    ensures { result ≡ find (is_id id.now) rows.now }
{
    for row in rows {
        if row.name.as_bytes() == id.as_bytes() {
            return Some(*row);
        }
    }
    None
}

/// Whether a file's name has an ending, if there is one.
fn ends_in(file: &str, ending: Option<Name>) -> bool
    ensures { result ≡ ends_in file.now ending }
{
    match ending {
        None => false,
        Some(ending) => file.as_bytes().ends_with(ending.as_bytes()),
    }
}

/// The row of a file, by its ending.
fn row_of_file(rows: &[ProducerRow], file: &str) -> Option<ProducerRow>
    ensures { result ≡ find (λ row. ends_in file.now row.ending) rows.now }
{
    for row in rows {
        if ends_in(file, row.ending) {
            return Some(*row);
        }
    }
    None
}

/// The producer of an id.
fn producer_named(id: &str) -> Option<Producer>
    ensures { result ≡ producer_named id.now }
{
    row_of_id(&PRODUCERS, id).map(|row| row.kind)
}

/// The producer of a file, by its ending.
fn producer_of_file(file: &str) -> Option<Producer>
    ensures { result ≡ producer_of_file file.now }
{
    row_of_file(&PRODUCERS, file).map(|row| row.kind)
}

/// What stands before the first `:` of a word, and behind it.
#[tactic(auto, using(std::proofs::lemmas::Str::Pattern::split_once_first), unfolding(mlt_base::specs::SplitOnce::split_once))]
fn split_once(word: &str) -> Option<(&str, &str)>
    ensures { option_map (λ x. (x.0.now, x.1.now)) result ≡ split_once 58 word.now }
{
    word.split_once(':')
}

/// A producer, where there is one, with its argument.
fn with_arg(arg: &str, producer: Option<Producer>) -> Option<Named<'_>>
    ensures { option_map named_view result ≡ with_arg arg.now producer }
{
    match producer {
        None => None,
        Some(producer) => Some(Named { producer, arg }),
    }
}

/// The producer whose id stands before the first `:`.
fn by_id(word: &str) -> Option<Named<'_>>
    ensures { option_map named_view result ≡ by_id (split_once 58 word.now) }
{
    match split_once(word) {
        None => None,
        Some((id, arg)) => with_arg(arg, producer_named(id)),
    }
}

/// Whether a producer's id may stand alone.
fn stands_alone(producer: Option<Producer>) -> bool
    ensures { result ≡ stands_alone producer }
{
    match producer {
        None => false,
        Some(Producer::Colour) => true,
        Some(Producer::Picture) => false,
        Some(Producer::Sound) => false,
        Some(Producer::Melt) => false,
    }
}

/// The producer that a word names.
pub(crate) fn producer_of(word: &str) -> Option<Named<'_>>
    ensures { option_map named_view result ≡ producer_of word.now }
{
    if stands_alone(producer_named(word)) {
        return with_arg("", Some(Producer::Colour));
    }
    match by_id(word) {
        None => with_arg(word, producer_of_file(word)),
        Some(named) => Some(named),
    }
}

/// The text of a colour, `black` where it is empty.
pub(crate) fn colour_name(arg: &str) -> &str
    ensures { result.now ≡ colour_name arg.now }
{
    if arg.is_empty() { "black" } else { arg }
}

/// The name of an output, `-` where it is empty.
fn output_name(name: &str) -> &str
    ensures { result.now ≡ output_name name.now }
{
    if name.is_empty() { "-" } else { name }
}

/// The name of the output behind the first `:`, where `raw` stands before it.
fn raw_by_id(word: &str) -> Option<&str>
    ensures { option_copied result ≡ raw_by_id (split_once 58 word.now) }
{
    match split_once(word) {
        None => None,
        Some((id, name)) => {
            if id.as_bytes() == RAW.as_bytes() {
                Some(output_name(name))
            } else {
                None
            }
        }
    }
}

/// The name of the output of the consumer `raw`, where the word names that.
pub(crate) fn raw_of(word: &str) -> Option<&str>
    ensures { option_copied result ≡ raw_of word.now }
{
    if word.as_bytes() == RAW.as_bytes() {
        return Some("-");
    }
    raw_by_id(word)
}

/// The id of a word, and what stands behind the first `:`, where there is one.
#[derive(Clone, Copy)]
pub(crate) struct IdAndValue<'a> {
    pub id: &'a str,
    pub value: Option<&'a str>,
}

/// The id of a word and its value.
pub(crate) fn called(word: &str) -> IdAndValue<'_>
    ensures { called_view result ≡ called word.now }
{
    match split_once(word) {
        None => IdAndValue {
            id: word,
            value: None,
        },
        Some((id, value)) => IdAndValue {
            id,
            value: Some(value),
        },
    }
}

/// The row of a filter's id.
fn row_of_filter(rows: &[FilterRow], id: &str) -> Option<FilterRow>
    ensures { result ≡ find (is_filter id.now) rows.now }
{
    for row in rows {
        if row.name.as_bytes() == id.as_bytes() {
            return Some(*row);
        }
    }
    None
}

/// The filter of an id.
pub(crate) fn filter_named(id: &str) -> Option<FilterRow>
    ensures { result ≡ filter_named id.now }
{
    row_of_filter(&FILTERS, id)
}

/// The row of a merge's id.
fn row_of_merge(rows: &[MergeRow], id: &str) -> Option<MergeRow>
    ensures { result ≡ find (is_merge id.now) rows.now }
{
    for row in rows {
        if row.name.as_bytes() == id.as_bytes() {
            return Some(*row);
        }
    }
    None
}

/// The merge of an id.
pub(crate) fn merge_named(id: &str) -> Option<MergeRow>
    ensures { result ≡ merge_named id.now }
{
    row_of_merge(&MERGES, id)
}
