//! From words to what is played or printed.

ghost use Rattle.std.specs.Prelude.{◌≡◌, All, None, Option, IfSome, find};
ghost use Rattle.std.specs.Option.{option_copied};
ghost use Rattle.std.specs.List.{list_any};
ghost use Rattle.mlt_host.specs.Host.{OnlyLoads};
ghost use Rattle.mlt_tree.specs.Composing.{show_of};
ghost use Rattle.mlt_tree.specs.GroupWords.{IsAllowed, words_in};
ghost use Rattle.mlt_tree.specs.Loading.{Files};
ghost use Rattle.mlt_tree.specs.Reading as meaning;
ghost use Rattle.mlt_tree.specs.Refusing.{refusal_at as refusal_of};
ghost use Rattle.mlt_tree.specs.Sources.{Fits};
ghost use Rattle.mlt_tree.specs.Table.{is_of as is_of_kind};
ghost use Rattle.mlt_tree.specs.Unbuilt.{IsPlayed};
ghost use Rattle.mlt_graph.specs.Sealed.{tree};
ghost use Rattle.mlt_graph.specs.Show.{meant};
ghost use Rattle.melt_build.specs.Loads.{TellsFiles};
ghost use Rattle.melt_run.specs.Prepared.{Meant, Means, Reads, IfPlay, GoesPrepared, CountsPrepared, loads_on, AsksWhilePreparing};
ghost use Rattle.melt_run.specs.Show.{texts};

use crate::text::TextJob;
use melt_build::{BuildFault, build, first_two};
use melt_words::groups;
use mlt_base::{Try, WordCause, WordFault};
use mlt_graph::Show;
use mlt_host::Host;
use mlt_source::SourceTable;
use mlt_tree::{Cause, Group, GroupKind, GroupList, QueryKind, Refusal};
use std::alloc::Global;

/// What the words ask for.
#[derive(Drop)]
pub enum Prepared {
    /// A show, and a table that has its sources.
    Play(Show, SourceTable),
    Text(TextJob),
    Refused(Refusal),
    /// The file that the word at this place names can't be read.
    SourceFault(u32),
    Memory,
}

/// Whether a group is of this kind.
fn is_of(kind: GroupKind, group: &Group) -> bool
    ensures { result ≡ is_of_kind kind group.now }
{
    kind == group.kind
}

/// Whether there is a group of this kind.
fn has(kind: GroupKind, groups: &[Group]) -> bool
    ensures { result ≡ list_any (is_of_kind kind) groups.now }
{
    groups.iter().any(|group| is_of(kind, group))
}

/// The first group of this kind.
fn first_of(kind: GroupKind, groups: &[Group]) -> Option<&Group>
    ensures { option_copied result ≡ find (is_of_kind kind) groups.now }
{
    for group in groups {
        if is_of(kind, group) {
            return Some(group);
        }
    }
    None
}

/// The list of names that the argument of `-query` asks for.
fn query_named(text: &str) -> Option<QueryKind>
    ensures { result ≡ meaning.query_named text.now }
{
    match text {
        "producers" => Some(QueryKind::Producers),
        "filters" => Some(QueryKind::Filters),
        "transitions" => Some(QueryKind::Transitions),
        "consumers" => Some(QueryKind::Consumers),
        "profiles" => Some(QueryKind::Profiles),
        _ => None,
    }
}

/// What a group of `-query` asks for.
fn query_asked(group: &Group) -> Result<QueryKind, Refusal>
    ensures { result ≡ meaning.query_asked group.now }
{
    match query_named(group.arg.as_str()) {
        None => Err(Refusal::at(group.place, Cause::BadValue)),
        Some(asked) => Ok(asked),
    }
}

/// The question of the groups, if there is one; a second is refused.
#[tactic(auto, unfolding(mlt_tree::specs::Reading::query_made))]
fn query_made(groups: &[Group]) -> Result<Option<QueryKind>, Refusal>
    ensures { result ≡ meaning.query_made groups.now }
{
    let (first, second) = first_two(groups, GroupKind::Query);
    let Some(group) = first else {
        return Ok(None);
    };
    let asked = query_asked(group)?;
    match second {
        Some(again) => Err(Refusal::at(again.place, Cause::TooMany { limit: 1 })),
        None => Ok(Some(asked)),
    }
}

/// The list that `-query` asks for.
fn query(groups: &[Group]) -> Prepared
    ensures { Reads result (meaning.query_read (meaning.query_made groups.now)) }
{
    match query_made(groups) {
        Ok(None) => Prepared::Text(TextJob::Version),
        Ok(Some(asked)) => Prepared::Text(TextJob::Query(asked)),
        Err(refusal) => Prepared::Refused(refusal),
    }
}

/// The first `-serialise`, else the first `-generate`: the jobs that are not built yet.
fn later_job(groups: &[Group]) -> Option<&Group>
    ensures { option_copied result ≡ meaning.later_job groups.now }
{
    match first_of(GroupKind::Serialise, groups) {
        Some(group) => Some(group),
        None => first_of(GroupKind::Generate, groups),
    }
}

/// The show that the groups mean.
fn play<H: Host>(alloc: Global, groups: &GroupList, host: &mut H) -> Prepared
    requires { All IsAllowed groups.now }
    ensures goes { (files : Files) → TellsFiles files (meaning.show_read (show_of files (words_in groups.now) groups.now)) (H.state host.old) →
        GoesPrepared result (meaning.show_read (show_of files (words_in groups.now) groups.now)) (H.state host.old) (H.state host.new) }
    ensures fits { IfPlay result (λ show table. Fits table (tree show.sealed)) }
    ensures played { IfPlay result (λ show table. IsPlayed (meant show table)) }
    ensures counts { CountsPrepared result (H.state host.old) (H.state host.new) }
    ensures rest { OnlyLoads (H.state host.old) (H.state host.new) }
{
    match build(alloc, groups, host) {
        Ok((show, table)) => Prepared::Play(show, table),
        Err(BuildFault::Refused(refusal)) => Prepared::Refused(refusal),
        Err(BuildFault::SourceFault(place)) => Prepared::SourceFault(place),
        Err(BuildFault::Memory) => Prepared::Memory,
    }
}

/// The first of the jobs that the groups have, else to play.
fn job<H: Host>(alloc: Global, groups: &GroupList, host: &mut H) -> Prepared
    requires { All IsAllowed groups.now }
    ensures goes { (files : Files) → TellsFiles files (meaning.job_of files (words_in groups.now) groups.now) (H.state host.old) →
        GoesPrepared result (meaning.job_of files (words_in groups.now) groups.now) (H.state host.old) (H.state host.new) }
    ensures fits { IfPlay result (λ show table. Fits table (tree show.sealed)) }
    ensures played { IfPlay result (λ show table. IsPlayed (meant show table)) }
    ensures counts { CountsPrepared result (H.state host.old) (H.state host.new) }
    ensures rest { OnlyLoads (H.state host.old) (H.state host.new) }
{
    let list = groups.as_slice();
    if has(GroupKind::Version, list) {
        return Prepared::Text(TextJob::Version);
    }
    if has(GroupKind::Query, list) {
        return query(list);
    }
    match later_job(list) {
        Some(group) => Prepared::Refused(Refusal::at(group.place, Cause::Unsupported)),
        None => play(alloc, groups, host),
    }
}

/// What the words mean.
fn read<H: Host>(alloc: Global, words: &[String], host: &mut H) -> Prepared
    ensures goes { (files : Files) → TellsFiles files (meaning.words_read (texts words.now) files) (H.state host.old) →
        GoesPrepared result (meaning.words_read (texts words.now) files) (H.state host.old) (H.state host.new) }
    ensures fits { IfPlay result (λ show table. Fits table (tree show.sealed)) }
    ensures played { IfPlay result (λ show table. IsPlayed (meant show table)) }
    ensures counts { CountsPrepared result (H.state host.old) (H.state host.new) }
    ensures rest { OnlyLoads (H.state host.old) (H.state host.new) }
{
    match groups(alloc, words) {
        Ok(list) => job(alloc, &list, host),
        Err(Try::Fault(fault)) => Prepared::Refused(Refusal::from(fault)),
        Err(Try::Memory) => Prepared::Memory,
    }
}

/// Reads the words, and loads the files that they name, in word order, each time a word names one.
///
/// It creates and appends nothing. `Play` is a show with a table that fits it. `Refused` is the words' refusal.
/// `SourceFault` names the word whose file can't be read, where the host's count of loads rose; that count
/// stays with every other answer. `Memory` is want of memory.
pub fn prepare<H: Host>(alloc: Global, words: &[String], host: &mut H) -> Prepared
    ensures means { Meant (texts words.now) (H.state host.old) (Means result) }
    ensures fits { IfPlay result (λ show table. Fits table (tree show.sealed)) }
    ensures played { IfPlay result (λ show table. IsPlayed (meant show table)) }
    ensures asked { IfSome (loads_on (texts words.now) (H.state host.old).files) (λ loads.
        AsksWhilePreparing result loads (H.state host.old) (H.state host.new)) }
    ensures counts { CountsPrepared result (H.state host.old) (H.state host.new) }
    ensures rest { OnlyLoads (H.state host.old) (H.state host.new) }
{
    read(alloc, words, host)
}
