//! From groups to a show.

ghost use Rattle.std.specs.Prelude.{◌≡◌, ◌≤◌, All, IfOk, find, fold};
ghost use Rattle.std.specs.Option.{option_copied};
ghost use Rattle.mlt_host.specs.Host.{OnlyLoads};
ghost use Rattle.mlt_tree.specs.Composing.{show_of};
ghost use Rattle.mlt_tree.specs.GroupWords.{IsAllowed, words_in};
ghost use Rattle.mlt_tree.specs.Loading.{Files};
ghost use Rattle.mlt_tree.specs.Sources.{Fits};
ghost use Rattle.mlt_tree.specs.Table.{is_kind, option_row};
ghost use Rattle.mlt_tree.specs.Unbuilt.{IsPlayed};
ghost use Rattle.mlt_graph.specs.Sealed.{tree};
ghost use Rattle.mlt_graph.specs.Show.{meant};
ghost use Rattle.melt_build.specs.Loads.{TellsFiles, Goes, CountsBuildLoads};
ghost use Rattle.melt_build.specs.WordCount.{behind_group, has_argument as has_argument_of};

use crate::composition::composed;
use crate::fault::BuildFault;
use crate::seal::seal;
use mlt_graph::Show;
use mlt_host::Host;
use mlt_source::SourceTable;
use mlt_tree::{Group, GroupKind, GroupList, OPTIONS, Row};
use std::alloc::Global;

/// Whether an option is of this kind.
fn is_of_kind(row: &Row, kind: GroupKind) -> bool
    ensures { result ≡ is_kind kind row.now.kind }
{
    match row.kind {
        Some(other) => kind == other,
        None => false,
    }
}

/// The row of a kind of group, where an option is of it.
fn row_of_kind(rows: &[Row], kind: GroupKind) -> Option<&Row>
    ensures { option_copied result ≡ find (λ row. is_kind kind row.kind) rows.now }
{
    for row in rows {
        if is_of_kind(row, kind) {
            return Some(row);
        }
    }
    None
}

/// Whether a word of its own stands behind the first word of a group of this kind.
#[tactic(auto, unfolding(mlt_tree::specs::Table::option_row))]
fn has_argument(kind: GroupKind) -> bool
    ensures { result ≡ has_argument_of (option_row kind) }
{
    match row_of_kind(&OPTIONS, kind) {
        Some(row) => row.argument,
        None => false,
    }
}

/// One more than the place of a group's last word, or the number before where that is more.
fn behind_words(most: u32, group: &Group) -> u32
    requires most { most ≤ 10001 }
    requires allowed { IsAllowed group.now }
    ensures value { result ≡ behind_group most group.now }
    ensures few { result ≤ 10001 }
{
    let argument = u32::from(has_argument(group.kind));
    let mut most = most.max(group.place + argument + 1);
    for prop in group.props.as_slice() {
        most = most.max(prop.place + 1);
    }
    most
}

/// One more than the place of the last word of all groups.
fn behind_groups(groups: &[Group]) -> u32
    requires { All IsAllowed groups.now }
    ensures { result ≡ fold behind_group 0 groups.now }
{
    let mut most = 0;
    for group in groups {
        most = behind_words(most, group);
    }
    most
}

/// How many words the groups are made of.
#[tactic(auto, using(crate::proofs::WordsCounted::all_counted))]
fn word_count(groups: &[Group]) -> u32
    requires { All IsAllowed groups.now }
    ensures { result ≡ words_in groups.now }
{
    behind_groups(groups)
}

/// The show of the groups of so many words.
fn show_of<H: Host>(
    alloc: Global,
    count: u32,
    groups: &[Group],
    host: &mut H,
) -> Result<(Show, SourceTable), BuildFault>
    ensures goes { (files : Files) → TellsFiles files (show_of files count groups.now) (H.state host.old) →
        Goes (λ made. meant made.0 made.1) result (show_of files count groups.now) (H.state host.old) (H.state host.new) }
    ensures fits { IfOk result (λ made. Fits made.1 (tree made.0.sealed)) }
    ensures played { IfOk result (λ made. IsPlayed (meant made.0 made.1)) }
    ensures counts { CountsBuildLoads result (H.state host.old) (H.state host.new) }
    ensures rest { OnlyLoads (H.state host.old) (H.state host.new) }
{
    let state = composed(alloc, count, groups, host)?;
    Ok(seal(alloc, count, state)?)
}

/// Makes the show that groups mean, and the table of its sources, and loads the files that they name, in word
/// order, each time a word names one.
///
/// The groups are those of words that are to be played. `Refused` is the first refusal of what is not built,
/// of the profile, of the groups in word order, and of the whole; its place is a word's, or the number of
/// words. `SourceFault` names the word whose file can't be read, where the host's count of loads rose;
/// `Memory` is want of memory. Nothing is created or appended. What it gives is said of a host that tells its
/// files, and of every host where no file is named.
pub fn build<H: Host>(
    alloc: Global,
    groups: &GroupList,
    host: &mut H,
) -> Result<(Show, SourceTable), BuildFault>
    requires { All IsAllowed groups.now }
    ensures goes { (files : Files) → TellsFiles files (show_of files (words_in groups.now) groups.now) (H.state host.old) →
        Goes (λ made. meant made.0 made.1) result (show_of files (words_in groups.now) groups.now) (H.state host.old) (H.state host.new) }
    ensures fits { IfOk result (λ made. Fits made.1 (tree made.0.sealed)) }
    ensures played { IfOk result (λ made. IsPlayed (meant made.0 made.1)) }
    ensures counts { CountsBuildLoads result (H.state host.old) (H.state host.new) }
    ensures rest { OnlyLoads (H.state host.old) (H.state host.new) }
{
    let list = groups.as_slice();
    show_of(alloc, word_count(list), list, host)
}
