//! Laws of the definitions: each is the contract of a function that does nothing.

ghost use Rattle.std.specs.Prelude.{◌≡◌, ◌^◌};
ghost use Rattle.mlt_tree.specs.declared.limits.TheConstants.{MOST_OF_FILE, MOST_LOADED};
ghost use Rattle.mlt_tree.specs.WordLaws.{CountsWords, DeterminesGroups, GivesAllowed, KeepsWords};
ghost use Rattle.mlt_tree.specs.Needs.{EndsAtItsLength};

/// The limits of files that a run loads, each as a number of bytes.
pub fn limits_of_files()
    ensures file { MOST_OF_FILE ≡ 2 ^ 28 }
    ensures all { MOST_LOADED ≡ 2 ^ 30 }
{}

/// Past its length a tree has no picture and no sound, and needs no source.
pub fn ends_at_its_length()
    ensures { EndsAtItsLength }
{}

/// No word is lost, made or moved where words are read into groups: the words of the groups, in order
/// and each with its place, are the words that were read.
pub fn words_are_kept()
    ensures { KeepsWords }
{}

/// Groups that were read from words have as many words.
pub fn words_are_counted()
    ensures { CountsWords }
{}

/// Groups that were read have places below 10,000, and an argument or properties only where their
/// option takes them.
pub fn groups_are_allowed()
    ensures { GivesAllowed }
{}

/// Words are read into the only groups that they can be: groups that were read are such, words that can be
/// groups are read into these, and no words can be two lists of groups.
///
/// Words can be groups whose words, in order and each with its place, they are, 10,000 at most, where each
/// group has an argument and properties only where its option takes them, a producer's word is no option
/// and has no `=`, and a property's word is no option and has a name, without `=`.
pub fn groups_are_determined()
    ensures { DeterminesGroups }
{}
