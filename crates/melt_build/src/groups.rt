//! Groups of one kind.

ghost use Rattle.std.specs.Prelude.{◌≡◌, slice_get};
ghost use Rattle.std.specs.Option.{option_copied};
ghost use Rattle.mlt_tree.specs.Table.{is_of, of_kind};

use mlt_tree::{Group, GroupKind};

/// Whether a group is of a kind.
fn is_of(kind: GroupKind, group: &Group) -> bool
    ensures { result ≡ is_of kind group.now }
{
    kind == group.kind
}

/// The first two groups of a kind, in word order, where there are so many: of an option that stands once the
/// second is `None`.
pub fn first_two(groups: &[Group], kind: GroupKind) -> (Option<&Group>, Option<&Group>)
    ensures first { option_copied result.0 ≡ slice_get (of_kind kind groups.now) 0 }
    ensures second { option_copied result.1 ≡ slice_get (of_kind kind groups.now) 1 }
{
    let mut first = None;
    for group in groups {
        if is_of(kind, group) {
            if first.is_some() {
                return (first, Some(group));
            }
            first = Some(group);
        }
    }
    (first, None)
}
