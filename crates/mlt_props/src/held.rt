//! What a bag keeps under a name, and the ways in which its map is read and changed.

ghost use Rattle.std.specs.Prelude.{◌≡◌, ◌+◌, ◌≤◌, ◌++◌, length, option_map, option_copied, option_to_list, Some, is_some, IsSome, IsNone, IfOk, IfErr, OnOk, OnErr};
ghost use Rattle.mlt_props.specs.Entries.{set_at, value_of, without, as_owned, is_passed};
ghost use Rattle.mlt_props.specs.Contents.{content, entries_of};

use crate::bin::{Bin, Ends};
use indexmap::IndexMap;
use std::alloc::{AllocError, Global};
use std::mem;

/// The value of a property.
pub enum Held<D> {
    Text(String),
    Int(i64),
    Owned(D),
}

/// The owned value, where it is one.
pub(crate) fn as_owned<D: Ends>(held: Held<D>) -> Option<D>
    ensures { result ≡ as_owned (content held) }
{
    match held {
        Held::Owned(value) => Some(value),
        Held::Text(_) | Held::Int(_) => None,
    }
}

/// The owned value that it is.
pub(crate) fn owned<D: Ends>(held: Held<D>) -> D
    requires { IsSome (as_owned (content held)) }
    ensures { Some result ≡ as_owned (content held) }
{
    as_owned(held).unwrap()
}

/// Whether it is a text or a whole number, and its name begins with the prefix.
pub(crate) fn is_passed<D: Ends>(prefix: &str, name: &str, held: &Held<D>) -> bool
    ensures { result ≡ is_passed prefix.now (name.now, content held.now) }
{
    name.as_bytes().starts_with(prefix.as_bytes()) && !is_owned(held)
}

/// Whether it is an owned value.
pub(crate) fn is_owned<D: Ends>(held: &Held<D>) -> bool
    ensures { result ≡ is_some (as_owned (content held.now)) }
{
    match held {
        Held::Text(_) | Held::Int(_) => false,
        Held::Owned(_) => true,
    }
}

/// A copy of a text or a whole number.
pub(crate) fn copy<D: Ends>(alloc: Global, held: &Held<D>) -> Result<Held<D>, AllocError>
    requires { IsNone (as_owned (content held.now)) }
    ensures { IfOk result (λ h. content h ≡ content held.now) }
{
    match held {
        Held::Text(text) => Ok(Held::Text(String::from_str(alloc, text.as_str())?)),
        Held::Int(number) => Ok(Held::Int(*number)),
        Held::Owned(_) => unreachable!(),
    }
}

/// Puts an owned value into the bin.
pub(crate) fn end<D: Ends, B: Bin<D>>(held: Held<D>, bin: &mut B)
    requires { length (option_to_list (as_owned (content held))) ≤ B.free bin.old }
    ensures ended { B.ended bin.new ≡ B.ended bin.old ++ option_to_list (as_owned (content held)) }
    ensures places { B.free bin.new + length (B.ended bin.new) ≡ B.free bin.old + length (B.ended bin.old) }
{
    if let Some(value) = as_owned(held) {
        bin.put(value);
    }
}

/// The value of a name.
pub(crate) fn value_of<'a, D: Ends>(
    entries: &'a IndexMap<String, Held<D>>,
    name: &str,
) -> Option<&'a Held<D>>
    ensures { option_map content (option_copied result) ≡ value_of (entries_of entries.now.entries) name.now }
{
    entries.get(name)
}

/// Sets a name, and gives the value that it had before, or the new one where memory is wanted.
pub(crate) fn replace<D: Ends>(
    entries: &mut IndexMap<String, Held<D>>,
    name: &str,
    held: Held<D>,
) -> Result<Option<Held<D>>, Held<D>>
    ensures before { IfOk result (λ h. option_map content h ≡ value_of (entries_of entries.old.entries) name.now) }
    ensures set { OnOk result (entries_of entries.new.entries ≡ set_at (entries_of entries.old.entries) name.now (content held)) }
    ensures back { IfErr result (λ h. h ≡ held) }
    ensures same { OnErr result (entries_of entries.new.entries ≡ entries_of entries.old.entries) }
{
    if let Some(index) = entries.get_index_of(name) {
        let before = mem::replace(&mut entries[index], held);
        return Ok(Some(before));
    }
    let Ok(name) = String::from_str(*entries.allocator(), name) else {
        return Err(held);
    };
    match entries.insert(name, held) {
        Ok(before) => Ok(before),
        Err(failed) => {
            let (_name, held) = failed.value;
            Err(held)
        }
    }
}

/// Takes a name out, and gives its value.
pub(crate) fn remove<D: Ends>(
    entries: &mut IndexMap<String, Held<D>>,
    name: &str,
) -> Option<Held<D>>
    ensures value { option_map content result ≡ value_of (entries_of entries.old.entries) name.now }
    ensures rest { entries_of entries.new.entries ≡ without (entries_of entries.old.entries) name.now }
{
    entries.shift_remove(name)
}
