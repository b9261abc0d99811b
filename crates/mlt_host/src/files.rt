//! The files of a host in memory by name, and the names that were asked of it in order.

ghost use Rattle.std.specs.Prelude.{◌≡◌, ◌++◌, [], ◌∷◌, List, ℕ, OnOk, OnErr};
ghost use Rattle.mlt_host.specs.Host.{asked_after};
ghost use Rattle.mlt_host.specs.Files.{file_in, names_in, answer_of, Answers, GivesFile};

use crate::LoadFault;
use std::alloc::{AllocError, Global};
use std::collections::BTreeMap;

/// Gives the file of that name these bytes; where memory is wanting all files stay as before.
pub(crate) fn give_file(
    alloc: Global,
    files: &mut BTreeMap<String, Vec<u8>>,
    name: &str,
    bytes: &[u8],
) -> Result<(), AllocError>
    ensures ok { OnOk result (GivesFile name.now bytes.now (file_in files.old) (file_in files.new)) }
    ensures err { OnErr result ((other : List ℕ) → file_in files.new other ≡ file_in files.old other) }
{
    let name = String::from_str(alloc, name)?;
    let bytes = bytes.to_vec(alloc)?;
    files.insert(name, bytes)?;
    Ok(())
}

/// Adds the name to those asked; where memory is wanting they stay as before.
pub(crate) fn ask(alloc: Global, asked: &mut Vec<String>, name: &str) -> Result<(), AllocError>
    ensures ok { OnOk result (names_in asked.new.items ≡ names_in asked.old.items ++ name.now ∷ []) }
    ensures err { OnErr result (names_in asked.new.items ≡ names_in asked.old.items) }
{
    let name = String::from_str(alloc, name)?;
    asked.push(name)?;
    Ok(())
}

/// The bytes of the file of that name, at most `limit` of them. Each answer but `Memory` adds the
/// name to those asked. `Missing` where there is no such file, `TooLarge(limit)` where it has more
/// bytes than `limit`.
pub(crate) fn load(
    alloc: Global,
    files: &BTreeMap<String, Vec<u8>>,
    asked: &mut Vec<String>,
    name: &str,
    limit: u64,
) -> Result<Vec<u8>, LoadFault>
    ensures answer { Answers result (answer_of (file_in files.now name.now) limit) }
    ensures asked { Some (names_in asked.new.items) ≡ asked_after result name.now (Some (names_in asked.old.items)) }
{
    let found = match files.get(name) {
        None => Err(LoadFault::Missing),
        Some(bytes) if bytes.len() as u64 > limit => Err(LoadFault::TooLarge(limit)),
        Some(bytes) => match bytes.to_vec(alloc) {
            Ok(copy) => Ok(copy),
            Err(_) => return Err(LoadFault::Memory),
        },
    };
    match ask(alloc, asked, name) {
        Ok(()) => found,
        Err(_) => Err(LoadFault::Memory),
    }
}
