//! What a host in memory keeps of one port.

ghost use Rattle.std.specs.Prelude.{◌≡◌, ℕ, ◌+◌, ◌<◌, ◌≤◌, ◌++◌, length, take, min, vec_len, vec_capacity, string_bytes, IfSome, IfNone, IsErr, OnOk, OnErr};
ghost use Rattle.std.specs.String.{string_capacity};

use crate::Failed;
use std::alloc::{AllocError, Global};

/// The name of a port, its bytes since it was created, and how many of them were acknowledged.
#[derive(Drop)]
pub(crate) struct Kept {
    pub(crate) name: String,
    pub(crate) bytes: Vec<u8>,
    pub(crate) acknowledged: usize,
    pub(crate) ghost within: { acknowledged ≤ vec_len bytes },
}

/// Puts a text in the place of another, which stays where memory is wanting.
fn replace_text(text: &mut String, new: &str) -> Result<(), AllocError>
    ensures ok { OnOk result (string_bytes text.new ≡ new.now) }
    ensures err { OnErr result (string_bytes text.new ≡ string_bytes text.old) }
    ensures full { OnErr result (string_capacity text.old < length new.now) }
{
    if text.capacity() < new.len() {
        text.reserve(new.len().saturating_sub(text.len()))?;
    }
    text.clear();
    text.push_str(new)
}

impl Kept {
    ghost use Rattle.std.specs.Prelude.{[]};
    ghost use Rattle.mlt_host.specs.Host.{created, appended, cut_short};
    ghost use Rattle.mlt_host.specs.Kept.{kept_state, FrontOrFull};

    /// A port that was never created.
    pub(crate) fn new(alloc: Global) -> Kept
        ensures { kept_state result ≡ created [] }
    {
        Kept {
            name: String::new(alloc),
            bytes: Vec::new(alloc),
            acknowledged: 0,
        }
    }

    /// Empties the port and names it; where memory is wanting it stays as before.
    pub(crate) fn create(&mut self, name: &str) -> Result<(), AllocError>
        ensures ok { OnOk result (kept_state self.new ≡ created name.now) }
        ensures err { OnErr result (kept_state self.new ≡ kept_state self.old) }
        ensures full { OnErr result (string_capacity self.old.name < length name.now) }
    {
        replace_text(&mut self.name, name)?;
        self.bytes.clear();
        self.acknowledged = 0;
        Ok(())
    }

    /// Adds the bytes, and acknowledges them; where memory is wanting the port stays as before.
    pub(crate) fn append(&mut self, bytes: &[u8]) -> Result<(), AllocError>
        ensures ok { OnOk result (kept_state self.new ≡ appended (kept_state self.old) bytes.now) }
        ensures err { OnErr result (kept_state self.new ≡ kept_state self.old) }
        ensures full { OnErr result (vec_capacity self.old.bytes < vec_len self.old.bytes + length bytes.now) }
    {
        self.bytes.extend_from_slice(bytes)?;
        self.acknowledged += bytes.len();
        Ok(())
    }

    /// Adds the first `kept` bytes, or all where there are fewer, and acknowledges none; where memory
    /// is wanting the port stays as before.
    pub(crate) fn append_front(&mut self, bytes: &[u8], kept: u64) -> Result<(), AllocError>
        ensures ok { OnOk result (kept_state self.new ≡ cut_short (kept_state self.old) bytes.now kept) }
        ensures err { OnErr result (kept_state self.new ≡ kept_state self.old) }
        ensures full { OnErr result (vec_capacity self.old.bytes < vec_len self.old.bytes + length (take kept bytes.now)) }
    {
        let front = bytes.len().min(kept as usize);
        self.bytes.extend_from_slice(&bytes[..front])
    }

    /// Creates the port, unless this call is to fail; on `Failed` it stays as before.
    pub(crate) fn create_unless(&mut self, failure: Option<u64>, name: &str) -> Result<(), Failed>
        ensures ok { OnOk result (kept_state self.new ≡ created name.now) }
        ensures err { OnErr result (kept_state self.new ≡ kept_state self.old) }
        ensures fails { IfSome failure (λ _. IsErr result) }
        ensures full { OnErr result (IfNone failure (string_capacity self.old.name < length name.now)) }
    {
        match failure {
            Some(_) => Err(Failed),
            None => match self.create(name) {
                Ok(()) => Ok(()),
                Err(_) => Err(Failed),
            },
        }
    }

    /// Adds the bytes, unless this call is to fail; then it adds the first of them that the failing call
    /// keeps. Where memory is wanting the port stays as before, and the answer is `Failed` too.
    pub(crate) fn append_unless(&mut self, failure: Option<u64>, bytes: &[u8]) -> Result<(), Failed>
        ensures ok { OnOk result (kept_state self.new ≡ appended (kept_state self.old) bytes.now) }
        ensures front { OnErr result ((kept : ℕ) × (kept_state self.new ≡ cut_short (kept_state self.old) bytes.now kept)) }
        ensures fails { IfSome failure (λ kept. IsErr result × FrontOrFull self.old self.new bytes.now kept) }
        ensures err { OnErr result (IfNone failure (kept_state self.new ≡ kept_state self.old)) }
        ensures full { OnErr result (IfNone failure (vec_capacity self.old.bytes < vec_len self.old.bytes + length bytes.now)) }
    {
        match failure {
            Some(kept) => {
                let _ = self.append_front(bytes, kept);
                Err(Failed)
            }
            None => match self.append(bytes) {
                Ok(()) => Ok(()),
                Err(_) => Err(Failed),
            },
        }
    }
}
