//! The name of an open file, kept without memory of its own.

ghost use Rattle.std.specs.Prelude.{◌≤◌};

/// The longest name that is kept, in bytes. The system opens no file of a longer one.
pub(crate) const LONGEST_NAME: usize = 4096;

/// The name of a file.
#[derive(Drop)]
pub(crate) struct FileName {
    bytes: [u8; LONGEST_NAME],
    length: usize,
    ghost within: { length ≤ 4096 },
}

impl FileName {
    ghost use Rattle.std.specs.Prelude.{◌≡◌, ◌↔◌, length, IsSome, IfSome, IsTrue};
    ghost use Rattle.mlt_host.specs.FileName.{name_in};

    /// The empty name.
    pub(crate) fn empty() -> FileName {
        FileName {
            bytes: [0; LONGEST_NAME],
            length: 0,
        }
    }

    /// This name; None where it is longer than `LONGEST_NAME`.
    pub(crate) fn of(name: &str) -> Option<FileName>
        ensures fits { IsSome result ↔ (length name.now ≤ 4096) }
        ensures name { IfSome result (λ kept. name_in kept ≡ name.now) }
    {
        let length = name.len();
        if length > LONGEST_NAME {
            return None;
        }
        let mut bytes = [0; LONGEST_NAME];
        bytes[..length].copy_from_slice(name.as_bytes());
        Some(FileName { bytes, length })
    }

    /// Whether it is this name.
    pub(crate) fn is(&self, name: &str) -> bool
        ensures { IsTrue result ↔ (name_in self.now ≡ name.now) }
    {
        &self.bytes[..self.length] == name.as_bytes()
    }
}
