//! Classes of lengths. A block of the class c has 2^c bytes.

ghost use Rattle.std.specs.Prelude.{◌≡◌, ◌^◌, ◌≤◌};
ghost use Rattle.mlt_pool.specs.Class.{class_of};

/// The class of the shortest blocks.
pub const LEAST: u8 = 12;

/// The class of the longest blocks.
pub const GREATEST: u8 = 28;

/// The class of a length: the least one whose blocks are at least as long.
pub fn of_length(len: usize) -> u8
    requires { len ≤ 2 ^ 28 }
    ensures class { result ≡ class_of len }
    ensures within { (12 ≤ result) × (result ≤ 28) }
    ensures holds { len ≤ 2 ^ result }
{
    let mut class = LEAST;
    let mut size = 4096;
    while size < len {
        class += 1;
        size *= 2;
    }
    class
}

/// The number of bytes of a block of the class.
pub(crate) fn block_size(class: u8) -> usize
    requires { class ≤ 28 }
    ensures size { result ≡ 2 ^ class }
    ensures within { (1 ≤ result) × (result ≤ 2 ^ 28) }
{
    1 << class
}
