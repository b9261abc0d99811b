//! The outside of a run: the files that it loads, the ports that it writes, how often each of them has
//! failed, and how often each port was created.
//!
//! Only `mlt_base` stands below this crate. What builds a composition loads files by a `Host`, and what
//! plays one writes its ports; neither knows which host it has. `DiskHost` is the one of a program, over
//! the files of a `Disk`: `SystemDisk` has those of the system, and the disk of [`disk_in_memory`] is for
//! tests. A disk counts its calls and its failures, and its files and the streams, which are each a `Source`
//! or a `Sink`, count theirs; `Counted` makes one of a reader or a writer of std. `MemHost` and `CalmHost`
//! keep all in memory, for tests and for proofs over every fault. Start reading at [`host`].
#![tactic(auto)]

mod calls;
pub mod calm_host;
pub mod counted;
pub mod disk;
mod disk_file;
pub mod disk_host;
pub mod disk_in_memory;
mod failures;
mod file_name;
mod files;
pub mod host;
mod kept;
pub mod mem_host;
mod outlet;
mod ports;
pub mod stream;
pub mod system_disk;

pub use calm_host::CalmHost;
pub use counted::Counted;
pub use disk::{Disk, OpenFault};
pub use disk_host::DiskHost;
pub use host::{Failed, Host, LoadFault};
pub use mem_host::MemHost;
pub use mlt_base::Port;
pub use stream::{Sink, Source};
pub use system_disk::SystemDisk;

#[cfg(test)]
mod disk_tests;
#[cfg(test)]
mod tests;
