//! A keeper over a journal on a disk, which survives a stop (crash) of the machine at any moment.
#![tactic(auto)]

mod appends;
pub mod crash_theorems;
mod disks;
mod fields;
mod files;
mod growing;
mod keepers;
mod logs;
mod memory;
mod migration;
mod opening;
mod payloads;
mod reading;
pub mod recovery;
mod writing;

pub use disks::{Disk, DiskFault};
pub use files::FileDisk;
pub use keepers::JournalKeeper;
pub use memory::MemoryDisk;
pub use opening::{JournalFault, make};
