//! Storing service records and charging rows: the interface of a keeper, and one in memory.
#![tactic(auto)]

mod keepers;
mod memory;
mod migration;

pub use keepers::{KeepFault, Keeper};
pub use memory::MemoryKeeper;
pub use migration::migrated_text;
