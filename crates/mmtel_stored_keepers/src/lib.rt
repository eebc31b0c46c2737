//! A keeper in memory, over a journal or over a database, by the path: the boundary, of whose contents no clause says anything.
#![tactic(auto)]

mod backends;
mod keepers;

pub use keepers::StoreKeeper;
