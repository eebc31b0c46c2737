//! A keeper over SQLite: the boundary, of whose contents no clause says anything.
#![tactic(auto)]

mod databases;
mod keepers;
mod statements;
mod values;

pub use keepers::SqliteKeeper;
