//! SIP transactions: which message belongs to which, what is retransmitted and when, and when a transaction ends (RFC 3261 §17, RFC 6026).
//!
//! Transactions are kept by their numbers, and looked up in ordered indexes (shelves) of match keys and of deadlines.
#![tactic(auto)]

mod entries;
mod heads;
mod match_keys;
mod message_class;
mod shelving;
mod table;
mod tables;
pub mod theorems;
mod tokens;
mod transactions;
mod words;

pub use match_keys::hash_of;
pub use mmtel_base::{List, NoMemory, Text};
pub use tokens::Tokens;
pub use transactions::Transactions;
pub use words::{Due, DueWord, Emit, Emits, HearFault, Heard, RoomWord, TKey};
