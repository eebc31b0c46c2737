//! Worked examples of `mmtel_transaction`: sequences of its operations, which compute; and examples of its theorems, for every message with the named heads, so that nothing is
//! parsed. They are in a crate of their own, so that a change of the transactions does not require them to be proved again.
#![tactic(auto)]

mod lookups;
mod theorems;

pub use lookups::{look_up_client, look_up_server};
pub use theorems::{
    deadlines_compute, heads_compute, matching_computes, peers_compute, retransmissions_compute,
    sequences_compute,
};
