//! A link over the network: the boundary, of whose input no clause says anything.
#![tactic(auto)]

mod connections;
mod links;
mod socket_calls;
mod sockets;

pub use links::NetLink;
