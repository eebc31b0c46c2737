//! Rules of RFC 3261 over plain values (flags, tags, numbers, sides), for transactions, calls and conferences: each decision is a function of a few lines, which the crates
//! above call where they hold the message, the INVITE or the transaction concerned.
#![tactic(auto)]

mod invites;
mod requests;
mod statuses;

pub use invites::{is_cancel_due, is_of_dialog};
pub use requests::{
    ACK_TIME, is_ack_of, is_response_retransmitted, is_same_number, is_same_side,
    status_out_of_place,
};
pub use statuses::{is_provisional, is_redirection, is_refusal, is_success};
