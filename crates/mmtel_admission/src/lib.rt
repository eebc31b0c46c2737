//! Parsing of datagrams, the decisions on requests, and the responses to them: the part of the server's work below its steps.
#![tactic(auto)]

mod arrivals;
mod dialogs;
mod dispositions;
mod parsing;
mod refusals;
mod registrations;
mod replies;
mod status_responses;
mod subscribing;

pub use arrivals::{arrival_signal, caller_account};
pub use dialogs::{DialogName, dialog_name};
pub use dispositions::{RequestContext, disposition};
pub use parsing::{ParsedDatagram, moment, parse_datagram};
pub use replies::{completed_reply, is_untagged, response_to};
pub use status_responses::{
    DialogOwner, Disposition, StatusResponse, further_methods, plain_response,
};
pub use subscribing::{
    grant_response, granted_expires, named_mailbox, other_response, refusal_response,
    subscribe_refusal,
};
