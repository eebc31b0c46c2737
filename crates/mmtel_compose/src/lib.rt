//! The messages that the server makes of those that it receives: responses of its own and relayed ones (RFC 3261 §8.2.6, §16.7), requests that relay one or none (§16.6), the
//! INVITE of an attempt (§8.1.1), and the CANCEL and ACK that copy fields of an INVITE (§9.1, §17.1.1.3).
#![tactic(auto)]

mod attempts;
mod received_messages;
mod requests;
mod responses;
mod theorems;

pub use attempts::{
    Destination, as_callee, attempt_dialogue, dialogue_to, diverted_destination, first_destination,
    invite, uri_in_brackets,
};
pub use received_messages::{ReceivedMessage, callee_remote, number_of, status_of};
pub use requests::{
    bare_parts, cancel, final_ack, own_ack, own_parts, own_request, relayed_ack, relayed_parts,
    relayed_request,
};
pub use responses::{
    FurtherMethods, OwnResponse, allow_lines, own_response, own_response_with_contact,
    relayed_response, retry_after_lines,
};
pub use theorems::{
    attempts_hide_their_caller, cancel_and_ack_copy_the_invite, legs_begin_with_their_invite,
    masked_requests_get_one_response, relayed_responses_have_fields, responses_rest_on_six_names,
};
