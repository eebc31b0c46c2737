//! The output of a step of a call or of a conference: the tokens that it draws, the messages that are sent, the rows that it closes; and what is still done about an INVITE that
//! was abandoned before it had a final response. Calls and conferences depend on it, and neither on the other.
#![tactic(auto)]

mod abandoned_invites;
mod attempt_invites;
mod cancel_and_ack;
mod index;
mod marks;
mod outputs;
mod response_matching;
mod sending;
mod sent_invites;
mod theorems;

pub use abandoned_invites::abandoned_at;
pub use attempt_invites::AttemptInvite;
pub use index::Index;
pub use marks::Mark;
pub use outputs::{StepOutput, push_item};
pub use response_matching::{awaited_request_branch, behind_cookie, branch_of, timed_out_branch};
pub use sent_invites::{
    AbandonedInvite, SentInvite, abandoned_of, drop_at, invite_after_cancel, with_early,
};
pub use theorems::{
    cancels_have_heads, masked_requests_have_one_head, requests_have_heads, responses_have_heads,
};
