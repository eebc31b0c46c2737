//! Message waiting (3GPP TS 24.606, RFC 3842): how many messages wait in a mailbox, as the operator uploads it and as a subscriber is notified of it; and who subscribes to which
//! mailbox.
#![tactic(auto)]

mod boxes;
mod counts;
mod mailboxes;
mod notifies;
mod reading;
mod subscribing;
mod subscriptions;
mod theorems;

pub use boxes::{Boxes, SUBSCRIPTIONS, SubFault, drop_ended};
pub use counts::Counts;
pub use mmtel_types::SubNo;
pub use notifies::summary;
pub use reading::read_counts;
pub use subscribing::{SubscribeRequest, granted_seconds, refusal};
pub use theorems::{
    a_refresh_makes_no_subscription, notifies_have_the_last_counts, numbers_are_given_once,
    the_last_upload_counts,
};
