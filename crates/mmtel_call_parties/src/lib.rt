//! Who takes part in a call, and where its attempts are sent: the accounts of caller and target, which of them is served, targets and the home domain, Route values and the next
//! hop.
#![tactic(auto)]

mod parties;
mod routing;
mod served;
mod theorems;

pub use mmtel_served_user::{
    RegistrationState, Served, Target, diverted_target, first_target, is_at_home,
};
pub use parties::{Parties, account_of};
pub use routing::{names_server, next_hop, remaining_routes};
pub use served::ServedSides;
pub use theorems::{
    first_served_user_counts, numbers_find_the_same_account, parties_rest_on_the_mask,
    served_origin_restricts, served_user_alone_decides, strangers_are_not_believed,
};
