//! The targets that a call reaches, the home domain, and whom the server serves there: what the parties of a call and the precedence of the services have in common.
#![tactic(auto)]

mod served_user;
mod targets;

pub use served_user::{RegistrationState, Served, is_registered};
pub use targets::{Target, diverted_target, first_target, is_at_home, is_global_number};
