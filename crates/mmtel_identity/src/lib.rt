//! Whose identity is restricted, and to whom which identity is presented: the presentation and restriction of identities (TS 24.607, TS 24.608), and the trust domain over plain
//! values (RFC 3325).
#![tactic(auto)]

mod restriction;
mod theorems;
mod trust_domain;

pub use restriction::{callee_restricted, caller_restricted, present_to};
pub use theorems::{
    permanent_mode_restricts, privacy_words_restrict, restriction_has_three_grounds,
    unrequested_is_unrestricted,
};
pub use trust_domain::{if_trusted, is_in_trust_domain, shows_identity, unless_restricted};
