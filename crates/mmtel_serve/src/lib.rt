//! The server over a link to which its outputs are passed.
#![tactic(auto)]

mod serving;

pub use serving::serve;
