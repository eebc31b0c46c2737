//! Transactions: tables of sequences of calls with the result of each, from the state machines of RFC 3261 (figures 5 to 8) and RFC 6026, and of reliable provisional responses
//! (RFC 3262 §3); the limit; and tokens.
//!
//! The moments and results of the tables come from the standards.

mod calls;
mod figures;
mod keys;
mod limits;
mod messages;
mod reliable;
mod searches;
