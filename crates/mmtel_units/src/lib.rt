//! Tests of the public functions of the libraries from the lowest up to the output of a step: types, deadlines, the grammars of SIP's parts, reliable provisional responses,
//! targets of calls, session descriptions, messages and what is read and copied of them, configurations and scripts, transactions, legs and what is built of received messages,
//! mailboxes, and the words of the command line. A module for each crate or for several, a table or a few for each test.
//!
//! What the contracts claim needs no test. These are the examples of the standards, whose values come from there, and one call of each function that allocates, with enough memory,
//! since a body that always returns out of memory satisfies its contract too.
#![tactic(auto)]

#[cfg(test)]
mod asserting;
#[cfg(test)]
mod base;
#[cfg(test)]
mod composing;
#[cfg(test)]
mod directory;
#[cfg(test)]
mod lex;
#[cfg(test)]
mod messages;
#[cfg(test)]
mod parted_shelves;
#[cfg(test)]
mod reliable;
#[cfg(test)]
mod sdp;
#[cfg(test)]
mod targets;
#[cfg(test)]
mod timers;
#[cfg(test)]
mod transactions;
#[cfg(test)]
mod types;
#[cfg(test)]
mod words;
