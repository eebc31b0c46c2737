//! Meters, charging rows and typed legs, what is built of received messages, the output of a step, and mailboxes with their subscribers.

mod attempts;
mod charging;
mod confirmed_legs;
mod dialogs;
mod legs;
mod mailboxes;
mod received_messages;
mod remotes;
mod requests;
