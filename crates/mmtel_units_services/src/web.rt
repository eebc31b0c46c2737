//! The environment: keepers in memory and over a database, the texts of records, links, HTTP, and requests with their replies.
//!
//! A table is one text: a line that begins with `> ` has the input, and the line below it the result. In both `%` represents CR and `~` LF. A test writes the lines of the inputs
//! and the actual results, and compares the whole.

mod heads;
mod keeping;
mod linking;
mod pages;
mod requests;
mod sockets;
mod storing;
