//! The base of all crates: the out-of-memory error, texts, lists that may hold linear values, classes of bytes, and the scanners on which every grammar of the server is built.
#![tactic(auto)]

mod classes;
mod lists;
mod memory;
mod numbers;
mod scanning;
mod texts;

pub use classes::{Class, is_all};
pub use lists::List;
pub use memory::NoMemory;
pub use numbers::{add_number, has_leading_zero, number_up_to, plain_number, token_text};
pub use scanning::{closing_quote, skip_byte, skip_text, split_once_at, split_run, trim, trim_end};
pub use texts::{Text, copied_texts};
