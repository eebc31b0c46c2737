//! Configurations: the directory of the server and of its peers, read of a text of lines.
#![tactic(auto)]

mod config_lines;
mod directories;
mod drafts;
mod lines;

pub use config_lines::{read_peer, readable_uri};
pub use directories::{Directory, DirectoryFault, WebDirectory, read_directory};
pub use lines::next_line;
