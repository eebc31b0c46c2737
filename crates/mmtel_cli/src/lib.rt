//! The program's work: its command-line arguments, the reports that it writes, and how it runs over files, a link, a keeper and a sink.
#![tactic(auto)]

mod charges;
mod checks;
mod runs;
mod serving;
mod theorems;
mod top;
mod workloads;

pub use mmtel_directory::{Directory, DirectoryFault, read_directory};
pub use mmtel_environment::{
    DiskFiles, Event, FileFault, Files, MemoryFiles, MemorySink, Offer, OutSink, Sink, write_all,
};
pub use mmtel_keeper::{KeepFault, Keeper, MemoryKeeper};
pub use mmtel_link::{Link, MemoryLink};
pub use mmtel_reports::{Report, out_of_memory, write_report};
pub use mmtel_script::{ScriptFault, ScriptLink, listed_bytes_read_back, listing};
pub use mmtel_serve::serve;
pub use mmtel_server::{DriveFault, Server, drive};
pub use mmtel_types::Failed;
pub use mmtel_words::{Replay, Serve, WantedCommand, command};
pub use mmtel_workload::WorkLink;
pub use theorems::statuses_mean;
pub use top::{program, run};
