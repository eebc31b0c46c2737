//! The program: the files of the system, the network, a journal or a database, the standard output, and the call that runs the command. It exits with that call's status.
#![tactic(auto)]

use mmtel_base::Text;
use mmtel_cli::{DiskFiles, OutSink, out_of_memory, program};
use mmtel_sockets::NetLink;
use mmtel_stored_keepers::StoreKeeper;
use std::alloc::Global;
use std::io::ErrorKind;
use std::process::ExitCode;
use std::{env, io};

/// The arguments after the program's own name; an empty list where one of them is not UTF-8, since neither is a command.
fn words(rt: &HostRuntime, alloc: Global) -> io::Result<Vec<Text>> {
    let mut words = Vec::new(alloc);
    for word in env::args(rt)?.skip(1) {
        let Ok(word) = Text::of(alloc, word.as_bytes()) else {
            return Err(io::Error::from(ErrorKind::OutOfMemory));
        };
        words.push(word)?;
    }
    Ok(words)
}

/// Runs the command of these arguments, over the files of the system, the network and a journal or a database.
fn perform(rt: &HostRuntime, alloc: Global, words: &[Text], out: &mut OutSink<'_>) -> ExitCode {
    let mut files = DiskFiles::new(rt);
    let mut link = NetLink::new(rt);
    let mut keeper = StoreKeeper::new(rt);
    let status = program(alloc, words, &mut files, &mut link, &mut keeper, out);
    keeper.close();
    drop(link);
    drop(files);
    status
}

fn main(rt: HostRuntime) -> ExitCode {
    let alloc = rt.alloc();
    let mut out = OutSink::new(&rt);
    match words(&rt, alloc) {
        Ok(words) => {
            let status = perform(&rt, alloc, words.as_slice(), &mut out);
            drop(words);
            status
        }
        Err(e) if e.kind() == ErrorKind::OutOfMemory => ExitCode::from(out_of_memory(&mut out)),
        Err(_) => perform(&rt, alloc, &[], &mut out),
    }
}
