//! The limits of configurations.

use crate::directory::configurations::broken_config;
use mmtel_test_tables::Transcript;
use std::alloc::Global;

/// Adds a line for each number from 1 to this one, which has the number twice.
fn add_lines(text: &mut Transcript, last: u64) {
    for before in 0..last {
        text.add(b"route h");
        text.add_number(before + 1);
        text.add(b"-");
        text.add_number(before + 1);
        text.add(b" 1\n");
    }
}

/// The number of the line in which a configuration of so many routes after three other lines breaks the grammar; 0 where it is read.
fn broken(alloc: Global, last: u64) -> u64 {
    let mut text = Transcript::new(alloc);
    text.add(b"sip 1.2.3.4:5\nhome h\npeer 1 1.1.1.1:1 trusted\n");
    add_lines(&mut text, last);
    broken_config(alloc, text.whole())
}

// Line 4,100 is the 4,097th route: so each before it was accepted.
#[test]
fn takes_so_many_routes(rt: HostRuntime) {
    assert_eq!(rt; broken(rt.alloc(), 4097), 4100);
}
