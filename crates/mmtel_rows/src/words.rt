//! The words of the command line.

use crate::asserting::assert_right;
use crate::cases::writes;
use crate::pages::{Page, is_well};
use mmtel_test_tables::split_or_all;
use std::alloc::Global;

/// What a run of each list of words, separated here by `|`, writes. The name of the configuration is that of a file whose first line is bad, so that a run ends with its number,
/// and that is no service record; every other name is of no file, and no file is read for words that are no command. `?` represents a byte that no UTF-8 text has.
const WORDS: &[u8] = b"line 1|replay|c|s|--token|0123456789abcdef
line 1|replay|c|--token|0123456789abcdef|s
line 1|replay|--token|0123456789abcdef|c|s
line 1|replay|c|s|--token=0123456789abcdef
line 1|replay|--token=ffffffffffffffff|c|s
line 1|replay|--token|0123456789abcdef|--|c|s
line 1|replay|c|--token|0123456789abcdef|--|s
line 1|replay|c|s|--token|0123456789abcdef|--
line 2|replay|-|s|--token|0123456789abcdef
line 3|replay|--token|0123456789abcdef|--|-c|s
line 1|replay|--token|0123456789abcdef|--|c|--token
file|replay|--token|0123456789abcdef|--|--|c
line 1|replay|c|c|--token|0123456789abcdef
file|replay|s|c|--token|0123456789abcdef
file|replay||s|--token|0123456789abcdef
file|replay|replay|s|--token|0123456789abcdef
usage
usage||replay|c|s|--token|0123456789abcdef
usage|replay
line 1|serve|c|--token|0123456789abcdef|--turns|1
line 1|serve|--turns|1|c|--token|0123456789abcdef
line 1|serve|--turns=1000000000|--token=ffffffffffffffff|c
line 1|serve|--token|0123456789abcdef|--turns|1000000000|--|c
line 1|serve|c|--turns|9|--token|0123456789abcdef|--
line 2|serve|-|--token|0123456789abcdef|--turns|1
line 3|serve|--token|0123456789abcdef|--turns|1|--|-c
file|serve|s|--token|0123456789abcdef|--turns|1
file|serve|serve|--token|0123456789abcdef|--turns|1
usage|serve
usage|serve|c
usage|serve|c|--turns|1
usage|serve|c|--token|0123456789abcdef
usage|serve|--token|0123456789abcdef|--turns|1
usage|serve|c|s|--token|0123456789abcdef|--turns|1
usage|serve|--token|0123456789abcdef|--turns|1|--|c|s
usage|serve|c|--|--token|0123456789abcdef|--turns|1
usage|serve|c|--token|0123456789abcdef|--turns|0
usage|serve|c|--token|0123456789abcdef|--turns|01
usage|serve|c|--token|0123456789abcdef|--turns|1000000001
usage|serve|c|--token|0123456789abcdef|--turns|10000000000
usage|serve|c|--token|0123456789abcdef|--turns|+1
usage|serve|c|--turns|1 |--token|0123456789abcdef
usage|serve|c|--token|0123456789abcdef|--turns|0x1
usage|serve|c|--token|0123456789abcdef|--turns|
usage|serve|c|--token|0123456789abcdef|--turns=
usage|serve|c|--token|0123456789abcdef|--turns=-1
usage|serve|c|--token|0123456789abcdef|--turns|-
usage|serve|c|--token|0123456789abcdef|--turns
usage|serve|c|--token|0123456789abcdef|--turns|1|--turns|1
usage|serve|c|--turns=1|--token|0123456789abcdef|--turns=1
usage|serve|c|--token|0123456789abcdef|--token|0123456789abcdef|--turns|1
usage|serve|c|--token|--turns|1
usage|serve|c|--token=|--turns|1
usage|serve|c|--token|0123456789abcdeF|--turns|1
usage|serve|c|--token|0123456789abcdef0|--turns|1
usage|serve|c|--token|0123456789abcdef|--turn|1
usage|serve|c|--token|0123456789abcdef|-turns|1
usage|serve|c|--token|0123456789abcdef|--turns|1|--calls|1
usage|serve|c|--token|0123456789abcdef|--turns|1|--help
usage|serve|-c|--token|0123456789abcdef|--turns|1
usage|Serve|c|--token|0123456789abcdef|--turns|1
not toml|check|c
not toml|check|--|c
not toml|check|c|--
not toml|check|-
not toml|check|--|-c
file|check|s
file|check|--|--
file|check|replay
file|check|
usage|check
usage|check|--
usage|check|c|s
usage|check|-c
usage|check|c|--|s
usage|check|--|c|s
usage|check|--|--|c
usage|check|c|--token|0123456789abcdef
usage|check|--token=0123456789abcdef|c
usage|Check|c
line 1|charges|c
line 2|charges|-
line 3|charges|--|-c
line 1|charges|c|--
file|charges|s
usage|charges
usage|charges|-c
usage|charges|c|s
usage|charges|c|--token|0123456789abcdef
usage|Charges|c
usage|workload
usage|workload|--calls|1
usage|workload|--salt|1
usage|workload|--calls|0|--salt|0
usage|workload|--calls|10001|--salt|0
usage|workload|--calls|01|--salt|0
usage|workload|--calls||--salt|0
usage|workload|--calls|-1|--salt|0
usage|workload|--calls=1.0|--salt|0
usage|workload|--calls|1|--salt|4294967296
usage|workload|--calls|1|--salt|10000000000
usage|workload|--calls|1|--salt|00
usage|workload|--calls|1|--salt|01
usage|workload|--calls|1|--salt|+1
usage|workload|--calls|1|--salt=-1
usage|workload|--calls|1|--salt|
usage|workload|--calls|1|--salt
usage|workload|--calls|--salt|0
usage|workload|--calls|1|--salt|0|--salt|0
usage|workload|--calls|1|--calls=1|--salt|0
usage|workload|c|--calls|1|--salt|0
usage|workload|--calls|1|--salt|0|-
usage|workload|--calls|1|--salt|0|--|--
usage|workload|--|--calls|1|--salt|0
usage|workload|--calls|1|--salt|0|--turns|1
usage|workload|--calls|1|--salt|0|--help
usage|Workload|--calls|1|--salt|0
usage|Replay|c|s|--token|0123456789abcdef
usage|replay |c|s|--token|0123456789abcdef
usage|--|replay|c|s|--token|0123456789abcdef
usage|--token|0123456789abcdef|replay|c|s
usage|replay|c|s
usage|replay|c|--token|0123456789abcdef
usage|replay|c|s|t|--token|0123456789abcdef
usage|replay|--token|0123456789abcdef|--|c|s|t
usage|replay|c|s|--token
usage|replay|c|s|--token=
usage|replay|c|s|--token|0123456789abcdef|--token|0123456789abcdef
usage|replay|c|s|--token|0123456789abcdef|--token=0123456789abcdef
usage|replay|c|s|--|--token|0123456789abcdef
usage|replay|c|s|--token|--|0123456789abcdef
usage|replay|c|s|--token|-
usage|replay|c|s|--token|0123456789abcde
usage|replay|c|s|--token|0123456789abcdef0
usage|replay|c|s|--token|0123456789abcdeF
usage|replay|c|s|--token|0123456789abcdeg
usage|replay|c|s|--token|+123456789abcdef
usage|replay|c|s|--token|0x23456789abcdef
usage|replay|c|s|--token| 123456789abcdef
usage|replay|c|s|--token=0123456789abcde
usage|replay|c|s|-token|0123456789abcdef
usage|replay|c|s|--tokens|0123456789abcdef
usage|replay|c|s|--Token|0123456789abcdef
usage|replay|c|s|--tok|0123456789abcdef
usage|replay|c|s|--token|0123456789abcdef|--turns|1
usage|replay|c|s|--token|0123456789abcdef|--help
usage|replay|c|-s|--token|0123456789abcdef
usage|replay|c|---|--token|0123456789abcdef
usage|--help
usage|-h
usage|help
usage|?
usage|check?|c
usage|check|?
usage|charges|c?
usage|replay|c|?s|--token|0123456789abcdef
usage|serve|?|--token|0123456789abcdef|--turns|1
usage|serve|c|--token|0123456789abcdef|--turns|1?
usage|workload|--calls|1|--salt=?
usage|workload|--calls|1|--salt|0|?";

/// The status of a run that writes this.
fn status_of(due: &[u8]) -> u64 {
    match due.first() {
        Some(b'u') => 1,
        Some(b'l') => 2,
        Some(b'f') => 5,
        Some(b'n') => 3,
        _ => 0,
    }
}

/// Whether the words of a row make a run write the row's result, over three files.
fn is_right(alloc: Global, row: &[u8]) -> bool {
    let (due, words) = split_or_all(b'|', row);
    let mut case = Page::new(alloc);
    case.add(b"=file:c bad;\n=file:- ;bad;\n=file:-c ;;bad;\n=status:");
    case.add_number(status_of(due));
    case.add(b"\n=words:");
    case.add_ended(b'?', words, b"\xff");
    case.add(b"\n");
    let mut line = Page::new(alloc);
    line.add(due);
    line.add(b"\n");
    let right = writes(alloc, case.bytes(), line.bytes());
    let well = is_well(case);
    is_well(line) && well && right
}

/// The number of the first row that is wrong, from 1; 0 where none is, of two hundred at most.
fn wrong_row(alloc: Global, table: &[u8]) -> usize {
    let mut rest = table;
    for number in 0..200 {
        if rest.is_empty() {
            return 0;
        }
        let (row, later) = split_or_all(b'\n', rest);
        if !is_right(alloc, row) {
            return number + 1;
        }
        rest = later;
    }
    200
}

#[test]
fn lists_of_words(rt: HostRuntime) {
    assert_right(&rt, "WORDS", wrong_row(rt.alloc(), WORDS));
}
