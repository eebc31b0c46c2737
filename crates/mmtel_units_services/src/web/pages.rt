//! Bytes in tables, in which `%` stands for CR and `~` for LF.

use mmtel_base::List;
use mmtel_test_tables::Transcript;

/// Adds bytes with `%` for CR and `~` for LF.
pub fn add_shown(transcript: &mut Transcript, bytes: &[u8]) {
    for byte in bytes {
        match *byte {
            b'\r' => transcript.add(b"%"),
            b'\n' => transcript.add(b"~"),
            other => transcript.add(&[other]),
        }
    }
}

/// The bytes with CR for `%` and LF for `~`.
pub fn meant(transcript: &mut Transcript, line: &[u8]) -> Transcript {
    let mut meant = Transcript::new(transcript.alloc);
    for byte in line {
        match *byte {
            b'%' => meant.add(b"\r"),
            b'~' => meant.add(b"\n"),
            other => meant.add(&[other]),
        }
    }
    transcript.fail_unless(!meant.has_failed());
    meant
}

/// Adds bytes so many times.
pub fn add_many(transcript: &mut Transcript, bytes: &[u8], times: usize) {
    for _ in 0..times {
        transcript.add(bytes);
    }
}

/// A list of these numbers.
pub fn numbers(transcript: &mut Transcript, numbers: &[u64]) -> List<u64> {
    let mut list = List::new();
    for number in numbers {
        let done = list.push(transcript.alloc, *number);
        transcript.fail_unless(done.is_ok());
    }
    list
}

/// The number of a line; 1 where something failed.
pub fn unless_failed(transcript: Transcript, line: usize) -> usize {
    let failed = transcript.has_failed();
    drop(transcript);
    if failed { 1 } else { line }
}
