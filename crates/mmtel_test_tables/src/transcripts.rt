//! A text that is written piece by piece.

use crate::tables::next_line;
use mmtel_base::{NoMemory, Text, split_once_at};
use std::alloc::Global;

/// What was written so far. Where memory ran out or something else failed, this is recorded, so that the functions that add to it need not check it.
#[derive(Drop)]
pub struct Transcript {
    pub alloc: Global,
    text: Text,
    failed: bool,
}

impl Transcript {
    /// Nothing was written yet.
    pub fn new(alloc: Global) -> Transcript {
        Transcript {
            alloc,
            text: Text::new(),
            failed: false,
        }
    }

    /// Records that something failed.
    pub fn fail(&mut self) {
        self.failed = true;
    }

    /// Records that something failed, where this was not done.
    pub fn fail_unless(&mut self, done: bool) {
        if !done {
            self.failed = true;
        }
    }

    /// The value, where there is one; else records that there is none.
    pub fn value_or_fail<T, E: Drop>(&mut self, outcome: Result<T, E>) -> Option<T> {
        match outcome {
            Ok(value) => Some(value),
            Err(_) => {
                self.failed = true;
                None
            }
        }
    }

    /// Adds bytes.
    pub fn add(&mut self, bytes: &[u8]) {
        if self.text.push(self.alloc, bytes).is_err() {
            self.failed = true;
        }
    }

    /// Adds bytes and the end of a line.
    pub fn add_line(&mut self, bytes: &[u8]) {
        self.add(bytes);
        self.add(b"\n");
    }

    /// Adds the bytes, or the others where the condition is false.
    pub fn add_if(&mut self, is_so: bool, bytes: &[u8], others: &[u8]) {
        if is_so {
            self.add(bytes);
        } else {
            self.add(others);
        }
    }

    /// Adds a number in decimal digits.
    pub fn add_number(&mut self, number: u64) {
        match number.to_string(self.alloc) {
            Ok(digits) => self.add(digits.as_bytes()),
            Err(_) => self.failed = true,
        }
    }

    /// Adds a space, and a number in decimal digits.
    pub fn add_spaced_number(&mut self, number: u64) {
        self.add(b" ");
        self.add_number(number);
    }

    /// Adds a part of a value: ` name<bytes>`.
    pub fn add_part(&mut self, name: &[u8], bytes: &[u8]) {
        self.add(b" ");
        self.add(name);
        self.add(b"<");
        self.add(bytes);
        self.add(b">");
    }

    /// Adds a text that was built, and ends the line.
    pub fn add_text_or_fail(&mut self, made: Result<Text, NoMemory>) {
        match made {
            Ok(text) => self.add_line(text.bytes()),
            Err(NoMemory) => self.failed = true,
        }
    }

    /// A text that was built; an empty one where that failed.
    pub fn text_or_fail(&mut self, made: Result<Text, NoMemory>) -> Text {
        match made {
            Ok(text) => text,
            Err(NoMemory) => {
                self.failed = true;
                Text::new()
            }
        }
    }

    /// A text of these bytes.
    pub fn copy(&mut self, bytes: &[u8]) -> Text {
        let text = Text::of(self.alloc, bytes);
        self.text_or_fail(text)
    }

    /// Adds these lines, of which each is ended by this byte, with another end.
    pub fn add_ended(&mut self, ended_by: u8, lines: &[u8], end: &[u8]) {
        let mut rest = lines;
        for _ in 0..400 {
            match split_once_at(ended_by, rest) {
                None => break,
                Some((line, later)) => {
                    self.add(line);
                    self.add(end);
                    rest = later;
                }
            }
        }
        self.add(rest);
    }

    /// Adds these lines, of which each is ended by LF, with CR LF at their ends.
    pub fn add_with_cr(&mut self, lines: &[u8]) {
        self.add_ended(b'\n', lines, b"\r\n");
    }

    /// Adds these bytes without their CRs.
    pub fn add_without_cr(&mut self, bytes: &[u8]) {
        self.add_ended(b'\r', bytes, b"");
    }

    /// Whether something failed.
    pub fn has_failed(&self) -> bool {
        self.failed
    }

    /// What was written so far.
    pub fn bytes(&self) -> &[u8] {
        self.text.bytes()
    }

    /// The whole; where something failed, this alone.
    pub fn whole(&self) -> &[u8] {
        if self.failed {
            b"failed"
        } else {
            self.text.bytes()
        }
    }

    /// The number of the first line, from 1, that differs from the table's; 0 where none does.
    pub fn wrong_line(&self, table: &[u8]) -> usize {
        if self.failed {
            return 1;
        }
        let mut rest = self.text.bytes();
        let mut wanted = table;
        for before in 0..2_000 {
            if rest.is_empty() && wanted.is_empty() {
                return 0;
            }
            let (line, later) = next_line(rest);
            let (wanted_line, wanted_later) = next_line(wanted);
            if line != wanted_line {
                return before + 1;
            }
            rest = later;
            wanted = wanted_later;
        }
        2_001
    }
}
