//! Texts, lists and numbers.

use crate::asserting::assert_right;
use mmtel_base::{
    List, NoMemory, Text, add_number, copied_texts, has_leading_zero, number_up_to, plain_number,
};
use mmtel_test_tables::{RowRunner, Transcript, split_or_all, wrong_line};
use std::alloc::Global;

/// A list of small numbers, and the operations on it.
#[derive(Drop)]
struct Lists {
    list: List<u8>,
}

/// A number of one digit; 0 where there is none.
fn digit(digits: &[u8]) -> u8 {
    u8::try_from(number_up_to(9, digits).unwrap_or(0)).unwrap_or(0)
}

/// Adds 1, 2 and 4.
fn add_three(transcript: &mut Transcript, list: &mut List<u8>) {
    for item in [1, 2, 4] {
        let done = list.push(transcript.alloc, item);
        transcript.fail_unless(done.is_ok());
    }
}

/// A list of 1, 2 and 4.
fn three(transcript: &mut Transcript) -> List<u8> {
    let mut list = List::new();
    add_three(transcript, &mut list);
    list
}

/// Writes an item, or `-` for none.
fn write_item(transcript: &mut Transcript, item: Option<u8>) {
    match item {
        None => transcript.add(b" -"),
        Some(item) => transcript.add_spaced_number(u64::from(item)),
    }
}

impl Lists {
    fn insert(&mut self, transcript: &mut Transcript, at: usize, item: u8) {
        if at <= self.list.items().len() {
            let done = self.list.insert(transcript.alloc, at, item);
            transcript.fail_unless(done.is_ok());
        } else {
            transcript.fail();
        }
    }

    fn replace(&mut self, transcript: &mut Transcript, at: usize, item: u8) {
        if at < self.list.items().len() {
            write_item(transcript, Some(self.list.replace(at, item)));
        } else {
            transcript.fail();
        }
    }

    fn remove(&mut self, transcript: &mut Transcript, at: usize) {
        if at < self.list.items().len() {
            write_item(transcript, Some(self.list.remove(at)));
        } else {
            transcript.fail();
        }
    }

    fn join(&mut self, transcript: &mut Transcript, other: List<u8>) {
        let done = self.list.extend(transcript.alloc, other);
        transcript.fail_unless(done.is_ok());
    }

    fn join_three(&mut self, transcript: &mut Transcript) {
        let other = three(transcript);
        self.join(transcript, other);
    }

    /// What is joined, removed or written.
    fn take(&mut self, transcript: &mut Transcript, word: &[u8]) {
        match word {
            b"three" => add_three(transcript, &mut self.list),
            b"join" => self.join_three(transcript),
            b"join-none" => self.join(transcript, List::new()),
            b"first" => write_item(transcript, self.list.pop_first()),
            b"last" => write_item(transcript, self.list.pop()),
            _ => {
                for item in self.list.items() {
                    write_item(transcript, Some(*item));
                }
            }
        }
    }
}

impl RowRunner for Lists {
    fn run_row(&mut self, transcript: &mut Transcript, asked: &[u8]) {
        let (word, rest) = split_or_all(b' ', asked);
        let (at, item) = split_or_all(b' ', rest);
        let at = usize::from(digit(at));
        match word {
            b"insert" => self.insert(transcript, at, digit(item)),
            b"replace" => self.replace(transcript, at, digit(item)),
            b"remove" => self.remove(transcript, at),
            _ => self.take(transcript, word),
        }
        transcript.add(b"\n");
    }
}

/// A list of three items that is edited and emptied; then two lists of three that are joined, the first items removed, and then the others.
const LISTS: &[u8] = b"> three

> all
 1 2 4
> insert 2 3

> replace 0 9
 1
> remove 1
 2
> last
 4
> all
 9 3
> last
 3
> last
 9
> three

> join

> first
 1
> first
 2
> all
 4 1 2 4
> join-none

> first
 4
> first
 1
> first
 2
> first
 4
> first
 -
";

fn wrong_lists(alloc: Global) -> usize {
    let mut lists = Lists { list: List::new() };
    wrong_line(alloc, &mut lists, LISTS)
}

fn push_text(transcript: &mut Transcript, list: &mut List<Text>, bytes: &[u8]) {
    let text = transcript.copy(bytes);
    let done = list.push(transcript.alloc, text);
    transcript.fail_unless(done.is_ok());
}

/// Writes a copy of each text.
fn write_copies(transcript: &mut Transcript, list: &List<Text>) {
    for text in list.items() {
        let copy = text.copied(transcript.alloc);
        transcript.add_text_or_fail(copy);
    }
}

fn wrong_copies(alloc: Global) -> usize {
    let mut transcript = Transcript::new(alloc);
    let mut list = List::new();
    push_text(&mut transcript, &mut list, b"a");
    push_text(&mut transcript, &mut list, b"bc");
    let copy = copied_texts(alloc, list.items());
    if let Some(copy) = transcript.value_or_fail(copy) {
        write_copies(&mut transcript, &copy);
    }
    transcript.wrong_line(b"a\nbc\n")
}

/// The number of a text, of at most 255, whether it has a leading zero, and the number printed again.
#[derive(Drop)]
struct Numbers;

fn add_again(transcript: &mut Transcript, number: u64) {
    let mut out = Text::new();
    match add_number(transcript.alloc, &mut out, number) {
        Ok(()) => transcript.add_part(b"again", out.bytes()),
        Err(NoMemory) => transcript.fail(),
    }
}

impl RowRunner for Numbers {
    fn run_row(&mut self, transcript: &mut Transcript, asked: &[u8]) {
        transcript.add_if(has_leading_zero(asked), b"zero", b"plain");
        match plain_number(255, asked) {
            None => transcript.add(b" none"),
            Some(number) => add_again(transcript, number),
        }
        transcript.add(b"\n");
    }
}

const NUMBERS: &[u8] = b"> 0
plain again<0>
> 00
zero none
> 7
plain again<7>
> 07
zero none
> 255
plain again<255>
> 256
plain none
> -1
plain none
> 1x
plain none
";

#[test]
fn lists_texts_and_numbers(rt: HostRuntime) {
    assert_right(&rt, "lists", wrong_lists(rt.alloc()));
    assert_right(&rt, "copies", wrong_copies(rt.alloc()));
    assert_right(
        &rt,
        "NUMBERS",
        wrong_line(rt.alloc(), &mut Numbers, NUMBERS),
    );
}
