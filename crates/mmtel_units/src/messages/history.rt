//! History-Info: reading, diversions, marks and masks.

use crate::asserting::assert_right;
use mmtel_base::number_up_to;
use mmtel_history::{
    Entry, History, HistoryFault, read_values, with_cause, without_cause, write_entry,
};
use mmtel_lex::{List, Text};
use mmtel_test_tables::{RowRunner, Transcript, split_or_all, wrong_line};
use std::alloc::Global;
use std::mem;

/// A number of five digits at most.
fn number(digits: &[u8]) -> u16 {
    u16::try_from(number_up_to(65_535, digits).unwrap_or(0)).unwrap_or(0)
}

/// Writes an entry as `URI|index|cause|hidden or shown|rest`.
fn write_parts(transcript: &mut Transcript, entry: &Entry) {
    transcript.add(entry.uri.bytes());
    transcript.add(b"|");
    transcript.add(entry.index.bytes());
    transcript.add(b"|");
    if let Some(cause) = entry.cause {
        transcript.add_number(u64::from(cause));
    }
    transcript.add_if(entry.hidden, b"|hidden|", b"|shown|");
    transcript.add_line(entry.rest.bytes());
}

/// Writes a copy of an entry in the same way.
fn write_copy(transcript: &mut Transcript, entry: &Entry) {
    match entry.copied(transcript.alloc) {
        Ok(copy) => {
            write_parts(transcript, &copy);
            drop(copy);
        }
        Err(_) => transcript.fail(),
    }
}

/// Writes the values of a history, one a line.
fn write_history(transcript: &mut Transcript, history: &History) {
    for entry in history.entries() {
        let value = write_entry(transcript.alloc, entry);
        transcript.add_text_or_fail(value);
    }
}

/// One more diversion by bob.
pub fn divert(
    transcript: &mut Transcript,
    history: &mut History,
    target: &[u8],
    cause: u16,
    hide_last: bool,
) {
    let from = transcript.copy(b"sip:bob@home.example");
    let target = transcript.copy(target);
    if history.entries().len() > 47 {
        transcript.fail();
    } else {
        let done = history.append(transcript.alloc, &from, &target, cause, hide_last);
        transcript.fail_unless(done.is_ok());
    }
}

/// Values of History-Info, and the list that was built of them.
#[derive(Drop)]
struct Histories {
    values: List<Text>,
    history: History,
}

impl Histories {
    /// Adds a value.
    fn push(&mut self, transcript: &mut Transcript, value: &[u8]) {
        let value = transcript.copy(value);
        let done = self.values.push(transcript.alloc, value);
        transcript.fail_unless(done.is_ok());
    }

    /// Reads the values; else writes the index of the first that cannot be read.
    fn read(&mut self, transcript: &mut Transcript) {
        match read_values(transcript.alloc, &self.values) {
            Ok(history) => drop(mem::replace(&mut self.history, history)),
            Err(HistoryFault::Malformed { at }) => {
                transcript.add(b"malformed ");
                transcript.add_number(at as u64);
                transcript.add(b"\n");
            }
            Err(HistoryFault::NoMemory) => transcript.fail(),
        }
    }

    fn write_count(&self, transcript: &mut Transcript) {
        transcript.add_number(u64::from(self.history.diversions()));
        transcript.add(b"\n");
    }

    /// Removes all values.
    fn forget(&mut self) {
        drop(mem::replace(&mut self.values, List::new()));
    }

    /// Reads this value alone, and writes the parts of its entry.
    fn write_entry(&mut self, transcript: &mut Transcript, value: &[u8]) {
        self.forget();
        self.push(transcript, value);
        self.read(transcript);
        for entry in self.history.entries() {
            write_parts(transcript, entry);
        }
    }

    /// The entry of a diversion to a voice mail by a cause, and how many there are.
    fn write_caused(&mut self, transcript: &mut Transcript, cause: u16) {
        let mut value = Transcript::new(transcript.alloc);
        let uri = with_cause(transcript.alloc, b"sip:vm@example.com?Subject=x", cause);
        let uri = value.text_or_fail(uri);
        value.add(b"<");
        value.add(uri.bytes());
        value.add(b">;index=1");
        self.write_entry(transcript, value.whole());
        self.write_count(transcript);
    }

    /// Hides the entry at this index, where there is one.
    fn hide(&mut self, place: usize) {
        if place < self.history.entries().len() {
            self.history.mark(place);
        }
    }

    /// The list for a 181, with these entries hidden.
    fn write_reported(&self, transcript: &mut Transcript, hide_diverting: bool, hide_target: bool) {
        match self
            .history
            .history_for_caller(transcript.alloc, hide_diverting, hide_target)
        {
            Ok(list) => {
                write_history(transcript, &list);
                drop(list);
            }
            Err(_) => transcript.fail(),
        }
    }

    /// The list masked: each hidden entry, or each entry.
    fn write_masked(&self, transcript: &mut Transcript, all: bool) {
        match self.history.masked(transcript.alloc, all) {
            Ok(masked) => {
                write_history(transcript, &masked);
                drop(masked);
            }
            Err(_) => transcript.fail(),
        }
    }

    /// A copy of the list, and one of each entry.
    fn write_copies(&self, transcript: &mut Transcript) {
        match self.history.copied(transcript.alloc) {
            Ok(copy) => {
                write_history(transcript, &copy);
                drop(copy);
            }
            Err(_) => transcript.fail(),
        }
        for entry in self.history.entries() {
            write_copy(transcript, entry);
        }
    }

    /// The list that values give.
    fn write_values(&mut self, transcript: &mut Transcript, word: &[u8], rest: &[u8]) {
        match word {
            b"new" => {
                self.forget();
                drop(mem::replace(&mut self.history, History::new(transcript.alloc)));
            }
            b"value" => self.push(transcript, rest),
            b"many" => {
                for _ in 0..32 {
                    self.push(transcript, rest);
                }
            }
            b"second" => {
                self.forget();
                self.push(transcript, b"<sip:a@b>;index=1");
                self.push(transcript, rest);
                self.read(transcript);
            }
            b"read" => self.read(transcript),
            b"entry" => self.write_entry(transcript, rest),
            b"caused" => self.write_caused(transcript, number(rest)),
            _ => self.write_list(transcript, word, rest),
        }
    }

    /// The list after each operation.
    fn write_list(&mut self, transcript: &mut Transcript, word: &[u8], rest: &[u8]) {
        let (first, second) = split_or_all(b' ', rest);
        match word {
            b"divert" => divert(transcript, &mut self.history, second, number(first), false),
            b"hiding" => divert(transcript, &mut self.history, second, number(first), true),
            b"hide" => self.hide(usize::from(number(rest))),
            b"list" => write_history(transcript, &self.history),
            b"count" => self.write_count(transcript),
            b"told" => self.write_reported(
                transcript,
                rest.first() == Some(&b'y'),
                rest.last() == Some(&b'y'),
            ),
            b"mask" => self.write_masked(transcript, rest == b"all".as_slice()),
            b"copy" => self.write_copies(transcript),
            b"without" => {
                let uri = without_cause(transcript.alloc, rest);
                transcript.add_text_or_fail(uri);
            }
            _ => {
                let uri = with_cause(transcript.alloc, second, number(first));
                transcript.add_text_or_fail(uri);
            }
        }
    }
}

impl RowRunner for Histories {
    fn run_row(&mut self, transcript: &mut Transcript, asked: &[u8]) {
        let (word, rest) = split_or_all(b' ', asked);
        self.write_values(transcript, word, rest);
    }
}

/// Entries: a value of History-Info, as `URI|index|cause|hidden or shown|rest`.
///
/// The first five values are those of RFC 7044 §5 and §5.1, the next two have the URIs of RFC 4458 §2 and §6.3 with an index; the others are this table's own.
const ENTRIES: &[u8] = br#"> entry <sip:UserA@ims.example.com>;index=1;foo=bar
sip:UserA@ims.example.com|1||shown|;foo=bar
> entry <sip:UserA@ims.example.com?Reason=SIP%3Bcause%3D302>;index=1.1
sip:UserA@ims.example.com?Reason=SIP%3Bcause%3D302|1.1||shown|
> entry <sip:UserB@example.com?Privacy=history&Reason=SIP%3Bcause%3D486>;index=1.2;mp=1.1
sip:UserB@example.com?Privacy=history&Reason=SIP%3Bcause%3D486|1.2||hidden|;mp=1.1
> entry <sip:45432@192.168.0.3>;index=1.3;rc=1.2
sip:45432@192.168.0.3|1.3||shown|;rc=1.2
> entry <sip:bob@biloxi.example.com;p=x>;np=1;index=1.1
sip:bob@biloxi.example.com;p=x|1.1||shown|;np=1
> entry <sip:voicemail@example.com;target=bob%40example.com;cause=486>;index=1
sip:voicemail@example.com;target=bob%40example.com;cause=486|1|486|shown|
> entry <sip:+15555552000@example.com;user=phone;target=tel:+15555551002;cause=486>;index=1
sip:+15555552000@example.com;user=phone;target=tel:+15555551002;cause=486|1|486|shown|
> entry <sip:bob@biloxi.example.com?Privacy=history>;index=1.1
sip:bob@biloxi.example.com?Privacy=history|1.1||hidden|
> entry <sip:bob@example.com;cause=302?Reason=SIP%3bcause%3D302&PRIVACY=id%3bHistory>;rc=1;Index=1.10.2;x
sip:bob@example.com;cause=302?Reason=SIP%3bcause%3D302&PRIVACY=id%3bHistory|1.10.2|302|hidden|;rc=1;x
> entry "Bob" <sip:voicemail@example.com;cause=486>;index=1
sip:voicemail@example.com;cause=486|1|486|shown|
> entry <tel:+1-201-555-0123;cause=408>;index=1
tel:+1-201-555-0123;cause=408|1|408|shown|
> entry sip:a@b;index=1
sip:a@b|1||shown|
> entry <sip:a;cause=302@b>;index=1
sip:a;cause=302@b|1||shown|
> entry <sip:a@b;cause=99;cause=302>;index=1
sip:a@b;cause=99;cause=302|1||shown|
> entry <sip:a@b;CAUSE=0302>;index=1
sip:a@b;CAUSE=0302|1||shown|
> entry <sip:a@b;cause=700?Privacy=historyx>;index=1
sip:a@b;cause=700?Privacy=historyx|1||shown|
"#;

/// The causes of RFC 4458 §2, each of a diversion: its entry, and how many diversions there are.
const CAUSES: &[u8] = b"> caused 404
sip:vm@example.com;cause=404?Subject=x|1|404|shown|
1
> caused 486
sip:vm@example.com;cause=486?Subject=x|1|486|shown|
1
> caused 408
sip:vm@example.com;cause=408?Subject=x|1|408|shown|
1
> caused 302
sip:vm@example.com;cause=302?Subject=x|1|302|shown|
1
> caused 487
sip:vm@example.com;cause=487?Subject=x|1|487|shown|
1
> caused 480
sip:vm@example.com;cause=480?Subject=x|1|480|shown|
1
> caused 503
sip:vm@example.com;cause=503?Subject=x|1|503|shown|
1
";

/// Values that are no entry of this profile, the first of no bytes: each is refused at its index, after one that is read. Then of 33 values none is read, and the index is 32; of
/// 32 each is.
const UNREADABLE: &[u8] = br#"> second 
malformed 1
> second <sip:a@b>
malformed 1
> second <sip:a@b>;index
malformed 1
> second <sip:a@b>;index=
malformed 1
> second <sip:a@b>;index=1.
malformed 1
> second <sip:a@b>;index=1..1
malformed 1
> second <sip:a@b>;index="1"
malformed 1
> second <sip:a@b>;index=x;index=1
malformed 1
> second <sip:a@b>;index;index=1
malformed 1
> second <sip:a@b>;index=a
malformed 1
> second <sip:a@b;index=1>
malformed 1
> new
> many <sip:a@b;cause=302>;index=1
> read
> count
32
> value <sip:a@b>;index=1
> read
malformed 32
"#;

/// Bob diverts every call to carol, who is busy and diverts to a voice mail.
/// Then the same: the 181 of her diversion hides her and the voice mail, or one of them, and never bob; the list itself has none of these marks afterwards.
/// Last bob diverts to himself five times: six entries, five of them diversions.
const DIVERSIONS: &[u8] = b"> new
> read
> divert 302 sip:carol@home.example
> divert 486 sip:vm@far.example
> list
<sip:bob@home.example>;index=1
<sip:carol@home.example;cause=302>;index=1.1
<sip:vm@far.example;cause=486>;index=1.1.1
> count
2
> new
> divert 302 sip:carol@home.example
> divert 486 sip:vm@far.example
> told yy
<sip:bob@home.example>;index=1
<sip:carol@home.example;cause=302?Privacy=history>;index=1.1
<sip:vm@far.example;cause=486?Privacy=history>;index=1.1.1
> told y-
<sip:bob@home.example>;index=1
<sip:carol@home.example;cause=302?Privacy=history>;index=1.1
<sip:vm@far.example;cause=486>;index=1.1.1
> told -y
<sip:bob@home.example>;index=1
<sip:carol@home.example;cause=302>;index=1.1
<sip:vm@far.example;cause=486?Privacy=history>;index=1.1.1
> copy
<sip:bob@home.example>;index=1
<sip:carol@home.example;cause=302>;index=1.1
<sip:vm@far.example;cause=486>;index=1.1.1
sip:bob@home.example|1||shown|
sip:carol@home.example;cause=302|1.1|302|shown|
sip:vm@far.example;cause=486|1.1.1|486|shown|
> new
> read
> divert 302 sip:bob@home.example
> divert 302 sip:bob@home.example
> divert 302 sip:bob@home.example
> divert 302 sip:bob@home.example
> divert 302 sip:bob@home.example
> list
<sip:bob@home.example>;index=1
<sip:bob@home.example;cause=302>;index=1.1
<sip:bob@home.example;cause=302>;index=1.1.1
<sip:bob@home.example;cause=302>;index=1.1.1.1
<sip:bob@home.example;cause=302>;index=1.1.1.1.1
<sip:bob@home.example;cause=302>;index=1.1.1.1.1.1
> count
5
";

/// URIs with causes of their own among their parameters, and with text that resembles one elsewhere: the URI without its causes, and with one of 302 in their place. The cause of a
/// diversion replaces the target's own.
const CAUSED: &[u8] = b"> without sip:vm@far;cause=486
sip:vm@far
> with 302 sip:vm@far;cause=486
sip:vm@far;cause=302
> without sip:vm@far;x=1;CAUSE=486;y?Privacy=history
sip:vm@far;x=1;y?Privacy=history
> with 302 sip:vm@far;x=1;CAUSE=486;y?Privacy=history
sip:vm@far;x=1;y;cause=302?Privacy=history
> without sip:vm@far;cause;cause=486;causes=1
sip:vm@far;causes=1
> with 302 sip:vm@far;cause;cause=486;causes=1
sip:vm@far;causes=1;cause=302
> without sip:vm;cause=1@far;p
sip:vm;cause=1@far;p
> with 302 sip:vm;cause=1@far;p
sip:vm;cause=1@far;p;cause=302
> without sip:vm@far?cause=486
sip:vm@far?cause=486
> with 302 sip:vm@far?cause=486
sip:vm@far;cause=302?cause=486
> without tel:+49;cause=404
tel:+49
> with 302 tel:+49;cause=404
tel:+49;cause=302
> new
> read
> divert 302 sip:vm@far;cause=486
> list
<sip:bob@home.example>;index=1
<sip:vm@far;cause=302>;index=1.1
> count
1
";

/// Bob's diversion, hidden by nobody, and al's entry, which requests to be hidden; a diversion to a voice mail that hides the last entry; then the first and the last are hidden
/// too. A hidden entry is written with `Privacy=history` in its header part, once.
/// A hidden entry that is masked has the anonymous URI and its cause; where all are masked, so has each.
const MARKS: &[u8] = b"> new
> value <sip:bob@home.example;cause=302>;index=1;rc=0
> value <sip:al@home.example?Privacy=history>;index=1.1
> read
> hiding 486 sip:vm@far.example?Subject=x
> list
<sip:bob@home.example;cause=302>;index=1;rc=0
<sip:al@home.example?Privacy=history>;index=1.1
<sip:vm@far.example;cause=486?Subject=x>;index=1.1.1
> hide 0
> hide 2
> list
<sip:bob@home.example;cause=302?Privacy=history>;index=1;rc=0
<sip:al@home.example?Privacy=history>;index=1.1
<sip:vm@far.example;cause=486?Subject=x&Privacy=history>;index=1.1.1
> new
> value <sip:bob@home.example;cause=302>;index=1;rc=0
> value <sip:al@home.example?Privacy=history>;index=1.1
> read
> hiding 486 sip:vm@far.example?Subject=x
> mask hidden
<sip:bob@home.example;cause=302>;index=1;rc=0
<sip:anonymous@anonymous.invalid>;index=1.1
<sip:vm@far.example;cause=486?Subject=x>;index=1.1.1
> mask all
<sip:anonymous@anonymous.invalid;cause=302>;index=1;rc=0
<sip:anonymous@anonymous.invalid>;index=1.1
<sip:anonymous@anonymous.invalid;cause=486>;index=1.1.1
";

/// The number of the first line of a table that differs from the actual one; 0 where none does.
fn wrong(alloc: Global, table: &[u8]) -> usize {
    let mut histories = Histories {
        values: List::new(),
        history: History::new(alloc),
    };
    wrong_line(alloc, &mut histories, table)
}

#[test]
fn tells_histories(rt: HostRuntime) {
    assert_right(&rt, "ENTRIES", wrong(rt.alloc(), ENTRIES));
    assert_right(&rt, "CAUSES", wrong(rt.alloc(), CAUSES));
    assert_right(&rt, "UNREADABLE", wrong(rt.alloc(), UNREADABLE));
    assert_right(&rt, "DIVERSIONS", wrong(rt.alloc(), DIVERSIONS));
    assert_right(&rt, "CAUSED", wrong(rt.alloc(), CAUSED));
    assert_right(&rt, "MARKS", wrong(rt.alloc(), MARKS));
}
