//! The transaction and the dialog of a message by its five fields: as a message that was read keeps them, and as they are read of one that was edited or built.

use crate::asserting::assert_right;
use crate::messages::drafts::{message_of_lines, request};
use mmtel_lex::Text;
use mmtel_message::Msg;
use mmtel_test_tables::Transcript;
use std::alloc::Global;

/// A request whose fields are header fields in the compact form, one of them folded.
const BYE: &[u8] = b"BYE sip:bob@far.example SIP/2.0
v: SIP/2.0/UDP erin.example:5071;branch=z9hG4bKa1, SIP/2.0/UDP 192.0.2.1;branch=z9hG4bKb2
f: \"Erin\"
 <sip:erin@other.example>;tag=a
t: <sip:bob@far.example>;tag=b;x
i: c1@h
CSeq: 7 BYE
Content-Length: 0

";

/// What is written of it: as it was read; with another To, whose tag has no value; without Call-ID; and of a message that was built without header fields.
const SAID: &[u8] = b"z9hG4bKa1 erin.example:5071 a b c1@h 7 BYE
z9hG4bKa1 erin.example:5071 a  c1@h 7 BYE
nothing
nothing
";

/// Writes a part and a space after it.
fn write_part(transcript: &mut Transcript, part: &[u8]) {
    transcript.add(part);
    transcript.add(b" ");
}

/// Writes what the five fields give.
fn write_identifiers(transcript: &mut Transcript, message: &Msg) {
    match message.identifiers() {
        None => transcript.add(b"nothing"),
        Some(said) => {
            write_part(transcript, said.branch);
            write_part(transcript, said.sent_by);
            write_part(transcript, said.from_tag);
            write_part(transcript, said.to_tag);
            write_part(transcript, said.call_id);
            transcript.add_number(u64::from(said.number));
            transcript.add(b" ");
            transcript.add(said.method);
        }
    }
    transcript.add(b"\n");
}

/// Writes the same of a message that was read, and of it with edits.
fn write_edited(transcript: &mut Transcript, message: &mut Msg) {
    write_identifiers(transcript, message);
    let to = transcript.copy(b"<sip:bob@far.example>;tag");
    let done = message.set(transcript.alloc, b"To", to);
    transcript.fail_unless(done.is_ok());
    write_identifiers(transcript, message);
    message.drop_all(b"Call-ID");
    write_identifiers(transcript, message);
}

/// The number of the first line that differs from the actual one; 0 where none does.
fn wrong_identifiers(alloc: Global) -> usize {
    let mut transcript = Transcript::new(alloc);
    match message_of_lines(&mut transcript, BYE) {
        None => {}
        Some(message) => {
            let mut message = message;
            write_edited(&mut transcript, &mut message);
            drop(message);
        }
    }
    let start = request(&mut transcript, b"BYE");
    let built = Msg::new(start, Text::new());
    write_identifiers(&mut transcript, &built);
    drop(built);
    transcript.wrong_line(SAID)
}

#[test]
fn keeps_what_fields_say(rt: HostRuntime) {
    assert_right(&rt, "identifiers", wrong_identifiers(rt.alloc()));
}
