//! Received messages, and the transcript of the output of a step.

use crate::messages::drafts::{message_of_lines, write_message};
use mmtel_base::Text;
use mmtel_compose::ReceivedMessage;
use mmtel_message::{Msg, Start};
use mmtel_output::StepOutput;
use mmtel_test_tables::Transcript;
use mmtel_transaction::{Emit, Tokens};
use mmtel_types::{Addr, Peer};

/// The INVITE of a caller who requests privacy.
pub const OPENING: &[u8] = br##"INVITE sip:bob@far.example SIP/2.0
Via: SIP/2.0/UDP 127.0.0.1:5071;branch=z9hG4bKa1
Max-Forwards: 68
From: "Erin" <sip:erin@other.example>;tag=a
To: <sip:bob@far.example>
Call-ID: c1
CSeq: 7 INVITE
Contact: <sip:erin@127.0.0.1:5071>
P-Asserted-Identity: <sip:erin@other.example>
Privacy: id
Content-Length: 0

"##;

/// A message without header fields.
fn nothing() -> Msg {
    Msg::new(
        Start::Status {
            code: 100,
            phrase: Text::new(),
        },
        Text::new(),
    )
}

/// The message of these header fields, from a peer at 127.0.0.1 with this port.
pub fn received_message(
    transcript: &mut Transcript,
    lines: &[u8],
    peer: u16,
    port: u16,
    trusted: bool,
) -> ReceivedMessage {
    let message = match message_of_lines(transcript, lines) {
        Some(message) => message,
        None => nothing(),
    };
    ReceivedMessage {
        peer: Peer(peer),
        source: Addr {
            ip: [127, 0, 0, 1],
            port,
        },
        trusted,
        message,
    }
}

/// The output of a step that draws from the token of the examples.
pub fn step_output(transcript: &mut Transcript) -> StepOutput {
    let token = transcript.copy(b"0123456789abcdef");
    StepOutput::new(Tokens::new(token))
}

fn write_head(transcript: &mut Transcript, word: &[u8], number: u64) {
    transcript.add(word);
    transcript.add_number(number);
    transcript.add(b"\n");
}

fn write_emit(transcript: &mut Transcript, emit: &Emit) {
    match emit {
        Emit::Ask { peer, msg } => {
            write_head(transcript, b"ask ", u64::from(peer.0));
            write_message(transcript, msg);
        }
        Emit::Reply { key, msg } => {
            write_head(transcript, b"reply ", key.0);
            write_message(transcript, msg);
        }
        Emit::Plain { peer, text } => {
            write_head(transcript, b"plain ", u64::from(peer.0));
            transcript.add_without_cr(text.bytes());
        }
        Emit::Ack { key, msg } => {
            write_head(transcript, b"ack ", key.0);
            write_message(transcript, msg);
        }
        _ => transcript.fail(),
    }
}

/// Writes all emits of a step: of each emit its kind, its peer, and its text without CRs.
pub fn write_output(transcript: &mut Transcript, desk: &StepOutput) {
    for emit in desk.out.items() {
        write_emit(transcript, emit);
    }
}
