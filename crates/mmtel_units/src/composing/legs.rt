//! Legs that are built of messages, the transcript of their values, and their end.
ghost use Rattle.std.specs.Prelude.{◌≤◌};
ghost use Rattle.mmtel_types.specs.Moments.{last_moment};

use crate::messages::drafts::message_of_lines;
use mmtel_charging::Meter;
use mmtel_leg::{Asked, CalleeLeg, CallerLeg, Ended, LegOf, Released, Remote, Standing};
use mmtel_message::{Msg, OwnAddress};
use mmtel_test_tables::Transcript;
use mmtel_types::{Addr, Cause, Moment, Peer, Side};

/// The server's address.
pub const SIP: Addr = Addr {
    ip: [127, 0, 0, 1],
    port: 5060,
};

/// The server's address with its texts.
pub fn own_address() -> OwnAddress {
    OwnAddress::of(SIP)
}

/// A restricted INVITE as it is received.
pub const CAME: &[u8] = br##"INVITE sip:bob@far.example SIP/2.0
Via: SIP/2.0/UDP 127.0.0.1:5071;branch=z9hG4bKa1
Max-Forwards: 68
From: "Erin" <sip:erin@other.example>;tag=a
To: <sip:bob@far.example>
Call-ID: c1
CSeq: 7 INVITE
Contact: <sip:erin@127.0.0.1:5071>
P-Asserted-Identity: <sip:erin@other.example>
Privacy: id
Content-Length: 0

"##;

/// The INVITE that is sent for it to the target.
pub const OFFERED: &[u8] = br##"INVITE sip:bob@far.example SIP/2.0
Via: SIP/2.0/UDP 127.0.0.1:5060;branch=z9hG4bK0123456789abcdef-4
Max-Forwards: 67
From: "Anonymous" <sip:anonymous@anonymous.invalid>;tag=0123456789abcdef-3
To: <sip:bob@far.example>
Call-ID: 0123456789abcdef-2
CSeq: 1 INVITE
Contact: <sip:127.0.0.1:5060>
Content-Length: 0

"##;

/// The response to that.
pub const ANSWER: &[u8] = br##"SIP/2.0 200 OK
Via: SIP/2.0/UDP 127.0.0.1:5060;branch=z9hG4bK0123456789abcdef-4
Record-Route: <sip:p2.far.example;lr>, <sip:p1.far.example;lr>
From: "Anonymous" <sip:anonymous@anonymous.invalid>;tag=0123456789abcdef-3
To: "Bob" <sip:bob@far.example;x=y>;tag=b
Call-ID: 0123456789abcdef-2
CSeq: 1 INVITE
Contact: <sip:bob@127.0.0.1:5072>
Content-Length: 0

"##;

/// What is written of a confirmed leg.
pub trait WritesLeg {
    fn write_leg<P>(transcript: &mut Transcript, leg: &mut LegOf<P, Standing>);
}

/// The remote side, by the message that it sent.
pub fn remote_in(transcript: &mut Transcript, lines: &[u8], side: Side) -> Option<Remote> {
    let message = message_of_lines(transcript, lines)?;
    let remote = Remote::read(transcript.alloc, &message, side);
    drop(message);
    transcript.value_or_fail(remote)
}

/// The moment of this many milliseconds.
pub fn moment(ms: u64) -> Moment
    requires { ms ≤ last_moment }
{
    match Moment::new(ms) {
        Some(moment) => moment,
        None => unreachable!(),
    }
}

/// Consumes a meter; writes its account, where there is one.
pub fn write_meter(transcript: &mut Transcript, meter: Option<Meter>) {
    match meter {
        Some(meter) => {
            let row = meter.close(moment(0), 0, Cause::Ended);
            transcript.add(b"account ");
            transcript.add_number(u64::from(row.account.0));
            transcript.add(b"\n");
        }
        None => {}
    }
}

/// Consumes a leg that was taken out of its call; writes the meter that was in it.
fn write_end(transcript: &mut Transcript, leg: Released) {
    let Ended { meter } = match leg {
        Released::Caller(leg) => leg.leave(),
        Released::Callee(leg) => leg.leave(),
    };
    write_meter(transcript, meter);
}

/// The confirmed leg with the remote side of these messages, of which some may be early.
fn confirmed_leg<P>(
    leg: LegOf<P, Asked>,
    early: Option<Remote>,
    said: Remote,
) -> LegOf<P, Standing> {
    match early {
        None => leg.stand(said),
        Some(early) => leg.early(early).stand(said),
    }
}

/// Writes the leg of the caller who sent an INVITE, to whom the server's tag is the first that was drawn.
fn write_caller<T: WritesLeg>(
    transcript: &mut Transcript,
    invite: &Msg,
    early: Option<Remote>,
    said: Remote,
) {
    let tag = transcript.copy(b"0123456789abcdef-1");
    match CallerLeg::<Asked>::take(transcript.alloc, Peer(1), invite, tag, None) {
        Ok(leg) => {
            let mut leg = confirmed_leg(leg, early, said);
            T::write_leg(transcript, &mut leg);
            write_end(transcript, Released::Caller(leg));
        }
        Err((meter, _)) => {
            drop(early);
            drop(said);
            transcript.fail();
            write_meter(transcript, meter);
        }
    }
}

/// Writes the leg of the callee to whom an INVITE is sent.
fn write_callee<T: WritesLeg>(
    transcript: &mut Transcript,
    invite: &Msg,
    early: Option<Remote>,
    said: Remote,
) {
    match CalleeLeg::<Asked>::start(transcript.alloc, Peer(2), invite, None) {
        Ok(leg) => {
            let mut leg = confirmed_leg(leg, early, said);
            T::write_leg(transcript, &mut leg);
            write_end(transcript, Released::Callee(leg));
        }
        Err((meter, _)) => {
            drop(early);
            drop(said);
            transcript.fail();
            write_meter(transcript, meter);
        }
    }
}

/// Writes the leg of this side.
fn write_side<T: WritesLeg>(
    transcript: &mut Transcript,
    side: Side,
    invite: &Msg,
    early: Option<Remote>,
    said: Remote,
) {
    match side {
        Side::Caller => write_caller::<T>(transcript, invite, early, said),
        Side::Callee => write_callee::<T>(transcript, invite, early, said),
    }
}

/// Writes the leg of this side that is built of an INVITE, and of the remote side's early and later messages.
pub fn write_leg<T: WritesLeg>(
    transcript: &mut Transcript,
    side: Side,
    invite: &[u8],
    early: Option<Remote>,
    said: Remote,
) {
    match message_of_lines(transcript, invite) {
        Some(invite) => {
            write_side::<T>(transcript, side, &invite, early, said);
            drop(invite);
        }
        None => {
            drop(early);
            drop(said);
        }
    }
}

/// Writes the leg of this side that is built of an INVITE and of one message of the remote side.
pub fn write_answered<T: WritesLeg>(
    transcript: &mut Transcript,
    side: Side,
    invite: &[u8],
    answer: &[u8],
) {
    if let Some(said) = remote_in(transcript, answer, side) {
        write_leg::<T>(transcript, side, invite, None, said);
    }
}
