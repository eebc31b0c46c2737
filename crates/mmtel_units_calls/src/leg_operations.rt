//! Operations on legs and rows, a line each after `! `: `lend MOMENT CALL SIDE` takes a leg out and puts it back, `part MOMENT CALL SIDE` takes it out and ends the call without
//! it, `lose MOMENT CALL SIDE` takes it out for good, `drop COUNT` hands rows over.
//!
//! Of a leg its peer and its dialog are written, the call that has that dialog while the leg is out, and the sides of the call then.

use crate::environments::{TestEnvironment, is, moment, number, word};
use crate::step_reports::{TestTraffic, write_emits};
use crate::tables_of_calls::{write_live, write_parties, write_place};
use mmtel_b2bua::{Calls, NotTalking};
use mmtel_charging::Meter;
use mmtel_leg::{Ended, Released};
use mmtel_test_tables::Transcript;
use mmtel_types::{CallNo, Cause, Moment, Side};

fn write_leg(transcript: &mut Transcript, calls: &Calls, call: u64, leg: &Released) {
    let dialogue = leg.dialogue();
    let call_id = dialogue.call_id.bytes();
    let local = dialogue.local_tag.bytes();
    let remote = dialogue.remote_tag.bytes();
    transcript.add(b"leg to ");
    transcript.add_number(u64::from(dialogue.peer.0));
    transcript.add(b": ");
    transcript.add(call_id);
    transcript.add(b" ");
    transcript.add(local);
    transcript.add(b" ");
    transcript.add_line(remote);
    write_place(transcript, calls.find(call_id, local, remote));
    write_parties(transcript, calls, call);
}

/// A leg that is out has no meter.
fn check_meter(transcript: &mut Transcript, meter: Option<Meter>, at: Moment) {
    match meter {
        None => {}
        Some(meter) => {
            transcript.fail();
            drop(meter.close(at, 0, Cause::Ended));
        }
    }
}

fn leave(transcript: &mut Transcript, leg: Released, at: Moment) {
    let Ended { meter } = leg.leave();
    check_meter(transcript, meter, at);
}

/// Detaches a leg and puts it back.
fn release_and_restore(transcript: &mut Transcript, calls: &mut Calls, call: u64, side: Side) {
    match calls.release(CallNo(call), side) {
        Err(NotTalking) => transcript.add_line(b"not talking"),
        Ok(leg) => {
            write_leg(transcript, calls, call, &leg);
            calls.restore(CallNo(call), leg);
        }
    }
}

/// Detaches a leg and ends the call without it.
fn part(
    transcript: &mut Transcript,
    world: &TestEnvironment,
    wire: &mut TestTraffic,
    calls: &mut Calls,
    call: u64,
    side: Side,
    at: Moment,
) {
    match calls.release(CallNo(call), side) {
        Err(NotTalking) => transcript.add_line(b"not talking"),
        Ok(leg) => {
            write_leg(transcript, calls, call, &leg);
            leave(transcript, leg, at);
            let finished = calls.finish(
                transcript.alloc,
                CallNo(call),
                &world.peers,
                &world.accounts,
                &mut wire.desk.tokens,
                at,
            );
            if let Some(emits) = transcript.value_or_fail(finished) {
                write_emits(transcript, wire, emits);
            }
        }
    }
}

/// Detaches a leg for good.
fn lose(transcript: &mut Transcript, calls: &mut Calls, call: u64, side: Side, at: Moment) {
    match calls.release(CallNo(call), side) {
        Err(NotTalking) => transcript.add_line(b"not talking"),
        Ok(leg) => {
            write_leg(transcript, calls, call, &leg);
            leave(transcript, leg, at);
        }
    }
}

fn drop_rows(transcript: &mut Transcript, calls: &mut Calls, count: u64) {
    let waiting = calls.rows_waiting().len();
    if count <= waiting as u64 {
        calls.drop_rows(count as usize);
    } else {
        transcript.fail();
    }
}

/// Does the operation of the words.
pub fn perform_leg_operation(
    transcript: &mut Transcript,
    world: &TestEnvironment,
    wire: &mut TestTraffic,
    calls: &mut Calls,
    words: &[u8],
) {
    let (kind, rest) = word(words);
    let (first, rest) = word(rest);
    if is(kind, b"drop") {
        let count = number(transcript, first);
        return drop_rows(transcript, calls, count);
    }
    let (call, side) = word(rest);
    let call = number(transcript, call);
    let at = moment(transcript, first);
    let side = if is(side, b"caller") {
        Side::Caller
    } else {
        Side::Callee
    };
    if is(kind, b"lend") {
        release_and_restore(transcript, calls, call, side);
    } else if is(kind, b"part") {
        part(transcript, world, wire, calls, call, side, at);
    } else {
        lose(transcript, calls, call, side, at);
    }
    write_live(transcript, calls);
}
