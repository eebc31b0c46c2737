//! The order in which the deadlines of calls and of participants fire.
ghost use Rattle.std.specs.Prelude.{◌≡◌, ◌<◌};

use crate::asserting::assert_right;
use mmtel_server_timers::{PendingTimer, ServiceTimer, Timers};
use mmtel_test_tables::Transcript;
use mmtel_timers::Steps;
use mmtel_transaction::{DueWord, RoomWord};
use mmtel_types::{CallNo, RoomNo};
use std::alloc::Global;
use std::marker::Brand;
use std::sync::ledger::{Blank, Ledger};

/// A deadline of a call.
fn of_call(what: DueWord) -> ServiceTimer {
    ServiceTimer::OfCall {
        call: CallNo(1),
        what,
    }
}

/// A deadline of a participant.
fn of_seat(what: RoomWord) -> ServiceTimer {
    ServiceTimer::OfParticipant {
        room: RoomNo(1),
        seat: 1,
        what,
    }
}

/// Arms a timer in a step, for a moment.
fn arm<L: Ledger>(
    transcript: &mut Transcript,
    alarms: &mut Timers,
    steps: &mut Steps<L>,
    step: u64,
    at: u64,
    alarm: ServiceTimer,
) {
    if alarms
        .arm(
            PendingTimer {
                timer: alarm,
                at,
                step,
            },
            steps,
        )
        .is_err()
    {
        transcript.fail();
    }
}

fn word_of(alarm: ServiceTimer) -> &'static [u8] {
    match alarm {
        ServiceTimer::OfCall { call: _, what } => match what {
            DueWord::NoReply(_) => b"no reply",
            DueWord::NoPrack(_) => b"no PRACK",
            DueWord::Cap(_) => b"longest time",
            DueWord::NoAck(_) => b"no ACK",
            DueWord::Expired(_) => b"session expired",
        },
        ServiceTimer::OfParticipant {
            room: _,
            seat: _,
            what,
        } => match what {
            RoomWord::Cap(_) => b"longest time of a seat",
            RoomWord::NoAck(_) => b"no ACK of a seat",
        },
        ServiceTimer::OfSubscription { sub: _, set: _ } => b"time of a subscription",
    }
}

/// Removes the deadlines that are due and writes each, with its moment and step.
fn write_due<L: Ledger>(
    transcript: &mut Transcript,
    alarms: &mut Timers,
    steps: &mut Steps<L>,
    now: u64,
) {
    for _ in 0..20 {
        if let Some(armed) = alarms.pop_due(now, steps) {
            transcript.add(word_of(armed.timer));
            transcript.add_spaced_number(armed.at);
            transcript.add_spaced_number(armed.step);
            transcript.add(b"\n");
        }
    }
}

/// By moment, then by the step that armed them, and of one step by their kind, in whatever order they were armed. The last is not due.
const FIRED: &[u8] = b"session expired 100 3
no reply 200 1
no PRACK 200 1
longest time 200 1
no ACK 200 1
session expired 200 1
longest time of a seat 200 2
no ACK of a seat 200 2
no reply 200 3
";

/// The number of the first line that differs from the actual one; 0 where none does. Its comparisons are counted from zero.
fn wrong_counted<L: Ledger>(alloc: Global, blank: Blank) -> usize
    requires name { blank.name ≡ L.name }
    requires parts { blank.parts ≡ L.parts }
    requires some { 0 < L.parts }
{
    let mut steps: Steps<L> = Steps::new(blank);
    let mut transcript = Transcript::new(alloc);
    let mut alarms = Timers::new(alloc);
    arm(
        &mut transcript,
        &mut alarms,
        &mut steps,
        1,
        200,
        of_call(DueWord::Expired(1)),
    );
    arm(
        &mut transcript,
        &mut alarms,
        &mut steps,
        1,
        200,
        of_call(DueWord::NoAck(1)),
    );
    arm(
        &mut transcript,
        &mut alarms,
        &mut steps,
        1,
        200,
        of_call(DueWord::Cap(1)),
    );
    arm(
        &mut transcript,
        &mut alarms,
        &mut steps,
        1,
        200,
        of_call(DueWord::NoPrack(1)),
    );
    arm(
        &mut transcript,
        &mut alarms,
        &mut steps,
        1,
        200,
        of_call(DueWord::NoReply(1)),
    );
    arm(
        &mut transcript,
        &mut alarms,
        &mut steps,
        2,
        200,
        of_seat(RoomWord::NoAck(1)),
    );
    arm(
        &mut transcript,
        &mut alarms,
        &mut steps,
        2,
        200,
        of_seat(RoomWord::Cap(1)),
    );
    arm(
        &mut transcript,
        &mut alarms,
        &mut steps,
        3,
        200,
        of_call(DueWord::NoReply(2)),
    );
    arm(
        &mut transcript,
        &mut alarms,
        &mut steps,
        3,
        100,
        of_call(DueWord::Expired(2)),
    );
    arm(
        &mut transcript,
        &mut alarms,
        &mut steps,
        3,
        201,
        of_call(DueWord::NoReply(3)),
    );
    write_due(&mut transcript, &mut alarms, &mut steps, 200);
    drop(alarms);
    transcript.wrong_line(FIRED)
}

/// The same with a counter of its own.
fn wrong_order(alloc: Global) -> usize {
    wrong_counted::<Brand>(alloc, Blank::new(1))
}

#[test]
fn deadlines_fire_in_order(rt: HostRuntime) {
    assert_right(&rt, "FIRED", wrong_order(rt.alloc()));
}
