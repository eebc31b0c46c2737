//! How many calls a user may have at the same time (TS 24.615), and which sides of a call hold it (RFC 3264 §8.4, TS 24.610).

use crate::asserting::assert_right;
use crate::reading::{Table, wrong_line};
use mmtel_base::number_up_to;
use mmtel_sdp::Direction;
use mmtel_sheet_reader::read_sheet;
use mmtel_test_tables::Transcript;
use mmtel_types::Side;
use mmtel_waiting::{HoldState, capacity, is_busy};

/// The capacity of the record above, whose keys follow `:`, and whether its user is busy with so many calls.
struct BusyUsers;

/// A number of calls.
fn calls(transcript: &mut Transcript, digits: &[u8]) -> u32 {
    match number_up_to(4_000_000_000, digits) {
        Some(live) => u32::try_from(live).unwrap_or(0),
        None => {
            transcript.fail();
            0
        }
    }
}

impl Table for BusyUsers {
    fn write_row(transcript: &mut Transcript, line: &[u8], asked: &[u8]) {
        let live = calls(transcript, asked);
        let record = line.strip_prefix(b":").unwrap_or(b"");
        let sheet = read_sheet(transcript.alloc, record);
        if let Some(sheet) = transcript.value_or_fail(sheet) {
            transcript.add_number(u64::from(capacity(&sheet)));
            transcript.add_if(is_busy(live, &sheet), b"b", b"-");
            drop(sheet);
        }
    }
}

/// The capacity, and `b` where the user is busy; the calls that are live.
const CAPACITIES: &[u8] = b"1-|0
1b|1
1b|2
:communication-waiting = { active = false, calls = 4 }
1-|0
1b|1
:communication-waiting = {}
2-|1
2b|2
:communication-waiting = { calls = 8 }
8-|7
8b|8
8b|9
8b|256
8b|257
8b|4000000000
";

#[test]
fn busy_users_of_a_capacity(rt: HostRuntime) {
    assert_right(
        &rt,
        "CAPACITIES",
        wrong_line::<BusyUsers>(rt.alloc(), CAPACITIES),
    );
}

fn side_of(letter: u8) -> Side {
    match letter {
        b'a' => Side::Caller,
        _ => Side::Callee,
    }
}

fn direction_of(letter: u8) -> Direction {
    match letter {
        b's' => Direction::SendOnly,
        b'r' => Direction::RecvOnly,
        b'i' => Direction::Inactive,
        _ => Direction::SendRecv,
    }
}

/// The state after these steps, each of two letters: a side, and the direction that it offers.
fn state_after(transcript: &mut Transcript, steps: &[u8]) -> HoldState {
    let mut state = HoldState::default();
    let mut rest = steps;
    for _ in 0..8 {
        if let [side, direction, later @ ..] = rest {
            state.note(side_of(*side), direction_of(*direction));
            rest = later;
        }
    }
    transcript.fail_unless(rest.is_empty());
    state
}

/// Sides that hold the call, and how often one began to.
struct HoldSteps;

impl Table for HoldSteps {
    fn write_row(transcript: &mut Transcript, _line: &[u8], asked: &[u8]) {
        let state = state_after(transcript, asked);
        transcript.add_if(state.caller, b"a", b"-");
        transcript.add_if(state.callee, b"b", b"-");
        transcript.add_number(u64::from(state.holds));
    }
}

/// `a` where the caller holds the call, `b` where the called party does, and how often one began to; the directions: `s` for sendonly, `r` for recvonly, `i` for inactive,
/// `x` for both ways.
const HOLDS: &[u8] = b"--0|
a-1|as
a-1|ai
--0|ax
--0|ar
-b1|bs
-b1|bi
--0|br
--1|asax
--1|aiar
a-1|asas
a-1|asai
a-2|asaxas
ab2|asbi
-b2|asbsax
--2|asbsaxbx
-b1|bsax
a-1|asbx
a-3|asaxaiaras
";

#[test]
fn sides_that_hold(rt: HostRuntime) {
    assert_right(&rt, "HOLDS", wrong_line::<HoldSteps>(rt.alloc(), HOLDS));
}
