//! Meters, charging rows and their text.
ghost use Rattle.std.specs.Prelude.{◌≤◌};
ghost use Rattle.mmtel_types.specs.Moments.{last_moment};

use crate::asserting::assert_right;
use crate::composing::legs::moment;
use csv::{ByteRecord, ReaderBuilder};
use mmtel_base::{List, Text};
use mmtel_charging::{Kind, Meter, Row, rows_text};
use mmtel_test_tables::Transcript;
use mmtel_types::{Account, CallNo, Cause};
use std::alloc::Global;

/// The last moment of the clock, in milliseconds.
const LAST: u64 = 250_000_000_000_000;

/// Adds the row of a meter that ends at this moment; writes for what it ran.
fn end(
    transcript: &mut Transcript,
    rows: &mut List<Row>,
    meter: Meter,
    ended: u64,
    holds: u32,
    cause: Cause,
)
    requires { ended ≤ last_moment }
{
    transcript.add(meter.kind().word().as_bytes());
    transcript.add(b"\n");
    let row = meter.close(moment(ended), holds, cause);
    let pushed = rows.push(transcript.alloc, row);
    transcript.value_or_fail(pushed);
}

/// A call that was answered, by two accounts.
fn add_answered(transcript: &mut Transcript, rows: &mut List<Row>) {
    let mut meter = Meter::start(Kind::Origin, Account(1), CallNo(1), moment(0));
    meter.answered(moment(200));
    end(transcript, rows, meter, 400, 0, Cause::Ended);
    let mut meter = Meter::start(Kind::Terminating, Account(2), CallNo(1), moment(100));
    meter.answered(moment(150));
    meter.answered(moment(200));
    end(transcript, rows, meter, 400, 3, Cause::Ended);
}

/// A call that was diverted and refused, and a participant of a conference.
fn add_refused(transcript: &mut Transcript, rows: &mut List<Row>) {
    let cause = Cause::TooManyDiversions { busy: true };
    let meter = Meter::start(Kind::Terminating, Account(2), CallNo(10), moment(0));
    end(transcript, rows, meter, 400, 2, cause);
    let meter = Meter::start(Kind::Diversion, Account(2), CallNo(10), moment(0));
    end(transcript, rows, meter, 400, 2, Cause::Relayed(603));
    let mut meter = Meter::start(Kind::Participant, Account(7), CallNo(9), moment(0));
    meter.answered(moment(0));
    end(transcript, rows, meter, 0, 0, Cause::NoReply);
}

/// Numbers at the ends of their ranges.
fn add_greatest(transcript: &mut Transcript, rows: &mut List<Row>) {
    let account = Account(u32::MAX);
    let meter = Meter::start(Kind::Terminating, account, CallNo(u64::MAX), moment(LAST));
    end(
        transcript,
        rows,
        meter,
        LAST,
        u32::MAX,
        Cause::Unreachable(u16::MAX),
    );
}

fn rows(transcript: &mut Transcript) -> List<Row> {
    let mut rows = List::new();
    add_answered(transcript, &mut rows);
    add_refused(transcript, &mut rows);
    add_greatest(transcript, &mut rows);
    rows
}

/// The text of rows.
fn text_of(transcript: &mut Transcript, rows: &[Row]) -> Text {
    match rows_text(transcript.alloc, rows) {
        Ok(text) => text,
        Err(_) => {
            transcript.fail();
            Text::new()
        }
    }
}

/// Writes the fields of a record as a line.
fn write_record(transcript: &mut Transcript, record: &ByteRecord) {
    for place in 0..record.len() {
        transcript.add(b"|");
        transcript.add(record.get(place).unwrap_or(b""));
    }
    transcript.add(b"\n");
}

/// Writes the records that a CSV reader returns of a text, at most eight.
fn write_records(transcript: &mut Transcript, text: &[u8]) {
    let reader = ReaderBuilder::new()
        .has_headers(false)
        .from_reader(transcript.alloc, text);
    let mut records = reader.into_byte_records();
    for _ in 0..8 {
        if let Some(record) = records.next() {
            if let Some(record) = transcript.value_or_fail(record) {
                write_record(transcript, &record);
                drop(record);
            }
        }
    }
    drop(records);
}

/// Writes the text of no rows, that of the rows, and what a CSV reader returns of it.
fn write_texts(transcript: &mut Transcript) {
    let rows = rows(transcript);
    let none = text_of(transcript, &[]);
    transcript.add(none.bytes());
    drop(none);
    let text = text_of(transcript, rows.items());
    drop(rows);
    transcript.add(text.bytes());
    write_records(transcript, text.bytes());
    drop(text);
}

/// For what each meter runs; the text of no rows, which is the header line alone; the text of the rows, a line for each, in order; and what a CSV reader returns of that: a record
/// a line, each field after a `|`.
///
/// A row has the values with which its meter was started, answered at last and closed; an absent answered moment is an empty field.
const ROWS: &[u8] = b"origin
terminating
terminating
diversion
participant
terminating
kind,account,call,began,answered,ended,holds,cause,status
kind,account,call,began,answered,ended,holds,cause,status
origin,1,1,0,200,400,0,ended,0
terminating,2,1,100,200,400,3,ended,0
terminating,2,10,0,,400,2,too-many-diversions,486
diversion,2,10,0,,400,2,relayed,603
participant,7,9,0,0,0,0,no-reply,480
terminating,4294967295,18446744073709551615,250000000000000,,250000000000000,4294967295,unreachable,65535
|kind|account|call|began|answered|ended|holds|cause|status
|origin|1|1|0|200|400|0|ended|0
|terminating|2|1|100|200|400|3|ended|0
|terminating|2|10|0||400|2|too-many-diversions|486
|diversion|2|10|0||400|2|relayed|603
|participant|7|9|0|0|0|0|no-reply|480
|terminating|4294967295|18446744073709551615|250000000000000||250000000000000|4294967295|unreachable|65535
";

fn wrong_rows_of_meters(alloc: Global) -> usize {
    let mut transcript = Transcript::new(alloc);
    write_texts(&mut transcript);
    transcript.wrong_line(ROWS)
}

#[test]
fn rows_of_meters(rt: HostRuntime) {
    assert_right(&rt, "rows_of_meters", wrong_rows_of_meters(rt.alloc()));
}
