//! The CDRs that the meters of a call give once it is over.
ghost use Rattle.std.specs.Prelude.{◌≡◌, ◌++◌, OnOk, map, option_to_list};
ghost use Rattle.mmtel_call_services.specs.ChargingRecords.{cause_by, charging_records, last_charging_record, past_answer, past_charging_record, with_answer};

use mmtel_base::{List, NoMemory};
use mmtel_charging::{Kind, Meter, Row, push_some};
use mmtel_output::push_item;
use mmtel_types::{Cause, Moment};
use std::alloc::Global;

/// What the CDRs of a call that is over have in common.
#[derive(Clone, Copy)]
pub struct Ending {
    /// When the call was answered.
    pub answered: Option<Moment>,
    /// When it ended.
    pub at: Moment,
    /// How often a side put it on hold.
    pub holds: u32,
    /// Why it ended.
    pub cause: Cause,
}

/// A meter with the moment of the answer, if there is one.
fn with_answer(meter: Meter, answered: Option<Moment>) -> Meter
    ensures { result ≡ with_answer answered meter }
{
    let mut meter = meter;
    match answered {
        None => {}
        Some(at) => meter.answered(at),
    }
    meter
}

/// The moment of the answer in a past part.
fn past_answer(kind: Kind, answered: Option<Moment>) -> Option<Moment>
    ensures { result ≡ past_answer kind answered }
{
    match kind {
        Kind::Terminating => None,
        Kind::Origin => answered,
        Kind::Diversion => answered,
        Kind::Participant => answered,
    }
}

/// Why a call ended: one that was answered has the cause `Ended`, whatever ended it.
pub fn cause_by(answered: Option<Moment>, cause: Cause) -> Cause
    ensures exact { result ≡ cause_by answered cause }
{
    match answered {
        None => cause,
        Some(_) => Cause::Ended,
    }
}

#[tactic(auto, unfolding(crate::specs::ChargingRecords::past_charging_record))]
fn past_charging_record(meter: Meter, end: &Ending) -> Row
    ensures { result ≡ past_charging_record end.now meter }
{
    let kind = meter.kind();
    with_answer(meter, past_answer(kind, end.answered)).close(end.at, end.holds, end.cause)
}

#[tactic(auto, unfolding(crate::specs::ChargingRecords::last_charging_record))]
fn last_charging_record(meter: Meter, end: &Ending) -> Row
    ensures { result ≡ last_charging_record end.now meter }
{
    with_answer(meter, end.answered).close(end.at, end.holds, end.cause)
}

/// The CDR of the caller's meter, if there is one.
fn first_charging_record(first: Option<Meter>, end: &Ending) -> Option<Row>
    ensures { option_to_list result ≡ map (past_charging_record end.now) (option_to_list first) }
{
    match first {
        None => None,
        Some(meter) => Some(past_charging_record(meter, end)),
    }
}

/// The CDR of the meter of the last target, if there is one.
fn target_charging_record(last: Option<Meter>, end: &Ending) -> Option<Row>
    ensures { option_to_list result ≡ map (last_charging_record end.now) (option_to_list last) }
{
    match last {
        None => None,
        Some(meter) => Some(last_charging_record(meter, end)),
    }
}

/// Files the CDRs of these meters, in order. Each meter is spent, also where memory runs out.
fn append_past_records(
    alloc: Global,
    rows: &mut List<Row>,
    past: List<Meter>,
    end: &Ending,
) -> Result<(), NoMemory>
    ensures { OnOk result (rows.new ≡ rows.old ++ map (past_charging_record end.now) past) }
{
    let mut past = past;
    let mut kept = Ok(());
    'past: while let Some(meter) = past.pop_first() {
        if let Err(error) = push_item(alloc, rows, past_charging_record(meter, end)) {
            kept = Err(error);
        }
    }
    past.destroy_empty();
    kept
}

/// Files the CDRs of a call that is over: the caller's, those of the past parts, and that of the last target. Each meter is spent, also where memory runs out.
///
/// # Errors
///
/// Out of memory only; nothing is claimed of the CDRs then.
pub fn append_charging_records(
    alloc: Global,
    rows: &mut List<Row>,
    past: List<Meter>,
    first: Option<Meter>,
    last: Option<Meter>,
    end: &Ending,
) -> Result<(), NoMemory>
    ensures filed { OnOk result (rows.new ≡ rows.old ++ charging_records end.now past first last) }
{
    let filed_first = push_some(alloc, rows, first_charging_record(first, end));
    let filed_past = append_past_records(alloc, rows, past, end);
    let filed_last = push_some(alloc, rows, target_charging_record(last, end));
    filed_first?;
    filed_past?;
    filed_last
}
