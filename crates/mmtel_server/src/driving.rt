//! Driving the server over a link and a keeper.
ghost use Rattle.std.specs.Prelude.{◌≡◌, ◌<◌, ◌*◌, [], length, true, IfOk, Ok, OnErr, OnOk, Option, List};
ghost use Rattle.mmtel_http.specs.Requests.{request_of};
ghost use Rattle.mmtel_link.specs.LinkStates.{LinkInput, NextIfExposed};
ghost use Rattle.mmtel_server.specs.DriveEffects.{DriveEffect, HasDriveCause, HasFailedByNumber, IsCalledTimes, IsCalledWithin};
ghost use Rattle.mmtel_server.specs.DriveEffects.{IsNeeded, ReceivesEvent, StaysOrRises, most_calls_a_turn, most_reads_a_turn};
ghost use Rattle.mmtel_server.specs.States.{keeper_state, serving_state, step_state};
ghost use Rattle.mmtel_server.specs.StepEffects.{StepAborted, StepEffect};
ghost use Rattle.mmtel_server.specs.Turns.{Grows, IsReading, ReadsMore, ReadsRequest, is_unfinished};

use crate::servers::Server;
use crate::theorems::{servers_offer_what_runs_give, theorems_of_runs_hold};
use mmtel_base::{List, NoMemory, Text};
use mmtel_environment::Offer;
use mmtel_http::theorems::complete_requests_are_final;
use mmtel_http::{Whole, whole};
use mmtel_keeper::Keeper;
use mmtel_link::{Arrival, Event, Link};
use mmtel_timers::Steps;
use mmtel_types::Failed;
use std::alloc::Global;
use std::sync::ledger::Ledger;

/// The maximum number of bytes of one read.
const READ_LEN: usize = 4096;

/// The maximum number of reads of one connection: each read but the last returns a byte of a request that is not complete yet, and such a request is no longer than the maximum
/// head and the maximum body.
const MOST_READS: u64 = 8192 + 65_536 + 1;

/// Why driving ended before its turns were done and before the link was closed.
#[derive(Clone, Copy, Debug, PartialEq, Eq)]
pub enum DriveFault {
    /// The link failed to receive the next event. The fault was counted there.
    LinkFault,
    /// Memory ran out, in the link, in reading a connection or in a step of the server.
    NoMemory,
}

impl From<NoMemory> for DriveFault {
    ghost use Rattle.mmtel_server.specs.declared.driving.DriveFault.TheVariants as fault;

    ghost from_gives = { λ _ e. e ≡ fault.NoMemory };

    fn from(_error: NoMemory) -> DriveFault {
        DriveFault::NoMemory
    }
}

/// Reads once from the connection that came last, and appends the bytes. False at its end, and where the read fails, which ends it too.
fn read_more<N: Link>(alloc: Global, link: &mut N, bytes: &mut Text) -> Result<bool, NoMemory>
    ensures read { (ear : Option LinkInput) → IsReading ear (N.input link.old) bytes.old →
        ReadsMore ear (N.input link.new) (N.delivery_faults link.old) (N.delivery_faults link.new) bytes.new result }
    ensures grows { IfOk result (Grows bytes.old bytes.new) }
    ensures no_fault { IfOk result (λ more. more ≡ true → N.delivery_faults link.new ≡ N.delivery_faults link.old) }
    ensures delivery_faults { StaysOrRises (N.delivery_faults link.old) (N.delivery_faults link.new) }
    ensures output { N.output link.new ≡ N.output link.old }
    ensures calls { IsCalledTimes (N.calls link.old) (N.calls link.new) 1 }
    ensures arrival_faults { N.arrival_faults link.new ≡ N.arrival_faults link.old }
{
    let mut buffer = [0; READ_LEN];
    match link.web_read(&mut buffer) {
        Ok(0) => Ok(false),
        Ok(count) => {
            bytes.push(alloc, &buffer[..count])?;
            Ok(true)
        }
        Err(Failed) => Ok(false),
    }
}

/// Whether more bytes can complete these to a request.
fn is_unfinished(bytes: &[u8]) -> bool
    ensures { result ≡ is_unfinished (request_of bytes.now) }
{
    matches!(whole(bytes), Whole::More)
}

/// Reads the connection that came last: until its bytes are a request, or cannot become one, or it is at its end, or a read fails (RFC 9112 §6.3); and no further.
fn read_request<N: Link>(alloc: Global, link: &mut N) -> Result<Text, NoMemory>
    ensures needed { IfOk result (λ bytes. IsNeeded (length bytes) bytes) }
    ensures read { (ear : Option LinkInput) → IsReading ear (N.input link.old) [] →
        ReadsRequest ear (N.input link.new) (N.delivery_faults link.old) (N.delivery_faults link.new) result }
    ensures delivery_faults { StaysOrRises (N.delivery_faults link.old) (N.delivery_faults link.new) }
    ensures output { N.output link.new ≡ N.output link.old }
    ensures calls { IsCalledWithin (N.calls link.old) (N.calls link.new) most_reads_a_turn }
    ensures arrival_faults { N.arrival_faults link.new ≡ N.arrival_faults link.old }
{
    complete_requests_are_final();
    let mut bytes = Text::new();
    for _read in 0..MOST_READS {
        if !is_unfinished(bytes.bytes()) {
            return Ok(bytes);
        }
        if !read_more(alloc, link, &mut bytes)? {
            return Ok(bytes);
        }
    }
    Ok(bytes)
}

/// The event that an arrival is, if it is one. That of a web connection has the bytes that are read.
fn event_of<N: Link>(
    alloc: Global,
    link: &mut N,
    arrival: Arrival,
) -> Result<Option<Event>, DriveFault>
    ensures received { (ear : Option LinkInput) → NextIfExposed ear (N.input link.old) (Ok arrival) →
        ReceivesEvent ear (N.input link.new) (N.delivery_faults link.old) (N.delivery_faults link.new) result }
    ensures delivery_faults { StaysOrRises (N.delivery_faults link.old) (N.delivery_faults link.new) }
    ensures output { N.output link.new ≡ N.output link.old }
    ensures calls { IsCalledWithin (N.calls link.old) (N.calls link.new) most_reads_a_turn }
    ensures number { HasFailedByNumber (N.calls link.new) result }
    ensures cause { HasDriveCause (N.arrival_faults link.old) (N.arrival_faults link.new) result }
{
    match arrival {
        Arrival::Datagram { from, at, bytes } => Ok(Some(Event::Datagram { from, at, bytes })),
        Arrival::Web { at } => {
            let bytes = read_request(alloc, link)?;
            Ok(Some(Event::Web { at, bytes }))
        }
        Arrival::Quiet { at } => Ok(Some(Event::Quiet { at })),
        Arrival::Closed => Ok(None),
        Arrival::NoMemory => Err(DriveFault::NoMemory),
    }
}

/// The next event, that of a web connection with the bytes that are read from it until they are a request, or cannot become one, or there are no more of them (RFC 9112
/// §6.3); None where the link is closed.
///
/// # Errors
///
/// `LinkFault` only where the link's count of arrival faults rose. `NoMemory` where memory ran out in the link or in reading a connection; the event is lost then. A read that
/// fails is no error: it ends its connection, of which the bytes before it are used.
pub fn next_event<N: Link>(alloc: Global, link: &mut N) -> Result<Option<Event>, DriveFault>
    ensures received { ReceivesEvent (N.input link.old) (N.input link.new) (N.delivery_faults link.old) (N.delivery_faults link.new) result }
    ensures delivery_faults { StaysOrRises (N.delivery_faults link.old) (N.delivery_faults link.new) }
    ensures output { N.output link.new ≡ N.output link.old }
    ensures calls { IsCalledWithin (N.calls link.old) (N.calls link.new) most_calls_a_turn }
    ensures number { HasFailedByNumber (N.calls link.new) result }
    ensures cause { HasDriveCause (N.arrival_faults link.old) (N.arrival_faults link.new) result }
{
    match link.next(alloc) {
        Ok(arrival) => event_of(alloc, link, arrival),
        Err(Failed) => Err(DriveFault::LinkFault),
    }
}

/// Processes an event.
fn step_event<K: Keeper, L: Ledger>(
    alloc: Global,
    server: &mut Server,
    event: Event,
    keeper: &mut K,
    output: &mut List<Offer>,
    steps: &mut Steps<L>,
) -> Result<(), NoMemory>
    ensures done { OnOk result (StepEffect event (step_state server.old output.old K.Keeper keeper.old)
        (step_state server.new output.new K.Keeper keeper.new)) }
    ensures aborted { OnErr result (StepAborted event (step_state server.old output.old K.Keeper keeper.old)
        output.new (keeper_state K.Keeper keeper.new)) }
{
    let done = server.step(alloc, &event, keeper, output, steps);
    drop(event);
    done
}

/// Receives events from a link and processes each of them, until the link is closed or so many turns were done; a turn is one call of the link's `next`, and for a web connection
/// the reads until its request is complete. The outputs of the server, its replies on web connections among them, are appended to `out`; nothing is sent. Records are stored
/// by the keeper. The steps of searching the transactions are added to the counter. True exactly where the link is closed, and false exactly where each turn received an event.
///
/// # Errors
///
/// `LinkFault` only where the link's count of arrival faults rose: the first `next` that fails ends it, and the server, the keeper and the outputs are as after the events that
/// came before. `NoMemory` where memory ran out in the link, in reading a connection or in a step; a prefix of the last event's outputs may then have been appended, and
/// its record stored. A read that fails is no error: it ends its connection, of which the bytes before it are used.
pub fn drive<N: Link, K: Keeper, L: Ledger>(
    alloc: Global,
    server: &mut Server,
    link: &mut N,
    keeper: &mut K,
    turns: u64,
    out: &mut List<Offer>,
    steps: &mut Steps<L>,
) -> Result<bool, DriveFault>
    ensures driven { DriveEffect turns (serving_state N.Link link.old K.Keeper keeper.old server.old)
        (serving_state N.Link link.new K.Keeper keeper.new server.new) out.old out.new result }
    ensures output { N.output link.new ≡ N.output link.old }
    ensures delivery_faults { StaysOrRises (N.delivery_faults link.old) (N.delivery_faults link.new) }
    ensures calls { IsCalledWithin (N.calls link.old) (N.calls link.new) (turns * most_calls_a_turn) }
    ensures cause { HasDriveCause (N.arrival_faults link.old) (N.arrival_faults link.new) result }
{
    theorems_of_runs_hold();
    servers_offer_what_runs_give();
    'turns: for _turn in 0..turns {
        match next_event(alloc, link) {
            Ok(Some(event)) => match step_event(alloc, server, event, keeper, out, steps) {
                Ok(()) => {}
                Err(NoMemory) => return Err(DriveFault::NoMemory),
            },
            Ok(None) => return Ok(true),
            Err(fault) => return Err(fault),
        }
    }
    Ok(false)
}
