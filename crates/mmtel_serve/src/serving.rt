//! Serving: the server over a link to which the server's outputs are passed.
ghost use Rattle.std.specs.Prelude.{◌≡◌, ◌⊎◌, OnErr, OnOk};
ghost use Rattle.mmtel_delivery.specs.Delivery.{IsBoundStill, LostNoMore, LostOnlyWhereRose, RoseBy, new_losses};
ghost use Rattle.mmtel_environment.specs.Counts.{Rose};
ghost use Rattle.mmtel_serve.specs.ServeEffects.{ServeEffect};
ghost use Rattle.mmtel_serve.specs.Turns.{EventAborted, EventEffect};
ghost use Rattle.mmtel_server.specs.DriveEffects.{HasDriveCause, HasFailedByNumber, StaysOrRises};
ghost use Rattle.mmtel_server.specs.States.{serving_state};

use mmtel_base::{List, NoMemory};
use mmtel_delivery::{deliver_each, parts_are_delivered};
use mmtel_keeper::Keeper;
use mmtel_link::{Event, Link};
use mmtel_run_theorems::{bytes_are_seen, runs_keep_noninterference};
use mmtel_server::{DriveFault, Server, next_event, theorems_of_runs_hold};
use mmtel_timers::Steps;
use std::alloc::Global;
use std::sync::ledger::Ledger;

/// Processes an event, and passes the outputs of the server for it to the link, in order.
fn serve_event<N: Link, K: Keeper, L: Ledger>(
    alloc: Global,
    server: &mut Server,
    link: &mut N,
    keeper: &mut K,
    event: &Event,
    steps: &mut Steps<L>,
) -> Result<(), NoMemory>
    ensures done { OnOk result (EventEffect event.now
        (serving_state N.Link link.old K.Keeper keeper.old server.old)
        (serving_state N.Link link.new K.Keeper keeper.new server.new) result) }
    ensures stopped { OnErr result (EventAborted event.now
        (serving_state N.Link link.old K.Keeper keeper.old server.old)
        (serving_state N.Link link.new K.Keeper keeper.new server.new)
        ⊎ EventEffect event.now
        (serving_state N.Link link.old K.Keeper keeper.old server.old)
        (serving_state N.Link link.new K.Keeper keeper.new server.new) result) }
    ensures lost { LostOnlyWhereRose (N.output link.old) (N.output link.new) (N.delivery_faults link.old) (N.delivery_faults link.new) }
    ensures counted { RoseBy (new_losses (N.output link.old) (N.output link.new)) (N.delivery_faults link.old) (N.delivery_faults link.new) }
    ensures received { N.input link.new ≡ N.input link.old }
    ensures bound { IsBoundStill (N.calls link.old) (N.calls link.new) }
    ensures arrival_faults { N.arrival_faults link.new ≡ N.arrival_faults link.old }
{
    let mut out = List::new();
    match server.step(alloc, event, keeper, &mut out, steps) {
        Ok(()) => deliver_each(alloc, server.peers(), link, out.items()),
        Err(NoMemory) => Err(NoMemory),
    }
}

/// Receives events from a link and processes each of them over a keeper, until the link is closed or so many turns were done, and passes to the link after each event the outputs
/// of the server for it: each datagram for the address of its peer, and each reply for the web connection that came. What was passed is not stored, so memory does not grow with
/// the duration. What the link loses is lost. The search steps in the transactions are counted. A turn is one call of the link's `next`, for a web connection the reads
/// until its request is complete, and the calls that pass the outputs. True exactly where the link is closed, and false exactly where each turn received an event.
///
/// # Errors
///
/// `LinkFault` only where the link's count of arrival faults rose: the first `next` that fails ends it, and the server, the keeper and what was passed are as after the events
/// that came before. `NoMemory` where memory ran out in the link, in reading a connection, in a step or in passing its outputs; a prefix of the outputs for the last event
/// was passed then.
pub fn serve<N: Link, K: Keeper, L: Ledger>(
    alloc: Global,
    server: &mut Server,
    link: &mut N,
    keeper: &mut K,
    turns: u64,
    steps: &mut Steps<L>,
) -> Result<bool, DriveFault>
    ensures served { ServeEffect turns (serving_state N.Link link.old K.Keeper keeper.old server.old)
        (serving_state N.Link link.new K.Keeper keeper.new server.new) result }
    // An output is lost only where the count of delivery faults rose.
    ensures lost { LostNoMore (N.output link.old) (N.output link.new) ⊎ Rose (N.delivery_faults link.old) (N.delivery_faults link.new) }
    ensures delivery_faults { StaysOrRises (N.delivery_faults link.old) (N.delivery_faults link.new) }
    ensures bound { IsBoundStill (N.calls link.old) (N.calls link.new) }
    // At an arrival fault the last call of the link, where it exposes its calls, has the number of one that fails.
    ensures number { HasFailedByNumber (N.calls link.new) result }
    ensures cause { HasDriveCause (N.arrival_faults link.old) (N.arrival_faults link.new) result }
{
    theorems_of_runs_hold();
    parts_are_delivered();
    runs_keep_noninterference();
    bytes_are_seen();
    'turns: for _turn in 0..turns {
        match next_event(alloc, link) {
            Ok(Some(event)) => match serve_event(alloc, server, link, keeper, &event, steps) {
                Ok(()) => {}
                Err(NoMemory) => return Err(DriveFault::NoMemory),
            },
            Ok(None) => return Ok(true),
            Err(fault) => return Err(fault),
        }
    }
    Ok(false)
}
