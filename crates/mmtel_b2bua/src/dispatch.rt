//! The transition of the calls on a signal: the one to which it belongs takes its step, or one is opened.
ghost use Rattle.std.specs.Prelude.{◌≡◌, ◌<◌, ◌++◌, ◌∷◌, [], ℕ, IfOk, OnOk, Some, length, option_to_list, position};
ghost use Rattle.std.specs.Option.{option_copied};
ghost use Rattle.mmtel_output.specs.ResponseMatching.{awaited_request_branch, timed_out_branch};
ghost use Rattle.mmtel_call.specs.Settled.{is_settled};
ghost use Rattle.mmtel_call.specs.Table.{step};
ghost use Rattle.mmtel_call_services.specs.CallConfig.{snapshot_of};
ghost use Rattle.mmtel_types.specs.declared.sides.Side.TheVariants.{Caller};
ghost use Rattle.mmtel_b2bua.specs.Entries.{has_received_key, has_sent_branch, kept_entry};
ghost use Rattle.mmtel_b2bua.specs.Invariant.{number_of};
ghost use Rattle.mmtel_b2bua.specs.Dispatches.{dispatch_of, invites_of, place_of};
ghost use Rattle.mmtel_b2bua.specs.Tables.{entry_after, invites_by, opened_after, step_in, step_of_arrival, step_of_signal};
ghost use Rattle.mmtel_base.specs.Numbers.{next_number};

use crate::call_table::CallTable;
use crate::entries::{Entry, InviteKey};
use crate::signals::Signal;
use crate::step_context::StepContext;
use mmtel_base::{List, NoMemory, Text};
use mmtel_call::{Call, Signal as CallSignal};
use mmtel_call_services::{Arrival, CallConfig, Snapshot};
use mmtel_call_theorems::equivalent_calls_stay_equivalent;
use mmtel_compose::ReceivedMessage;
use mmtel_message::is_method;
use mmtel_output::{Mark, StepOutput, awaited_request_branch, push_item, timed_out_branch};
use mmtel_transaction::{TKey, hash_of};
use mmtel_types::{CallNo, Moment, Side};
use std::alloc::Global;

impl Entry {
    /// Adds this INVITE to those of the call, if there is one.
    fn add_invite(&mut self, alloc: Global, invite: Option<InviteKey>) -> Result<(), NoMemory>
        ensures { OnOk result (self.new ≡ record self.old { invites = self.old.invites ++ option_to_list invite }) }
    {
        match invite {
            None => Ok(()),
            Some(invite) => push_item(alloc, &mut self.invites, invite),
        }
    }

    /// The call takes a step, and gets this INVITE in addition. Returns whether nothing more may be received for it.
    pub fn receive(
        &mut self,
        alloc: Global,
        config: &CallConfig<'_>,
        snapshot: &Snapshot<'_>,
        signal: CallSignal,
        invite: Option<InviteKey>,
        output: &mut StepOutput,
    ) -> Result<bool, NoMemory>
        ensures entry { OnOk result (self.new ≡ entry_after (option_to_list invite)
            (step config.now (snapshot_of snapshot.now) signal self.old.call output.old) self.old) }
        ensures output { OnOk result (output.new ≡ (step config.now
            (snapshot_of snapshot.now) signal self.old.call output.old).output) }
        ensures settled { IfOk result (λ settled. settled ≡ is_settled
            (step config.now (snapshot_of snapshot.now) signal self.old.call output.old).call) }
        ensures number { OnOk result (number_of self.new ≡ number_of self.old) }
    {
        equivalent_calls_stay_equivalent();
        self.call.step(alloc, config, snapshot, signal, output)?;
        self.add_invite(alloc, invite)?;
        Ok(self.call.is_settled())
    }
}

/// The call at an index takes its step, if there is one.
fn receive_at(
    table: &mut CallTable,
    step: &StepContext<'_>,
    place: Option<usize>,
    signal: CallSignal,
    invite: Option<InviteKey>,
    output: &mut StepOutput,
) -> Result<(), NoMemory>
    requires { (n : ℕ) → place ≡ Some n → n < length table.old.entries }
    ensures table { OnOk result (table.new ≡ record table.old {
      entries =
          (step_in step.now.config.now step.now.at step.now.sheets.now signal
          (option_to_list invite) place table.old.entries
          output.old).entries;
    }) }
    ensures output { OnOk result (output.new
        ≡ (step_in step.now.config.now step.now.at step.now.sheets.now signal
        (option_to_list invite) place table.old.entries
        output.old).output) }
{
    match place {
        None => {
            drop(signal);
            Ok(())
        }
        Some(place) => table.receive_at(step, place, signal, invite, output),
    }
}

/// An INVITE opens a call.
fn open(
    table: &mut CallTable,
    step: &StepContext<'_>,
    arrival: Arrival,
    output: &mut StepOutput,
) -> Result<(), NoMemory>
    requires { arrival.number.0 ≡ next_number table.old.opened }
    ensures table { OnOk result (table.new ≡ record table.old {
      entries =
          (step_of_arrival step.now.config.now step.now.at step.now.sheets.now arrival table.old.entries output.old).entries;
      opened =
          next_number table.old.opened;
    }) }
    ensures output { OnOk result (output.new
        ≡ (step_of_arrival step.now.config.now step.now.at step.now.sheets.now arrival table.old.entries output.old).output) }
{
    let key = arrival.key;
    let call = table.open(step, arrival, output)?;
    keep_call(table, step.alloc, call, key, step.at)
}

/// The INVITE of the caller that was received in this server transaction, as the first of its call.
fn first_invite(alloc: Global, key: TKey) -> Result<List<InviteKey>, NoMemory>
    ensures { IfOk result (λ invites. invites ≡ record { key = key; side = Caller } ∷ []) }
{
    let mut invites = List::new();
    let side = Side::Caller;
    match push_item(alloc, &mut invites, InviteKey { key, side }) {
        Ok(()) => Ok(invites),
        Err(error) => {
            drop(invites);
            Err(error)
        }
    }
}

/// Keeps a call that was opened in this server transaction, as long as something may be received for it.
fn keep_call(
    table: &mut CallTable,
    alloc: Global,
    call: Box<Call>,
    key: TKey,
    at: Moment,
) -> Result<(), NoMemory>
    requires { call.value.opening.number.0 ≡ next_number table.old.opened }
    ensures { OnOk result (table.new ≡ record table.old {
      entries = table.old.entries ++ kept_entry (record { call = call.value; invites = record { key = key; side = Caller } ∷ [] });
      opened = next_number table.old.opened;
    }) }
{
    match first_invite(alloc, key) {
        Ok(invites) => {
            let call = Box::into_inner(call);
            table.add(alloc, Entry { call, invites }, at)
        }
        Err(error) => {
            Box::into_inner(call).give_up(at);
            Err(error)
        }
    }
}

/// The server transaction of a request, if the request is an INVITE.
fn invite_by(side: Side, key: TKey, request: &ReceivedMessage) -> Option<InviteKey>
    ensures { option_to_list result ≡ invites_by side key request.now }
{
    if is_method(b"INVITE", request.message.start()) {
        return Some(InviteKey { key, side });
    }
    None
}

/// The index of the block of the call of which a request to which a response may still be received has this branch.
fn box_by_branch(entries: &[Box<Entry>], branch: Option<&[u8]>) -> Option<usize>
    ensures { result ≡ position (λ b. has_sent_branch (option_copied branch.entry) b.value) entries.now }
{
    entries
        .iter()
        .position(|entry| entry.has_sent_branch(branch))
}

/// The index of the call of which a request to which a response may still be received has this branch.
pub fn place_by_branch(table: &CallTable, branch: Option<&[u8]>) -> Option<usize>
    ensures { result ≡ position (has_sent_branch (option_copied branch.entry)) table.now.entries }
{
    match branch {
        None => None,
        Some(bytes) => {
            let start = table.first_place_for(Mark::Branch(hash_of(bytes)));
            let place = box_by_branch(table.entries_from(start), branch);
            table.absolute_place(start, place)
        }
    }
}

/// The index of the block of the call of which an INVITE received its response in this client transaction.
fn box_by_client_key(entries: &[Box<Entry>], key: TKey) -> Option<usize>
    ensures { result ≡ position (λ b. has_received_key key b.value) entries.now }
{
    entries.iter().position(|entry| entry.has_received_key(key))
}

/// The index of the call of which an INVITE received its response in this client transaction.
pub fn place_by_client_key(table: &CallTable, key: TKey) -> Option<usize>
    ensures { result ≡ position (has_received_key key) table.now.entries }
{
    let start = table.first_place_for(Mark::ClientTransaction(key.0));
    let place = box_by_client_key(table.entries_from(start), key);
    table.absolute_place(start, place)
}

/// The bytes of a text, if there is one.
fn bytes_of(text: &Option<Text>) -> Option<&[u8]>
    ensures { option_copied result ≡ text.now }
{
    match text {
        None => None,
        Some(text) => Some(text.bytes()),
    }
}

/// The index of the call to whose request this is a response.
fn place_by_response(
    table: &CallTable,
    alloc: Global,
    response: &ReceivedMessage,
) -> Result<Option<usize>, NoMemory>
    ensures { IfOk result (λ place. place ≡ position (has_sent_branch (awaited_request_branch response.now)) table.now.entries) }
{
    let branch = awaited_request_branch(alloc, response)?;
    let place = place_by_branch(table, bytes_of(&branch));
    drop(branch);
    Ok(place)
}

/// The index of the call to which a signal belongs.
fn place_of(table: &CallTable, alloc: Global, signal: &Signal) -> Result<Option<usize>, NoMemory>
    ensures { IfOk result (λ place. place ≡ place_of signal.now table.now.entries) }
{
    match signal {
        Signal::Arrived { .. } => Ok(None),
        Signal::Request { call, .. } => Ok(table.place_of(*call)),
        Signal::Ack { call, .. } => Ok(table.place_of(*call)),
        Signal::Cancel { call, .. } => Ok(table.place_of(*call)),
        Signal::Answer { response, .. } => place_by_response(table, alloc, response),
        Signal::Silent { branch, method } => {
            Ok(place_by_branch(table, timed_out_branch(branch.bytes(), method.bytes())))
        }
        Signal::Due { call, .. } => Ok(table.place_of(*call)),
        Signal::Over { key } => Ok(place_by_client_key(table, *key)),
    }
}

/// The INVITE that the call of a signal gets in addition, if the signal is one.
fn invite_of(signal: &Signal) -> Option<InviteKey>
    ensures { option_to_list result ≡ invites_of signal.now }
{
    match signal {
        Signal::Request {
            side,
            key,
            request,
            ..
        } => invite_by(*side, *key, request),
        _ => None,
    }
}

/// A signal as the table of calls uses it.
#[derive(Drop)]
pub enum Dispatch {
    /// It opens a call.
    Opens(Arrival),
    /// One of the calls receives it.
    Receives(CallSignal),
}

/// A signal as the table of calls uses it, where the next call that is opened gets this number.
fn dispatch_of(number: CallNo, signal: Signal) -> Dispatch
    ensures { result ≡ dispatch_of number.0 signal }
{
    match signal {
        Signal::Arrived {
            key,
            invite,
            served,
            registration,
            identities,
        } => Dispatch::Opens(Arrival {
            number,
            key,
            invite,
            served,
            registration,
            identities,
        }),
        Signal::Request {
            call: _,
            side,
            key,
            request,
        } => Dispatch::Receives(CallSignal::Request { side, key, request }),
        Signal::Ack { call: _, side, ack } => Dispatch::Receives(CallSignal::Ack { side, ack }),
        Signal::Cancel {
            call: _,
            key,
            cancel,
            invite,
        } => Dispatch::Receives(CallSignal::Cancel {
            key,
            cancel,
            invite,
        }),
        Signal::Answer { key, response } => Dispatch::Receives(CallSignal::Answer {
            key,
            response,
        }),
        Signal::Silent { branch, method } => Dispatch::Receives(CallSignal::Silent {
            branch,
            method,
        }),
        Signal::Due { call: _, what } => Dispatch::Receives(CallSignal::Due { what }),
        Signal::Over { key } => Dispatch::Receives(CallSignal::Ended { key }),
    }
}

/// The calls receive a signal; one that is opened gets the next number.
#[tactic(auto, using(crate::proofs::Dispatches::step_by_dispatch, crate::proofs::Dispatches::place_within, crate::proofs::Dispatches::opens, crate::proofs::Dispatches::receives))]
pub fn receive_signal(
    table: &mut CallTable,
    step: &StepContext<'_>,
    signal: Signal,
    output: &mut StepOutput,
) -> Result<(), NoMemory>
    ensures table { OnOk result (table.new ≡ record table.old {
      entries =
          (step_of_signal step.now.config.now step.now.at step.now.sheets.now (next_number table.old.opened) signal
          table.old.entries output.old).entries;
      opened =
          opened_after signal table.old.opened;
    }) }
    ensures output { OnOk result (output.new
        ≡ (step_of_signal step.now.config.now step.now.at step.now.sheets.now (next_number table.old.opened) signal
        table.old.entries output.old).output) }
{
    let place = match place_of(table, step.alloc, &signal) {
        Ok(place) => place,
        Err(error) => {
            drop(signal);
            return Err(error);
        }
    };
    let invite = invite_of(&signal);
    match dispatch_of(table.next_number(), signal) {
        Dispatch::Opens(arrival) => open(table, step, arrival, output),
        Dispatch::Receives(signal) => receive_at(table, step, place, signal, invite, output),
    }
}
