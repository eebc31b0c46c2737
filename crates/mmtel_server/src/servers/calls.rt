//! What the calls receive, and the execution of their output.
ghost use Rattle.std.specs.Prelude.{◌≡◌, ℕ, List, IfOk, OnErr, OnOk, Some, false, true};
ghost use Rattle.std.specs.Option.{option_copied, option_map};
ghost use Rattle.mmtel_b2bua.specs.Detaching.{entry_of, has_detached_leg};
ghost use Rattle.mmtel_b2bua.specs.Tables.{is_full, is_opening};
ghost use Rattle.mmtel_directory.specs.declared.directories.Directory.{Directory};
ghost use Rattle.mmtel_admission.specs.Dispositions.{dialog_owner_in};
ghost use Rattle.mmtel_admission.specs.Dialogs.{name_in};
ghost use Rattle.mmtel_run_definitions.specs.Calls.{are_full, arrival_signal, find_dialog};
ghost use Rattle.mmtel_run_definitions.specs.Ownership.{find_participant, find_subscription, in_call_or, in_conference_or, in_subscription};
ghost use Rattle.mmtel_run_definitions.specs.Transitions.{RunState, after_ack, after_ack_by, after_call_end, after_call_signal};
ghost use Rattle.mmtel_run_definitions.specs.Transitions.{after_cancel, after_response, calls_in, conferences_in, subscriptions_in};
ghost use Rattle.mmtel_server.specs.DialogOwners.{NamesOwner};
ghost use Rattle.mmtel_server.specs.Follows.{AddsOfferPrefix, CallEnds, CallsReceive, Follows};
ghost use Rattle.mmtel_server.specs.Representation.{Represents};

use super::rows::collect_rows_of_calls;
use super::{Context, Server};
use crate::theorems::numbers_never_fall;
use mmtel_admission::{DialogName, DialogOwner, arrival_signal, dialog_name, plain_response};
use mmtel_b2bua::{CallFault, Signal};
use mmtel_base::{List, NoMemory, Text};
use mmtel_compose::{ReceivedMessage, status_of};
use mmtel_environment::Offer;
use mmtel_focus::RoomSignal;
use mmtel_output::{awaited_request_branch, branch_of};
use mmtel_run_definitions::records_are_those_kept;
use mmtel_server_timers::{Owner, owner_of_branch};
use mmtel_timers::Steps;
use mmtel_transaction::{Emits, TKey};
use mmtel_types::{CallNo, SubNo};
use std::alloc::Global;
use std::sync::ledger::Ledger;

/// The bytes of a text, where there is one.
fn bytes_of(text: &Option<Text>) -> Option<&[u8]>
    ensures { option_copied result ≡ text.now }
{
    match text {
        None => None,
        Some(text) => Some(text.bytes()),
    }
}

/// The subscription that has a dialog, as its owner.
fn in_subscription(found: Option<SubNo>) -> Option<DialogOwner>
    ensures { option_map dialog_owner_in result ≡ in_subscription found }
{
    match found {
        None => None,
        Some(sub) => Some(DialogOwner::InSubscription(sub)),
    }
}

impl Server {
    /// The output of the calls for a signal that does not open a call beyond the capacity, with what is in force and the tokens; their CDRs are removed from them.
    fn step_calls(&mut self, context: &Context, signal: Signal) -> Result<Emits, NoMemory>
        requires { is_full signal self.old.calls.table.entries ≡ false }
        ensures { IfOk result (λ emits. CallsReceive self.old self.new context.now.at signal emits) }
    {
        records_are_those_kept();
        numbers_never_fall();
        match self.calls.signal(
            context.alloc,
            signal,
            self.records.view(),
            &self.directory.peers,
            &self.directory.names.accounts,
            &mut self.tokens,
            context.at,
        ) {
            Ok(emits) => {
                collect_rows_of_calls(context.alloc, &mut self.calls, &mut self.waiting)?;
                Ok(emits)
            }
            Err(CallFault::Full(_)) => unreachable!(),
            Err(CallFault::NoMemory) => Err(NoMemory),
        }
    }

    /// Delivers to the calls a signal that does not open a call beyond the capacity, and executes their commands.
    ///
    /// # Errors
    ///
    /// Out of memory only; a prefix of the outputs has then been added.
    fn step_calls_and_emit<L: Ledger>(
        &mut self,
        context: &Context,
        signal: Signal,
        out: &mut List<Offer>,
        steps: &mut Steps<L>,
    ) -> Result<(), NoMemory>
        requires { is_full signal self.old.calls.table.entries ≡ false }
        ensures done { OnOk result (Follows self.old out.old self.new out.new
            (λ d token. after_call_signal d token context.now.at signal)) }
        ensures err { OnErr result (AddsOfferPrefix self.old out.old out.new
            (λ d token. after_call_signal d token context.now.at signal)) }
    {
        numbers_never_fall();
        let emits = self.step_calls(context, signal)?;
        let done = self.emit_all(context, emits.items(), out, steps);
        drop(emits);
        done
    }

    /// Delivers to the calls a signal that opens none, and executes their commands.
    ///
    /// # Errors
    ///
    /// Out of memory only; a prefix of the outputs has then been added.
    pub(super) fn signal_calls<L: Ledger>(
        &mut self,
        context: &Context,
        signal: Signal,
        out: &mut List<Offer>,
        steps: &mut Steps<L>,
    ) -> Result<(), NoMemory>
        requires { is_opening signal ≡ false }
        ensures done { OnOk result (Follows self.old out.old self.new out.new
            (λ d token. after_call_signal d token context.now.at signal)) }
        ensures err { OnErr result (AddsOfferPrefix self.old out.old out.new
            (λ d token. after_call_signal d token context.now.at signal)) }
    {
        self.step_calls_and_emit(context, signal, out, steps)
    }

    /// Opens a call, where fewer live than may.
    ///
    /// # Errors
    ///
    /// Out of memory only; a prefix of the outputs has then been added.
    pub(super) fn open_call<L: Ledger>(
        &mut self,
        context: &Context,
        key: TKey,
        invite: ReceivedMessage,
        out: &mut List<Offer>,
        steps: &mut Steps<L>,
    ) -> Result<(), NoMemory>
        requires { are_full self.old.calls.table.entries ≡ false }
        ensures done { OnOk result (Follows self.old out.old self.new out.new
            (λ d token. after_call_signal d token context.now.at (arrival_signal d.names.accounts key invite))) }
        ensures err { OnErr result (AddsOfferPrefix self.old out.old out.new
            (λ d token. after_call_signal d token context.now.at (arrival_signal d.names.accounts key invite))) }
    {
        numbers_never_fall();
        let signal = arrival_signal(context.alloc, &self.directory.names.accounts, key, invite)?;
        self.step_calls_and_emit(context, signal, out, steps)
    }

    /// The output of the calls where one of them, whose leg is detached, ends; their CDRs are removed from them.
    fn end_call(&mut self, context: &Context, call: CallNo) -> Result<Emits, NoMemory>
        requires { has_detached_leg (entry_of call.0 self.old.calls.table.entries) ≡ true }
        ensures { IfOk result (λ emits. CallEnds self.old self.new context.now.at call emits) }
    {
        numbers_never_fall();
        let emits = self.calls.finish(
            context.alloc,
            call,
            &self.directory.peers,
            &self.directory.names.accounts,
            &mut self.tokens,
            context.at,
        )?;
        collect_rows_of_calls(context.alloc, &mut self.calls, &mut self.waiting)?;
        Ok(emits)
    }

    /// Ends a call without its detached leg.
    ///
    /// # Errors
    ///
    /// Out of memory only; a prefix of the outputs has then been added.
    pub(super) fn finish_call<L: Ledger>(
        &mut self,
        context: &Context,
        call: CallNo,
        out: &mut List<Offer>,
        steps: &mut Steps<L>,
    ) -> Result<(), NoMemory>
        requires { has_detached_leg (entry_of call.0 self.old.calls.table.entries) ≡ true }
        ensures done { OnOk result (Follows self.old out.old self.new out.new
            (λ d token. after_call_end d token context.now.at call)) }
        ensures err { OnErr result (AddsOfferPrefix self.old out.old out.new
            (λ d token. after_call_end d token context.now.at call)) }
    {
        numbers_never_fall();
        let emits = self.end_call(context, call)?;
        let done = self.emit_all(context, emits.items(), out, steps);
        drop(emits);
        done
    }

    /// The owner of the dialog of this name: a side of a call, or else a participant of a conference, or else a subscription.
    fn owner_of_dialog(&self, name: &DialogName) -> Option<DialogOwner>
        ensures { (directory : Directory) (token : List ℕ) (world : RunState) → Represents directory token self.now world →
            option_map dialog_owner_in result ≡
            in_call_or (in_conference_or (in_subscription (find_subscription (Some (name_in name.now)) (subscriptions_in world)))
            (find_participant (Some (name_in name.now)) (conferences_in directory world).live))
            (find_dialog (Some (name_in name.now)) (calls_in directory world).entries) }
    {
        let call_id = name.call_id.bytes();
        let local = name.local.bytes();
        let remote = name.remote.bytes();
        match self.calls.find(call_id, local, remote) {
            Some((call, side)) => Some(DialogOwner::InCall { call, side }),
            None => match self.rooms.find(call_id, local, remote) {
                Some((room, seat)) => Some(DialogOwner::InConference { room, seat }),
                None => in_subscription(self.boxes.find(call_id, local, remote)),
            },
        }
    }

    /// The owner of the dialog that a message names (RFC 3261 §12.2.2).
    pub(super) fn owner_of_message(
        &self,
        alloc: Global,
        message: &ReceivedMessage,
    ) -> Result<Option<DialogOwner>, NoMemory>
        ensures { IfOk result (λ named. NamesOwner self.now message.now named) }
    {
        let name = dialog_name(alloc, message)?;
        match name {
            None => Ok(None),
            Some(name) => {
                let owner = self.owner_of_dialog(&name);
                drop(name);
                Ok(owner)
            }
        }
    }

    /// Delivers an ACK of a 2xx to the owner of its dialog.
    fn receive_ack_in<L: Ledger>(
        &mut self,
        context: &Context,
        owner: DialogOwner,
        ack: ReceivedMessage,
        out: &mut List<Offer>,
        steps: &mut Steps<L>,
    ) -> Result<(), NoMemory>
        ensures done { OnOk result (Follows self.old out.old self.new out.new
            (λ d token. after_ack_by d token context.now.at ack (Some (dialog_owner_in owner)))) }
        ensures err { OnErr result (AddsOfferPrefix self.old out.old out.new
            (λ d token. after_ack_by d token context.now.at ack (Some (dialog_owner_in owner)))) }
    {
        match owner {
            DialogOwner::InCall { call, side } => {
                self.signal_calls(context, Signal::Ack { call, side, ack }, out, steps)
            }
            DialogOwner::InConference { room, seat } => {
                self.signal_conferences(context, RoomSignal::Ack { room, seat, ack }, out, steps)
            }
            DialogOwner::InSubscription(_) => {
                drop(ack);
                Ok(())
            }
        }
    }

    /// Processes an ACK of a 2xx: it belongs to the dialog that it names (RFC 3261 §13.2.2.4).
    pub(super) fn receive_ack<L: Ledger>(
        &mut self,
        context: &Context,
        ack: ReceivedMessage,
        out: &mut List<Offer>,
        steps: &mut Steps<L>,
    ) -> Result<(), NoMemory>
        ensures done { OnOk result (Follows self.old out.old self.new out.new
            (λ d token. after_ack d token context.now.at ack)) }
        ensures err { OnErr result (AddsOfferPrefix self.old out.old out.new
            (λ d token. after_ack d token context.now.at ack)) }
    {
        numbers_never_fall();
        match self.owner_of_message(context.alloc, &ack) {
            Ok(Some(owner)) => self.receive_ack_in(context, owner, ack, out, steps),
            Ok(None) => {
                drop(ack);
                Ok(())
            }
            Err(error) => {
                drop(ack);
                Err(error)
            }
        }
    }

    /// Processes a response: it belongs to the calls where an INVITE of one has its branch, to the subscriptions where a NOTIFY of one has it, and else
    /// to the conferences (RFC 3261 §17.1.3).
    pub(super) fn receive_response<L: Ledger>(
        &mut self,
        context: &Context,
        key: TKey,
        response: ReceivedMessage,
        out: &mut List<Offer>,
        steps: &mut Steps<L>,
    ) -> Result<(), NoMemory>
        ensures done { OnOk result (Follows self.old out.old self.new out.new
            (λ d token. after_response d token context.now.at key response)) }
        ensures err { OnErr result (AddsOfferPrefix self.old out.old out.new
            (λ d token. after_response d token context.now.at key response)) }
    {
        numbers_never_fall();
        let branch = match awaited_request_branch(context.alloc, &response) {
            Ok(branch) => branch,
            Err(error) => {
                drop(response);
                return Err(error);
            }
        };
        let whose = owner_of_branch(
            &self.calls,
            &self.boxes,
            bytes_of(&branch),
            branch_of(&response),
        );
        drop(branch);
        match whose {
            Owner::Calls => self.signal_calls(
                context,
                Signal::Answer { key, response },
                out,
                steps,
            ),
            Owner::Subscriptions => {
                self.receive_notify_response(
                    branch_of(&response),
                    status_of(response.message.start()),
                );
                drop(response);
                Ok(())
            }
            Owner::Conferences => {
                self.signal_conferences(context, RoomSignal::Answer { key, response }, out, steps)
            }
        }
    }

    /// Processes a CANCEL, by the live INVITE transaction that it cancels, if there is one (RFC 3261 §9.2).
    pub(super) fn receive_cancel<L: Ledger>(
        &mut self,
        context: &Context,
        key: TKey,
        invite: Option<TKey>,
        cancel: ReceivedMessage,
        out: &mut List<Offer>,
        steps: &mut Steps<L>,
    ) -> Result<(), NoMemory>
        ensures done { OnOk result (Follows self.old out.old self.new out.new
            (λ d token. after_cancel d token context.now.at key cancel invite)) }
        ensures err { OnErr result (AddsOfferPrefix self.old out.old out.new
            (λ d token. after_cancel d token context.now.at key cancel invite)) }
    {
        numbers_never_fall();
        match invite {
            None => {
                let done = self.respond(context, key, &cancel, &plain_response(481), out, steps);
                drop(cancel);
                done
            }
            Some(invite) => self.cancel_invite(context, key, invite, cancel, out, steps),
        }
    }

    /// Processes a CANCEL of this INVITE transaction: the call of that INVITE receives it, or it only gets its response.
    fn cancel_invite<L: Ledger>(
        &mut self,
        context: &Context,
        key: TKey,
        invite: TKey,
        cancel: ReceivedMessage,
        out: &mut List<Offer>,
        steps: &mut Steps<L>,
    ) -> Result<(), NoMemory>
        ensures done { OnOk result (Follows self.old out.old self.new out.new
            (λ d token. after_cancel d token context.now.at key cancel (Some invite))) }
        ensures err { OnErr result (AddsOfferPrefix self.old out.old out.new
            (λ d token. after_cancel d token context.now.at key cancel (Some invite))) }
    {
        numbers_never_fall();
        match self.calls.asked_by(invite) {
            None => {
                let done = self.respond(context, key, &cancel, &plain_response(200), out, steps);
                drop(cancel);
                done
            }
            Some((call, _)) => {
                let signal = Signal::Cancel {
                    call,
                    key,
                    cancel,
                    invite,
                };
                self.signal_calls(context, signal, out, steps)
            }
        }
    }
}
