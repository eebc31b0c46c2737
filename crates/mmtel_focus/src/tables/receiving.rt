//! The conferences receive a signal, and a participant of one is notified of a status.
ghost use Rattle.std.specs.Prelude.{◌≡◌, ◌∷◌, false, true, List, IfErr, IfOk, IsErr, OnOk};
ghost use Rattle.mmtel_trust.specs.Peers.{Peers};
ghost use Rattle.mmtel_trust.specs.declared.accounts.AccountIdentity.{AccountIdentity};
ghost use Rattle.mmtel_focus.specs.Operations.{Notifies, Receives, Represents, TableOp, config_of, effects_after};
ghost use Rattle.mmtel_focus.specs.Private.{view_after_op, view_effects_of_op};

use super::{Rooms, no_tokens};
use crate::dispatch::dispatch;
use crate::entering::notify;
use crate::live::beginning;
use crate::signals::RoomSignal;
use mmtel_base::NoMemory;
use mmtel_participants::{Effects, StepContext};
use mmtel_transaction::{Emits, Tokens};
use mmtel_trust::{Accounts, PeerTable};
use mmtel_types::{Moment, RoomNo};
use std::alloc::Global;
use std::mem;

impl Rooms {
    /// The conferences receive a signal; what it abandons and closes is kept.
    fn receive(
        &mut self,
        step: &StepContext<'_>,
        signal: &RoomSignal,
        tokens: &mut Tokens,
    ) -> Result<Emits, NoMemory>
        ensures done { OnOk result (self.new
            ≡ view_after_op step.now.config (Receives (record { at = step.now.at; tokens = tokens.old; signal = signal.now })) self.old) }
        ensures emits { IfOk result (λ out. out
            ≡ (view_effects_of_op step.now.config (Receives (record { at = step.now.at; tokens = tokens.old; signal = signal.now })) self.old).output.out) }
        ensures tokens { OnOk result (tokens.new
            ≡ (view_effects_of_op step.now.config (Receives (record { at = step.now.at; tokens = tokens.old; signal = signal.now })) self.old).output.tokens) }
    {
        let mut effects = Effects::new(mem::replace(tokens, no_tokens()));
        let received = dispatch(
            &mut self.live,
            &mut self.abandoned,
            step,
            signal,
            &mut effects,
        );
        mem::swap(tokens, &mut effects.output.tokens);
        received?;
        self.settle(step.alloc, effects)
    }

    /// The conferences receive a signal: the participant that it is of takes its transition of the step table of conferences, or an abandoned INVITE takes its own (RFC 4579 §5,
    /// RFC 3515 §2.4, RFC 3261 §12 to §15).
    ///
    /// # Errors
    ///
    /// Out of memory only: the table has failed then, and each later signal returns that error and changes nothing; nothing is claimed of the tokens then.
    pub fn signal(
        &mut self,
        alloc: Global,
        signal: RoomSignal,
        peers: &PeerTable,
        accounts: &Accounts,
        tokens: &mut Tokens,
        now: Moment,
    ) -> Result<Emits, NoMemory>
        ensures done { OnOk result ((ops : List TableOp) → Represents peers.now accounts.now self.old ops →
            Represents peers.now accounts.now self.new (Receives (record { at = now; tokens = tokens.old; signal = signal }) ∷ ops)) }
        ensures emits { IfOk result (λ out. (ops : List TableOp) → Represents peers.now accounts.now self.old ops →
            out ≡ (effects_after (config_of self.old peers.now accounts.now) ops (Receives (record { at = now; tokens = tokens.old; signal = signal }))).output.out) }
        ensures tokens { OnOk result ((ops : List TableOp) → Represents peers.now accounts.now self.old ops →
            tokens.new ≡ (effects_after (config_of self.old peers.now accounts.now) ops
            (Receives (record { at = now; tokens = tokens.old; signal = signal }))).output.tokens) }
        ensures config { OnOk result ((peers : Peers) (accounts : List AccountIdentity) →
            config_of self.new peers accounts ≡ config_of self.old peers accounts) }
        ensures fails { IfErr result (λ e. (self.old.has_failed ≡ false → self.new.has_failed ≡ true)) }
        ensures stuck { self.old.has_failed ≡ true →
            IsErr result × ((self.new ≡ self.old) × (tokens.new ≡ tokens.old)) }
    {
        if self.has_failed {
            drop(signal);
            return Err(NoMemory);
        }
        let step = self.step(alloc, peers, accounts, now);
        let received = self.receive(&step, &signal, tokens);
        drop(signal);
        if received.is_err() {
            self.has_failed = true;
        }
        received
    }

    /// Notifies a participant of the status of this code, and keeps what that abandons and closes.
    fn send_notify(
        &mut self,
        step: &StepContext<'_>,
        room: RoomNo,
        seat: u64,
        code: u16,
        tokens: &mut Tokens,
    ) -> Result<Emits, NoMemory>
        ensures done { OnOk result (self.new ≡ view_after_op step.now.config (Notifies room.0 seat code tokens.old) self.old) }
        ensures emits { IfOk result (λ out. out
            ≡ (view_effects_of_op step.now.config (Notifies room.0 seat code tokens.old) self.old).output.out) }
        ensures tokens { OnOk result (tokens.new
            ≡ (view_effects_of_op step.now.config (Notifies room.0 seat code tokens.old) self.old).output.tokens) }
    {
        let mut effects = Effects::new(mem::replace(tokens, no_tokens()));
        let notified = notify(&mut self.live, step, room, seat, code, &mut effects);
        mem::swap(tokens, &mut effects.output.tokens);
        notified?;
        self.settle(step.alloc, effects)
    }

    /// Notifies a participant of the progress of its REFER, by the status line of this code; nothing is sent once it has left (RFC 3515 §2.4.4). The code has a reason phrase
    /// among those of the server's own statuses.
    ///
    /// # Errors
    ///
    /// Out of memory only: the table has failed then, and each later call returns that error and changes nothing; nothing is claimed of the tokens then.
    pub fn notify(
        &mut self,
        alloc: Global,
        room: RoomNo,
        seat: u64,
        code: u16,
        peers: &PeerTable,
        accounts: &Accounts,
        tokens: &mut Tokens,
    ) -> Result<Emits, NoMemory>
        ensures done { OnOk result ((ops : List TableOp) → Represents peers.now accounts.now self.old ops →
            Represents peers.now accounts.now self.new (Notifies room.0 seat code tokens.old ∷ ops)) }
        ensures emits { IfOk result (λ out. (ops : List TableOp) → Represents peers.now accounts.now self.old ops →
            out ≡ (effects_after (config_of self.old peers.now accounts.now) ops (Notifies room.0 seat code tokens.old)).output.out) }
        ensures tokens { OnOk result ((ops : List TableOp) → Represents peers.now accounts.now self.old ops →
            tokens.new ≡ (effects_after (config_of self.old peers.now accounts.now) ops (Notifies room.0 seat code tokens.old)).output.tokens) }
        ensures config { OnOk result ((peers : Peers) (accounts : List AccountIdentity) →
            config_of self.new peers accounts ≡ config_of self.old peers accounts) }
        ensures fails { IfErr result (λ e. (self.old.has_failed ≡ false → self.new.has_failed ≡ true)) }
        ensures stuck { self.old.has_failed ≡ true →
            IsErr result × ((self.new ≡ self.old) × (tokens.new ≡ tokens.old)) }
    {
        if self.has_failed {
            return Err(NoMemory);
        }
        let step = self.step(alloc, peers, accounts, beginning());
        let notified = self.send_notify(&step, room, seat, code, tokens);
        if notified.is_err() {
            self.has_failed = true;
        }
        notified
    }
}
