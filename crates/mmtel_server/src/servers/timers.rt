//! Timers: those that are due fire, each at its own moment (RFC 3261 §17).
ghost use Rattle.std.specs.Prelude.{◌≡◌, ℕ, List, OnErr, OnOk, Some};
ghost use Rattle.std.specs.Option.{option_map};
ghost use Rattle.mmtel_environment.specs.declared.events.Offer.{Offer};
ghost use Rattle.mmtel_run_definitions.specs.Deadlines as deadlines;
ghost use Rattle.mmtel_run_definitions.specs.Deadlines.{FirstTimer, first_deadline, first_due_timer};
ghost use Rattle.mmtel_output.specs.ResponseMatching.{behind_cookie, timed_out_branch};
ghost use Rattle.mmtel_run_definitions.specs.Ownership.{owner_of_branch, owner_of_key};
ghost use Rattle.mmtel_run_definitions.specs.Run.{after_due_deadlines};
ghost use Rattle.mmtel_run_definitions.specs.Transitions.{after_deadline, after_due, after_first_service_timer, after_request_timeout, after_service_timer};
ghost use Rattle.mmtel_run_definitions.specs.Transitions.{after_transaction_end, after_transaction_timer, calls_in, subscriptions_in, with_next_step};
ghost use Rattle.mmtel_server_timers.specs.PendingTimers.{IsFirstTimer, kind_of, queue_of, timer_in};
ghost use Rattle.mmtel_server.specs.Follows.{AddsOfferPrefix, AddsOfferPrefixWhere, Follows, FollowsWhere, IsDueBy, IsSettledBy};
ghost use Rattle.mmtel_transaction.specs.Results.{next_due};
ghost use Rattle.mmtel_transaction.specs.Operations.{TransactionOp, live};
ghost use Rattle.mmtel_transaction.specs.Represents as table;

use super::operations::offer_to;
use super::{Context, Server};
use crate::theorems::numbers_never_fall;
use mmtel_b2bua::Signal;
use mmtel_base::{List, NoMemory, Text};
use mmtel_environment::Offer;
use mmtel_focus::RoomSignal;
use mmtel_output::{behind_cookie, timed_out_branch};
use mmtel_server_timers::{
    Deadline, Owner, ServiceTimer, first_deadline, moment_by, owner_of_branch, owner_of_key,
};
use mmtel_timers::Steps;
use mmtel_transaction::{Due, TKey};
use mmtel_types::Moment;
use std::alloc::Global;
use std::sync::ledger::Ledger;

/// The maximum number of timers that fire before one event: more than the steps of any run within the range of the counters.
const MOST_FIRINGS: u64 = 1 << 60;

impl Server {
    /// Begins a step: timers that are armed in it carry its number.
    pub(super) fn begin_step(&mut self)
        ensures done { (out : List Offer) → Follows self.old out self.new out (λ d token. with_next_step) }
        ensures directory { self.new.directory ≡ self.old.directory }
        ensures armed { self.new.pending_timers ≡ self.old.pending_timers }
    {
        self.transactions.begin(self.steps);
        self.steps = self.steps.saturating_add(1);
    }

    /// A request timed out: its owner receives that, the calls for an INVITE of theirs, the subscriptions for a NOTIFY of one, and the conferences for all others.
    fn time_out_request<L: Ledger>(
        &mut self,
        context: &Context,
        branch: Text,
        method: Text,
        out: &mut List<Offer>,
        steps: &mut Steps<L>,
    ) -> Result<(), NoMemory>
        ensures done { OnOk result (Follows self.old out.old self.new out.new
            (λ d token world. after_request_timeout d token context.now.at branch method (owner_of_branch
            (timed_out_branch branch method) (behind_cookie branch) (calls_in d world).entries (subscriptions_in world)) world)) }
        ensures err { OnErr result (AddsOfferPrefix self.old out.old out.new
            (λ d token world. after_request_timeout d token context.now.at branch method (owner_of_branch
            (timed_out_branch branch method) (behind_cookie branch) (calls_in d world).entries (subscriptions_in world)) world)) }
    {
        let whose = owner_of_branch(
            &self.calls,
            &self.boxes,
            timed_out_branch(branch.bytes(), method.bytes()),
            behind_cookie(branch.bytes()),
        );
        match whose {
            Owner::Calls => self.signal_calls(
                context,
                Signal::Silent { branch, method },
                out,
                steps,
            ),
            Owner::Subscriptions => {
                self.receive_notify_response(behind_cookie(branch.bytes()), 408);
                drop(branch);
                drop(method);
                Ok(())
            }
            Owner::Conferences => {
                self.signal_conferences(context, RoomSignal::Silent { branch, method }, out, steps)
            }
        }
    }

    /// The client transaction of a request that got its response has ended: its owner receives that, the calls for an INVITE of theirs, and the conferences for all others.
    fn end_transaction<L: Ledger>(
        &mut self,
        context: &Context,
        key: TKey,
        out: &mut List<Offer>,
        steps: &mut Steps<L>,
    ) -> Result<(), NoMemory>
        ensures done { OnOk result (Follows self.old out.old self.new out.new
            (λ d token world. after_transaction_end d token context.now.at key (owner_of_key key
            (calls_in d world).entries) world)) }
        ensures err { OnErr result (AddsOfferPrefix self.old out.old out.new
            (λ d token world. after_transaction_end d token context.now.at key (owner_of_key key
            (calls_in d world).entries) world)) }
    {
        let whose = owner_of_key(&self.calls, key);
        match whose {
            Owner::Calls => self.signal_calls(context, Signal::Over { key }, out, steps),
            Owner::Subscriptions => Ok(()),
            Owner::Conferences => self.signal_conferences(
                context,
                RoomSignal::Over { key },
                out,
                steps,
            ),
        }
    }

    /// Executes what a timer of a transaction causes.
    ///
    /// # Errors
    ///
    /// Out of memory only; a prefix of the outputs has then been added.
    fn perform_due<L: Ledger>(
        &mut self,
        alloc: Global,
        due: Due,
        now: Moment,
        out: &mut List<Offer>,
        steps: &mut Steps<L>,
    ) -> Result<(), NoMemory>
        ensures done { OnOk result (IsDueBy now due → Follows self.old out.old self.new out.new
            (λ d token. after_due d token due)) }
        ensures err { OnErr result (IsDueBy now due → AddsOfferPrefix self.old out.old out.new (λ d token. after_due d token due)) }
    {
        numbers_never_fall();
        match due {
            Due::Again(peer, at, text) => offer_to(alloc, peer, at, text, out),
            Due::Silent {
                key: _,
                branch,
                method,
                at,
            } => {
                let at = moment_by(at, now);
                self.time_out_request(&Context { alloc, at }, branch, method, out, steps)
            }
            Due::Over(key, at) => {
                let at = moment_by(at, now);
                self.end_transaction(&Context { alloc, at }, key, out, steps)
            }
            Due::Nothing => Ok(()),
        }
    }

    /// Fires the first timer of the transactions that is due, at its own moment.
    fn fire_transaction_timer<L: Ledger>(
        &mut self,
        alloc: Global,
        now: Moment,
        out: &mut List<Offer>,
        steps: &mut Steps<L>,
    ) -> Result<(), NoMemory>
        ensures done { OnOk result (Follows self.old out.old self.new out.new (λ d token. after_transaction_timer d token now)) }
        ensures err { OnErr result (AddsOfferPrefix self.old out.old out.new (λ d token. after_transaction_timer d token now)) }
    {
        numbers_never_fall();
        let due_action = self.transactions.due(alloc, now, steps)?;
        self.perform_due(alloc, due_action, now, out, steps)
    }

    /// A timer of a call, of a participant or of a subscription expires.
    fn perform_timer<L: Ledger>(
        &mut self,
        context: &Context,
        timer: ServiceTimer,
        out: &mut List<Offer>,
        steps: &mut Steps<L>,
    ) -> Result<(), NoMemory>
        ensures done { OnOk result (Follows self.old out.old self.new out.new
            (λ d token. after_service_timer d token context.now.at (timer_in timer))) }
        ensures err { OnErr result (AddsOfferPrefix self.old out.old out.new
            (λ d token. after_service_timer d token context.now.at (timer_in timer))) }
    {
        match timer {
            ServiceTimer::OfCall { call, what } => self.signal_calls(
                context,
                Signal::Due { call, what },
                out,
                steps,
            ),
            ServiceTimer::OfParticipant { room, seat, what } => {
                self.signal_conferences(context, RoomSignal::Due { room, seat, what }, out, steps)
            }
            ServiceTimer::OfSubscription { sub, set } => self.expire_subscription(
                context, sub, set, out, steps,
            ),
        }
    }

    /// Fires the first timer of calls, participants and subscriptions, at its own moment.
    fn fire_service_timer<L: Ledger>(
        &mut self,
        alloc: Global,
        now: Moment,
        out: &mut List<Offer>,
        steps: &mut Steps<L>,
    ) -> Result<(), NoMemory>
        ensures done { OnOk result ((first : FirstTimer) → first_due_timer now (queue_of self.old.pending_timers) ≡ Some first →
            Follows self.old out.old self.new out.new (λ d token. after_first_service_timer d token first.first first.others)) }
        ensures err { OnErr result ((first : FirstTimer) → first_due_timer now (queue_of self.old.pending_timers) ≡ Some first →
            AddsOfferPrefix self.old out.old out.new (λ d token. after_first_service_timer d token first.first first.others)) }
    {
        match self.pending_timers.pop_due(now.ms(), steps) {
            None => Ok(()),
            Some(pending) => {
                let at = moment_by(pending.at, now);
                self.perform_timer(&Context { alloc, at }, pending.timer, out, steps)
            }
        }
    }

    /// Fires a timer that is due, the first of all, at its own moment.
    ///
    /// # Errors
    ///
    /// Out of memory only; a prefix of its outputs has then been added.
    fn fire_first<L: Ledger>(
        &mut self,
        alloc: Global,
        now: Moment,
        deadline: Deadline,
        out: &mut List<Offer>,
        steps: &mut Steps<L>,
    ) -> Result<(), NoMemory>
        ensures done { OnOk result ((first : deadlines.Deadline) → kind_of first ≡ deadline →
            IsFirstTimer (first_due_timer now (queue_of self.old.pending_timers)) first →
            Follows self.old out.old self.new out.new (λ d token. after_deadline d token now first)) }
        ensures err { OnErr result ((first : deadlines.Deadline) → kind_of first ≡ deadline →
            IsFirstTimer (first_due_timer now (queue_of self.old.pending_timers)) first →
            AddsOfferPrefix self.old out.old out.new (λ d token. after_deadline d token now first)) }
    {
        numbers_never_fall();
        self.begin_step();
        match deadline {
            Deadline::OfTransaction => self.fire_transaction_timer(alloc, now, out, steps),
            Deadline::OfServiceTimer => self.fire_service_timer(alloc, now, out, steps),
        }
    }

    /// Which timer comes first of those that are due.
    fn next_deadline<L: Ledger>(&self, now: Moment, steps: &mut Steps<L>) -> Option<Deadline>
        ensures { (h : List TransactionOp) → table.Represents self.now.transactions h →
            result ≡ option_map kind_of (first_deadline (next_due now (live h)) (first_due_timer now (queue_of self.now.pending_timers))) }
    {
        first_deadline(
            self.transactions.upcoming(now, steps),
            self.pending_timers.first_due(now.ms()),
        )
    }

    /// Fires all timers that are due, the first one first.
    ///
    /// # Errors
    ///
    /// Out of memory only; a prefix of their outputs has then been added.
    pub(super) fn fire_all_due<L: Ledger>(
        &mut self,
        alloc: Global,
        now: Moment,
        out: &mut List<Offer>,
        steps: &mut Steps<L>,
    ) -> Result<(), NoMemory>
        ensures done { OnOk result ((fuel : ℕ) → FollowsWhere self.old out.old self.new out.new (IsSettledBy fuel now)
            (λ d token. after_due_deadlines d token fuel now)) }
        ensures err { OnErr result ((fuel : ℕ) → AddsOfferPrefixWhere self.old out.old out.new (IsSettledBy fuel now)
            (λ d token. after_due_deadlines d token fuel now)) }
    {
        numbers_never_fall();
        for i in 0..MOST_FIRINGS {
            match self.next_deadline(now, steps) {
                None => return Ok(()),
                Some(deadline) => self.fire_first(alloc, now, deadline, out, steps)?,
            }
        }
        Ok(())
    }
}
