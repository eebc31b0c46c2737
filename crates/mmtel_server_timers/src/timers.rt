//! The timers of calls, of participants of conferences and of subscriptions that did not fire, in the order in which they fire.
ghost use Rattle.std.specs.Prelude.{◌≡◌, ◌++◌, ◌∷◌, [], OnErr, OnOk, IfNone};
ghost use Rattle.std.specs.Option.{option_map};
ghost use Rattle.mmtel_run_definitions.specs.Deadlines.{first_due_timer};
ghost use Rattle.mmtel_server_timers.specs.PendingTimers.{first_and_others, first_in, pending_in, queue_of};

use crate::earliest::{due_by, earliest_timer};
use crate::pending_timers::{PendingTimer, rank};
use crate::ranks::Ranks;
use mmtel_base::NoMemory;
use mmtel_timers::Steps;
use std::alloc::Global;
use std::collections::BTreeMap;
use std::marker::Model;
use std::sync::ledger::Ledger;

/// The timers that did not fire, in contracts in the order in which they were armed.
#[derive(Drop)]
pub struct Timers {
    alloc: Global,
    pending: BTreeMap<u64, PendingTimer>,
    ranks: Ranks,
    /// The first of all, due or not, with the number of its arming: each event queries it, while it changes only as a timer is armed or removed.
    first: Option<(u64, PendingTimer)>,
    next: u64,
    step: u64,
}

impl Model for Timers {
    ghost use Rattle.std.specs.Prelude.{List};
    ghost use Rattle.std.specs.Map.{values_of};
    ghost use Rattle.mmtel_server_timers.specs.declared.pending_timers.PendingTimer.{PendingTimer};
    ghost use Rattle.mmtel_server_timers.specs.Queue.{TimersKept};

    ghost Value = { List PendingTimer };

    ghost view = { λ a. values_of a.pending.entries };

    ghost invariant = { λ a. TimersKept a.next a.step a.ranks a.pending.entries a.first };
}

impl Timers {
    /// None yet. It allocates nothing.
    pub fn new(alloc: Global) -> Timers
        ensures { result ≡ [] }
    {
        Timers {
            alloc,
            pending: BTreeMap::new(alloc),
            ranks: Ranks::new(),
            first: None,
            next: 0,
            step: 0,
        }
    }

    /// Arms a timer, after the others, without a counted step.
    ///
    /// # Errors
    ///
    /// Out of memory only, or of numbers: 2^64 - 1 timers are armed in all, and the steps of those that are armed do not decrease. The timers are then unchanged.
    pub fn arm<L: Ledger>(
        &mut self,
        timer: PendingTimer,
        steps: &mut Steps<L>,
    ) -> Result<(), NoMemory>
        ensures ok { OnOk result (self.new ≡ self.old ++ timer ∷ []) }
        ensures err { OnErr result (self.new ≡ self.old) }
        ensures cost { steps.new ≡ steps.old }
    {
        let number = self.next;
        if number == u64::MAX {
            return Err(NoMemory);
        }
        if timer.step < self.step {
            return Err(NoMemory);
        }
        match self.pending.insert(number, timer) {
            Ok(_) => {}
            Err(_) => return Err(NoMemory),
        }
        match self
            .ranks
            .arm(self.alloc, rank(timer.timer), timer.at, number, steps)
        {
            Ok(()) => {}
            Err(NoMemory) => {
                self.pending.remove(&number);
                return Err(NoMemory);
            }
        }
        self.first = earliest_timer(&self.ranks, &self.pending);
        self.next += 1;
        self.step = timer.step;
        Ok(())
    }

    /// The first of those that are due by a moment, and of equal ones the one that was armed first; None where none is due.
    pub fn first_due(&self, now: u64) -> Option<PendingTimer>
        ensures { option_map (λ a. pending_in a) result ≡ first_in (first_due_timer now (queue_of self.now)) }
    {
        match due_by(self.first, now) {
            Some((_, armed)) => Some(armed),
            None => None,
        }
    }

    /// Removes that one, without a counted step; the others keep their order.
    pub fn pop_due<L: Ledger>(&mut self, now: u64, steps: &mut Steps<L>) -> Option<PendingTimer>
        ensures first { first_and_others result (queue_of self.new) ≡ first_due_timer now (queue_of self.old) }
        ensures none { IfNone result (self.new ≡ self.old) }
        ensures cost { steps.new ≡ steps.old }
    {
        match due_by(self.first, now) {
            None => None,
            Some((number, armed)) => {
                self.ranks.disarm(number, steps);
                self.pending.remove(&number);
                self.first = earliest_timer(&self.ranks, &self.pending);
                Some(armed)
            }
        }
    }
}
