//! How a call was diverted.
ghost use Rattle.std.specs.Prelude.{◌≡◌, ◌+◌, ◌-◌, ◌<◌, ◌≤◌, length, IfOk, OnErr, OnOk};
ghost use Rattle.mmtel_precedence.specs.Views.{due_diversion_view};
ghost use Rattle.mmtel_call_services.specs.Diversions.{after_diversion};
ghost use Rattle.mmtel_call_services.specs.Opening.{initial_diversions};
ghost use Rattle.mmtel_call_services.specs.CopiedHeaders.{notified_history};

use mmtel_base::{NoMemory, Text};
use mmtel_history::History;
use mmtel_precedence::DueDiversion;
use std::alloc::Global;
use std::marker::Model;

/// How a call was diverted so far, and how many more diversions are allowed.
#[derive(Drop)]
pub struct Diversions {
    remaining: u16,
    count: u16,
    history: History,
    hides_diverting: bool,
    hides_target: bool,
}

impl Model for Diversions {
    ghost use Rattle.std.specs.Prelude.{◌≤◌, ◌+◌, length};
    ghost use Rattle.mmtel_call_services.specs.Diversions.{DiversionsView};

    ghost Value = { DiversionsView };

    ghost view = { λ d. record {
      remaining = d.remaining;
      count = d.count;
      history = d.history;
      hides_diverting = d.hides_diverting;
      hides_target = d.hides_target;
    } };

    ghost invariant = { λ d. (length d.history + d.remaining ≤ 48) × (d.remaining ≤ 16) × (d.count + d.remaining ≤ 48) };
}

impl Diversions {
    /// No diversion was made yet: the bound counts those in this list, with which the call came.
    pub fn new(history: History, bound: u16) -> Diversions
        requires few { length history ≤ 32 }
        requires low { bound ≤ 16 }
        ensures { result ≡ initial_diversions bound history }
    {
        let count = history.diversions();
        Diversions {
            remaining: bound.saturating_sub(count),
            count,
            history,
            hides_diverting: false,
            hides_target: false,
        }
    }

    /// How many diversions the call came with and were made, together.
    pub fn count(&self) -> u16
        ensures { result ≡ self.now.count }
    {
        self.count
    }

    /// The configured bound, or the number of diversions with which the call came if that is more.
    pub fn bound(&self) -> u16
        ensures { result ≡ self.now.count + self.now.remaining }
    {
        self.count + self.remaining
    }

    /// The call's History-Info.
    pub fn history(&self) -> &History
        ensures { result.now ≡ self.now.history }
    {
        &self.history
    }

    /// The list as it is in a 181 (TS 24.604 §4.5.2.6).
    ///
    /// # Errors
    ///
    /// Out of memory only.
    pub fn notified_history(&self, alloc: Global) -> Result<History, NoMemory>
        ensures { IfOk result (λ h. h ≡ notified_history self.now) }
    {
        self.history
            .history_for_caller(alloc, self.hides_diverting, self.hides_target)
    }

    /// Records one more diversion (RFC 7044 §7), from this URI of the first target of the call to that of the new one: its cause, and what of it is hidden from the caller and from
    /// the target.
    ///
    /// # Errors
    ///
    /// Out of memory only; nothing is recorded then.
    pub fn note(
        &mut self,
        alloc: Global,
        from: &Text,
        target: &Text,
        due: &DueDiversion<'_>,
    ) -> Result<(), NoMemory>
        requires { 0 < self.old.remaining }
        ensures noted { OnOk result (self.new ≡ after_diversion from.now target.now (self.old.remaining - 1) (due_diversion_view due.entry.now) self.old) }
        ensures refused { OnErr result (self.new ≡ self.old) }
    {
        self.history
            .append(alloc, from, target, due.cause, !due.reveal_to_target)?;
        self.remaining -= 1;
        self.count += 1;
        self.hides_diverting = !due.reveal_served_to_caller;
        self.hides_target = !due.reveal_to_caller;
        Ok(())
    }
}
