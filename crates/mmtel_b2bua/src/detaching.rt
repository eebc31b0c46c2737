//! A leg of a stable call is detached, put back, or the call ends without it.
ghost use Rattle.std.specs.Prelude.{◌≡◌, [], true, None, IfOk, OnOk, MatchResult, Some};
ghost use Rattle.mmtel_call.specs.Detaching.{is_detached};
ghost use Rattle.mmtel_call.specs.Settled.{is_settled};
ghost use Rattle.mmtel_leg.specs.Releases.{released_leg};
ghost use Rattle.mmtel_b2bua.specs.Invariant.{number_of};
ghost use Rattle.mmtel_b2bua.specs.Detaching.{can_restore, entries_after_release, entries_after_restore, entry_of, finish_step, has_detached_leg, released_leg_of, step_of_finish};
ghost use Rattle.mmtel_b2bua.specs.Tables.{entry_after};

use crate::call_table::CallTable;
use crate::entries::Entry;
use mmtel_base::NoMemory;
use mmtel_call::NotTalking;
use mmtel_call_services::CallConfig;
use mmtel_leg::Released;
use mmtel_output::StepOutput;
use mmtel_types::{CallNo, Moment, Side};
use std::alloc::Global;

/// Detaches a leg of the call of this number.
#[tactic(auto, unfolding(crate::specs::Detaching::entries_after_release))]
pub fn release(table: &mut CallTable, number: CallNo, side: Side) -> Result<Released, NotTalking>
    ensures table { table.new ≡ record table.old { entries = entries_after_release number.0 side table.old.entries } }
    ensures leg { MatchResult result (λ leg. released_leg_of number.0 side table.old.entries ≡ Some leg)
        (λ refused. released_leg_of number.0 side table.old.entries ≡ None) }
{
    match table.place_of(number) {
        None => Err(NotTalking),
        Some(place) => table.release_at(place, side),
    }
}

/// Puts a leg back into the call of this number.
#[tactic(auto, unfolding(crate::specs::Detaching::entries_after_restore))]
pub fn restore(table: &mut CallTable, number: CallNo, leg: Released)
    requires fits { can_restore leg (entry_of number.0 table.old.entries) ≡ true }
    requires meter { (released_leg leg).meter ≡ None }
    ensures { table.new ≡ record table.old { entries = entries_after_restore number.0 leg table.old.entries } }
{
    match table.place_of(number) {
        None => unreachable!(),
        Some(place) => table.restore_at(place, leg),
    }
}

impl Entry {
    /// Ends a call whose leg is detached. Returns whether nothing more may be received for it.
    #[tactic(auto, unfolding(crate::specs::Detaching::finish_step))]
    pub fn finish(
        &mut self,
        alloc: Global,
        config: &CallConfig<'_>,
        at: Moment,
        output: &mut StepOutput,
    ) -> Result<bool, NoMemory>
        requires { is_detached self.old.call.phase ≡ true }
        ensures entry { OnOk result (self.new ≡ entry_after [] (finish_step config.now at output.old self.old) self.old) }
        ensures output { OnOk result (output.new ≡ (finish_step config.now at output.old self.old).output) }
        ensures settled { IfOk result (λ settled. settled ≡ is_settled (finish_step config.now at output.old self.old).call) }
        ensures number { OnOk result (number_of self.new ≡ number_of self.old) }
    {
        self.call.finish(alloc, config, at, output)?;
        Ok(self.call.is_settled())
    }
}

/// Ends the call of this number, whose leg is detached.
#[tactic(auto, unfolding(crate::specs::Detaching::step_of_finish))]
pub fn finish(
    table: &mut CallTable,
    alloc: Global,
    config: &CallConfig<'_>,
    at: Moment,
    number: CallNo,
    output: &mut StepOutput,
) -> Result<(), NoMemory>
    requires { has_detached_leg (entry_of number.0 table.old.entries) ≡ true }
    ensures table { OnOk result (table.new ≡ record table.old { entries = (step_of_finish config.now at number.0 table.old.entries output.old).entries }) }
    ensures output { OnOk result (output.new ≡ (step_of_finish config.now at number.0 table.old.entries output.old).output) }
{
    match table.place_of(number) {
        None => unreachable!(),
        Some(place) => table.finish_at(alloc, config, at, place, output),
    }
}
