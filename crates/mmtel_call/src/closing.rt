//! How a call ends: its meters give their CDRs.
ghost use Rattle.std.specs.Prelude.{◌≡◌, OnErr, OnOk};
ghost use Rattle.std.specs.Option.{option_copied};
ghost use Rattle.mmtel_types.specs.declared.causes.Cause.TheVariants.{Ended as HasEnded};
ghost use Rattle.mmtel_call.specs.Calls.{Over};
ghost use Rattle.mmtel_call.specs.Closing.{call_end, meter_for, meter_of, with_past};

use crate::calls::{Call, Phase};
use crate::context::StepContext;
use mmtel_base::{List, NoMemory};
use mmtel_call_services::{Ending, Service, append_charging_records, cause_by};
use mmtel_charging::{Kind, Meter};
use mmtel_output::StepOutput;
use mmtel_types::{Account, Cause, Moment};
use std::alloc::Global;
use std::mem;

/// The meter of an account, if there is one.
pub fn meter_of(kind: Kind, call: &Call, at: Moment, account: Option<Account>) -> Option<Meter>
    ensures { result ≡ meter_of kind call.now at account }
{
    match account {
        None => None,
        Some(account) => Some(Meter::start(kind, account, call.opening.number, at)),
    }
}

/// The meter of the served account, if there is one.
pub fn meter_for(kind: Kind, call: &Call, at: Moment, service: Option<&Service>) -> Option<Meter>
    ensures { result ≡ meter_for kind call.now at (option_copied service.entry) }
{
    match service {
        None => None,
        Some(service) => Some(Meter::start(kind, service.account, call.opening.number, at)),
    }
}

/// Spends a meter that gives no CDR.
pub fn give_up_meter(meter: Option<Meter>, at: Moment) {
    match meter {
        None => {}
        Some(meter) => drop(meter.close(at, 0, Cause::Ended)),
    }
}

/// Spends meters that give no CDRs.
pub fn give_up_meters(meters: List<Meter>, at: Moment) {
    let mut meters = meters;
    'meters: while let Some(meter) = meters.pop_first() {
        give_up_meter(Some(meter), at);
    }
    meters.destroy_empty();
}

impl Call {
    /// Sets the phase of the call. The phase before is `Over`, in which nothing is left to be spent.
    pub fn put_phase(&mut self, phase: Phase)
        requires { self.old.phase ≡ Over HasEnded }
        ensures { self.new ≡ record self.old { phase = phase } }
    {
        match mem::replace(&mut self.phase, phase) {
            Phase::Over(_) => {}
            _ => unreachable!(),
        }
    }

    /// Adds a meter to those of past parts. It is spent, also where memory runs out.
    pub fn keep_meter(
        &mut self,
        step: &StepContext<'_>,
        meter: Option<Meter>,
    ) -> Result<(), NoMemory>
        ensures kept { OnOk result (self.new ≡ with_past meter self.old) }
        ensures refused { OnErr result (self.new ≡ self.old) }
    {
        match meter {
            None => Ok(()),
            Some(meter) => match self.past.push(step.alloc, meter) {
                Ok(()) => Ok(()),
                Err((meter, error)) => {
                    give_up_meter(Some(meter), step.snapshot.at);
                    Err(error)
                }
            },
        }
    }

    /// Ends the call, whose legs have left: files the CDRs of their meters and of those of past parts. All are spent.
    pub fn close(
        &mut self,
        alloc: Global,
        at: Moment,
        cause: Cause,
        first: Option<Meter>,
        last: Option<Meter>,
        output: &mut StepOutput,
    ) -> Result<(), NoMemory>
        requires { self.old.phase ≡ Over HasEnded }
        ensures call { self.new ≡ (call_end at cause first last self.old output.old).call }
        ensures output { OnOk result (output.new ≡ (call_end at cause first last self.old output.old).output) }
    {
        let end = Ending {
            answered: self.answered,
            at,
            holds: self.hold.holds,
            cause: cause_by(self.answered, cause),
        };
        let past = mem::replace(&mut self.past, List::new());
        drop(mem::replace(&mut self.relayed, List::new()));
        self.put_phase(Phase::Over(end.cause));
        append_charging_records(alloc, &mut output.rows, past, first, last, &end)
    }
}
