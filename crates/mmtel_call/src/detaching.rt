//! A stable call whose leg is detached, put back, or ended without it.
ghost use Rattle.std.specs.Prelude.{◌≡◌, true, None, Some, MatchResult, OnOk};
ghost use Rattle.mmtel_output.specs.Sending.{with_bye};
ghost use Rattle.mmtel_leg.specs.Releases.{released_leg};
ghost use Rattle.mmtel_types.specs.declared.causes.Cause.TheVariants.{Ended as HasEnded};
ghost use Rattle.mmtel_call.specs.Calls.{Established, Over};
ghost use Rattle.mmtel_call.specs.Detaching.{call_finish, caller_meter_of, detached_at, detached_in, detached_of, finish_of_detached};
ghost use Rattle.mmtel_call.specs.Detaching.{fits, fits_in, is_detached, legs_with, removed_leg, target_meter_of, with_leg_restored};
ghost use Rattle.mmtel_call.specs.Detaching.{removed_leg_at, removed_leg_in, with_meter};

use crate::calls::{Call, DetachedLeg, EstablishedLegs, Phase, Stage};
use crate::closing::give_up_meter;
use mmtel_base::NoMemory;
use mmtel_call_services::CallConfig;
use mmtel_charging::Meter;
use mmtel_leg::{Ended, LegOf, Released};
use mmtel_output::StepOutput;
use mmtel_types::{Cause, Moment, Side};
use std::alloc::Global;
use std::mem;

/// The call is not stable, or a leg of it is detached.
#[derive(Clone, Copy, Debug, PartialEq, Eq)]
pub struct NotTalking;

/// A leg, which has no meter, with this one.
fn with_meter<P, S>(leg: LegOf<P, S>, meter: Option<Meter>) -> LegOf<P, S>
    requires { leg.meter ≡ None }
    ensures { result ≡ with_meter meter leg }
{
    let mut leg = leg;
    match leg.swap_meter(meter) {
        None => {}
        _ => unreachable!(),
    }
    leg
}

impl EstablishedLegs {
    /// Detaches the leg of a side, without its meter.
    fn detach(self, side: Side) -> (Released, DetachedLeg)
        ensures leg { result.0 ≡ removed_leg side self }
        ensures detached { result.1 ≡ detached_of side self }
    {
        let EstablishedLegs {
            caller,
            callee,
            service,
        } = self;
        match side {
            Side::Caller => {
                let mut caller = caller;
                let meter = caller.swap_meter(None);
                let detached_leg = DetachedLeg {
                    remaining: Released::Callee(callee),
                    meter,
                    service,
                };
                (Released::Caller(caller), detached_leg)
            }
            Side::Callee => {
                let mut callee = callee;
                let meter = callee.swap_meter(None);
                let detached_leg = DetachedLeg {
                    remaining: Released::Caller(caller),
                    meter,
                    service,
                };
                (Released::Callee(callee), detached_leg)
            }
        }
    }
}

impl DetachedLeg {
    /// Both legs again.
    fn legs_with(self, removed: Released) -> EstablishedLegs
        requires fits { fits removed self.remaining ≡ true }
        requires meter { (released_leg removed).meter ≡ None }
        ensures { result ≡ legs_with removed self }
    {
        let DetachedLeg {
            remaining: left,
            meter,
            service,
        } = self;
        match removed {
            Released::Caller(caller) => match left {
                Released::Callee(callee) => EstablishedLegs {
                    caller: with_meter(caller, meter),
                    callee,
                    service,
                },
                _ => unreachable!(),
            },
            Released::Callee(callee) => match left {
                Released::Caller(caller) => EstablishedLegs {
                    caller,
                    callee: with_meter(callee, meter),
                    service,
                },
                _ => unreachable!(),
            },
        }
    }

    /// Ends the remaining leg, and returns the meters of the caller's leg and of the target's.
    pub fn leave(self) -> (Option<Meter>, Option<Meter>)
        ensures first { result.0 ≡ caller_meter_of self.remaining self.meter }
        ensures last { result.1 ≡ target_meter_of self.remaining self.meter }
    {
        let DetachedLeg {
            remaining: left,
            meter,
            service,
        } = self;
        drop(service);
        match left {
            Released::Caller(leg) => {
                let Ended { meter: first } = leg.leave();
                (first, meter)
            }
            Released::Callee(leg) => {
                let Ended { meter: last } = leg.leave();
                (meter, last)
            }
        }
    }
}

impl DetachedLeg {
    /// Spends the remaining leg of a call that is given up.
    pub fn give_up(self, at: Moment) {
        let (first, last) = self.leave();
        give_up_meter(first, at);
        give_up_meter(last, at);
    }
}

/// BYE to the remaining leg.
fn bye_to_remaining(
    alloc: Global,
    config: &CallConfig<'_>,
    detached: &mut DetachedLeg,
    output: &mut StepOutput,
) -> Result<(), NoMemory>
    ensures done { OnOk result (output.new ≡ with_bye config.now.sip (released_leg detached.old.remaining).dialogue output.old) }
    ensures first { caller_meter_of detached.new.remaining detached.new.meter ≡ caller_meter_of detached.old.remaining detached.old.meter }
    ensures last { target_meter_of detached.new.remaining detached.new.meter ≡ target_meter_of detached.old.remaining detached.old.meter }
{
    match &mut detached.remaining {
        Released::Caller(leg) => output.send_bye(alloc, config.sip, leg),
        Released::Callee(leg) => output.send_bye(alloc, config.sip, leg),
    }
}

impl Call {
    /// Detaches the leg of a side from a stable call; its meter stays with the call (RFC 4579 §5.6).
    ///
    /// # Errors
    ///
    /// `NotTalking` exactly if the call is not stable, or a leg of it is detached; the call is then as before.
    pub fn release(&mut self, side: Side) -> Result<Released, NotTalking>
        ensures call { self.new ≡ detached_in self.old.phase side self.old }
        ensures leg { MatchResult result (λ leg. removed_leg_in self.old.phase side ≡ Some leg)
            (λ refused. removed_leg_in self.old.phase side ≡ None) }
    {
        match mem::replace(&mut self.phase, Phase::Over(Cause::Ended)) {
            Phase::Established(x, stage) => self.release_at(side, x, stage),
            Phase::Offered(x) => {
                self.put_phase(Phase::Offered(x));
                Err(NotTalking)
            }
            Phase::Detached(detached) => {
                self.put_phase(Phase::Detached(detached));
                Err(NotTalking)
            }
            Phase::Over(cause) => {
                self.put_phase(Phase::Over(cause));
                Err(NotTalking)
            }
        }
    }

    /// The same for an answered call.
    fn release_at(
        &mut self,
        side: Side,
        legs: EstablishedLegs,
        stage: Stage,
    ) -> Result<Released, NotTalking>
        requires { self.old.phase ≡ Over HasEnded }
        ensures call { self.new ≡ detached_at stage side legs (record self.old { phase = Established legs stage }) }
        ensures leg { MatchResult result (λ leg. removed_leg_at stage side legs ≡ Some leg)
            (λ refused. removed_leg_at stage side legs ≡ None) }
    {
        match stage {
            Stage::Stable => {
                let (away, detached) = legs.detach(side);
                self.put_phase(Phase::Detached(detached));
                Ok(away)
            }
            Stage::Answered(waiting, success) => {
                self.put_phase(Phase::Established(legs, Stage::Answered(waiting, success)));
                Err(NotTalking)
            }
            Stage::Departing(waiting, success) => {
                self.put_phase(Phase::Established(legs, Stage::Departing(waiting, success)));
                Err(NotTalking)
            }
            Stage::Reinviting(asking, q) => {
                self.put_phase(Phase::Established(legs, Stage::Reinviting(asking, q)));
                Err(NotTalking)
            }
        }
    }

    /// Puts a detached leg back: the call is stable again.
    pub fn restore(&mut self, removed: Released)
        requires fits { fits_in self.old.phase removed ≡ true }
        requires meter { (released_leg removed).meter ≡ None }
        ensures { self.new ≡ with_leg_restored self.old.phase removed self.old }
    {
        match mem::replace(&mut self.phase, Phase::Over(Cause::Ended)) {
            Phase::Detached(detached) => {
                let x = detached.legs_with(removed);
                self.put_phase(Phase::Established(x, Stage::Stable));
            }
            _ => unreachable!(),
        }
    }

    /// Ends a call whose leg is detached: requests in flight get their final responses (RFC 3262 §3, RFC 3311 §5.2), a BYE is sent to the remaining leg, and its CDRs are filed.
    ///
    /// # Errors
    ///
    /// Out of memory only; nothing is claimed of the call and the output then, except that the call can be given up.
    #[tactic(auto, unfolding(crate::specs::Detaching::call_finish))]
    pub fn finish(
        &mut self,
        alloc: Global,
        config: &CallConfig<'_>,
        at: Moment,
        output: &mut StepOutput,
    ) -> Result<(), NoMemory>
        requires { is_detached self.old.phase ≡ true }
        ensures call { OnOk result (self.new ≡ (call_finish config.now at self.old output.old).call) }
        ensures output { OnOk result (output.new ≡ (call_finish config.now at self.old output.old).output) }
    {
        self.dismiss(alloc, config, output)?;
        match mem::replace(&mut self.phase, Phase::Over(Cause::Ended)) {
            Phase::Detached(detached) => self.end_detached(alloc, config, at, detached, output),
            _ => unreachable!(),
        }
    }

    /// The call ends with the remaining leg.
    fn end_detached(
        &mut self,
        alloc: Global,
        config: &CallConfig<'_>,
        at: Moment,
        detached: DetachedLeg,
        output: &mut StepOutput,
    ) -> Result<(), NoMemory>
        requires { self.old.phase ≡ Over HasEnded }
        ensures call { OnOk result (self.new ≡ (finish_of_detached config.now at detached self.old output.old).call) }
        ensures output { OnOk result (output.new ≡ (finish_of_detached config.now at detached self.old output.old).output) }
    {
        let mut detached = detached;
        let sent = bye_to_remaining(alloc, config, &mut detached, output);
        let (first, last) = detached.leave();
        let closed = self.close(alloc, at, Cause::Ended, first, last, output);
        sent?;
        closed
    }
}
