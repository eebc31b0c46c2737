//! How a call opens.
ghost use Rattle.std.specs.Prelude.{◌≡◌, IfOk, OnOk};
ghost use Rattle.std.specs.Option.{unwrap_or};
ghost use Rattle.mmtel_compose.specs.ReceivedMessages.{number_of};
ghost use Rattle.mmtel_reliable.specs.Acks.{no_responses};
ghost use Rattle.mmtel_types.specs.declared.causes.Cause.TheVariants.{Ended as HasEnded};
ghost use Rattle.mmtel_call_services.specs.Opening.{initial_target, opening_refusal};
ghost use Rattle.mmtel_call_services.specs.CallConfig.{snapshot_of};
ghost use Rattle.mmtel_call.specs.Calls.{Over};
ghost use Rattle.mmtel_call.specs.Sending.{with_status_to_caller};
ghost use Rattle.mmtel_call.specs.Opening.{call_after_opening, caller_of, new_call, opening_step, unless_refused};

use crate::calls::{Call, Phase};
use crate::closing::{give_up_meter, give_up_meters, meter_of};
use crate::context::StepContext;
use mmtel_base::{List, NoMemory};
use mmtel_call_services::{Arrival, CallConfig, Diversions, Opening, Snapshot, opening_of};
use mmtel_charging::Kind;
use mmtel_compose::number_of;
use mmtel_leg::{CallerLeg, Standing};
use mmtel_output::StepOutput;
use mmtel_reliable::Acks;
use mmtel_served_user::Target;
use mmtel_types::{Cause, Moment};
use mmtel_waiting::HoldState;
use std::alloc::Global;

/// No reliable response was relayed to the INVITE that opens a call.
fn no_acks(alloc: Global, opening: &Opening) -> Result<Acks, NoMemory>
    ensures { IfOk result (λ acks. acks ≡ no_responses (unwrap_or (number_of opening.now.invite) 0)) }
{
    Acks::new(alloc, number_of(&opening.invite).unwrap_or(0))
}

/// A call in a block of its own on the heap, so that nothing large is moved afterwards.
fn boxed(step: &StepContext<'_>, call: Call) -> Result<Box<Call>, NoMemory>
    ensures { IfOk result (λ b. b.value ≡ call) }
{
    match Box::new(step.alloc, call) {
        Ok(boxed) => Ok(boxed),
        Err(refused) => {
            refused.value.give_up(step.snapshot.at);
            Err(NoMemory)
        }
    }
}

/// The first target of a call, and its diversions as it opens.
fn initial_target_of(
    step: &StepContext<'_>,
    opening: &Opening,
) -> Result<(Target, Diversions), NoMemory>
    ensures target { IfOk result (λ r. r.0 ≡ initial_target opening.now) }
    ensures diversions { IfOk result (λ r. r.1 ≡ (new_call step.now.config.now opening.now).diversions) }
{
    let target = opening.initial_target(step.alloc)?;
    match opening.initial_diversions(step.alloc, step.config) {
        Err(error) => {
            drop(target);
            Err(error)
        }
        Ok(diversions) => Ok((target, diversions)),
    }
}

impl Phase {
    /// Spends the legs of a call that is given up.
    fn give_up(self, at: Moment) {
        match self {
            Phase::Offered(trial) => trial.give_up(at),
            Phase::Established(pair, stage) => {
                drop(stage);
                pair.give_up(at);
            }
            Phase::Detached(detached) => detached.give_up(at),
            Phase::Over(_) => {}
        }
    }
}

impl Call {
    /// A call as it opens.
    fn new(config: &CallConfig<'_>, opening: Opening, diversions: Diversions, acks: Acks) -> Call
        requires diversions { diversions ≡ (new_call config.now opening).diversions }
        requires acks { acks ≡ (new_call config.now opening).acks }
        ensures { result ≡ new_call config.now opening }
    {
        Call {
            opening,
            diversions,
            hold: HoldState {
                caller: false,
                callee: false,
                holds: 0,
            },
            answered: None,
            attempts: 0,
            successes: 0,
            acks,
            relayed: List::new(),
            past: List::new(),
            abandoned: List::new(),
            answered_invites: List::new(),
            phase: Phase::Over(Cause::Ended),
        }
    }

    /// The caller's leg, with the meter of the account that is served as the caller.
    fn open_caller(&self, step: &StepContext<'_>) -> Result<CallerLeg<Standing>, NoMemory>
        ensures { IfOk result (λ leg. leg ≡ caller_of step.now.snapshot.at self.now) }
    {
        let opening = &self.opening;
        let tag = opening.tag.copied(step.alloc)?;
        let meter = meter_of(Kind::Origin, self, step.snapshot.at, opening.served.origin);
        let invite = &opening.invite;
        match CallerLeg::open(step.alloc, invite.peer, &invite.message, tag, meter) {
            Ok(leg) => Ok(leg),
            Err((meter, error)) => {
                give_up_meter(meter, step.snapshot.at);
                Err(error)
            }
        }
    }

    /// The call reaches its first target, unless this cause refuses it.
    fn reach_unless_refused(
        &mut self,
        step: &StepContext<'_>,
        caller: CallerLeg<Standing>,
        refusal: Option<Cause>,
        target: Target,
        output: &mut StepOutput,
    ) -> Result<(), NoMemory>
        requires phase { self.old.phase ≡ Over HasEnded }
        requires target { target ≡ initial_target self.old.opening }
        ensures call { OnOk result (self.new
            ≡ (unless_refused refusal step.now.config.now (snapshot_of step.now.snapshot) caller self.old output.old).call) }
        ensures output { OnOk result (output.new
            ≡ (unless_refused refusal step.now.config.now (snapshot_of step.now.snapshot) caller self.old output.old).output) }
    {
        match refusal {
            None => self.reach_target(step, caller, None, target, output),
            Some(cause) => {
                drop(target);
                self.refuse(step, caller, cause, output)
            }
        }
    }

    /// Sends 100 to the caller and makes the caller's leg. Returns the cause that refuses the call, if any, and that leg.
    fn send_trying(
        &self,
        step: &StepContext<'_>,
        target: &Target,
        output: &mut StepOutput,
    ) -> Result<(Option<Cause>, CallerLeg<Standing>), NoMemory>
        requires { target.now ≡ initial_target self.now.opening }
        ensures refusal { IfOk result (λ r. r.0
            ≡ opening_refusal step.now.config.now step.now.snapshot.at self.now.opening) }
        ensures caller { IfOk result (λ r. r.1 ≡ caller_of step.now.snapshot.at self.now) }
        ensures output { OnOk result (output.new ≡ with_status_to_caller step.now.config.now self.now 100 output.old) }
    {
        let refusal = self
            .opening
            .opening_refusal(step.alloc, step.config, step.snapshot.at, target)?;
        self.respond_to_caller(step, 100, output)?;
        let caller = self.open_caller(step)?;
        Ok((refusal, caller))
    }

    /// Sends 100 to the caller, and the call reaches its first target or is refused.
    fn begin(
        &mut self,
        step: &StepContext<'_>,
        target: Target,
        output: &mut StepOutput,
    ) -> Result<(), NoMemory>
        requires phase { self.old.phase ≡ Over HasEnded }
        requires target { target ≡ initial_target self.old.opening }
        ensures call { OnOk result (self.new
            ≡ (opening_step step.now.config.now (snapshot_of step.now.snapshot) self.old output.old).call) }
        ensures output { OnOk result (output.new
            ≡ (opening_step step.now.config.now (snapshot_of step.now.snapshot) self.old output.old).output) }
    {
        match self.send_trying(step, &target, output) {
            Err(error) => {
                drop(target);
                Err(error)
            }
            Ok((refusal, caller)) => {
                self.reach_unless_refused(step, caller, refusal, target, output)
            }
        }
    }

    /// Spends the call: its legs and its meters give no CDRs.
    pub fn give_up(self, at: Moment) {
        let Call {
            opening,
            diversions,
            hold: _,
            answered: _,
            attempts: _,
            successes: _,
            acks,
            relayed: flights,
            past,
            abandoned: abandoned_invites,
            answered_invites: answered,
            phase,
        } = self;
        drop(opening);
        drop(diversions);
        drop(acks);
        drop(flights);
        drop(abandoned_invites);
        drop(answered);
        phase.give_up(at);
        give_up_meters(past, at);
    }

    /// Opens the call of this opening, where no reliable response was relayed to its INVITE.
    fn open_with(
        step: &StepContext<'_>,
        opening: Opening,
        acks: Acks,
        output: &mut StepOutput,
    ) -> Result<Box<Call>, NoMemory>
        requires { acks ≡ (new_call step.now.config.now opening).acks }
        ensures call { IfOk result (λ c. c.value
            ≡ (opening_step step.now.config.now (snapshot_of step.now.snapshot) (new_call step.now.config.now opening)
            output.old).call) }
        ensures output { OnOk result (output.new
            ≡ (opening_step step.now.config.now (snapshot_of step.now.snapshot) (new_call step.now.config.now opening)
            output.old).output) }
    {
        match initial_target_of(step, &opening) {
            Err(error) => {
                drop(acks);
                drop(opening);
                Err(error)
            }
            Ok((target, diversions)) => {
                let mut call = Call::new(step.config, opening, diversions, acks);
                match call.begin(step, target, output) {
                    Ok(()) => Ok(boxed(step, call)?),
                    Err(error) => {
                        call.give_up(step.snapshot.at);
                        Err(error)
                    }
                }
            }
        }
    }

    /// Opens the call of this opening.
    fn open_by(
        step: &StepContext<'_>,
        opening: Opening,
        output: &mut StepOutput,
    ) -> Result<Box<Call>, NoMemory>
        ensures call { IfOk result (λ c. c.value
            ≡ (opening_step step.now.config.now (snapshot_of step.now.snapshot) (new_call step.now.config.now opening)
            output.old).call) }
        ensures output { OnOk result (output.new
            ≡ (opening_step step.now.config.now (snapshot_of step.now.snapshot) (new_call step.now.config.now opening)
            output.old).output) }
    {
        match no_acks(step.alloc, &opening) {
            Err(error) => {
                drop(opening);
                Err(error)
            }
            Ok(acks) => Call::open_with(step, opening, acks, output),
        }
    }

    /// Opens a call (RFC 3261 §12.1.1), which is returned in a block of its own on the heap: the caller's leg is made, and the INVITE is sent to its first target, or to the one to
    /// which the call is diverted; or the call is refused.
    ///
    /// # Errors
    ///
    /// Out of memory only; there is no call then, and nothing is claimed of the output.
    #[tactic(auto, unfolding(crate::specs::Opening::call_after_opening))]
    pub fn open(
        alloc: Global,
        config: &CallConfig<'_>,
        snapshot: &Snapshot<'_>,
        arrival: Arrival,
        output: &mut StepOutput,
    ) -> Result<Box<Call>, NoMemory>
        ensures call { IfOk result (λ c. c.value ≡ (call_after_opening config.now (snapshot_of snapshot.now) arrival output.old).call) }
        ensures output { OnOk result (output.new ≡ (call_after_opening config.now (snapshot_of snapshot.now) arrival output.old).output) }
    {
        let step = StepContext::new(alloc, config, snapshot);
        match output.draw(alloc) {
            Err(error) => {
                drop(arrival);
                Err(error)
            }
            Ok(tag) => {
                let opening = opening_of(alloc, config, snapshot, tag, arrival)?;
                Call::open_by(&step, opening, output)
            }
        }
    }
}
