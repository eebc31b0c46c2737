//! The legs of a call: that of an attempt, and those of both sides once it was answered.
ghost use Rattle.std.specs.Prelude.{◌≡◌, ◌||◌, ◌==◌, true, None, Some, length, if◌then◌else◌, IfOk, OnErr, OnOk};
ghost use Rattle.std.specs.Option.{option_copied};
ghost use Rattle.mmtel_output.specs.Outputs.{token};
ghost use Rattle.mmtel_output.specs.Sending.{with_relayed_request};
ghost use Rattle.mmtel_leg.specs.Dialogues.{with_remote};
ghost use Rattle.mmtel_leg.specs.Legs.{with_dialogue};
ghost use Rattle.mmtel_leg.specs.Remotes.{remote_of, tag_in};
ghost use Rattle.mmtel_types.specs.declared.sides.Side.TheVariants.{Callee};
ghost use Rattle.mmtel_call.specs.RelayedTransactions.{invite_sent_in, leg_after_request};
ghost use Rattle.mmtel_call.specs.Requests.{leg_after_receiving, request_check};
ghost use Rattle.mmtel_call.specs.Ringing.{early_remote_of, leg_with_remote, to_tag_of};

use crate::calls::{AttemptLeg, AttemptLegState, EstablishedLegs, OfferedAttempt};
use crate::closing::give_up_meter;
use crate::context::StepContext;
use crate::relayed_transactions::relay_to_leg;
use mmtel_base::{List, NoMemory, Text};
use mmtel_charging::Meter;
use mmtel_compose::{ReceivedMessage, callee_remote};
use mmtel_leg::{
    CalleeLeg, CallerLeg, Dialogue, DialogueFault, Ended, InFlight, LegOf, Remote, Standing,
};
use mmtel_message::Line;
use mmtel_output::{SentInvite, StepOutput};
use mmtel_types::{Moment, Peer, Side};
use std::alloc::Global;

/// Records the CSeq number of a request of a side, or refuses it.
#[tactic(auto, unfolding(mmtel_leg::specs::Dialogues::number_in))]
pub fn receive<P, S>(
    leg: &mut LegOf<P, S>,
    request: &ReceivedMessage,
    busy: InFlight,
) -> Result<(), DialogueFault>
    ensures check { result ≡ request_check leg.old request.now busy }
    ensures received { OnOk result (leg.new ≡ leg_after_receiving leg.old request.now) }
    ensures refused { OnErr result (leg.new ≡ leg.old) }
{
    leg.heard(&request.message, busy)
}

/// The callee's tag in a response.
pub fn tag_of_response(alloc: Global, response: &ReceivedMessage) -> Result<Text, NoMemory>
    ensures { IfOk result (λ tag. tag ≡ to_tag_of response.now) }
{
    let Remote {
        tag,
        target,
        routes,
    } = callee_remote(alloc, response)?;
    drop(target);
    drop(routes);
    Ok(tag)
}

/// The remote side in a response of the callee, and a copy of its tag.
pub fn remote_with_tag(
    alloc: Global,
    response: &ReceivedMessage,
) -> Result<(Remote, Text), NoMemory>
    ensures remote { IfOk result (λ r. r.0 ≡ remote_of Callee response.now.parsed.lines) }
    ensures tag { IfOk result (λ r. r.1 ≡ to_tag_of response.now) }
{
    let remote = callee_remote(alloc, response)?;
    match remote.tag.copied(alloc) {
        Err(error) => {
            drop(remote);
            Err(error)
        }
        Ok(tag) => Ok((remote, tag)),
    }
}

impl AttemptLeg {
    /// Whether a response established an early dialog.
    pub fn is_early(&self) -> bool
        ensures { result ≡ self.now.is_early }
    {
        match &self.leg {
            AttemptLegState::Asked(_) => false,
            AttemptLegState::Early(_) => true,
        }
    }

    /// The leg's dialog.
    fn dialogue(&self) -> &Dialogue
        ensures { result.now ≡ self.now.leg.dialogue }
    {
        match &self.leg {
            AttemptLegState::Asked(leg) => leg.dialogue(),
            AttemptLegState::Early(leg) => leg.dialogue(),
        }
    }

    /// The peer of the leg.
    pub fn peer(&self) -> Peer
        ensures { result ≡ self.now.leg.dialogue.peer }
    {
        self.dialogue().peer
    }

    /// The callee's tag in the early dialog, if there is one.
    pub fn early_tag(&self) -> Option<&[u8]>
        ensures { option_copied result ≡ (if self.now.is_early then Some self.now.leg.dialogue.remote_tag else None) }
    {
        if !self.is_early() {
            return None;
        }
        Some(self.dialogue().remote_tag.bytes())
    }

    /// Sends to the callee a request of the caller within the early dialog, with these header fields. Returns it as it was sent.
    pub fn relay_early_request(
        &mut self,
        step: &StepContext<'_>,
        method: &[u8],
        lines: &List<Line>,
        message: &ReceivedMessage,
        output: &mut StepOutput,
    ) -> Result<SentInvite, NoMemory>
        requires { self.old.is_early ≡ true }
        ensures done { OnOk result (output.new
            ≡ with_relayed_request step.now.config.now.sip method.now self.old.leg.dialogue lines.now message.now.parsed output.old) }
        ensures sent { IfOk result (λ i. i
            ≡ invite_sent_in (leg_after_request method.now self.old.leg).dialogue (token output.old)) }
        ensures requested { OnOk result (self.new ≡ record self.old { leg = leg_after_request method.now self.old.leg }) }
        ensures meter { self.new.leg.meter ≡ self.old.leg.meter }
    {
        match &mut self.leg {
            AttemptLegState::Early(leg) => relay_to_leg(step, method, leg, lines, message, output),
            AttemptLegState::Asked(_) => unreachable!(),
        }
    }

    /// The remote side in a response that establishes the early dialog.
    pub fn early_remote(
        &self,
        alloc: Global,
        response: &ReceivedMessage,
    ) -> Result<Option<Remote>, NoMemory>
        ensures { IfOk result (λ r. r ≡ early_remote_of self.now response.now) }
    {
        let remote = callee_remote(alloc, response)?;
        if self.is_early() || remote.tag.bytes().is_empty() {
            drop(remote);
            return Ok(None);
        }
        Ok(Some(remote))
    }

    /// The leg with the early dialog, if there now is one.
    pub fn with_remote(self, remote: Option<Remote>) -> AttemptLeg
        requires { self.is_early ≡ true → remote ≡ None }
        ensures { result ≡ leg_with_remote remote self }
    {
        let AttemptLeg { leg } = self;
        match leg {
            AttemptLegState::Asked(leg) => match remote {
                None => AttemptLeg {
                    leg: AttemptLegState::Asked(leg),
                },
                Some(remote) => AttemptLeg {
                    leg: AttemptLegState::Early(leg.early(remote)),
                },
            },
            AttemptLegState::Early(leg) => match remote {
                None => AttemptLeg {
                    leg: AttemptLegState::Early(leg),
                },
                Some(_) => unreachable!(),
            },
        }
    }

    /// The leg after its dialog was confirmed.
    pub fn confirm(self, remote: Remote) -> CalleeLeg<Standing>
        ensures { result ≡ with_dialogue self.leg (with_remote self.leg.dialogue remote) }
    {
        let AttemptLeg { leg } = self;
        match leg {
            AttemptLegState::Asked(leg) => leg.stand(remote),
            AttemptLegState::Early(leg) => leg.stand(remote),
        }
    }

    /// Records the CSeq number of a request of the callee, or refuses it.
    pub fn receive(
        &mut self,
        request: &ReceivedMessage,
        busy: InFlight,
    ) -> Result<(), DialogueFault>
        ensures check { result ≡ request_check self.old.leg request.now busy }
        ensures received { OnOk result (self.new ≡ record self.old { leg = leg_after_receiving self.old.leg request.now }) }
        ensures refused { OnErr result (self.new ≡ self.old) }
    {
        match &mut self.leg {
            AttemptLegState::Asked(leg) => receive(leg, request, busy),
            AttemptLegState::Early(leg) => receive(leg, request, busy),
        }
    }

    /// Ends the leg, and returns its meter.
    pub fn leave(self) -> Option<Meter>
        ensures { result ≡ self.leg.meter }
    {
        let AttemptLeg { leg } = self;
        match leg {
            AttemptLegState::Asked(leg) => {
                let Ended { meter } = leg.leave();
                meter
            }
            AttemptLegState::Early(leg) => {
                let Ended { meter } = leg.leave();
                meter
            }
        }
    }
}

/// Spends the caller's leg of a call that is given up.
pub fn give_up_caller(caller: CallerLeg<Standing>, at: Moment) {
    let Ended { meter } = caller.leave();
    give_up_meter(meter, at);
}

impl OfferedAttempt {
    /// Spends both legs of a call that is given up.
    pub fn give_up(self, at: Moment) {
        let OfferedAttempt {
            caller,
            callee,
            attempt,
        } = self;
        drop(attempt);
        give_up_caller(caller, at);
        give_up_meter(callee.leave(), at);
    }
}

impl EstablishedLegs {
    /// Spends both legs of a call that is given up.
    pub fn give_up(self, at: Moment) {
        let EstablishedLegs {
            caller,
            callee,
            service,
        } = self;
        drop(service);
        give_up_caller(caller, at);
        let Ended { meter } = callee.leave();
        give_up_meter(meter, at);
    }
}
