//! How a participant leaves.
ghost use Rattle.std.specs.Prelude.{◌≡◌, ◌++◌, IfOk, OnOk, codes, true};
ghost use Rattle.mmtel_output.specs.Sending.{with_bye};
ghost use Rattle.mmtel_leg.specs.Dialogues.{after_request};
ghost use Rattle.mmtel_leg.specs.Legs.{with_dialogue};
ghost use Rattle.mmtel_participants.specs.Participants.{abandoned_of_invite, abandoned_of_party, effects_of_dismissal, effects_of_leave};
ghost use Rattle.mmtel_participants.specs.Participants.{ended_dialogs, ended_leg, is_party_connected, leg_of, with_leg, with_row_of_meter};

use crate::conference_config::StepContext;
use crate::effects::Effects;
use crate::participants::{Invite, ParticipantState, Party};
use mmtel_base::{List, NoMemory};
use mmtel_charging::Meter;
use mmtel_leg::{Dialogue, Ended};
use mmtel_output::{AbandonedInvite, SentInvite, StepOutput, push_item};
use mmtel_types::{Cause, Moment};
use std::alloc::Global;

/// The dialog, where the server sent BYE in it.
fn ended_dialogs(
    alloc: Global,
    had_bye: bool,
    dialogue: &Dialogue,
) -> Result<List<Dialogue>, NoMemory>
    ensures { IfOk result (λ ds. ds ≡ ended_dialogs had_bye dialogue.now) }
{
    if !had_bye {
        return Ok(List::new());
    }
    let dialogue = dialogue.copied(alloc)?;
    let mut ended = List::new();
    match push_item(alloc, &mut ended, dialogue) {
        Ok(()) => Ok(ended),
        Err(error) => {
            drop(ended);
            Err(error)
        }
    }
}

/// An INVITE ends with the dialog in which it was sent.
fn end_dialog_of_invite(
    alloc: Global,
    had_bye: bool,
    dialogue: &Dialogue,
    sent_invite: &mut SentInvite,
) -> Result<(), NoMemory>
    ensures { OnOk result (sent_invite.new
        ≡ record sent_invite.old { dialogue = dialogue.now; forks = ended_dialogs had_bye dialogue.now }) }
{
    sent_invite.forks = ended_dialogs(alloc, had_bye, dialogue)?;
    sent_invite.dialogue = dialogue.copied(alloc)?;
    Ok(())
}

/// An INVITE in a confirmed dialog, abandoned without a final response.
fn abandoned_in_dialog(
    alloc: Global,
    had_bye: bool,
    dialogue: &Dialogue,
    sent_invite: SentInvite,
) -> Result<AbandonedInvite, NoMemory>
    ensures { IfOk result (λ l. l
        ≡ record { invite = record sent_invite { dialogue = dialogue.now; forks = ended_dialogs had_bye dialogue.now }; in_dialog = true }) }
{
    let mut sent_invite = sent_invite;
    match end_dialog_of_invite(alloc, had_bye, dialogue, &mut sent_invite) {
        Ok(()) => Ok(AbandonedInvite {
            invite: sent_invite,
            in_dialog: true,
        }),
        Err(error) => {
            drop(sent_invite);
            Err(error)
        }
    }
}

fn abandoned_of_party(
    alloc: Global,
    had_bye: bool,
    party: &Party,
    sent_invite: SentInvite,
) -> Result<AbandonedInvite, NoMemory>
    ensures { IfOk result (λ l. l ≡ abandoned_of_party had_bye party.now sent_invite) }
{
    match party {
        Party::Invited(_) => Ok(AbandonedInvite {
            invite: sent_invite,
            in_dialog: false,
        }),
        Party::DialedIn(leg) => abandoned_in_dialog(alloc, had_bye, leg.dialogue(), sent_invite),
        Party::DialedOut(leg) => abandoned_in_dialog(alloc, had_bye, leg.dialogue(), sent_invite),
    }
}

/// Keeps the INVITE of a participant that leaves as abandoned, where it has no final response.
#[tactic(auto, using(crate::proofs::EmptyAppends::and_nothing))]
fn abandon(
    alloc: Global,
    had_bye: bool,
    party: &Party,
    invite: Option<Invite>,
    abandoned: &mut List<AbandonedInvite>,
) -> Result<(), NoMemory>
    ensures { OnOk result (abandoned.new ≡ abandoned.old ++ abandoned_of_invite had_bye party.now invite) }
{
    match invite {
        None => Ok(()),
        Some(Invite::Accepted(_, _, _)) => Ok(()),
        Some(Invite::Outstanding(_, sent_invite)) => {
            let one = abandoned_of_party(alloc, had_bye, party, sent_invite)?;
            push_item(alloc, abandoned, one)
        }
    }
}

/// Files the CDR of a participant.
fn file_row(
    alloc: Global,
    now: Moment,
    meter: Option<Meter>,
    output: &mut StepOutput,
) -> Result<(), NoMemory>
    ensures { OnOk result (output.new ≡ with_row_of_meter now meter output.old) }
{
    match meter {
        None => Ok(()),
        Some(meter) => push_item(alloc, &mut output.rows, meter.close(now, 0, Cause::Ended)),
    }
}

impl Party {
    /// Sends BYE to a connected party.
    fn bye(&mut self, step: &StepContext<'_>, output: &mut StepOutput) -> Result<(), NoMemory>
        requires { is_party_connected self.old ≡ true }
        ensures party { OnOk result (self.new
            ≡ with_leg (with_dialogue (leg_of self.old) (after_request (leg_of self.old).dialogue (codes "BYE"))) self.old) }
        ensures output { OnOk result (output.new ≡ with_bye step.now.config.sip (leg_of self.old).dialogue output.old) }
    {
        match self {
            Party::Invited(_) => unreachable!(),
            Party::DialedIn(leg) => output.send_bare_request(
                step.alloc,
                step.config.sip,
                b"BYE",
                leg,
            ),
            Party::DialedOut(leg) => output.send_bare_request(
                step.alloc,
                step.config.sip,
                b"BYE",
                leg,
            ),
        }
    }
}

impl ParticipantState {
    /// The participant leaves: its INVITE without a final response is abandoned, and its CDR is filed. All is spent, also where memory runs out.
    pub fn leave(
        self,
        alloc: Global,
        now: Moment,
        had_bye: bool,
        effects: &mut Effects,
    ) -> Result<(), NoMemory>
        ensures effects { OnOk result (effects.new ≡ effects_of_leave now had_bye self effects.old) }
    {
        let ParticipantState {
            number: _,
            by: _,
            account: _,
            pending_ack: _,
            invite,
            party,
        } = self;
        let loosened = abandon(alloc, had_bye, &party, invite, &mut effects.abandoned);
        let Ended { meter } = party.leave();
        let filed = file_row(alloc, now, meter, &mut effects.output);
        loosened?;
        filed
    }

    /// The participant leaves, and is sent BYE where it is connected. All is spent, also where memory runs out.
    pub fn dismiss(self, step: &StepContext<'_>, effects: &mut Effects) -> Result<(), NoMemory>
        ensures dismissed { OnOk result (effects.new ≡ effects_of_dismissal step.now.config step.now.at self effects.old) }
    {
        let mut seat = self;
        if !seat.is_connected() {
            return seat.leave(step.alloc, step.at, false, effects);
        }
        match seat.party.bye(step, &mut effects.output) {
            Ok(()) => seat.leave(step.alloc, step.at, true, effects),
            Err(error) => {
                seat.give_up(step.at);
                Err(error)
            }
        }
    }

    /// Ends the participant, and returns what remains of its leg.
    pub fn end(self) -> Ended
        ensures ended { result ≡ ended_leg self }
    {
        self.into_party().leave()
    }
}
