//! NOTIFY to a participant (RFC 3515 §2.4.4).
ghost use Rattle.std.specs.Prelude.{◌≡◌, OnOk};
ghost use Rattle.mmtel_participants.specs.Participants.{leg_after_notify, party_after_notify, with_notify, with_notify_to_party};

use crate::conference_config::StepContext;
use crate::participants::Party;
use crate::texts::{notify_lines, sipfrag};
use mmtel_base::NoMemory;
use mmtel_leg::{LegOf, Standing};
use mmtel_output::StepOutput;
use mmtel_types::RoomNo;

/// Notifies the other side of a leg of the progress of its REFER.
fn notify<P>(
    step: &StepContext<'_>,
    room: RoomNo,
    is_active: bool,
    status_line: &[u8],
    leg: &mut LegOf<P, Standing>,
    output: &mut StepOutput,
) -> Result<(), NoMemory>
    ensures leg { OnOk result (leg.new ≡ leg_after_notify leg.old) }
    ensures output { OnOk result (output.new ≡ with_notify step.now.config room is_active status_line.now leg.old output.old) }
{
    let lines = notify_lines(step.alloc, step.config.sip, room, is_active)?;
    let body = sipfrag(step.alloc, status_line)?;
    output.send_own_request(
        step.alloc,
        step.config.sip,
        b"NOTIFY",
        leg,
        &lines,
        body.bytes(),
    )?;
    Ok(())
}

impl Party {
    /// Notifies a connected party of a status line, of a request that is in progress or has ended.
    ///
    /// # Errors
    ///
    /// Out of memory only; nothing is claimed of the participant and of the output then.
    pub fn notify(
        &mut self,
        step: &StepContext<'_>,
        room: RoomNo,
        is_active: bool,
        status_line: &[u8],
        output: &mut StepOutput,
    ) -> Result<(), NoMemory>
        ensures party { OnOk result (self.new ≡ party_after_notify self.old) }
        ensures output { OnOk result (output.new ≡ with_notify_to_party step.now.config room is_active status_line.now self.old output.old) }
    {
        match self {
            Party::Invited(_) => Ok(()),
            Party::DialedIn(leg) => notify(step, room, is_active, status_line, leg, output),
            Party::DialedOut(leg) => notify(step, room, is_active, status_line, leg, output),
        }
    }
}
