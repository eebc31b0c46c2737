//! What of a call's messages is copied to whom.
ghost use Rattle.std.specs.Prelude.{◌≡◌, IfOk};
ghost use Rattle.std.specs.Option.{option_copied};
ghost use Rattle.mmtel_precedence.specs.Views.{due_diversion_view};
ghost use Rattle.mmtel_trust.specs.HeaderTable.{shown_lines};
ghost use Rattle.mmtel_call_services.specs.Decisions.{service_sheet};
ghost use Rattle.mmtel_call_services.specs.CopiedHeaders.{attempt_lines, copied_lines, facing, history_for, masks_all, notification_lines};
ghost use Rattle.mmtel_call_services.specs.CallConfig.{trusts};

use crate::call_config::CallConfig;
use crate::diversions::Diversions;
use crate::openings::{Opening, Service};
use mmtel_base::{List, NoMemory};
use mmtel_compose::{ReceivedMessage, status_of};
use mmtel_history::History;
use mmtel_identity::{callee_restricted, present_to};
use mmtel_message::{Line, Msg};
use mmtel_precedence::DueDiversion;
use mmtel_sheet_values::Sheet;
use mmtel_trust::{Facing, history_lines, shown, wants};
use mmtel_types::{Peer, Side};
use std::alloc::Global;

/// The record of the served account, if there is one.
pub fn service_sheet(service: Option<&Service>) -> Option<&Sheet>
    ensures { option_copied result ≡ service_sheet (option_copied service.entry) }
{
    match service {
        None => None,
        Some(service) => Some(service.sheet.sheet()),
    }
}

impl Opening {
    /// Whether every entry of History-Info is masked for untrusted peers.
    fn masks_all(&self) -> bool
        ensures { result ≡ masks_all self.now }
    {
        wants(&self.invite.message).history
    }

    /// The record of the account that is served as the caller, if there is one.
    pub fn origin_sheet(&self) -> Option<&Sheet>
        ensures { option_copied result ≡ self.now.sheet }
    {
        match &self.sheet {
            None => None,
            Some(sheet) => Some(sheet.sheet()),
        }
    }

    /// The facts that decide what of a side's message is copied to the other side.
    fn facing(&self, service: Option<&Service>, side: Side, message: &ReceivedMessage) -> Facing
        ensures { result ≡ facing self.now (option_copied service.entry) side message.now }
    {
        let from_trusted = message.trusted;
        let mask_all = self.masks_all();
        match side {
            Side::Caller => Facing {
                from_trusted,
                restricted: self.restricted,
                present: present_to(service_sheet(service), Side::Callee),
                mask_all,
                reliable: false,
                timer: false,
            },
            Side::Callee => Facing {
                from_trusted,
                restricted: callee_restricted(&wants(&message.message), service_sheet(service)),
                present: present_to(self.origin_sheet(), Side::Caller),
                mask_all,
                reliable: false,
                timer: false,
            },
        }
    }
}

/// The header fields of a message that are copied, with this list of History-Info.
fn copied_with(
    alloc: Global,
    config: &CallConfig<'_>,
    message: &Msg,
    history: &History,
    facing: &Facing,
    peer: Peer,
) -> Result<List<Line>, NoMemory>
    ensures { IfOk result (λ ls. ls ≡ shown_lines facing.now (trusts config.now peer) history.now message.now.start message.now.lines) }
{
    shown(alloc, message, history, facing, config.peers.trusted(peer))
}

/// The header fields of a side's message that are copied to a peer according to this `Facing`, where the call was diverted in this way.
fn copied_by(
    alloc: Global,
    config: &CallConfig<'_>,
    diversions: &Diversions,
    facing: &Facing,
    peer: Peer,
    message: &ReceivedMessage,
) -> Result<List<Line>, NoMemory>
    ensures { IfOk result (λ ls. ls
        ≡ shown_lines facing.now (trusts config.now peer) (history_for diversions.now message.now) message.now.parsed.start message.now.parsed.lines) }
{
    if status_of(message.message.start()) == 181 {
        let told = diversions.notified_history(alloc)?;
        let shown = copied_with(alloc, config, &message.message, &told, facing, peer);
        drop(told);
        return shown;
    }
    copied_with(
        alloc,
        config,
        &message.message,
        diversions.history(),
        facing,
        peer,
    )
}

impl Opening {
    /// The header fields of a side's message that are copied to a peer (RFC 3325 §5 and §7, RFC 3323 §5.1), where the call was diverted in this way and this account is served at
    /// its target.
    ///
    /// # Errors
    ///
    /// Out of memory only.
    #[tactic(auto, unfolding(crate::specs::CopiedHeaders::copied_lines))]
    pub fn copied_lines(
        &self,
        alloc: Global,
        config: &CallConfig<'_>,
        diversions: &Diversions,
        service: Option<&Service>,
        side: Side,
        peer: Peer,
        message: &ReceivedMessage,
    ) -> Result<List<Line>, NoMemory>
        ensures lines { IfOk result (λ ls. ls ≡ copied_lines config.now self.now diversions.now (option_copied service.entry) side peer message.now) }
    {
        let mut facing = self.facing(service, side, message);
        facing.timer = config.timer;
        copied_by(alloc, config, diversions, &facing, peer, message)
    }

    /// The header fields of the INVITE that opened the call which are copied to the target of an attempt behind a peer: as those of `copied_lines`, except that provisional
    /// responses to this INVITE may be reliable (RFC 3262 §3), and those to an INVITE within the call may not.
    ///
    /// # Errors
    ///
    /// Out of memory only.
    #[tactic(auto, unfolding(crate::specs::CopiedHeaders::attempt_lines))]
    pub fn attempt_lines(
        &self,
        alloc: Global,
        config: &CallConfig<'_>,
        diversions: &Diversions,
        service: Option<&Service>,
        peer: Peer,
    ) -> Result<List<Line>, NoMemory>
        ensures lines { IfOk result (λ ls. ls ≡ attempt_lines config.now self.now diversions.now (option_copied service.entry) peer) }
    {
        let mut facing = self.facing(service, Side::Caller, &self.invite);
        facing.reliable = config.reliable;
        facing.timer = config.timer;
        copied_by(alloc, config, diversions, &facing, peer, &self.invite)
    }

    /// The header fields by which a 181 notifies the caller of the last diversion that was made, if the forward requires that notification (TS 24.604 §4.5.2.6); None otherwise.
    ///
    /// # Errors
    ///
    /// Out of memory only.
    pub fn notification_lines(
        &self,
        alloc: Global,
        config: &CallConfig<'_>,
        diversions: &Diversions,
        due: &DueDiversion<'_>,
    ) -> Result<Option<List<Line>>, NoMemory>
        ensures lines { IfOk result (λ ls. ls ≡ notification_lines config.now self.now diversions.now (due_diversion_view due.entry.now)) }
    {
        if !due.notifies_caller() {
            return Ok(None);
        }
        let told = diversions.notified_history(alloc)?;
        let to_trusted = config.peers.trusted(self.invite.peer);
        let lines = history_lines(alloc, &told, self.masks_all(), to_trusted);
        drop(told);
        Ok(Some(lines?))
    }
}
