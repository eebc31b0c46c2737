//! The dialog state that a leg of either side keeps (RFC 3261 §12).
ghost use Rattle.std.specs.Prelude.{◌≡◌, ◌++◌, IfOk, OnErr, OnOk, codes, if◌then◌else◌};
ghost use Rattle.mmtel_leg.specs.Dialogues.{after_receiving, callee_dialogue, caller_dialogue, caller_dialogue_with_remote};
ghost use Rattle.mmtel_leg.specs.Dialogues.{last_after, names_itself, receive_result, target_or, unless_busy, unless_old, with_remote};

use crate::fields::{field, number_in, request_uri, tag_in};
use crate::remotes::Remote;
use mmtel_base::{List, NoMemory, Text, copied_texts};
use mmtel_message::{Msg, is_method, tagged_value};
use mmtel_types::{Peer, Side};
use std::alloc::Global;

/// The dialog state of a leg: the identifiers of the dialog, the route to the other side, and the CSeq numbers.
#[derive(Drop)]
pub struct Dialogue {
    /// The side of the call on which the leg is.
    pub side: Side,
    /// The peer to which every message of the leg is sent.
    pub peer: Peer,
    pub call_id: Text,
    /// From of the server's requests.
    pub local: Text,
    /// The other side, as it is in the INVITE: a caller's From with its tag, or a callee's To.
    pub remote: Text,
    /// The server's tag.
    pub local_tag: Text,
    /// The other side's tag; no bytes before it is known.
    pub remote_tag: Text,
    /// The Request-URI of the server's requests; no bytes before it is known.
    pub target: Text,
    /// The Route values of the server's requests, in order.
    pub routes: List<Text>,
    /// The number of the server's last request, 0 before the first.
    pub local_cseq: u64,
    /// The number of the last request of the other side that was accepted.
    pub remote_cseq: Option<u32>,
    /// The number of the server's last INVITE.
    pub invite_cseq: Option<u64>,
}

/// Which INVITE prevents another one in a dialog (RFC 3261 §14.2).
#[derive(Clone, Copy, Debug, PartialEq, Eq)]
pub enum InFlight {
    /// None.
    None,
    /// The server's INVITE to the leg, or an ACK is due in the call, or of the participant in a conference.
    Own,
    /// The leg's INVITE to the server, which has no final response.
    Theirs,
}

/// Why a request is refused in a dialog.
#[derive(Clone, Copy, Debug, PartialEq, Eq)]
pub enum DialogueFault {
    /// Its number is lower than that of the last one (RFC 3261 §12.2.2).
    OldCSeq {
        /// The number of the last one.
        last: u32,
    },
    /// It is an INVITE, and the server's own is pending (RFC 3261 §14.2, answered 491).
    Pending,
    /// It is an INVITE, and the one before has no final response yet (RFC 3261 §14.2, answered 500).
    Unfinished,
}

fn unless_busy(invite: bool, busy: InFlight) -> Result<(), DialogueFault>
    ensures { result ≡ unless_busy invite busy }
{
    match busy {
        InFlight::None => Ok(()),
        InFlight::Own => {
            if invite {
                Err(DialogueFault::Pending)
            } else {
                Ok(())
            }
        }
        InFlight::Theirs => {
            if invite {
                Err(DialogueFault::Unfinished)
            } else {
                Ok(())
            }
        }
    }
}

fn check_request(
    number: Option<u32>,
    last: Option<u32>,
    invite: bool,
    busy: InFlight,
) -> Result<(), DialogueFault>
    ensures { result ≡ unless_old number last (unless_busy invite busy) }
{
    match number {
        None => unless_busy(invite, busy),
        Some(number) => match last {
            None => unless_busy(invite, busy),
            Some(last) => {
                if number < last {
                    Err(DialogueFault::OldCSeq { last })
                } else {
                    unless_busy(invite, busy)
                }
            }
        },
    }
}

/// The number of the last accepted request, where this one was accepted.
fn last_after(number: Option<u32>, last: Option<u32>) -> Option<u32>
    ensures { result ≡ last_after number last }
{
    match number {
        None => last,
        Some(number) => Some(number),
    }
}

/// A number of the other side, with the width of the server's own.
fn widened_number(number: Option<u32>) -> Option<u64>
    ensures { result ≡ number }
{
    match number {
        None => None,
        Some(number) => Some(u64::from(number)),
    }
}

/// Whether a side that gives this tag sets its tag and its route set with it.
fn names_itself(side: Side, tag: &[u8]) -> bool
    ensures { result ≡ names_itself side tag.now }
{
    match side {
        Side::Caller => !tag.is_empty(),
        Side::Callee => true,
    }
}

impl Dialogue {
    /// A copy of the dialog.
    ///
    /// # Errors
    ///
    /// Out of memory only.
    pub fn copied(&self, alloc: Global) -> Result<Dialogue, NoMemory>
        ensures copy { IfOk result (λ d. d ≡ self.now) }
    {
        let call_id = self.call_id.copied(alloc)?;
        let local = self.local.copied(alloc)?;
        let remote = self.remote.copied(alloc)?;
        let local_tag = self.local_tag.copied(alloc)?;
        let remote_tag = self.remote_tag.copied(alloc)?;
        let target = self.target.copied(alloc)?;
        let routes = copied_texts(alloc, self.routes.items())?;
        Ok(Dialogue {
            side: self.side,
            peer: self.peer,
            call_id,
            local,
            remote,
            local_tag,
            remote_tag,
            target,
            routes,
            local_cseq: self.local_cseq,
            remote_cseq: self.remote_cseq,
            invite_cseq: self.invite_cseq,
        })
    }

    /// The dialog of an INVITE that came from the peer, where the server responds with this tag (RFC 3261 §12.1.1).
    ///
    /// # Errors
    ///
    /// Out of memory only.
    pub fn of_caller(
        alloc: Global,
        peer: Peer,
        invite: &Msg,
        tag: Text,
    ) -> Result<Dialogue, NoMemory>
        ensures dialogue { IfOk result (λ d. d ≡ caller_dialogue peer invite.now.lines tag) }
    {
        let call_id = field(alloc, b"Call-ID", invite)?;
        let to = field(alloc, b"To", invite)?;
        let local = tagged_value(alloc, to, tag.bytes())?;
        let remote = field(alloc, b"From", invite)?;
        Ok(Dialogue {
            side: Side::Caller,
            peer,
            call_id,
            local,
            remote,
            local_tag: tag,
            remote_tag: Text::new(),
            target: Text::new(),
            routes: List::new(),
            local_cseq: 0,
            remote_cseq: number_in(invite),
            invite_cseq: None,
        })
    }

    /// The dialog of an INVITE that came from the peer, where the server responds with this tag, with the caller's tag, target and route set from it (RFC 3261 §12.1.1).
    ///
    /// # Errors
    ///
    /// Out of memory only.
    pub fn of_caller_with_remote(
        alloc: Global,
        peer: Peer,
        invite: &Msg,
        tag: Text,
    ) -> Result<Dialogue, NoMemory>
        ensures opened { IfOk result (λ d. d ≡ caller_dialogue_with_remote peer invite.now.lines tag) }
    {
        let caller = Remote::read(alloc, invite, Side::Caller)?;
        let dialogue = Dialogue::of_caller(alloc, peer, invite, tag)?;
        Ok(dialogue.with_remote(caller))
    }

    /// The dialog of an INVITE that the server sends to the peer (RFC 3261 §12.1.2).
    ///
    /// # Errors
    ///
    /// Out of memory only.
    pub fn of_callee(alloc: Global, peer: Peer, invite: &Msg) -> Result<Dialogue, NoMemory>
        ensures started { IfOk result (λ d. d ≡ callee_dialogue peer invite.now) }
    {
        let call_id = field(alloc, b"Call-ID", invite)?;
        let local = field(alloc, b"From", invite)?;
        let remote = field(alloc, b"To", invite)?;
        let local_tag = tag_in(alloc, b"From", invite)?;
        let target = Text::of(alloc, request_uri(invite.start()))?;
        let number = number_in(invite);
        Ok(Dialogue {
            side: Side::Callee,
            peer,
            call_id,
            local,
            remote,
            local_tag,
            remote_tag: Text::new(),
            target,
            routes: List::new(),
            local_cseq: u64::from(number.unwrap_or(0)),
            remote_cseq: None,
            invite_cseq: widened_number(number),
        })
    }

    /// With the target that was given, where one was.
    fn with_target(self, target: Text) -> Dialogue
        ensures { result ≡ record self { target = target_or target self.target } }
    {
        if target.bytes().is_empty() {
            self
        } else {
            Dialogue { target, ..self }
        }
    }

    /// With the tag and the routes that were given, where the side sets them with this tag.
    fn with_tag_and_routes(self, tag: Text, routes: List<Text>) -> Dialogue
        ensures { result ≡ record self {
          remote_tag = if names_itself self.side tag then tag else self.remote_tag;
          routes = if names_itself self.side tag then routes
              else self.routes;
        } }
    {
        if names_itself(self.side, tag.bytes()) {
            Dialogue {
                remote_tag: tag,
                routes,
                ..self
            }
        } else {
            self
        }
    }

    /// The dialog once the other side has given its tag, target and route set. Tag and routes of a callee are those that it gives, also where it gives no tag (RFC 3261 §12.1.2,
    /// §13.2.2.4); those of a caller stay as they are where it gives no tag. Without a target the target stays.
    pub fn with_remote(self, remote: Remote) -> Dialogue
        ensures with_remote { result ≡ with_remote self remote }
    {
        let Remote {
            tag,
            target,
            routes,
        } = remote;
        self.with_target(target).with_tag_and_routes(tag, routes)
    }

    /// Records a received request, or refuses it.
    ///
    /// # Errors
    ///
    /// The first that applies of `OldCSeq`, `Pending` and `Unfinished`; the dialog is then as before.
    pub fn receive(&mut self, request: &Msg, busy: InFlight) -> Result<(), DialogueFault>
        ensures check { result ≡ receive_result self.old request.now busy }
        ensures received { OnOk result (self.new ≡ after_receiving self.old request.now) }
        ensures refused { OnErr result (self.new ≡ self.old) }
    {
        let number = number_in(request);
        let invite = is_method(b"INVITE", request.start());
        check_request(number, self.remote_cseq, invite, busy)?;
        self.remote_cseq = last_after(number, self.remote_cseq);
        Ok(())
    }
}
