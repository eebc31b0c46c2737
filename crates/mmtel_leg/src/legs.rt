//! Legs: one side of a call, which must be spent.
ghost use Rattle.std.specs.Prelude.{◌≡◌, IfErr, IfOk, OnErr, OnOk};
ghost use Rattle.mmtel_leg.specs.Dialogues.{after_receiving, after_request, callee_dialogue, caller_dialogue, caller_dialogue_with_remote, receive_result, with_remote};
ghost use Rattle.mmtel_leg.specs.Legs.{with_dialogue};
ghost use Rattle.mmtel_leg.specs.Releases.{released_leg};
ghost use Rattle.mmtel_leg.specs.Requests.{ack_of, request_of};

use crate::dialogues::{Dialogue, DialogueFault, InFlight};
use crate::remotes::Remote;
use crate::requests::RequestParts;
use mmtel_base::{List, NoMemory, Text};
use mmtel_charging::Meter;
use mmtel_message::{Line, Msg, OwnAddress};
use mmtel_types::Peer;
use std::alloc::Global;
use std::marker::{Model, PhantomData};
use std::mem;

/// The state of a leg whose INVITE has no response that makes a dialog.
pub struct Asked;

/// The state of a leg with an early dialog (RFC 3261 §12).
pub struct Early;

/// The state of a leg whose dialog is confirmed (RFC 3261 §12).
pub struct Standing;

/// The states of a leg that has a dialog, early or confirmed, in which requests can be made (RFC 3261 §12.2).
pub trait InDialog {}

impl InDialog for Early {}

impl InDialog for Standing {}

/// The calling side.
pub struct OfCaller;

/// A side to which the call is offered.
pub struct OfCallee;

/// One side of a call, in one of the states `Asked`, `Early` and `Standing`.
///
/// A leg must be spent: it is not `Drop`, so a program that loses one does not compile, and `leave` returns what the leg had to account for. Its value in contracts is its dialog
/// state and its meter.
pub struct LegOf<P, S> {
    dialogue: Dialogue,
    meter: Option<Meter>,
    party: PhantomData<P>,
    state: PhantomData<S>,
}

/// The leg of a caller: the server responds to its INVITE (RFC 3261 §12.1.1).
pub type CallerLeg<S> = LegOf<OfCaller, S>;

/// The leg of a callee: the server sends it an INVITE (RFC 3261 §12.1.2).
pub type CalleeLeg<S> = LegOf<OfCallee, S>;

impl<P, S> Model for LegOf<P, S> {
    ghost use Rattle.mmtel_leg.specs.Legs.{Leg};

    ghost Value = { Leg };

    ghost view = { λ leg. record { dialogue = leg.dialogue; meter = leg.meter } };
}

/// What remains of a leg that has left its call. It must be spent.
pub struct Ended {
    /// The meter that ran for it, if there was one.
    pub meter: Option<Meter>,
}

/// A leg that was detached from its call. It must be spent.
pub enum Released {
    /// The leg of the caller.
    Caller(CallerLeg<Standing>),
    /// The leg of a callee.
    Callee(CalleeLeg<Standing>),
}

impl Released {
    /// Its dialog.
    pub fn dialogue(&self) -> &Dialogue
        ensures dialogue { result.now ≡ (released_leg self.now).dialogue }
    {
        match self {
            Released::Caller(leg) => leg.dialogue(),
            Released::Callee(leg) => leg.dialogue(),
        }
    }

    /// Ends the leg.
    pub fn leave(self) -> Ended
        ensures ended { result ≡ record { meter = (released_leg self).meter } }
    {
        match self {
            Released::Caller(leg) => leg.leave(),
            Released::Callee(leg) => leg.leave(),
        }
    }
}

impl<P, S> LegOf<P, S> {
    /// Ends the leg.
    pub fn leave(self) -> Ended
        ensures ended { result ≡ record { meter = self.meter } }
    {
        let LegOf {
            dialogue: _,
            meter,
            party: _,
            state: _,
        } = self;
        Ended { meter }
    }

    /// Keeps this meter in the leg, and returns the one that was there.
    pub fn swap_meter(&mut self, meter: Option<Meter>) -> Option<Meter>
        ensures before { result ≡ self.old.meter }
        ensures after { self.new ≡ record self.old { meter = meter } }
    {
        mem::replace(&mut self.meter, meter)
    }

    /// The peer with which the leg was made.
    pub fn peer(&self) -> Peer
        ensures peer { result ≡ self.now.dialogue.peer }
    {
        self.dialogue.peer
    }

    /// The Call-ID of its dialog.
    pub fn call_id(&self) -> &[u8]
        ensures call_id { result.now ≡ self.now.dialogue.call_id }
    {
        self.dialogue.call_id.bytes()
    }

    /// Its dialog.
    pub fn dialogue(&self) -> &Dialogue
        ensures dialogue { result.now ≡ self.now.dialogue }
    {
        &self.dialogue
    }

    /// The server's tag in its dialog.
    pub fn local(&self) -> &[u8]
        ensures tag { result.now ≡ self.now.dialogue.local_tag }
    {
        self.dialogue.local_tag.bytes()
    }

    /// Records a request that was received from this side, or refuses it.
    ///
    /// # Errors
    ///
    /// The first that applies; the leg is then as before. `OldCSeq` where its number is lower than that of the last accepted request; for an INVITE, `Pending` where the server's
    /// own is pending and `Unfinished` where the one before has no final response (RFC 3261 §12.2.2, §14.2).
    pub fn heard(&mut self, request: &Msg, busy: InFlight) -> Result<(), DialogueFault>
        ensures check { result ≡ receive_result self.old.dialogue request.now busy }
        ensures received { OnOk result (self.new ≡ with_dialogue self.old (after_receiving self.old.dialogue request.now)) }
        ensures refused { OnErr result (self.new ≡ self.old) }
    {
        self.dialogue.receive(request, busy)
    }

    /// The leg in another state, once the other side has given its tag, target and route set.
    fn with_remote<T>(self, remote: Remote) -> LegOf<P, T>
        ensures { result ≡ with_dialogue self (with_remote self.dialogue remote) }
    {
        let LegOf {
            dialogue,
            meter,
            party,
            state: _,
        } = self;
        let dialogue = dialogue.with_remote(remote);
        LegOf {
            dialogue,
            meter,
            party,
            state: PhantomData,
        }
    }
}

impl LegOf<OfCaller, Asked> {
    /// The leg of a caller whose INVITE came from the peer, where the server responds with this tag.
    ///
    /// # Errors
    ///
    /// Out of memory only; the meter is handed back.
    pub fn take(
        alloc: Global,
        peer: Peer,
        invite: &Msg,
        local: Text,
        meter: Option<Meter>,
    ) -> Result<CallerLeg<Asked>, (Option<Meter>, NoMemory)>
        ensures leg { IfOk result (λ leg. leg ≡ record { dialogue = caller_dialogue peer invite.now.lines local; meter = meter }) }
        ensures handed_back { IfErr result (λ refused. refused.0 ≡ meter) }
    {
        match Dialogue::of_caller(alloc, peer, invite, local) {
            Ok(dialogue) => Ok(LegOf {
                dialogue,
                meter,
                party: PhantomData,
                state: PhantomData,
            }),
            Err(error) => Err((meter, error)),
        }
    }
}

impl LegOf<OfCaller, Standing> {
    /// The leg of a caller whose INVITE came from the peer, where the server responds with this tag: it is confirmed from its opening on, since the INVITE has all that the
    /// caller gives of its dialog (RFC 3261 §12.1.1).
    ///
    /// # Errors
    ///
    /// Out of memory only; the meter is handed back.
    pub fn open(
        alloc: Global,
        peer: Peer,
        invite: &Msg,
        local: Text,
        meter: Option<Meter>,
    ) -> Result<CallerLeg<Standing>, (Option<Meter>, NoMemory)>
        ensures leg { IfOk result (λ leg. leg ≡ record { dialogue = caller_dialogue_with_remote peer invite.now.lines local; meter = meter }) }
        ensures handed_back { IfErr result (λ refused. refused.0 ≡ meter) }
    {
        match Dialogue::of_caller_with_remote(alloc, peer, invite, local) {
            Ok(dialogue) => Ok(LegOf {
                dialogue,
                meter,
                party: PhantomData,
                state: PhantomData,
            }),
            Err(error) => Err((meter, error)),
        }
    }
}

impl LegOf<OfCallee, Asked> {
    /// The leg of a callee whose dialog is this one, at its beginning.
    pub fn initial(dialogue: Dialogue, meter: Option<Meter>) -> CalleeLeg<Asked>
        ensures leg { result ≡ record { dialogue = dialogue; meter = meter } }
    {
        LegOf {
            dialogue,
            meter,
            party: PhantomData,
            state: PhantomData,
        }
    }

    /// The leg of a callee to whom the server sends this INVITE through the peer.
    ///
    /// # Errors
    ///
    /// Out of memory only; the meter is handed back.
    pub fn start(
        alloc: Global,
        peer: Peer,
        invite: &Msg,
        meter: Option<Meter>,
    ) -> Result<CalleeLeg<Asked>, (Option<Meter>, NoMemory)>
        ensures leg { IfOk result (λ leg. leg ≡ record { dialogue = callee_dialogue peer invite.now; meter = meter }) }
        ensures handed_back { IfErr result (λ refused. refused.0 ≡ meter) }
    {
        match Dialogue::of_callee(alloc, peer, invite) {
            Ok(dialogue) => Ok(LegOf {
                dialogue,
                meter,
                party: PhantomData,
                state: PhantomData,
            }),
            Err(error) => Err((meter, error)),
        }
    }
}

impl<P> LegOf<P, Asked> {
    /// The leg with an early dialog (RFC 3261 §12.1).
    pub fn early(self, remote: Remote) -> LegOf<P, Early>
        ensures leg { result ≡ with_dialogue self (with_remote self.dialogue remote) }
    {
        self.with_remote(remote)
    }

    /// The leg with a confirmed dialog (RFC 3261 §12.1).
    pub fn stand(self, remote: Remote) -> LegOf<P, Standing>
        ensures leg { result ≡ with_dialogue self (with_remote self.dialogue remote) }
    {
        self.with_remote(remote)
    }
}

impl<P> LegOf<P, Early> {
    /// The leg whose early dialog is confirmed (RFC 3261 §13.2.2.4).
    pub fn stand(self, remote: Remote) -> LegOf<P, Standing>
        ensures leg { result ≡ with_dialogue self (with_remote self.dialogue remote) }
    {
        self.with_remote(remote)
    }
}

impl<P, S: InDialog> LegOf<P, S> {
    /// The other side's tag; no bytes where it gave none.
    pub fn remote(&self) -> &[u8]
        ensures tag { result.now ≡ self.now.dialogue.remote_tag }
    {
        self.dialogue.remote_tag.bytes()
    }

    /// The next request in the dialog (RFC 3261 §12.2.1.1): to its target, by its route set, with the number after that of the last one.
    ///
    /// `sip` is the server's address, `hops` the value of Max-Forwards, and `branch` what follows the cookie of the branch. The shown lines are between CSeq and Content-Length.
    /// An INVITE, an UPDATE and a NOTIFY have the server's Contact before them, unless the shown lines have one.
    ///
    /// # Errors
    ///
    /// Out of memory only; the leg is then as before.
    pub fn request(
        &mut self,
        alloc: Global,
        method: &[u8],
        sip: OwnAddress,
        hops: u8,
        branch: &Text,
        shown: &List<Line>,
        body: &[u8],
    ) -> Result<Msg, NoMemory>
        ensures message { IfOk result (λ m. m
            ≡ request_of self.old.dialogue method.now (record { sip = sip; hops = hops; branch = branch.now; shown = shown.now; body = body.now })) }
        ensures counted { OnOk result (self.new ≡ with_dialogue self.old (after_request self.old.dialogue method.now)) }
        ensures refused { OnErr result (self.new ≡ self.old) }
    {
        let parts = RequestParts::of(sip, hops, branch, shown, body);
        self.dialogue.request(alloc, method, &parts)
    }
}

impl<P> LegOf<P, Standing> {
    /// The ACK of the last INVITE that the server sent in the dialog, a callee's first one among them: with that INVITE's number (RFC 3261 §13.2.2.4). Where it sent none, as to
    /// a caller that was sent no request, there is nothing to acknowledge, and the number is 0. The other parameters are as in `request`.
    ///
    /// # Errors
    ///
    /// Out of memory only.
    pub fn ack(
        &self,
        alloc: Global,
        sip: OwnAddress,
        hops: u8,
        branch: &Text,
        shown: &List<Line>,
        body: &[u8],
    ) -> Result<Msg, NoMemory>
        ensures message { IfOk result (λ m. m ≡ ack_of self.now.dialogue (record { sip = sip; hops = hops; branch = branch.now; shown = shown.now; body = body.now })) }
    {
        let parts = RequestParts::of(sip, hops, branch, shown, body);
        self.dialogue.ack(alloc, &parts)
    }
}
