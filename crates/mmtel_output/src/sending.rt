//! Responses, requests of a dialog and ACKs that are sent in a step.
ghost use Rattle.std.specs.Prelude.{◌≡◌, IfOk, OnErr, OnOk, codes};
ghost use Rattle.mmtel_leg.specs.Dialogues.{after_request};
ghost use Rattle.mmtel_leg.specs.Legs.{with_dialogue};
ghost use Rattle.mmtel_output.specs.Outputs.{token};
ghost use Rattle.mmtel_output.specs.Sending.{ack_text, relayed_ack_text, with_ack, with_bare_request, with_bye, with_contact_response, with_own_request};
ghost use Rattle.mmtel_output.specs.Sending.{with_relayed_ack, with_relayed_request, with_relayed_response, with_response, with_status_response};

use crate::outputs::StepOutput;
use mmtel_base::{List, NoMemory, Text};
use mmtel_compose::{
    OwnResponse, ReceivedMessage, bare_parts, own_ack, own_request, own_response,
    own_response_with_contact, relayed_ack, relayed_request, relayed_response,
};
use mmtel_leg::{Dialogue, InDialog, LegOf, Standing};
use mmtel_message::{Line, OwnAddress};
use mmtel_transaction::{Emit, TKey};
use std::alloc::Global;

/// The text of the ACK of a dialog's 2xx that relays none.
#[tactic(auto, unfolding(crate::specs::Sending::ack_text))]
fn ack_text(
    alloc: Global,
    sip: OwnAddress,
    dialogue: &Dialogue,
    branch: &Text,
) -> Result<Text, NoMemory>
    ensures { IfOk result (λ t. t ≡ ack_text sip dialogue.now branch.now) }
{
    let message = own_ack(alloc, dialogue, sip, branch)?;
    message.text(alloc)
}

/// The text of the ACK of a leg's 2xx that relays one.
#[tactic(auto, unfolding(crate::specs::Sending::relayed_ack_text))]
fn relayed_ack_text<P>(
    alloc: Global,
    sip: OwnAddress,
    leg: &LegOf<P, Standing>,
    branch: &Text,
    passed: &List<Line>,
    received: &ReceivedMessage,
) -> Result<Text, NoMemory>
    ensures { IfOk result (λ t. t ≡ relayed_ack_text sip leg.now.dialogue branch.now passed.now received.now.parsed) }
{
    let message = relayed_ack(alloc, leg, sip, branch, passed, received)?;
    message.text(alloc)
}

impl StepOutput {
    /// Sends a response of the server's own to a request, with this value of Contact where one is due (RFC 3261 §8.2.6).
    ///
    /// # Errors
    ///
    /// Out of memory only; the output is then as before.
    pub fn respond_with_contact(
        &mut self,
        alloc: Global,
        contact: &[u8],
        key: TKey,
        request: &ReceivedMessage,
        tag: &[u8],
        own: OwnResponse<'_>,
    ) -> Result<(), NoMemory>
        ensures done { OnOk result (self.new
            ≡ with_contact_response contact.now key request.now tag.now own.entry.code own.entry.passed.now own.entry.named.now own.entry.body.now self.old) }
        ensures refused { OnErr result (self.new ≡ self.old) }
    {
        let msg = own_response_with_contact(alloc, contact, request, tag, own)?;
        self.emit(alloc, Emit::Reply { key, msg })
    }

    /// The same, with the server's Contact.
    ///
    /// # Errors
    ///
    /// Out of memory only; the output is then as before.
    pub fn respond(
        &mut self,
        alloc: Global,
        sip: OwnAddress,
        key: TKey,
        request: &ReceivedMessage,
        tag: &[u8],
        own: OwnResponse<'_>,
    ) -> Result<(), NoMemory>
        ensures done { OnOk result (self.new
            ≡ with_response sip key request.now tag.now own.entry.code own.entry.passed.now own.entry.named.now own.entry.body.now self.old) }
        ensures refused { OnErr result (self.new ≡ self.old) }
    {
        let msg = own_response(alloc, sip, request, tag, own)?;
        self.emit(alloc, Emit::Reply { key, msg })
    }

    /// Sends a response of a status alone to a request.
    ///
    /// # Errors
    ///
    /// Out of memory only; the output is then as before.
    pub fn respond_with_status(
        &mut self,
        alloc: Global,
        sip: OwnAddress,
        key: TKey,
        request: &ReceivedMessage,
        tag: &[u8],
        code: u16,
    ) -> Result<(), NoMemory>
        ensures done { OnOk result (self.new ≡ with_status_response sip key request.now tag.now code self.old) }
        ensures refused { OnErr result (self.new ≡ self.old) }
    {
        let own = OwnResponse {
            code,
            passed: &[],
            named: &[],
            body: b"",
        };
        self.respond(alloc, sip, key, request, tag, own)
    }

    /// Responds to a request by relaying a received response, with these lines of it (RFC 3261 §16.7).
    ///
    /// # Errors
    ///
    /// Out of memory only; the output is then as before.
    pub fn relay_response(
        &mut self,
        alloc: Global,
        sip: OwnAddress,
        key: TKey,
        request: &ReceivedMessage,
        tag: &[u8],
        passed: &[Line],
        received: &ReceivedMessage,
    ) -> Result<(), NoMemory>
        ensures done { OnOk result (self.new ≡ with_relayed_response sip key request.now tag.now passed.now received.now self.old) }
        ensures refused { OnErr result (self.new ≡ self.old) }
    {
        let msg = relayed_response(alloc, sip, request, tag, passed, received)?;
        self.emit(alloc, Emit::Reply { key, msg })
    }

    /// Sends a request of the server's own in a leg's dialog, with these named lines and this body (RFC 3261 §12.2.1.1). Returns its branch after the cookie.
    ///
    /// # Errors
    ///
    /// Out of memory only; a token may then be drawn and the request counted, and otherwise output and leg are as before.
    pub fn send_own_request<P>(
        &mut self,
        alloc: Global,
        sip: OwnAddress,
        method: &[u8],
        leg: &mut LegOf<P, Standing>,
        named: &List<Line>,
        body: &[u8],
    ) -> Result<Text, NoMemory>
        ensures branch { IfOk result (λ t. t ≡ token self.old) }
        ensures done { OnOk result (self.new ≡ with_own_request sip method.now leg.old.dialogue named.now body.now self.old) }
        ensures counted { OnOk result (leg.new ≡ with_dialogue leg.old (after_request leg.old.dialogue method.now)) }
        ensures meter { leg.new.meter ≡ leg.old.meter }
        ensures out { OnErr result (self.new.out ≡ self.old.out) }
        ensures rows { OnErr result (self.new.rows ≡ self.old.rows) }
    {
        let branch = self.draw(alloc)?;
        let peer = leg.peer();
        let msg = own_request(alloc, leg, method, sip, &branch, named, body)?;
        self.emit(alloc, Emit::Ask { peer, msg })?;
        Ok(branch)
    }

    /// Sends a request of the server's own in a leg's dialog, with neither lines of its own nor a body.
    ///
    /// # Errors
    ///
    /// As in `send_own_request`.
    pub fn send_bare_request<P>(
        &mut self,
        alloc: Global,
        sip: OwnAddress,
        method: &[u8],
        leg: &mut LegOf<P, Standing>,
    ) -> Result<(), NoMemory>
        ensures done { OnOk result (self.new ≡ with_bare_request sip method.now leg.old.dialogue self.old) }
        ensures counted { OnOk result (leg.new ≡ with_dialogue leg.old (after_request leg.old.dialogue method.now)) }
        ensures meter { leg.new.meter ≡ leg.old.meter }
        ensures out { OnErr result (self.new.out ≡ self.old.out) }
        ensures rows { OnErr result (self.new.rows ≡ self.old.rows) }
    {
        self.send_own_request(alloc, sip, method, leg, &List::new(), b"")?;
        Ok(())
    }

    /// Sends the BYE that ends a leg's dialog (RFC 3261 §15.1.1).
    ///
    /// # Errors
    ///
    /// As in `send_own_request`.
    pub fn send_bye<P>(
        &mut self,
        alloc: Global,
        sip: OwnAddress,
        leg: &mut LegOf<P, Standing>,
    ) -> Result<(), NoMemory>
        ensures done { OnOk result (self.new ≡ with_bye sip leg.old.dialogue self.old) }
        ensures meter { leg.new.meter ≡ leg.old.meter }
        ensures out { OnErr result (self.new.out ≡ self.old.out) }
        ensures rows { OnErr result (self.new.rows ≡ self.old.rows) }
    {
        self.send_bare_request(alloc, sip, b"BYE", leg)
    }

    /// Sends in a leg's dialog the request that was received from the other side, with these lines of it (RFC 3261 §16.6). Returns its branch after the cookie.
    ///
    /// # Errors
    ///
    /// As in `send_own_request`.
    pub fn relay_request<P, S: InDialog>(
        &mut self,
        alloc: Global,
        sip: OwnAddress,
        method: &[u8],
        leg: &mut LegOf<P, S>,
        passed: &List<Line>,
        received: &ReceivedMessage,
    ) -> Result<Text, NoMemory>
        ensures branch { IfOk result (λ t. t ≡ token self.old) }
        ensures done { OnOk result (self.new ≡ with_relayed_request sip method.now leg.old.dialogue passed.now received.now.parsed self.old) }
        ensures counted { OnOk result (leg.new ≡ with_dialogue leg.old (after_request leg.old.dialogue method.now)) }
        ensures meter { leg.new.meter ≡ leg.old.meter }
        ensures out { OnErr result (self.new.out ≡ self.old.out) }
        ensures rows { OnErr result (self.new.rows ≡ self.old.rows) }
    {
        let branch = self.draw(alloc)?;
        let peer = leg.peer();
        let msg = relayed_request(alloc, leg, method, sip, &branch, passed, received)?;
        self.emit(alloc, Emit::Ask { peer, msg })?;
        Ok(branch)
    }

    /// Acknowledges the 2xx of a dialog by an ACK that relays none (RFC 3261 §13.2.2.4).
    ///
    /// # Errors
    ///
    /// Out of memory only; a token may then be drawn, and otherwise the output is as before.
    pub fn acknowledge_in(
        &mut self,
        alloc: Global,
        sip: OwnAddress,
        dialogue: &Dialogue,
    ) -> Result<(), NoMemory>
        ensures done { OnOk result (self.new ≡ with_ack sip dialogue.now self.old) }
        ensures out { OnErr result (self.new.out ≡ self.old.out) }
        ensures rows { OnErr result (self.new.rows ≡ self.old.rows) }
    {
        let branch = self.draw(alloc)?;
        let text = ack_text(alloc, sip, dialogue, &branch)?;
        self.emit(
            alloc,
            Emit::Plain {
                peer: dialogue.peer,
                text,
            },
        )
    }

    /// The same. Returns the text of the ACK, which is sent again for each retransmission of the 2xx.
    ///
    /// # Errors
    ///
    /// As in `acknowledge_in`.
    pub fn acknowledge_keeping(
        &mut self,
        alloc: Global,
        sip: OwnAddress,
        dialogue: &Dialogue,
    ) -> Result<Text, NoMemory>
        ensures text { IfOk result (λ t. t ≡ ack_text sip dialogue.now (token self.old)) }
        ensures done { OnOk result (self.new ≡ with_ack sip dialogue.now self.old) }
        ensures out { OnErr result (self.new.out ≡ self.old.out) }
        ensures rows { OnErr result (self.new.rows ≡ self.old.rows) }
    {
        let branch = self.draw(alloc)?;
        let text = ack_text(alloc, sip, dialogue, &branch)?;
        let kept = text.copied(alloc)?;
        let peer = dialogue.peer;
        self.emit(alloc, Emit::Plain { peer, text })?;
        Ok(kept)
    }

    /// Acknowledges the 2xx of a leg by an ACK that relays none.
    ///
    /// # Errors
    ///
    /// As in `acknowledge_in`.
    pub fn acknowledge<P>(
        &mut self,
        alloc: Global,
        sip: OwnAddress,
        leg: &LegOf<P, Standing>,
    ) -> Result<(), NoMemory>
        ensures done { OnOk result (self.new ≡ with_ack sip leg.now.dialogue self.old) }
        ensures out { OnErr result (self.new.out ≡ self.old.out) }
        ensures rows { OnErr result (self.new.rows ≡ self.old.rows) }
    {
        self.acknowledge_in(alloc, sip, leg.dialogue())
    }

    /// Sends the BYE that ends a dialog which no leg keeps (RFC 3261 §15.1.1).
    ///
    /// # Errors
    ///
    /// As in `send_own_request`.
    pub fn send_bye_in(
        &mut self,
        alloc: Global,
        sip: OwnAddress,
        dialogue: &mut Dialogue,
    ) -> Result<(), NoMemory>
        ensures done { OnOk result (self.new ≡ with_bye sip dialogue.old self.old) }
        ensures counted { OnOk result (dialogue.new ≡ after_request dialogue.old (codes "BYE")) }
        ensures out { OnErr result (self.new.out ≡ self.old.out) }
        ensures rows { OnErr result (self.new.rows ≡ self.old.rows) }
    {
        let branch = self.draw(alloc)?;
        let peer = dialogue.peer;
        let msg = dialogue.request(alloc, b"BYE", &bare_parts(sip, &branch))?;
        self.emit(alloc, Emit::Ask { peer, msg })
    }

    /// Acknowledges the 2xx of a leg by the ACK that was received from the other side, with these lines of it. Returns the text of the ACK, which is sent again for each
    /// retransmission of the 2xx.
    ///
    /// # Errors
    ///
    /// Out of memory only; a token may then be drawn, and otherwise the output is as before.
    pub fn relay_ack<P>(
        &mut self,
        alloc: Global,
        sip: OwnAddress,
        leg: &LegOf<P, Standing>,
        passed: &List<Line>,
        received: &ReceivedMessage,
    ) -> Result<Text, NoMemory>
        ensures text { IfOk result (λ t. t ≡ relayed_ack_text sip leg.now.dialogue (token self.old) passed.now received.now.parsed) }
        ensures done { OnOk result (self.new ≡ with_relayed_ack sip leg.now.dialogue passed.now received.now.parsed self.old) }
        ensures out { OnErr result (self.new.out ≡ self.old.out) }
        ensures rows { OnErr result (self.new.rows ≡ self.old.rows) }
    {
        let branch = self.draw(alloc)?;
        let text = relayed_ack_text(alloc, sip, leg, &branch, passed, received)?;
        let kept = text.copied(alloc)?;
        self.emit(
            alloc,
            Emit::Plain {
                peer: leg.peer(),
                text,
            },
        )?;
        Ok(kept)
    }
}
