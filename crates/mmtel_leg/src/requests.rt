//! The requests that the server makes in a dialog (RFC 3261 §12.2.1.1).
ghost use Rattle.std.specs.Prelude.{◌≡◌, ◌++◌, IfOk, OnErr, OnOk, codes, decimal, map};
ghost use Rattle.std.specs.Option.{unwrap_or};
ghost use Rattle.mmtel_message.specs.Addresses.{contact_text, via_text};
ghost use Rattle.mmtel_message.specs.Message.{has_line, line};
ghost use Rattle.mmtel_leg.specs.Dialogues.{after_request};
ghost use Rattle.mmtel_leg.specs.Requests.{ack_of, contact_lines, content_lines, cseq_text, dialog_lines, is_contacting};
ghost use Rattle.mmtel_leg.specs.Requests.{request_numbered, request_of, route_line, routing_lines, to_text};

use crate::dialogues::Dialogue;
use mmtel_base::{List, NoMemory, Text, add_number};
use mmtel_message::{
    Line, Msg, OwnAddress, Start, add_bytes, add_decimal, add_line, add_passed, is_line,
    tagged_value,
};
use mmtel_types::Side;
use std::alloc::Global;
use std::marker::Model;

/// The parts of a request that do not come from its dialog.
#[derive(Drop)]
pub struct RequestParts<'a> {
    /// The server's address.
    pub sip: OwnAddress,
    /// The value of Max-Forwards.
    pub hops: u8,
    /// What follows the cookie of the branch.
    pub branch: &'a [u8],
    /// The lines that are passed on, in order.
    pub shown: &'a [Line],
    /// The body.
    pub body: &'a [u8],
}

impl<'a> Model for RequestParts<'a> {
    ghost use Rattle.mmtel_leg.specs.Requests.{RequestPartsView};

    ghost Value = { RequestPartsView };

    ghost view = { λ parts. record { sip = parts.sip; hops = parts.hops; branch = parts.branch.now; shown = parts.shown.now; body = parts.body.now } };
}

impl<'a> RequestParts<'a> {
    /// These parts.
    pub fn of(
        sip: OwnAddress,
        hops: u8,
        branch: &'a Text,
        shown: &'a List<Line>,
        body: &'a [u8],
    ) -> RequestParts<'a>
        ensures parts { result ≡ record { sip = sip; hops = hops; branch = branch.now; shown = shown.now; body = body.now } }
    {
        RequestParts {
            sip,
            hops,
            branch: branch.bytes(),
            shown: shown.items(),
            body,
        }
    }
}

/// Adds Route, one line for each value.
fn add_routes(alloc: Global, out: &mut List<Line>, routes: &[Text]) -> Result<(), NoMemory>
    ensures { OnOk result (out.new ≡ out.old ++ map route_line routes.now) }
{
    for route in routes {
        let name = Text::of(alloc, b"Route")?;
        let value = Text::of(alloc, route.bytes())?;
        out.push(alloc, (name, value))?;
    }
    Ok(())
}

fn add_via(
    alloc: Global,
    out: &mut List<Line>,
    sip: OwnAddress,
    branch: &[u8],
) -> Result<(), NoMemory>
    ensures { OnOk result (out.new ≡ out.old ++ line (codes "Via") (via_text sip branch.now)) }
{
    let via = sip.via_text(alloc, branch)?;
    add_line(alloc, out, b"Via", via)
}

fn add_hops(alloc: Global, out: &mut List<Line>, hops: u8) -> Result<(), NoMemory>
    ensures { OnOk result (out.new ≡ out.old ++ line (codes "Max-Forwards") (decimal hops)) }
{
    add_decimal(alloc, out, b"Max-Forwards", u64::from(hops))
}

/// Adds the lines by which the request is routed.
fn add_routing(
    alloc: Global,
    out: &mut List<Line>,
    routes: &[Text],
    sip: OwnAddress,
    hops: u8,
    branch: &[u8],
) -> Result<(), NoMemory>
    ensures { OnOk result (out.new ≡ out.old ++ routing_lines routes.now sip hops branch.now) }
{
    add_via(alloc, out, sip, branch)?;
    add_routes(alloc, out, routes)?;
    add_hops(alloc, out, hops)?;
    Ok(())
}

/// To of a request.
fn to_text(alloc: Global, side: Side, value: &[u8], tag: &[u8]) -> Result<Text, NoMemory>
    ensures { IfOk result (λ t. t ≡ to_text side value.now tag.now) }
{
    let value = Text::of(alloc, value)?;
    match side {
        Side::Caller => Ok(value),
        Side::Callee => match tag {
            [] => Ok(value),
            _ => tagged_value(alloc, value, tag),
        },
    }
}

/// CSeq of a request.
fn cseq_text(alloc: Global, number: u64, method: &[u8]) -> Result<Text, NoMemory>
    ensures { IfOk result (λ t. t ≡ cseq_text number method.now) }
{
    let mut out = Text::new();
    add_number(alloc, &mut out, number)?;
    out.push(alloc, b" ")?;
    out.push(alloc, method)?;
    Ok(out)
}

/// Adds the lines that identify the dialog and the request in it.
fn add_dialog(
    alloc: Global,
    out: &mut List<Line>,
    dialogue: &Dialogue,
    number: u64,
    method: &[u8],
) -> Result<(), NoMemory>
    ensures { OnOk result (out.new ≡ out.old ++ dialog_lines dialogue.now number method.now) }
{
    let to = to_text(
        alloc,
        dialogue.side,
        dialogue.remote.bytes(),
        dialogue.remote_tag.bytes(),
    )?;
    let cseq = cseq_text(alloc, number, method)?;
    add_bytes(alloc, out, b"From", dialogue.local.bytes())?;
    add_line(alloc, out, b"To", to)?;
    add_bytes(alloc, out, b"Call-ID", dialogue.call_id.bytes())?;
    add_line(alloc, out, b"CSeq", cseq)
}

fn is_contacting(method: &[u8]) -> bool
    ensures { result ≡ is_contacting method.now }
{
    method == b"INVITE".as_slice()
        || method == b"UPDATE".as_slice()
        || method == b"NOTIFY".as_slice()
}

/// Whether one of the lines has the name.
fn has_line(name: &[u8], lines: &[Line]) -> bool
    ensures { result ≡ has_line name.now lines.now }
{
    lines.iter().any(|line| is_line(line, name))
}

/// Adds Contact, where the server writes it.
fn add_contact(
    alloc: Global,
    out: &mut List<Line>,
    method: &[u8],
    sip: OwnAddress,
    shown: &[Line],
) -> Result<(), NoMemory>
    ensures { OnOk result (out.new ≡ out.old ++ contact_lines method.now sip shown.now) }
{
    if is_contacting(method) && !has_line(b"Contact", shown) {
        return add_bytes(alloc, out, b"Contact", sip.contact());
    }
    Ok(())
}

/// Adds the contents of the request.
fn add_content(
    alloc: Global,
    out: &mut List<Line>,
    method: &[u8],
    sip: OwnAddress,
    shown: &[Line],
    body: &[u8],
) -> Result<(), NoMemory>
    ensures { OnOk result (out.new ≡ out.old ++ content_lines method.now sip shown.now body.now) }
{
    add_contact(alloc, out, method, sip, shown)?;
    add_passed(alloc, out, shown)?;
    add_decimal(alloc, out, b"Content-Length", body.len() as u64)?;
    Ok(())
}

/// The request of the method with this number, to the target of the dialog.
///
/// # Errors
///
/// Out of memory only.
pub fn request_numbered(
    alloc: Global,
    dialogue: &Dialogue,
    number: u64,
    method: &[u8],
    parts: &RequestParts<'_>,
) -> Result<Msg, NoMemory>
    ensures message { IfOk result (λ m. m ≡ request_numbered dialogue.now number method.now parts.now) }
{
    let routes = dialogue.routes.items();
    let mut lines = List::new();
    add_routing(
        alloc,
        &mut lines,
        routes,
        parts.sip,
        parts.hops,
        parts.branch,
    )?;
    add_dialog(alloc, &mut lines, dialogue, number, method)?;
    add_content(
        alloc,
        &mut lines,
        method,
        parts.sip,
        parts.shown,
        parts.body,
    )?;
    let method = Text::of(alloc, method)?;
    let uri = Text::of(alloc, dialogue.target.bytes())?;
    let body = Text::of(alloc, parts.body)?;
    Ok(Msg::of(Start::Request { method, uri }, lines, body))
}

impl Dialogue {
    /// Counts a request of the method.
    fn count(&mut self, method: &[u8])
        ensures { self.new ≡ after_request self.old method.now }
    {
        let number = self.local_cseq.saturating_add(1);
        self.local_cseq = number;
        if method == b"INVITE".as_slice() {
            self.invite_cseq = Some(number);
        }
    }

    /// The next request of the dialog.
    ///
    /// # Errors
    ///
    /// Out of memory only; the dialog is then as before.
    pub fn request(
        &mut self,
        alloc: Global,
        method: &[u8],
        parts: &RequestParts<'_>,
    ) -> Result<Msg, NoMemory>
        ensures message { IfOk result (λ m. m ≡ request_of self.old method.now parts.now) }
        ensures counted { OnOk result (self.new ≡ after_request self.old method.now) }
        ensures refused { OnErr result (self.new ≡ self.old) }
    {
        let message = request_numbered(
            alloc,
            self,
            self.local_cseq.saturating_add(1),
            method,
            parts,
        )?;
        self.count(method);
        Ok(message)
    }

    /// The ACK of the server's last INVITE (RFC 3261 §13.2.2.4). Where it sent none, there is nothing to acknowledge, and the number is 0.
    ///
    /// # Errors
    ///
    /// Out of memory only.
    pub fn ack(&self, alloc: Global, parts: &RequestParts<'_>) -> Result<Msg, NoMemory>
        ensures message { IfOk result (λ m. m ≡ ack_of self.now parts.now) }
    {
        request_numbered(alloc, self, self.invite_cseq.unwrap_or(0), b"ACK", parts)
    }
}
