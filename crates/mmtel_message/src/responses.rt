//! Responses to requests (RFC 3261 §8.2.6, §12.1.1 and §18.2.1).
ghost use Rattle.std.specs.Prelude.{◌≡◌, ◌∷◌, ◌++◌, [], Some, IfOk, OnOk, codes, map};
ghost use Rattle.mmtel_lex.specs.Reading.{name_addr_of};
ghost use Rattle.mmtel_message.specs.Message.{lines_named};
ghost use Rattle.mmtel_message.specs.Responses.{added_lines, contact_lines, makes_dialog, names_contact, own_fields, refreshes_target, response, route_lines};
ghost use Rattle.mmtel_message.specs.Responses.{call_lines, completed_lines, copied_lines, has_tag, party_lines, tag_of_response, tagged_value, to_line, to_value, via_lines};

use crate::building::{add_bytes, add_decimal, add_line, append_lines, append_named};
use crate::faults::is_method;
use crate::held::Lines;
use crate::messages::{Line, Msg, Start, is_named};
use crate::vias::completed_value;
use mmtel_base::{List, NoMemory, Text};
use mmtel_lex::name_addr_ref;
use mmtel_types::Addr;
use std::alloc::Global;
use std::marker::Model;

/// For how many lines a response has capacity at first.
const LINES_CAPACITY: usize = 12;

/// The parts of a response that its request does not determine.
#[derive(Drop)]
pub struct Reply<'a> {
    /// The status, 100 to 699.
    pub code: u16,
    /// Its reason phrase.
    pub phrase: &'a [u8],
    /// The server's tag for a To that has none; no bytes where no tag is to be added. A 100 never has it.
    pub tag: &'a [u8],
    /// The source address of the request, where it is to be written into the first Via.
    pub source: Option<Addr>,
    /// The value of Contact, which occurs in 101 to 299 of an INVITE and in 202 of a REFER.
    pub contact: &'a [u8],
    /// Lines that are copied from another message.
    pub passed: &'a [Line],
    /// Lines that are specific to this response, as Allow, Unsupported, Retry-After and Content-Type.
    pub named: &'a [Line],
    /// The body.
    pub body: &'a [u8],
}

impl<'a> Model for Reply<'a> {
    ghost use Rattle.mmtel_message.specs.Responses.{Reply};

    ghost Value = { Reply };

    ghost view = { λ r. record {
      code = r.code;
      phrase = r.phrase.now;
      tag = r.tag.now;
      source = r.source;
      contact = r.contact.now;
      passed = r.passed.now;
      named = r.named.now;
      body = r.body.now;
    } };
}

/// Adds Via lines, the first completed.
#[tactic(auto, unfolding(crate::specs::Message::line))]
fn add_completed(
    alloc: Global,
    out: &mut List<Line>,
    source: Addr,
    vias: &[Line],
) -> Result<(), NoMemory>
    ensures { OnOk result (out.new ≡ out.old ++ completed_lines (Some source) vias.now) }
{
    match vias {
        [] => Ok(()),
        [first, further @ ..] => {
            let value = completed_value(alloc, source, first.1.bytes())?;
            add_line(alloc, out, first.0.bytes(), value)?;
            append_lines(alloc, out, further)
        }
    }
}

/// Adds the Via lines of a request.
#[tactic(auto, unfolding(crate::specs::Responses::via_lines))]
fn add_vias(
    alloc: Global,
    out: &mut List<Line>,
    source: Option<Addr>,
    lines: &Lines<'_>,
) -> Result<(), NoMemory>
    ensures { OnOk result (out.new ≡ out.old ++ via_lines source lines.now.values) }
{
    match source {
        None => append_named(alloc, out, b"Via", lines),
        Some(source) => {
            let mut vias = List::new();
            append_named(alloc, &mut vias, b"Via", lines)?;
            let added = add_completed(alloc, out, source, vias.items());
            drop(vias);
            added
        }
    }
}

/// Whether a To value has a tag.
fn has_tag(value: &[u8]) -> bool
    ensures { result ≡ has_tag (name_addr_of value.now) }
{
    match name_addr_ref(value) {
        None => false,
        Some(name) => name.param(b"tag").is_some(),
    }
}

/// A From or To value with a tag after it (RFC 3261 §19.3).
///
/// # Errors
///
/// Out of memory only.
pub fn tagged_value(alloc: Global, value: Text, tag: &[u8]) -> Result<Text, NoMemory>
    ensures value { IfOk result (λ t. t ≡ tagged_value value tag.now) }
{
    let mut out = value;
    out.push(alloc, b";tag=")?;
    out.push(alloc, tag)?;
    Ok(out)
}

/// A To value with the server's tag, where it has none and one is given.
fn to_value(alloc: Global, tag: &[u8], value: &[u8]) -> Result<Text, NoMemory>
    ensures { IfOk result (λ t. t ≡ to_value tag.now value.now) }
{
    match tag {
        [] => Text::of(alloc, value),
        _ => {
            if has_tag(value) {
                return Text::of(alloc, value);
            }
            let value = Text::of(alloc, value)?;
            tagged_value(alloc, value, tag)
        }
    }
}

/// Adds the line of this spelling and value, where it is a To line.
#[tactic(auto, unfolding(crate::specs::Message::line))]
fn add_to_line(
    alloc: Global,
    out: &mut List<Line>,
    tag: &[u8],
    spelled: &[u8],
    value: &[u8],
) -> Result<(), NoMemory>
    ensures { OnOk result (out.new ≡ out.old ++ map (to_line tag.now) (lines_named (codes "To") ((spelled.now, value.now) ∷ []))) }
{
    if !is_named(spelled, b"To") {
        return Ok(());
    }
    let value = to_value(alloc, tag, value)?;
    add_line(alloc, out, spelled, value)
}

/// Adds To lines.
fn add_to(
    alloc: Global,
    out: &mut List<Line>,
    tag: &[u8],
    lines: &Lines<'_>,
) -> Result<(), NoMemory>
    ensures { OnOk result (out.new ≡ out.old ++ map (to_line tag.now) (lines_named (codes "To") lines.now.values)) }
{
    for i in 0..lines.len() {
        let (spelled, value) = lines.at(i);
        add_to_line(alloc, out, tag, spelled, value)?;
    }
    Ok(())
}

/// Adds From and To.
#[tactic(auto, unfolding(crate::specs::Responses::party_lines))]
fn add_parties(
    alloc: Global,
    out: &mut List<Line>,
    tag: &[u8],
    lines: &Lines<'_>,
) -> Result<(), NoMemory>
    ensures { OnOk result (out.new ≡ out.old ++ party_lines tag.now lines.now.values) }
{
    append_named(alloc, out, b"From", lines)?;
    add_to(alloc, out, tag, lines)
}

/// Adds Call-ID and CSeq.
#[tactic(auto, unfolding(crate::specs::Responses::call_lines))]
fn add_call(alloc: Global, out: &mut List<Line>, lines: &Lines<'_>) -> Result<(), NoMemory>
    ensures { OnOk result (out.new ≡ out.old ++ call_lines lines.now.values) }
{
    append_named(alloc, out, b"Call-ID", lines)?;
    append_named(alloc, out, b"CSeq", lines)
}

/// Adds the lines that are copied as received.
#[tactic(auto, unfolding(crate::specs::Responses::copied_lines))]
fn add_copied(
    alloc: Global,
    out: &mut List<Line>,
    source: Option<Addr>,
    tag: &[u8],
    lines: &Lines<'_>,
) -> Result<(), NoMemory>
    ensures { OnOk result (out.new ≡ out.old ++ copied_lines source tag.now lines.now.values) }
{
    add_vias(alloc, out, source, lines)?;
    add_parties(alloc, out, tag, lines)?;
    add_call(alloc, out, lines)
}

/// Whether a response of the code to a request with the start line creates a dialog (RFC 3261 §12.1.1, RFC 6665 §4.2.1).
fn makes_dialog(code: u16, start: &Start) -> bool
    ensures { result ≡ makes_dialog code start.now }
{
    (code >= 101 && code <= 299 && is_method(b"INVITE", start))
        || (code == 200 && is_method(b"SUBSCRIBE", start))
}

/// Whether it refreshes the remote target of its dialog (RFC 3515 §2.2, RFC 3311 §5.2).
fn refreshes_target(code: u16, start: &Start) -> bool
    ensures { result ≡ refreshes_target code start.now }
{
    (code == 202 && is_method(b"REFER", start))
        || (code >= 200 && code <= 299 && is_method(b"UPDATE", start))
}

/// Whether it has a Contact that says where the server is reached.
fn names_contact(code: u16, start: &Start) -> bool
    ensures { result ≡ names_contact code start.now }
{
    makes_dialog(code, start) || refreshes_target(code, start)
}

/// Adds Record-Route, where the response creates a dialog.
#[tactic(auto, unfolding(crate::specs::Responses::route_lines))]
fn add_routes(
    alloc: Global,
    out: &mut List<Line>,
    code: u16,
    start: &Start,
    lines: &Lines<'_>,
) -> Result<(), NoMemory>
    ensures { OnOk result (out.new ≡ out.old ++ route_lines code start.now lines.now.values) }
{
    if makes_dialog(code, start) {
        return append_named(alloc, out, b"Record-Route", lines);
    }
    Ok(())
}

/// Adds Contact, where the response is to have one.
#[tactic(auto, unfolding(crate::specs::Responses::contact_lines))]
fn add_contact(
    alloc: Global,
    out: &mut List<Line>,
    code: u16,
    start: &Start,
    contact: &[u8],
) -> Result<(), NoMemory>
    ensures { OnOk result (out.new ≡ out.old ++ contact_lines code start.now contact.now) }
{
    if names_contact(code, start) {
        return add_bytes(alloc, out, b"Contact", contact);
    }
    Ok(())
}

/// Adds the response's own lines.
#[tactic(auto, unfolding(crate::specs::Responses::own_fields))]
fn add_own_fields(
    alloc: Global,
    out: &mut List<Line>,
    passed: &[Line],
    named: &[Line],
    body: &[u8],
) -> Result<(), NoMemory>
    ensures { OnOk result (out.new ≡ out.old ++ own_fields passed.now named.now body.now) }
{
    append_lines(alloc, out, passed)?;
    append_lines(alloc, out, named)?;
    add_decimal(alloc, out, b"Content-Length", body.len() as u64)
}

/// Adds the lines that are not the request's.
#[tactic(auto, unfolding(crate::specs::Responses::added_lines))]
fn add_added(
    alloc: Global,
    out: &mut List<Line>,
    code: u16,
    start: &Start,
    lines: &Lines<'_>,
    contact: &[u8],
    passed: &[Line],
    named: &[Line],
    body: &[u8],
) -> Result<(), NoMemory>
    ensures { OnOk result (out.new ≡ out.old ++ added_lines code start.now lines.now.values contact.now passed.now named.now body.now) }
{
    add_routes(alloc, out, code, start, lines)?;
    add_contact(alloc, out, code, start, contact)?;
    add_own_fields(alloc, out, passed, named, body)
}

/// The tag of a response of this code.
fn tag_of_response(code: u16, tag: &[u8]) -> &[u8]
    ensures { result.now ≡ tag_of_response code tag.now }
{
    if code == 100 {
        return b"";
    }
    tag
}

/// The response to a request with this start line and these lines: its Via lines, the first completed where the source is given (RFC 3261 §18.2.1, RFC 3581 §4);
/// From, Call-ID and CSeq as received, and To with the server's tag where it has none (§8.2.6.2);
/// where the response creates a dialog, Record-Route as received and Contact (§12.1.1); and what the reply has.
///
/// # Errors
///
/// Out of memory only.
#[tactic(auto, unfolding(crate::specs::Responses::response))]
pub fn response(
    alloc: Global,
    start: &Start,
    lines: &Lines<'_>,
    reply: &Reply<'_>,
) -> Result<Msg, NoMemory>
    ensures message { IfOk result (λ m. m ≡ response start.now lines.now.values reply.now) }
{
    let mut out = List::with_capacity(alloc, LINES_CAPACITY)?;
    add_copied(
        alloc,
        &mut out,
        reply.source,
        tag_of_response(reply.code, reply.tag),
        lines,
    )?;
    add_added(
        alloc,
        &mut out,
        reply.code,
        start,
        lines,
        reply.contact,
        reply.passed,
        reply.named,
        reply.body,
    )?;
    let phrase = Text::of(alloc, reply.phrase)?;
    let body = Text::of(alloc, reply.body)?;
    Ok(Msg::of(
        Start::Status {
            code: reply.code,
            phrase,
        },
        out,
        body,
    ))
}
