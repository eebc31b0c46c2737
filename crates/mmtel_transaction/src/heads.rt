//! What the transactions read of a message.
ghost use Rattle.std.specs.Prelude.{◌≡◌, [], IfOk, None};
ghost use Rattle.std.specs.Option.{option_copied, unwrap_or};
ghost use Rattle.mmtel_transaction.specs.Heads.{code_of, head_by, head_of, head_with, is_ack, is_cancel, is_invite, is_same_call, method_of, recorded_tag, reliable_number};

use mmtel_base::{NoMemory, Text, number_up_to};
use mmtel_message::{Identifiers, Msg, Start, five_ref, is_request};
use mmtel_sip_rules::is_provisional;
use std::alloc::Global;

/// What the transactions read of a message.
pub struct Head {
    pub is_request: bool,
    /// The status; 0 of a request.
    pub status: u16,
    /// The method: of the request, or of the one that a response answers.
    pub method: Text,
    /// The branch of the first Via.
    pub branch: Text,
    /// Host and port of the first Via, as received.
    pub sent_by: Text,
    pub from_tag: Text,
    pub to_tag: Text,
    pub call_id: Text,
    /// The number of CSeq.
    pub number: u32,
}

impl Drop for Head {
    fn drop(self) {
        let Head {
            is_request: _,
            status: _,
            method: _,
            branch: _,
            sent_by: _,
            from_tag: _,
            to_tag: _,
            call_id: _,
            number: _,
        } = self;
    }
}

/// A copy of the value of a parameter, empty where there is none.
fn or_empty(alloc: Global, value: Option<&[u8]>) -> Result<Text, NoMemory>
    ensures { IfOk result (λ text. text ≡ unwrap_or (option_copied value.entry) []) }
{
    match value {
        Some(value) => Text::of(alloc, value),
        None => Ok(Text::new()),
    }
}

/// The status of a start line; 0 of a request.
fn code_of(start: &Start) -> u16
    ensures { result ≡ code_of start.now }
{
    match start {
        Start::Request { .. } => 0,
        Start::Status { code, .. } => *code,
    }
}

/// The method of a request, or the one that a response answers.
fn method_of(alloc: Global, start: &Start, answered: &[u8]) -> Result<Text, NoMemory>
    ensures { IfOk result (λ text. text ≡ method_of start.now answered.now) }
{
    match start {
        Start::Request { method, .. } => Text::of(alloc, method.bytes()),
        Start::Status { .. } => Text::of(alloc, answered),
    }
}

/// What is read of a message without its five fields.
fn head_without(alloc: Global, start: &Start) -> Result<Head, NoMemory>
    ensures { IfOk result (λ head. head ≡ head_with start.now None) }
{
    Ok(Head {
        is_request: is_request(start),
        status: code_of(start),
        method: method_of(alloc, start, b"")?,
        branch: Text::new(),
        sent_by: Text::new(),
        from_tag: Text::new(),
        to_tag: Text::new(),
        call_id: Text::new(),
        number: 0,
    })
}

/// What is read of a message with these five fields.
fn head_by(alloc: Global, start: &Start, identifiers: &Identifiers<'_>) -> Result<Head, NoMemory>
    ensures { IfOk result (λ head. head ≡ head_by start.now identifiers.now) }
{
    Ok(Head {
        is_request: is_request(start),
        status: code_of(start),
        method: method_of(alloc, start, identifiers.method)?,
        branch: Text::of(alloc, identifiers.branch)?,
        sent_by: Text::of(alloc, identifiers.sent_by)?,
        from_tag: Text::of(alloc, identifiers.from_tag)?,
        to_tag: Text::of(alloc, identifiers.to_tag)?,
        call_id: Text::of(alloc, identifiers.call_id)?,
        number: identifiers.number,
    })
}

/// The To tag of a response.
#[tactic(auto, unfolding(crate::specs::Heads::head_of))]
fn to_tag(alloc: Global, message: &Msg) -> Result<Text, NoMemory>
    ensures { IfOk result (λ tag. tag ≡ (head_of message.now).to_tag) }
{
    match five_ref(&message.lines()) {
        None => Ok(Text::new()),
        Some(five) => or_empty(alloc, five.to().param(b"tag")),
    }
}

/// The status of a response and the To tag that it leaves in its transaction, and nothing else of its head. The fields of a provisional response, which leaves none, are not read.
///
/// # Errors
///
/// Out of memory only.
#[tactic(auto, using(crate::proofs::Identified::status_is))]
pub fn status_and_tag(alloc: Global, message: &Msg) -> Result<(u16, Text), NoMemory>
    ensures { IfOk result (λ said. said ≡ ((head_of message.now).status, recorded_tag message.now)) }
{
    let status = code_of(message.start());
    if is_provisional(status) {
        return Ok((status, Text::new()));
    }
    Ok((status, to_tag(alloc, message)?))
}

/// The greatest number of a reliable response (RFC 3262 §7.1).
const GREATEST_NUMBER: u64 = 2_147_483_647;

/// The number of a reliable provisional response, by its first RSeq line (RFC 3262 §7.1); None of any other message. It allocates nothing.
#[tactic(auto, unfolding(crate::specs::Heads::reliable_number))]
pub fn reliable_number(message: &Msg) -> Option<u32>
    ensures { result ≡ reliable_number message.now }
{
    let code = code_of(message.start());
    if code < 101 || code >= 200 {
        return None;
    }
    match message.first(b"RSeq") {
        None => None,
        Some(value) => match number_up_to(GREATEST_NUMBER, value) {
            None => None,
            Some(number) => Some(number as u32),
        },
    }
}

impl Head {
    /// What is read of a message.
    ///
    /// # Errors
    ///
    /// Out of memory only.
    #[tactic(auto, using(crate::proofs::Identified::head_known, crate::proofs::Identified::head_unknown), unfolding(crate::specs::Heads::head_of))]
    pub fn of(alloc: Global, message: &Msg) -> Result<Head, NoMemory>
        ensures { IfOk result (λ head. head ≡ head_of message.now) }
    {
        match message.identifiers() {
            None => head_without(alloc, message.start()),
            Some(identifiers) => head_by(alloc, message.start(), &identifiers),
        }
    }

    /// Whether the method is INVITE.
    pub fn is_invite(&self) -> bool
        ensures { result ≡ is_invite self.now }
    {
        self.method.bytes() == b"INVITE".as_slice()
    }

    /// Whether the method is ACK.
    pub fn is_ack(&self) -> bool
        ensures { result ≡ is_ack self.now }
    {
        self.method.bytes() == b"ACK".as_slice()
    }

    /// Whether the method is CANCEL.
    pub fn is_cancel(&self) -> bool
        ensures { result ≡ is_cancel self.now }
    {
        self.method.bytes() == b"CANCEL".as_slice()
    }

    /// Whether Call-ID, From tag and number of CSeq are equal.
    pub fn is_same_call(&self, other: &Head) -> bool
        ensures { result ≡ is_same_call self.now other.now }
    {
        self.call_id.bytes() == other.call_id.bytes()
            && self.from_tag.bytes() == other.from_tag.bytes()
            && self.number == other.number
    }
}
