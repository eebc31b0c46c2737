//! The messages of a call, as the parties send them.
ghost use Rattle.std.specs.Prelude.{◌≡◌, ◌<◌, ◌^◌, ◌++◌, decimal, IfOk, OnOk};
ghost use Rattle.mmtel_workload.specs.Messages.{call_lines, callee, from_lines, identifier_text, message_text, reached_party, to_and_call_id_lines, via_and_from_lines};
ghost use Rattle.mmtel_workload.specs.Messages.{request_text, request_uri, response_text, to_line};

use crate::kinds::{CallMessage, Kind};
use mmtel_base::{NoMemory, Text, add_number};
use std::alloc::Global;

/// A call of a workload.
#[derive(Clone, Copy)]
pub struct Call {
    /// Its number, from 1.
    pub number: u32,
    /// Its kind.
    pub kind: Kind,
    /// How many numbers for identifiers the server drew before it.
    pub drawn: u64,
}

/// The Request-URI and To of a request: in the call's dialog (RFC 3261 §12) or outside it, and there with or without the tag of the other side.
#[derive(Clone, Copy, Debug, PartialEq, Eq)]
pub enum RequestScope {
    /// To the callee, outside a dialog.
    Initial,
    /// To the callee, with the tag of the response.
    WithToTag,
    /// To the server, in the dialog.
    InDialog,
}

/// Adds a text and a number after it.
fn add_numbered(alloc: Global, text: &mut Text, front: &[u8], number: u64) -> Result<(), NoMemory>
    ensures added { OnOk result (text.new ≡ text.old ++ front.now ++ decimal number) }
{
    text.push(alloc, front)?;
    add_number(alloc, text, number)
}

impl Call {
    /// The user that alice calls.
    fn callee(self) -> &'static [u8]
        ensures callee { result.now ≡ callee self.kind }
    {
        match self.kind {
            Kind::Diverted => b"sip:carol@home.example",
            Kind::Answered | Kind::Busy | Kind::Cancelled => b"sip:bob@home.example",
        }
    }

    /// The user that she reaches.
    fn reached_party(self) -> &'static [u8]
        ensures reached { result.now ≡ reached_party self.kind }
    {
        match self.kind {
            Kind::Diverted => b"sip:vm@far.example",
            Kind::Answered | Kind::Busy | Kind::Cancelled => b"sip:bob@home.example",
        }
    }

    /// The Request-URI of a request.
    fn request_uri(self, scope: RequestScope) -> &'static [u8]
        ensures uri { result.now ≡ request_uri self scope }
    {
        match scope {
            RequestScope::InDialog => b"sip:127.0.0.1:5060",
            RequestScope::Initial | RequestScope::WithToTag => self.callee(),
        }
    }

    /// Adds a text and the identifier of the call of that number, from 1, as the server draws it.
    fn add_identifier(
        self,
        alloc: Global,
        text: &mut Text,
        front: &[u8],
        number: u8,
    ) -> Result<(), NoMemory>
        requires few { self.drawn < 2 ^ 63 }
        ensures added { OnOk result (text.new ≡ text.old ++ front.now ++ identifier_text self number) }
    {
        text.push(alloc, front)?;
        let number = self.drawn + u64::from(number);
        add_numbered(alloc, text, b"0123456789abcdef-", number)
    }

    /// Adds Via, Max-Forwards and From of a request.
    fn add_from(self, alloc: Global, text: &mut Text, letter: &[u8]) -> Result<(), NoMemory>
        ensures added { OnOk result (text.new ≡ text.old ++ from_lines self letter.now) }
    {
        let number = u64::from(self.number);
        text.push(alloc, b"Via: SIP/2.0/UDP 127.0.0.1:5071;branch=z9hG4bK")?;
        add_numbered(alloc, text, letter, number)?;
        let from = b"\r\nMax-Forwards: 70\r\nFrom: <sip:alice@home.example>;tag=a";
        add_numbered(alloc, text, from, number)?;
        text.push(alloc, b"\r\n")
    }

    /// Adds To of a request.
    fn add_to(self, alloc: Global, text: &mut Text, scope: RequestScope) -> Result<(), NoMemory>
        requires few { self.drawn < 2 ^ 63 }
        ensures added { OnOk result (text.new ≡ text.old ++ to_line self scope) }
    {
        text.push(alloc, b"To: <")?;
        text.push(alloc, self.callee())?;
        match scope {
            RequestScope::Initial => text.push(alloc, b">\r\n"),
            RequestScope::WithToTag | RequestScope::InDialog => {
                self.add_identifier(alloc, text, b">;tag=", 1)?;
                text.push(alloc, b"\r\n")
            }
        }
    }

    /// Adds Call-ID and CSeq of a request.
    fn add_call(
        self,
        alloc: Global,
        text: &mut Text,
        method: &[u8],
        sequence: u8,
    ) -> Result<(), NoMemory>
        ensures added { OnOk result (text.new ≡ text.old ++ call_lines self method.now sequence) }
    {
        add_numbered(alloc, text, b"Call-ID: w", u64::from(self.number))?;
        add_numbered(alloc, text, b"\r\nCSeq: ", u64::from(sequence))?;
        text.push(alloc, b" ")?;
        text.push(alloc, method)?;
        text.push(alloc, b"\r\n")
    }

    /// A request of alice, with header fields of its own.
    fn request(
        self,
        alloc: Global,
        method: &[u8],
        letter: &[u8],
        sequence: u8,
        scope: RequestScope,
        more: &[u8],
    ) -> Result<Text, NoMemory>
        requires few { self.drawn < 2 ^ 63 }
        ensures text { IfOk result (λ text. text ≡ request_text self method.now letter.now sequence scope more.now) }
    {
        let mut text = Text::of(alloc, method)?;
        text.push(alloc, b" ")?;
        text.push(alloc, self.request_uri(scope))?;
        text.push(alloc, b" SIP/2.0\r\n")?;
        self.add_from(alloc, &mut text, letter)?;
        self.add_to(alloc, &mut text, scope)?;
        self.add_call(alloc, &mut text, method, sequence)?;
        text.push(alloc, more)?;
        text.push(alloc, b"Content-Length: 0\r\n\r\n")?;
        Ok(text)
    }

    /// Adds Via and From of a response: those of the request that the server sends.
    fn add_via_and_from(self, alloc: Global, text: &mut Text, branch: u8) -> Result<(), NoMemory>
        requires few { self.drawn < 2 ^ 63 }
        ensures added { OnOk result (text.new ≡ text.old ++ via_and_from_lines self branch) }
    {
        let via = b"Via: SIP/2.0/UDP 127.0.0.1:5060;branch=z9hG4bK";
        self.add_identifier(alloc, text, via, branch)?;
        self.add_identifier(alloc, text, b"\r\nFrom: <sip:alice@home.example>;tag=", 3)?;
        text.push(alloc, b"\r\n")
    }

    /// Adds To and Call-ID of a response.
    fn add_to_and_call_id(self, alloc: Global, text: &mut Text) -> Result<(), NoMemory>
        requires few { self.drawn < 2 ^ 63 }
        ensures added { OnOk result (text.new ≡ text.old ++ to_and_call_id_lines self) }
    {
        text.push(alloc, b"To: <")?;
        text.push(alloc, self.reached_party())?;
        add_numbered(alloc, text, b">;tag=b", u64::from(self.number))?;
        self.add_identifier(alloc, text, b"\r\nCall-ID: ", 2)?;
        text.push(alloc, b"\r\n")
    }

    /// A response of the party that she reaches.
    fn response(
        self,
        alloc: Global,
        status: &[u8],
        branch: u8,
        sequence: &[u8],
    ) -> Result<Text, NoMemory>
        requires few { self.drawn < 2 ^ 63 }
        ensures text { IfOk result (λ text. text ≡ response_text self status.now branch sequence.now) }
    {
        let mut text = Text::of(alloc, b"SIP/2.0 ")?;
        text.push(alloc, status)?;
        text.push(alloc, b"\r\n")?;
        self.add_via_and_from(alloc, &mut text, branch)?;
        self.add_to_and_call_id(alloc, &mut text)?;
        text.push(alloc, b"CSeq: ")?;
        text.push(alloc, sequence)?;
        text.push(
            alloc,
            b"\r\nContact: <sip:target@127.0.0.1:5071>\r\nContent-Length: 0\r\n\r\n",
        )?;
        Ok(text)
    }

    /// The message of an action, which the server receives.
    pub fn message_text(self, alloc: Global, message: CallMessage) -> Result<Text, NoMemory>
        requires few { self.drawn < 2 ^ 63 }
        ensures text { IfOk result (λ text. text ≡ message_text self message) }
    {
        match message {
            CallMessage::Invite => {
                let more =
                    b"Contact: <sip:alice@127.0.0.1:5071>\r\nP-Asserted-Identity: <sip:alice@home.example>\r\n";
                self.request(alloc, b"INVITE", b"i", 1, RequestScope::Initial, more)
            }
            CallMessage::AckOfOk => self.request(
                alloc,
                b"ACK",
                b"k",
                1,
                RequestScope::InDialog,
                b"",
            ),
            CallMessage::Bye => self.request(alloc, b"BYE", b"y", 2, RequestScope::InDialog, b""),
            CallMessage::AckOfRefusal => self.request(
                alloc,
                b"ACK",
                b"i",
                1,
                RequestScope::WithToTag,
                b"",
            ),
            CallMessage::Cancel => self.request(
                alloc,
                b"CANCEL",
                b"i",
                1,
                RequestScope::Initial,
                b"",
            ),
            CallMessage::Ringing => self.response(alloc, b"180 Ringing", 4, b"1 INVITE"),
            CallMessage::OkToInvite => self.response(alloc, b"200 OK", 4, b"1 INVITE"),
            CallMessage::BusyHere => self.response(alloc, b"486 Busy Here", 4, b"1 INVITE"),
            CallMessage::RequestTerminated => self.response(
                alloc,
                b"487 Request Terminated",
                4,
                b"1 INVITE",
            ),
            CallMessage::OkToCancel => self.response(alloc, b"200 OK", 4, b"1 CANCEL"),
            CallMessage::OkToBye => self.response(alloc, b"200 OK", 6, b"2 BYE"),
        }
    }
}
