//! What a message's five fields say of its transaction and its dialog (RFC 3261 §12, §17.1.3, §17.2.3): in place in its lines, and as it is kept with a message that was read.
ghost use Rattle.std.specs.Prelude.{◌≡◌, [], IfOk};
ghost use Rattle.std.specs.Option.{option_copied, unwrap_or};
ghost use Rattle.mmtel_message.specs.Identifiers.{identifiers_in, identifiers_of};

use crate::field_refs::{FiveRef, five_ref};
use crate::held::Lines;
use mmtel_lex::{NoMemory, Text};
use std::alloc::Global;
use std::marker::Model;

/// What the five fields say of a message's transaction and its dialog (RFC 3261 §12, §17.1.3, §17.2.3), borrowed from the message.
#[derive(Drop)]
pub struct Identifiers<'a> {
    /// The branch of the first Via; no bytes where it has none.
    pub branch: &'a [u8],
    /// Host and port of the first Via, as received.
    pub sent_by: &'a [u8],
    /// The tag of From; no bytes where it has none.
    pub from_tag: &'a [u8],
    /// The tag of To; no bytes where it has none.
    pub to_tag: &'a [u8],
    /// The Call-ID.
    pub call_id: &'a [u8],
    /// The number of CSeq.
    pub number: u32,
    /// The method of CSeq.
    pub method: &'a [u8],
}

impl<'a> Model for Identifiers<'a> {
    ghost use Rattle.mmtel_message.specs.Identifiers.{Identifiers};

    ghost Value = { Identifiers };

    ghost view = { λ i. record {
      branch = i.branch.now;
      sent_by = i.sent_by.now;
      from_tag = i.from_tag.now;
      to_tag = i.to_tag.now;
      call_id = i.call_id.now;
      number = i.number;
      method = i.method.now;
    } };
}

/// The value of a parameter, no bytes where there is none.
fn or_empty(value: Option<&[u8]>) -> &[u8]
    ensures { result.now ≡ unwrap_or (option_copied value.entry) [] }
{
    match value {
        None => b"",
        Some(value) => value,
    }
}

/// What these five fields say.
fn identifiers_of<'a>(five: &FiveRef<'a>) -> Identifiers<'a>
    ensures { result ≡ identifiers_of five.now }
{
    Identifiers {
        branch: or_empty(five.via().param(b"branch")),
        sent_by: five.via().sent_by(),
        from_tag: or_empty(five.from().param(b"tag")),
        to_tag: or_empty(five.to().param(b"tag")),
        call_id: five.call_id(),
        number: five.cseq().number(),
        method: five.cseq().method(),
    }
}

/// What the five fields of these lines say; None where one of them cannot be read.
pub(crate) fn identifiers_in<'a>(lines: &Lines<'a>) -> Option<Identifiers<'a>>
    ensures { result ≡ identifiers_in lines.now.values }
{
    let five = five_ref(lines)?;
    Some(identifiers_of(&five))
}

/// The same as a message keeps it.
pub struct OwnedIdentifiers {
    branch: Text,
    sent_by: Text,
    from_tag: Text,
    to_tag: Text,
    call_id: Text,
    number: u32,
    method: Text,
}

impl Drop for OwnedIdentifiers {
    fn drop(self) {
        let OwnedIdentifiers {
            branch: _,
            sent_by: _,
            from_tag: _,
            to_tag: _,
            call_id: _,
            number: _,
            method: _,
        } = self;
    }
}

impl Model for OwnedIdentifiers {
    ghost use Rattle.mmtel_message.specs.Identifiers.{Identifiers};

    ghost Value = { Identifiers };

    ghost view = { λ k. record {
      branch = k.branch;
      sent_by = k.sent_by;
      from_tag = k.from_tag;
      to_tag = k.to_tag;
      call_id = k.call_id;
      number = k.number;
      method = k.method;
    } };
}

impl OwnedIdentifiers {
    /// What these five fields say.
    pub(crate) fn of(alloc: Global, five: &FiveRef<'_>) -> Result<OwnedIdentifiers, NoMemory>
        ensures { IfOk result (λ kept. kept ≡ identifiers_of five.now) }
    {
        let said = identifiers_of(five);
        Ok(OwnedIdentifiers {
            branch: Text::of(alloc, said.branch)?,
            sent_by: Text::of(alloc, said.sent_by)?,
            from_tag: Text::of(alloc, said.from_tag)?,
            to_tag: Text::of(alloc, said.to_tag)?,
            call_id: Text::of(alloc, said.call_id)?,
            number: said.number,
            method: Text::of(alloc, said.method)?,
        })
    }

    /// The kept identifiers.
    pub(crate) fn borrow(&self) -> Identifiers<'_>
        ensures { result ≡ self.now }
    {
        Identifiers {
            branch: self.branch.bytes(),
            sent_by: self.sent_by.bytes(),
            from_tag: self.from_tag.bytes(),
            to_tag: self.to_tag.bytes(),
            call_id: self.call_id.bytes(),
            number: self.number,
            method: self.method.bytes(),
        }
    }
}
