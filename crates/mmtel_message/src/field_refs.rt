//! The five fields that each message has (RFC 3261 §8.1.1), in place in the bytes that they were read from. Reading and lookups allocate nothing.
ghost use Rattle.std.specs.Prelude.{◌≡◌, IfOk};
ghost use Rattle.std.specs.Option.{option_copied};
ghost use Rattle.mmtel_lex.specs.Params.{param_value};
ghost use Rattle.mmtel_message.specs.Fields.{after_blanks, before_rest, cseq_at, first_part, five_at, if_not_empty, via_at, via_by};

use crate::fields::{CSeq, Five, Via};
use crate::five_lines::five_lines;
use crate::held::Lines;
use crate::values::{Mode, next_part};
use mmtel_base::{Class, number_up_to, skip_text, split_run, trim};
use mmtel_lex::params::token_ref;
use mmtel_lex::uris::{host_ref, port_ref};
use mmtel_lex::{NameAddrRef, NoMemory, ParamsRef, Text, name_addr_ref, params_ref};
use std::alloc::Global;
use std::marker::Model;

/// A Via value in place in the bytes (RFC 3261 §20.42); in contracts it is the value.
#[derive(Drop)]
pub struct ViaRef<'a> {
    transport: &'a [u8],
    sent_by: &'a [u8],
    host: &'a [u8],
    port: Option<u16>,
    params: ParamsRef<'a>,
}

impl<'a> Model for ViaRef<'a> {
    ghost use Rattle.mmtel_message.specs.declared.fields.Via.{Via};

    ghost Value = { Via };

    ghost view = { λ v. record { transport = v.transport.now; sent_by = v.sent_by.now; host = v.host.now; port = v.port; params = v.params } };
}

impl<'a> ViaRef<'a> {
    /// Host and port, as received.
    pub fn sent_by(&self) -> &'a [u8]
        ensures { result.now ≡ self.now.sent_by }
    {
        self.sent_by
    }

    /// The value of the first of its parameters of this name, which is compared without case (RFC 3261 §7.3.1); None where there is none of that name, or the first has no
    /// value.
    pub fn param(&self, name: &[u8]) -> Option<&'a [u8]>
        ensures { option_copied result ≡ param_value name.now self.now.params }
    {
        self.params.value(name)
    }

    /// A copy of the value.
    ///
    /// # Errors
    ///
    /// Out of memory only.
    pub fn owned(&self, alloc: Global) -> Result<Via, NoMemory>
        ensures { IfOk result (λ via. via ≡ self.now) }
    {
        let transport = Text::of(alloc, self.transport)?;
        let sent_by = Text::of(alloc, self.sent_by)?;
        let host = Text::of(alloc, self.host)?;
        let params = self.params.owned(alloc)?;
        Ok(Via {
            transport,
            sent_by,
            host,
            port: self.port,
            params,
        })
    }
}

/// A CSeq value in place in the bytes (RFC 3261 §20.16); in contracts it is the value.
#[derive(Drop)]
pub struct CSeqRef<'a> {
    number: u32,
    method: &'a [u8],
}

impl<'a> Model for CSeqRef<'a> {
    ghost use Rattle.mmtel_message.specs.declared.fields.CSeq.{CSeq};

    ghost Value = { CSeq };

    ghost view = { λ c. record { number = c.number; method = c.method.now } };
}

impl<'a> CSeqRef<'a> {
    /// A number below 2^31.
    pub fn number(&self) -> u32
        ensures { result ≡ self.now.number }
    {
        self.number
    }

    /// The method.
    pub fn method(&self) -> &'a [u8]
        ensures { result.now ≡ self.now.method }
    {
        self.method
    }

    /// A copy of the value.
    ///
    /// # Errors
    ///
    /// Out of memory only.
    pub fn owned(&self, alloc: Global) -> Result<CSeq, NoMemory>
        ensures { IfOk result (λ cseq. cseq ≡ self.now) }
    {
        let method = Text::of(alloc, self.method)?;
        Ok(CSeq {
            number: self.number,
            method,
        })
    }
}

/// The five fields that each message has (RFC 3261 §8.1.1), in place in its lines; in contracts they are the fields.
#[derive(Drop)]
pub struct FiveRef<'a> {
    via: ViaRef<'a>,
    from: NameAddrRef<'a>,
    to: NameAddrRef<'a>,
    call_id: &'a [u8],
    cseq: CSeqRef<'a>,
}

impl<'a> Model for FiveRef<'a> {
    ghost use Rattle.mmtel_message.specs.declared.fields.Five.{Five};

    ghost Value = { Five };

    ghost view = { λ f. record { via = f.via; from = f.from; to = f.to; call_id = f.call_id.now; cseq = f.cseq } };
}

impl<'a> FiveRef<'a> {
    /// The first Via value.
    pub fn via(&self) -> &ViaRef<'a>
        ensures { result.now ≡ self.now.via }
    {
        &self.via
    }

    /// From.
    pub fn from(&self) -> &NameAddrRef<'a>
        ensures { result.now ≡ self.now.from }
    {
        &self.from
    }

    /// To.
    pub fn to(&self) -> &NameAddrRef<'a>
        ensures { result.now ≡ self.now.to }
    {
        &self.to
    }

    /// The Call-ID, which is not empty.
    pub fn call_id(&self) -> &'a [u8]
        ensures { result.now ≡ self.now.call_id }
    {
        self.call_id
    }

    /// CSeq.
    pub fn cseq(&self) -> &CSeqRef<'a>
        ensures { result.now ≡ self.now.cseq }
    {
        &self.cseq
    }

    /// A copy of the fields.
    ///
    /// # Errors
    ///
    /// Out of memory only.
    pub fn owned(&self, alloc: Global) -> Result<Five, NoMemory>
        ensures { IfOk result (λ five. five ≡ self.now) }
    {
        let via = self.via.owned(alloc)?;
        let from = self.from.owned(alloc)?;
        let to = self.to.owned(alloc)?;
        let call_id = Text::of(alloc, self.call_id)?;
        let cseq = self.cseq.owned(alloc)?;
        Ok(Five {
            via,
            from,
            to,
            call_id,
            cseq,
        })
    }
}

fn first_value_part(value: &[u8]) -> &[u8]
    ensures { result.now ≡ first_part value.now }
{
    let (part, _) = next_part(Mode::Plain, value);
    trim(Class::Blank, part)
}

/// What follows one blank or more.
fn skip_blanks(bytes: &[u8]) -> Option<&[u8]>
    ensures { option_copied result ≡ after_blanks bytes.now }
{
    let (blanks, rest) = split_run(Class::Blank, bytes);
    if blanks.is_empty() {
        return None;
    }
    Some(rest)
}

/// What comes before this rest.
fn before_rest<'a>(bytes: &'a [u8], rest: &[u8]) -> &'a [u8]
    ensures { result.now ≡ before_rest bytes.now rest.now }
{
    let len = bytes.len().saturating_sub(rest.len());
    &bytes[..len]
}

fn not_empty(bytes: &[u8]) -> Option<&[u8]>
    ensures { option_copied result ≡ if_not_empty bytes.now }
{
    if bytes.is_empty() {
        return None;
    }
    Some(bytes)
}

/// Sent-by and parameters of a Via value of this transport.
fn via_by<'a>(transport: &'a [u8], by: &'a [u8]) -> Option<ViaRef<'a>>
    ensures { result ≡ via_by transport.now by.now }
{
    let (host, rest) = host_ref(by)?;
    let (port, rest) = port_ref(rest)?;
    let sent_by = before_rest(by, rest);
    let (params, rest) = params_ref(rest)?;
    match rest {
        [] => Some(ViaRef {
            transport,
            sent_by,
            host,
            port,
            params,
        }),
        _ => None,
    }
}

/// The Via value that these bytes are (RFC 3261 §20.42); None exactly where they are no such value. It allocates nothing.
#[tactic(auto, unfolding(crate::specs::Fields::via_at))]
pub fn via_ref(bytes: &[u8]) -> Option<ViaRef<'_>>
    ensures exact { result ≡ via_at bytes.now }
{
    let rest = skip_text(b"SIP/2.0/", bytes)?;
    let (transport, rest) = token_ref(rest)?;
    let by = skip_blanks(rest)?;
    via_by(transport, by)
}

/// The CSeq value that these bytes are (RFC 3261 §20.16); None exactly where they are no such value. It allocates nothing.
#[tactic(auto, unfolding(crate::specs::Fields::cseq_at))]
pub fn cseq_ref(bytes: &[u8]) -> Option<CSeqRef<'_>>
    ensures exact { result ≡ cseq_at bytes.now }
{
    let (digits, rest) = split_run(Class::Digit, bytes);
    let number = number_up_to(2147483647, digits)?;
    let rest = skip_blanks(rest)?;
    let (method, rest) = token_ref(rest)?;
    match rest {
        [] => Some(CSeqRef {
            number: number as u32,
            method,
        }),
        _ => None,
    }
}

/// The five fields; None exactly where one of them cannot be read, or where one of them other than Via does not occur exactly once. It allocates nothing.
#[tactic(auto, unfolding(crate::specs::Fields::five_at, crate::specs::Fields::parties_in, crate::specs::Fields::call_in))]
pub fn five_ref<'a>(lines: &Lines<'a>) -> Option<FiveRef<'a>>
    ensures exact { result ≡ five_at lines.now.values }
{
    let found = five_lines(lines);
    let via = via_ref(first_value_part(found.via?))?;
    let from = name_addr_ref(found.from.value()?)?;
    let to = name_addr_ref(found.to.value()?)?;
    let call_id = not_empty(found.call_id.value()?)?;
    let cseq = cseq_ref(found.cseq.value()?)?;
    Some(FiveRef {
        via,
        from,
        to,
        call_id,
        cseq,
    })
}
