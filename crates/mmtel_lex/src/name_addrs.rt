//! Name-addrs: a display name and a URI (RFC 3261 §20.10).
ghost use Rattle.std.specs.Prelude.{IfOk, Err, ◌≡◌, ◌⊎◌};
ghost use Rattle.std.specs.Option.{option_copied};
ghost use Rattle.mmtel_lex.specs.Grammar.{IsNameAddr};
ghost use Rattle.mmtel_lex.specs.Outcome.{IsReadUnlessOutOfMemory, IsMalformed};
ghost use Rattle.mmtel_lex.specs.Params.{param_value};
ghost use Rattle.mmtel_lex.specs.Reading.{IsResult, angle_of, bare_of, words_of, quoted_of, name_addr_of};

use crate::faults::LexFault;
use crate::param_refs::{ParamsRef, params_ref};
use crate::params::text_ref;
use crate::values::NameAddr;
use mmtel_base::{Class, NoMemory, Text, skip_byte, split_run, trim_end};
use std::alloc::Global;
use std::marker::Model;

/// A name-addr in place in the bytes (RFC 3261 §20.10); in contracts it is the name-addr.
#[derive(Drop)]
pub struct NameAddrRef<'a> {
    /// The display name as it was written, quotes included; no bytes where there is none.
    pub display: &'a [u8],
    /// The bytes of the URI, whatever its scheme.
    pub uri: &'a [u8],
    /// The parameters of the header field that it is in.
    pub params: ParamsRef<'a>,
}

impl<'a> Model for NameAddrRef<'a> {
    ghost use Rattle.mmtel_lex.specs.declared.values.NameAddr.{NameAddr};

    ghost Value = { NameAddr };

    ghost view = { λ n. record { display = n.display.now; uri = n.uri.now; params = n.params } };
}

impl<'a> NameAddrRef<'a> {
    /// The value of the first of its parameters of this name, which is compared without case (RFC 3261 §7.3.1); None where there is none of that name, or the first has no
    /// value. It allocates nothing.
    pub fn param(&self, name: &[u8]) -> Option<&'a [u8]>
        ensures { option_copied result ≡ param_value name.now self.now.params }
    {
        self.params.value(name)
    }

    /// A copy of the name-addr.
    ///
    /// # Errors
    ///
    /// Out of memory only.
    pub fn owned(&self, alloc: Global) -> Result<NameAddr, NoMemory>
        ensures { IfOk result (λ name_addr. name_addr ≡ self.now) }
    {
        let display = Text::of(alloc, self.display)?;
        let uri = Text::of(alloc, self.uri)?;
        let params = self.params.owned(alloc)?;
        Ok(NameAddr {
            display,
            uri,
            params,
        })
    }
}

/// What follows a `<`: the URI, `>` and parameters.
#[tactic(auto, unfolding(crate::specs::Reading::angle_of))]
fn angle_ref<'a>(display: &'a [u8], bytes: &'a [u8]) -> Option<NameAddrRef<'a>>
    ensures { result ≡ angle_of display.now bytes.now }
{
    let (uri, rest) = split_run(Class::UriByte, bytes);
    if uri.is_empty() {
        return None;
    }
    let tail = skip_byte(b'>', rest)?;
    let (params, rest) = params_ref(tail)?;
    if rest.is_empty() {
        Some(NameAddrRef {
            display,
            uri,
            params,
        })
    } else {
        None
    }
}

/// A URI without brackets, and parameters.
#[tactic(auto, unfolding(crate::specs::Reading::bare_of))]
fn bare_ref(bytes: &[u8]) -> Option<NameAddrRef<'_>>
    ensures { result ≡ bare_of bytes.now }
{
    let (uri, rest) = split_run(Class::BareByte, bytes);
    if uri.is_empty() {
        return None;
    }
    let (params, rest) = params_ref(rest)?;
    if rest.is_empty() {
        Some(NameAddrRef {
            display: &[],
            uri,
            params,
        })
    } else {
        None
    }
}

/// A display name of words or none and a URI in brackets, or a bare URI.
#[tactic(auto, unfolding(crate::specs::Reading::words_of))]
fn words_ref(bytes: &[u8]) -> Option<NameAddrRef<'_>>
    ensures { result ≡ words_of bytes.now }
{
    let (front, rest) = split_run(Class::Display, bytes);
    match skip_byte(b'<', rest) {
        None => bare_ref(bytes),
        Some(tail) => {
            let (blanks, _) = split_run(Class::Blank, bytes);
            if !blanks.is_empty() {
                return None;
            }
            angle_ref(trim_end(Class::Blank, front), tail)
        }
    }
}

/// A display name in quotes and a URI in brackets.
#[tactic(auto, unfolding(crate::specs::Reading::quoted_of))]
fn quoted_ref(bytes: &[u8]) -> Option<NameAddrRef<'_>>
    ensures { result ≡ quoted_of bytes.now }
{
    let (display, rest) = text_ref(bytes)?;
    let (_, rest) = split_run(Class::Blank, rest);
    let tail = skip_byte(b'<', rest)?;
    angle_ref(display, tail)
}

/// The name-addr that these bytes are, in place; all of the bytes are read (RFC 3261 §20.10). None exactly where they are not of the grammar. It allocates nothing.
///
/// It is a display name or none, `<`, a URI of any scheme, `>` and parameters, or a bare URI without `,`, `;` and `?` and parameters.
#[tactic(auto, unfolding(crate::specs::Reading::name_addr_of))]
pub fn name_addr_ref(bytes: &[u8]) -> Option<NameAddrRef<'_>>
    ensures exact { result ≡ name_addr_of bytes.now }
{
    match skip_byte(b'"', bytes) {
        None => words_ref(bytes),
        Some(_) => quoted_ref(bytes),
    }
}

fn name_addr(alloc: Global, bytes: &[u8]) -> Result<NameAddr, LexFault>
    ensures { IsResult (λ x. x) result (name_addr_of bytes.now) }
{
    match name_addr_ref(bytes) {
        None => Err(LexFault::Malformed),
        Some(read) => Ok(read.owned(alloc)?),
    }
}

/// Reads a name-addr (RFC 3261 §20.10): a display name or none, `<`, a URI of any scheme, `>` and parameters, or a bare URI without `,`, `;` and `?` and parameters; all of
/// the bytes are read.
///
/// The display name keeps its bytes, quotes included, and the URI keeps its own.
///
/// # Errors
///
/// `Malformed` exactly where the bytes are not of the grammar. `NoMemory` where memory ran out.
pub fn read_name_addr(alloc: Global, bytes: &[u8]) -> Result<NameAddr, LexFault>
    // The result is that of the total reading function.
    ensures exact { IsResult (λ x. x) result (name_addr_of bytes.now) }
    // What is read is what the bytes spell.
    ensures found { IfOk result (λ n. IsNameAddr bytes.now n) }
    // What the bytes spell is read.
    ensures only { (n : NameAddr) → IsNameAddr bytes.now n → IsReadUnlessOutOfMemory result n }
    // The bytes are malformed exactly where they spell none.
    ensures malformed { IsMalformed result → (n : NameAddr) → IsNameAddr bytes.now n → ⊥ }
    ensures refused { ((n : NameAddr) → IsNameAddr bytes.now n → ⊥) → IsMalformed result ⊎ (result ≡ Err LexFault.NoMemory) }
{
    name_addr(alloc, bytes)
}
