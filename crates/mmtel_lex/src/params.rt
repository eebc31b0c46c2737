//! Parameters and their parts (RFC 3261 §25.1).
ghost use Rattle.std.specs.Prelude.{◌≡◌, ◌≤◌, ◌⊎◌, ℕ, List, length, IfOk, IfSome, Err};
ghost use Rattle.std.specs.Option.{option_copied, option_map};
ghost use Rattle.std.specs.Str.{str_eq_ignore_ascii_case};
ghost use Rattle.mmtel_lex.specs.Reading.{IsResult, token_at, text_at, param_at, all_params_at, params_of};
ghost use Rattle.mmtel_lex.specs.Grammar.{IsParams};
ghost use Rattle.mmtel_lex.specs.Params.{param_value};
ghost use Rattle.mmtel_lex.specs.Outcome.{IsReadUnlessOutOfMemory, IsMalformed};

use crate::faults::LexFault;
use crate::param_refs::param_ref;
use crate::values::{Param, Params};
use mmtel_base::{Class, List, Text, closing_quote, skip_byte, split_run};
use std::alloc::Global;

/// A token at the start, and what follows it (RFC 3261 §25.1); None exactly where no byte of a token comes first. It allocates nothing.
#[tactic(auto, unfolding(crate::specs::Reading::token_at))]
pub fn token_ref(bytes: &[u8]) -> Option<(&[u8], &[u8])>
    ensures exact { option_map (λ x. (x.0.now, x.1.now)) result ≡ token_at bytes.now }
    ensures shorter { IfSome result (λ x. length x.1.now ≤ length bytes.now) }
{
    let (front, rest) = split_run(Class::Token, bytes);
    if front.is_empty() {
        return None;
    }
    Some((front, rest))
}

/// A token at the start, copied, and what follows it (RFC 3261 §25.1).
///
/// # Errors
///
/// `Malformed` exactly where no byte of a token comes first.
pub fn token(alloc: Global, bytes: &[u8]) -> Result<(Text, &[u8]), LexFault>
    ensures exact { IsResult (λ x. (x.0, x.1.now)) result (token_at bytes.now) }
    ensures shorter { IfOk result (λ x. length x.1.now ≤ length bytes.now) }
{
    match token_ref(bytes) {
        None => Err(LexFault::Malformed),
        Some((token, rest)) => Ok((Text::of(alloc, token)?, rest)),
    }
}

/// A quoted string, its quotes included, or a token at the start, and what follows it (RFC 3261 §25.1); None exactly where neither comes first. It allocates nothing.
#[tactic(auto, unfolding(crate::specs::Reading::text_at))]
pub fn text_ref(bytes: &[u8]) -> Option<(&[u8], &[u8])>
    ensures exact { option_map (λ x. (x.0.now, x.1.now)) result ≡ text_at bytes.now }
    ensures shorter { IfSome result (λ x. length x.1.now ≤ length bytes.now) }
{
    match skip_byte(b'"', bytes) {
        None => token_ref(bytes),
        Some(tail) => match closing_quote(tail) {
            None => None,
            Some(at) => Some(bytes.split_at(at + 2)),
        },
    }
}

/// A quoted string, its quotes included, or a token at the start, copied, and what follows it (RFC 3261 §25.1).
///
/// # Errors
///
/// `Malformed` exactly where neither comes first; a quote that no other closes is no quoted string.
pub fn text(alloc: Global, bytes: &[u8]) -> Result<(Text, &[u8]), LexFault>
    ensures exact { IsResult (λ x. (x.0, x.1.now)) result (text_at bytes.now) }
    ensures shorter { IfOk result (λ x. length x.1.now ≤ length bytes.now) }
{
    match text_ref(bytes) {
        None => Err(LexFault::Malformed),
        Some((text, rest)) => Ok((Text::of(alloc, text)?, rest)),
    }
}

/// A parameter, whose `;` came before, copied, and what follows it.
fn param(alloc: Global, bytes: &[u8]) -> Result<(Param, &[u8]), LexFault>
    ensures exact { IsResult (λ x. (x.0, x.1.now)) result (param_at bytes.now) }
    ensures shorter { IfOk result (λ x. length x.1.now ≤ length bytes.now) }
{
    match param_ref(bytes) {
        None => Err(LexFault::Malformed),
        Some((param, rest)) => Ok((param.owned(alloc)?, rest)),
    }
}

/// The parameters at the start, copied, and what follows them.
///
/// # Errors
///
/// `Malformed` exactly where a `;` comes that no parameter follows.
pub fn params_prefix(alloc: Global, bytes: &[u8]) -> Result<(Params, &[u8]), LexFault>
    ensures exact { IsResult (λ x. (x.0, x.1.now)) result (all_params_at bytes.now) }
{
    let mut params = List::new();
    let mut rest = bytes;
    'params: while let Some(tail) = skip_byte(b';', rest) {
        let (param, after) = param(alloc, tail)?;
        params.push(alloc, param)?;
        rest = after;
    }
    Ok((params, rest))
}

fn is_named(param: &Param, name: &[u8]) -> bool
    ensures { result ≡ str_eq_ignore_ascii_case param.now.name name.now }
{
    param.name.bytes().eq_ignore_ascii_case(name)
}

fn value_bytes(value: &Option<Text>) -> Option<&[u8]>
    ensures { option_copied result ≡ value.now }
{
    match value {
        Some(value) => Some(value.bytes()),
        None => None,
    }
}

/// The value of the first parameter of the name, which is compared without case (RFC 3261 §7.3.1); None where there is none of that name, or the first has no value. It
/// allocates nothing.
pub fn param_value<'a>(params: &'a [Param], name: &[u8]) -> Option<&'a [u8]>
    ensures { option_copied result ≡ param_value name.now params.now }
{
    for param in params {
        if is_named(param, name) {
            return value_bytes(&param.value);
        }
    }
    None
}

/// All of the bytes as parameters.
#[tactic(auto, unfolding(crate::specs::Reading::params_of))]
fn all_params(alloc: Global, bytes: &[u8]) -> Result<Params, LexFault>
    ensures exact { IsResult (λ x. x) result (params_of bytes.now) }
{
    let (params, rest) = params_prefix(alloc, bytes)?;
    if rest.is_empty() {
        Ok(params)
    } else {
        Err(LexFault::Malformed)
    }
}

/// Reads parameters, each after its `;` (RFC 3261 §25.1: generic-param); all of the bytes are read.
///
/// # Errors
///
/// `Malformed` exactly where the bytes are not of the grammar. `NoMemory` where memory ran out.
pub fn read_params(alloc: Global, bytes: &[u8]) -> Result<Params, LexFault>
    // The result is that of the total reading function.
    ensures exact { IsResult (λ x. x) result (params_of bytes.now) }
    // What is read is what the bytes spell.
    ensures found { IfOk result (λ ps. IsParams bytes.now ps) }
    // What the bytes spell is read.
    ensures only { (ps : List Param) → IsParams bytes.now ps → IsReadUnlessOutOfMemory result ps }
    // The bytes are malformed exactly where they spell none.
    ensures malformed { IsMalformed result → (ps : List Param) → IsParams bytes.now ps → ⊥ }
    ensures refused { ((ps : List Param) → IsParams bytes.now ps → ⊥) → IsMalformed result ⊎ (result ≡ Err LexFault.NoMemory) }
{
    all_params(alloc, bytes)
}
