//! Parameters in place in the bytes that they were read from (RFC 3261 §25.1). Reading and searching allocate nothing.
ghost use Rattle.std.specs.Prelude.{◌≡◌, ◌≤◌, length, is_some, true, IfOk, IfSome};
ghost use Rattle.std.specs.Option.{option_copied, option_map};
ghost use Rattle.std.specs.Str.{str_eq_ignore_ascii_case};
ghost use Rattle.mmtel_lex.specs.Borrowed.{params_in};
ghost use Rattle.mmtel_lex.specs.Params.{first_param, has_param, param_value};
ghost use Rattle.mmtel_lex.specs.Reading.{value_at, param_at, all_params_at};

use crate::faults::LexFault;
use crate::params::{params_prefix, text_ref, token_ref};
use crate::values::{Param, Params};
use mmtel_base::{NoMemory, Text, skip_byte};
use std::alloc::Global;
use std::marker::Model;

/// A parameter in place in the bytes; in contracts it is the parameter.
#[derive(Drop)]
pub(crate) struct ParamRef<'a> {
    name: &'a [u8],
    value: Option<&'a [u8]>,
}

impl<'a> Model for ParamRef<'a> {
    ghost use Rattle.std.specs.Option.{option_copied};
    ghost use Rattle.mmtel_lex.specs.declared.values.Param.{Param};

    ghost Value = { Param };

    ghost view = { λ p. record { name = p.name.now; value = option_copied p.value } };
}

/// Parameters in place in the bytes; in contracts they are the list of the parameters.
#[derive(Drop)]
pub struct ParamsRef<'a> {
    /// The bytes, which begin with the parameters, each after its `;`.
    bytes: &'a [u8],
}

impl<'a> Model for ParamsRef<'a> {
    ghost use Rattle.std.specs.Prelude.{List, ◌≡◌, is_some, true};
    ghost use Rattle.mmtel_lex.specs.declared.values.Param.{Param};
    ghost use Rattle.mmtel_lex.specs.Borrowed.{params_in};
    ghost use Rattle.mmtel_lex.specs.Reading.{all_params_at};

    ghost Value = { List Param };

    ghost view = { λ p. params_in p.bytes.now };

    ghost invariant = { λ p. is_some (all_params_at p.bytes.now) ≡ true };
}

/// A copy of the bytes, where there are bytes.
pub(crate) fn owned_text(alloc: Global, bytes: Option<&[u8]>) -> Result<Option<Text>, NoMemory>
    ensures { IfOk result (λ text. text ≡ option_copied bytes.entry) }
{
    match bytes {
        None => Ok(None),
        Some(bytes) => Ok(Some(Text::of(alloc, bytes)?)),
    }
}

impl<'a> ParamRef<'a> {
    fn is_named(&self, name: &[u8]) -> bool
        ensures { result ≡ str_eq_ignore_ascii_case self.now.name name.now }
    {
        self.name.eq_ignore_ascii_case(name)
    }

    fn value(&self) -> Option<&'a [u8]>
        ensures { option_copied result ≡ self.now.value }
    {
        self.value
    }

    /// A copy of the parameter.
    pub(crate) fn owned(&self, alloc: Global) -> Result<Param, NoMemory>
        ensures { IfOk result (λ p. p ≡ self.now) }
    {
        let name = Text::of(alloc, self.name)?;
        let value = owned_text(alloc, self.value)?;
        Ok(Param { name, value })
    }
}

impl<'a> ParamsRef<'a> {
    /// The value of the first parameter of the name, which is compared without case (RFC 3261 §7.3.1); None where there is none of that name, or the first has no value.
    /// It allocates nothing.
    #[tactic(auto, using(crate::proofs::ParamsSeek::none_valued, crate::proofs::ParamsSeek::one_valued))]
    pub fn value(&self, name: &[u8]) -> Option<&'a [u8]>
        ensures { option_copied result ≡ param_value name.now self.now }
    {
        first_in(self.bytes, name)?.value()
    }

    /// Whether there is a parameter of the name, which is compared without case (RFC 3261 §7.3.1), with a value or without. It allocates nothing.
    pub fn has(&self, name: &[u8]) -> bool
        ensures { result ≡ has_param name.now self.now }
    {
        first_in(self.bytes, name).is_some()
    }

    /// A copy of the parameters.
    ///
    /// # Errors
    ///
    /// Out of memory only.
    pub fn owned(&self, alloc: Global) -> Result<Params, NoMemory>
        ensures { IfOk result (λ params. params ≡ self.now) }
    {
        copied(alloc, self.bytes)
    }
}

/// A copy of the parameters at the start.
fn copied(alloc: Global, bytes: &[u8]) -> Result<Params, NoMemory>
    requires { is_some (all_params_at bytes.now) ≡ true }
    ensures { IfOk result (λ params. params ≡ params_in bytes.now) }
{
    match params_prefix(alloc, bytes) {
        Ok((params, _)) => Ok(params),
        Err(LexFault::NoMemory) => Err(NoMemory),
        Err(LexFault::Malformed) => unreachable!(),
    }
}

/// The value after a `=`, where one comes.
#[tactic(auto, unfolding(crate::specs::Reading::value_at))]
fn value_ref(bytes: &[u8]) -> Option<(Option<&[u8]>, &[u8])>
    ensures exact { option_map (λ x. (option_copied x.0, x.1.now)) result ≡ value_at bytes.now }
    ensures shorter { IfSome result (λ x. length x.1.now ≤ length bytes.now) }
{
    match skip_byte(b'=', bytes) {
        None => Some((None, bytes)),
        Some(tail) => {
            let (value, rest) = text_ref(tail)?;
            Some((Some(value), rest))
        }
    }
}

/// A parameter, whose `;` came before, and what follows it.
#[tactic(auto, unfolding(crate::specs::Reading::param_at))]
pub(crate) fn param_ref(bytes: &[u8]) -> Option<(ParamRef<'_>, &[u8])>
    ensures exact { option_map (λ x. (x.0, x.1.now)) result ≡ param_at bytes.now }
    ensures shorter { IfSome result (λ x. length x.1.now ≤ length bytes.now) }
{
    let (name, rest) = token_ref(bytes)?;
    let (value, rest) = value_ref(rest)?;
    Some((ParamRef { name, value }, rest))
}

/// The parameters at the start, each after its `;`, and what follows them; None exactly where a `;` comes that no parameter follows. It allocates nothing.
pub fn params_ref(bytes: &[u8]) -> Option<(ParamsRef<'_>, &[u8])>
    ensures exact { option_map (λ x. (x.0, x.1.now)) result ≡ all_params_at bytes.now }
{
    let rest = after_params(bytes)?;
    Some((ParamsRef { bytes }, rest))
}

/// What follows the parameters at the start.
fn after_params(bytes: &[u8]) -> Option<&[u8]>
    ensures { option_copied result ≡ option_map (λ x. x.1) (all_params_at bytes.now) }
{
    let mut rest = bytes;
    'params: while let Some(tail) = skip_byte(b';', rest) {
        let (_, after) = param_ref(tail)?;
        rest = after;
    }
    Some(rest)
}

/// The first parameter of the name among those at the start.
fn first_in<'a>(bytes: &'a [u8], name: &[u8]) -> Option<ParamRef<'a>>
    requires { is_some (all_params_at bytes.now) ≡ true }
    ensures { result ≡ first_param name.now (params_in bytes.now) }
{
    let mut rest = bytes;
    'params: while let Some(tail) = skip_byte(b';', rest) {
        let (param, after) = param_ref(tail)?;
        if param.is_named(name) {
            return Some(param);
        }
        rest = after;
    }
    None
}
