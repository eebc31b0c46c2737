//! What a server writes into the first Via of a request to which it responds (RFC 3261 §18.2.1, RFC 3581 §4).
ghost use Rattle.std.specs.Prelude.{◌≡◌, ◌&&◌, ◌++◌, not, IfOk, OnOk, codes};
ghost use Rattle.std.specs.List.{flat_map, list_any};
ghost use Rattle.std.specs.Str.{str_eq_ignore_ascii_case};
ghost use Rattle.mmtel_message.specs.Vias.{asks_port, completed_value, is_from, is_received, sourced_param_text, sourced_text, sourced_via, via_value};

use crate::addresses::ip_text;
use crate::fields::{Via, read_via};
use mmtel_base::{NoMemory, Text, add_number};
use mmtel_lex::{LexFault, Param};
use mmtel_types::Addr;
use std::alloc::Global;

fn is_rport(param: &Param) -> bool
    ensures { result ≡ str_eq_ignore_ascii_case param.now.name (codes "rport") }
{
    param.name.bytes().eq_ignore_ascii_case(b"rport")
}

fn asks_port(param: &Param) -> bool
    ensures { result ≡ asks_port param.now }
{
    is_rport(param) && param.value.is_none()
}

fn is_received(param: &Param) -> bool
    ensures { result ≡ is_received param.now }
{
    param.name.bytes().eq_ignore_ascii_case(b"received")
}

/// Writes a parameter, with the port where it is an empty `rport`.
fn add_param(alloc: Global, out: &mut Text, port: u16, param: &Param) -> Result<(), NoMemory>
    ensures { OnOk result (out.new ≡ out.old ++ sourced_param_text port param.now) }
{
    if is_received(param) {
        return Ok(());
    }
    out.push(alloc, b";")?;
    out.push(alloc, param.name.bytes())?;
    match &param.value {
        Some(value) => {
            out.push(alloc, b"=")?;
            out.push(alloc, value.bytes())?;
        }
        None => {
            if is_rport(param) {
                out.push(alloc, b"=")?;
                add_number(alloc, out, u64::from(port))?;
            }
        }
    }
    Ok(())
}

fn add_params(alloc: Global, out: &mut Text, port: u16, params: &[Param]) -> Result<(), NoMemory>
    ensures { OnOk result (out.new ≡ out.old ++ flat_map (sourced_param_text port) params.now) }
{
    for param in params {
        add_param(alloc, out, port, param)?;
    }
    Ok(())
}

fn sourced_text(alloc: Global, source: Addr, via: &Via) -> Result<Text, NoMemory>
    ensures { IfOk result (λ t. t ≡ sourced_text source via.now) }
{
    let ip = ip_text(alloc, source.ip)?;
    let mut out = Text::of(alloc, b"SIP/2.0/")?;
    out.push(alloc, via.transport.bytes())?;
    out.push(alloc, b" ")?;
    out.push(alloc, via.sent_by.bytes())?;
    add_params(alloc, &mut out, source.port, via.params.items())?;
    out.push(alloc, b";received=")?;
    out.push(alloc, ip.bytes())?;
    Ok(out)
}

/// The Via with the port in each empty `rport`, and last the address.
fn sourced_via(alloc: Global, source: Addr, via: &Via) -> Result<Text, NoMemory>
    ensures { IfOk result (λ t. t ≡ via_value (sourced_via source via.now)) }
{
    sourced_text(alloc, source, via)
}

fn asks_any(params: &[Param]) -> bool
    ensures { result ≡ list_any asks_port params.now }
{
    params.iter().any(|param| asks_port(param))
}

/// Whether the Via has the source address of the request, and no empty `rport`.
fn is_from(alloc: Global, source: Addr, via: &Via) -> Result<bool, NoMemory>
    ensures { IfOk result (λ b. b ≡ is_from source via.now) }
{
    let ip = ip_text(alloc, source.ip)?;
    Ok(via.host.bytes() == ip.bytes() && !asks_any(via.params.items()))
}

/// A Via value with the address and the port that the request came from, where its host is another or where it asks for them (RFC 3261 §18.2.1, RFC 3581 §4):
/// each empty `rport` is filled, a `received` that was there is removed, and one is added last. Bytes that are no Via value stay as they are.
///
/// # Errors
///
/// Out of memory only.
#[tactic(auto, unfolding(crate::specs::Vias::completed_value))]
pub fn completed_value(alloc: Global, source: Addr, value: &[u8]) -> Result<Text, NoMemory>
    ensures value { IfOk result (λ t. t ≡ completed_value source value.now) }
{
    match read_via(alloc, value) {
        Ok(via) => {
            if is_from(alloc, source, &via)? {
                Text::of(alloc, value)
            } else {
                sourced_via(alloc, source, &via)
            }
        }
        Err(LexFault::Malformed) => Text::of(alloc, value),
        Err(LexFault::NoMemory) => Err(NoMemory),
    }
}
