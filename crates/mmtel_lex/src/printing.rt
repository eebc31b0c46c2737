//! URIs and name-addrs as text.
ghost use Rattle.std.specs.Prelude.{◌≡◌, ◌++◌, ◌∷◌, [], List, ℕ, OnErr, OnOk, IfOk, decimal};
ghost use Rattle.mmtel_lex.specs.Grammar.{value_text, param_text, params_text, user_text, headers_text, port_text, uri_text, IsUri, display_text, name_addr_text, IsNameAddr};

use crate::values::{NameAddr, Param, Uri};
use mmtel_base::{NoMemory, Text};
use std::alloc::Global;

fn add_value(alloc: Global, out: &mut Text, value: &Option<Text>) -> Result<(), NoMemory>
    ensures { OnOk result (out.new ≡ out.old ++ value_text value.now) }
{
    match value {
        None => Ok(()),
        Some(value) => {
            out.push(alloc, b"=")?;
            out.push(alloc, value.bytes())
        }
    }
}

fn add_param(alloc: Global, out: &mut Text, param: &Param) -> Result<(), NoMemory>
    ensures { OnOk result (out.new ≡ out.old ++ param_text param.now) }
{
    out.push(alloc, b";")?;
    out.push(alloc, param.name.bytes())?;
    add_value(alloc, out, &param.value)
}

/// The text of parameters, each after its `;`.
fn params_text(alloc: Global, params: &[Param]) -> Result<Text, NoMemory>
    ensures { IfOk result (λ t. t ≡ params_text params.now) }
{
    let mut out = Text::new();
    for param in params {
        add_param(alloc, &mut out, param)?;
    }
    Ok(out)
}

/// Appends the text of parameters, each after its `;`, to the text.
///
/// # Errors
///
/// Out of memory only; the text is then as before.
pub fn add_params(alloc: Global, out: &mut Text, params: &[Param]) -> Result<(), NoMemory>
    ensures text { OnOk result (out.new ≡ out.old ++ params_text params.now) }
    ensures refused { OnErr result (out.new ≡ out.old) }
{
    let text = params_text(alloc, params)?;
    out.push(alloc, text.bytes())
}

fn add_user(alloc: Global, out: &mut Text, user: &Option<Text>) -> Result<(), NoMemory>
    ensures { OnOk result (out.new ≡ out.old ++ user_text user.now) }
{
    match user {
        None => Ok(()),
        Some(user) => {
            out.push(alloc, user.bytes())?;
            out.push(alloc, b"@")
        }
    }
}

fn add_port(alloc: Global, out: &mut Text, port: Option<u16>) -> Result<(), NoMemory>
    ensures { OnOk result (out.new ≡ out.old ++ port_text port) }
{
    match port {
        None => Ok(()),
        Some(port) => {
            let digits = port.to_string(alloc)?;
            out.push(alloc, b":")?;
            out.push(alloc, digits.as_bytes())
        }
    }
}

fn add_headers(alloc: Global, out: &mut Text, headers: &Text) -> Result<(), NoMemory>
    ensures { OnOk result (out.new ≡ out.old ++ headers_text headers.now) }
{
    let bytes = headers.bytes();
    match bytes {
        [] => Ok(()),
        _ => {
            out.push(alloc, b"?")?;
            out.push(alloc, bytes)
        }
    }
}

fn uri_text(alloc: Global, uri: &Uri) -> Result<Text, NoMemory>
    ensures { IfOk result (λ t. t ≡ uri_text uri.now) }
{
    match uri {
        Uri::Sip {
            user,
            host,
            port,
            params,
            headers,
        } => {
            let mut out = Text::of(alloc, b"sip:")?;
            add_user(alloc, &mut out, user)?;
            out.push(alloc, host.bytes())?;
            add_port(alloc, &mut out, *port)?;
            add_params(alloc, &mut out, params.items())?;
            add_headers(alloc, &mut out, headers)?;
            Ok(out)
        }
        Uri::Tel { number, params } => {
            let mut out = Text::of(alloc, b"tel:")?;
            out.push(alloc, number.bytes())?;
            add_params(alloc, &mut out, params.items())?;
            Ok(out)
        }
    }
}

/// The text of a URI: its scheme in lower case, its port without leading zeros, its other parts as they are.
///
/// # Errors
///
/// Out of memory only.
pub fn print_uri(alloc: Global, uri: &Uri) -> Result<Text, NoMemory>
    ensures text { IfOk result (λ t. t ≡ uri_text uri.now) }
    // A URI that some text spells is spelled by this one too.
    ensures reads_back { (s : List ℕ) → IsUri s uri.now → IfOk result (λ t. IsUri t uri.now) }
{
    uri_text(alloc, uri)
}

fn add_display(alloc: Global, out: &mut Text, display: &Text) -> Result<(), NoMemory>
    ensures { OnOk result (out.new ≡ out.old ++ display_text display.now) }
{
    let bytes = display.bytes();
    match bytes {
        [] => Ok(()),
        _ => {
            out.push(alloc, bytes)?;
            out.push(alloc, b" ")
        }
    }
}

fn add_angled(alloc: Global, out: &mut Text, uri: &Text) -> Result<(), NoMemory>
    ensures { OnOk result (out.new ≡ out.old ++ (60 ∷ (uri.now ++ 62 ∷ []))) }
{
    out.push(alloc, b"<")?;
    out.push(alloc, uri.bytes())?;
    out.push(alloc, b">")
}

fn name_addr_text(alloc: Global, name_addr: &NameAddr) -> Result<Text, NoMemory>
    ensures { IfOk result (λ t. t ≡ name_addr_text name_addr.now) }
{
    let mut out = Text::new();
    add_display(alloc, &mut out, &name_addr.display)?;
    add_angled(alloc, &mut out, &name_addr.uri)?;
    add_params(alloc, &mut out, name_addr.params.items())?;
    Ok(out)
}

/// The text of a name-addr: `DISPLAY <URI>` and its parameters, with one blank after the display name, or `<URI>` and its parameters where there is no display name.
///
/// # Errors
///
/// Out of memory only.
pub fn print_name_addr(alloc: Global, name_addr: &NameAddr) -> Result<Text, NoMemory>
    ensures text { IfOk result (λ t. t ≡ name_addr_text name_addr.now) }
    // A name-addr that some text spells is spelled by this one too.
    ensures reads_back { (s : List ℕ) → IsNameAddr s name_addr.now → IfOk result (λ t. IsNameAddr t name_addr.now) }
{
    name_addr_text(alloc, name_addr)
}
