//! What remains of the URI of a Refer-To as the target of a request (RFC 3261 §19.1.5).
ghost use Rattle.std.specs.Prelude.{◌≡◌, ◌++◌, IfOk, OnOk, filter};
ghost use Rattle.mmtel_participants.specs.Targets.{is_method, is_no_method, target_of};

use mmtel_base::{List, NoMemory, Text};
use mmtel_lex::{Param, Params, Uri};
use std::alloc::Global;

/// Whether the parameter is `method`.
pub fn is_method(param: &Param) -> bool
    ensures named { result ≡ is_method param.now }
{
    param.name.bytes().eq_ignore_ascii_case(b"method")
}

/// The parameters without `method`.
fn without_method(alloc: Global, params: Params) -> Result<Params, NoMemory>
    ensures { IfOk result (λ ps. ps ≡ filter is_no_method params) }
{
    let mut rest = params;
    let mut kept = List::new();
    'params: while let Some(param) = rest.pop_first() {
        if !is_method(&param) {
            kept.push(alloc, param)?;
        }
    }
    Ok(kept)
}

/// What remains of a URI as the target of a request (RFC 3261 §19.1.5).
pub fn target_of(alloc: Global, uri: Uri) -> Result<Uri, NoMemory>
    ensures target { IfOk result (λ u. u ≡ target_of uri) }
{
    match uri {
        Uri::Sip {
            user,
            host,
            port,
            params,
            headers: _,
        } => {
            let params = without_method(alloc, params)?;
            Ok(Uri::Sip {
                user,
                host,
                port,
                params,
                headers: Text::new(),
            })
        }
        Uri::Tel { number, params } => {
            let params = without_method(alloc, params)?;
            Ok(Uri::Tel { number, params })
        }
    }
}
