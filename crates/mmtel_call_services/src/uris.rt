//! Copies of URIs.
ghost use Rattle.std.specs.Prelude.{◌≡◌, IfOk};

use mmtel_base::{List, NoMemory, Text};
use mmtel_lex::{Param, Params, Uri};
use mmtel_output::push_item;
use std::alloc::Global;

/// A copy of the text, if there is one.
fn text_copied(alloc: Global, text: &Option<Text>) -> Result<Option<Text>, NoMemory>
    ensures { IfOk result (λ copy. copy ≡ text.now) }
{
    match text {
        None => Ok(None),
        Some(text) => Ok(Some(text.copied(alloc)?)),
    }
}

fn param_copied(alloc: Global, param: &Param) -> Result<Param, NoMemory>
    ensures { IfOk result (λ copy. copy ≡ param.now) }
{
    let name = param.name.copied(alloc)?;
    match text_copied(alloc, &param.value) {
        Ok(value) => Ok(Param { name, value }),
        Err(error) => {
            drop(name);
            Err(error)
        }
    }
}

fn params_copied(alloc: Global, params: &[Param]) -> Result<Params, NoMemory>
    ensures { IfOk result (λ copy. copy ≡ params.now) }
{
    let mut copy = List::new();
    for param in params {
        match param_copied(alloc, param) {
            Err(error) => {
                drop(copy);
                return Err(error);
            }
            Ok(param) => match push_item(alloc, &mut copy, param) {
                Ok(()) => {}
                Err(error) => {
                    drop(copy);
                    return Err(error);
                }
            },
        }
    }
    Ok(copy)
}

/// A copy of the URI.
///
/// # Errors
///
/// Out of memory only.
pub fn uri_copied(alloc: Global, uri: &Uri) -> Result<Uri, NoMemory>
    ensures { IfOk result (λ copy. copy ≡ uri.now) }
{
    match uri {
        Uri::Sip {
            user,
            host,
            port,
            params,
            headers,
        } => {
            let user = text_copied(alloc, user)?;
            let host = match host.copied(alloc) {
                Ok(host) => host,
                Err(error) => {
                    drop(user);
                    return Err(error);
                }
            };
            let params = match params_copied(alloc, params.items()) {
                Ok(params) => params,
                Err(error) => {
                    drop(user);
                    drop(host);
                    return Err(error);
                }
            };
            let headers = match headers.copied(alloc) {
                Ok(headers) => headers,
                Err(error) => {
                    drop(user);
                    drop(host);
                    drop(params);
                    return Err(error);
                }
            };
            Ok(Uri::Sip {
                user,
                host,
                port: *port,
                params,
                headers,
            })
        }
        Uri::Tel { number, params } => {
            let number = number.copied(alloc)?;
            match params_copied(alloc, params.items()) {
                Ok(params) => Ok(Uri::Tel { number, params }),
                Err(error) => {
                    drop(number);
                    Err(error)
                }
            }
        }
    }
}
