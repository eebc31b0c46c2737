//! The resource and the method of a request.
ghost use Rattle.std.specs.Prelude.{◌≡◌, IfOk, codes};
ghost use Rattle.mmtel_base.specs.Scanning.{after_text};
ghost use Rattle.mmtel_http.specs.Resources.{account_of, is_decimal, sheet_resource, mailbox_resource, path_resource, resource_of, method_of, route_of};

use crate::routes::{Route, route_of};
use http::method::MethodError;
use mmtel_base::{Class, NoMemory, has_leading_zero, is_all, number_up_to, skip_text};
use mmtel_types::Account;
use std::alloc::Global;

/// The resource that a request target names.
#[derive(Clone, Copy, Debug, PartialEq, Eq)]
pub enum Resource {
    /// The charging rows.
    Charges,
    /// The service record of this account; None where no account can have the number.
    Sheet(Option<Account>),
    /// The mailbox of this account; None where no account can have the number.
    Mailbox(Option<Account>),
    /// None.
    Unknown,
}

/// The operation on it (RFC 9110 §9.3).
#[derive(Clone, Copy, Debug, PartialEq, Eq)]
pub enum Method {
    /// Read it.
    Get,
    /// Replace it.
    Put,
    /// Empty it.
    Delete,
    /// Another method.
    Other,
}

fn is_decimal(digits: &[u8]) -> bool
    ensures { result ≡ is_decimal digits.now }
{
    !has_leading_zero(digits) && !digits.is_empty() && is_all(Class::Digit, digits)
}

/// The account of a number, where it is one that an account can have.
fn account_of(digits: &[u8]) -> Option<Account>
    ensures { result ≡ account_of digits.now }
{
    let number = number_up_to(u32::MAX as u64, digits)?;
    Some(Account(number as u32))
}

/// The record whose number follows the path of records.
fn sheet_resource(target: &[u8]) -> Resource
    ensures { result ≡ sheet_resource (after_text (codes "/simservs/") target.now) }
{
    match skip_text(b"/simservs/", target) {
        Some(digits) if is_decimal(digits) => Resource::Sheet(account_of(digits)),
        _ => Resource::Unknown,
    }
}

/// The mailbox whose number follows the path of mailboxes.
fn mailbox_resource(target: &[u8]) -> Resource
    ensures { result ≡ mailbox_resource (after_text (codes "/mailbox/") target.now) }
{
    match skip_text(b"/mailbox/", target) {
        Some(digits) if is_decimal(digits) => Resource::Mailbox(account_of(digits)),
        _ => Resource::Unknown,
    }
}

/// The resource of a path that has this route.
#[tactic(auto, using(crate::proofs::PathTheorems::nothing_there, crate::proofs::PathTheorems::charges_there, crate::proofs::PathTheorems::sheet_there, crate::proofs::PathTheorems::mailbox_there))]
fn resource_by(route: Option<Route>, path: &[u8]) -> Resource
    requires { route ≡ route_of path.now }
    ensures { result ≡ path_resource path.now }
{
    match route {
        Some(Route::Charges) => Resource::Charges,
        Some(Route::Sheet) => sheet_resource(path),
        Some(Route::Mailbox) => mailbox_resource(path),
        None => Resource::Unknown,
    }
}

/// The resource of a path.
fn path_resource(alloc: Global, path: &str) -> Result<Resource, NoMemory>
    ensures { IfOk result (λ place. place ≡ path_resource path.now) }
{
    let route = route_of(alloc, path)?;
    Ok(resource_by(route, path.as_bytes()))
}

/// The resource that a target names, byte for byte.
///
/// # Errors
///
/// Out of memory only.
#[tactic(auto, using(crate::proofs::PathTheorems::of_text, crate::proofs::PathTheorems::of_no_text))]
pub fn resource_of(alloc: Global, target: &[u8]) -> Result<Resource, NoMemory>
    ensures exact { IfOk result (λ place. place ≡ resource_of target.now) }
{
    match str::from_utf8(target) {
        Ok(path) => path_resource(alloc, path),
        Err(_) => Ok(Resource::Unknown),
    }
}

/// Which of the methods that the server knows it is.
fn known_method(method: &http::Method) -> Method
    ensures { result ≡ method_of method.now }
{
    if *method == http::Method::GET {
        Method::Get
    } else if *method == http::Method::PUT {
        Method::Put
    } else if *method == http::Method::DELETE {
        Method::Delete
    } else {
        Method::Other
    }
}

/// The method of a name, byte for byte.
///
/// # Errors
///
/// Out of memory only.
#[tactic(auto, using(crate::proofs::MethodTheorems::no_token))]
pub fn method_of(alloc: Global, name: &[u8]) -> Result<Method, NoMemory>
    ensures exact { IfOk result (λ method. method ≡ method_of name.now) }
{
    match http::Method::from_bytes(alloc, name) {
        Ok(method) => Ok(known_method(&method)),
        Err(MethodError::Invalid) => Ok(Method::Other),
        Err(_) => Err(NoMemory),
    }
}
