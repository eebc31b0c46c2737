//! The routes of the server.
ghost use Rattle.std.specs.Prelude.{◌≡◌, MatchOption, IfOk, Some, None};
ghost use Rattle.matchit.specs.Seek.{first};
ghost use Rattle.mmtel_http.specs.Resources.{route_of};

use matchit::{InsertError, Router};
use mmtel_base::NoMemory;
use std::alloc::Global;

/// A route of the server.
#[derive(Clone, Copy, Debug, PartialEq, Eq)]
pub enum Route {
    /// The charging rows.
    Charges,
    /// The service record of an account.
    Sheet,
    /// The mailbox of an account.
    Mailbox,
}

/// The route that a router returns for a path.
fn matched_route(router: &Router<Route>, path: &str) -> Option<Route>
    ensures { MatchOption (first router.now path.now) (result ≡ None) (λ route. result ≡ Some route.value) }
{
    match router.at(path) {
        Ok(found) => Some(*found.value),
        Err(_) => None,
    }
}

/// The route of a path, by a router of all routes.
fn find_route(alloc: Global, path: &str) -> Result<Option<Route>, InsertError>
    ensures { IfOk result (λ route. route ≡ route_of path.now) }
{
    let mut router = Router::new(alloc);
    router.insert("/charges", Route::Charges)?;
    router.insert("/simservs/{account}", Route::Sheet)?;
    router.insert("/mailbox/{account}", Route::Mailbox)?;
    Ok(matched_route(&router, path))
}

/// The route of a path.
///
/// # Errors
///
/// Out of memory only: the routes do not conflict.
pub fn route_of(alloc: Global, path: &str) -> Result<Option<Route>, NoMemory>
    ensures { IfOk result (λ route. route ≡ route_of path.now) }
{
    match find_route(alloc, path) {
        Ok(route) => Ok(route),
        Err(_) => Err(NoMemory),
    }
}
