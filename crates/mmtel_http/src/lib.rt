//! HTTP requests and replies (RFC 9112): whether bytes are a whole request, and its resource and method; the text of a reply.
#![tactic(auto)]

mod ends;
mod expectations;
mod fields;
mod heads;
mod replies;
mod requests;
mod resources;
mod routes;
pub mod theorems;
mod wholes;

pub use expectations::waits_for_continue;
pub use replies::reply_text;
pub use requests::{HttpRequest, ParsedRequest, parse_request, whole};
pub use resources::{Method, Resource, method_of, resource_of};
pub use wholes::Whole;
