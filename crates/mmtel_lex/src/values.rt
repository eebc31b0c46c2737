//! URIs and their parts.

use mmtel_base::{List, Text};

/// A parameter, `name` or `name=value` (RFC 3261 §25.1: generic-param).
#[derive(Drop)]
pub struct Param {
    /// A token, as it was written.
    pub name: Text,
    /// A token, or a quoted string with its quotes, which no URI has.
    pub value: Option<Text>,
}

/// Parameters in order.
pub type Params = List<Param>;

/// A URI of a scheme that the server knows.
#[derive(Drop)]
pub enum Uri {
    /// A sip URI (RFC 3261 §19.1.1).
    Sip {
        /// What comes before the `@`, a password included; None where there is no `@`.
        user: Option<Text>,
        /// 1 to 255 bytes, in the case of letters in which they were written.
        host: Text,
        /// 1 to 65535.
        port: Option<u16>,
        params: Params,
        /// What follows the `?`; no bytes where there is no `?`.
        headers: Text,
    },
    /// A tel URI (RFC 3966 §3).
    Tel {
        /// A `+` or none, then digits and visual separators.
        number: Text,
        params: Params,
    },
}

/// A display name and a URI (RFC 3261 §20.10), with the parameters of the header field that they are in.
#[derive(Drop)]
pub struct NameAddr {
    /// The display name as it was written, quotes included; no bytes where there is none.
    pub display: Text,
    /// The bytes of the URI, whatever its scheme.
    pub uri: Text,
    pub params: Params,
}
