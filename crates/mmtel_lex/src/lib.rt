//! The grammars of parts of SIP messages: parameters, URIs and name-addrs (RFC 3261 §19.1, §20.10 and §25.1, RFC 3966 §3); which URIs name the same identity; where the parts of
//! any URI are, and its escaped bytes (RFC 3986 §2.1).
#![tactic(auto)]

mod faults;
mod identity;
mod name_addrs;
mod param_refs;
pub mod params;
mod percent;
mod printing;
pub mod theorems;
mod uri_parts;
pub mod uris;
mod values;

pub use faults::{LexFault, UriFault};
pub use identity::{domain, same_identity};
pub use mmtel_base::{List, NoMemory, Text};
pub use name_addrs::{NameAddrRef, name_addr_ref, read_name_addr};
pub use param_refs::{ParamsRef, params_ref};
pub use params::{param_value, read_params};
pub use percent::percent_decoded_text;
pub use printing::{add_params, print_name_addr, print_uri};
pub use uri_parts::{
    find_named, first_part, is_named, split_around, split_user, uri_header, uri_param,
};
pub use uris::{UriRef, read_uri, uri_ref};
pub use values::{NameAddr, Param, Params, Uri};
