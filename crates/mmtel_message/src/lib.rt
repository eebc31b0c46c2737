//! SIP messages: reading bytes as a message, editing it, building its lines, and its canonical text (RFC 3261 §7, §20 and §25.1).
#![tactic(auto)]

mod addresses;
mod building;
mod edits;
mod entries;
mod expansion;
mod faults;
mod field_refs;
mod fields;
mod five_lines;
mod headers;
mod held;
mod identifiers;
mod line_values;
mod lines;
mod messages;
mod names;
mod phrases;
mod printing;
mod reading;
mod replies;
mod responses;
mod starts;
pub mod theorems;
mod transaction_names;
mod values;
mod vias;

pub use addresses::{OwnAddress, ip_text};
pub use building::{add_bytes, add_decimal, add_line, add_named, add_passed};
pub use entries::is_index_value;
pub use faults::{is_method, is_readable, is_request};
pub use field_refs::{CSeqRef, FiveRef, ViaRef, cseq_ref, five_ref, via_ref};
pub use fields::{CSeq, Five, Via, read_cseq, read_five, read_via};
pub use held::{Lines, NamedLine, Span};
pub use identifiers::Identifiers;
pub use line_values::ValuesIn;
pub use messages::{
    Line, Msg, Start, first_of, has_line, is_line, is_named, line_texts, values_named,
};
pub use mmtel_lex::param_value;
pub use names::long_name;
pub use phrases::phrase_of;
pub use reading::{ReadFault, read, read_held};
pub use replies::reply_with;
pub use responses::{Reply, response, tagged_value};
pub use values::{Mode, joined_by, next_part, values_in};
pub use vias::completed_value;
