//! What is decided of a call: who is served at a target, what of its messages is copied to whom, what follows an attempt, to what an ACK belongs, which CDRs it gives (TS 24.173,
//! RFC 3261 §13.2.2.4, TS 32.260 §5).
#![tactic(auto)]

mod busy;
mod call_config;
mod charging_records;
mod copied_headers;
mod deciding;
mod diversions;
mod ends;
mod openings;
mod reliable;
mod requests;
mod uris;

pub use busy::BusyCounts;
pub use call_config::{CallConfig, Snapshot};
pub use charging_records::{Ending, append_charging_records, cause_by};
pub use copied_headers::service_sheet;
pub use deciding::redirect_of;
pub use diversions::Diversions;
pub use ends::{is_relayed_final, no_reply_time_of};
pub use mmtel_sip_rules::{is_ack_of, is_of_dialog, is_same_side};
pub use openings::{Arrival, Opening, Service, opening_of};
pub use reliable::{add_rack_line, add_reliable_lines};
pub use requests::{refusal_of_update, unlisted_status};
