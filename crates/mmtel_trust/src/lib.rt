//! Whom the server trusts, and what it shows to whom: the peers and the routes to them, the accounts and their identities, the words of Privacy, and the header table of
//! what is relayed.
#![tactic(auto)]

mod accounts;
mod faults;
mod hash_index;
mod hashes;
mod header_table;
mod identities;
mod kinds;
mod known_peers;
mod peers;
mod privacy;
mod reading;
mod table_theorems;
mod texts;
mod theorems;

pub use accounts::{AccountIdentity, Accounts};
pub use faults::TableFault;
pub use header_table::{Facing, attempt_from, history_lines, shown};
pub use identities::{Identities, Scheme, asserted};
pub use kinds::{HeaderKind, kind_of};
pub use known_peers::{KnownPeer, Route};
pub use peers::PeerTable;
pub use privacy::wants;
pub use reading::{display_and_uri, name_addr_in, uri_in, uri_of};
pub use table_theorems::{masked_histories_show_the_same, own_fields_are_not_passed};
pub use theorems::{
    equal_masks_decide_the_same, equal_masks_show_the_same, longest_prefix_is_chosen,
    masked_shows_the_same, masking_is_once, masking_keeps_the_rest, masks_leave_the_rest,
    masks_leave_the_route, masks_see_no_names,
};
