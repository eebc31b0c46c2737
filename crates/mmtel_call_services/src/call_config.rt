//! The input of each step of a call.
ghost use Rattle.std.specs.Prelude.{◌≡◌};
ghost use Rattle.mmtel_call_services.specs.CallConfig.{further_methods};

use crate::busy::BusyCounts;
use mmtel_base::Text;
use mmtel_compose::FurtherMethods;
use mmtel_message::OwnAddress;
use mmtel_sheet_values::SheetView;
use mmtel_trust::{Accounts, PeerTable};
use mmtel_types::Moment;
use std::marker::Model;

/// The server's configuration, as calls need it.
#[derive(Drop)]
pub struct CallConfig<'a> {
    /// The server's address.
    pub sip: OwnAddress,
    /// The home domain.
    pub home: &'a [u8],
    /// The bound on diversions, at most 16.
    pub bound: u16,
    /// The digits of the home country, if configured.
    pub country: Option<&'a Text>,
    /// Whether provisional responses are relayed reliably, and UPDATE is supported (RFC 3262, RFC 3311).
    pub reliable: bool,
    /// Whether sessions have timers (RFC 4028).
    pub timer: bool,
    /// Whether the server notifies subscribers of waiting messages (RFC 3842).
    pub mwi: bool,
    /// The peers and the routes to them.
    pub peers: &'a PeerTable,
    /// The accounts by their identities.
    pub accounts: &'a Accounts,
}

impl<'a> Model for CallConfig<'a> {
    ghost use Rattle.std.specs.Prelude.{◌≤◌};
    ghost use Rattle.std.specs.Option.{option_copied};
    ghost use Rattle.mmtel_call_services.specs.CallConfig.{CallConfigView};

    ghost Value = { CallConfigView };

    ghost view = { λ s. record {
      sip = s.sip;
      home = s.home.now;
      bound = s.bound;
      country = option_copied s.country;
      reliable = s.reliable;
      timer = s.timer;
      mwi = s.mwi;
      peers = s.peers.now;
      accounts = s.accounts.now;
    } };

    ghost invariant = { λ s. s.bound ≤ 16 };
}

impl<'a> CallConfig<'a> {
    /// The methods that the server supports beside those that it always supports.
    pub fn further_methods(&self) -> FurtherMethods
        ensures { result ≡ further_methods self.now }
    {
        FurtherMethods {
            reliable: self.reliable,
            mwi: self.mwi,
        }
    }
}

/// The current state at a step.
#[derive(Clone, Copy)]
pub struct Snapshot<'a> {
    /// The moment.
    pub at: Moment,
    /// The records in force, and the registrations.
    pub sheets: &'a SheetView,
    /// How many calls keep each account busy: those that it makes, this one included, and those that are offered to it or that it answered, this one excluded.
    pub busy: &'a BusyCounts,
}
