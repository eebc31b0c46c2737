//! The configuration and the context of each step of a conference.

use mmtel_compose::FurtherMethods;
use mmtel_message::OwnAddress;
use mmtel_sdp::Mixer;
use mmtel_trust::{Accounts, PeerTable};
use mmtel_types::Moment;
use std::alloc::Global;
use std::marker::Model;

/// The server's configuration, as conferences need it.
#[derive(Drop)]
pub struct ConferenceConfig<'a> {
    /// The server's address.
    pub sip: OwnAddress,
    /// Where the mixer receives media.
    pub mixer: Mixer,
    /// The methods that the server supports beside those that it always supports.
    pub methods: FurtherMethods,
    /// The peers and the routes to them.
    pub peers: &'a PeerTable,
    /// The accounts by their identities.
    pub accounts: &'a Accounts,
}

impl<'a> Model for ConferenceConfig<'a> {
    ghost use Rattle.mmtel_participants.specs.ConferenceConfig.{ConferenceConfigView};

    ghost Value = { ConferenceConfigView };

    ghost view = { λ s. record {
      sip = s.sip;
      mixer = s.mixer;
      methods = s.methods;
      peers = s.peers.now;
      accounts = s.accounts.now;
    } };
}

/// The context of each step of a conference, beside its event. It is read and never changed.
#[derive(Drop)]
pub struct StepContext<'a> {
    /// The allocator.
    pub alloc: Global,
    /// The server's configuration.
    pub config: ConferenceConfig<'a>,
    /// The moment of the step.
    pub at: Moment,
}
