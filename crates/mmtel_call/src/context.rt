//! The input of a step of a call, which it only reads.
ghost use Rattle.std.specs.Prelude.{◌≡◌};

use mmtel_call_services::{CallConfig, Snapshot};
use mmtel_message::OwnAddress;
use std::alloc::Global;

/// The input of a step of a call, which is passed on unchanged: the allocator, the server's configuration, and the current state.
#[derive(Clone, Copy)]
pub struct StepContext<'a> {
    /// The allocator.
    pub alloc: Global,
    /// The server's configuration.
    pub config: &'a CallConfig<'a>,
    /// The moment, the records in force and the live calls.
    pub snapshot: Snapshot<'a>,
}

impl<'a> StepContext<'a> {
    /// The input of a step, as one value.
    pub fn new(
        alloc: Global,
        config: &'a CallConfig<'a>,
        snapshot: &Snapshot<'a>,
    ) -> StepContext<'a>
        ensures setting { result.config.now ≡ config.now }
        ensures present { result.snapshot ≡ snapshot.now }
    {
        StepContext {
            alloc,
            config,
            snapshot: Snapshot {
                at: snapshot.at,
                sheets: snapshot.sheets,
                busy: snapshot.busy,
            },
        }
    }

    /// The server's address.
    pub fn sip(&self) -> OwnAddress
        ensures { result ≡ self.now.config.now.sip }
    {
        let setting = self.config;
        setting.sip
    }
}
