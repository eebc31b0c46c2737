//! The results of the calls of a keeper.
ghost use Rattle.std.specs.Prelude.{◌≡◌, []};
ghost use Rattle.mmtel_web_service.specs.KeeperCalls.{CountsFaults, IsRowsResult, IsStoreResult};
ghost use Rattle.mmtel_web_service.specs.KeeperOutcomes.{keeper_outcome_view};
ghost use Rattle.mmtel_web.specs.Handling.{after_call, reply_of};

use mmtel_base::{List, Text};
use mmtel_charging::Row;
use mmtel_keeper::{KeepFault, Keeper};
use mmtel_types::Account;
use std::alloc::Global;

/// The result of the keeper's call that a request requires; `Made` for a request that requires none.
#[derive(Clone, Copy, Debug, PartialEq, Eq)]
pub enum KeeperOutcome {
    /// It was made.
    Made,
    /// The keeper failed. Nothing has changed.
    Failed,
    /// Memory ran out, and nothing has changed.
    NoMemory,
}

/// Stores a text as the account's record.
pub fn store<K: Keeper>(
    alloc: Global,
    keeper: &mut K,
    account: Account,
    text: &[u8],
) -> KeeperOutcome
    ensures stored { IsStoreResult account text.now (keeper_outcome_view result) (K.contents keeper.old) (K.contents keeper.new) (K.calls keeper.old) (K.calls keeper.new) }
    ensures counted { CountsFaults (keeper_outcome_view result) (K.faults keeper.old) (K.faults keeper.new) }
{
    match keeper.store(alloc, account, text) {
        Ok(()) => KeeperOutcome::Made,
        Err(KeepFault::Failed) => KeeperOutcome::Failed,
        Err(KeepFault::NoMemory) => KeeperOutcome::NoMemory,
    }
}

/// The charging rows, where the keeper returned them.
#[derive(Drop)]
pub struct RowsResult {
    /// The result of its call.
    pub outcome: KeeperOutcome,
    /// The rows that it returned.
    pub rows: List<Row>,
}

/// Requests the charging rows.
pub fn load_rows<K: Keeper>(alloc: Global, keeper: &mut K) -> RowsResult
    ensures reported { IsRowsResult (keeper_outcome_view result.outcome) result.rows (K.contents keeper.old) (K.contents keeper.new) (K.calls keeper.old) (K.calls keeper.new) }
    ensures counted { CountsFaults (keeper_outcome_view result.outcome) (K.faults keeper.old) (K.faults keeper.new) }
{
    match keeper.rows(alloc) {
        Ok(rows) => RowsResult {
            outcome: KeeperOutcome::Made,
            rows,
        },
        Err(KeepFault::Failed) => RowsResult {
            outcome: KeeperOutcome::Failed,
            rows: List::new(),
        },
        Err(KeepFault::NoMemory) => RowsResult {
            outcome: KeeperOutcome::NoMemory,
            rows: List::new(),
        },
    }
}

/// The replies for each result of the keeper's call. They are made before the call, so that a reply to its result is always available.
#[derive(Drop)]
pub struct Replies {
    /// Where its call was made.
    pub made: Text,
    /// Where it failed (503).
    pub failed: Text,
    /// Where memory ran out (507).
    pub no_memory: Text,
}

impl Replies {
    /// The reply for this result of the call.
    pub fn after_call(self, outcome: KeeperOutcome) -> Text
        requires failed { self.failed ≡ reply_of 503 [] }
        requires no_memory { self.no_memory ≡ reply_of 507 [] }
        ensures reply { result ≡ after_call (keeper_outcome_view outcome) self.made }
    {
        match outcome {
            KeeperOutcome::Made => self.made,
            KeeperOutcome::Failed => self.failed,
            KeeperOutcome::NoMemory => self.no_memory,
        }
    }
}
