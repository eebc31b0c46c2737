//! How many items a look-up of a transaction examines, where so many are live.
ghost use Rattle.std.specs.Prelude.{◌≡◌, ◌≤◌, ◌+◌, List};
ghost use Rattle.mmtel_transaction.specs.Operations.{TransactionOp, live};
ghost use Rattle.mmtel_transaction.specs.Results.{clients, servers};
ghost use Rattle.mmtel_transaction.specs.Represents.{Represents};

use mmtel_timers::Steps;
use mmtel_transaction::{TKey, Transactions};
use std::sync::ledger::Ledger;

/// Looks up a server transaction: among 1,000 live ones in at most 10 steps, among 16,384, which is the maximum, in at most 15, and among none in none.
pub fn look_up_server<L: Ledger>(
    transactions: &Transactions,
    branch: &[u8],
    sent_by: &[u8],
    method: &[u8],
    steps: &mut Steps<L>,
) -> Option<TKey>
    ensures thousand { (h : List TransactionOp) → Represents transactions.now h → servers (live h) ≡ 1000 → steps.new ≤ steps.old + 10 }
    ensures most { (h : List TransactionOp) → Represents transactions.now h → servers (live h) ≡ 16384 → steps.new ≤ steps.old + 15 }
    ensures none { (h : List TransactionOp) → Represents transactions.now h → servers (live h) ≡ 0 → steps.new ≡ steps.old }
{
    transactions.server_of(branch, sent_by, method, steps)
}

/// Looks up the first client transaction: among 1,000 live ones in at most 10 steps, and among none in none.
pub fn look_up_client<L: Ledger>(
    transactions: &Transactions,
    branch: &[u8],
    method: &[u8],
    steps: &mut Steps<L>,
) -> Option<TKey>
    ensures thousand { (h : List TransactionOp) → Represents transactions.now h → clients (live h) ≡ 1000 → steps.new ≤ steps.old + 10 }
    ensures none { (h : List TransactionOp) → Represents transactions.now h → clients (live h) ≡ 0 → steps.new ≡ steps.old }
{
    transactions.client_of(branch, method, steps)
}
