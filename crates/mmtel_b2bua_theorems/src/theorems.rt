//! The result of each call of a table. These are theorems, without code.
ghost use Rattle.mmtel_b2bua_theorems.specs.NoInjection.{CallsSendNoInjection, OperationsSendNoInjection, ReleasedLegsHaveNoInjection};
ghost use Rattle.mmtel_b2bua_theorems.specs.Theorems.{CallOutputsAreOfTheTrace, CallsOfTablesAreExact, CallsTakeTheirSteps};
ghost use Rattle.mmtel_b2bua_theorems.specs.Theorems.{TraceDiversionsAreCounted, TracesAreCharged, TracesExpireAsObserved, TracesKeepTheirSession};
ghost use Rattle.mmtel_b2bua_theorems.specs.Theorems.{ChargingRecordsAreInOrder, ChargingRecordsAreOfCalls, OtherOperationsOutputNothing, TraceAttemptsAreObserved};
ghost use Rattle.mmtel_b2bua_theorems.specs.Theorems.{TraceEndingsAreObserved, TracesReachTheirOutcome, TracesShowTheirOutcome, TracesShowThroughout};
ghost use Rattle.mmtel_b2bua_theorems.specs.Legs.{LegsGoBack};
ghost use Rattle.mmtel_b2bua_theorems.specs.Replies.{CallsReplyInTheirOwn, TracesReplyInTheirOwn};

use mmtel_call_theorems::{
    attempts_are_observed, calls_continue, calls_reach_their_outcome, calls_reply_in_their_own,
    calls_send_no_injection, calls_show_their_outcome, charging_is_exact, diversions_are_counted,
    sessions_are_observed, sessions_expire,
};

/// A call of which legs are detached and put back, or that is ended without one, has the result of a call that only receives signals: its Outcome, what is sent while it is
/// offered, the bound on diversions, and charging (TS 24.604 §4.5.2.6, TS 32.260 §5, RFC 4579 §5.6).
pub fn traces_reach_their_outcome()
    ensures result { TracesReachTheirOutcome }
    ensures shown { TracesShowTheirOutcome }
    ensures throughout { TracesShowThroughout }
    ensures seen { TraceEndingsAreObserved }
    ensures watched { TraceAttemptsAreObserved }
    // Its session, and how it ends by it (RFC 4028 §10).
    ensures session { TracesKeepTheirSession }
    ensures expires { TracesExpireAsObserved }
    ensures counted { TraceDiversionsAreCounted }
    ensures charged { TracesAreCharged }
{
    calls_continue();
    charging_is_exact();
    calls_reach_their_outcome();
    calls_show_their_outcome();
    attempts_are_observed();
    diversions_are_counted();
    sessions_are_observed();
    sessions_expire();
}

/// Each call of a table takes exactly the steps of its own signals: it is in the table as its trace determines, and what its operations send and file is what its trace sends and
/// files.
pub fn calls_take_their_steps()
    ensures law { CallsTakeTheirSteps }
    ensures own { CallOutputsAreOfTheTrace }
{
    calls_continue();
    charging_is_exact();
}

/// An operation that belongs to no call has no output.
pub fn other_operations_output_nothing()
    ensures law { OtherOperationsOutputNothing }
{}

/// The CDRs that were handed over and those that wait are all that were filed, in the order of the operations; and of these the CDRs of a call are those of its operations, if each
/// leg that is put back is of the side that is detached.
pub fn charging_records_are_in_order()
    ensures law { ChargingRecordsAreInOrder }
    ensures calls { ChargingRecordsAreOfCalls }
{
    calls_continue();
    charging_is_exact();
}

/// The result of each call of a table, what its operations send, and its CDRs.
pub fn calls_of_tables_are_exact()
    ensures law { CallsOfTablesAreExact }
{
    calls_continue();
    charging_is_exact();
    calls_reach_their_outcome();
    calls_show_their_outcome();
    attempts_are_observed();
    diversions_are_counted();
    sessions_are_observed();
    sessions_expire();
}

/// A leg that is detached from a call may be put back where it was, and then the calls are as they were before (RFC 4579 §5.6, RFC 3891 §3).
pub fn legs_go_back()
    ensures law { LegsGoBack }
{}

/// What a table sends is clean, and each message has its own lines, without injection, if the input of the calls is clean: messages with clean header fields, records with clean
/// URIs, and tokens of a clean text. It is claimed of each operation, if each leg that is put back is clean, and so is each that is detached; and without a premise on these of
/// each call of which no leg was detached, and of one that ended in the operation after that. An ACK of a 2xx has no header fields but those that are copied from an ACK that was
/// received in the call of its dialog.
pub fn tables_send_no_injection()
    ensures law { CallsSendNoInjection }
    ensures operations { OperationsSendNoInjection }
    ensures legs { ReleasedLegsHaveNoInjection }
{
    calls_send_no_injection();
    calls_continue();
    charging_is_exact();
}

/// Each reply of a call, in its whole trace, is in the server transaction of a request of its own: the INVITE that opened it, or one that it received (RFC 3261 §8.2.6, §17.2). So
/// it is for everything that is sent in its operations on a table.
pub fn table_calls_reply_in_their_own()
    ensures traces { TracesReplyInTheirOwn }
    ensures law { CallsReplyInTheirOwn }
{
    calls_reply_in_their_own();
    calls_continue();
    charging_is_exact();
}
