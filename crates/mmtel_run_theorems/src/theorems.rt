//! Theorems about whole runs, and no code.
ghost use Rattle.mmtel_run_theorems.specs.NoInjection.{HomesHaveNoInjection, RunsSendNoInjection};
ghost use Rattle.mmtel_run_theorems.specs.Mailboxes.{SubscribersAreNotified};
ghost use Rattle.mmtel_run_theorems.specs.Outcome.{CallsOfRunsReachOutcome};
ghost use Rattle.mmtel_run_theorems.specs.ChargingRecords.{RunParticipantsChargedOnce};
ghost use Rattle.mmtel_run_theorems.specs.ShortSessions.{ShortSessionsAreRefused};

use mmtel_b2bua_theorems::{
    calls_of_tables_are_exact, calls_take_their_steps, charging_records_are_in_order, legs_go_back,
    other_operations_output_nothing, table_calls_reply_in_their_own, tables_send_no_injection,
};
use mmtel_call_theorems::{
    calls_continue, calls_notify_their_diversions, charging_is_exact,
    no_injection_keeps_own_fields, reading_leaves_no_injection,
};
use mmtel_focus_theorems::{
    conferences_reply_in_their_own, conferences_send_no_injection, participants_are_charged_once,
    participants_have_their_meters,
};
use mmtel_mwi::the_last_upload_counts;
use mmtel_precedence::theorems::{diversions_have_forwards, diversions_stay_within_the_bound};
use mmtel_run_definitions::{records_are_those_kept, rows_are_filed};
use mmtel_transaction::theorems::deadlines_end_between_sends;

/// Each call of a run has the outcome that the precedence of services determines from how its attempts ended, and from the records, registrations and live calls as they were in
/// the run when it reached each target: its INVITEs in order, the 181s of its diversions, its final response and its CDRs, within the bound on diversions; also a call of which a
/// leg is moved into a conference, or put back. What it outputs is sent: while it is offered the server transaction of its INVITE is live, and its final response is sent to the
/// peer that sent that INVITE (RFC 3261 §17.2.1, TS 24.604 §4.5.2.6, TS 24.611 §4.5.2, TS 24.615 §4.5.5, TS 32.260 §5, RFC 4579 §5.6).
pub fn calls_of_runs_reach_outcome()
    ensures law { CallsOfRunsReachOutcome }
{
    calls_of_tables_are_exact();
    calls_take_their_steps();
    table_calls_reply_in_their_own();
    other_operations_output_nothing();
    charging_records_are_in_order();
    legs_go_back();
    conferences_reply_in_their_own();
    calls_continue();
    charging_is_exact();
    calls_notify_their_diversions();
    diversions_stay_within_the_bound();
    diversions_have_forwards();
    records_are_those_kept();
    rows_are_filed();
    participants_are_charged_once();
    deadlines_end_between_sends();
}

/// The CDRs of a run, those that the keeper accepted and those that wait, are those of its calls and those of the participants of its conferences, all in the order of the steps
/// in which the call ended or the participant left. Each participant with an account has a meter of that account, which is the account of the operation that added the participant,
/// since the moment of the operation by which they joined; it has one CDR, once the participant has left, and none before. Each step of a run has one moment, that of its event or
/// of its timer, and so has all that it does on calls and conferences and all that it outputs (TS 32.260 §5).
pub fn run_participants_charged_once()
    ensures law { RunParticipantsChargedOnce }
{
    calls_of_tables_are_exact();
    calls_take_their_steps();
    charging_records_are_in_order();
    legs_go_back();
    conferences_reply_in_their_own();
    rows_are_filed();
    participants_are_charged_once();
    participants_have_their_meters();
    deadlines_end_between_sends();
}

/// Each message that is built in a run for a transaction has no injected header fields: split at its line ends it is its start line, its header fields, an empty line and its body,
/// and nothing else, and none of these lines has a byte 0, CR or LF (RFC 3261 §7). Each text that is sent to a peer is that of such a message, or of one that no transaction sends
/// and that has no injected header fields either: the ACK of a 2xx, or the response to a request beyond the capacity or to bytes that are refused as they are read. An ACK of a 2xx
/// relays no header fields but those that the header table copies from an ACK that came in an event and that its call got on the other side (RFC 3261 §13.2.2.4). So nobody puts
/// a header field into a message of another, whatever was received, loaded and uploaded, under a home domain and a token that are of one line each.
pub fn runs_send_no_injection()
    ensures law { RunsSendNoInjection }
{
    tables_send_no_injection();
    conferences_send_no_injection();
    records_are_those_kept();
    reading_leaves_no_injection();
    no_injection_keeps_own_fields();
}

/// The home domain of each configuration that was read is one line: it is a host of the grammar (RFC 3261 §25.1).
pub fn homes_have_no_injection()
    ensures law { HomesHaveNoInjection }
{}

/// The server itself sends a 422 for an INVITE or UPDATE that asks for a session of less than 90 seconds, where session timers are switched on and no earlier refusal applies, and
/// for no other request (RFC 4028 §6): with the minimum interval, and it has no effect but that response.
pub fn short_sessions_are_refused()
    ensures law { ShortSessionsAreRefused }
{}

/// The counts of the mailboxes in a run are those of its accepted uploads, in their order. Each subscriber is trusted, and each request of the server's own is of a call, of a
/// conference, or a NOTIFY to the peer of a live subscription: in its dialog, with the summary of the last counts of the mailbox before it was first sent (RFC 3842 §3.6, §5.2; RFC
/// 6665 §4.2.2). A SUBSCRIBE of a peer that is not trusted is refused, and has no effect but that, in the dialog of a subscription, its CSeq number is the last that was
/// received.
pub fn subscribers_are_notified()
    ensures law { SubscribersAreNotified }
{
    the_last_upload_counts();
}
