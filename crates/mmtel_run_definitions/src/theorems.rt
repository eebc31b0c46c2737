//! Theorems about the definitions of a run: each is the contract of a function that does nothing.
ghost use Rattle.mmtel_run_definitions.specs.Access.{AccessIsGrantedOrRefused};
ghost use Rattle.mmtel_run_definitions.specs.Equivalence.{EqualMasksAreEquivalent, MasksNameTheRegistrant};
ghost use Rattle.mmtel_run_definitions.specs.Audio.{ConferencesAreForAudio};
ghost use Rattle.mmtel_run_definitions.specs.ChargingRows.{NoneWaits, RowsAreFiled, RowsAreInOrder};
ghost use Rattle.mmtel_run_definitions.specs.InForce.{CallsSeeRecordsAlone, CallsSeeWhatIsInForce, LastIsInForce, TextsAreThoseKept};
ghost use Rattle.mmtel_run_definitions.specs.ShortRuns.{CallsDrawOn, CallsEndOn, ConferencesDrawOn};
ghost use Rattle.mmtel_run_definitions.specs.TopTheorem.{GivesAlways, GivesOnce, MoreChangesNothing};

use mmtel_compose::masked_requests_get_one_response;
use mmtel_masked_messages::{heads_see_no_private_field, responses_are_masked};
use mmtel_sheet_texts::theorems::puts_change_one_account;
use mmtel_transaction::theorems::{deadlines_end, deadlines_end_between_sends};
use mmtel_trust::equal_masks_decide_the_same;

/// What the server outputs in a run is determined: before each event, some number of timer firings is enough, and more of them change nothing.
pub fn enough_firings_exist()
    ensures always { GivesAlways }
    ensures more { MoreChangesNothing }
    ensures once { GivesOnce }
{
    deadlines_end();
    deadlines_end_between_sends();
}

/// At each step the record in force is that of the account's last upload that was stored before it, else the one that was loaded last: the texts of a run are those that were
/// loaded, overridden by those that were stored, in their order; of several texts of one account the last one counts (3GPP TS 24.623 §5).
pub fn records_are_those_kept()
    ensures texts { TextsAreThoseKept }
    ensures last { LastIsInForce }
    // Calls get the record that the account's text is, and until when the account is registered.
    ensures reported { CallsSeeWhatIsInForce }
    // Of that, calls depend only on what is recorded for each account, however it is stored.
    ensures seen { CallsSeeRecordsAlone }
{
    puts_change_one_account();
}

/// The CDRs of a run: those that the keeper accepted and those that wait are those of its calls and those of the participants of its conferences, all in the order of the steps
/// in which they were closed (3GPP TS 32.260 §5). None waits after an event in which the keeper accepted what was handed to it.
pub fn rows_are_filed()
    ensures all { RowsAreFiled }
    // All of them, of calls and of participants, are in the order of the steps in which the call ended or the participant left.
    ensures order { RowsAreInOrder }
    ensures none { NoneWaits }
{}

/// Take two messages that are equal without their private places, and that register the same account if any, under configurations that are equal but for the URIs of
/// accounts: the decisions on them and the responses to them are the same, but for texts that go to trusted peers, and of these the heads are the same.
pub fn equal_masks_are_equivalent()
    ensures equivalent { EqualMasksAreEquivalent }
    // The account that a trusted peer registers is read from what is never private.
    ensures names { MasksNameTheRegistrant }
{
    equal_masks_decide_the_same();
    masked_requests_get_one_response();
    heads_see_no_private_field();
    responses_are_masked();
}

/// Whatever calls receive, the tokens that they draw have the same text, and the count of drawn numbers never decreases.
pub fn calls_draw_on()
    ensures law { CallsDrawOn }
    // The same holds where a call ends without its leg.
    ensures ends { CallsEndOn }
{}

/// Whatever is done on conferences, the tokens that they draw have the same text, and the count of drawn numbers never decreases.
pub fn conferences_draw_on()
    ensures law { ConferencesDrawOn }
{}

/// An INVITE that asks for a conference or to join one offers audio (RFC 4579 §5.1, RFC 3264 §6).
pub fn conferences_are_for_audio()
    ensures law { ConferencesAreForAudio }
{}

/// Whoever asks to join a conference becomes a participant, or gets the response that the conference is full or that there is none of this number (RFC 4579 §5.1).
pub fn access_is_granted_or_refused()
    ensures law { AccessIsGrantedOrRefused }
{}
