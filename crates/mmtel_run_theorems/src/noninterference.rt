//! Noninterference of a run with calls and conferences. These are theorems, without code.
ghost use Rattle.mmtel_run_theorems.specs.SentInvites.{ConferencesSendOnce};
ghost use Rattle.mmtel_run_theorems.specs.Noninterference.{ConfigurationsAreRead, MasksOnce, Noninterference, NoninterferenceInBoth};
ghost use Rattle.mmtel_run_theorems.specs.Noninterference.{OffersKeepItInOneConfig, OffersKeepNoninterference};
ghost use Rattle.mmtel_run_theorems.specs.Noninterference.{RenamedAreLookedUpEqually, RunsAreTied, SeenByTimedEvents};
ghost use Rattle.mmtel_run_theorems.specs.RenamedAccounts.{NobodyIsRenamed};
ghost use Rattle.mmtel_run_theorems.specs.Examples.{EachOccurs, PublicAreShown, RestrictedAreHidden, UnshownAreHidden};

use mmtel_b2bua_theorems::{equivalent_tables_answer_equally, tables_stay_equivalent};
use mmtel_call_theorems::{
    calls_send_once, lookups_skip_other_accounts, messages_have_nothing_private,
};
use mmtel_focus_theorems::{conferences_stay_equivalent, equivalent_rooms_answer_equally};
use mmtel_masked_messages::{heads_see_no_private_field, responses_are_masked};
use mmtel_message::theorems::{fields_are_on_lines, fields_are_read};
use mmtel_run_definitions::{equal_masks_are_equivalent, records_are_those_kept};
use mmtel_sheet_texts::theorems::puts_change_one_account;
use mmtel_transaction::theorems::{
    messages_belong_to_one_transaction, texts_decide_nothing, tokens_differ,
    transactions_are_of_one_peer,
};

/// Under a configuration that renames accounts, the lookup of each account has the same result in two runs that are the same without their private places, where no URI by
/// which an account is looked up names one of the renamed ones (RFC 3325 §9.1, RFC 5502 §6, TS 24.604 §4.5.2.6).
pub fn renamed_are_looked_up_equally()
    ensures lookups { RenamedAreLookedUpEqually }
    // One configuration renames nobody, and then nothing is required.
    ensures nobody { NobodyIsRenamed }
{
    lookups_skip_other_accounts();
}

/// For each configuration that was read, with a token of hexadecimal digits, branches are read as they are written.
pub fn configurations_are_read()
    ensures read { ConfigurationsAreRead }
{}

/// Whatever is done on conferences, each INVITE of a participant was sent to its peer, and so was each that a conference abandoned: before, or by the same operation. Each that
/// is sent has a branch of its own, of a number that is drawn for it alone (RFC 3261 §8.1.1.7, §13.2.1), as long as fewer than 2^60 numbers are drawn.
pub fn conferences_send_once()
    ensures once { ConferencesSendOnce }
{}

/// A response comes from the peer to which its INVITE was sent, for a call or for a participant of a conference, and an INVITE whose 2xx is acknowledged was sent to the peer of
/// the other leg (RFC 3261 §8.1.1.7, §13.2.2.4, §17.1.3): each branch is drawn once.
pub fn runs_are_tied()
    ensures tied { RunsAreTied }
{
    calls_send_once();
    fields_are_read();
    fields_are_on_lines();
    messages_belong_to_one_transaction();
    conferences_send_once();
    tokens_differ();
}

/// What an untrusted peer is sent, moments included, is equal in two runs that are the same without their private places and give the same results for every test of their
/// callers (RFC 3323, RFC 3325 §7, RFC 7044 §10.1): for the definitions, with as many firings in both, and for any outputs that are exactly theirs. The other run may have a
/// configuration that renames accounts which are named by no URI by which an account is looked up.
pub fn runs_keep_noninterference()
    ensures both { NoninterferenceInBoth }
    ensures one { Noninterference }
    // However many timers fire, a run without its private places is one value.
    ensures masked { MasksOnce }
    ensures offers { OffersKeepNoninterference }
    ensures offers_in_one { OffersKeepItInOneConfig }
    // It depends only on what a run reads of its events and stores.
    ensures seen { SeenByTimedEvents }
{
    equivalent_rooms_answer_equally();
    equivalent_tables_answer_equally();
    calls_send_once();
    equal_masks_are_equivalent();
    heads_see_no_private_field();
    lookups_skip_other_accounts();
    messages_have_nothing_private();
    puts_change_one_account();
    records_are_those_kept();
    responses_are_masked();
    conferences_send_once();
    conferences_stay_equivalent();
    runs_are_tied();
    tables_stay_equivalent();
    texts_decide_nothing();
    transactions_are_of_one_peer();
}

/// Two phones send messages that differ in whose they are. What masking leaves of them computes, with the roles that they have in a run (RFC 3323 §4.1, RFC 3325 §7, RFC 7044
/// §10.1): it is the same where their side of a call is restricted, and where it is not relayed, and differs where it is public; and states with such roles exist.
pub fn masks_compute()
    ensures restricted { RestrictedAreHidden }
    ensures unshown { UnshownAreHidden }
    ensures shown { PublicAreShown }
    ensures states { EachOccurs }
{}
