//! Theorems about the run of a server: each is the contract of a function that does nothing.
ghost use Rattle.mmtel_server.specs.Follows.{NumbersNeverFall};
ghost use Rattle.mmtel_server.specs.Theorems.{OffersAreIndistinguishable, OffersAreOfRun, ReadOutHasAllBytes, RunTheorems, UnfailedAreReadOut};

use mmtel_http::theorems::complete_requests_are_final;
use mmtel_run_definitions::{
    calls_draw_on, conferences_draw_on, enough_firings_exist, rows_are_filed,
};
use mmtel_run_theorems::{
    calls_of_runs_reach_outcome, run_participants_charged_once, runs_keep_noninterference,
    runs_send_no_injection,
};

/// Whatever run a server went through from its beginning, its outputs are exactly those of the run.
/// Of these an untrusted peer observes what it would observe of any other run that is equal without its private places (RFC 3323, RFC 3325 §7).
pub fn servers_offer_what_runs_give()
    ensures exact { OffersAreOfRun }
    ensures noninterference { OffersAreIndistinguishable }
{
    runs_keep_noninterference();
}

/// Where no read of a link failed, each web connection was read to the end of its request; and bytes beyond that do not change the request.
pub fn connections_are_read_out()
    ensures unfailed { UnfailedAreReadOut }
    ensures all { ReadOutHasAllBytes }
{
    complete_requests_are_final();
}

/// The theorems about runs from which the claims about a server follow: the outcome of calls, which participants are charged and what is sent; that the count of drawn numbers
/// never decreases, that timers come to an end, and that CDRs are filed.
pub fn theorems_of_runs_hold()
    ensures { RunTheorems }
{
    numbers_never_fall();
    enough_firings_exist();
    rows_are_filed();
    calls_of_runs_reach_outcome();
    run_participants_charged_once();
    runs_send_no_injection();
}

/// Whatever is done on calls and conferences, the count of drawn numbers never decreases.
pub(crate) fn numbers_never_fall()
    ensures { NumbersNeverFall }
{
    calls_draw_on();
    conferences_draw_on();
}
