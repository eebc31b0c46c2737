//! The processing of web requests.
ghost use Rattle.std.specs.Prelude.{◌≡◌, ◌<◌, ◌++◌, ◌∷◌, [], length, slice_set, IfOk, OnErr, OnOk};
ghost use Rattle.mmtel_http.specs.Requests.{request_of};
ghost use Rattle.mmtel_environment.specs.declared.events.Offer.TheVariants as offer;
ghost use Rattle.mmtel_run_definitions.specs.Transitions.{after_web_reply, after_web_request};
ghost use Rattle.mmtel_server.specs.Follows.{AddsOfferPrefix, Follows};
ghost use Rattle.mmtel_server.specs.States.{keeper_state};
ghost use Rattle.mmtel_server.specs.StepEffects.{AbortedKeeperCalls};
ghost use Rattle.mmtel_web.specs.Uploads.{counts_put_in};
ghost use Rattle.mmtel_web_service.specs.KeeperCalls.{CountsFaults, HasKeeperResult, IsKeeperResult, keeper_call_in};
ghost use Rattle.mmtel_web_service.specs.KeeperOutcomes.{keeper_outcome_view};

use super::{Context, Server};
use crate::theorems::numbers_never_fall;
use mmtel_base::{List, NoMemory, Text};
use mmtel_charging::Row;
use mmtel_environment::Offer;
use mmtel_keeper::Keeper;
use mmtel_mwi::Counts;
use mmtel_timers::Steps;
use mmtel_types::{Account, Moment};
use mmtel_web_service::{KeeperOutcome, ServedRequest, serve};
use std::alloc::Global;
use std::sync::ledger::Ledger;

/// The keeper's results for an event.
#[derive(Drop)]
pub(super) struct KeeperResult {
    /// The outcome of its call, where one was due.
    pub outcome: KeeperOutcome,
    /// The CDRs that it returned.
    pub rows: List<Row>,
}

/// For an event that does not call the keeper.
pub(super) fn no_keeper_call() -> KeeperResult
    ensures kept { result.outcome ≡ KeeperOutcome.Made }
    ensures rows { result.rows ≡ [] }
{
    KeeperResult {
        outcome: KeeperOutcome::Made,
        rows: List::new(),
    }
}

/// Reserves a place for a reply on a web connection, as the last of the outputs.
fn reserve_reply(alloc: Global, at: u64, out: &mut List<Offer>) -> Result<(), NoMemory>
    ensures done { OnOk result (out.new ≡ out.old ++ offer.Web at [] ∷ []) }
    ensures err { OnErr result (out.new ≡ out.old) }
{
    let text = Text::new();
    out.push(alloc, Offer::Web { at, text })?;
    Ok(())
}

/// Puts a reply into the place that was reserved for it.
fn put_reply(position: usize, at: u64, text: Text, out: &mut List<Offer>)
    requires { position < length out.old }
    ensures { out.new ≡ slice_set out.old position (offer.Web at text) }
{
    drop(out.replace(position, Offer::Web { at, text }));
}

impl Server {
    /// Processes the bytes of a web connection, and replies.
    ///
    /// # Errors
    ///
    /// Out of memory only: no reply was then output, and the keeper was not called, since the place for the reply is reserved first.
    fn respond_to_web<K: Keeper>(
        &mut self,
        alloc: Global,
        bytes: &[u8],
        at: Moment,
        keeper: &mut K,
        out: &mut List<Offer>,
    ) -> Result<(KeeperResult, Option<(Account, Counts)>), NoMemory>
        ensures done { IfOk result (λ a. Follows self.old out.old self.new out.new
            (λ d token. after_web_reply d at (request_of bytes.now) (keeper_outcome_view a.0.outcome) a.0.rows)) }
        ensures put { IfOk result (λ a. a.1 ≡ counts_put_in self.old.directory.names (request_of bytes.now) (keeper_outcome_view a.0.outcome)) }
        ensures keeper_result { IfOk result (λ a.
            IsKeeperResult (keeper_call_in self.old.directory.names (request_of bytes.now)) (keeper_outcome_view a.0.outcome) a.0.rows
            (K.contents keeper.old) (K.contents keeper.new) (K.calls keeper.old)
            (K.calls keeper.new)) }
        ensures counted { IfOk result (λ a. CountsFaults (keeper_outcome_view a.0.outcome) (K.faults keeper.old) (K.faults keeper.new)) }
        ensures directory { self.new.directory ≡ self.old.directory }
        ensures err { OnErr result (out.new ≡ out.old) }
        ensures uncalled { OnErr result (keeper.new ≡ keeper.old) }
        ensures aborted { OnErr result (HasKeeperResult (keeper_call_in self.old.directory.names (request_of bytes.now))
            (K.contents keeper.old) (K.contents keeper.new) (K.calls keeper.old)
            (K.calls keeper.new) (K.faults keeper.old) (K.faults keeper.new)) }
    {
        let position = out.items().len();
        reserve_reply(alloc, at.ms(), out)?;
        match serve(
            alloc,
            &self.directory.names,
            &mut self.records,
            keeper,
            bytes,
        ) {
            Ok(
                ServedRequest {
                    reply,
                    outcome: kept,
                    rows,
                    mailbox_counts: put,
                },
            ) => {
                put_reply(position, at.ms(), reply, out);
                Ok((
                    KeeperResult {
                        outcome: kept,
                        rows,
                    },
                    put,
                ))
            }
            Err(NoMemory) => {
                drop(out.pop());
                Err(NoMemory)
            }
        }
    }

    /// Processes the bytes of a web connection, replies, and notifies the subscribers of a mailbox whose counts they set (RFC 3842 §3).
    ///
    /// # Errors
    ///
    /// Out of memory only: either before anything was done, so that no reply was output and the keeper was not called; or after the reply, while subscribers were notified, and a
    /// prefix of the NOTIFYs has then been added.
    pub(super) fn serve_web<K: Keeper, L: Ledger>(
        &mut self,
        alloc: Global,
        bytes: &[u8],
        at: Moment,
        keeper: &mut K,
        out: &mut List<Offer>,
        steps: &mut Steps<L>,
    ) -> Result<KeeperResult, NoMemory>
        ensures done { IfOk result (λ a. Follows self.old out.old self.new out.new
            (λ d token. after_web_request d token at (request_of bytes.now) (keeper_outcome_view a.outcome) a.rows)) }
        ensures keeper_result { IfOk result (λ a.
            IsKeeperResult (keeper_call_in self.old.directory.names (request_of bytes.now)) (keeper_outcome_view a.outcome) a.rows
            (K.contents keeper.old) (K.contents keeper.new) (K.calls keeper.old)
            (K.calls keeper.new)) }
        ensures counted { IfOk result (λ a. CountsFaults (keeper_outcome_view a.outcome) (K.faults keeper.old) (K.faults keeper.new)) }
        ensures aborted { OnErr result
            (AbortedKeeperCalls (λ kept rows. AddsOfferPrefix self.old out.old out.new (λ d token. after_web_request d token at (request_of bytes.now) kept rows))
            (λ kept rows between. IsKeeperResult (keeper_call_in self.old.directory.names (request_of bytes.now)) kept rows
            (K.contents keeper.old) between.contents (K.calls keeper.old) between.calls)
            (keeper_state K.Keeper keeper.old) (keeper_state K.Keeper keeper.new)) }
    {
        numbers_never_fall();
        let (answered, put) = self.respond_to_web(alloc, bytes, at, keeper, out)?;
        match self.put_counts(&Context { alloc, at }, put, out, steps) {
            Ok(()) => Ok(answered),
            Err(error) => {
                drop(answered);
                Err(error)
            }
        }
    }
}
