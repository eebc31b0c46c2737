//! What is decided of a call at a target and after an attempt.
ghost use Rattle.std.specs.Prelude.{◌≡◌, ◌+◌, false, IfOk};
ghost use Rattle.std.specs.Option.{option_copied};
ghost use Rattle.mmtel_precedence.specs.Views.{attempt_end_view, due_diversion_view, next_step_view, reached_target_view, served_account_view, step_after_attempt_view};
ghost use Rattle.mmtel_precedence.specs.Calls.{sheet_at};
ghost use Rattle.mmtel_precedence.specs.Verdicts.{refusal_before_diversion};
ghost use Rattle.mmtel_rules.specs.Facts.{facts_view};
ghost use Rattle.mmtel_trust.specs.PrivateFields.{redirects};
ghost use Rattle.mmtel_call_services.specs.Decisions.{account_for, account_state, call_facts, decision_after, decision_at, destination_of, service_sheet, target_facts};
ghost use Rattle.mmtel_call_services.specs.Decisions.{diversion_target, peer_for, reached_target, redirect_of, refusal_of_diversion, registration_at, served_at, service_at};
ghost use Rattle.mmtel_call_services.specs.CallConfig.{snapshot_of};

use crate::call_config::{CallConfig, Snapshot};
use crate::copied_headers::service_sheet;
use crate::diversions::Diversions;
use crate::openings::{Opening, Service};
use crate::uris::uri_copied;
use mmtel_base::NoMemory;
use mmtel_call_parties::next_hop;
use mmtel_compose::{Destination, ReceivedMessage, diverted_destination, first_destination};
use mmtel_lex::Uri;
use mmtel_message::Start;
use mmtel_precedence::{
    AttemptEnd, DueDiversion, NextStep, ReachedTarget, ServedAccount, StepAfterAttempt,
    next_step_at, party_of, refusal_before_diversion, step_after_attempt,
};
use mmtel_rules::{Facts, Identities2, abroad};
use mmtel_served_user::{RegistrationState, Target, diverted_target, is_registered};
use mmtel_sheet_values::{SharedSheet, Sheet};
use mmtel_trust::uri_in;
use mmtel_types::{Account, Cause, Moment, Peer};
use std::alloc::Global;

impl Opening {
    /// What is known of the call, with these identities of the other party, whether it was diverted before, and whether its target is in another country.
    pub fn facts<'a>(
        &'a self,
        party: &'a Identities2,
        at: Moment,
        diverted: bool,
        abroad: bool,
    ) -> Facts<'a>
        ensures { facts_view result ≡ call_facts party.now self.now at diverted abroad }
    {
        Facts {
            caller: party,
            restricted: self.restricted,
            media: &self.media,
            now: at,
            diverted,
            abroad,
        }
    }

    /// The account that is served at a target; the cause is that of the diversion that led to it.
    fn served_at(
        &self,
        config: &CallConfig<'_>,
        cause: Option<u16>,
        target: &Target,
    ) -> Option<Account>
        ensures { result ≡ served_at config.now self.now cause target.now }
    {
        match cause {
            None => self.served.target,
            Some(_) => self
                .served
                .diverted_served(config.accounts.find(&target.uri)),
        }
    }

    /// The registration state that was reported for a target, if any.
    fn registration_at(&self, cause: Option<u16>) -> Option<RegistrationState>
        ensures { result ≡ registration_at self.now cause }
    {
        match cause {
            None => self.registration,
            Some(_) => None,
        }
    }

    /// The account to which a target belongs.
    fn account_for(
        &self,
        config: &CallConfig<'_>,
        cause: Option<u16>,
        target: &Target,
    ) -> Option<Account>
        ensures { result ≡ account_for config.now self.now cause target.now }
    {
        match self.served_at(config, cause, target) {
            Some(account) => Some(account),
            None => config.accounts.find(&target.uri),
        }
    }

    /// The peer to which an attempt at a target goes.
    fn peer_for(
        &self,
        alloc: Global,
        config: &CallConfig<'_>,
        target: &Target,
    ) -> Result<Option<Peer>, NoMemory>
        ensures { IfOk result (λ peer. peer ≡ peer_for config.now self.now target.now) }
    {
        next_hop(alloc, config.peers, self.routes.items(), &target.uri)
    }

    /// The account that is served at a target, with its current record.
    fn service_at(
        &self,
        alloc: Global,
        config: &CallConfig<'_>,
        snapshot: &Snapshot<'_>,
        cause: Option<u16>,
        target: &Target,
    ) -> Result<Option<Service>, NoMemory>
        ensures { IfOk result (λ service. service ≡ service_at config.now (snapshot_of snapshot.now) self.now cause target.now) }
    {
        match self.served_at(config, cause, target) {
            None => Ok(None),
            Some(account) => {
                let sheet = sheet_at(alloc, snapshot, account)?;
                Ok(Some(Service { account, sheet }))
            }
        }
    }

    /// The current state of the account that is served at a target.
    fn account_state<'a>(
        &self,
        snapshot: &Snapshot<'_>,
        cause: Option<u16>,
        service: &'a Service,
    ) -> ServedAccount<'a>
        ensures { served_account_view result ≡ account_state (snapshot_of snapshot.now) (registration_at self.now cause) service.entry.now }
    {
        let known = snapshot.sheets.registered(service.account, snapshot.at);
        ServedAccount {
            sheet: service.sheet.sheet(),
            registered: is_registered(self.registration_at(cause), known),
            live: snapshot.busy.live(service.account),
        }
    }

    /// The state of a target, where this account is served there and this peer is its next hop.
    fn reached_target<'a>(
        &self,
        config: &CallConfig<'_>,
        snapshot: &Snapshot<'_>,
        cause: Option<u16>,
        target: &Target,
        service: Option<&'a Service>,
        peer: Option<Peer>,
    ) -> ReachedTarget<'a>
        ensures { reached_target_view snapshot.now.at result ≡ reached_target config.now (snapshot_of snapshot.now) self.now cause target.now (option_copied service.entry) peer }
    {
        let served = match service {
            None => None,
            Some(service) => Some(self.account_state(snapshot, cause, service)),
        };
        let account = self.account_for(config, cause, target);
        ReachedTarget {
            served,
            is_unknown: target.is_unknown(config.home, account),
            peer,
        }
    }

    /// What is done with the call at a target, by whether it was diverted before.
    pub fn decide_at<'a>(
        &self,
        config: &CallConfig<'_>,
        snapshot: &Snapshot<'_>,
        diverted: bool,
        cause: Option<u16>,
        target: &Target,
        service: Option<&'a Service>,
        peer: Option<Peer>,
    ) -> NextStep<'a>
        ensures exact { next_step_view result ≡ decision_at config.now (snapshot_of snapshot.now) self.now diverted cause target.now (option_copied service.entry) peer }
    {
        let reached = self.reached_target(config, snapshot, cause, target, service, peer);
        let facts = self.facts(&self.identities, snapshot.at, diverted, false);
        next_step_at(&facts, &reached)
    }

    /// What is done with the call after an attempt that ended in this way, by whether it was diverted before. It uses the record under which the attempt was offered, which the
    /// attempt keeps, and not the one in force at its end (TS 24.604 §4.5.2.6).
    pub fn decide_after<'a>(
        &self,
        at: Moment,
        diverted: bool,
        service: Option<&'a Service>,
        end: &AttemptEnd<'a>,
    ) -> StepAfterAttempt<'a>
        ensures exact { step_after_attempt_view result ≡ decision_after self.now at diverted (option_copied service.entry) (attempt_end_view end.entry.now) }
    {
        let facts = self.facts(&self.identities, at, diverted, false);
        step_after_attempt(&facts, service_sheet(service), end)
    }

    /// The cause that refuses a diversion to this target that is due by the served account; None if it is made.
    fn refusal_to(
        &self,
        config: &CallConfig<'_>,
        at: Moment,
        diversions: &Diversions,
        service: Option<&Service>,
        due: &DueDiversion<'_>,
        target: Target,
    ) -> Option<Cause>
        ensures { result ≡ refusal_before_diversion (target_facts config.now self.now at target.uri) (service_sheet (option_copied service.entry))
            diversions.now.count 0 (diversions.now.count + diversions.now.remaining) (due_diversion_view due.entry.now) }
    {
        let Target { uri, of_number: _ } = target;
        let is_abroad = abroad(&uri, config.country);
        let party = party_of(uri);
        let facts = self.facts(&party, at, false, is_abroad);
        let refusal = refusal_before_diversion(
            service_sheet(service),
            &facts,
            diversions.count(),
            0,
            diversions.bound(),
            due,
        );
        drop(party);
        refusal
    }

    /// The account that is served at a target, with its current record, and the peer that is the next hop. The cause is that of the diversion to it; the first target has none.
    ///
    /// # Errors
    ///
    /// Out of memory only.
    pub fn resolve_target(
        &self,
        alloc: Global,
        config: &CallConfig<'_>,
        snapshot: &Snapshot<'_>,
        cause: Option<u16>,
        target: &Target,
    ) -> Result<(Option<Service>, Option<Peer>), NoMemory>
        ensures service { IfOk result (λ r. r.0 ≡ service_at config.now (snapshot_of snapshot.now) self.now cause target.now) }
        ensures peer { IfOk result (λ r. r.1 ≡ peer_for config.now self.now target.now) }
    {
        let peer = self.peer_for(alloc, config, target)?;
        let service = self.service_at(alloc, config, snapshot, cause, target)?;
        Ok((service, peer))
    }

    /// The target of a diversion that is due, and the cause that refuses the diversion; None if it is made.
    ///
    /// # Errors
    ///
    /// Out of memory only.
    pub fn resolve_diversion(
        &self,
        alloc: Global,
        config: &CallConfig<'_>,
        at: Moment,
        diversions: &Diversions,
        service: Option<&Service>,
        due: &DueDiversion<'_>,
    ) -> Result<(Target, Option<Cause>), NoMemory>
        ensures target { IfOk result (λ r. r.0 ≡ diversion_target config.now (due_diversion_view due.entry.now)) }
        ensures refusal { IfOk result (λ r. r.1
            ≡ refusal_of_diversion config.now self.now at diversions.now.count diversions.now.remaining (option_copied service.entry) (due_diversion_view due.entry.now)) }
    {
        let asked = diverted_target(alloc, config.home, uri_copied(alloc, due.target)?)?;
        let refusal = self.refusal_to(config, at, diversions, service, due, asked);
        let target = diverted_target(alloc, config.home, uri_copied(alloc, due.target)?)?;
        Ok((target, refusal))
    }

    /// The destination of an attempt: the first target as the INVITE requested it, or the target of a diversion with this cause.
    ///
    /// # Errors
    ///
    /// Out of memory only.
    pub fn destination_of(
        &self,
        alloc: Global,
        peer: Peer,
        cause: Option<u16>,
        target: &Target,
    ) -> Result<Destination, NoMemory>
        ensures destination { IfOk result (λ destination. destination ≡ destination_of self.now peer cause target.now) }
    {
        match cause {
            None => first_destination(alloc, peer, self.routes.items(), &self.invite),
            Some(cause) => diverted_destination(
                alloc,
                peer,
                self.routes.items(),
                &target.uri,
                cause,
            ),
        }
    }
}

/// The record of an account, to be kept; the empty one if the account never had one.
pub fn sheet_at(
    alloc: Global,
    snapshot: &Snapshot<'_>,
    account: Account,
) -> Result<SharedSheet, NoMemory>
    ensures { IfOk result (λ sheet. sheet ≡ sheet_at (snapshot_of snapshot.now) account) }
{
    match snapshot.sheets.shared_sheet(account)? {
        Some(sheet) => Ok(sheet),
        None => SharedSheet::new(alloc, Sheet::empty()),
    }
}

/// Whether the response is a redirection (RFC 3261 §21.3).
fn redirects(start: &Start) -> bool
    ensures { result ≡ redirects start.now }
{
    match start {
        Start::Request { method: _, uri: _ } => false,
        Start::Status { code, phrase: _ } => 300 <= *code && *code <= 399,
    }
}

/// The URI to which a response redirects (RFC 3261 §21.3), if that is a sip or tel URI.
///
/// # Errors
///
/// Out of memory only.
pub fn redirect_of(alloc: Global, response: &ReceivedMessage) -> Result<Option<Uri>, NoMemory>
    ensures uri { IfOk result (λ uri. uri ≡ redirect_of response.now) }
{
    if !redirects(response.message.start()) {
        return Ok(None);
    }
    match response.message.first(b"Contact") {
        None => Ok(None),
        Some(value) => uri_in(alloc, value),
    }
}
