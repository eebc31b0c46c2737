//! What is known of a call as it opens.
ghost use Rattle.std.specs.Prelude.{◌≡◌, ◌≤◌, length, IfOk};
ghost use Rattle.std.specs.Option.{option_copied};
ghost use Rattle.mmtel_call_parties.specs.Routing.{remaining_routes};
ghost use Rattle.mmtel_sdp.specs.Offers.{kinds_of};
ghost use Rattle.mmtel_call_services.specs.Opening.{initial_diversions, initial_target, no_target, opening_of, opening_refusal, origin_sheet, received_history};
ghost use Rattle.mmtel_call_services.specs.CallConfig.{snapshot_of};

use crate::call_config::{CallConfig, Snapshot};
use crate::deciding::sheet_at;
use crate::diversions::Diversions;
use crate::uris::uri_copied;
use mmtel_base::{List, NoMemory, Text};
use mmtel_call_parties::remaining_routes;
use mmtel_compose::ReceivedMessage;
use mmtel_history::{History, HistoryFault, read_values};
use mmtel_identity::caller_restricted;
use mmtel_leg::request_uri;
use mmtel_lex::Uri;
use mmtel_message::line_texts;
use mmtel_precedence::{party_of, refusal_on_opening};
use mmtel_rules::{Identities2, abroad};
use mmtel_sdp::kinds_of;
use mmtel_served_user::{RegistrationState, Served, Target, first_target};
use mmtel_sheet_values::{SharedSheet, Sheet};
use mmtel_transaction::TKey;
use mmtel_trust::wants;
use mmtel_types::{Account, CallNo, Cause, Moment};
use std::alloc::Global;

/// An INVITE that opens a call, with what was read from it about its parties.
#[derive(Drop)]
pub struct Arrival {
    /// The number of the call.
    pub number: CallNo,
    /// The server transaction that the INVITE opened.
    pub key: TKey,
    /// The INVITE.
    pub invite: ReceivedMessage,
    /// The accounts that the server serves in it (RFC 5502 §6).
    pub served: Served,
    /// The registration state that was reported for its target, if any.
    pub registration: Option<RegistrationState>,
    /// The identities of the caller.
    pub identities: Identities2,
}

/// What is known of a call as it opens; it does not change afterwards.
#[derive(Drop)]
pub struct Opening {
    /// The number of the call.
    pub number: CallNo,
    /// The server transaction of the INVITE that opened it.
    pub key: TKey,
    /// That INVITE.
    pub invite: ReceivedMessage,
    /// The server's tag in the caller's dialog.
    pub tag: Text,
    /// The accounts that the server serves in it (RFC 5502 §6).
    pub served: Served,
    /// The registration state that was reported for its first target, if any.
    pub registration: Option<RegistrationState>,
    /// The record of the account that is served as the caller, as it was at the opening; None if no account is.
    pub sheet: Option<SharedSheet>,
    /// Whether the caller restricts its identity (TS 24.607 §4.5.2).
    pub restricted: bool,
    /// The identities of the caller.
    pub identities: Identities2,
    /// The kinds of media that it offered.
    pub media: List<Text>,
    /// The Route values that are kept for each of its attempts.
    pub routes: List<Text>,
}

/// The account that is served at a target, with its record as it was when the call reached the target.
#[derive(Drop)]
pub struct Service {
    /// The account.
    pub account: Account,
    /// Its record.
    pub sheet: SharedSheet,
}

/// The record of the account that is served as the caller, if there is one.
fn origin_sheet(
    alloc: Global,
    snapshot: &Snapshot<'_>,
    served: &Served,
) -> Result<Option<SharedSheet>, NoMemory>
    ensures { IfOk result (λ sheet. sheet ≡ origin_sheet (snapshot_of snapshot.now) served.now) }
{
    match served.origin {
        None => Ok(None),
        Some(account) => Ok(Some(sheet_at(alloc, snapshot, account)?)),
    }
}

/// A reference to the kept record, if there is one.
fn sheet_of_kept(sheet: &Option<SharedSheet>) -> Option<&Sheet>
    ensures { option_copied result ≡ sheet.now }
{
    match sheet {
        None => None,
        Some(sheet) => Some(sheet.sheet()),
    }
}

/// The Route values that are kept for each attempt.
fn routes_of(
    alloc: Global,
    config: &CallConfig<'_>,
    invite: &ReceivedMessage,
) -> Result<List<Text>, NoMemory>
    ensures { IfOk result (λ routes. routes ≡ remaining_routes config.now.sip invite.now.parsed.routes) }
{
    let values = line_texts(alloc, &invite.message.lines(), b"Route")?;
    remaining_routes(alloc, config.sip.addr(), values)
}

/// What is read as a call opens: the record of its caller's account, the kinds of media that it offers, and the Route values that are kept.
fn read_opening(
    alloc: Global,
    config: &CallConfig<'_>,
    snapshot: &Snapshot<'_>,
    arrival: &Arrival,
) -> Result<(Option<SharedSheet>, List<Text>, List<Text>), NoMemory>
    ensures sheet { IfOk result (λ r. r.0 ≡ origin_sheet (snapshot_of snapshot.now) arrival.now.served) }
    ensures media { IfOk result (λ r. r.1 ≡ kinds_of arrival.now.invite.parsed.body) }
    ensures routes { IfOk result (λ r. r.2 ≡ remaining_routes config.now.sip arrival.now.invite.parsed.routes) }
{
    let sheet = origin_sheet(alloc, snapshot, &arrival.served)?;
    let media = match kinds_of(alloc, arrival.invite.message.body()) {
        Ok(media) => media,
        Err(error) => {
            drop(sheet);
            return Err(error);
        }
    };
    match routes_of(alloc, config, &arrival.invite) {
        Ok(routes) => Ok((sheet, media, routes)),
        Err(error) => {
            drop(sheet);
            drop(media);
            Err(error)
        }
    }
}

/// What is known of a call as it opens, where the server's tag in the caller's dialog is this one.
///
/// # Errors
///
/// Out of memory only.
pub fn opening_of(
    alloc: Global,
    config: &CallConfig<'_>,
    snapshot: &Snapshot<'_>,
    tag: Text,
    arrival: Arrival,
) -> Result<Opening, NoMemory>
    ensures opening { IfOk result (λ o. o ≡ opening_of config.now (snapshot_of snapshot.now) tag arrival) }
{
    let (sheet, media, routes) = match read_opening(alloc, config, snapshot, &arrival) {
        Ok(read) => read,
        Err(error) => {
            drop(tag);
            drop(arrival);
            return Err(error);
        }
    };
    let restricted = caller_restricted(&wants(&arrival.invite.message), sheet_of_kept(&sheet));
    Ok(Opening {
        number: arrival.number,
        key: arrival.key,
        invite: arrival.invite,
        tag,
        served: arrival.served,
        registration: arrival.registration,
        sheet,
        restricted,
        identities: arrival.identities,
        media,
        routes,
    })
}

/// The History-Info of an INVITE.
fn received_history(alloc: Global, invite: &ReceivedMessage) -> Result<History, NoMemory>
    ensures list { IfOk result (λ h. h ≡ received_history invite.now) }
    ensures few { IfOk result (λ h. length h ≤ 32) }
{
    let values = line_texts(alloc, &invite.message.lines(), b"History-Info")?;
    let read = read_values(alloc, &values);
    drop(values);
    match read {
        Ok(history) => Ok(history),
        Err(HistoryFault::Malformed { at: _ }) => Ok(History::new(alloc)),
        Err(HistoryFault::NoMemory) => Err(NoMemory),
    }
}

/// If a Request-URI names no target, the call cannot be sent anywhere: its target is a tel URI without digits.
fn no_target() -> Target
    ensures { result ≡ no_target }
{
    Target {
        uri: Uri::Tel {
            number: Text::new(),
            params: List::new(),
        },
        of_number: false,
    }
}

impl Opening {
    /// How the call was diverted before any diversion is made here: the bound counts the diversions with which the call came.
    ///
    /// # Errors
    ///
    /// Out of memory only.
    pub fn initial_diversions(
        &self,
        alloc: Global,
        config: &CallConfig<'_>,
    ) -> Result<Diversions, NoMemory>
        ensures diversions { IfOk result (λ d. d ≡ initial_diversions config.now.bound (received_history self.now.invite)) }
    {
        let history = received_history(alloc, &self.invite)?;
        Ok(Diversions::new(history, config.bound))
    }

    /// The first target.
    ///
    /// # Errors
    ///
    /// Out of memory only.
    pub fn initial_target(&self, alloc: Global) -> Result<Target, NoMemory>
        ensures target { IfOk result (λ target. target ≡ initial_target self.now) }
    {
        match first_target(alloc, request_uri(self.invite.message.start()))? {
            None => Ok(no_target()),
            Some(target) => Ok(target),
        }
    }

    /// The cause that refuses the call to this target, its first; None if nothing refuses it.
    ///
    /// # Errors
    ///
    /// Out of memory only.
    pub fn opening_refusal(
        &self,
        alloc: Global,
        config: &CallConfig<'_>,
        at: Moment,
        target: &Target,
    ) -> Result<Option<Cause>, NoMemory>
        ensures cause { target.now ≡ initial_target self.now → IfOk result (λ cause. cause ≡ opening_refusal config.now at self.now) }
    {
        let is_abroad = abroad(&target.uri, config.country);
        let party = party_of(uri_copied(alloc, &target.uri)?);
        let words = wants(&self.invite.message);
        let sheet = self.origin_sheet();
        let facts = self.facts(&party, at, false, is_abroad);
        let refusal = refusal_on_opening(&words, &self.served, sheet, &facts);
        drop(party);
        Ok(refusal)
    }
}
