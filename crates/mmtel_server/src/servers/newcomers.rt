//! Who joins a conference (RFC 4579 §5.1, §5.4): it becomes a participant, or gets a response that refuses it.
ghost use Rattle.std.specs.Prelude.{◌≡◌, ◌<◌, ◌+◌, ◌^◌, List, Err, IfOk, None, OnErr, OnOk, Some, true};
ghost use Rattle.mmtel_focus.specs.Table.{access, is_table_full};
ghost use Rattle.mmtel_run_definitions.specs.Ownership.{leg_by, status_of_fault};
ghost use Rattle.mmtel_run_definitions.specs.Transitions.{after_conference_invite, after_factory_invite, after_join_if};
ghost use Rattle.mmtel_run_definitions.specs.Transitions.{after_newcomer_refusal, after_opening_if, conferences_in};
ghost use Rattle.mmtel_base.specs.Numbers.{token_text};
ghost use Rattle.mmtel_sdp.specs.Offers.{offers_audio};
ghost use Rattle.mmtel_server.specs.Follows.{AddsOfferPrefix, Follows};

use super::conferences::drop_ended;
use super::{Context, Server};
use crate::theorems::numbers_never_fall;
use mmtel_admission::{caller_account, plain_response, response_to};
use mmtel_base::{List, NoMemory, Text};
use mmtel_compose::ReceivedMessage;
use mmtel_environment::Offer;
use mmtel_focus::{Joining, RoomFault};
use mmtel_leg::{CallerLeg, Ended, Released, Standing};
use mmtel_timers::Steps;
use mmtel_transaction::{TKey, Tokens};
use mmtel_types::RoomNo;
use std::alloc::Global;
use std::sync::ledger::Ledger;

/// The party that joins a conference.
#[derive(Clone, Copy)]
struct Newcomer<'a> {
    /// The transaction that the INVITE opened.
    key: TKey,
    /// The INVITE.
    invite: &'a ReceivedMessage,
    /// The tag of the server's response.
    tag: &'a Text,
}

/// Draws a tag or a branch.
pub(super) fn draw_next_tag(alloc: Global, tokens: &mut Tokens) -> Result<Text, NoMemory>
    ensures tag { tokens.old.drawn < 2 ^ 60 →
        IfOk result (λ tag. tag ≡ token_text tokens.old.token (tokens.old.drawn + 1)) }
    ensures drawn { tokens.old.drawn < 2 ^ 60 →
        OnOk result (tokens.new ≡ record { token = tokens.old.token; drawn = tokens.old.drawn + 1 }) }
{
    tokens.draw(alloc)
}

/// The leg of the sender of an INVITE or a SUBSCRIBE, where the server responds with this tag.
pub(super) fn leg_by(
    alloc: Global,
    invite: &ReceivedMessage,
    tag: Text,
) -> Result<CallerLeg<Standing>, NoMemory>
    ensures { IfOk result (λ leg. leg ≡ leg_by tag invite.now) }
{
    match CallerLeg::open(alloc, invite.peer, &invite.message, tag, None) {
        Ok(leg) => Ok(leg),
        Err((meter, error)) => {
            drop_ended(Ended { meter });
            Err(error)
        }
    }
}

/// The status of the response to one who cannot join.
fn status_of_fault(fault: RoomFault) -> u16
    ensures { result ≡ status_of_fault fault }
{
    match fault {
        RoomFault::NoRoom => 503,
        RoomFault::RoomFull => 503,
        RoomFault::Gone => 404,
        RoomFault::NoMemory => 503,
    }
}

impl Server {
    /// Refuses, with this status and tag, whoever cannot join.
    fn refuse_newcomer<L: Ledger>(
        &mut self,
        context: &Context,
        newcomer: &Newcomer<'_>,
        code: u16,
        out: &mut List<Offer>,
        steps: &mut Steps<L>,
    ) -> Result<(), NoMemory>
        ensures done { OnOk result (Follows self.old out.old self.new out.new
            (λ d token. after_newcomer_refusal d context.now.at newcomer.now.key newcomer.now.invite.now newcomer.now.tag.now code)) }
        ensures err { OnErr result (out.new ≡ out.old) }
    {
        let response = response_to(
            context.alloc,
            self.directory.sip,
            newcomer.tag.bytes(),
            newcomer.invite,
            &plain_response(code),
        )?;
        let done = self.send_response(context, newcomer.key, &response, out, steps);
        drop(response);
        done
    }

    /// Opens a conference for the caller of the factory, who gets a response with this tag, unless as many are live as may.
    fn open_conference_for<L: Ledger>(
        &mut self,
        context: &Context,
        newcomer: &Newcomer<'_>,
        out: &mut List<Offer>,
        steps: &mut Steps<L>,
    ) -> Result<(), NoMemory>
        requires { offers_audio newcomer.now.invite.now.parsed.body ≡ true }
        ensures done { OnOk result (Follows self.old out.old self.new out.new
            (λ d token world. after_opening_if d context.now.at newcomer.now.key newcomer.now.invite.now newcomer.now.tag.now
            (is_table_full (conferences_in d world).live) world)) }
        ensures err { OnErr result (AddsOfferPrefix self.old out.old out.new
            (λ d token world. after_opening_if d context.now.at newcomer.now.key newcomer.now.invite.now newcomer.now.tag.now
            (is_table_full (conferences_in d world).live) world)) }
    {
        numbers_never_fall();
        let account = caller_account(
            context.alloc,
            &self.directory.names.accounts,
            newcomer.invite,
        )?;
        let leg = leg_by(
            context.alloc,
            newcomer.invite,
            newcomer.tag.copied(context.alloc)?,
        )?;
        let made = self.create_conference(context, leg, account, newcomer.key, newcomer.invite)?;
        match made {
            Some(emits) => {
                let done = self.emit_all(context, emits.items(), out, steps);
                drop(emits);
                done
            }
            None => self.refuse_newcomer(context, newcomer, 503, out, steps),
        }
    }

    /// Opens a conference for the caller of the factory (RFC 4579 §5.4); the tag that is drawn is that of the response, of a refusal too.
    ///
    /// # Errors
    ///
    /// Out of memory only; a prefix of the outputs has then been added.
    pub(super) fn open_conference<L: Ledger>(
        &mut self,
        context: &Context,
        key: TKey,
        invite: &ReceivedMessage,
        out: &mut List<Offer>,
        steps: &mut Steps<L>,
    ) -> Result<(), NoMemory>
        requires { offers_audio invite.now.parsed.body ≡ true }
        ensures done { OnOk result (Follows self.old out.old self.new out.new
            (λ d token. after_factory_invite d token context.now.at key invite.now)) }
        ensures err { OnErr result (AddsOfferPrefix self.old out.old out.new
            (λ d token. after_factory_invite d token context.now.at key invite.now)) }
    {
        numbers_never_fall();
        let tag = draw_next_tag(context.alloc, &mut self.tokens)?;
        let newcomer = Newcomer {
            key,
            invite,
            tag: &tag,
        };
        self.open_conference_for(context, &newcomer, out, steps)
    }

    /// Adds the party to a conference, with a response with this tag, where the conference is live and has a free place.
    fn join_conference_for<L: Ledger>(
        &mut self,
        context: &Context,
        newcomer: &Newcomer<'_>,
        room: RoomNo,
        out: &mut List<Offer>,
        steps: &mut Steps<L>,
    ) -> Result<(), NoMemory>
        requires { offers_audio newcomer.now.invite.now.parsed.body ≡ true }
        ensures done { OnOk result (Follows self.old out.old self.new out.new
            (λ d token world. after_join_if d token context.now.at newcomer.now.key newcomer.now.invite.now room
            newcomer.now.tag.now (access room.0 (conferences_in d world).live) world)) }
        ensures err { OnErr result (AddsOfferPrefix self.old out.old out.new
            (λ d token world. after_join_if d token context.now.at newcomer.now.key newcomer.now.invite.now room
            newcomer.now.tag.now (access room.0 (conferences_in d world).live) world)) }
    {
        numbers_never_fall();
        let account = caller_account(
            context.alloc,
            &self.directory.names.accounts,
            newcomer.invite,
        )?;
        let leg = leg_by(
            context.alloc,
            newcomer.invite,
            newcomer.tag.copied(context.alloc)?,
        )?;
        let joining = Joining::Invited {
            key: newcomer.key,
            invite: newcomer.invite,
        };
        let leg = Released::Caller(leg);
        let joined = self.add_participant(context, room, leg, account, joining)?;
        match joined {
            Ok(emits) => {
                let done = self.emit_all(context, emits.items(), out, steps);
                drop(emits);
                done
            }
            Err((leg, fault)) => {
                drop_ended(leg.leave());
                self.refuse_newcomer(context, newcomer, status_of_fault(fault), out, steps)
            }
        }
    }

    /// Adds the party to a conference, where it is live and has a free place (RFC 4579 §5.1); the tag that is drawn is that of the response, of a refusal too.
    ///
    /// # Errors
    ///
    /// Out of memory only; a prefix of the outputs has then been added.
    pub(super) fn join_conference<L: Ledger>(
        &mut self,
        context: &Context,
        key: TKey,
        invite: &ReceivedMessage,
        room: RoomNo,
        out: &mut List<Offer>,
        steps: &mut Steps<L>,
    ) -> Result<(), NoMemory>
        requires { offers_audio invite.now.parsed.body ≡ true }
        ensures done { OnOk result (Follows self.old out.old self.new out.new
            (λ d token. after_conference_invite d token context.now.at key invite.now room)) }
        ensures err { OnErr result (AddsOfferPrefix self.old out.old out.new
            (λ d token. after_conference_invite d token context.now.at key invite.now room)) }
    {
        numbers_never_fall();
        let tag = draw_next_tag(context.alloc, &mut self.tokens)?;
        let newcomer = Newcomer {
            key,
            invite,
            tag: &tag,
        };
        self.join_conference_for(context, &newcomer, room, out, steps)
    }
}
