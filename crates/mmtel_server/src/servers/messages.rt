//! The processing of messages.
ghost use Rattle.std.specs.Prelude.{◌≡◌, None, OnErr, OnOk, Some, false, true};
ghost use Rattle.mmtel_compose.specs.ReceivedMessages.{message_view};
ghost use Rattle.mmtel_admission.specs.Dispositions.{disposition_in, response_in};
ghost use Rattle.mmtel_admission.specs.ParsedDatagrams.{parsed_event_in};
ghost use Rattle.mmtel_message.specs.Message.{Message};
ghost use Rattle.mmtel_message.specs.declared.messages.Start.{Start};
ghost use Rattle.mmtel_run_definitions.specs.Audio.{is_for_conference};
ghost use Rattle.mmtel_run_definitions.specs.Calls.{are_full};
ghost use Rattle.mmtel_run_definitions.specs.Records.{until_of};
ghost use Rattle.mmtel_run_definitions.specs.Refusals.{OpenCall};
ghost use Rattle.mmtel_run_definitions.specs.Transitions.{after_classified_message, after_disposition, after_message, after_new_request, after_parsed_event};
ghost use Rattle.mmtel_run_definitions.specs.Transitions.{after_register, with_refusal_of_bytes, with_response, with_retransmission, with_stateless_response};
ghost use Rattle.mmtel_sdp.specs.Offers.{offers_audio};
ghost use Rattle.mmtel_server.specs.Follows.{AddsOfferPrefix, Follows, IsMessageOf};

use crate::servers::conferences::ConferenceParticipant;
use crate::servers::operations::draw_tag;
use crate::servers::{Context, Server};
use crate::theorems::numbers_never_fall;
use mmtel_admission::{
    Disposition, ParsedDatagram, RequestContext, StatusResponse, completed_reply, disposition,
    plain_response, response_to,
};
use mmtel_b2bua::Signal;
use mmtel_base::{List, NoMemory, Text};
use mmtel_compose::ReceivedMessage;
use mmtel_environment::Offer;
use mmtel_message::Msg;
use mmtel_timers::Steps;
use mmtel_transaction::theorems::numbers_are_distinct;
use mmtel_transaction::{HearFault, Heard, TKey};
use mmtel_types::limits::LAST_MOMENT;
use mmtel_types::{Account, Addr, Moment, Peer};
use std::alloc::Global;
use std::sync::ledger::Ledger;

/// The moment so many seconds from now, or the last one that there is.
pub(super) fn until(now: Moment, seconds: u64) -> Moment
    ensures { result ≡ until_of now seconds }
{
    let until = now.ms().saturating_add(seconds.saturating_mul(1000));
    match Moment::new(until.min(LAST_MOMENT)) {
        Some(moment) => moment,
        None => unreachable!(),
    }
}

/// The source of a received message.
#[derive(Clone, Copy)]
struct MessageSource {
    peer: Peer,
    source: Addr,
    trusted: bool,
}

impl MessageSource {
    /// A message that was received from there.
    fn received_message(self, message: Msg) -> ReceivedMessage
        ensures { result ≡ message_view self.peer self.source self.trusted message }
    {
        ReceivedMessage {
            peer: self.peer,
            source: self.source,
            trusted: self.trusted,
            message,
        }
    }
}

/// Responses of the server's own.
impl Server {
    /// Sends a response to a request in its transaction, with a tag of the server where To has none (RFC 3261 §8.2.6).
    pub(super) fn respond<L: Ledger>(
        &mut self,
        context: &Context,
        key: TKey,
        request: &ReceivedMessage,
        status_response: &StatusResponse,
        out: &mut List<Offer>,
        steps: &mut Steps<L>,
    ) -> Result<(), NoMemory>
        ensures done { OnOk result (Follows self.old out.old self.new out.new
            (λ d token. with_response d token context.now.at key request.now (response_in status_response.now))) }
        ensures err { OnErr result (out.new ≡ out.old) }
    {
        let tag = draw_tag(context.alloc, &mut self.tokens, &request.message)?;
        let made = response_to(
            context.alloc,
            self.directory.sip,
            tag.bytes(),
            request,
            status_response,
        );
        drop(tag);
        let response = made?;
        let done = self.send_response(context, key, &response, out, steps);
        drop(response);
        done
    }

    /// Sends a response to a request without a transaction, with a tag of the server where To has none (RFC 3261 §8.2.7).
    fn respond_statelessly(
        &mut self,
        context: &Context,
        request: &ReceivedMessage,
        status_response: &StatusResponse,
        out: &mut List<Offer>,
    ) -> Result<(), NoMemory>
        ensures done { OnOk result (Follows self.old out.old self.new out.new
            (λ d token. with_stateless_response d token context.now.at request.now (response_in status_response.now))) }
        ensures err { OnErr result (out.new ≡ out.old) }
    {
        let tag = draw_tag(context.alloc, &mut self.tokens, &request.message)?;
        let made = response_to(
            context.alloc,
            self.directory.sip,
            tag.bytes(),
            request,
            status_response,
        );
        drop(tag);
        let response = made?;
        let written = response.text(context.alloc);
        drop(response);
        let text = written?;
        self.send_text(context, request.peer, text.bytes(), out)
    }

    /// Replies to bytes of a peer that were refused as they were read.
    fn respond_to_unreadable(
        &mut self,
        context: &Context,
        peer: Peer,
        source: Addr,
        reply: &Msg,
        out: &mut List<Offer>,
    ) -> Result<(), NoMemory>
        ensures done { OnOk result (Follows self.old out.old self.new out.new
            (λ d token. with_refusal_of_bytes token context.now.at peer source reply.now)) }
        ensures err { OnErr result (out.new ≡ out.old) }
    {
        let tag = draw_tag(context.alloc, &mut self.tokens, reply)?;
        let made = completed_reply(context.alloc, tag.bytes(), source, reply);
        drop(tag);
        let response = made?;
        let written = response.text(context.alloc);
        drop(response);
        let text = written?;
        self.send_text(context, peer, text.bytes(), out)
    }
}

/// What is done with a request that opens a transaction.
impl Server {
    /// Registers an account for so many seconds, and sends the response (RFC 3261 §10.3).
    fn register<L: Ledger>(
        &mut self,
        context: &Context,
        key: TKey,
        request: &ReceivedMessage,
        account: Account,
        seconds: u64,
        out: &mut List<Offer>,
        steps: &mut Steps<L>,
    ) -> Result<(), NoMemory>
        ensures done { OnOk result (Follows self.old out.old self.new out.new
            (λ d token. after_register d token context.now.at key request.now account seconds)) }
        ensures err { OnErr result (out.new ≡ out.old) }
    {
        self.records.register(account, until(context.at, seconds))?;
        self.respond(context, key, request, &plain_response(200), out, steps)
    }

    /// Executes the disposition of a request; a call is opened only where fewer live than may, and a conference is opened or joined only by an INVITE that offers audio.
    fn perform_disposition<L: Ledger>(
        &mut self,
        context: &Context,
        key: TKey,
        request: ReceivedMessage,
        disposition: Disposition,
        out: &mut List<Offer>,
        steps: &mut Steps<L>,
    ) -> Result<(), NoMemory>
        requires below { disposition_in disposition ≡ OpenCall → are_full self.old.calls.table.entries ≡ false }
        requires audio { is_for_conference (disposition_in disposition) ≡ true → offers_audio request.parsed.body ≡ true }
        ensures done { OnOk result (Follows self.old out.old self.new out.new
            (λ d token. after_disposition d token context.now.at key request (disposition_in disposition))) }
        ensures err { OnErr result (AddsOfferPrefix self.old out.old out.new
            (λ d token. after_disposition d token context.now.at key request (disposition_in disposition))) }
    {
        numbers_never_fall();
        match disposition {
            Disposition::Respond(answer) => {
                let done = self.respond(context, key, &request, &answer, out, steps);
                drop(answer);
                drop(request);
                done
            }
            Disposition::Enter { call, side } => {
                let signal = Signal::Request {
                    call,
                    side,
                    key,
                    request,
                };
                self.signal_calls(context, signal, out, steps)
            }
            Disposition::EnterConference { room, seat } => {
                let seat = ConferenceParticipant { room, number: seat };
                self.enter_conference(context, key, request, seat, out, steps)
            }
            Disposition::OpenCall => self.open_call(context, key, request, out, steps),
            Disposition::OpenConference => {
                let done = self.open_conference(context, key, &request, out, steps);
                drop(request);
                done
            }
            Disposition::JoinConference { room } => {
                let done = self.join_conference(context, key, &request, room, out, steps);
                drop(request);
                done
            }
            Disposition::Register { account, seconds } => {
                let done = self.register(context, key, &request, account, seconds, out, steps);
                drop(request);
                done
            }
            Disposition::Subscribe => {
                let done = self.subscribe(context, key, &request, out, steps);
                drop(request);
                done
            }
            Disposition::EnterSubscription(sub) => {
                let done = self.enter_subscription(context, key, &request, sub, out, steps);
                drop(request);
                done
            }
        }
    }

    /// Processes a request that opened a transaction.
    fn receive_new_request<L: Ledger>(
        &mut self,
        context: &Context,
        key: TKey,
        request: ReceivedMessage,
        out: &mut List<Offer>,
        steps: &mut Steps<L>,
    ) -> Result<(), NoMemory>
        ensures done { OnOk result (Follows self.old out.old self.new out.new
            (λ d token. after_new_request d token context.now.at key request)) }
        ensures err { OnErr result (AddsOfferPrefix self.old out.old out.new
            (λ d token. after_new_request d token context.now.at key request)) }
    {
        numbers_never_fall();
        let is_merged = self.transactions.merged(key, steps);
        let is_full = self.calls.is_full();
        let owner = match self.owner_of_message(context.alloc, &request) {
            Ok(owner) => owner,
            Err(error) => {
                drop(request);
                return Err(error);
            }
        };
        let request_context = RequestContext {
            is_merged,
            is_full,
            owner,
        };
        let chosen = match disposition(context.alloc, &self.directory, &request_context, &request) {
            Ok(chosen) => chosen,
            Err(error) => {
                drop(request);
                return Err(error);
            }
        };
        self.perform_disposition(context, key, request, chosen, out, steps)
    }
}

/// The processing of any message of a peer.
impl Server {
    /// Sends the retransmission that is due for a retransmitted message.
    fn retransmit(
        &mut self,
        context: &Context,
        sent: Option<(Peer, Text)>,
        out: &mut List<Offer>,
    ) -> Result<(), NoMemory>
        ensures done { OnOk result (Follows self.old out.old self.new out.new
            (λ d token. with_retransmission context.now.at sent)) }
        ensures err { OnErr result (out.new ≡ out.old) }
    {
        match sent {
            None => Ok(()),
            Some((peer, text)) => self.send_text(context, peer, text.bytes(), out),
        }
    }

    /// Processes a message of a peer, by how the transactions classify it.
    fn receive_by_transaction<L: Ledger>(
        &mut self,
        context: &Context,
        message_source: MessageSource,
        received: Heard,
        out: &mut List<Offer>,
        steps: &mut Steps<L>,
    ) -> Result<(), NoMemory>
        ensures done { OnOk result ((message : Message Start) → IsMessageOf message received →
            Follows self.old out.old self.new out.new
            (λ d token. after_classified_message d token context.now.at (message_view message_source.peer message_source.source message_source.trusted message)
            (Some received))) }
        ensures err { OnErr result ((message : Message Start) → IsMessageOf message received →
            AddsOfferPrefix self.old out.old out.new
            (λ d token. after_classified_message d token context.now.at (message_view message_source.peer message_source.source message_source.trusted message)
            (Some received))) }
    {
        numbers_never_fall();
        match received {
            Heard::Fresh(key, message) => self.receive_new_request(
                context,
                key,
                message_source.received_message(message),
                out,
                steps,
            ),
            Heard::Answer(key, message) => {
                self.receive_response(
                    context,
                    key,
                    message_source.received_message(message),
                    out,
                    steps,
                )
            }
            Heard::Repeat(sent) => self.retransmit(context, sent, out),
            Heard::Acked(_) => Ok(()),
            Heard::Cancel(key, invite, message) => {
                self.receive_cancel(
                    context,
                    key,
                    invite,
                    message_source.received_message(message),
                    out,
                    steps,
                )
            }
            Heard::AckOf2xx(message) => self.receive_ack(
                context,
                message_source.received_message(message),
                out,
                steps,
            ),
            Heard::Stray => Ok(()),
        }
    }

    /// Responds to a message beyond the capacity (RFC 3261 §21.5.4).
    fn respond_too_many(
        &mut self,
        context: &Context,
        request: &ReceivedMessage,
        out: &mut List<Offer>,
    ) -> Result<(), NoMemory>
        ensures done { OnOk result (Follows self.old out.old self.new out.new
            (λ d token. after_classified_message d token context.now.at request.now None)) }
        ensures err { OnErr result (out.new ≡ out.old) }
    {
        self.respond_statelessly(context, request, &plain_response(503), out)
    }

    /// Processes a received message of a peer.
    fn receive_message<L: Ledger>(
        &mut self,
        context: &Context,
        received: ReceivedMessage,
        out: &mut List<Offer>,
        steps: &mut Steps<L>,
    ) -> Result<(), NoMemory>
        ensures done { OnOk result (Follows self.old out.old self.new out.new
            (λ d token. after_message d token context.now.at received)) }
        ensures err { OnErr result (AddsOfferPrefix self.old out.old out.new (λ d token. after_message d token context.now.at received)) }
    {
        numbers_are_distinct();
        numbers_never_fall();
        let ReceivedMessage {
            peer,
            source,
            trusted,
            message,
        } = received;
        let message_source = MessageSource {
            peer,
            source,
            trusted,
        };
        match self
            .transactions
            .hear(context.alloc, peer, message, context.at, steps)
        {
            Ok(heard_by_transactions) => self.receive_by_transaction(
                context,
                message_source,
                heard_by_transactions,
                out,
                steps,
            ),
            Err(HearFault::Full(message)) => {
                let request = message_source.received_message(message);
                let done = self.respond_too_many(context, &request, out);
                drop(request);
                done
            }
            Err(HearFault::NoMemory) => Err(NoMemory),
        }
    }

    /// Processes a datagram, or the passing of time, at a moment of the clock, by what was read of it.
    ///
    /// # Errors
    ///
    /// Out of memory only: a prefix of its outputs has then been added, and the server has failed.
    pub(crate) fn receive_parsed<L: Ledger>(
        &mut self,
        alloc: Global,
        parsed: ParsedDatagram,
        at: Moment,
        out: &mut List<Offer>,
        steps: &mut Steps<L>,
    ) -> Result<(), NoMemory>
        ensures done { OnOk result (Follows self.old out.old self.new out.new
            (λ d token. after_parsed_event d token at (parsed_event_in parsed))) }
        ensures err { OnErr result (AddsOfferPrefix self.old out.old out.new (λ d token. after_parsed_event d token at (parsed_event_in parsed))) }
    {
        numbers_never_fall();
        let context = Context { alloc, at };
        match parsed {
            ParsedDatagram::Nothing => Ok(()),
            ParsedDatagram::Refused {
                peer,
                source,
                reply,
            } => {
                let done = self.respond_to_unreadable(&context, peer, source, &reply, out);
                drop(reply);
                done
            }
            ParsedDatagram::Received(heard) => self.receive_message(&context, heard, out, steps),
        }
    }
}
