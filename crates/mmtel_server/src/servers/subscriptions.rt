//! Operations on mailboxes and on the subscriptions to them (RFC 6665 §4.1, §4.2; RFC 3842; 3GPP TS 24.606).
ghost use Rattle.std.specs.Prelude.{◌≡◌, ◌∷◌, [], ℕ, List, IfOk, None, OnErr, OnOk, false, true};
ghost use Rattle.std.specs.Option.{option_copied};
ghost use Rattle.mmtel_directory.specs.declared.directories.Directory.{Directory};
ghost use Rattle.mmtel_mwi.specs.Boxes.{is_full, next_sub, request_check};
ghost use Rattle.mmtel_mwi.specs.Operations.{Receives, Subscribes};
ghost use Rattle.mmtel_mwi.specs.Subscribing.{granted_seconds, refusal};
ghost use Rattle.mmtel_environment.specs.declared.events.Offer.{Offer};
ghost use Rattle.mmtel_run_definitions.specs.OwnResponses.{response_to};
ghost use Rattle.mmtel_run_definitions.specs.Events.{message_in};
ghost use Rattle.mmtel_run_definitions.specs.Subscriptions.{after_expiry, after_mailbox_upload, after_notify_response, after_refresh_by};
ghost use Rattle.mmtel_run_definitions.specs.Subscriptions.{after_subscription, after_subscription_for, after_subscription_request};
ghost use Rattle.mmtel_run_definitions.specs.Subscriptions.{grant_response, other_response, subscribe_request_of, with_mailbox_op};
ghost use Rattle.mmtel_run_definitions.specs.Subscriptions.{after_activation, after_last_notify, after_notify, after_notify_to_each, after_subscribe, refusal_response};
ghost use Rattle.mmtel_run_definitions.specs.Transitions.{RunState, subscriptions_in, with_emits, with_response};
ghost use Rattle.mmtel_server.specs.Follows.{AddsOfferPrefix, Follows};
ghost use Rattle.mmtel_server.specs.Representation.{Represents};
ghost use Rattle.mmtel_transaction.specs.declared.words.Emit.TheVariants as emit;

use super::messages::until;
use super::newcomers::{draw_next_tag, leg_by};
use super::{Context, Server};
use mmtel_admission::{
    grant_response, granted_expires, named_mailbox, other_response, plain_response,
    refusal_response, response_to, subscribe_refusal,
};
use mmtel_base::{List, NoMemory, Text};
use mmtel_compose::ReceivedMessage;
use mmtel_environment::Offer;
use mmtel_leg::{CallerLeg, DialogueFault, Standing};
use mmtel_message::is_method;
use mmtel_mwi::{Counts, drop_ended};
use mmtel_server_timers::ServiceTimer;
use mmtel_timers::Steps;
use mmtel_transaction::TKey;
use mmtel_types::{Account, Moment, SubNo};
use std::sync::ledger::Ledger;

/// The notification of a subscriber.
impl Server {
    /// Notifies the subscriber how many messages wait (RFC 3842 §3.6); nothing, where the subscription is not live.
    fn notify_subscriber<L: Ledger>(
        &mut self,
        context: &Context,
        sub: SubNo,
        last: bool,
        out: &mut List<Offer>,
        steps: &mut Steps<L>,
    ) -> Result<(), NoMemory>
        ensures done { OnOk result (Follows self.old out.old self.new out.new
            (λ d token. after_notify d token context.now.at sub last)) }
        ensures err { OnErr result (out.new ≡ out.old) }
    {
        let Some(peer) = self.boxes.peer(sub) else {
            return Ok(());
        };
        let branch = draw_next_tag(context.alloc, &mut self.tokens)?;
        let made = self
            .boxes
            .tell(context.alloc, sub, last, &branch, context.at);
        drop(branch);
        match made? {
            None => Ok(()),
            Some(notify) => {
                let done = self.send_request(context, peer, &notify, out, steps);
                drop(notify);
                done
            }
        }
    }

    /// Sends the subscriber its last notification, and ends the subscription.
    fn notify_terminated<L: Ledger>(
        &mut self,
        context: &Context,
        sub: SubNo,
        out: &mut List<Offer>,
        steps: &mut Steps<L>,
    ) -> Result<(), NoMemory>
        ensures done { OnOk result (Follows self.old out.old self.new out.new
            (λ d token. after_last_notify d token context.now.at sub)) }
        ensures err { OnErr result (out.new ≡ out.old) }
    {
        self.notify_subscriber(context, sub, true, out, steps)?;
        match self.boxes.end(sub) {
            None => {}
            Some(ended) => drop_ended(ended),
        }
        Ok(())
    }

    /// Where the counts of a mailbox were set: notifies its subscribers, in the order in which they subscribed.
    ///
    /// # Errors
    ///
    /// Out of memory only; a prefix of the outputs has then been added.
    pub(super) fn put_counts<L: Ledger>(
        &mut self,
        context: &Context,
        put: Option<(Account, Counts)>,
        out: &mut List<Offer>,
        steps: &mut Steps<L>,
    ) -> Result<(), NoMemory>
        ensures done { OnOk result (Follows self.old out.old self.new out.new
            (λ d token. after_mailbox_upload d token context.now.at put)) }
        ensures err { OnErr result (AddsOfferPrefix self.old out.old out.new
            (λ d token. after_mailbox_upload d token context.now.at put)) }
    {
        let Some((account, counts)) = put else {
            return Ok(());
        };
        self.boxes.put(account, counts)?;
        let subs = self.boxes.subscribers(context.alloc, account)?;
        let done = self.notify_each(context, subs.items(), out, steps);
        drop(subs);
        done
    }

    /// Notifies each of these subscribers how many messages wait.
    fn notify_each<L: Ledger>(
        &mut self,
        context: &Context,
        subs: &[SubNo],
        out: &mut List<Offer>,
        steps: &mut Steps<L>,
    ) -> Result<(), NoMemory>
        ensures done { OnOk result (Follows self.old out.old self.new out.new
            (λ d token. after_notify_to_each d token context.now.at subs.now)) }
        ensures err { OnErr result (AddsOfferPrefix self.old out.old out.new
            (λ d token. after_notify_to_each d token context.now.at subs.now)) }
    {
        for sub in subs {
            self.notify_subscriber(context, *sub, false, out, steps)?;
        }
        Ok(())
    }
}

/// The processing of a SUBSCRIBE outside a dialog.
impl Server {
    /// Makes a subscription active for so many seconds from now: its subscriber gets a NOTIFY, the last one where the number is 0.
    fn activate_subscription<L: Ledger>(
        &mut self,
        context: &Context,
        sub: SubNo,
        seconds: u64,
        out: &mut List<Offer>,
        steps: &mut Steps<L>,
    ) -> Result<(), NoMemory>
        ensures done { OnOk result (Follows self.old out.old self.new out.new
            (λ d token. after_activation d token context.now.at sub seconds)) }
        ensures err { OnErr result (AddsOfferPrefix self.old out.old out.new
            (λ d token. after_activation d token context.now.at sub seconds)) }
    {
        if seconds == 0 {
            return self.notify_terminated(context, sub, out, steps);
        }
        let set = self.boxes.set_by(sub);
        self.notify_subscriber(context, sub, false, out, steps)?;
        match set {
            None => Ok(()),
            Some(set) => {
                let until = until(context.at, seconds);
                self.arm_timer(ServiceTimer::OfSubscription { sub, set }, until.ms(), steps)
            }
        }
    }

    /// Sends the 200 to a SUBSCRIBE that creates a subscription, with this tag (RFC 6665 §4.2.1.1).
    fn accept_subscribe<L: Ledger>(
        &mut self,
        context: &Context,
        key: TKey,
        request: &ReceivedMessage,
        tag: &Text,
        seconds: u64,
        out: &mut List<Offer>,
        steps: &mut Steps<L>,
    ) -> Result<(), NoMemory>
        ensures done { OnOk result (Follows self.old out.old self.new out.new
            (λ d token. with_emits context.now.at (emit.Reply key (response_to d.sip tag.now request.now (grant_response seconds)) ∷ []))) }
        ensures err { OnErr result (out.new ≡ out.old) }
    {
        let status_response = grant_response(context.alloc, seconds)?;
        let made = response_to(
            context.alloc,
            self.directory.sip,
            tag.bytes(),
            request,
            &status_response,
        );
        drop(status_response);
        let response = made?;
        let done = self.send_response(context, key, &response, out, steps);
        drop(response);
        done
    }

    /// Where a leg subscribes to the mailbox of an account; it is released where memory ran out.
    fn add_subscription(
        &mut self,
        account: Account,
        leg: CallerLeg<Standing>,
        until: Moment,
    ) -> Result<SubNo, NoMemory>
        requires { is_full self.old.boxes.table ≡ false }
        ensures number { IfOk result (λ sub. sub ≡ next_sub self.old.boxes.table) }
        ensures done { OnOk result ((out : List Offer) → Follows self.old out self.new out
            (λ d token. with_mailbox_op (Subscribes account leg until))) }
    {
        match self.boxes.subscribe(account, leg, until) {
            Ok(sub) => Ok(sub),
            Err((leg, _)) => {
                drop_ended(leg.leave());
                Err(NoMemory)
            }
        }
    }

    /// Creates a subscription to the mailbox of an account, where fewer subscriptions live than may.
    fn create_subscription<L: Ledger>(
        &mut self,
        context: &Context,
        key: TKey,
        request: &ReceivedMessage,
        account: Account,
        out: &mut List<Offer>,
        steps: &mut Steps<L>,
    ) -> Result<(), NoMemory>
        requires { is_full self.old.boxes.table ≡ false }
        ensures done { OnOk result (Follows self.old out.old self.new out.new
            (λ d token. after_subscription d token context.now.at key request.now account (granted_seconds request.now.parsed.expires))) }
        ensures err { OnErr result (AddsOfferPrefix self.old out.old out.new
            (λ d token. after_subscription d token context.now.at key request.now account (granted_seconds request.now.parsed.expires))) }
    {
        let seconds = granted_expires(request);
        let tag = draw_next_tag(context.alloc, &mut self.tokens)?;
        let leg = leg_by(context.alloc, request, tag.copied(context.alloc)?)?;
        let sub = self.add_subscription(account, leg, until(context.at, seconds))?;
        let done = self.accept_subscribe(context, key, request, &tag, seconds, out, steps);
        drop(tag);
        done?;
        self.activate_subscription(context, sub, seconds, out, steps)
    }

    /// Creates a subscription to the mailbox of an account, for a sender who may subscribe, unless as many live as may.
    fn create_subscription_for<L: Ledger>(
        &mut self,
        context: &Context,
        key: TKey,
        request: &ReceivedMessage,
        account: Option<Account>,
        out: &mut List<Offer>,
        steps: &mut Steps<L>,
    ) -> Result<(), NoMemory>
        ensures done { OnOk result (Follows self.old out.old self.new out.new
            (λ d token. after_subscription_for d token context.now.at key request.now account)) }
        ensures err { OnErr result (AddsOfferPrefix self.old out.old out.new
            (λ d token. after_subscription_for d token context.now.at key request.now account)) }
    {
        match account {
            None => self.respond(context, key, request, &plain_response(403), out, steps),
            Some(account) => {
                if self.boxes.is_full() {
                    self.respond(context, key, request, &plain_response(503), out, steps)
                } else {
                    self.create_subscription(context, key, request, account, out, steps)
                }
            }
        }
    }

    /// Refuses a SUBSCRIBE with this status.
    fn refuse_subscribe<L: Ledger>(
        &mut self,
        context: &Context,
        key: TKey,
        request: &ReceivedMessage,
        code: u16,
        out: &mut List<Offer>,
        steps: &mut Steps<L>,
    ) -> Result<(), NoMemory>
        ensures done { OnOk result (Follows self.old out.old self.new out.new
            (λ d token. with_response d token context.now.at key request.now (refusal_response code))) }
        ensures err { OnErr result (out.new ≡ out.old) }
    {
        let status_response = refusal_response(context.alloc, code)?;
        let done = self.respond(context, key, request, &status_response, out, steps);
        drop(status_response);
        done
    }

    /// Processes a SUBSCRIBE outside a dialog: it creates a subscription, or the first refusal that applies decides.
    ///
    /// # Errors
    ///
    /// Out of memory only; a prefix of the outputs has then been added.
    pub(super) fn subscribe<L: Ledger>(
        &mut self,
        context: &Context,
        key: TKey,
        request: &ReceivedMessage,
        out: &mut List<Offer>,
        steps: &mut Steps<L>,
    ) -> Result<(), NoMemory>
        ensures done { OnOk result (Follows self.old out.old self.new out.new
            (λ d token. after_subscribe d token context.now.at key request.now)) }
        ensures err { OnErr result (AddsOfferPrefix self.old out.old out.new
            (λ d token. after_subscribe d token context.now.at key request.now)) }
    {
        match subscribe_refusal(context.alloc, &self.directory, false, request)? {
            Some(code) => self.refuse_subscribe(context, key, request, code, out, steps),
            None => {
                let account = named_mailbox(context.alloc, &self.directory, request)?;
                self.create_subscription_for(context, key, request, account, out, steps)
            }
        }
    }
}

/// The processing of a request in the dialog of a subscription.
impl Server {
    /// A SUBSCRIBE that is accepted sets the expiration of the subscription anew.
    fn refresh_subscription<L: Ledger>(
        &mut self,
        context: &Context,
        key: TKey,
        request: &ReceivedMessage,
        sub: SubNo,
        out: &mut List<Offer>,
        steps: &mut Steps<L>,
    ) -> Result<(), NoMemory>
        ensures done { OnOk result (Follows self.old out.old self.new out.new
            (λ d token. after_refresh_by d token context.now.at key request.now sub None)) }
        ensures err { OnErr result (AddsOfferPrefix self.old out.old out.new
            (λ d token. after_refresh_by d token context.now.at key request.now sub None)) }
    {
        let seconds = granted_expires(request);
        self.boxes.refresh(sub, until(context.at, seconds));
        let status_response = grant_response(context.alloc, seconds)?;
        let done = self.respond(context, key, request, &status_response, out, steps);
        drop(status_response);
        done?;
        self.activate_subscription(context, sub, seconds, out, steps)
    }

    /// Processes a SUBSCRIBE in the dialog of a subscription: it sets its expiration anew, or the first refusal that applies decides.
    fn resubscribe<L: Ledger>(
        &mut self,
        context: &Context,
        key: TKey,
        request: &ReceivedMessage,
        sub: SubNo,
        out: &mut List<Offer>,
        steps: &mut Steps<L>,
    ) -> Result<(), NoMemory>
        ensures done { OnOk result (Follows self.old out.old self.new out.new
            (λ d token. after_refresh_by d token context.now.at key request.now sub (refusal (subscribe_request_of d true request.now.parsed)))) }
        ensures err { OnErr result (AddsOfferPrefix self.old out.old out.new
            (λ d token. after_refresh_by d token context.now.at key request.now sub (refusal (subscribe_request_of d true request.now.parsed)))) }
    {
        match subscribe_refusal(context.alloc, &self.directory, true, request)? {
            Some(code) => self.refuse_subscribe(context, key, request, code, out, steps),
            None => self.refresh_subscription(context, key, request, sub, out, steps),
        }
    }

    /// Sends the response to any other request in the dialog of a subscription: 200 to OPTIONS, 403 to REFER, and else 481.
    fn respond_to_other<L: Ledger>(
        &mut self,
        context: &Context,
        key: TKey,
        request: &ReceivedMessage,
        out: &mut List<Offer>,
        steps: &mut Steps<L>,
    ) -> Result<(), NoMemory>
        ensures done { OnOk result (Follows self.old out.old self.new out.new
            (λ d token. with_response d token context.now.at key request.now (other_response d request.now.parsed))) }
        ensures err { OnErr result (out.new ≡ out.old) }
    {
        let status_response = other_response(context.alloc, &self.directory, request)?;
        let done = self.respond(context, key, request, &status_response, out, steps);
        drop(status_response);
        done
    }

    /// Notes the CSeq number of a request of the subscriber, or refuses the request where it is out of order (RFC 3261 §12.2.2).
    fn receive_in_subscription(
        &mut self,
        sub: SubNo,
        request: &ReceivedMessage,
    ) -> Result<(), DialogueFault>
        ensures check { (directory : Directory) (token : List ℕ) (world : RunState) → Represents directory token self.old world →
            result ≡ request_check sub (message_in request.now.parsed) (subscriptions_in world) }
        ensures done { OnOk result ((out : List Offer) → Follows self.old out self.new out
            (λ d token. with_mailbox_op (Receives sub (message_in request.now.parsed)))) }
        ensures refused { OnErr result (self.new ≡ self.old) }
    {
        match self.boxes.peer(sub) {
            None => Ok(()),
            Some(_) => self.boxes.heard(sub, &request.message),
        }
    }

    /// Processes a request in the dialog of a subscription.
    ///
    /// # Errors
    ///
    /// Out of memory only; a prefix of the outputs has then been added.
    pub(super) fn enter_subscription<L: Ledger>(
        &mut self,
        context: &Context,
        key: TKey,
        request: &ReceivedMessage,
        sub: SubNo,
        out: &mut List<Offer>,
        steps: &mut Steps<L>,
    ) -> Result<(), NoMemory>
        ensures done { OnOk result (Follows self.old out.old self.new out.new
            (λ d token. after_subscription_request d token context.now.at key request.now sub)) }
        ensures err { OnErr result (AddsOfferPrefix self.old out.old out.new
            (λ d token. after_subscription_request d token context.now.at key request.now sub)) }
    {
        match self.receive_in_subscription(sub, request) {
            Err(_) => self.respond(context, key, request, &plain_response(500), out, steps),
            Ok(()) => {
                if is_method(b"SUBSCRIBE", request.message.start()) {
                    self.resubscribe(context, key, request, sub, out, steps)
                } else {
                    self.respond_to_other(context, key, request, out, steps)
                }
            }
        }
    }
}

/// The end of a subscription.
impl Server {
    /// Ends a subscription at the moment that this SUBSCRIBE of it set, unless a later one set another moment.
    pub(super) fn expire_subscription<L: Ledger>(
        &mut self,
        context: &Context,
        sub: SubNo,
        set: u64,
        out: &mut List<Offer>,
        steps: &mut Steps<L>,
    ) -> Result<(), NoMemory>
        ensures done { OnOk result (Follows self.old out.old self.new out.new
            (λ d token. after_expiry d token context.now.at sub set)) }
        ensures err { OnErr result (AddsOfferPrefix self.old out.old out.new
            (λ d token. after_expiry d token context.now.at sub set)) }
    {
        match self.boxes.set_by(sub) {
            None => Ok(()),
            Some(last) => {
                if last == set {
                    self.notify_terminated(context, sub, out, steps)
                } else {
                    Ok(())
                }
            }
        }
    }

    /// A NOTIFY of this branch got a response with this status, 408 where it got none: a status from 300 on ends its subscription (RFC 6665 §4.2.2).
    pub(super) fn receive_notify_response(&mut self, branch: Option<&[u8]>, code: u16)
        ensures { (out : List Offer) → Follows self.old out self.new out
            (λ d token. after_notify_response (option_copied branch.entry) code) }
    {
        let Some(branch) = branch else {
            return;
        };
        match self.boxes.answered(branch, code) {
            None => {}
            Some(ended) => drop_ended(ended),
        }
    }
}
