//! The table of calls.
ghost use Rattle.std.specs.Prelude.{◌≡◌, ◌≤◌, ◌∷◌, ◌++◌, true, false, length, List, IfErr, IfOk, IsErr, None, OnOk, Some, Err, MatchResult};
ghost use Rattle.std.specs.Prelude.{count_by, is_some, nat_le, position};
ghost use Rattle.std.specs.Option.{option_copied};
ghost use Rattle.mmtel_b2bua.specs.Entries.{has_received_key as had_answer_by, has_sent_branch, is_live};
ghost use Rattle.mmtel_b2bua.specs.Operations.{CallsView, Drops, Finishes, Receives, Releases, Represents, Restores, TableOp};
ghost use Rattle.mmtel_b2bua.specs.Operations.{config_of, step_on_finish, step_on_receive_after, table_after};
ghost use Rattle.mmtel_b2bua.specs.Detaching.{can_restore, entry_of, has_detached_leg, released_leg_of};
ghost use Rattle.mmtel_b2bua.specs.Queries.{first_side, live, party, side_by_dialog, side_by_invite_key};
ghost use Rattle.mmtel_b2bua.specs.Tables.{is_full, most_calls, no_calls, opened_after, step_of_signal, with_step};
ghost use Rattle.mmtel_output.specs.Outputs.{empty_output};
ghost use Rattle.mmtel_leg.specs.Releases.{released_leg};
ghost use Rattle.mmtel_base.specs.Numbers.{next_number};
ghost use Rattle.mmtel_trust.specs.Peers.{Peers};
ghost use Rattle.mmtel_trust.specs.declared.accounts.AccountIdentity.{AccountIdentity};

use crate::call_table::CallTable;
use crate::dispatch::{place_by_branch, place_by_client_key, receive_signal};
use crate::signals::{CallFault, Signal};
use crate::step_context::StepContext;
use crate::{detaching, queries};
use mmtel_base::{NoMemory, Text};
use mmtel_call::NotTalking;
use mmtel_call_services::CallConfig;
use mmtel_charging::Row;
use mmtel_leg::{DialogName, Released};
use mmtel_message::OwnAddress;
use mmtel_output::StepOutput;
use mmtel_sheet_values::SheetView;
use mmtel_transaction::{Emits, TKey, Tokens};
use mmtel_trust::{Accounts, PeerTable};
use mmtel_types::{Account, Addr, CallNo, Moment, Peer, Side};
use std::alloc::Global;
use std::marker::Model;
use std::mem;

/// The configuration for calls.
#[derive(Drop)]
struct Configuration {
    sip: OwnAddress,
    home: Text,
    bound: u16,
    country: Option<Text>,
    reliable: bool,
    timer: bool,
    mwi: bool,
}

/// The calls of a server. They must be spent.
pub struct Calls {
    configuration: Configuration,
    table: CallTable,
    has_failed: bool,
}

impl Model for Calls {
    ghost use Rattle.std.specs.Prelude.{◌≤◌};
    ghost use Rattle.mmtel_b2bua.specs.Operations.{CallsView};

    ghost Value = { CallsView };

    ghost view = { λ c. record {
      sip = c.configuration.sip;
      home = c.configuration.home;
      bound = c.configuration.bound;
      country = c.configuration.country;
      reliable = c.configuration.reliable;
      timer = c.configuration.timer;
      mwi = c.configuration.mwi;
      table = c.table;
      has_failed = c.has_failed;
    } };

    ghost invariant = { λ c. c.configuration.bound ≤ 16 };
}

/// Whether a signal would open one call too many.
fn is_full(signal: &Signal, table: &CallTable) -> bool
    ensures { result ≡ is_full signal.now table.now.entries }
{
    match signal {
        Signal::Arrived { .. } => table.is_full(),
        _ => false,
    }
}

/// The input of each step: the configuration, the peers and the accounts.
fn config_of<'a>(
    configuration: &'a Configuration,
    peers: &'a PeerTable,
    accounts: &'a Accounts,
) -> CallConfig<'a>
    requires { configuration.now.bound ≤ 16 }
    ensures { result ≡ record {
      sip = configuration.now.sip;
      home = configuration.now.home;
      bound = configuration.now.bound;
      country = configuration.now.country;
      reliable = configuration.now.reliable;
      timer = configuration.now.timer;
      mwi = configuration.now.mwi;
      peers = peers.now;
      accounts = accounts.now;
    } }
{
    CallConfig {
        sip: configuration.sip,
        home: configuration.home.bytes(),
        bound: configuration.bound,
        country: configuration.country.as_ref(),
        reliable: configuration.reliable,
        timer: configuration.timer,
        mwi: configuration.mwi,
        peers,
        accounts,
    }
}

/// Keeps the CDRs that a step closed, and returns what is sent.
fn settle(table: &mut CallTable, alloc: Global, output: StepOutput) -> Result<Emits, NoMemory>
    ensures kept { OnOk result (table.new ≡ record table.old { rows = table.old.rows ++ output.rows }) }
    ensures emits { IfOk result (λ out. out ≡ output.out) }
{
    let StepOutput { tokens, out, rows } = output;
    drop(tokens);
    match table.keep_rows(alloc, rows) {
        Ok(()) => Ok(out),
        Err(error) => {
            drop(out);
            Err(error)
        }
    }
}

/// The calls receive a signal, and keep the CDRs that its step closed; tokens are drawn from these.
fn receive(
    table: &mut CallTable,
    step: &StepContext<'_>,
    signal: Signal,
    tokens: &mut Tokens,
) -> Result<Emits, NoMemory>
    ensures done { OnOk result (table.new
        ≡ with_step (step_of_signal step.now.config.now step.now.at step.now.sheets.now
        (next_number table.old.opened) signal table.old.entries
        (empty_output tokens.old)) (opened_after signal table.old.opened) table.old) }
    ensures emits { IfOk result (λ out. out
        ≡ (step_of_signal step.now.config.now step.now.at step.now.sheets.now
        (next_number table.old.opened) signal table.old.entries
        (empty_output tokens.old)).output.out) }
    ensures tokens { OnOk result (tokens.new
        ≡ (step_of_signal step.now.config.now step.now.at step.now.sheets.now
        (next_number table.old.opened) signal table.old.entries
        (empty_output tokens.old)).output.tokens) }
{
    let mut output = StepOutput::new(mem::replace(tokens, Tokens::new(Text::new())));
    let dispatched = receive_signal(table, step, signal, &mut output);
    mem::swap(tokens, &mut output.tokens);
    match dispatched {
        Ok(()) => settle(table, step.alloc, output),
        Err(error) => {
            drop(output);
            Err(error)
        }
    }
}

/// The call of this number, whose leg is detached, ends, and its CDRs are kept; tokens are drawn from these.
fn finish(
    table: &mut CallTable,
    alloc: Global,
    config: &CallConfig<'_>,
    at: Moment,
    call: CallNo,
    tokens: &mut Tokens,
) -> Result<Emits, NoMemory>
    requires { has_detached_leg (entry_of call.0 table.old.entries) ≡ true }
    ensures done { OnOk result (table.new
        ≡ with_step (step_on_finish config.now call.0 at tokens.old table.old) table.old.opened table.old) }
    ensures emits { IfOk result (λ out. out ≡ (step_on_finish config.now call.0 at tokens.old table.old).output.out) }
    ensures tokens { OnOk result (tokens.new ≡ (step_on_finish config.now call.0 at tokens.old table.old).output.tokens) }
{
    let mut output = StepOutput::new(mem::replace(tokens, Tokens::new(Text::new())));
    let finished = detaching::finish(table, alloc, config, at, call, &mut output);
    mem::swap(tokens, &mut output.tokens);
    match finished {
        Ok(()) => settle(table, alloc, output),
        Err(error) => {
            drop(output);
            Err(error)
        }
    }
}

impl Calls {
    /// No calls yet, for the home domain, the server's address, the bound on the diversions of a call (TS 24.604 §4.5.2.6), the digits of the home country, if configured, and
    /// whether provisional responses are relayed reliably (RFC 3262) and sessions have timers (RFC 4028).
    ///
    /// # Errors
    ///
    /// Out of memory only.
    pub fn new(
        alloc: Global,
        home: Text,
        sip: Addr,
        bound: u16,
        country: Option<Text>,
        reliable: bool,
        timer: bool,
    ) -> Result<Calls, NoMemory>
        requires { bound ≤ 16 }
        ensures { IfOk result (λ calls. calls ≡ record {
          sip = sip;
          home = home;
          bound = bound;
          country = country;
          reliable = reliable;
          timer = timer;
          mwi = false;
          table = no_calls;
          has_failed = false;
        }) }
    {
        Ok(Calls {
            configuration: Configuration {
                sip: OwnAddress::of(sip),
                home,
                bound,
                country,
                reliable,
                timer,
                mwi: false,
            },
            table: CallTable::new(alloc),
            has_failed: false,
        })
    }

    /// The same calls, of a server that notifies subscribers of waiting messages (RFC 3842) or of one that does not, as it is by default: the response to OPTIONS lists SUBSCRIBE
    /// if it does.
    pub fn with_mwi(self, mwi: bool) -> Calls
        ensures { result ≡ record self { mwi = mwi } }
    {
        let mut calls = self;
        calls.configuration.mwi = mwi;
        calls
    }

    /// The calls receive a signal: the call to which it belongs takes its step by the step table of a call, or one is opened (RFC 3261 §12 to §15, TS 24.604 §4.5.2.6).
    ///
    /// # Errors
    ///
    /// `Full` exactly if an INVITE would open a call and 4,096 are live; the signal is handed back, and nothing has changed. `NoMemory` if memory ran out: the calls have failed
    /// then, and each later signal gets it and changes nothing; nothing is claimed of the tokens then.
    pub fn signal(
        &mut self,
        alloc: Global,
        signal: Signal,
        sheets: &SheetView,
        peers: &PeerTable,
        accounts: &Accounts,
        tokens: &mut Tokens,
        now: Moment,
    ) -> Result<Emits, CallFault>
        ensures done { OnOk result ((ops : List TableOp) → Represents peers.now accounts.now self.old ops →
            Represents peers.now accounts.now self.new (Receives
            (record { at = now; view = sheets.now; tokens = tokens.old; signal = signal }) ∷ ops)) }
        ensures emits { IfOk result (λ out. (ops : List TableOp) → Represents peers.now accounts.now self.old ops →
            out ≡ (step_on_receive_after (config_of self.old peers.now accounts.now) ops
            (record { at = now; view = sheets.now; tokens = tokens.old; signal = signal })).output.out) }
        ensures tokens { OnOk result ((ops : List TableOp) → Represents peers.now accounts.now self.old ops →
            tokens.new ≡
            (step_on_receive_after (config_of self.old peers.now accounts.now) ops
            (record { at = now; view = sheets.now; tokens = tokens.old; signal = signal })).output.tokens) }
        ensures config { OnOk result ((peers : Peers) (accounts : List AccountIdentity) →
            config_of self.new peers accounts ≡ config_of self.old peers accounts) }
        ensures full { self.old.has_failed ≡ false → is_full signal self.old.table.entries ≡ true →
            (result ≡ Err (CallFault.Full signal)) × ((self.new ≡ self.old) × (tokens.new ≡ tokens.old)) }
        ensures fails { self.old.has_failed ≡ false → is_full signal self.old.table.entries ≡ false →
            IfErr result (λ e. (e ≡ CallFault.NoMemory) × (self.new.has_failed ≡ true)) }
        ensures stuck { self.old.has_failed ≡ true → (result ≡ Err CallFault.NoMemory) ×
            ((self.new ≡ self.old) × (tokens.new ≡ tokens.old)) }
    {
        if self.has_failed {
            drop(signal);
            return Err(CallFault::NoMemory);
        }
        if is_full(&signal, &self.table) {
            return Err(CallFault::Full(signal));
        }
        let config = config_of(&self.configuration, peers, accounts);
        let step = StepContext {
            alloc,
            config: &config,
            sheets,
            at: now,
        };
        match receive(&mut self.table, &step, signal, tokens) {
            Ok(out) => Ok(out),
            Err(_) => {
                self.has_failed = true;
                Err(CallFault::NoMemory)
            }
        }
    }

    /// How many calls the account has: one for each that it makes, and one for each that is offered to it or that it answered.
    pub fn live(&self, account: Account) -> u32
        ensures { (peers : Peers) (accounts : List AccountIdentity) (ops : List TableOp) →
            Represents peers accounts self.now ops →
            result ≡ live account.0 (table_after (config_of self.now peers accounts) ops).entries }
    {
        self.table.live(account)
    }

    /// Whether as many calls are live as may be, so that an INVITE opens none and is handed back.
    pub fn is_full(&self) -> bool
        ensures { result ≡ nat_le most_calls (count_by is_live self.now.table.entries) }
    {
        self.table.is_full()
    }

    /// The call and the side whose dialog has this Call-ID, this tag of the server and this tag of the other side (RFC 3261 §12.2.2).
    pub fn find(&self, call_id: &[u8], local: &[u8], remote: &[u8]) -> Option<(CallNo, Side)>
        ensures { (peers : Peers) (accounts : List AccountIdentity) (ops : List TableOp) →
            Represents peers accounts self.now ops →
            result ≡ first_side (side_by_dialog call_id.now local.now remote.now)
            (table_after (config_of self.now peers accounts) ops).entries }
    {
        let name = DialogName {
            call_id,
            local,
            remote,
        };
        queries::find(&self.table, name)
    }

    /// The live call and the side whose INVITE opened this server transaction (RFC 3261 §9.2).
    pub fn asked_by(&self, invite: TKey) -> Option<(CallNo, Side)>
        ensures { (peers : Peers) (accounts : List AccountIdentity) (ops : List TableOp) →
            Represents peers accounts self.now ops →
            result ≡ first_side (side_by_invite_key invite) (table_after (config_of self.now peers accounts) ops).entries }
    {
        queries::asked_by(&self.table, invite)
    }

    /// Whether a request of some call to which a response may still be received has this branch, so that the response, or the timeout, belongs to that call (RFC 3261 §17.1.3).
    pub fn has_sent(&self, branch: Option<&[u8]>) -> bool
        ensures { result ≡ is_some (position (has_sent_branch (option_copied branch.entry)) self.now.table.entries) }
    {
        place_by_branch(&self.table, branch).is_some()
    }

    /// Whether an INVITE of some call received its response in this client transaction.
    pub fn has_received(&self, key: TKey) -> bool
        ensures { result ≡ is_some (position (had_answer_by key) self.now.table.entries) }
    {
        place_by_client_key(&self.table, key).is_some()
    }

    /// The peer of a side's leg, and the account that is served there; None exactly if the call is not live or that side has no leg.
    pub fn party(&self, call: CallNo, side: Side) -> Option<(Peer, Option<Account>)>
        ensures { (peers : Peers) (accounts : List AccountIdentity) (ops : List TableOp) →
            Represents peers accounts self.now ops →
            result ≡ party call.0 side (table_after (config_of self.now peers accounts) ops).entries }
    {
        queries::party(&self.table, call, side)
    }

    /// The CDRs of calls that are over that were not handed over, in the order in which they were closed.
    pub fn rows_waiting(&self) -> &[Row]
        ensures rows { (peers : Peers) (accounts : List AccountIdentity) (ops : List TableOp) →
            Represents peers accounts self.now ops →
            result.now ≡ (table_after (config_of self.now peers accounts) ops).rows }
        ensures kept { result.now ≡ self.now.table.rows }
    {
        self.table.rows()
    }

    /// Removes this many of the CDRs that wait: they were handed over.
    pub fn drop_rows(&mut self, count: usize)
        requires { count ≤ length self.old.table.rows }
        ensures done { (peers : Peers) (accounts : List AccountIdentity) (ops : List TableOp) →
            Represents peers accounts self.old ops →
            Represents peers accounts self.new (Drops count ∷ ops) }
        ensures config { (peers : Peers) (accounts : List AccountIdentity) →
            config_of self.new peers accounts ≡ config_of self.old peers accounts }
    {
        self.table.drop_rows(count);
    }

    /// Detaches the confirmed leg of a side from a stable call; its meter stays with the call (RFC 4579 §5.6). It allocates nothing.
    ///
    /// # Errors
    ///
    /// `NotTalking` exactly if the call is not stable, or a leg of it is detached.
    #[tactic(auto, using(crate::proofs::DetachedLegs::without_meter))]
    pub fn release(&mut self, call: CallNo, side: Side) -> Result<Released, NotTalking>
        ensures done { (peers : Peers) (accounts : List AccountIdentity) (ops : List TableOp) →
            Represents peers accounts self.old ops →
            Represents peers accounts self.new (Releases call.0 side ∷ ops) }
        ensures config { (peers : Peers) (accounts : List AccountIdentity) →
            config_of self.new peers accounts ≡ config_of self.old peers accounts }
        ensures leg { MatchResult result (λ leg. released_leg_of call.0 side self.old.table.entries ≡ Some leg)
            (λ refused. released_leg_of call.0 side self.old.table.entries ≡ None) }
        ensures detached { IfOk result (λ leg. has_detached_leg (entry_of call.0 self.new.table.entries) ≡ true) }
        ensures fits { IfOk result (λ leg. can_restore leg (entry_of call.0 self.new.table.entries) ≡ true) }
        ensures meter { IfOk result (λ leg. (released_leg leg).meter ≡ None) }
    {
        detaching::release(&mut self.table, call, side)
    }

    /// Puts back a leg that was detached from this call. It allocates nothing.
    pub fn restore(&mut self, call: CallNo, leg: Released)
        requires fits { can_restore leg (entry_of call.0 self.old.table.entries) ≡ true }
        requires meter { (released_leg leg).meter ≡ None }
        ensures config { (peers : Peers) (accounts : List AccountIdentity) →
            config_of self.new peers accounts ≡ config_of self.old peers accounts }
        ensures done { (peers : Peers) (accounts : List AccountIdentity) (ops : List TableOp) →
            Represents peers accounts self.old ops →
            Represents peers accounts self.new (Restores call.0 leg ∷ ops) }
    {
        detaching::restore(&mut self.table, call, leg);
    }

    /// Ends a call whose leg is detached: BYE to the remaining leg, and its CDRs are closed; the tokens are those after what that drew.
    ///
    /// # Errors
    ///
    /// Out of memory only: the calls have failed then, and each later signal gets it and changes nothing. Nothing is claimed of the tokens then, except that they are unchanged if
    /// the calls had failed before; so the layer above draws no more from them.
    pub fn finish(
        &mut self,
        alloc: Global,
        call: CallNo,
        peers: &PeerTable,
        accounts: &Accounts,
        tokens: &mut Tokens,
        now: Moment,
    ) -> Result<Emits, NoMemory>
        requires { has_detached_leg (entry_of call.0 self.old.table.entries) ≡ true }
        ensures done { OnOk result ((ops : List TableOp) → Represents peers.now accounts.now self.old ops →
            Represents peers.now accounts.now self.new (Finishes call.0 now tokens.old ∷ ops)) }
        ensures emits { IfOk result (λ out. (ops : List TableOp) → Represents peers.now accounts.now self.old ops →
            out ≡ (step_on_finish (config_of self.old peers.now accounts.now) call.0 now tokens.old
            (table_after (config_of self.old peers.now accounts.now) ops)).output.out) }
        ensures tokens { OnOk result ((ops : List TableOp) → Represents peers.now accounts.now self.old ops →
            tokens.new ≡ (step_on_finish (config_of self.old peers.now accounts.now) call.0 now tokens.old
            (table_after (config_of self.old peers.now accounts.now) ops)).output.tokens) }
        ensures config { OnOk result ((peers : Peers) (accounts : List AccountIdentity) →
            config_of self.new peers accounts ≡ config_of self.old peers accounts) }
        ensures fails { IfErr result (λ e. (self.old.has_failed ≡ false → self.new.has_failed ≡ true)) }
        ensures stuck { self.old.has_failed ≡ true → IsErr result ×
            ((self.new ≡ self.old) × (tokens.new ≡ tokens.old)) }
    {
        if self.has_failed {
            return Err(NoMemory);
        }
        let config = config_of(&self.configuration, peers, accounts);
        let finished = finish(&mut self.table, alloc, &config, now, call, tokens);
        if finished.is_err() {
            self.has_failed = true;
        }
        finished
    }

    /// Spends all calls, without CDRs. It allocates nothing.
    pub fn give_up(self) {
        let Calls {
            configuration,
            table,
            has_failed: _,
        } = self;
        drop(configuration);
        table.give_up();
    }
}
