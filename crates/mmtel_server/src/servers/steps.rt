//! The steps of a run: the timers that are due by an event fire, and then the event is processed.
ghost use Rattle.std.specs.Prelude.{◌≡◌, ◌≤◌, ℕ, Bool, List, IfOk, IsErr, OnErr, OnOk, [], false, max, true};
ghost use Rattle.mmtel_charging.specs.declared.rows.Row.{Row};
ghost use Rattle.mmtel_b2bua.specs.Tables.{no_calls};
ghost use Rattle.mmtel_directory.specs.declared.directories.Directory.{Directory};
ghost use Rattle.mmtel_focus.specs.Table.{empty_table};
ghost use Rattle.mmtel_records_in_force.specs.Texts.{Texts};
ghost use Rattle.mmtel_environment.specs.declared.events.Offer.{Offer};
ghost use Rattle.mmtel_run_definitions.specs.OwnResponses.{further_methods};
ghost use Rattle.mmtel_run_definitions.specs.Events.{EventRecord, parsed_datagram, parsed_event};
ghost use Rattle.mmtel_run_definitions.specs.Run.{state_after};
ghost use Rattle.mmtel_run_definitions.specs.Transitions.{after_event, after_event_end, after_parsed_event};
ghost use Rattle.mmtel_server.specs.Follows.{AddsOfferPrefix, AddsOfferPrefixWhere, Follows, FollowsWhere, IsSettledBefore, state_after_event};
ghost use Rattle.mmtel_server_timers.specs.Handover.{HandoverAborted, HandoverFaults, HandsOver};
ghost use Rattle.mmtel_server.specs.States.{keeper_state, step_state};
ghost use Rattle.mmtel_server.specs.Representation.{RanFromStart, RepresentsRun};
ghost use Rattle.mmtel_server.specs.StepEffects.{AbortedKeeperCalls, ArrivalEffect, AsksKeeperAfter, KeeperEffect, StepAborted, StepEffect, call_of, event_record};
ghost use Rattle.mmtel_web_service.specs.KeeperCalls.{CountsFaults, IsKeeperResult};
ghost use Rattle.mmtel_web_service.specs.KeeperOutcomes.{keeper_outcome_view};

use super::Server;
use super::web_requests::{KeeperResult, no_keeper_call};
use crate::theorems::numbers_never_fall;
use mmtel_admission::{further_methods, moment, parse_datagram};
use mmtel_b2bua::Calls;
use mmtel_base::{List, NoMemory, Text};
use mmtel_charging::Row;
use mmtel_directory::Directory;
use mmtel_environment::{Event, Offer};
use mmtel_focus::Rooms;
use mmtel_keeper::Keeper;
use mmtel_mwi::Boxes;
use mmtel_records_in_force::Records;
use mmtel_run_definitions::{enough_firings_exist, rows_are_filed};
use mmtel_run_theorems::offers_are_added;
use mmtel_server_timers::{Timers, hand_rows};
use mmtel_timers::Steps;
use mmtel_transaction::{Tokens, Transactions};
use mmtel_trust::PeerTable;
use mmtel_types::{Account, Addr, Moment};
use std::alloc::Global;
use std::sync::ledger::Ledger;

/// The moment at which the clock starts.
fn first_moment() -> Moment
    ensures { result ≡ 0 }
{
    match Moment::new(0) {
        Some(moment) => moment,
        None => unreachable!(),
    }
}

/// The later of two moments.
fn later_moment(clock: Moment, moment: Moment) -> Moment
    ensures { result ≡ max clock moment }
{
    if clock.ms() < moment.ms() {
        moment
    } else {
        clock
    }
}

/// A copy of the digits of the home country.
fn copy_country(alloc: Global, country: &Option<Text>) -> Result<Option<Text>, NoMemory>
    ensures { IfOk result (λ digits. digits ≡ country.now) }
{
    match country {
        None => Ok(None),
        Some(digits) => Ok(Some(digits.copied(alloc)?)),
    }
}

/// Empty tables of calls and conferences, of a server of this configuration.
fn empty_tables(alloc: Global, directory: &Directory) -> Result<(Calls, Rooms), NoMemory>
    requires { directory.now.bound ≤ 16 }
    ensures calls { IfOk result (λ made. made.0
        ≡ record {
          sip = directory.now.sip;
          home = directory.now.home;
          bound = directory.now.bound;
          country = directory.now.country;
          reliable = directory.now.reliable;
          timer = directory.now.timer;
          mwi = directory.now.names.mwi;
          table = no_calls;
          has_failed = false;
        }) }
    ensures conferences { IfOk result (λ made. made.1
        ≡ record {
          sip = directory.now.sip;
          mixer = directory.now.mixer;
          methods = further_methods directory.now;
          table = empty_table;
          has_failed = false;
        }) }
{
    let home = directory.home.copied(alloc)?;
    let country = copy_country(alloc, &directory.country)?;
    let calls = Calls::new(
        alloc,
        home,
        directory.sip.addr(),
        directory.bound,
        country,
        directory.reliable,
        directory.timer,
    )?;
    let calls = calls.with_mwi(directory.names.mwi);
    match Rooms::new(alloc, directory.mixer, directory.sip.addr()) {
        Ok(rooms) => Ok((calls, rooms.with_methods(further_methods(directory)))),
        Err(error) => {
            calls.give_up();
            Err(error)
        }
    }
}

impl Server {
    /// A server of this configuration over these loaded texts of records, which draws identifiers that begin with the token. Of several texts of an account the last one counts;
    /// a text that is no record is kept unchanged and counts as the empty record.
    ///
    /// # Errors
    ///
    /// Out of memory only.
    pub fn new(
        alloc: Global,
        directory: Directory,
        token: Text,
        loaded: &[(Account, Text)],
    ) -> Result<Server, NoMemory>
        requires { directory.bound ≤ 16 }
        ensures begins { IfOk result (λ server. (before : List Offer) →
            RanFromStart directory token loaded.now [] before server before) }
        ensures whole { IfOk result (λ server. server.failed ≡ false) }
    {
        let records = match Records::load(alloc, loaded) {
            Ok(records) => records,
            Err(error) => {
                drop(token);
                drop(directory);
                return Err(error);
            }
        };
        let (calls, rooms) = match empty_tables(alloc, &directory) {
            Ok(made) => made,
            Err(error) => {
                drop(records);
                drop(token);
                drop(directory);
                return Err(error);
            }
        };
        let boxes = Boxes::new(alloc, directory.sip.addr());
        Ok(Server {
            directory,
            tokens: Tokens::new(token),
            transactions: Transactions::new(),
            calls,
            rooms,
            boxes,
            pending_timers: Timers::new(alloc),
            waiting: List::new(),
            records,
            clock: first_moment(),
            steps: 0,
            failed: false,
        })
    }

    /// One event: the timers that are due by then fire, each at its own moment; then the event is processed at the moment of the clock, which is the greatest so far (RFC 3261
    /// §17). An upload is stored by the keeper, and in force from then on exactly where it was stored (3GPP TS 24.623 §5). The search steps in the transactions are counted.
    ///
    /// # Errors
    ///
    /// Out of memory only, but for what a 507 answers. A prefix of the outputs for the event may then have been added, a record may have been stored, its reply output, and
    /// from then on nothing is done.
    pub fn step<K: Keeper, L: Ledger>(
        &mut self,
        alloc: Global,
        event: &Event,
        keeper: &mut K,
        out: &mut List<Offer>,
        steps: &mut Steps<L>,
    ) -> Result<(), NoMemory>
        ensures done { OnOk result (StepEffect event.now (step_state self.old out.old K.Keeper keeper.old)
            (step_state self.new out.new K.Keeper keeper.new)) }
        ensures aborted { OnErr result (StepAborted event.now (step_state self.old out.old K.Keeper keeper.old)
            out.new (keeper_state K.Keeper keeper.new)) }
        ensures fails { OnErr result (self.new.failed ≡ true) }
        ensures keeps { OnOk result (self.new.failed ≡ false) }
        ensures over { self.old.failed ≡ true →
            IsErr result × (self.new ≡ self.old) × (out.new ≡ out.old) × (keeper.new ≡ keeper.old) }
    {
        if self.failed {
            return Err(NoMemory);
        }
        enough_firings_exist();
        rows_are_filed();
        offers_are_added();
        let done = self.step_unfailed(alloc, event, keeper, out, steps);
        self.failed = done.is_err();
        match done {
            Ok(_) => Ok(()),
            Err(NoMemory) => Err(NoMemory),
        }
    }

    /// The peers of its configuration, and the routes to them.
    pub fn peers(&self) -> &PeerTable
        ensures peers { (directory : Directory) (token : List ℕ) (loaded : Texts) (recorded : List EventRecord) →
            RepresentsRun directory token loaded recorded self.now → result.now ≡ directory.peers }
    {
        &self.directory.peers
    }

    /// The CDRs of calls that ended and of participants that left which the keeper has not accepted, in the order in which they were closed.
    pub fn rows_waiting(&self) -> &[Row]
        ensures waiting { (directory : Directory) (token : List ℕ) (loaded : Texts) (recorded : List EventRecord)
            (serves : RepresentsRun directory token loaded recorded self.now) →
            result.now ≡ (state_after directory token loaded serves.fuel recorded).waiting }
    {
        self.waiting.items()
    }

    /// Releases what is still live, without CDRs. It allocates nothing.
    pub fn give_up(self) {
        let Server {
            directory,
            tokens,
            transactions,
            calls,
            rooms,
            boxes,
            pending_timers: armed,
            waiting,
            records,
            clock: _,
            steps: _,
            failed: _,
        } = self;
        drop(directory);
        drop(tokens);
        drop(transactions);
        drop(armed);
        drop(waiting);
        drop(records);
        calls.give_up();
        rooms.give_up();
        boxes.give_up();
    }

    /// Processes a datagram.
    fn receive_datagram<L: Ledger>(
        &mut self,
        alloc: Global,
        at: Moment,
        from: Addr,
        bytes: &[u8],
        out: &mut List<Offer>,
        steps: &mut Steps<L>,
    ) -> Result<(), NoMemory>
        ensures done { OnOk result (Follows self.old out.old self.new out.new
            (λ d token. after_parsed_event d token at (parsed_datagram d from bytes.now))) }
        ensures err { OnErr result (AddsOfferPrefix self.old out.old out.new
            (λ d token. after_parsed_event d token at (parsed_datagram d from bytes.now))) }
    {
        numbers_never_fall();
        let parsed = parse_datagram(alloc, &self.directory, from, bytes)?;
        self.receive_parsed(alloc, parsed, at, out, steps)
    }

    /// Processes an event at a moment of the clock: its outputs are added, and the keeper's results are returned.
    fn perform_event<K: Keeper, L: Ledger>(
        &mut self,
        alloc: Global,
        at: Moment,
        event: &Event,
        keeper: &mut K,
        out: &mut List<Offer>,
        steps: &mut Steps<L>,
    ) -> Result<KeeperResult, NoMemory>
        ensures done { IfOk result (λ a. Follows self.old out.old self.new out.new
            (λ d token. after_parsed_event d token at (parsed_event d event.now (keeper_outcome_view a.outcome) a.rows))) }
        ensures keeper_result { IfOk result (λ a. IsKeeperResult (call_of self.old.directory.names event.now) (keeper_outcome_view a.outcome) a.rows
            (K.contents keeper.old) (K.contents keeper.new) (K.calls keeper.old) (K.calls keeper.new)) }
        ensures counted { IfOk result (λ a. CountsFaults (keeper_outcome_view a.outcome) (K.faults keeper.old) (K.faults keeper.new)) }
        ensures aborted { OnErr result (AbortedKeeperCalls
            (λ kept rows. AddsOfferPrefix self.old out.old out.new (λ d token. after_parsed_event d token at (parsed_event d event.now kept rows)))
            (λ kept rows between. IsKeeperResult (call_of self.old.directory.names event.now) kept rows
            (K.contents keeper.old) between.contents (K.calls keeper.old) between.calls)
            (keeper_state K.Keeper keeper.old) (keeper_state K.Keeper keeper.new)) }
    {
        numbers_never_fall();
        match event {
            Event::Datagram { from, bytes, .. } => {
                self.receive_datagram(alloc, at, *from, bytes.bytes(), out, steps)?;
                Ok(no_keeper_call())
            }
            Event::Web { bytes, .. } => self.serve_web(
                alloc,
                bytes.bytes(),
                at,
                keeper,
                out,
                steps,
            ),
            Event::Quiet { .. } => Ok(no_keeper_call()),
        }
    }

    /// Hands the CDRs that wait to the keeper, which accepts all of them or none. True where none waits from then on.
    ///
    /// # Errors
    ///
    /// Out of memory only; all of them still wait then.
    fn hand_rows<K: Keeper>(&mut self, alloc: Global, keeper: &mut K) -> Result<bool, NoMemory>
        ensures done { IfOk result (λ took. (out : List Offer) → Follows self.old out self.new out (λ d token. after_event_end took)) }
        ensures handed { IfOk result (λ took. HandsOver took self.old.waiting (K.contents keeper.old) (K.contents keeper.new)
            (K.calls keeper.old) (K.calls keeper.new)) }
        ensures counted { IfOk result (λ took. HandoverFaults took (K.faults keeper.old) (K.faults keeper.new)) }
        ensures aborted { OnErr result (HandoverAborted (K.contents keeper.old) (K.contents keeper.new)
            (K.calls keeper.old) (K.calls keeper.new) (K.faults keeper.old) (K.faults keeper.new)) }
    {
        hand_rows(alloc, &mut self.waiting, keeper)
    }

    /// Processes an event at this moment of the clock: its outputs are added, and the keeper's results in it are returned.
    fn step_at<K: Keeper, L: Ledger>(
        &mut self,
        alloc: Global,
        at: Moment,
        event: &Event,
        keeper: &mut K,
        out: &mut List<Offer>,
        steps: &mut Steps<L>,
    ) -> Result<(KeeperResult, bool), NoMemory>
        ensures done { IfOk result (λ a. ArrivalEffect at (event_record event.now (keeper_outcome_view a.0.outcome) a.0.rows a.1)
            (step_state self.old out.old K.Keeper keeper.old) (step_state self.new out.new K.Keeper keeper.new)) }
        ensures aborted { OnErr result (AbortedKeeperCalls
            (λ kept rows. (took : Bool) → AddsOfferPrefix self.old out.old out.new (λ d token. after_event d token at (parsed_event d event.now kept rows) took))
            (λ kept rows between. IsKeeperResult (call_of self.old.directory.names event.now) kept rows
            (K.contents keeper.old) between.contents (K.calls keeper.old) between.calls)
            (keeper_state K.Keeper keeper.old) (keeper_state K.Keeper keeper.new)) }
    {
        numbers_never_fall();
        self.begin_step();
        self.clock = at;
        let answered = self.perform_event(alloc, at, event, keeper, out, steps)?;
        let took = self.hand_rows(alloc, keeper)?;
        Ok((answered, took))
    }

    /// One event, where no step has failed.
    fn step_unfailed<K: Keeper, L: Ledger>(
        &mut self,
        alloc: Global,
        event: &Event,
        keeper: &mut K,
        out: &mut List<Offer>,
        steps: &mut Steps<L>,
    ) -> Result<(KeeperResult, bool), NoMemory>
        ensures done { IfOk result (λ a. (fuel : ℕ) →
            FollowsWhere self.old out.old self.new out.new (IsSettledBefore fuel (event_record event.now (keeper_outcome_view a.0.outcome) a.0.rows a.1))
            (state_after_event fuel (event_record event.now (keeper_outcome_view a.0.outcome) a.0.rows a.1))) }
        ensures keeper { IfOk result (λ a. KeeperEffect (event_record event.now (keeper_outcome_view a.0.outcome) a.0.rows a.1)
            (step_state self.old out.old K.Keeper keeper.old) (keeper_state K.Keeper keeper.new)) }
        ensures aborted { OnErr result (AbortedKeeperCalls
            (λ kept rows. (took : Bool) (fuel : ℕ) → AddsOfferPrefixWhere self.old out.old out.new
            (IsSettledBefore fuel (event_record event.now kept rows took)) (state_after_event fuel (event_record event.now kept rows took)))
            (λ kept rows between. (took : Bool) →
            AsksKeeperAfter (step_state self.old out.old K.Keeper keeper.old) (event_record event.now kept rows took) between)
            (keeper_state K.Keeper keeper.old) (keeper_state K.Keeper keeper.new)) }
    {
        numbers_never_fall();
        let clock = later_moment(self.clock, moment(event));
        self.fire_all_due(alloc, clock, out, steps)?;
        self.step_at(alloc, clock, event, keeper, out, steps)
    }
}
