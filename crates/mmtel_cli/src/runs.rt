//! A run over a keeper and the events of a link, or of a script, to its end.
ghost use Rattle.std.specs.Prelude.{◌≡◌, ◌≤◌, ◌⊎◌, ℕ, List, [], IfOk, IsErrOf, OnErr, OnOk};
ghost use Rattle.mmtel_cli.specs.KeeperUse.{IsLoaded, IsNotLoaded, OnlyOpened};
ghost use Rattle.mmtel_cli.specs.KnownEvents.{AbortsAllOf, HasNoArrivals, NeverFails, OffersOfAllEvents};
ghost use Rattle.mmtel_cli.specs.Listings.{Lists, ListsOver};
ghost use Rattle.mmtel_cli.specs.OutOfMemory.{AbortedListing, AbortedReplay};
ghost use Rattle.mmtel_directory.specs.declared.directories.Directory.{Directory};
ghost use Rattle.mmtel_records_in_force.specs.Texts.{Texts};
ghost use Rattle.mmtel_keeper.specs.declared.keepers.KeepFault.TheVariants as fault;
ghost use Rattle.mmtel_script.specs.Script.{initial_input};
ghost use Rattle.mmtel_server.specs.States.{keeper_state};
ghost use Rattle.mmtel_server.specs.Representation.{RanFromStart};

use mmtel_base::{List, NoMemory, Text};
use mmtel_directory::Directory;
use mmtel_environment::Offer;
use mmtel_keeper::{KeepFault, Keeper};
use mmtel_link::Link;
use mmtel_run_theorems::runs_keep_noninterference;
use mmtel_script::{ScriptLink, listing};
use mmtel_server::{DriveFault, Server, connections_are_read_out, drive};
use mmtel_timers::Steps;
use mmtel_types::Account;
use std::alloc::Global;
use std::sync::ledger::Ledger;

/// Binds a keeper to the store of that name, has its records of the first version replaced by new ones, and loads what it holds there.
pub fn open_keeper<K: Keeper>(
    alloc: Global,
    keeper: &mut K,
    store: &[u8],
) -> Result<List<(Account, Text)>, KeepFault>
    ensures loaded { IfOk result (λ loaded.
        IsLoaded store.now loaded (keeper_state K.Keeper keeper.old) (keeper_state K.Keeper keeper.new)) }
    ensures failed { IsErrOf result fault.Failed →
        IsNotLoaded store.now (keeper_state K.Keeper keeper.old) (keeper_state K.Keeper keeper.new) }
    ensures stopped { IsErrOf result fault.NoMemory →
        OnlyOpened store.now (keeper_state K.Keeper keeper.old) (keeper_state K.Keeper keeper.new) }
{
    keeper.bind(alloc, store)?;
    keeper.migrate(alloc)?;
    keeper.load(alloc)
}

/// Drives the server over a link with so many events, none of whose calls fails, with a turn for each of them and one for the end.
fn drive_over<L: Link, K: Keeper, C: Ledger>(
    alloc: Global,
    server: &mut Server,
    link: &mut L,
    events: u64,
    keeper: &mut K,
    out: &mut List<Offer>,
    steps: &mut Steps<C>,
) -> Result<(), NoMemory>
    requires unfailing { NeverFails L.arrival_faults L.delivery_faults }
    requires no_arrivals { HasNoArrivals events (L.input link.old) }
    ensures run { OnOk result ((directory : Directory) (token : List ℕ) (loaded : Texts) →
        RanFromStart directory token loaded [] [] server.old out.old →
        OffersOfAllEvents (L.input link.old) directory token loaded
        (keeper_state K.Keeper keeper.old) (keeper_state K.Keeper keeper.new) out.new) }
    ensures stopped { OnErr result ((directory : Directory) (token : List ℕ) (loaded : Texts) →
        RanFromStart directory token loaded [] [] server.old out.old →
        AbortsAllOf (L.input link.old) directory token loaded
        (keeper_state K.Keeper keeper.old) (keeper_state K.Keeper keeper.new)) }
{
    connections_are_read_out();
    runs_keep_noninterference();
    let turns = events.saturating_add(1);
    match drive(alloc, server, link, keeper, turns, out, steps) {
        Ok(_) => Ok(()),
        Err(DriveFault::NoMemory) => Err(NoMemory),
        Err(DriveFault::LinkFault) => unreachable!(),
    }
}

/// The outputs of a server of this configuration over these texts in the run of the events of a link, of which there are so many. No call of the link fails.
pub fn run_offers<L: Link, K: Keeper, C: Ledger>(
    alloc: Global,
    directory: Directory,
    token: &[u8],
    loaded: &[(Account, Text)],
    link: &mut L,
    events: u64,
    keeper: &mut K,
    steps: &mut Steps<C>,
) -> Result<List<Offer>, NoMemory>
    requires bounded { directory.bound ≤ 16 }
    requires unfailing { NeverFails L.arrival_faults L.delivery_faults }
    requires no_arrivals { HasNoArrivals events (L.input link.old) }
    ensures run { IfOk result (OffersOfAllEvents (L.input link.old) directory token.now loaded.now
        (keeper_state K.Keeper keeper.old) (keeper_state K.Keeper keeper.new)) }
    ensures stopped { OnErr result ((keeper_state K.Keeper keeper.new ≡ keeper_state K.Keeper keeper.old)
        ⊎ AbortsAllOf (L.input link.old) directory token.now loaded.now
        (keeper_state K.Keeper keeper.old) (keeper_state K.Keeper keeper.new)) }
{
    let token = match Text::of(alloc, token) {
        Ok(token) => token,
        Err(error) => {
            drop(directory);
            return Err(error);
        }
    };
    let mut server = Server::new(alloc, directory, token, loaded)?;
    let mut out = List::new();
    let driven = drive_over(alloc, &mut server, link, events, keeper, &mut out, steps);
    server.give_up();
    driven?;
    Ok(out)
}

/// The listing of those outputs.
fn list_loaded_run<K: Keeper, C: Ledger>(
    alloc: Global,
    directory: Directory,
    token: &[u8],
    loaded: &[(Account, Text)],
    script: &mut ScriptLink,
    keeper: &mut K,
    steps: &mut Steps<C>,
) -> Result<Text, NoMemory>
    requires bounded { directory.bound ≤ 16 }
    requires no_arrivals { script.old ≡ initial_input script.old.events }
    ensures lists { IfOk result (ListsOver directory token.now loaded.now script.old.events
        (keeper_state K.Keeper keeper.old) (keeper_state K.Keeper keeper.new)) }
    ensures stopped { OnErr result (AbortedListing directory token.now loaded.now script.old.events
        (keeper_state K.Keeper keeper.old) (keeper_state K.Keeper keeper.new)) }
{
    let events = script.len();
    let offers = run_offers(
        alloc, directory, token, loaded, script, events, keeper, steps,
    )?;
    listing(alloc, &offers)
}

/// The listing of the outputs of a server of this configuration in the run of a script's events over a keeper, which is bound to the store of the configuration, migrated
/// and loaded first. `token` begins the identifiers that the server draws.
///
/// # Errors
///
/// `Failed` where the keeper could not be bound, migrated or loaded, and else out of memory alone.
pub fn list_run<K: Keeper, C: Ledger>(
    alloc: Global,
    directory: Directory,
    token: &[u8],
    script: &mut ScriptLink,
    keeper: &mut K,
    steps: &mut Steps<C>,
) -> Result<Text, KeepFault>
    requires bounded { directory.bound ≤ 16 }
    requires no_arrivals { script.old ≡ initial_input script.old.events }
    ensures lists { IfOk result (Lists directory token.now script.old.events
        (keeper_state K.Keeper keeper.old) (keeper_state K.Keeper keeper.new)) }
    ensures failed { IsErrOf result fault.Failed →
        IsNotLoaded directory.store (keeper_state K.Keeper keeper.old) (keeper_state K.Keeper keeper.new) }
    ensures stopped { IsErrOf result fault.NoMemory → AbortedReplay directory token.now script.old.events
        (keeper_state K.Keeper keeper.old) (keeper_state K.Keeper keeper.new) }
{
    match open_keeper(alloc, keeper, directory.store.bytes()) {
        Ok(loaded) => {
            let listed = list_loaded_run(
                alloc,
                directory,
                token,
                loaded.items(),
                script,
                keeper,
                steps,
            );
            drop(loaded);
            let text = listed?;
            Ok(text)
        }
        Err(fault) => {
            drop(directory);
            Err(fault)
        }
    }
}
