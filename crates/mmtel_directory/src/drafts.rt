//! A directory while its lines are read.
ghost use Rattle.std.specs.Prelude.{◌≡◌, ◌++◌, Some, is_none, not, true, unwrap_or, IfOk};
ghost use Rattle.mmtel_directory.specs.Directory.{ReadsDirectory, are_new, default_mixer, default_store, default_web, entries_of};
ghost use Rattle.mmtel_directory.specs.Drafts.{Adds, Steps, accepts, directory_of_draft, empty_draft, step, with_line};
ghost use Rattle.mmtel_directory.specs.declared.config_lines.Line.TheVariants as said;

use crate::config_lines::{Extension, Line, read_line};
use crate::directories::{Directory, DirectoryFault, WebDirectory};
use mmtel_base::{List, NoMemory, Text};
use mmtel_lex::Uri;
use mmtel_message::OwnAddress;
use mmtel_sdp::Mixer;
use mmtel_trust::{Accounts, KnownPeer, PeerTable, Route, TableFault};
use mmtel_types::limits::{ACCOUNTS, DIVERSIONS_DEFAULT, ROUTES};
use mmtel_types::{Account, Addr};
use std::alloc::Global;

/// The contents of the lines so far.
#[derive(Drop)]
pub struct Draft {
    sip: Option<Addr>,
    web: Option<Addr>,
    home: Option<Text>,
    peers: PeerTable,
    routes: usize,
    accounts: Accounts,
    account_lines: usize,
    operator: Option<Uri>,
    factory: Option<Uri>,
    bound: Option<u16>,
    country: Option<Text>,
    reliable: bool,
    timer: bool,
    mwi: bool,
    mixer: Option<Mixer>,
    store: Option<Text>,
}

/// Sets the value of the line of this number, where no line set it yet.
fn set_once<T: Drop>(slot: &mut Option<T>, number: u64, value: T) -> Result<(), DirectoryFault>
    ensures { Adds result number (is_none slot.old) (Some value) slot.new }
{
    if slot.is_some() {
        return Err(DirectoryFault::BadLine { line: number });
    }
    *slot = Some(value);
    Ok(())
}

/// Switches an extension on by the line of this number, where no line did so yet.
fn switch_on(switch: &mut bool, number: u64) -> Result<(), DirectoryFault>
    ensures { Adds result number (not switch.old) true switch.new }
{
    if *switch {
        return Err(DirectoryFault::BadLine { line: number });
    }
    *switch = true;
    Ok(())
}

/// Adds the identities that the line of this number lists for an account.
fn add_identities(
    alloc: Global,
    accounts: &mut Accounts,
    number: u64,
    account: Account,
    identities: List<Uri>,
) -> Result<(), DirectoryFault>
    ensures { Adds result number (are_new accounts.old (entries_of account identities)) (accounts.old ++ entries_of account identities) accounts.new }
{
    let mut rest = identities;
    'identities: while let Some(uri) = rest.pop_first() {
        match accounts.add(alloc, account, uri) {
            Ok(()) => {}
            Err(TableFault::NoMemory) => return Err(DirectoryFault::NoMemory),
            Err(TableFault::Taken | TableFault::NoPeer) => {
                return Err(DirectoryFault::BadLine { line: number });
            }
        }
    }
    Ok(())
}

fn web_or_default(web: Option<Addr>) -> Addr
    ensures { result ≡ unwrap_or web default_web }
{
    web.unwrap_or(Addr {
        ip: [127, 0, 0, 1],
        port: 8080,
    })
}

fn mixer_or_default(mixer: Option<Mixer>) -> Mixer
    ensures { result ≡ unwrap_or mixer default_mixer }
{
    mixer.unwrap_or(Mixer {
        ip: [127, 0, 0, 1],
        port: 40000,
    })
}

fn store_or_default(alloc: Global, store: Option<Text>) -> Result<Text, NoMemory>
    ensures { IfOk result (λ name. name ≡ unwrap_or store default_store) }
{
    match store {
        Some(name) => Ok(name),
        None => Text::of(alloc, b":memory:"),
    }
}

impl Draft {
    /// The draft of no lines.
    pub fn new() -> Draft
        ensures { result ≡ empty_draft }
    {
        Draft {
            sip: None,
            web: None,
            home: None,
            peers: PeerTable::new(),
            routes: 0,
            accounts: Accounts::new(),
            account_lines: 0,
            operator: None,
            factory: None,
            bound: None,
            country: None,
            reliable: false,
            timer: false,
            mwi: false,
            mixer: None,
            store: None,
        }
    }

    fn add_peer(
        &mut self,
        alloc: Global,
        number: u64,
        peer: KnownPeer,
    ) -> Result<(), DirectoryFault>
        ensures { Adds result number (accepts self.old (said.Peer peer)) (with_line self.old (said.Peer peer)) self.new }
    {
        match self
            .peers
            .add_peer(alloc, peer.peer, peer.addr, peer.trusted)
        {
            Ok(()) => Ok(()),
            Err(TableFault::NoMemory) => Err(DirectoryFault::NoMemory),
            Err(TableFault::Taken | TableFault::NoPeer) => Err(DirectoryFault::BadLine {
                line: number,
            }),
        }
    }

    fn add_route(&mut self, alloc: Global, number: u64, route: Route) -> Result<(), DirectoryFault>
        ensures { Adds result number (accepts self.old (said.Route route)) (with_line self.old (said.Route route)) self.new }
    {
        if self.routes >= ROUTES {
            return Err(DirectoryFault::BadLine { line: number });
        }
        match self.peers.add_route(alloc, route.name, route.peer) {
            Ok(()) => {
                self.routes += 1;
                Ok(())
            }
            Err(TableFault::NoMemory) => Err(DirectoryFault::NoMemory),
            Err(TableFault::Taken | TableFault::NoPeer) => Err(DirectoryFault::BadLine {
                line: number,
            }),
        }
    }

    fn add_account(
        &mut self,
        alloc: Global,
        number: u64,
        account: Account,
        identities: List<Uri>,
    ) -> Result<(), DirectoryFault>
        ensures { Adds result number (accepts self.old (said.Account account identities)) (with_line self.old (said.Account account identities)) self.new }
    {
        if self.account_lines >= ACCOUNTS || self.accounts.has_account(account) {
            return Err(DirectoryFault::BadLine { line: number });
        }
        add_identities(alloc, &mut self.accounts, number, account, identities)?;
        self.account_lines += 1;
        Ok(())
    }

    fn add(&mut self, alloc: Global, number: u64, line: Line) -> Result<(), DirectoryFault>
        ensures { Adds result number (accepts self.old line) (with_line self.old line) self.new }
    {
        match line {
            Line::Comment => Ok(()),
            Line::Sip(addr) => set_once(&mut self.sip, number, addr),
            Line::Web(addr) => set_once(&mut self.web, number, addr),
            Line::Home(name) => set_once(&mut self.home, number, name),
            Line::Peer(peer) => self.add_peer(alloc, number, peer),
            Line::Route(route) => self.add_route(alloc, number, route),
            Line::Account {
                account,
                identities,
            } => self.add_account(alloc, number, account, identities),
            Line::Operator(uri) => set_once(&mut self.operator, number, uri),
            Line::Factory(uri) => set_once(&mut self.factory, number, uri),
            Line::Bound(bound) => set_once(&mut self.bound, number, bound),
            Line::Country(digits) => set_once(&mut self.country, number, digits),
            Line::Extension(Extension::Reliable) => switch_on(&mut self.reliable, number),
            Line::Extension(Extension::Timer) => switch_on(&mut self.timer, number),
            Line::Extension(Extension::Mwi) => switch_on(&mut self.mwi, number),
            Line::Mixer(mixer) => set_once(&mut self.mixer, number, mixer),
            Line::Store(name) => set_once(&mut self.store, number, name),
        }
    }

    /// Reads the line of this number, and adds its content.
    #[tactic(auto, unfolding(crate::specs::Drafts::step))]
    pub fn read(&mut self, alloc: Global, number: u64, text: &[u8]) -> Result<(), DirectoryFault>
        ensures { Steps result number (step self.old text.now) self.new }
    {
        match read_line(alloc, text)? {
            None => Err(DirectoryFault::BadLine { line: number }),
            Some(line) => self.add(alloc, number, line),
        }
    }

    /// The directory, where `last` is the number after that of the last line.
    pub fn finish(self, alloc: Global, last: u64) -> Result<Directory, DirectoryFault>
        ensures { ReadsDirectory result (directory_of_draft last self) }
    {
        match (self.sip, self.home) {
            (Some(sip), Some(home)) => Ok(Directory {
                sip: OwnAddress::of(sip),
                web: web_or_default(self.web),
                home,
                peers: self.peers,
                names: WebDirectory {
                    accounts: self.accounts,
                    operator: self.operator,
                    mwi: self.mwi,
                },
                factory: self.factory,
                bound: self.bound.unwrap_or(DIVERSIONS_DEFAULT),
                country: self.country,
                reliable: self.reliable,
                timer: self.timer,
                mixer: mixer_or_default(self.mixer),
                store: store_or_default(alloc, self.store)?,
            }),
            _ => Err(DirectoryFault::BadLine { line: last }),
        }
    }
}
