//! A server: its steps over a keeper in memory, and running it over a link in memory, whose calls fail by their numbers.
//!
//! Of the settings of `settings` a script may begin with `=config:`, `=further:`, `=keeps:` and `=record:`, which gives what was loaded. `=peer:` is one more peer of the script,
//! which the server does not know. With `=turns:` the server is driven so many turns each time, over a link of which the calls of `=link:` fail, and how it ended is written, with
//! the number of outputs then; with `=serve:` it serves such a link for so many turns, and how that ended is written and the first line of all outputs of the link: each datagram
//! after the port to which it goes, and then the replies; else it makes a step for each event. Then the listing, how many rows wait, and the records that the keeper holds are
//! written, CR as `^`.

ghost use Rattle.std.specs.Prelude.{◌≡◌, ◌<◌, ◌≤◌, IfSome};

use crate::links::{heard, link_of, write_link};
use crate::pages::Page;
use crate::script_settings::{config, first_setting, named, numbers, setting};
use mmtel_base::{List, Text, plain_number, skip_text};
use mmtel_cli::{
    Directory, DriveFault, Event, Keeper, MemoryKeeper, Offer, Server, drive, listing,
    read_directory,
};
use mmtel_link::MemoryLink;
use mmtel_serve::serve;
use mmtel_timers::Steps;
use mmtel_types::Account;
use std::alloc::Global;
use std::marker::Brand;
use std::sync::ledger::{Blank, Ledger};

fn add_record(page: &mut Page, texts: &mut List<(Account, Text)>, record: &[u8]) {
    let (digits, text) = named(page, record);
    let account = match plain_number(99, digits) {
        Some(number) => number as u32,
        None => 0,
    };
    let record = (Account(account), page.copy(text.bytes()));
    let pushed = texts.push(page.alloc, record);
    page.fail_unless(pushed.is_ok() && !text.has_failed());
    drop(text);
}

/// Adds the records that the settings name.
fn add_records(page: &mut Page, texts: &mut List<(Account, Text)>, script: &[u8]) {
    let mut rest = script;
    for _ in 0..12 {
        match first_setting(rest) {
            None => break,
            Some((line, later)) => {
                if let Some(record) = skip_text(b"record:", line) {
                    add_record(page, texts, record);
                }
                rest = later;
            }
        }
    }
}

/// The records that were loaded.
fn loaded(page: &mut Page, script: &[u8]) -> List<(Account, Text)> {
    let mut texts = List::new();
    add_records(page, &mut texts, script);
    texts
}

fn directory_of(alloc: Global, text: &[u8]) -> Option<Directory>
    ensures { IfSome result (λ directory. directory.bound ≤ 16) }
{
    match read_directory(alloc, text) {
        Ok(directory) => Some(directory),
        Err(_) => None,
    }
}

fn directory(page: &mut Page, script: &[u8]) -> Option<Directory>
    ensures { IfSome result (λ directory. directory.bound ≤ 16) }
{
    let text = config(page, script);
    let read = directory_of(page.alloc, text.bytes());
    drop(text);
    read
}

/// A server with these settings.
pub fn server(page: &mut Page, script: &[u8]) -> Option<Server> {
    let directory = directory(page, script)?;
    let token = page.copy(b"0123456789abcdef");
    let texts = loaded(page, script);
    let server = Server::new(page.alloc, directory, token, texts.items());
    drop(texts);
    server.ok()
}

/// Drives for so many turns, and writes how that ended and the number of outputs then.
fn drive_on<L: Ledger>(
    page: &mut Page,
    server: &mut Server,
    link: &mut MemoryLink,
    keeper: &mut MemoryKeeper,
    turns: u64,
    out: &mut List<Offer>,
    steps: &mut Steps<L>,
) {
    match drive(page.alloc, server, link, keeper, turns, out, steps) {
        Ok(true) => page.add(b"closed "),
        Ok(false) => page.add(b"open "),
        Err(DriveFault::LinkFault) => page.add(b"fault "),
        Err(DriveFault::NoMemory) => page.fail(),
    }
    page.add_number(out.items().len() as u64);
    page.add(b"\n");
}

/// Drives the server each time.
fn drive_all<L: Ledger>(
    page: &mut Page,
    script: &[u8],
    events: &[Event],
    server: &mut Server,
    keeper: &mut MemoryKeeper,
    out: &mut List<Offer>,
    steps: &mut Steps<L>,
) {
    let mut link = link_of(page, script, events);
    let turns = numbers(page, script, b"turns:");
    for turn in turns.items() {
        drive_on(page, server, &mut link, keeper, *turn, out, steps);
    }
    drop(turns);
    drop(link);
}

/// Serves a link for so many turns.
fn serve_on<L: Ledger>(
    page: &mut Page,
    script: &[u8],
    turns: &[u8],
    events: &[Event],
    server: &mut Server,
    keeper: &mut MemoryKeeper,
    steps: &mut Steps<L>,
) {
    let mut link = link_of(page, script, events);
    let turns = plain_number(99, turns).unwrap_or(0);
    match serve(page.alloc, server, &mut link, keeper, turns, steps) {
        Ok(true) => page.add(b"closed\n"),
        Ok(false) => page.add(b"open\n"),
        Err(DriveFault::LinkFault) => page.add(b"fault\n"),
        Err(DriveFault::NoMemory) => page.fail(),
    }
    write_link(page, &link, false);
    drop(link);
}

/// Makes a step for each event.
fn step_all<L: Ledger>(
    page: &mut Page,
    events: &[Event],
    server: &mut Server,
    keeper: &mut MemoryKeeper,
    out: &mut List<Offer>,
    steps: &mut Steps<L>,
) {
    for event in events {
        if server.step(page.alloc, event, keeper, out, steps).is_err() {
            page.fail();
        }
    }
}

/// Adds the listing of these outputs.
pub fn add_listing(page: &mut Page, out: &List<Offer>) {
    match listing(page.alloc, out) {
        Ok(text) => {
            page.add(text.bytes());
            drop(text);
        }
        Err(_) => page.fail(),
    }
}

fn add_texts(page: &mut Page, records: &[(Account, Text)]) {
    for (account, text) in records {
        page.add(b"kept ");
        page.add_number(u64::from(account.0));
        page.add(b"\n");
        page.add_ended(b'\r', text.bytes(), b"^");
    }
}

/// Writes the record that the keeper holds of each account.
fn add_kept(page: &mut Page, keeper: &mut MemoryKeeper) {
    match keeper.load(page.alloc) {
        Ok(records) => {
            add_texts(page, records.items());
            drop(records);
        }
        Err(_) => page.fail(),
    }
}

/// The server receives these events, with the settings; the counter of steps begins here.
fn hear<L: Ledger>(
    page: &mut Page,
    script: &[u8],
    events: &[Event],
    server: &mut Server,
    keeper: &mut MemoryKeeper,
    out: &mut List<Offer>,
    blank: Blank,
)
    requires name { blank.name ≡ L.name }
    requires parts { blank.parts ≡ L.parts }
    requires some { 0 < L.parts }
{
    let mut steps: Steps<L> = Steps::new(blank);
    if setting(script, b"turns:").is_some() {
        drive_all(page, script, events, server, keeper, out, &mut steps);
    } else if let Some(turns) = setting(script, b"serve:") {
        serve_on(page, script, turns, events, server, keeper, &mut steps);
    } else {
        step_all(page, events, server, keeper, out, &mut steps);
    }
}

/// Writes the outputs of a server for these events, and how many rows wait.
fn write_received_list(
    page: &mut Page,
    script: &[u8],
    events: &[Event],
    server: &mut Server,
    keeper: &mut MemoryKeeper,
) {
    let mut out = List::new();
    hear::<Brand>(
        page,
        script,
        events,
        server,
        keeper,
        &mut out,
        Blank::new(1),
    );
    add_listing(page, &out);
    drop(out);
    page.add(b"rows ");
    page.add_number(server.rows_waiting().len() as u64);
    page.add(b"\n");
}

/// Writes the outputs of a server for these events, and what is stored then.
fn write_server(page: &mut Page, script: &[u8], events: &[Event], server: Server) {
    let mut server = server;
    let mut keeper = MemoryKeeper::new(numbers(page, script, b"keeps:"));
    write_received_list(page, script, events, &mut server, &mut keeper);
    server.give_up();
    add_kept(page, &mut keeper);
    drop(keeper);
}

fn write_events(page: &mut Page, script: &[u8], events: &[Event]) {
    match server(page, script) {
        None => page.fail(),
        Some(server) => write_server(page, script, events, server),
    }
}

/// Writes the outputs of a server that receives the events of a script, after the status 0.
pub fn write_served(page: &mut Page, script: &[u8]) {
    page.add(b"0\n");
    if let Some(heard) = heard(page, script) {
        write_events(page, script, heard.events());
        drop(heard);
    }
}
