//! The environment of calls and conferences: the peers and accounts, the records in force, how many calls each account has, the bound, and whether provisional responses may be
//! reliable and sessions have timers; and the words of tables.

use mmtel_base::plain_number;
use mmtel_call_parties::Parties;
use mmtel_call_services::BusyCounts;
use mmtel_compose::ReceivedMessage;
use mmtel_lex::{Uri, read_uri};
use mmtel_rules::Identities2;
use mmtel_sheet_values::{Sheet, SheetView};
use mmtel_test_tables::{Transcript, split_or_all};
use mmtel_trust::{Accounts, Identities, PeerTable, asserted};
use mmtel_types::{Account, Addr, Moment, Peer};

/// The server's address.
pub const SIP: Addr = Addr {
    ip: [127, 0, 0, 1],
    port: 5060,
};

/// The environment of a call.
#[derive(Drop)]
pub struct TestEnvironment {
    pub peers: PeerTable,
    pub accounts: Accounts,
    pub sheets: SheetView,
    pub busy: BusyCounts,
    pub bound: u16,
    pub reliable: bool,
    pub timer: bool,
}

/// Whether a word is this one.
pub fn is(word: &[u8], this: &[u8]) -> bool {
    word == this
}

/// The first word, and what follows it.
pub fn word(words: &[u8]) -> (&[u8], &[u8]) {
    split_or_all(b' ', words)
}

/// The number of these digits.
pub fn number(transcript: &mut Transcript, digits: &[u8]) -> u64 {
    match plain_number(250_000_000_000_000, digits) {
        Some(number) => number,
        None => {
            transcript.fail();
            0
        }
    }
}

/// The number of these digits, at most 999.
pub fn small(transcript: &mut Transcript, digits: &[u8]) -> u16 {
    match plain_number(999, digits) {
        Some(number) => number as u16,
        None => {
            transcript.fail();
            0
        }
    }
}

pub fn first_moment() -> Moment {
    match Moment::new(0) {
        Some(moment) => moment,
        None => unreachable!(),
    }
}

/// The moment of so many milliseconds.
pub fn moment(transcript: &mut Transcript, digits: &[u8]) -> Moment {
    match Moment::new(number(transcript, digits)) {
        Some(moment) => moment,
        None => {
            transcript.fail();
            first_moment()
        }
    }
}

/// The peer of this word.
pub fn peer_of(word: &[u8]) -> u16 {
    if is(word, b"1") { 1 } else { 2 }
}

/// The address of a peer: 5071 is that of the first.
pub fn source(peer: u16) -> Addr {
    let port = if peer == 1 { 5071 } else { 5072 };
    Addr {
        ip: [127, 0, 0, 1],
        port,
    }
}

fn add_peer(
    transcript: &mut Transcript,
    peers: &mut PeerTable,
    peer: u16,
    trusted: bool,
    host: &[u8],
) {
    let added = peers.add_peer(transcript.alloc, Peer(peer), source(peer), trusted);
    transcript.value_or_fail(added);
    let name = transcript.copy(host);
    let added = peers.add_route(transcript.alloc, name, Peer(peer));
    transcript.value_or_fail(added);
}

/// The first peer is trusted and is the route to the home domain, the second is not and is the route to far.example.
fn peers(transcript: &mut Transcript) -> PeerTable {
    let mut peers = PeerTable::new();
    add_peer(transcript, &mut peers, 1, true, b"home.example");
    add_peer(transcript, &mut peers, 2, false, b"far.example");
    peers
}

/// The URI of these bytes, where it is one.
pub fn uri(transcript: &mut Transcript, bytes: &[u8]) -> Option<Uri> {
    let uri = read_uri(transcript.alloc, bytes);
    transcript.value_or_fail(uri)
}

fn add_account(transcript: &mut Transcript, accounts: &mut Accounts, number: u32, identity: &[u8]) {
    if let Some(uri) = uri(transcript, identity) {
        let added = accounts.add(transcript.alloc, Account(number), uri);
        transcript.value_or_fail(added);
    }
}

/// Alice, Bob, Carol and Erin.
fn accounts(transcript: &mut Transcript) -> Accounts {
    let mut accounts = Accounts::new();
    add_account(transcript, &mut accounts, 1, b"sip:alice@home.example");
    add_account(transcript, &mut accounts, 1, b"tel:+4930111");
    add_account(transcript, &mut accounts, 2, b"sip:bob@home.example");
    add_account(transcript, &mut accounts, 3, b"sip:carol@home.example");
    add_account(transcript, &mut accounts, 4, b"sip:erin@home.example");
    accounts
}

/// The environment in which no account has a record and none is in a call.
pub fn idle_environment(transcript: &mut Transcript) -> TestEnvironment {
    TestEnvironment {
        peers: peers(transcript),
        accounts: accounts(transcript),
        sheets: SheetView::new(transcript.alloc),
        busy: BusyCounts::new(transcript.alloc),
        bound: 5,
        reliable: false,
        timer: false,
    }
}

/// The parsed values of an INVITE: its parties, and the asserted identities.
pub fn readings(
    transcript: &mut Transcript,
    world: &TestEnvironment,
    invite: &ReceivedMessage,
) -> Option<(Parties, Identities2)> {
    let message = &invite.message;
    let parties = Parties::of(transcript.alloc, &world.accounts, message, invite.trusted);
    let parties = transcript.value_or_fail(parties)?;
    let identities = asserted(transcript.alloc, message, invite.trusted);
    let Identities { sip, tel } = transcript.value_or_fail(identities)?;
    Some((parties, Identities2 { sip, tel }))
}

/// The account has this record.
pub fn put(transcript: &mut Transcript, world: &mut TestEnvironment, account: u32, sheet: Sheet) {
    let put = world.sheets.put(Account(account), sheet);
    transcript.value_or_fail(put);
}

/// The account is in one more call.
pub fn set_busy(transcript: &mut Transcript, world: &mut TestEnvironment, account: u32) {
    let added = world.busy.add_call(Account(account));
    transcript.value_or_fail(added);
}

/// The registration of the account has ended.
pub fn end_registration(transcript: &mut Transcript, world: &mut TestEnvironment, account: u32) {
    let ended = world
        .sheets
        .set_registered(Account(account), Some(first_moment()));
    transcript.value_or_fail(ended);
}
