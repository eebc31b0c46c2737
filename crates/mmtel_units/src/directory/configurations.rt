//! Configurations.

use crate::asserting::assert_right;
use crate::directory::tables::{Grammar, wrong_row};
use mmtel_base::{Text, number_up_to};
use mmtel_directory::{Directory, DirectoryFault, read_directory};
use mmtel_lex::{Uri, print_uri, read_uri};
use mmtel_test_tables::{RowRunner, Transcript, split_or_all, wrong_line};
use mmtel_types::{Account, Addr, Peer};
use std::alloc::Global;

/// A server of two peers, with lines of each kind.
const HOME: &[u8] = b"# Two peers.

sip 127.0.0.1:5060
web 10.0.0.1:80
home home.example
peer 1 127.0.0.1:5071 trusted
peer 2 127.0.0.1:5072 untrusted
route home.example 1
route far.example 2
route +4930 1
route * 2
account 1 sip:alice@home.example tel:+4930111
account 4294967295 sip:bob@home.example
operator sip:op@home.example
mixer 10.0.0.2 41000
factory sip:conf@home.example
bound 0
country 049
extension timer
store calls.db
";

/// An address of the host itself.
pub fn peer_addr(port: u16) -> Addr {
    Addr {
        ip: [127, 0, 0, 1],
        port,
    }
}

/// The server of two peers.
pub fn home(transcript: &mut Transcript) -> Option<Directory> {
    let directory = read_directory(transcript.alloc, HOME);
    transcript.value_or_fail(directory)
}

/// Writes an address.
fn write_addr(transcript: &mut Transcript, word: &[u8], ip: [u8; 4], port: u16) {
    transcript.add(word);
    for number in ip {
        transcript.add_spaced_number(u64::from(number));
    }
    transcript.add_spaced_number(u64::from(port));
    transcript.add(b"\n");
}

/// Writes a URI, or `none`.
fn write_uri(transcript: &mut Transcript, word: &[u8], uri: &Option<Uri>) {
    transcript.add(word);
    match uri {
        None => transcript.add(b"none\n"),
        Some(uri) => {
            let text = print_uri(transcript.alloc, uri);
            transcript.add_text_or_fail(text);
        }
    }
}

/// Writes a text.
fn write_text(transcript: &mut Transcript, word: &[u8], text: &[u8]) {
    transcript.add(word);
    transcript.add_line(text);
}

/// Writes a number.
fn write_number(transcript: &mut Transcript, word: &[u8], number: u64) {
    transcript.add(word);
    transcript.add_number(number);
    transcript.add(b"\n");
}

/// Writes the digits of the home country, where they are known.
fn write_digits(transcript: &mut Transcript, country: &Option<Text>) {
    match country {
        None => write_text(transcript, b"country ", b"none"),
        Some(digits) => write_text(transcript, b"country ", digits.bytes()),
    }
}

/// Writes what a configuration sets except peers, routes and identities.
fn write_settings(transcript: &mut Transcript, directory: &Directory) {
    let sip = directory.sip.addr();
    write_addr(transcript, b"sip", sip.ip, sip.port);
    write_addr(transcript, b"web", directory.web.ip, directory.web.port);
    write_addr(
        transcript,
        b"mixer",
        directory.mixer.ip,
        directory.mixer.port,
    );
    write_text(transcript, b"home ", directory.home.bytes());
    write_number(transcript, b"bound ", u64::from(directory.bound));
    write_digits(transcript, &directory.country);
    transcript.add_if(directory.timer, b"timer on\n", b"timer off\n");
    write_text(transcript, b"store ", directory.store.bytes());
    write_uri(transcript, b"operator ", &directory.names.operator);
    write_uri(transcript, b"factory ", &directory.factory);
    let identities = directory.names.accounts.identities().len();
    write_number(transcript, b"identities ", identities as u64);
}

/// Writes the number of the peer that is the route to a URI, 0 for none.
fn write_route(transcript: &mut Transcript, directory: &Directory, uri: &[u8]) {
    match read_uri(transcript.alloc, uri) {
        Err(_) => transcript.fail(),
        Ok(uri) => {
            let peer = directory.peers.route(&uri).unwrap_or(Peer(0));
            drop(uri);
            write_number(transcript, b"", u64::from(peer.0));
        }
    }
}

/// Writes the number of the account of a URI, 0 for none.
fn write_name(transcript: &mut Transcript, directory: &Directory, uri: &[u8]) {
    match read_uri(transcript.alloc, uri) {
        Err(_) => transcript.fail(),
        Ok(uri) => {
            let account = directory.names.accounts.find(&uri).unwrap_or(Account(0));
            drop(uri);
            write_number(transcript, b"", u64::from(account.0));
        }
    }
}

/// Writes the number of the peer at this port, and whether it is trusted; `none` where there is none.
fn write_peer(transcript: &mut Transcript, directory: &Directory, port: u16) {
    match directory.peers.find(peer_addr(port)) {
        None => transcript.add_line(b"none"),
        Some(peer) => {
            transcript.add_number(u64::from(peer.0));
            transcript.add_if(
                directory.peers.trusted(peer),
                b" trusted\n",
                b" untrusted\n",
            );
        }
    }
}

/// What a configuration defines.
#[derive(Clone, Copy)]
struct Known<'a> {
    directory: &'a Directory,
}

impl RowRunner for Known<'_> {
    fn run_row(&mut self, transcript: &mut Transcript, asked: &[u8]) {
        let (word, rest) = split_or_all(b' ', asked);
        match word {
            b"route" => write_route(transcript, self.directory, rest),
            b"name" => write_name(transcript, self.directory, rest),
            b"peer" => {
                let port = number_up_to(65_535, rest).unwrap_or(0);
                write_peer(transcript, self.directory, u16::try_from(port).unwrap_or(0));
            }
            _ => write_settings(transcript, self.directory),
        }
    }
}

/// The content of the configuration above.
const HOME_TOLD: &[u8] = b"> settings
sip 127 0 0 1 5060
web 10 0 0 1 80
mixer 10 0 0 2 41000
home home.example
bound 0
country 049
timer on
store calls.db
operator sip:op@home.example
factory sip:conf@home.example
identities 3
> peer 5071
1 trusted
> peer 5072
2 untrusted
> peer 5060
none
> route sip:bob@HOME.example
1
> route sip:bob@far.example
2
> route tel:+49-30-111
1
> route sip:bob@other.example
2
> name sip:alice@home.example
1
> name tel:+4930111
1
> name sip:bob@home.example
4294967295
> name sip:op@home.example
0
";

/// The content of a configuration of the two required lines.
const BARE_TOLD: &[u8] = b"> settings
sip 127 0 0 1 1
web 127 0 0 1 8080
mixer 127 0 0 1 40000
home h
bound 5
country none
timer off
store :memory:
operator none
factory none
identities 0
> peer 1
none
";

/// The number of the first line that a configuration has otherwise; 0 where none is.
fn wrong_known(alloc: Global, text: &[u8], table: &[u8]) -> usize {
    match read_directory(alloc, text) {
        Err(_) => 1,
        Ok(directory) => {
            let mut known = Known {
                directory: &directory,
            };
            let wrong = wrong_line(alloc, &mut known, table);
            drop(directory);
            wrong
        }
    }
}

#[test]
fn reads_lines_of_each_kind(rt: HostRuntime) {
    assert_right(&rt, "HOME_TOLD", wrong_known(rt.alloc(), HOME, HOME_TOLD));
    let bare = b"home h\nsip 127.0.0.1:1";
    assert_right(&rt, "BARE_TOLD", wrong_known(rt.alloc(), bare, BARE_TOLD));
}

/// The number of the line in which a configuration breaks the grammar; 0 where it is read.
pub fn broken_config(alloc: Global, text: &[u8]) -> u64 {
    match read_directory(alloc, text) {
        Ok(directory) => {
            drop(directory);
            0
        }
        Err(DirectoryFault::BadLine { line }) => line,
        Err(DirectoryFault::NoMemory) => u64::MAX,
    }
}

/// The number of the line in which each of these breaks the grammar, 0 where it is read. A `;` represents the end of a line.
const WHOLE: &[u8] = b"0|sip 1.2.3.4:5;home h
0|home h;sip 255.255.255.255:65535;
1|
2|sip 1.2.3.4:5
4|home h;;;
3|sip 127.0.0.1:5060;home home.example;peer x;
1|sip 1.2.3.4:5\r;home h;
1| sip 1.2.3.4:5;home h;
1|sip;home h;
1|sip 1.2.3.4:5 ;home h;
1|Sip 1.2.3.4:5;home h;
1|sip 1.2.3.4:05;home h;
1|sip 1.2.3.256:5;home h;
1|sip 1.2.3:5;home h;
1|sip 1.2.3.4:0;home h;
1|sip 1.2.3.4:65536;home h;
3|sip 1.2.3.4:5;home h;sip 1.2.3.4:5;
3|sip 1.2.3.4:5;home h;home h;
2|sip 1.2.3.4:5;home  h;
2|sip 1.2.3.4:5;home ;
2|sip 1.2.3.4:5;home h i;
2|sip 1.2.3.4:5;home a/b;
3|sip 1.2.3.4:5;home h;website x;
3|sip 1.2.3.4:5;home h;area 49;
3|#;;x;sip 1.2.3.4:5;home h;
1|sip  127.0.0.1:5060;home h;
1|sip 127.0-0.1:5060;home h;
2|sip 1.2.3.4:5;home h ;
1|at 7 quiet;sip 1.2.3.4:5;home h;
1||data;sip 1.2.3.4:5;home h;
1|peer x;
2|sip 1.2.3.4:5;bound 17
4|sip 1.2.3.4:5;peer 1 1.1.1.1:1 trusted;bound 16;
5|home h;#;bound 16;;";

/// The same of peers and routes, after `sip` and `home`.
const ROUTES: &[u8] = b"0|peer 1024 1.1.1.1:1 trusted;
3|peer 1025 1.1.1.1:1 trusted;
3|peer 0 1.1.1.1:1 trusted;
3|peer 01 1.1.1.1:1 trusted;
3|peer +1 1.1.1.1:1 trusted;
3|peer 18446744073709551617 1.1.1.1:1 trusted;
3|peer 1 1.1.1.1:1 Trusted;
3|peer 1 1.1.1.1:1;
3|peer 1 1.1.1.1 trusted;
3|peer 1 1.1.1.1:1 trusted untrusted;
4|peer 1 1.1.1.1:1 trusted;peer 1 1.1.1.1:2 trusted;
4|peer 1 1.1.1.1:1 trusted;peer 2 1.1.1.1:1 trusted;
0|peer 1 1.1.1.1:1 trusted;peer 2 1.1.1.1:2 untrusted;route +1 1;route +12 2;route * 1;route 1.2 2;
3|route a 1;peer 1 1.1.1.1:1 trusted;
5|peer 1 1.1.1.1:1 trusted;route a 1;route A 1;
5|peer 1 1.1.1.1:1 trusted;route * 1;route * 1;
4|peer 1 1.1.1.1:1 trusted;route + 1;
4|peer 1 1.1.1.1:1 trusted;route +1a 1;
4|peer 1 1.1.1.1:1 trusted;route a/b 1;
4|peer 1 1.1.1.1:1 trusted;route  * 1;
4|peer 1 1.1.1.1:1 trusted;route a;";

/// The same of accounts.
const ACCOUNTS: &[u8] = b"0|account 1 sip:a@h;account 4294967295 tel:+1;
0|account 1 sip:a@h sip:b@h sip:c@h sip:d@h sip:e@h sip:f@h sip:g@h sip:i@h;
3|account 1 sip:a@h sip:b@h sip:c@h sip:d@h sip:e@h sip:f@h sip:g@h sip:i@h sip:j@h;
3|account 1;
3|account 1 ;
3|account;
3|account 0 sip:a@h;
3|account 01 sip:a@h;
3|account 4294967296 sip:a@h;
3|account x sip:a@h;
3|account 1 a@h;
3|account 1 mailto:a@h;
3|account 1 sip:a@h x;
3|account 1 sip:a@h  sip:b@h;
3|account 1 sip:a@h ;
3|account 1 sip:a@h sip:a@h;
4|account 1 sip:a@h;account 1 sip:b@h;
4|account 1 sip:a@h;account 2 sip:b@h sip:a@H;
4|account 1 tel:+4930111;account 2 tel:+49-30-111;
0|account 1 sip:a@h;account 2 sip:A@h;";

/// The same of each other line, which may occur once.
const ONCE: &[u8] = b"0|web 1.2.3.4:5;
3|web;
3|web 1.2.3.4;
4|web 1.2.3.4:5;web 1.2.3.4:6;
0|operator tel:+1;factory tel:+1;
3|operator;
3|operator op;
3|operator sip:op@h sip:op@i;
4|operator sip:op@h;operator sip:op@h;
3|factory ;
3|factory <sip:f@h>;
4|factory sip:f@h;factory sip:g@h;
0|bound 0;
0|bound 16;
3|bound 17;
3|bound 05;
3|bound 18446744073709551616;
3|bound -1;
3|bound;
4|bound 5;bound 5;
0|country 1;
0|country 049;
3|country;
3|country ;
3|country 1234;
3|country +49;
3|country 4 9;
4|country 49;country 49;
0|extension timer;
0|extension mwi;
0|extension mwi;extension timer;
3|extension;
3|extension ;
3|extension timer timer;
3|extension Timer;
0|extension 100rel;
3|extension 100Rel;
4|extension 100rel;extension 100rel;
0|extension timer;extension 100rel;
3|extension Mwi;
3|extension mwi mwi;
4|extension timer;extension timer;
4|extension mwi;extension mwi;
0|mixer 1.2.3.4 65535;
3|mixer 1.2.3.4 0;
3|mixer 1.2.3.4 65536;
3|mixer 1.2.3.4:5;
3|mixer 1.2.3.4 5 6;
4|mixer 1.2.3.4 5;mixer 1.2.3.4 5;
0|store \t|/\xff;
3|store;
3|store ;
3|store a b;
4|store a;store a;";

/// A server of one peer, one route and one account.
const SMALL: &[u8] = b"sip 127.0.0.1:5060
home home.example
peer 1 127.0.0.1:5071 trusted
route home.example 1
account 1 sip:alice@home.example tel:+4930111
";

/// The same of damaged lines, after those of a small server: an extra space, a misspelt word, a line of a script, a line that occurs twice.
const DAMAGED: &[u8] = b"0|# a comment;;bound 3;web 127.0.0.1:8081
6| ;
6|foo;
6|x0;
6||data;
6|at 7 quiet;
6|boundx0;
6|bound 99;
6|accoun/ 2 sip:bob@home.example tel:+4930222;
6|peer  2 127.0.0.1:5072 untrusted;
6|peer 2 127.0.0.1:5072 untrusted ;
6|peer 1 127.0.0.1:5071 trusted;
6|route  far.example 1;
6|route  * 1;
6|route far.example 1 ;
6|route +4930 1 ;
6|route /ome.example 1;
7|route +4930 1;route +4930 1;
6|account  2 sip:bob@home.example;
6|account 2 sip:bob@home.example tel:+4930222 ;";

/// The identity of a number, as a sip URI.
const PHONE: &[u8] = b"sip 1.2.3.4:5\nhome h\naccount 1 sip:+4930111@h;user=phone\n";

/// The same of accounts after that of the number: it has no second account, in whatever form it is written.
const NUMBERS: &[u8] = b"0|account 2 tel:+4930112;
0|account 2 sip:+4930111@i;
4|account 2 tel:+4930111;
4|account 2 tel:+49-30-111;
4|account 2 sip:bob@h tel:+49.30.111;
4|account 2 sip:+4930111@H;";

/// Configurations.
#[derive(Clone, Copy)]
struct Configurations;

impl Grammar for Configurations {
    fn broken(&self, alloc: Global, text: &[u8]) -> u64 {
        broken_config(alloc, text)
    }
}

/// The number of the first row that is wrong; 0 where none is.
fn wrong_config(alloc: Global, before: &[u8], table: &[u8]) -> usize {
    wrong_row(alloc, &Configurations, before, table)
}

#[test]
fn names_the_first_bad_line(rt: HostRuntime) {
    let both = b"sip 1.2.3.4:5\nhome h\n";
    assert_right(&rt, "WHOLE", wrong_config(rt.alloc(), b"", WHOLE));
    assert_right(&rt, "ROUTES", wrong_config(rt.alloc(), both, ROUTES));
    assert_right(&rt, "ACCOUNTS", wrong_config(rt.alloc(), both, ACCOUNTS));
    assert_right(&rt, "ONCE", wrong_config(rt.alloc(), both, ONCE));
    assert_right(&rt, "DAMAGED", wrong_config(rt.alloc(), SMALL, DAMAGED));
    assert_right(&rt, "NUMBERS", wrong_config(rt.alloc(), PHONE, NUMBERS));
}
