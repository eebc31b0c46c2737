//! Requests for service records and charging rows, and the replies (RFC 9110 §9 and §15, RFC 9112, TS 24.623).

ghost use Rattle.http.specs.StatusCode.{IsStatusCode};

use crate::asserting::assert_right;
use crate::web::pages::{add_shown, meant, numbers, unless_failed};
use mmtel_keeper::MemoryKeeper;
use mmtel_lex::{Uri, read_uri};
use mmtel_records_in_force::Records;
use mmtel_test_tables::{RowRunner, Transcript, wrong_line};
use mmtel_trust::Accounts;
use mmtel_types::Account;
use mmtel_web::{Web, WebDirectory, Whole, answer, reply, whole};
use mmtel_web_service::serve;
use std::alloc::Global;

/// A URI that can be read.
fn uri(transcript: &mut Transcript, text: &[u8]) -> Option<Uri> {
    let uri = read_uri(transcript.alloc, text);
    transcript.value_or_fail(uri)
}

/// Adds an identity of an account.
fn add(transcript: &mut Transcript, accounts: &mut Accounts, number: u32, text: &[u8]) {
    if let Some(uri) = uri(transcript, text) {
        let done = accounts.add(transcript.alloc, Account(number), uri);
        transcript.fail_unless(done.is_ok());
    }
}

/// The accounts of the tables.
fn accounts(transcript: &mut Transcript) -> Accounts {
    let mut accounts = Accounts::new();
    add(transcript, &mut accounts, 1, b"sip:alice@home.example");
    add(transcript, &mut accounts, 1, b"tel:+4930111");
    add(transcript, &mut accounts, 2, b"sip:bob@home.example");
    add(transcript, &mut accounts, 4, b"tel:+4911");
    add(transcript, &mut accounts, 5, b"sip:+4911@home.example");
    add(
        transcript,
        &mut accounts,
        u32::MAX,
        b"sip:last@home.example",
    );
    accounts
}

/// The accounts and the operator in the tables.
fn directory(transcript: &mut Transcript) -> WebDirectory {
    let accounts = accounts(transcript);
    let operator = uri(transcript, b"sip:op@home.example");
    WebDirectory {
        accounts,
        operator,
        mwi: true,
    }
}

/// A server of records over a keeper in memory.
#[derive(Drop)]
struct Server {
    directory: WebDirectory,
    records: Records,
    keeper: MemoryKeeper,
}

/// A server whose keeper's calls of these numbers fail.
fn make_server(transcript: &mut Transcript, failing: &[u64]) -> Server {
    let directory = directory(transcript);
    let failing = numbers(transcript, failing);
    Server {
        directory,
        records: Records::new(transcript.alloc),
        keeper: MemoryKeeper::new(failing),
    }
}

fn digit_of(account: Account) -> &'static [u8] {
    match account.0 {
        1 => b"1",
        2 => b"2",
        _ => b"?",
    }
}

fn add_web(transcript: &mut Transcript, web: &Web) {
    match web {
        Web::Read(text) => add_shown(transcript, text.bytes()),
        Web::Store {
            account,
            text,
            reply,
            ..
        } => {
            transcript.add(b"keeps ");
            transcript.add(digit_of(*account));
            transcript.add(b" ");
            add_shown(transcript, text.bytes());
            transcript.add(b"|");
            add_shown(transcript, reply.bytes());
        }
        Web::Charges => transcript.add(b"charges"),
        Web::Mailbox { account, body } => {
            transcript.add(b"mailbox ");
            transcript.add(digit_of(*account));
            transcript.add(b" ");
            add_shown(transcript, body.bytes());
        }
    }
}

fn add_asked(transcript: &mut Transcript, server: &Server, bytes: &[u8]) {
    match answer(
        transcript.alloc,
        &server.directory,
        server.records.texts(),
        bytes,
    ) {
        Ok(web) => {
            add_web(transcript, &web);
            drop(web);
        }
        Err(_) => transcript.fail(),
    }
}

/// Evaluates what is to be done, and does nothing of it.
#[derive(Drop)]
struct Asking {
    server: Server,
}

impl RowRunner for Asking {
    fn run_row(&mut self, transcript: &mut Transcript, asked: &[u8]) {
        let bytes = meant(transcript, asked);
        add_asked(transcript, &self.server, bytes.bytes());
        drop(bytes);
        transcript.add(b"\n");
    }
}

fn add_waiting(transcript: &mut Transcript, waiting: Option<u8>) {
    match waiting {
        Some(2) => transcript.add(b" two calls"),
        Some(_) => transcript.add(b" more"),
        None => {}
    }
}

impl Server {
    fn serve(&mut self, transcript: &mut Transcript, bytes: &[u8]) {
        match serve(
            transcript.alloc,
            &self.directory,
            &mut self.records,
            &mut self.keeper,
            bytes,
        ) {
            Ok(served) => {
                add_shown(transcript, served.reply.bytes());
                drop(served);
            }
            Err(_) => transcript.fail(),
        }
    }
}

/// Processes a request; then, where bob's record is not the empty one, his capacity.
impl RowRunner for Server {
    fn run_row(&mut self, transcript: &mut Transcript, asked: &[u8]) {
        let bytes = meant(transcript, asked);
        self.serve(transcript, bytes.bytes());
        drop(bytes);
        if let Some(sheet) = self.records.sheet(Account(2)) {
            add_waiting(transcript, sheet.waiting);
        }
        transcript.add(b"\n");
    }
}

/// The number of the first line with another reply of a server that does nothing of what it is to do, and where alice has a record; 0 where there is none.
fn wrong_asked(alloc: Global, table: &[u8]) -> usize {
    let mut transcript = Transcript::new(alloc);
    let mut server = make_server(&mut transcript, &[1, 2]);
    let record = transcript.copy(b"a = 1");
    let done = server.records.put(alloc, Account(1), record);
    transcript.fail_unless(done.is_ok());
    let mut asking = Asking { server };
    let wrong = wrong_line(alloc, &mut asking, table);
    drop(asking);
    unless_failed(transcript, wrong)
}

/// The same of a server whose keeper's third and sixth call fail.
fn wrong_served(alloc: Global, table: &[u8]) -> usize {
    let mut transcript = Transcript::new(alloc);
    let mut server = make_server(&mut transcript, &[3, 6]);
    let wrong = wrong_line(alloc, &mut server, table);
    drop(server);
    unless_failed(transcript, wrong)
}

/// Paths, methods, accounts, identities, records, uploads, and what is no request; the first case that applies decides.
const REQUESTS: &[u8] = b"> GET / HTTP/1.1%~%~
HTTP/1.1 404 Not Found%~Content-Length: 0%~Connection: close%~%~
> GET /x HTTP/1.1%~%~
HTTP/1.1 404 Not Found%~Content-Length: 0%~Connection: close%~%~
> GET /charges?x HTTP/1.1%~%~
HTTP/1.1 404 Not Found%~Content-Length: 0%~Connection: close%~%~
> GET http://home.example/charges HTTP/1.1%~%~
HTTP/1.1 404 Not Found%~Content-Length: 0%~Connection: close%~%~
> GET /charges/ HTTP/1.1%~%~
HTTP/1.1 404 Not Found%~Content-Length: 0%~Connection: close%~%~
> GET /Charges HTTP/1.1%~X-3GPP-Asserted-Identity: \"sip:op@home.example\"%~%~
HTTP/1.1 404 Not Found%~Content-Length: 0%~Connection: close%~%~
> GET /simservs HTTP/1.1%~%~
HTTP/1.1 404 Not Found%~Content-Length: 0%~Connection: close%~%~
> GET /simservs/ HTTP/1.1%~%~
HTTP/1.1 404 Not Found%~Content-Length: 0%~Connection: close%~%~
> GET /simservs/02 HTTP/1.1%~X-3GPP-Asserted-Identity: \"sip:bob@home.example\"%~%~
HTTP/1.1 404 Not Found%~Content-Length: 0%~Connection: close%~%~
> GET /simservs/+2 HTTP/1.1%~X-3GPP-Asserted-Identity: \"sip:bob@home.example\"%~%~
HTTP/1.1 404 Not Found%~Content-Length: 0%~Connection: close%~%~
> GET /simservs/2/ HTTP/1.1%~X-3GPP-Asserted-Identity: \"sip:bob@home.example\"%~%~
HTTP/1.1 404 Not Found%~Content-Length: 0%~Connection: close%~%~
> GET /simservs/2x HTTP/1.1%~X-3GPP-Asserted-Identity: \"sip:bob@home.example\"%~%~
HTTP/1.1 404 Not Found%~Content-Length: 0%~Connection: close%~%~
> GET /simservs/2/3 HTTP/1.1%~X-3GPP-Asserted-Identity: \"sip:bob@home.example\"%~%~
HTTP/1.1 404 Not Found%~Content-Length: 0%~Connection: close%~%~
> GET /simservs//2 HTTP/1.1%~X-3GPP-Asserted-Identity: \"sip:bob@home.example\"%~%~
HTTP/1.1 404 Not Found%~Content-Length: 0%~Connection: close%~%~
> POST /simservs/x HTTP/1.1%~%~
HTTP/1.1 404 Not Found%~Content-Length: 0%~Connection: close%~%~
> DELETE /nowhere HTTP/1.1%~%~
HTTP/1.1 404 Not Found%~Content-Length: 0%~Connection: close%~%~
> GET /mailbox HTTP/1.1%~%~
HTTP/1.1 404 Not Found%~Content-Length: 0%~Connection: close%~%~
> GET /mailbox/ HTTP/1.1%~%~
HTTP/1.1 404 Not Found%~Content-Length: 0%~Connection: close%~%~
> PUT /mailbox/02 HTTP/1.1%~X-3GPP-Asserted-Identity: \"sip:op@home.example\"%~Content-Type: application/toml%~%~
HTTP/1.1 404 Not Found%~Content-Length: 0%~Connection: close%~%~
> PUT /mailbox/2/ HTTP/1.1%~X-3GPP-Asserted-Identity: \"sip:op@home.example\"%~Content-Type: application/toml%~%~
HTTP/1.1 404 Not Found%~Content-Length: 0%~Connection: close%~%~
> GET /mailbox/2 HTTP/1.1%~X-3GPP-Asserted-Identity: \"sip:op@home.example\"%~%~
HTTP/1.1 405 Method Not Allowed%~Allow: PUT%~Content-Length: 0%~Connection: close%~%~
> DELETE /mailbox/9 HTTP/1.1%~%~
HTTP/1.1 405 Method Not Allowed%~Allow: PUT%~Content-Length: 0%~Connection: close%~%~
> PUT /mailbox/9 HTTP/1.1%~X-3GPP-Asserted-Identity: \"sip:bob@home.example\"%~%~
HTTP/1.1 404 Not Found%~Content-Length: 0%~Connection: close%~%~
> PUT /mailbox/4294967298 HTTP/1.1%~X-3GPP-Asserted-Identity: \"sip:op@home.example\"%~Content-Type: application/toml%~%~
HTTP/1.1 404 Not Found%~Content-Length: 0%~Connection: close%~%~
> PUT /mailbox/2 HTTP/1.1%~X-3GPP-Asserted-Identity: \"sip:bob@home.example\"%~Content-Type: text/plain%~%~
HTTP/1.1 403 Forbidden%~Content-Length: 0%~Connection: close%~%~
> PUT /mailbox/2 HTTP/1.1%~X-3GPP-Asserted-Identity: \"sip:op@home.example\"%~X-3GPP-Asserted-Identity: \"sip:op@home.example\"%~%~
HTTP/1.1 403 Forbidden%~Content-Length: 0%~Connection: close%~%~
> PUT /mailbox/2 HTTP/1.1%~X-3GPP-Asserted-Identity: \"sip:op@home.example\"%~Content-Length: 7%~%~new = 1
HTTP/1.1 415 Unsupported Media Type%~Content-Length: 0%~Connection: close%~%~
> PUT /mailbox/2 HTTP/1.1%~X-3GPP-Asserted-Identity: \"sip:op@home.example\"%~Content-Type: application/toml%~Content-Length: 7%~%~new = 1
mailbox 2 new = 1
> POST /charges HTTP/1.1%~%~
HTTP/1.1 405 Method Not Allowed%~Allow: GET%~Content-Length: 0%~Connection: close%~%~
> PUT /charges HTTP/1.1%~X-3GPP-Asserted-Identity: \"sip:op@home.example\"%~Content-Type: application/toml%~%~
HTTP/1.1 405 Method Not Allowed%~Allow: GET%~Content-Length: 0%~Connection: close%~%~
> DELETE /charges HTTP/1.1%~X-3GPP-Asserted-Identity: \"sip:op@home.example\"%~%~
HTTP/1.1 405 Method Not Allowed%~Allow: GET%~Content-Length: 0%~Connection: close%~%~
> HEAD /charges HTTP/1.1%~X-3GPP-Asserted-Identity: \"sip:op@home.example\"%~%~
HTTP/1.1 405 Method Not Allowed%~Allow: GET%~Content-Length: 0%~Connection: close%~%~
> get /charges HTTP/1.1%~X-3GPP-Asserted-Identity: \"sip:op@home.example\"%~%~
HTTP/1.1 405 Method Not Allowed%~Allow: GET%~Content-Length: 0%~Connection: close%~%~
> POST /simservs/2 HTTP/1.1%~X-3GPP-Asserted-Identity: \"sip:bob@home.example\"%~%~
HTTP/1.1 405 Method Not Allowed%~Allow: GET, PUT, DELETE%~Content-Length: 0%~Connection: close%~%~
> POST /simservs/9 HTTP/1.1%~%~
HTTP/1.1 405 Method Not Allowed%~Allow: GET, PUT, DELETE%~Content-Length: 0%~Connection: close%~%~
> HEAD /simservs/2 HTTP/1.1%~X-3GPP-Asserted-Identity: \"sip:bob@home.example\"%~%~
HTTP/1.1 405 Method Not Allowed%~Allow: GET, PUT, DELETE%~Content-Length: 0%~Connection: close%~%~
> get /simservs/2 HTTP/1.1%~X-3GPP-Asserted-Identity: \"sip:bob@home.example\"%~%~
HTTP/1.1 405 Method Not Allowed%~Allow: GET, PUT, DELETE%~Content-Length: 0%~Connection: close%~%~
> POST /simservs/4294967296 HTTP/1.1%~%~
HTTP/1.1 405 Method Not Allowed%~Allow: GET, PUT, DELETE%~Content-Length: 0%~Connection: close%~%~
> SUBSCRIBE-WITH-A-LONG-NAME /simservs/2 HTTP/1.1%~X-3GPP-Asserted-Identity: \"sip:bob@home.example\"%~%~
HTTP/1.1 405 Method Not Allowed%~Allow: GET, PUT, DELETE%~Content-Length: 0%~Connection: close%~%~
> GET /simservs/9 HTTP/1.1%~X-3GPP-Asserted-Identity: \"sip:bob@home.example\"%~%~
HTTP/1.1 404 Not Found%~Content-Length: 0%~Connection: close%~%~
> GET /simservs/0 HTTP/1.1%~X-3GPP-Asserted-Identity: \"sip:bob@home.example\"%~%~
HTTP/1.1 404 Not Found%~Content-Length: 0%~Connection: close%~%~
> GET /simservs/4294967298 HTTP/1.1%~X-3GPP-Asserted-Identity: \"sip:bob@home.example\"%~%~
HTTP/1.1 404 Not Found%~Content-Length: 0%~Connection: close%~%~
> GET /simservs/99999999999999999999 HTTP/1.1%~X-3GPP-Asserted-Identity: \"sip:bob@home.example\"%~%~
HTTP/1.1 404 Not Found%~Content-Length: 0%~Connection: close%~%~
> PUT /simservs/9 HTTP/1.1%~X-3GPP-Asserted-Identity: \"sip:bob@home.example\"%~Content-Type: application/toml%~%~
HTTP/1.1 404 Not Found%~Content-Length: 0%~Connection: close%~%~
> DELETE /simservs/9 HTTP/1.1%~%~
HTTP/1.1 404 Not Found%~Content-Length: 0%~Connection: close%~%~
> GET /simservs/2 HTTP/1.1%~%~
HTTP/1.1 403 Forbidden%~Content-Length: 0%~Connection: close%~%~
> GET /simservs/2 HTTP/1.1%~X-3GPP-Asserted-Identity: \"sip:bob@home.example\"%~X-3GPP-Asserted-Identity: \"sip:bob@home.example\"%~%~
HTTP/1.1 403 Forbidden%~Content-Length: 0%~Connection: close%~%~
> GET /simservs/2 HTTP/1.1%~X-3GPP-Asserted-Identity: \"sip:bob@home.example\"%~X-3GPP-Asserted-Identity: \"sip:alice@home.example\"%~%~
HTTP/1.1 403 Forbidden%~Content-Length: 0%~Connection: close%~%~
> GET /simservs/2 HTTP/1.1%~X-3GPP-Asserted-Identity: \"sip:bob@home.example\", \"sip:bob@home.example\"%~%~
HTTP/1.1 403 Forbidden%~Content-Length: 0%~Connection: close%~%~
> GET /simservs/2 HTTP/1.1%~X-3GPP-Asserted-Identity: sip:bob@home.example%~%~
HTTP/1.1 403 Forbidden%~Content-Length: 0%~Connection: close%~%~
> GET /simservs/2 HTTP/1.1%~X-3GPP-Asserted-Identity: \"sip:bob@home.example%~%~
HTTP/1.1 403 Forbidden%~Content-Length: 0%~Connection: close%~%~
> GET /simservs/2 HTTP/1.1%~X-3GPP-Asserted-Identity: \"sip:bob@home.example\" x%~%~
HTTP/1.1 403 Forbidden%~Content-Length: 0%~Connection: close%~%~
> GET /simservs/2 HTTP/1.1%~X-3GPP-Asserted-Identity: \"\"%~%~
HTTP/1.1 403 Forbidden%~Content-Length: 0%~Connection: close%~%~
> GET /simservs/2 HTTP/1.1%~X-3GPP-Asserted-Identity: \"sips:bob@home.example\"%~%~
HTTP/1.1 403 Forbidden%~Content-Length: 0%~Connection: close%~%~
> GET /simservs/2 HTTP/1.1%~X-3GPP-Asserted-Identity: \"sip:BOB@home.example\"%~%~
HTTP/1.1 403 Forbidden%~Content-Length: 0%~Connection: close%~%~
> GET /simservs/2 HTTP/1.1%~X-3GPP-Asserted-Identity: \"sip:alice@home.example\"%~%~
HTTP/1.1 403 Forbidden%~Content-Length: 0%~Connection: close%~%~
> GET /simservs/2 HTTP/1.1%~X-3GPP-Asserted-Identity: \"sip:eve@other.example\"%~%~
HTTP/1.1 403 Forbidden%~Content-Length: 0%~Connection: close%~%~
> GET /simservs/2 HTTP/1.1%~X-3GPP-Asserted-Identity: \"sip:op@home.example\"%~%~
HTTP/1.1 403 Forbidden%~Content-Length: 0%~Connection: close%~%~
> PUT /simservs/2 HTTP/1.1%~X-3GPP-Asserted-Identity: \"sip:alice@home.example\"%~%~
HTTP/1.1 403 Forbidden%~Content-Length: 0%~Connection: close%~%~
> DELETE /simservs/2 HTTP/1.1%~X-3GPP-Asserted-Identity: \"sip:alice@home.example\"%~%~
HTTP/1.1 403 Forbidden%~Content-Length: 0%~Connection: close%~%~
> GET /simservs/1 HTTP/1.1%~X-3GPP-Asserted-Identity: \"sip:+4930111@any.example\"%~%~
HTTP/1.1 403 Forbidden%~Content-Length: 0%~Connection: close%~%~
> GET /charges HTTP/1.1%~%~
HTTP/1.1 403 Forbidden%~Content-Length: 0%~Connection: close%~%~
> GET /charges HTTP/1.1%~X-3GPP-Asserted-Identity: \"sip:bob@home.example\"%~%~
HTTP/1.1 403 Forbidden%~Content-Length: 0%~Connection: close%~%~
> GET /charges HTTP/1.1%~X-3GPP-Asserted-Identity: \"sip:op@home.example\"%~X-3GPP-Asserted-Identity: \"sip:op@home.example\"%~%~
HTTP/1.1 403 Forbidden%~Content-Length: 0%~Connection: close%~%~
> GET /simservs/1 HTTP/1.1%~X-3GPP-Asserted-Identity: \"sip:alice@home.example\"%~%~
HTTP/1.1 200 OK%~Content-Type: application/toml%~Content-Length: 5%~Connection: close%~%~a = 1
> GET /simservs/1 HTTP/1.1%~X-3GPP-Asserted-Identity: \"sip:alice@HOME.Example\"%~%~
HTTP/1.1 200 OK%~Content-Type: application/toml%~Content-Length: 5%~Connection: close%~%~a = 1
> GET /simservs/1 HTTP/1.1%~X-3GPP-Asserted-Identity: \"sip:alice@home.example:5070;x=y\"%~%~
HTTP/1.1 200 OK%~Content-Type: application/toml%~Content-Length: 5%~Connection: close%~%~a = 1
> GET /simservs/1 HTTP/1.1%~X-3GPP-Asserted-Identity: \"tel:+49-30-111\"%~%~
HTTP/1.1 200 OK%~Content-Type: application/toml%~Content-Length: 5%~Connection: close%~%~a = 1
> GET /simservs/1 HTTP/1.1%~X-3GPP-Asserted-Identity: \"sip:+4930111@any.example;user=phone\"%~%~
HTTP/1.1 200 OK%~Content-Type: application/toml%~Content-Length: 5%~Connection: close%~%~a = 1
> GET /simservs/1 HTTP/1.1%~x-3gpp-asserted-identity:\"sip:alice@home.example\"%~%~
HTTP/1.1 200 OK%~Content-Type: application/toml%~Content-Length: 5%~Connection: close%~%~a = 1
> GET /simservs/2 HTTP/1.1%~X-3GPP-Asserted-Identity: \"sip:bob@home.example\"%~%~
HTTP/1.1 200 OK%~Content-Length: 0%~Connection: close%~%~
> GET /simservs/4 HTTP/1.1%~X-3GPP-Asserted-Identity: \"sip:+4911@home.example;user=phone\"%~%~
HTTP/1.1 200 OK%~Content-Length: 0%~Connection: close%~%~
> GET /simservs/5 HTTP/1.1%~X-3GPP-Asserted-Identity: \"sip:+4911@home.example;user=phone\"%~%~
HTTP/1.1 200 OK%~Content-Length: 0%~Connection: close%~%~
> GET /simservs/2 HTTP/1.1%~X-3GPP-Asserted-Identity: \"sip:bob@home.example\"%~Content-Length: 003%~%~abc
HTTP/1.1 200 OK%~Content-Length: 0%~Connection: close%~%~
> GET /simservs/4294967295 HTTP/1.1%~X-3GPP-Asserted-Identity: \"sip:last@home.example\"%~%~
HTTP/1.1 200 OK%~Content-Length: 0%~Connection: close%~%~
> GET /charges HTTP/1.1%~X-3GPP-Asserted-Identity: \"sip:op@home.example\"%~%~
charges
> PUT /simservs/2 HTTP/1.1%~X-3GPP-Asserted-Identity: \"sip:bob@home.example\"%~Content-Length: 38%~%~[communication-waiting]~active = true~
HTTP/1.1 415 Unsupported Media Type%~Content-Length: 0%~Connection: close%~%~
> PUT /simservs/2 HTTP/1.1%~X-3GPP-Asserted-Identity: \"sip:bob@home.example\"%~Content-Type: application/toml; charset=utf-8%~Content-Length: 38%~%~\
[communication-waiting]~active = true~
HTTP/1.1 415 Unsupported Media Type%~Content-Length: 0%~Connection: close%~%~
> PUT /simservs/2 HTTP/1.1%~X-3GPP-Asserted-Identity: \"sip:bob@home.example\"%~Content-Type: application/toml%~Content-Type: application/toml%~Content-Length: 38%~%~\
[communication-waiting]~active = true~
HTTP/1.1 415 Unsupported Media Type%~Content-Length: 0%~Connection: close%~%~
> PUT /simservs/2 HTTP/1.1%~X-3GPP-Asserted-Identity: \"sip:bob@home.example\"%~Content-Type: Application/toml%~Content-Length: 38%~%~[communication-waiting]~active = true~
HTTP/1.1 415 Unsupported Media Type%~Content-Length: 0%~Connection: close%~%~
> PUT /simservs/2 HTTP/1.1%~X-3GPP-Asserted-Identity: \"sip:bob@home.example\"%~Content-Type: text/plain%~Content-Length: 1%~%~[
HTTP/1.1 415 Unsupported Media Type%~Content-Length: 0%~Connection: close%~%~
> PUT /simservs/2 HTTP/1.1%~X-3GPP-Asserted-Identity: \"sip:bob@home.example\"%~Content-Type: application/toml%~Content-Length: 38%~%~[communication-waiting]~active = true~
keeps 2 [communication-waiting]~active = true~|HTTP/1.1 200 OK%~Content-Length: 0%~Connection: close%~%~
> PUT /simservs/2 HTTP/1.1%~X-3GPP-Asserted-Identity: \"sip:bob@home.example\"%~content-type:application/toml%~Content-Length: 0038%~%~[communication-waiting]~active = true~more
keeps 2 [communication-waiting]~active = true~|HTTP/1.1 200 OK%~Content-Length: 0%~Connection: close%~%~
> PUT /simservs/2 HTTP/1.1%~X-3GPP-Asserted-Identity: \"sip:bob@home.example\"%~Content-Type: application/toml%~%~
keeps 2 |HTTP/1.1 200 OK%~Content-Length: 0%~Connection: close%~%~
> DELETE /simservs/2 HTTP/1.1%~X-3GPP-Asserted-Identity: \"sip:bob@home.example\"%~%~
keeps 2 |HTTP/1.1 200 OK%~Content-Length: 0%~Connection: close%~%~
> DELETE /simservs/2 HTTP/1.1%~X-3GPP-Asserted-Identity: \"sip:bob@home.example\"%~Content-Type: text/plain%~Content-Length: 1%~%~[
keeps 2 |HTTP/1.1 200 OK%~Content-Length: 0%~Connection: close%~%~
> PUT /simservs/2 HTTP/1.1%~X-3GPP-Asserted-Identity: \"sip:bob@home.example\"%~Content-Type: application/toml%~Content-Length: 23%~%~[communication-waitin]~
HTTP/1.1 409 Conflict%~Content-Type: text/plain%~Content-Length: 29%~Connection: close%~%~unknown communication-waitin~
> PUT /simservs/2 HTTP/1.1%~X-3GPP-Asserted-Identity: \"sip:bob@home.example\"%~Content-Type: application/toml%~Content-Length: 1%~%~[
HTTP/1.1 409 Conflict%~Content-Type: text/plain%~Content-Length: 9%~Connection: close%~%~not toml~
> PUT /simservs/2 HTTP/1.1%~X-3GPP-Asserted-Identity: \"sip:bob@home.example\"%~Content-Type: application/toml%~Content-Length: 34%~%~[communication-waiting]~calls = 9~
HTTP/1.1 409 Conflict%~Content-Type: text/plain%~Content-Length: 34%~Connection: close%~%~wrong communication-waiting.calls~
> PUT /simservs/2 HTTP/1.1%~X-3GPP-Asserted-Identity: \"sip:bob@home.example\"%~Content-Type: application/toml%~Content-Length: 632%~%~\
[[outgoing-communication-barring.rule]]~one = [\"sip:a\", \"sip:a\", \"sip:a\", \"sip:a\", \"sip:a\", \"sip:a\", \"sip:a\", \"sip:a\", \"sip:a\", \"sip:a\", \"sip:a\", \
\"sip:a\", \"sip:a\", \"sip:a\", \"sip:a\", \"sip:a\", \"sip:a\", \"sip:a\", \"sip:a\", \"sip:a\", \"sip:a\", \"sip:a\", \"sip:a\", \"sip:a\", \"sip:a\", \"sip:a\", \
\"sip:a\", \"sip:a\", \"sip:a\", \"sip:a\", \"sip:a\", \"sip:a\", \"sip:a\", \"sip:a\", \"sip:a\", \"sip:a\", \"sip:a\", \"sip:a\", \"sip:a\", \"sip:a\", \"sip:a\", \
\"sip:a\", \"sip:a\", \"sip:a\", \"sip:a\", \"sip:a\", \"sip:a\", \"sip:a\", \"sip:a\", \"sip:a\", \"sip:a\", \"sip:a\", \"sip:a\", \"sip:a\", \"sip:a\", \"sip:a\", \
\"sip:a\", \"sip:a\", \"sip:a\", \"sip:a\", \"sip:a\", \"sip:a\", \"sip:a\", \"sip:a\", \"sip:a\"]~
HTTP/1.1 409 Conflict%~Content-Type: text/plain%~Content-Length: 50%~Connection: close%~%~many outgoing-communication-barring.rule.0.one 64~
> GET /simservs/2
HTTP/1.1 400 Bad Request%~Content-Length: 0%~Connection: close%~%~
> GET /x HTTP/1.1%~
HTTP/1.1 400 Bad Request%~Content-Length: 0%~Connection: close%~%~
> 
HTTP/1.1 400 Bad Request%~Content-Length: 0%~Connection: close%~%~
> %~%~
HTTP/1.1 400 Bad Request%~Content-Length: 0%~Connection: close%~%~
> PUT /simservs/2 HTTP/1.1%~X-3GPP-Asserted-Identity: \"sip:bob@home.example\"%~Content-Type: application/toml%~Content-Length: 5%~%~abc
HTTP/1.1 400 Bad Request%~Content-Length: 0%~Connection: close%~%~
> GET /x HTTP/1.1%~Transfer-Encoding: chunked%~%~
HTTP/1.1 400 Bad Request%~Content-Length: 0%~Connection: close%~%~
> GET /x HTTP/1.1%~Content-Length: 1%~Content-Length: 1%~%~a
HTTP/1.1 400 Bad Request%~Content-Length: 0%~Connection: close%~%~
> GET /x HTTP/1.1%~Content-Length: +1%~%~a
HTTP/1.1 400 Bad Request%~Content-Length: 0%~Connection: close%~%~
> GET /x HTTP/1.1%~Content-Length: %~%~
HTTP/1.1 400 Bad Request%~Content-Length: 0%~Connection: close%~%~
> GET /x HTTP/1.1%~Content-Length: 1 1%~%~
HTTP/1.1 400 Bad Request%~Content-Length: 0%~Connection: close%~%~
> GET /charges%~%~
HTTP/1.1 400 Bad Request%~Content-Length: 0%~Connection: close%~%~
> GET /charges HTTP/2.0%~%~
HTTP/1.1 400 Bad Request%~Content-Length: 0%~Connection: close%~%~
> GET  /charges HTTP/1.1%~%~
HTTP/1.1 400 Bad Request%~Content-Length: 0%~Connection: close%~%~
> GET /x HTTP/1.1%~X Y: 1%~%~
HTTP/1.1 400 Bad Request%~Content-Length: 0%~Connection: close%~%~
> GET /x HTTP/1.1%~X: 1%~ 2%~%~
HTTP/1.1 400 Bad Request%~Content-Length: 0%~Connection: close%~%~
> GET /x HTTP/1.1%~X%~%~
HTTP/1.1 400 Bad Request%~Content-Length: 0%~Connection: close%~%~
> PUT /simservs/2 HTTP/1.1%~X-3GPP-Asserted-Identity: \"sip:bob@home.example\"%~Content-Type: application/toml%~Content-Length: 65537%~%~
HTTP/1.1 413 Payload Too Large%~Content-Length: 0%~Connection: close%~%~
> GET /x HTTP/1.1%~Content-Length: 99999999999999999999%~%~
HTTP/1.1 413 Payload Too Large%~Content-Length: 0%~Connection: close%~%~
> GET /x HTTP/1.1~~
HTTP/1.1 404 Not Found%~Content-Length: 0%~Connection: close%~%~
> %~~GET /x HTTP/1.1%~%~
HTTP/1.1 404 Not Found%~Content-Length: 0%~Connection: close%~%~
> GET /x HTTP/1.0%~%~
HTTP/1.1 404 Not Found%~Content-Length: 0%~Connection: close%~%~
> GET /x HTTP/1.1%~%~GET /charges
HTTP/1.1 404 Not Found%~Content-Length: 0%~Connection: close%~%~
> GET /x HTTP/1.1%~X:%~%~
HTTP/1.1 404 Not Found%~Content-Length: 0%~Connection: close%~%~
";

/// Uploads of one account one after another, and after each reply bob's capacity by his record in force: it is the last that was stored, and a failed call of the keeper leaves it
/// unchanged.
const UPLOADS: &[u8] =
    b"> PUT /simservs/2 HTTP/1.1%~X-3GPP-Asserted-Identity: \"sip:bob@home.example\"%~Content-Type: application/toml%~Content-Length: 38%~%~[communication-waiting]~active = true~
HTTP/1.1 200 OK%~Content-Length: 0%~Connection: close%~%~ two calls
> PUT /simservs/2 HTTP/1.1%~X-3GPP-Asserted-Identity: \"sip:bob@home.example\"%~Content-Type: application/toml%~Content-Length: 38%~%~[communication-waiting]~active = true~
HTTP/1.1 200 OK%~Content-Length: 0%~Connection: close%~%~ two calls
> GET /simservs/2 HTTP/1.1%~X-3GPP-Asserted-Identity: \"sip:bob@home.example\"%~%~
HTTP/1.1 200 OK%~Content-Type: application/toml%~Content-Length: 38%~Connection: close%~%~[communication-waiting]~active = true~ two calls
> GET /simservs/1 HTTP/1.1%~X-3GPP-Asserted-Identity: \"sip:alice@home.example\"%~%~
HTTP/1.1 200 OK%~Content-Length: 0%~Connection: close%~%~ two calls
> PUT /simservs/2 HTTP/1.1%~X-3GPP-Asserted-Identity: \"sip:alice@home.example\"%~Content-Type: application/toml%~Content-Length: 38%~%~[communication-waiting]~active = true~
HTTP/1.1 403 Forbidden%~Content-Length: 0%~Connection: close%~%~ two calls
> PUT /simservs/2 HTTP/1.1%~X-3GPP-Asserted-Identity: \"sip:eve@other.example\"%~Content-Type: application/toml%~Content-Length: 38%~%~[communication-waiting]~active = true~
HTTP/1.1 403 Forbidden%~Content-Length: 0%~Connection: close%~%~ two calls
> PUT /simservs/2 HTTP/1.1%~X-3GPP-Asserted-Identity: \"sip:bob@home.example\"%~Content-Type: application/toml%~Content-Length: 23%~%~[communication-waitin]~
HTTP/1.1 409 Conflict%~Content-Type: text/plain%~Content-Length: 29%~Connection: close%~%~unknown communication-waitin~ two calls
> DELETE /simservs/2 HTTP/1.1%~X-3GPP-Asserted-Identity: \"sip:bob@home.example\"%~%~
HTTP/1.1 503 Service Unavailable%~Content-Length: 0%~Connection: close%~%~ two calls
> GET /simservs/2 HTTP/1.1%~X-3GPP-Asserted-Identity: \"sip:bob@home.example\"%~%~
HTTP/1.1 200 OK%~Content-Type: application/toml%~Content-Length: 38%~Connection: close%~%~[communication-waiting]~active = true~ two calls
> DELETE /simservs/2 HTTP/1.1%~X-3GPP-Asserted-Identity: \"sip:bob@home.example\"%~%~
HTTP/1.1 200 OK%~Content-Length: 0%~Connection: close%~%~
> GET /simservs/2 HTTP/1.1%~X-3GPP-Asserted-Identity: \"sip:bob@home.example\"%~%~
HTTP/1.1 200 OK%~Content-Length: 0%~Connection: close%~%~
> GET /charges HTTP/1.1%~X-3GPP-Asserted-Identity: \"sip:op@home.example\"%~%~
HTTP/1.1 200 OK%~Content-Type: text/csv%~Content-Length: 58%~Connection: close%~%~kind,account,call,began,answered,ended,holds,cause,status~
> GET /charges HTTP/1.1%~X-3GPP-Asserted-Identity: \"sip:op@home.example\"%~%~
HTTP/1.1 503 Service Unavailable%~Content-Length: 0%~Connection: close%~%~
";

/// The replies for the results of a keeper's call.
const REPLIES: &[u8] = b"HTTP/1.1 503 Service Unavailable%~Content-Length: 0%~Connection: close%~%~
HTTP/1.1 507 Insufficient Storage%~Content-Length: 0%~Connection: close%~%~
HTTP/1.1 200 OK%~Content-Type: text/csv%~Content-Length: 4%~Connection: close%~%~a,b~
";

fn add_reply(transcript: &mut Transcript, code: u16, body: &[u8])
    requires { IsStatusCode code }
{
    match reply(transcript.alloc, code, body) {
        Ok(text) => {
            add_shown(transcript, text.bytes());
            drop(text);
        }
        Err(_) => transcript.fail(),
    }
    transcript.add(b"\n");
}

fn wrong_reply(alloc: Global) -> usize {
    let mut transcript = Transcript::new(alloc);
    add_reply(&mut transcript, 503, b"");
    add_reply(&mut transcript, 507, b"");
    add_reply(&mut transcript, 200, b"a,b\n");
    let wrong = transcript.wrong_line(REPLIES);
    drop(transcript);
    wrong
}

/// An upload that is stored.
const UPLOAD: &[u8] =
    b"PUT /simservs/2 HTTP/1.1%~X-3GPP-Asserted-Identity: \"sip:bob@home.example\"%~Content-Type: application/toml%~Content-Length: 38%~%~[communication-waiting]~active = true~";

/// Whether these bytes can become a whole request.
fn could_be_whole(bytes: &[u8]) -> bool {
    match whole(bytes) {
        Whole::More | Whole::Bad => false,
        _ => true,
    }
}

/// Whether it is the reply 400.
fn is_refused(web: &Web) -> bool {
    match web {
        Web::Read(text) => text.bytes().starts_with(b"HTTP/1.1 400 ".as_slice()),
        _ => false,
    }
}

/// Adds `!` where these bytes can become a whole request, or get another reply than 400.
fn add_early(transcript: &mut Transcript, server: &Server, bytes: &[u8]) {
    transcript.add_if(could_be_whole(bytes), b"!", b"");
    match answer(
        transcript.alloc,
        &server.directory,
        server.records.texts(),
        bytes,
    ) {
        Ok(web) => {
            transcript.add_if(is_refused(&web), b"", b"!");
            drop(web);
        }
        Err(_) => transcript.fail(),
    }
}

/// The same of each prefix of these bytes.
fn add_beginnings(transcript: &mut Transcript, server: &Server, bytes: &[u8]) {
    for len in 0..bytes.len() {
        add_early(transcript, server, &bytes[..len]);
    }
}

/// A connection that ends within an upload: no proper prefix of it is a request.
fn wrong_early(alloc: Global) -> usize {
    let mut transcript = Transcript::new(alloc);
    let server = make_server(&mut transcript, &[1, 2]);
    let upload = meant(&mut transcript, UPLOAD);
    add_beginnings(&mut transcript, &server, upload.bytes());
    drop(upload);
    drop(server);
    let wrong = transcript.wrong_line(b"");
    drop(transcript);
    wrong
}

#[test]
fn requests_and_replies(rt: HostRuntime) {
    assert_right(&rt, "REQUESTS", wrong_asked(rt.alloc(), REQUESTS));
    assert_right(&rt, "UPLOADS", wrong_served(rt.alloc(), UPLOADS));
    assert_right(&rt, "reply", wrong_reply(rt.alloc()));
    assert_right(&rt, "early", wrong_early(rt.alloc()));
}
