//! What the server does for a request.
ghost use Rattle.std.specs.Prelude.{◌≡◌, ◌≢◌, [], None, IfOk, codes, unwrap_or};
ghost use Rattle.std.specs.Option.{option_copied};
ghost use Rattle.http.specs.StatusCode.{IsStatusCode};
ghost use Rattle.mmtel_http.specs.Resources.{resource_of};
ghost use Rattle.mmtel_http.specs.Replies.{reply_text};
ghost use Rattle.mmtel_http.specs.Requests.{request_of};
ghost use Rattle.mmtel_http.specs.Views.{http_request_view};
ghost use Rattle.mmtel_sheet_reader.specs.Uploads.{upload_of};
ghost use Rattle.mmtel_sheet_texts.specs.Texts.{text_at};
ghost use Rattle.mmtel_web.specs.Handling.{empty_reply, not_allowed, upload_action, is_toml, record_action, account_record_action};
ghost use Rattle.mmtel_web.specs.Handling.{sheet_action, charges_action, resource_action, web_of, reply_of};
ghost use Rattle.mmtel_web.specs.Mailboxes.{account_mailbox_action, fault_reply, mailbox_action, mailbox_document_action, mailbox_put_action, operator_mailbox_action};
ghost use Rattle.mmtel_sheet_grammar.specs.declared.faults.SheetFault.TheVariants as kinds;
ghost use Rattle.mmtel_web.specs.declared.handling.Web.TheVariants as web;

use crate::parties::{identity_of, is_operator, may_access};
use mmtel_base::{NoMemory, Text};
use mmtel_directory::WebDirectory;
use mmtel_http::{
    HttpRequest, Method, ParsedRequest, Resource, method_of, parse_request, reply_text, resource_of,
};
use mmtel_sheet_grammar::SheetFault;
use mmtel_sheet_reader::{Upload, fault_text, upload_of};
use mmtel_sheet_texts::SheetTexts;
use mmtel_sheet_values::Sheet;
use mmtel_types::Account;
use std::alloc::Global;

/// What the server does for a request.
#[derive(Drop)]
pub enum Web {
    /// It sends this reply.
    Read(Text),
    /// It stores the text as the account's service record, whose sheet is `sheet`, and then replies.
    Store {
        /// The account.
        account: Account,
        /// The sheet of the record.
        sheet: Sheet,
        /// The record.
        text: Text,
        /// The reply, where the record was stored.
        reply: Text,
    },
    /// It replies with the charging rows.
    Charges,
    /// It reads the counts of the account's mailbox from the body, and replies.
    Mailbox {
        /// The account.
        account: Account,
        /// The document with the counts.
        body: Text,
    },
}

/// A reply without a body.
fn empty_reply(alloc: Global, code: u16) -> Result<Web, NoMemory>
    requires { IsStatusCode code }
    ensures { IfOk result (λ w. w ≡ empty_reply code) }
{
    let text = reply_text(alloc, code, None, &[], &[])?;
    Ok(Web::Read(text))
}

/// The reply to a method that is none of those that are allowed.
fn not_allowed(alloc: Global, methods: &[u8]) -> Result<Web, NoMemory>
    ensures { IfOk result (λ w. w ≡ not_allowed methods.now) }
{
    let text = reply_text(alloc, 405, Some(methods), &[], &[])?;
    Ok(Web::Read(text))
}

/// What is done with an upload for the account.
fn upload_action(alloc: Global, account: Account, text: &[u8]) -> Result<Web, NoMemory>
    ensures { IfOk result (λ w. w ≡ upload_action account text.now (upload_of text.now)) }
{
    match upload_of(alloc, text)? {
        Upload::Accepted(sheet) => {
            let text = Text::of(alloc, text)?;
            let reply = reply_text(alloc, 200, None, &[], &[])?;
            Ok(Web::Store {
                account,
                sheet,
                text,
                reply,
            })
        }
        Upload::Refused(fault) => {
            let reply = reply_text(alloc, 409, None, b"text/plain", fault.bytes())?;
            Ok(Web::Read(reply))
        }
    }
}

/// Whether the type of a body is the record's.
fn is_toml(kind: Option<&[u8]>) -> bool
    ensures { result ≡ is_toml (option_copied kind.entry) }
{
    match kind {
        None => false,
        Some(kind) => kind == b"application/toml".as_slice(),
    }
}

/// The record that was stored or loaded last for the account, if any.
fn record_reply(alloc: Global, texts: &SheetTexts, account: Account) -> Result<Web, NoMemory>
    ensures { IfOk result (λ w. w ≡ web.Read (reply_text 200 None (codes "application/toml") (unwrap_or (text_at texts.now.texts account) []))) }
{
    let text = match texts.text(account) {
        None => reply_text(alloc, 200, None, b"application/toml", &[])?,
        Some(text) => reply_text(alloc, 200, None, b"application/toml", text.bytes())?,
    };
    Ok(Web::Read(text))
}

/// A request of an account for its record.
fn record_action(
    alloc: Global,
    texts: &SheetTexts,
    request: HttpRequest<'_>,
    account: Account,
    method: Method,
) -> Result<Web, NoMemory>
    ensures { IfOk result (λ w. w ≡ record_action texts.now.texts (http_request_view request.entry) account method) }
{
    match method {
        Method::Get => record_reply(alloc, texts, account),
        Method::Put => {
            if is_toml(request.kind) {
                upload_action(alloc, account, request.body)
            } else {
                empty_reply(alloc, 415)
            }
        }
        Method::Delete => upload_action(alloc, account, &[]),
        Method::Other => not_allowed(alloc, b"GET, PUT, DELETE"),
    }
}

/// A request of somebody for the record of an account, if it is one.
fn account_record_action(
    alloc: Global,
    directory: &WebDirectory,
    texts: &SheetTexts,
    request: HttpRequest<'_>,
    method: Method,
    account: Option<Account>,
) -> Result<Web, NoMemory>
    ensures { IfOk result (λ w. w ≡ account_record_action directory.now texts.now.texts (http_request_view request.entry) method account) }
{
    let Some(account) = account else {
        return empty_reply(alloc, 404);
    };
    if !directory.accounts.has_account(account) {
        return empty_reply(alloc, 404);
    }
    let identity = identity_of(alloc, request.identity)?;
    if may_access(&directory.accounts, account, &identity) {
        record_action(alloc, texts, request, account, method)
    } else {
        empty_reply(alloc, 403)
    }
}

/// A request of somebody for a record.
fn sheet_action(
    alloc: Global,
    directory: &WebDirectory,
    texts: &SheetTexts,
    request: HttpRequest<'_>,
    account: Option<Account>,
    method: Method,
) -> Result<Web, NoMemory>
    ensures { IfOk result (λ w. w ≡ sheet_action directory.now texts.now.texts (http_request_view request.entry) account method) }
{
    match method {
        Method::Other => not_allowed(alloc, b"GET, PUT, DELETE"),
        _ => account_record_action(alloc, directory, texts, request, method, account),
    }
}

/// A request of somebody for the charging rows.
fn charges_action(
    alloc: Global,
    directory: &WebDirectory,
    request: HttpRequest<'_>,
    method: Method,
) -> Result<Web, NoMemory>
    ensures { IfOk result (λ w. w ≡ charges_action directory.now (http_request_view request.entry) method) }
{
    match method {
        Method::Get => {
            let identity = identity_of(alloc, request.identity)?;
            if is_operator(&directory.operator, &identity) {
                Ok(Web::Charges)
            } else {
                empty_reply(alloc, 403)
            }
        }
        _ => not_allowed(alloc, b"GET"),
    }
}

/// An upload of the operator for the mailbox of an account: a TOML document.
fn mailbox_document_action(
    alloc: Global,
    request: HttpRequest<'_>,
    account: Account,
) -> Result<Web, NoMemory>
    ensures { IfOk result (λ w. w ≡ mailbox_document_action (http_request_view request.entry) account) }
{
    if is_toml(request.kind) {
        let body = Text::of(alloc, request.body)?;
        Ok(Web::Mailbox { account, body })
    } else {
        empty_reply(alloc, 415)
    }
}

/// An upload of somebody for the mailbox of an account: only the operator may make one.
fn operator_mailbox_action(
    alloc: Global,
    directory: &WebDirectory,
    request: HttpRequest<'_>,
    account: Account,
) -> Result<Web, NoMemory>
    ensures { IfOk result (λ w. w ≡ operator_mailbox_action directory.now (http_request_view request.entry) account) }
{
    let identity = identity_of(alloc, request.identity)?;
    if is_operator(&directory.operator, &identity) {
        mailbox_document_action(alloc, request, account)
    } else {
        empty_reply(alloc, 403)
    }
}

/// An upload of somebody for the mailbox of an account, if it is one.
fn account_mailbox_action(
    alloc: Global,
    directory: &WebDirectory,
    request: HttpRequest<'_>,
    account: Option<Account>,
) -> Result<Web, NoMemory>
    ensures { IfOk result (λ w. w ≡ account_mailbox_action directory.now (http_request_view request.entry) account) }
{
    let Some(account) = account else {
        return empty_reply(alloc, 404);
    };
    if directory.accounts.has_account(account) {
        operator_mailbox_action(alloc, directory, request, account)
    } else {
        empty_reply(alloc, 404)
    }
}

/// A request of somebody for a mailbox: PUT is the only method there.
fn mailbox_put_action(
    alloc: Global,
    directory: &WebDirectory,
    request: HttpRequest<'_>,
    account: Option<Account>,
    method: Method,
) -> Result<Web, NoMemory>
    ensures { IfOk result (λ w. w ≡ mailbox_put_action directory.now (http_request_view request.entry) account method) }
{
    match method {
        Method::Put => account_mailbox_action(alloc, directory, request, account),
        _ => not_allowed(alloc, b"PUT"),
    }
}

/// A request of somebody for a mailbox, where there are mailboxes.
fn mailbox_action(
    alloc: Global,
    directory: &WebDirectory,
    request: HttpRequest<'_>,
    account: Option<Account>,
    method: Method,
) -> Result<Web, NoMemory>
    ensures { IfOk result (λ w. w ≡ mailbox_action directory.now (http_request_view request.entry) account method) }
{
    if directory.mwi {
        mailbox_put_action(alloc, directory, request, account, method)
    } else {
        empty_reply(alloc, 404)
    }
}

/// A request for a resource.
fn resource_action(
    alloc: Global,
    directory: &WebDirectory,
    texts: &SheetTexts,
    request: HttpRequest<'_>,
) -> Result<Web, NoMemory>
    ensures { IfOk result (λ w. w ≡ resource_action directory.now texts.now.texts (http_request_view request.entry) (resource_of request.entry.target.now)) }
{
    let method = method_of(alloc, request.method)?;
    match resource_of(alloc, request.target)? {
        Resource::Charges => charges_action(alloc, directory, request, method),
        Resource::Sheet(account) => sheet_action(alloc, directory, texts, request, account, method),
        Resource::Mailbox(account) => mailbox_action(alloc, directory, request, account, method),
        Resource::Unknown => empty_reply(alloc, 404),
    }
}

/// What the server does for the bytes of a connection. They are a whole request, or cannot become one, or the connection ended.
///
/// # Errors
///
/// Out of memory only.
pub fn answer(
    alloc: Global,
    directory: &WebDirectory,
    texts: &SheetTexts,
    bytes: &[u8],
) -> Result<Web, NoMemory>
    ensures exact { IfOk result (λ w. w ≡ web_of directory.now texts.now.texts (request_of bytes.now)) }
{
    match parse_request(bytes) {
        ParsedRequest::Unfinished => empty_reply(alloc, 400),
        ParsedRequest::Bad => empty_reply(alloc, 400),
        ParsedRequest::Large => empty_reply(alloc, 413),
        ParsedRequest::Parsed(request) => resource_action(alloc, directory, texts, request),
    }
}

/// The reply with the charging rows (200), or without a body (200), or where the keeper failed (503), or where memory runs out (507).
///
/// # Errors
///
/// Out of memory only.
pub fn reply(alloc: Global, code: u16, body: &[u8]) -> Result<Text, NoMemory>
    requires { IsStatusCode code }
    ensures text { IfOk result (λ text. text ≡ reply_of code body.now) }
{
    reply_text(alloc, code, None, b"text/csv", body)
}

/// The reply to a document that is refused (409): the line with its first fault. There is no reply for out of memory.
///
/// # Errors
///
/// Out of memory, also where that is the given fault.
pub fn fault_reply(alloc: Global, fault: &SheetFault) -> Result<Text, NoMemory>
    ensures text { IfOk result (λ text. text ≡ fault_reply fault.now) }
    ensures other { IfOk result (λ _. fault.now ≢ kinds.NoMemory) }
{
    let line = fault_text(alloc, fault)?;
    reply_text(alloc, 409, None, b"text/plain", line.bytes())
}
