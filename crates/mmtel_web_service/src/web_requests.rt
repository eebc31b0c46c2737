//! What the server does with the bytes of a web connection.
ghost use Rattle.std.specs.Prelude.{◌≡◌, ◌≢◌, ◌⊎◌, [], Err, IfOk, None, OnErr, Some};
ghost use Rattle.mmtel_charging.specs.Rows.{text_of};
ghost use Rattle.mmtel_http.specs.Requests.{request_of};
ghost use Rattle.mmtel_records_in_force.specs.Records.{IsRegisteredBy};
ghost use Rattle.mmtel_records_in_force.specs.Texts.{Registrations, put_stored};
ghost use Rattle.mmtel_web_service.specs.KeeperCalls.{CountsFaults, HasKeeperResult, IsKeeperResult, IsRowsResult, IsStoreResult};
ghost use Rattle.mmtel_web_service.specs.KeeperCalls.{SheetMatchesText, keeper_call_by, keeper_call_in, loads, stores};
ghost use Rattle.mmtel_web_service.specs.KeeperOutcomes.{keeper_outcome_view};
ghost use Rattle.mmtel_mwi.specs.Counting.{ReportsCounts};
ghost use Rattle.mmtel_mwi.specs.declared.counts.Counts.{Counts};
ghost use Rattle.mmtel_sheet_grammar.specs.ReadResults.{Read};
ghost use Rattle.mmtel_sheet_grammar.specs.Texts.{stored_sheet};
ghost use Rattle.mmtel_sheet_grammar.specs.declared.faults.SheetFault.TheVariants as fault;
ghost use Rattle.mmtel_web.specs.Handling as answers;
ghost use Rattle.mmtel_web.specs.Handling.{made, no_memory, reply_of, reply_to, web_of, web_reply};
ghost use Rattle.mmtel_web.specs.Mailboxes.{accepted_counts, counts_put_by, counts_reply};
ghost use Rattle.mmtel_web.specs.Uploads.{counts_put_in, stored_upload, upload_by, upload_in};
ghost use Rattle.mmtel_web.specs.declared.handling.Web.TheVariants as web;

use crate::keeper_outcomes::{KeeperOutcome, Replies, RowsResult, load_rows, store};
use mmtel_base::{List, NoMemory, Text};
use mmtel_charging::{Row, rows_text};
use mmtel_keeper::Keeper;
use mmtel_mwi::{Counts, read_counts};
use mmtel_records_in_force::Records;
use mmtel_sheet_grammar::SheetFault;
use mmtel_sheet_values::Sheet;
use mmtel_types::Account;
use mmtel_web::theorems::uploads_are_what_they_say;
use mmtel_web::{Web, WebDirectory, answer, fault_reply, reply};
use std::alloc::Global;

/// The result of a request.
#[derive(Drop)]
pub struct ServedRequest {
    /// The reply.
    pub reply: Text,
    /// The result of the keeper's call, where one was due.
    pub outcome: KeeperOutcome,
    /// The charging rows that the keeper returned.
    pub rows: List<Row>,
    /// The counts of the mailbox of an account, where the request sets them and is accepted.
    pub mailbox_counts: Option<(Account, Counts)>,
}

/// A record that is uploaded.
#[derive(Drop)]
struct Upload {
    /// The account whose record it is.
    account: Account,
    /// The record.
    sheet: Sheet,
    /// Its text.
    text: Text,
}

/// Stores a record and puts it in force: space is reserved first, then the keeper stores it, and only then, without allocation, it is put in force.
fn store_record<K: Keeper>(
    alloc: Global,
    records: &mut Records,
    keeper: &mut K,
    upload: Upload,
) -> KeeperOutcome
    requires its { upload.sheet ≡ stored_sheet upload.text }
    ensures texts { records.new.texts.texts
        ≡ put_stored (stored_upload (keeper_outcome_view result) (Some (upload.account, upload.text))) records.old.texts.texts }
    ensures registered { (registrations : Registrations) → IsRegisteredBy records.old registrations → IsRegisteredBy records.new registrations }
    ensures stored { IsStoreResult upload.account upload.text (keeper_outcome_view result) (K.contents keeper.old) (K.contents keeper.new) (K.calls keeper.old)
        (K.calls keeper.new) }
    ensures counted { CountsFaults (keeper_outcome_view result) (K.faults keeper.old) (K.faults keeper.new) }
{
    let Upload {
        account,
        sheet,
        text,
    } = upload;
    let sheet = match records.reserve(alloc, account, sheet) {
        Ok(sheet) => sheet,
        Err(NoMemory) => return KeeperOutcome::NoMemory,
    };
    let kept = store(alloc, keeper, account, text.bytes());
    if kept == KeeperOutcome::Made {
        records.replace(account, text, sheet);
    }
    kept
}

/// Replies where memory runs out: with this reply, which was made before.
fn out_of_memory(no_memory_reply: Text, rows: List<Row>) -> ServedRequest
    requires { no_memory_reply ≡ reply_of 507 [] }
    ensures { result ≡ record { reply = reply_of 507 []; outcome = KeeperOutcome.NoMemory; rows = rows; mailbox_counts = None } }
{
    ServedRequest {
        reply: no_memory_reply,
        outcome: KeeperOutcome::NoMemory,
        rows,
        mailbox_counts: None,
    }
}

/// Does what an upload requests. The reply for each result is made before the keeper is called.
fn serve_upload<K: Keeper>(
    alloc: Global,
    records: &mut Records,
    keeper: &mut K,
    upload: Upload,
    ok_reply: Text,
    no_memory_reply: Text,
) -> ServedRequest
    requires its { upload.sheet ≡ stored_sheet upload.text }
    requires no_memory { no_memory_reply ≡ reply_of 507 [] }
    ensures reply { result.reply ≡ answers.after_call (keeper_outcome_view result.outcome) ok_reply }
    ensures put { result.mailbox_counts ≡ None }
    ensures texts { records.new.texts.texts
        ≡ put_stored (stored_upload (keeper_outcome_view result.outcome) (Some (upload.account, upload.text))) records.old.texts.texts }
    ensures registered { (registrations : Registrations) → IsRegisteredBy records.old registrations → IsRegisteredBy records.new registrations }
    ensures stored { IsStoreResult upload.account upload.text (keeper_outcome_view result.outcome) (K.contents keeper.old) (K.contents keeper.new) (K.calls keeper.old)
        (K.calls keeper.new) }
    ensures counted { CountsFaults (keeper_outcome_view result.outcome) (K.faults keeper.old) (K.faults keeper.new) }
{
    let failed = match reply(alloc, 503, &[]) {
        Ok(failed) => failed,
        Err(NoMemory) => return out_of_memory(no_memory_reply, List::new()),
    };
    let replies = Replies {
        made: ok_reply,
        failed,
        no_memory: no_memory_reply,
    };
    let kept = store_record(alloc, records, keeper, upload);
    ServedRequest {
        reply: replies.after_call(kept),
        outcome: kept,
        rows: List::new(),
        mailbox_counts: None,
    }
}

/// The reply with the charging rows.
fn rows_reply(alloc: Global, rows: &[Row]) -> Result<Text, NoMemory>
    ensures { IfOk result (λ said. said ≡ reply_of 200 (text_of rows.now)) }
{
    let text = rows_text(alloc, rows)?;
    reply(alloc, 200, text.bytes())
}

/// Replies with the charging rows.
fn serve_rows(alloc: Global, rows: List<Row>, no_memory_reply: Text) -> ServedRequest
    requires { no_memory_reply ≡ reply_of 507 [] }
    ensures reply { result.reply ≡ reply_to (keeper_outcome_view result.outcome) result.rows web.Charges }
    ensures kept { (keeper_outcome_view result.outcome ≡ made) ⊎ (keeper_outcome_view result.outcome ≡ no_memory) }
    ensures rows { result.rows ≡ rows }
    ensures put { result.mailbox_counts ≡ None }
{
    match rows_reply(alloc, rows.items()) {
        Ok(reply) => ServedRequest {
            reply,
            outcome: KeeperOutcome::Made,
            rows,
            mailbox_counts: None,
        },
        Err(NoMemory) => out_of_memory(no_memory_reply, rows),
    }
}

/// Returns the charging rows. The reply for a failure is made before the keeper is called.
fn serve_charges<K: Keeper>(alloc: Global, keeper: &mut K, no_memory_reply: Text) -> ServedRequest
    requires { no_memory_reply ≡ reply_of 507 [] }
    ensures reply { result.reply ≡ reply_to (keeper_outcome_view result.outcome) result.rows web.Charges }
    ensures reported { IsRowsResult (keeper_outcome_view result.outcome) result.rows (K.contents keeper.old) (K.contents keeper.new) (K.calls keeper.old) (K.calls keeper.new) }
    ensures counted { CountsFaults (keeper_outcome_view result.outcome) (K.faults keeper.old) (K.faults keeper.new) }
    ensures put { result.mailbox_counts ≡ None }
{
    let failed = match reply(alloc, 503, &[]) {
        Ok(failed) => failed,
        Err(NoMemory) => return out_of_memory(no_memory_reply, List::new()),
    };
    let RowsResult {
        outcome: kept,
        rows,
    } = load_rows(alloc, keeper);
    match kept {
        KeeperOutcome::Made => serve_rows(alloc, rows, no_memory_reply),
        KeeperOutcome::Failed => ServedRequest {
            reply: failed,
            outcome: kept,
            rows,
            mailbox_counts: None,
        },
        KeeperOutcome::NoMemory => out_of_memory(no_memory_reply, rows),
    }
}

/// The reply to a document with the counts of a mailbox, where this was read of it.
fn counts_reply(alloc: Global, read: &Result<Counts, SheetFault>) -> Result<Text, NoMemory>
    ensures reply { (wanted : Read Counts) → ReportsCounts wanted read.now → IfOk result (λ said. said ≡ counts_reply wanted) }
    ensures read { IfOk result (λ _. read.now ≢ Err fault.NoMemory) }
{
    match read {
        Ok(_) => reply(alloc, 200, &[]),
        Err(fault) => fault_reply(alloc, fault),
    }
}

/// The counts that are set, where this was read of a document of a mailbox.
fn accepted_counts(account: Account, read: Result<Counts, SheetFault>) -> Option<(Account, Counts)>
    ensures { (wanted : Read Counts) → ReportsCounts wanted read → read ≢ Err fault.NoMemory → result ≡ accepted_counts made account wanted }
{
    match read {
        Ok(counts) => Some((account, counts)),
        Err(_) => None,
    }
}

/// Reads the counts of a mailbox, and replies; the keeper is not called.
fn serve_mailbox(
    alloc: Global,
    account: Account,
    body: &[u8],
    no_memory_reply: Text,
) -> ServedRequest
    requires { no_memory_reply ≡ reply_of 507 [] }
    ensures reply { result.reply ≡ reply_to (keeper_outcome_view result.outcome) result.rows (web.Mailbox account body.now) }
    ensures kept { (keeper_outcome_view result.outcome ≡ made) ⊎ (keeper_outcome_view result.outcome ≡ no_memory) }
    ensures rows { result.rows ≡ [] }
    ensures put { result.mailbox_counts ≡ counts_put_by (keeper_outcome_view result.outcome) (web.Mailbox account body.now) }
{
    let read = read_counts(alloc, body);
    match counts_reply(alloc, &read) {
        Ok(reply) => ServedRequest {
            reply,
            outcome: KeeperOutcome::Made,
            rows: List::new(),
            mailbox_counts: accepted_counts(account, read),
        },
        Err(NoMemory) => out_of_memory(no_memory_reply, List::new()),
    }
}

/// Does what is to be done for a request.
fn serve_web<K: Keeper>(
    alloc: Global,
    records: &mut Records,
    keeper: &mut K,
    web: Web,
    no_memory_reply: Text,
) -> ServedRequest
    requires its { SheetMatchesText web }
    requires no_memory { no_memory_reply ≡ reply_of 507 [] }
    ensures reply { result.reply ≡ reply_to (keeper_outcome_view result.outcome) result.rows web }
    ensures texts { records.new.texts.texts ≡ put_stored (stored_upload (keeper_outcome_view result.outcome) (upload_by web)) records.old.texts.texts }
    ensures registered { (registrations : Registrations) → IsRegisteredBy records.old registrations → IsRegisteredBy records.new registrations }
    ensures keeper { IsKeeperResult (keeper_call_by web) (keeper_outcome_view result.outcome) result.rows (K.contents keeper.old)
        (K.contents keeper.new) (K.calls keeper.old) (K.calls keeper.new) }
    ensures counted { CountsFaults (keeper_outcome_view result.outcome) (K.faults keeper.old) (K.faults keeper.new) }
    ensures put { result.mailbox_counts ≡ counts_put_by (keeper_outcome_view result.outcome) web }
{
    match web {
        Web::Read(reply) => ServedRequest {
            reply,
            outcome: KeeperOutcome::Made,
            rows: List::new(),
            mailbox_counts: None,
        },
        Web::Store {
            account,
            sheet,
            text,
            reply,
        } => {
            let upload = Upload {
                account,
                sheet,
                text,
            };
            serve_upload(alloc, records, keeper, upload, reply, no_memory_reply)
        }
        Web::Charges => serve_charges(alloc, keeper, no_memory_reply),
        Web::Mailbox { account, body } => {
            let served = serve_mailbox(alloc, account, body.bytes(), no_memory_reply);
            drop(body);
            served
        }
    }
}

/// Does what the bytes request, once there is a reply for out of memory.
fn serve_bytes<K: Keeper>(
    alloc: Global,
    directory: &WebDirectory,
    records: &mut Records,
    keeper: &mut K,
    bytes: &[u8],
    no_memory_reply: Text,
) -> ServedRequest
    requires { no_memory_reply ≡ reply_of 507 [] }
    ensures reply { result.reply ≡ web_reply directory.now records.old.texts.texts (request_of bytes.now) (keeper_outcome_view result.outcome) result.rows }
    ensures texts { records.new.texts.texts
        ≡ put_stored (stored_upload (keeper_outcome_view result.outcome) (upload_in directory.now (request_of bytes.now))) records.old.texts.texts }
    ensures registered { (registrations : Registrations) → IsRegisteredBy records.old registrations → IsRegisteredBy records.new registrations }
    ensures keeper { IsKeeperResult (keeper_call_in directory.now (request_of bytes.now)) (keeper_outcome_view result.outcome) result.rows
        (K.contents keeper.old) (K.contents keeper.new) (K.calls keeper.old)
        (K.calls keeper.new) }
    ensures counted { CountsFaults (keeper_outcome_view result.outcome) (K.faults keeper.old) (K.faults keeper.new) }
    ensures put { result.mailbox_counts ≡ counts_put_in directory.now (request_of bytes.now) (keeper_outcome_view result.outcome) }
{
    uploads_are_what_they_say();
    match answer(alloc, directory, records.texts(), bytes) {
        Ok(web) => serve_web(alloc, records, keeper, web, no_memory_reply),
        Err(NoMemory) => out_of_memory(no_memory_reply, List::new()),
    }
}

/// Does what the bytes of a web connection request, over the records in force and a keeper: the reply, the result of the keeper's call where one was due, and the rows that it
/// returned (3GPP TS 24.623 §5; RFC 9110 §15).
///
/// A record is put in force exactly where the keeper stored it. Where the keeper failed, the reply is 503, and where memory runs out it is 507; then nothing has changed, neither
/// here nor in the keeper.
///
/// # Errors
///
/// Out of memory only before the request is processed: not even the reply for out of memory could be allocated. Nothing has changed, and the keeper was not called.
pub fn serve<K: Keeper>(
    alloc: Global,
    directory: &WebDirectory,
    records: &mut Records,
    keeper: &mut K,
    bytes: &[u8],
) -> Result<ServedRequest, NoMemory>
    // The reply is that of the definitions, by the result of the keeper's call.
    ensures reply { IfOk result (λ served. served.reply ≡ web_reply directory.now records.old.texts.texts (request_of bytes.now) (keeper_outcome_view served.outcome) served.rows) }
    // The texts in force are those before, and over them the one that was stored.
    ensures texts { IfOk result (λ served. records.new.texts.texts
        ≡ put_stored (stored_upload (keeper_outcome_view served.outcome) (upload_in directory.now (request_of bytes.now))) records.old.texts.texts) }
    ensures registered { (registrations : Registrations) → IsRegisteredBy records.old registrations → IsRegisteredBy records.new registrations }
    // The keeper was called as the request requires, and its contents changed by that call alone.
    ensures keeper { IfOk result (λ served.
        IsKeeperResult (keeper_call_in directory.now (request_of bytes.now)) (keeper_outcome_view served.outcome) served.rows
        (K.contents keeper.old) (K.contents keeper.new) (K.calls keeper.old) (K.calls keeper.new)) }
    // Its count of faults rose exactly where its call failed.
    ensures counted { IfOk result (λ served. CountsFaults (keeper_outcome_view served.outcome) (K.faults keeper.old) (K.faults keeper.new)) }
    // The counts of a mailbox in the request are returned where the request was accepted.
    ensures put { IfOk result (λ served. served.mailbox_counts ≡ counts_put_in directory.now (request_of bytes.now) (keeper_outcome_view served.outcome)) }
    // Out of memory without a reply came before anything was done: no record has changed, and the keeper was not called.
    ensures unchanged { OnErr result (records.new ≡ records.old) }
    ensures uncalled { OnErr result (keeper.new ≡ keeper.old) }
    // So it satisfies the condition on a keeper's call during a request, in the form that the callers use.
    ensures aborted { OnErr result (HasKeeperResult (keeper_call_in directory.now (request_of bytes.now)) (K.contents keeper.old)
        (K.contents keeper.new) (K.calls keeper.old) (K.calls keeper.new)
        (K.faults keeper.old) (K.faults keeper.new)) }
{
    let sorry = reply(alloc, 507, &[])?;
    Ok(serve_bytes(alloc, directory, records, keeper, bytes, sorry))
}
