//! Theorems about what the server does for a request.
ghost use Rattle.std.specs.Prelude.{◌≡◌, ℕ, List, true};
ghost use Rattle.mmtel_types.specs.declared.numbers.Account.{Account};
ghost use Rattle.mmtel_charging.specs.declared.rows.Row.{Row};
ghost use Rattle.mmtel_sheet_values.specs.declared.values.Sheet.{Sheet};
ghost use Rattle.mmtel_http.specs.Requests.{HttpRequestView, parsed};
ghost use Rattle.mmtel_sheet_texts.specs.Texts.{text_at};
ghost use Rattle.mmtel_web.specs.Agreement.{AgreeOnIdentities, IsRequestForRecordOf};
ghost use Rattle.mmtel_web.specs.Handling.{KeeperOutcomeView, web_of, web_reply};
ghost use Rattle.mmtel_web.specs.Parties.{identity_of, may_access};
ghost use Rattle.mmtel_web.specs.Uploads.{MailboxesSeeNoText, OnlyRepliesSeeTexts, UploadsSayTheirText, UploadsSeeNoText};
ghost use Rattle.mmtel_web.specs.declared.handling.Web.TheVariants as web;
ghost use Rattle.mmtel_directory.specs.declared.directories.WebDirectory.{WebDirectory};

/// A theorem, without code: what is done for a request for the record of an account, and the reply to it, are the same in any two directories and tables of texts that agree on
/// that account.
pub fn requests_see_one_account()
    ensures done { (account : Account) (d e : WebDirectory) (s t : List (Account × List ℕ)) (a : HttpRequestView)
        → IsRequestForRecordOf account a → AgreeOnIdentities account d.accounts e.accounts → text_at s account ≡ text_at t account
        → web_of d s (parsed a) ≡ web_of e t (parsed a) }
    ensures replied { (account : Account) (d e : WebDirectory) (s t : List (Account × List ℕ)) (a : HttpRequestView) (kept : KeeperOutcomeView) (rows : List Row)
        → IsRequestForRecordOf account a → AgreeOnIdentities account d.accounts e.accounts → text_at s account ≡ text_at t account
        → web_reply d s (parsed a) kept rows ≡ web_reply e t (parsed a) kept rows }
{}

/// A theorem, without code: an upload that is to be stored is of the account whose record was requested, and was requested by an identity of that account.
pub fn uploads_are_of_one_account()
    ensures its { (account b : Account) (d : WebDirectory) (s : List (Account × List ℕ)) (a : HttpRequestView) (sheet : Sheet) (text reply : List ℕ)
        → IsRequestForRecordOf account a → web_of d s (parsed a) ≡ web.Store b sheet text reply → account ≡ b }
    ensures allowed { (account b : Account) (d : WebDirectory) (s : List (Account × List ℕ)) (a : HttpRequestView) (sheet : Sheet) (text reply : List ℕ)
        → IsRequestForRecordOf account a → web_of d s (parsed a) ≡ web.Store b sheet text reply → may_access d.accounts account (identity_of a.identity) ≡ true }
{}

/// A theorem, without code: what is done for a request depends on the texts in force only in what a reply reads, so what it is to store does not; and the sheet that is to be put
/// in force is that of the text that is stored.
pub fn uploads_are_what_they_say()
    ensures replies { OnlyRepliesSeeTexts }
    ensures any { UploadsSeeNoText }
    ensures put { MailboxesSeeNoText }
    ensures text { UploadsSayTheirText }
{}
