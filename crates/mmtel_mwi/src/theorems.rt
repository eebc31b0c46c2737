//! Theorems about the definitions that the contracts cite: each is the contract of a function that does nothing.
ghost use Rattle.std.specs.Prelude.{◌≡◌, ℕ, List, Bool};
ghost use Rattle.mmtel_types.specs.declared.addrs.Addr.{Addr};
ghost use Rattle.mmtel_types.specs.declared.numbers.Account.{Account};
ghost use Rattle.mmtel_mwi.specs.Boxes.{Table, counts_in, notify_request_of, table_after_refresh};
ghost use Rattle.mmtel_mwi.specs.Operations.{TableOp, AreNumberedTo, last_counts, table_after, live_numbers_and_accounts};
ghost use Rattle.mmtel_mwi.specs.Summaries.{summary};
ghost use Rattle.mmtel_types.specs.declared.numbers.SubNo.{SubNo};
ghost use Rattle.mmtel_mwi.specs.declared.subscriptions.Subscription.{Subscription};

/// A theorem, without code: the counts of a mailbox are those that were uploaded last for it, whatever else was done and whatever was uploaded for others.
pub fn the_last_upload_counts()
    ensures counts { (ops : List TableOp) (account : Account) → counts_in account (table_after ops) ≡ last_counts ops account }
{}

/// A theorem, without code: the body of a NOTIFY is the summary of what was uploaded last for the mailbox to which its subscriber subscribed.
pub fn notifies_have_the_last_counts()
    ensures body { (sip : Addr) (ops : List TableOp) (last : Bool) (branch : List ℕ) (now : ℕ) (s : Subscription) →
        (notify_request_of sip last branch now (table_after ops) s).body ≡ summary (last_counts ops s.account) }
{}

/// A theorem, without code: a SUBSCRIBE within a dialog makes no further subscription, ends none, and changes nobody's mailbox.
pub fn a_refresh_makes_no_subscription()
    ensures same { (sub : SubNo) (until : ℕ) (table : Table) → live_numbers_and_accounts (table_after_refresh sub until table) ≡ live_numbers_and_accounts table }
{}

/// A theorem, without code: over every list of operations subscriptions have ascending numbers, none above the number of subscriptions that were made: no number is given twice.
pub fn numbers_are_given_once()
    ensures ascending { (ops : List TableOp) → AreNumberedTo (table_after ops).made 0 (table_after ops).live }
{}
