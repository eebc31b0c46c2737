//! Texts by account.
ghost use Rattle.std.specs.Prelude.{◌≡◌, ◌==◌, ◌<◌, [], length, position, IfSome, OnOk, OnErr};
ghost use Rattle.std.specs.Option.{option_copied};
ghost use Rattle.std.specs.Vec.{vec_capacity, vec_len};
ghost use Rattle.mmtel_sheet_texts.specs.Texts.{put, set_text, text_at};

use mmtel_base::{NoMemory, Text};
use mmtel_types::Account;
use std::alloc::Global;
use std::marker::Model;

/// The text of each account that has one.
///
/// In contracts it is seen as the accounts with their texts, in the order in which the accounts first had a text, and for how many further accounts there is reserved space.
#[derive(Drop)]
pub struct SheetTexts {
    entries: Option<Vec<(Account, Text)>>,
}

impl Model for SheetTexts {
    ghost use Rattle.std.specs.Prelude.{[], ◌-◌};
    ghost use Rattle.std.specs.Option.{option_map_or};
    ghost use Rattle.std.specs.Vec.{vec_capacity, vec_len};
    ghost use Rattle.mmtel_sheet_texts.specs.Texts.{SheetTextsView};

    ghost Value = { SheetTextsView };

    ghost view = { λ t. record {
      texts = option_map_or (λ v. v.items) t.entries [];
      space = option_map_or (λ v. vec_capacity v - vec_len v) t.entries 0;
    } };
}

/// The index of the account.
fn index_of_account(texts: &[(Account, Text)], account: Account) -> Option<usize>
    ensures place { result ≡ position (λ entry. entry.0.0 == account.0) texts.now }
    ensures within { IfSome result (λ at. at < length texts.now) }
{
    texts.iter().position(|entry| entry.0.0 == account.0)
}

/// Puts a text in place of the account's previous one.
fn put_reserved(texts: &mut Vec<(Account, Text)>, account: Account, text: Text)
    requires { vec_len texts.old < vec_capacity texts.old }
    ensures put { texts.new.items ≡ put account text texts.old.items }
{
    match index_of_account(texts.as_slice(), account) {
        Some(at) => texts[at] = (account, text),
        None => texts.push_reserved((account, text)),
    }
}

/// The text of the account.
fn find(texts: &[(Account, Text)], account: Account) -> Option<&Text>
    ensures found { option_copied result ≡ text_at texts.now account }
{
    for entry in texts {
        if entry.0.0 == account.0 {
            return Some(&entry.1);
        }
    }
    None
}

impl SheetTexts {
    /// The table of no texts. It allocates nothing.
    pub fn new() -> SheetTexts
        ensures empty { result ≡ record { texts = []; space = 0 } }
    {
        SheetTexts { entries: None }
    }

    /// Reserves space for the text of one more account, so that a `replace` allocates nothing.
    ///
    /// # Errors
    ///
    /// Out of memory only; the table is then as before.
    pub fn reserve(&mut self, alloc: Global) -> Result<(), NoMemory>
        ensures same { self.new.texts ≡ self.old.texts }
        ensures ok { OnOk result (0 < self.new.space) }
        ensures err { OnErr result (self.new ≡ self.old) }
    {
        match &mut self.entries {
            Some(kept) => {
                kept.reserve(1)?;
                Ok(())
            }
            None => {
                let kept = Vec::with_capacity(alloc, 1)?;
                self.entries = Some(kept);
                Ok(())
            }
        }
    }

    /// Puts a text in place of the account's previous one. It allocates nothing: `reserve` reserved the space.
    pub fn replace(&mut self, account: Account, text: Text)
        requires { 0 < self.old.space }
        ensures put { self.new.texts ≡ put account text self.old.texts }
    {
        match &mut self.entries {
            Some(kept) => put_reserved(kept, account, text),
            None => unreachable!(),
        }
    }

    /// Puts a text in place of the account's previous one.
    ///
    /// # Errors
    ///
    /// Out of memory only; the table is then as before.
    pub fn put(&mut self, alloc: Global, account: Account, text: Text) -> Result<(), NoMemory>
        ensures ok { OnOk result (self.new.texts ≡ put account text self.old.texts) }
        ensures err { OnErr result (self.new ≡ self.old) }
    {
        self.reserve(alloc)?;
        self.replace(account, text);
        Ok(())
    }

    /// Puts another text in place of the one at this index. It allocates nothing.
    pub fn set(&mut self, at: usize, text: Text)
        requires { at < length self.old.texts }
        ensures set { self.new ≡ record self.old { texts = set_text self.old.texts at text } }
    {
        match &mut self.entries {
            Some(kept) => kept[at].1 = text,
            None => unreachable!(),
        }
    }

    /// The text of the account; None where it has none. It allocates nothing.
    pub fn text(&self, account: Account) -> Option<&Text>
        ensures found { option_copied result ≡ text_at self.now.texts account }
    {
        find(self.items(), account)
    }

    /// The accounts with their texts. It allocates nothing.
    pub fn items(&self) -> &[(Account, Text)]
        ensures all { result.now ≡ self.now.texts }
    {
        match &self.entries {
            Some(kept) => kept.as_slice(),
            None => &[],
        }
    }
}
