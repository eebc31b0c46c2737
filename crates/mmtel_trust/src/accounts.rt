//! Accounts and their identities.
ghost use Rattle.std.specs.Prelude.{◌≡◌, List, [], Some, OnOk, OnErr, IfSome, find};
ghost use Rattle.std.specs.Option.{option_copied};
ghost use Rattle.mmtel_lex.specs.declared.values.Uri.{Uri};
ghost use Rattle.mmtel_trust.specs.Accounts.{has_account, has_identity, is_of, account_of, with_identity, identity_fault};
ghost use Rattle.mmtel_trust.specs.Faults.{IsTableResult};
ghost use Rattle.mmtel_trust.specs.Hashes.{uri_hash as hash_of};
ghost use Rattle.mmtel_trust.specs.Indexes.{is_of_account};

use crate::faults::TableFault;
use crate::hash_index::{HashIndex, LookupKey, first_item, has_item};
use crate::hashes::uri_hash;
use mmtel_lex::{List, Uri, same_identity};
use mmtel_types::Account;
use std::alloc::Global;
use std::marker::Model;

/// An identity of an account.
#[derive(Drop)]
pub struct AccountIdentity {
    /// The account.
    pub account: Account,
    /// A URI by which it is named.
    pub uri: Uri,
}

/// The accounts of the server, by their identities.
#[derive(Drop)]
pub struct Accounts {
    identities: List<AccountIdentity>,
    by_uri: HashIndex,
    by_account: HashIndex,
}

impl Model for Accounts {
    ghost use Rattle.std.specs.Prelude.{List};
    ghost use Rattle.mmtel_trust.specs.Indexes.{AreIndexed};
    ghost use Rattle.mmtel_trust.specs.declared.accounts.AccountIdentity.{AccountIdentity};

    ghost Value = { List AccountIdentity };

    ghost view = { λ accounts. accounts.identities };

    ghost invariant = { λ accounts. AreIndexed accounts.identities accounts.by_uri accounts.by_account };
}

impl LookupKey<AccountIdentity> for Uri {
    ghost is_key_of = { is_of };

    ghost hash = { hash_of };

    fn is_key_of(&self, item: &AccountIdentity) -> bool {
        same_identity(&item.uri, self)
    }

    fn hash(&self) -> u64 {
        uri_hash(self)
    }
}

impl LookupKey<AccountIdentity> for Account {
    ghost is_key_of = { is_of_account };

    ghost hash = { λ a. a.0 };

    fn is_key_of(&self, item: &AccountIdentity) -> bool {
        item.account.0 == self.0
    }

    fn hash(&self) -> u64 {
        u64::from(self.0)
    }
}

impl Accounts {
    /// The empty table of accounts. It allocates nothing.
    pub fn new() -> Accounts
        ensures empty { result ≡ [] }
    {
        Accounts {
            identities: List::new(),
            by_uri: HashIndex::new(),
            by_account: HashIndex::new(),
        }
    }

    /// The first identity in the table that is equal to the URI.
    fn named(&self, uri: &Uri) -> Option<&AccountIdentity>
        ensures { option_copied result ≡ find (is_of uri.now) self.now }
    {
        first_item(&self.by_uri, self.identities.items(), uri)
    }

    fn has_identity(&self, uri: &Uri) -> bool
        ensures { result ≡ has_identity uri.now self.now }
    {
        has_item(&self.by_uri, self.identities.items(), uri)
    }

    /// Adds an identity of an account.
    ///
    /// # Errors
    ///
    /// `Taken` where an identity equal to it is in the table; otherwise out of memory only. The table is then as before.
    pub fn add(&mut self, alloc: Global, account: Account, uri: Uri) -> Result<(), TableFault>
        ensures ok { OnOk result (self.new ≡ with_identity account uri self.old) }
        ensures err { OnErr result (self.new ≡ self.old) }
        ensures cause { IsTableResult result (identity_fault uri self.old) }
        // From now on the identity names the account.
        ensures found { OnOk result (account_of self.new uri ≡ Some account) }
        // An identity that named an account still names it.
        ensures first { OnOk result ((v : Uri) → IfSome (account_of self.old v) (λ b. account_of self.new v ≡ Some b)) }
    {
        if self.has_identity(&uri) {
            return Err(TableFault::Taken);
        }
        let place = self.identities.items().len();
        self.by_uri.add(alloc, uri_hash(&uri), place)?;
        self.by_account.add(alloc, u64::from(account.0), place)?;
        self.identities.push(
            alloc,
            AccountIdentity {
                account: account,
                uri: uri,
            },
        )?;
        Ok(())
    }

    /// The identities with their accounts, in the order in which they were added. It allocates nothing.
    pub fn identities(&self) -> &[AccountIdentity]
        ensures all { result.now ≡ self.now }
    {
        self.identities.items()
    }

    /// The account of an identity: the account added first that has an identity equal to it. None where there is none.
    pub fn find(&self, uri: &Uri) -> Option<Account>
        ensures exact { result ≡ account_of self.now uri.now }
    {
        match self.named(uri) {
            Some(identity) => Some(identity.account),
            None => None,
        }
    }

    /// Whether the account is in the table: it has an identity.
    pub fn has_account(&self, account: Account) -> bool
        ensures exact { result ≡ has_account account self.now }
    {
        has_item(&self.by_account, self.identities.items(), &account)
    }
}
