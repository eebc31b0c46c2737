//! Keys by which live transactions are looked up: match keys, and the deadlines that transactions wait for.
ghost use Rattle.std.specs.Prelude.{◌≡◌, IfOk, option_copied};
ghost use Rattle.std.specs.Ordering.{ordering_then};
ghost use Rattle.mmtel_timers.specs.Shelves.{comes_before, lookup_result};
ghost use Rattle.mmtel_transaction.specs.Indexes.{call_match, client_match, deadline_cmp, deadline_key, is_same_match};
ghost use Rattle.mmtel_transaction.specs.Indexes.{match_cmp, match_key, moment_rank, searched_key, server_match, text_cmp};
ghost use Rattle.mmtel_transaction.specs.Hashes.{hash_of};

use crate::entries::{Entry, armed_by, deadline_of};
use mmtel_base::{NoMemory, Text};
use mmtel_timers::{Ranked, SearchKey};
use std::alloc::Global;
use std::cmp::Ordering;

/// A hash of bytes: equal bytes have equal hashes.
pub fn hash_of(bytes: &[u8]) -> u64
    ensures { result ≡ hash_of bytes.now }
{
    let mut sum = 0u64;
    for byte in bytes {
        sum = sum
            .wrapping_mul(1_099_511_628_211)
            .wrapping_add(u64::from(*byte));
    }
    sum
}

/// A match key: the parts by which a message finds its transaction, and the number of that transaction.
pub struct MatchKey {
    /// The hash of the branch or the Call-ID, by which match keys are ordered first, since most of these share many bytes.
    pub hash: u64,
    /// The branch, or the Call-ID.
    pub id: Text,
    /// The source of the request: the sent-by beside a branch, empty for a client transaction, or the From tag beside a Call-ID.
    pub from: Text,
    pub method: Text,
    /// The number of CSeq beside a Call-ID; 0 beside a branch.
    pub number: u32,
    /// The number of the transaction.
    pub key: u64,
}

impl Drop for MatchKey {
    fn drop(self) {
        let MatchKey {
            hash: _,
            id: _,
            from: _,
            method: _,
            number: _,
            key: _,
        } = self;
    }
}

/// A match key that is sought: of those with the same parts, the first one whose transaction has this number or a greater one.
#[derive(Clone, Copy)]
pub struct MatchKeyRef<'a> {
    pub hash: u64,
    pub id: &'a [u8],
    pub from: &'a [u8],
    pub method: &'a [u8],
    pub number: u32,
    pub key: u64,
}

/// The lexicographic combination of two comparisons: the first of them that is not equal decides.
fn or_then(first: Ordering, then: Ordering) -> Ordering
    ensures { result ≡ ordering_then first then }
{
    match first {
        Ordering::Less => Ordering::Less,
        Ordering::Equal => then,
        Ordering::Greater => Ordering::Greater,
    }
}

impl<'a> MatchKeyRef<'a> {
    /// The search key with these parts of a match key.
    pub fn of(
        id: &'a [u8],
        from: &'a [u8],
        method: &'a [u8],
        number: u32,
        key: u64,
    ) -> MatchKeyRef<'a>
        ensures { searched_key result ≡ match_key id.now from.now method.now number key }
    {
        MatchKeyRef {
            hash: hash_of(id),
            id,
            from,
            method,
            number,
            key,
        }
    }
}

/// Whether a match key comes before a search key, or after it, by its parts other than the hash.
fn text_order(name: &MatchKey, mark: &MatchKeyRef<'_>) -> Ordering
    ensures { result ≡ text_cmp name.now (searched_key mark.now) }
{
    match name.id.bytes().cmp(mark.id) {
        Ordering::Less => Ordering::Less,
        Ordering::Greater => Ordering::Greater,
        Ordering::Equal => or_then(
            name.from.bytes().cmp(mark.from),
            or_then(
                name.method.bytes().cmp(mark.method),
                or_then(name.number.cmp(&mark.number), name.key.cmp(&mark.key)),
            ),
        ),
    }
}

/// Whether a match key comes before a search key, or after it.
fn match_order(name: &MatchKey, mark: &MatchKeyRef<'_>) -> Ordering
    ensures { result ≡ match_cmp name.now (searched_key mark.now) }
{
    match name.hash.cmp(&mark.hash) {
        Ordering::Less => Ordering::Less,
        Ordering::Greater => Ordering::Greater,
        Ordering::Equal => text_order(name, mark),
    }
}

impl Ranked for MatchKey {
    ghost rank = { λ name. name.hash };

    fn rank(&self) -> u64 {
        self.hash
    }
}

impl<'a> SearchKey<MatchKey> for MatchKeyRef<'a> {
    ghost before = { λ mark name. comes_before match_cmp (searched_key mark) name };

    ghost key_rank = { λ mark. mark.hash };

    fn key_rank(&self) -> u64 {
        self.hash
    }

    fn is_before(&self, name: &MatchKey) -> bool {
        match match_order(name, self) {
            Ordering::Less => true,
            Ordering::Equal => false,
            Ordering::Greater => false,
        }
    }
}

/// The transaction number of a match key, if it is the one that is sought.
pub fn key_if(name: Option<&MatchKey>, mark: &MatchKeyRef<'_>) -> Option<u64>
    ensures { result ≡ lookup_result (is_same_match (searched_key mark.now)) (λ x. x.key) (option_copied name.entry) }
{
    match name {
        None => None,
        Some(name) => {
            if name.hash == mark.hash
                && name.id.bytes() == mark.id
                && name.from.bytes() == mark.from
                && name.method.bytes() == mark.method
                && name.number == mark.number
            {
                Some(name.key)
            } else {
                None
            }
        }
    }
}

impl MatchKey {
    /// Itself, as a search key.
    pub fn search_key(&self) -> MatchKeyRef<'_>
        ensures { searched_key result ≡ self.now }
    {
        MatchKeyRef {
            hash: self.hash,
            id: self.id.bytes(),
            from: self.from.bytes(),
            method: self.method.bytes(),
            number: self.number,
            key: self.key,
        }
    }

    /// The match key of a server transaction.
    ///
    /// # Errors
    ///
    /// Out of memory only.
    pub fn of_server(alloc: Global, entry: &Entry) -> Result<MatchKey, NoMemory>
        ensures name { IfOk result (λ name. name ≡ server_match entry.now) }
    {
        Ok(MatchKey {
            hash: hash_of(entry.head.branch.bytes()),
            id: entry.head.branch.copied(alloc)?,
            from: entry.head.sent_by.copied(alloc)?,
            method: entry.head.method.copied(alloc)?,
            number: 0,
            key: entry.key,
        })
    }

    /// The match key of a client transaction.
    ///
    /// # Errors
    ///
    /// Out of memory only.
    pub fn of_client(alloc: Global, entry: &Entry) -> Result<MatchKey, NoMemory>
        ensures name { IfOk result (λ name. name ≡ client_match entry.now) }
    {
        Ok(MatchKey {
            hash: hash_of(entry.head.branch.bytes()),
            id: entry.head.branch.copied(alloc)?,
            from: Text::new(),
            method: entry.head.method.copied(alloc)?,
            number: 0,
            key: entry.key,
        })
    }

    /// The match key with call and CSeq of the request of a server transaction.
    ///
    /// # Errors
    ///
    /// Out of memory only.
    pub fn of_call(alloc: Global, entry: &Entry) -> Result<MatchKey, NoMemory>
        ensures name { IfOk result (λ name. name ≡ call_match entry.now) }
    {
        Ok(MatchKey {
            hash: hash_of(entry.head.call_id.bytes()),
            id: entry.head.call_id.copied(alloc)?,
            from: entry.head.from_tag.copied(alloc)?,
            method: entry.head.method.copied(alloc)?,
            number: entry.head.number,
            key: entry.key,
        })
    }
}

/// The deadline key of a live transaction: the moment of its deadline, or the greatest number, and what orders those of the same moment.
#[derive(Clone, Copy)]
pub struct DeadlineKey {
    pub at: u128,
    pub step: u64,
    pub order: u128,
    pub key: u64,
}

/// Which of two deadline keys comes before the other.
fn deadline_order(one: &DeadlineKey, other: &DeadlineKey) -> Ordering
    ensures { result ≡ deadline_cmp one.now other.now }
{
    or_then(
        one.at.cmp(&other.at),
        or_then(
            one.step.cmp(&other.step),
            or_then(one.order.cmp(&other.order), one.key.cmp(&other.key)),
        ),
    )
}

impl Ranked for DeadlineKey {
    ghost rank = { λ x. moment_rank x.at };

    fn rank(&self) -> u64 {
        match u64::try_from(self.at) {
            Ok(at) => at,
            Err(_) => u64::MAX,
        }
    }
}

impl SearchKey<DeadlineKey> for DeadlineKey {
    ghost before = { λ mark x. comes_before deadline_cmp mark x };

    ghost key_rank = { λ mark. moment_rank mark.at };

    fn key_rank(&self) -> u64 {
        self.rank()
    }

    fn is_before(&self, other: &DeadlineKey) -> bool {
        match deadline_order(other, self) {
            Ordering::Less => true,
            Ordering::Equal => false,
            Ordering::Greater => false,
        }
    }
}

/// The deadline key of a transaction.
pub fn deadline_key_of(entry: &Entry) -> DeadlineKey
    ensures { result ≡ deadline_key entry.now }
{
    let at = match deadline_of(entry) {
        None => u128::MAX,
        Some(at) => at,
    };
    let (step, order) = armed_by(entry);
    DeadlineKey {
        at,
        step,
        order,
        key: entry.key,
    }
}
