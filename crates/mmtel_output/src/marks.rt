//! The marks by which a call or a conference is found without examining each: the branches and the transactions of its INVITEs, and the server's tags of its dialogs.
ghost use Rattle.std.specs.Prelude.{◌≡◌};
ghost use Rattle.mmtel_output.specs.Marks.{key_of};

/// A mark, by which a call or a conference is found. Bytes are hashed, and other bytes may have the same hash: so an owner that is found by a mark is examined whether it is the
/// right one.
#[derive(Clone, Copy)]
pub enum Mark {
    /// The branch of an INVITE that the server sent.
    Branch(u64),
    /// The client transaction of an INVITE that got a response.
    ClientTransaction(u64),
    /// The server transaction of an INVITE that a side sent.
    ServerTransaction(u64),
    /// The server's tag in a dialog.
    LocalTag(u64),
}

/// A mark with the number of an owner, in the order in which they are kept.
#[derive(Clone, Copy, Debug, PartialEq, Eq, PartialOrd, Ord)]
pub struct Key {
    /// The kind of the mark.
    pub kind: u64,
    /// Its hash or number.
    pub hash: u64,
    /// The number of the call or of the conference that has it.
    pub owner: u64,
}

impl Key {
    /// The mark of the owner of this number.
    pub fn of(mark: Mark, owner: u64) -> Key
        ensures { result ≡ key_of mark owner }
    {
        match mark {
            Mark::Branch(told) => Key {
                kind: 0,
                hash: told,
                owner,
            },
            Mark::ClientTransaction(told) => Key {
                kind: 1,
                hash: told,
                owner,
            },
            Mark::ServerTransaction(told) => Key {
                kind: 2,
                hash: told,
                owner,
            },
            Mark::LocalTag(told) => Key {
                kind: 3,
                hash: told,
                owner,
            },
        }
    }
}
