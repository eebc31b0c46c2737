//! A keeper in memory, or over a journal or a database in files, by the path: bound again, and to a path of none of these.

use crate::keeping::{add_contents, add_record, add_result, add_rows};
use mmtel_keeper::Keeper;
use mmtel_stored_keepers::StoreKeeper;
use mmtel_test_tables::{RowRunner, Transcript, wrong_line};

/// A keeper whose calls a table makes, and another. Both have to be closed.
struct Stored<'a> {
    keeper: StoreKeeper<'a>,
    other: StoreKeeper<'a>,
}

/// Binds a keeper, and writes the result.
fn add_bound(transcript: &mut Transcript, keeper: &mut StoreKeeper<'_>, path: &[u8]) {
    let done = keeper.bind(transcript.alloc, path);
    add_result(transcript, done);
}

impl RowRunner for Stored<'_> {
    fn run_row(&mut self, transcript: &mut Transcript, asked: &[u8]) {
        match asked {
            [b'b', path @ ..] => add_bound(transcript, &mut self.keeper, path),
            [b'o', path @ ..] => add_bound(transcript, &mut self.other, path),
            [b's', account] => add_record(transcript, &mut self.keeper, *account),
            [b'a', digits @ ..] => add_rows(transcript, &mut self.keeper, digits),
            _ => add_contents(transcript, &mut self.keeper),
        }
        transcript.add(b"\n");
    }
}

/// `b` binds the keeper to the path after it, and `o` another keeper; `s` stores the record for the account of a digit, `a` adds the rows of two digits, `h` writes the contents.
const STORING: &[u8] = b"> s1
failed
> bjournal:keeper.journal
ok
> s2
ok
> a12
ok
> h
2:38.12
> bjournal:keeper.journal
ok
> h
2:38.12
> ojournal:keeper.journal
failed
> bstore.db
ok
> h

> s3
ok
> a34
ok
> ojournal:keeper.journal
ok
> bjournal:keeper.journal
failed
> ojournal:other.journal
ok
> bjournal:keeper.journal
ok
> a56
ok
> h
2:38.1256
> bstore.db
ok
> h
3:38.34
> b:memory:
ok
> h

> s5
ok
> a78
ok
> o:memory:
ok
> h
5:38.78
> b:memory:
ok
> h

> bjournal:no/folder/keeper.journal
failed
> s4
failed
> bjournal:
failed
> bjournal:store.db
failed
> bkeeper.journal
failed
> bjournal:keeper.journal
ok
> h
2:38.1256
> bstore.db
ok
> h
3:38.34
";

/// The first line of the table that is wrong.
fn wrong_stored(rt: &HostRuntime, table: &[u8]) -> usize {
    let mut stored = Stored {
        keeper: StoreKeeper::new(rt),
        other: StoreKeeper::new(rt),
    };
    let wrong = wrong_line(rt.alloc(), &mut stored, table);
    let Stored { keeper, other } = stored;
    keeper.close();
    other.close();
    wrong
}

#[test]
fn stores_in_files(rt: HostRuntime) {
    assert_eq!(rt; wrong_stored(&rt, STORING), 0);
}
