//! Texts: lists of bytes.
ghost use Rattle.std.specs.Prelude.{◌≡◌, ◌≤◌, ◌+◌, ◌++◌, List, [], IfOk, OnOk, OnErr, ℕ, length};
ghost use Rattle.std.specs.Bool.{OnTrue, OnFalse};
ghost use Rattle.mmtel_base.specs.Storage.{inline_bytes, stored_bytes};

use crate::lists::List;
use crate::memory::NoMemory;
use std::alloc::Global;
use std::marker::Model;

/// How many bytes a text stores in itself; more are stored in an allocation.
const INLINE_CAPACITY: usize = 30;

/// The first `len` bytes of an array.
#[derive(Debug, Drop)]
struct InlineBytes {
    len: u8,
    array: [u8; INLINE_CAPACITY],
}

impl InlineBytes {
    /// How many bytes are stored; never more than the array has.
    fn len(&self) -> usize
        ensures len { result ≡ length (inline_bytes self.now) }
        ensures within { result ≤ 30 }
    {
        usize::from(self.len).min(INLINE_CAPACITY)
    }

    /// The bytes.
    fn bytes(&self) -> &[u8]
        ensures { result.now ≡ inline_bytes self.now }
    {
        &self.array[..self.len()]
    }

    /// How many more bytes the array has space for.
    fn remaining(&self) -> usize
        ensures { result + length (inline_bytes self.now) ≡ 30 }
    {
        INLINE_CAPACITY - self.len()
    }

    /// Appends bytes; whether there was space for them.
    fn push(&mut self, bytes: &[u8]) -> bool
        ensures added { OnTrue result (inline_bytes self.new ≡ inline_bytes self.old ++ bytes.now) }
        ensures full { OnFalse result (self.new ≡ self.old) }
    {
        if bytes.len() > self.remaining() {
            return false;
        }
        let from = self.len();
        let end = from + bytes.len();
        self.array[from..end].copy_from_slice(bytes);
        self.len = end as u8;
        true
    }
}

/// Where the bytes of a text are stored: in the text, or in an allocation.
#[derive(Debug, Drop)]
enum Storage {
    Inline(InlineBytes),
    Heap(Vec<u8>),
}

/// Bytes, in the value or in an allocation; contracts see the list of them.
#[derive(Debug)]
struct StoredBytes {
    storage: Storage,
}

impl Drop for StoredBytes {
    fn drop(self) {
        let StoredBytes { storage: _ } = self;
    }
}

impl Model for StoredBytes {
    ghost use Rattle.std.specs.Prelude.{List, ℕ};

    ghost Value = { List ℕ };

    ghost use Rattle.mmtel_base.specs.Storage.{stored_bytes};

    ghost view = { λ b. stored_bytes b.storage };
}

/// These bytes, stored in the text.
fn inline_storage(bytes: &[u8]) -> Storage
    requires { length bytes.now ≤ 30 }
    ensures { stored_bytes result ≡ bytes.now }
{
    let len = bytes.len();
    let mut room = [0; INLINE_CAPACITY];
    room[..len].copy_from_slice(bytes);
    Storage::Inline(InlineBytes {
        len: len as u8,
        array: room,
    })
}

/// These bytes, in an allocation with capacity for that many more.
fn heap_bytes(alloc: Global, bytes: &[u8], more: usize) -> Result<Vec<u8>, NoMemory>
    ensures { IfOk result (λ kept. kept.items ≡ bytes.now) }
{
    let room = bytes.len().saturating_add(more).max(2 * INLINE_CAPACITY);
    let mut kept = Vec::with_capacity(alloc, room)?;
    kept.extend_from_slice(bytes)?;
    Ok(kept)
}

impl StoredBytes {
    fn none() -> StoredBytes
        ensures { result ≡ [] }
    {
        StoredBytes {
            storage: Storage::Inline(InlineBytes {
                len: 0,
                array: [0; INLINE_CAPACITY],
            }),
        }
    }

    fn with_capacity(alloc: Global, len: usize) -> Result<StoredBytes, NoMemory>
        ensures empty { IfOk result (λ b. b ≡ []) }
    {
        if len <= INLINE_CAPACITY {
            return Ok(StoredBytes::none());
        }
        let kept = Vec::with_capacity(alloc, len)?;
        Ok(StoredBytes {
            storage: Storage::Heap(kept),
        })
    }

    fn of(alloc: Global, bytes: &[u8]) -> Result<StoredBytes, NoMemory>
        ensures { IfOk result (λ b. b ≡ bytes.now) }
    {
        if bytes.len() <= INLINE_CAPACITY {
            return Ok(StoredBytes {
                storage: inline_storage(bytes),
            });
        }
        let kept = Vec::from_slice(alloc, bytes)?;
        Ok(StoredBytes {
            storage: Storage::Heap(kept),
        })
    }

    fn push(&mut self, alloc: Global, bytes: &[u8]) -> Result<(), NoMemory>
        ensures ok { OnOk result (self.new ≡ self.old ++ bytes.now) }
        ensures err { OnErr result (self.new ≡ self.old) }
    {
        match &mut self.storage {
            Storage::Heap(kept) => {
                kept.extend_from_slice(bytes)?;
                Ok(())
            }
            Storage::Inline(short) => {
                if short.push(bytes) {
                    return Ok(());
                }
                let mut kept = heap_bytes(alloc, short.bytes(), bytes.len())?;
                kept.extend_from_slice(bytes)?;
                self.storage = Storage::Heap(kept);
                Ok(())
            }
        }
    }

    fn reserve(&mut self, alloc: Global, more: usize) -> Result<(), NoMemory>
        ensures same { self.new ≡ self.old }
    {
        match &mut self.storage {
            Storage::Heap(kept) => {
                kept.reserve(more)?;
                Ok(())
            }
            Storage::Inline(short) => {
                if more <= short.remaining() {
                    return Ok(());
                }
                let kept = heap_bytes(alloc, short.bytes(), more)?;
                self.storage = Storage::Heap(kept);
                Ok(())
            }
        }
    }

    fn bytes(&self) -> &[u8]
        ensures { result.now ≡ self.now }
    {
        match &self.storage {
            Storage::Heap(kept) => kept.as_slice(),
            Storage::Inline(short) => short.bytes(),
        }
    }
}

/// A list of bytes, which contracts see as a list of numbers below 256.
///
/// A short text allocates nothing.
#[derive(Debug, Drop)]
pub struct Text {
    kept: StoredBytes,
}

impl Model for Text {
    ghost use Rattle.std.specs.Prelude.{List, ℕ};

    ghost Value = { List ℕ };

    ghost view = { λ t. t.kept };
}

impl Text {
    /// An empty text. It allocates nothing.
    pub fn new() -> Text
        ensures { result ≡ [] }
    {
        Text {
            kept: StoredBytes::none(),
        }
    }

    /// An empty text, with capacity for this many bytes.
    ///
    /// # Errors
    ///
    /// Out of memory only.
    pub fn with_capacity(alloc: Global, len: usize) -> Result<Text, NoMemory>
        ensures empty { IfOk result (λ text. text ≡ []) }
    {
        let kept = StoredBytes::with_capacity(alloc, len)?;
        Ok(Text { kept })
    }

    /// A text of these bytes.
    ///
    /// # Errors
    ///
    /// Out of memory only.
    pub fn of(alloc: Global, bytes: &[u8]) -> Result<Text, NoMemory>
        ensures { IfOk result (λ text. text ≡ bytes.now) }
    {
        let kept = StoredBytes::of(alloc, bytes)?;
        Ok(Text { kept })
    }

    /// Appends the bytes.
    ///
    /// # Errors
    ///
    /// Out of memory only; the text is then as before.
    pub fn push(&mut self, alloc: Global, bytes: &[u8]) -> Result<(), NoMemory>
        ensures ok { OnOk result (self.new ≡ self.old ++ bytes.now) }
        ensures err { OnErr result (self.new ≡ self.old) }
    {
        self.kept.push(alloc, bytes)
    }

    /// Reserves capacity for that many more bytes, so that appending them does not move those that are there.
    ///
    /// # Errors
    ///
    /// Out of memory only.
    pub fn reserve(&mut self, alloc: Global, more: usize) -> Result<(), NoMemory>
        ensures same { self.new ≡ self.old }
    {
        self.kept.reserve(alloc, more)
    }

    /// The bytes.
    pub fn bytes(&self) -> &[u8]
        ensures { result.now ≡ self.now }
    {
        self.kept.bytes()
    }

    /// A copy of the text.
    ///
    /// # Errors
    ///
    /// Out of memory only.
    pub fn copied(&self, alloc: Global) -> Result<Text, NoMemory>
        ensures copy { IfOk result (λ text. text ≡ self.now) }
    {
        Text::of(alloc, self.bytes())
    }
}

/// A copy of the texts, in order.
///
/// # Errors
///
/// Out of memory only.
pub fn copied_texts(alloc: Global, texts: &[Text]) -> Result<List<Text>, NoMemory>
    ensures copy { IfOk result (λ list. list ≡ texts.now) }
{
    let mut copy = List::new();
    for text in texts {
        let text = text.copied(alloc)?;
        copy.push(alloc, text)?;
    }
    Ok(copy)
}
