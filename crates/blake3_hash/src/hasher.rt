//! Bytes hashed piece by piece.
ghost use Rattle.std.specs.Prelude.{◌≡◌, ℕ, ◌+◌, ◌*◌, ◌^◌, ◌<◌, ◌≤◌, ◌++◌, ◌%◌, List, [], length, take};
ghost use Rattle.blake3_hash.specs.Tree.{blake3};

use crate::chunk::{CHUNK_LEN, chunk_value};
use crate::chunk_lanes::{GROUP_LEN, lanes8};
use crate::flags::root_flag;
use crate::parent_lanes::tree8;
use crate::stack::Stack;
use crate::words::bytes_of;

/// Hashes bytes that are given in any pieces.
#[derive(Drop)]
pub struct Hasher {
    stack: Stack,
    // The open chunk. It is closed only when more bytes are there, since the last one may be the root.
    chunk: [u8; CHUNK_LEN],
    used: usize,
    ghost in_chunk: { used ≤ 1024 },
    ghost countable: { 1024 * stack.count + used < 2 ^ 64 },
}

impl Hasher {
    ghost use Rattle.blake3_hash.specs.Hasher.{HasBytes, Holds, total};

    /// A hasher of no bytes.
    pub fn new() -> Hasher
        ensures total { total result ≡ 0 }
        ensures holds { Holds result [] }
    {
        Hasher {
            stack: Stack::new(),
            chunk: [0; CHUNK_LEN],
            used: 0,
        }
    }

    // Puts bytes into the open chunk, which has room for them.
    fn keep(&mut self, bytes: &[u8])
        requires room { self.old.used + length bytes.now ≤ 1024 }
        requires countable { total self.old + length bytes.now < 2 ^ 64 }
        ensures used { self.new.used ≡ self.old.used + length bytes.now }
        ensures count { self.new.stack.count ≡ self.old.stack.count }
        ensures has { (before : List ℕ) → HasBytes self.old before → HasBytes self.new (before ++ bytes.now) }
    {
        let end = self.used + bytes.len();
        self.chunk[self.used..end].copy_from_slice(bytes);
        self.used = end;
    }

    // Closes the open chunk, which is full.
    fn close(&mut self)
        requires { self.old.used ≡ 1024 }
        ensures used { self.new.used ≡ 0 }
        ensures count { self.new.stack.count ≡ self.old.stack.count + 1 }
        ensures has { (before : List ℕ) → HasBytes self.old before → HasBytes self.new before }
    {
        let value = chunk_value(self.stack.count(), &self.chunk, 0);
        self.stack.push(value);
        self.used = 0;
    }

    // Adds a whole chunk where none is open.
    fn add_chunk(&mut self, chunk: &[u8])
        requires whole { length chunk.now ≡ 1024 }
        requires none_open { self.old.used ≡ 0 }
        requires countable { total self.old + 1024 < 2 ^ 64 }
        ensures used { self.new.used ≡ 0 }
        ensures count { self.new.stack.count ≡ self.old.stack.count + 1 }
        ensures has { (before : List ℕ) → HasBytes self.old before → HasBytes self.new (before ++ chunk.now) }
    {
        let value = chunk_value(self.stack.count(), chunk, 0);
        self.stack.push(value);
    }

    // Adds the first chunks of eight whole ones where none is open.
    fn add_first(&mut self, group: &[u8; GROUP_LEN], chunks: usize)
        requires eight { chunks ≤ 8 }
        requires none_open { self.old.used ≡ 0 }
        requires countable { total self.old + 1024 * chunks < 2 ^ 64 }
        ensures used { self.new.used ≡ 0 }
        ensures count { self.new.stack.count ≡ self.old.stack.count + chunks }
        ensures has { (before : List ℕ) → HasBytes self.old before
            → HasBytes self.new (before ++ take (1024 * chunks) group.now) }
    {
        let values = lanes8(group, self.stack.count());
        'values: for i in 0..chunks {
            self.stack.push(values[i]);
        }
    }

    // Adds eight whole chunks where none is open, and those before are eights.
    fn add_eight(&mut self, group: &[u8; GROUP_LEN])
        requires eights { self.old.stack.count % 8 ≡ 0 }
        requires none_open { self.old.used ≡ 0 }
        requires countable { total self.old + 8192 < 2 ^ 64 }
        ensures used { self.new.used ≡ 0 }
        ensures count { self.new.stack.count ≡ self.old.stack.count + 8 }
        ensures has { (before : List ℕ) → HasBytes self.old before → HasBytes self.new (before ++ group.now) }
    {
        let eight = tree8(group, self.stack.count());
        self.stack.push8(eight);
    }

    // Adds eight whole chunks where none is open.
    fn add_group(&mut self, group: &[u8; GROUP_LEN])
        requires none_open { self.old.used ≡ 0 }
        requires countable { total self.old + 8192 < 2 ^ 64 }
        ensures used { self.new.used ≡ 0 }
        ensures count { self.new.stack.count ≡ self.old.stack.count + 8 }
        ensures has { (before : List ℕ) → HasBytes self.old before → HasBytes self.new (before ++ group.now) }
    {
        if self.stack.count() % 8 == 0 {
            self.add_eight(group);
        } else {
            self.add_first(group, 8);
        }
    }

    // Adds eight whole chunks where none is open, and leaves the last one open.
    fn add_last_group(&mut self, group: &[u8; GROUP_LEN])
        requires none_open { self.old.used ≡ 0 }
        requires countable { total self.old + 8192 < 2 ^ 64 }
        ensures total { total self.new ≡ total self.old + 8192 }
        ensures open { 0 < self.new.used }
        ensures has { (before : List ℕ) → HasBytes self.old before → HasBytes self.new (before ++ group.now) }
    {
        self.add_first(group, 7);
        self.keep(&group[GROUP_LEN - CHUNK_LEN..]);
    }

    /// Adds bytes.
    pub fn update(&mut self, bytes: &[u8])
        requires countable { total self.old + length bytes.now < 2 ^ 64 }
        ensures total { total self.new ≡ total self.old + length bytes.now }
        ensures holds { (before : List ℕ) → Holds self.old before → Holds self.new (before ++ bytes.now) }
    {
        let room = CHUNK_LEN - self.used;
        if bytes.len() <= room {
            self.keep(bytes);
            return;
        }
        if self.used == 0 {
            self.add_chunks(bytes);
            return;
        }
        let (front, rest) = bytes.split_at(room);
        self.keep(front);
        self.close();
        self.add_chunks(rest);
    }

    // Adds bytes where no chunk is open, eight chunks at a time, and leaves the last one open.
    fn add_chunks(&mut self, bytes: &[u8])
        requires some { 0 < length bytes.now }
        requires none_open { self.old.used ≡ 0 }
        requires countable { total self.old + length bytes.now < 2 ^ 64 }
        ensures total { total self.new ≡ total self.old + length bytes.now }
        ensures open { 0 < self.new.used }
        ensures has { (before : List ℕ) → HasBytes self.old before → HasBytes self.new (before ++ bytes.now) }
    {
        let groups = (bytes.len() - 1) / GROUP_LEN;
        'groups: for n in 0..groups {
            self.add_group(group_of(&bytes[GROUP_LEN * n..GROUP_LEN * n + GROUP_LEN]));
        }
        let rest = &bytes[GROUP_LEN * groups..];
        if rest.len() == GROUP_LEN {
            self.add_last_group(group_of(rest));
        } else {
            self.add_each(rest);
        }
    }

    // The same, one chunk at a time.
    fn add_each(&mut self, bytes: &[u8])
        requires some { 0 < length bytes.now }
        requires none_open { self.old.used ≡ 0 }
        requires countable { total self.old + length bytes.now < 2 ^ 64 }
        ensures total { total self.new ≡ total self.old + length bytes.now }
        ensures open { 0 < self.new.used }
        ensures has { (before : List ℕ) → HasBytes self.old before → HasBytes self.new (before ++ bytes.now) }
    {
        let closed = (bytes.len() - 1) / CHUNK_LEN;
        'chunks: for n in 0..closed {
            self.add_chunk(&bytes[CHUNK_LEN * n..CHUNK_LEN * n + CHUNK_LEN]);
        }
        self.keep(&bytes[CHUNK_LEN * closed..]);
    }

    /// The digest of all bytes that were given, which may be followed by more.
    pub fn finish(&self) -> [u8; 32]
        ensures digest { (bytes : List ℕ) → Holds self.now bytes → result ≡ blake3 bytes }
    {
        let count = self.stack.count();
        let last = chunk_value(count, &self.chunk[..self.used], root_flag(count));
        bytes_of(&self.stack.root(last))
    }
}

// The bytes of eight chunks.
fn group_of(bytes: &[u8]) -> &[u8; GROUP_LEN]
    requires { length bytes.now ≡ 8192 }
    ensures { result.now ≡ bytes.now }
{
    match bytes.as_array() {
        Some(group) => group,
        None => unreachable!(),
    }
}

/// The digest of bytes that are given at once.
pub fn digest(bytes: &[u8]) -> [u8; 32]
    ensures digest { result ≡ blake3 bytes.now }
{
    let mut hasher = Hasher::new();
    hasher.update(bytes);
    hasher.finish()
}
