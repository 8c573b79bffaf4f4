//! The chaining values of the subtrees that wait for their right siblings.
ghost use Rattle.std.specs.Prelude.{◌≡◌, ℕ, ◌+◌, ◌*◌, ◌/◌, ◌%◌, ◌^◌, ◌<◌, ◌≤◌, List, length};
ghost use Rattle.blake3_hash.specs.Compression.{root};
ghost use Rattle.blake3_hash.specs.Stack.{Completes, EndsAfter, HasSubtrees, root_flag, subtree, tree_from};
ghost use Rattle.blake3_hash.specs.Tree.{tree};

use crate::flags::root_flag;
use crate::parent::parent_value;

// A tree of 2^54 chunks has more bytes than can be counted.
const HEIGHTS: usize = 54;

/// The subtrees over the chunks so far that are whole and have no right sibling yet, by height: as
/// in the count of chunks, in binary, at most one of 1, 2, 4, .. chunks.
#[derive(Drop)]
pub(crate) struct Stack {
    values: [[u32; 8]; HEIGHTS],
    count: u64,
    ghost few: { count < 2 ^ 54 },
}

impl Stack {
    pub(crate) fn new() -> Stack
        ensures empty { result.count ≡ 0 }
        ensures subtrees { (bytes : List ℕ) → HasSubtrees result.values result.count bytes }
    {
        Stack {
            values: [[0; 8]; HEIGHTS],
            count: 0,
        }
    }

    /// How many chunks were pushed.
    pub(crate) fn count(&self) -> u64
        ensures { result ≡ self.now.count }
    {
        self.count
    }

    // The subtree that the next one completes, and its height. The next one has the height `least`, and all chunks before it
    // are in `before` such subtrees. Each subtree that waits just below becomes a left child, as a carry runs through the
    // ones of a binary count.
    fn completed(&self, least: usize, before: u64, next: [u32; 8]) -> (usize, [u32; 8])
        requires whole { self.now.count ≡ before * 2 ^ least }
        requires few { (before + 1) * 2 ^ least < 2 ^ 54 }
        ensures low { result.0 < 54 }
        ensures completes { Completes result.0 self.now.count ((before + 1) * 2 ^ least) }
        ensures subtree { (bytes : List ℕ) → 1024 * ((before + 1) * 2 ^ least) ≤ length bytes
            → HasSubtrees self.now.values self.now.count bytes → next ≡ subtree least before bytes
            → result.1 ≡ subtree result.0 (self.now.count / 2 ^ result.0) bytes }
    {
        let mut value = next;
        let mut left = before;
        let mut height = least;
        'merges: while left % 2 == 1 {
            value = parent_value(&self.values[height], &value, 0);
            left /= 2;
            height += 1;
        }
        (height, value)
    }

    /// Adds the next chunk.
    pub(crate) fn push(&mut self, chunk: [u32; 8])
        requires { self.old.count + 1 < 2 ^ 54 }
        ensures counted { self.new.count ≡ self.old.count + 1 }
        ensures subtrees { (bytes : List ℕ) → 1024 * (self.old.count + 1) ≤ length bytes
            → HasSubtrees self.old.values self.old.count bytes → chunk ≡ subtree 0 self.old.count bytes
            → HasSubtrees self.new.values self.new.count bytes }
    {
        let (height, value) = self.completed(0, self.count, chunk);
        self.values[height] = value;
        self.count += 1;
    }

    /// Adds the next eight chunks, whose tree's value is given, where the chunks before are eights too.
    pub(crate) fn push8(&mut self, eight: [u32; 8])
        requires eights { self.old.count % 8 ≡ 0 }
        requires few { self.old.count + 8 < 2 ^ 54 }
        ensures counted { self.new.count ≡ self.old.count + 8 }
        ensures subtrees { (bytes : List ℕ) → 1024 * (self.old.count + 8) ≤ length bytes
            → HasSubtrees self.old.values self.old.count bytes → eight ≡ subtree 3 (self.old.count / 8) bytes
            → HasSubtrees self.new.values self.new.count bytes }
    {
        let (height, value) = self.completed(3, self.count / 8, eight);
        self.values[height] = value;
        self.count += 8;
    }

    /// The root, where the tree over the bytes after the pushed chunks is one chunk.
    pub(crate) fn root(&self, last: [u32; 8]) -> [u32; 8]
        ensures { (bytes : List ℕ) → EndsAfter self.now.count bytes → HasSubtrees self.now.values self.now.count bytes
            → last ≡ tree_from 0 self.now.count bytes (root_flag self.now.count)
            → result ≡ tree 0 bytes root }
    {
        let mut value = last;
        let mut left = self.count;
        let mut height = 0;
        'merges: while left > 0 {
            let waits = left % 2 == 1;
            left /= 2;
            if waits {
                value = parent_value(&self.values[height], &value, root_flag(left));
            }
            height += 1;
        }
        value
    }
}
