//! Parents of the tree (BLAKE3 specification, section 2.5).
ghost use Rattle.std.specs.Prelude.{◌≡◌, ◌++◌};
ghost use Rattle.blake3_hash.specs.Tree.{parent_value};

use crate::compression::{IV, compress};
use crate::flags::PARENT;

/// The chaining value of the parent of two, whose chaining values are given, with `flags` besides.
#[tactic(auto, unfolding(crate::specs::Tree::parent_value))]
pub(crate) fn parent_value(left: &[u32; 8], right: &[u32; 8], flags: u32) -> [u32; 8]
    ensures { result ≡ parent_value left.now right.now flags }
{
    let words = joined(left, right);
    compress(&IV, &words, 0, 64, PARENT | flags)
}

// The message of a parent: its children's chaining values.
fn joined(left: &[u32; 8], right: &[u32; 8]) -> [u32; 16]
    ensures { result ≡ left.now ++ right.now }
{
    [
        left[0], left[1], left[2], left[3], left[4], left[5], left[6], left[7], right[0], right[1],
        right[2], right[3], right[4], right[5], right[6], right[7],
    ]
}
