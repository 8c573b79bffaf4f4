//! The distinct keys of two lists.
ghost use Rattle.std.specs.Prelude.{◌≡◌, ◌+◌, ◌≤◌, ◌||◌, not, length};
ghost use Rattle.key_state.specs.Same.{same_key, has_key, distinct};
ghost use Rattle.quorum_laws.specs.Agreement.{union};

use cesr_codes::Key;
use key_state::has_key;

// Whether the key is in neither list.
fn is_new(known: &[Key], earlier: &[Key], key: &Key) -> bool
    ensures { result ≡ not (has_key known.now key.now || has_key earlier.now key.now) }
{
    !has_key(known, key) && !has_key(earlier, key)
}

// How many distinct keys the list adds to the known ones.
fn added(known: &[Key], keys: &[Key]) -> u32
    requires { length keys.now ≤ 64 }
    ensures added { length (distinct same_key known.now) + result ≡ length (union known.now keys.now) }
    ensures few { result ≤ length keys.now }
{
    let mut count = 0;
    for i in 0..keys.len() {
        if is_new(known, &keys[..i], &keys[i]) {
            count += 1;
        }
    }
    count
}

/// The number of distinct keys of both lists, which have at most 64 keys each. It takes no memory.
#[tactic(auto, unfolding(key_state::specs::Same::distinct))]
pub fn union_size(first: &[Key], second: &[Key]) -> u32
    requires few_first { length first.now ≤ 64 }
    requires few_second { length second.now ≤ 64 }
    ensures size { result ≡ length (union first.now second.now) }
    ensures few { result ≤ length first.now + length second.now }
{
    added(&[], first) + added(first, second)
}
