//! The characters that stand in the place of a digest while it is computed.
ghost use Rattle.std.specs.Prelude.{◌≡◌, ◌↔◌, ℕ, ◌+◌, ◌<◌, ◌≤◌, ◌++◌, length, take, All, Contains, IfSome, IfNone, IsTrue};
ghost use Rattle.said_digest.specs.Replaced.{LieIn, replaced};

// How many characters a digest has.
const LENGTH: usize = 44;

// What stands for a digest while it is computed (KERI: self-addressing identifiers).
const PLACEHOLDER: [u8; LENGTH] = [b'#'; LENGTH];

// Whether the character at `at` is one of those at the place.
fn covers(place: u32, at: usize) -> bool
    ensures { IsTrue result ↔ ((place ≤ at) × (at < place + 44)) }
{
    let place = place as usize;
    place <= at && at < place + LENGTH
}

// The placeholder without its first characters.
fn placeholder_after(skipped: usize) -> &'static [u8]
    requires { skipped < 44 }
    ensures length { skipped + length result.now ≡ 44 }
    ensures all { All (λ character. character ≡ 35) result.now }
{
    &PLACEHOLDER[skipped..]
}

// A place whose characters include the one at `at`.
fn place_over(places: &[u32], at: usize) -> Option<usize>
    ensures some { IfSome result (λ place. Contains places.now place × (place ≤ at) × (at < place + 44)) }
    ensures none { IfNone result (All (λ place. place ≤ at → place + 44 ≤ at) places.now) }
{
    for place in places {
        if covers(*place, at) {
            return Some(*place as usize);
        }
    }
    None
}

// The first place after `at`, or `end` where there is none before it.
fn next_place(places: &[u32], at: usize, end: usize) -> usize
    requires { at < end }
    ensures within { (at < result) × (result ≤ end) }
    ensures next { All (λ place. at < place → result ≤ place) places.now }
{
    let mut next = end;
    for place in places {
        let place = *place as usize;
        if at < place {
            next = next.min(place);
        }
    }
    next
}

/// A piece of the bytes with the places replaced: what follows the first `at` of them.
pub(crate) fn piece_at<'a>(bytes: &'a [u8], places: &[u32], at: usize) -> &'a [u8]
    requires places { LieIn bytes.now places.now }
    requires at { at < length bytes.now }
    ensures some { 0 < length result.now }
    ensures within { at + length result.now ≤ length bytes.now }
    ensures next { take (at + length result.now) (replaced bytes.now places.now)
        ≡ take at (replaced bytes.now places.now) ++ result.now }
{
    match place_over(places, at) {
        Some(place) => placeholder_after(at - place),
        None => &bytes[at..next_place(places, at, bytes.len())],
    }
}
