//! Where the first good signature of each key came.
ghost use Rattle.std.specs.Prelude.{◌≡◌, IfOk, None, OnOk, Some, position, if◌then◌else◌};
ghost use Rattle.std.specs.BTreeMap.{get, is_at};
ghost use Rattle.std.specs.List.{list_any};
ghost use Rattle.blame_core.specs.BlameCore.FirstSignatures as first;
ghost use Rattle.blame_core.specs.BlameCore.FirstSignatures.{is_signed, key_cmp, sig_cmp};
ghost use Rattle.cesr_codes.specs.declared.key.Key.{Key as KeyValue};
ghost use Rattle.cesr_codes.specs.declared.sig.Sig.{Sig as SigValue};
ghost use Rattle.key_state.specs.Same.{same_sig};

use crate::blame_core::signed::Signed;
use cesr_codes::{Key, Sig};
use std::alloc::{AllocError, Global};
use std::collections::BTreeMap;

/// Of each key the place where the first of its good signatures came, where one did. It goes over each list once, whatever
/// their keys and signatures are.
pub(crate) fn first_places(
    alloc: Global,
    came: &[Sig],
    good: &[Signed],
) -> Result<BTreeMap<Key, usize>, AllocError>
    ensures { IfOk result (λ firsts. (key : KeyValue) → get key_cmp firsts key
        ≡ position (λ sig. list_any (is_signed key sig) good.now) came.now) }
{
    let places = sig_places(alloc, came)?;
    let mut firsts = BTreeMap::new(alloc);
    for signed in good {
        note_good(&mut firsts, &places, signed)?;
    }
    Ok(firsts)
}

// Of each signature the place where it came first.
fn sig_places(alloc: Global, came: &[Sig]) -> Result<BTreeMap<Sig, usize>, AllocError>
    ensures { IfOk result (λ places. (sig : SigValue) → get sig_cmp places sig
        ≡ position (λ other. same_sig other sig) came.now) }
{
    let mut places = BTreeMap::new(alloc);
    for place in 0..came.len() {
        lower(&mut places, came[place], Some(place))?;
    }
    Ok(places)
}

// Notes where a good signature came, where it did, unless an earlier one of its key is noted.
fn note_good(
    firsts: &mut BTreeMap<Key, usize>,
    places: &BTreeMap<Sig, usize>,
    signed: &Signed,
) -> Result<(), AllocError>
    ensures { OnOk result ((key : KeyValue) → get key_cmp firsts.new key ≡ first.earlier (get key_cmp firsts.old key)
        (first.place_for signed.now (get sig_cmp places.now) key)) }
{
    lower(firsts, signed.key, place_came(places, &signed.sig))
}

// The place of a signature, where it came.
fn place_came(places: &BTreeMap<Sig, usize>, sig: &Sig) -> Option<usize>
    ensures { result ≡ get sig_cmp places.now sig.now }
{
    places.get(sig).copied()
}

// Notes the place of a key, where there is one, unless an earlier one is noted.
fn lower<K: Ord + Copy + Drop>(
    places: &mut BTreeMap<K, usize>,
    key: K,
    place: Option<usize>,
) -> Result<(), AllocError>
    ensures { OnOk result ((k : K) → get K.cmp places.new k
        ≡ first.earlier (get K.cmp places.old k) (if is_at (K.cmp key) k then place else None)) }
{
    if let Some(least) = earlier(places.get(&key).copied(), place) {
        places.insert(key, least)?;
    }
    Ok(())
}

// The lesser of two places, where there are two.
fn earlier(one: Option<usize>, other: Option<usize>) -> Option<usize>
    ensures { result ≡ first.earlier one other }
{
    match (one, other) {
        (Some(one), Some(other)) => { if one <= other { Some(one) } else { Some(other) } }
        (Some(one), None) => Some(one),
        (None, other) => other,
    }
}
