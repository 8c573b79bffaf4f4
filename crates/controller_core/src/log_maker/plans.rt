//! Events of a log before they have their digests.
ghost use Rattle.std.specs.Prelude.{◌≡◌, ◌+◌, ◌<◌, ◌^◌, ◌∷◌, [], IfOk};
ghost use Rattle.event_body.specs.EventWriting.Writable.{IsWritable};
ghost use Rattle.controller_core.specs.LogMaker.Names.{log_witness as witness_at};
ghost use Rattle.controller_core.specs.LogMaker.Plans as specs;

use crate::log_maker::names::{key_digest, log_key, log_witness};
use cesr_codes::{Digest, DigestCode, Key, Prefix};
use event_body::{Event, Inception, Interaction, Rotation};
use lists::Items;
use sith::Threshold;
use std::alloc::{AllocError, Global};

/// What stands in the place of a digest that isn't known yet.
pub(crate) const BLANK: Digest = Digest {
    code: DigestCode::Blake3,
    raw: [0; 32],
};

// One value.
fn one<T: Drop>(alloc: Global, value: T) -> Result<Items<T>, AllocError>
    ensures { IfOk result (λ items. items ≡ value ∷ []) }
{
    let mut items = Items::new(alloc);
    items.push(value)?;
    Ok(items)
}

// The four witnesses of a log.
fn witnesses(alloc: Global, seed: u64, log: u64) -> Result<Items<Key>, AllocError>
    ensures { IfOk result (λ items. items
        ≡ witness_at seed log 0 ∷ witness_at seed log 1 ∷ witness_at seed log 2 ∷ witness_at seed log 3 ∷ []) }
{
    let first = log_witness(alloc, seed, log, 0)?;
    let second = log_witness(alloc, seed, log, 1)?;
    let third = log_witness(alloc, seed, log, 2)?;
    let fourth = log_witness(alloc, seed, log, 3)?;
    Ok(Items::from_vec(vec![in alloc; first, second, third, fourth]?))
}

/// The inception of a log.
#[tactic(auto, unfolding(crate::specs::LogMaker::Plans::inception))]
pub(crate) fn inception(alloc: Global, seed: u64, log: u64) -> Result<Event, AllocError>
    ensures plan { IfOk result (λ event. event ≡ specs.inception seed log) }
    ensures writable { IfOk result IsWritable }
{
    let key = log_key(alloc, seed, log, 0)?;
    let next = key_digest(alloc, seed, log, 1)?;
    let keys = one(alloc, key)?;
    let next = one(alloc, next)?;
    let list = witnesses(alloc, seed, log)?;
    Ok(Event::Icp(Inception {
        said: BLANK,
        prefix: Prefix::Said(BLANK),
        kt: Threshold::Count(1),
        keys,
        nt: Threshold::Count(1),
        next,
        toad: 3,
        list,
        traits: Items::new(alloc),
        anchors: Items::new(alloc),
        delegator: None,
    }))
}

/// A rotation to the key of this number.
#[tactic(auto, unfolding(crate::specs::LogMaker::Plans::rotation))]
pub(crate) fn rotation(
    alloc: Global,
    seed: u64,
    log: u64,
    number: u64,
    sn: u64,
    first: Digest,
    prior: Digest,
) -> Result<Event, AllocError>
    requires { number + 1 < 2 ^ 64 }
    ensures plan { IfOk result (λ event. event ≡ specs.rotation seed log number sn first prior) }
    ensures writable { IfOk result IsWritable }
{
    let key = log_key(alloc, seed, log, number)?;
    let next = key_digest(alloc, seed, log, number + 1)?;
    let keys = one(alloc, key)?;
    let next = one(alloc, next)?;
    Ok(Event::Rot(Rotation {
        said: BLANK,
        prefix: Prefix::Said(first),
        sn,
        prior,
        kt: Threshold::Count(1),
        keys,
        nt: Threshold::Count(1),
        next,
        toad: 3,
        cuts: Items::new(alloc),
        adds: Items::new(alloc),
        anchors: Items::new(alloc),
    }))
}

/// An interaction without anchors.
#[tactic(auto, unfolding(crate::specs::LogMaker::Plans::interaction))]
pub(crate) fn interaction(alloc: Global, sn: u64, first: Digest, prior: Digest) -> Event
    ensures plan { result ≡ specs.interaction sn first prior }
    ensures writable { IsWritable result }
{
    Event::Ixn(Interaction {
        said: BLANK,
        prefix: Prefix::Said(first),
        sn,
        prior,
        anchors: Items::new(alloc),
    })
}
