//! Promises of keys that a plan has already.
ghost use Rattle.std.specs.Prelude.{◌≡◌, ◌||◌, Some, not, IfNone, IfOk, IfSome, OnOk};
ghost use Rattle.std.specs.BTreeSet.{contains};
ghost use Rattle.std.specs.List.{list_any};
ghost use Rattle.cesr_codes.specs.declared.digest.Digest.{Digest};
ghost use Rattle.key_state.specs.Exposure.{commits};
ghost use Rattle.key_state.specs.Same.{same_digest};
ghost use Rattle.controller_core.specs.PlanText.Drafts.{digest_cmp};
ghost use Rattle.controller_core.specs.PlanText.Promises.{AreOfNewKeys, IsFirstReuse};

use crate::plan_text::promise::Promise;
use cesr_codes::{Digest, DigestCode, Key};
use said_digest::digest_of;
use std::alloc::{AllocError, Global};
use std::collections::BTreeSet;

/// The number of the line of the first promise of a key that the plan has already: of one of these keys, or the same as an
/// earlier promise.
pub(crate) fn first_reuse(
    alloc: Global,
    keys: &[Key],
    promises: &[Promise],
) -> Result<Option<u64>, AllocError>
    ensures some { IfOk result (λ found. IfSome found (IsFirstReuse keys.now promises.now)) }
    ensures none { IfOk result (λ found. IfNone found (AreOfNewKeys keys.now promises.now)) }
{
    let mut known = commitments(alloc, keys)?;
    for promise in promises {
        if !put(&mut known, promise.digest)? {
            return Ok(Some(promise.line));
        }
    }
    Ok(None)
}

// The digests that commit to one of the keys.
fn commitments(alloc: Global, keys: &[Key]) -> Result<BTreeSet<Digest>, AllocError>
    ensures { IfOk result (λ known. (digest : Digest) → contains digest_cmp known digest
        ≡ list_any (λ key. commits (Some digest) (Some key)) keys.now) }
{
    let mut known = BTreeSet::new(alloc);
    for key in keys {
        put_commitments(&mut known, key)?;
    }
    Ok(known)
}

// Puts the digests that commit to the key.
fn put_commitments(known: &mut BTreeSet<Digest>, key: &Key) -> Result<(), AllocError>
    ensures { OnOk result ((digest : Digest) → contains digest_cmp known.new digest
        ≡ (contains digest_cmp known.old digest || commits (Some digest) (Some key.now))) }
{
    let mut text = [0; 44];
    key.write(&mut text);
    put(known, digest_of(DigestCode::Blake3, &text))?;
    put(known, digest_of(DigestCode::Sha256, &text))?;
    Ok(())
}

// Puts a digest, and answers whether it is new.
fn put(known: &mut BTreeSet<Digest>, digest: Digest) -> Result<bool, AllocError>
    ensures put { OnOk result ((other : Digest) → contains digest_cmp known.new other
        ≡ (contains digest_cmp known.old other || same_digest digest other)) }
    ensures new { IfOk result (λ is_new. is_new ≡ not (contains digest_cmp known.old digest)) }
{
    Ok(known.insert(digest)?)
}
