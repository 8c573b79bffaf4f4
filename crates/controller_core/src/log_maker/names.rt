//! The keys of a log, by their numbers.
ghost use Rattle.std.specs.Prelude.{◌≡◌, IfOk};
ghost use Rattle.sha2.specs.Sha256.{sha256};
ghost use Rattle.controller_core.specs.LogMaker.Names as specs;

use cesr_codes::{Digest, DigestCode, Key, KeyCode};
use said_digest::digest_of;
use sha2::{Digest as _, Sha256};
use std::alloc::{AllocError, Global};

// The SHA2-256 of a word and three numbers.
fn raw(alloc: Global, word: &str, seed: u64, log: u64, number: u64) -> Result<[u8; 32], AllocError>
    ensures { IfOk result (λ raw. raw ≡ sha256 (specs.key_name word.now seed log number)) }
{
    let name = format!(in alloc; "{word} {seed} {log} {number}")?;
    Ok(Sha256::digest(name.as_bytes()))
}

/// The signing key of this number in a log.
pub(crate) fn log_key(alloc: Global, seed: u64, log: u64, number: u64) -> Result<Key, AllocError>
    ensures { IfOk result (λ key. key ≡ specs.log_key seed log number) }
{
    Ok(Key {
        code: KeyCode::Rotating,
        raw: raw(alloc, "key", seed, log, number)?,
    })
}

/// The witness of this number in a log.
pub(crate) fn log_witness(
    alloc: Global,
    seed: u64,
    log: u64,
    number: u64,
) -> Result<Key, AllocError>
    ensures { IfOk result (λ key. key ≡ specs.log_witness seed log number) }
{
    Ok(Key {
        code: KeyCode::Fixed,
        raw: raw(alloc, "wit", seed, log, number)?,
    })
}

/// The digest of the signing key of this number.
pub(crate) fn key_digest(
    alloc: Global,
    seed: u64,
    log: u64,
    number: u64,
) -> Result<Digest, AllocError>
    ensures { IfOk result (λ digest. digest ≡ specs.key_digest seed log number) }
{
    let key = log_key(alloc, seed, log, number)?;
    let mut text = [0u8; 44];
    key.write(&mut text);
    Ok(digest_of(DigestCode::Blake3, &text))
}
