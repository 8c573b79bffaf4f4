//! The hasher of a code.
ghost use Rattle.std.specs.Prelude.{◌≡◌, ℕ, ◌+◌, ◌^◌, ◌<◌, ◌≤◌, ◌++◌, List, [], length};
ghost use Rattle.cesr_codes.specs.Spelling.{IsDigest};
ghost use Rattle.said_digest.specs.Digests.{digest_of};

use cesr_codes::{Digest, DigestCode};
use sha2::Digest as _;

/// Computes the digest of a code over bytes that are given in any pieces.
#[derive(Drop)]
pub(crate) enum CodedHasher {
    Blake3(blake3_hash::Hasher),
    Sha256(sha2::Sha256),
}

impl CodedHasher {
    ghost use Rattle.said_digest.specs.Hashers.{Holds, counted};

    /// A hasher of no bytes.
    pub fn new(code: DigestCode) -> CodedHasher
        ensures counted { counted result ≡ 0 }
        ensures holds { Holds code result [] }
    {
        match code {
            DigestCode::Blake3 => CodedHasher::Blake3(blake3_hash::Hasher::new()),
            DigestCode::Sha256 => CodedHasher::Sha256(sha2::Sha256::new()),
        }
    }

    /// Adds bytes.
    pub fn update(&mut self, bytes: &[u8])
        requires { counted self.old + length bytes.now < 2 ^ 64 }
        ensures counted { counted self.new ≤ counted self.old + length bytes.now }
        ensures holds { (code : DigestCode) (before : List ℕ) → Holds code self.old before
            → Holds code self.new (before ++ bytes.now) }
    {
        match self {
            CodedHasher::Blake3(hasher) => hasher.update(bytes),
            CodedHasher::Sha256(hasher) => hasher.update(bytes),
        }
    }

    /// The digest of all bytes that were given.
    pub fn finish(self) -> Digest
        ensures digest { (code : DigestCode) (bytes : List ℕ) → Holds code self bytes → result ≡ digest_of code bytes }
        ensures valid { IsDigest result }
    {
        match self {
            CodedHasher::Blake3(hasher) => Digest {
                code: DigestCode::Blake3,
                raw: hasher.finish(),
            },
            CodedHasher::Sha256(hasher) => Digest {
                code: DigestCode::Sha256,
                raw: hasher.finalize(),
            },
        }
    }
}
