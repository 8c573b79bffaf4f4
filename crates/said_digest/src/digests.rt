//! Digests of bytes, and of bytes with places replaced.
ghost use Rattle.std.specs.Prelude.{◌≡◌, ◌↔◌, IsTrue};
ghost use Rattle.cesr_codes.specs.Spelling.{IsDigest};
ghost use Rattle.said_digest.specs.Digests as digests;
ghost use Rattle.said_digest.specs.Digests.{said};
ghost use Rattle.said_digest.specs.Replaced.{LieIn};

use crate::coded_hasher::CodedHasher;
use crate::placeholder::piece_at;
use cesr_codes::{Digest, DigestCode};

/// The digest of the bytes.
pub fn digest_of(code: DigestCode, bytes: &[u8]) -> Digest
    ensures digest { result ≡ digests.digest_of code bytes.now }
    ensures valid { IsDigest result }
{
    let mut hasher = CodedHasher::new(code);
    hasher.update(bytes);
    hasher.finish()
}

/// The digest of the bytes where each of the 44 characters at each place is `#`. Places may touch,
/// overlap and come in any order.
pub fn said_of(code: DigestCode, bytes: &[u8], places: &[u32]) -> Digest
    requires { LieIn bytes.now places.now }
    ensures digest { result ≡ said code bytes.now places.now }
    ensures valid { IsDigest result }
{
    let mut hasher = CodedHasher::new(code);
    let mut at = 0;
    'pieces: while at < bytes.len() {
        let piece = piece_at(bytes, places, at);
        hasher.update(piece);
        at += piece.len();
    }
    hasher.finish()
}

/// Whether the digest is that of the bytes with the places replaced, under its own code.
pub fn holds(bytes: &[u8], places: &[u32], digest: &Digest) -> bool
    requires { LieIn bytes.now places.now }
    ensures { IsTrue result ↔ (digest.now ≡ said digest.now.code bytes.now places.now) }
{
    said_of(digest.code, bytes, places) == *digest
}
