//! The rehearsal: signatures that anyone can make, for trying things out.
ghost use Rattle.std.specs.Prelude.{◌≡◌};
ghost use Rattle.keri_outside.specs.Rehearsal.{rehearsed};

use crate::{Failed, Signer, Verifier};
use cesr_codes::{Key, Sig};
use sha2::{Digest as _, Sha512};

/// A verifier and a signer that never fails and gives no security: it gives the rehearsal's signatures, and says yes to them alone.
#[derive(Clone, Copy, PartialEq, Eq, Debug, Drop)]
pub struct Rehearsal;

/// The rehearsal's signature of a key on a body: the SHA-512 of `keri rehearsal`, the key's 44 characters and the body.
pub fn rehearse(key: &Key, body: &[u8]) -> Sig
    ensures { result ≡ rehearsed key.now body.now }
{
    let mut text = [0u8; 44];
    key.write(&mut text);
    let mut hasher = Sha512::new();
    hasher.update(b"keri rehearsal".as_slice());
    hasher.update(text.as_slice());
    hasher.update(body);
    Sig {
        raw: hasher.finalize(),
    }
}

impl Verifier for Rehearsal {
    ghost use Rattle.std.specs.Prelude.{None};
    ghost use Rattle.keri_outside.specs.Rehearsal.{rehearsal_says};

    ghost says = { λ _. rehearsal_says };

    ghost inquiries = { λ _. None };

    ghost faults = { λ _. 0 };

    fn ask(&mut self, key: &Key, body: &[u8], sig: &Sig) -> Result<bool, Failed> {
        Ok(rehearse(key, body).raw == sig.raw)
    }
}

impl Signer for Rehearsal {
    ghost use Rattle.std.specs.Prelude.{None};
    ghost use Rattle.keri_outside.specs.Rehearsal.{rehearsal_gives};

    ghost gives = { λ _. rehearsal_gives };

    ghost signings = { λ _. None };

    ghost faults = { λ _. 0 };

    fn sign(&mut self, key: &Key, body: &[u8]) -> Result<Sig, Failed> {
        Ok(rehearse(key, body))
    }
}
