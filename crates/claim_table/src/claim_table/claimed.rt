//! Claims: a key's signature on a body, and what it adds once a verifier says yes.
ghost use Rattle.std.specs.Prelude.{◌≡◌};
ghost use Rattle.claim_table.specs.ClaimTable.Rows.{signature_of};

use crate::claim_table::signature::Signature;
use cesr_codes::{Key, Sig};

/// What a claim adds once a verifier says yes.
#[derive(Clone, Copy, PartialEq, Eq, Debug)]
pub struct Parts {
    /// The index among the signing keys, of a controller's signature.
    pub index: Option<u16>,
    /// The place of the commitment to a next key that the signature reveals.
    pub reveal: Option<u16>,
    /// The place of its key in the event's own list of witnesses.
    pub backer: Option<u16>,
}

/// A claim on the body of a number.
#[derive(Clone, Copy, PartialEq, Eq, Debug)]
pub struct Claimed {
    pub body: u32,
    pub key: Key,
    pub sig: Sig,
    pub parts: Parts,
}

impl Claimed {
    /// The claim's signature.
    pub fn signature(&self) -> Signature
        ensures { result ≡ signature_of self.now }
    {
        Signature {
            body: self.body,
            key: self.key,
            sig: self.sig,
        }
    }
}
