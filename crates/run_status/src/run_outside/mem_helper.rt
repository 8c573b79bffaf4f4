//! Helpers of an outside in memory.

use keri_outside::VerdictRule;
use lists::Items;

/// A helper of a name: the rule of its verifiers, which asks of each, counted from 0, fail, and which signings of each of its
/// signers do, which give the rehearsal's signatures.
#[derive(Drop)]
pub struct MemHelper {
    pub name: Items<u8>,
    pub rule: VerdictRule,
    pub failing_asks: Items<u64>,
    pub failing_signings: Items<u64>,
}
