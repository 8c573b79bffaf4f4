//! What a state asks of an event that follows it: who signs it, who witnesses it, and whether that is enough.
mod additions;
mod claim_support;
mod delegation;
mod order;
mod own_rules;
mod places;
mod signers;
mod support;
mod thresholds;
mod verdicts;
mod witness_list;
mod witnesses;

pub use additions::{Additions, reveal_of};
pub use claim_support::ClaimSupport;
pub use delegation::delegator_of;
pub use order::{is_behind, takes};
pub use signers::{claimed_key, claimed_sig, signing_keys};
pub use support::Support;
pub use thresholds::{is_backed, meets_before, meets_own};
pub use verdicts::Verdicts;
pub use witnesses::{has_witness, toad_of, witness, witness_count};
