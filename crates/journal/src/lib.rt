//! What a core was told, and the rules by which an event is accepted.
#![tactic(auto)]

mod event_rules;
mod journal;

pub use event_rules::{
    Additions, ClaimSupport, Support, Verdicts, claimed_key, claimed_sig, delegator_of,
    has_witness, is_backed, is_behind, meets_before, meets_own, reveal_of, signing_keys, takes,
    toad_of, witness, witness_count,
};
pub use journal::{
    Body, Claim, Conflict, Entry, Journal, Mode, Noted, Question, Reason, Refusal, Reply,
    ResumeFault, Why,
};
