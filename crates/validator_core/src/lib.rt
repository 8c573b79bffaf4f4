//! A validator's core: what is accepted, asked and in conflict, of all that it was told.
#![tactic(auto)]

mod acceptance;
mod table_changes;
mod tables;
mod validator_core;

pub use acceptance::{Footing, counts, footing_of, is_ready, is_there, why_waits};
pub use journal::{
    Claim, Conflict, Entry, Journal, Mode, Noted, Question, Reason, Reply, ResumeFault, Why,
};
pub use table_changes::{accept, accept_ready, enter_body, enter_claims, enter_verdict};
pub use tables::{
    AcceptedLog, ClaimKey, Mark, Name, Place, SealKey, Tables, claims_by, name_of, prior_name,
};
pub use validator_core::{Core, VerdictFault, claims_of, core_is_send, judge_message};
