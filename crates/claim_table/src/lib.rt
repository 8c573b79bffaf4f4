//! The claims on bodies with their verdicts, and the laws of a core.
#![tactic(auto)]

mod claim_table;

pub use claim_table::{BodyNumbers, ClaimTable, Claimed, FEW, Parts, Row, Signature};
