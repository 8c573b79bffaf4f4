//! Whom two validators that differ have to blame.
#![tactic(auto)]

mod blame_core;

pub use blame_core::{Blame, Culprit, blame, blame_lines};
