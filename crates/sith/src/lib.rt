//! Signing thresholds: how they are spelled as JSON values, and which sets of key indices meet them.
#![tactic(auto)]

mod decimal;
mod divisors;
mod form;
mod member;
mod own_value;
mod reader;
mod rules;
mod signers;
mod sith_fault;
mod sum;
mod term;
mod threshold;
mod threshold_value;
mod weight;

pub use sith_fault::SithFault;
pub use term::Term;
pub use threshold::Threshold;
pub use weight::Weight;
