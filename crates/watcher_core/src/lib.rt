//! A watcher: the evidence that a core holds of signed bodies that conflict.
#![tactic(auto)]

mod bodies;
mod evidence;
mod evidence_fault;
mod messages;
mod signatures;
mod watcher;

pub use evidence::{Evidence, evidence_of};
pub use evidence_fault::EvidenceFault;
pub use watcher::Watcher;
