//! What a program reads, writes, asks and has signed, as traits that say what their objects tell.
#![tactic(auto)]

mod caller;
mod door;
mod failed;
mod gate;
mod inquiry;
mod limits;
mod mem_door;
mod mem_gate;
mod mem_link;
mod mem_signer;
mod mem_sink;
mod mem_source;
mod mem_verifier;
mod open_gate;
mod rehearsal;
mod signer;
mod signing;
mod sink;
mod source;
mod steps;
mod verdict_rule;
mod verifier;

pub use caller::Caller;
pub use door::Door;
pub use failed::Failed;
pub use gate::Gate;
pub use inquiry::Inquiry;
pub use limits::Limits;
pub use mem_door::MemDoor;
pub use mem_gate::MemGate;
pub use mem_link::MemLink;
pub use mem_signer::MemSigner;
pub use mem_sink::MemSink;
pub use mem_source::MemSource;
pub use mem_verifier::MemVerifier;
pub use open_gate::OpenGate;
pub use rehearsal::{Rehearsal, rehearse};
pub use signer::Signer;
pub use signing::Signing;
pub use sink::Sink;
pub use source::Source;
pub use steps::Steps;
pub use verdict_rule::VerdictRule;
pub use verifier::Verifier;
