//! The lines that the commands write, and the report of a core: the events that it accepted, the state of each identifier, the
//! events that wait, and the conflicts.
#![tactic(auto)]

mod bad_word;
mod code_word;
mod conflicts;
mod core_standing;
mod fault_word;
mod lines;
mod log_lines;
mod logs;
mod plan_refusal;
mod plan_word;
mod reader_lines;
mod reason_word;
mod row;
mod rows;
mod sizes;
mod standing;
mod state_sizes;
mod stream_counts;
mod wait_lines;
mod why_word;

pub use core_standing::{CoreStanding, standing_of};
pub use lines::{
    WORDS, accepted_line, conflict_line, event_line, plan_line, state_line, stream_line, waits_line,
};
pub use plan_refusal::PlanRefusal;
pub use reader_lines::{
    full_line, malformed_line, read_fault_line, refused_line, verifier_fault_line,
};
pub use sizes::Sizes;
pub use standing::Standing;
pub use state_sizes::StateSizes;
pub use stream_counts::StreamCounts;
