//! What is answered to a plan: the message of its event, or why there is none.
mod answer;
mod message_text;
mod read_log;

pub use answer::{PlanAnswer, answer_plan};
pub use read_log::ReadLog;
