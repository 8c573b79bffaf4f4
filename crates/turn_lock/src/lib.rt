//! A lock whose history is known: each turn appends at most one entry, and each pass knows its share of the history.
#![tactic(auto)]

mod attempt;
mod history_values;
mod pass;
mod rule;
mod send_sync;
mod spent;
mod stage;
mod steps;
#[cfg(test)]
mod tests;
mod turn;
mod view;

pub use history_values::Replayed;
pub use pass::Pass;
pub use spent::Spent;
pub use turn::Turn;
