//! The words of the command line, and what they ask for.
#![tactic(auto)]

mod command;
mod domain;
mod form;
mod inputs;
mod key;
mod links;
mod number;
mod prefix;
mod values;

pub use command::{Command, command_of};
pub use inputs::Inputs;
pub use links::Links;
