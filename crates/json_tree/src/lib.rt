//! Compact JSON values: their one spelling, and the value that stands at the front of some bytes.
#![tactic(auto)]

mod front;
mod grammar;
mod number;
mod string;
mod tree;
mod tree_fault;
mod value_reader;
mod value_text;

pub use grammar::is_json;
pub use string::is_json_string;
pub use tree::{Member, Text, Tree};
pub use tree_fault::TreeFault;
pub use value_reader::read_tree;
pub use value_text::tree_text;
