//! Lists and hexadecimal numbers, and definitions that the contracts of all rooms cite.
#![tactic(auto)]

mod hex_numbers;
mod lists;

pub use hex_numbers::{all_hex, hex_value, is_hex_number, saturating_hex_value};
pub use lists::{CopyValue, Items, copy_items, length_u32};
