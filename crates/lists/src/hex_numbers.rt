//! Lower-case hexadecimal numbers.
mod numbers;

pub use numbers::{all_hex, hex_value, is_hex_number, saturating_hex_value};
