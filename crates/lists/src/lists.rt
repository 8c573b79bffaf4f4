//! The list type of the values that contracts compare: a `Vec` that is seen as its list of elements. And lengths as numbers.
mod copies;
mod copy_value;
mod items;
mod lengths;

pub use copies::copy_items;
pub use copy_value::CopyValue;
pub use items::Items;
pub use lengths::length_u32;
