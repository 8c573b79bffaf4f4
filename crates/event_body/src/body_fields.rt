//! Bodies as JSON objects: the fields of each kind, read in order and written back.
mod body_text;
mod field;
mod field_values;
mod fields;
mod fields_fault;
mod form;
mod front;
mod kind;
mod member;
mod primitive;
mod strings;
mod trees;

pub use body_text::{LARGEST, write_fields};
pub use field::Field;
pub use field_values::{
    digest_in, digests_in, fixed_keys_in, keys_in, members_in, number_in, prefix_in, strings_in,
    values_in,
};
pub use fields::{Fields, read_fields};
pub use fields_fault::FieldsFault;
pub use form::Form;
pub use kind::Kind;
pub use trees::{digest_tree, digests_tree, keys_tree, number_tree, prefix_tree, strings_tree};
