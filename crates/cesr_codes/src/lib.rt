//! Primitives of CESR: values, and the characters that spell them.
#![tactic(auto)]

mod character;
mod code;
mod code_fault;
mod digest;
mod fixed_key;
mod indexed_code;
mod indexed_sig;
mod key;
mod moment;
mod number;
mod prefix;
mod primitive;
mod shape;
mod sig;
mod spelled;
mod symbols;
mod text;

pub use character::{digit, is_symbol};
pub use code_fault::CodeFault;
pub use digest::{Digest, DigestCode};
pub use fixed_key::FixedKey;
pub use indexed_sig::IndexedSig;
pub use key::{Key, KeyCode};
pub use moment::Moment;
pub use number::Number;
pub use prefix::Prefix;
pub use sig::Sig;
pub use spelled::{Spelled, all_in_range, of_text};
