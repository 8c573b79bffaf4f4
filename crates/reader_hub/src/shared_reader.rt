//! One reader of a core that several readers may share: it offers the messages of its source in order, and asks its
//! verifier behind each what is open, but for what another reader is asking, and behind the last all that is open.
mod endings;
mod hub_taker;
mod offers;
mod questions;
mod reader;

pub use reader::{ReadOne, Reader, read_one};
