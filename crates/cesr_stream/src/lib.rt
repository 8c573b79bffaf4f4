//! Items and messages of a CESR stream.
#![tactic(auto)]

mod anchor_couple;
mod assembler;
mod bad;
mod begun_group;
mod begun_item;
mod begun_wrap;
mod body;
mod counter;
mod couple;
mod domain_writer;
mod element;
mod elements;
mod group;
mod item;
mod kept;
mod message;
mod pair;
mod primitive;
mod progress;
mod reader;
mod seen;
mod step;
mod stop;
mod writable;
mod writable_element;
mod write;

pub use anchor_couple::AnchorCouple;
pub use assembler::Assembler;
pub use bad::{Bad, BadReason};
pub use couple::Couple;
pub use domain_writer::DomainWriter;
pub use group::Group;
pub use item::Item;
pub use message::Message;
pub use reader::Reader;
pub use seen::Seen;
pub use step::Step;
pub use write::{write_in_domain, write_item};
