//! Sources, sinks and doors over any reader, writer and listener: what a program does at its edge, but for the naming of std's types.
#![tactic(auto)]

mod door_over;
mod ending;
mod file_room;
mod link_act;
mod listen;
mod mem_listener;
mod sink_over;
mod source_over;
mod steady;

pub use door_over::DoorOver;
pub use ending::exit_code;
pub use file_room::{room_in_file, write_within};
pub use link_act::LinkAct;
pub use listen::{Handle, Listen};
pub use mem_listener::{MemHandle, MemListener, MemReader, MemWriter};
pub use sink_over::SinkOver;
pub use source_over::SourceOver;
pub use steady::{SteadyRead, SteadyWrite};
