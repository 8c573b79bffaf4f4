//! The commands of the program, of which those over a core and the witness have crates of their own, and the one call that
//! does all that the program does.
mod backed_list;
mod check;
mod checker;
mod convert;
mod generate;
mod make;
mod make_parts;
mod message_due;
mod message_line;
mod program;
mod reads;
mod rehearse;
mod serves;
mod signs;
mod sizes;
mod text_reader;

pub use backed_list::backed;
pub use program::run;
pub use run_status::{Close, Done, ReaderEnd, Runs};
