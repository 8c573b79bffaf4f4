//! A real file as a disk. It shows nothing of its content: that the operating system and the device keep what is written
//! is believed, and not proved. What the file is asked is proved, over any file that shows its calls.
#![tactic(auto)]

mod disk_over;
mod file_call;
mod file_disk;
mod mem_file;
mod open_error;
mod opening;
mod raw_file;
mod real_file;
mod size_limit;
#[cfg(test)]
mod tests;
mod transfer;

pub use disk_over::DiskOver;
pub use file_call::FileCall;
pub use file_disk::FileDisk;
pub use mem_file::MemFile;
pub use open_error::OpenError;
pub use raw_file::RawFile;
pub use real_file::RealFile;
pub use size_limit::file_size_limit;
