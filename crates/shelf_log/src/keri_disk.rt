//! A file on a disk, as a trait that says what a crash at any moment may leave of it, and its form in memory.
mod disk;
mod disk_call;
mod mem_disk;
mod overwrite;
mod replay;
mod shape;

pub use disk::Disk;
pub use mem_disk::MemDisk;
pub use shape::Shape;
