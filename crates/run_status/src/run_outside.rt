//! All that a run of the program reaches, as one trait, and its form in memory.
mod addresses;
mod disks;
mod files;
mod helpers;
mod making;
mod mem_address;
mod mem_disk_file;
mod mem_file;
mod mem_helper;
mod mem_outside;
mod mem_peer;
mod whole_outside;

pub use making::{Making, MakingKind};
pub use mem_address::MemAddress;
pub use mem_disk_file::MemDiskFile;
pub use mem_file::MemFile;
pub use mem_helper::MemHelper;
pub use mem_outside::MemOutside;
pub use mem_peer::MemPeer;
pub use whole_outside::Outside;
