//! Why a witness doesn't start.

use journal::ResumeFault;
use shelf_log::{Disk, Shelf};

/// A shelf with which no witness starts, as it was, and why.
#[derive(Drop)]
pub struct StartFault<D: Disk> {
    pub shelf: Shelf<D>,
    pub fault: ResumeFault,
}
