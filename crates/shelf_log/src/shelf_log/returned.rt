//! A refusal that hands the disk back.

use crate::shelf_log::ShelfFault;

/// Why a shelf wasn't opened or made, with its disk.
#[derive(Drop)]
pub struct Returned<D> {
    pub disk: D,
    pub fault: ShelfFault,
}
