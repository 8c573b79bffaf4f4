//! What a run hands back.

use crate::run_outside::Outside;
use crate::run_status::ReaderEnd;
use journal::Journal;
use keri_outside::Door;

/// The status where there was no memory.
pub const NO_MEMORY: u8 = 10;

/// The status of a run, what was told in it, its readers in order, its signer, its disk, the disk of an old shelf and its
/// door, where it made them, and the sinks of the links that it read. `blame` alone has a second journal, of its second file.
#[derive(Drop)]
pub struct Done<O: Outside> {
    pub status: u8,
    pub journal: Journal,
    pub second: Option<Journal>,
    pub readers: Vec<ReaderEnd<O::Source, O::Verifier>>,
    pub signer: Option<O::Signer>,
    pub disk: Option<O::Disk>,
    pub old: Option<O::Disk>,
    pub door: Option<O::Door>,
    /// The sinks of links, in the readers' order.
    pub sinks: Vec<<O::Door as Door>::Sink>,
}
