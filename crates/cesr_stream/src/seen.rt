//! When an event was first seen.

use cesr_codes::{Moment, Number};

/// The number of an event in the order of first seeing, and the date-time.
#[derive(Clone, Copy, PartialEq, Eq, Hash, Debug)]
pub struct Seen {
    pub number: Number,
    pub moment: Moment,
}
