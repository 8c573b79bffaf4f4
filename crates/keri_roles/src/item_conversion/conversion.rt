//! How a conversion ended.

use run_status::Close;

/// Why no more of the source was read, and whether the sink failed.
#[derive(Clone, Copy, PartialEq, Eq, Debug)]
pub struct Conversion {
    pub close: Close,
    pub sink_failed: bool,
}
