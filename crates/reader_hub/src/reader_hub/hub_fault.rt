//! Why a hub gives no answer.

use thiserror::Error;

/// Why a hub gives no answer.
#[derive(Clone, Copy, PartialEq, Eq, Debug, Error)]
pub enum HubFault {
    /// All turns were taken: so many.
    #[error("all {0} turns were taken")]
    Spent(u64),
    #[error("no memory")]
    OutOfMemory,
}
