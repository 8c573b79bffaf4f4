//! How a reader ends where the hub gives no answer.
ghost use Rattle.std.specs.Prelude.{◌≡◌};
ghost use Rattle.reader_hub.specs.SharedReader.Asks.{ended_by};

use crate::reader_hub::HubFault;
use run_status::Close;

/// The ending by a fault of the hub: that all turns were taken is a limit that was reached.
pub(crate) fn ending_of(fault: HubFault) -> Close
    ensures { result ≡ ended_by fault }
{
    match fault {
        HubFault::Spent(_) => Close::LimitReached,
        HubFault::OutOfMemory => Close::OutOfMemory,
    }
}
