//! What the type of a name holds by itself, stated for proofs: a proof learns a value's range where the value is read. Nothing
//! else is done here.
ghost use Rattle.std.specs.Prelude.{◌<◌, ◌^◌};
ghost use Rattle.event_backing.specs.EventSeals.{IsEventSeal};

use crate::tables::Name;
use cesr_codes::Spelled;

fn number(_number: u64)
    ensures { _number < 2 ^ 64 }
{}

/// The parts of a name are in the ranges of an event seal's.
pub(crate) fn in_range(name: Name)
    ensures { IsEventSeal (record { prefix = name.prefix; sn = name.sn; said = name.said }) }
{
    name.prefix.in_range();
    number(name.sn);
    name.said.in_range();
}
