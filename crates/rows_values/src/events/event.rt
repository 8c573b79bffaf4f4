//! Events, as words of rows spell them.
ghost use Rattle.std.specs.Prelude.{IfOk};
ghost use Rattle.key_state.specs.Kept.{IsKept};

use event_body::{Event, ReadBody, read_body};
use key_state::spelled_is_kept;
use std::alloc::Global;

/// The event that the text spells, of which a state can be asked.
pub(crate) fn kept_event(alloc: Global, text: &[u8]) -> Result<Event, ReadBody>
    ensures { IfOk result IsKept }
{
    spelled_is_kept();
    read_body(alloc, text)
}
