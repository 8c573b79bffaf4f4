//! One primitive behind another.
ghost use Rattle.std.specs.Prelude.{◌≡◌};
ghost use Rattle.cesr_stream.specs.Front.{pair_part, primitive_part};
ghost use Rattle.cesr_stream.specs.Judged.{JudgesElement, pair_text};
ghost use Rattle.cesr_stream.specs.Parts.{less};

use crate::elements::behind;
use crate::primitive::{Primitive, read_primitive};
use crate::stop::Stop;

/// The two primitives at the front, where so much of a wrap is left, or how the front is judged.
pub(crate) fn read_pair<P: Primitive, Q: Primitive>(
    bytes: &[u8],
    room: Option<usize>,
) -> Result<((P, Q), usize), Stop>
    ensures { JudgesElement (pair_part (primitive_part P.layouts P.judge) (primitive_part Q.layouts Q.judge) room)
        (pair_text P.spelling Q.spelling) bytes.now result }
{
    match read_primitive::<P>(bytes, room) {
        Ok((first, head)) => {
            match read_primitive::<Q>(behind(bytes, head), less(room, head)) {
                Ok((second, length)) => Ok(((first, second), head + length)),
                Err(stop) => Err(stop.behind(head)),
            }
        }
        Err(stop) => Err(stop),
    }
}

/// What is left of a wrap behind so many bytes.
pub(crate) fn less(room: Option<usize>, bytes: usize) -> Option<usize>
    ensures { result ≡ less bytes room }
{
    match room {
        None => None,
        Some(room) => Some(room.saturating_sub(bytes)),
    }
}
