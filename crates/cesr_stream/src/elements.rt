//! Elements one behind the other.
ghost use Rattle.std.specs.Prelude.{◌≡◌, ◌≤◌, ◌+◌, OnOk, IfErr, length, drop, flat_map};
ghost use Rattle.cesr_stream.specs.Begun.{AreRead};
ghost use Rattle.cesr_stream.specs.Front.{elements_part};
ghost use Rattle.cesr_stream.specs.Stops.{Halts};

use crate::element::Element;
use crate::pair::less;
use crate::progress::Progress;
use crate::stop::Stop;
use lists::Items;

/// Reads the elements that are left, as far as they are there, where so much of a wrap is left from the first one on.
pub(crate) fn read_elements<E: Element>(
    bytes: &[u8],
    room: Option<usize>,
    elements: &mut Items<E>,
    progress: &mut Progress,
) -> Result<(), Stop>
    requires { AreRead E.judged room bytes.now (length elements.old) (flat_map E.text elements.old) progress.old }
    ensures read { AreRead E.judged room bytes.now (length elements.new) (flat_map E.text elements.new) progress.new }
    ensures counted { length elements.new + progress.new.left ≡ length elements.old + progress.old.left }
    ensures all { OnOk result (progress.new.left ≡ 0) }
    ensures err { IfErr result (Halts bytes.now
        (elements_part E.judged (length elements.old + progress.old.left) room bytes.now)) }
{
    while progress.left > 0 {
        let place = progress.place;
        match E::at_front(behind(bytes, place), less(room, place)) {
            Ok((element, length)) => {
                elements.push(element)?;
                progress.left -= 1;
                progress.place = place + length;
            }
            Err(stop) => return Err(stop.behind(place)),
        }
    }
    Ok(())
}

/// The bytes from a place on.
pub(crate) fn behind(bytes: &[u8], place: usize) -> &[u8]
    requires { place ≤ length bytes.now }
    ensures { result.now ≡ drop place bytes.now }
{
    bytes.split_at(place).1
}
