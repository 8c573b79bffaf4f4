//! Taking the items that are whole.
ghost use Rattle.std.specs.Prelude.{◌≡◌, None, IfOk, IfErr, OnOk};
ghost use Rattle.run_status.specs.MessageFeed.Serving.{GoesOn, GoesUntil, HandsOn, StopsWith, feeding};

use crate::message_feed::Taker;
use crate::message_feed::halt::Halt;
use cesr_stream::{Assembler, Bad, Item, Reader, Step};

/// Takes the messages of all items that are whole, and answers why the stream is refused, where it is.
pub(crate) fn take_items<T: Taker>(
    reader: &mut Reader,
    assembler: &mut Assembler,
    taker: &mut T,
) -> Result<Option<Bad>, Halt<T::Stop>>
    ghost first: { T }
    requires not_bad { reader.old.bad ≡ None }
    ensures stops { IfOk result (λ bad. StopsWith bad reader.new) }

    // Whatever was fed, of that the messages that are ended were taken, where it was so before.
    ensures ok { OnOk result (GoesOn (T.has_taken first) (feeding reader.old assembler.old taker.old)
        (feeding reader.new assembler.new taker.new)) }
    ensures err { IfErr result (λ halt. GoesUntil (T.has_taken first) (T.has_stopped first) halt
        (feeding reader.old assembler.old taker.old) (feeding reader.new assembler.new taker.new)) }
{
    loop {
        match reader.next() {
            Ok(Step::NeedMore) => return Ok(None),
            Ok(Step::Bad(bad)) => return Ok(Some(bad)),
            Ok(Step::Item(item, place)) => match hand_on(assembler, taker, item, place) {
                Ok(()) => {}
                Err(halt) => return Err(halt),
            },
            Err(error) => return Err(Halt::from(error)),
        }
    }
}

// Pushes an item, and hands the message that it ends to the taker.
fn hand_on<T: Taker>(
    assembler: &mut Assembler,
    taker: &mut T,
    item: Item,
    place: u64,
) -> Result<(), Halt<T::Stop>>
    ghost first: { T }
    ensures { HandsOn (T.has_taken first) (T.has_stopped first) item place assembler.old assembler.new taker.old
        taker.new result }
{
    match assembler.push(item, place)? {
        None => Ok(()),
        Some(message) => match taker.take(message) {
            Ok(()) => Ok(()),
            Err(stop) => Err(Halt::Stopped(stop)),
        },
    }
}
