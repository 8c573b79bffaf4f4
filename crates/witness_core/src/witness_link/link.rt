//! A link whose messages a witness takes.
ghost use Rattle.std.specs.Prelude.{◌≡◌, false};
ghost use Rattle.keri_outside.specs.Shown.{sink_shown};
ghost use Rattle.witness_core.specs.WitnessLink.Links.{shown_noting};
ghost use Rattle.witness_core.specs.WitnessLink.Serving.{ServesOne};

use crate::witness_link::Witnessing;
use crate::witness_link::closes::close_of;
use crate::witness_link::notes::Notes;
use crate::witness_link::receipts::put_receipts;
use cesr_stream::Message;
use keri_outside::{Failed, Sink};
use run_status::{Close, Taker};
use std::alloc::AllocError;

/// What serves a link, its sink, and what notes its messages, lent by the caller.
#[derive(Drop)]
pub(crate) struct Link<'w, 'k, 'n, W, K> {
    pub(crate) service: &'w mut W,
    pub(crate) sink: &'k mut K,
    pub(crate) notes: &'n mut Notes,
}

impl<'w, 'k, 'n, W: Witnessing, K: Sink> Taker for Link<'w, 'k, 'n, W, K> {
    ghost use Rattle.witness_core.specs.WitnessLink.Offered.{HasTaken, HasStopped};

    type Stop = Close;

    ghost has_taken = { HasTaken W.seen K.written K.faults };

    ghost has_stopped = { HasStopped W.seen K.written K.faults };

    fn take(&mut self, message: Message) -> Result<(), Close> {
        serve(
            &mut *self.service,
            &mut *self.sink,
            &mut *self.notes,
            &message,
        )
    }
}

// Takes a message, notes what becomes of it, and puts its receipts.
fn serve<W: Witnessing, K: Sink>(
    service: &mut W,
    sink: &mut K,
    notes: &mut Notes,
    message: &Message,
) -> Result<(), Close>
    ensures { (W.seen service.old).witness.broken ≡ false → ServesOne message.now result
        (shown_noting (W.seen service.old) (sink_shown K.written K.faults sink.old) notes.old)
        (shown_noting (W.seen service.new) (sink_shown K.written K.faults sink.new) notes.new) }
{
    service.sound();
    match notes.make_place() {
        Ok(()) => {}
        Err(AllocError) => return Err(Close::OutOfMemory),
    }
    match service.take(message) {
        Ok(outcome) => {
            service.sound();
            notes.note(message.place, outcome.fate);
            match put_receipts(sink, outcome.receipts.as_slice()) {
                Ok(()) => Ok(()),
                Err(Failed) => Err(Close::WriteFault),
            }
        }
        Err(fault) => Err(close_of(fault)),
    }
}
