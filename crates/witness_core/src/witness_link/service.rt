//! The call that serves a link.
ghost use Rattle.std.specs.Prelude.{◌≡◌, false};
ghost use Rattle.keri_outside.specs.Shown.{sink_shown, source_shown};
ghost use Rattle.witness_core.specs.WitnessLink.Offered.{Finishes, LendsSame, TakesLast, link_shown};
ghost use Rattle.witness_core.specs.WitnessLink.Served.{ServesLink, ServesLinkTo, ServesNoting};

use crate::witness_link::link::Link;
use crate::witness_link::notes::Notes;
use crate::witness_link::{LinkEnd, Witnessing};
use cesr_stream::Message;
use keri_outside::{Limits, Sink, Source};
use run_status::{Close, FeedClose, Taker, feed_messages};
use std::alloc::Global;

/// Serves a link: a witness takes the messages that the source gives, in order, and puts the receipts of these on the
/// sink, in order.
pub fn serve_link<S: Source, W: Witnessing, K: Sink>(
    alloc: Global,
    service: &mut W,
    source: &mut S,
    sink: &mut K,
    limits: Limits,
) -> LinkEnd
    requires { (W.seen service.old).witness.broken ≡ false }
    ensures { ServesLinkTo limits (source_shown S.left S.faults source.old) (source_shown S.left S.faults source.new)
        (W.seen service.old) (W.seen service.new)
        (sink_shown K.written K.faults sink.old) (sink_shown K.written K.faults sink.new) result }
{
    let mut notes = Notes::new(alloc);
    let close = serve_noting(alloc, service, source, sink, limits, &mut notes);
    let Notes { refused, seen } = notes;
    LinkEnd {
        refused,
        seen,
        close,
    }
}

// Has all messages of the source taken, and notes what becomes of them.
fn serve_noting<S: Source, W: Witnessing, K: Sink>(
    alloc: Global,
    service: &mut W,
    source: &mut S,
    sink: &mut K,
    limits: Limits,
    notes: &mut Notes,
) -> Close
    requires { (W.seen service.old).witness.broken ≡ false }
    ensures { ServesNoting S.left S.faults W.seen K.written K.faults limits source.old source.new
        service.old service.new sink.old sink.new notes.old notes.new result }
{
    let mut link = Link {
        service,
        sink,
        notes,
    };
    serve_all(alloc, source, &mut link, limits)
}

// Has all messages of the source taken.
fn serve_all<'w, 'k, 'n, S: Source, W: Witnessing, K: Sink>(
    alloc: Global,
    source: &mut S,
    link: &mut Link<'w, 'k, 'n, W, K>,
    limits: Limits,
) -> Close
    requires { (W.seen link.old.service.now).witness.broken ≡ false }
    ensures serves { ServesLink limits (source_shown S.left S.faults source.old)
        (source_shown S.left S.faults source.new)
        (link_shown W.seen K.written K.faults link.old) (link_shown W.seen K.written K.faults link.new) result }
    ensures same { LendsSame link.old link.new }
{
    link.service.sound();
    let (close, last) = feed_messages(alloc, source, limits, link);
    finish(link, close, last)
}

// Has the last message taken, where there is one and nothing stopped the serving before it, and answers how the link closes.
fn finish<'w, 'k, 'n, W: Witnessing, K: Sink>(
    link: &mut Link<'w, 'k, 'n, W, K>,
    close: FeedClose<Close>,
    last: Option<Message>,
) -> Close
    ensures { Finishes W.seen K.written K.faults close last link.old link.new result }
{
    let close = match close {
        FeedClose::End => Close::End,
        FeedClose::Bad(bad) => Close::Bad(bad),
        FeedClose::ReadFault => Close::ReadFault,
        FeedClose::LimitReached => return Close::LimitReached,
        FeedClose::OutOfMemory => return Close::OutOfMemory,
        FeedClose::Stopped(close) => return close,
    };
    take_last(link, close, last)
}

// Has the last message taken, where there is one.
fn take_last<'w, 'k, 'n, W: Witnessing, K: Sink>(
    link: &mut Link<'w, 'k, 'n, W, K>,
    close: Close,
    last: Option<Message>,
) -> Close
    ensures { TakesLast W.seen K.written K.faults close last link.old link.new result }
{
    match last {
        Some(message) => match link.take(message) {
            Ok(()) => close,
            Err(stop) => stop,
        },
        None => close,
    }
}
