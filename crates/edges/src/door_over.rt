//! Doors over a place at which peers come.
ghost use Rattle.std.specs.Prelude.{◌≡◌, ℕ, IfOk, IsNone, OnErr, replicate};
ghost use Rattle.lists.specs.KeriSpecs.Shown.{HasNone};
ghost use Rattle.edges.specs.Acts.{ComesIn, Grows};
ghost use Rattle.edges.specs.Over.{read_by, sink_faults, source_faults, written_by};
ghost use Rattle.edges.specs.declared.link_act.LinkAct.{LinkAct};

use crate::{Handle, Listen, SinkOver, SourceOver};
use keri_outside::{Caller, Door, Failed};
use std::io;
use std::io::ErrorKind;

/// An accept that a signal interrupted, whose peer gave the link up before, or that hands over an error of the
/// network on the way to its peer, is tried again, up to so many times in all, before it counts as a fault.
const ATTEMPTS: usize = 1_000;

/// A door over a place at which peers come. It never ends: where no link comes, that is a fault.
#[derive(Drop)]
pub struct DoorOver<L, H> {
    listener: L,
    // The link that came last. Its sink may be kept until the program ends, so its peer is told of the end of
    // what goes out once the next link is asked for.
    last: Option<H>,
    faults: u64,
}

impl<L, H> DoorOver<L, H> {
    ghost use Rattle.std.specs.Prelude.{None};
    ghost use Rattle.edges.specs.Over.{door_faults, last_link, listens_by};

    /// A door at which no link came yet.
    pub fn new(listener: L) -> DoorOver<L, H>
        ensures listener { listens_by result ≡ listener }
        ensures none { last_link result ≡ None }
        ensures none_yet { door_faults result ≡ 0 }
    {
        DoorOver {
            listener,
            last: None,
            faults: 0,
        }
    }
}

// A link that was taken, as its source, its sink, and one handle more.
#[derive(Drop)]
struct Taken<S, K, H> {
    source: S,
    sink: K,
    last: H,
}

// The next link.
fn accept<H: Handle, L: Listen<Handle = H>>(listener: &mut L) -> Result<H, Failed>
    ensures asked { (n : ℕ) × Grows (L.acts listener.old) (L.acts listener.new) (replicate n LinkAct.Asked) }
    ensures comes { ComesIn H.sent (L.left listener.old) (L.left listener.new) result }
{
    for _ in 0..ATTEMPTS {
        match listener.accept() {
            Ok(link) => return Ok(link),
            Err(error) if is_tried_again(error.kind()) => {}
            Err(_) => return Err(Failed),
        }
    }
    Err(Failed)
}

// Whether an accept that failed so is tried again: by a signal, or by what became of one link before it was taken
// (accept(2): Linux hands over errors that already wait on the new socket).
fn is_tried_again(kind: ErrorKind) -> bool {
    match kind {
        ErrorKind::Interrupted | ErrorKind::ConnectionAborted => true,
        ErrorKind::NetworkDown | ErrorKind::NetworkUnreachable | ErrorKind::HostUnreachable => true,
        _ => false,
    }
}

// A link as its source and its sink, both of its peer, and one handle more.
fn split<H: Handle + Drop>(
    link: H,
) -> io::Result<Taken<SourceOver<H::Reader>, SinkOver<H::Writer>, H>>
    ensures read { IfOk result (λ taken. H.read_peer (read_by taken.source) ≡ H.peer link) }
    ensures written { IfOk result (λ taken. H.written_peer (written_by taken.sink) ≡ H.peer link) }
    ensures last { IfOk result (λ taken. H.peer taken.last ≡ H.peer link) }
    ensures sent { IfOk result (λ taken. H.Reader.remaining (read_by taken.source) ≡ H.sent link) }
    ensures unwritten { IfOk result (λ taken. HasNone (H.Writer.contents (written_by taken.sink))) }
    ensures source_none_yet { IfOk result (λ taken. source_faults taken.source ≡ 0) }
    ensures sink_none_yet { IfOk result (λ taken. sink_faults taken.sink ≡ 0) }
    ensures sure { OnErr result (IsNone (H.sent link)) }
{
    let sink = link.again()?;
    let last = link.again()?;
    let source = SourceOver::new(link.reader());
    let sink = SinkOver::new(sink.writer()?);
    Ok(Taken { source, sink, last })
}

// The next link, as its source and its sink.
fn take_link<H: Handle + Drop, L: Listen<Handle = H>>(
    listener: &mut L,
) -> Result<Taken<SourceOver<H::Reader>, SinkOver<H::Writer>, H>, Failed>
    ensures asked { (n : ℕ) × Grows (L.acts listener.old) (L.acts listener.new) (replicate n LinkAct.Asked) }
    ensures comes { ComesIn (λ taken. H.Reader.remaining (read_by taken.source)) (L.left listener.old) (L.left listener.new) result }
    ensures one_peer { IfOk result (λ taken. H.written_peer (written_by taken.sink) ≡ H.read_peer (read_by taken.source)) }
    ensures last { IfOk result (λ taken. H.peer taken.last ≡ H.read_peer (read_by taken.source)) }
    ensures unwritten { IfOk result (λ taken. HasNone (H.Writer.contents (written_by taken.sink))) }
    ensures source_none_yet { IfOk result (λ taken. source_faults taken.source ≡ 0) }
    ensures sink_none_yet { IfOk result (λ taken. sink_faults taken.sink ≡ 0) }
{
    let link = accept(listener)?;
    match split(link) {
        Ok(taken) => Ok(taken),
        Err(_) => Err(Failed),
    }
}

impl<H: Handle + Drop, L: Listen<Handle = H>> Door for DoorOver<L, H> {
    ghost use Rattle.std.specs.Prelude.{None, Some, IfSome, IsSome, option_map};
    ghost use Rattle.lists.specs.KeriSpecs.Causes.{HasCause};
    ghost use Rattle.keri_outside.specs.Doors.{Comes};
    ghost use Rattle.edges.specs.Acts.{AsksBehind};
    ghost use Rattle.edges.specs.Over.{door_faults, last_link, listens_by};

    type Source = SourceOver<H::Reader>;

    type Sink = SinkOver<H::Writer>;

    ghost left = { λ door. L.left (listens_by door) };

    ghost faults = { door_faults };

    fn next(&mut self) -> Result<Option<Caller<SourceOver<H::Reader>, SinkOver<H::Writer>>>, Failed>
        // Before the next link is asked for, the peer of the last one is told of the end.
        ensures told { AsksBehind (option_map H.peer (last_link self.old)) (L.acts (listens_by self.old)) (L.acts (listens_by self.new)) }
        ensures goes_on { IfOk result (λ found. IsSome found) }
        ensures one_peer { IfOk result (λ found. IfSome found (λ caller. H.written_peer (written_by caller.sink) ≡ H.read_peer (read_by caller.source))) }
        ensures kept { IfOk result (λ found. IfSome found (λ caller. option_map H.peer (last_link self.new) ≡ Some (H.read_peer (read_by caller.source)))) }
        ensures comes { Comes (λ caller. H.Reader.remaining (read_by caller.source)) (L.left (listens_by self.old)) (L.left (listens_by self.new)) result }
        ensures source_none_yet { IfOk result (λ found. IfSome found (λ caller. source_faults caller.source ≡ 0)) }
        ensures sink_none_yet { IfOk result (λ found. IfSome found (λ caller. sink_faults caller.sink ≡ 0)) }
        ensures unwritten { IfOk result (λ found. IfSome found (λ caller. HasNone (H.Writer.contents (written_by caller.sink)))) }
        ensures cause { HasCause (door_faults self.old) (door_faults self.new) result }
    {
        if let Some(last) = self.last.take() {
            self.listener.end(last);
        }
        match take_link(&mut self.listener) {
            Ok(Taken { source, sink, last }) => {
                self.last = Some(last);
                Ok(Some(Caller { source, sink }))
            }
            Err(Failed) => {
                self.faults = self.faults.saturating_add(1);
                Err(Failed)
            }
        }
    }
}
