//! A law of the definitions, for callers' proofs.
ghost use Rattle.event_body.specs.declared.event_body.event.Event.{Event};
ghost use Rattle.event_body.specs.EventBody.Judging.{IsSpelled};
ghost use Rattle.event_body.specs.EventWriting.Writable.{IsWritable};

/// An event that a body spells can be written.
pub fn writable()
    ensures { (event : Event) → IsSpelled event → IsWritable event }
{}
