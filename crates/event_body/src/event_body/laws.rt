//! Laws of the definition of bodies.
ghost use Rattle.std.specs.Prelude.{◌≡◌, ℕ, List};
ghost use Rattle.event_body.specs.EventBody.Judging.{SpellsEvent};
ghost use Rattle.event_body.specs.declared.event_body.event.Event.{Event};

/// One list of bytes spells at most one event.
pub fn one_event()
    ensures { (one other : Event) (bytes : List ℕ) → SpellsEvent one bytes → SpellsEvent other bytes → one ≡ other }
{}
