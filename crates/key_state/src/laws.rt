//! Laws of what bodies spell.
ghost use Rattle.std.specs.Prelude.{ℕ, List};
ghost use Rattle.event_body.specs.EventBody.Judging.{SpellsEvent};
ghost use Rattle.event_body.specs.declared.event_body.event.Event.{Event};
ghost use Rattle.key_state.specs.Kept.{IsKept};

/// An event that a body spells meets the condition of [`crate::first`].
pub fn spelled_is_kept()
    ensures { (event : Event) (bytes : List ℕ) → SpellsEvent event bytes → IsKept event }
{}
