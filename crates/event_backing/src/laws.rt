//! Laws of backers and of seals.
ghost use Rattle.std.specs.Prelude.{◌≡◌};
ghost use Rattle.event_body.specs.EventBody.Events.{prefix_of, sn_of, said_of};
ghost use Rattle.event_body.specs.declared.event_body.event.Event.{Event};
ghost use Rattle.journal.specs.Journal.Seals.{seals};
ghost use Rattle.event_backing.specs.EventSeals.{holds_seal};

/// An event holds the seal of another exactly where it holds that of its identifier, number and digest.
pub fn sealed_by_parts()
    ensures { (holder event : Event) → seals holder event
        ≡ holds_seal holder (prefix_of event) (sn_of event) (said_of event) }
{}
