//! What is true of each plan that a text spells.
ghost use Rattle.std.specs.Prelude.{List, ℕ};
ghost use Rattle.controller_core.specs.declared.plan_text.event_plan.EventPlan.{EventPlan};
ghost use Rattle.controller_core.specs.PlanText.Makeable.{IsMakeable};
ghost use Rattle.controller_core.specs.PlanText.Plans.{IsPlanText};

/// A plan that a text spells is one of which a message may be made: its anchors and traits are of JSON's grammar, and where it
/// asks for an inception it names a delegator exactly where that is delegated.
pub fn spelled_is_makeable()
    ensures { (text : List ℕ) (plan : EventPlan) → IsPlanText text plan → IsMakeable plan }
{}
