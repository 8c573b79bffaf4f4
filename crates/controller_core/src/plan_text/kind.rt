//! Kinds of planned events.
ghost use Rattle.std.specs.Prelude.{◌≡◌, ◌≢◌, IfSome, IfNone};

/// What a plan's first line names.
#[derive(Clone, Copy)]
pub(crate) enum Kind {
    /// An inception.
    Icp,
    /// A delegated inception.
    Dip,
    /// A rotation.
    Rot,
    /// A delegated rotation.
    Drt,
    /// An interaction.
    Ixn,
}

impl Kind {
    ghost use Rattle.controller_core.specs.declared.plan_text.kind.Kind.{Kind};
    ghost use Rattle.controller_core.specs.PlanText.Entries.{kind_line};
    ghost use Rattle.controller_core.specs.PlanText.Plans.{has_delegator, is_delegated};

    /// The kind that the line names.
    pub(crate) fn of_line(line: &[u8]) -> Option<Kind>
        ensures some { IfSome result (λ kind. line.now ≡ kind_line kind) }
        ensures none { IfNone result ((kind : Kind) → line.now ≢ kind_line kind) }
    {
        match line {
            b"kind icp" => Some(Kind::Icp),
            b"kind dip" => Some(Kind::Dip),
            b"kind rot" => Some(Kind::Rot),
            b"kind drt" => Some(Kind::Drt),
            b"kind ixn" => Some(Kind::Ixn),
            _ => None,
        }
    }

    /// Whether it is that of an identifier with a delegator.
    pub(crate) fn is_delegated(self) -> bool
        ensures { result ≡ is_delegated self }
    {
        matches!(self, Kind::Dip | Kind::Drt)
    }

    /// Whether its event names the delegator.
    pub(crate) fn has_delegator(self) -> bool
        ensures { result ≡ has_delegator self }
    {
        matches!(self, Kind::Dip)
    }
}
