//! Names of a plan's lines.
ghost use Rattle.std.specs.Prelude.{◌≡◌, ◌≢◌, IfSome, IfNone};

/// What a line behind the first gives.
#[derive(Clone, Copy)]
pub(crate) enum Name {
    Prefix,
    Code,
    Kt,
    Nt,
    Key,
    Next,
    Cut,
    Add,
    Bt,
    Trait,
    Seal,
    Di,
    Sign,
    Reuse,
}

impl Name {
    ghost use Rattle.controller_core.specs.declared.plan_text.name.Name.{Name};
    ghost use Rattle.controller_core.specs.PlanText.Entries.{name_text};

    /// The name that is written so.
    pub(crate) fn of(text: &[u8]) -> Option<Name>
        ensures some { IfSome result (λ name. text.now ≡ name_text name) }
        ensures none { IfNone result ((name : Name) → text.now ≢ name_text name) }
    {
        match text {
            b"prefix" => Some(Name::Prefix),
            b"code" => Some(Name::Code),
            b"kt" => Some(Name::Kt),
            b"nt" => Some(Name::Nt),
            b"key" => Some(Name::Key),
            b"next" => Some(Name::Next),
            b"cut" => Some(Name::Cut),
            b"add" => Some(Name::Add),
            b"bt" => Some(Name::Bt),
            b"trait" => Some(Name::Trait),
            b"seal" => Some(Name::Seal),
            b"di" => Some(Name::Di),
            b"sign" => Some(Name::Sign),
            b"reuse" => Some(Name::Reuse),
            _ => None,
        }
    }
}
