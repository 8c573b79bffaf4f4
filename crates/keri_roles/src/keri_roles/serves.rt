//! What is seen of a command that writes as it reads.

use run_status::Outside;

/// Gives what is seen of a command that writes as it reads as one value. Each outside has it, by the
/// impl below.
pub(crate) trait Serves: Outside {
    ghost use Rattle.std.specs.Prelude.{◌≡◌};
    ghost use Rattle.std.specs.declared.option.Option.{Option};
    ghost use Rattle.keri_roles.specs.ItemConversion.Converts.{EndsShown};
    ghost use Rattle.verifier_link.specs.Serving.{SidesShown};
    ghost use Rattle.keri_roles.specs.KeriRoles.Rehearsed.{Serving, ends_over, serving_over, sides_over};

    /// Of a source, and of the sink of the outside.
    ghost sides: { Self.Source → Self → SidesShown };

    /// The same, as a conversion sees it.
    ghost ends: { Self.Source → Self → EndsShown };

    /// Of the outside before and after it, and of the source, where there is one.
    ghost serving: { Self → Self → Option Self.Source → Serving };

    // They can be no others.
    ghost sides_is: { sides ≡ sides_over Self.Source.left Self.Source.faults
        Self.Sink.written Self.Sink.faults Self.sink };

    ghost ends_is: { ends ≡ ends_over Self.Source.left Self.Source.faults
        Self.Sink.written Self.Sink.faults Self.sink };

    ghost serving_is: { serving ≡ serving_over Self.Source.left Self.Source.faults
        Self.Sink.written Self.Sink.faults Self.sink Self.shown };
}

impl<O: Outside> Serves for O {
    ghost use Rattle.std.specs.Prelude.{refl};
    ghost use Rattle.keri_roles.specs.KeriRoles.Rehearsed.{ends_over, serving_over, sides_over};

    ghost sides = { sides_over O.Source.left O.Source.faults O.Sink.written O.Sink.faults O.sink };

    ghost ends = { ends_over O.Source.left O.Source.faults O.Sink.written O.Sink.faults O.sink };

    ghost serving = { serving_over O.Source.left O.Source.faults O.Sink.written O.Sink.faults O.sink O.shown };

    ghost sides_is = { refl };

    ghost ends_is = { refl };

    ghost serving_is = { refl };
}
