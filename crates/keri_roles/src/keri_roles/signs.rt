//! What is seen of a signer.

use keri_outside::Signer;

/// Gives what is seen of a signer as one value. Each signer has it, by the impl below.
pub(crate) trait Signs: Signer {
    ghost use Rattle.std.specs.Prelude.{◌≡◌};
    ghost use Rattle.std.specs.declared.option.Option.{Option};
    ghost use Rattle.run_status.specs.RunRecord.Run.{SignerShown};
    ghost use Rattle.run_status.specs.RunRecord.Seen.{signer_seen, signer_shown};

    ghost shown: { Self → SignerShown };

    /// Where there is one.
    ghost seen: { Option Self → Option SignerShown };

    // They can be no others.
    ghost shown_is: { shown ≡ signer_shown Self.gives Self.signings Self.faults };

    ghost seen_is: { seen ≡ signer_seen Self.gives Self.signings Self.faults };
}

impl<G: Signer> Signs for G {
    ghost use Rattle.std.specs.Prelude.{refl};
    ghost use Rattle.run_status.specs.RunRecord.Seen.{signer_seen, signer_shown};

    ghost shown = { signer_shown G.gives G.signings G.faults };

    ghost seen = { signer_seen G.gives G.signings G.faults };

    ghost shown_is = { refl };

    ghost seen_is = { refl };
}
