//! What a validator's core accepts, against what any other accepts.
ghost use Rattle.std.specs.Prelude.{◌≡◌};
ghost use Rattle.keri_roles.specs.CoreRoles.Agreement.{IsAgreed};
ghost use Rattle.validator_core.specs.ValidatorCore.View.{accepted_by, told_of};
ghost use Rattle.journal.specs.Journal.Journals.{chosen};

use journal::Mode;
use validator_core::Core;

/// The numbers of the bodies that a core accepted which wants receipts and seals and began with nothing, in order. Under every
/// lawful signing history for which its verdicts are honest, witnesses stand behind them, and their inceptions and rotations agree
/// with every other list of which that is so, unless digests collide (KERI paper, witness agreement). It takes no memory.
pub fn backed(core: &Core) -> &[u32]
    requires full { core.now.mode ≡ Mode.Full }
    requires no_base { core.now.base ≡ 0 }
    ensures accepted { chosen core.now.held result.now ≡ accepted_by core.now }
    ensures agreed { IsAgreed (told_of core.now) }
{
    // What is told in the journal is what makes them agree.
    let _told = core.journal();
    core.accepted()
}
