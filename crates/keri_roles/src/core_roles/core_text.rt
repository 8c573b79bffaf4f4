//! What a command writes of its core.
ghost use Rattle.std.specs.Prelude.{◌≡◌, ℕ, ◌≤◌, Bool, List, IfOk, length, map};
ghost use Rattle.journal.specs.declared.journal.mode.Mode.{Mode};
ghost use Rattle.run_status.specs.declared.run_status.besides.Besides.{Besides as Found};
ghost use Rattle.run_status.specs.RunStatus.Readers.{Reader, reader_seen};
ghost use Rattle.keri_roles.specs.CoreRoles.CommandTexts.{HasText};
ghost use Rattle.validator_core.specs.ValidatorCore.View.{CoreView};

use crate::core_roles::ReaderEnd;
use keri_outside::{Source, Verifier};
use reader_hub::LastRound;
use run_status::Besides;
use std::alloc::{AllocError, Global};
use validator_core::Core;

/// The text that a command is to write, and whether it says what its command looks for.
#[derive(Drop)]
pub(crate) struct CommandText {
    pub(crate) bytes: Vec<u8>,
    pub(crate) is_found: bool,
}

/// What a command writes of its core and its readers.
pub(crate) trait CoreText {
    /// The mode of the core that it is a text of.
    ghost wants: { Mode };

    /// The text is that of a core and of how its readers ended, and it is said whether what is looked for is there.
    ghost is_text: { Self → CoreView → List Reader → List ℕ → Bool → Type 0 };

    /// What is found besides the readers' ends, where it is there, and where it isn't.
    ghost finds: { Bool → Found };

    /// Makes the text. There is none where a reader, or the last round, ended for want of memory.
    fn text_of<S: Source, V: Verifier>(
        &self,
        alloc: Global,
        core: &Core,
        readers: &[ReaderEnd<S, V>],
        rest: LastRound,
    ) -> Result<CommandText, AllocError>
        requires mode { core.now.mode ≡ wants }
        requires whole { core.now.base ≡ 0 }
        requires few { length readers.now ≤ 65535 }
        ensures { IfOk result (HasText (is_text self.now) core.now
            (map (reader_seen S.left S.faults V.says V.inquiries V.faults) readers.now) rest) };

    /// What is found besides.
    fn finds(is_found: bool) -> Besides
        ensures { result ≡ finds is_found };
}
