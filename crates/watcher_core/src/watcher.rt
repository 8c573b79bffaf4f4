//! The watcher.
ghost use Rattle.std.specs.Prelude.{◌≡◌, IfOk, List};
ghost use Rattle.journal.specs.Journal.Conflicts.{IsConflictList};
ghost use Rattle.journal.specs.Journal.Journals.{NameConflicts};
ghost use Rattle.journal.specs.declared.journal.body.Body.{Body};
ghost use Rattle.journal.specs.declared.journal.mode.Mode.TheVariants.{Local};
ghost use Rattle.validator_core.specs.ValidatorCore.View.{base_of, told_of};
ghost use Rattle.watcher_core.specs.Writing.{FaultsHaveCause, WritesEvidence};

use crate::evidence::evidence_of;
use crate::evidence_fault::EvidenceFault;
use journal::Conflict;
use keri_outside::{Failed, Sink};
use std::alloc::{AllocError, Global};
use std::marker::Model;
use validator_core::Core;

/// A core that waits for neither receipts nor seals, and is asked for what conflicts in it.
#[derive(Drop)]
pub struct Watcher {
    alloc: Global,
    core: Core,
}

impl Model for Watcher {
    ghost use Rattle.validator_core.specs.ValidatorCore.View.{CoreView};
    ghost use Rattle.json_tree.specs.contracts.tree.Tree as tree;
    ghost use Rattle.std.specs.Coded.{codes};

    ghost Value = { CoreView };

    ghost coded = { Prim.hlevel (codes, tree.the_row.coded) };

    ghost use Rattle.std.specs.Prelude.{◌≡◌};
    ghost use Rattle.journal.specs.declared.journal.mode.Mode.TheVariants.{Local};

    ghost view = { λ w. w.core };

    ghost invariant = { λ w. w.core.mode ≡ Local };
}

impl Watcher {
    /// A watcher with what a core was told.
    pub fn of(alloc: Global, core: Core) -> Watcher
        requires { core.mode ≡ Local }
        ensures { result ≡ core }
    {
        Watcher { alloc, core }
    }

    /// The conflicts, each with its place and the numbers of its bodies.
    pub fn evidence(&self) -> Result<Vec<Conflict>, AllocError>
        ensures { IfOk result (λ found. (sets : List (List Body)) × NameConflicts self.now.held found.items sets
            × IsConflictList self.now.mode (base_of self.now) (told_of self.now) sets) }
    {
        self.core.conflicts()
    }

    /// Writes the text of [`evidence_of`].
    pub fn write_evidence<S: Sink>(&self, sink: &mut S) -> Result<(), EvidenceFault>
        // All of it is written, or a front of it where the sink fails, or nothing for want of memory.
        ensures written { WritesEvidence self.now (S.written sink.old) (S.written sink.new) result }

        // The sink's fault is told only where the sink failed.
        ensures cause { FaultsHaveCause (S.faults sink.old) (S.faults sink.new) result }
    {
        let Ok(evidence) = evidence_of(self.alloc, &self.core) else {
            return Err(EvidenceFault::OutOfMemory);
        };
        match sink.put(evidence.text.as_slice()) {
            Ok(()) => Ok(()),
            Err(Failed) => Err(EvidenceFault::WriteFault),
        }
    }

    /// The core back.
    pub fn into_core(self) -> Core
        ensures core { result ≡ self }
        ensures mode { result.mode ≡ Local }
    {
        let Watcher { core, .. } = self;
        core
    }
}
