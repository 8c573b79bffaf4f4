//! The outside in memory.
ghost use Rattle.std.specs.Prelude.{◌≡◌, [], Some};

use crate::run_outside::addresses::door_of;
use crate::run_outside::disks::disk_of;
use crate::run_outside::files::source_of;
use crate::run_outside::helpers::{signer_of, verifier_of};
use crate::run_outside::{
    Making, MakingKind, MemAddress, MemDiskFile, MemFile, MemHelper, Outside,
};
use keri_outside::{Failed, Limits, MemDoor, MemGate, MemSigner, MemSink, MemSource, MemVerifier};
use lists::Items;
use shelf_log::MemDisk;
use std::alloc::{AllocError, Global};

/// An outside in memory, which tells all.
#[derive(Drop)]
pub struct MemOutside {
    alloc: Global,
    files: Items<MemFile>,
    helpers: Items<MemHelper>,
    disks: Items<MemDiskFile>,
    addresses: Items<MemAddress>,
    failing: Items<u64>,
    calls: u64,
    makings: Items<Making>,
    telling: bool,
    sink: MemSink,
    gate: MemGate,
    faults: u64,
    limits: Limits,
}

impl MemOutside {
    ghost use Rattle.std.specs.Prelude.{◌≡◌, ◌≤◌, ◌++◌, ◌∷◌, [], true, Some, IfOk, IfSome, OnOk, OnErr};
    ghost use Rattle.shelf_log.specs.KeriDisk.Memory.{mem_shown};
    ghost use Rattle.lists.specs.KeriSpecs.Causes.{Rose};
    ghost use Rattle.run_status.specs.RunOutside.Memory.{outside_shown, outside_sink};
    ghost use Rattle.run_status.specs.RunOutside.Shown.{Grows, Makes, first_shown, making};
    ghost use Rattle.run_status.specs.RunOutside.Helpers.{says_under, gives_under};
    ghost use Rattle.run_status.specs.RunOutside.Disks.{stored_under};
    ghost use Rattle.run_status.specs.RunOutside.Addresses.{links_under};

    /// An outside with these files, this sink, no helpers, no disks, no doors and a gate that holds nobody up. Its makings of the numbers in `failing`, counted from 0, fail.
    pub fn new(
        alloc: Global,
        files: Items<MemFile>,
        sink: MemSink,
        failing: Items<u64>,
        limits: Limits,
    ) -> MemOutside
        ensures told { outside_shown result ≡ first_shown files limits }
        ensures sink { outside_sink result ≡ sink }
    {
        MemOutside {
            alloc,
            files,
            helpers: Items::new(alloc),
            disks: Items::new(alloc),
            addresses: Items::new(alloc),
            failing,
            calls: 0,
            makings: Items::new(alloc),
            telling: true,
            sink,
            gate: MemGate::new(0, 0),
            faults: 0,
            limits,
        }
    }

    /// It with these helpers.
    pub fn with_helpers(self, helpers: Items<MemHelper>) -> MemOutside
        ensures told { outside_shown result
            ≡ record (outside_shown self) { says = says_under helpers; gives = gives_under helpers } }
        ensures sink { outside_sink result ≡ outside_sink self }
    {
        MemOutside { helpers, ..self }
    }

    /// It with these files of disks.
    pub fn with_disks(self, disks: Items<MemDiskFile>) -> MemOutside
        ensures told { outside_shown result ≡ record (outside_shown self) { stored = stored_under disks } }
        ensures sink { outside_sink result ≡ outside_sink self }
    {
        MemOutside { disks, ..self }
    }

    /// It with the doors of these addresses.
    pub fn with_doors(self, addresses: Items<MemAddress>) -> MemOutside
        ensures told { outside_shown result ≡ record (outside_shown self) { links = links_under addresses } }
        ensures sink { outside_sink result ≡ outside_sink self }
    {
        MemOutside { addresses, ..self }
    }

    /// It with this gate.
    pub fn with_gate(self, gate: MemGate) -> MemOutside
        ensures told { outside_shown result ≡ outside_shown self }
        ensures sink { outside_sink result ≡ outside_sink self }
    {
        MemOutside { gate, ..self }
    }

    /// The sink.
    pub fn sink(&self) -> &MemSink
        ensures { result.now ≡ outside_sink self.now }
    {
        &self.sink
    }

    /// The makings so far. Where there was no memory to note one, these are only those before it.
    pub fn makings(&self) -> &[Making]
        ensures { IfSome (outside_shown self.now).makings (λ makings. result.now ≡ makings) }
    {
        self.makings.as_slice()
    }

    // Notes a making. Without memory for that the makings are told no more.
    fn note(&mut self, kind: MakingKind, name: &str, failed: bool)
        ensures makings { Grows (outside_shown self.old).makings (outside_shown self.new).makings kind name.now failed }
        ensures same { self.new ≡ record self.old { makings = self.new.makings; telling = self.new.telling } }
    {
        if self.telling && self.push(kind, name, failed).is_err() {
            self.telling = false;
        }
    }

    // Adds a making.
    fn push(&mut self, kind: MakingKind, name: &str, failed: bool) -> Result<(), AllocError>
        ensures ok { OnOk result (self.new
            ≡ record self.old { makings = self.old.makings ++ making kind name.now failed ∷ [] }) }
        ensures err { OnErr result (self.new ≡ self.old) }
    {
        let name = Items::from_vec(Vec::from_slice(self.alloc, name.as_bytes())?);
        self.makings.push(Making { kind, name, failed })?;
        Ok(())
    }

    // Whether the making that comes now is to fail.
    fn next_fails(&mut self) -> bool
        ensures same { self.new ≡ record self.old { calls = self.new.calls } }
    {
        let call = self.calls;
        self.calls = self.calls.saturating_add(1);
        self.failing.as_slice().contains(&call)
    }

    // Makes the disk of a name that has a file.
    fn make_disk(&mut self, kind: MakingKind, name: &str) -> Result<MemDisk, Failed>
        ensures makes { Makes kind name.now (outside_shown self.old) (outside_shown self.new) result }
        ensures holds { IfOk result (λ disk. (mem_shown disk).file ≡ stored_under self.old.disks name.now) }
        ensures none_yet { IfOk result (λ disk. (mem_shown disk).faults ≡ 0) }
        ensures same_sink { outside_sink self.new ≡ outside_sink self.old }
    {
        let fails = self.next_fails();
        match disk_of(self.alloc, self.disks.as_slice(), name) {
            Some(disk) if !fails => {
                self.note(kind, name, false);
                Ok(disk)
            }
            _ => Err(self.fail(kind, name)),
        }
    }

    // Notes a making that fails.
    fn fail(&mut self, kind: MakingKind, name: &str) -> Failed
        ensures makings { Grows (outside_shown self.old).makings (outside_shown self.new).makings kind name.now true }
        ensures count { Rose self.old.faults self.new.faults }
        ensures later { self.old.faults ≤ self.new.faults }
        ensures same { self.new ≡ record self.old
            { makings = self.new.makings; telling = self.new.telling; faults = self.new.faults } }
    {
        self.note(kind, name, true);
        self.faults = self.faults.saturating_add(1);
        Failed
    }
}

impl Outside for MemOutside {
    ghost use Rattle.std.proofs.Common.{refl};
    ghost use Rattle.run_status.specs.RunOutside.Memory.{outside_shown, outside_sink};

    type Source = MemSource;

    type Verifier = MemVerifier;

    type Signer = MemSigner;

    type Disk = MemDisk;

    type Door = MemDoor;

    type Sink = MemSink;

    type Gate = MemGate;

    ghost shown = { outside_shown };

    ghost sink = { outside_sink };

    ghost with_sink = { λ outside other. record outside { sink = other } };

    ghost lent = { λ outside other. refl };

    ghost tells_the_same = { λ outside other. refl };

    fn source(&mut self, name: &str) -> Result<MemSource, Failed> {
        let fails = self.next_fails();
        match source_of(self.alloc, self.files.as_slice(), name) {
            Some(source) if !fails => {
                self.note(MakingKind::Source, name, false);
                Ok(source)
            }
            _ => Err(self.fail(MakingKind::Source, name)),
        }
    }

    fn verifier(&mut self, name: &str) -> Result<MemVerifier, Failed> {
        let fails = self.next_fails();
        match verifier_of(self.alloc, self.helpers.as_slice(), name) {
            Some(verifier) if !fails => {
                self.note(MakingKind::Verifier, name, false);
                Ok(verifier)
            }
            _ => Err(self.fail(MakingKind::Verifier, name)),
        }
    }

    fn signer(&mut self, name: &str) -> Result<MemSigner, Failed> {
        let fails = self.next_fails();
        match signer_of(self.alloc, self.helpers.as_slice(), name) {
            Some(signer) if !fails => {
                self.note(MakingKind::Signer, name, false);
                Ok(signer)
            }
            _ => Err(self.fail(MakingKind::Signer, name)),
        }
    }

    fn disk(&mut self, name: &str) -> Result<MemDisk, Failed> {
        self.make_disk(MakingKind::Disk, name)
    }

    fn old_disk(&mut self, name: &str) -> Result<MemDisk, Failed> {
        self.make_disk(MakingKind::OldDisk, name)
    }

    fn door(&mut self, name: &str) -> Result<MemDoor, Failed> {
        let fails = self.next_fails();
        match door_of(self.alloc, self.addresses.as_slice(), name) {
            Some(door) if !fails => {
                self.note(MakingKind::Door, name, false);
                Ok(door)
            }
            _ => Err(self.fail(MakingKind::Door, name)),
        }
    }

    fn out(&mut self) -> &mut MemSink {
        &mut self.sink
    }

    fn gate(&self) -> &MemGate {
        &self.gate
    }

    fn limits(&self) -> Limits {
        self.limits
    }
}
