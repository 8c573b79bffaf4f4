//! Disks in memory.
ghost use Rattle.std.specs.Prelude.{◌≡◌, ◌∷◌, [], OnOk, OnErr};
ghost use Rattle.lists.specs.KeriSpecs.Causes.{HasCause};
ghost use Rattle.shelf_log.specs.KeriDisk.Replay.{file_of};

use crate::keri_disk::disk_call::DiskCall;
use crate::keri_disk::overwrite::overwrite;
use crate::keri_disk::replay::Replay;
use crate::keri_disk::{Disk, Shape};
use keri_outside::Failed;
use lists::Items;
use std::alloc::{AllocError, Global};

/// A disk in memory, which shows all that it holds. It keeps each of its calls, so that it can say what a crash after any of them may leave.
#[derive(Drop)]
pub struct MemDisk {
    alloc: Global,
    first: Items<u8>,
    calls: Items<DiskCall>,
    file: Vec<u8>,
    failing: Items<u64>,
    faults: u64,
    ghost replayed: { file.items ≡ file_of first calls },
}

impl MemDisk {
    ghost use Rattle.std.specs.Prelude.{◌≤◌, ℕ, List, Some, IfOk};
    ghost use Rattle.shelf_log.specs.KeriDisk.Replay.{file_after};
    ghost use Rattle.lists.specs.KeriSpecs.Causes.{Rose};
    ghost use Rattle.shelf_log.specs.KeriDisk.Images.{IsDurable};
    ghost use Rattle.shelf_log.specs.KeriDisk.Calls.{Keeps};
    ghost use Rattle.shelf_log.specs.KeriDisk.Memory.{mem_shown, file_at, images_at, image_at, Did};
    ghost use Rattle.shelf_log.specs.declared.keri_disk.disk_call.DiskCall.TheVariants.{Wrote, CutTo};

    /// A disk whose file holds these bytes, all of them synced. Its calls of the numbers in `failing`, counted from 0, fail:
    /// a write does the first half of its bytes, and any other call nothing.
    pub fn new(alloc: Global, bytes: Vec<u8>, failing: Items<u64>) -> Result<MemDisk, AllocError>
        ensures file { IfOk result (λ disk. (mem_shown disk).file ≡ Some bytes.items) }
        ensures synced { IfOk result (λ disk. IsDurable (mem_shown disk)) }
        ensures faults { IfOk result (λ disk. (mem_shown disk).faults ≡ 0) }
        ensures moment { IfOk result (λ disk. (mem_shown disk).moment ≡ 0) }
    {
        Ok(MemDisk {
            alloc,
            first: Items::from_vec(Vec::from_slice(alloc, &bytes)?),
            calls: Items::new(alloc),
            file: bytes,
            failing,
            faults: 0,
        })
    }

    /// How many calls it has done, which is its moment. One that found no memory isn't counted.
    pub fn moments(&self) -> u64
        ensures { result ≡ (mem_shown self.now).moment }
    {
        self.calls.len() as u64
    }

    /// What the file holds.
    pub fn bytes(&self) -> &[u8]
        ensures { (mem_shown self.now).file ≡ Some result.now }
    {
        &self.file
    }

    /// The image of this shape just after the call of this number, counted from 1; 0 is the beginning.
    pub fn image(&self, moment: u64, shape: Shape) -> Result<Vec<u8>, AllocError>
        requires { moment ≤ (mem_shown self.now).moment }
        ensures image { IfOk result (λ bytes. images_at self.now moment bytes.items) }
        ensures shape { IfOk result (λ bytes. bytes.items ≡ image_at self.now shape moment) }
        ensures whole { shape ≡ Shape.Whole → IfOk result (λ bytes. bytes.items ≡ file_at self.now moment) }
    {
        let calls = &self.calls.as_slice()[..moment as usize];
        let replay = Replay::of(self.alloc, self.first.as_slice(), calls, shape)?;
        Ok(replay.image)
    }

    // Whether the call that comes now is to fail.
    fn next_fails(&self) -> bool {
        self.failing.as_slice().contains(&self.moments())
    }

    // Counts a fault.
    fn fail(&mut self) -> Failed
        ensures did { Did [] self.old self.new }
        ensures later { self.old.faults ≤ self.new.faults }
        ensures count { Rose self.old.faults self.new.faults }
    {
        self.faults = self.faults.saturating_add(1);
        Failed
    }

    // Fails a call that does nothing.
    fn skip(&mut self) -> Failed
        ensures keeps { Keeps (mem_shown self.old) (mem_shown self.new) }
        ensures later { self.old.faults ≤ self.new.faults }
        ensures count { Rose self.old.faults self.new.faults }
    {
        match self.note(DiskCall::Kept) {
            Ok(()) => self.fail(),
            Err(failed) => failed,
        }
    }

    // A call that asks.
    fn ask(&mut self) -> Result<(), Failed>
        ensures keeps { Keeps (mem_shown self.old) (mem_shown self.new) }
        ensures cause { HasCause self.old.faults self.new.faults result }
    {
        if self.next_fails() {
            return Err(self.skip());
        }
        self.note(DiskCall::Kept)?;
        Ok(())
    }

    // Keeps a call that changes no byte and no size.
    fn note(&mut self, call: DiskCall) -> Result<(), Failed>
        requires { (file : List ℕ) → file_after call file ≡ file }
        ensures ok { OnOk result (Did (call ∷ []) self.old self.new) }
        ensures err { OnErr result (Keeps (mem_shown self.old) (mem_shown self.new)) }
        ensures cause { HasCause self.old.faults self.new.faults result }
    {
        match self.calls.push(call) {
            Ok(()) => Ok(()),
            Err(_) => Err(self.fail()),
        }
    }

    // Writes the bytes, where there is memory for that.
    fn write(&mut self, offset: usize, bytes: &[u8]) -> Result<(), Failed>
        ensures ok { OnOk result (Did (Wrote offset bytes.now ∷ []) self.old self.new) }
        ensures err { OnErr result (Keeps (mem_shown self.old) (mem_shown self.new)) }
        ensures cause { HasCause self.old.faults self.new.faults result }
    {
        let Ok(next) = overwrite(self.alloc, &self.file, offset, bytes) else {
            return Err(self.fail());
        };
        let Ok(bytes) = Vec::from_slice(self.alloc, bytes) else {
            return Err(self.fail());
        };
        let bytes = Items::from_vec(bytes);
        match self.calls.push(DiskCall::Wrote { offset, bytes }) {
            Ok(()) => {
                self.file = next;
                Ok(())
            }
            Err(_) => Err(self.fail()),
        }
    }

    // Cuts the file, where there is memory to keep that.
    fn cut_to(&mut self, size: usize) -> Result<(), Failed>
        ensures ok { OnOk result (Did (CutTo size ∷ []) self.old self.new) }
        ensures err { OnErr result (Keeps (mem_shown self.old) (mem_shown self.new)) }
        ensures cause { HasCause self.old.faults self.new.faults result }
    {
        match self.calls.push(DiskCall::CutTo { size }) {
            Ok(()) => {
                self.file.truncate(size);
                Ok(())
            }
            Err(_) => Err(self.fail()),
        }
    }
}

impl Disk for MemDisk {
    ghost use Rattle.shelf_log.specs.KeriDisk.Memory.{mem_shown};
    ghost use Rattle.shelf_log.specs.KeriDisk.Laws.{reads_an_image as reads, counts_now as counts, only_now as only};

    ghost shown = { mem_shown };

    ghost reads_an_image = { reads };

    ghost counts_now = { counts };

    ghost only_now = { only };

    fn size(&mut self) -> Result<u64, Failed> {
        self.ask()?;
        Ok(self.file.len() as u64)
    }

    fn read(&mut self, offset: u64, buf: &mut [u8]) -> Result<(), Failed> {
        self.ask()?;
        let offset = offset as usize;
        let end = offset + buf.len();
        buf.copy_from_slice(&self.file[offset..end]);
        Ok(())
    }

    fn write_at(&mut self, offset: u64, bytes: &[u8]) -> Result<(), Failed> {
        if self.next_fails() {
            self.write(offset as usize, &bytes[..bytes.len() / 2])?;
            return Err(self.fail());
        }
        self.write(offset as usize, bytes)?;
        Ok(())
    }

    fn cut(&mut self, size: u64) -> Result<(), Failed> {
        if self.next_fails() {
            return Err(self.skip());
        }
        self.cut_to(size as usize)?;
        Ok(())
    }

    fn sync(&mut self) -> Result<(), Failed> {
        if self.next_fails() {
            return Err(self.skip());
        }
        self.note(DiskCall::Synced)?;
        Ok(())
    }
}
