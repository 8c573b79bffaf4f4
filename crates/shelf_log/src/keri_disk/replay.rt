//! Calls of a disk in memory, done again.
ghost use Rattle.std.specs.Prelude.{◌≡◌, length, take, IfOk, OnOk};
ghost use Rattle.shelf_log.specs.KeriDisk.Images.{overwritten, Torn, CutShort};
ghost use Rattle.shelf_log.specs.KeriDisk.Replay.{file_after, file_of, IsLeftBy, IsLeftByAll};
ghost use Rattle.shelf_log.specs.KeriDisk.Shapes.{left_of_write, left_of_cut, image_after, image_of};

use crate::keri_disk::Shape;
use crate::keri_disk::disk_call::DiskCall;
use crate::keri_disk::overwrite::overwrite;
use std::alloc::{AllocError, Global};

/// The file after calls, and one of its images.
#[derive(Drop)]
pub(crate) struct Replay {
    pub file: Vec<u8>,
    pub image: Vec<u8>,
}

impl Replay {
    /// The file that held these bytes first, after the calls, and the image of the shape.
    pub fn of(
        alloc: Global,
        first: &[u8],
        calls: &[DiskCall],
        shape: Shape,
    ) -> Result<Replay, AllocError>
        ensures file { IfOk result (λ replay. replay.file.items ≡ file_of first.now calls.now) }
        ensures image { IfOk result (λ replay. replay.image.items ≡ image_of shape first.now first.now calls.now) }
        ensures left { IfOk result (λ replay. IsLeftByAll calls.now first.now first.now replay.image.items) }
        ensures whole { shape ≡ Shape.Whole → IfOk result (λ replay. replay.image.items ≡ replay.file.items) }
    {
        let mut replay = Replay::synced(alloc, first)?;
        for call in calls {
            replay.step(alloc, call, shape)?;
        }
        Ok(replay)
    }

    // The file that holds these bytes and is synced, so that they are its image too.
    fn synced(alloc: Global, first: &[u8]) -> Result<Replay, AllocError>
        ensures file { IfOk result (λ replay. replay.file.items ≡ first.now) }
        ensures image { IfOk result (λ replay. replay.image.items ≡ first.now) }
    {
        Ok(Replay {
            file: Vec::from_slice(alloc, first)?,
            image: Vec::from_slice(alloc, first)?,
        })
    }

    // One call more.
    fn step(&mut self, alloc: Global, call: &DiskCall, shape: Shape) -> Result<(), AllocError>
        ensures file { OnOk result (self.new.file.items ≡ file_after call.now self.old.file.items) }
        ensures image { OnOk result (self.new.image.items
            ≡ image_after shape call.now self.old.file.items self.old.image.items) }
        ensures left { OnOk result (IsLeftBy call.now self.old.file.items self.old.image.items self.new.image.items) }
        ensures whole { shape ≡ Shape.Whole → self.old.image.items ≡ self.old.file.items
            → OnOk result (self.new.image.items ≡ self.new.file.items) }
    {
        match call {
            DiskCall::Kept => Ok(()),
            DiskCall::Synced => self.sync(alloc),
            DiskCall::Wrote { offset, bytes } => self.write(
                alloc,
                *offset,
                bytes.as_slice(),
                shape,
            ),
            DiskCall::CutTo { size } => {
                self.cut(*size, shape);
                Ok(())
            }
        }
    }

    fn sync(&mut self, alloc: Global) -> Result<(), AllocError>
        ensures file { self.new.file ≡ self.old.file }
        ensures image { OnOk result (self.new.image.items ≡ self.old.file.items) }
    {
        self.image = Vec::from_slice(alloc, &self.file)?;
        Ok(())
    }

    fn write(
        &mut self,
        alloc: Global,
        offset: usize,
        bytes: &[u8],
        shape: Shape,
    ) -> Result<(), AllocError>
        ensures file { OnOk result (self.new.file.items ≡ overwritten self.old.file.items offset bytes.now) }
        ensures image { OnOk result (self.new.image.items ≡ left_of_write shape self.old.image.items offset bytes.now) }
        ensures torn { OnOk result (Torn offset (length bytes.now) self.old.image.items self.new.image.items) }
    {
        self.image = write_over(alloc, &self.image, offset, bytes, shape)?;
        self.file = overwrite(alloc, &self.file, offset, bytes)?;
        Ok(())
    }

    fn cut(&mut self, size: usize, shape: Shape)
        ensures file { self.new.file.items ≡ take size self.old.file.items }
        ensures image { self.new.image.items ≡ left_of_cut shape self.old.image.items size }
        ensures short { CutShort size self.old.image.items self.new.image.items }
    {
        self.file.truncate(size);
        match shape {
            Shape::Lost => {}
            Shape::Whole | Shape::Ones => self.image.truncate(size),
        }
    }
}

// The image after a write.
fn write_over(
    alloc: Global,
    image: &[u8],
    offset: usize,
    bytes: &[u8],
    shape: Shape,
) -> Result<Vec<u8>, AllocError>
    ensures image { IfOk result (λ next. next.items ≡ left_of_write shape image.now offset bytes.now) }
    ensures torn { IfOk result (λ next. Torn offset (length bytes.now) image.now next.items) }
{
    match shape {
        Shape::Whole => overwrite(alloc, image, offset, bytes),
        Shape::Lost => Vec::from_slice(alloc, image),
        Shape::Ones => {
            let ones = vec![in alloc; 1u8; bytes.len()]?;
            overwrite(alloc, image, offset, &ones)
        }
    }
}
