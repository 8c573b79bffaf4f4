//! Files in memory.
ghost use Rattle.std.specs.Prelude.{◌≡◌, ◌++◌, ◌∷◌, [], OnOk, OnErr};

use crate::{FileCall, RawFile};
use lists::Items;
use std::alloc::Global;
use std::fs::TryLockError;
use std::io;
use std::io::ErrorKind;

/// A file in memory, which shows its calls. One call reads and writes no more than a piece.
#[derive(Drop)]
pub struct MemFile {
    alloc: Global,
    bytes: Vec<u8>,
    piece: usize,
    is_busy: bool,
    calls: Items<FileCall>,
}

impl MemFile {
    ghost use Rattle.disk_file.specs.Memory.{file_calls};

    /// A file of these bytes, which has no calls yet. Where it is busy somebody else has it locked.
    pub fn new(alloc: Global, bytes: Vec<u8>, piece: usize, is_busy: bool) -> MemFile
        ensures { file_calls result ≡ [] }
    {
        MemFile {
            alloc,
            bytes,
            piece,
            is_busy,
            calls: Items::new(alloc),
        }
    }

    /// Its calls.
    pub fn calls(&self) -> &[FileCall]
        ensures { result.now ≡ file_calls self.now }
    {
        self.calls.as_slice()
    }

    // Keeps a call, where there is memory for that.
    fn note(&mut self, call: FileCall) -> io::Result<()>
        ensures ok { OnOk result (file_calls self.new ≡ file_calls self.old ++ call ∷ []) }
        ensures err { OnErr result (file_calls self.new ≡ file_calls self.old) }
    {
        match self.calls.push(call) {
            Ok(()) => Ok(()),
            Err(_) => Err(io::Error::from(ErrorKind::OutOfMemory)),
        }
    }
}

impl RawFile for MemFile {
    ghost use Rattle.std.specs.Prelude.{Some};
    ghost use Rattle.disk_file.specs.Memory.{file_calls};

    ghost calls = { λ file. Some (file_calls file) };

    fn is_regular(&self) -> io::Result<bool> {
        Ok(true)
    }

    fn size(&mut self) -> io::Result<u64> {
        let size = self.bytes.len() as u64;
        self.note(FileCall::Sized { size })?;
        Ok(size)
    }

    fn read_at(&mut self, place: u64, buf: &mut [u8]) -> io::Result<usize> {
        let begin = self.bytes.len().min(place as usize);
        let count = (self.bytes.len() - begin).min(buf.len()).min(self.piece);
        buf[..count].copy_from_slice(&self.bytes[begin..begin + count]);
        let bytes = Items::from_vec(Vec::from_slice(self.alloc, &buf[..count])?);
        self.note(FileCall::Read { place, bytes })?;
        Ok(count)
    }

    // A place behind the end is refused.
    fn write_at(&mut self, place: u64, bytes: &[u8]) -> io::Result<usize> {
        let begin = place as usize;
        if begin > self.bytes.len() {
            return Err(io::Error::from(ErrorKind::InvalidInput));
        }
        let piece = &bytes[..bytes.len().min(self.piece)];
        let mut next = Vec::from_slice(self.alloc, &self.bytes[..begin])?;
        next.extend_from_slice(piece)?;
        if next.len() < self.bytes.len() {
            let end = next.len();
            next.extend_from_slice(&self.bytes[end..])?;
        }
        let bytes = Items::from_vec(Vec::from_slice(self.alloc, piece)?);
        self.note(FileCall::Wrote { place, bytes })?;
        self.bytes = next;
        Ok(piece.len())
    }

    fn cut(&mut self, size: u64) -> io::Result<()> {
        self.note(FileCall::Cut { size })?;
        self.bytes.truncate(size as usize);
        Ok(())
    }

    fn sync(&mut self) -> io::Result<()> {
        self.note(FileCall::Synced)
    }

    fn lock(&mut self) -> Result<(), TryLockError> {
        if self.is_busy {
            return Err(TryLockError::WouldBlock);
        }
        match self.note(FileCall::Locked) {
            Ok(()) => Ok(()),
            Err(error) => Err(TryLockError::Error(error)),
        }
    }
}
