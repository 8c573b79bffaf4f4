//! Files that were opened by a path.
ghost use Rattle.std.specs.Prelude.{◌≡◌, IfOk};
ghost use Rattle.disk_file.specs.Untold.{disk_faults};
ghost use Rattle.keri.specs.Opened.{IsOpenedAt, what_opened};

use crate::behind_streams::behind_streams;
use disk_file::{FileDisk, OpenError};
use keri_outside::Failed;
use shelf_log::Disk;
use std::fs::File;
use std::io::Read;
use std::{fs, io};

/// How a file is opened.
#[derive(Clone, Copy)]
pub(crate) enum Access {
    /// To be read alone. It has to be there.
    Read,
    /// To be read and written. Where there is none it is made.
    Kept,
}

/// What was opened, maybe the path that it was opened by, which isn't kept where there was no memory for it, and how it
/// was opened. Path and way are for contracts alone.
#[derive(Drop)]
pub(crate) struct Opened<T> {
    path: Option<String>,
    access: Access,
    what: T,
}

/// Opens the file of a path, to be read alone.
pub(crate) fn open_file(rt: &HostRuntime, path: &str) -> io::Result<Opened<File>>
    ensures { IfOk result (IsOpenedAt path.now Access.Read) }
{
    let what = behind_streams(fs::open(rt, path)?)?;
    Ok(Opened {
        path: String::from_str(rt.alloc(), path).ok(),
        access: Access::Read,
        what,
    })
}

/// Opens the file of a path as a disk, unless another process has it open as a disk, or this one.
pub(crate) fn open_disk(
    rt: &HostRuntime,
    path: &str,
    access: Access,
) -> Result<Opened<FileDisk>, OpenError>
    ensures opened { IfOk result (IsOpenedAt path.now access) }
    ensures none_yet { IfOk result (λ disk. disk_faults (what_opened disk) ≡ 0) }
{
    let what = match access {
        Access::Read => FileDisk::open_to_read(rt, path)?,
        Access::Kept => FileDisk::open(rt, path)?,
    };
    Ok(Opened {
        path: String::from_str(rt.alloc(), path).ok(),
        access,
        what,
    })
}

impl<R: Read> Read for Opened<R> {
    ghost use Rattle.keri.specs.Opened.{what_opened};

    ghost remaining = { λ opened. R.remaining (what_opened opened) };

    fn read(&mut self, buf: &mut [u8]) -> io::Result<usize> {
        self.what.read(buf)
    }
}

impl<D: Disk> Disk for Opened<D> {
    ghost use Rattle.keri.specs.Opened.{what_opened};

    ghost shown = { λ opened. D.shown (what_opened opened) };

    fn size(&mut self) -> Result<u64, Failed> {
        self.what.size()
    }

    fn read(&mut self, place: u64, buf: &mut [u8]) -> Result<(), Failed> {
        self.what.read(place, buf)
    }

    fn write_at(&mut self, place: u64, bytes: &[u8]) -> Result<(), Failed> {
        self.what.write_at(place, bytes)
    }

    fn cut(&mut self, size: u64) -> Result<(), Failed> {
        self.what.cut(size)
    }

    fn sync(&mut self) -> Result<(), Failed> {
        self.what.sync()
    }

    // Its images are those of what was opened.
    ghost reads_an_image = { λ opened. D.reads_an_image (what_opened opened) };

    ghost counts_now = { λ opened. D.counts_now (what_opened opened) };

    ghost only_now = { λ opened. D.only_now (what_opened opened) };
}
