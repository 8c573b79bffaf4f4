//! Standard output.

use disk_file::file_size_limit;
use edges::{room_in_file, write_within};
use std::io::{Stdout, Write};
use std::{fs, io};

/// Standard output. Where it is a file, no byte is written at the greatest size that files may have or behind it: the system
/// raises a signal for that, which would end the program.
#[derive(Drop)]
pub(crate) struct StandardOutput<W: Write + Drop> {
    output: W,
    // The file's size before the first write, where it is a file: where writes append, the first one goes there, and not to
    // the position.
    size: Option<u64>,
}

impl StandardOutput<Stdout> {
    /// That of this process.
    pub(crate) fn new(rt: &HostRuntime) -> StandardOutput<Stdout> {
        let size = match fs::metadata(rt, "/dev/stdout") {
            Ok(found) if found.is_file() => Some(found.len()),
            _ => None,
        };
        StandardOutput {
            output: rt.stdout(),
            size,
        }
    }
}

impl<W: Write + Drop> StandardOutput<W> {
    // How many bytes may be written yet.
    fn room(&self) -> u64 {
        let (position, limit) = match self.size {
            Some(_) => (
                libc::lseek(libc::STDOUT_FILENO, 0, libc::SEEK_CUR),
                file_size_limit(),
            ),
            None => (0, u64::MAX),
        };
        room_in_file(self.size, u64::try_from(position).unwrap_or(0), limit)
    }
}

// What was written is what the writer below has, as far as that one shows it: no byte is passed over.
impl<W: Write + Drop> Write for StandardOutput<W> {
    ghost contents = { λ it. W.contents it.output };

    fn write(&mut self, bytes: &[u8]) -> io::Result<usize> {
        let room = self.room();
        write_within(&mut self.output, room, bytes)
    }

    fn flush(&mut self) -> io::Result<()> {
        self.output.flush()
    }
}
