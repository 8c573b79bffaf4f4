//! Places in memory at which peers come.
ghost use Rattle.std.specs.Prelude.{◌≡◌, ◌≤◌, ◌++◌, ◌∷◌, [], Some, length, take, drop};

use crate::{Handle, LinkAct, Listen, SteadyRead, SteadyWrite};
use lists::Items;
use std::alloc::Global;
use std::io;
use std::io::{ErrorKind, Read, Write};

/// A place in memory, which shows the links that are left, and what it is asked while there is memory for that.
#[derive(Drop)]
pub struct MemListener {
    alloc: Global,
    links: Vec<Items<u8>>,
    number: u64,
    acts: Option<Items<LinkAct>>,
}

impl MemListener {
    ghost use Rattle.edges.specs.Acts.{Grows};
    ghost use Rattle.edges.specs.Memory.{listener_acts, listener_left};

    /// A place at which links of these bytes come. Peers are numbered from 0.
    pub fn new(alloc: Global, links: Vec<Items<u8>>) -> MemListener
        ensures left { listener_left result ≡ Some links.items }
        ensures acts { listener_acts result ≡ Some [] }
    {
        MemListener {
            alloc,
            links,
            number: 0,
            acts: Some(Items::new(alloc)),
        }
    }

    /// What it was asked, while there was memory for that.
    pub fn acts(&self) -> Option<&[LinkAct]> {
        match &self.acts {
            Some(acts) => Some(acts.as_slice()),
            None => None,
        }
    }

    // Keeps what it is asked.
    fn note(&mut self, act: LinkAct)
        ensures acts { Grows (listener_acts self.old) (listener_acts self.new) (act ∷ []) }
        ensures left { listener_left self.new ≡ listener_left self.old }
    {
        if let Some(mut acts) = self.acts.take() {
            if acts.push(act).is_ok() {
                self.acts = Some(acts);
            }
        }
    }
}

impl Listen for MemListener {
    ghost use Rattle.edges.specs.Memory.{listener_acts, listener_left};

    type Handle = MemHandle;

    ghost left = { listener_left };

    ghost acts = { listener_acts };

    fn accept(&mut self) -> io::Result<MemHandle> {
        self.note(LinkAct::Asked);
        if self.links.is_empty() {
            return Err(io::Error::from(ErrorKind::NotConnected));
        }
        let bytes = self.links.remove(0);
        let peer = self.number;
        self.number = self.number.saturating_add(1);
        Ok(MemHandle {
            alloc: self.alloc,
            peer,
            bytes,
        })
    }

    fn end(&mut self, link: MemHandle) {
        self.note(LinkAct::Ended { peer: link.peer });
    }
}

/// A handle of a link in memory. The first one has what the peer sends.
#[derive(Drop)]
pub struct MemHandle {
    alloc: Global,
    peer: u64,
    bytes: Items<u8>,
}

impl Handle for MemHandle {
    ghost use Rattle.edges.specs.Memory.{handle_peer, handle_sent, reader_peer, writer_peer};

    type Reader = MemReader;

    type Writer = MemWriter;

    ghost peer = { handle_peer };

    ghost read_peer = { reader_peer };

    ghost written_peer = { writer_peer };

    ghost sent = { handle_sent };

    fn again(&self) -> io::Result<MemHandle> {
        Ok(MemHandle {
            alloc: self.alloc,
            peer: self.peer,
            bytes: Items::new(self.alloc),
        })
    }

    fn reader(self) -> MemReader {
        MemReader {
            peer: self.peer,
            bytes: self.bytes,
            place: 0,
        }
    }

    fn writer(self) -> io::Result<MemWriter> {
        Ok(MemWriter {
            peer: self.peer,
            written: Vec::new(self.alloc),
        })
    }
}

/// What reads a link in memory.
#[derive(Drop)]
pub struct MemReader {
    peer: u64,
    bytes: Items<u8>,
    place: usize,
    ghost in_bytes: { place ≤ length bytes },
}

impl Read for MemReader {
    ghost use Rattle.edges.specs.Memory.{reader_left};

    ghost remaining = { λ reader. Some (reader_left reader) };

    fn read(&mut self, buf: &mut [u8]) -> io::Result<usize> {
        let mut left = &self.bytes.as_slice()[self.place..];
        let count = left.read(buf)?;
        self.place += count;
        Ok(count)
    }
}

impl SteadyRead for MemReader {
    ghost use Rattle.std.specs.Prelude.{true, refl};

    ghost shows_left = { true };

    ghost steady = { λ reader. refl };
}

/// What writes to a link in memory.
#[derive(Drop)]
pub struct MemWriter {
    peer: u64,
    written: Vec<u8>,
}

impl Write for MemWriter {
    ghost use Rattle.edges.specs.Memory.{writer_has};

    ghost contents = { λ writer. Some (writer_has writer) };

    fn write(&mut self, bytes: &[u8]) -> io::Result<usize> {
        self.written.write(bytes)
    }

    fn flush(&mut self) -> io::Result<()> {
        Ok(())
    }
}

impl SteadyWrite for MemWriter {
    ghost use Rattle.std.specs.Prelude.{true, refl};

    ghost shows_written = { true };

    ghost steady = { λ writer. refl };
}
