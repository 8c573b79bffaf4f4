//! Links over TCP that are held to a time.

use std::io;
use std::io::{Read, Write};
use std::net::TcpStream;
use std::time::{Duration, Instant};

/// So many seconds a read or a write waits for the peer at most.
const SILENCE_SECONDS: u64 = 30;

/// So many seconds a link is read, and so many it is written, from when its time begins.
const LINK_SECONDS: u64 = 300;

/// A handle of a link. A read or a write fails where the peer keeps it waiting too long, and where the time of
/// the link is up.
#[derive(Drop)]
pub(crate) struct TimedLink {
    rt: HostRuntime,
    // The number of its peer, for contracts alone.
    peer: u64,
    link: TcpStream,
    // The end of its time, once that has begun.
    end: Option<Instant>,
}

impl TimedLink {
    ghost use Rattle.std.specs.Prelude.{◌≡◌, IfOk};
    ghost use Rattle.keri.specs.Peers.{peer_of};

    /// A handle whose time begins with the first read or write.
    pub(crate) fn new(rt: HostRuntime, peer: u64, link: TcpStream) -> TimedLink
        ensures { peer_of result ≡ peer }
    {
        TimedLink {
            rt,
            peer,
            link,
            end: None,
        }
    }

    /// It, with a time that begins now.
    pub(crate) fn begun(self) -> io::Result<TimedLink>
        ensures { IfOk result (λ begun. peer_of begun ≡ peer_of self) }
    {
        let mut begun = self;
        begun.wait()?;
        Ok(begun)
    }

    // How long a read or a write that is asked for now may wait. Once the time of the link is up that is nothing,
    // which is refused as a limit.
    fn wait(&mut self) -> io::Result<Duration>
        ensures { peer_of self.new ≡ peer_of self.old }
    {
        let now = Instant::now(&self.rt)?;
        let end = match self.end {
            Some(end) => end,
            None => now
                .checked_add(Duration::from_secs(LINK_SECONDS))
                .unwrap_or(now),
        };
        self.end = Some(end);
        let left = end.saturating_duration_since(now);
        Ok(left.min(Duration::from_secs(SILENCE_SECONDS)))
    }
}

impl Read for TimedLink {
    fn read(&mut self, buf: &mut [u8]) -> io::Result<usize> {
        let wait = self.wait()?;
        self.link.set_read_timeout(Some(wait))?;
        self.link.read(buf)
    }
}

impl Write for TimedLink {
    fn write(&mut self, buf: &[u8]) -> io::Result<usize> {
        let wait = self.wait()?;
        self.link.set_write_timeout(Some(wait))?;
        self.link.write(buf)
    }

    fn flush(&mut self) -> io::Result<()> {
        self.link.flush()
    }
}
