//! Where links come over TCP.
ghost use Rattle.std.specs.Prelude.{◌≡◌, IfOk};
ghost use Rattle.std.specs.Net.Grammar.{IsSocketText};
ghost use Rattle.keri.specs.Links.{door_address, door_faults};

use crate::behind_streams::behind_streams;
use crate::real_sink::{RealSink, Target};
use crate::real_source::{Origin, RealSource};
use crate::timed_link::TimedLink;
use edges::{DoorOver, Handle, Listen};
use keri_outside::{Caller, Door, Failed};
use std::io;
use std::io::ErrorKind;
use std::net::{Shutdown, SocketAddr, TcpListener, TcpStream};

/// A door at an address, which shows no links.
#[derive(Drop)]
pub(crate) struct TcpDoor {
    door: DoorOver<TcpPlace, TcpHandle>,
}

impl Door for TcpDoor {
    ghost use Rattle.std.specs.Prelude.{None};

    type Source = RealSource;

    type Sink = RealSink;

    ghost left = { λ _. None };

    ghost faults = { door_faults };

    fn next(&mut self) -> Result<Option<Caller<RealSource, RealSink>>, Failed> {
        self.door.next()
    }
}

/// An address at which peers come.
#[derive(Drop)]
pub(crate) struct TcpPlace {
    rt: HostRuntime,
    address: SocketAddr,
    listener: TcpListener,
    number: u64,
}

/// A handle of a link, with the number of its peer.
#[derive(Drop)]
pub(crate) struct TcpHandle {
    rt: HostRuntime,
    peer: u64,
    link: TcpStream,
}

/// Opens a door at an IP address and a port, with a colon between them. An address of version 6 stands in
/// brackets.
pub(crate) fn open_door(rt: &HostRuntime, name: &str) -> io::Result<TcpDoor>
    ensures address { IfOk result (λ door. IsSocketText name.now (door_address door)) }
    ensures none_yet { IfOk result (λ door. door_faults door ≡ 0) }
{
    match name.parse::<SocketAddr>() {
        Ok(address) => bind(rt, address),
        Err(_) => Err(io::Error::from(ErrorKind::InvalidInput)),
    }
}

// Opens a door at an address. Closed links of an earlier door there, which the system may still remember,
// don't keep it from that.
fn bind(rt: &HostRuntime, address: SocketAddr) -> io::Result<TcpDoor>
    ensures address { IfOk result (λ door. door_address door ≡ address) }
    ensures none_yet { IfOk result (λ door. door_faults door ≡ 0) }
{
    let listener = behind_streams(TcpListener::bind(rt, address)?)?;
    let place = TcpPlace {
        rt: *rt,
        address,
        listener,
        number: 0,
    };
    let door = DoorOver::new(place);
    Ok(TcpDoor { door })
}

impl Listen for TcpPlace {
    ghost use Rattle.std.specs.Prelude.{None};

    type Handle = TcpHandle;

    ghost left = { λ _. None };

    ghost acts = { λ _. None };

    fn accept(&mut self) -> io::Result<TcpHandle> {
        let (link, _) = self.listener.accept()?;
        let link = behind_streams(link)?;
        let peer = self.number;
        self.number = self.number.saturating_add(1);
        Ok(TcpHandle {
            rt: self.rt,
            peer,
            link,
        })
    }

    fn end(&mut self, link: TcpHandle) {
        // Its peer may have gone, which is no fault of the door.
        let _ = link.link.shutdown(Shutdown::Write);
    }
}

// The time for its receipts begins once it is taken, and that for what it holds with the first read: of several
// links that are taken before one is read none loses time by waiting for the others.
impl Handle for TcpHandle {
    ghost use Rattle.std.specs.Prelude.{None};
    ghost use Rattle.keri.specs.Links.{handle_peer, origin_peer, target_peer};

    type Reader = Origin;

    type Writer = Target;

    ghost peer = { handle_peer };

    ghost read_peer = { origin_peer };

    ghost written_peer = { target_peer };

    ghost sent = { λ _. None };

    fn again(&self) -> io::Result<TcpHandle> {
        Ok(TcpHandle {
            rt: self.rt,
            peer: self.peer,
            link: self.link.try_clone()?,
        })
    }

    fn reader(self) -> Origin {
        let TcpHandle { rt, peer, link } = self;
        Origin::Link(TimedLink::new(rt, peer, link))
    }

    fn writer(self) -> io::Result<Target> {
        let TcpHandle { rt, peer, link } = self;
        Ok(Target::Link(TimedLink::new(rt, peer, link).begun()?))
    }
}
