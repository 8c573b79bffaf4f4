//! What comes at the addresses of an outside in memory.
ghost use Rattle.std.specs.Prelude.{◌≡◌, map, IfOk, IfSome};
ghost use Rattle.std.specs.Option.{option_map};
ghost use Rattle.keri_outside.specs.Doors.{door_left, door_faults};
ghost use Rattle.run_status.specs.RunOutside.Addresses.{address_named, links_under};

use crate::run_outside::{MemAddress, MemPeer};
use keri_outside::{MemDoor, MemLink};
use lists::{CopyValue, Items};
use std::alloc::{AllocError, Global};

// The first address of a name.
fn find<'a>(addresses: &'a [MemAddress], name: &str) -> Option<&'a MemAddress>
    ensures { option_map (λ address. address.now) result ≡ address_named addresses.now name.now }
{
    addresses
        .iter()
        .find(|address| address.name.as_slice() == name.as_bytes())
}

// Links of the peers.
fn links_of(alloc: Global, peers: &[MemPeer]) -> Result<Vec<MemLink>, AllocError>
    ensures { IfOk result (λ links. map (λ link. link.bytes) links.items ≡ map (λ peer. peer.bytes) peers.now) }
{
    let mut links = Vec::new(alloc);
    for peer in peers {
        links.push(peer.link(alloc)?)?;
    }
    Ok(links)
}

// A door of the name, where there is an address and memory for its links.
pub(crate) fn door_of(alloc: Global, addresses: &[MemAddress], name: &str) -> Option<MemDoor>
    ensures left { IfSome result (λ door. door_left door ≡ links_under addresses.now name.now) }
    ensures faults { IfSome result (λ door. door_faults door ≡ 0) }
{
    let Some(address) = find(addresses, name) else {
        return None;
    };
    let Ok(links) = links_of(alloc, address.peers.as_slice()) else {
        return None;
    };
    let Ok(failing) = address.failing.copy(alloc) else {
        return None;
    };
    Some(MemDoor::new(alloc, Items::from_vec(links), failing))
}
