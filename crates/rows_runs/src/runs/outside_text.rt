//! Outsides in memory, as rows set them up.
ghost use Rattle.std.specs.Prelude.{◌≤◌};

use crate::disks::failing_of;
use keri_outside::{Limits, MemGate, MemSink, VerdictRule};
use lists::Items;
use rows::Row;
use run_status::{MemAddress, MemDiskFile, MemFile, MemHelper, MemOutside, MemPeer};
use std::alloc::{AllocError, Global};

/// The name of the file that holds a stream.
const FILE: &[u8] = b"a";

/// The name of standard input, which holds the same.
const INPUT: &[u8] = b"-";

/// The name of the file that holds a plan.
const PLAN: &[u8] = b"p";

/// The names of the files of a shelf and of an old one.
const SHELF: &[u8] = b"shelf";

const OLD: &[u8] = b"old";

/// The name of the one door.
const DOOR: &[u8] = b"door";

/// The name of the one helper.
const HELPER: &[u8] = b"rehearsal";

/// So many bytes a read gives at most, unless the row says fewer.
const PIECE: u64 = 4_096;

/// So many turns a reader waits for the others at most, unless the row says fewer.
const MOST_TURNS: u64 = 4_000_000;

// The place of the word behind the name, among those behind the command line; a place behind all where the name is none of
// them.
fn place_of(row: &Row, name: &str) -> usize {
    for place in 3..row.len() {
        if row.word(place - 1) == name {
            return place;
        }
    }
    row.len()
}

// The number behind the name, or this one where there is none or a greater one.
fn lowered(row: &Row, name: &str, most: u64) -> u64
    ensures { result ≤ most }
{
    let word = row.word(place_of(row, name));
    word.parse::<u64>().unwrap_or(most).min(most)
}

// The limits of the program, each lowered to what the row says.
fn limits_of(row: &Row) -> Limits {
    let mut limits = Limits::standard();
    limits.body = lowered(row, "body", u64::from(limits.body)) as u32;
    limits.messages = lowered(row, "messages", u64::from(limits.messages)) as u32;
    limits.body_bytes = lowered(row, "body_bytes", u64::from(limits.body_bytes)) as u32;
    limits.signatures = lowered(row, "signatures", u64::from(limits.signatures)) as u32;
    let elements = u64::from(limits.message_signatures);
    limits.message_signatures = lowered(row, "message_signatures", elements) as u16;
    limits.stream_bytes = lowered(row, "stream_bytes", limits.stream_bytes);
    limits.turns = lowered(row, "turns", limits.turns);
    limits.records = lowered(row, "records", u64::from(limits.records)) as u32;
    limits.shelf_bytes = lowered(row, "shelf_bytes", u64::from(limits.shelf_bytes)) as u32;
    limits
}

// The numbers of the calls that are to fail, which stand behind the name.
fn failing(alloc: Global, row: &Row, name: &str) -> Result<Items<u64>, AllocError> {
    failing_of(alloc, row, place_of(row, name))
}

// The bytes of a name.
fn named(alloc: Global, name: &[u8]) -> Result<Items<u8>, AllocError> {
    Ok(Items::from_vec(Vec::from_slice(alloc, name)?))
}

// A file of a name, by the words for its text and for its reads that fail.
fn file_of(
    alloc: Global,
    row: &Row,
    name: &[u8],
    text: &str,
    reads: &str,
) -> Result<MemFile, AllocError> {
    Ok(MemFile {
        name: named(alloc, name)?,
        bytes: Items::from_vec(row.bytes(alloc, place_of(row, text))?),
        piece: lowered(row, "piece", PIECE).max(1) as usize,
        failing: failing(alloc, row, reads)?,
    })
}

// Standard input and the two files.
fn files_of(alloc: Global, row: &Row) -> Result<Items<MemFile>, AllocError> {
    let mut files = Items::new(alloc);
    files.push(file_of(alloc, row, FILE, "text", "reads")?)?;
    files.push(file_of(alloc, row, INPUT, "text", "reads")?)?;
    files.push(file_of(alloc, row, PLAN, "plan", "plan_reads")?)?;
    Ok(files)
}

// What the helper says.
fn rule_of(row: &Row) -> VerdictRule {
    match row.word(place_of(row, "says")) {
        "yes" => VerdictRule::Always(true),
        "no" => VerdictRule::Always(false),
        _ => VerdictRule::Rehearsal,
    }
}

// The one helper.
fn helpers_of(alloc: Global, row: &Row) -> Result<Items<MemHelper>, AllocError> {
    let helper = MemHelper {
        name: named(alloc, HELPER)?,
        rule: rule_of(row),
        failing_asks: failing(alloc, row, "asks")?,
        failing_signings: failing(alloc, row, "signings")?,
    };
    let mut helpers = Items::new(alloc);
    helpers.push(helper)?;
    Ok(helpers)
}

// The file of a disk of a name, which is there only where the row has the word for its bytes, put behind these; and its calls
// that fail.
fn add_disk(
    alloc: Global,
    row: &Row,
    name: &[u8],
    text: &str,
    calls: &str,
    disks: &mut Items<MemDiskFile>,
) -> Result<(), AllocError> {
    let place = place_of(row, text);
    if place == row.len() {
        return Ok(());
    }
    disks.push(MemDiskFile {
        name: named(alloc, name)?,
        bytes: Items::from_vec(row.bytes(alloc, place)?),
        failing: failing(alloc, row, calls)?,
    })?;
    Ok(())
}

// The files of disks.
fn disks_of(alloc: Global, row: &Row) -> Result<Items<MemDiskFile>, AllocError> {
    let mut disks = Items::new(alloc);
    add_disk(alloc, row, SHELF, "shelf", "shelf_calls", &mut disks)?;
    add_disk(alloc, row, OLD, "old", "old_calls", &mut disks)?;
    Ok(disks)
}

// The numbers of the calls of a link that are to fail, which stand behind the name. They are those of each link, or of the one
// that the row names.
fn failing_at(alloc: Global, row: &Row, name: &str, link: u8) -> Result<Items<u64>, AllocError> {
    match row.word(place_of(row, "at_link")).parse::<u8>() {
        Ok(named) if named != link => Ok(Items::new(alloc)),
        _ => failing(alloc, row, name),
    }
}

// The link of this number, which holds what the file `a` does.
fn peer_of(alloc: Global, row: &Row, link: u8) -> Result<MemPeer, AllocError> {
    Ok(MemPeer {
        bytes: Items::from_vec(row.bytes(alloc, place_of(row, "text"))?),
        piece: lowered(row, "piece", PIECE).max(1) as usize,
        failing_reads: failing_at(alloc, row, "reads", link)?,
        failing_puts: failing_at(alloc, row, "link_puts", link)?,
    })
}

// The one door, at which so many links come as the row says.
fn doors_of(alloc: Global, row: &Row) -> Result<Items<MemAddress>, AllocError> {
    let count = row.word(place_of(row, "links")).parse::<u8>().unwrap_or(0);
    let mut peers = Items::new(alloc);
    for link in 0..count {
        peers.push(peer_of(alloc, row, link)?)?;
    }
    let mut doors = Items::new(alloc);
    doors.push(MemAddress {
        name: named(alloc, DOOR)?,
        peers,
        failing: failing(alloc, row, "door_calls")?,
    })?;
    Ok(doors)
}

/// How many readers are to meet, or 0 where the row doesn't say.
pub(crate) fn awaited(row: &Row) -> u16 {
    row.word(place_of(row, "gate")).parse::<u16>().unwrap_or(0)
}

// The gate where the readers meet.
fn gate_of(row: &Row) -> MemGate {
    MemGate::new(awaited(row), lowered(row, "waits", MOST_TURNS) as u32)
}

/// The outside of a row: behind its command line stand names, each with a value behind it. `text` is what the file `a` and
/// standard input hold, `plan` what `p` does, `shelf` and `old` what the files of these names do, which aren't there else, `piece`
/// how many bytes a read gives at most, and `says yes` or `says no` what the helper says of everything; else it is the rehearsal.
/// `reads`, `plan_reads`, `asks`, `signings`, `puts`, `shelf_calls`, `old_calls` and `makings` are the numbers of the calls that
/// fail, counted from 0, with a comma between two of them; `links` is how many links come at the address `door`, each of which
/// holds what `a` does, and `door_calls` and `link_puts` are the calls of it and of each link's sink that fail. Behind `at_link`
/// stands the number of the one link whose reads and puts fail. `gate` is how many readers are to meet before their first message,
/// and `waits` how many turns each waits for the others at most. The others are limits, by their names.
pub(crate) fn outside_of(alloc: Global, row: &Row) -> Result<MemOutside, AllocError> {
    let files = files_of(alloc, row)?;
    let helpers = helpers_of(alloc, row)?;
    let disks = disks_of(alloc, row)?;
    let sink = MemSink::new(alloc, failing(alloc, row, "puts")?);
    let makings = failing(alloc, row, "makings")?;
    let doors = doors_of(alloc, row)?;
    Ok(
        MemOutside::new(alloc, files, sink, makings, limits_of(row))
            .with_helpers(helpers)
            .with_disks(disks)
            .with_doors(doors)
            .with_gate(gate_of(row)),
    )
}
