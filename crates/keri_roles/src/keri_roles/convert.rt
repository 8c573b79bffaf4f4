//! `convert --to DOMAIN FILE`: writes the items of a file in that domain.
ghost use Rattle.std.specs.Prelude.{◌≡◌, ◌<◌, [], map};
ghost use Rattle.std.specs.Vec.{vec_capacity};
ghost use Rattle.run_status.specs.RunStatus.Readers.{reader_seen};
ghost use Rattle.keri_roles.specs.ItemConversion.Converts.{Converts};
ghost use Rattle.keri_roles.specs.KeriRoles.Converted.{ConvertsFile, IsConverted};
ghost use Rattle.keri_roles.specs.KeriRoles.Converted as specs;
ghost use Rattle.keri_roles.specs.CoreRoles.Work.{MakesSource};

use crate::item_conversion::{Conversion, convert_items};
use crate::keri_roles::serves::Serves;
use crate::keri_roles::{Close, Done, ReaderEnd, Runs};
use cesr_binary::Domain;
use keri_outside::{Failed, Limits};
use lists::Items;
use run_status::{Besides, NO_MEMORY, Outside, nothing_told, status_by};
use std::alloc::Global;

// The status where the sink failed.
const WRITE_FAULT: u8 = 6;

/// Reads the stream of the file, and writes each item as soon as it is whole. The readers have room for the one that
/// there is.
pub(crate) fn convert<O: Outside>(
    alloc: Global,
    domain: Domain,
    name: &str,
    readers: Vec<ReaderEnd<O::Source, O::Verifier>>,
    outside: &mut O,
) -> Done<O>
    requires none_yet { readers.items ≡ [] }
    requires room { 0 < vec_capacity readers }
    ensures converted { IsConverted domain name.now (⟦<O as Runs>⟧.run outside.old outside.new result) }
    ensures no_second { result.second ≡ None }
{
    let mut readers = readers;
    let limits = outside.limits();
    let (source, conversion) = convert_file(alloc, domain, name, limits, outside);
    let end = ReaderEnd {
        source,
        verifier: None,
        refused: Vec::new(alloc),
        seen: Items::new(alloc),
        close: conversion.close,
    };
    readers.push(end).unwrap();
    Done {
        status: conversion_status::<O>(conversion, readers.as_slice()),
        journal: nothing_told(alloc),
        readers,
        signer: None,
        disk: None,
        old: None,
        door: None,
        sinks: Vec::new(alloc),
        second: None,
    }
}

// Makes the source of the file and converts its stream, where it could be made.
fn convert_file<O: Outside>(
    alloc: Global,
    domain: Domain,
    name: &str,
    limits: Limits,
    outside: &mut O,
) -> (Option<O::Source>, Conversion)
    ensures makes { MakesSource name.now result.0 (O.shown outside.old) (O.shown outside.new) }
    ensures converts { ConvertsFile limits domain name.now
        (⟦<O as Serves>⟧.serving outside.old outside.new result.0) result.1 }
{
    match outside.source(name) {
        Ok(source) => {
            let mut source = source;
            let conversion = convert_stream(alloc, domain, &mut source, limits, outside);
            (Some(source), conversion)
        }
        Err(Failed) => (
            None,
            Conversion {
                close: Close::ReadFault,
                sink_failed: false,
            },
        ),
    }
}

// Converts the stream of a source, and writes to the sink of the outside.
fn convert_stream<O: Outside>(
    alloc: Global,
    domain: Domain,
    source: &mut O::Source,
    limits: Limits,
    outside: &mut O,
) -> Conversion
    ensures converts { Converts limits domain (⟦<O as Serves>⟧.ends source.old outside.old)
        (⟦<O as Serves>⟧.ends source.new outside.new) result }
    ensures shown { O.shown outside.new ≡ O.shown outside.old }
{
    convert_items(alloc, source, outside.out(), limits, domain)
}

// The status by how the conversion ended: that of the sink first, which failed before reading ended.
fn conversion_status<O: Outside>(
    conversion: Conversion,
    readers: &[ReaderEnd<O::Source, O::Verifier>],
) -> u8
    ensures { result ≡ specs.conversion_status conversion
        (map (reader_seen O.Source.left O.Source.faults O.Verifier.says O.Verifier.inquiries O.Verifier.faults)
        readers.now) }
{
    if conversion.sink_failed {
        return WRITE_FAULT;
    }
    match conversion.close {
        Close::OutOfMemory => NO_MEMORY,
        Close::End
        | Close::Bad(_)
        | Close::ReadFault
        | Close::VerifierFault
        | Close::SignerFault
        | Close::DiskFault
        | Close::WriteFault
        | Close::Malformed(_)
        | Close::LimitReached => status_by::<O>(Besides::nothing(), readers),
    }
}
