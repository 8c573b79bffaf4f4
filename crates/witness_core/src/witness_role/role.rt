//! `witness --helper HELPER --prefix KEY --shelf SHELF --from OLD`, and behind it FILE, or `--listen ADDRESS --links COUNT`: stores
//! the events of a file or of links, and writes receipts of them.
ghost use Rattle.std.specs.Prelude.{◌≡◌, ◌≢◌, ◌<◌, ◌≤◌, [], Some, false, IfOk, string_bytes};
ghost use Rattle.std.specs.Vec.{vec_capacity};
ghost use Rattle.command_words.specs.Inputs.{inputs_by};
ghost use Rattle.cesr_codes.specs.declared.key.KeyCode.TheVariants.{Fixed};
ghost use Rattle.journal.specs.declared.journal.resume_fault.ResumeFault.TheVariants.{OutOfMemory};
ghost use Rattle.witness_core.specs.WitnessRole.Witnessed.{IsUnopened, IsUnread, IsWitnessedBy, ServesInput, StartsOver, count_in, start_found, start_text};

use crate::witness_core::{StartFault, Witness};
use crate::witness_link::LeftView;
use crate::witness_opening::{NotOpened, Opened, log_line, open_shelf};
use crate::witness_role::links_kept::{LinksKept, room_for};
use crate::witness_role::unread::unread;
use crate::witness_role::viewed::WitnessOf;
use crate::witness_role::witness_file::serve_file;
use crate::witness_role::witness_links::serve_links;
use cesr_codes::Key;
use command_words::Inputs;
use journal::ResumeFault;
use keri_outside::{Door, Limits};
use run_status::{Besides, Done, Outside, ReaderEnd, Runs};
use std::alloc::{AllocError, Global};

/// The words of `witness`: its helper, its key, the names of its shelf and of an old one to bring over, and what it serves.
#[derive(Drop)]
pub struct WitnessWords<'a> {
    pub helper: &'a str,
    pub prefix: Key,
    pub shelf: &'a str,
    pub from: Option<&'a str>,
    pub input: Inputs<'a, &'a str>,
}

/// Opens the shelf, starts a witness from it, and serves it the file or the links. The readers have room for one.
pub fn witness<O: Outside>(
    alloc: Global,
    words: WitnessWords<'_>,
    readers: Vec<ReaderEnd<O::Source, O::Verifier>>,
    outside: &mut O,
) -> Done<O>
    requires none_yet { readers.items ≡ [] }
    requires room { 0 < vec_capacity readers }
    requires fixed { words.prefix.code ≡ Fixed }
    ensures witnessed { IsWitnessedBy O.Disk.shown result.disk result.old words.entry
        (⟦<O as Runs>⟧.run outside.old outside.new result) }
    ensures no_second { result.second ≡ None }
{
    let limits = outside.limits();
    match open_shelf(alloc, words.shelf, words.from, limits, outside) {
        Ok(opened) => start(alloc, words, limits, opened, readers, outside),
        Err(none) => unopened(alloc, none, readers, outside),
    }
}

// Says why there is no shelf.
fn unopened<O: Outside>(
    alloc: Global,
    none: NotOpened<O::Disk>,
    readers: Vec<ReaderEnd<O::Source, O::Verifier>>,
    outside: &mut O,
) -> Done<O>
    requires none_yet { readers.items ≡ [] }
    ensures disk { result.disk ≡ none.disk }
    ensures old { result.old ≡ none.old }
    ensures no_second { result.second ≡ None }
    ensures unopened { IsUnopened none.fault (⟦<O as Runs>⟧.run outside.old outside.new result) }
    ensures shown { O.shown outside.new ≡ O.shown outside.old }
{
    let NotOpened { fault, disk, old } = none;
    let line = fault.text(alloc).ok();
    unread(alloc, line, fault.found(), disk, old, readers, outside)
}

// Starts a witness from the shelf, where there is room for the links, and serves it.
fn start<O: Outside>(
    alloc: Global,
    words: WitnessWords<'_>,
    limits: Limits,
    opened: Opened<O::Disk>,
    readers: Vec<ReaderEnd<O::Source, O::Verifier>>,
    outside: &mut O,
) -> Done<O>
    requires none_yet { readers.items ≡ [] }
    requires room { 0 < vec_capacity readers }
    requires fixed { words.prefix.code ≡ Fixed }
    requires limits { opened.shelf.limits ≡ limits }
    requires whole { opened.shelf.broken ≡ false }
    ensures old { result.old ≡ opened.old }
    ensures no_second { result.second ≡ None }
    ensures starts { StartsOver O.Disk.shown result.disk words.entry.helper.now words.entry.prefix
        (inputs_by (λ name. name.now) words.entry.input) limits opened.shelf.disk opened.shelf.list
        (⟦<O as Runs>⟧.run outside.old outside.new result) }
{
    let Opened { shelf, old } = opened;
    let Ok(kept) = room_for(alloc, readers, links_in(&words.input)) else {
        let fault = ResumeFault::OutOfMemory;
        return unstarted(
            alloc,
            StartFault { shelf, fault },
            old,
            Vec::new(alloc),
            outside,
        );
    };
    match Witness::start(alloc, words.prefix, shelf, limits) {
        Ok(witness) => {
            witness.sound();
            serve(
                alloc,
                words.helper,
                words.input,
                witness,
                old,
                kept,
                outside,
            )
        }
        Err(none) => unstarted(alloc, none, old, kept.readers, outside),
    }
}

// How many links are to be served.
fn links_in<N>(input: &Inputs<'_, N>) -> usize
    ensures { result ≡ count_in input.now }
{
    match input {
        Inputs::Named(_) => 0,
        Inputs::Links(links) => usize::from(links.count),
    }
}

// Serves the witness the file, or the links, for which there is room.
fn serve<O: Outside>(
    alloc: Global,
    helper: &str,
    input: Inputs<'_, &str>,
    witness: Witness<O::Disk>,
    old: Option<O::Disk>,
    kept: LinksKept<O::Source, O::Verifier, <O::Door as Door>::Sink>,
    outside: &mut O,
) -> Done<O>
    requires no_readers { kept.readers.items ≡ [] }
    requires no_sinks { kept.sinks.items ≡ [] }
    requires readers { count_in input ≤ vec_capacity kept.readers }
    requires sinks { count_in input ≤ vec_capacity kept.sinks }
    requires one { 0 < vec_capacity kept.readers }
    requires whole { witness.broken ≡ false }
    ensures old { result.old ≡ old }
    ensures no_second { result.second ≡ None }
    ensures serves { ServesInput O.Disk.shown witness.key witness.limits helper.now (inputs_by (λ name. name.now) input.entry)
        (⟦<WitnessOf<O> as LeftView>⟧.left witness)
        result.disk (⟦<O as Runs>⟧.run outside.old outside.new result) }
{
    match input {
        Inputs::Named(name) => serve_file(alloc, helper, name, witness, old, kept.readers, outside),
        Inputs::Links(links) => serve_links(alloc, helper, links, witness, old, kept, outside),
    }
}

// Says why no witness starts from the list of the shelf.
fn unstarted<O: Outside>(
    alloc: Global,
    none: StartFault<O::Disk>,
    old: Option<O::Disk>,
    readers: Vec<ReaderEnd<O::Source, O::Verifier>>,
    outside: &mut O,
) -> Done<O>
    requires none_yet { readers.items ≡ [] }
    ensures disk { result.disk ≡ Some none.shelf.disk }
    ensures old { result.old ≡ old }
    ensures no_second { result.second ≡ None }
    ensures unread { IsUnread (none.fault ≡ OutOfMemory) (start_text none.fault) (start_found none.fault)
        (⟦<O as Runs>⟧.run outside.old outside.new result) }
    ensures shown { O.shown outside.new ≡ O.shown outside.old }
{
    let StartFault { shelf, fault } = none;
    let line = line_of(alloc, fault).ok();
    let disk = Some(shelf.into_disk());
    unread(alloc, line, found_by(fault), disk, old, readers, outside)
}

// The line of a list with which no witness starts. There is none where there was no memory.
fn line_of(alloc: Global, fault: ResumeFault) -> Result<String, AllocError>
    ensures { IfOk result (λ line. (fault ≢ OutOfMemory) × (string_bytes line ≡ start_text fault)) }
{
    match fault {
        ResumeFault::NotALog(number) => log_line(alloc, number),
        ResumeFault::OutOfMemory => Err(AllocError),
    }
}

// What is found by it.
fn found_by(fault: ResumeFault) -> Besides
    ensures { result ≡ start_found fault }
{
    match fault {
        ResumeFault::NotALog(_) => Besides {
            shelf_refused: true,
            ..Besides::nothing()
        },
        ResumeFault::OutOfMemory => Besides::nothing(),
    }
}
