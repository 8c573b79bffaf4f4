//! Cores that begin with a list of texts.
ghost use Rattle.std.specs.Prelude.{◌≡◌, ◌≤◌, ◌<◌, [], All, IfErr, IfOk, OnOk, length, true};
ghost use Rattle.validator_core.specs.Acceptance.Standing.{IsHeld};
ghost use Rattle.validator_core.specs.Tables.View.{body_of};
ghost use Rattle.journal.specs.declared.journal.resume_fault.ResumeFault.TheVariants.{NotALog};
ghost use Rattle.journal.specs.Journal.Grown.{fits};
ghost use Rattle.validator_core.specs.ValidatorCore.Base.{AcceptsText, AreAccepted, AreRefused, IsBase, IsRefused, IsResumed};
ghost use Rattle.validator_core.specs.ValidatorCore.View.{bytes_of};

use crate::table_changes::accept;
use crate::tables::Tables;
use crate::validator_core::Core;
use crate::validator_core::tally::Tally;
use event_body::{Event, ReadBody, one_event, read_body};
use journal::{Body, Mode, ResumeFault, takes};
use json_tree::Text;
use keri_outside::Limits;
use std::alloc::{AllocError, Global};

impl Core {
    /// A core that begins with a list of texts, which count as accepted in their order.
    pub fn resume(
        alloc: Global,
        mode: Mode,
        limits: Limits,
        base: Vec<Text>,
    ) -> Result<Core, ResumeFault>
        requires { length base.items ≤ 1048576 }
        ensures ok { IfOk result (λ core. IsResumed mode limits base.items core) }
        ensures err { IfErr result (λ fault. AreRefused base.items fault) }
    {
        let count = base.len() as u32;
        let tables = tables_of(alloc, base)?;
        let body_bytes = bytes_in(&tables);
        Ok(Core {
            alloc,
            mode,
            limits,
            base: count,
            tables,
            tally: Tally {
                messages: 0,
                body_bytes,
                signatures: 0,
            },
        })
    }
}

// The tables that have accepted these texts, which have left the escrow.
fn tables_of(alloc: Global, base: Vec<Text>) -> Result<Tables, ResumeFault>
    requires { length base.items ≤ 1048576 }
    ensures ok { IfOk result (λ tables. IsBase base.items tables × (tables.released ≡ length tables.log.numbers)) }
    ensures err { IfErr result (λ fault. AreRefused base.items fault) }
{
    let mut tables = Tables::new(alloc);
    match add_texts(alloc, &mut tables, base) {
        Ok(()) => {
            tables.release();
            Ok(tables)
        }
        Err(fault) => {
            drop(tables);
            Err(fault)
        }
    }
}

// Accepts the texts, one after the other.
fn add_texts(alloc: Global, tables: &mut Tables, base: Vec<Text>) -> Result<(), ResumeFault>
    requires begun { IsBase [] tables.old }
    requires few { length base.items ≤ 1048576 }
    ensures ok { OnOk result (IsBase base.items tables.new) }
    ensures err { IfErr result (λ fault. AreRefused base.items fault) }
{
    for text in base {
        if let Err(fault) = add_text(alloc, tables, text) {
            return Err(fault);
        }
    }
    Ok(())
}

// Accepts a text as the next event.
fn add_text(alloc: Global, tables: &mut Tables, text: Text) -> Result<(), ResumeFault>
    requires accepted { AreAccepted tables.old }
    requires few { length tables.old.held < 1048576 }
    ensures ok { OnOk result (AcceptsText text tables.old tables.new) }
    ensures err { IfErr result (λ fault. IsRefused tables.old.held text fault) }
{
    let event = event_of(alloc, tables, &text)?;
    match add_event(alloc, tables, Body { bytes: text, event }) {
        Ok(()) => Ok(()),
        Err(_) => Err(ResumeFault::OutOfMemory),
    }
}

// The event that a text is, where it fits.
fn event_of(alloc: Global, tables: &Tables, text: &Text) -> Result<Event, ResumeFault>
    requires accepted { AreAccepted tables.now }
    requires few { length tables.now.held < 1048576 }
    ensures held { IfOk result (λ event. IsHeld (body_of text.now event)) }
    ensures fits { IfOk result (λ event. fits tables.now.held (body_of text.now event) ≡ true) }
    ensures err { IfErr result (λ fault. IsRefused tables.now.held text.now fault) }
{
    match read_body(alloc, text.as_slice()) {
        Ok(event) => fitting(tables, text, event),
        Err(ReadBody::Fault(_)) => Err(no_log(tables)),
        Err(ReadBody::OutOfMemory) => Err(ResumeFault::OutOfMemory),
    }
}

// The event, where it fits.
fn fitting(tables: &Tables, text: &Text, event: Event) -> Result<Event, ResumeFault>
    requires accepted { AreAccepted tables.now }
    requires few { length tables.now.held < 1048576 }
    requires held { IsHeld (body_of text.now event) }
    ensures held { IfOk result (λ event. IsHeld (body_of text.now event)) }
    ensures fits { IfOk result (λ event. fits tables.now.held (body_of text.now event) ≡ true) }
    ensures err { IfErr result (λ fault. IsRefused tables.now.held text.now fault) }
{
    one_event();
    if is_fit(tables, text.as_slice(), &event) {
        Ok(event)
    } else {
        drop(event);
        Err(no_log(tables))
    }
}

// Whether the event is new and follows those that are accepted.
fn is_fit(tables: &Tables, text: &[u8], event: &Event) -> bool
    requires accepted { AreAccepted tables.now }
    requires held { IsHeld (body_of text.now event.now) }
    ensures { result ≡ fits tables.now.held (body_of text.now event.now) }
{
    if event.is_receipt() {
        return false;
    }
    match tables.number_of(text, event) {
        Some(_) => false,
        None => takes(tables.log().current(&event.prefix()), event),
    }
}

// That the next text is none.
fn no_log(tables: &Tables) -> ResumeFault
    requires few { length tables.now.held < 1048576 }
    ensures { result ≡ NotALog (length tables.now.held) }
{
    ResumeFault::NotALog(tables.len() as u32)
}

// Accepts an event that fits as the next.
fn add_event(alloc: Global, tables: &mut Tables, body: Body) -> Result<(), AllocError>
    requires accepted { AreAccepted tables.old }
    requires held { IsHeld body }
    requires fits { fits tables.old.held body ≡ true }
    ensures { OnOk result (AcceptsText body.bytes tables.old tables.new) }
{
    let number = tables.push_body(body)?;
    accept(alloc, tables, number)
}

// How many bytes the bodies have.
fn bytes_in(tables: &Tables) -> u64
    requires few { length tables.now.held ≤ 1048576 }
    requires short { All (λ b. length b.bytes ≤ 65535) tables.now.held }
    ensures { result ≡ bytes_of tables.now.held }
{
    let mut bytes = 0;
    for text in tables.journal().bodies.as_slice() {
        bytes += text.len() as u64;
    }
    bytes
}
