//! Entries that come, with all that they make ready; after an error the tables are as before.
ghost use Rattle.std.specs.Prelude.{◌≡◌, ◌<◌, ◌∷◌, ◌⊎◌, ◌↔◌, [], ℕ, false, true, None, Contains, IfOk, OnOk, OnErr, length};
ghost use Rattle.std.specs.List.Sorted.{IsStrictlySortedBy};
ghost use Rattle.std.specs.Ordering.{nat_cmp};
ghost use Rattle.validator_core.specs.Acceptance.Standing.{Extends, IsHeld, AreSoundTables};
ghost use Rattle.claim_table.specs.ClaimTable.Rows.{is_raised, verdict_of};
ghost use Rattle.validator_core.specs.Tables.View.{IsCut, rewound};
ghost use Rattle.journal.specs.declared.journal.entry.Entry.TheVariants.{Took};
ghost use Rattle.journal.specs.Journal.Logs.{is_in};
ghost use Rattle.validator_core.specs.TableChanges.Entries.{signature_asked};
ghost use Rattle.validator_core.specs.ValidatorCore.Tables.{AddsEntry, AddsVerdict, HaveNoOthers, HaveNumbers, AcceptsFrom};

use crate::table_changes::{accept_ready, enter_body, enter_claims, enter_verdict};
use crate::tables::{Mark, Tables};
use journal::{Body, Claim, Mode, Question};
use keri_outside::Steps;
use lists::Items;
use std::alloc::{AllocError, Global};
use std::collections::BTreeSet;

/// Claims come with the body of a number, and what they make ready is accepted.
pub(crate) fn add_claims(
    alloc: Global,
    tables: &mut Tables,
    mode: Mode,
    reader: u16,
    number: u32,
    claims: Items<Claim>,
    steps: &mut Steps,
) -> Result<(), AllocError>
    requires sound { AreSoundTables tables.old }
    requires idle { tables.old.claims.pending ≡ None }
    requires left { tables.old.released ≡ length tables.old.log.numbers }
    requires held { number < length tables.old.held }
    ensures ok { OnOk result (AddsEntry mode number [] (Took reader number claims) tables.old tables.new steps.old
        steps.new) }
    ensures err { OnErr result (tables.new ≡ tables.old) }
{
    let mark = tables.mark();
    match enter_claims(alloc, tables, reader, number, claims) {
        Ok(()) => {
            let accepted = accept_from(alloc, tables, mode, number, steps);
            keep_or_cut(tables, accepted, &mark)
        }
        Err(error) => {
            tables.rewind(&mark);
            Err(error)
        }
    }
}

/// A body that isn't held comes with its claims, and what they make ready is accepted.
pub(crate) fn add_body(
    alloc: Global,
    tables: &mut Tables,
    mode: Mode,
    reader: u16,
    body: Body,
    claims: Items<Claim>,
    steps: &mut Steps,
) -> Result<(), AllocError>
    requires sound { AreSoundTables tables.old }
    requires idle { tables.old.claims.pending ≡ None }
    requires left { tables.old.released ≡ length tables.old.log.numbers }
    requires held { IsHeld body }
    requires outside { is_in tables.old.held body ≡ false }
    ensures ok { OnOk result (AddsEntry mode (length tables.old.held) (body ∷ [])
        (Took reader (length tables.old.held) claims) tables.old tables.new steps.old steps.new) }
    ensures err { OnErr result (tables.new ≡ tables.old) }
{
    let mark = tables.mark();
    match enter_body(alloc, tables, reader, body, claims) {
        Ok(number) => {
            let accepted = accept_from(alloc, tables, mode, number, steps);
            keep_or_cut(tables, accepted, &mark)
        }
        Err(error) => {
            tables.rewind(&mark);
            Err(error)
        }
    }
}

/// A verdict on the open question of a signature comes, and what it makes ready is accepted.
pub(crate) fn add_verdict(
    alloc: Global,
    tables: &mut Tables,
    mode: Mode,
    reader: u16,
    question: &Question,
    yes: bool,
    steps: &mut Steps,
) -> Result<(), AllocError>
    requires sound { AreSoundTables tables.old }
    requires idle { tables.old.claims.pending ≡ None }
    requires left { tables.old.released ≡ length tables.old.log.numbers }
    requires held { question.now.body < length tables.old.held }
    requires raised { is_raised tables.old.claims.rows (signature_asked question.now) ≡ true }
    requires open_still { verdict_of tables.old.claims.rows (signature_asked question.now) ≡ None }
    ensures ok { OnOk result (AddsVerdict mode (signature_asked question.now) yes reader tables.old tables.new
        steps.old steps.new) }
    ensures err { OnErr result (tables.new ≡ tables.old) }
{
    let mark = tables.mark();
    enter_verdict(tables, reader, question, yes)?;
    let accepted = accept_from(alloc, tables, mode, question.body, steps);
    if let Err(error) = keep_or_cut(tables, accepted, &mark) {
        tables.unhear();
        return Err(error);
    }
    tables.close();
    Ok(())
}

// The accepted events leave the escrow, or what came is cut back.
fn keep_or_cut(
    tables: &mut Tables,
    brought: Result<(), AllocError>,
    mark: &Mark,
) -> Result<(), AllocError>
    requires { IsCut mark.now tables.old }
    ensures same { result ≡ brought }
    ensures kept { OnOk result (tables.new ≡ record tables.old { released = length tables.old.log.numbers }) }
    ensures cut { OnErr result (tables.new ≡ rewound mark.now tables.old) }
{
    match brought {
        Ok(()) => tables.release(),
        Err(_) => tables.rewind(mark),
    }
    brought
}

// Accepts all that is ready once an entry of the body of a number has come.
fn accept_from(
    alloc: Global,
    tables: &mut Tables,
    mode: Mode,
    number: u32,
    steps: &mut Steps,
) -> Result<(), AllocError>
    requires sound { AreSoundTables tables.old }
    requires left { tables.old.released ≡ length tables.old.log.numbers }
    ensures ok { OnOk result (AcceptsFrom mode number tables.old tables.new steps.old steps.new) }
    ensures extends { Extends tables.old tables.new }
{
    let mut due = candidates(alloc, tables, number)?;
    accept_ready(alloc, tables, mode, &mut due, steps)
}

// The numbers of the waiting events with the digest that the body of a number names: its own, or of a receipt that of the
// event it speaks of.
fn candidates(alloc: Global, tables: &Tables, number: u32) -> Result<BTreeSet<u32>, AllocError>
    requires sound { AreSoundTables tables.now }
    requires left { tables.now.released ≡ length tables.now.log.numbers }
    ensures named { IfOk result (λ due. HaveNumbers tables.now number due.keys) }
    ensures no_others { IfOk result (λ due. HaveNoOthers tables.now number due.keys) }
{
    match tables.event(number) {
        Some(event) => set_of(alloc, tables.waiting().named(&event.said())),
        None => Ok(BTreeSet::new(alloc)),
    }
}

// The set of some numbers.
fn set_of(alloc: Global, numbers: &[u32]) -> Result<BTreeSet<u32>, AllocError>
    ensures all { IfOk result (λ due. (n : ℕ) → Contains due.keys n ↔ Contains numbers.now n) }
    ensures rising { IfOk result (λ due. IsStrictlySortedBy nat_cmp due.keys) }
{
    let mut due = BTreeSet::new(alloc);
    for number in numbers {
        add_number(&mut due, *number)?;
    }
    Ok(due)
}

// Adds a number to a set.
fn add_number(due: &mut BTreeSet<u32>, number: u32) -> Result<(), AllocError>
    ensures ok { OnOk result ((n : ℕ) → Contains due.new.keys n ↔ (Contains due.old.keys n ⊎ (number ≡ n))) }
    ensures rising { IsStrictlySortedBy nat_cmp due.old.keys → IsStrictlySortedBy nat_cmp due.new.keys }
{
    due.insert(number)?;
    Ok(())
}
