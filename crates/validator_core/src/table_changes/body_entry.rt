//! Bodies that are taken, each by an entry, with its claims.
ghost use Rattle.std.specs.Prelude.{◌≡◌, ◌<◌, ◌∷◌, [], false, length, slice_get, IfOk, None, OnOk, Some, if◌then◌else◌};
ghost use Rattle.validator_core.specs.Acceptance.Standing.{Comes, Extends, IsHeld, AreSoundTables};
ghost use Rattle.validator_core.specs.Tables.Names.{name_of as name_of_event};
ghost use Rattle.validator_core.specs.Tables.View.{with_rows};
ghost use Rattle.event_body.specs.EventBody.Events as events;
ghost use Rattle.journal.specs.declared.journal.body.Body.{Body as BodyValue};
ghost use Rattle.journal.specs.declared.journal.entry.Entry.TheVariants.{Took};
ghost use Rattle.journal.specs.Journal.Logs.{is_in};
ghost use Rattle.validator_core.specs.TableChanges.Entries.{IsTold};

use crate::table_changes::standing_claims::{
    raise_entry_if_standing, raise_if_standing, raise_receipt,
};
use crate::tables::{Name, Tables, name_of};
use journal::{Body, Claim};
use lists::{Items, length_u32};
use std::alloc::{AllocError, Global};

/// A body that isn't held comes with its claims, and gets the number that is handed out. After an error some of it may be
/// there: the tables are to be cut back.
pub fn enter_body(
    alloc: Global,
    tables: &mut Tables,
    reader: u16,
    body: Body,
    claims: Items<Claim>,
) -> Result<u32, AllocError>
    requires sound { AreSoundTables tables.old }
    requires held { IsHeld body }
    requires outside { is_in tables.old.held body ≡ false }
    ensures number { IfOk result (λ n. n ≡ length tables.old.held) }
    ensures ok { OnOk result (Comes (body ∷ []) (Took reader (length tables.old.held) claims) tables.old tables.new) }
    ensures extends { Extends tables.old tables.new }
{
    let receipt = body.event.is_receipt();
    let number = tables.push_body(body)?;
    if receipt {
        enter_claims(alloc, tables, reader, number, claims)?;
        return Ok(number);
    }
    // Receipts may have come before their event: all that was told of it is raised.
    tables.push_took(reader, number, claims)?;
    raise_if_standing(tables, number)?;
    Ok(number)
}

/// Claims come with the body of a number. After an error some of them may be there: the tables are to be cut back.
pub fn enter_claims(
    alloc: Global,
    tables: &mut Tables,
    reader: u16,
    number: u32,
    claims: Items<Claim>,
) -> Result<(), AllocError>
    requires sound { AreSoundTables tables.old }
    requires held { number < length tables.old.held }
    ensures ok { OnOk result (Comes [] (Took reader number claims) tables.old tables.new) }
    ensures extends { Extends tables.old tables.new }
{
    let entry = length_u32(tables.journal().entries.len())?;
    tables.push_took(reader, number, claims)?;
    raise_last(alloc, tables, number, entry)
}

// Raises the claims that came by the last entry, on its body or on the events that its receipt speaks of.
fn raise_last(alloc: Global, tables: &mut Tables, number: u32, entry: u32) -> Result<(), AllocError>
    requires { IsTold number entry tables.old }
    ensures ok { OnOk result (AreSoundTables tables.new) }
    ensures rows { tables.new ≡ with_rows tables.new.claims.rows tables.old }
    ensures extends { Extends tables.old tables.new }
{
    match receipt_name(tables, number) {
        None => raise_entry_if_standing(tables, number, entry),
        Some(name) => raise_receipt(alloc, tables, &name, entry),
    }
}

// The name that the receipt of a number speaks of.
fn receipt_name(tables: &Tables, number: u32) -> Option<Name>
    ensures { (b : BodyValue) → slice_get tables.now.held number ≡ Some b
        → result ≡ (if events.is_receipt b.event then Some (name_of_event b.event) else None) }
{
    let event = tables.event(number)?;
    if event.is_receipt() {
        Some(name_of(event))
    } else {
        None
    }
}
