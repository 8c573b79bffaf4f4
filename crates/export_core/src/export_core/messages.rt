//! The messages of an event.
ghost use Rattle.std.specs.Prelude.{◌≤◌, ◌∷◌, All, OnOk, length};
ghost use Rattle.export_core.specs.ExportCore.Messages.{IsFixed, PutsCut, PutsMessage, PutsRuns};

use crate::export_core::groups::{
    couples_of, held_sigs, put_couples, put_held, put_witness, witness_sigs,
};
use journal::Claim;
use journal_views::StreamText;
use std::alloc::{AllocError, Global};

// How many claims a message has behind the first: a reader takes no more than 1,024 at the standard limits.
const MOST_BEHIND: usize = 1_023;

/// Puts the messages of a body with these claims.
pub(crate) fn put_messages(
    alloc: Global,
    bytes: &[u8],
    claims: &[Claim],
    text: &mut StreamText,
) -> Result<(), AllocError>
    requires { All IsFixed claims.now }
    ensures { OnOk result (PutsCut bytes.now claims.now text.old.bytes.items text.new.bytes.items) }
{
    match claims.split_first() {
        Some((first, rest)) => put_runs(alloc, bytes, first, rest, text),
        None => put_message(alloc, bytes, claims, text),
    }
}

// Puts a message with the first claim and each run of the others.
fn put_runs(
    alloc: Global,
    bytes: &[u8],
    first: &Claim,
    rest: &[Claim],
    text: &mut StreamText,
) -> Result<(), AllocError>
    requires first { IsFixed first.now }
    requires rest { All IsFixed rest.now }
    ensures { OnOk result (PutsRuns bytes.now first.now (length rest.now) rest.now text.old.bytes.items
        text.new.bytes.items) }
{
    let mut left = rest;
    while left.len() > MOST_BEHIND {
        let (run, later) = left.split_at(MOST_BEHIND);
        put_run(alloc, bytes, first, run, text)?;
        left = later;
    }
    put_run(alloc, bytes, first, left, text)
}

// Puts a message with the first claim and a run.
fn put_run(
    alloc: Global,
    bytes: &[u8],
    first: &Claim,
    run: &[Claim],
    text: &mut StreamText,
) -> Result<(), AllocError>
    requires few { length run.now ≤ 1023 }
    requires first { IsFixed first.now }
    requires run { All IsFixed run.now }
    ensures { OnOk result (PutsMessage bytes.now (first.now ∷ run.now) text.old.bytes.items text.new.bytes.items) }
{
    let mut claims = Vec::new(alloc);
    claims.push(*first)?;
    claims.extend_from_slice(run)?;
    put_message(alloc, bytes, claims.as_slice(), text)
}

// Puts a body, and behind it a group of each kind of its claims.
fn put_message(
    alloc: Global,
    bytes: &[u8],
    claims: &[Claim],
    text: &mut StreamText,
) -> Result<(), AllocError>
    requires few { length claims.now ≤ 1024 }
    requires fixed { All IsFixed claims.now }
    ensures { OnOk result (PutsMessage bytes.now claims.now text.old.bytes.items text.new.bytes.items) }
{
    text.put_bytes(bytes)?;
    let held = held_sigs(alloc, claims)?;
    put_held(held, text)?;
    let witness = witness_sigs(alloc, claims)?;
    put_witness(witness, text)?;
    let couples = couples_of(alloc, claims)?;
    put_couples(couples, text)
}
