//! Messages: bodies with a signature and receipts, all by the rehearsal.
ghost use Rattle.std.specs.Prelude.{◌≡◌, ◌+◌, ◌<◌, ◌++◌, ◌^◌, IfOk, OnOk};
ghost use Rattle.event_body.specs.EventBody.Events.{said_of};
ghost use Rattle.keri_outside.specs.Rehearsal as rehearsal;
ghost use Rattle.controller_core.specs.LogMaker.Names as names;
ghost use Rattle.controller_core.specs.LogMaker.Messages.{message_text, signature_text, signed_text, text_with};
ghost use Rattle.controller_core.specs.LogMaker.Plans.{event_at, event_text};

use crate::log_maker::log::Log;
use crate::log_maker::made::{Made, sealed_body};
use crate::log_maker::names::{log_key, log_witness};
use cesr_codes::{IndexedSig, Key, Sig};
use keri_outside::rehearse;
use std::alloc::{AllocError, Global};

/// The message of the next event of the log, with that event's digest.
pub(crate) fn next_message(alloc: Global, log: &Log) -> Result<Made, AllocError>
    requires { log.now.next.sn + 1 < 2 ^ 64 }
    ensures said { IfOk result (λ message. message.said
        ≡ said_of (event_at log.now.next.seed log.now.next.log log.now.next.sn)) }
    ensures text { IfOk result (λ message. message.text.items
        ≡ message_text log.now.next.seed log.now.next.log log.now.next.sn) }
{
    let body = next_body(alloc, log)?;
    let next = log.next;
    let key = log_key(alloc, next.seed, next.log, next.key_number())?;
    let text = signed(alloc, next.seed, next.log, &key, body.text)?;
    Ok(Made {
        said: body.said,
        text,
    })
}

// The body of the next event of the log.
fn next_body(alloc: Global, log: &Log) -> Result<Made, AllocError>
    requires { log.now.next.sn + 1 < 2 ^ 64 }
    ensures said { IfOk result (λ body. body.said
        ≡ said_of (event_at log.now.next.seed log.now.next.log log.now.next.sn)) }
    ensures text { IfOk result (λ body. body.text.items
        ≡ event_text (event_at log.now.next.seed log.now.next.log log.now.next.sn)) }
{
    let plan = log.plan(alloc)?;
    let body = sealed_body(alloc, &plan);
    drop(plan);
    body
}

// The body with the key's signature, and those of the first three witnesses.
fn signed(
    alloc: Global,
    seed: u64,
    log: u64,
    key: &Key,
    body: Vec<u8>,
) -> Result<Vec<u8>, AllocError>
    ensures { IfOk result (λ text. text.items ≡ signed_text seed log key.now body.items) }
{
    let sig = rehearse(key, &body);
    let first = rehearsed(alloc, seed, log, 0, &body)?;
    let second = rehearsed(alloc, seed, log, 1, &body)?;
    let third = rehearsed(alloc, seed, log, 2, &body)?;
    let mut text = body;
    push_signatures(&mut text, sig, first, second, third)?;
    Ok(text)
}

// The signature of the witness of this number on the body.
fn rehearsed(
    alloc: Global,
    seed: u64,
    log: u64,
    number: u64,
    body: &[u8],
) -> Result<Sig, AllocError>
    ensures { IfOk result (λ sig. sig ≡ rehearsal.rehearsed (names.log_witness seed log number) body.now) }
{
    let witness = log_witness(alloc, seed, log, number)?;
    Ok(rehearse(&witness, body))
}

// Adds a group of one signature and a group of three receipts.
fn push_signatures(
    text: &mut Vec<u8>,
    sig: Sig,
    first: Sig,
    second: Sig,
    third: Sig,
) -> Result<(), AllocError>
    ensures { OnOk result (text.new.items ≡ text_with text.old.items sig first second third) }
{
    text.extend_from_slice(b"-AAB")?;
    push_signature(text, 0, sig)?;
    text.extend_from_slice(b"-BAD")?;
    push_signature(text, 0, first)?;
    push_signature(text, 1, second)?;
    push_signature(text, 2, third)
}

// Adds a signature of the key at this place in the current list and in the next one.
fn push_signature(text: &mut Vec<u8>, place: u16, sig: Sig) -> Result<(), AllocError>
    requires { place < 64 }
    ensures { OnOk result (text.new.items ≡ text.old.items ++ signature_text place sig) }
{
    let Some(indexed) = IndexedSig::new(false, place, Some(place), sig) else {
        unreachable!()
    };
    let mut spelling = [0u8; 92];
    let length = indexed.write(&mut spelling);
    text.extend_from_slice(&spelling[..length])
}
