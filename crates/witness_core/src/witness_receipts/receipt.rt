//! Receipts.
ghost use Rattle.std.specs.Prelude.{◌≡◌, ◌≤◌, ◌∷◌, ◌++◌, [], ℕ, List, length, IfErr, IfOk};
ghost use Rattle.cesr_codes.specs.declared.key.KeyCode.TheVariants.{Fixed};
ghost use Rattle.validator_core.specs.Tables.View.{body_of};
ghost use Rattle.event_body.specs.EventBody.Typed.{IsTypedReceipt};
ghost use Rattle.event_body.specs.EventBody.Judging.{SpellsEvent};
ghost use Rattle.event_body.specs.EventBody.Spelling.{text_of};
ghost use Rattle.event_body.specs.declared.event_body.body_fault.ReadBody.TheVariants.{OutOfMemory as NoMemory};
ghost use Rattle.event_body.specs.declared.event_body.event.Event.TheVariants.{Rct};
ghost use Rattle.keri_outside.specs.Asked.{signing};
ghost use Rattle.lists.specs.KeriSpecs.Shown.{Puts};
ghost use Rattle.witness_core.specs.WitnessReceipts.Receipts.{CountsFaults, IsReceiptOf, couples_text, receipt_event};
ghost use Rattle.witness_core.specs.declared.witness_receipts.receipt.SigningFault.TheVariants.{OutOfMemory, SignerFault};

use cesr_codes::{Digest, Key, Spelled};
use cesr_stream::{Couple, Group, Item};
use event_body::{Event, ReadBody, ReceiptBody, write_body};
use journal_views::StreamText;
use keri_outside::{Failed, Signer};
use lists::Items;
use std::alloc::{AllocError, AllocFailed, Global};

/// A receipt of a stored event: the event's digest, and the receipt as a witness hands it out.
#[derive(Drop)]
pub struct Receipt {
    pub event: Digest,
    pub bytes: Vec<u8>,
}

/// Why a receipt isn't made.
#[derive(Clone, Copy, PartialEq, Eq, Debug)]
pub enum SigningFault {
    /// The signer failed.
    SignerFault,
    /// There was no memory.
    OutOfMemory,
}

impl From<AllocError> for SigningFault {
    ghost from_gives = { λ _ fault. fault ≡ OutOfMemory };

    fn from(_: AllocError) -> SigningFault {
        SigningFault::OutOfMemory
    }
}

impl<T: Drop> From<AllocFailed<T>> for SigningFault {
    ghost from_gives = { λ _ fault. fault ≡ OutOfMemory };

    fn from(_: AllocFailed<T>) -> SigningFault {
        SigningFault::OutOfMemory
    }
}

impl From<Failed> for SigningFault {
    ghost from_gives = { λ _ fault. fault ≡ SignerFault };

    fn from(_: Failed) -> SigningFault {
        SigningFault::SignerFault
    }
}

/// The receipt of an event with these bytes: a `rct` body, and behind it the witness's key and its signature on the bytes.
pub(crate) fn receipt_of<S: Signer>(
    alloc: Global,
    key: &Key,
    event: &Event,
    body: &[u8],
    signer: &mut S,
) -> Result<Receipt, SigningFault>
    requires witness { key.now.code ≡ Fixed }
    requires few { length body.now ≤ 65535 }
    ensures receipt { IfOk result (IsReceiptOf (S.gives signer.old) key.now (body_of body.now event.now)) }
    ensures gives { S.gives signer.new ≡ S.gives signer.old }
    ensures asked { Puts (S.signings signer.old) (S.signings signer.new) result (signing key.now body.now ∷ []) }
    ensures count { CountsFaults (S.faults signer.old) (S.faults signer.new) result }
{
    let text = receipt_body(alloc, event)?;
    let sig = signer.sign(key, body)?;
    let bytes = with_couple(alloc, &text, Couple { key: *key, sig })?;
    Ok(Receipt {
        event: event.said(),
        bytes,
    })
}

// The body of an event's receipt.
fn receipt_body(alloc: Global, event: &Event) -> Result<Vec<u8>, AllocError>
    ensures { IfOk result (λ text. text.items ≡ text_of (receipt_event event.now)) }
{
    let receipt = ReceiptBody {
        said: event.said(),
        prefix: event.prefix(),
        sn: event.sn(),
    };
    in_range(receipt);
    match written(alloc, receipt) {
        Ok(text) => Ok(text),
        Err(ReadBody::OutOfMemory) => Err(AllocError),
        Err(ReadBody::Fault(_)) => unreachable!(),
    }
}

// The body that spells the receipt. The event is let go by `drop`: of itself, at the function's end, that takes long to prove.
fn written(alloc: Global, receipt: ReceiptBody) -> Result<Vec<u8>, ReadBody>
    ensures text { IfOk result (λ text. text.items ≡ text_of (Rct receipt)) }
    ensures whole { (bytes : List ℕ) → SpellsEvent (Rct receipt) bytes → length bytes ≤ 65535
        → IfErr result (λ fault. fault ≡ NoMemory) }
{
    let event = Event::Rct(receipt);
    let text = write_body(alloc, &event);
    drop(event);
    text
}

// What the types of a receipt's parts hold by themselves, which a proof learns where they are read.
fn in_range(receipt: ReceiptBody)
    ensures { IsTypedReceipt receipt }
{
    receipt.said.in_range();
    receipt.prefix.in_range();
    let _sn = receipt.sn;
}

// The text with a couple behind it.
fn with_couple(alloc: Global, text: &[u8], couple: Couple) -> Result<Vec<u8>, AllocError>
    ensures { IfOk result (λ bytes. bytes.items ≡ text.now ++ couples_text (couple ∷ [])) }
{
    let mut couples = Items::new(alloc);
    couples.push(couple)?;
    let mut bytes = StreamText::new(alloc);
    bytes.put_bytes(text)?;
    bytes.put_item(&Item::Group(Group::Couples(couples)))?;
    Ok(bytes.into_bytes())
}
