//! The receipts that are due.
ghost use Rattle.std.specs.Prelude.{◌≡◌, ◌==◌, ◌≤◌, ◌<◌, ◌∷◌, ◌++◌, [], All, IfOk, Some, drop, length, position, slice_get, take};
ghost use Rattle.std.specs.List.{cons_option};
ghost use Rattle.cesr_codes.specs.declared.key.KeyCode.TheVariants.{Fixed};
ghost use Rattle.lists.specs.KeriSpecs.Shown.{Puts};
ghost use Rattle.journal.specs.Journal.Journals.{chosen};
ghost use Rattle.journal.specs.declared.journal.body.Body.{Body};
ghost use Rattle.validator_core.specs.ValidatorCore.View.{accepted_by};
ghost use Rattle.witness_core.specs.WitnessReceipts.Receipts.{AreReceiptsOf, CountsFaults, IsReceiptOf, again, due, listed, signings_of};

use crate::witness_receipts::Receipt;
use crate::witness_receipts::receipt::{SigningFault, receipt_of};
use cesr_codes::Key;
use keri_outside::Signer;
use std::alloc::{AllocError, Global};
use validator_core::Core;

/// The receipts that are due once a message with the body of a number is taken: where the first `front` of the accepted events
/// were stored before.
pub fn receipts_of<S: Signer>(
    alloc: Global,
    core: &Core,
    key: &Key,
    front: usize,
    number: u32,
    signer: &mut S,
) -> Result<Vec<Receipt>, SigningFault>
    requires witness { key.now.code ≡ Fixed }
    requires front { front ≤ length (accepted_by core.now) }
    requires held { number < length core.now.held }
    ensures receipts { IfOk result (λ receipts. (b : Body) → slice_get core.now.held number ≡ Some b
        → AreReceiptsOf (S.gives signer.old) key.now
        (due key.now (take front (accepted_by core.now)) (accepted_by core.now) b.bytes) receipts.items) }
    ensures gives { S.gives signer.new ≡ S.gives signer.old }

    // All of them are asked for, or the first of them, up to a fault.
    ensures asked { (b : Body) → slice_get core.now.held number ≡ Some b
        → Puts (S.signings signer.old) (S.signings signer.new) result
        (signings_of key.now (due key.now (take front (accepted_by core.now)) (accepted_by core.now) b.bytes)) }
    ensures count { CountsFaults (S.faults signer.old) (S.faults signer.new) result }
{
    let numbers = due_numbers(alloc, core, key, front, number)?;
    signed(alloc, core, key, numbers.as_slice(), signer)
}

// The numbers of the events of which receipts are due.
fn due_numbers(
    alloc: Global,
    core: &Core,
    key: &Key,
    front: usize,
    number: u32,
) -> Result<Vec<u32>, AllocError>
    requires front { front ≤ length (accepted_by core.now) }
    requires held { number < length core.now.held }
    ensures due { IfOk result (λ numbers. (b : Body) → slice_get core.now.held number ≡ Some b
        → chosen core.now.held numbers.items
        ≡ due key.now (take front (accepted_by core.now)) (accepted_by core.now) b.bytes) }
    ensures held { IfOk result (λ numbers. All (λ n. n < length core.now.held) numbers.items) }
{
    let numbers = listed_since(alloc, core, key, front)?;
    with_own(numbers, own_listed(core, key, front, number))
}

// The numbers with one behind them, where there is one.
fn with_own(numbers: Vec<u32>, own: Option<u32>) -> Result<Vec<u32>, AllocError>
    ensures { IfOk result (λ all. all.items ≡ numbers.items ++ cons_option own []) }
{
    let mut numbers = numbers;
    if let Some(number) = own {
        numbers.push(number)?;
    }
    Ok(numbers)
}

// The numbers of the accepted events from a place on whose own witnesses hold the key.
fn listed_since(alloc: Global, core: &Core, key: &Key, front: usize) -> Result<Vec<u32>, AllocError>
    ensures those { IfOk result (λ numbers. chosen core.now.held numbers.items
        ≡ listed key.now (accepted_by core.now) (drop front (accepted_by core.now))) }
    ensures held { IfOk result (λ numbers. All (λ n. n < length core.now.held) numbers.items) }
{
    let accepted = core.accepted();
    let mut numbers = Vec::new(alloc);
    for place in front..accepted.len() {
        if core.is_witness_at(place, key) {
            numbers.push(accepted[place])?;
        }
    }
    Ok(numbers)
}

// The number itself, where it is that of an event before a place of the accepted ones whose own witnesses hold the key.
fn own_listed(core: &Core, key: &Key, front: usize, number: u32) -> Option<u32>
    requires held { number < length core.now.held }
    ensures own { (b : Body) → slice_get core.now.held number ≡ Some b → chosen core.now.held (cons_option result [])
        ≡ listed key.now (accepted_by core.now) (again (take front (accepted_by core.now)) b.bytes) }
    ensures held { All (λ n. n < length core.now.held) (cons_option result []) }
{
    core.sound();
    match core.place_of(number) {
        Some(place) => own_at(core, key, front, number, place),
        None => None,
    }
}

// The number of the event at a place of the accepted ones, where that is before `front` and the event's own witnesses hold the key.
fn own_at(core: &Core, key: &Key, front: usize, number: u32, place: usize) -> Option<u32>
    requires held { number < length core.now.held }
    requires place { position (λ n. n == number) core.now.accepted ≡ Some place }
    ensures own { (b : Body) → slice_get core.now.held number ≡ Some b → chosen core.now.held (cons_option result [])
        ≡ listed key.now (accepted_by core.now) (again (take front (accepted_by core.now)) b.bytes) }
    ensures held { All (λ n. n < length core.now.held) (cons_option result []) }
{
    core.sound();
    if place >= front {
        return None;
    }
    if core.is_witness_at(place, key) {
        Some(number)
    } else {
        None
    }
}

// The receipts of the bodies of these numbers.
fn signed<S: Signer>(
    alloc: Global,
    core: &Core,
    key: &Key,
    numbers: &[u32],
    signer: &mut S,
) -> Result<Vec<Receipt>, SigningFault>
    requires witness { key.now.code ≡ Fixed }
    requires held { All (λ n. n < length core.now.held) numbers.now }
    ensures receipts { IfOk result (λ receipts. AreReceiptsOf (S.gives signer.old) key.now
        (chosen core.now.held numbers.now) receipts.items) }
    ensures gives { S.gives signer.new ≡ S.gives signer.old }
    ensures asked { Puts (S.signings signer.old) (S.signings signer.new) result
        (signings_of key.now (chosen core.now.held numbers.now)) }
    ensures count { CountsFaults (S.faults signer.old) (S.faults signer.new) result }
{
    let mut receipts = Vec::new(alloc);
    for number in numbers {
        let receipt = receipt_at(alloc, core, key, *number, signer)?;
        receipts.push(receipt)?;
    }
    Ok(receipts)
}

// The receipt of the body of a number.
fn receipt_at<S: Signer>(
    alloc: Global,
    core: &Core,
    key: &Key,
    number: u32,
    signer: &mut S,
) -> Result<Receipt, SigningFault>
    requires witness { key.now.code ≡ Fixed }
    requires held { number < length core.now.held }
    ensures receipt { IfOk result (λ receipt. (b : Body) → slice_get core.now.held number ≡ Some b
        → IsReceiptOf (S.gives signer.old) key.now b receipt) }
    ensures gives { S.gives signer.new ≡ S.gives signer.old }
    ensures asked { Puts (S.signings signer.old) (S.signings signer.new) result
        (signings_of key.now (chosen core.now.held (number ∷ []))) }
    ensures count { CountsFaults (S.faults signer.old) (S.faults signer.new) result }
{
    let Some(event) = core.event(number) else {
        unreachable!()
    };
    let Some(body) = core.body(number) else {
        unreachable!()
    };
    receipt_of(alloc, key, event, body, signer)
}
