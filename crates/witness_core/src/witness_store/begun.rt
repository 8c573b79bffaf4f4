//! The core that a witness starts with.
ghost use Rattle.std.specs.Prelude.{◌≡◌, ◌≤◌, IfErr, IfOk, length};
ghost use Rattle.journal_views.specs.EventPayload.Payloads.{text_in as text_in_of};
ghost use Rattle.witness_core.specs.WitnessStore.Starts.{AreNoStart, IsFirstRoom, IsStarted, texts_in};

use crate::witness_store::room::Room;
use journal::{Mode, ResumeFault};
use journal_views::text_in;
use json_tree::Text;
use keri_outside::Limits;
use lists::Items;
use std::alloc::{AllocError, Global};
use validator_core::Core;

/// A core that was told nothing, and its room.
#[derive(Drop)]
pub struct Begun {
    pub core: Core,
    pub room: Room,
}

/// The core of a shelf's payloads, and its room, in which no event waits. At most 1,048,576 payloads.
pub fn begin(alloc: Global, payloads: &[Text], limits: Limits) -> Result<Begun, ResumeFault>
    requires { length payloads.now ≤ 1048576 }
    ensures started { IfOk result (λ begun. IsStarted limits payloads.now begun.core) }
    ensures room { IfOk result (λ begun. IsFirstRoom begun.core begun.room) }
    ensures refused { IfErr result (λ fault. AreNoStart payloads.now fault) }
{
    let core = resumed(alloc, payloads, limits)?;
    match first_room(alloc, &core) {
        Ok(room) => Ok(Begun { core, room }),
        Err(AllocError) => {
            // Let go of itself, at the function's end, it takes longer to prove.
            drop(core);
            Err(ResumeFault::OutOfMemory)
        }
    }
}

// The room of a core that was told nothing.
fn first_room(alloc: Global, core: &Core) -> Result<Room, AllocError>
    ensures { IfOk result (IsFirstRoom core.now) }
{
    core.sound();
    let signatures = vec![in alloc; 0; core.len()]?;
    Ok(Room {
        signatures,
        reserved: 0,
    })
}

// The core of a shelf's payloads: it counts the events at their fronts as accepted, in their order, and waits for neither
// receipts nor seals.
fn resumed(alloc: Global, payloads: &[Text], limits: Limits) -> Result<Core, ResumeFault>
    requires { length payloads.now ≤ 1048576 }
    ensures ok { IfOk result (λ core. IsStarted limits payloads.now core) }
    ensures err { IfErr result (λ fault. AreNoStart payloads.now fault) }
{
    match bodies(alloc, payloads) {
        Ok(base) => Core::resume(alloc, Mode::Local, limits, base),
        Err(_) => Err(ResumeFault::OutOfMemory),
    }
}

// The bodies at the fronts of payloads.
fn bodies(alloc: Global, payloads: &[Text]) -> Result<Vec<Text>, AllocError>
    ensures { IfOk result (λ texts. texts.items ≡ texts_in payloads.now) }
{
    let mut texts = Vec::new(alloc);
    for payload in payloads {
        let text = body(alloc, payload.as_slice())?;
        texts.push(text)?;
    }
    Ok(texts)
}

// The body at the front of a payload.
fn body(alloc: Global, payload: &[u8]) -> Result<Text, AllocError>
    ensures { IfOk result (λ text. text ≡ text_in_of payload.now) }
{
    let text = text_in(alloc, payload)?;
    Ok(Items::from_vec(Vec::from_slice(alloc, text)?))
}
