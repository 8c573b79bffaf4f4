//! What crashes leave of a witness's disk.
ghost use Rattle.std.specs.Prelude.{◌≤◌};
ghost use Rattle.shelf_log.specs.KeriDisk.Memory.{mem_shown};

use crate::disks::{list_text, refused};
use crate::witnesses::opening::{not_started, started};
use crate::witnesses::session::{Held, Session};
use cesr_codes::Key;
use keri_outside::Limits;
use lists::Items;
use shelf_log::{MemDisk, Shape, Shelf};
use std::alloc::{AllocError, Global};

// What a witness stores that starts from the disk.
fn disk_words(
    alloc: Global,
    key: Key,
    disk: MemDisk,
    limits: Limits,
) -> Result<String, AllocError> {
    let shelf = match Shelf::read_back(alloc, disk, limits) {
        Ok(shelf) => shelf,
        Err(returned) => return refused(alloc, returned.fault),
    };
    match started(alloc, key, shelf, limits) {
        Some(Ok(witness)) => {
            let text = list_text(alloc, "stored", witness.stored());
            witness.into_shelf();
            text
        }
        Some(Err(start)) => not_started(alloc, start.fault),
        None => String::from_str(alloc, "no-witness"),
    }
}

// What a witness stores that starts from a file with these bytes.
fn image_words(
    alloc: Global,
    key: Key,
    bytes: Vec<u8>,
    limits: Limits,
) -> Result<String, AllocError> {
    if bytes.is_empty() {
        return String::from_str(alloc, "empty");
    }
    let disk = MemDisk::new(alloc, bytes, Items::new(alloc))?;
    disk_words(alloc, key, disk, limits)
}

// What the three shapes leave at a moment.
fn moment_words(
    session: &Session,
    text: &mut String,
    disk: &MemDisk,
    moment: u64,
) -> Result<(), AllocError>
    requires { moment ≤ (mem_shown disk.now).moment }
{
    for shape in [Shape::Whole, Shape::Lost, Shape::Ones] {
        let image = disk.image(moment, shape)?;
        let words = image_words(session.alloc, session.key, image, session.limits)?;
        text.push_str(", ")?;
        text.push_str(words.as_str())?;
    }
    text.push_str(";")
}

/// `images`: of each moment of the disk at hand what a witness stores that starts from what a crash leaves there: all that isn't
/// synced, or nothing of it, or bytes 1.
pub(crate) fn images(session: &Session) -> Result<String, AllocError> {
    let mut text = String::from_str(session.alloc, "images")?;
    if let Held::Disk(disk) = &session.held {
        for moment in 0..=disk.moments() {
            moment_words(session, &mut text, disk, moment)?;
        }
    }
    Ok(text)
}
