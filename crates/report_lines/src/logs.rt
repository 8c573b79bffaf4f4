//! The accepted events by their identifiers.
ghost use Rattle.std.specs.Prelude.{IfOk};
ghost use Rattle.validator_core.specs.ValidatorCore.View.{accepted_by};
ghost use Rattle.report_lines.specs.Logs.{AreLogs, LogsNext};

use cesr_codes::{Prefix, Spelled};
use std::alloc::{AllocError, Global};
use std::collections::BTreeMap;
use validator_core::Core;

/// The numbers of an identifier's accepted events, in order of acceptance.
#[derive(Drop)]
pub(crate) struct Log {
    pub(crate) prefix: Prefix,
    pub(crate) numbers: Vec<u32>,
}

/// The logs of all identifiers that have an accepted event, by the texts of their prefixes.
pub(crate) fn logs_of(alloc: Global, core: &Core) -> Result<BTreeMap<[u8; 44], Log>, AllocError>
    ensures { IfOk result (λ logs. AreLogs core.now.held (accepted_by core.now) logs.entries) }
{
    let mut logs = BTreeMap::new(alloc);
    for number in core.accepted() {
        if let Some(event) = core.event(*number) {
            add_number(alloc, &mut logs, event.prefix(), *number)?;
        }
    }
    Ok(logs)
}

// Adds the number of an event behind those of its identifier.
fn add_number(
    alloc: Global,
    logs: &mut BTreeMap<[u8; 44], Log>,
    prefix: Prefix,
    number: u32,
) -> Result<(), AllocError>
    ensures { LogsNext number prefix logs.old.entries logs.new.entries result }
{
    prefix.in_range();
    let mut text = [0; 44];
    prefix.write(&mut text);
    if let Some(log) = logs.get_mut(&text) {
        log.numbers.push(number)?;
        return Ok(());
    }
    let numbers = Vec::from_slice(alloc, &[number])?;
    logs.insert(text, Log { prefix, numbers })?;
    Ok(())
}
