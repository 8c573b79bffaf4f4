//! Logs that were read.

use validator_core::Core;

/// The core that was told a log, and whether a message of the log or its stream was refused.
#[derive(Clone, Copy)]
pub struct ReadLog<'a> {
    pub core: &'a Core,
    pub is_refused: bool,
}
