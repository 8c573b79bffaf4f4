//! How a program ends.
ghost use Rattle.std.specs.Prelude.{◌≡◌};
ghost use Rattle.std.specs.Process.{exit_status};
ghost use Rattle.edges.specs.Ending.{ends_with};

use std::process::ExitCode;

/// The status where there is no memory even for the words.
const NO_MEMORY: u8 = 10;

/// What a program ends with whose run answered this status. There is none where there was no memory even for the words.
pub fn exit_code(status: Option<u8>) -> ExitCode
    ensures { exit_status result ≡ ends_with status }
{
    match status {
        Some(status) => ExitCode::from(status),
        None => ExitCode::from(NO_MEMORY),
    }
}
