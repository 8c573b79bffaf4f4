//! Programs as helpers.
ghost use Rattle.std.specs.Prelude.{◌≡◌, ◌∷◌, [], None, codes, IfOk};
ghost use Rattle.std.specs.Process.{command_args, command_dir, command_program};
ghost use Rattle.verifier_link.specs.Helpers.{helper_faults};
ghost use Rattle.verifier_link.specs.Sides.{link_faults};
ghost use Rattle.keri.specs.Programs.{IsProgram, started_by};

use crate::behind_streams::behind_streams;
use crate::real_helper::RealHelper;
use crate::real_sink::{RealSink, Target};
use crate::real_source::{Origin, RealSource};
use crate::started_program::StartedProgram;
use std::alloc::{AllocError, Global};
use std::io;
use std::io::ErrorKind;
use std::process::Command;
use verifier_link::{Helper, Link};

/// The one word that a helper is started with.
const WORD: &str = "rehearse";

/// Starts a program with the single word `rehearse`, to be asked over its standard input and output. A name without a slash is
/// looked for in the folders of PATH. Once the helper is let go, both are closed, and the program is waited for.
pub(crate) fn start_helper(rt: &HostRuntime, name: &str) -> io::Result<RealHelper>
    ensures named { IfOk result (λ helper. IsProgram name.now helper) }
    ensures none_yet { IfOk result (λ helper. helper_faults helper ≡ 0) }
{
    let mut program = StartedProgram::start(rt, command_of(rt.alloc(), name)?)?;
    let link = link_to(&mut program)?;
    Ok(Helper::Program(link, program))
}

// The program with its word, and this program's environment and folder.
fn command_of(alloc: Global, program: &str) -> Result<Command, AllocError>
    ensures program { IfOk result (λ command. command_program command ≡ program.now) }
    ensures word { IfOk result (λ command. command_args command ≡ codes "rehearse" ∷ []) }
    ensures folder { IfOk result (λ command. command_dir command ≡ None) }
{
    let mut command = Command::new(alloc, program)?;
    command.arg(WORD)?;
    Ok(command)
}

// The link over a program's pipes. Where it fails, they are closed.
fn link_to(program: &mut StartedProgram) -> io::Result<Link<RealSource, RealSink>>
    ensures none_yet { IfOk result (λ link. link_faults link ≡ 0) }
    ensures same { started_by program.new ≡ started_by program.old }
{
    let Some((input, output)) = program.pipes() else {
        return Err(io::Error::from(ErrorKind::BrokenPipe));
    };
    let source = RealSource::new(Origin::Child(behind_streams(output)?));
    let sink = RealSink::new(Target::Child(behind_streams(input)?));
    Ok(Link::new(source, sink))
}
