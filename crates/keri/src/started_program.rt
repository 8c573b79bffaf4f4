//! Programs that were started.
ghost use Rattle.std.specs.Prelude.{◌≡◌, IfOk};
ghost use Rattle.keri.specs.Programs.{started_by};

use std::io;
use std::process::{Child, ChildStdin, ChildStdout, Command, Processes, Stdio};

/// A program that was started, and the command that it was started by. Once it is let go, its input and output are closed,
/// and it is waited for.
pub(crate) struct StartedProgram {
    command: Command,
    child: Child,
}

impl StartedProgram {
    /// Starts the program of a command, with pipes from and to it, and this program's standard error.
    pub(crate) fn start(rt: &HostRuntime, command: Command) -> io::Result<StartedProgram>
        ensures { IfOk result (λ program. started_by program ≡ command) }
    {
        let pipe = Stdio::piped();
        let child = rt.spawn(&command, &pipe, &pipe, &Stdio::inherit())?;
        Ok(StartedProgram { command, child })
    }

    /// Its input and its output, where nobody has them yet.
    pub(crate) fn pipes(&mut self) -> Option<(ChildStdin, ChildStdout)>
        ensures { started_by self.new ≡ started_by self.old }
    {
        Some((self.child.stdin.take()?, self.child.stdout.take()?))
    }
}

impl Drop for StartedProgram {
    // It sees the end of its input, and can't wait for anyone to read its output.
    fn drop(self) {
        let StartedProgram { command, mut child } = self;
        drop(command);
        drop(child.stdin.take());
        drop(child.stdout.take());
        let _ = child.wait();
    }
}
