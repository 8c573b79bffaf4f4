//! A program over a shelf in a file: it appends payloads, lists and counts them, and takes them over from a file of the
//! first version.
#![tactic(auto)]

mod append;
mod list;
mod migrate;
mod opening;
mod stop;

use std::env;
use std::io::ErrorKind;
use std::process::ExitCode;
use stop::Stop;

// The words behind the program's name.
fn words(rt: &HostRuntime) -> Result<Vec<String>, Stop> {
    let mut words = Vec::new(rt.alloc());
    let args = match env::args(rt) {
        Ok(args) => args,
        Err(error) if error.kind() == ErrorKind::OutOfMemory => return Err(Stop::NoMemory),
        Err(_) => return Err(Stop::Usage),
    };
    for word in args.skip(1) {
        words.push(word)?;
    }
    Ok(words)
}

fn run(rt: &HostRuntime) -> Result<(), Stop> {
    let words = words(rt)?;
    match words.as_slice() {
        [name, file] if name.as_str() == "append" => append::append(rt, file.as_str()),
        [name, file] if name.as_str() == "list" => list::list(rt, file.as_str()),
        [name, file] if name.as_str() == "count" => list::count(rt, file.as_str()),
        [name, old, file] if name.as_str() == "migrate" => {
            migrate::migrate(rt, old.as_str(), file.as_str())
        }
        _ => Err(Stop::Usage),
    }
}

fn main(rt: HostRuntime) -> ExitCode {
    match run(&rt) {
        Ok(()) => ExitCode::SUCCESS,
        Err(stop) => {
            // The status says it too.
            let _ = rt.eprintln(stop);
            ExitCode::from(stop.status())
        }
    }
}
