//! Commands, read from the words.
ghost use Rattle.std.specs.Prelude.{◌≡◌, IfOk, IfSome, map, option_and_then, string_bytes};
ghost use Rattle.std.specs.Option.{option_map};
ghost use Rattle.clap.specs.Words.{subcommand_rows_of};
ghost use Rattle.command_words.specs.Words as specs;
ghost use Rattle.command_words.specs.Words.{IsInForm, asked_by, asks, asks_by_name, rows_in};
ghost use Rattle.command_words.specs.Words.{asks_blame, asks_check, asks_convert, asks_export, asks_gen};
ghost use Rattle.command_words.specs.Words.{asks_make, asks_over_core, asks_witness};

use crate::form::program;
use crate::inputs::Inputs;
use crate::values::{
    count_set, domain_set, file_or_links, files_or_links, files_set, key_set, number_set,
    prefix_set, value,
};
use cesr_binary::Domain;
use cesr_codes::{Key, Prefix};
use clap::ArgMatches;
use clap::error::ErrorKind;
use std::alloc::{AllocError, Global};

// A stream that is made has no more logs, and these no more events.
const MOST_OF_LOGS: u16 = 1_000;

const MOST_OF_EVENTS: u16 = 1_000;

/// What the words ask for.
#[derive(PartialEq, Eq, Debug, Drop)]
pub enum Command<'a> {
    /// Reads one file and says how it is judged.
    Check {
        file: &'a str,
    },
    /// Reads files, from one to 64, or links, and says what is accepted of them, with the verdicts of the helper.
    Validate {
        helper: &'a str,
        inputs: Inputs<'a, Vec<&'a str>>,
    },
    /// Reads files, from one to 64, or links, and writes the evidence of their conflicts, with the verdicts of the helper.
    Watch {
        helper: &'a str,
        inputs: Inputs<'a, Vec<&'a str>>,
    },
    /// Reads one file, or links one after another, and writes the receipts of the witness whose key this is, with the
    /// signatures and verdicts of the helper. What it has seen is kept in the shelf, which is filled with the list of an
    /// old one first, where that is named and there is none yet.
    Witness {
        helper: &'a str,
        /// A key that can't be rotated.
        prefix: Key,
        shelf: &'a str,
        from: Option<&'a str>,
        input: Inputs<'a, &'a str>,
    },
    /// Makes the message of a plan, over a log where there is one, with the signatures and verdicts of the helper.
    Make {
        helper: &'a str,
        plan: &'a str,
        log: Option<&'a str>,
    },
    /// Writes the items of one file in that domain.
    Convert {
        domain: Domain,
        file: &'a str,
    },
    /// Reads files, from one to 64, and writes the log of this prefix with those of its delegators, as it is accepted with
    /// the verdicts of the helper.
    Export {
        helper: &'a str,
        prefix: Prefix,
        files: Vec<&'a str>,
    },
    /// Reads two files, each by itself, and says which witnesses signed differing events of them, with the verdicts of the
    /// helper.
    Blame {
        helper: &'a str,
        first: &'a str,
        second: &'a str,
    },
    /// Makes a stream of so many logs of so many events from a seed, and says how much of it is accepted.
    Generate {
        seed: u64,
        logs: u16,
        events: u16,
    },
    /// Serves the protocol of a helper, over standard input and output.
    Rehearse,
}

/// What the words behind the program's name ask for, where they are in the form of a command.
pub fn command_of<'a>(alloc: Global, words: &'a [String]) -> Result<Option<Command<'a>>, AllocError>
    ensures answered { IfOk result (λ command. option_map asked_by command ≡ asks (map string_bytes words.now)) }
    ensures in_form { IfOk result (λ command. IfSome command IsInForm) }
{
    match program(alloc)?.try_get_matches_from(words) {
        Ok(matches) => command_in(alloc, &matches),
        Err(error) => match error.kind() {
            ErrorKind::OutOfMemory => Err(AllocError),
            _ => Ok(None),
        },
    }
}

// The command that was found in words.
fn command_in<'a>(
    alloc: Global,
    matches: &ArgMatches<'a>,
) -> Result<Option<Command<'a>>, AllocError>
    ensures asked { IfOk result (λ command. option_map asked_by command
        ≡ option_and_then (λ met. asks_by_name met.0 met.1) (subcommand_rows_of matches.now)) }
    ensures in_form { IfOk result (λ command. IfSome command IsInForm) }
{
    match matches.subcommand() {
        Some((name, found)) => command_by_name(alloc, name, found),
        None => Ok(None),
    }
}

// The command of this name, with the values that were found.
fn command_by_name<'a>(
    alloc: Global,
    name: &str,
    found: &ArgMatches<'a>,
) -> Result<Option<Command<'a>>, AllocError>
    ensures asked { IfOk result (λ command. option_map asked_by command ≡ asks_by_name name.now (rows_in found.now)) }
    ensures in_form { IfOk result (λ command. IfSome command IsInForm) }
{
    match name {
        "check" => Ok(check(found)),
        "validate" => validate(alloc, found),
        "watch" => watch(alloc, found),
        "witness" => Ok(witness(found)),
        "make" => Ok(make(found)),
        "convert" => Ok(convert(found)),
        "export" => export(alloc, found),
        "blame" => Ok(blame(found)),
        "gen" => Ok(generate(found)),
        "rehearse" => Ok(Some(Command::Rehearse)),
        _ => Ok(None),
    }
}

// Each command, by the values that it was given.
fn check<'a>(found: &ArgMatches<'a>) -> Option<Command<'a>>
    ensures asked { option_map asked_by result ≡ asks_check (rows_in found.now) }
    ensures in_form { IfSome result IsInForm }
{
    let file = value(found, "file")?;
    Some(Command::Check { file })
}

fn validate<'a>(alloc: Global, found: &ArgMatches<'a>) -> Result<Option<Command<'a>>, AllocError>
    ensures asked { IfOk result (λ command. option_map asked_by command
        ≡ asks_over_core specs.validate (rows_in found.now)) }
    ensures in_form { IfOk result (λ command. IfSome command IsInForm) }
{
    let Some(helper) = value(found, "helper") else {
        return Ok(None);
    };
    match files_or_links(alloc, found)? {
        Some(inputs) => Ok(Some(Command::Validate { helper, inputs })),
        None => Ok(None),
    }
}

fn watch<'a>(alloc: Global, found: &ArgMatches<'a>) -> Result<Option<Command<'a>>, AllocError>
    ensures asked { IfOk result (λ command. option_map asked_by command
        ≡ asks_over_core specs.watch (rows_in found.now)) }
    ensures in_form { IfOk result (λ command. IfSome command IsInForm) }
{
    let Some(helper) = value(found, "helper") else {
        return Ok(None);
    };
    match files_or_links(alloc, found)? {
        Some(inputs) => Ok(Some(Command::Watch { helper, inputs })),
        None => Ok(None),
    }
}

fn witness<'a>(found: &ArgMatches<'a>) -> Option<Command<'a>>
    ensures asked { option_map asked_by result ≡ asks_witness (rows_in found.now) }
    ensures in_form { IfSome result IsInForm }
{
    let helper = value(found, "helper")?;
    let prefix = key_set(found, "prefix")?;
    let shelf = value(found, "shelf")?;
    let from = value(found, "from");
    let input = file_or_links(found)?;
    Some(Command::Witness {
        helper,
        prefix,
        shelf,
        from,
        input,
    })
}

fn make<'a>(found: &ArgMatches<'a>) -> Option<Command<'a>>
    ensures asked { option_map asked_by result ≡ asks_make (rows_in found.now) }
    ensures in_form { IfSome result IsInForm }
{
    let helper = value(found, "helper")?;
    let plan = value(found, "plan")?;
    let log = value(found, "log");
    Some(Command::Make { helper, plan, log })
}

fn convert<'a>(found: &ArgMatches<'a>) -> Option<Command<'a>>
    ensures asked { option_map asked_by result ≡ asks_convert (rows_in found.now) }
    ensures in_form { IfSome result IsInForm }
{
    let domain = domain_set(found, "to")?;
    let file = value(found, "file")?;
    Some(Command::Convert { domain, file })
}

fn export<'a>(alloc: Global, found: &ArgMatches<'a>) -> Result<Option<Command<'a>>, AllocError>
    ensures asked { IfOk result (λ command. option_map asked_by command ≡ asks_export (rows_in found.now)) }
    ensures in_form { IfOk result (λ command. IfSome command IsInForm) }
{
    let Some(helper) = value(found, "helper") else {
        return Ok(None);
    };
    let Some(prefix) = prefix_set(found, "prefix") else {
        return Ok(None);
    };
    match files_set(alloc, found)? {
        Some(files) => Ok(Some(Command::Export {
            helper,
            prefix,
            files,
        })),
        None => Ok(None),
    }
}

fn blame<'a>(found: &ArgMatches<'a>) -> Option<Command<'a>>
    ensures asked { option_map asked_by result ≡ asks_blame (rows_in found.now) }
    ensures in_form { IfSome result IsInForm }
{
    let helper = value(found, "helper")?;
    let first = value(found, "first")?;
    let second = value(found, "second")?;
    Some(Command::Blame {
        helper,
        first,
        second,
    })
}

fn generate<'a>(found: &ArgMatches<'a>) -> Option<Command<'a>>
    ensures asked { option_map asked_by result ≡ asks_gen (rows_in found.now) }
    ensures in_form { IfSome result IsInForm }
{
    let seed = number_set(found, "seed", 0, u64::MAX)?;
    let logs = count_set(found, "logs", MOST_OF_LOGS)?;
    let events = count_set(found, "events", MOST_OF_EVENTS)?;
    Some(Command::Generate { seed, logs, events })
}
