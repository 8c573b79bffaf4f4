//! The form of the words: the command line that `clap` reads them by.
ghost use Rattle.std.specs.Prelude.{◌≡◌, ◌∷◌, [], IfOk, codes, false};
ghost use Rattle.clap.specs.Words.{App, Shape, app_of, rule_of, with_subcommand};
ghost use Rattle.command_words.specs.Table as specs;
ghost use Rattle.command_words.specs.Table.{HasShape, bare, may_have, table, wants};

use clap::{Arg, ArgAction, Command};
use std::alloc::{AllocError, Global};

/// The program with its commands.
pub(crate) fn program<'a>(alloc: Global) -> Result<Command<'a>, AllocError>
    ensures { IfOk result (λ program. app_of program ≡ table) }
{
    let program = with(without_commands(alloc), check(alloc))?;
    let program = with(program, over_core(alloc, "validate"))?;
    let program = with(program, over_core(alloc, "watch"))?;
    let program = with(program, witness(alloc))?;
    let program = with(program, make(alloc))?;
    let program = with(program, convert(alloc))?;
    let program = with(program, export(alloc))?;
    let program = with(program, blame(alloc))?;
    let program = with(program, generate(alloc))?;
    with(program, Ok(Command::new(alloc, "rehearse")))
}

// The program with one command more, where there was memory for that.
fn with<'a>(
    program: Command<'a>,
    command: Result<Command<'a>, AllocError>,
) -> Result<Command<'a>, AllocError>
    ensures { (app : App) (shape : Shape) → app_of program.entry ≡ app → IfOk command.entry (HasShape shape)
        → IfOk result (λ it. app_of it ≡ with_subcommand app shape) }
{
    program.subcommand(command?)
}

// The program before it has a command.
fn without_commands<'a>(alloc: Global) -> Command<'a>
    ensures { app_of result ≡ bare }
{
    Command::new(alloc, "keri")
        .no_binary_name(true)
        .disable_help_flag(true)
        .disable_help_subcommand(true)
        .subcommand_required(true)
}

// `check FILE`
fn check<'a>(alloc: Global) -> Result<Command<'a>, AllocError>
    ensures { IfOk result (HasShape (specs.command (codes "check") (specs.file (codes "file") ∷ []))) }
{
    Command::new(alloc, "check").arg(file(alloc, "file"))
}

// `validate` and `watch`, with `--helper HELPER FILE ..`, or `--listen ADDRESS --links COUNT` in the place of the FILEs
fn over_core<'a>(alloc: Global, name: &'a str) -> Result<Command<'a>, AllocError>
    ensures { IfOk result (HasShape (specs.core_shape name.now)) }
{
    Command::new(alloc, name)
        .arg(wanted(alloc, "helper"))?
        .arg(option(alloc, "listen"))?
        .arg(option(alloc, "links"))?
        .arg(maybe_files(alloc))
}

// `witness --helper HELPER --prefix KEY --shelf SHELF FILE`, and `--from OLD`; or links in the place of the FILE
fn witness<'a>(alloc: Global) -> Result<Command<'a>, AllocError>
    ensures { IfOk result (HasShape specs.witness_shape) }
{
    Command::new(alloc, "witness")
        .arg(wanted(alloc, "helper"))?
        .arg(wanted(alloc, "prefix"))?
        .arg(wanted(alloc, "shelf"))?
        .arg(option(alloc, "from"))?
        .arg(option(alloc, "listen"))?
        .arg(option(alloc, "links"))?
        .arg(maybe_file(alloc, "file"))
}

// `make --helper HELPER --plan PLAN`, and `--log LOG`
fn make<'a>(alloc: Global) -> Result<Command<'a>, AllocError>
    ensures { IfOk result (HasShape (specs.command (codes "make") (wants (codes "helper") ∷ wants (codes "plan")
        ∷ may_have (codes "log") ∷ []))) }
{
    Command::new(alloc, "make")
        .arg(wanted(alloc, "helper"))?
        .arg(wanted(alloc, "plan"))?
        .arg(option(alloc, "log"))
}

// `convert --to DOMAIN FILE`
fn convert<'a>(alloc: Global) -> Result<Command<'a>, AllocError>
    ensures { IfOk result (HasShape (specs.command (codes "convert") (wants (codes "to") ∷ specs.file (codes "file") ∷ []))) }
{
    Command::new(alloc, "convert")
        .arg(wanted(alloc, "to"))?
        .arg(file(alloc, "file"))
}

// `export --helper HELPER --prefix PREFIX FILE ..`
fn export<'a>(alloc: Global) -> Result<Command<'a>, AllocError>
    ensures { IfOk result (HasShape (specs.command (codes "export") (wants (codes "helper") ∷ wants (codes "prefix")
        ∷ specs.files ∷ []))) }
{
    Command::new(alloc, "export")
        .arg(wanted(alloc, "helper"))?
        .arg(wanted(alloc, "prefix"))?
        .arg(files(alloc))
}

// `blame --helper HELPER FILE FILE`
fn blame<'a>(alloc: Global) -> Result<Command<'a>, AllocError>
    ensures { IfOk result (HasShape (specs.command (codes "blame") (wants (codes "helper") ∷ specs.file (codes "first")
        ∷ specs.file (codes "second") ∷ []))) }
{
    Command::new(alloc, "blame")
        .arg(wanted(alloc, "helper"))?
        .arg(file(alloc, "first"))?
        .arg(file(alloc, "second"))
}

// `gen --seed SEED --logs LOGS --events EVENTS`
fn generate<'a>(alloc: Global) -> Result<Command<'a>, AllocError>
    ensures { IfOk result (HasShape (specs.command (codes "gen") (wants (codes "seed") ∷ wants (codes "logs")
        ∷ wants (codes "events") ∷ []))) }
{
    Command::new(alloc, "gen")
        .arg(wanted(alloc, "seed"))?
        .arg(wanted(alloc, "logs"))?
        .arg(wanted(alloc, "events"))
}

// An option that may be left out.
fn option<'a>(alloc: Global, name: &'a str) -> Arg<'a>
    ensures rule { rule_of result ≡ may_have name.now }
    ensures local { result.global ≡ false }
{
    Arg::new(alloc, name).long(name).action(ArgAction::Set)
}

// An option that has to be there.
fn wanted<'a>(alloc: Global, name: &'a str) -> Arg<'a>
    ensures rule { rule_of result ≡ wants name.now }
    ensures local { result.global ≡ false }
{
    option(alloc, name).required(true)
}

// One FILE that may be left out, by the name of its value.
fn maybe_file<'a>(alloc: Global, name: &'a str) -> Arg<'a>
    ensures rule { rule_of result ≡ specs.maybe_file name.now }
    ensures local { result.global ≡ false }
{
    Arg::new(alloc, name).action(ArgAction::Set)
}

// One FILE that has to be there.
fn file<'a>(alloc: Global, name: &'a str) -> Arg<'a>
    ensures rule { rule_of result ≡ specs.file name.now }
    ensures local { result.global ≡ false }
{
    maybe_file(alloc, name).required(true)
}

// FILEs, which may be left out.
fn maybe_files<'a>(alloc: Global) -> Arg<'a>
    ensures rule { rule_of result ≡ specs.maybe_files }
    ensures local { result.global ≡ false }
{
    Arg::new(alloc, "files").action(ArgAction::Append)
}

// FILEs, one at least.
fn files<'a>(alloc: Global) -> Arg<'a>
    ensures rule { rule_of result ≡ specs.files }
    ensures local { result.global ≡ false }
{
    maybe_files(alloc).required(true)
}
