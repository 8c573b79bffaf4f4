//! The top call.
ghost use Rattle.std.specs.Prelude.{◌≡◌, ◌<◌, [], None, Some, IfOk, OnErr, length, map, option_map};
ghost use Rattle.std.specs.Vec.{vec_capacity};
ghost use Rattle.command_words.specs.Inputs.{AreFew, AreInForm, inputs_by};
ghost use Rattle.command_words.specs.Words as asks_for;
ghost use Rattle.command_words.specs.Words.{IsInForm, asked_by};
ghost use Rattle.keri_roles.specs.KeriRoles.Commands.{CarriesOut, IsRunOf, IsWritten, RefusesWords};
ghost use Rattle.run_status.specs.RunRecord.Run.{HasCauses, HasNoSecond, asked_in};
ghost use Rattle.keri_roles.specs.CoreRoles.Work.{IsFinished};
ghost use Rattle.run_status.specs.RunRecord.NoJournal.{no_journal};

use crate::core_roles::{
    BlameWords, FileWords, LinkWords, LinkedOutcome, Outcome, RivalOutcome, SignedOutcome,
    blame_files, export_files, validate_files, validate_links, watch_files, watch_links,
};
use crate::keri_roles::check::check;
use crate::keri_roles::convert::convert;
use crate::keri_roles::generate::{StreamPlan, generate};
use crate::keri_roles::make::{MakeWords, make};
use crate::keri_roles::rehearse::rehearse;
use crate::keri_roles::{Done, ReaderEnd, Runs};
use command_words::{Command, Inputs, Links, command_of};
use keri_outside::Door;
use report_lines::WORDS;
use run_status::{Besides, NO_MEMORY, Outside, end_run, nothing_told};
use std::alloc::{AllocError, Global};
use std::sync::Wait;
use std::thread::Threads;
use witness_core::{WitnessWords, witness};

// `make` reads a plan and a log, and `blame` two files; `validate`, `watch`, `export` and links have room of their own, and every
// other command reads one stream.
const MOST_READERS: usize = 2;

/// Does all that the program does: what the words ask for, over the outside that is handed in. Readers that are several run in
/// threads of `rt`.
pub fn run<R: Threads + Wait + Sync, O: Runs>(
    rt: &R,
    alloc: Global,
    words: &Vec<String>,
    outside: &mut O,
) -> Done<O>
    // Words that aren't in the form of a command are refused, and nothing is made. Others are answered as they ask.
    ensures answered { IsRunOf O.Disk.shown result.disk result.old (asked_in words.now.items)
        (O.run outside.old outside.new result) }

    // Each fault that is answered has its cause.
    ensures causes { HasCauses (asked_in words.now.items) (O.run outside.old outside.new result) }

    // `blame` alone has a second journal.
    ensures second { HasNoSecond (asked_in words.now.items) result.second }
{
    answer(rt, alloc, words, outside)
}

// The same; that each fault has its cause follows.
fn answer<R: Threads + Wait + Sync, O: Outside>(
    rt: &R,
    alloc: Global,
    words: &Vec<String>,
    outside: &mut O,
) -> Done<O>
    ensures answered { IsRunOf O.Disk.shown result.disk result.old (asked_in words.now.items)
        (⟦<O as Runs>⟧.run outside.old outside.new result) }
    ensures second { HasNoSecond (asked_in words.now.items) result.second }
{
    let command = match command_of(alloc, words.as_slice()) {
        Ok(Some(command)) => command,
        Ok(None) => return refuse(alloc, outside),
        Err(AllocError) => return unbegun(alloc),
    };
    match carry_out(rt, alloc, command, outside) {
        Ok(done) => done,
        Err(AllocError) => unbegun(alloc),
    }
}

// Does what the command asks for. At `Err` there was no memory to begin with, and nothing was made or written.
fn carry_out<R: Threads + Wait + Sync, O: Outside>(
    rt: &R,
    alloc: Global,
    command: Command,
    outside: &mut O,
) -> Result<Done<O>, AllocError>
    requires in_form { IsInForm command }
    ensures does { IfOk result (λ done. CarriesOut O.Disk.shown done.disk done.old (Some (asked_by command.entry))
        (⟦<O as Runs>⟧.run outside.old outside.new done)) }
    ensures second { IfOk result (λ done. HasNoSecond (Some (asked_by command.entry)) done.second) }
    ensures none_made { OnErr result (O.shown outside.new ≡ O.shown outside.old) }
    ensures none_written { OnErr result (O.sink outside.new ≡ O.sink outside.old) }
{
    match command {
        Command::Check { file } => {
            let outcome = check(alloc, file, room(alloc)?, outside);
            Ok(finish(alloc, unsigned(outcome), outside))
        }
        Command::Validate { helper, inputs } => carry_validate(rt, alloc, helper, inputs, outside),
        Command::Watch { helper, inputs } => carry_watch(rt, alloc, helper, inputs, outside),
        Command::Witness {
            helper,
            prefix,
            shelf,
            from,
            input,
        } => {
            let words = WitnessWords {
                helper,
                prefix,
                shelf,
                from,
                input,
            };
            Ok(witness(alloc, words, room(alloc)?, outside))
        }
        Command::Export {
            helper,
            prefix,
            files,
        } => {
            let names = files.as_slice();
            let outcome = export_files(rt, alloc, FileWords { helper, names }, prefix, outside)?;
            Ok(finish(alloc, unsigned(outcome), outside))
        }
        Command::Blame {
            helper,
            first,
            second,
        } => {
            let words = BlameWords {
                helper,
                first,
                second,
            };
            let rival = blame_files(rt, alloc, words, room(alloc)?, outside)?;
            Ok(finish_rival(alloc, rival, outside))
        }
        Command::Make { helper, plan, log } => {
            let words = MakeWords { helper, plan, log };
            let outcome = make(rt, alloc, words, room(alloc)?, outside)?;
            Ok(finish(alloc, outcome, outside))
        }
        Command::Convert { domain, file } => Ok(convert(
            alloc,
            domain,
            file,
            room(alloc)?,
            outside,
        )),
        Command::Generate { seed, logs, events } => {
            let plan = StreamPlan { seed, logs, events };
            let outcome = generate(rt, alloc, plan, room(alloc)?, outside)?;
            Ok(finish(alloc, unsigned(outcome), outside))
        }
        Command::Rehearse => Ok(rehearse(alloc, room(alloc)?, outside)),
    }
}

// `validate`, over files or over links.
fn carry_validate<R: Threads + Wait + Sync, O: Outside>(
    rt: &R,
    alloc: Global,
    helper: &str,
    inputs: Inputs<'_, Vec<&str>>,
    outside: &mut O,
) -> Result<Done<O>, AllocError>
    requires in_form { AreInForm (λ files. AreFew (length files.items)) inputs }
    ensures does { IfOk result (λ done. CarriesOut O.Disk.shown done.disk done.old
        (Some (asks_for.validate helper.now (inputs_by (λ files. map (λ f. f.now) files.items) inputs.entry)))
        (⟦<O as Runs>⟧.run outside.old outside.new done)) }
    ensures no_second { IfOk result (λ done. done.second ≡ None) }
    ensures none_made { OnErr result (O.shown outside.new ≡ O.shown outside.old) }
    ensures none_written { OnErr result (O.sink outside.new ≡ O.sink outside.old) }
{
    match inputs {
        Inputs::Named(files) => {
            let names = files.as_slice();
            let outcome = validate_files(rt, alloc, FileWords { helper, names }, outside)?;
            Ok(finish(alloc, unsigned(outcome), outside))
        }
        Inputs::Links(Links { address, count }) => {
            let words = LinkWords {
                helper,
                address,
                count,
            };
            let outcome = validate_links(rt, alloc, words, outside)?;
            Ok(finish_links(alloc, outcome, outside))
        }
    }
}

// `watch`, over files or over links.
fn carry_watch<R: Threads + Wait + Sync, O: Outside>(
    rt: &R,
    alloc: Global,
    helper: &str,
    inputs: Inputs<'_, Vec<&str>>,
    outside: &mut O,
) -> Result<Done<O>, AllocError>
    requires in_form { AreInForm (λ files. AreFew (length files.items)) inputs }
    ensures does { IfOk result (λ done. CarriesOut O.Disk.shown done.disk done.old
        (Some (asks_for.watch helper.now (inputs_by (λ files. map (λ f. f.now) files.items) inputs.entry)))
        (⟦<O as Runs>⟧.run outside.old outside.new done)) }
    ensures no_second { IfOk result (λ done. done.second ≡ None) }
    ensures none_made { OnErr result (O.shown outside.new ≡ O.shown outside.old) }
    ensures none_written { OnErr result (O.sink outside.new ≡ O.sink outside.old) }
{
    match inputs {
        Inputs::Named(files) => {
            let names = files.as_slice();
            let outcome = watch_files(rt, alloc, FileWords { helper, names }, outside)?;
            Ok(finish(alloc, unsigned(outcome), outside))
        }
        Inputs::Links(Links { address, count }) => {
            let words = LinkWords {
                helper,
                address,
                count,
            };
            let outcome = watch_links(rt, alloc, words, outside)?;
            Ok(finish_links(alloc, outcome, outside))
        }
    }
}

// Room for the readers of a command that has at most two.
fn room<S, V>(alloc: Global) -> Result<Vec<ReaderEnd<S, V>>, AllocError>
    ensures none_yet { IfOk result (λ readers. readers.items ≡ []) }
    ensures room { IfOk result (λ readers. 1 < vec_capacity readers) }
{
    Vec::with_capacity(alloc, MOST_READERS)
}

// An outcome without a signer.
fn unsigned<S, V, G>(outcome: Outcome<S, V>) -> SignedOutcome<S, V, G>
    ensures { result ≡ record { outcome = outcome; signer = None } }
{
    SignedOutcome {
        outcome,
        signer: None,
    }
}

// Writes what is owed, and finds the status. It takes no memory.
fn finish<O: Outside>(
    alloc: Global,
    outcome: SignedOutcome<O::Source, O::Verifier, O::Signer>,
    outside: &mut O,
) -> Done<O>
    ensures readers { result.readers ≡ outcome.outcome.readers }
    ensures journal { result.journal ≡ outcome.outcome.journal }
    ensures signer { result.signer ≡ outcome.signer }
    ensures no_disk { result.disk ≡ None }
    ensures no_old { result.old ≡ None }
    ensures no_door { result.door ≡ None }
    ensures no_sinks { result.sinks.items ≡ [] }
    ensures no_second { result.second ≡ None }
    ensures finished { IsFinished outcome.outcome (⟦<O as Runs>⟧.run outside.old outside.new result) }
    ensures shown { O.shown outside.new ≡ O.shown outside.old }
{
    let SignedOutcome { outcome, signer } = outcome;
    let Outcome {
        readers,
        journal,
        owed,
        besides,
    } = outcome;
    let status = end_run(outside, text_of(&owed), besides, readers.as_slice());
    Done {
        status,
        journal,
        readers,
        signer,
        disk: None,
        old: None,
        door: None,
        sinks: Vec::new(alloc),
        second: None,
    }
}

// The same of two cores.
fn finish_rival<O: Outside>(
    alloc: Global,
    rival: RivalOutcome<O::Source, O::Verifier>,
    outside: &mut O,
) -> Done<O>
    ensures readers { result.readers ≡ rival.outcome.readers }
    ensures journal { result.journal ≡ rival.outcome.journal }
    ensures second { result.second ≡ Some rival.second }
    ensures signer { result.signer ≡ None }
    ensures no_disk { result.disk ≡ None }
    ensures no_old { result.old ≡ None }
    ensures no_door { result.door ≡ None }
    ensures no_sinks { result.sinks.items ≡ [] }
    ensures finished { IsFinished rival.outcome (⟦<O as Runs>⟧.run outside.old outside.new result) }
    ensures shown { O.shown outside.new ≡ O.shown outside.old }
{
    let RivalOutcome { outcome, second } = rival;
    Done {
        second: Some(second),
        ..finish(alloc, unsigned(outcome), outside)
    }
}

// The same of readers of links.
fn finish_links<O: Outside>(
    alloc: Global,
    linked: LinkedOutcome<O::Source, O::Verifier, O::Door, <O::Door as Door>::Sink>,
    outside: &mut O,
) -> Done<O>
    ensures readers { result.readers ≡ linked.outcome.readers }
    ensures journal { result.journal ≡ linked.outcome.journal }
    ensures signer { result.signer ≡ None }
    ensures no_disk { result.disk ≡ None }
    ensures no_old { result.old ≡ None }
    ensures door { result.door ≡ linked.door }
    ensures sinks { result.sinks ≡ linked.sinks }
    ensures no_second { result.second ≡ None }
    ensures finished { IsFinished linked.outcome (⟦<O as Runs>⟧.run outside.old outside.new result) }
    ensures shown { O.shown outside.new ≡ O.shown outside.old }
{
    let LinkedOutcome {
        outcome,
        door,
        sinks,
    } = linked;
    Done {
        door,
        sinks,
        ..finish(alloc, unsigned(outcome), outside)
    }
}

// The bytes of a text that is owed.
fn text_of(owed: &Option<Vec<u8>>) -> Option<&[u8]>
    ensures { option_map (λ text. text.now) result ≡ option_map (λ text. text.items) owed.now }
{
    match owed {
        Some(text) => Some(text.as_slice()),
        None => None,
    }
}

// What a run comes to where there was no memory to begin with.
fn unbegun<O: Outside>(alloc: Global) -> Done<O>
    ensures status { result.status ≡ 10 }
    ensures readers { result.readers.items ≡ [] }
    ensures journal { result.journal ≡ no_journal }
    ensures signer { result.signer ≡ None }
    ensures no_disk { result.disk ≡ None }
    ensures no_old { result.old ≡ None }
    ensures no_door { result.door ≡ None }
    ensures no_sinks { result.sinks.items ≡ [] }
    ensures no_second { result.second ≡ None }
{
    Done {
        status: NO_MEMORY,
        journal: nothing_told(alloc),
        readers: Vec::new(alloc),
        signer: None,
        disk: None,
        old: None,
        door: None,
        sinks: Vec::new(alloc),
        second: None,
    }
}

// Says that the words aren't in the form.
fn refuse<O: Outside>(alloc: Global, outside: &mut O) -> Done<O>
    ensures answered { IsWritten RefusesWords (⟦<O as Runs>⟧.run outside.old outside.new result) }
    ensures no_second { result.second ≡ None }
{
    let besides = Besides {
        words_refused: true,
        ..Besides::nothing()
    };
    let readers = Vec::new(alloc);
    let status = end_run(outside, Some(WORDS.as_bytes()), besides, readers.as_slice());
    Done {
        status,
        journal: nothing_told(alloc),
        readers,
        signer: None,
        disk: None,
        old: None,
        door: None,
        sinks: Vec::new(alloc),
        second: None,
    }
}
