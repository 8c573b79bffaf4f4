//! The last round: what is open once all readers have ended.
ghost use Rattle.std.specs.Prelude.{◌≡◌, ◌+◌, ◌<◌, ◌≤◌, [], ◌∷◌, length, IfErr, IfOk, OnErr, OnOk};
ghost use Rattle.lists.specs.KeriSpecs.Causes.{Rose};
ghost use Rattle.validator_core.specs.ValidatorCore.Verdicts.{AsksAbout, IsFaultOf, IsOpen, IsSaid};
ghost use Rattle.validator_core.specs.ValidatorCore.View.{open_of, unheard_of};
ghost use Rattle.reader_hub.specs.ReaderThreads.LastRound.{AsksAll, AsksUnheard, Hears, NotesAs, joined};

use journal::Question;
use keri_outside::{Failed, Source, Steps, Verifier};
use run_status::{Close, ReaderEnd};
use std::alloc::AllocError;
use validator_core::{Core, VerdictFault};

/// What became of the last round.
#[derive(Clone, Copy, PartialEq, Eq, Debug)]
pub enum LastRound {
    /// Each verifier that was asked in it answered all.
    NoneFailed,
    /// A verifier failed in it.
    VerifierFailed,
    /// There was no memory for a verdict.
    OutOfMemory,
}

/// Asks what is still open: in their order, each of these readers' verifiers that is there and hasn't failed is asked
/// until nothing is open or it fails. The verdicts are those of its reader.
pub(crate) fn ask_rest<S: Source, V: Verifier>(
    core: &mut Core,
    readers: &mut [ReaderEnd<S, V>],
) -> LastRound
    requires few { length readers.old ≤ 65535 }
    ensures { AsksAll S.left S.faults V.says V.inquiries V.faults 0 readers.old readers.new core.old core.new result }
{
    ask_from(core, 0, readers)
}

// The same of readers of which the first has this number.
fn ask_from<S: Source, V: Verifier>(
    core: &mut Core,
    number: u16,
    readers: &mut [ReaderEnd<S, V>],
) -> LastRound
    requires few { number + length readers.old ≤ 65535 }
    ensures { AsksAll S.left S.faults V.says V.inquiries V.faults number readers.old readers.new core.old core.new result }
{
    let Some((first, others)) = readers.split_first_mut() else {
        return LastRound::NoneFailed;
    };
    let here = ask_reader(core, number, first);
    if here == LastRound::OutOfMemory {
        return here;
    }
    let later = ask_from(core, number + 1, others);
    join(here, later)
}

// What became of two parts of the round.
fn join(here: LastRound, later: LastRound) -> LastRound
    ensures { result ≡ joined here later }
{
    match (here, later) {
        (LastRound::NoneFailed, _) => later,
        (LastRound::VerifierFailed, LastRound::OutOfMemory) => LastRound::OutOfMemory,
        (LastRound::VerifierFailed, _) => LastRound::VerifierFailed,
        (LastRound::OutOfMemory, _) => LastRound::OutOfMemory,
    }
}

// Asks the verifier of one reader, where it is there and hasn't failed.
fn ask_reader<S: Source, V: Verifier>(
    core: &mut Core,
    number: u16,
    reader: &mut ReaderEnd<S, V>,
) -> LastRound
    ensures { AsksAll S.left S.faults V.says V.inquiries V.faults number (reader.old ∷ []) (reader.new ∷ [])
        core.old core.new result }
{
    if reader.close == Close::VerifierFault {
        return LastRound::NoneFailed;
    }
    let Some(verifier) = &mut reader.verifier else {
        return LastRound::NoneFailed;
    };
    match ask_open(core, number, verifier) {
        Ok(()) => LastRound::NoneFailed,
        Err(VerdictFault::VerifierFault) => LastRound::VerifierFailed,
        Err(VerdictFault::OutOfMemory) => LastRound::OutOfMemory,
    }
}

// Asks the verifier each open question, and notes its verdict, until none is open. A verdict may open further questions.
fn ask_open<V: Verifier>(core: &mut Core, number: u16, verifier: &mut V) -> Result<(), VerdictFault>
    ensures hears { OnOk result (Hears number (V.says verifier.old) (V.inquiries verifier.old) (V.inquiries verifier.new)
        core.old core.new 0) }
    ensures stops { OnErr result (Hears number (V.says verifier.old) (V.inquiries verifier.old)
        (V.inquiries verifier.new) core.old core.new 1) }
    ensures quiet { open_of core.old ≡ [] → core.new ≡ core.old }
    ensures same { V.says verifier.new ≡ V.says verifier.old }
    ensures none_open { OnOk result (open_of core.new ≡ []) }
    ensures none_failed { OnOk result (V.faults verifier.new ≡ V.faults verifier.old) }
    ensures fault { IfErr result (IsFaultOf (V.faults verifier.old) (V.faults verifier.new)) }
{
    while let Some(question) = core.next_question(0) {
        match ask_one(core, number, verifier, &question) {
            Ok(()) => {}
            Err(fault) => return Err(fault),
        }
    }
    Ok(())
}

// Asks the verifier an open question, and notes its verdict.
fn ask_one<V: Verifier>(
    core: &mut Core,
    number: u16,
    verifier: &mut V,
    question: &Question,
) -> Result<(), VerdictFault>
    requires { IsOpen core.old question.now }
    ensures hears { OnOk result (Hears number (V.says verifier.old) (V.inquiries verifier.old) (V.inquiries verifier.new)
        core.old core.new 0) }
    ensures unheard { OnErr result (AsksUnheard (V.inquiries verifier.old) (V.inquiries verifier.new) core.old) }
    ensures fewer { OnOk result (unheard_of core.new < unheard_of core.old) }
    ensures same { V.says verifier.new ≡ V.says verifier.old }
    ensures none_failed { OnOk result (V.faults verifier.new ≡ V.faults verifier.old) }
    ensures fault { IfErr result (IsFaultOf (V.faults verifier.old) (V.faults verifier.new)) }
    ensures err { OnErr result (core.new ≡ core.old) }
{
    match verdict_on(core, verifier, question) {
        Ok(yes) => match note(core, number, question, yes) {
            Ok(()) => Ok(()),
            Err(AllocError) => Err(VerdictFault::OutOfMemory),
        },
        Err(Failed) => Err(VerdictFault::VerifierFault),
    }
}

// What the verifier says of an open question.
fn verdict_on<V: Verifier>(
    core: &Core,
    verifier: &mut V,
    question: &Question,
) -> Result<bool, Failed>
    requires { IsOpen core.now question.now }
    ensures said { IfOk result (IsSaid (V.says verifier.old) core.now question.now) }
    ensures asked { AsksAbout (V.inquiries verifier.old) (V.inquiries verifier.new) core.now question.now result }
    ensures same { V.says verifier.new ≡ V.says verifier.old }
    ensures none_failed { OnOk result (V.faults verifier.new ≡ V.faults verifier.old) }
    ensures fault { OnErr result (Rose (V.faults verifier.old) (V.faults verifier.new)) }
{
    let Some(body) = core.body(question.body) else {
        unreachable!()
    };
    verifier.ask(&question.key, body, &question.sig)
}

// Notes a verdict on an open question, which is open no more.
fn note(core: &mut Core, number: u16, question: &Question, yes: bool) -> Result<(), AllocError>
    requires { IsOpen core.old question.now }
    ensures fewer { OnOk result (unheard_of core.new < unheard_of core.old) }
    ensures noted { OnOk result (NotesAs number core.old question.now yes core.new) }
    ensures err { OnErr result (core.new ≡ core.old) }
{
    let mut steps = Steps::new();
    match core.answer(number, question, yes, &mut steps) {
        Ok(_) => Ok(()),
        Err(AllocError) => Err(AllocError),
    }
}
