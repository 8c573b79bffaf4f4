//! The calls of a core.

use crate::cores::evidence::evidence;
use crate::cores::session::{Session, limits_of, mode_of};
use crate::cores::{base, views};
use crate::disks::LIMIT;
use cesr_codes::Sig;
use cesr_stream::Message;
use journal::{Question, Reply};
use keri_outside::{Rehearsal, Verifier};
use rows::{Row, given, message_of};
use std::alloc::{AllocError, Global};
use validator_core::Core;

// How many questions `ask` answers at most.
pub(crate) const MOST_QUESTIONS: u32 = 1_000_000;

// The first argument as the number of a reader; 0 where it is none.
fn reader_of(row: &Row) -> u16 {
    u16::try_from(row.number(1)).unwrap_or(0)
}

/// The first argument as a number of 32 bits; the greatest of those where it is beyond.
pub(crate) fn number_of(row: &Row) -> u32 {
    u32::try_from(row.number(1)).unwrap_or(u32::MAX)
}

/// `core MODE MESSAGES BYTES SIGNATURES`: the calls behind it are those of a new core.
fn begun(alloc: Global, session: &mut Session, row: &Row) -> Result<String, AllocError> {
    session.begin(Core::new(alloc, mode_of(row.word(1)), limits_of(row)));
    String::from_str(alloc, "begun")
}

// What a call gives, and whether it counted so many steps at most.
fn within(alloc: Global, answer: &str, steps: u64, bound: u64) -> Result<String, AllocError> {
    let few = steps <= bound;
    format!(in alloc; "{answer} {few}")
}

// What becomes of the message, and whether it takes so many steps at most.
fn told(
    alloc: Global,
    session: &mut Session,
    row: &Row,
    message: &Message,
) -> Result<String, AllocError> {
    let before = session.steps.count();
    let reply = session
        .core
        .take(reader_of(row), message, &mut session.steps)?;
    let reply = match reply {
        Reply::LimitReached => String::from_str(alloc, LIMIT)?,
        _ => format!(in alloc; "{reply:?}")?,
    };
    let steps = session.steps.count().saturating_sub(before);
    within(alloc, reply.as_str(), steps, row.number(2))
}

/// `take READER BOUND TEXT`: what becomes of the message, and whether it takes so many steps at most.
fn taken(alloc: Global, session: &mut Session, row: &Row) -> Result<String, AllocError> {
    let text = row.bytes(alloc, 3)?;
    match message_of(alloc, text.as_slice())? {
        Some(message) => told(alloc, session, row, &message),
        None => String::from_str(alloc, "no-message"),
    }
}

/// `next SKIP`: the body's number and the key of the open question behind so many, counted round; `none` where none is open.
fn next(alloc: Global, session: &mut Session, row: &Row) -> Result<String, AllocError> {
    session.question = session.core.next_question(number_of(row));
    match session.question {
        Some(question) => {
            let (body, key) = (question.body, question.key);
            format!(in alloc; "{body} {key}")
        }
        None => String::from_str(alloc, "none"),
    }
}

// What becomes of the verdict on the question, and whether it takes so many steps at most.
fn noted(
    alloc: Global,
    session: &mut Session,
    question: &Question,
    yes: bool,
    bound: u64,
) -> Result<String, AllocError> {
    let before = session.steps.count();
    let noted = session.core.answer(0, question, yes, &mut session.steps)?;
    let noted = format!(in alloc; "{noted:?}")?;
    let steps = session.steps.count().saturating_sub(before);
    within(alloc, noted.as_str(), steps, bound)
}

/// `answer yes BOUND` or `answer no BOUND`: what becomes of the verdict on the question that `next` gave, and whether it takes so
/// many steps at most.
fn answered(alloc: Global, session: &mut Session, row: &Row) -> Result<String, AllocError> {
    match session.question {
        Some(question) => noted(
            alloc,
            session,
            &question,
            row.word(1) == "yes",
            row.number(2),
        ),
        None => String::from_str(alloc, "no-question"),
    }
}

/// `strange`: what becomes of a verdict on a signature that never came, by the key of the question that `next` gave.
fn strange(alloc: Global, session: &mut Session) -> Result<String, AllocError> {
    match session.question {
        Some(question) => {
            let other = Question {
                sig: Sig { raw: [7; 64] },
                ..question
            };
            noted(alloc, session, &other, true, 0)
        }
        None => String::from_str(alloc, "no-question"),
    }
}

/// What the rehearsal says of a question of the core.
pub(crate) fn verdict(core: &Core, question: &Question) -> bool {
    match core.body(question.body) {
        Some(body) => Rehearsal
            .ask(&question.key, body, &question.sig)
            .unwrap_or(false),
        None => false,
    }
}

// Answers the open question by the rehearsal, where one is open, and says whether one was.
fn ask_one(session: &mut Session) -> Result<bool, AllocError> {
    match session.core.next_question(0) {
        Some(question) => {
            let yes = verdict(&session.core, &question);
            session.core.answer(0, &question, yes, &mut session.steps)?;
            Ok(true)
        }
        None => Ok(false),
    }
}

/// `ask`: how many questions there were until none was open, each answered by the rehearsal; `too-many` past a million.
fn asked(alloc: Global, session: &mut Session) -> Result<String, AllocError> {
    for count in 0..MOST_QUESTIONS {
        if !ask_one(session)? {
            return format!(in alloc; "{count}");
        }
    }
    String::from_str(alloc, "too-many")
}

/// The answer of the row, where it is one of these calls.
pub(crate) fn answer(
    alloc: Global,
    session: &mut Session,
    row: &Row,
) -> Result<Option<String>, AllocError> {
    match row.word(0) {
        "core" => given(begun(alloc, session, row)),
        "take" => given(taken(alloc, session, row)),
        "next" => given(next(alloc, session, row)),
        "answer" => given(answered(alloc, session, row)),
        "strange" => given(strange(alloc, session)),
        "ask" => given(asked(alloc, session)),
        "resume" => given(base::resumed(alloc, session, row)),
        "evidence" => given(evidence(alloc, row)),
        _ => views::answer(alloc, session, row),
    }
}
