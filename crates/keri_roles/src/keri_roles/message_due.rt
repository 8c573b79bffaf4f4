//! What is due to a plan.
ghost use Rattle.std.specs.Prelude.{◌≡◌, IfSome, IfOk, OnErr, IsErr, is_none};
ghost use Rattle.std.specs.List.{list_any, list_all};
ghost use Rattle.lists.specs.KeriSpecs.Shown.{HasNone};
ghost use Rattle.keri_roles.specs.CoreRoles.Through.{is_through};
ghost use Rattle.run_status.specs.RunRecord.Run.{is_out};
ghost use Rattle.keri_roles.specs.KeriRoles.PlanDues.{GivesTheSame, HasAnswer, IsAnswered, IsDueTo};

use crate::keri_roles::Close;
use crate::keri_roles::signs::Signs;
use crate::plan_answer::{PlanAnswer, ReadLog, answer_plan};
use keri_outside::Signer;
use report_lines::plan_line;
use run_status::Besides;
use std::alloc::{AllocError, Global};

/// The text that is owed, unless there was no memory for it, and what was found.
#[derive(Drop)]
pub(crate) struct MessageDue {
    pub(crate) owed: Option<Vec<u8>>,
    pub(crate) besides: Besides,
}

/// Answers the plan, where each reader came to the end of what it read and there is a signer.
pub(crate) fn message_due<G: Signer>(
    alloc: Global,
    plan: &[u8],
    log: Option<ReadLog<'_>>,
    closes: &[Close],
    signer: &mut Option<G>,
) -> MessageDue
    requires unasked { IfSome signer.old (λ signer. HasNone (G.signings signer)) }
    requires unfailed { IfSome signer.old (λ signer. G.faults signer ≡ 0) }
    ensures due { IsDueTo G.gives signer.old (⟦<G as Signs>⟧.seen signer.new)
        log.entry plan.now closes.now result }
    ensures signer { is_none signer.new ≡ is_none signer.old }
    ensures gives { GivesTheSame G.gives signer.old signer.new }
{
    let besides = Besides {
        signer_failed: signer.is_none(),
        ..Besides::nothing()
    };
    if some_out(closes) {
        return MessageDue {
            owed: None,
            besides,
        };
    }
    match signer {
        Some(signer) if are_through(closes) => answer_due(alloc, plan, log, signer),
        _ => MessageDue {
            owed: Some(Vec::new(alloc)),
            besides,
        },
    }
}

// Whether there was no memory for all that a reader read.
fn some_out(closes: &[Close]) -> bool
    ensures { result ≡ list_any is_out closes.now }
{
    closes.iter().any(|close| *close == Close::OutOfMemory)
}

// Whether each reader came to the end of what it read.
fn are_through(closes: &[Close]) -> bool
    ensures { result ≡ list_all is_through closes.now }
{
    closes
        .iter()
        .all(|close| matches!(*close, Close::End | Close::Bad(_)))
}

// Answers the plan.
fn answer_due<G: Signer>(
    alloc: Global,
    plan: &[u8],
    log: Option<ReadLog<'_>>,
    signer: &mut G,
) -> MessageDue
    requires unasked { HasNone (G.signings signer.old) }
    requires unfailed { G.faults signer.old ≡ 0 }
    ensures due { IsAnswered (⟦<G as Signs>⟧.shown signer.old) (⟦<G as Signs>⟧.shown signer.new)
        log.entry plan.now result }
    ensures gives { G.gives signer.new ≡ G.gives signer.old }
{
    let answer = answer_plan(alloc, plan, log, signer);
    match owe(alloc, answer) {
        Ok(due) => due,
        Err(AllocError) => MessageDue {
            owed: None,
            besides: Besides::nothing(),
        },
    }
}

// What is due to an answer.
fn owe(alloc: Global, answer: Result<PlanAnswer, AllocError>) -> Result<MessageDue, AllocError>
    ensures ok { IfOk result (λ due. IfOk answer (HasAnswer due)) }
    ensures err { OnErr answer (IsErr result) }
{
    match answer? {
        PlanAnswer::Message(text) => Ok(MessageDue {
            owed: Some(text.into_vec()),
            besides: Besides::nothing(),
        }),
        PlanAnswer::Refused(why) => Ok(MessageDue {
            owed: Some(plan_line(alloc, why)?.into_bytes()),
            besides: Besides {
                plan_refused: true,
                ..Besides::nothing()
            },
        }),
        PlanAnswer::SignerFault => Ok(MessageDue {
            owed: Some(Vec::new(alloc)),
            besides: Besides {
                signer_failed: true,
                ..Besides::nothing()
            },
        }),
    }
}
