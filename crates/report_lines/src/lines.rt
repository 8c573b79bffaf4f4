//! Lines, each with its line feed.
ghost use Rattle.std.specs.Prelude.{◌≡◌, ◌++◌, IfOk, codes, flat_map, string_bytes};
ghost use Rattle.cesr_codes.specs.Spelling.{digest_text};
ghost use Rattle.report_lines.specs.Lines.{accepted_text, conflict_text, event_text, plan_text, state_text, stream_text, waits_text};

use crate::plan_word::PlanWord;
use crate::why_word::WhyWord;
use crate::{PlanRefusal, Sizes, Standing, StateSizes, StreamCounts};
use cesr_codes::{Digest, Prefix};
use event_body::Event;
use journal::Why;
use std::alloc::{AllocError, Global};

/// The line for words that aren't in the form.
pub const WORDS: &str = "words\n";

/// The line of a plan of which no message is made.
pub fn plan_line(alloc: Global, refusal: PlanRefusal) -> Result<String, AllocError>
    ensures { IfOk result (λ line. string_bytes line ≡ plan_text refusal) }
{
    let word = PlanWord(refusal);
    format!(in alloc; "plan {word}\n")
}

/// The line of an event with its sizes.
pub fn event_line(alloc: Global, event: &Event, sizes: Sizes) -> Result<String, AllocError>
    ensures { IfOk result (λ line. string_bytes line ≡ event_text event.now sizes) }
{
    let kind = event.kind();
    let prefix = event.prefix();
    let sn = event.sn();
    let said = event.said();
    format!(in alloc; "{kind} {prefix} {sn:x} {said} {sizes}\n")
}

/// The line of an accepted event.
pub fn accepted_line(alloc: Global, event: &Event, standing: Standing) -> Result<String, AllocError>
    ensures { IfOk result (λ line. string_bytes line ≡ accepted_text event.now standing) }
{
    let kind = event.kind();
    let prefix = event.prefix();
    let sn = event.sn();
    let said = event.said();
    format!(in alloc; "event {prefix} {sn:x} {kind} {said} {standing}\n")
}

/// The line of an event that waits.
pub fn waits_line(alloc: Global, event: &Event, why: Why) -> Result<String, AllocError>
    ensures { IfOk result (λ line. string_bytes line ≡ waits_text event.now why) }
{
    let prefix = event.prefix();
    let sn = event.sn();
    let said = event.said();
    let word = WhyWord(why);
    format!(in alloc; "waits {prefix} {sn:x} {said} {word}\n")
}

/// The line of a key state: its identifier, the number and the digest of its last event, and its sizes.
pub fn state_line(
    alloc: Global,
    prefix: &Prefix,
    sn: u64,
    said: &Digest,
    sizes: StateSizes,
) -> Result<String, AllocError>
    ensures { IfOk result (λ line. string_bytes line ≡ state_text prefix.now sn said.now sizes) }
{
    format!(in alloc; "state {prefix} {sn:x} {said} {sizes}\n")
}

/// The line of a stream that was made, and how much of it is accepted.
pub fn stream_line(alloc: Global, counts: StreamCounts) -> Result<String, AllocError>
    ensures { IfOk result (λ line. string_bytes line ≡ stream_text counts) }
{
    format!(in alloc; "gen {counts}\n")
}

/// The line of a conflict: the identifier, the number, and the digests of the bodies.
pub fn conflict_line(
    alloc: Global,
    prefix: &Prefix,
    sn: u64,
    saids: &[Digest],
) -> Result<String, AllocError>
    ensures { IfOk result (λ line. string_bytes line ≡ conflict_text prefix.now sn saids.now) }
{
    let words = words_of_saids(alloc, saids)?;
    format!(in alloc; "conflict {prefix} {sn:x}{words}\n")
}

// The digests, each behind a space.
fn words_of_saids(alloc: Global, saids: &[Digest]) -> Result<String, AllocError>
    ensures { IfOk result (λ text. string_bytes text ≡ flat_map (λ d. codes " " ++ digest_text d) saids.now) }
{
    let mut text = String::new(alloc);
    for said in saids {
        let word = format!(in alloc; " {said}")?;
        text.push_str(word.as_str())?;
    }
    Ok(text)
}
