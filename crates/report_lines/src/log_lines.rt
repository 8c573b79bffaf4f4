//! The accepted events, and the states of their identifiers.
ghost use Rattle.std.specs.Prelude.{◌≡◌, ◌<◌, ◌==◌, All, IfOk, IsSorted, List, Some, length, option_map, string_bytes, if◌then◌else◌};
ghost use Rattle.std.specs.List.{list_any};
ghost use Rattle.std.specs.Ordering.{nat_cmp};
ghost use Rattle.journal.specs.declared.journal.body.Body.{Body};
ghost use Rattle.journal.specs.Journal.Journals.{chosen};
ghost use Rattle.journal.specs.Journal.Logs as logs;
ghost use Rattle.report_lines.specs.declared.standing.Standing.TheVariants.{Live, Superseded};
ghost use Rattle.validator_core.specs.ValidatorCore.View.{accepted_by};
ghost use Rattle.report_lines.specs.Logs.{Marks};
ghost use Rattle.report_lines.specs.Report as report;
ghost use Rattle.report_lines.specs.Report.{IsListing, events_lines, log_lines, prefix_cmp, prefixes_of};

use crate::logs::logs_of;
use crate::{Standing, StateSizes, accepted_line, state_line};
use cesr_codes::Prefix;
use journal_views::live;
use key_state::KeyState;
use std::alloc::{AllocError, Global};
use validator_core::Core;

/// The lines of each identifier that has an accepted event.
pub(crate) fn accepted_lines(alloc: Global, core: &Core) -> Result<String, AllocError>
    ensures { let log = accepted_by core.now in IfOk result
        (λ text. IsListing prefix_cmp (log_lines log) (prefixes_of log) (string_bytes text)) }
{
    let logs = logs_of(alloc, core)?;
    let mut text = String::new(alloc);
    for log in logs.values() {
        let lines = lines_of_log(alloc, core, &log.prefix, log.numbers.as_slice())?;
        text.push_str(lines.as_str())?;
    }
    Ok(text)
}

// The lines of an identifier, whose accepted events have these numbers, in order of acceptance.
fn lines_of_log(
    alloc: Global,
    core: &Core,
    prefix: &Prefix,
    numbers: &[u32],
) -> Result<String, AllocError>
    requires held { All (λ n. n < length core.now.held) numbers.now }
    requires own { chosen core.now.held numbers.now ≡ report.own_of prefix.now (accepted_by core.now) }
    ensures { IfOk result (λ text. string_bytes text ≡ log_lines (accepted_by core.now) prefix.now) }
{
    let live = live_numbers(alloc, core, prefix, numbers)?;
    let mut text = lines_of_events(alloc, core, numbers, live.as_slice())?;
    let state = lines_of_state(alloc, core.state(prefix))?;
    text.push_str(state.as_str())?;
    Ok(text)
}

// The numbers of the live events of an identifier, whose accepted events have these numbers; the least comes first.
fn live_numbers(
    alloc: Global,
    core: &Core,
    prefix: &Prefix,
    numbers: &[u32],
) -> Result<Vec<u32>, AllocError>
    requires held { All (λ n. n < length core.now.held) numbers.now }
    requires own { chosen core.now.held numbers.now ≡ report.own_of prefix.now (accepted_by core.now) }
    ensures rising { IfOk result (λ found. IsSorted nat_cmp found.items) }
    ensures those { IfOk result (λ found. Marks core.now.held found.items (logs.live (accepted_by core.now) prefix.now)) }
{
    // No two bodies are the same: the journal says so.
    let _journal = core.journal();
    let mut found = live(alloc, core.events(), numbers, prefix)?;
    found.sort_unstable();
    Ok(found)
}

// The lines of the events of these numbers, of which some are live.
fn lines_of_events(
    alloc: Global,
    core: &Core,
    numbers: &[u32],
    live: &[u32],
) -> Result<String, AllocError>
    requires rising { IsSorted nat_cmp live.now }
    ensures { (live_events : List Body) → Marks core.now.held live.now live_events
        → IfOk result (λ text. string_bytes text ≡ events_lines live_events (chosen core.now.held numbers.now)) }
{
    let mut text = String::new(alloc);
    for number in numbers {
        if let Some(event) = core.event(*number) {
            let line = accepted_line(alloc, event, standing_among(live, *number))?;
            text.push_str(line.as_str())?;
        }
    }
    Ok(text)
}

// How the event of a number stands, where these are the live ones.
fn standing_among(live: &[u32], number: u32) -> Standing
    requires { IsSorted nat_cmp live.now }
    ensures { result ≡ (if list_any (λ m. m == number) live.now then Live else Superseded) }
{
    match live.binary_search(&number) {
        Ok(_) => Standing::Live,
        Err(_) => Standing::Superseded,
    }
}

// The line of a state, where there is one.
fn lines_of_state(alloc: Global, state: Option<&KeyState>) -> Result<String, AllocError>
    ensures { IfOk result (λ text. string_bytes text ≡ report.state_lines (option_map (λ s. s.now) state.entry)) }
{
    match state {
        Some(state) => line_of_state(alloc, state),
        None => Ok(String::new(alloc)),
    }
}

fn line_of_state(alloc: Global, state: &KeyState) -> Result<String, AllocError>
    ensures { IfOk result (λ line. string_bytes line ≡ report.state_lines (Some state.now)) }
{
    let sizes = StateSizes {
        keys: state.keys.len(),
        witnesses: state.list.len(),
        toad: state.toad,
    };
    state_line(alloc, &state.prefix, state.sn(), &state.said(), sizes)
}
