//! The lines of blames.
ghost use Rattle.std.specs.Prelude.{◌≡◌, IfOk, flat_map, string_bytes};
ghost use Rattle.blame_core.specs.BlameCore.Lines.{blames_text, culprit_text, pair_text, rivals_text};

use crate::blame_core::{Blame, Culprit};
use cesr_codes::{Digest, Prefix};
use lists::Items;
use std::alloc::{AllocError, Global};
use validator_core::Core;

/// For each pair the line `blame`, the prefix, the number and the digests of both events, and then for each culprit
/// the line `witness`, its key and both signatures. A pair of which a core doesn't hold the body has no lines.
pub fn blame_lines(
    alloc: Global,
    first: &Core,
    second: &Core,
    blames: &Items<Blame>,
) -> Result<String, AllocError>
    ensures { IfOk result (λ text. string_bytes text ≡ blames_text first.now.held second.now.held blames.now) }
{
    let mut text = String::new(alloc);
    for blame in blames.as_slice() {
        let lines = lines_of(alloc, first, second, blame)?;
        text.push_str(lines.as_str())?;
    }
    Ok(text)
}

// The lines of a pair.
fn lines_of(alloc: Global, first: &Core, second: &Core, blame: &Blame) -> Result<String, AllocError>
    ensures { IfOk result (λ text. string_bytes text ≡ rivals_text first.now.held second.now.held blame.now) }
{
    let (Some(one), Some(other)) = (first.event(blame.first), second.event(blame.second)) else {
        return Ok(String::new(alloc));
    };
    let said = one.said();
    let other_said = other.said();
    let mut text = pair_line(alloc, &blame.prefix, blame.sn, &said, &other_said)?;
    let culprits = culprit_lines(alloc, blame.culprits.as_slice())?;
    text.push_str(culprits.as_str())?;
    Ok(text)
}

// The line of a pair itself.
fn pair_line(
    alloc: Global,
    prefix: &Prefix,
    sn: u64,
    one: &Digest,
    other: &Digest,
) -> Result<String, AllocError>
    ensures { IfOk result (λ line. string_bytes line ≡ pair_text prefix.now sn one.now other.now) }
{
    format!(in alloc; "blame {prefix} {sn:x} {one} {other}\n")
}

// The lines of culprits.
fn culprit_lines(alloc: Global, culprits: &[Culprit]) -> Result<String, AllocError>
    ensures { IfOk result (λ text. string_bytes text ≡ flat_map culprit_text culprits.now) }
{
    let mut text = String::new(alloc);
    for culprit in culprits {
        let line = culprit_line(alloc, culprit)?;
        text.push_str(line.as_str())?;
    }
    Ok(text)
}

// The line of a culprit.
fn culprit_line(alloc: Global, culprit: &Culprit) -> Result<String, AllocError>
    ensures { IfOk result (λ line. string_bytes line ≡ culprit_text culprit.now) }
{
    let Culprit { key, one, other } = culprit;
    format!(in alloc; "witness {key} {one} {other}\n")
}
