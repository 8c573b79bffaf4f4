//! The values of options, and what is read.
ghost use Rattle.std.specs.Prelude.{◌≡◌, ◌≤◌, IfOk, IfSome, codes, is_some, length, map, ⊤};
ghost use Rattle.std.specs.Option.{option_map};
ghost use Rattle.clap.specs.Words.{all_of, first_of};
ghost use Rattle.cesr_codes.specs.Spelling.{IsPrefix};
ghost use Rattle.cesr_codes.specs.declared.key.KeyCode.TheVariants.{Fixed};
ghost use Rattle.command_words.specs.Inputs.{AreFew, AreInForm, has_links as has_links_in, inputs_by};
ghost use Rattle.command_words.specs.Inputs as inputs;
ghost use Rattle.command_words.specs.Numbers as numbers;
ghost use Rattle.command_words.specs.Words as specs;
ghost use Rattle.command_words.specs.Words.{rows_in};

use crate::domain::domain;
use crate::inputs::Inputs;
use crate::key::fixed_key;
use crate::links::Links;
use crate::number::number;
use crate::prefix::any_prefix;
use cesr_binary::Domain;
use cesr_codes::{Key, Prefix};
use clap::ArgMatches;
use std::alloc::{AllocError, Global};

// No more files are read to one core, and no more links are taken.
const MOST_OF_FILES: usize = 64;

const MOST_OF_LINKS: u16 = 64;

/// The domain that an option is set to.
pub(crate) fn domain_set(found: &ArgMatches<'_>, option: &str) -> Option<Domain>
    ensures { result ≡ specs.domain_set option.now (rows_in found.now) }
{
    domain(value(found, option)?)
}

/// The key that can't be rotated that an option is set to.
pub(crate) fn key_set(found: &ArgMatches<'_>, option: &str) -> Option<Key>
    ensures key { result ≡ specs.key_set option.now (rows_in found.now) }
    ensures fixed { IfSome result (λ key. key.code ≡ Fixed) }
{
    fixed_key(value(found, option)?.as_bytes())
}

/// The prefix that an option is set to.
pub(crate) fn prefix_set(found: &ArgMatches<'_>, option: &str) -> Option<Prefix>
    ensures prefix { result ≡ specs.prefix_set option.now (rows_in found.now) }
    ensures valid { IfSome result IsPrefix }
{
    any_prefix(value(found, option)?.as_bytes())
}

/// The number that an option is set to, where it is in this range.
pub(crate) fn number_set(found: &ArgMatches<'_>, option: &str, least: u64, most: u64) -> Option<u64>
    ensures number { result ≡ numbers.number_set option.now least most (rows_in found.now) }
    ensures least { IfSome result (λ n. least ≤ n) }
    ensures most { IfSome result (λ n. n ≤ most) }
{
    number(value(found, option)?.as_bytes(), least, most)
}

/// How many an option asks for, where that is one at least and not too many.
pub(crate) fn count_set(found: &ArgMatches<'_>, option: &str, most: u16) -> Option<u16>
    ensures count { result ≡ numbers.number_set option.now 1 most (rows_in found.now) }
    ensures least { IfSome result (λ n. 1 ≤ n) }
    ensures most { IfSome result (λ n. n ≤ most) }
{
    let count = number_set(found, option, 1, u64::from(most))?;
    u16::try_from(count).ok()
}

/// The value of an option, or a FILE, by its name.
pub(crate) fn value<'a>(found: &ArgMatches<'a>, name: &str) -> Option<&'a str>
    ensures { option_map (λ value. value.now) result ≡ first_of name.now (rows_in found.now) }
{
    found.get_str(name)
}

/// The FILEs, or links in their place.
pub(crate) fn files_or_links<'a>(
    alloc: Global,
    found: &ArgMatches<'a>,
) -> Result<Option<Inputs<'a, Vec<&'a str>>>, AllocError>
    ensures inputs { IfOk result (λ read. option_map (inputs_by (λ files. map (λ f. f.now) files.items)) read
        ≡ specs.files_or_links (rows_in found.now)) }
    ensures in_form { IfOk result (λ read. IfSome read (AreInForm (λ files. AreFew (length files.items)))) }
{
    if has_links(found) {
        return Ok(match links_alone(files_in(found).is_some(), found) {
            Some(links) => Some(Inputs::Links(links)),
            None => None,
        });
    }
    match files_set(alloc, found)? {
        Some(files) => Ok(Some(Inputs::Named(files))),
        None => Ok(None),
    }
}

/// The FILE, or links in its place.
pub(crate) fn file_or_links<'a>(found: &ArgMatches<'a>) -> Option<Inputs<'a, &'a str>>
    ensures input { option_map (inputs_by (λ file. file.now)) result ≡ specs.file_or_links (rows_in found.now) }
    ensures in_form { IfSome result (AreInForm (λ file. ⊤)) }
{
    if has_links(found) {
        let links = links_alone(value(found, "file").is_some(), found)?;
        return Some(Inputs::Links(links));
    }
    Some(Inputs::Named(value(found, "file")?))
}

// Whether an option of links is there.
fn has_links(found: &ArgMatches<'_>) -> bool
    ensures { result ≡ has_links_in (rows_in found.now) }
{
    value(found, "listen").is_some() || value(found, "links").is_some()
}

// The links, where both their options are there.
fn links_set<'a>(found: &ArgMatches<'a>) -> Option<Links<'a>>
    ensures links { option_map (λ it. (it.address.now, it.count)) result ≡ inputs.links_set (rows_in found.now) }
    ensures few { IfSome result (λ it. AreFew it.count) }
{
    let address = value(found, "listen")?;
    let count = count_set(found, "links", MOST_OF_LINKS)?;
    Some(Links { address, count })
}

// The links, where nothing is named besides.
fn links_alone<'a>(is_named: bool, found: &ArgMatches<'a>) -> Option<Links<'a>>
    ensures links { option_map (λ it. (it.address.now, it.count)) result ≡ inputs.links_alone is_named (rows_in found.now) }
    ensures few { IfSome result (λ it. AreFew it.count) }
{
    if is_named { None } else { links_set(found) }
}

/// The FILEs, where they are one at least and not too many.
pub(crate) fn files_set<'a>(
    alloc: Global,
    found: &ArgMatches<'a>,
) -> Result<Option<Vec<&'a str>>, AllocError>
    ensures files { IfOk result (λ files. option_map (λ files. map (λ f. f.now) files.items) files
        ≡ specs.files_set (rows_in found.now)) }
    ensures few { IfOk result (λ files. IfSome files (λ files. AreFew (length files.items))) }
{
    let Some(files) = files_in(found) else {
        return Ok(None);
    };
    if files.is_empty() || files.len() > MOST_OF_FILES {
        return Ok(None);
    }
    Ok(Some(Vec::from_slice(alloc, files)?))
}

// The FILEs, in the order of the words.
fn files_in<'a, 'b>(found: &'b ArgMatches<'a>) -> Option<&'b [&'a str]>
    ensures { option_map (λ f. map (λ f. f.now) f.now) result ≡ all_of (codes "files") (rows_in found.now) }
{
    found.get_strs("files")
}
