//! The texts of an event seal.
ghost use Rattle.std.specs.Prelude.{◌≡◌, ◌≢◌, List, ℕ, IfSome, IfNone, map};
ghost use Rattle.journal.specs.Journal.Seals.{members_of};
ghost use Rattle.event_backing.specs.Texts.{named_value, seal_members, string_member};

use json_tree::{Member, Tree};

/// The texts of the members `i`, `s` and `d` of an object that has no others.
#[derive(Clone, Copy)]
pub(crate) struct SealTexts<'a> {
    pub(crate) prefix: &'a [u8],
    pub(crate) sn: &'a [u8],
    pub(crate) said: &'a [u8],
}

/// The texts, where the value is such an object.
pub(crate) fn seal_texts(value: &Tree) -> Option<SealTexts<'_>>
    ensures some { IfSome result (λ texts. members_of value.now
        ≡ seal_members texts.prefix.now texts.sn.now texts.said.now) }
    ensures none { IfNone result ((prefix sn said : List ℕ) → members_of value.now ≢ seal_members prefix sn said) }
{
    match value {
        Tree::Object(members) => texts_of(members.as_slice()),
        _ => None,
    }
}

fn texts_of(members: &[Member]) -> Option<SealTexts<'_>>
    ensures some { IfSome result (λ texts. map named_value members.now
        ≡ seal_members texts.prefix.now texts.sn.now texts.said.now) }
    ensures none { IfNone result ((prefix sn said : List ℕ) → map named_value members.now ≢ seal_members prefix sn said) }
{
    match members {
        [prefix, sn, said] => Some(SealTexts {
            prefix: text_of(prefix, b"i")?,
            sn: text_of(sn, b"s")?,
            said: text_of(said, b"d")?,
        }),
        _ => None,
    }
}

// The text of the member, where it has the name and is a string.
fn text_of<'a>(member: &'a Member, name: &[u8]) -> Option<&'a [u8]>
    ensures some { IfSome result (λ text. named_value member.now ≡ string_member name.now text.now) }
    ensures none { IfNone result ((text : List ℕ) → named_value member.now ≢ string_member name.now text) }
{
    if member.name.as_slice() != name {
        return None;
    }
    match &member.value {
        Tree::Str(text) => Some(text.as_slice()),
        _ => None,
    }
}
