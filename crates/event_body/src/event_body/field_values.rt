//! The values of a body's fields, by name.
ghost use Rattle.std.specs.Prelude.{◌≡◌, ◌<◌, ◌≤◌, ◌+◌, ◌∷◌, length};
ghost use Rattle.event_body.specs.EventBody.FieldLists.{inception_list, rotation_list};

use json_tree::Tree;

/// The values of an inception, and those behind them.
#[derive(Clone, Copy)]
pub(crate) struct InceptionValues<'a> {
    pub(crate) said: &'a Tree,
    pub(crate) prefix: &'a Tree,
    pub(crate) first: &'a Tree,
    pub(crate) kt: &'a Tree,
    pub(crate) keys: &'a Tree,
    pub(crate) nt: &'a Tree,
    pub(crate) next: &'a Tree,
    pub(crate) toad: &'a Tree,
    pub(crate) list: &'a Tree,
    pub(crate) traits: &'a Tree,
    pub(crate) anchors: &'a Tree,
    pub(crate) rest: &'a [Tree],
}

/// The values of a rotation.
#[derive(Clone, Copy)]
pub(crate) struct RotationValues<'a> {
    pub(crate) said: &'a Tree,
    pub(crate) prefix: &'a Tree,
    pub(crate) sn: &'a Tree,
    pub(crate) prior: &'a Tree,
    pub(crate) kt: &'a Tree,
    pub(crate) keys: &'a Tree,
    pub(crate) nt: &'a Tree,
    pub(crate) next: &'a Tree,
    pub(crate) toad: &'a Tree,
    pub(crate) cuts: &'a Tree,
    pub(crate) adds: &'a Tree,
    pub(crate) anchors: &'a Tree,
}

/// The first value and the others.
pub(crate) fn split(values: &[Tree]) -> (&Tree, &[Tree])
    requires { 0 < length values.now }
    ensures parts { values.now ≡ result.0.now ∷ result.1.now }
    ensures left { length values.now ≡ 1 + length result.1.now }
{
    match values.split_first() {
        Some(parts) => parts,
        None => unreachable!(),
    }
}

/// The values of an inception by name.
pub(crate) fn inception_values(values: &[Tree]) -> InceptionValues<'_>
    requires { 11 ≤ length values.now }
    ensures { values.now ≡ inception_list result result.rest.now }
{
    let (said, rest) = split(values);
    let (prefix, rest) = split(rest);
    let (first, rest) = split(rest);
    let (kt, rest) = split(rest);
    let (keys, rest) = split(rest);
    let (nt, rest) = split(rest);
    let (next, rest) = split(rest);
    let (toad, rest) = split(rest);
    let (list, rest) = split(rest);
    let (traits, rest) = split(rest);
    let (anchors, rest) = split(rest);
    InceptionValues {
        said,
        prefix,
        first,
        kt,
        keys,
        nt,
        next,
        toad,
        list,
        traits,
        anchors,
        rest,
    }
}

/// The values of a rotation by name.
pub(crate) fn rotation_values(values: &[Tree]) -> RotationValues<'_>
    requires { length values.now ≡ 12 }
    ensures { values.now ≡ rotation_list result }
{
    let (said, rest) = split(values);
    let (prefix, rest) = split(rest);
    let (sn, rest) = split(rest);
    let (prior, rest) = split(rest);
    let (kt, rest) = split(rest);
    let (keys, rest) = split(rest);
    let (nt, rest) = split(rest);
    let (next, rest) = split(rest);
    let (toad, rest) = split(rest);
    let (cuts, rest) = split(rest);
    let (adds, rest) = split(rest);
    let (anchors, _) = split(rest);
    RotationValues {
        said,
        prefix,
        sn,
        prior,
        kt,
        keys,
        nt,
        next,
        toad,
        cuts,
        adds,
        anchors,
    }
}
