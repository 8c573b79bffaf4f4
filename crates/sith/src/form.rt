//! The form of a threshold: a number, or weights in one list or in several.
ghost use Rattle.std.specs.Prelude.{◌↔◌, List, ℕ, IsTrue};
ghost use Rattle.std.specs.List.{AllByRecursion};
ghost use Rattle.json_tree.specs.declared.tree.Tree.TheVariants.{Str};
ghost use Rattle.sith.specs.Thresholds.{Writes, texts_value, written_value, written_clause};

use json_tree::Tree;

/// Whether it is a text.
fn is_text(tree: &Tree) -> bool
    ensures { IsTrue result ↔ Writes (λ (text : List ℕ). Str text) tree.now }
{
    matches!(tree, Tree::Str(_))
}

/// Whether all are texts.
fn are_texts(trees: &[Tree]) -> bool
    ensures { IsTrue result ↔ AllByRecursion (Writes (λ (text : List ℕ). Str text)) trees.now }
{
    for tree in trees {
        if !is_text(tree) {
            return false;
        }
    }
    true
}

/// Whether it is a list of texts.
fn is_text_list(tree: &Tree) -> bool
    ensures { IsTrue result ↔ Writes texts_value tree.now }
{
    match tree {
        Tree::List(texts) => are_texts(texts.as_slice()),
        _ => false,
    }
}

/// Whether it is a text, or an object with exactly one member, whose value is a list of texts.
fn is_term(tree: &Tree) -> bool
    ensures { IsTrue result ↔ Writes written_value tree.now }
{
    match tree {
        Tree::Str(_) => true,
        Tree::Object(members) => match members.as_slice() {
            [member] => is_text_list(&member.value),
            _ => false,
        },
        _ => false,
    }
}

/// Whether all are texts and groups.
pub(crate) fn are_terms(trees: &[Tree]) -> bool
    ensures { IsTrue result ↔ AllByRecursion (Writes written_value) trees.now }
{
    for tree in trees {
        if !is_term(tree) {
            return false;
        }
    }
    true
}

/// Whether it is a list of texts and groups.
fn is_clause(tree: &Tree) -> bool
    ensures { IsTrue result ↔ Writes written_clause tree.now }
{
    match tree {
        Tree::List(terms) => are_terms(terms.as_slice()),
        _ => false,
    }
}

/// Whether all are lists of texts and groups.
pub(crate) fn are_clauses(trees: &[Tree]) -> bool
    ensures { IsTrue result ↔ AllByRecursion (Writes written_clause) trees.now }
{
    for tree in trees {
        if !is_clause(tree) {
            return false;
        }
    }
    true
}
