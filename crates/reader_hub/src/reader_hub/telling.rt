//! What a turn tells a core.
use journal::{Body, Claim};
use lists::Items;
use std::marker::Model;

/// What a turn tells. No value of it is made: in contracts it is an entry with its whole body, a verdict too.
pub struct Telling {
    reader: u16,
    body: Body,
    claims: Items<Claim>,
}

impl Model for Telling {
    ghost use Rattle.journal.specs.Journal.History.{Told, took};
    ghost use Rattle.json_tree.specs.contracts.tree.Tree as tree;
    ghost use Rattle.std.specs.Coded.{codes};

    ghost Value = { Told };

    ghost coded = { Prim.hlevel (codes, tree.the_row.coded) };

    ghost view = { λ t. took t.reader t.body t.claims };
}
