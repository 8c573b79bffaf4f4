//! The fields of a body, and their reader.
ghost use Rattle.std.specs.Prelude.{◌≡◌, ◌⊎◌, ◌↔◌, IsTrue, codes, List, Ok, Err, IfOk, IfErr};
ghost use Rattle.json_tree.specs.declared.tree.Tree.{Tree};
ghost use Rattle.event_body.specs.declared.body_fields.kind.Kind.{Kind};
ghost use Rattle.event_body.specs.declared.body_fields.fields_fault.FieldsFault.TheVariants.{OutOfMemory};
ghost use Rattle.event_body.specs.BodyFields.Bodies.{IsBody};
ghost use Rattle.event_body.specs.BodyFields.Faults.{AreFields, IsFault, StopsAt};

use crate::body_fields::fields_fault::FieldsFault;
use crate::body_fields::front::{kind, version};
use crate::body_fields::kind::Kind;
use crate::body_fields::member::member;
use json_tree::{Tree, TreeFault};
use lists::{Items, hex_value};
use std::alloc::Global;

/// A body's kind, and the values of the fields behind it, in the order of the kind's field map.
#[derive(Drop)]
pub struct Fields {
    pub kind: Kind,
    pub values: Items<Tree>,
}

/// Reads bytes that are a body, and nothing else.
pub fn read_fields(alloc: Global, bytes: &[u8]) -> Result<Fields, FieldsFault>
    ensures read { IfOk result (λ fields. IsBody fields.kind fields.values bytes.now) }
    ensures fault { IfErr result (λ fault. IsFault bytes.now fault) }

    // What is a body is read, but for want of memory.
    ensures only { (kind : Kind) (values : List Tree) → IsBody kind values bytes.now
        → (result ≡ Ok (record { kind = kind; values = values })) ⊎ (result ≡ Err OutOfMemory) }
{
    read(alloc, bytes)
}

fn read(alloc: Global, bytes: &[u8]) -> Result<Fields, FieldsFault>
    ensures read { IfOk result (λ fields. IsBody fields.kind fields.values bytes.now) }
    ensures fault { IfErr result (λ fault. IsFault bytes.now fault) }
{
    let Some((size, rest)) = version(bytes) else {
        return Err(FieldsFault::Ends(0));
    };
    if hex_value(size) != bytes.len() as u64 {
        return Err(FieldsFault::OtherSize);
    }
    let Some((kind, rest)) = kind(rest) else {
        return Err(FieldsFault::Ends(1));
    };
    match further(alloc, rest, kind) {
        Ok(values) => Ok(Fields { kind, values }),
        Err(fault) => Err(fault),
    }
}

// The values of the fields behind the kind, and the end.
fn further(alloc: Global, bytes: &[u8], kind: Kind) -> Result<Items<Tree>, FieldsFault>
    ensures read { IfOk result (λ values. AreFields kind values bytes.now) }
    ensures fault { IfErr result (λ fault. StopsAt kind bytes.now fault) }
{
    let mut values = Vec::new(alloc);
    let mut left = bytes;
    for field in kind.fields() {
        let (value, rest) = match member(alloc, left, *field) {
            Ok(found) => found,
            Err(TreeFault::NotATree) => return Err(FieldsFault::Ends(2 + values.len() as u8)),
            Err(TreeFault::OutOfMemory) => return Err(FieldsFault::OutOfMemory),
        };
        values.push(value)?;
        left = rest;
    }
    if !is_end(left) {
        return Err(FieldsFault::Ends(2 + values.len() as u8));
    }
    Ok(Items::from_vec(values))
}

fn is_end(bytes: &[u8]) -> bool
    ensures { IsTrue result ↔ (bytes.now ≡ codes "}") }
{
    bytes == b"}".as_slice()
}
