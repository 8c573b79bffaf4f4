//! A field at the front of bytes.
ghost use Rattle.std.specs.Prelude.{◌≡◌, ◌≢◌, ◌++◌, List, ℕ, IfOk, IfErr};
ghost use Rattle.json_tree.specs.declared.tree.Tree.{Tree};
ghost use Rattle.json_tree.specs.Spelling.{spelling};
ghost use Rattle.event_body.specs.BodyFields.Bodies.{member_text};
ghost use Rattle.event_body.specs.BodyFields.Forms.{IsOfForm};
ghost use Rattle.event_body.specs.BodyFields.Maps.{form_of};

use crate::body_fields::field::Field;
use crate::body_fields::form::Form;
use crate::body_fields::front::name;
use json_tree::{Tree, TreeFault, read_tree};
use std::alloc::Global;

/// The field's value, and what follows it.
pub(crate) fn member(alloc: Global, bytes: &[u8], field: Field) -> Result<(Tree, &[u8]), TreeFault>
    ensures some { IfOk result (λ r. IsOfForm (form_of field) r.0 × (bytes.now ≡ member_text field r.0 ++ r.1.now)) }
    ensures none { IfErr result (λ fault. fault ≡ TreeFault.NotATree → (value : Tree) (rest : List ℕ)
        → IsOfForm (form_of field) value → bytes.now ≢ member_text field value ++ rest) }
{
    let Some(behind) = name(bytes, field) else {
        return Err(TreeFault::NotATree);
    };
    match value(alloc, behind, field.form()) {
        Ok(found) => Ok(found),
        Err(fault) => Err(fault),
    }
}

// The value of the form, and what follows it.
fn value(alloc: Global, bytes: &[u8], form: Form) -> Result<(Tree, &[u8]), TreeFault>
    ensures some { IfOk result (λ r. IsOfForm form r.0 × (bytes.now ≡ spelling r.0 ++ r.1.now)) }
    ensures none { IfErr result (λ fault. fault ≡ TreeFault.NotATree → (value : Tree) (rest : List ℕ)
        → IsOfForm form value → bytes.now ≢ spelling value ++ rest) }
{
    let (value, count) = match read_tree(alloc, bytes, form.depth()) {
        Ok(found) => found,
        Err(fault) => return Err(fault),
    };
    if !form.admits(&value) {
        return Err(TreeFault::NotATree);
    }
    Ok((value, &bytes[count..]))
}
