//! Verdicts that are heard.
ghost use Rattle.std.specs.Prelude.{◌≡◌, ◌<◌, true, None, OnOk, OnErr, length};
ghost use Rattle.validator_core.specs.Acceptance.Standing.{Hears, AreSoundTables};
ghost use Rattle.claim_table.specs.ClaimTable.Rows.{is_raised, verdict_of};
ghost use Rattle.validator_core.specs.TableChanges.Entries.{signature_asked};

use crate::tables::Tables;
use claim_table::Signature;
use journal::Question;
use std::alloc::AllocError;

/// A verdict on the signature that a question names comes: it stands on the signature's rows, and may be taken back by `unhear`.
/// After an error nothing has changed.
pub fn enter_verdict(
    tables: &mut Tables,
    reader: u16,
    question: &Question,
    yes: bool,
) -> Result<(), AllocError>
    requires sound { AreSoundTables tables.old }
    requires held { question.now.body < length tables.old.held }
    requires raised { is_raised tables.old.claims.rows (signature_asked question.now) ≡ true }
    requires open_still { verdict_of tables.old.claims.rows (signature_asked question.now) ≡ None }
    requires idle { tables.old.claims.pending ≡ None }
    ensures ok { OnOk result (Hears (signature_asked question.now) yes reader tables.old tables.new) }
    ensures err { OnErr result (tables.new ≡ tables.old) }
{
    tables.hear(&signature_of(question), yes);
    if let Err(error) = tables.push_heard(reader, question, yes) {
        tables.unhear();
        return Err(error);
    }
    Ok(())
}

// The signature that a question names.
fn signature_of(question: &Question) -> Signature
    ensures { result ≡ signature_asked question.now }
{
    Signature {
        body: question.body,
        key: question.key,
        sig: question.sig,
    }
}
