//! What `make` is given by the outside.
ghost use Rattle.std.specs.Prelude.{◌≡◌, IfSome};
ghost use Rattle.lists.specs.KeriSpecs.Shown.{HasNone};
ghost use Rattle.keri_roles.specs.KeriRoles.Made.{MakesAlone, MakesBehind};

use reader_hub::Providers;
use run_status::Outside;

/// The source of a plan and the signer of a helper, as far as they could be made.
#[derive(Drop)]
pub(crate) struct MakeParts<S, G> {
    pub(crate) plan: Option<S>,
    pub(crate) signer: Option<G>,
}

/// Makes the plan's source, and then the signer.
pub(crate) fn make_alone<O: Outside>(
    plan: &str,
    helper: &str,
    outside: &mut O,
) -> MakeParts<O::Source, O::Signer>
    ensures makes { MakesAlone plan.now helper.now result.plan result.signer
        (O.shown outside.old) (O.shown outside.new) }
    ensures holds { IfSome result.plan (λ source.
        O.Source.left source ≡ (O.shown outside.old).holds plan.now) }
    ensures unread { IfSome result.plan (λ source. O.Source.faults source ≡ 0) }
    ensures signs { IfSome result.signer (λ signer.
        O.Signer.gives signer ≡ (O.shown outside.old).gives helper.now) }
    ensures unasked { IfSome result.signer (λ signer. HasNone (O.Signer.signings signer)) }
    ensures unfailed { IfSome result.signer (λ signer. O.Signer.faults signer ≡ 0) }
    ensures sink { O.sink outside.new ≡ O.sink outside.old }
{
    let plan = outside.source(plan).ok();
    let signer = outside.signer(helper).ok();
    MakeParts { plan, signer }
}

/// What is made for a plan behind a log.
#[derive(Drop)]
pub(crate) struct MakeBehindParts<S, V, G> {
    pub(crate) plan: Option<S>,
    pub(crate) log: Providers<S, V>,
    pub(crate) signer: Option<G>,
}

/// Makes the plan's source, the log's source, the verifier, and then the signer.
pub(crate) fn make_behind<O: Outside>(
    plan: &str,
    log: &str,
    helper: &str,
    outside: &mut O,
) -> MakeBehindParts<O::Source, O::Verifier, O::Signer>
    ensures makes { MakesBehind plan.now log.now helper.now result.plan result.log result.signer
        (O.shown outside.old) (O.shown outside.new) }
    ensures holds { IfSome result.plan (λ source.
        O.Source.left source ≡ (O.shown outside.old).holds plan.now) }
    ensures unread { IfSome result.plan (λ source. O.Source.faults source ≡ 0) }
    ensures log_holds { IfSome result.log.source (λ source.
        O.Source.left source ≡ (O.shown outside.old).holds log.now) }
    ensures log_unread { IfSome result.log.source (λ source. O.Source.faults source ≡ 0) }
    ensures says { IfSome result.log.verifier (λ verifier.
        O.Verifier.says verifier ≡ (O.shown outside.old).says helper.now) }
    ensures unheard { IfSome result.log.verifier (λ verifier. HasNone (O.Verifier.inquiries verifier)) }
    ensures log_unfailed { IfSome result.log.verifier (λ verifier. O.Verifier.faults verifier ≡ 0) }
    ensures signs { IfSome result.signer (λ signer.
        O.Signer.gives signer ≡ (O.shown outside.old).gives helper.now) }
    ensures unasked { IfSome result.signer (λ signer. HasNone (O.Signer.signings signer)) }
    ensures unfailed { IfSome result.signer (λ signer. O.Signer.faults signer ≡ 0) }
    ensures sink { O.sink outside.new ≡ O.sink outside.old }
{
    let plan = outside.source(plan).ok();
    let source = outside.source(log).ok();
    let verifier = outside.verifier(helper).ok();
    let signer = outside.signer(helper).ok();
    MakeBehindParts {
        plan,
        log: Providers { source, verifier },
        signer,
    }
}
