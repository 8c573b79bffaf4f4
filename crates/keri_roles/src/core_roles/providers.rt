//! What the readers of a command over a core are given by the outside.
ghost use Rattle.std.specs.Prelude.{◌≡◌, ◌≤◌, [], length, map, IfSome};
ghost use Rattle.std.specs.Vec.{vec_capacity};
ghost use Rattle.lists.specs.KeriSpecs.Shown.{HasNone};
ghost use Rattle.keri_roles.specs.CoreRoles.CoreTold.{AreProvided, SameNames};
ghost use Rattle.keri_roles.specs.CoreRoles.Work.{MakesProviders};

use crate::core_roles::works::Works;
use reader_hub::Providers;
use run_status::Outside;

/// Makes for each name the source, and then the verifier of the helper. There is room for as many.
pub(crate) fn providers_for<O: Outside>(
    names: &[&str],
    helper: &str,
    room: Vec<Providers<O::Source, O::Verifier>>,
    outside: &mut O,
) -> Vec<Providers<O::Source, O::Verifier>>
    requires none_yet { room.items ≡ [] }
    requires room { length names.now ≤ vec_capacity room }
    ensures provided { AreProvided helper.now (map (λ name. name.now) names.now)
        (map ⟦<O as Works>⟧.given result.items) (O.shown outside.old) (O.shown outside.new) }
    ensures count { length result.items ≡ length names.now }
    ensures sink { O.sink outside.new ≡ O.sink outside.old }
{
    let mut providers = room;
    for name in names {
        let made = provide(name, helper, outside);
        providers.push(made).unwrap();
    }
    providers
}

/// Makes the source of a name, and then the verifier of the helper.
pub(crate) fn provide<O: Outside>(
    name: &str,
    helper: &str,
    outside: &mut O,
) -> Providers<O::Source, O::Verifier>
    ensures makes { MakesProviders name.now helper.now result.source result.verifier
        (O.shown outside.old) (O.shown outside.new) }
    ensures holds { IfSome result.source (λ source.
        O.Source.left source ≡ (O.shown outside.old).holds name.now) }
    ensures unread { IfSome result.source (λ source. O.Source.faults source ≡ 0) }
    ensures says { IfSome result.verifier (λ verifier.
        O.Verifier.says verifier ≡ (O.shown outside.old).says helper.now) }
    ensures unasked { IfSome result.verifier (λ verifier. HasNone (O.Verifier.inquiries verifier)) }
    ensures unfailed { IfSome result.verifier (λ verifier. O.Verifier.faults verifier ≡ 0) }
    ensures names { SameNames (O.shown outside.old) (O.shown outside.new) }
    ensures sink { O.sink outside.new ≡ O.sink outside.old }
{
    let source = outside.source(name).ok();
    let verifier = outside.verifier(helper).ok();
    Providers { source, verifier }
}
