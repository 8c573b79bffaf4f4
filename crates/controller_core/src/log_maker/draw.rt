//! What is drawn for an event.
ghost use Rattle.std.specs.Prelude.{◌≡◌, ◌≤◌, ◌<◌, ◌+◌, ◌-◌, ◌^◌};
ghost use Rattle.controller_core.specs.LogMaker.Draws as draws;
ghost use Rattle.controller_core.specs.LogMaker.Draws.{draw_at, drawn_behind, rotations_before};

/// An event of a log by its place, and whether it is a rotation.
#[derive(Clone, Copy)]
pub(crate) struct Draw {
    pub(crate) seed: u64,
    pub(crate) log: u64,
    pub(crate) sn: u64,
    /// The number that says whether it is a rotation.
    drawn: u64,
    /// How many of the events before it are.
    pub(crate) rotations: u64,
    ghost drawn_is: { drawn ≡ draw_at seed log sn },
    ghost rotations_are: { rotations ≡ rotations_before seed log sn },
    ghost rotations_few: { rotations ≤ sn - 1 },
}

impl Draw {
    /// The first event of a log.
    #[tactic(auto, unfolding(crate::specs::LogMaker::Draws::draw_at, crate::specs::LogMaker::Draws::rotations_before))]
    pub(crate) fn first(seed: u64, log: u64) -> Draw
        ensures of { (result.seed ≡ seed) × (result.log ≡ log) }
        ensures sn { result.sn ≡ 0 }
    {
        Draw {
            seed,
            log,
            sn: 0,
            drawn: seed.wrapping_add(log),
            rotations: 0,
        }
    }

    /// Whether it is a rotation.
    pub(crate) fn is_rotation(&self) -> bool
        ensures { result ≡ draws.is_rotation self.now.seed self.now.log self.now.sn }
    {
        self.sn > 0 && self.drawn < 1 << 62
    }

    /// The number of the key that signs it.
    pub(crate) fn key_number(&self) -> u64
        requires { self.now.sn + 1 < 2 ^ 64 }
        ensures number { result ≡ draws.key_number self.now.seed self.now.log self.now.sn }
        ensures few { result ≤ self.now.sn }
    {
        if self.is_rotation() {
            self.rotations + 1
        } else {
            self.rotations
        }
    }

    /// The next event of the log.
    pub(crate) fn next(&self) -> Draw
        requires { self.now.sn + 1 < 2 ^ 64 }
        ensures of { (result.seed ≡ self.now.seed) × (result.log ≡ self.now.log) }
        ensures sn { result.sn ≡ self.now.sn + 1 }
    {
        Draw {
            seed: self.seed,
            log: self.log,
            sn: self.sn + 1,
            drawn: next_drawn(self.drawn),
            rotations: self.key_number(),
        }
    }
}

// The number that is drawn behind this one.
#[tactic(auto, unfolding(crate::specs::LogMaker::Draws::drawn_behind))]
fn next_drawn(drawn: u64) -> u64
    ensures { result ≡ drawn_behind drawn }
{
    drawn
        .wrapping_mul(6_364_136_223_846_793_005)
        .wrapping_add(1_442_695_040_888_963_407)
}
