//! What the status of a run depends on.
ghost use Rattle.std.specs.Prelude.{◌≡◌};
ghost use Rattle.run_status.specs.RunStatus.Status.{status_of};

/// What a run found.
#[derive(Clone, Copy, PartialEq, Eq, Debug)]
pub(crate) struct Findings {
    /// There was no memory.
    pub(crate) no_memory: bool,
    /// A sink failed.
    pub(crate) sink_failed: bool,
    /// The words aren't in the form.
    pub(crate) words_refused: bool,
    /// A source or a door failed, or couldn't be made.
    pub(crate) source_failed: bool,
    /// A verifier failed, with a reader or in the last round, or couldn't be made.
    pub(crate) verifier_failed: bool,
    /// The signer failed, or couldn't be made.
    pub(crate) signer_failed: bool,
    /// A disk failed, or couldn't be made.
    pub(crate) disk_failed: bool,
    /// A reader had read or taken as much as it may, and there was more, or a shelf has more than it may.
    pub(crate) limit_reached: bool,
    /// There is a conflict, or an event came for a place at which another one is stored.
    pub(crate) conflict_found: bool,
    /// A message, a stream, a plan or its log, or a shelf was refused, or an identifier isn't known.
    pub(crate) refused: bool,
}

impl Findings {
    ghost use Rattle.run_status.specs.RunStatus.Status.{nothing};
    ghost use Rattle.std.specs.Prelude.{true};

    /// That nothing was found.
    pub(crate) fn nothing() -> Findings
        ensures { result ≡ nothing }
    {
        Findings {
            no_memory: false,
            sink_failed: false,
            words_refused: false,
            source_failed: false,
            verifier_failed: false,
            signer_failed: false,
            disk_failed: false,
            limit_reached: false,
            conflict_found: false,
            refused: false,
        }
    }

    /// That there was no memory.
    pub(crate) fn no_memory() -> Findings
        ensures { result ≡ record nothing { no_memory = true } }
    {
        Findings {
            no_memory: true,
            ..Findings::nothing()
        }
    }

    /// The status: that of the first of these causes, or 0.
    pub(crate) fn status(&self) -> u8
        ensures { result ≡ status_of self.now }
    {
        if self.no_memory {
            10
        } else if self.sink_failed {
            6
        } else if self.words_refused {
            2
        } else if self.source_failed {
            5
        } else if self.verifier_failed || self.signer_failed {
            7
        } else if self.disk_failed {
            8
        } else if self.limit_reached {
            9
        } else if self.conflict_found {
            4
        } else if self.refused {
            3
        } else {
            0
        }
    }
}
