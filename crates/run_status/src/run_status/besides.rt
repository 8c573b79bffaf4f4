//! What the readers' ends don't show.
ghost use Rattle.std.specs.Prelude.{◌≡◌};

/// What a command finds besides how its readers end.
#[derive(Clone, Copy, PartialEq, Eq, Debug)]
pub struct Besides {
    /// The words aren't in the form.
    pub words_refused: bool,
    /// A door failed, or couldn't be made.
    pub door_failed: bool,
    /// A verifier failed in the last round, in which what is still open is asked once all readers have ended.
    pub verifier_failed: bool,
    /// The signer failed, or couldn't be made.
    pub signer_failed: bool,
    /// A disk failed, or couldn't be made, and nothing was read.
    pub disk_failed: bool,
    /// A shelf has more than it may, and nothing was read.
    pub shelf_full: bool,
    /// There is a conflict.
    pub conflict_found: bool,
    /// A plan is refused, or the log that it is for.
    pub plan_refused: bool,
    /// The file of a shelf is none, or its list is no log.
    pub shelf_refused: bool,
    /// No event of the identifier that is asked for is accepted.
    pub prefix_unknown: bool,
}

impl Besides {
    ghost use Rattle.run_status.specs.RunStatus.Status.{nothing_besides};

    /// That nothing was found.
    pub fn nothing() -> Besides
        ensures { result ≡ nothing_besides }
    {
        Besides {
            words_refused: false,
            door_failed: false,
            verifier_failed: false,
            signer_failed: false,
            disk_failed: false,
            shelf_full: false,
            conflict_found: false,
            plan_refused: false,
            shelf_refused: false,
            prefix_unknown: false,
        }
    }
}
