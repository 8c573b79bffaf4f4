//! Where the lists ended.
ghost use Rattle.std.specs.Prelude.{◌≡◌, ◌≤◌, ◌&&◌, ℕ, None, nat_le, nat_lt, if◌then◌else◌};
ghost use Rattle.validator_core.specs.Tables.View.{IsCut, mark_of, rewound};
ghost use Rattle.escrow.specs.Escrow.Escrow.{held as held_by};

use crate::tables::Tables;
use crate::tables::log::take_out;
use escrow::Waiting;

/// How long each list was.
#[derive(Clone, Copy, PartialEq, Eq, Debug)]
pub struct Mark {
    pub bodies: usize,
    pub entries: usize,
    pub accepted: usize,
    pub claims: usize,
}

impl Tables {
    /// Where the lists end. It takes no memory.
    pub fn mark(&self) -> Mark
        ensures mark { result ≡ mark_of self.now }
        ensures whole { IsCut result self.now }
    {
        Mark {
            bodies: self.events.len(),
            entries: self.journal.entries.len(),
            accepted: self.log.len(),
            claims: self.claims.len(),
        }
    }

    /// Cuts the lists back. It takes no memory.
    pub fn rewind(&mut self, mark: &Mark)
        requires cut { IsCut mark.now self.old }
        ensures { self.new ≡ rewound mark.now self.old }
    {
        self.claims.truncate(mark.claims);
        self.log.truncate(mark.accepted);
        self.journal.entries.truncate(mark.entries);
        leave_from(&mut self.waiting, mark.bodies, self.events.len());
        self.events.truncate(mark.bodies);
        self.journal.bodies.truncate(mark.bodies);
    }
}

// The events of the numbers from one to before another leave the escrow. It takes no memory.
fn leave_from(waiting: &mut Waiting, from: usize, to: usize)
    requires { to ≤ 4294967296 }
    ensures { (n : ℕ) → held_by n waiting.new ≡ (if nat_le from n && nat_lt n to then None else held_by n waiting.old) }
{
    for number in from..to {
        take_out(waiting, number as u32);
    }
}
