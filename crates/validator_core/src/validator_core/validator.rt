//! The core: its tables, and how much it took.
ghost use Rattle.std.specs.Prelude.{◌≡◌, ◌≤◌, ◌<◌, [], All, IfSome, map, length, slice_get};
ghost use Rattle.std.specs.Option.{option_map};
ghost use Rattle.validator_core.specs.Tables.Hints.{IsEscrow};
ghost use Rattle.journal.specs.Journal.Journals.{chosen};
ghost use Rattle.journal.specs.Journal.Logs as logs;
ghost use Rattle.validator_core.specs.ValidatorCore.Confluent.{IsSoInAlike};
ghost use Rattle.validator_core.specs.ValidatorCore.View.{IsSoundCore, accepted_by, state_of, waits_for};

use crate::acceptance::why_waits;
use crate::tables::Tables;
use crate::validator_core::tally::Tally;
use cesr_codes::Prefix;
use escrow::Waiting;
use event_body::Event;
use journal::{Journal, Mode, Why};
use keri_outside::Limits;
use key_state::KeyState;
use std::alloc::Global;
use std::marker::Model;

/// What was told, the questions that are open, and what is accepted of it.
#[derive(Drop)]
pub struct Core {
    pub(crate) alloc: Global,
    pub(crate) mode: Mode,
    pub(crate) limits: Limits,
    /// How many bodies were there from the start.
    pub(crate) base: u32,
    pub(crate) tables: Tables,
    pub(crate) tally: Tally,
}

impl Model for Core {
    ghost use Rattle.validator_core.specs.ValidatorCore.View.{CoreView};
    ghost use Rattle.validator_core.specs.ValidatorCore.Inside.{core_of, is_core};
    ghost use Rattle.json_tree.specs.contracts.tree.Tree as tree;
    ghost use Rattle.std.specs.Coded.{codes};

    ghost Value = { CoreView };

    ghost coded = { Prim.hlevel (codes, tree.the_row.coded) };

    ghost view = { λ c. core_of c };

    ghost invariant = { λ c. is_core c };
}

impl Core {
    /// A core that was told nothing.
    pub fn new(alloc: Global, mode: Mode, limits: Limits) -> Core
        ensures { result ≡ record { mode = mode; limits = limits; base = 0; held = []; entries = []; accepted = [] } }
    {
        Core {
            alloc,
            mode,
            limits,
            base: 0,
            tables: Tables::new(alloc),
            tally: Tally {
                messages: 0,
                body_bytes: 0,
                signatures: 0,
            },
        }
    }

    /// The journal: what was told. It takes no memory.
    pub fn journal(&self) -> &Journal
        ensures bodies { result.now.bodies ≡ map (λ b. b.bytes) self.now.held }
        ensures entries { result.now.entries ≡ self.now.entries }
        ensures sound { IsSoundCore self.now }
    {
        self.tables.journal()
    }

    /// What is true of each core, stated for proofs. Nothing is done here.
    pub fn sound(&self)
        ensures sound { IsSoundCore self.now }
        ensures held { All (λ n. n < length self.now.held) self.now.accepted }
        ensures accepted { chosen self.now.held self.now.accepted ≡ accepted_by self.now }
    {
        let _journal = self.journal();
        let _accepted = self.accepted();
    }

    /// The journal, for which the core is given up. It takes no memory.
    pub fn into_journal(self) -> Journal
        ensures bodies { result.bodies ≡ map (λ b. b.bytes) self.held }
        ensures entries { result.entries ≡ self.entries }
        ensures sound { IsSoundCore self }
    {
        let Core { tables, .. } = self;
        tables.into_journal()
    }

    /// How many bodies there are. It takes no memory.
    pub fn len(&self) -> usize
        ensures { result ≡ length self.now.held }
    {
        self.tables.len()
    }

    /// The body of a number. It takes no memory.
    pub fn body(&self, number: u32) -> Option<&[u8]>
        ensures body { option_map (λ bytes. bytes.now) result
            ≡ option_map (λ b. b.bytes) (slice_get self.now.held number) }
        ensures few { IfSome result (λ bytes. length bytes.now ≤ 65535) }
    {
        self.tables.body(number)
    }

    /// The event of the body of a number. It takes no memory.
    pub fn event(&self, number: u32) -> Option<&Event>
        ensures { option_map (λ event. event.now) result ≡ option_map (λ b. b.event) (slice_get self.now.held number) }
    {
        self.tables.event(number)
    }

    /// The events of all bodies, in order. It takes no memory.
    pub fn events(&self) -> &[Event]
        ensures { result.now ≡ map (λ b. b.event) self.now.held }
    {
        self.tables.events()
    }

    /// The numbers of the accepted bodies, in order of acceptance. It takes no memory.
    pub fn accepted(&self) -> &[u32]
        ensures numbers { result.now ≡ self.now.accepted }
        ensures held { All (λ n. n < length self.now.held) result.now }
        ensures accepted { chosen self.now.held result.now ≡ accepted_by self.now }
    {
        self.tables.log().numbers()
    }

    /// The state of an identifier, where it has an accepted event. In whatever order, how often and by however many
    /// readers the same messages came: where each verdict was asked for, none contradicts another, no question is
    /// open, and no two different events have one identifier and number, the state is the same. It takes no memory.
    pub fn state(&self, prefix: &Prefix) -> Option<&KeyState>
        ensures state { option_map (λ state. state.now) result ≡ state_of self.now prefix.now }
        ensures confluent { IsSoInAlike self.now (λ log. logs.state log prefix.now)
            (option_map (λ state. state.now) result) }
    {
        self.tables.log().current(prefix)
    }

    /// The events that aren't accepted, each with the number of its body. It takes no memory.
    pub fn waiting(&self) -> &Waiting
        ensures { IsEscrow result.now self.now.held self.now.accepted }
    {
        self.tables.waiting()
    }

    /// Why the event of a number isn't accepted; none where it is, or where the number is no event's. It takes no memory.
    pub fn why_waits(&self, body: u32) -> Option<Why>
        ensures { result ≡ waits_for self.now body }
    {
        why_waits(&self.tables, self.mode, body)
    }
}
