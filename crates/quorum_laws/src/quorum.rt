//! Whether two witness lists bind to one event.
ghost use Rattle.std.specs.Prelude.{◌≤◌, ◌↔◌, length, IsTrue};
ghost use Rattle.quorum_laws.specs.Agreement.{Binds, AgreeUnder};

use crate::unions::union_size;
use cesr_codes::Key;

/// Whether two events of one identifier and number are the same, each accepted with so many receipts of its own
/// witnesses, of whom at most `faulty` sign two events. The lists have at most 64 keys, and the numbers are at most 64.
/// It takes no memory.
#[tactic(auto, using(crate::proofs::Law::agree_under), unfolding(crate::specs::Agreement::Binds))]
pub fn binds(first: &[Key], first_toad: u64, second: &[Key], second_toad: u64, faulty: u64) -> bool
    requires few_first { length first.now ≤ 64 }
    requires few_second { length second.now ≤ 64 }
    requires first_in { first_toad ≤ 64 }
    requires second_in { second_toad ≤ 64 }
    requires faulty_in { faulty ≤ 64 }

    // Both together want more receipts than there are witnesses and faulty ones.
    ensures bound { IsTrue result ↔ Binds first.now first_toad second.now second_toad faulty }

    // Then any two lists that such witnesses stand behind have the same event after the same chain.
    ensures agreement { IsTrue result → AgreeUnder first.now first_toad second.now second_toad faulty }
{
    first_toad + second_toad > u64::from(union_size(first, second)) + faulty
}
