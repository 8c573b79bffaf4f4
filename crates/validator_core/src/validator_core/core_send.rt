//! A core may go to another thread.
ghost use denote.Param.Send.{IsSend};
ghost use Rattle.validator_core.specs.contracts.validator_core.validator.Core as row;

/// A core may go to another thread, as one under a lock does. The check finds no proof of so large a type by itself: where a call
/// wants `Core: Send`, `core_send` of this crate's proofs is it.
#[tactic(auto, using(crate::proofs::ValidatorCoreLemmas::Crosses::core_send))]
pub fn core_is_send()
    ensures { IsSend row.the_row }
{}
