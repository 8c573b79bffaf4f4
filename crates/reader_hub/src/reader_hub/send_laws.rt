//! A hub may be shared by threads, and a pass may go to another one. The check finds no proof of so large types by
//! itself: where a call wants one, `hub_send`, `hub_sync` or `pass_send` of this crate's proofs is it.
ghost use denote.Param.Send.{IsSend, IsSync};
ghost use Rattle.turn_lock.specs.contracts.pass.Pass as passes;
ghost use Rattle.reader_hub.specs.contracts.reader_hub.core_head.CoreHead as head;
ghost use Rattle.reader_hub.specs.contracts.reader_hub.hub.Hub as row;
ghost use Rattle.reader_hub.specs.contracts.reader_hub.shared_core.SharedCore as shared;
ghost use Rattle.reader_hub.specs.contracts.reader_hub.shared_core.SharedCoreReplayed.TheImpl as replayed;
ghost use Rattle.reader_hub.specs.contracts.reader_hub.telling.Telling as telling;

/// A hub may be shared by threads, and may go to another one.
#[tactic(auto, using(crate::proofs::ReaderHubLemmas::Crosses::hub_send, crate::proofs::ReaderHubLemmas::Crosses::hub_sync))]
pub fn hub_is_shared()
    ensures send { IsSend row.the_row }
    ensures sync { IsSync row.the_row }
{}

/// A pass may go to another thread.
#[tactic(auto, using(crate::proofs::ReaderHubLemmas::Crosses::pass_send))]
pub fn pass_is_sent()
    ensures { IsSend (passes.the_row shared.the_row telling.the_row head.the_row replayed.ghosts) }
{}
