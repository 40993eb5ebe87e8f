//! The order of a run's words: what clients submit and are answered, and the updates that go from the manager to the
//! monitor. The laws are proved of every run of the machine, and the functions have them as their contracts and nothing
//! to run.
#![tactic(auto)]

ghost use Rattle.array_base.specs.Laws.{OfEachWorld};
ghost use Rattle.array_order.specs.ClientOrder.{AsksInOrder};
ghost use Rattle.array_order.specs.SmallUpdates.{handed_on, out_of_turn, applied_twice, too_many};
ghost use Rattle.array_order.specs.UpdateOrder.{UpdatesInOrder};

/// In every run each client's submits and answers stand in the order of its operations in the script: each operation is
/// submitted, and answered before the next one, and nothing else is; and each names an operation of the script.
pub fn client_order_law()
    ensures { OfEachWorld (λ S P w. AsksInOrder S w.journal) }
{}

/// In every run the updates posted are numbered 0, 1, 2 and so on, each that is applied or declined is the next one that
/// was posted, and at most four are on their way.
pub fn update_order_law()
    ensures { OfEachWorld (λ S P w. UpdatesInOrder w.journal) }
{}

/// A journal whose updates are in order; and three that the law refuses: an update is applied before the one ahead of it,
/// one is applied twice, and five are on their way.
pub fn example_of_updates_in_order()
    ensures meets { UpdatesInOrder handed_on }
    ensures turn { UpdatesInOrder out_of_turn → ⊥ }
    ensures twice { UpdatesInOrder applied_twice → ⊥ }
    ensures many { UpdatesInOrder too_many → ⊥ }
{}
