//! Laws of the trees of values, each the contract of a function that does nothing.

ghost use Rattle.dagcbor_write.specs.Laws.{OrderUnseen};

/// Entries in another order have the same tree, and so the same spelling: the order in which a hash
/// map iterates does not show.
#[tactic(auto, using(crate::proofs::Walks::same_map))]
pub fn order_unseen()
    ensures { OrderUnseen }
{}
