//! Sinks, which take the links of an item.

ghost use Rattle.std.specs.Prelude.{◌≡◌, [], ◌∷◌, true, false, ⊤, MatchResult};
ghost use Rattle.ipld_tree.specs.Cid.{cid_bytes};
ghost use Rattle.dagcbor_items.specs.Walks.{Sink, forms, Finds};

use ipld_tree::Cid;
use std::alloc::AllocError;

/// What takes the links of an item, one after the other.
pub trait LinkSink {
    /// What contracts see of the sink.
    ghost sink: { Sink Self };

    /// Hands the sink the next link. If it refuses, it holds what it held before.
    fn take(&mut self, cid: Cid) -> Result<(), AllocError>
        ensures { MatchResult result
            (λ _. Finds sink.holds self.old (cid_bytes cid ∷ []) self.new)
            (λ _. (sink.takes_memory ≡ true) × Finds sink.holds self.old [] self.new) };
}

/// Keeps no link.
#[derive(Drop)]
pub struct NoLinks;

impl LinkSink for NoLinks {
    ghost sink = { record { holds = λ _ _. ⊤; takes_memory = false } };

    fn take(&mut self, _cid: Cid) -> Result<(), AllocError> {
        Ok(())
    }
}

/// Appends each link.
impl LinkSink for Vec<Cid> {
    ghost sink = { record { holds = λ v links. forms v.items ≡ links; takes_memory = true } };

    fn take(&mut self, cid: Cid) -> Result<(), AllocError> {
        match self.push(cid) {
            Ok(()) => Ok(()),
            Err(_) => Err(AllocError),
        }
    }
}
