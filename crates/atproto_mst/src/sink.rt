//! Receivers of a tree's nodes.

ghost use Rattle.std.specs.Prelude.{[], ◌∷◌, List, OnOk, IfErr};
ghost use Rattle.files_car.specs.Car.{Section};
ghost use Rattle.atproto_mst.specs.Sinks.{HandsOver, RefusesOne};

use crate::error::MstError;
use ipld_tree::Cid;

/// A receiver of a tree's nodes, each of which comes after those below it.
pub trait NodeSink {
    ghost use Rattle.atproto_mst.specs.declared.error.MstError.{MstError};

    /// What decides whether the sink refuses a node.
    ghost World: { Type 0 };

    /// The nodes may be those that the sink was handed so far, in this world.
    ghost holds: { Self → World → List Section → Type 0 };

    /// In this world the sink may refuse the node for this reason, out of memory aside.
    ghost refuses: { World → Section → MstError → Type 0 };

    /// Takes the next node's CID and block. A node that is refused leaves what the sink holds
    /// unchanged.
    fn take(&mut self, name: Cid, block: Vec<u8>) -> Result<(), MstError>
        ensures taken { OnOk result
            (HandsOver holds self.old ((name, block.items) ∷ []) self.new) }
        ensures refused { IfErr result
            (RefusesOne holds refuses self.old ((name, block.items) ∷ [])) }
        ensures kept { IfErr result (λ _. HandsOver holds self.old [] self.new) };
}
