//! Values that can be written.

ghost use Rattle.std.specs.Prelude.{◌≡◌, ℕ, List, Option, OnOk, IfErr};
ghost use Rattle.std.specs.Prelude.{IfSome, Bool, IsTrue, true, false, ◌||◌};
ghost use Rattle.std.specs.Prelude.{⊤};
ghost use Rattle.dagcbor_heads.specs.Written.{Writes, WantsMemoryOnlyIf};
ghost use Rattle.ipld_tree.specs.Tree.{Tree, IsTree};
ghost use Rattle.ipld_tree.specs.Spelled.{spelled_tree};
ghost use Rattle.dagcbor_write.specs.Answers.{OnMessage};

use crate::serializer::Serializer;
use dagcbor_heads::{Write, WriteResult};
use std::alloc::Global;

/// A value that can be written.
pub trait Serialize {
    /// The value's tree, or `None` if it has no tree, such as a map whose key is a number.
    ghost tree: { Self → Option Tree };

    /// Whether writing a value may take memory, even if the writer takes none.
    ghost takes_memory: { Bool } = { true };

    /// The messages with which a value without a spelling may be refused: any, if a type does not
    /// say.
    ghost message: { Self → List ℕ → Type 0 } = { λ v m. ⊤ };

    /// Whether a message comes before anything is written.
    ghost unsent: { Self → Bool } = { λ v. false };

    /// Appends the spelling of the value's tree. Refused with `Msg` only if there is no spelling.
    /// If a value with a spelling is refused, a beginning of it may have been written.
    fn serialize<W: Write>(&self, alloc: Global, ser: &mut Serializer<W>) -> WriteResult<(), W>
        ensures written { Writes (spelled_tree (tree self.now))
            (W.written ser.old) (W.written ser.new) result }
        ensures well_formed { OnOk result (IfSome (tree self.now) IsTree) }
        ensures memory { WantsMemoryOnlyIf (takes_memory || W.takes_memory) result }
        ensures told { IfErr result (OnMessage (message self.now)) }
        ensures unsent { IsTrue (unsent self.now)
            → IfErr result (OnMessage (λ _. W.written ser.new ≡ W.written ser.old)) };
}
