//! Tuples of one to four.

ghost use Rattle.std.specs.Prelude.{◌≡◌, ◌∷◌, [], ℕ, List, Option, OnOk, IfErr, IfSome, length};
ghost use Rattle.std.specs.Prelude.{Bool, false, ◌||◌};
ghost use Rattle.dagcbor_heads.specs.Written.{Writes, WantsMemoryOnlyIf};
ghost use Rattle.ipld_tree.specs.Spelled.{spelled_tree};
ghost use Rattle.ipld_tree.specs.Tree.{Tree, IsTree, list_tree};
ghost use Rattle.dagcbor_write.specs.Answers.{OnMessage, NoMessage, OneOf, IsPartMessage};
ghost use Rattle.dagcbor_write.specs.Each.{spelled_each, AreTrees, in_turn};

use crate::serialize::Serialize;
use crate::serializer::Serializer;
use dagcbor_heads::{Write, WriteResult};
use std::alloc::Global;

/// A part of a tuple, or `()` if a tuple has no such part.
trait Part: Copy {
    /// The part's tree, in a list of one, or an empty list if there is no part.
    ghost trees: { Self → List (Option Tree) };

    ghost takes_memory: { Bool };

    ghost message: { Self → List ℕ → Type 0 };

    /// Appends the part's spelling.
    fn serialize_part<W: Write>(self, alloc: Global, ser: &mut Serializer<W>) -> WriteResult<(), W>
        ensures written { Writes (spelled_each (trees self))
            (W.written ser.old) (W.written ser.new) result }
        ensures well_formed { OnOk result (AreTrees (trees self)) }
        ensures memory { WantsMemoryOnlyIf (takes_memory || W.takes_memory) result }
        ensures told { IfErr result (OnMessage (message self)) };
}

impl Part for () {
    ghost trees = { λ u. [] };

    ghost takes_memory = { false };

    ghost message = { λ u. NoMessage };

    fn serialize_part<W: Write>(
        self,
        _alloc: Global,
        _ser: &mut Serializer<W>,
    ) -> WriteResult<(), W> {
        Ok(())
    }
}

impl<T: Serialize> Part for &T {
    ghost trees = { λ part. T.tree part.now ∷ [] };

    ghost takes_memory = { T.takes_memory };

    ghost message = { λ part. IsPartMessage T.tree T.message part.now };

    #[tactic(auto, using(crate::proofs::Messages::part_told))]
    fn serialize_part<W: Write>(
        self,
        alloc: Global,
        ser: &mut Serializer<W>,
    ) -> WriteResult<(), W> {
        self.serialize(alloc, ser)
    }
}

/// Appends the list of the parts, whose number is `len`.
#[tactic(auto, using(crate::proofs::Lists::parts_IsTree))]
fn serialize_parts<A: Part, B: Part, C: Part, D: Part, W: Write>(
    alloc: Global,
    ser: &mut Serializer<W>,
    len: usize,
    parts: (A, B, C, D),
) -> WriteResult<(), W>
    requires { len ≡ length
        (in_turn (A.trees parts.0) (B.trees parts.1) (C.trees parts.2) (D.trees parts.3)) }
    ensures written { Writes (spelled_tree (list_tree
        (in_turn (A.trees parts.0) (B.trees parts.1) (C.trees parts.2) (D.trees parts.3))))
        (W.written ser.old) (W.written ser.new) result }
    ensures well_formed { OnOk result (IfSome (list_tree
        (in_turn (A.trees parts.0) (B.trees parts.1) (C.trees parts.2) (D.trees parts.3))) IsTree) }
    ensures memory { WantsMemoryOnlyIf ((A.takes_memory || (B.takes_memory
        || (C.takes_memory || D.takes_memory))) || W.takes_memory) result }
    ensures told { IfErr result (OnMessage (OneOf (A.message parts.0) (B.message parts.1)
        (C.message parts.2) (D.message parts.3))) }
{
    ser.push_head(4, len)?;
    parts.0.serialize_part(alloc, ser)?;
    parts.1.serialize_part(alloc, ser)?;
    parts.2.serialize_part(alloc, ser)?;
    parts.3.serialize_part(alloc, ser)
}

impl<A: Serialize> Serialize for (A,) {
    ghost tree = { λ p. list_tree (A.tree p.0 ∷ []) };

    ghost takes_memory = { A.takes_memory };

    ghost message = { λ p. OneOf (IsPartMessage A.tree A.message p.0)
        NoMessage
        NoMessage
        NoMessage };

    fn serialize<W: Write>(&self, alloc: Global, ser: &mut Serializer<W>) -> WriteResult<(), W> {
        serialize_parts(alloc, ser, 1, (&self.0, (), (), ()))
    }
}

impl<A: Serialize, B: Serialize> Serialize for (A, B) {
    ghost tree = { λ p. list_tree (A.tree p.0 ∷ B.tree p.1 ∷ []) };

    ghost takes_memory = { A.takes_memory || B.takes_memory };

    ghost message = { λ p. OneOf (IsPartMessage A.tree A.message p.0)
        (IsPartMessage B.tree B.message p.1)
        NoMessage
        NoMessage };

    fn serialize<W: Write>(&self, alloc: Global, ser: &mut Serializer<W>) -> WriteResult<(), W> {
        serialize_parts(alloc, ser, 2, (&self.0, &self.1, (), ()))
    }
}

impl<A: Serialize, B: Serialize, C: Serialize> Serialize for (A, B, C) {
    ghost tree = { λ p. list_tree (A.tree p.0 ∷ B.tree p.1 ∷ C.tree p.2 ∷ []) };

    ghost takes_memory = { A.takes_memory || (B.takes_memory || C.takes_memory) };

    ghost message = { λ p. OneOf (IsPartMessage A.tree A.message p.0)
        (IsPartMessage B.tree B.message p.1)
        (IsPartMessage C.tree C.message p.2)
        NoMessage };

    fn serialize<W: Write>(&self, alloc: Global, ser: &mut Serializer<W>) -> WriteResult<(), W> {
        serialize_parts(alloc, ser, 3, (&self.0, &self.1, &self.2, ()))
    }
}

impl<A: Serialize, B: Serialize, C: Serialize, D: Serialize> Serialize for (A, B, C, D) {
    ghost tree = { λ p. list_tree (A.tree p.0 ∷ B.tree p.1 ∷ C.tree p.2 ∷ D.tree p.3 ∷ []) };

    ghost takes_memory = { A.takes_memory || (B.takes_memory || (C.takes_memory || D.takes_memory)) };

    ghost message = { λ p. OneOf (IsPartMessage A.tree A.message p.0)
        (IsPartMessage B.tree B.message p.1)
        (IsPartMessage C.tree C.message p.2)
        (IsPartMessage D.tree D.message p.3) };

    fn serialize<W: Write>(&self, alloc: Global, ser: &mut Serializer<W>) -> WriteResult<(), W> {
        serialize_parts(alloc, ser, 4, (&self.0, &self.1, &self.2, &self.3))
    }
}
