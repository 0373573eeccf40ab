//! The parts of a tuple that is written, one after another.

ghost use Rattle.std.specs.Prelude.{◌≡◌, ◌+◌, ◌≤◌, ℕ, Bool, List, [], ◌∷◌, length, Option, OnOk, IfSome};
ghost use Rattle.std.specs.Prelude.{MatchBool, ◌||◌, false, IfErr, IsErrAnd, IsTrue};
ghost use Rattle.dagcbor_heads.specs.Written.{Writes, WantsMemoryOnlyIf};
ghost use Rattle.ipld_tree.specs.Spelled.{spelled_tree, spelled_head};
ghost use Rattle.ipld_tree.specs.Tree.{Tree, IsTree, list_tree};
ghost use Rattle.dagcbor_write.specs.Answers.{OnMessage, NoMessage, IsMsg};
ghost use Rattle.dagcbor_write.specs.Each.{spelled_each, AreTrees};
ghost use Rattle.types_schema.specs.Parts.{optional_part, part_message, optional_message};
ghost use Rattle.types_schema.specs.Parts.{is_gap, IsGapMessage};

use serde_ipld_dagcbor::{EncodeError, Serialize, Serializer, Write, WriteResult};
use std::alloc::Global;

/// A part of a tuple.
#[derive_where(Clone, Copy)]
pub struct Part<'a, T>(pub &'a T);

/// A part that may be absent if no part comes after it.
#[derive_where(Clone, Copy)]
pub struct OptionalPart<'a, T>(pub &'a Option<T>);

/// The parts of a tuple, one after another: `(Part(&self.x), (OptionalPart(&self.y), ()))`.
pub trait PartRow: Copy {
    /// The trees of the parts that are in the list.
    ghost trees: { Self → List (Option Tree) };

    /// True if writing a part may take memory even with a writer that takes none.
    ghost takes_memory: { Bool };

    /// The messages with which parts that have no spelling may be refused.
    ghost message: { Self → List ℕ → Type 0 };

    /// True if the first part is absent although others come after it.
    ghost gap: { Self → Bool };

    /// The most parts that there are.
    ghost most: { ℕ };

    fn is_empty(self) -> bool
        ensures { MatchBool result (trees self ≡ []) (¬ (trees self ≡ [])) };

    /// Returns how many parts are in the list.
    fn count(self, limit: usize) -> usize
        requires { most ≤ limit }
        ensures counted { result ≡ length (trees self) }
        ensures within { result ≤ limit };

    /// Writes the parts, one after another.
    fn write_each<W: Write>(self, alloc: Global, ser: &mut Serializer<W>) -> WriteResult<(), W>
        ensures written { Writes (spelled_each (trees self))
            (W.written ser.old) (W.written ser.new) result }
        ensures well_formed { OnOk result (AreTrees (trees self)) }
        ensures memory { WantsMemoryOnlyIf (takes_memory || W.takes_memory) result }
        ensures told { IfErr result (OnMessage (message self)) }
        ensures gap { IsTrue (gap self)
            → IsErrAnd result (λ e. IsMsg e × OnMessage IsGapMessage e)
            × (W.written ser.new ≡ W.written ser.old) };
}

impl PartRow for () {
    ghost trees = { λ u. [] };

    ghost takes_memory = { false };

    ghost message = { λ u. NoMessage };

    ghost gap = { λ u. false };

    ghost most = { 0 };

    fn is_empty(self) -> bool {
        true
    }

    fn count(self, _limit: usize) -> usize {
        0
    }

    fn write_each<W: Write>(self, _alloc: Global, _ser: &mut Serializer<W>) -> WriteResult<(), W> {
        Ok(())
    }
}

impl<T: Serialize, L: PartRow> PartRow for (Part<'_, T>, L) {
    ghost trees = { λ row. T.tree row.0.0.now ∷ L.trees row.1 };

    ghost takes_memory = { T.takes_memory || L.takes_memory };

    ghost message = { λ row. part_message T.tree T.message (L.message row.1) row.0.0.now };

    ghost gap = { λ row. false };

    ghost most = { L.most + 1 };

    fn is_empty(self) -> bool {
        false
    }

    fn count(self, limit: usize) -> usize {
        let (_, others) = self;
        others.count(limit - 1) + 1
    }

    fn write_each<W: Write>(self, alloc: Global, ser: &mut Serializer<W>) -> WriteResult<(), W> {
        let (Part(part), others) = self;
        part.serialize(alloc, ser)?;
        others.write_each(alloc, ser)
    }
}

impl<T: Serialize, L: PartRow> PartRow for (OptionalPart<'_, T>, L) {
    ghost trees = { λ row. optional_part T.tree row.0.0.now (L.trees row.1) };

    ghost takes_memory = { T.takes_memory || L.takes_memory };

    ghost message = { λ row. optional_message T.tree T.message (L.trees row.1)
        (L.message row.1) row.0.0.now };

    ghost gap = { λ row. is_gap row.0.0.now (L.trees row.1) };

    ghost most = { L.most + 1 };

    fn is_empty(self) -> bool {
        let (OptionalPart(part), others) = self;
        part.is_none() && others.is_empty()
    }

    fn count(self, limit: usize) -> usize {
        let (OptionalPart(part), others) = self;
        let count = others.count(limit - 1);
        if part.is_none() && count == 0 {
            0
        } else {
            count + 1
        }
    }

    fn write_each<W: Write>(self, alloc: Global, ser: &mut Serializer<W>) -> WriteResult<(), W> {
        let (OptionalPart(part), others) = self;
        match part {
            Some(part) => (Part(part), others).write_each(alloc, ser),
            None => {
                if others.is_empty() {
                    Ok(())
                } else {
                    Err(EncodeError::custom("a part is absent before another"))
                }
            }
        }
    }
}

/// Writes the head of a list.
fn write_head<W: Write>(alloc: Global, count: usize, ser: &mut Serializer<W>) -> WriteResult<(), W>
    ensures written { Writes (spelled_head 4 count) (W.written ser.old) (W.written ser.new) result }
    ensures memory { WantsMemoryOnlyIf W.takes_memory result }
{
    ser.serialize_seq(alloc, Some(count))?;
    Ok(())
}

/// Writes the list of the parts, which are at most `most`.
pub fn write_parts<P: PartRow, W: Write>(
    alloc: Global,
    most: usize,
    parts: P,
    ser: &mut Serializer<W>,
) -> WriteResult<(), W>
    requires { P.most ≤ most }
    ensures written { Writes (spelled_tree (list_tree (P.trees parts)))
        (W.written ser.old) (W.written ser.new) result }
    ensures well_formed { OnOk result (IfSome (list_tree (P.trees parts)) IsTree) }
    ensures memory { WantsMemoryOnlyIf (P.takes_memory || W.takes_memory) result }
    ensures told { IfErr result (OnMessage (P.message parts)) }
{
    write_head(alloc, parts.count(most), ser)?;
    parts.write_each(alloc, ser)
}
