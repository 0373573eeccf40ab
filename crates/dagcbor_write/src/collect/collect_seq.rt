//! The collector of a list whose number of items may be known only at its end.

ghost use Rattle.std.specs.Prelude.{◌≡◌, IfOk, IfErr, IsOk, OnOk};
ghost use Rattle.std.specs.Prelude.{IfSome, IsSome, IsNone, IsOkAnd, Some, ◌||◌};
ghost use Rattle.std.specs.Borrow.{sem};
ghost use Rattle.std.specs.Fmt.{◌++?◌};
ghost use Rattle.dagcbor_heads.specs.Written.{Writes, WroteAll, WantsMemoryOnlyIf};
ghost use Rattle.ipld_tree.specs.Tree.{IsTree};
ghost use Rattle.ipld_tree.specs.Spelled.{spelled_head};
ghost use Rattle.dagcbor_write.specs.Answers.{OnMessage};
ghost use Rattle.dagcbor_write.specs.Lists.{announced_head, elements_left, IsFresh, HasRoom};
ghost use Rattle.dagcbor_write.specs.Lists.{IsComplete, TakesElement, waiting_text};
ghost use Rattle.dagcbor_write.specs.Lending.{list_lent, list_state, SameLoan, BeginsOrStops};

use crate::collect::buffer::Buffer;
use crate::serialize::Serialize;
use crate::serializer::Serializer;
use dagcbor_heads::{Write, WriteResult};
use std::alloc::Global;

/// The message for an item that is to wait and has no spelling.
const BAD_ELEMENT: &str = "List element cannot be serialized";

/// The state of a list before its end. If the number of items was announced: how many are still to
/// come. Else: the items, which wait until their number is known.
#[derive(Drop)]
pub enum ListState {
    Announced(usize),
    Waits(Buffer),
}

/// The collector of a list.
pub struct CollectSeq<'a, W, I = ListState> {
    ser: &'a mut Serializer<W>,
    alloc: Global,
    items: I,
}

impl<W, I: Drop> Drop for CollectSeq<'_, W, I> {
    fn drop(self)
        ensures { self.exit.0.now ≡ (list_lent self.entry).now }
    {
        let Self {
            ser: _,
            alloc: _,
            items: _,
        } = self;
    }
}

impl<W: Write> Serializer<W> {
    /// Begins a list. If the number of its items is known, writes its head at once. Else the items
    /// wait in memory until the list ends, and nothing can fail here.
    pub fn serialize_seq(
        &mut self,
        alloc: Global,
        len: Option<usize>,
    ) -> WriteResult<CollectSeq<'_, W>, W>
        ensures* refused { sem 𝓛 (BeginsOrStops W.row W.written list_lent self.entry
            (announced_head len) result) }
        ensures same_reference { IfOk result (λ c. SameLoan self.entry (list_lent c)) }
        ensures head { IfOk result (λ c. WroteAll (announced_head len)
            (W.written self.old) (W.written (list_lent c).now)) }
        ensures fresh { IfOk result (λ c. IsFresh len (list_state c)) }
        ensures memory { WantsMemoryOnlyIf W.takes_memory result }
        ensures unannounced { IsNone len → IsOkAnd result (λ c. (list_lent c).now ≡ self.old) }
    {
        let items = match len {
            Some(count) => {
                self.push_head(4, count)?;
                ListState::Announced(count)
            }
            None => ListState::Waits(Buffer::new(alloc)),
        };
        Ok(CollectSeq {
            ser: self,
            alloc,
            items,
        })
    }

    /// Writes the head of the list, and the items that waited.
    fn push_waiting(&mut self, buffer: &Buffer) -> WriteResult<(), W>
        ensures written { Writes (spelled_head 4 buffer.now.count ++? Some buffer.now.bytes)
            (W.written self.old) (W.written self.new) result }
        ensures memory { WantsMemoryOnlyIf W.takes_memory result }
    {
        self.push_head(4, buffer.count())?;
        self.push(buffer.bytes())
    }
}

impl<W: Write> CollectSeq<'_, W> {
    /// Returns how many of the announced items are still to come, or `None` if no number was
    /// announced.
    pub fn left(&self) -> Option<usize>
        ensures { result ≡ elements_left (list_state self.now) }
    {
        match &self.items {
            ListState::Announced(left) => Some(*left),
            ListState::Waits(_) => None,
        }
    }

    /// Takes the next item. If it is to wait and has no spelling, it is refused with
    /// `Msg("List element cannot be serialized")`.
    pub fn serialize_element<T: Serialize>(&mut self, value: &T) -> WriteResult<(), W>
        requires { HasRoom (list_state self.old) }
        ensures same_reference { SameLoan (list_lent self.old) (list_lent self.new) }
        ensures item { TakesElement (T.tree value.now) (list_state self.old)
            (W.written (list_lent self.old).now)
            (list_state self.new) (W.written (list_lent self.new).now) result }
        ensures well_formed { OnOk result (IfSome (T.tree value.now) IsTree) }
        ensures memory { IsSome (elements_left (list_state self.old))
            → WantsMemoryOnlyIf (T.takes_memory || W.takes_memory) result }
        ensures told { IsSome (elements_left (list_state self.old))
            → IfErr result (OnMessage (T.message value.now)) }
    {
        match &mut self.items {
            ListState::Announced(left) => {
                *left -= 1;
                value.serialize(self.alloc, self.ser)
            }
            ListState::Waits(buffer) => buffer.gather(self.alloc, value, BAD_ELEMENT),
        }
    }

    /// Ends the list, and writes the items that waited, after their number. If the number was
    /// announced, nothing is left to write, and nothing can fail.
    pub fn end(self) -> WriteResult<(), W>
        requires { IsComplete (list_state self) }
        ensures written { Writes (waiting_text (list_state self.entry))
            (W.written (list_lent self.entry).now) (W.written self.exit.0.now) result }
        ensures memory { WantsMemoryOnlyIf W.takes_memory result }
        ensures announced { IsSome (elements_left (list_state self.entry)) → IsOk result
            × (self.exit.0.now ≡ (list_lent self.entry).now) }
    {
        let Self {
            ser,
            alloc: _,
            items,
        } = self;
        match items {
            ListState::Announced(_) => Ok(()),
            ListState::Waits(buffer) => ser.push_waiting(&buffer),
        }
    }
}
