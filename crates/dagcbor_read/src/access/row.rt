//! Reading the items of a list: into a vector, or into a tuple of any size.

ghost use Rattle.std.specs.Prelude.{◌≡◌, ◌+◌, ◌-◌, ◌≤◌, ℕ, min, Bool, List, map, false, ⊤, IfOk};
ghost use Rattle.std.specs.Prelude.{IfErr, All, codes, Option, option_map, IfSome};
ghost use Rattle.ipld_tree.specs.Tree.{Items};
ghost use Rattle.dagcbor_core.specs.declared.error.DecodeError.{DecodeError};
ghost use Rattle.dagcbor_read.specs.Deserializers.{DeState, de_state, StaysFailed, Over};
ghost use Rattle.dagcbor_read.specs.Parts.{RefusesItems, RefusesFirstPart, RefusesRest, RefusesListAs};
ghost use Rattle.dagcbor_read.specs.Parts.{RefusesOptional, IfRefused};
ghost use Rattle.dagcbor_read.specs.Values.{ReadsValue};
ghost use Rattle.dagcbor_read.specs.Accessors.{accessor_state};
ghost use Rattle.dagcbor_read.specs.Collections.{list_of, all_of, no_more, first_then, ReadsRow};
ghost use Rattle.dagcbor_read.specs.Collections.{optional_then, ReadsRest};
ghost use Rattle.dagcbor_items.specs.Shapes.{Shape};

use crate::access::accessor::Accessor;
use crate::deserialize::Deserialize;
use crate::deserializer::Deserializer;
use dagcbor_core::DecodeError;
use dagcbor_heads::{Read, ReadResult};
use std::alloc::Global;

/// What the items of a list make, one after another: all of one type, in a vector, or each of its
/// own type, as in `(A, (B, ()))`.
pub trait Row<'de>: Sized + Drop {
    ghost View: { Type 0 };

    ghost meaning: { Self → View };

    /// The view of the items.
    ghost shape: { Shape Items View };

    /// Where the parts are in memory, depending on whether the input lends.
    ghost lies: { Bool → Self → Type 0 };

    /// How many items it takes if this many are left.
    ghost takes: { ℕ → ℕ };

    /// How the items are refused if this many are left, in addition to the law.
    ghost refuses: { {E : Type 0} → ℕ → DeState → DecodeError E → DeState → Type 0 };

    /// Reads the items, from the first that is left.
    fn read_row<R: Read>(
        alloc: Global,
        items: &mut Accessor<'de>,
        de: &mut Deserializer<'de, R>,
    ) -> ReadResult<Self, R>
        requires list { (accessor_state items.old).is_map ≡ false }
        requires sound { (de_state R.reading de.old).failed ≡ false }
        ensures row { ReadsRow Self.meaning Self.shape (accessor_state items.old)
            (de_state R.reading de.old) result (accessor_state items.new)
            (de_state R.reading de.new) }
        ensures lies { IfOk result (Self.lies (de_state R.reading de.old).input.lends) }
        ensures counted { IfOk result (λ _. (accessor_state items.new).left ≡
            (accessor_state items.old).left - Self.takes (accessor_state items.old).left) }
        ensures refuses { IfErr result
            (λ e. Self.refuses (accessor_state items.old).left (de_state R.reading de.old) e
            (de_state R.reading de.new)) };
}

impl<'de, T: Deserialize<'de>> Row<'de> for Vec<T> {
    ghost View = { List T.View };

    ghost meaning = { λ v. map T.meaning v.items };

    ghost shape = { all_of T.shape };

    ghost lies = { λ lends v. All (T.lies lends) v.items };

    ghost takes = { λ left. left };

    ghost refuses = { RefusesItems T.answers };

    #[inline(always)]
    fn read_row<R: Read>(
        alloc: Global,
        items: &mut Accessor<'de>,
        de: &mut Deserializer<'de, R>,
    ) -> ReadResult<Vec<T>, R> {
        let mut all = Vec::new(alloc);
        while let Some(item) = items.next_element(alloc, de)? {
            if all.push(item).is_err() {
                return Err(DecodeError::OutOfMemory);
            }
        }
        Ok(all)
    }
}

impl<'de> Row<'de> for () {
    ghost View = { Unit {0} };

    ghost meaning = { λ u. tt };

    ghost shape = { no_more };

    ghost lies = { λ lends u. ⊤ };

    ghost takes = { λ left. 0 };

    ghost refuses = { λ left old e new. ⊥ };

    fn read_row<R: Read>(
        _alloc: Global,
        _items: &mut Accessor<'de>,
        _de: &mut Deserializer<'de, R>,
    ) -> ReadResult<(), R> {
        Ok(())
    }
}

impl<'de, T: Deserialize<'de>, L: Row<'de>> Row<'de> for (T, L) {
    ghost View = { T.View × L.View };

    ghost meaning = { λ p. (T.meaning p.0, L.meaning p.1) };

    ghost shape = { first_then T.shape L.shape };

    ghost lies = { λ lends p. T.lies lends p.0 × L.lies lends p.1 };

    ghost takes = { λ left. 1 + L.takes (left - 1) };

    ghost refuses = { RefusesFirstPart T.answers L.refuses };

    fn read_row<R: Read>(
        alloc: Global,
        items: &mut Accessor<'de>,
        de: &mut Deserializer<'de, R>,
    ) -> ReadResult<(T, L), R> {
        let Some(first) = items.next_element(alloc, de)? else {
            return Err(DecodeError::custom("Too few elements"));
        };
        let others = L::read_row(alloc, items, de)?;
        Ok((first, others))
    }
}

/// An item that may be absent if no item comes after it.
#[derive(Debug, Drop)]
pub struct OmissibleItem<T, L>(pub Option<T>, pub L);

impl<'de, T: Deserialize<'de>, L: Row<'de>> Row<'de> for OmissibleItem<T, L> {
    ghost View = { Option T.View × L.View };

    ghost meaning = { λ p. (option_map T.meaning p.0, L.meaning p.1) };

    ghost shape = { optional_then T.shape L.shape };

    ghost lies = { λ lends p. IfSome p.0 (T.lies lends) × L.lies lends p.1 };

    ghost takes = { λ left. min 1 left + L.takes (left - 1) };

    ghost refuses = { RefusesOptional T.answers L.refuses };

    fn read_row<R: Read>(
        alloc: Global,
        items: &mut Accessor<'de>,
        de: &mut Deserializer<'de, R>,
    ) -> ReadResult<OmissibleItem<T, L>, R> {
        let Some(first) = items.next_element(alloc, de)? else {
            let none_left = L::read_row(alloc, items, de)?;
            return Ok(OmissibleItem(None, none_left));
        };
        let others = L::read_row(alloc, items, de)?;
        Ok(OmissibleItem(Some(first), others))
    }
}

/// Reads all items left of a list, and ends it.
#[inline(always)]
pub(crate) fn read_rest<'de, L: Row<'de>, R: Read>(
    alloc: Global,
    items: Accessor<'de>,
    de: &mut Deserializer<'de, R>,
) -> ReadResult<L, R>
    requires list { (accessor_state items).is_map ≡ false }
    requires in_turn { (accessor_state items).owes_value ≡ false }
    requires sound { (de_state R.reading de.old).failed ≡ false }
    requires out { (de_state R.reading de.old).input.steps + (accessor_state items).steps ≤
        (de_state R.reading de.old).input.budget }
    ensures rest { Over R.reading
        (ReadsRest L.meaning L.shape (accessor_state items.entry)) de.old result de.new }
    ensures lies { IfOk result (L.lies (de_state R.reading de.old).input.lends) }
    ensures refuses { IfErr result (λ e. RefusesRest L.takes L.refuses
        (accessor_state items.entry) (de_state R.reading de.old) e (de_state R.reading de.new)) }
{
    let mut items = items;
    let row = L::read_row(alloc, &mut items, de)?;
    items.end(de)?;
    Ok(row)
}

/// Reads a tuple whose parts are all the items of a list. The length is not used.
pub fn read_tuple<'de, L: Row<'de>, R: Read>(
    alloc: Global,
    len: usize,
    de: &mut Deserializer<'de, R>,
) -> ReadResult<L, R>
    ensures value { Over R.reading (ReadsValue L.meaning (list_of L.shape)) de.old result de.new }
    ensures failed { Over R.reading StaysFailed de.old result de.new }
    ensures lies { IfOk result (L.lies (de_state R.reading de.old).input.lends) }
    ensures refuses { Over R.reading
        (IfRefused (RefusesListAs L.takes L.refuses (codes "tuple"))) de.old result de.new }
{
    let items = de.deserialize_tuple(len)?;
    read_rest(alloc, items, de)
}
