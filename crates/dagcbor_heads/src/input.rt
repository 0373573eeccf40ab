//! What values are read from: a slice, which lends its bytes, or another reader.

ghost use Rattle.std.specs.Prelude.{◌≡◌, ◌↔◌, ◌<◌, ◌+◌, ◌++◌, ◌^◌, true, length, IfSome, MatchOption};
ghost use Rattle.std.specs.Prelude.{IsTrue, IsSome, Some, List, ℕ, []};
ghost use Rattle.dagcbor_core.specs.Head.{head};
ghost use Rattle.dagcbor_heads.specs.Fronts.{Takes};
ghost use Rattle.dagcbor_heads.specs.Looking.{LooksAtTaken};
ghost use Rattle.dagcbor_heads.specs.Reading.{reference_bytes, is_long};
ghost use Rattle.dagcbor_heads.specs.Inputs.{input_reading};

use crate::read::{Read, Reference, SliceReader};

/// A slice, which lends its bytes, or another reader, which does not.
#[derive(Drop)]
pub enum Input<'de, R> {
    Slice(SliceReader<'de>),
    Reader(R),
}

impl<'de, R: Read> Input<'de, R> {
    ghost use Rattle.dagcbor_heads.specs.declared.input.Input.TheVariants.{Reader};

    /// Returns the bytes that are shown: `Long` if the input is a slice, else `Short`.
    pub fn shown(&self) -> Reference<'de, '_>
        ensures bytes { reference_bytes result ≡ (input_reading R.reading self.now).shown }
        ensures lends { is_long result ≡ (input_reading R.reading self.now).lends }
    {
        match self {
            Input::Slice(reader) => Reference::Long(reader.long()),
            Input::Reader(reader) => Reference::Short(reader.shown()),
        }
    }

    /// Returns the bytes that are left, if the input is a slice. Nothing is taken or counted. A
    /// caller that has looked at them can take them by `lend`.
    #[inline(always)]
    pub fn rest(&self) -> Option<&'de [u8]>
        ensures bytes { IfSome result
            (λ s. (input_reading R.reading self.now).left ≡ Some s.now) }
        ensures lends { IsTrue (input_reading R.reading self.now).lends ↔ IsSome result }
    {
        match self {
            Input::Slice(reader) => Some(reader.rest()),
            Input::Reader(_) => None,
        }
    }

    /// Takes the next n bytes and lends them, if the input is a slice that has n bytes left. Else
    /// takes nothing.
    #[inline(always)]
    pub fn lend(&mut self, n: u64) -> Option<&'de [u8]>
        ensures lent { MatchOption result
            ((self.new ≡ self.old) × ((input_reading R.reading self.old).lends ≡ true →
            (b : List ℕ) → (input_reading R.reading self.old).left ≡ Some b → length b < n))
            (λ s. (length s.now ≡ n)
            × Takes (input_reading R.reading self.old) s.now (input_reading R.reading self.new)
            × ((input_reading R.reading self.new).looked
            ≡ (input_reading R.reading self.old).looked + n)) }
        ensures shown { IfSome result (λ _. (input_reading R.reading self.new).shown ≡ []) }
    {
        match self {
            Input::Slice(reader) => reader.lend(n),
            Input::Reader(_) => None,
        }
    }

    /// Takes the string of this major type at the front, with its head, and lends its bytes, if the
    /// input is a slice that has all of them. Else takes and counts nothing, as `take_string` of
    /// `SliceReader`.
    #[inline(always)]
    pub fn take_string(&mut self, kind: u8) -> Option<&'de [u8]>
        ensures taken { MatchOption result
            (self.new ≡ self.old)
            (λ s. (kind < 8) × (length s.now < 2 ^ 64)
            × Takes (input_reading R.reading self.old) (head kind (length s.now) ++ s.now)
            (input_reading R.reading self.new)) }
        ensures lends { IfSome result (λ _. (input_reading R.reading self.old).lends ≡ true) }
        ensures shown { IfSome result (λ _. (input_reading R.reading self.new).shown ≡ []) }
        ensures looked { IfSome result
            (λ _. LooksAtTaken 2 0 (input_reading R.reading self.old)
            (input_reading R.reading self.new)) }
    {
        match self {
            Input::Slice(reader) => reader.take_string(kind),
            Input::Reader(_) => None,
        }
    }

    /// Returns the reader, or `None` if the input is a slice.
    pub fn into_reader(self) -> Option<R>
        ensures { MatchOption result ((input_reading R.reading self.entry).lends ≡ true)
            (λ r. self.entry ≡ Reader r) }
    {
        match self {
            Input::Slice(reader) => {
                // No effect at run time. From this use the proof knows that a slice lends.
                let _ = reader.long();
                None
            }
            Input::Reader(reader) => Some(reader),
        }
    }
}

impl<R: Read> Read for Input<'_, R> {
    type Error = R::Error;

    ghost reading = { λ i. input_reading R.reading i };

    fn prepare(&mut self, want: usize) -> Result<(), R::Error> {
        match self {
            Input::Slice(reader) => match reader.prepare(want) {
                Ok(()) => Ok(()),
                Err(never) => match never {},
            },
            Input::Reader(reader) => reader.prepare(want),
        }
    }

    fn shown(&self) -> &[u8] {
        match self {
            Input::Slice(reader) => reader.long(),
            Input::Reader(reader) => reader.shown(),
        }
    }

    #[inline(always)]
    fn take_head(&mut self) -> Option<(u8, u64, u8)> {
        match self {
            Input::Slice(reader) => reader.take_head(),
            Input::Reader(reader) => reader.take_head(),
        }
    }

    fn advance(&mut self, n: usize) {
        match self {
            Input::Slice(reader) => reader.advance(n),
            Input::Reader(reader) => reader.advance(n),
        }
    }

    #[inline(always)]
    fn at_hand(&self) -> &[u8] {
        match self {
            Input::Slice(reader) => reader.at_hand(),
            Input::Reader(reader) => reader.at_hand(),
        }
    }

    #[inline(always)]
    fn take_at_hand(&mut self, n: usize) -> bool {
        match self {
            Input::Slice(reader) => reader.take_at_hand(n),
            Input::Reader(reader) => reader.take_at_hand(n),
        }
    }

    fn step_in(&mut self) -> bool {
        match self {
            Input::Slice(reader) => reader.step_in(),
            Input::Reader(reader) => reader.step_in(),
        }
    }

    fn step_out(&mut self) {
        match self {
            Input::Slice(reader) => reader.step_out(),
            Input::Reader(reader) => reader.step_out(),
        }
    }
}
