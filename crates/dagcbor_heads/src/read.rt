//! Readers: sources of bytes.

ghost use Rattle.std.specs.Prelude.{◌≡◌, ◌+◌, ◌-◌, ◌<◌, ◌≤◌, [], true, length, MatchOption};
ghost use Rattle.std.specs.Prelude.{MatchResult, MatchBool, Some, IsSome, List, ℕ, IfSome, ◌++◌, ◌^◌};
ghost use Rattle.dagcbor_heads.specs.Reading.{Reading, Shows, Fails, Advances};
ghost use Rattle.dagcbor_core.specs.Steps.{default_steps};
ghost use Rattle.dagcbor_heads.specs.Reading.{fresh_reading, with_steps};
ghost use Rattle.dagcbor_core.specs.Head.{head};
ghost use Rattle.dagcbor_heads.specs.Fronts.{Takes, TakesHead, TakesSome};
ghost use Rattle.dagcbor_heads.specs.Looking.{LooksAtTaken, LooksAtMost};

use crate::steps::Steps;
use crate::tally::Tally;
use dagcbor_core::{DEFAULT_STEPS, DecodeError, split_head};
use std::convert::Infallible;
use std::marker::Model;

/// Bytes that a reader shows: they outlive the reader, or are the reader's own.
#[derive(Clone, Copy, Debug)]
pub enum Reference<'de, 'a> {
    Long(&'de [u8]),
    Short(&'a [u8]),
}

/// The result of a call that reads.
pub type ReadResult<T, R> = Result<T, DecodeError<<R as Read>::Error>>;

/// A source of bytes, with a budget of steps into items.
pub trait Read: Drop {
    type Error: Drop;

    /// What contracts see of the reader.
    ghost reading: { Self → Reading };

    /// Ensures that a beginning of the bytes left is shown, and takes nothing. No byte is shown
    /// only at the end of the bytes, or if `want` is 0.
    fn prepare(&mut self, want: usize) -> Result<(), Self::Error>
        ensures { MatchResult result
            (λ _. Shows (reading self.old) want (reading self.new))
            (λ _. Fails (reading self.old) (reading self.new)) };

    /// Returns the bytes that are shown.
    fn shown(&self) -> &[u8]
        ensures { result.now ≡ (reading self.now).shown };

    /// Takes n of the bytes shown. If n is not 0, no byte counts as shown after that.
    fn advance(&mut self, n: usize)
        requires { n ≤ length (reading self.old).shown }
        ensures { Advances (reading self.old) n (reading self.new) };

    /// Spends a step, or returns false if no step is left.
    fn step_in(&mut self) -> bool
        ensures { MatchBool result
            ((0 < (reading self.old).steps) × ((reading self.new).steps < (reading self.new).budget)
            × (reading self.new ≡ with_steps ((reading self.old).steps - 1) (reading self.old)))
            (((reading self.old).steps ≡ 0) × (reading self.new ≡ reading self.old)) };

    /// Gives back a step that was spent.
    fn step_out(&mut self)
        requires { (reading self.old).steps < (reading self.old).budget }
        ensures { reading self.new ≡ with_steps ((reading self.old).steps + 1) (reading self.old) };

    /// Takes the head at the front, if all of it is at hand, and returns its major type, its
    /// argument and its first byte. Else takes and counts nothing, although it may have looked at
    /// the bytes of a head. A call that then goes on byte by byte looks at each byte once, but
    /// counts two looks.
    fn take_head(&mut self) -> Option<(u8, u64, u8)>
        ensures taken { MatchOption result
            (reading self.new ≡ reading self.old)
            (λ h. TakesHead (reading self.old) h.0 h.1 h.2 (reading self.new)) }
        ensures shown { IfSome result (λ _. (reading self.new).shown ≡ []) }
        ensures looked { IfSome result
            (λ _. LooksAtTaken 2 0 (reading self.old) (reading self.new)) }
        ensures at_most { IfSome result
            (λ _. LooksAtMost 18 (reading self.old) (reading self.new)) }
    {
        None
    }

    /// Returns a beginning of the bytes left that needs no call of the source. It may be empty.
    fn at_hand(&self) -> &[u8]
        ensures { (b : List ℕ) → (reading self.now).left ≡ Some b
            → (rest : List ℕ) × (b ≡ result.now ++ rest) }
    {
        &[]
    }

    /// Takes the next n bytes, if they are at hand. Else takes and counts nothing.
    fn take_at_hand(&mut self, n: usize) -> bool
        ensures { MatchBool result
            (TakesSome n (reading self.old) (reading self.new))
            (reading self.new ≡ reading self.old) }
    {
        false
    }
}

/// A reader over a slice.
#[derive(Drop)]
pub struct SliceReader<'a> {
    rest: &'a [u8],
    shown: usize,
    steps: Steps,
    looked: Tally,
}

impl<'a> Model for SliceReader<'a> {
    ghost use Rattle.std.specs.Prelude.{◌≤◌, [], length, take, true, Some};
    ghost use Rattle.dagcbor_heads.specs.Reading.{Reading};

    ghost Value = { Reading };

    ghost view = { λ s. record {
      left = Some s.rest.now;
      shown = take s.shown s.rest.now;
      steps = s.steps.left;
      budget = s.steps.budget;
      lends = true;
      faults = 0;
      looked = s.looked.count;
      through = [];
    } };

    ghost invariant = { λ s. s.shown ≤ length s.rest.now };
}

impl<'a> SliceReader<'a> {
    /// Returns a reader over the bytes, with a budget of `DEFAULT_STEPS`.
    pub fn new(bytes: &'a [u8]) -> SliceReader<'a>
        ensures { result ≡ fresh_reading (Some bytes.now) default_steps true [] }
    {
        SliceReader::with_depth(bytes, DEFAULT_STEPS)
    }

    /// Returns a reader over the bytes, with a budget of `steps`, at most 1,024.
    pub fn with_depth(bytes: &'a [u8], steps: usize) -> SliceReader<'a>
        requires { steps ≤ 1024 }
        ensures { result ≡ fresh_reading (Some bytes.now) steps true [] }
    {
        SliceReader {
            rest: bytes,
            shown: 0,
            steps: Steps::new(steps),
            looked: Tally::new(),
        }
    }

    /// Returns the bytes that are shown, which live as long as the slice.
    pub(crate) fn long(&self) -> &'a [u8]
        ensures bytes { result.now ≡ self.now.shown }
        ensures lends { self.now.lends ≡ true }
    {
        &self.rest[..self.shown]
    }

    /// Returns the bytes that are left, which live as long as the slice. Nothing is taken or
    /// counted.
    #[inline(always)]
    pub fn rest(&self) -> &'a [u8]
        ensures bytes { self.now.left ≡ Some result.now }
        ensures lends { self.now.lends ≡ true }
    {
        self.rest
    }

    /// Takes the string of this major type at the front, with its head, and lends its bytes, if all
    /// of them are left. Else takes and counts nothing. It may then have looked at the bytes of a
    /// head of this major type, as `take_head` may; of any other head it looks only at the first
    /// byte.
    #[inline(always)]
    pub fn take_string(&mut self, kind: u8) -> Option<&'a [u8]>
        ensures taken { MatchOption result
            (self.new ≡ self.old)
            (λ s. (kind < 8) × (length s.now < 2 ^ 64)
            × Takes self.old (head kind (length s.now) ++ s.now) self.new) }
        ensures lends { self.old.lends ≡ true }
        ensures shown { IfSome result (λ _. self.new.shown ≡ []) }
        ensures looked { IfSome result (λ _. LooksAtTaken 2 0 self.old self.new) }
    {
        let (first, _following) = self.rest.split_first()?;
        if *first / 32 != kind {
            return None;
        }
        let (_major, count, following) = split_head(self.rest)?;
        if (following.len() as u64) < count {
            return None;
        }
        let (payload, rest) = following.split_at(count as usize);
        self.looked.add(self.rest.len() - rest.len());
        self.rest = rest;
        self.shown = 0;
        Some(payload)
    }

    /// Takes the next n bytes and lends them, if n bytes are left. Else takes nothing.
    pub fn lend(&mut self, n: u64) -> Option<&'a [u8]>
        ensures lends { self.old.lends ≡ true }
        ensures lent { MatchOption result
            ((self.new ≡ self.old) × ((b : List ℕ) → self.old.left ≡ Some b → length b < n))
            (λ s. (length s.now ≡ n) × Takes self.old s.now self.new
            × (self.new.looked ≡ self.old.looked + n)) }
        ensures shown { IfSome result (λ _. self.new.shown ≡ []) }
        ensures empty { n ≡ 0 → IsSome result }
    {
        if (self.rest.len() as u64) < n {
            return None;
        }
        let (front, rest) = self.rest.split_at(n as usize);
        self.rest = rest;
        self.shown = 0;
        self.looked.add(n as usize);
        Some(front)
    }
}

impl Read for SliceReader<'_> {
    type Error = Infallible;

    ghost reading = { λ s. s };

    fn prepare(&mut self, want: usize) -> Result<(), Infallible> {
        self.shown = self.rest.len();
        self.looked.add(want.min(self.shown));
        Ok(())
    }

    fn shown(&self) -> &[u8] {
        self.long()
    }

    #[inline(always)]
    fn take_head(&mut self) -> Option<(u8, u64, u8)> {
        let (first, _following) = self.rest.split_first()?;
        let first = *first;
        let (major, argument, rest) = split_head(self.rest)?;
        self.looked.add(self.rest.len() - rest.len());
        self.rest = rest;
        self.shown = 0;
        Some((major, argument, first))
    }

    fn advance(&mut self, n: usize) {
        self.rest = &self.rest[n..];
        self.shown = 0;
        self.looked.add(n);
    }

    #[inline(always)]
    fn at_hand(&self) -> &[u8] {
        self.rest
    }

    #[inline(always)]
    fn take_at_hand(&mut self, n: usize) -> bool {
        self.lend(n as u64).is_some()
    }

    fn step_in(&mut self) -> bool {
        self.steps.spend()
    }

    fn step_out(&mut self) {
        self.steps.give_back();
    }
}
