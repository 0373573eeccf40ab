//! How the strings of items are read: lent by a slice, or gathered in memory if the input does not
//! lend them.

ghost use Rattle.std.specs.Prelude.{◌≡◌, ◌<◌, ◌↔◌, ℕ, List, true, false, IsTrue, option_map, IfErr};
ghost use Rattle.std.specs.Prelude.{◌+◌, [], length, MatchBool, IfSome};
ghost use Rattle.std.specs.Cow.{cow_str_bytes};
ghost use Rattle.dagcbor_heads.specs.Looking.{Looks, LooksAfter, LooksAtTaken};
ghost use Rattle.ipld_tree.specs.Tree.{Tree, any_need, links_of};
ghost use Rattle.ipld_tree.specs.Spelling.{IsFront};
ghost use Rattle.dagcbor_items.specs.Majors.{ReadsString};
ghost use Rattle.dagcbor_items.specs.Places.{Follows};
ghost use Rattle.dagcbor_items.specs.Entries.{ReadsKeyAs};
ghost use Rattle.dagcbor_items.specs.LeafReads.{ReadsTextAs};
ghost use Rattle.dagcbor_items.specs.AnsweredVariants.{OfKey, OfHead, OfText};
ghost use Rattle.dagcbor_items.specs.Untyped.{SkipsEnteredItem, StartsWithMajor, TakesItem};

use crate::key::read_key;
use crate::majors::peek_major;
use crate::order::follows;
use crate::strings::{no_text, pull_peeked_slice, pull_peeked_str};
use crate::utf8::as_text;
use dagcbor_core::{DecodeError, Len, Name, split_head};
use dagcbor_decode::after_leaf;
use dagcbor_heads::{Input, Read, ReadResult, SliceReader, pull_head};
use std::alloc::Global;
use std::borrow::CowStr;
use std::convert::Infallible;

/// A reader that can skip strings, and keep the keys of maps.
pub trait PayloadReader: Read {
    /// Where memory for a string comes from, or `()` if no memory is taken.
    type Alloc: Copy;

    /// A key of a map, which is kept until it is compared with the next one.
    type Key: Drop;

    ghost key_bytes: { Self.Key → List ℕ };

    /// Takes the item at the front, if it is not a link and contains no other items, and all of it
    /// is at hand. It may take nothing.
    fn take_leaf(&mut self) -> bool
        ensures taken { MatchBool result
            ((t : Tree) × TakesItem 0 (Self.reading self.old) t (Self.reading self.new)
            × (links_of t ≡ []))
            (Self.reading self.new ≡ Self.reading self.old) }
        ensures looked { IsTrue result
            → LooksAtTaken 3 0 (Self.reading self.old) (Self.reading self.new) };

    /// Reads a key that may come after the previous one.
    fn pull_key(
        &mut self,
        alloc: Self::Alloc,
        previous: &Option<Self::Key>,
    ) -> ReadResult<Self::Key, Self>
        ensures key { ReadsKeyAs key_bytes (option_map key_bytes previous.now)
            (Self.reading self.old) result (Self.reading self.new) }
        ensures looked { Looks 3 (Self.reading self.old) result (Self.reading self.new) }
        ensures variant { IfErr result OfKey };

    /// Skips a byte string whose first byte was peeked.
    fn skip_bytes(&mut self, alloc: Self::Alloc) -> ReadResult<(), Self>
        requires { StartsWithMajor (Self.reading self.old) 2 }
        ensures item { SkipsEnteredItem (Self.reading self.old) result (Self.reading self.new) }
        ensures looked { LooksAfter 3 1 (Self.reading self.old) result (Self.reading self.new) }
        ensures variant { IfErr result OfHead };

    /// Skips a text whose first byte was peeked, and checks that it is UTF-8.
    fn skip_text(&mut self, alloc: Self::Alloc) -> ReadResult<(), Self>
        requires { StartsWithMajor (Self.reading self.old) 3 }
        ensures item { SkipsEnteredItem (Self.reading self.old) result (Self.reading self.new) }
        ensures looked { LooksAfter 3 1 (Self.reading self.old) result (Self.reading self.new) }
        ensures variant { IfErr result OfText };
}

/// Strings are lent if the input lends, else gathered in memory.
impl<'de, R: Read> PayloadReader for Input<'de, R> {
    type Alloc = Global;

    type Key = CowStr<'de>;

    ghost key_bytes = { cow_str_bytes };

    #[inline(always)]
    fn take_leaf(&mut self) -> bool {
        match self {
            Input::Slice(reader) => reader.take_leaf(),
            Input::Reader(_) => false,
        }
    }

    fn pull_key(
        &mut self,
        alloc: Global,
        previous: &Option<CowStr<'de>>,
    ) -> ReadResult<CowStr<'de>, R> {
        read_key(alloc, self, previous)
    }

    #[tactic(auto, using(crate::proofs::StringItems::bytes_items))]
    fn skip_bytes(&mut self, alloc: Global) -> ReadResult<(), R> {
        pull_peeked_slice(alloc, self)?;
        Ok(())
    }

    #[tactic(auto, using(crate::proofs::StringItems::text_items))]
    fn skip_text(&mut self, alloc: Global) -> ReadResult<(), R> {
        pull_peeked_str(alloc, "string", self)?;
        Ok(())
    }
}

/// Reads a string whose first byte has the major type, and returns its bytes, lent.
#[tactic(auto, using(crate::proofs::PartRefusals::named_kind, crate::proofs::PartRefusals::end_kind))]
fn pull_peeked_lent_string<'de>(
    name: &str,
    reader: &mut SliceReader<'de>,
    kind: u8,
) -> Result<&'de [u8], DecodeError<Infallible>>
    requires few { kind < 8 }
    requires starts { StartsWithMajor reader.old kind }
    ensures string { ReadsString (λ s. s.now) name.now kind reader.old result reader.new }
    ensures looked { Looks 2 reader.old result reader.new }
    ensures variant { IfErr result OfHead }
{
    let (_, count, _) = pull_head(name, reader)?;
    match reader.lend(count) {
        Some(payload) => Ok(payload),
        None => Err(DecodeError::end(name, Len::new(count))),
    }
}

/// Reads a text whose first byte has its major type, and returns it lent.
#[tactic(auto, using(crate::proofs::PartRefusals::kind_text))]
fn pull_peeked_lent_text<'de>(
    name: &str,
    reader: &mut SliceReader<'de>,
) -> Result<&'de str, DecodeError<Infallible>>
    requires { StartsWithMajor reader.old 3 }
    ensures text { ReadsTextAs (λ s. s.now) name.now reader.old result reader.new }
    ensures looked { Looks 2 reader.old result reader.new }
    ensures variant { IfErr result OfText }
{
    let payload = pull_peeked_lent_string(name, reader, 3)?;
    match as_text(payload) {
        Some(text) => Ok(text),
        None => Err(DecodeError::RequireUtf8 {
            name: Name::new(name),
        }),
    }
}

/// Reads a text byte by byte, so that a refusal names its cause.
#[tactic(auto, using(crate::proofs::PartRefusals::byte_text))]
#[cold]
#[inline(never)]
fn pull_lent_text_slowly<'de>(
    name: &str,
    reader: &mut SliceReader<'de>,
) -> Result<&'de str, DecodeError<Infallible>>
    ensures text { ReadsTextAs (λ s. s.now) name.now reader.old result reader.new }
    ensures looked { Looks 3 reader.old result reader.new }
    ensures variant { IfErr result OfText }
{
    peek_major(name, reader, 3, 3)?;
    pull_peeked_lent_text(name, reader)
}

/// Reads a text, and returns it lent.
pub(crate) fn pull_lent_text<'de>(
    name: &str,
    reader: &mut SliceReader<'de>,
) -> Result<&'de str, DecodeError<Infallible>>
    ensures text { ReadsTextAs (λ s. s.now) name.now reader.old result reader.new }
    ensures looked { Looks 3 reader.old result reader.new }
    ensures variant { IfErr result OfText }
{
    if let Some(payload) = reader.take_string(3) {
        return match as_text(payload) {
            Some(text) => Ok(text),
            None => Err(no_text(name)),
        };
    }
    pull_lent_text_slowly(name, reader)
}

/// Returns whether the key may come after the previous one.
fn lent_follows(previous: &Option<&str>, key: &str) -> bool
    ensures { IsTrue result ↔ Follows (option_map (λ s. s.now) previous.now) key.now }
{
    let before = previous.map(|before| before.as_bytes());
    follows(&before, key.as_bytes())
}

/// Returns the length of the item at the front, if it is not a link and contains no other items.
#[inline(always)]
fn leaf_length(bytes: &[u8]) -> Option<usize>
    ensures { IfSome result (λ n. (t : Tree) × (rest : List ℕ) × IsFront bytes.now t rest
        × (any_need t ≡ 1) × (links_of t ≡ []) × (n + length rest ≡ length bytes.now)) }
{
    let (major, argument, following) = split_head(bytes)?;
    if major == 4 || major == 5 || major == 6 {
        return None;
    }
    let rest = after_leaf(major, argument, following)?;
    Some(bytes.len() - rest.len())
}

/// Strings are lent, with no allocator.
impl<'de> PayloadReader for SliceReader<'de> {
    type Alloc = ();

    type Key = &'de str;

    ghost key_bytes = { λ s. s.now };

    #[inline(always)]
    fn take_leaf(&mut self) -> bool {
        let Some(count) = leaf_length(self.rest()) else {
            return false;
        };
        if !self.step_in() {
            return false;
        }
        let Some(_leaf) = self.lend(count as u64) else {
            unreachable!()
        };
        self.step_out();
        true
    }

    fn pull_key(
        &mut self,
        _alloc: (),
        previous: &Option<&'de str>,
    ) -> Result<&'de str, DecodeError<Infallible>> {
        let key = pull_lent_text("map key", self)?;
        if !lent_follows(previous, key) {
            return Err(DecodeError::UnorderedKey);
        }
        Ok(key)
    }

    fn skip_bytes(&mut self, _alloc: ()) -> Result<(), DecodeError<Infallible>> {
        pull_peeked_lent_string("bytes", self, 2)?;
        Ok(())
    }

    fn skip_text(&mut self, _alloc: ()) -> Result<(), DecodeError<Infallible>> {
        pull_peeked_lent_text("string", self)?;
        Ok(())
    }
}
