//! Reads texts, characters and byte strings.

ghost use Rattle.std.specs.Prelude.{◌≡◌, ◌<◌, ◌↔◌, true, IfOk, IfSome, MatchOption, IsUtf8, IfErr};
ghost use Rattle.std.specs.Prelude.{length, string_bytes, false, List, ℕ, ◌+◌};
ghost use Rattle.ipld_tree.specs.Tree.{text};
ghost use Rattle.ipld_tree.specs.Spelling.{IsFront};
ghost use Rattle.std.specs.Str.{chars};
ghost use Rattle.std.specs.Cow.{cow_slice_items, cow_str_bytes, IsBorrowedSlice, IsBorrowedStr};
ghost use Rattle.dagcbor_core.specs.Names.{Names};
ghost use Rattle.dagcbor_core.specs.declared.name.Name.{Name};
ghost use Rattle.dagcbor_core.specs.declared.error.DecodeError.{DecodeError};
ghost use Rattle.dagcbor_heads.specs.Inputs.{input_reading, OverInput};
ghost use Rattle.dagcbor_heads.specs.Looking.{Looks, LooksAtTaken};
ghost use Rattle.dagcbor_items.specs.Majors.{LacksForString, LacksToCopy, ReadsString};
ghost use Rattle.dagcbor_items.specs.Untyped.{StartsWithMajor};
ghost use Rattle.dagcbor_items.specs.Shapes.{only, view_text, leaf};
ghost use Rattle.dagcbor_items.specs.TypedReads.{TakesFront};
ghost use Rattle.dagcbor_items.specs.LeafReads.{ReadsStr, ReadsOwnedText, ReadsChar};
ghost use Rattle.dagcbor_items.specs.LeafReads.{ReadsByteSlice, ReadsOwnedBytes};
ghost use Rattle.dagcbor_items.specs.AnsweredVariants.{OfChar, OfHead, OfText};

use crate::majors::peek_major;
use crate::utf8::as_text;
use dagcbor_core::{DecodeError, Name, split_head};
use dagcbor_decode::split_payload;
use dagcbor_heads::{Input, Read, ReadResult, pull_head, pull_payload};
use std::alloc::{AllocError, Global};
use std::borrow::{CowSlice, CowStr};

/// Reads a string whose first byte has the major type. Its bytes are lent if the input lends.
#[tactic(auto, using(crate::proofs::PartRefusals::named_kind, crate::proofs::PartRefusals::payload_kind))]
fn pull_peeked_string<'de, R: Read>(
    alloc: Global,
    name: &str,
    input: &mut Input<'de, R>,
    kind: u8,
) -> ReadResult<CowSlice<'de, u8>, R>
    requires few { kind < 8 }
    requires starts { StartsWithMajor (input_reading R.reading input.old) kind }
    ensures string { OverInput R.reading
        (ReadsString cow_slice_items name.now kind) input.old result input.new }
    ensures lent { IfOk result
        (λ c. IsBorrowedSlice c ↔ ((input_reading R.reading input.old).lends ≡ true)) }
    ensures memory { IfErr result
        (LacksForString kind (input_reading R.reading input.old).left) }
    ensures looked { OverInput R.reading (Looks 2) input.old result input.new }
    ensures variant { IfErr result OfHead }
{
    let (_, count, _) = pull_head(name, input)?;
    pull_payload(alloc, name, input, count)
}

/// Returns the bytes as a text, in the same memory, or `None` if they are not UTF-8.
fn owned_text_of(bytes: Vec<u8>) -> Option<String>
    ensures { MatchOption result (¬ IsUtf8 bytes.items)
        (λ s. (string_bytes s ≡ bytes.items) × IsUtf8 bytes.items) }
{
    as_text(&bytes)?;
    Some(unsafe { String::from_utf8_unchecked(bytes) })
}

/// Returns the payload as a text, lent if the payload is, or `None` if it is not UTF-8.
fn text_of<'de>(payload: CowSlice<'de, u8>) -> Option<CowStr<'de>>
    ensures text { MatchOption result (¬ IsUtf8 (cow_slice_items payload.entry))
        (λ s. (cow_str_bytes s ≡ cow_slice_items payload.entry) × IsUtf8 (cow_str_bytes s)) }
    ensures lent { IfSome result (λ s. IsBorrowedStr s ↔ IsBorrowedSlice payload.entry) }
{
    match payload {
        CowSlice::Borrowed(bytes) => Some(CowStr::Borrowed(as_text(bytes)?)),
        CowSlice::Owned(bytes) => Some(CowStr::Owned(owned_text_of(bytes)?)),
    }
}

/// Reads a byte string whose first byte has its major type, lent if the input lends.
#[tactic(auto, using(crate::proofs::StringReads::bytes_read))]
pub(crate) fn pull_peeked_slice<'de, R: Read>(
    alloc: Global,
    input: &mut Input<'de, R>,
) -> ReadResult<CowSlice<'de, u8>, R>
    requires { StartsWithMajor (input_reading R.reading input.old) 2 }
    ensures bytes { OverInput R.reading ReadsByteSlice input.old result input.new }
    ensures lent { IfOk result
        (λ c. IsBorrowedSlice c ↔ ((input_reading R.reading input.old).lends ≡ true)) }
    ensures memory { IfErr result
        (LacksForString 2 (input_reading R.reading input.old).left) }
    ensures looked { OverInput R.reading (Looks 2) input.old result input.new }
    ensures variant { IfErr result OfHead }
{
    pull_peeked_string(alloc, "bytes", input, 2)
}

/// Reads a byte string, lent if the input lends.
#[tactic(auto, using(crate::proofs::PartRefusals::byte_kind))]
pub fn pull_slice<'de, R: Read>(
    alloc: Global,
    input: &mut Input<'de, R>,
) -> ReadResult<CowSlice<'de, u8>, R>
    ensures bytes { OverInput R.reading ReadsByteSlice input.old result input.new }
    ensures lent { IfOk result
        (λ c. IsBorrowedSlice c ↔ ((input_reading R.reading input.old).lends ≡ true)) }
    ensures memory { IfErr result
        (LacksForString 2 (input_reading R.reading input.old).left) }
    ensures looked { OverInput R.reading (Looks 3) input.old result input.new }
    ensures variant { IfErr result OfHead }
{
    peek_major("bytes", input, 2, 2)?;
    pull_peeked_slice(alloc, input)
}

/// Reads a text whose first byte has its major type, lent if the input lends.
#[tactic(auto, using(crate::proofs::PartRefusals::kind_text))]
pub(crate) fn pull_peeked_str<'de, R: Read>(
    alloc: Global,
    name: &str,
    input: &mut Input<'de, R>,
) -> ReadResult<CowStr<'de>, R>
    requires { StartsWithMajor (input_reading R.reading input.old) 3 }
    ensures text { OverInput R.reading (ReadsStr name.now) input.old result input.new }
    ensures lent { IfOk result
        (λ s. IsBorrowedStr s ↔ ((input_reading R.reading input.old).lends ≡ true)) }
    ensures memory { IfErr result
        (LacksForString 3 (input_reading R.reading input.old).left) }
    ensures looked { OverInput R.reading (Looks 2) input.old result input.new }
    ensures variant { IfErr result OfText }
{
    let payload = pull_peeked_string(alloc, name, input, 3)?;
    match text_of(payload) {
        Some(text) => Ok(text),
        None => Err(DecodeError::RequireUtf8 {
            name: Name::new(name),
        }),
    }
}

/// Returns the refusal of a payload that is not a text.
#[cold]
#[inline(never)]
pub(crate) fn no_text<E>(name: &str) -> DecodeError<E>
    ensures { (kept : Name) × (result ≡ DecodeError.RequireUtf8 kept) × Names kept name.now }
{
    DecodeError::RequireUtf8 {
        name: Name::new(name),
    }
}

/// Returns the text at the front, and how many bytes it has with its head.
#[inline(always)]
fn split_text(front: &[u8]) -> Option<(&str, usize)>
    ensures { IfSome result (λ p. (rest : List ℕ) × IsFront front.now (text p.0.now) rest
        × (p.1 + length rest ≡ length front.now)) }
{
    let (major, count, following) = split_head(front)?;
    if major != 3 {
        return None;
    }
    let (payload, rest) = split_payload(following, count)?;
    Some((as_text(payload)?, front.len() - rest.len()))
}

/// Copies a text to newly allocated memory. An empty text takes no memory.
fn copy_text(alloc: Global, text: &str) -> Result<String, AllocError>
    ensures text { IfOk result (λ s. string_bytes s ≡ text.now) }
    ensures memory { IfErr result (λ _. 0 < length text.now) }
{
    if text.len() == 0 {
        return Ok(String::new(alloc));
    }
    String::from_str(alloc, text)
}

/// Takes the text at the front into newly allocated memory, if the input does not lend and all of
/// the text is at hand. Else, or if memory runs out, takes nothing.
fn take_copied<R: Read>(
    alloc: Global,
    input: &mut Input<'_, R>,
) -> Result<Option<String>, AllocError>
    ensures taken { IfOk result (λ o. MatchOption o
        (input_reading R.reading input.new ≡ input_reading R.reading input.old)
        (λ s. TakesFront (leaf view_text) (input_reading R.reading input.old) (string_bytes s)
        (input_reading R.reading input.new))) }
    ensures lends { IfOk result
        (λ o. IfSome o (λ _. (input_reading R.reading input.old).lends ≡ false)) }
    ensures looked { IfOk result
        (λ o. IfSome o (λ _. LooksAtTaken 2 0 (input_reading R.reading input.old)
        (input_reading R.reading input.new))) }
    ensures wanted { IfErr result
        (λ _. LacksToCopy (input_reading R.reading input.old) (input_reading R.reading input.new)) }
{
    if input.rest().is_some() {
        return Ok(None);
    }
    let Some((text, count)) = split_text(input.at_hand()) else {
        return Ok(None);
    };
    let copy = copy_text(alloc, text)?;
    if input.take_at_hand(count) {
        Ok(Some(copy))
    } else {
        Ok(None)
    }
}

/// Reads a text byte by byte, so that a refusal names its cause.
#[tactic(auto, using(crate::proofs::PartRefusals::byte_text))]
#[cold]
#[inline(never)]
fn pull_str_slowly<'de, R: Read>(
    alloc: Global,
    name: &str,
    input: &mut Input<'de, R>,
) -> ReadResult<CowStr<'de>, R>
    ensures text { OverInput R.reading (ReadsStr name.now) input.old result input.new }
    ensures lent { IfOk result
        (λ s. IsBorrowedStr s ↔ ((input_reading R.reading input.old).lends ≡ true)) }
    ensures memory { IfErr result
        (LacksForString 3 (input_reading R.reading input.old).left) }
    ensures looked { OverInput R.reading (Looks 3) input.old result input.new }
    ensures variant { IfErr result OfText }
{
    peek_major(name, input, 3, 3)?;
    pull_peeked_str(alloc, name, input)
}

/// Reads a text, lent if the input lends. Refusals carry the name.
#[inline(always)]
pub fn pull_str<'de, R: Read>(
    alloc: Global,
    name: &str,
    input: &mut Input<'de, R>,
) -> ReadResult<CowStr<'de>, R>
    ensures text { OverInput R.reading (ReadsStr name.now) input.old result input.new }
    ensures lent { IfOk result
        (λ s. IsBorrowedStr s ↔ ((input_reading R.reading input.old).lends ≡ true)) }
    ensures memory { IfErr result
        (LacksForString 3 (input_reading R.reading input.old).left) }
    ensures looked { OverInput R.reading (Looks 3) input.old result input.new }
    ensures variant { IfErr result OfText }
{
    if let Some(payload) = input.take_string(3) {
        return match as_text(payload) {
            Some(text) => Ok(CowStr::Borrowed(text)),
            None => Err(no_text(name)),
        };
    }
    match take_copied(alloc, input) {
        Ok(Some(text)) => Ok(CowStr::Owned(text)),
        Ok(None) => pull_str_slowly(alloc, name, input),
        Err(_) => Err(DecodeError::OutOfMemory),
    }
}

/// Returns the text in memory of its own. An empty text takes no memory.
fn own_text(alloc: Global, text: CowStr<'_>) -> Result<String, AllocError>
    ensures text { IfOk result (λ s. string_bytes s ≡ cow_str_bytes text.entry) }
    ensures memory { IfErr result (λ _. 0 < length (cow_str_bytes text.entry)) }
{
    if text.len() == 0 {
        return Ok(String::new(alloc));
    }
    text.into_owned(alloc)
}

/// Returns the bytes in memory of their own. No bytes take no memory.
fn own_bytes(alloc: Global, bytes: CowSlice<'_, u8>) -> Result<Vec<u8>, AllocError>
    ensures bytes { IfOk result (λ v. v.items ≡ cow_slice_items bytes.entry) }
    ensures memory { IfErr result (λ _. 0 < length (cow_slice_items bytes.entry)) }
{
    if bytes.len() == 0 {
        return Ok(Vec::new(alloc));
    }
    bytes.into_owned(alloc)
}

/// Reads a text whose first byte has its major type into memory of its own.
pub(crate) fn pull_peeked_owned_text<R: Read>(
    alloc: Global,
    input: &mut Input<'_, R>,
) -> ReadResult<String, R>
    requires { StartsWithMajor (input_reading R.reading input.old) 3 }
    ensures text { OverInput R.reading ReadsOwnedText input.old result input.new }
    ensures memory { IfErr result
        (LacksForString 3 (input_reading R.reading input.old).left) }
    ensures looked { OverInput R.reading (Looks 2) input.old result input.new }
    ensures variant { IfErr result OfText }
{
    match own_text(alloc, pull_peeked_str(alloc, "string", input)?) {
        Ok(text) => Ok(text),
        Err(_) => Err(DecodeError::OutOfMemory),
    }
}

/// Reads a text into memory of its own, even if the input lends.
#[tactic(auto, using(crate::proofs::PartRefusals::byte_text))]
pub fn pull_owned_text<R: Read>(alloc: Global, input: &mut Input<'_, R>) -> ReadResult<String, R>
    ensures text { OverInput R.reading ReadsOwnedText input.old result input.new }
    ensures memory { IfErr result
        (LacksForString 3 (input_reading R.reading input.old).left) }
    ensures looked { OverInput R.reading (Looks 3) input.old result input.new }
    ensures variant { IfErr result OfText }
{
    match own_text(alloc, pull_str(alloc, "string", input)?) {
        Ok(text) => Ok(text),
        Err(_) => Err(DecodeError::OutOfMemory),
    }
}

/// Reads a byte string whose first byte has its major type into memory of its own.
pub(crate) fn pull_peeked_owned_bytes<R: Read>(
    alloc: Global,
    input: &mut Input<'_, R>,
) -> ReadResult<Vec<u8>, R>
    requires { StartsWithMajor (input_reading R.reading input.old) 2 }
    ensures bytes { OverInput R.reading ReadsOwnedBytes input.old result input.new }
    ensures memory { IfErr result
        (LacksForString 2 (input_reading R.reading input.old).left) }
    ensures looked { OverInput R.reading (Looks 2) input.old result input.new }
    ensures variant { IfErr result OfHead }
{
    match own_bytes(alloc, pull_peeked_slice(alloc, input)?) {
        Ok(bytes) => Ok(bytes),
        Err(_) => Err(DecodeError::OutOfMemory),
    }
}

/// Reads a byte string into memory of its own, even if the input lends.
#[tactic(auto, using(crate::proofs::PartRefusals::byte_kind))]
pub fn pull_owned_bytes<R: Read>(alloc: Global, input: &mut Input<'_, R>) -> ReadResult<Vec<u8>, R>
    ensures bytes { OverInput R.reading ReadsOwnedBytes input.old result input.new }
    ensures memory { IfErr result
        (LacksForString 2 (input_reading R.reading input.old).left) }
    ensures looked { OverInput R.reading (Looks 3) input.old result input.new }
    ensures variant { IfErr result OfHead }
{
    peek_major("bytes", input, 2, 2)?;
    pull_peeked_owned_bytes(alloc, input)
}

/// Returns the character of a text that has exactly one.
#[tactic(auto, using(crate::proofs::Characters::two_chars, crate::proofs::Characters::one_char))]
fn only_char(text: &str) -> Option<char>
    ensures { result ≡ only (chars text.now) }
{
    let mut chars = text.chars();
    let first = chars.next()?;
    match chars.next() {
        Some(_) => None,
        None => Some(first),
    }
}

/// Reads a text of one character.
#[tactic(auto, using(crate::proofs::PartRefusals::text_char))]
pub fn pull_char<R: Read>(alloc: Global, input: &mut Input<'_, R>) -> ReadResult<char, R>
    ensures character { OverInput R.reading ReadsChar input.old result input.new }
    ensures memory { IfErr result
        (LacksForString 3 (input_reading R.reading input.old).left) }
    ensures looked { OverInput R.reading (Looks 3) input.old result input.new }
    ensures variant { IfErr result OfChar }
{
    let text = pull_str(alloc, "string", input)?;
    match only_char(text.as_str()) {
        Some(c) => Ok(c),
        None => Err(DecodeError::custom("Char must be one character")),
    }
}
