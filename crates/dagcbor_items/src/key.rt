//! Reads the keys of maps: texts, each of which comes after the previous one in key order.

ghost use Rattle.std.specs.Prelude.{◌≡◌, ◌↔◌, true, false, IfOk, IsTrue, option_map, IfErr, IsUtf8};
ghost use Rattle.std.specs.Prelude.{IfSome, MatchOption, MatchBool, ◌++◌, ◌<◌, List, ℕ, length};
ghost use Rattle.std.specs.Cow.{cow_str_bytes, IsBorrowedStr};
ghost use Rattle.dagcbor_heads.specs.Inputs.{input_reading, OverInput};
ghost use Rattle.dagcbor_heads.specs.Looking.{Looks, LooksAtTaken};
ghost use Rattle.dagcbor_items.specs.Places.{Follows};
ghost use Rattle.ipld_tree.specs.Spelling.{text_spelling};
ghost use Rattle.dagcbor_items.specs.Entries.{ReadsKey, TakesKey, TakesKnownKey, IsNoKey, HasName};
ghost use Rattle.dagcbor_items.specs.Majors.{LacksForString};
ghost use Rattle.dagcbor_items.specs.Shapes.{view_text, leaf};
ghost use Rattle.dagcbor_items.specs.TypedReads.{TakesFront};
ghost use Rattle.dagcbor_items.specs.AnsweredVariants.{OfKey};

use crate::order;
use crate::strings::{no_text, pull_str};
use crate::utf8::as_text;
use dagcbor_core::DecodeError;
use dagcbor_heads::{Input, Read, ReadResult};
use std::alloc::Global;
use std::borrow::CowStr;
use std::str::from_utf8_unchecked;

/// Returns whether the key may come after the previous one.
fn follows(previous: &Option<CowStr<'_>>, key: &str) -> bool
    ensures { IsTrue result ↔ Follows (option_map cow_str_bytes previous.now) key.now }
{
    let before = previous.as_ref().map(|before| before.as_str().as_bytes());
    order::follows(&before, key.as_bytes())
}

/// Returns the bytes as a key, if it may come after the previous one.
#[inline(always)]
fn key_of<'de>(payload: &'de [u8], previous: &Option<CowStr<'de>>) -> Option<&'de str>
    ensures { MatchOption result
        (IsUtf8 payload.now → ¬ Follows (option_map cow_str_bytes previous.now) payload.now)
        (λ s. (s.now ≡ payload.now) × IsUtf8 payload.now
        × Follows (option_map cow_str_bytes previous.now) s.now) }
{
    let text = as_text(payload)?;
    if !follows(previous, text) {
        return None;
    }
    Some(text)
}

/// Takes the text at the front, if the input is a slice that has all of it. Returns the key, lent,
/// or its bytes if they are not a key that may come after the previous one. Else takes nothing.
#[inline(always)]
pub fn take_key<'de, R: Read>(
    input: &mut Input<'de, R>,
    previous: &Option<CowStr<'de>>,
) -> Option<Result<&'de str, &'de [u8]>>
    ensures key { MatchOption result
        (input.new ≡ input.old)
        (λ r. OverInput R.reading
        (TakesKey (option_map cow_str_bytes previous.now)) input.old r input.new) }
    ensures lends { IfSome result (λ _. (input_reading R.reading input.old).lends ≡ true) }
    ensures looked { IfSome result
        (λ _. LooksAtTaken 2 0 (input_reading R.reading input.old)
        (input_reading R.reading input.new)) }
{
    let payload = input.take_string(3)?;
    match key_of(payload, previous) {
        Some(key) => Some(Ok(key)),
        None => Some(Err(payload)),
    }
}

/// Returns whether the bytes are the same. Inlined, it is faster than `==` for a name that is
/// known.
#[inline(always)]
fn is_same(text: &[u8], wanted: &[u8]) -> bool
    requires { length text.now ≡ length wanted.now }
    ensures { MatchBool result (text.now ≡ wanted.now) (¬ (text.now ≡ wanted.now)) }
{
    for i in 0..wanted.len() {
        if text[i] != wanted[i] {
            return false;
        }
    }
    true
}

/// Returns whether the key is this name.
#[inline(always)]
pub fn is_name(key: &str, name: &str) -> bool
    ensures { MatchBool result (key.now ≡ name.now) (¬ (key.now ≡ name.now)) }
{
    if key.len() != name.len() {
        return false;
    }
    is_same(key.as_bytes(), name.as_bytes())
}

/// Returns the text at the front, whose head has one byte, and the bytes after it, if the text is
/// this name.
#[inline(always)]
fn split_name<'b>(front: &'b [u8], name: &str) -> Option<(&'b str, &'b [u8])>
    ensures { MatchOption result
        (length name.now < 24 →
        ¬ ((rest : List ℕ) × (front.now ≡ text_spelling name.now ++ rest)))
        (λ p. (length name.now < 24) × (p.0.now ≡ name.now)
        × (front.now ≡ text_spelling name.now ++ p.1.now)) }
{
    let wanted = name.as_bytes();
    if wanted.len() > 23 {
        return None;
    }
    let (first, following) = front.split_first()?;
    if usize::from(*first) != 0x60 + wanted.len() {
        return None;
    }
    let (text, rest) = following.split_at_checked(wanted.len())?;
    if !is_same(text, wanted) {
        return None;
    }
    Some((unsafe { from_utf8_unchecked(text) }, rest))
}

/// Takes this name, if and only if the input is a slice that begins with it, its head has one byte,
/// and it may come after the previous key. Else takes nothing.
#[inline(always)]
pub fn take_name<'de, R: Read>(
    input: &mut Input<'de, R>,
    previous: &Option<CowStr<'de>>,
    name: &str,
) -> Option<&'de str>
    ensures taken { MatchOption result
        ((input.new ≡ input.old) × (¬ HasName (option_map cow_str_bytes previous.now) name.now
        (input_reading R.reading input.old)))
        (λ key. (key.now ≡ name.now)
        × HasName (option_map cow_str_bytes previous.now) name.now
        (input_reading R.reading input.old)
        × TakesFront (leaf view_text) (input_reading R.reading input.old) name.now
        (input_reading R.reading input.new)) }
    ensures looked { IfSome result
        (λ _. LooksAtTaken 2 0 (input_reading R.reading input.old)
        (input_reading R.reading input.new)) }
{
    let front = input.rest()?;
    let (key, _following) = split_name(front, name)?;
    if !follows(previous, name) {
        return None;
    }
    let _taken = input.lend(1 + name.len() as u64)?;
    Some(key)
}

/// Takes this name, if it is at hand, its head has one byte, and it may come after the previous
/// key. Else takes nothing.
#[inline(always)]
fn take_name_at_hand<R: Read>(reader: &mut R, last: &Option<CowStr<'_>>, name: &str) -> bool
    ensures { MatchBool result
        (TakesKnownKey (option_map cow_str_bytes last.now) name.now (R.reading reader.old)
        (R.reading reader.new))
        (R.reading reader.new ≡ R.reading reader.old) }
{
    let Some((_key, _following)) = split_name(reader.at_hand(), name) else {
        return false;
    };
    if !follows(last, name) {
        return false;
    }
    reader.take_at_hand(1 + name.len())
}

/// Takes the name, among these, that is at hand and may come after the previous key. It may take
/// nothing.
#[inline(always)]
pub fn take_one_of<'n, R: Read>(
    reader: &mut R,
    previous: &Option<CowStr<'_>>,
    names: &[&'n str],
) -> Option<&'n str>
    ensures { MatchOption result
        (R.reading reader.new ≡ R.reading reader.old)
        (λ key. TakesKnownKey (option_map cow_str_bytes previous.now) key.now
        (R.reading reader.old) (R.reading reader.new)) }
{
    for name in names {
        if take_name_at_hand(reader, previous, name) {
            return Some(name);
        }
    }
    None
}

/// Returns the refusal of a text's bytes that are not a key.
#[cold]
#[inline(never)]
pub fn no_key<E>(payload: &[u8]) -> DecodeError<E>
    ensures { IsNoKey payload.now result }
{
    match as_text(payload) {
        Some(_) => DecodeError::UnorderedKey,
        None => no_text("map key"),
    }
}

/// Reads a key after the previous one, lent if the input lends.
#[inline(always)]
pub fn read_key<'de, R: Read>(
    alloc: Global,
    input: &mut Input<'de, R>,
    previous: &Option<CowStr<'de>>,
) -> ReadResult<CowStr<'de>, R>
    ensures key { OverInput R.reading
        (ReadsKey (option_map cow_str_bytes previous.now)) input.old result input.new }
    ensures lent { IfOk result
        (λ k. IsBorrowedStr k ↔ ((input_reading R.reading input.old).lends ≡ true)) }
    ensures memory { IfErr result
        (LacksForString 3 (input_reading R.reading input.old).left) }
    ensures looked { OverInput R.reading (Looks 3) input.old result input.new }
    ensures variant { IfErr result OfKey }
{
    match take_key(input, previous) {
        Some(Ok(key)) => Ok(CowStr::Borrowed(key)),
        Some(Err(payload)) => Err(no_key(payload)),
        None => read_key_slowly(alloc, input, previous),
    }
}

/// Reads a key after the previous one, if the input is not a slice with all of its text.
#[tactic(auto, using(crate::proofs::PartRefusals::text_key))]
#[inline(always)]
fn read_key_slowly<'de, R: Read>(
    alloc: Global,
    input: &mut Input<'de, R>,
    previous: &Option<CowStr<'de>>,
) -> ReadResult<CowStr<'de>, R>
    ensures key { OverInput R.reading
        (ReadsKey (option_map cow_str_bytes previous.now)) input.old result input.new }
    ensures lent { IfOk result
        (λ k. IsBorrowedStr k ↔ ((input_reading R.reading input.old).lends ≡ true)) }
    ensures memory { IfErr result
        (LacksForString 3 (input_reading R.reading input.old).left) }
    ensures looked { OverInput R.reading (Looks 3) input.old result input.new }
    ensures variant { IfErr result OfKey }
{
    let key = pull_str(alloc, "map key", input)?;
    if !follows(previous, key.as_str()) {
        return Err(DecodeError::UnorderedKey);
    }
    Ok(key)
}
