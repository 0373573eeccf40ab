//! Takes bytes, heads and payloads off any reader.

ghost use Rattle.std.specs.Prelude.{◌≡◌, ◌↔◌, ◌<◌, ◌≤◌, ◌+◌, ◌*◌, ◌%◌, ◌^◌, [], ◌∷◌, ◌++◌, ⊤, Some};
ghost use Rattle.std.specs.Prelude.{true, false, min, length, take, IfOk, IfErr, IfSome, IsTrue, IsOk};
ghost use Rattle.std.specs.Prelude.{MatchOption, MatchResult, MatchBool, List, ℕ};
ghost use Rattle.std.specs.Cow.{cow_slice_items, IsBorrowedSlice};
ghost use Rattle.std.specs.Int.{bytes_high_first};
ghost use Rattle.dagcbor_core.specs.Head.{head};
ghost use Rattle.dagcbor_heads.specs.Reading.{Fails, Stays, Keeps, KeepsSteps, TakesNothing};
ghost use Rattle.dagcbor_heads.specs.Fronts.{FindsEnd, Gathers, HasByte, HasHead, HasPayload};
ghost use Rattle.dagcbor_heads.specs.Fronts.{ShowsByte, Takes, TakesHead};
ghost use Rattle.dagcbor_core.specs.Causes.{ByteCause, ArgumentCause, HeadCause, PayloadCause};
ghost use Rattle.dagcbor_core.specs.Causes.{IsFaultOrLack, IsEndNamed, IsPayloadNamed, IsNamed};
ghost use Rattle.dagcbor_core.specs.Causes.{argument_width};
ghost use Rattle.dagcbor_heads.specs.Refusals.{RefusesPlainly, RefusesOrLacksMemory};
ghost use Rattle.dagcbor_heads.specs.Refusals.{RefusesOrLacksMemoryUnlent};
ghost use Rattle.dagcbor_heads.specs.Inputs.{input_reading, OverInput};
ghost use Rattle.dagcbor_heads.specs.Looking.{Looks, LooksSome, LooksOnce, LooksAtTaken, LooksAtMost};

use crate::input::Input;
use crate::read::{Read, ReadResult};
use arrayvec::ArrayVec;
use dagcbor_core::{DecodeError, Len, Name, least_argument};
use std::alloc::{AllocError, Global};
use std::borrow::CowSlice;

/// Returns whether this first byte of an item announces an indefinite length, or is a break.
pub fn is_indefinite(byte: u8) -> bool
    ensures { IsTrue result ↔ (byte % 32 ≡ 31) }
{
    byte & 0x1f == 0x1f
}

/// Returns the next byte without taking it, or `None` at the end.
#[tactic(auto, using(crate::proofs::Taking::first_shown, crate::proofs::Looking::once_shown))]
fn look<R: Read>(reader: &mut R) -> Result<Option<u8>, R::Error>
    ensures looked { LooksOnce (R.reading reader.old) (R.reading reader.new) }
    ensures found { MatchResult result
        (λ found. MatchOption found
        (FindsEnd (R.reading reader.old) (R.reading reader.new))
        (λ byte. ShowsByte (R.reading reader.old) byte (R.reading reader.new)
        × (1 ≤ length (R.reading reader.new).shown)))
        (λ _. Fails (R.reading reader.old) (R.reading reader.new)) }
{
    reader.prepare(1)?;
    Ok(reader.shown().first().copied())
}

/// Takes and returns the next byte, or `None` at the end.
fn next_byte<R: Read>(reader: &mut R) -> Result<Option<u8>, R::Error>
    ensures is_byte { IfOk result (λ found. IfSome found (λ byte. byte < 256)) }
    ensures taken { MatchResult result
        (λ found. MatchOption found
        (FindsEnd (R.reading reader.old) (R.reading reader.new))
        (λ byte. Takes (R.reading reader.old) (byte ∷ []) (R.reading reader.new)))
        (λ _. Fails (R.reading reader.old) (R.reading reader.new)) }
    ensures looked { MatchResult result
        (λ found. MatchOption found
        (LooksOnce (R.reading reader.old) (R.reading reader.new))
        (λ _. LooksAtTaken 2 0 (R.reading reader.old) (R.reading reader.new)))
        (λ _. LooksOnce (R.reading reader.old) (R.reading reader.new)) }
    ensures at_most { LooksAtMost 2 (R.reading reader.old) (R.reading reader.new) }
{
    match look(reader)? {
        Some(byte) => {
            reader.advance(1);
            Ok(Some(byte))
        }
        None => Ok(None),
    }
}

/// Returns whether no byte is left. Takes nothing.
pub fn is_at_end<R: Read>(reader: &mut R) -> Result<bool, R::Error>
    ensures looked { LooksOnce (R.reading reader.old) (R.reading reader.new) }
    ensures end { MatchResult result
        (λ end. MatchBool end
        (FindsEnd (R.reading reader.old) (R.reading reader.new))
        ((byte : ℕ) × ShowsByte (R.reading reader.old) byte (R.reading reader.new)))
        (λ _. Fails (R.reading reader.old) (R.reading reader.new)) }
{
    match look(reader)? {
        Some(_) => Ok(false),
        None => Ok(true),
    }
}

/// Returns the next byte without taking it. Refuses with `Eof` at the end.
pub fn peek_one<R: Read>(name: &str, reader: &mut R) -> ReadResult<u8, R>
    ensures shown { MatchResult result
        (λ byte. ShowsByte (R.reading reader.old) byte (R.reading reader.new))
        (λ e. RefusesPlainly (HasByte (R.reading reader.old)) ByteCause (R.reading reader.old) e
        (R.reading reader.new)) }
    ensures nothing { IfErr result
        (λ _. TakesNothing (R.reading reader.old) (R.reading reader.new)) }
    ensures variant { IfErr result (λ e. IsEndNamed name.now e) }
    ensures looked { LooksOnce (R.reading reader.old) (R.reading reader.new) }
{
    match look(reader) {
        Ok(Some(byte)) => Ok(byte),
        Ok(None) => Err(DecodeError::end(name, Len::Small(1))),
        Err(fault) => Err(DecodeError::Read(fault)),
    }
}

/// Takes and returns the next byte. Refuses with `Eof` at the end.
pub fn pull_one<R: Read>(name: &str, reader: &mut R) -> ReadResult<u8, R>
    ensures taken { MatchResult result
        (λ byte. Takes (R.reading reader.old) (byte ∷ []) (R.reading reader.new))
        (λ e. RefusesPlainly (HasByte (R.reading reader.old)) ByteCause (R.reading reader.old) e
        (R.reading reader.new)) }
    ensures nothing { IfErr result
        (λ _. TakesNothing (R.reading reader.old) (R.reading reader.new)) }
    ensures variant { IfErr result (λ e. IsEndNamed name.now e) }
    ensures looked { Looks 2 (R.reading reader.old) result (R.reading reader.new) }
    ensures at_most { LooksAtMost 2 (R.reading reader.old) (R.reading reader.new) }
{
    match next_byte(reader) {
        Ok(Some(byte)) => Ok(byte),
        Ok(None) => Err(DecodeError::end(name, Len::Small(1))),
        Err(fault) => Err(DecodeError::Read(fault)),
    }
}

/// Returns how many bytes of argument this additional information, from 24 to 27, announces.
fn argument_width(information: u8) -> u16
    requires low { 24 ≤ information }
    requires high { information ≤ 27 }
    ensures value { result ≡ argument_width information }
    ensures most { result ≤ 8 }
{
    match information {
        24 => 1,
        25 => 2,
        26 => 4,
        _ => 8,
    }
}

/// Takes the next `width` bytes, and returns their big-endian number.
#[tactic(auto, using(crate::proofs::Looking::some_then, crate::proofs::Looking::once_left))]
fn pull_argument<R: Read>(name: &str, reader: &mut R, width: u16) -> ReadResult<u64, R>
    requires { width ≤ 8 }
    ensures taken { MatchResult result
        (λ n. (n < 256 ^ width)
        × Takes (R.reading reader.old) (bytes_high_first width n) (R.reading reader.new))
        (λ e. RefusesPlainly (HasPayload width (R.reading reader.old)) (ArgumentCause width)
        (R.reading reader.old) e (R.reading reader.new)) }
    ensures stays { IfErr result (λ _. KeepsSteps (R.reading reader.old) (R.reading reader.new)) }
    ensures variant { IfErr result (λ e. IsEndNamed name.now e) }
    ensures looked { LooksSome 2 (R.reading reader.old) result (R.reading reader.new) }
    ensures at_most { LooksAtMost (2 * width) (R.reading reader.old) (R.reading reader.new) }
{
    let mut argument = 0u64;
    for _i in 0..width {
        match next_byte(reader) {
            Ok(Some(byte)) => argument = argument * 256 + u64::from(byte),
            Ok(None) => return Err(DecodeError::end(name, Len::Small(width))),
            Err(fault) => return Err(DecodeError::Read(fault)),
        }
    }
    Ok(argument)
}

/// Takes the head of the next item, and returns its major type, its argument and its first byte.
#[tactic(auto, using(crate::proofs::Refusing::end_named))]
pub fn pull_head<R: Read>(name: &str, reader: &mut R) -> ReadResult<(u8, u64, u8), R>
    ensures taken { MatchResult result
        (λ h. TakesHead (R.reading reader.old) h.0 h.1 h.2 (R.reading reader.new))
        (λ e. RefusesPlainly (HasHead (R.reading reader.old)) HeadCause (R.reading reader.old) e
        (R.reading reader.new)) }
    ensures stays { IfErr result (λ _. KeepsSteps (R.reading reader.old) (R.reading reader.new)) }
    ensures variant { IfErr result (λ e. IsNamed name.now e) }
    ensures looked { Looks 2 (R.reading reader.old) result (R.reading reader.new) }
    ensures at_most { LooksAtMost 18 (R.reading reader.old) (R.reading reader.new) }
{
    let first = pull_one(name, reader)?;
    let (major, information) = (first / 32, first % 32);
    if information < 24 {
        return Ok((major, u64::from(information), first));
    }
    if information == 31 {
        return Err(DecodeError::IndefiniteSize);
    }
    if information > 27 {
        return Err(DecodeError::unsupported(name, first));
    }
    let argument = pull_argument(name, reader, argument_width(information))?;
    if argument < least_argument(information) {
        return Err(DecodeError::NonMinimal {
            name: Name::new(name),
            found: first,
        });
    }
    Ok((major, argument, first))
}

/// Takes the next head byte by byte, and returns its argument.
#[cold]
#[inline(never)]
fn pull_head_argument_slowly<R: Read>(name: &str, reader: &mut R) -> ReadResult<u64, R>
    ensures taken { MatchResult result
        (λ n. (major first : ℕ)
        × TakesHead (R.reading reader.old) major n first (R.reading reader.new))
        (λ e. RefusesPlainly (HasHead (R.reading reader.old)) HeadCause (R.reading reader.old) e
        (R.reading reader.new)) }
    ensures stays { IfErr result (λ _. KeepsSteps (R.reading reader.old) (R.reading reader.new)) }
    ensures variant { IfErr result (λ e. IsNamed name.now e) }
    ensures looked { Looks 2 (R.reading reader.old) result (R.reading reader.new) }
    ensures at_most { LooksAtMost 18 (R.reading reader.old) (R.reading reader.new) }
{
    let (_, argument, _) = pull_head(name, reader)?;
    Ok(argument)
}

/// Takes the next head, and returns its argument. It is faster than `pull_head`, because it returns
/// only a number. A caller uses it if it knows the major type from the first byte.
#[inline(never)]
pub fn pull_head_argument<R: Read>(name: &str, reader: &mut R) -> ReadResult<u64, R>
    ensures taken { MatchResult result
        (λ n. (major first : ℕ)
        × TakesHead (R.reading reader.old) major n first (R.reading reader.new))
        (λ e. RefusesPlainly (HasHead (R.reading reader.old)) HeadCause (R.reading reader.old) e
        (R.reading reader.new)) }
    ensures stays { IfErr result (λ _. KeepsSteps (R.reading reader.old) (R.reading reader.new)) }
    ensures variant { IfErr result (λ e. IsNamed name.now e) }
    ensures looked { Looks 2 (R.reading reader.old) result (R.reading reader.new) }
    ensures at_most { LooksAtMost 18 (R.reading reader.old) (R.reading reader.new) }
{
    if let Some((_, argument, _)) = reader.take_head() {
        return Ok(argument);
    }
    pull_head_argument_slowly(name, reader)
}

/// Appends up to `want` of the bytes, and returns how many.
fn append_front(payload: &mut Vec<u8>, bytes: &[u8], want: u64) -> Result<usize, AllocError>
    ensures count { IfOk result (λ n. n ≡ min want (length bytes.now)) }
    ensures grows { IfOk result (λ n. payload.new.items ≡ payload.old.items ++ take n bytes.now) }
{
    let count = bytes.len().min(want as usize);
    payload.extend_from_slice(&bytes[..count])?;
    Ok(count)
}

/// Moves up to `want` of the next bytes to the end of the payload, and returns how many: 0 only at
/// the end.
fn gather_some<R: Read>(reader: &mut R, payload: &mut Vec<u8>, want: u64) -> ReadResult<usize, R>
    requires { 0 < want }
    ensures gathered { MatchResult result
        (λ n. Gathers (R.reading reader.old) payload.old.items want n payload.new.items
        (R.reading reader.new))
        (λ e. RefusesOrLacksMemory ⊤ (λ _ _. ⊥) (R.reading reader.old) e (R.reading reader.new)) }
    ensures stays { IfErr result (λ _. KeepsSteps (R.reading reader.old) (R.reading reader.new)) }
    ensures variant { IfErr result IsFaultOrLack }
    ensures looked { LooksSome 2 (R.reading reader.old) result (R.reading reader.new) }
    ensures at_most { MatchResult result
        (λ n. LooksAtMost (2 * n) (R.reading reader.old) (R.reading reader.new))
        (λ _. LooksAtMost want (R.reading reader.old) (R.reading reader.new)) }
{
    match reader.prepare(want as usize) {
        Ok(()) => {}
        Err(fault) => return Err(DecodeError::Read(fault)),
    }
    match append_front(payload, reader.shown(), want) {
        Ok(0) => Ok(0),
        Ok(count) => {
            reader.advance(count);
            Ok(count)
        }
        Err(_) => Err(DecodeError::OutOfMemory),
    }
}

/// Takes the next n bytes, gathered in a vector that grows as they come.
#[tactic(auto, using(crate::proofs::Refusing::payload_named))]
fn gather<R: Read>(alloc: Global, name: &str, reader: &mut R, n: u64) -> ReadResult<Vec<u8>, R>
    ensures empty { n ≡ 0 → IsOk result }
    ensures taken { MatchResult result
        (λ v. (length v.items ≡ n) × Takes (R.reading reader.old) v.items (R.reading reader.new))
        (λ e. RefusesOrLacksMemory (HasPayload n (R.reading reader.old)) (PayloadCause n)
        (R.reading reader.old) e (R.reading reader.new)) }
    ensures stays { IfErr result (λ _. KeepsSteps (R.reading reader.old) (R.reading reader.new)) }
    ensures variant { IfErr result (λ e. IsPayloadNamed name.now e) }
    ensures looked { LooksSome 2 (R.reading reader.old) result (R.reading reader.new) }
    ensures at_most { LooksAtMost (2 * n) (R.reading reader.old) (R.reading reader.new) }
{
    let mut payload = Vec::new(alloc);
    let mut left = n;
    while left > 0 {
        let count = gather_some(reader, &mut payload, left)?;
        if count == 0 {
            return Err(DecodeError::end(name, Len::new(n)));
        }
        left -= count as u64;
    }
    Ok(payload)
}

/// Takes the next n bytes: lent if the input is a slice, else gathered in memory.
pub fn pull_payload<'de, R: Read>(
    alloc: Global,
    name: &str,
    input: &mut Input<'de, R>,
    n: u64,
) -> ReadResult<CowSlice<'de, u8>, R>
    ensures taken { MatchResult result
        (λ c. (length (cow_slice_items c) ≡ n)
        × Takes (input_reading R.reading input.old) (cow_slice_items c)
        (input_reading R.reading input.new))
        (λ e. RefusesOrLacksMemoryUnlent (HasPayload n (input_reading R.reading input.old))
        (PayloadCause n)
        (input_reading R.reading input.old) e (input_reading R.reading input.new)) }
    ensures lent { IfOk result
        (λ c. IsBorrowedSlice c ↔ ((input_reading R.reading input.old).lends ≡ true)) }
    ensures empty { n ≡ 0 → IsOk result }
    ensures stays { IfErr result (λ _. KeepsSteps (input_reading R.reading input.old)
        (input_reading R.reading input.new)) }
    ensures variant { IfErr result (λ e. IsPayloadNamed name.now e) }
    ensures looked { OverInput R.reading (LooksSome 2) input.old result input.new }
    ensures at_most { LooksAtMost (2 * n) (input_reading R.reading input.old)
        (input_reading R.reading input.new) }
{
    match input {
        Input::Slice(reader) => match reader.lend(n) {
            Some(payload) => Ok(CowSlice::Borrowed(payload)),
            None => Err(DecodeError::end(name, Len::new(n))),
        },
        Input::Reader(reader) => Ok(CowSlice::Owned(gather(alloc, name, reader, n)?)),
    }
}

/// Appends up to `want` of the bytes, and returns how many.
fn copy_front<const CAP: usize>(payload: &mut ArrayVec<u8, CAP>, bytes: &[u8], want: u64) -> usize
    requires { length payload.old.items + want ≤ CAP }
    ensures count { result ≡ min want (length bytes.now) }
    ensures grows { payload.new.items ≡ payload.old.items ++ take result bytes.now }
{
    let count = bytes.len().min(want as usize);
    payload.try_extend_from_slice(&bytes[..count]).unwrap();
    count
}

/// Moves up to `want` of the next bytes to the end of the payload, and returns how many: 0 only at
/// the end.
fn copy_some<R: Read, const CAP: usize>(
    reader: &mut R,
    payload: &mut ArrayVec<u8, CAP>,
    want: u64,
) -> Result<usize, R::Error>
    requires some { 0 < want }
    requires room { length payload.old.items + want ≤ CAP }
    ensures gathered { MatchResult result
        (λ n. Gathers (R.reading reader.old) payload.old.items want n payload.new.items
        (R.reading reader.new))
        (λ _. Fails (R.reading reader.old) (R.reading reader.new)) }
    ensures looked { LooksSome 2 (R.reading reader.old) result (R.reading reader.new) }
    ensures at_most { MatchResult result
        (λ n. LooksAtMost (2 * n) (R.reading reader.old) (R.reading reader.new))
        (λ _. LooksAtMost 0 (R.reading reader.old) (R.reading reader.new)) }
{
    reader.prepare(want as usize)?;
    match copy_front(payload, reader.shown(), want) {
        0 => Ok(0),
        count => {
            reader.advance(count);
            Ok(count)
        }
    }
}

/// Takes the next n bytes, at most `CAP`, without allocating memory.
#[tactic(auto, using(crate::proofs::Looking::some_left, crate::proofs::Looking::some_both, crate::proofs::Looking::some_then))]
pub fn pull_short_payload<R: Read, const CAP: usize>(
    name: &str,
    reader: &mut R,
    n: u64,
) -> ReadResult<ArrayVec<u8, CAP>, R>
    requires { n ≤ CAP }
    ensures empty { n ≡ 0 → IsOk result }
    ensures taken { MatchResult result
        (λ v. (length v.items ≡ n) × Takes (R.reading reader.old) v.items (R.reading reader.new))
        (λ e. RefusesPlainly (HasPayload n (R.reading reader.old)) (PayloadCause n)
        (R.reading reader.old) e (R.reading reader.new)) }
    ensures stays { IfErr result (λ _. KeepsSteps (R.reading reader.old) (R.reading reader.new)) }
    ensures variant { IfErr result (λ e. IsEndNamed name.now e) }
    ensures looked { LooksSome 2 (R.reading reader.old) result (R.reading reader.new) }
    ensures at_most { LooksAtMost (2 * n) (R.reading reader.old) (R.reading reader.new) }
{
    let mut payload = ArrayVec::new();
    let mut left = n;
    while left > 0 {
        match copy_some(reader, &mut payload, left) {
            Ok(0) => return Err(DecodeError::end(name, Len::new(n))),
            Ok(count) => left -= count as u64,
            Err(fault) => return Err(DecodeError::Read(fault)),
        }
    }
    Ok(payload)
}
