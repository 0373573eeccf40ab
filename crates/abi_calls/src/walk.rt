//! A walk through a CAR file: what comes next in the bytes at hand.

ghost use Rattle.std.specs.Prelude.{◌≡◌, ◌+◌, ◌^◌, ◌<◌, ◌↔◌, length, IsTrue};
ghost use Rattle.files_car.specs.Versions.{HasSpan, begin_of, length_of};
ghost use Rattle.abi_calls.specs.Walks.{shown, may_grow, code_or_more, IsAtEnd, IsHeaderStep};
ghost use Rattle.abi_calls.specs.Walks.{IsSectionStep, IsFrontStep, IsNextAnswer};

use crate::code::fault_code;
use crate::header::header_code;
use crate::section::{places_of, section_code};
use files_car::{CarError, Span, file_span, judge_header, split_section};

/// The state of a walk through a CAR file. All zeros at its beginning.
#[repr(C)]
#[derive(Clone, Copy, Debug, PartialEq, Eq)]
pub struct CarWalk {
    /// The offset in the file of the next byte that the walk needs.
    pub place: u64,
    /// The offset at which the sections end, once the version is known; 2^64 - 1 for version 1.
    pub end: u64,
    /// The version of the file, or 0 until it is known.
    pub version: u32,
    /// 0 if the header comes next, and else 1.
    pub step: u32,
}

/// The numbers returned besides verdicts and faults.
const MORE: i32 = 10;

const HEADER: i32 = 11;

const END: i32 = 12;

const INVALID_OFFSET: i32 = -35;

/// Returns the bytes at hand that belong to the file of version 1.
fn shown<'a>(walk: &CarWalk, bytes: &'a [u8]) -> &'a [u8]
    ensures { result.now ≡ shown walk.now bytes.now }
{
    let left = walk.end.saturating_sub(walk.place);
    if left < bytes.len() as u64 {
        return &bytes[..left as usize];
    }
    bytes
}

/// Returns whether more bytes of that file may follow.
fn may_grow(walk: &CarWalk, bytes: &[u8], is_last: bool) -> bool
    ensures { result ≡ may_grow is_last walk.now bytes.now }
{
    !is_last && (bytes.len() as u64) < walk.end.saturating_sub(walk.place)
}

/// Returns the number of a cause, or that more bytes are needed.
fn code_or_more<E>(fault: &CarError<E>, may_grow: bool, code: i32) -> i32
    ensures { result ≡ code_or_more fault.now may_grow code }
{
    match fault {
        CarError::Truncated => { if may_grow { MORE } else { code } }
        _ => code,
    }
}

/// Takes the header, after the bytes that were passed, or returns the number of why there is none.
fn next_header(
    walk: &mut CarWalk,
    bytes: &[u8],
    passed: usize,
    is_last: bool,
    places: &mut [usize; 3],
) -> i32
    requires { passed + length bytes.now < 2 ^ 64 }
    ensures { IsHeaderStep is_last passed walk.old bytes.now places.old walk.new places.new
        result }
{
    let shown = shown(walk, bytes);
    match judge_header(shown) {
        Ok((block, rest)) => {
            let end = shown.len() - rest.len();
            *places = [passed, passed + (end - block.len()), passed + end];
            walk.place += end as u64;
            walk.step = 1;
            HEADER
        }
        Err(fault) => code_or_more(&fault, may_grow(walk, bytes, is_last), header_code(&fault)),
    }
}

/// Returns whether the sections are at their end.
fn is_at_end(walk: &CarWalk, bytes: &[u8], is_last: bool) -> bool
    ensures { IsTrue result ↔ IsAtEnd is_last walk.now bytes.now }
{
    walk.end <= walk.place || (walk.version != 2 && bytes.is_empty() && is_last)
}

/// Takes the section at the front, or finds the end, or returns the number of why there is neither.
fn next_section(
    walk: &mut CarWalk,
    bytes: &[u8],
    is_last: bool,
    is_unjudged: bool,
    places: &mut [usize; 3],
) -> i32
    ensures { IsSectionStep is_last is_unjudged walk.old bytes.now places.old walk.new places.new
        result }
{
    if is_at_end(walk, bytes, is_last) {
        return END;
    }
    let shown = shown(walk, bytes);
    match split_section(shown) {
        Ok((section, rest)) => {
            *places = places_of(shown, &section, rest);
            walk.place += (shown.len() - rest.len()) as u64;
            section_code(&section, is_unjudged)
        }
        Err(fault) => code_or_more(&fault, may_grow(walk, bytes, is_last), fault_code(&fault)),
    }
}

/// Takes the header of the file of version 1 that is so placed in a file of version 2.
fn next_in_span(
    walk: &mut CarWalk,
    bytes: &[u8],
    span: Span,
    is_last: bool,
    places: &mut [usize; 3],
) -> i32
    requires whole { HasSpan bytes.now }
    requires begin { span.begin ≡ begin_of bytes.now }
    requires long { span.length ≡ length_of bytes.now }
    ensures { IsFrontStep is_last walk.old bytes.now places.old walk.new places.new result }
{
    let Some(end) = walk.place.checked_add(span.begin + span.length) else {
        return INVALID_OFFSET;
    };
    walk.place += span.begin;
    walk.end = end;
    walk.version = 2;
    let passed = bytes.len().min(span.begin as usize);
    next_header(walk, &bytes[passed..], passed, is_last, places)
}

/// Takes the header of a file of either version that begins with these bytes, or returns the number
/// of why there is none.
fn next_at_front(walk: &mut CarWalk, bytes: &[u8], is_last: bool, places: &mut [usize; 3]) -> i32
    ensures { IsFrontStep is_last walk.old bytes.now places.old walk.new places.new result }
{
    match file_span(bytes) {
        Ok(Some(span)) => next_in_span(walk, bytes, span, is_last, places),
        Ok(None) => {
            walk.end = u64::MAX;
            walk.version = 1;
            next_header(walk, bytes, 0, is_last, places)
        }
        Err(fault) => code_or_more(&fault, !is_last, fault_code(&fault)),
    }
}

/// Takes what comes next in a CAR file; the bytes are those from `walk.place` on. `how` is the sum
/// of 1, if no bytes follow them, and of 2, if sections are not judged. Returns its number, and
/// writes the places of its parts.
pub fn next_of_car(walk: &mut CarWalk, bytes: &[u8], how: u32, places: &mut [usize; 3]) -> i32
    ensures { IsNextAnswer how walk.old bytes.now places.old walk.new places.new result }
{
    let is_last = how % 2 == 1;
    if walk.step != 0 {
        let is_unjudged = how / 2 % 2 == 1;
        next_section(walk, bytes, is_last, is_unjudged, places)
    } else if walk.version != 0 {
        next_header(walk, bytes, 0, is_last, places)
    } else {
        next_at_front(walk, bytes, is_last, places)
    }
}
