//! What a path leads to in a block.

ghost use Rattle.std.specs.Prelude.{IfOk, IfSome};
ghost use Rattle.ipld_paths.specs.Parts.{EndsWith};
ghost use Rattle.ipld_paths.specs.Finding.{StandAt, StopsInBlock};
ghost use Rattle.abi_calls.specs.Finds.{TellsFound, IsFindAnswer, IsPartAnswer};
ghost use Rattle.abi_calls.specs.Finds.{IsFollowAnswer, IsPassed};

use crate::code::{kind_code, refusal_code};
use dagcbor_core::DecodeError;
use ipld_paths::{Item, Stop, find_segments, find_slice, follow_slice, next_segment};
use std::convert::Infallible;
use std::str::from_utf8;

/// The number returned if the path leads nowhere.
const NOTHING: i32 = -36;

/// The number returned if the path is not UTF-8 text.
const NO_TEXT: i32 = -37;

/// Writes where the item that was found in the block begins and ends, if one was. Returns the
/// number of its kind, or of why there is none.
#[tactic(auto, using(crate::proofs::Finding::ends_within))]
fn put_item(
    block: &[u8],
    found: &Result<Option<Item<'_>>, DecodeError<Infallible>>,
    place: &mut usize,
    end: &mut usize,
) -> i32
    requires { IfOk found.now (λ o. IfSome o (λ item. StandAt block.now item.place item.bytes.now)) }
    ensures { TellsFound found.now (place.old, end.old) (place.new, end.new) result }
{
    match found {
        Ok(Some(item)) => {
            *place = item.place;
            *end = item.place + item.bytes.len();
            kind_code(item.kind)
        }
        Ok(None) => NOTHING,
        Err(refusal) => refusal_code(refusal),
    }
}

/// Finds the item to which the path leads in the block. Returns the number of its kind, and where
/// it begins and ends; or the number of why there is none, and then `place` and `end` stay.
#[tactic(auto, using(crate::proofs::Finding::stands_in))]
pub fn put_found(block: &[u8], path: &[u8], place: &mut usize, end: &mut usize) -> i32
    ensures { IsFindAnswer block.now path.now (place.old, end.old) (place.new, end.new) result }
{
    let Ok(text) = from_utf8(path) else {
        return NO_TEXT;
    };
    put_item(block, &find_slice(block, text), place, end)
}

/// Finds the item to which one segment, taken whole, leads in the block. Returns the number of its
/// kind, and where it begins and ends; or the number of why there is none, and then `place` and
/// `end` stay.
#[tactic(auto, using(crate::proofs::Finding::stands_in))]
pub fn put_part(block: &[u8], segment: &[u8], place: &mut usize, end: &mut usize) -> i32
    ensures { IsPartAnswer block.now segment.now (place.old, end.old) (place.new, end.new) result }
{
    let Ok(text) = from_utf8(segment) else {
        return NO_TEXT;
    };
    put_item(block, &find_segments(block, &[text]), place, end)
}

/// Returns how many bytes of the path were passed if `left` is the rest: all of them if it has no
/// segment.
fn passed(path: &str, left: &str) -> usize
    requires { EndsWith path.now left.now }
    ensures { IsPassed path.now left.now result }
{
    match next_segment(left) {
        Some(_) => path.len() - left.len(),
        None => path.len(),
    }
}

/// Writes where the item begins and ends at which a walk along the path stopped in the block, and
/// how many bytes of the path were passed. Returns the number of the item's kind.
fn put_stop(block: &[u8], path: &str, stop: &Stop<'_, '_>, places: &mut [usize; 3]) -> i32
    requires { StopsInBlock block.now path.now stop.now }
    ensures { IsFollowAnswer block.now path.now places.old places.new result }
{
    let begin = stop.item.place;
    let end = begin + stop.item.bytes.len();
    *places = [begin, end, passed(path, stop.left)];
    kind_code(stop.item.kind)
}

/// Finds the last item on the path in the block. Returns the number of its kind, and writes where
/// it begins and ends, and how many bytes of the path lead there. If the bytes are not a block, or
/// the path is not UTF-8 text, it returns the number of why, and the places stay.
pub fn put_followed(block: &[u8], path: &[u8], places: &mut [usize; 3]) -> i32
    ensures { IsFollowAnswer block.now path.now places.old places.new result }
{
    let Ok(text) = from_utf8(path) else {
        return NO_TEXT;
    };
    match follow_slice(block, text) {
        Ok(stop) => put_stop(block, text, &stop, places),
        Err(refusal) => refusal_code(&refusal),
    }
}
