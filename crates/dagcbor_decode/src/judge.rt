//! Judges bytes, by finding what comes after the item with which they begin. If they begin with an
//! item, its head is split off and nothing more is asked. If not, or if a byte is missing, its
//! parts are read one by one to find the cause. The cause and its place are kept apart from the
//! results, and lists and maps return how many bytes are left. So results stay in registers.

ghost use Rattle.std.specs.Prelude.{ℕ, List, ◌≡◌, ◌≤◌, ◌-◌, None, option_map, length, drop, MatchOption};
ghost use Rattle.dagcbor_decode.specs.Told.{left_or, left_of, rest_or, skim, why, front_of, IsRefused};
ghost use Rattle.dagcbor_decode.specs.Decode.{got, refused, key_of, items_of, entries_of, item_of};

use crate::cause::Stop;
use crate::front::{after_leaf, split_key};
use crate::part::{follows, front_of, key_of};
use dagcbor_core::split_head;

/// Returns a key that may come after the previous one, and the bytes after it.
#[inline(always)]
fn split_next_key<'b>(previous: &Option<&[u8]>, bytes: &'b [u8]) -> Option<(&'b [u8], &'b [u8])>
    ensures { MatchOption result
        (IsRefused (key_of (option_map (λ s. s.now) previous.now) bytes.now))
        (λ p. key_of (option_map (λ s. s.now) previous.now) bytes.now ≡ got p.0.now p.1.now) }
{
    let (key, rest) = split_key(bytes)?;
    if !follows(previous, key) {
        return None;
    }
    Some((key, rest))
}

/// Puts into `stop` why no key that may come after the previous one is at the front.
#[cold]
#[inline(never)]
fn refuse_key(previous: &Option<&[u8]>, bytes: &[u8], stop: &mut Stop)
    requires { IsRefused (key_of (option_map (λ s. s.now) previous.now) bytes.now) }
    ensures { key_of (option_map (λ s. s.now) previous.now) bytes.now
        ≡ refused (why stop.new.cause) stop.new.left }
{
    match key_of(previous, bytes) {
        Ok(_) => unreachable!(),
        Err(e) => *stop = e,
    }
}

/// Puts into `stop` why the bytes begin with neither a leaf nor the head of a list or map for which
/// steps are left.
#[cold]
#[inline(never)]
fn refuse_item(steps: usize, bytes: &[u8], stop: &mut Stop)
    requires { IsRefused (front_of steps bytes.now) }
    ensures { front_of steps bytes.now ≡ refused (why stop.new.cause) stop.new.left }
{
    match front_of(steps, bytes) {
        Ok(_) => unreachable!(),
        Err(e) => *stop = e,
    }
}

/// Returns the last `left` bytes.
#[inline(always)]
fn last(bytes: &[u8], left: usize) -> &[u8]
    requires { left ≤ length bytes.now }
    ensures { result.now ≡ drop (length bytes.now - left) bytes.now }
{
    bytes.split_at(bytes.len() - left).1
}

/// Returns the bytes after an item for which `steps` steps are left. Each step takes stack.
#[cycle(judge)]
#[inline(always)]
pub(crate) fn judge_item<'b>(steps: usize, bytes: &'b [u8], stop: &mut Stop) -> Option<&'b [u8]>
    requires { steps ≤ 1024 }
    ensures { rest_or result stop.new ≡ skim (item_of steps bytes.now) }
{
    if let Some((major, argument, more)) = split_head(bytes) {
        if major == 4 {
            if steps >= 2 {
                let left = judge_items(steps, argument, more, stop)?;
                return Some(last(more, left));
            }
        } else if major == 5 {
            if steps >= 2 {
                let left = judge_entries(steps, argument, more, stop)?;
                return Some(last(more, left));
            }
        } else if steps >= 1 {
            if let Some(rest) = after_leaf(major, argument, more) {
                return Some(rest);
            }
        }
    }
    refuse_item(steps, bytes, stop);
    None
}

/// Returns how many bytes are left after `count` items of a list for which `steps` steps are left.
#[cycle(judge)]
#[inline(never)]
fn judge_items(steps: usize, count: u64, bytes: &[u8], stop: &mut Stop) -> Option<usize>
    requires some { 2 ≤ steps }
    requires few { steps ≤ 1024 }
    ensures { left_or result stop.new ≡ left_of (items_of (item_of (steps - 2)) count bytes.now) }
{
    let mut rest = bytes;
    let mut more = count;
    while more > 0 {
        rest = judge_item(steps - 2, rest, stop)?;
        more -= 1;
    }
    Some(rest.len())
}

/// Returns how many bytes are left after `count` entries of a map for which `steps` steps are left.
#[cycle(judge)]
#[inline(never)]
fn judge_entries(steps: usize, count: u64, bytes: &[u8], stop: &mut Stop) -> Option<usize>
    requires some { 2 ≤ steps }
    requires few { steps ≤ 1024 }
    ensures { left_or result stop.new
        ≡ left_of (entries_of (item_of (steps - 2)) count None bytes.now) }
{
    let mut previous = None;
    let mut rest = bytes;
    let mut more = count;
    while more > 0 {
        let Some((key, value)) = split_next_key(&previous, rest) else {
            refuse_key(&previous, rest, stop);
            return None;
        };
        rest = judge_item(steps - 2, value, stop)?;
        previous = Some(key);
        more -= 1;
    }
    Some(rest.len())
}
