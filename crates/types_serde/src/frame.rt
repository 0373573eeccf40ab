//! What is open: the whole value, a list, a map or a link, as offsets in the buffer of all bytes.

ghost use Rattle.std.specs.Prelude.{IfErr, ◌≡◌, ◌≢◌, ◌≤◌, ◌<◌, ◌+◌, ◌++◌, ◌∷◌, length, take, drop, OnOk};
ghost use Rattle.dagcbor_core.specs.Head.{head};
ghost use Rattle.types_serde.specs.Refusing.{LacksMemory, LacksMemoryOrPlace, ItemRefused};

use crate::error::Refusal;
use dagcbor_heads::{Write, push_head, push_head_at_once};

/// What is open, and what it expects next.
#[derive(Clone, Copy, Default, Drop, PartialEq, Eq)]
pub(crate) enum Stage {
    /// The whole value, before its item.
    #[default]
    Vacant,
    /// The whole value, after its item.
    Full,
    /// A list.
    List,
    /// A map that expects a key.
    Rests,
    /// A map that takes the next value as a key.
    WantsKey,
    /// A map whose key waits for its value.
    WantsValue,
    /// A map into which the entries of the next map go.
    WantsMap,
    /// A link before its CID.
    Link,
    /// A link after its CID.
    Linked,
}

/// A list, map, link or whole value that is open. Its bytes come after those of what is around it,
/// and so do its entries.
#[derive(Clone, Copy, Default, Drop)]
pub(crate) struct Frame {
    pub(crate) stage: Stage,
    /// Where its bytes begin. A list or map begins with one byte, which its head replaces later.
    pub(crate) place: usize,
    /// Where its entries begin.
    pub(crate) first: usize,
    /// How many items a list has.
    pub(crate) count: usize,
    /// Where the key begins that waits for its value.
    pub(crate) key: usize,
    /// How many open maps give their entries to this one.
    pub(crate) flat: usize,
}

impl Frame {
    #[inline(always)]
    pub(crate) fn new(stage: Stage, place: usize, first: usize) -> Frame
        ensures { result ≡ record {
          stage = stage;
          place = place;
          first = first;
          count = 0;
          key = 0;
          flat = 0;
        } }
    {
        Frame {
            stage,
            place,
            first,
            count: 0,
            key: 0,
            flat: 0,
        }
    }
}

/// Appends the bytes.
pub(crate) fn push(out: &mut Vec<u8>, bytes: &[u8]) -> Result<(), Refusal>
    ensures appended { OnOk result (out.new.items ≡ out.old.items ++ bytes.now) }
    ensures refused { IfErr result LacksMemory }
{
    out.extend_from_slice(bytes)
        .map_err(|_| Refusal::OutOfMemory)
}

/// Appends the shortest head.
#[inline(always)]
pub(crate) fn append_head(out: &mut Vec<u8>, major: u8, argument: u64) -> Result<(), Refusal>
    requires { major ≤ 7 }
    ensures appended { OnOk result (out.new.items ≡ out.old.items ++ head major argument) }
    ensures refused { IfErr result LacksMemory }
{
    if push_head_at_once(out, major, argument) {
        return Ok(());
    }
    append_slowly(out, major, argument, &[])
}

/// Appends the shortest head and the bytes after it.
#[tactic(auto, unfolding(dagcbor_core::specs::Head::head))]
#[inline(always)]
pub(crate) fn append(
    out: &mut Vec<u8>,
    major: u8,
    argument: u64,
    payload: &[u8],
) -> Result<(), Refusal>
    requires { major ≤ 7 }
    ensures appended { OnOk result (out.new.items ≡ out.old.items ++ (head major argument ++ payload.now)) }
    ensures refused { IfErr result LacksMemory }
{
    if argument > 23 {
        return append_slowly(out, major, argument, payload);
    }
    if out.push(32 * major + argument as u8).is_err() {
        return Err(Refusal::OutOfMemory);
    }
    push(out, payload)
}

#[inline(never)]
fn append_slowly(out: &mut Vec<u8>, major: u8, argument: u64, payload: &[u8]) -> Result<(), Refusal>
    requires { major ≤ 7 }
    ensures appended { OnOk result (out.new.items ≡ out.old.items ++ (head major argument ++ payload.now)) }
    ensures refused { IfErr result LacksMemory }
{
    if push_head(out, major, argument).is_err() {
        return Err(Refusal::OutOfMemory);
    }
    push(out, payload)
}

/// Appends a link: its tag, and a byte string of a zero byte and the CID.
#[tactic(auto, unfolding(dagcbor_core::specs::Head::head))]
#[inline(always)]
pub(crate) fn append_link(out: &mut Vec<u8>, cid: &[u8]) -> Result<(), Refusal>
    ensures appended { OnOk result (out.new.items
        ≡ out.old.items ++ (head 6 42 ++ (head 2 (length cid.now + 1) ++ 0x00 ∷ cid.now))) }
    ensures refused { IfErr result LacksMemory }
{
    let count = cid.len();
    if count >= 23
        && count < 255
        && out.push_at_once(&[0xd8, 0x2a, 0x58, count as u8 + 1, 0x00], cid)
    {
        return Ok(());
    }
    append_link_slowly(out, cid)
}

#[tactic(auto, unfolding(dagcbor_core::specs::Head::head))]
#[inline(never)]
fn append_link_slowly(out: &mut Vec<u8>, cid: &[u8]) -> Result<(), Refusal>
    ensures appended { OnOk result (out.new.items
        ≡ out.old.items ++ (head 6 42 ++ (head 2 (length cid.now + 1) ++ 0x00 ∷ cid.now))) }
    ensures refused { IfErr result LacksMemory }
{
    let Some(length) = (cid.len() as u64).checked_add(1) else {
        return Err(Refusal::OutOfMemory);
    };
    push(out, &[0xd8, 0x2a])?;
    append_head(out, 2, length)?;
    push(out, &[0x00])?;
    push(out, cid)
}

/// Replaces the byte at `place` by the head of `count` items or entries.
#[tactic(auto, unfolding(dagcbor_core::specs::Head::head))]
#[inline(always)]
pub(crate) fn set_head(
    out: &mut Vec<u8>,
    room: &mut Vec<u8>,
    place: usize,
    major: u8,
    count: usize,
) -> Result<(), Refusal>
    requires { major ≤ 7 }
    ensures replaced { OnOk result (out.new.items
        ≡ take place out.old.items ++ (head major count ++ drop (place + 1) out.old.items)) }
    ensures refused { IfErr result LacksMemoryOrPlace }
{
    if count < 24 && place < out.len() {
        out[place] = 32 * major + count as u8;
        return Ok(());
    }
    insert_head(out, room, place, major, count)
}

/// Replaces the byte at `place` by a head that may be longer, and moves the bytes after it.
#[inline(never)]
fn insert_head(
    out: &mut Vec<u8>,
    room: &mut Vec<u8>,
    place: usize,
    major: u8,
    count: usize,
) -> Result<(), Refusal>
    requires { major ≤ 7 }
    ensures replaced { OnOk result (out.new.items
        ≡ take place out.old.items ++ (head major count ++ drop (place + 1) out.old.items)) }
    ensures refused { IfErr result LacksMemoryOrPlace }
{
    if place >= out.len() {
        return Err(Refusal::Misplaced);
    }
    room.clear();
    push(room, &out[place + 1..])?;
    out.truncate(place);
    append_head(out, major, count as u64)?;
    push(out, room)
}

/// Replaces all bytes after the one at `place` by `bytes`.
pub(crate) fn replace_after(out: &mut Vec<u8>, place: usize, bytes: &[u8]) -> Result<(), Refusal>
    ensures replaced { OnOk result (out.new.items ≡ take (place + 1) out.old.items ++ bytes.now) }
    ensures refused { IfErr result LacksMemoryOrPlace }
{
    if place >= out.len() {
        return Err(Refusal::Misplaced);
    }
    out.truncate(place + 1);
    push(out, bytes)
}

/// Returns why an item may not come here.
#[cold]
#[inline(never)]
pub(crate) fn misplaced(stage: Stage) -> Refusal
    requires { (stage ≢ Stage.List) × (stage ≢ Stage.WantsValue) × (stage ≢ Stage.Vacant) }
    ensures { ItemRefused stage result }
{
    match stage {
        Stage::WantsKey => Refusal::KeyIsNoText,
        Stage::WantsMap => Refusal::FlattensNoMap,
        _ => Refusal::Misplaced,
    }
}
