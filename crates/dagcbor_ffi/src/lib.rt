//! DAG-CBOR for callers in other languages, by the C ABI: whether bytes are a block, what a path
//! leads to, the links of an item, a block's name, the header and the sections of a CAR file, and
//! the text of CIDs.
//!
//! A slice crosses as a pointer and a length. `include/dagcbor.h` has the C declarations, and
//! `docs/OTHER_LANGUAGES.md` what a caller must ensure.
#![tactic(auto)]

ghost use Rattle.std.specs.Prelude.{◌≡◌, ◌≤◌, length};
ghost use Rattle.ipld_tree.specs.Cid.{cid_bytes};
ghost use Rattle.ipld_links.specs.Names.{block_name};
ghost use Rattle.abi_calls.specs.Codes.{check_code};
ghost use Rattle.abi_calls.specs.Answers.{tape_answer, spell_answer};
ghost use Rattle.abi_calls.specs.Answers.{links_answer, IsTokensAnswer};
ghost use Rattle.abi_calls.specs.CompactTapes.{compact_tape_answer};
ghost use Rattle.abi_calls.specs.Headers.{IsHeaderAnswer};
ghost use Rattle.abi_calls.specs.Sections.{IsSectionAnswer, IsVerifyAnswer};
ghost use Rattle.abi_calls.specs.Spans.{IsSpanAnswer};
ghost use Rattle.abi_calls.specs.Walks.{IsNextAnswer};
ghost use Rattle.abi_calls.specs.Finds.{IsFindAnswer, IsPartAnswer, IsFollowAnswer};
ghost use Rattle.abi_calls.specs.CidTexts.{IsCidTextAnswer, IsCidFromTextAnswer};
ghost use Rattle.abi_calls.specs.Nodes.{IsFromNodeAnswer, IsNodeLinksAnswer, IsToNodeAnswer};

use abi_calls::{
    CarWalk, CompactToken, Token, check, judge_named, judge_section, name_of, next_of_car,
    put_cid_of_text, put_cid_text, put_compact_tape, put_followed, put_found, put_from_node,
    put_front_tape, put_header, put_links, put_node_links, put_part, put_span, put_tape,
    put_to_node, spell_tape,
};

/// Returns the number of the kind of a block, at least 0, or that of the refusal, below 0.
#[unsafe(no_mangle)]
pub extern "C" fn dagcbor_check(bytes: &[u8]) -> i32
    ensures { result ≡ check_code bytes.now }
{
    check(bytes)
}

/// Returns the number of the kind of the first item, at least 0, or that of the refusal, below 0.
/// Bytes after the item are ignored. `needed` becomes the length of its links in bytes, packed: for
/// each, a byte with its CID's length, and the CID. If they all fit, they are put at the front of
/// `out`; else `out` stays.
#[unsafe(no_mangle)]
pub extern "C" fn dagcbor_links(bytes: &[u8], out: &mut [u8], needed: &mut usize) -> i32
    ensures { (result, needed.new, out.new) ≡ links_answer bytes.now out.old }
{
    put_links(bytes, out, needed)
}

/// Returns the number of the kind of a block, at least 0, or that of the refusal, below 0. `needed`
/// becomes the number of its tokens, which are in the order of its spelling, and no more than its
/// bytes. If they all fit, they are put at the front of `tape`; else `tape` stays.
#[unsafe(no_mangle)]
pub extern "C" fn dagcbor_tape(bytes: &[u8], tape: &mut [Token], needed: &mut usize) -> i32
    ensures answer { (result, needed.new, tape.new) ≡ tape_answer bytes.now tape.old }
    ensures few { needed.new ≤ length bytes.now }
{
    put_tape(bytes, tape, needed)
}

/// Does what `dagcbor_tape` does, with tokens of 12 bytes: for an integer, `number` and `place` are
/// the low and the high half of its number, and 9 is the kind of a text whose bytes are all below
/// 0x80. For 2^32 bytes or more it returns -21, `needed` becomes 0, and `tape` stays.
#[unsafe(no_mangle)]
pub extern "C" fn dagcbor_compact_tape(
    bytes: &[u8],
    tape: &mut [CompactToken],
    needed: &mut usize,
) -> i32
    ensures answer { (result, needed.new, tape.new) ≡ compact_tape_answer bytes.now tape.old }
    ensures few { needed.new ≤ length bytes.now }
{
    put_compact_tape(bytes, tape, needed)
}

/// Returns what `dagcbor_check` does. For a block it does what `dagcbor_tape` does, and `place`
/// becomes the number of its bytes. For refused bytes `place` becomes the place of the fault: the
/// bytes before it lack only more bytes, or are an item, and the next byte causes the refusal.
/// `needed` becomes the number of whole tokens before that place; if they all fit, they are put at
/// the front of `tape`; else `tape` stays.
#[unsafe(no_mangle)]
pub extern "C" fn dagcbor_tokens(
    bytes: &[u8],
    tape: &mut [Token],
    needed: &mut usize,
    place: &mut usize,
) -> i32
    ensures { IsTokensAnswer bytes.now tape.old tape.new needed.new place.new result }
{
    put_front_tape(bytes, tape, needed, place)
}

/// Puts the bytes that a tape encodes at the front of `out`, if they fit, and judges them as
/// `dagcbor_check` does. The payloads of its tokens are taken from `bytes`. `needed` becomes the
/// number of encoded bytes. It returns -20 if a token is invalid, and -21 if there is no room; then
/// `out` stays.
#[unsafe(no_mangle)]
pub extern "C" fn dagcbor_spell(
    bytes: &[u8],
    tape: &[Token],
    out: &mut [u8],
    needed: &mut usize,
) -> i32
    ensures { (result, needed.new, out.new) ≡ spell_answer bytes.now tape.now out.old }
{
    spell_tape(bytes, tape, out, needed)
}

/// Returns the number of the kind, at least 0, of the item to which the path leads in the block. A
/// path is segments between slashes, and empty ones are skipped; each is a key of a map, or the
/// index of an item of a list in decimal. `place` becomes where the item begins, and `end` where it
/// ends, in bytes. Else it returns the number of the refusal of `dagcbor_check`, -36 if the path
/// leads nowhere, or -37 if it is not UTF-8; then both stay.
#[unsafe(no_mangle)]
pub extern "C" fn dagcbor_find(block: &[u8], path: &[u8], place: &mut usize, end: &mut usize) -> i32
    ensures { IsFindAnswer block.now path.now (place.old, end.old) (place.new, end.new) result }
{
    put_found(block, path, place, end)
}

/// Returns what `dagcbor_find` does for a path of this one segment, which is taken whole: in a map
/// it leads to the value of that key, which may have slashes or be empty.
#[unsafe(no_mangle)]
pub extern "C" fn dagcbor_part(
    block: &[u8],
    segment: &[u8],
    place: &mut usize,
    end: &mut usize,
) -> i32
    ensures { IsPartAnswer block.now segment.now (place.old, end.old) (place.new, end.new) result }
{
    put_part(block, segment, place, end)
}

/// Returns the number of the kind, at least 0, of the last item on the path in the block. `places`
/// become where the item begins, where it ends, and how many bytes of the path lead there: all of
/// them if the whole path does. If some are left and the item is a link, the path goes on in the
/// block of that name; otherwise it leads nowhere. If the bytes are not a block, it returns the
/// number of the refusal of `dagcbor_check`, and if the path is not UTF-8, -37; then the places
/// stay.
#[unsafe(no_mangle)]
pub extern "C" fn dagcbor_follow(block: &[u8], path: &[u8], places: &mut [usize; 3]) -> i32
    ensures { IsFollowAnswer block.now path.now places.old places.new result }
{
    put_followed(block, path, places)
}

/// Puts the block's name into `out`: the CID of version 1, with the codec DAG-CBOR and the SHA-256
/// of the bytes.
#[unsafe(no_mangle)]
pub extern "C" fn dagcbor_name(bytes: &[u8], out: &mut [u8; 36])
    ensures { out.new ≡ cid_bytes (block_name bytes.now) }
{
    *out = name_of(bytes);
}

/// Returns the verdict on the block under the CID whose bytes are `cid`: the number of the block's
/// kind, at least 0, or 9 if the CID has another codec; the number of the refusal, below 0; -22 if
/// the CID does not match the block; -23 if its hash function is not known here; or -26 if the
/// bytes are not a CID.
#[unsafe(no_mangle)]
pub extern "C" fn dagcbor_verify(cid: &[u8], block: &[u8]) -> i32
    ensures { IsVerifyAnswer cid.now block.now result }
{
    judge_named(cid, block)
}

/// Returns the verdict on the block of the section that begins the bytes of a CAR file: the number
/// of the block's kind, at least 0, or 9 if its CID has another codec; the number of the refusal,
/// below 0; -22 if the CID does not match the block; or -23 if its hash function is not known here.
/// `places` become those of the section: where its CID begins, where its block does, and where it
/// ends. If no section begins the bytes, the places stay, and it returns -24 if the bytes end too
/// early, -25 if they do not begin with a length, or -26 if no CID follows that.
#[unsafe(no_mangle)]
pub extern "C" fn dagcbor_car_section(bytes: &[u8], places: &mut [usize; 3]) -> i32
    ensures { IsSectionAnswer bytes.now places.old places.new result }
{
    judge_section(bytes, places)
}

/// Finds where the file of version 1 is in a CAR file that begins with these bytes: 51 of them are
/// enough. Returns 0, and `places` become where it begins and where it ends: in version 2 as its
/// header says, and in version 1 at 0 and 2^64 - 1. Else it returns the number of the cause, and
/// the places stay: -24 if more bytes are needed, -35 if the offsets are invalid.
#[unsafe(no_mangle)]
pub extern "C" fn dagcbor_car_span(bytes: &[u8], places: &mut [u64; 2]) -> i32
    ensures { IsSpanAnswer bytes.now places.old places.new result }
{
    put_span(bytes, places)
}

/// Reads the header, of version 1, that begins the bytes of a CAR file. Returns 0 if there is one:
/// `following` becomes where the first section begins, and `needed` the length of its roots, packed
/// as `dagcbor_links` packs links; if they all fit, they are put at the front of `out`; else `out`
/// stays. Else it returns the number of the cause: -24 and -25 as for a section, that of the
/// refusal if no block follows the length, and -27 if the block is not a header of roots and of
/// version 1. Then `needed` becomes 0, and the rest stays.
#[unsafe(no_mangle)]
pub extern "C" fn dagcbor_car_header(
    bytes: &[u8],
    out: &mut [u8],
    needed: &mut usize,
    following: &mut usize,
) -> i32
    ensures { IsHeaderAnswer bytes.now out.old out.new needed.new following.old following.new result }
{
    put_header(bytes, out, needed, following)
}

/// Takes what comes next in a CAR file, of version 1 or 2. The bytes are those from `walk.place`
/// on, as it is when the call begins. `how` is the sum of 1, if no bytes follow them, and of 2, if
/// blocks are not to be judged. Returns 10 if more bytes are needed; 11 for the header, which comes
/// first; for a section what `dagcbor_car_section` does, or 13 if it is not judged; 12 at the end
/// of the sections; or, below 0, the cause for which there is none of these, as the calls above
/// return it. `places` become those of the header, where it begins, where its block does and where
/// it ends, or those of a section, counted from these bytes; and `walk.place` moves to its end.
/// Else the places stay. Once the offsets of version 2 are known, `walk.place` moves to where the
/// file of version 1 begins.
#[unsafe(no_mangle)]
pub extern "C" fn dagcbor_car_next(
    walk: &mut CarWalk,
    bytes: &[u8],
    how: u32,
    places: &mut [usize; 3],
) -> i32
    ensures { IsNextAnswer how walk.old bytes.now places.old walk.new places.new result }
{
    next_of_car(walk, bytes, how, places)
}

/// Puts the text of the CID whose bytes these are at the front of `out`, if it fits, and returns 0:
/// base32 after `b`, or base58btc for version 0, in ASCII, at most 139 bytes. `needed` becomes its
/// length. It returns -21 if there is no room, and -26 if the bytes are not a CID, and then
/// `needed` becomes 0. After both `out` stays.
#[unsafe(no_mangle)]
pub extern "C" fn dagcbor_cid_text(bytes: &[u8], out: &mut [u8], needed: &mut usize) -> i32
    ensures { IsCidTextAnswer bytes.now out.old out.new needed.new result }
{
    put_cid_text(bytes, out, needed)
}

/// Puts the binary form of the CID with this text at the front of `out`, if it fits, at most 86
/// bytes, and returns 0. `needed` becomes its length. It returns -21 if there is no room. If the
/// text is not that of a CID, it returns the number of its fault, which is that it is too long, or
/// the first from the left, and `needed` becomes 0. After both `out` stays.
#[unsafe(no_mangle)]
pub extern "C" fn dagcbor_cid_from_text(text: &[u8], out: &mut [u8], needed: &mut usize) -> i32
    ensures { IsCidFromTextAnswer text.now out.old out.new needed.new result }
{
    put_cid_of_text(text, out, needed)
}

/// Reads the links of the block of DAG-PB, whatever their names are. Returns 0, and `needed`
/// becomes their length, packed as `dagcbor_links` packs them; if they all fit, they are put at the
/// front of `out`; else `out` stays. If the bytes are not a block of DAG-PB, it returns the number
/// of the cause, from -53 to -57, and `place` becomes where that is. Then `needed` is 0, and `out`
/// stays. Else `place` becomes 0.
#[unsafe(no_mangle)]
pub extern "C" fn dagcbor_node_links(
    node: &[u8],
    out: &mut [u8],
    needed: &mut usize,
    place: &mut usize,
) -> i32
    ensures { IsNodeLinksAnswer node.now out.old out.new needed.new place.new result }
{
    put_node_links(node, out, needed, place)
}

/// Puts the data model of the block of DAG-PB (a map of `Links` and, if there is some, `Data`), as
/// a block of DAG-CBOR, at the front of `out`, if it fits, and returns 0. `needed` becomes its
/// length. It returns -21 if there is no room; then `out` stays. If the bytes are not a block of
/// DAG-PB, it returns the number of the cause, from -53 to -57, and `place` becomes where that is;
/// if the name of a link is not UTF-8, -58. Then `needed` is 0, and `out` stays. Else `place`
/// becomes 0.
#[unsafe(no_mangle)]
pub extern "C" fn dagcbor_from_node(
    node: &[u8],
    out: &mut [u8],
    needed: &mut usize,
    place: &mut usize,
) -> i32
    ensures { IsFromNodeAnswer node.now out.old out.new needed.new place.new result }
{
    put_from_node(node, out, needed, place)
}

/// Puts the block of DAG-PB whose data model is the block of DAG-CBOR at the front of `out`, if it
/// fits, and returns 0. `needed` becomes its length. It returns -21 if there is no room; then `out`
/// stays. Else it returns the refusal of `dagcbor_check`, -59 if the data is not that of a node, or
/// -60 if the links are not sorted by the bytes of their names. Then `needed` is 0, and `out`
/// stays.
#[unsafe(no_mangle)]
pub extern "C" fn dagcbor_to_node(block: &[u8], out: &mut [u8], needed: &mut usize) -> i32
    ensures { IsToNodeAnswer block.now out.old out.new needed.new result }
{
    put_to_node(block, out, needed)
}
