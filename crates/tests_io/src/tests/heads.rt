//! Bytes, heads and payloads from a reader, and heads to a writer.

ghost use Rattle.std.specs.Prelude.{◌≤◌};

use serde_ipld_dagcbor::{
    BufWriter, DecodeError, Input, Read, SliceReader, Tally, is_at_end, is_indefinite, laws,
    peek_one, pull_head, pull_one, pull_payload, push_head,
};
use std::alloc::Global;
use std::borrow::CowSlice;
use std::mem::size_of;
use std::test::Fail;
use tests_shared::{agree, is_told};
use tests_shared_reads::Pieces;

/// Fails if a reader that shows `size` bytes a fill gives another head, or more.
fn is_head(head: &[u8], size: usize, major: u8, argument: u64) -> Result<(), Fail> {
    let mut reader = Pieces::new(head, size);
    let (read_major, read_argument, _) = pull_head("any", &mut reader)?;
    agree((read_major, read_argument), (major, argument))?;
    agree(is_at_end(&mut reader)?, true)
}

/// Fails if the head is written or read otherwise.
fn goes_both_ways(alloc: Global, major: u8, argument: u64, head: &[u8]) -> Result<(), Fail>
    requires { major ≤ 7 }
{
    let mut writer = BufWriter::new(Vec::new(alloc));
    push_head(&mut writer, major, argument)?;
    agree(writer.buffer(), head)?;
    is_head(head, 1, major, argument)?;
    is_head(head, 2, major, argument)?;
    is_head(head, 9, major, argument)
}

/// Major types, arguments and heads.
const HEADS: &[(u8, u64, &[u8])] = &[
    (0, 23, b"\x17"),
    (1, 299, b"\x39\x01\x2b"),
    (4, 3, b"\x83"),
    (6, 42, b"\xd8\x2a"),
    (2, 65_536, b"\x5a\x00\x01\x00\x00"),
    (0, 4_294_967_296, b"\x1b\x00\x00\x00\x01\x00\x00\x00\x00"),
];

#[test]
fn heads_both_ways(rt: HostRuntime) -> Result<(), Fail> {
    for (major, argument, head) in HEADS {
        goes_both_ways(rt.alloc(), (*major).min(7), *argument, head)?;
    }
    Ok(())
}

/// Peeks at "a", and then takes it and "b", from a reader that has nothing else.
fn two_bytes(reader: &mut Pieces<'_>) -> Result<(u8, u8, u8), DecodeError<u8>> {
    let looked = peek_one("any", reader)?;
    let first = pull_one("any", reader)?;
    let second = pull_one("any", reader)?;
    Ok((looked, first, second))
}

#[test]
fn bytes_are_looked_at_and_taken(rt: HostRuntime) -> Result<(), Fail> {
    let mut reader = Pieces::new(b"ab", 1);
    agree(two_bytes(&mut reader)?, (b'a', b'a', b'b'))?;
    let end = r#"Err(Eof { name: "any", expect: Small(1) })"#;
    is_told(rt.alloc(), &pull_one("any", &mut reader), end)?;
    is_told(rt.alloc(), &peek_one("any", &mut reader), end)?;
    agree((is_indefinite(0x9f), is_indefinite(0x9e)), (true, false))
}

/// Returns whether a payload is borrowed, and its bytes.
fn lent_or_gathered<'a>(payload: &'a CowSlice<'_, u8>) -> (bool, &'a [u8]) {
    match payload {
        CowSlice::Borrowed(lent) => (true, lent),
        CowSlice::Owned(gathered) => (false, gathered.as_slice()),
    }
}

/// Fails if other bytes than "abc" come first, or if a payload of `more` bytes after them gives
/// another answer.
fn pulls(
    alloc: Global,
    input: &mut Input<'_, Pieces<'_>>,
    lent: bool,
    more: u64,
    told: &str,
) -> Result<(), Fail> {
    let payload = pull_payload(alloc, "bytes", input, 3)?;
    agree(lent_or_gathered(&payload), (lent, b"abc".as_slice()))?;
    is_told(
        alloc,
        &pull_payload(alloc, "bytes", input, more).err(),
        told,
    )
}

#[test]
fn payloads_are_lent_by_slices_and_gathered_by_readers(rt: HostRuntime) -> Result<(), Fail> {
    let mut slice: Input<Pieces> = Input::Slice(SliceReader::new(b"abcd"));
    let cut = r#"Some(Eof { name: "bytes", expect: Big })"#;
    pulls(rt.alloc(), &mut slice, true, 70_000, cut)?;
    let mut reader = Input::Reader(Pieces::new(b"abcd", 2));
    let cut = r#"Some(Eof { name: "bytes", expect: Small(2) })"#;
    pulls(rt.alloc(), &mut reader, false, 2, cut)
}

#[test]
fn inputs_show_what_they_have(rt: HostRuntime) -> Result<(), Fail> {
    let mut slice: Input<Pieces> = Input::Slice(SliceReader::new(b"ab"));
    slice.prepare(1)?;
    is_told(rt.alloc(), &slice.shown(), "Long([97, 98])")?;
    let mut reader = Input::Reader(Pieces::new(b"ab", 1));
    reader.prepare(2)?;
    is_told(rt.alloc(), &reader.shown(), "Short([97])")?;
    let mut plain = SliceReader::new(b"ab");
    plain.prepare(1)?;
    agree(plain.shown(), b"ab".as_slice())?;
    agree(plain.step_in(), true)?;
    plain.step_out();
    Ok(())
}

#[test]
fn counts_and_laws_take_no_bytes(_rt: HostRuntime) -> Result<(), Fail> {
    laws::spelling_unique();
    laws::key_order();
    laws::equality();
    laws::spelled_is_the_spelling();
    dagcbor_core::laws::head_unique();
    agree(size_of::<Tally>(), 0)
}
