//! Bytes, heads and payloads from buffered sources.

use arrayvec::ArrayVec;
use dagcbor_core::DecodeError;
use dagcbor_heads::{
    Input, IoReader, IoRefReader, Read, is_at_end, peek_one, pull_head, pull_one, pull_payload,
    pull_short_payload,
};
use std::alloc::Global;
use std::borrow::CowSlice;
use std::io;
use std::io::ErrorKind;
use std::test::Fail;
use tests_shared::{Source, agree, is_told};

/// A source, as an input.
type Gathering<'a> = Input<'a, IoReader<Source<'a>>>;

/// Fails if another head comes.
fn takes_head(input: &mut Gathering<'_>, name: &str, wanted: (u8, u64, u8)) -> Result<(), Fail> {
    agree(pull_head(name, input)?, wanted)
}

/// Fails if the bytes are not "abc", or are borrowed, or if the bytes after them are not "de".
fn takes_payloads(alloc: Global, input: &mut Gathering<'_>) -> Result<(), Fail> {
    let payload = pull_payload(alloc, "string", input, 3)?;
    agree(payload.as_slice(), b"abc".as_slice())?;
    agree(matches!(payload, CowSlice::Owned(_)), true)?;
    let short: ArrayVec<u8, 4> = pull_short_payload("bytes", input, 2)?;
    agree(short.as_slice(), b"de".as_slice())
}

/// Fails if a byte is left.
fn is_taken(alloc: Global, mut input: Gathering<'_>) -> Result<(), Fail> {
    agree(is_at_end(&mut input)?, true)?;
    let end = r#"Err(Eof { name: "any", expect: Small(1) })"#;
    is_told(alloc, &peek_one("any", &mut input), end)?;
    match input.into_reader() {
        Some(reader) => agree(reader.into_inner().rest(), b"".as_slice()),
        None => Err(Fail::new("no reader")),
    }
}

/// Fails if a source that shows `size` bytes a fill gives other heads and payloads, or more.
fn are_gathered(alloc: Global, bytes: &[u8], size: usize) -> Result<(), Fail> {
    let mut input: Gathering<'_> = Input::Reader(IoReader::new(Source::new(bytes, size)));
    takes_head(&mut input, "u64", (0, 4_294_967_296, 0x1b))?;
    takes_head(&mut input, "string", (3, 3, 0x63))?;
    takes_payloads(alloc, &mut input)?;
    is_taken(alloc, input)
}

#[test]
fn heads_and_payloads_are_gathered(rt: HostRuntime) -> Result<(), Fail> {
    for size in [1, 3, 4, 100] {
        let bytes = b"\x1b\x00\x00\x00\x01\x00\x00\x00\x00\x63abcde";
        are_gathered(rt.alloc(), bytes, size)?;
    }
    Ok(())
}

/// Fails if a reader that is asked for `want` bytes shows others.
fn shows<R: Read>(reader: &mut R, want: usize, wanted: &[u8]) -> Result<(), Fail> {
    match reader.prepare(want) {
        Ok(()) => agree(reader.shown(), wanted),
        Err(_) => Err(Fail::new("a fault")),
    }
}

/// Fails if another byte is peeked.
fn looks<R: Read>(reader: &mut R, wanted: u8) -> Result<(), Fail> {
    match peek_one("any", reader) {
        Ok(byte) => agree(byte, wanted),
        Err(_) => Err(Fail::new("no byte")),
    }
}

/// Fails if another byte is taken.
fn takes<R: Read>(reader: &mut R, wanted: u8) -> Result<(), Fail> {
    match pull_one("any", reader) {
        Ok(byte) => agree(byte, wanted),
        Err(_) => Err(Fail::new("no byte")),
    }
}

#[test]
fn nothing_is_taken_early(_rt: HostRuntime) -> Result<(), Fail> {
    let mut reader = IoReader::new(Source::new(b"abcd", 100));
    shows(&mut reader, 3, b"abc")?;
    takes(&mut reader, b'a')?;
    looks(&mut reader, b'b')?;
    shows(&mut reader, 0, b"")?;
    shows(&mut reader, 100, b"bcd")?;
    agree(reader.into_inner().rest(), b"bcd".as_slice())
}

#[test]
fn nothing_is_taken_early_of_a_lent_source(_rt: HostRuntime) -> Result<(), Fail> {
    let mut source = Source::new(b"abcd", 100);
    let mut reader = IoRefReader::new(&mut source);
    takes(&mut reader, b'a')?;
    shows(&mut reader, 2, b"bc")?;
    agree(reader.into_inner().rest(), b"bcd".as_slice())?;
    agree(source.rest(), b"bcd".as_slice())
}

/// Returns the kind of the fault in the answer.
fn fault_of(answer: Result<u8, DecodeError<io::Error>>) -> Option<ErrorKind> {
    match answer {
        Err(DecodeError::Read(fault)) => Some(fault.kind()),
        _ => None,
    }
}

#[test]
fn an_interrupted_fill_is_a_fault(_rt: HostRuntime) -> Result<(), Fail> {
    let mut reader = IoReader::new(Source::interrupted_at(b"ab", 2));
    takes(&mut reader, b'a')?;
    let fault = fault_of(pull_one("any", &mut reader));
    agree(fault, Some(ErrorKind::Interrupted))?;
    takes(&mut reader, b'b')?;
    agree(reader.into_inner().fills(), 3)
}

#[test]
fn an_interrupted_fill_of_a_lent_source_is_a_fault(_rt: HostRuntime) -> Result<(), Fail> {
    let mut source = Source::interrupted_at(b"ab", 2);
    let mut reader = IoRefReader::new(&mut source);
    takes(&mut reader, b'a')?;
    let fault = fault_of(pull_one("any", &mut reader));
    agree(fault, Some(ErrorKind::Interrupted))?;
    agree(reader.into_inner().fills(), 2)
}

#[test]
fn a_long_payload_is_whole(rt: HostRuntime) -> Result<(), Fail> {
    let mut bytes = Vec::new(rt.alloc());
    for i in 0..10_000u64 {
        bytes.push((i % 251) as u8)?;
    }
    let mut input: Input<IoReader<&[u8]>> = Input::Reader(IoReader::new(bytes.as_slice()));
    let payload = pull_payload(rt.alloc(), "bytes", &mut input, 10_000)?;
    agree(payload.as_slice(), bytes.as_slice())
}

/// Fails if a reader does not have 256 steps, counting one that was spent and given back.
fn has_256_steps<R: Read>(reader: &mut R) -> Result<(), Fail> {
    if !reader.step_in() {
        return Err(Fail::new("no step"));
    }
    reader.step_out();
    for _ in 0..256u64 {
        agree(reader.step_in(), true)?;
    }
    agree(reader.step_in(), false)
}

#[test]
fn steps_are_spent_and_given_back(_rt: HostRuntime) -> Result<(), Fail> {
    let mut source = Source::new(b"", 1);
    has_256_steps(&mut IoRefReader::new(&mut source))?;
    has_256_steps(&mut IoReader::new(Source::new(b"", 1)))
}
