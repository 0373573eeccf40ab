//! Heads to devices.

use dagcbor_core::EncodeError;
use dagcbor_heads::{IoRefWriter, IoWriter, Write, push_head};
use std::alloc::Global;
use std::io;
use std::io::ErrorKind;
use std::test::Fail;
use tests_shared::{Sink, agree};

/// Fails if the sink holds other bytes, or was called another number of times.
fn is_held(sink: &Sink, held: &[u8], calls: u64) -> Result<(), Fail> {
    agree((sink.held(), sink.calls()), (held, calls))
}

/// Fails if a head of nine bytes is written otherwise to a sink that takes `size` bytes a call.
fn goes_out(alloc: Global, size: usize, calls: u64) -> Result<(), Fail> {
    let mut writer = IoWriter::new(Sink::new(alloc, size, 0));
    push_head(&mut writer, 0, 4_294_967_296)?;
    writer.push(b"")?;
    let head = b"\x1b\x00\x00\x00\x01\x00\x00\x00\x00";
    is_held(&writer.into_inner(), head, calls)
}

#[test]
fn a_piece_goes_out_in_parts(rt: HostRuntime) -> Result<(), Fail> {
    for (size, calls) in [(1, 9), (2, 5), (100, 1)] {
        goes_out(rt.alloc(), size, calls)?;
    }
    Ok(())
}

#[test]
fn pieces_go_out_one_after_the_other(rt: HostRuntime) -> Result<(), Fail> {
    let mut held = Vec::new(rt.alloc());
    let mut writer = IoRefWriter::new(&mut held);
    push_head(&mut writer, 4, 3)?;
    push_head(&mut writer, 0, 1)?;
    drop(writer);
    agree(held.as_slice(), b"\x83\x01".as_slice())
}

/// Returns the kind of the fault in the answer.
fn fault_of(answer: Result<(), EncodeError<io::Error>>) -> Option<ErrorKind> {
    match answer {
        Err(EncodeError::Write(fault)) => Some(fault.kind()),
        _ => None,
    }
}

#[test]
fn an_interrupted_write_is_a_fault(rt: HostRuntime) -> Result<(), Fail> {
    let mut writer = IoWriter::new(Sink::new(rt.alloc(), 1, 3));
    let fault = fault_of(writer.push(b"abcd"));
    agree(fault, Some(ErrorKind::Interrupted))?;
    writer.push(b"e")?;
    is_held(&writer.into_inner(), b"abe", 4)
}

#[test]
fn an_interrupted_write_to_a_lent_sink_is_a_fault(rt: HostRuntime) -> Result<(), Fail> {
    let mut sink = Sink::new(rt.alloc(), 1, 3);
    let mut writer = IoRefWriter::new(&mut sink);
    let fault = fault_of(writer.push(b"abcd"));
    agree(fault, Some(ErrorKind::Interrupted))?;
    is_held(writer.into_inner(), b"ab", 3)?;
    is_held(&sink, b"ab", 3)
}

#[test]
fn no_byte_taken_is_a_fault(rt: HostRuntime) -> Result<(), Fail> {
    let mut writer = IoWriter::new(Sink::new(rt.alloc(), 0, 0));
    writer.push(b"")?;
    let fault = fault_of(writer.push(b"a"));
    agree(fault, Some(ErrorKind::WriteZero))?;
    agree(writer.into_inner().calls(), 1)
}
