//! Values from buffered sources of std and to devices of std, however little these show or take at
//! once.

use serde_ipld_dagcbor::{
    Cid, DecodeError, DeserializeOwned, EncodeError, Ipld, Serialize, from_reader,
    from_reader_once, from_slice, to_writer,
};
use std::alloc::Global;
use std::fmt::Debug;
use std::io::ErrorKind;
use std::test::Fail;
use tests_shared::{Sink, Source, agree, is_told};

/// Fails if a read of the whole source gives any other answer.
fn comes<'de, T: DeserializeOwned<'de> + Debug>(
    alloc: Global,
    source: Source<'_>,
    told: &str,
) -> Result<(), Fail> {
    is_told(alloc, &from_reader::<T, Source<'_>>(alloc, source), told)
}

/// Fails if a read of one item gives any other answer.
fn comes_once<'de, T: DeserializeOwned<'de> + Debug>(
    alloc: Global,
    source: &mut Source<'_>,
    told: &str,
) -> Result<(), Fail> {
    is_told(
        alloc,
        &from_reader_once::<T, Source<'_>>(alloc, source),
        told,
    )
}

#[test]
fn what_is_shown_byte_by_byte_is_gathered(rt: HostRuntime) -> Result<(), Fail> {
    let alloc = rt.alloc();
    comes::<String>(alloc, Source::new(b"\x62\xc3\xa9", 1), r#"Ok("é")"#)?;
    let refused = r#"Err(RequireUtf8 { name: "string" })"#;
    comes::<String>(alloc, Source::new(b"\x61\xc3", 1), refused)?;
    let bytes = b"\xd8\x2a\x49\x00\x01\xce\x01\x9b\x01\x02\x63\xc8";
    let cid: Cid = from_reader(alloc, Source::new(bytes, 1))?;
    agree(cid, from_slice(alloc, bytes)?)?;
    let wanted = b"\x01\xce\x01\x9b\x01\x02\x63\xc8".as_slice();
    agree(cid.to_bytes(alloc)?.as_slice(), wanted)
}

#[test]
fn what_follows_an_item_is_left(rt: HostRuntime) -> Result<(), Fail> {
    let alloc = rt.alloc();
    let mut source = Source::new(b"\xf4trailing", 64);
    comes_once::<Ipld>(alloc, &mut source, "Ok(Bool(false))")?;
    agree(source.rest(), b"trailing".as_slice())?;
    let source = Source::new(b"\xf4trailing", 64);
    comes::<Ipld>(alloc, source, "Err(TrailingData)")?;
    let mut source = Source::new(b"\x66foobar\x0a", 1);
    comes_once::<String>(alloc, &mut source, r#"Ok("foobar")"#)?;
    comes_once::<i32>(alloc, &mut source, "Ok(10)")?;
    agree(source.rest(), b"".as_slice())
}

/// Returns the kind of the fault that refuses a read.
fn read_fault<'de, T: DeserializeOwned<'de>>(
    alloc: Global,
    source: Source<'_>,
) -> Option<ErrorKind> {
    match from_reader::<T, Source<'_>>(alloc, source) {
        Err(DecodeError::Read(fault)) => Some(fault.kind()),
        _ => None,
    }
}

#[test]
fn an_interrupted_fill_is_not_retried(rt: HostRuntime) -> Result<(), Fail> {
    let alloc = rt.alloc();
    let interrupted = Some(ErrorKind::Interrupted);
    let source = Source::interrupted(b"\x83\x01\x02\x03", 2);
    agree(read_fault::<Vec<u8>>(alloc, source), interrupted)?;
    let source = Source::interrupted(b"\x01", 0);
    agree(read_fault::<u8>(alloc, source), interrupted)?;
    comes_once::<u8>(alloc, &mut Source::interrupted(b"\x01", 0), "Ok(1)")
}

/// Returns the kind of the fault that refuses a write.
fn write_fault<T: Serialize>(alloc: Global, sink: &mut Sink, value: &T) -> Option<ErrorKind> {
    match to_writer(alloc, sink, value) {
        Err(EncodeError::Write(fault)) => Some(fault.kind()),
        _ => None,
    }
}

#[test]
fn a_fault_of_a_write_is_passed_on(rt: HostRuntime) -> Result<(), Fail> {
    let alloc = rt.alloc();
    let mut sink = Sink::new(alloc, 1, 3);
    let value = vec![in alloc; 1u8, 2, 3]?;
    let fault = write_fault(alloc, &mut sink, &value);
    agree(fault, Some(ErrorKind::Interrupted))?;
    agree(sink.held(), b"\x83\x01".as_slice())?;
    let fault = write_fault(alloc, &mut Sink::new(alloc, 0, 0), &true);
    agree(fault, Some(ErrorKind::WriteZero))?;
    // A value that cannot be encoded.
    let mut sink = Sink::new(alloc, 1, 0);
    let refused = to_writer(alloc, &mut sink, &18_446_744_073_709_551_616u128);
    let told = r#"Err(Msg("Unsigned integer must be within [0, u64::MAX] range"))"#;
    is_told(alloc, &refused, told)?;
    agree(sink.held(), b"".as_slice())
}
