//! Values sent to devices, and read from sources. `faults/run` tests what a failing device holds,
//! and what is returned for a failing source.

use super::data::ENVELOPE;
use super::link;
use crate::types::Envelope;
use std::test::Fail;
use tests_shared::{Source, agree, is_told};
use types_serde::{
    DeviceError, Link, WriteError, block_from_reader, block_from_reader_once, from_reader,
    from_reader_once, to_vec, to_writer,
};

#[test]
fn nothing_of_a_refused_value_is_sent(rt: HostRuntime) -> Result<(), Fail> {
    let alloc = rt.alloc();
    let mut device = vec![in alloc; 9u8]?;
    match to_writer(alloc, &mut device, &(1u8, 1.5f64)) {
        Err(DeviceError::Value(WriteError::Float)) => {}
        other => return Err(Fail::new(format_args!("{other:?}"))),
    }
    agree(device.as_slice(), b"\x09".as_slice())
}

#[test]
fn sources_are_read(rt: HostRuntime) -> Result<(), Fail> {
    let alloc = rt.alloc();
    let read: Envelope = from_reader(alloc, Source::new(ENVELOPE, 1))?;
    agree(to_vec(alloc, &read)?.as_slice(), ENVELOPE)?;
    agree(block_from_reader(alloc, ENVELOPE)?.as_slice(), ENVELOPE)?;
    let mut three = b"\x07\xd8\x2a\x45\x00\x01\x55\x00\x00\x61t".as_slice();
    agree(from_reader_once::<u8, _>(alloc, &mut three)?, 7)?;
    agree(from_reader_once::<Link, _>(alloc, &mut three)?, link()?)?;
    agree(
        block_from_reader_once(alloc, &mut three)?.as_slice(),
        b"\x61t".as_slice(),
    )?;
    agree(three, b"".as_slice())
}

/// An announced length takes no memory.
#[test]
fn an_announced_length_reserves_nothing(rt: HostRuntime) -> Result<(), Fail> {
    let announced = from_reader::<u8, _>(
        rt.alloc(),
        b"\x5b\x7f\xff\xff\xff\xff\xff\xff\xff\x00".as_slice(),
    );
    is_told(
        rt.alloc(),
        &announced,
        r#"Err(NoBlock(Eof { name: "bytes", expect: Big }))"#,
    )
}
