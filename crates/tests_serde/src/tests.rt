//! The bytes that derived types are written as, and the values that are read from bytes. The
//! expected bytes were made by a separate encoder.

mod data;
mod devices;
mod forms;
mod note;
mod records;
mod refusals;

use ipld_tree::Cid;
use serde::{DeserializeOwned, Serialize};
use std::alloc::Global;
use std::test::Fail;
use tests_shared::{agree, is_told};
use types_serde::{Link, from_slice, from_slice_owned, to_vec};

/// The CID of a raw block with an empty identity digest.
const CID: &[u8] = b"\x01\x55\x00\x00";

/// Checks that the bytes are read as a value that is written as the same bytes. For the types of
/// std, `Link`, `Any` and `ByteBuf`, the bytes of a value are proved, so this determines the value.
fn is_written_again<T: Serialize + DeserializeOwned>(
    alloc: Global,
    bytes: &[u8],
) -> Result<(), Fail> {
    let read: T = from_slice_owned(alloc, bytes)?;
    agree(to_vec(alloc, &read)?.as_slice(), bytes)
}

/// Checks that the bytes are read as a value that is written as `value` is.
fn is_read<T: Serialize + DeserializeOwned>(
    alloc: Global,
    bytes: &[u8],
    value: &T,
) -> Result<(), Fail> {
    let read: T = from_slice_owned(alloc, bytes)?;
    agree(
        to_vec(alloc, &read)?.as_slice(),
        to_vec(alloc, value)?.as_slice(),
    )
}

/// Checks that the value is written as these bytes, and that they are read as it.
fn goes_both_ways<T: Serialize + DeserializeOwned>(
    alloc: Global,
    value: &T,
    bytes: &[u8],
) -> Result<(), Fail> {
    agree(to_vec(alloc, value)?.as_slice(), bytes)?;
    is_written_again::<T>(alloc, bytes)
}

/// Checks that the type does not accept the bytes, with this error.
fn is_refused<T: DeserializeOwned>(alloc: Global, bytes: &[u8], told: &str) -> Result<(), Fail> {
    let refusal = from_slice_owned::<T>(alloc, bytes).err();
    let wanted = format!(in alloc; "Some({told})")?;
    is_told(alloc, &refusal, &wanted)
}

fn link() -> Result<Link, Fail> {
    Ok(Link(Cid::try_from(CID)?))
}

#[test]
fn texts_and_bytes_are_lent(rt: HostRuntime) -> Result<(), Fail> {
    let (name, bytes): (&str, &[u8]) = from_slice(rt.alloc(), b"\x82\x62hi\x42\x01\x02")?;
    agree(name, "hi")?;
    agree(bytes, b"\x01\x02".as_slice())
}
