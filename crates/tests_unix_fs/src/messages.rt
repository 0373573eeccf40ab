//! Messages. Their bytes and the answers were written by hand from the standard.

use files_unix_fs::{next_size, read_unix_fs};
use std::test::Fail;
use tests_shared::{agree, is_told};

/// Messages, and the answers for them.
const ROWS: &[(&[u8], &str)] = &[
    // an empty directory
    (
        b"\x08\x01",
        "Ok(UnixFs { kind: Directory, content: None, file_size: None, sizes: [8, 1], hash_type: None, fanout: None })",
    ),
    // a file of two bytes
    (
        b"\x08\x02\x12\x02hi\x18\x02",
        "Ok(UnixFs { kind: File, content: Some([104, 105]), file_size: Some(2), sizes: [8, 2, 18, 2, 104, 105, 24, 2], hash_type: None, fanout: None })",
    ),
    // empty content is not the same as no content
    (
        b"\x08\x00\x12\x00",
        "Ok(UnixFs { kind: Raw, content: Some([]), file_size: None, sizes: [8, 0, 18, 0], hash_type: None, fanout: None })",
    ),
    // a shard: its bits, the hash function murmur3-x64-64 and 256 links at most
    (
        b"\x08\x05\x12\x01\x80\x28\x22\x30\x80\x02",
        "Ok(UnixFs { kind: HamtShard, content: Some([128]), file_size: None, sizes: [8, 5, 18, 1, 128, 40, 34, 48, 128, 2], hash_type: Some(34), fanout: Some(256) })",
    ),
    // the fields in another order
    (
        b"\x18\x00\x08\x03",
        "Ok(UnixFs { kind: Metadata, content: None, file_size: Some(0), sizes: [24, 0, 8, 3], hash_type: None, fanout: None })",
    ),
    // a field twice: the later one counts
    (
        b"\x08\x02\x08\x04\x12\x01a\x12\x01b",
        "Ok(UnixFs { kind: Symlink, content: Some([98]), file_size: None, sizes: [8, 2, 8, 4, 18, 1, 97, 18, 1, 98], hash_type: None, fanout: None })",
    ),
    // the mode 0644, and a time with nanoseconds, are skipped
    (
        b"\x08\x01\x38\xa4\x03\x42\x07\x08\x01\x15\x02\x00\x00\x00",
        "Ok(UnixFs { kind: Directory, content: None, file_size: None, sizes: [8, 1, 56, 164, 3, 66, 7, 8, 1, 21, 2, 0, 0, 0], hash_type: None, fanout: None })",
    ),
    // fields that the standard does not know, of four and of eight bytes
    (
        b"\x4d\x01\x02\x03\x04\x49\x01\x02\x03\x04\x05\x06\x07\x08\x08\x01",
        "Ok(UnixFs { kind: Directory, content: None, file_size: None, sizes: [77, 1, 2, 3, 4, 73, 1, 2, 3, 4, 5, 6, 7, 8, 8, 1], hash_type: None, fanout: None })",
    ),
    // the greatest size, and a long form of a number
    (
        b"\x08\x82\x00\x18\xff\xff\xff\xff\xff\xff\xff\xff\xff\x01",
        "Ok(UnixFs { kind: File, content: None, file_size: Some(18446744073709551615), sizes: [8, 130, 0, 24, 255, 255, 255, 255, 255, 255, 255, 255, 255, 1], hash_type: None, fanout: None })",
    ),
    // no fields, and no kind
    (b"", "Err(UnixFsError { cause: NoKind, place: 0 })"),
    (b"\x12\x01a", "Err(UnixFsError { cause: NoKind, place: 3 })"),
    // an unknown kind
    (
        b"\x18\x00\x08\x06",
        "Err(UnixFsError { cause: UnknownKind(6), place: 2 })",
    ),
    // several sizes packed in one field
    (
        b"\x08\x02\x22\x02\x01\x01",
        "Err(UnixFsError { cause: PackedSizes, place: 2 })",
    ),
    // a kind that is bytes, and content that is a number
    (
        b"\x0a\x01\x02",
        "Err(UnixFsError { cause: UnexpectedField(10), place: 0 })",
    ),
    (
        b"\x08\x02\x10\x00",
        "Err(UnixFsError { cause: UnexpectedField(16), place: 2 })",
    ),
    // a group, and the field 0
    (
        b"\x08\x02\x43\x44",
        "Err(UnixFsError { cause: UnexpectedField(67), place: 2 })",
    ),
    (
        b"\x00\x00",
        "Err(UnixFsError { cause: UnexpectedField(0), place: 0 })",
    ),
    // the field 2^29, which is out of range, and the one before it
    (
        b"\x08\x02\x80\x80\x80\x80\x10\x00",
        "Err(UnixFsError { cause: UnexpectedField(4294967296), place: 2 })",
    ),
    (
        b"\x08\x02\xf8\xff\xff\xff\x0f\x00",
        "Ok(UnixFs { kind: File, content: None, file_size: None, sizes: [8, 2, 248, 255, 255, 255, 15, 0], hash_type: None, fanout: None })",
    ),
    // 2^64, and a number of eleven bytes
    (
        b"\x08\x02\x18\xff\xff\xff\xff\xff\xff\xff\xff\xff\x02",
        "Err(UnixFsError { cause: InvalidVarint, place: 2 })",
    ),
    (
        b"\x18\x80\x80\x80\x80\x80\x80\x80\x80\x80\x80\x00",
        "Err(UnixFsError { cause: InvalidVarint, place: 0 })",
    ),
    // half a tag, half a number, half the content, and no content
    (
        b"\x08\x02\x98",
        "Err(UnixFsError { cause: Truncated, place: 2 })",
    ),
    (
        b"\x08\x02\x18\x80",
        "Err(UnixFsError { cause: Truncated, place: 2 })",
    ),
    (
        b"\x08\x02\x12\x03hi",
        "Err(UnixFsError { cause: Truncated, place: 2 })",
    ),
    (
        b"\x08\x02\x12",
        "Err(UnixFsError { cause: Truncated, place: 2 })",
    ),
];

#[test]
fn messages_are_read(rt: HostRuntime) -> Result<(), Fail> {
    for (message, wanted) in ROWS {
        is_told(rt.alloc(), &read_unix_fs(message), wanted)?;
    }
    Ok(())
}

/// A file of two blocks of 262144 bytes and one of 1 byte.
const PARTS: &[u8] = b"\x08\x02\x18\x81\x80\x20\x20\x80\x80\x10\x20\x80\x80\x10\x20\x01";

#[test]
fn sizes_come_in_their_order() -> Result<(), Fail> {
    let Ok(file) = read_unix_fs(PARTS) else {
        return Err(Fail::new("no message"));
    };
    agree(file.file_size, Some(524289))?;
    let Some((first, rest)) = next_size(file.sizes) else {
        return Err(Fail::new("no first size"));
    };
    agree(first, 262144)?;
    let Some((second, rest)) = next_size(rest) else {
        return Err(Fail::new("no second size"));
    };
    agree(second, 262144)?;
    let Some((third, rest)) = next_size(rest) else {
        return Err(Fail::new("no third size"));
    };
    agree(third, 1)?;
    agree(next_size(rest).is_none(), true)
}
