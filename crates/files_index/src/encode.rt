//! Encodes an index.

ghost use Rattle.std.specs.Prelude.{◌≡◌, ◌++◌, OnOk, IfOk, flat_map};
ghost use Rattle.std.specs.Int.{w32, w64, to_le_bytes};
ghost use Rattle.files_index.specs.Index.{entry_bytes, bucket_bytes, buckets_bytes, code_bytes};
ghost use Rattle.files_index.specs.Index.{codes_bytes, index_bytes};

use crate::entry::Entry;
use crate::run::{Key, count_runs, split_run};
use std::alloc::{AllocError, Global};

/// The varint of the format MultihashIndexSorted (0x0401).
const BY_MULTIHASH: [u8; 2] = [0x81, 0x08];

/// Appends a number as eight bytes, little-endian.
fn push_number(out: &mut Vec<u8>, number: u64) -> Result<(), AllocError>
    ensures { OnOk result (out.new.items ≡ out.old.items ++ to_le_bytes w64 number) }
{
    out.extend_from_slice(&number.to_le_bytes())
}

/// Appends an entry: its digest, and its offset.
fn push_entry(out: &mut Vec<u8>, entry: &Entry) -> Result<(), AllocError>
    ensures { OnOk result (out.new.items ≡ out.old.items ++ entry_bytes entry.now) }
{
    out.extend_from_slice(entry.digest())?;
    push_number(out, entry.offset())
}

/// Appends the entries.
fn push_entries(out: &mut Vec<u8>, entries: &[Entry]) -> Result<(), AllocError>
    ensures { OnOk result (out.new.items ≡ out.old.items ++ flat_map entry_bytes entries.now) }
{
    for entry in entries {
        push_entry(out, entry)?;
    }
    Ok(())
}

/// Appends a count as four bytes, little-endian. No memory holds more than 2^31 - 1 runs of
/// different keys.
fn push_count(out: &mut Vec<u8>, count: usize) -> Result<(), AllocError>
    ensures { OnOk result (out.new.items ≡ out.old.items ++ to_le_bytes w32 count) }
{
    if count > i32::MAX as usize {
        return Err(AllocError);
    }
    out.extend_from_slice(&(count as u32).to_le_bytes())
}

/// Appends the bucket of these entries, which all have this width.
fn push_bucket(out: &mut Vec<u8>, width: u64, entries: &[Entry]) -> Result<(), AllocError>
    ensures { OnOk result (out.new.items ≡ out.old.items ++ bucket_bytes (width, entries.now)) }
{
    let Some(length) = width.checked_mul(entries.len() as u64) else {
        return Err(AllocError);
    };
    push_count(out, width as usize)?;
    push_number(out, length)?;
    push_entries(out, entries)
}

/// Appends the number of widths, and the bucket of each.
fn push_buckets(out: &mut Vec<u8>, entries: &[Entry]) -> Result<(), AllocError>
    ensures { OnOk result (out.new.items ≡ out.old.items ++ buckets_bytes entries.now) }
{
    push_count(out, count_runs(Key::Width, entries))?;
    let mut rest = entries;
    while let Some(front) = split_run(Key::Width, rest) {
        push_bucket(out, front.key, front.entries)?;
        rest = front.following;
    }
    Ok(())
}

/// Appends the entries of this hash code, after it.
fn push_code(out: &mut Vec<u8>, code: u64, entries: &[Entry]) -> Result<(), AllocError>
    ensures { OnOk result (out.new.items ≡ out.old.items ++ code_bytes (code, entries.now)) }
{
    push_number(out, code)?;
    push_buckets(out, entries)
}

/// Appends the number of hash codes, and the entries of each.
fn push_codes(out: &mut Vec<u8>, entries: &[Entry]) -> Result<(), AllocError>
    ensures { OnOk result (out.new.items ≡ out.old.items ++ codes_bytes entries.now) }
{
    push_count(out, count_runs(Key::HashCode, entries))?;
    let mut rest = entries;
    while let Some(front) = split_run(Key::HashCode, rest) {
        push_code(out, front.key, front.entries)?;
        rest = front.following;
    }
    Ok(())
}

/// Encodes an index of the format MultihashIndexSorted. The entries have to be sorted.
pub fn encode_index(alloc: Global, entries: &[Entry]) -> Result<Vec<u8>, AllocError>
    ensures { IfOk result (λ v. v.items ≡ index_bytes entries.now) }
{
    let mut out = Vec::new(alloc);
    out.extend_from_slice(&BY_MULTIHASH)?;
    push_codes(&mut out, entries)?;
    Ok(out)
}
