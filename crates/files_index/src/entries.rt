//! Reads the entries of an index that anyone may have made.

ghost use Rattle.std.specs.Prelude.{◌≡◌, ◌≤◌, ◌-◌, length, drop, None, IfSome};
ghost use Rattle.std.specs.Int.{w32, w64};
ghost use Rattle.files_index.specs.Entries.{Pulls, PullsNumber, Lists, no_last, any_last, is_last, rises};
ghost use Rattle.files_index.specs.Entries.{entry, entry_in, times, bucket, bucket_of, buckets, code_of};
ghost use Rattle.files_index.specs.Entries.{code_part, codes_part, index_of, index_entries, IsRead};

use crate::entry::Entry;
use crate::read_at::{ReadAt, buffered_from};
use std::alloc::{AllocError, Global};
use std::io::Read;

/// The format of an index: how it groups its entries.
#[derive(Clone, Copy, Debug, PartialEq, Eq)]
pub enum Format {
    /// Entries are grouped by width only (0x0400, IndexSorted).
    ByWidth,
    /// Entries are grouped by hash code, and then by width (0x0401, MultihashIndexSorted).
    ByMultihash,
}

/// Why bytes are not an index.
#[derive(Clone, Copy, Debug, PartialEq, Eq)]
pub enum IndexFault {
    /// The bytes end before the index does.
    Truncated,
    /// The bytes begin with no known format.
    UnknownFormat,
    /// An entry is shorter than its offset of 8 bytes, or its digest has more than 64 bytes.
    Width,
    /// A hash code or a width is not greater than the one before it.
    Order,
    /// The length of a bucket is not a multiple of the width of its entries.
    Length,
}

/// Why an index was not read.
#[derive(Clone, Copy, Debug, PartialEq, Eq)]
pub enum IndexError {
    /// The source returned an I/O error.
    Read,
    OutOfMemory,
    Fault(IndexFault),
}

impl From<AllocError> for IndexError {
    fn from(_error: AllocError) -> IndexError {
        IndexError::OutOfMemory
    }
}

/// An index that was read.
#[derive(Drop)]
pub struct Listing {
    pub format: Format,
    /// The entries, in the order of the index. In the format `ByWidth` their hash code is 0.
    pub entries: Vec<Entry>,
}

/// The varint of the format IndexSorted (0x0400).
const BY_WIDTH: [u8; 2] = [0x80, 0x08];

/// The varint of the format MultihashIndexSorted (0x0401).
const BY_MULTIHASH: [u8; 2] = [0x81, 0x08];

/// The length of an offset, in bytes.
const OFFSET_LENGTH: usize = 8;

/// The greatest width of an entry: a digest of 64 bytes, and an offset.
const WIDEST: usize = 72;

/// Fills the whole buffer with the next bytes.
fn pull<R: Read>(input: &mut R, room: &mut [u8]) -> Result<(), IndexError>
    ensures { Pulls (R.remaining input.old) result room.new (R.remaining input.new) }
{
    let mut filled = 0;
    while filled < room.len() {
        let Ok(count) = input.read(&mut room[filled..]) else {
            return Err(IndexError::Read);
        };
        if count == 0 {
            return Err(IndexError::Fault(IndexFault::Truncated));
        }
        filled += count;
    }
    Ok(())
}

/// Takes a number of four bytes, little-endian.
fn pull_count<R: Read>(input: &mut R) -> Result<u32, IndexError>
    ensures { PullsNumber w32 (R.remaining input.old) result (R.remaining input.new) }
{
    let mut room = [0; 4];
    pull(input, &mut room)?;
    Ok(u32::from_le_bytes(room))
}

/// Takes a number of eight bytes, little-endian.
fn pull_number<R: Read>(input: &mut R) -> Result<u64, IndexError>
    ensures { PullsNumber w64 (R.remaining input.old) result (R.remaining input.new) }
{
    let mut room = [0; 8];
    pull(input, &mut room)?;
    Ok(u64::from_le_bytes(room))
}

/// Returns the entry with these bytes: a digest, and an offset of 8 bytes.
fn entry_of(code: u64, bytes: &[u8]) -> Entry
    requires { (8 ≤ length bytes.now) × (length bytes.now ≤ 72) }
    ensures { result ≡ entry_in code (length bytes.now - 8) bytes.now }
{
    match bytes.split_last_chunk::<OFFSET_LENGTH>() {
        Some((digest, offset)) => Entry::of_digest(code, digest, u64::from_le_bytes(*offset)),
        None => unreachable!(),
    }
}

/// Takes an entry of this width, and appends it.
fn push_entry<R: Read>(
    code: u64,
    width: usize,
    input: &mut R,
    entries: &mut Vec<Entry>,
) -> Result<(), IndexError>
    requires { (8 ≤ width) × (width ≤ 72) }
    ensures { IfSome (R.remaining input.old) (λ b. Lists no_last (entry code (width - 8) None b)
        entries.old.items result entries.new.items (R.remaining input.new)) }
{
    let mut room = [0; WIDEST];
    let bytes = &mut room[..width];
    pull(input, bytes)?;
    match entries.push(entry_of(code, bytes)) {
        Ok(()) => Ok(()),
        Err(_) => Err(IndexError::OutOfMemory),
    }
}

/// Takes `count` entries of this width, and appends them.
fn push_entries<R: Read>(
    code: u64,
    width: usize,
    count: u64,
    input: &mut R,
    entries: &mut Vec<Entry>,
) -> Result<(), IndexError>
    requires { (8 ≤ width) × (width ≤ 72) }
    ensures { IfSome (R.remaining input.old) (λ b. Lists no_last
        (times count (entry code (width - 8)) None b) entries.old.items result entries.new.items
        (R.remaining input.new)) }
{
    for _number in 0..count {
        push_entry(code, width, input, entries)?;
    }
    Ok(())
}

/// Returns whether the hash code or width is greater than the one before it, if there is one.
fn rises(last: Option<u64>, key: u64) -> bool
    ensures { result ≡ rises last key }
{
    match last {
        None => true,
        Some(last) => last < key,
    }
}

/// Takes the entries of a bucket of this width and size in bytes, and appends them. Returns the
/// width.
fn push_bucket_of<R: Read>(
    code: u64,
    last: Option<u64>,
    width: u64,
    size: u64,
    input: &mut R,
    entries: &mut Vec<Entry>,
) -> Result<u64, IndexError>
    ensures { IfSome (R.remaining input.old) (λ b. Lists is_last (bucket_of code last width size b)
        entries.old.items result entries.new.items (R.remaining input.new)) }
{
    if width < OFFSET_LENGTH as u64 || width > WIDEST as u64 {
        return Err(IndexError::Fault(IndexFault::Width));
    }
    if !rises(last, width) {
        return Err(IndexError::Fault(IndexFault::Order));
    }
    if size % width != 0 {
        return Err(IndexError::Fault(IndexFault::Length));
    }
    push_entries(code, width as usize, size / width, input, entries)?;
    Ok(width)
}

/// Takes a bucket, and appends its entries. Returns their width.
fn push_bucket<R: Read>(
    code: u64,
    last: Option<u64>,
    input: &mut R,
    entries: &mut Vec<Entry>,
) -> Result<u64, IndexError>
    ensures { IfSome (R.remaining input.old) (λ b. Lists is_last (bucket code last b)
        entries.old.items result entries.new.items (R.remaining input.new)) }
{
    let width = pull_count(input)?;
    let size = pull_number(input)?;
    push_bucket_of(code, last, u64::from(width), size, input, entries)
}

/// Takes `count` buckets, and appends their entries.
fn push_widths<R: Read>(
    code: u64,
    count: u32,
    input: &mut R,
    entries: &mut Vec<Entry>,
) -> Result<(), IndexError>
    ensures { IfSome (R.remaining input.old) (λ b. Lists any_last (times count (bucket code) None b)
        entries.old.items result entries.new.items (R.remaining input.new)) }
{
    let mut last = None;
    for _number in 0..count {
        last = Some(push_bucket(code, last, input, entries)?);
    }
    Ok(())
}

/// Takes the number of buckets, and then the buckets, and appends their entries.
fn push_buckets<R: Read>(
    code: u64,
    input: &mut R,
    entries: &mut Vec<Entry>,
) -> Result<(), IndexError>
    ensures { IfSome (R.remaining input.old) (λ b. Lists any_last (buckets code b)
        entries.old.items result entries.new.items (R.remaining input.new)) }
{
    let count = pull_count(input)?;
    push_widths(code, count, input, entries)
}

/// Takes the entries of this hash code, and appends them. Returns the hash code.
fn push_code_of<R: Read>(
    last: Option<u64>,
    code: u64,
    input: &mut R,
    entries: &mut Vec<Entry>,
) -> Result<u64, IndexError>
    ensures { IfSome (R.remaining input.old) (λ b. Lists is_last (code_of last code b)
        entries.old.items result entries.new.items (R.remaining input.new)) }
{
    if !rises(last, code) {
        return Err(IndexError::Fault(IndexFault::Order));
    }
    push_buckets(code, input, entries)?;
    Ok(code)
}

/// Takes a hash code and its entries, and appends them. Returns the hash code.
fn push_code<R: Read>(
    last: Option<u64>,
    input: &mut R,
    entries: &mut Vec<Entry>,
) -> Result<u64, IndexError>
    ensures { IfSome (R.remaining input.old) (λ b. Lists is_last (code_part last b)
        entries.old.items result entries.new.items (R.remaining input.new)) }
{
    let code = pull_number(input)?;
    push_code_of(last, code, input, entries)
}

/// Takes `count` hash codes and their entries, and appends these.
fn push_count<R: Read>(
    count: u32,
    input: &mut R,
    entries: &mut Vec<Entry>,
) -> Result<(), IndexError>
    ensures { IfSome (R.remaining input.old) (λ b. Lists any_last (times count code_part None b)
        entries.old.items result entries.new.items (R.remaining input.new)) }
{
    let mut last = None;
    for _number in 0..count {
        last = Some(push_code(last, input, entries)?);
    }
    Ok(())
}

/// Takes the number of hash codes, and then each with its entries, and appends these.
fn push_codes<R: Read>(input: &mut R, entries: &mut Vec<Entry>) -> Result<(), IndexError>
    ensures { IfSome (R.remaining input.old) (λ b. Lists any_last (codes_part b)
        entries.old.items result entries.new.items (R.remaining input.new)) }
{
    let count = pull_count(input)?;
    push_count(count, input, entries)
}

/// Takes the rest of an index, after its format.
fn pull_listing<R: Read>(
    alloc: Global,
    format: [u8; 2],
    input: &mut R,
) -> Result<Listing, IndexError>
    ensures { IfSome (R.remaining input.old) (λ b. IsRead (index_of format b) result) }
{
    let mut entries = Vec::new(alloc);
    let format = match format {
        BY_WIDTH => {
            push_buckets(0, input, &mut entries)?;
            Format::ByWidth
        }
        BY_MULTIHASH => {
            push_codes(input, &mut entries)?;
            Format::ByMultihash
        }
        _ => return Err(IndexError::Fault(IndexFault::UnknownFormat)),
    };
    Ok(Listing { format, entries })
}

/// Takes a whole index.
fn pull_index<R: Read>(alloc: Global, input: &mut R) -> Result<Listing, IndexError>
    ensures { IfSome (R.remaining input.old) (λ b. IsRead (index_entries b) result) }
{
    let mut format = [0; 2];
    pull(input, &mut format)?;
    pull_listing(alloc, format, input)
}

/// Reads the index at a place. The source is read once. No memory is reserved for counts that the
/// index announces.
pub fn read_index<S: ReadAt>(alloc: Global, source: &S, place: u64) -> Result<Listing, IndexError>
    ensures { IfSome (S.bytes source.now) (λ b. IsRead (index_entries (drop place b)) result) }
{
    match buffered_from(alloc, source, place) {
        Ok(mut input) => pull_index(alloc, &mut input),
        Err(_) => Err(IndexError::OutOfMemory),
    }
}
