//! Looks up where the sections of a multihash begin, in an index that anyone may have made.

ghost use Rattle.std.specs.Prelude.{◌≡◌, ◌+◌, ◌<◌, ◌≤◌, ◌^◌, ◌-◌, min, length, MatchOption};
ghost use Rattle.std.specs.Int.{w16};
ghost use Rattle.std.specs.Ordering.{nat_cmp};
ghost use Rattle.std.specs.Cmp.Lexicographic.{slice_cmp};
ghost use Rattle.files_index.specs.Places.{ReadsNumber};
ghost use Rattle.files_index.specs.Lookup.{Looks, bucket_of, bucket_at, bucket_in, after_buckets};
ghost use Rattle.files_index.specs.Lookup.{bucket_under, find_bucket, entry_place, digest_in};
ghost use Rattle.files_index.specs.Lookup.{FindsFirst, FindsOffset};

use crate::number::{count_at, fill, number_at};
use crate::read_at::ReadAt;
use std::cmp::Ordering;
use std::io;

/// The varint of the format IndexSorted (0x0400), as a number of two bytes.
const BY_WIDTH: u16 = 0x0880;

/// The varint of the format MultihashIndexSorted (0x0401), as a number of two bytes.
const BY_MULTIHASH: u16 = 0x0881;

/// The length of a bucket's head, in bytes: a width, and a length.
const BUCKET_HEAD: u64 = 12;

/// The greatest length of a digest, in bytes.
const LONGEST_DIGEST: usize = 64;

/// A bucket: entries of one width, one after another.
#[derive(Clone, Copy, Drop)]
pub struct Bucket {
    begin: u64,
    width: u64,
    count: u64,
}

/// Returns the bucket of this width that begins at a place and has this length in bytes, and the
/// place after it. `None` if the width is below 8, or the bucket would end at 2^64 or above.
fn bucket_of(begin: u64, width: u64, length: u64) -> Option<(Bucket, u64)>
    ensures { result ≡ bucket_of begin width length }
{
    match begin.checked_add(length) {
        Some(following) if width >= 8 => {
            let count = length / width;
            Some((
                Bucket {
                    begin,
                    width,
                    count,
                },
                following,
            ))
        }
        _ => None,
    }
}

/// Returns the bucket whose head is at a place, and the place after the bucket.
fn bucket_at<S: ReadAt>(source: &S, place: u64) -> io::Result<Option<(Bucket, u64)>>
    ensures { Looks (S.bytes source.now) result (λ b r. r ≡ bucket_at b place) }
{
    let Some(width) = count_at(source, place)? else {
        return Ok(None);
    };
    let Some(length) = number_at(source, place.saturating_add(4))? else {
        return Ok(None);
    };
    let begin = place.saturating_add(BUCKET_HEAD);
    Ok(bucket_of(begin, u64::from(width), length))
}

/// Returns the first bucket of this width, of those whose count is at the place. `None` if there is
/// none.
fn bucket_in<S: ReadAt>(source: &S, place: u64, width: u64) -> io::Result<Option<Bucket>>
    ensures { Looks (S.bytes source.now) result (λ b r. r ≡ bucket_in b width place) }
{
    let Some(count) = count_at(source, place)? else {
        return Ok(None);
    };
    let mut next = place.saturating_add(4);
    for _bucket in 0..count {
        match bucket_at(source, next)? {
            Some((bucket, _following)) if bucket.width == width => return Ok(Some(bucket)),
            Some((_bucket, following)) => next = following,
            None => return Ok(None),
        }
    }
    Ok(None)
}

/// Returns the place after all buckets whose count is at the place.
fn after_buckets<S: ReadAt>(source: &S, place: u64) -> io::Result<Option<u64>>
    ensures { Looks (S.bytes source.now) result (λ b r. r ≡ after_buckets b place) }
{
    let Some(count) = count_at(source, place)? else {
        return Ok(None);
    };
    let mut next = place.saturating_add(4);
    for _bucket in 0..count {
        match bucket_at(source, next)? {
            Some((_bucket, following)) => next = following,
            None => return Ok(None),
        }
    }
    Ok(Some(next))
}

/// Returns the bucket of this width under this hash code. `None` if there is none. The count of
/// hash codes is at the place.
fn bucket_under<S: ReadAt>(
    source: &S,
    place: u64,
    hash_code: u64,
    width: u64,
) -> io::Result<Option<Bucket>>
    ensures { Looks (S.bytes source.now) result (λ b r. r ≡ bucket_under b hash_code width place) }
{
    let Some(count) = count_at(source, place)? else {
        return Ok(None);
    };
    let mut next = place.saturating_add(4);
    for _code in 0..count {
        let Some(code) = number_at(source, next)? else {
            return Ok(None);
        };
        let buckets = next.saturating_add(8);
        if code == hash_code {
            return bucket_in(source, buckets, width);
        }
        match after_buckets(source, buckets)? {
            Some(following) => next = following,
            None => return Ok(None),
        }
    }
    Ok(None)
}

/// Returns the number of two bytes at a place. `None` if the bytes end before it does.
fn format_at<S: ReadAt>(source: &S, place: u64) -> io::Result<Option<u16>>
    ensures { ReadsNumber w16 (S.bytes source.now) place result }
{
    let mut room = [0; 2];
    if fill(source, place, &mut room)? {
        Ok(Some(u16::from_le_bytes(room)))
    } else {
        Ok(None)
    }
}

/// Returns the bucket in which the entries of this digest are, in the index at a place. `None` if
/// there is none.
pub fn find_bucket<S: ReadAt>(
    source: &S,
    index: u64,
    hash_code: u64,
    digest: &[u8],
) -> io::Result<Option<Bucket>>
    ensures { Looks (S.bytes source.now) result (λ b r. r ≡ find_bucket b index hash_code digest.now) }
{
    let Some(format) = format_at(source, index)? else {
        return Ok(None);
    };
    let following = index.saturating_add(2);
    let width = digest.len() as u64 + 8;
    if format == BY_WIDTH {
        return bucket_in(source, following, width);
    }
    if format == BY_MULTIHASH {
        return bucket_under(source, following, hash_code, width);
    }
    Ok(None)
}

impl Bucket {
    /// Returns where the entry with this number begins. A sum that saturates is after all bytes.
    fn place_of(&self, number: u64) -> u64
        ensures { result ≡ min (entry_place self.now number) (2 ^ 64 - 1) }
    {
        self.begin.saturating_add(number.saturating_mul(self.width))
    }

    /// Returns how the digest of the entry with this number compares with this one. `None` if the
    /// bytes end before that digest does.
    fn compare<S: ReadAt>(
        &self,
        source: &S,
        number: u64,
        digest: &[u8],
    ) -> io::Result<Option<Ordering>>
        requires { length digest.now ≤ 64 }
        ensures { Looks (S.bytes source.now) result (λ b r. MatchOption r
            (length b < entry_place self.now number + length digest.now)
            (λ o. o ≡ slice_cmp nat_cmp (digest_in b self.now (length digest.now) number) digest.now)) }
    {
        let place = self.place_of(number);
        let mut room = [0; LONGEST_DIGEST];
        let read = &mut room[..digest.len()];
        if !fill(source, place, read)? {
            return Ok(None);
        }
        Ok(Some((&*read).cmp(digest)))
    }

    /// Returns how many entries come before the first whose digest is not below this one, if the
    /// digests ascend. `None` if the bytes end within an entry's digest.
    pub fn first_of<S: ReadAt>(&self, source: &S, digest: &[u8]) -> io::Result<Option<u64>>
        requires { length digest.now ≤ 64 }
        ensures { Looks (S.bytes source.now) result (FindsFirst self.now digest.now) }
    {
        let mut low = 0;
        let mut high = self.count;
        while low < high {
            let middle = low + (high - low) / 2;
            match self.compare(source, middle, digest)? {
                Some(Ordering::Less) => low = middle + 1,
                Some(_) => high = middle,
                None => return Ok(None),
            }
        }
        Ok(Some(low))
    }

    /// Returns the offset of the entry with this number. `None` if its digest is not this one.
    pub fn offset_of<S: ReadAt>(
        &self,
        source: &S,
        number: u64,
        digest: &[u8],
    ) -> io::Result<Option<u64>>
        ensures { Looks (S.bytes source.now) result (FindsOffset self.now digest.now number) }
    {
        if number >= self.count || digest.len() > LONGEST_DIGEST {
            return Ok(None);
        }
        let Some(order) = self.compare(source, number, digest)? else {
            return Ok(None);
        };
        match order {
            Ordering::Equal => {
                let place = self.place_of(number);
                number_at(source, place.saturating_add(digest.len() as u64))
            }
            _ => Ok(None),
        }
    }
}
