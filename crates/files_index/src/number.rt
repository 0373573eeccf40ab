//! Reads bytes and numbers at places.

ghost use Rattle.std.specs.Prelude.{◌≡◌, ◌<◌, length};
ghost use Rattle.std.specs.Int.{w32, w64};
ghost use Rattle.files_index.specs.Places.{FillsFrom, ReadsNumber};

use crate::read_at::ReadAt;
use std::io;

/// Fills the buffer with the bytes at a place. Returns whether there were enough.
pub fn fill<S: ReadAt>(source: &S, place: u64, room: &mut [u8]) -> io::Result<bool>
    ensures { FillsFrom (S.bytes source.now) place result room.new }
{
    let mut filled = 0;
    while filled < room.len() {
        // A sum that saturates is after all bytes.
        let next = place.saturating_add(filled as u64);
        let count = source.read_at(&mut room[filled..], next)?;
        if count == 0 {
            return Ok(false);
        }
        filled += count;
    }
    Ok(true)
}

/// Reads the number of eight bytes, little-endian, at a place. `None` if the bytes end before it
/// does.
pub fn number_at<S: ReadAt>(source: &S, place: u64) -> io::Result<Option<u64>>
    ensures { ReadsNumber w64 (S.bytes source.now) place result }
{
    let mut room = [0; 8];
    if fill(source, place, &mut room)? {
        Ok(Some(u64::from_le_bytes(room)))
    } else {
        Ok(None)
    }
}

/// Reads the number of four bytes, little-endian, at a place. `None` if the bytes end before it
/// does.
pub fn count_at<S: ReadAt>(source: &S, place: u64) -> io::Result<Option<u32>>
    ensures { ReadsNumber w32 (S.bytes source.now) place result }
{
    let mut room = [0; 4];
    if fill(source, place, &mut room)? {
        Ok(Some(u32::from_le_bytes(room)))
    } else {
        Ok(None)
    }
}
