//! Sources whose bytes are read at places.

ghost use Rattle.std.specs.Prelude.{◌≡◌, ◌<◌, ◌^◌, ◌∷◌, length, drop, Some, IfSome, IfOk, List, ℕ, Option, None};
ghost use Rattle.std.specs.Option.{option_map};
ghost use Rattle.std.specs.Io.{ReadsAtMost};
ghost use Rattle.std.specs.Io.Buffered.{reader_remaining};
ghost use Rattle.files_index.specs.Places.{ReadsThere};
ghost use Rattle.files_index.specs.Rests.{rest_remaining};

use std::alloc::Global;
use std::fs::File;
use std::io;
use std::io::{BufReader, ErrorKind, Read};
use std::os::unix::fs::FileExt;

/// A source that is read at places, and does not change.
pub trait ReadAt {
    /// The bytes, if they are known.
    ghost bytes: { Self → Option (List ℕ) } = { λ _. None };

    /// Reads some bytes, beginning at the place. Returns how many: 0 after the last byte.
    fn read_at(&self, buf: &mut [u8], place: u64) -> io::Result<usize>
        ensures bound { ReadsAtMost result buf.new }
        ensures bytes { ReadsThere (bytes self.now) place result buf.new }
        ensures fits { IfSome (bytes self.now) (λ b. length b < 2 ^ 64) };
}

/// The length that no file exceeds.
const FILES_END: u64 = i64::MAX as u64;

impl ReadAt for File {
    fn read_at(&self, buf: &mut [u8], place: u64) -> io::Result<usize> {
        // A read past that place is an error of the system.
        if place >= FILES_END {
            return Ok(0);
        }
        let most = (FILES_END - place).min(buf.len() as u64) as usize;
        FileExt::read_at(self, &mut buf[..most], place)
    }
}

impl ReadAt for &[u8] {
    ghost bytes = { λ s. Some s.now };

    fn read_at(&self, buf: &mut [u8], place: u64) -> io::Result<usize> {
        let begin = place.min(self.len() as u64) as usize;
        let rest = &self[begin..];
        let count = rest.len().min(buf.len());
        buf[..count].copy_from_slice(&rest[..count]);
        Ok(count)
    }
}

/// A reader of the bytes of a source, beginning at a place.
#[derive(Drop)]
pub struct Rest<'a, S> {
    source: &'a S,
    place: u64,
}

impl<'a, S: ReadAt> Rest<'a, S> {
    pub fn new(source: &'a S, place: u64) -> Rest<'a, S>
        ensures source { result.source.now ≡ source.now }
        ensures place { result.place ≡ place }
    {
        Rest { source, place }
    }
}

impl<S: ReadAt> Read for Rest<'_, S> {
    ghost remaining = { rest_remaining S.bytes };

    fn read(&mut self, buf: &mut [u8]) -> io::Result<usize> {
        let count = self.source.read_at(buf, self.place)?;
        match self.place.checked_add(count as u64) {
            Some(place) => {
                self.place = place;
                Ok(count)
            }
            None => Err(io::Error::from(ErrorKind::Other)),
        }
    }
}

/// Returns a buffered reader of the bytes beginning at a place.
pub fn buffered_from<S: ReadAt>(
    alloc: Global,
    source: &S,
    place: u64,
) -> io::Result<BufReader<Rest<'_, S>>>
    ensures { IfOk result (λ r. reader_remaining (rest_remaining S.bytes) r
        ≡ option_map (drop place) (S.bytes source.now)) }
{
    BufReader::new(alloc, Rest::new(source, place))
}
