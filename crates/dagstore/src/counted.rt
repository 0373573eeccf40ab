//! A source that reports how many of its bytes were taken.

use program_dagstore::Progress;
use std::io;
use std::io::{BufRead, Read, Write};

/// A source that reports how many of its bytes were taken.
#[derive(Drop)]
pub struct Counted<R, E> {
    source: R,
    progress: Progress<E>,
}

impl<R: BufRead, E: Write> Counted<R, E> {
    /// Takes the source, and where progress is reported.
    pub fn new(source: R, progress: Progress<E>) -> Counted<R, E> {
        Counted { source, progress }
    }
}

impl<R: BufRead, E: Write> Read for Counted<R, E> {
    fn read(&mut self, buf: &mut [u8]) -> io::Result<usize> {
        let count = self.source.read(buf)?;
        self.progress.add(count as u64);
        Ok(count)
    }
}

impl<R: BufRead, E: Write> BufRead for Counted<R, E> {
    fn fill_buf(&mut self) -> io::Result<&[u8]> {
        self.source.fill_buf()
    }

    fn consume(&mut self, amount: usize) {
        self.source.consume(amount);
        self.progress.add(amount as u64);
    }
}
