//! Devices of std with little room, which fail.

use std::alloc::Global;
use std::io;
use std::io::{BufRead, ErrorKind, Read, Write};

/// A source that shows `size` bytes a fill, and fails in this way at one of its fills.
#[derive(Drop)]
pub struct FaultySource<'a> {
    bytes: &'a [u8],
    size: usize,
    fills: usize,
    faulty: usize,
    fault: ErrorKind,
}

impl<'a> FaultySource<'a> {
    pub fn new(bytes: &'a [u8], size: usize, faulty: usize, fault: ErrorKind) -> FaultySource<'a> {
        FaultySource {
            bytes,
            size,
            fills: 0,
            faulty,
            fault,
        }
    }
}

impl Read for FaultySource<'_> {
    fn read(&mut self, _buf: &mut [u8]) -> io::Result<usize> {
        Ok(0)
    }
}

impl BufRead for FaultySource<'_> {
    fn fill_buf(&mut self) -> io::Result<&[u8]> {
        self.fills = self.fills.saturating_add(1);
        if self.fills == self.faulty {
            return Err(io::Error::from(self.fault));
        }
        let size = self.size.min(self.bytes.len());
        Ok(&self.bytes[..size])
    }

    fn consume(&mut self, amount: usize) {
        if amount <= self.bytes.len() {
            self.bytes = &self.bytes[amount..];
        }
    }
}

/// A sink that takes one byte a call. When it is full, it takes no byte, or fails.
#[derive(Drop)]
pub struct StingySink {
    held: Vec<u8>,
    room: usize,
    fault: Option<ErrorKind>,
}

impl StingySink {
    pub fn new(alloc: Global, room: usize, fault: Option<ErrorKind>) -> StingySink {
        StingySink {
            held: Vec::new(alloc),
            room,
            fault,
        }
    }

    /// Returns the bytes that the sink took.
    pub fn held(&self) -> &[u8] {
        &self.held
    }
}

impl Write for StingySink {
    fn write(&mut self, buf: &[u8]) -> io::Result<usize> {
        if self.held.len() >= self.room {
            return match self.fault {
                Some(fault) => Err(io::Error::from(fault)),
                None => Ok(0),
            };
        }
        match buf {
            [] => Ok(0),
            [first, ..] => {
                self.held.push(*first)?;
                Ok(1)
            }
        }
    }

    fn flush(&mut self) -> io::Result<()> {
        Ok(())
    }
}
