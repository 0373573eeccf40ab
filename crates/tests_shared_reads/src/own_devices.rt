//! Devices of a caller's own: a reader that shows few bytes a fill and may fail, and a writer that
//! fails.

ghost use Rattle.std.specs.Prelude.{[]};

use serde_ipld_dagcbor::{EncodeError, Read, Tally, Write};
use std::alloc::Global;
use std::marker::Model;

/// A reader that shows at most `size` bytes a fill, but at least one, and faults with 7 at one of
/// its fills.
#[derive(Drop)]
pub struct Pieces<'a> {
    rest: &'a [u8],
    size: usize,
    shown: usize,
    steps: usize,
    fills: u64,
    faulty: u64,
    faults: Tally,
    looked: Tally,
}

impl<'a> Model for Pieces<'a> {
    ghost use Rattle.std.specs.Prelude.{◌≤◌, ◌<◌, [], length, take, false, Some};
    ghost use Rattle.serde_ipld_dagcbor.specs.Reading.{Reading};

    ghost Value = { Reading };

    ghost view = { λ s. record {
      left = Some s.rest.now;
      shown = take s.shown s.rest.now;
      steps = s.steps;
      budget = 256;
      lends = false;
      faults = s.faults.count;
      looked = s.looked.count;
      through = [];
    } };

    ghost invariant = { λ s. (s.shown ≤ length s.rest.now) × (s.steps ≤ 256) × (0 < s.size) };
}

impl<'a> Pieces<'a> {
    pub fn new(bytes: &'a [u8], size: usize) -> Pieces<'a> {
        Pieces::failing(bytes, size, u64::MAX)
    }

    pub fn failing(bytes: &'a [u8], size: usize, faulty: u64) -> Pieces<'a> {
        Pieces {
            rest: bytes,
            size: size.max(1),
            shown: 0,
            steps: 256,
            fills: 0,
            faulty,
            faults: Tally::new(),
            looked: Tally::new(),
        }
    }
}

impl Read for Pieces<'_> {
    type Error = u8;

    ghost reading = { λ s. s };

    fn prepare(&mut self, want: usize) -> Result<(), u8> {
        self.fills = self.fills.saturating_add(1);
        if self.fills == self.faulty {
            self.shown = 0;
            self.faults.add(1);
            return Err(7);
        }
        self.shown = self.rest.len().min(self.size);
        self.looked.add(want.min(self.shown));
        Ok(())
    }

    fn shown(&self) -> &[u8] {
        &self.rest[..self.shown]
    }

    fn advance(&mut self, n: usize) {
        self.rest = &self.rest[n..];
        self.shown = 0;
        self.looked.add(n);
    }

    fn step_in(&mut self) -> bool {
        if self.steps == 0 {
            return false;
        }
        self.steps -= 1;
        true
    }

    fn step_out(&mut self) {
        self.steps += 1;
    }
}

/// A writer that takes a given number of pushes, and faults with 9 at the next.
#[derive(Drop)]
pub struct FaultyWriter {
    held: Vec<u8>,
    pushes: u64,
    faults: Tally,
}

impl FaultyWriter {
    pub fn new(alloc: Global, pushes: u64) -> FaultyWriter {
        FaultyWriter {
            held: Vec::new(alloc),
            pushes,
            faults: Tally::new(),
        }
    }

    pub fn held(&self) -> &[u8] {
        &self.held
    }
}

impl Write for FaultyWriter {
    type Error = u8;

    ghost use Rattle.std.specs.Prelude.{Some, true};

    ghost written = { λ w. record { bytes = Some w.held.items; faults = w.faults.count; through = [] } };

    ghost takes_memory = { true };

    fn push(&mut self, bytes: &[u8]) -> Result<(), EncodeError<u8>> {
        if self.pushes == 0 {
            self.faults.add(1);
            return Err(EncodeError::Write(9));
        }
        self.pushes -= 1;
        match self.held.extend_from_slice(bytes) {
            Ok(()) => Ok(()),
            Err(_) => Err(EncodeError::OutOfMemory),
        }
    }
}
