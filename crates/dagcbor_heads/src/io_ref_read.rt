//! A reader over a borrowed buffered source.

ghost use Rattle.std.specs.Prelude.{◌≡◌, ◌≤◌, ◌∷◌, [], false, List, ℕ, Some};
ghost use Rattle.dagcbor_core.specs.Steps.{default_steps};
ghost use Rattle.dagcbor_heads.specs.Reading.{fresh_reading};

use crate::read::Read;
use crate::steps::Steps;
use crate::window::Window;
use dagcbor_core::DEFAULT_STEPS;
use std::io;
use std::io::BufRead;
use std::marker::Model;

/// A reader over a borrowed buffered source, otherwise as `IoReader`. Contracts see through which
/// reference it reads, so that a caller knows what its source has left.
pub struct IoRefReader<'r, R: BufRead> {
    source: &'r mut R,
    window: Window,
    steps: Steps,
}

impl<'r, R: BufRead> Model for IoRefReader<'r, R> {
    ghost use Rattle.std.specs.Prelude.{◌∷◌, [], false};
    ghost use Rattle.dagcbor_heads.specs.Reading.{Reading};
    ghost use Rattle.dagcbor_heads.specs.IoReading.{bytes_told};

    ghost Value = { Reading };

    ghost view = { λ s. record {
      left = bytes_told s.window.copies s.window.taken (R.remaining s.source.now)
          (R.consumable_len s.source.now);
      shown = s.window.shown;
      steps = s.steps.left;
      budget = s.steps.budget;
      lends = false;
      faults = s.window.faults;
      looked = s.window.looked;
      through = s.source.ghost_name ∷ [];
    } };
}

impl<'r, R: BufRead> IoRefReader<'r, R> {
    /// Returns a reader over the source, with a budget of `DEFAULT_STEPS`.
    pub fn new(source: &'r mut R) -> IoRefReader<'r, R>
        ensures { result ≡ fresh_reading (R.remaining source.old) default_steps false
            (source.entry.ghost_name ∷ []) }
    {
        IoRefReader::with_depth(source, DEFAULT_STEPS)
    }

    /// Returns a reader over the source, with a budget of `steps`, at most 1,024.
    pub fn with_depth(source: &'r mut R, steps: usize) -> IoRefReader<'r, R>
        requires { steps ≤ 1024 }
        ensures { result ≡ fresh_reading (R.remaining source.old) steps false
            (source.entry.ghost_name ∷ []) }
    {
        IoRefReader {
            source,
            window: Window::new(),
            steps: Steps::new(steps),
        }
    }

    /// Returns the source, which has lost exactly the bytes that were taken.
    pub fn into_inner(self) -> &'r mut R
        ensures reference { self.entry.through ≡ result.ghost_name ∷ [] }
        ensures left { (b : List ℕ) → self.entry.left ≡ Some b → R.remaining result.now ≡ Some b }
    {
        let Self {
            source,
            window,
            steps: _,
        } = self;
        let taken = window.taken();
        source.consume(taken);
        source
    }
}

impl<R: BufRead> Drop for IoRefReader<'_, R> {
    fn drop(self) {
        let Self {
            source,
            window,
            steps: _,
        } = self;
        source.consume(window.taken());
    }
}

impl<R: BufRead> Read for IoRefReader<'_, R> {
    type Error = io::Error;

    ghost reading = { λ s. s };

    fn prepare(&mut self, want: usize) -> Result<(), io::Error> {
        self.window.look(self.source, want)
    }

    fn shown(&self) -> &[u8] {
        self.window.shown()
    }

    fn advance(&mut self, n: usize) {
        self.window.advance(n);
    }

    fn take_head(&mut self) -> Option<(u8, u64, u8)> {
        self.window.take_head()
    }

    fn at_hand(&self) -> &[u8] {
        self.window.at_hand()
    }

    fn take_at_hand(&mut self, n: usize) -> bool {
        self.window.take(n)
    }

    fn step_in(&mut self) -> bool {
        self.steps.spend()
    }

    fn step_out(&mut self) {
        self.steps.give_back();
    }
}
