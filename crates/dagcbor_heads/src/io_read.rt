//! A reader over any buffered source.

ghost use Rattle.std.specs.Prelude.{◌≡◌, ◌≤◌, [], false, List, ℕ, Some};
ghost use Rattle.dagcbor_core.specs.Steps.{default_steps};
ghost use Rattle.dagcbor_heads.specs.Reading.{fresh_reading};

use crate::read::Read;
use crate::steps::Steps;
use crate::window::Window;
use dagcbor_core::DEFAULT_STEPS;
use std::io;
use std::io::BufRead;
use std::marker::Model;

/// A reader over a buffered source. It takes no byte early: the bytes shown are copies of bytes
/// that the source still has. The bytes taken are consumed from the source when it is asked for
/// more, in `into_inner`, and when the reader is dropped. An interrupted call is a fault like any
/// other.
pub struct IoReader<R: BufRead> {
    source: R,
    window: Window,
    steps: Steps,
}

impl<R: BufRead> Model for IoReader<R> {
    ghost use Rattle.std.specs.Prelude.{[], false};
    ghost use Rattle.dagcbor_heads.specs.Reading.{Reading};
    ghost use Rattle.dagcbor_heads.specs.IoReading.{bytes_told};

    ghost Value = { Reading };

    ghost view = { λ s. record {
      left = bytes_told s.window.copies s.window.taken (R.remaining s.source)
          (R.consumable_len s.source);
      shown = s.window.shown;
      steps = s.steps.left;
      budget = s.steps.budget;
      lends = false;
      faults = s.window.faults;
      looked = s.window.looked;
      through = [];
    } };
}

impl<R: BufRead> IoReader<R> {
    /// Returns a reader over the source, with a budget of `DEFAULT_STEPS`.
    pub fn new(source: R) -> IoReader<R>
        ensures { result ≡ fresh_reading (R.remaining source) default_steps false [] }
    {
        IoReader::with_depth(source, DEFAULT_STEPS)
    }

    /// Returns a reader over the source, with a budget of `steps`, at most 1,024.
    pub fn with_depth(source: R, steps: usize) -> IoReader<R>
        requires { steps ≤ 1024 }
        ensures { result ≡ fresh_reading (R.remaining source) steps false [] }
    {
        IoReader {
            source,
            window: Window::new(),
            steps: Steps::new(steps),
        }
    }

    /// Returns the source, which has lost exactly the bytes that were taken.
    pub fn into_inner(self) -> R
        ensures { (b : List ℕ) → self.left ≡ Some b → R.remaining result ≡ Some b }
    {
        let Self {
            mut source,
            window,
            steps: _,
        } = self;
        source.consume(window.taken());
        source
    }
}

impl<R: BufRead + Drop> Drop for IoReader<R> {
    fn drop(self) {
        let Self {
            mut source,
            window,
            steps: _,
        } = self;
        source.consume(window.taken());
    }
}

impl<R: BufRead + Drop> Read for IoReader<R> {
    type Error = io::Error;

    ghost reading = { λ s. s };

    fn prepare(&mut self, want: usize) -> Result<(), io::Error> {
        self.window.look(&mut self.source, want)
    }

    fn shown(&self) -> &[u8] {
        self.window.shown()
    }

    #[tactic(auto, using(crate::proofs::Windows::more_taken))]
    fn advance(&mut self, n: usize) {
        self.window.advance(n);
    }

    fn take_head(&mut self) -> Option<(u8, u64, u8)> {
        self.window.take_head()
    }

    fn at_hand(&self) -> &[u8] {
        self.window.at_hand()
    }

    fn take_at_hand(&mut self, n: usize) -> bool {
        self.window.take(n)
    }

    fn step_in(&mut self) -> bool {
        self.steps.spend()
    }

    fn step_out(&mut self) {
        self.steps.give_back();
    }
}
