//! The steps into items that a reader has left.

ghost use Rattle.std.specs.Prelude.{◌≡◌, ◌+◌, ◌-◌, ◌<◌, MatchBool};
ghost use Rattle.dagcbor_heads.specs.Refusals.{SpendsStep};

use crate::read::{Read, ReadResult};
use dagcbor_core::{DecodeError, Name};
use std::marker::Model;

/// The steps left of a budget.
#[derive(Drop)]
pub(crate) struct Steps {
    left: usize,
    budget: usize,
}

impl Model for Steps {
    ghost use Rattle.std.specs.Prelude.{◌≤◌};
    ghost use Rattle.dagcbor_heads.specs.Reading.{StepsLeft};

    ghost Value = { StepsLeft };

    ghost view = { λ s. record { left = s.left; budget = s.budget } };

    ghost invariant = { λ s. s.left ≤ s.budget };
}

impl Steps {
    /// Returns a full budget.
    pub(crate) fn new(budget: usize) -> Steps
        ensures { result ≡ record { left = budget; budget = budget } }
    {
        Steps {
            left: budget,
            budget,
        }
    }

    /// Spends a step, or returns false if no step is left.
    pub(crate) fn spend(&mut self) -> bool
        ensures { MatchBool result
            ((0 < self.old.left) × (self.new.left < self.new.budget)
            × (self.new ≡ record { left = self.old.left - 1; budget = self.old.budget }))
            ((self.old.left ≡ 0) × (self.new ≡ self.old)) }
    {
        if self.left == 0 {
            return false;
        }
        self.left -= 1;
        true
    }

    /// Gives back a step that was spent.
    pub(crate) fn give_back(&mut self)
        requires { self.old.left < self.old.budget }
        ensures { self.new ≡ record { left = self.old.left + 1; budget = self.old.budget } }
    {
        self.left += 1;
    }
}

/// Spends a step of the reader, or refuses with `DepthOverflow` if no step is left. Looks at no
/// byte.
pub fn spend_step<R: Read>(name: &str, reader: &mut R) -> ReadResult<(), R>
    ensures { SpendsStep name.now (R.reading reader.old) result (R.reading reader.new) }
{
    if reader.step_in() {
        return Ok(());
    }
    Err(DecodeError::DepthOverflow {
        name: Name::new(name),
    })
}
