//! Counts that only contracts see.

ghost use Rattle.std.specs.Prelude.{◌≡◌, ℕ, ◌+◌};
ghost use base.Fml.{ftrue};

use std::marker::Model;

/// A count that takes no room in memory and has no maximum, such as of a device's faults.
pub struct Tally {
    pub ghost count: { ℕ },
}

impl Model for Tally {
    ghost also_owns = { λ _. ftrue };
}

impl Tally {
    /// Returns a count of 0.
    pub fn new() -> Tally
        ensures { result.count ≡ 0 }
    {
        Tally {}
    }

    /// Raises the count by `by`. Does nothing at run time.
    pub fn add(&mut self, by: usize)
        ensures { self.new.count ≡ self.old.count + by }
    {}
}

impl Drop for Tally {
    fn drop(self) {
        let Tally {} = self;
    }
}
