//! Progress, which is reported if standard error is a terminal.

use std::alloc::Global;
use std::io::Write;

/// Counts the units that are done and, if `is_told`, reports the count after every `each` units.
#[derive(Drop)]
pub struct Progress<E> {
    alloc: Global,
    errors: E,
    is_told: bool,
    unit: &'static str,
    each: u64,
    done: u64,
    next: u64,
}

impl<E: Write> Progress<E> {
    /// Starts at 0. The count is reported on `errors`, a device of its own, if `is_told`, after
    /// every `each` of the unit.
    pub fn new(
        alloc: Global,
        errors: E,
        is_told: bool,
        unit: &'static str,
        each: u64,
    ) -> Progress<E> {
        Progress {
            alloc,
            errors,
            is_told,
            unit,
            each,
            done: 0,
            next: each,
        }
    }

    /// Counts `more` units.
    pub fn add(&mut self, more: u64) {
        self.done = self.done.saturating_add(more);
        if self.is_told && self.done >= self.next {
            self.next = self.done.saturating_add(self.each);
            self.tell();
        }
    }

    /// Reports the count. If memory runs out or the terminal fails, that is ignored.
    fn tell(&mut self) {
        if let Ok(line) = format!(in self.alloc; "dagstore: {} {}\n", self.done, self.unit) {
            let _ = self.errors.write_all(line.as_bytes());
        }
    }
}
