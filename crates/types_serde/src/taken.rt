//! Which entries of a map were taken, if several values share it.

ghost use Rattle.std.specs.Prelude.{◌≡◌, ◌*◌, ◌^◌, ◌==◌, nat_lt, bit_and, Some, None, true, false, if◌then◌else◌};

/// The one bit of all entries from the 64th on.
const LAST: u64 = 1 << 63;

/// All entries.
pub(crate) const ALL: u64 = u64::MAX;

/// The entries that fields took, as a derive keeps them: one bit each for the first 63.
#[derive(Clone, Copy, Drop)]
pub(crate) struct Taken {
    bits: u64,
    /// The bit of the next entry.
    next: u64,
}

impl Taken {
    /// Starts before the first entry.
    pub(crate) fn new(bits: u64) -> Taken
        ensures { result ≡ record { bits = bits; next = 1 } }
    {
        Taken { bits, next: 1 }
    }

    /// Goes to the next entry, and returns whether it was taken. From the 64th entry on it returns
    /// `None` for true: which of them was taken is not known.
    #[inline(always)]
    pub(crate) fn next(&mut self) -> Option<bool>
        ensures taken { result ≡ (if bit_and self.old.bits self.old.next == 0 then Some false
            else (if self.old.next == 2 ^ 63 then None else Some true)) }
        ensures next { self.new ≡ record {
          bits = self.old.bits;
          next = if nat_lt self.old.next (2 ^ 63) then 2 * self.old.next else self.old.next;
        } }
    {
        let bit = self.next;
        self.next = bit.checked_mul(2).unwrap_or(bit);
        if self.bits & bit == 0 {
            return Some(false);
        }
        if bit == LAST { None } else { Some(true) }
    }
}
