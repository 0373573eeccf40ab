//! A writer over a borrowed writer of std.

ghost use Rattle.std.specs.Prelude.{◌≡◌, ◌∷◌, [], false};

use crate::io_write::push_all;
use crate::tally::Tally;
use crate::write::Write;
use dagcbor_core::EncodeError;
use std::io;
use std::marker::Model;

/// A writer over a borrowed device, otherwise as `IoWriter`. Contracts see through which reference
/// it writes, so that a caller knows what its device holds.
#[derive(Drop)]
pub struct IoRefWriter<'w, W: io::Write> {
    device: &'w mut W,
    faults: Tally,
}

impl<'w, W: io::Write> Model for IoRefWriter<'w, W> {
    ghost use Rattle.std.specs.Prelude.{◌∷◌, []};
    ghost use Rattle.dagcbor_heads.specs.Written.{Written};

    ghost Value = { Written };

    ghost view = { λ w. record { bytes = W.contents w.device.now; faults = w.faults.count; through = w.device.ghost_name ∷ [] } };
}

impl<'w, W: io::Write> IoRefWriter<'w, W> {
    /// Returns a writer to the borrowed device, with no fault counted yet.
    pub fn new(device: &'w mut W) -> IoRefWriter<'w, W>
        ensures { result ≡ record {
          bytes = W.contents device.old;
          faults = 0;
          through = device.entry.ghost_name ∷ [];
        } }
    {
        IoRefWriter {
            device,
            faults: Tally::new(),
        }
    }

    /// Returns the device, with what was written.
    pub fn into_inner(self) -> &'w mut W
        ensures reference { self.entry.through ≡ result.ghost_name ∷ [] }
        ensures bytes { W.contents result.now ≡ self.entry.bytes }
    {
        let Self { device, faults: _ } = self;
        device
    }
}

impl<W: io::Write> Write for IoRefWriter<'_, W> {
    type Error = io::Error;

    ghost written = { λ w. w };

    ghost takes_memory = { false };

    fn push(&mut self, bytes: &[u8]) -> Result<(), EncodeError<io::Error>> {
        push_all(self.device, &mut self.faults, bytes)
    }
}
