//! A writer over any writer of std.

ghost use Rattle.std.specs.Prelude.{◌≡◌, ◌<◌, ◌≤◌, [], length, IfOk, Some, false};
ghost use Rattle.std.specs.Io.KnownBytes.{WriteAppends};
ghost use Rattle.dagcbor_heads.specs.Written.{Writes, WantsMemoryOnlyIf};

use crate::tally::Tally;
use crate::write::Write;
use dagcbor_core::EncodeError;
use std::io;
use std::io::ErrorKind;
use std::marker::Model;

/// A writer over a device. A refused push may leave a beginning of the bytes there. A write that
/// takes none of the remaining bytes is the fault `WriteZero`. Nothing is retried, not even an
/// interrupted write.
#[derive(Drop)]
pub struct IoWriter<W: io::Write> {
    device: W,
    faults: Tally,
}

impl<W: io::Write> Model for IoWriter<W> {
    ghost use Rattle.std.specs.Prelude.{[]};
    ghost use Rattle.dagcbor_heads.specs.Written.{Written};

    ghost Value = { Written };

    ghost view = { λ w. record { bytes = W.contents w.device; faults = w.faults.count; through = [] } };
}

impl<W: io::Write> IoWriter<W> {
    /// Returns a writer that owns the device, with no fault counted yet.
    pub fn new(device: W) -> IoWriter<W>
        ensures { result ≡ record { bytes = W.contents device; faults = 0; through = [] } }
    {
        IoWriter {
            device,
            faults: Tally::new(),
        }
    }

    /// Returns the device, with what was written.
    pub fn into_inner(self) -> W
        ensures { W.contents result ≡ self.bytes }
    {
        let Self { device, faults: _ } = self;
        device
    }
}

impl<W: io::Write> Write for IoWriter<W> {
    type Error = io::Error;

    ghost written = { λ w. w };

    ghost takes_memory = { false };

    fn push(&mut self, bytes: &[u8]) -> Result<(), EncodeError<io::Error>> {
        push_all(&mut self.device, &mut self.faults, bytes)
    }
}

/// Writes the bytes, in each call as many as the device takes, until its first fault.
pub(crate) fn push_all<W: io::Write>(
    device: &mut W,
    faults: &mut Tally,
    bytes: &[u8],
) -> Result<(), EncodeError<io::Error>>
    ensures written { Writes (Some bytes.now)
        (record { bytes = W.contents device.old; faults = faults.old.count; through = [] })
        (record { bytes = W.contents device.new; faults = faults.new.count; through = [] }) result }
    ensures memory { WantsMemoryOnlyIf false result }
{
    let mut rest = bytes;
    while !rest.is_empty() {
        match write_some(device, rest) {
            Ok(count) => rest = &rest[count..],
            Err(fault) => {
                faults.add(1);
                return Err(EncodeError::Write(fault));
            }
        }
    }
    Ok(())
}

/// Writes at least one of the bytes, and returns how many. If the device takes no byte, that is the
/// fault `WriteZero`.
fn write_some<W: io::Write>(device: &mut W, bytes: &[u8]) -> io::Result<usize>
    ensures some { IfOk result (λ n. (0 < n) × (n ≤ length bytes.now)) }
    ensures written { WriteAppends (W.contents device.old)
        (W.contents device.new) result bytes.now }
{
    match device.write(bytes)? {
        0 => Err(io::Error::from(ErrorKind::WriteZero)),
        count => Ok(count),
    }
}
