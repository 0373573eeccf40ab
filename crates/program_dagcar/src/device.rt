//! A device that is not used again after its first fault.

ghost use Rattle.std.specs.Prelude.{◌≡◌, ◌<◌, length, true, false, IfOk, IsErr};
ghost use Rattle.std.specs.Io.{WritesAtMost};
ghost use Rattle.std.specs.Io.KnownBytes.{WriteAppends};

use std::io;
use std::io::{ErrorKind, Write};

/// A device that is not used again after its first fault. An interrupted write, or one that takes
/// no byte, is a fault too. So a `BufWriter` over it does not retry such a write.
#[derive(Drop)]
pub struct OneFault<W> {
    device: W,
    failed: bool,
}

impl<W: Write> OneFault<W> {
    pub fn new(device: W) -> OneFault<W>
        ensures device { result.device ≡ device }
        ensures sound { result.failed ≡ false }
    {
        OneFault {
            device,
            failed: false,
        }
    }
}

impl<W: Write> Write for OneFault<W> {
    ghost contents = { λ w. W.contents w.device };

    fn write(&mut self, buf: &[u8]) -> io::Result<usize>
        ensures bound { WritesAtMost result buf.now }
        ensures bytes { WriteAppends (W.contents self.old.device) (W.contents self.new.device) result
            buf.now }
        ensures stopped { self.old.failed ≡ true → (self.new ≡ self.old) × IsErr result }
        ensures stops { IsErr result → self.new.failed ≡ true }
        ensures empty { 0 < length buf.now → IfOk result (λ n. n ≡ 0 → self.new.failed ≡ true) }
        ensures goes_on { self.old.failed ≡ false → IfOk result (λ n. 0 < n → self.new.failed ≡ false) }
    {
        if self.failed {
            return Err(io::Error::from(ErrorKind::Other));
        }
        match self.device.write(buf) {
            Ok(count) => {
                self.failed = count == 0 && !buf.is_empty();
                Ok(count)
            }
            Err(_) => {
                self.failed = true;
                Err(io::Error::from(ErrorKind::Other))
            }
        }
    }

    fn flush(&mut self) -> io::Result<()> {
        self.device.flush()
    }
}
