//! Writers: places to which bytes are appended.

ghost use Rattle.std.specs.Prelude.{◌≡◌, ◌∷◌, ◌++◌, [], Some, OnErr, Bool, true, Err};
ghost use Rattle.dagcbor_core.specs.declared.error.EncodeError.TheVariants.{OutOfMemory};
ghost use Rattle.dagcbor_heads.specs.Written.{Written, Writes, WantsMemoryOnlyIf, WritesAtOnce};

use dagcbor_core::EncodeError;
use std::convert::Infallible;
use std::marker::Model;

/// The result of a call that writes.
pub type WriteResult<T, W> = Result<T, EncodeError<<W as Write>::Error>>;

/// A place to which bytes are appended.
pub trait Write {
    type Error: Drop;

    /// What contracts see of the writer.
    ghost written: { Self → Written };

    /// Whether a push may take memory.
    ghost takes_memory: { Bool };

    /// Appends the bytes. It is refused only with `Write` or `OutOfMemory`. Then a beginning of the
    /// bytes may have been written.
    fn push(&mut self, bytes: &[u8]) -> WriteResult<(), Self>
        ensures written { Writes (Some bytes.now) (written self.old) (written self.new) result }
        ensures memory { WantsMemoryOnlyIf takes_memory result };

    /// Appends both, one after the other, if the writer has room for them. Else appends nothing,
    /// and returns false. It takes no memory and asks no device, so nothing can fail, and the
    /// result stays in a register. A caller that gets false calls `push`. A writer without room of
    /// its own leaves this out.
    fn push_at_once(&mut self, _front: &[u8], _rest: &[u8]) -> bool
        ensures { WritesAtOnce (Some (_front.now ++ _rest.now)) (written self.old)
            (written self.new) result }
    {
        false
    }
}

impl<W: Write> Write for &mut W {
    type Error = W::Error;

    ghost written = { λ w. record {
      bytes = (W.written w.now).bytes;
      faults = (W.written w.now).faults;
      through = w.ghost_name ∷ (W.written w.now).through;
    } };

    ghost takes_memory = { W.takes_memory };

    fn push(&mut self, bytes: &[u8]) -> WriteResult<(), W> {
        W::push(*self, bytes)
    }

    fn push_at_once(&mut self, front: &[u8], rest: &[u8]) -> bool {
        W::push_at_once(*self, front, rest)
    }
}

/// Appends to the bytes. Contracts see them.
impl Write for Vec<u8> {
    type Error = Infallible;

    ghost written = { λ v. record { bytes = Some v.items; faults = 0; through = [] } };

    ghost takes_memory = { true };

    /// Appends the bytes. If memory runs out, nothing has changed.
    fn push(&mut self, bytes: &[u8]) -> Result<(), EncodeError<Infallible>>
        ensures written { Writes (Some bytes.now)
            (record { bytes = Some self.old.items; faults = 0; through = [] })
            (record { bytes = Some self.new.items; faults = 0; through = [] }) result }
        ensures memory { WantsMemoryOnlyIf true result }
        ensures unchanged { OnErr result (self.new.items ≡ self.old.items) }
    {
        if self.extend_from_slice(bytes).is_ok() {
            return Ok(());
        }
        out_of_memory()
    }

    #[inline(always)]
    fn push_at_once(&mut self, front: &[u8], rest: &[u8]) -> bool {
        let room = self.capacity() - self.len();
        if room < front.len() || room - front.len() < rest.len() {
            return false;
        }
        self.extend_from_slice(front).is_ok() && self.extend_from_slice(rest).is_ok()
    }
}

/// A writer to memory. Contracts see the bytes that it holds.
#[derive(Drop)]
pub struct BufWriter {
    bytes: Vec<u8>,
}

impl Model for BufWriter {
    ghost use Rattle.std.specs.Prelude.{ℕ, List};

    ghost Value = { List ℕ };

    ghost view = { λ w. w.bytes.items };
}

impl BufWriter {
    /// Returns a writer that appends to these bytes, in their memory.
    pub fn new(bytes: Vec<u8>) -> BufWriter
        ensures { result ≡ bytes.items }
    {
        BufWriter { bytes }
    }

    /// Returns the bytes held.
    pub fn buffer(&self) -> &[u8]
        ensures { result.now ≡ self.now }
    {
        self.bytes.as_slice()
    }

    /// Returns the bytes held, which are those that were written.
    pub fn into_inner(self) -> Vec<u8>
        ensures { result.items ≡ self }
    {
        let Self { bytes } = self;
        bytes
    }

    /// Removes all bytes, and keeps the memory.
    pub fn clear(&mut self)
        ensures { self.new ≡ [] }
    {
        self.bytes.clear();
    }
}

impl Write for BufWriter {
    type Error = Infallible;

    ghost written = { λ held. record { bytes = Some held; faults = 0; through = [] } };

    ghost takes_memory = { true };

    /// Appends the bytes. If memory runs out, nothing has changed.
    fn push(&mut self, bytes: &[u8]) -> Result<(), EncodeError<Infallible>>
        ensures written { Writes (Some bytes.now)
            (record { bytes = Some self.old; faults = 0; through = [] })
            (record { bytes = Some self.new; faults = 0; through = [] }) result }
        ensures memory { WantsMemoryOnlyIf true result }
        ensures unchanged { OnErr result (self.new ≡ self.old) }
    {
        <Vec<u8> as Write>::push(&mut self.bytes, bytes)
    }

    #[inline(always)]
    fn push_at_once(&mut self, front: &[u8], rest: &[u8]) -> bool {
        self.bytes.push_at_once(front, rest)
    }
}

/// Returns the refusal `OutOfMemory`. It is made in a separate function, so that a push that
/// succeeds writes none of it.
#[cold]
#[inline(never)]
fn out_of_memory<E>() -> Result<(), EncodeError<E>>
    ensures { result ≡ Err OutOfMemory }
{
    Err(EncodeError::OutOfMemory)
}
