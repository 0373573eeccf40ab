//! Reading one value from a buffered source of std.

ghost use Rattle.std.specs.Prelude.{◌⊎◌, false, IfOk, IfErr, IfSome};
ghost use Rattle.dagcbor_core.specs.Steps.{default_steps};
ghost use Rattle.dagcbor_read.specs.Whole.{IsWhole, HoldsNoValue, TakesFirst, BeginsWithNoValue};
ghost use Rattle.dagcbor_read.specs.Whole.{IsReadExcuse, OfWhole, IsForAfter, LacksMemoryIf};
ghost use Rattle.dagcbor_read.specs.Parts.{HandsWholeOn, HandsFirstOn};

use crate::deserialize::DeserializeOwned;
use crate::deserializer::Deserializer;
use dagcbor_core::DecodeError;
use dagcbor_heads::{IoReader, IoRefReader};
use std::alloc::Global;
use std::io;
use std::io::BufRead;

/// Reads the value whose spelling is all of the source's bytes. If the source does not fault, it
/// returns a value exactly if `from_slice` does, with the same view.
///
/// ```rust
/// let source = BufReader::new(rt.alloc(), File::open(&rt, "ferris.cbor")?)?;
/// let back: Mascot = from_reader(rt.alloc(), source)?;
/// ```
pub fn from_reader<'de, T: DeserializeOwned<'de>, R: BufRead + Drop>(
    alloc: Global,
    reader: R,
) -> Result<T, DecodeError<io::Error>>
    ensures value { IfOk result
        (λ v. IfSome (R.remaining reader) (λ b. IsWhole T.shape default_steps b (T.meaning v))) }
    ensures refused { IfErr result
        (λ e. IsReadExcuse e ⊎ IfSome (R.remaining reader) (HoldsNoValue T.shape default_steps)) }
    ensures following { IfErr result
        (λ e. IfSome (R.remaining reader) (λ b. IsForAfter T.shape default_steps b e)) }
    ensures never { IfErr result OfWhole }
    ensures memory { IfErr result (LacksMemoryIf (T.shape.memory false)) }
    ensures answers { HandsWholeOn T.answers (R.remaining reader) default_steps false result }
{
    let mut de = Deserializer::from_reader(IoReader::new(reader));
    let value = T::deserialize(alloc, &mut de)?;
    de.end()?;
    Ok(value)
}

/// Reads the value whose spelling the source begins with. The source is then left with exactly the
/// bytes after it. After a refusal, nothing is known of the bytes left.
///
/// ```rust
/// let mut source = device.as_slice();
/// let first: (u8, String) = from_reader_once(alloc, &mut source)?;
/// let last: u8 = from_reader(alloc, source)?;
/// agree((first.0, first.1.as_str(), last), (1, "a", 2))
/// ```
pub fn from_reader_once<'de, T: DeserializeOwned<'de>, R: BufRead>(
    alloc: Global,
    reader: &mut R,
) -> Result<T, DecodeError<io::Error>>
    ensures value { IfOk result (λ v. IfSome (R.remaining reader.old)
        (λ b. TakesFirst T.shape default_steps b (T.meaning v) (R.remaining reader.new))) }
    ensures refused { IfErr result
        (λ e. IsReadExcuse e ⊎ IfSome (R.remaining reader.old)
        (BeginsWithNoValue T.shape default_steps)) }
    ensures never { IfErr result OfWhole }
    ensures memory { IfErr result (LacksMemoryIf (T.shape.memory false)) }
    ensures answers { HandsFirstOn T.answers (R.remaining reader.old) default_steps false result }
{
    let mut de = Deserializer::from_reader(IoRefReader::new(reader));
    let result = T::deserialize(alloc, &mut de);
    let Deserializer { input, failed: _ } = de;
    if let Some(lent) = input.into_reader() {
        let source = lent.into_inner();
        // No effect at run time. The proof reads what `reader` has left from this use of `source`.
        let _ = &*source;
    }
    result
}
