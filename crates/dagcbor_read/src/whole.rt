//! Reading one value from a slice.

ghost use Rattle.std.specs.Prelude.{◌≡◌, ◌⊎◌, ◌≤◌, true, false, Some, IfOk, IfErr};
ghost use Rattle.dagcbor_core.specs.Steps.{default_steps};
ghost use Rattle.dagcbor_core.specs.declared.error.DecodeError.TheVariants.{OutOfMemory};
ghost use Rattle.dagcbor_read.specs.Whole.{IsWhole, HoldsNoValue, OfWhole};
ghost use Rattle.dagcbor_read.specs.Whole.{IsForAfter, LacksMemoryIf};
ghost use Rattle.dagcbor_read.specs.Parts.{HandsWholeOn};

use crate::deserialize::{Deserialize, DeserializeOwned};
use crate::deserializer::Deserializer;
use dagcbor_core::{DEFAULT_STEPS, DecodeError};
use dagcbor_heads::SliceReader;
use std::alloc::Global;
use std::convert::Infallible;

/// Reads the value whose spelling is these bytes.
///
/// ```rust
/// let block = to_vec(alloc, &(-300i16, "a"))?;
/// agree(block.as_slice(), b"\x82\x39\x01\x2b\x61a".as_slice())?;
/// let pair: (i16, &str) = from_slice(alloc, &block)?;
/// agree(pair, (-300, "a"))?;
/// ```
pub fn from_slice<'a, T: Deserialize<'a>>(
    alloc: Global,
    bytes: &'a [u8],
) -> Result<T, DecodeError<Infallible>>
    ensures value { IfOk result (λ v. IsWhole T.shape default_steps bytes.now (T.meaning v)) }
    ensures refused { IfErr result
        (λ e. (e ≡ OutOfMemory) ⊎ HoldsNoValue T.shape default_steps bytes.now) }
    ensures following { IfErr result (IsForAfter T.shape default_steps bytes.now) }
    ensures never { IfErr result OfWhole }
    ensures memory { IfErr result (LacksMemoryIf (T.shape.memory true)) }
    ensures lies { IfOk result (T.lies true) }
    ensures answers { HandsWholeOn T.answers (Some bytes.now) default_steps true result }
{
    from_slice_with_depth(alloc, bytes, DEFAULT_STEPS)
}

/// Reads a whole slice within a budget of `steps`, at most 1,024. Each list or map takes a step or
/// two, and stack (SECURITY.md).
///
/// ```rust
/// let nested = b"\x81\x81\x01";
/// let list: Vec<Vec<u8>> = from_slice_with_depth(alloc, nested, 2)?;
/// agree(list.len(), 1)?;
/// let shallow = from_slice_with_depth::<Vec<Vec<u8>>>(alloc, nested, 1);
/// is_told(alloc, &shallow, r#"Err(DepthOverflow { name: "array" })"#)
/// ```
pub fn from_slice_with_depth<'a, T: Deserialize<'a>>(
    alloc: Global,
    bytes: &'a [u8],
    steps: usize,
) -> Result<T, DecodeError<Infallible>>
    requires { steps ≤ 1024 }
    ensures value { IfOk result (λ v. IsWhole T.shape steps bytes.now (T.meaning v)) }
    ensures refused { IfErr result (λ e. (e ≡ OutOfMemory) ⊎ HoldsNoValue T.shape steps bytes.now) }
    ensures following { IfErr result (IsForAfter T.shape steps bytes.now) }
    ensures never { IfErr result OfWhole }
    ensures memory { IfErr result (LacksMemoryIf (T.shape.memory true)) }
    ensures lies { IfOk result (T.lies true) }
    ensures answers { HandsWholeOn T.answers (Some bytes.now) steps true result }
{
    let mut de = Deserializer::from_slice_reader(SliceReader::with_depth(bytes, steps));
    let result = T::deserialize(alloc, &mut de);
    if result.is_err() {
        return result;
    }
    de.end()?;
    result
}

/// Does what `from_slice` does, from bytes that need not outlive the value.
pub fn from_slice_owned<'de, T: DeserializeOwned<'de>>(
    alloc: Global,
    bytes: &[u8],
) -> Result<T, DecodeError<Infallible>>
    ensures value { IfOk result (λ v. IsWhole T.shape default_steps bytes.now (T.meaning v)) }
    ensures refused { IfErr result
        (λ e. (e ≡ OutOfMemory) ⊎ HoldsNoValue T.shape default_steps bytes.now) }
    ensures following { IfErr result (IsForAfter T.shape default_steps bytes.now) }
    ensures never { IfErr result OfWhole }
    ensures memory { IfErr result (LacksMemoryIf (T.shape.memory false)) }
    ensures answers { HandsWholeOn T.answers (Some bytes.now) default_steps false result }
{
    let mut owning = Deserializer::from_reader(SliceReader::new(bytes));
    let value = T::deserialize(alloc, &mut owning)?;
    owning.end()?;
    Ok(value)
}
