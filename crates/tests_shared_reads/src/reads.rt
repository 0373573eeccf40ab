//! The answers of typed reads, whatever pieces the bytes come in.

use crate::own_devices::Pieces;
use serde_ipld_dagcbor::{Deserialize, Deserializer, IoReader, Read, ReadResult, from_slice};
use std::alloc::Global;
use std::fmt::Debug;
use std::test::Fail;
use tests_shared::{Source, is_told};

/// Fails if a read gives any other answer, as text.
pub fn tells<'de, T: Deserialize<'de> + Debug>(
    alloc: Global,
    bytes: &'de [u8],
    wanted: &str,
) -> Result<(), Fail> {
    is_told(alloc, &from_slice::<T>(alloc, bytes), wanted)
}

/// Reads the only value of a reader.
fn whole<'de, T: Deserialize<'de> + Drop, R: Read + Drop>(
    alloc: Global,
    reader: R,
) -> ReadResult<T, R> {
    let mut de = Deserializer::from_reader(reader);
    let value = T::deserialize(alloc, &mut de)?;
    de.end()?;
    Ok(value)
}

/// Fails if a read of the slice gives any other answer, as text, or a read of a source of std or of
/// a caller's own reader that shows one byte a fill.
pub fn answers<'de, T: Deserialize<'de> + Debug + Drop>(
    alloc: Global,
    bytes: &'de [u8],
    wanted: &str,
) -> Result<(), Fail> {
    tells::<T>(alloc, bytes, wanted)?;
    let source = IoReader::new(Source::new(bytes, 1));
    is_told(alloc, &whole::<T, _>(alloc, source), wanted)?;
    is_told(alloc, &whole::<T, _>(alloc, Pieces::new(bytes, 1)), wanted)
}

/// Fails if a read of a row's bytes gives any other answer than the row's, as text, whatever pieces
/// the bytes come in.
pub fn each_answers<'de, T: Deserialize<'de> + Debug + Drop>(
    alloc: Global,
    rows: &[(&'de [u8], &str)],
) -> Result<(), Fail> {
    for (bytes, wanted) in rows {
        answers::<T>(alloc, bytes, wanted)?;
    }
    Ok(())
}
