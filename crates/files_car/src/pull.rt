//! Reads the header and the sections of a CAR file from any reader.

ghost use Rattle.std.specs.Prelude.{◌≡◌, ◌<◌, ◌≤◌, ◌+◌, ◌*◌, ◌^◌, [], ◌∷◌, ◌++◌, length, false, Some, ℕ};
ghost use Rattle.std.specs.Prelude.{MatchResult, MatchBool, IfOk, OnOk, List};
ghost use Rattle.std.specs.Cow.{cow_slice_items};
ghost use Rattle.dagcbor_heads.specs.Reading.{Fails};
ghost use Rattle.dagcbor_heads.specs.Fronts.{Takes};
ghost use Rattle.dagcbor_heads.specs.Inputs.{input_reading, OverInput};
ghost use Rattle.dagcbor_heads.specs.Looking.{Looks, LooksSome, LooksOnce, LooksAtMost};
ghost use Rattle.ipld_tree.specs.Cid.{varint};
ghost use Rattle.dagcbor_items.specs.Walks.{forms};
ghost use Rattle.files_car.specs.Car.{counted, section_bytes};
ghost use Rattle.files_car.specs.Splits.{CountFault, BeginsNoSection, SectionFault};
ghost use Rattle.files_car.specs.Versions.{pragma};
ghost use Rattle.files_car.specs.Extents.{of_file, Spends, TakesOff, EndsThere};
ghost use Rattle.files_car.specs.Sources.{CarRefuses, IsShort, car_error, TakesSectionBytes};
ghost use Rattle.files_car.specs.Sources.{LacksMemoryIf, FileLacks, SectionLacks, RefusesStart};
ghost use Rattle.files_car.specs.Sources.{PullsStart, PullsSection};
ghost use Rattle.files_car.specs.Sources.{LooksTwice, LooksAtSection};
ghost use Rattle.files_car.specs.Steps.{ExceedsExtent, IsDue, TakesSpan, TakesEnclosed, EnclosedLacks};
ghost use Rattle.files_car.specs.declared.error.CarError.TheVariants.{Truncated};

use crate::error::CarError;
use crate::header::read_header;
use crate::read_section::ReadSection;
use crate::version::{HEADER_LENGTH, is_version_2, span_of};
use arrayvec::ArrayVec;
use dagcbor_core::DecodeError;
use dagcbor_heads::{Input, Read, is_at_end, pull_one, pull_payload, pull_short_payload};
use ipld_tree::{Cid, CidError, split_varint};
use std::alloc::Global;
use std::borrow::CowSlice;

/// The name of the item in errors where bytes are missing. No `CarError` shows it.
const NAME: &str = "file";

/// How many bytes the fields of a version 2 header take.
const FIELDS: usize = 40;

/// How many bytes are skipped at once.
const PIECE: usize = 1024;

/// The most bytes of a varint.
pub(crate) const MOST_GROUPS: usize = 10;

/// Returns the reader's refusal as a `CarError`.
fn of_reader<E: Drop>(error: DecodeError<E>) -> CarError<E>
    ensures { result ≡ car_error error }
{
    match error {
        DecodeError::Read(fault) => CarError::Read(fault),
        DecodeError::OutOfMemory => CarError::OutOfMemory,
        _ => CarError::Truncated,
    }
}

/// Takes the next byte.
fn pull_byte<R: Read>(reader: &mut R) -> Result<u8, CarError<R::Error>>
    ensures taken { MatchResult result
        (λ byte. Takes (R.reading reader.old) (byte ∷ []) (R.reading reader.new))
        (λ e. CarRefuses (IsShort 1) (R.reading reader.old) e (R.reading reader.new)) }
    ensures memory { LacksMemoryIf ⊥ result }
    ensures looked { Looks 2 (R.reading reader.old) result (R.reading reader.new) }
    ensures at_most { LooksAtMost 2 (R.reading reader.old) (R.reading reader.new) }
{
    pull_one(NAME, reader).map_err(of_reader)
}

/// Subtracts `count` from the number of bytes left of the file, if that is known.
fn spend<E: Drop>(left: &mut Option<u64>, count: u64) -> Result<(), CarError<E>>
    ensures { MatchResult result
        (λ _. Spends left.old count left.new)
        (λ e. (e ≡ Truncated) × ExceedsExtent left.old count) }
{
    let Some(most) = *left else {
        return Ok(());
    };
    match most.checked_sub(count) {
        Some(rest) => {
            *left = Some(rest);
            Ok(())
        }
        None => Err(CarError::Truncated),
    }
}

/// Takes the next byte of the file.
#[tactic(auto, using(crate::proofs::Spending::byte_off, crate::proofs::Spending::byte_looked, crate::proofs::Spending::over_short, crate::proofs::Spending::looked_not))]
fn pull_next<R: Read>(reader: &mut R, left: &mut Option<u64>) -> Result<u8, CarError<R::Error>>
    ensures taken { MatchResult result
        (λ byte. TakesOff left.old (R.reading reader.old) (byte ∷ []) left.new
        (R.reading reader.new))
        (λ e. CarRefuses (IsShort 1) (of_file left.old (R.reading reader.old)) e
        (R.reading reader.new)) }
    ensures memory { LacksMemoryIf ⊥ result }
    ensures looked { Looks 2 (of_file left.old (R.reading reader.old)) result
        (of_file left.new (R.reading reader.new)) }
    ensures at_most { LooksAtMost 2 (R.reading reader.old) (R.reading reader.new) }
{
    spend(left, 1)?;
    pull_byte(reader)
}

/// Takes the length at the front.
fn pull_length<R: Read>(reader: &mut R, left: &mut Option<u64>) -> Result<u64, CarError<R::Error>>
    ensures taken { MatchResult result
        (λ n. (n < 2 ^ 64) × TakesOff left.old (R.reading reader.old) (varint n) left.new
        (R.reading reader.new))
        (λ e. CarRefuses CountFault (of_file left.old (R.reading reader.old)) e
        (R.reading reader.new)) }
    ensures memory { LacksMemoryIf ⊥ result }
    ensures looked { Looks 2 (of_file left.old (R.reading reader.old)) result
        (of_file left.new (R.reading reader.new)) }
    ensures at_most { IfOk result
        (λ n. LooksAtMost (2 * length (varint n)) (R.reading reader.old) (R.reading reader.new)) }
{
    let mut groups = ArrayVec::<u8, MOST_GROUPS>::new();
    for _place in 0..MOST_GROUPS {
        let byte = pull_next(reader, left)?;
        groups.push(byte);
        match split_varint(&groups) {
            Ok((number, _rest)) => return Ok(number),
            Err(fault) => match fault {
                CidError::Truncated => {}
                _ => return Err(CarError::InvalidLength),
            },
        }
    }
    Err(CarError::InvalidLength)
}

/// Takes the next n bytes. A slice lends them; from any other reader they are in memory that grows
/// as they come.
fn pull_bytes<'de, R: Read>(
    alloc: Global,
    input: &mut Input<'de, R>,
    n: u64,
) -> Result<CowSlice<'de, u8>, CarError<R::Error>>
    ensures taken { MatchResult result
        (λ c. (length (cow_slice_items c) ≡ n)
        × Takes (input_reading R.reading input.old) (cow_slice_items c)
        (input_reading R.reading input.new))
        (λ e. CarRefuses (IsShort n) (input_reading R.reading input.old) e
        (input_reading R.reading input.new)) }
    ensures memory { LacksMemoryIf ((input_reading R.reading input.old).lends ≡ false) result }
    ensures looked { OverInput R.reading (LooksSome 2) input.old result input.new }
    ensures at_most { LooksAtMost (2 * n) (input_reading R.reading input.old)
        (input_reading R.reading input.new) }
{
    pull_payload(alloc, NAME, input, n).map_err(of_reader)
}

/// Takes the next n bytes of the file.
#[tactic(auto, using(crate::proofs::Spending::bytes_off, crate::proofs::Spending::bytes_looked, crate::proofs::Spending::over_short, crate::proofs::Spending::looked_not))]
fn pull_body<'de, R: Read>(
    alloc: Global,
    input: &mut Input<'de, R>,
    left: &mut Option<u64>,
    n: u64,
) -> Result<CowSlice<'de, u8>, CarError<R::Error>>
    ensures taken { MatchResult result
        (λ c. (length (cow_slice_items c) ≡ n)
        × TakesOff left.old (input_reading R.reading input.old) (cow_slice_items c) left.new
        (input_reading R.reading input.new))
        (λ e. CarRefuses (IsShort n) (of_file left.old (input_reading R.reading input.old)) e
        (input_reading R.reading input.new)) }
    ensures memory { LacksMemoryIf ((input_reading R.reading input.old).lends ≡ false) result }
    ensures looked { LooksSome 2 (of_file left.old (input_reading R.reading input.old)) result
        (of_file left.new (input_reading R.reading input.new)) }
    ensures at_most { LooksAtMost (2 * n) (input_reading R.reading input.old)
        (input_reading R.reading input.new) }
{
    spend(left, n)?;
    pull_bytes(alloc, input, n)
}

/// Takes the length at the front, and that many bytes. Returns the bytes.
fn pull_counted<'de, R: Read>(
    alloc: Global,
    input: &mut Input<'de, R>,
    left: &mut Option<u64>,
) -> Result<CowSlice<'de, u8>, CarError<R::Error>>
    ensures taken { MatchResult result
        (λ c. (length (cow_slice_items c) < 2 ^ 64)
        × TakesOff left.old (input_reading R.reading input.old) (counted (cow_slice_items c))
        left.new (input_reading R.reading input.new))
        (λ e. CarRefuses CountFault (of_file left.old (input_reading R.reading input.old)) e
        (input_reading R.reading input.new)) }
    ensures memory { LacksMemoryIf
        (SectionLacks (of_file left.old (input_reading R.reading input.old))) result }
    ensures looked { Looks 2 (of_file left.old (input_reading R.reading input.old)) result
        (of_file left.new (input_reading R.reading input.new)) }
    ensures at_most { IfOk result
        (λ c. LooksAtMost (2 * length (counted (cow_slice_items c)))
        (input_reading R.reading input.old) (input_reading R.reading input.new)) }
{
    let count = pull_length(input, left)?;
    pull_body(alloc, input, left, count)
}

/// Takes the next n bytes, at most `CAP`. It allocates nothing.
fn pull_short<R: Read, const CAP: usize>(
    reader: &mut R,
    n: u64,
) -> Result<ArrayVec<u8, CAP>, CarError<R::Error>>
    requires { n ≤ CAP }
    ensures taken { MatchResult result
        (λ v. (length v.items ≡ n) × Takes (R.reading reader.old) v.items (R.reading reader.new))
        (λ e. CarRefuses (IsShort n) (R.reading reader.old) e (R.reading reader.new)) }
    ensures memory { LacksMemoryIf ⊥ result }
    ensures looked { LooksSome 2 (R.reading reader.old) result (R.reading reader.new) }
    ensures at_most { LooksAtMost (2 * n) (R.reading reader.old) (R.reading reader.new) }
{
    pull_short_payload(NAME, reader, n).map_err(of_reader)
}

/// Takes `count` bytes, in pieces.
fn skip_pieces<R: Read>(reader: &mut R, count: u64) -> Result<(), CarError<R::Error>>
    ensures taken { MatchResult result
        (λ _. (bytes : List ℕ) × (length bytes ≡ count)
        × Takes (R.reading reader.old) bytes (R.reading reader.new))
        (λ e. CarRefuses (IsShort count) (R.reading reader.old) e (R.reading reader.new)) }
    ensures memory { LacksMemoryIf ⊥ result }
    ensures looked { LooksSome 2 (R.reading reader.old) result (R.reading reader.new) }
    ensures at_most { OnOk result
        (LooksAtMost (2 * count) (R.reading reader.old) (R.reading reader.new)) }
{
    let mut more = count;
    while more > 0 {
        let piece = more.min(PIECE as u64);
        let _bytes = pull_short::<R, PIECE>(reader, piece)?;
        more -= piece;
    }
    Ok(())
}

/// Takes `count` bytes. In a slice it does not look at them.
fn skip<R: Read>(input: &mut Input<'_, R>, count: u64) -> Result<(), CarError<R::Error>>
    ensures taken { MatchResult result
        (λ _. (bytes : List ℕ) × (length bytes ≡ count)
        × Takes (input_reading R.reading input.old) bytes (input_reading R.reading input.new))
        (λ e. CarRefuses (IsShort count) (input_reading R.reading input.old) e
        (input_reading R.reading input.new)) }
    ensures memory { LacksMemoryIf ⊥ result }
    ensures looked { OverInput R.reading (LooksSome 2) input.old result input.new }
    ensures at_most { OnOk result (LooksAtMost (2 * count) (input_reading R.reading input.old)
        (input_reading R.reading input.new)) }
{
    match input.lend(count) {
        Some(_bytes) => Ok(()),
        None => skip_pieces(input, count),
    }
}

/// After the bytes that begin version 2: takes the header's fields, and the bytes before the file
/// of version 1, and returns how long that file is.
fn pull_span<R: Read>(input: &mut Input<'_, R>) -> Result<u64, CarError<R::Error>>
    ensures taken { MatchResult result
        (λ n. TakesSpan (input_reading R.reading input.old) n (input_reading R.reading input.new))
        (λ e. CarRefuses (λ e b. RefusesStart e (pragma ++ b)) (input_reading R.reading input.old)
        e (input_reading R.reading input.new)) }
    ensures memory { LacksMemoryIf ⊥ result }
    ensures looked { LooksSome 2 (input_reading R.reading input.old) result
        (input_reading R.reading input.new) }
{
    let fields = pull_short::<_, FIELDS>(input, FIELDS as u64)?;
    let Some(span) = span_of(&fields) else {
        return Err(CarError::InvalidOffset);
    };
    skip(input, span.begin - HEADER_LENGTH)?;
    Ok(span.length)
}

/// After the bytes that begin version 2: takes all up to the end of the file's header, and returns
/// the roots, and how many bytes of the file are left.
fn pull_enclosed<'de, R: Read>(
    alloc: Global,
    input: &mut Input<'de, R>,
) -> Result<(Vec<Cid>, Option<u64>), CarError<R::Error>>
    ensures taken { MatchResult result
        (λ p. TakesEnclosed (input_reading R.reading input.old) (forms p.0.items) p.1
        (input_reading R.reading input.new))
        (λ e. CarRefuses (λ e b. RefusesStart e (pragma ++ b)) (input_reading R.reading input.old)
        e (input_reading R.reading input.new)) }
    ensures memory { LacksMemoryIf (EnclosedLacks (input_reading R.reading input.old)) result }
    ensures looked { LooksTwice (input_reading R.reading input.old) result
        (input_reading R.reading input.new) }
{
    let length = pull_span(input)?;
    let mut left = Some(length);
    let inner = pull_counted(alloc, input, &mut left)?;
    let roots = read_header(alloc, &inner)?;
    Ok((roots, left))
}

/// Takes the header of the file at the front, of version 1 or 2. Returns the roots, and how many
/// bytes of the file are left: `None` for version 1, which goes on to the end.
pub fn pull_header<'de, R: Read>(
    alloc: Global,
    input: &mut Input<'de, R>,
) -> Result<(Vec<Cid>, Option<u64>), CarError<R::Error>>
    ensures taken { PullsStart (input_reading R.reading input.old) result
        (input_reading R.reading input.new) }
    ensures memory { LacksMemoryIf (FileLacks (input_reading R.reading input.old)) result }
    ensures looked { LooksTwice (input_reading R.reading input.old) result
        (input_reading R.reading input.new) }
{
    let inner = pull_counted(alloc, input, &mut None)?;
    if is_version_2(&inner) {
        return pull_enclosed(alloc, input);
    }
    let roots = read_header(alloc, &inner)?;
    Ok((roots, None))
}

/// Takes the section at the front.
fn pull_first_section<'de, R: Read>(
    alloc: Global,
    input: &mut Input<'de, R>,
    left: &mut Option<u64>,
) -> Result<ReadSection<'de>, CarError<R::Error>>
    ensures taken { MatchResult result
        (λ s. TakesSectionBytes left.old (input_reading R.reading input.old) s left.new
        (input_reading R.reading input.new))
        (λ e. CarRefuses (λ e b. BeginsNoSection b × SectionFault e b)
        (of_file left.old (input_reading R.reading input.old)) e
        (input_reading R.reading input.new)) }
    ensures memory { LacksMemoryIf
        (SectionLacks (of_file left.old (input_reading R.reading input.old))) result }
    ensures looked { Looks 2 (of_file left.old (input_reading R.reading input.old)) result
        (of_file left.new (input_reading R.reading input.new)) }
    ensures at_most { IfOk result (λ s. LooksAtMost (2 * length (section_bytes s))
        (input_reading R.reading input.old) (input_reading R.reading input.new)) }
{
    let body = pull_counted(alloc, input, left)?;
    match ReadSection::new(body) {
        Ok(section) => Ok(section),
        Err(fault) => Err(CarError::InvalidCid(fault)),
    }
}

/// Returns whether nothing of the file is left. Nothing is taken.
fn is_done<R: Read>(reader: &mut R, left: Option<u64>) -> Result<bool, R::Error>
    ensures done { MatchResult result
        (λ done. MatchBool done
        (EndsThere left (R.reading reader.old) left (R.reading reader.new))
        (IsDue left (R.reading reader.old) (R.reading reader.new)))
        (λ _. Fails (R.reading reader.old) (R.reading reader.new)) }
    ensures looked { LooksOnce (of_file left (R.reading reader.old)) (R.reading reader.new) }
{
    match left {
        Some(count) => Ok(count == 0),
        None => is_at_end(reader),
    }
}

/// Takes the section at the front. `None` at the end of the file. `left` is the number of bytes
/// left of the file, as `pull_header` returns it.
pub fn pull_section<'de, R: Read>(
    alloc: Global,
    input: &mut Input<'de, R>,
    left: &mut Option<u64>,
) -> Result<Option<ReadSection<'de>>, CarError<R::Error>>
    ensures taken { PullsSection left.old (input_reading R.reading input.old) result left.new
        (input_reading R.reading input.new) }
    ensures memory { LacksMemoryIf
        (SectionLacks (of_file left.old (input_reading R.reading input.old))) result }
    ensures looked { LooksAtSection (of_file left.old (input_reading R.reading input.old)) result
        (of_file left.new (input_reading R.reading input.new)) }
{
    match is_done(input, *left) {
        Ok(true) => Ok(None),
        Ok(false) => Ok(Some(pull_first_section(alloc, input, left)?)),
        Err(fault) => Err(CarError::Read(fault)),
    }
}
