//! The first bytes of a file, which show its version.

ghost use Rattle.std.specs.Prelude.{◌≡◌, ◌+◌, ◌≤◌, ◌++◌, ◌∷◌, [], length, IfOk, IfSome, OnOk};
ghost use Rattle.files_car.specs.Versions.{number_after};
ghost use Rattle.program_inspect.specs.Front.{TakesByte, TakesFront};
ghost use Rattle.program_inspect.specs.Inspecting.{is_version_2, version_of, says_index};

use program_shared::ToolError;
use std::alloc::{AllocError, Global};
use std::io::Read;

/// The length of the header of version 2, in bytes.
const HEADER_LENGTH: usize = 51;

/// Reads the next byte, if there is one.
fn next_byte<R: Read>(input: &mut R) -> Result<Option<u8>, ToolError>
    ensures { IfSome (R.remaining input.old)
        (λ b. IfOk result (λ byte. TakesByte b byte (R.remaining input.new))) }
{
    let mut byte = [0];
    match input.read(&mut byte) {
        Ok(0) => Ok(None),
        Ok(_) => Ok(Some(byte[0])),
        Err(_) => Err(ToolError::Input),
    }
}

/// Appends the byte.
fn push_byte(bytes: &mut Vec<u8>, byte: u8) -> Result<(), AllocError>
    ensures { OnOk result (bytes.new.items ≡ bytes.old.items ++ byte ∷ []) }
{
    bytes.push(byte)?;
    Ok(())
}

/// Reads as many bytes as a header of version 2 has, or all if there are fewer.
pub fn read_front<R: Read>(alloc: Global, input: &mut R) -> Result<Vec<u8>, ToolError>
    ensures { IfSome (R.remaining input.old)
        (λ b. IfOk result (λ front. TakesFront 51 b front.items (R.remaining input.new))) }
{
    let mut front = Vec::new(alloc);
    for _place in 0..HEADER_LENGTH {
        match next_byte(input)? {
            Some(byte) => push_byte(&mut front, byte)?,
            None => return Ok(front),
        }
    }
    Ok(front)
}

/// The pragma of version 2: a length, and a map with only the version.
const PRAGMA: [u8; 11] = [
    0x0a, 0xa1, 0x67, 0x76, 0x65, 0x72, 0x73, 0x69, 0x6f, 0x6e, 0x02,
];

/// Returns whether the bytes begin with the pragma of version 2.
fn is_version_2(front: &[u8]) -> bool
    ensures { result ≡ is_version_2 front.now }
{
    let count = front.len().min(PRAGMA.len());
    front[..count] == PRAGMA[..]
}

/// Returns the version of a file that begins with these bytes.
pub fn version_of(front: &[u8]) -> u64
    ensures { result ≡ version_of front.now }
{
    if is_version_2(front) { 2 } else { 1 }
}

/// Returns the little-endian number of eight bytes at offset `before`.
fn number_after(bytes: &[u8], before: usize) -> u64
    requires { before + 8 ≤ length bytes.now }
    ensures { result ≡ number_after before bytes.now }
{
    match bytes[before..].split_first_chunk::<8>() {
        Some((number, _following)) => u64::from_le_bytes(*number),
        None => unreachable!(),
    }
}

/// The offset of the header field that holds the offset of the index.
const BEFORE_INDEX: usize = 43;

/// Returns whether a file that begins with these bytes says that it has an index.
pub fn says_index(front: &[u8]) -> bool
    ensures { result ≡ says_index front.now }
{
    is_version_2(front) && front.len() >= HEADER_LENGTH && number_after(front, BEFORE_INDEX) != 0
}
