//! The numbers that callers in other languages get.

ghost use Rattle.std.specs.Prelude.{◌≡◌};
ghost use Rattle.abi_calls.specs.Codes.{kind_code, refusal_code, answer_code, fault_code};
ghost use Rattle.abi_calls.specs.Codes.{check_code};

use dagcbor_core::DecodeError;
use dagcbor_decode::{Kind, check_slice};
use files_car::CarError;

/// The number returned if there is no room.
pub(crate) const NO_ROOM: i32 = -21;

/// The number returned if bytes are not a CID.
pub(crate) const NO_CID: i32 = -26;

/// Returns the number of an answer: that of a kind, or of a refusal.
fn code_of<E>(answer: &Result<Kind, DecodeError<E>>) -> i32
    ensures { result ≡ answer_code answer.now }
{
    match answer {
        Ok(kind) => kind_code(*kind),
        Err(refusal) => refusal_code(refusal),
    }
}

/// Returns the number of a kind.
pub fn kind_code(kind: Kind) -> i32
    ensures { result ≡ kind_code kind }
{
    match kind {
        Kind::Null => 0,
        Kind::Bool => 1,
        Kind::Integer => 2,
        Kind::String => 3,
        Kind::Bytes => 4,
        Kind::List => 5,
        Kind::Map => 6,
        Kind::Link => 7,
    }
}

/// Returns the number of a refusal.
pub fn refusal_code<E>(refusal: &DecodeError<E>) -> i32
    ensures { result ≡ refusal_code refusal.now }
{
    match refusal {
        DecodeError::Msg(_) => -1,
        DecodeError::Read(_) => -2,
        DecodeError::Eof { .. } => -3,
        DecodeError::Mismatch { .. } => -4,
        DecodeError::Unsupported { .. } => -5,
        DecodeError::RequireLength { .. } => -6,
        DecodeError::RequireBorrowed { .. } => -7,
        DecodeError::RequireUtf8 { .. } => -8,
        DecodeError::LengthOverflow { .. } => -9,
        DecodeError::CastOverflow { .. } => -10,
        DecodeError::ArithmeticOverflow { .. } => -11,
        DecodeError::DepthOverflow { .. } => -12,
        DecodeError::LengthMismatch { .. } => -13,
        DecodeError::TrailingData => -14,
        DecodeError::IndefiniteSize => -15,
        DecodeError::NonMinimal { .. } => -16,
        DecodeError::UnorderedKey => -17,
        DecodeError::OutOfMemory => -18,
        DecodeError::Failed => -19,
    }
}

/// Returns the number of the kind of a block, at least 0, or that of the refusal, below 0.
pub fn check(bytes: &[u8]) -> i32
    ensures { result ≡ check_code bytes.now }
{
    code_of(&check_slice(bytes))
}

/// Returns the number of the cause for which there is no section, no header, or no file of version
/// 1.
pub(crate) fn fault_code<E>(fault: &CarError<E>) -> i32
    ensures { result ≡ fault_code fault.now }
{
    match fault {
        CarError::Truncated => -24,
        CarError::InvalidLength => -25,
        CarError::InvalidCid(_) => NO_CID,
        CarError::InvalidOffset => -35,
        _ => -27,
    }
}
