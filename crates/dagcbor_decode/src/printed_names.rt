//! The names of kinds and of refusals, as the programs print them.

ghost use Rattle.std.specs.Prelude.{◌≡◌};
ghost use Rattle.dagcbor_decode.specs.PrintedNames.{kind_name, variant_name};

use crate::kind::Kind;
use dagcbor_core::DecodeError;

/// Returns the name of the kind.
pub fn kind_name(kind: Kind) -> &'static str
    ensures { result.now ≡ kind_name kind }
{
    match kind {
        Kind::Null => "null",
        Kind::Bool => "bool",
        Kind::Integer => "integer",
        Kind::String => "string",
        Kind::Bytes => "bytes",
        Kind::List => "list",
        Kind::Map => "map",
        Kind::Link => "link",
    }
}

/// Returns the name of the refusal's variant.
pub fn variant_name<E>(refusal: &DecodeError<E>) -> &'static str
    ensures { result.now ≡ variant_name refusal.now }
{
    match refusal {
        DecodeError::Msg(_) => "Msg",
        DecodeError::Read(_) => "Read",
        DecodeError::Eof { .. } => "Eof",
        DecodeError::Mismatch { .. } => "Mismatch",
        DecodeError::Unsupported { .. } => "Unsupported",
        DecodeError::RequireLength { .. } => "RequireLength",
        DecodeError::RequireBorrowed { .. } => "RequireBorrowed",
        DecodeError::RequireUtf8 { .. } => "RequireUtf8",
        DecodeError::LengthOverflow { .. } => "LengthOverflow",
        DecodeError::CastOverflow { .. } => "CastOverflow",
        DecodeError::ArithmeticOverflow { .. } => "ArithmeticOverflow",
        DecodeError::DepthOverflow { .. } => "DepthOverflow",
        DecodeError::LengthMismatch { .. } => "LengthMismatch",
        DecodeError::TrailingData => "TrailingData",
        DecodeError::IndefiniteSize => "IndefiniteSize",
        DecodeError::NonMinimal { .. } => "NonMinimal",
        DecodeError::UnorderedKey => "UnorderedKey",
        DecodeError::OutOfMemory => "OutOfMemory",
        DecodeError::Failed => "Failed",
    }
}
