//! Why the judge stops, in its own form and as a refusal.

ghost use Rattle.std.specs.Prelude.{◌≡◌, Some};
ghost use Rattle.std.specs.declared.convert.Infallible.{Infallible};
ghost use Rattle.dagcbor_core.specs.Names.{name_bytes};
ghost use Rattle.dagcbor_decode.specs.Verdicts.{why_of};
ghost use Rattle.dagcbor_decode.specs.Told.{name, why};

use dagcbor_core::{DecodeError, Len, Name};
use std::convert::Infallible;

/// What was being read.
#[derive(Clone, Copy)]
pub(crate) enum Label {
    Any,
    U64,
    Bytes,
    Text,
    Array,
    Map,
    MapKey,
    Cid,
    Tag,
    CborTag,
    TagHead,
}

/// Why bytes are refused. Each is a variant of `DecodeError`.
#[derive(Clone, Copy)]
pub(crate) enum Cause {
    Eof(Label, u64),
    Mismatch(Label, u8),
    Unsupported(Label, u8),
    NonMinimal(Label, u8),
    IndefiniteSize,
    RequireUtf8(Label),
    InvalidCid,
    UnorderedKey,
    DepthOverflow(Label),
    TrailingData,
}

/// Why the judge stops, and how many bytes are left after the last one that it looked at.
#[derive(Clone, Copy)]
pub(crate) struct Stop {
    pub(crate) cause: Cause,
    pub(crate) left: usize,
}

impl Stop {
    /// Returns a placeholder, for when nothing was refused.
    pub(crate) fn new() -> Stop {
        Stop {
            cause: Cause::TrailingData,
            left: 0,
        }
    }
}

impl Label {
    /// Returns the text of the name in a refusal.
    fn text(self) -> &'static str
        ensures { result.now ≡ name self }
    {
        match self {
            Label::Any => "any",
            Label::U64 => "u64",
            Label::Bytes => "bytes",
            Label::Text => "string",
            Label::Array => "array",
            Label::Map => "map",
            Label::MapKey => "map key",
            Label::Cid => "cid",
            Label::Tag => "tag",
            Label::CborTag => "CBOR tag",
            Label::TagHead => "CBOR tag head",
        }
    }

    /// Returns the name in a refusal.
    fn name(self) -> Name
        ensures { name_bytes result ≡ name self }
    {
        Name::new(self.text())
    }
}

impl Cause {
    /// Returns the refusal for this cause.
    #[cold]
    #[inline(never)]
    pub(crate) fn refusal(self) -> DecodeError<Infallible>
        ensures { why_of result ≡ Some (why self) }
    {
        match self {
            Cause::Eof(label, expect) => DecodeError::Eof {
                name: label.name(),
                expect: Len::new(expect),
            },
            Cause::Mismatch(label, found) => DecodeError::Mismatch {
                name: label.name(),
                found,
            },
            Cause::Unsupported(label, found) => DecodeError::Unsupported {
                name: label.name(),
                found,
            },
            Cause::NonMinimal(label, found) => DecodeError::NonMinimal {
                name: label.name(),
                found,
            },
            Cause::IndefiniteSize => DecodeError::IndefiniteSize,
            Cause::RequireUtf8(label) => DecodeError::RequireUtf8 { name: label.name() },
            Cause::InvalidCid => DecodeError::Msg(Name::new("Invalid CID")),
            Cause::UnorderedKey => DecodeError::UnorderedKey,
            Cause::DepthOverflow(label) => DecodeError::DepthOverflow { name: label.name() },
            Cause::TrailingData => DecodeError::TrailingData,
        }
    }
}
