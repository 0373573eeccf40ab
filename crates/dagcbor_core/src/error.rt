//! Why a value was not read or not written.

ghost use Rattle.std.specs.Prelude.{◌≡◌};
ghost use Rattle.dagcbor_core.specs.Lengths.{len_of};

use crate::name::{Message, Name};
use std::error::Error;
use std::fmt;
use std::fmt::{Debug, Display, Formatter};

/// A length in a refusal.
#[derive(Debug, Drop)]
pub enum Len {
    /// A length of at most 65,535.
    Small(u16),
    /// Any greater length.
    Big,
}

impl Len {
    /// Returns the length as a refusal holds it: `Small` up to 65,535, else `Big`.
    pub fn new(length: u64) -> Len
        ensures { result ≡ len_of length }
    {
        match u16::try_from(length) {
            Ok(small) => Len::Small(small),
            Err(_) => Len::Big,
        }
    }
}

/// The bound of its type that an arithmetic result exceeded.
#[derive(Debug, Drop)]
pub enum ArithmeticOverflow {
    Overflow,
    Underflow,
}

/// Why a value was not written. `E` is the writer's error.
#[derive(Debug, Drop)]
pub enum EncodeError<E> {
    /// The value has no spelling.
    Msg(Message),
    /// The writer returned this error.
    Write(E),
    /// Memory could not be allocated.
    OutOfMemory,
}

impl<E> EncodeError<E> {
    ghost use Rattle.std.specs.Prelude.{◌≡◌, ◌≤◌, length};
    ghost use Rattle.dagcbor_core.specs.Messages.{Says, message_bytes};
    ghost use Rattle.dagcbor_core.specs.declared.name.Message.{Message};

    /// Returns a refusal with this message, cut as by `Message::new`.
    pub fn custom(message: &str) -> EncodeError<E>
        ensures { (kept : Message) × (result ≡ EncodeError.Msg kept) × Says kept message.now
            × (length message.now ≤ 63 → message_bytes kept ≡ message.now) }
    {
        EncodeError::Msg(Message::new(message))
    }
}

impl<E> From<E> for EncodeError<E> {
    ghost use Rattle.std.specs.Prelude.{◌≡◌};
    ghost use Rattle.dagcbor_core.specs.declared.error.EncodeError.TheVariants.{Write};

    ghost from_gives = { λ fault e. e ≡ Write fault };

    fn from(fault: E) -> EncodeError<E> {
        EncodeError::Write(fault)
    }
}

/// Formats the error as `Debug` does.
impl<E: Debug> Display for EncodeError<E> {
    fn fmt<W: fmt::Write>(&self, f: &mut Formatter<W>) -> fmt::Result {
        Debug::fmt(self, f)
    }
}

impl<E: Error> Error for EncodeError<E> {}

/// Why a value was not read. `E` is the reader's error. `name` says what was being read, and a byte
/// in `found` is the one at that place.
#[derive(Debug, Drop)]
pub enum DecodeError<E> {
    /// The type does not accept this value.
    Msg(Name),
    /// The reader returned this error.
    Read(E),
    /// The input ends before `expect` bytes: the width of an argument, or the announced length.
    Eof {
        name: Name,
        expect: Len,
    },
    /// The byte does not begin an item of the wanted kind.
    Mismatch {
        name: Name,
        found: u8,
    },
    /// The byte does not begin an item of the format.
    Unsupported {
        name: Name,
        found: u8,
    },
    /// Never returned by this library. For a caller's own types.
    RequireLength {
        name: Name,
        found: Len,
    },
    /// The type borrows from the input, but the reader does not lend its bytes.
    RequireBorrowed {
        name: Name,
    },
    /// The payload of a text is not UTF-8.
    RequireUtf8 {
        name: Name,
    },
    /// Never returned by this library. For a caller's own types.
    LengthOverflow {
        name: Name,
        found: Len,
    },
    /// The number is outside the range of the wanted type.
    CastOverflow {
        name: Name,
    },
    /// Never returned by this library. For a caller's own types.
    ArithmeticOverflow {
        name: Name,
        ty: ArithmeticOverflow,
    },
    /// An item needs a step, but no step is left.
    DepthOverflow {
        name: Name,
    },
    /// A list or map was ended with items unread: `value` were announced, and `expect` were read.
    LengthMismatch {
        name: Name,
        expect: usize,
        value: usize,
    },
    /// A byte is left after the item.
    TrailingData,
    /// The head announces an indefinite length, or is a break.
    IndefiniteSize,
    /// The head is not the shortest one for its argument.
    NonMinimal {
        name: Name,
        found: u8,
    },
    /// The key does not come after the previous key.
    UnorderedKey,
    /// Memory could not be allocated.
    OutOfMemory,
    /// An earlier call was refused.
    Failed,
}

impl<E> DecodeError<E> {
    ghost use Rattle.std.specs.Prelude.{◌≡◌};
    ghost use Rattle.dagcbor_core.specs.Names.{Names};
    ghost use Rattle.dagcbor_core.specs.declared.name.Name.{Name};

    /// Returns a refusal with this message, cut as by `Name::new`.
    pub fn custom(message: &str) -> DecodeError<E>
        ensures { (kept : Name) × (result ≡ DecodeError.Msg kept) × Names kept message.now }
    {
        DecodeError::Msg(Name::new(message))
    }

    /// Returns `Eof`: the input ends before `expect` bytes.
    #[cold]
    #[inline(never)]
    pub fn end(name: &str, expect: Len) -> DecodeError<E>
        ensures { (kept : Name) × (result ≡ DecodeError.Eof kept expect) × Names kept name.now }
    {
        DecodeError::Eof {
            name: Name::new(name),
            expect,
        }
    }

    /// Returns `Mismatch`: the byte does not begin an item of the wanted kind.
    #[cold]
    #[inline(never)]
    pub fn mismatch(name: &str, found: u8) -> DecodeError<E>
        ensures { (kept : Name) × (result ≡ DecodeError.Mismatch kept found) × Names kept name.now }
    {
        DecodeError::Mismatch {
            name: Name::new(name),
            found,
        }
    }

    /// Returns `Unsupported`: the byte does not begin an item of the format.
    #[cold]
    #[inline(never)]
    pub fn unsupported(name: &str, found: u8) -> DecodeError<E>
        ensures { (kept : Name) × (result ≡ DecodeError.Unsupported kept found)
            × Names kept name.now }
    {
        DecodeError::Unsupported {
            name: Name::new(name),
            found,
        }
    }

    /// Returns `CastOverflow`: the number is outside the range of the wanted type.
    #[cold]
    #[inline(never)]
    pub fn out_of_range(name: &str) -> DecodeError<E>
        ensures { (kept : Name) × (result ≡ DecodeError.CastOverflow kept) × Names kept name.now }
    {
        DecodeError::CastOverflow {
            name: Name::new(name),
        }
    }
}

impl<E> From<E> for DecodeError<E> {
    ghost use Rattle.std.specs.Prelude.{◌≡◌};
    ghost use Rattle.dagcbor_core.specs.declared.error.DecodeError.TheVariants.{Read};

    ghost from_gives = { λ fault e. e ≡ Read fault };

    fn from(fault: E) -> DecodeError<E> {
        DecodeError::Read(fault)
    }
}

/// Formats the error as `Debug` does.
impl<E: Debug> Display for DecodeError<E> {
    fn fmt<W: fmt::Write>(&self, f: &mut Formatter<W>) -> fmt::Result {
        Debug::fmt(self, f)
    }
}

impl<E: Error> Error for DecodeError<E> {}
