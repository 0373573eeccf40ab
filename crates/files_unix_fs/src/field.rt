//! The fields of a message.

ghost use Rattle.std.specs.Prelude.{◌≡◌, ◌<◌, length, MatchResult, IfOk};
ghost use Rattle.files_unix_fs.specs.Fields.{held_of, value_of, field_of};
ghost use Rattle.files_unix_fs.specs.Held.{held_value, held_field};

use crate::error::UnixFsCause;
use crate::varint::{split_bytes, split_varint};

/// The value of a field.
#[derive(Clone, Copy)]
pub(crate) enum Value<'a> {
    Number(u64),
    Bytes(&'a [u8]),
}

/// A field: its tag and its value.
#[derive(Clone, Copy)]
pub(crate) struct Field<'a> {
    pub tag: u64,
    pub value: Value<'a>,
}

/// Returns the field at the front, and the bytes after it.
#[tactic(auto, unfolding(crate::specs::Fields::field_of))]
pub(crate) fn split_field(bytes: &[u8]) -> Result<(Field<'_>, &[u8]), UnixFsCause>
    ensures field { MatchResult result
        (λ p. field_of bytes.now ≡ Ok (held_field p.0, p.1.now))
        (λ e. field_of bytes.now ≡ Err e) }
    ensures shorter { IfOk result (λ p. length p.1.now < length bytes.now) }
{
    let (tag, following) = split_varint(bytes)?;
    let (value, rest) = split_value(tag, following)?;
    Ok((Field { tag, value }, rest))
}

/// Returns the value of the field with this tag, read by its wire type, and the bytes after it.
#[tactic(auto, unfolding(crate::specs::Fields::value_of))]
fn split_value(tag: u64, bytes: &[u8]) -> Result<(Value<'_>, &[u8]), UnixFsCause>
    ensures { MatchResult result
        (λ p. value_of tag bytes.now ≡ Ok (held_value p.0, p.1.now))
        (λ e. value_of tag bytes.now ≡ Err e) }
{
    match tag % 8 {
        0 => {
            let (number, rest) = split_varint(bytes)?;
            Ok((Value::Number(number), rest))
        }
        1 => split_held(8, bytes),
        2 => {
            let (count, rest) = split_varint(bytes)?;
            split_held(count, rest)
        }
        5 => split_held(4, bytes),
        _ => Err(UnixFsCause::UnexpectedField(tag)),
    }
}

/// Returns a value of `count` bytes, and the bytes after it.
fn split_held(count: u64, bytes: &[u8]) -> Result<(Value<'_>, &[u8]), UnixFsCause>
    ensures { MatchResult result
        (λ p. held_of count bytes.now ≡ Ok (held_value p.0, p.1.now))
        (λ e. held_of count bytes.now ≡ Err e) }
{
    let (inner, rest) = split_bytes(count, bytes)?;
    Ok((Value::Bytes(inner), rest))
}
