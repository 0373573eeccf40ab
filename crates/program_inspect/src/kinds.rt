//! What sections are grouped by: codecs and hashes.

ghost use Rattle.std.specs.Prelude.{◌≡◌, IfOk, string_bytes};
ghost use Rattle.program_inspect.specs.Facts.{code_text, shown_number, kind_word};

use program_parts::codec_name;
use std::alloc::{AllocError, Global};

/// What sections are grouped by: a number of the multicodec table.
#[derive(Clone, Copy, Drop)]
pub enum Kind {
    Codec,
    Hash,
}

/// Returns the number in hexadecimal, with `0x`.
fn code_text(alloc: Global, number: u64) -> Result<String, AllocError>
    ensures { IfOk result (λ text. string_bytes text ≡ code_text number) }
{
    format!(in alloc; "0x{number:x}")
}

/// Returns a codec's usual name, or any other number in hexadecimal.
pub fn shown_number(alloc: Global, kind: Kind, number: u64) -> Result<String, AllocError>
    ensures { IfOk result (λ text. string_bytes text ≡ shown_number kind number) }
{
    match kind {
        Kind::Codec => match codec_name(number) {
            Some(name) => String::from_str(alloc, name),
            None => code_text(alloc, number),
        },
        Kind::Hash => code_text(alloc, number),
    }
}

/// Returns the word for the kind.
pub fn kind_word(kind: Kind) -> &'static str
    ensures { result.now ≡ kind_word kind }
{
    match kind {
        Kind::Codec => "codec",
        Kind::Hash => "hash",
    }
}
