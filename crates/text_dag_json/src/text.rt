//! Writing texts of JSON (RFC 8259).

ghost use Rattle.std.specs.Prelude.{◌≡◌, ◌<◌};
ghost use Rattle.text_dag_json.specs.DagJson.{digit_16, escaped, json_text, Pushes};

use std::alloc::AllocError;

/// Returns a digit of base 16.
fn digit_16(value: u8) -> u8
    requires { value < 16 }
    ensures { result ≡ digit_16 value }
{
    b"0123456789abcdef"[value as usize]
}

/// Appends a byte of a text, escaped if need be.
fn push_escaped(byte: u8, out: &mut Vec<u8>) -> Result<(), AllocError>
    ensures { Pushes (escaped byte) out.old.items result out.new.items }
{
    if byte == b'"' {
        out.extend_from_slice(b"\\\"")
    } else if byte == b'\\' {
        out.extend_from_slice(b"\\\\")
    } else if byte == 8 {
        out.extend_from_slice(b"\\b")
    } else if byte == b'\t' {
        out.extend_from_slice(b"\\t")
    } else if byte == b'\n' {
        out.extend_from_slice(b"\\n")
    } else if byte == 12 {
        out.extend_from_slice(b"\\f")
    } else if byte == b'\r' {
        out.extend_from_slice(b"\\r")
    } else if byte < 32 {
        out.extend_from_slice(&[
            b'\\',
            b'u',
            b'0',
            b'0',
            digit_16(byte / 16),
            digit_16(byte % 16),
        ])
    } else {
        out.extend_from_slice(&[byte])
    }
}

/// Appends a text between quotes.
pub fn push_text(text: &[u8], out: &mut Vec<u8>) -> Result<(), AllocError>
    ensures { Pushes (json_text text.now) out.old.items result out.new.items }
{
    out.push(b'"')?;
    for &byte in text {
        push_escaped(byte, out)?;
    }
    out.push(b'"')?;
    Ok(())
}
