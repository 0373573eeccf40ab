//! Keys as words of lines.

ghost use Rattle.std.specs.Prelude.{◌≡◌, ◌++◌, ◌<◌, ◌≤◌, List, ℕ, length, IfOk, OnOk};
ghost use Rattle.text_cid.specs.Alphabets.{AreBytes};
ghost use Rattle.program_records.specs.Keys.{upper_digit, is_spelled, key_byte, key_text, IsNamedBy};

use std::alloc::{AllocError, Global};

/// Returns an upper-case hexadecimal digit.
fn upper_digit(value: u8) -> u8
    requires { value < 16 }
    ensures { result ≡ upper_digit value }
{
    b"0123456789ABCDEF"[value as usize]
}

/// Returns whether a byte is escaped: outside 0x21 to 0x7e, or `%`.
fn is_spelled(byte: u8) -> bool
    ensures { result ≡ is_spelled byte }
{
    byte < 0x21 || 0x7e < byte || byte == b'%'
}

/// Appends a byte of a key, escaped if needed.
fn push_byte(byte: u8, out: &mut Vec<u8>) -> Result<(), AllocError>
    ensures { OnOk result (out.new.items ≡ out.old.items ++ key_byte byte) }
{
    if is_spelled(byte) {
        out.extend_from_slice(&[b'%', upper_digit(byte / 16), upper_digit(byte % 16)])
    } else {
        out.extend_from_slice(&[byte])
    }
}

/// Appends a key as one word of a line. A byte outside 0x21 to 0x7e, and `%`, becomes `%` and two
/// hexadecimal digits.
pub fn push_key(key: &[u8], out: &mut Vec<u8>) -> Result<(), AllocError>
    ensures { OnOk result (out.new.items ≡ out.old.items ++ key_text key.now) }
{
    for &byte in key {
        push_byte(byte, out)?;
    }
    Ok(())
}

/// Returns the value of an upper-case hexadecimal digit. Unspecified for another byte, but below
/// 16.
fn digit_value(byte: u8) -> u8
    ensures bound { result < 16 }
    ensures value { (n : ℕ) → n < 16 → byte ≡ upper_digit n → result ≡ n }
{
    for value in 0..16 {
        if upper_digit(value) == byte {
            return value;
        }
    }
    0
}

/// Returns the first byte of the key with this text, and how many bytes of text spell it.
fn front_byte(text: &[u8]) -> (u8, usize)
    requires { 1 ≤ length text.now }
    ensures bound { (1 ≤ result.1) × (result.1 ≤ length text.now) }
    ensures value { (b : ℕ) (more : List ℕ) → b < 256 → text.now ≡ key_byte b ++ more
        → (result.0 ≡ b) × (result.1 ≡ length (key_byte b)) }
{
    if text.len() < 3 || text[0] != b'%' {
        return (text[0], 1);
    }
    (16 * digit_value(text[1]) + digit_value(text[2]), 3)
}

/// Returns the key with this text. Unspecified if it is not the text of a key.
fn key_of_text(alloc: Global, text: &[u8]) -> Result<Vec<u8>, AllocError>
    ensures { (key : List ℕ) → AreBytes key → text.now ≡ key_text key
        → IfOk result (λ v. v.items ≡ key) }
{
    let mut key = Vec::new(alloc);
    let mut at = 0;
    while at < text.len() {
        let (byte, length) = front_byte(&text[at..]);
        key.push(byte)?;
        at += length;
    }
    Ok(key)
}

/// Does nothing. Gives the proof that bytes are below 256.
fn are_bytes(bytes: &[u8])
    ensures { AreBytes bytes.now }
{
    let _bytes = bytes;
}

/// Returns the key that a word names: the key with this text, or the word itself if it is not the
/// text of a key.
pub fn named_key(alloc: Global, word: &[u8]) -> Result<Vec<u8>, AllocError>
    ensures { IfOk result (λ v. IsNamedBy word.now v.items) }
{
    let key = key_of_text(alloc, word)?;
    are_bytes(&key);
    let mut text = Vec::new(alloc);
    push_key(&key, &mut text)?;
    if text.as_slice() == word {
        Ok(key)
    } else {
        word.to_vec(alloc)
    }
}
