//! Bytes as one number in base 58, and back.

ghost use Rattle.std.specs.Prelude.{◌≡◌, ◌≢◌, ◌+◌, ◌*◌, ◌≤◌, ◌∷◌, ◌++◌, length, reverse, ℕ, List, MatchBool};
ghost use Rattle.std.specs.Int.Digits.{AllBelowBase, number_from_digits};
ghost use Rattle.arrayvec.specs.ArrayVec.{array_vec_len};
ghost use Rattle.text_cid.specs.Base58.{text_in_58, AreDigits, CanTimesPlus, TimesPlus};
ghost use Rattle.text_cid.specs.Reads.{Reads58, ReadsDigits58};

use crate::error::CidTextError;
use crate::groups::{LONGEST_WRITTEN, READ_ROOM};
use crate::symbols::{place_of, split_character};
use arrayvec::ArrayVec;

/// The symbols of base58btc.
const SYMBOLS: &[u8] = b"123456789ABCDEFGHJKLMNPQRSTUVWXYZabcdefghijkmnopqrstuvwxyz";

/// Returns the digits of `times` times the number, plus `plus`. The lowest digit comes first.
fn times_plus(base: u32, times: u32, plus: u32, digits: &[u8]) -> ArrayVec<u8, READ_ROOM>
    requires can { CanTimesPlus base times plus digits.now }
    requires room { length digits.now + 2 ≤ 346 }
    ensures product { TimesPlus base times plus digits.now result.items }
    ensures below { AllBelowBase base result.items }
    ensures long { array_vec_len result ≤ length digits.now + 2 }
{
    let mut out = ArrayVec::new();
    let mut carry = plus;
    for &digit in digits {
        carry += u32::from(digit) * times;
        out.push((carry % base) as u8);
        carry /= base;
    }
    if carry > 0 {
        out.push((carry % base) as u8);
        if carry >= base {
            out.push((carry / base) as u8);
        }
    }
    out
}

/// Returns the digits in base 58, the lowest first, of the number whose digits in base 256 are the
/// bytes.
fn digits_in_58(bytes: &[u8]) -> ArrayVec<u8, READ_ROOM>
    requires room { 2 * length bytes.now ≤ 139 }
    ensures digits { AreDigits 58 (number_from_digits 256 bytes.now) result.items }
    ensures below { AllBelowBase 58 result.items }
    ensures long { array_vec_len result ≤ 2 * length bytes.now }
{
    let mut digits = ArrayVec::new();
    for &byte in bytes {
        digits = times_plus(58, 256, u32::from(byte), &digits);
    }
    digits
}

/// Appends the bytes in base58btc. Zero bytes at the front are lost.
pub fn push_58(bytes: &[u8], out: &mut ArrayVec<u8, LONGEST_WRITTEN>)
    requires room { array_vec_len out.old + 2 * length bytes.now ≤ 139 }
    ensures { out.new.items ≡ out.old.items ++ text_in_58 bytes.now }
{
    let digits = digits_in_58(bytes);
    let count = digits.len();
    for place in 0..count {
        out.push(SYMBOLS[digits[count - 1 - place] as usize]);
    }
}

/// Returns the digits in base 256, the lowest first, of the number that the text spells.
fn digits_of_58(text: &[u8]) -> Result<ArrayVec<u8, READ_ROOM>, CidTextError>
    requires room { length text.now ≤ 172 }
    ensures { ReadsDigits58 text.now result }
{
    let mut digits = ArrayVec::new();
    for &symbol in text {
        let Some(place) = place_of(SYMBOLS, symbol) else {
            return Err(CidTextError::InvalidCharacter);
        };
        digits = times_plus(256, 58, u32::from(place), &digits);
    }
    Ok(digits)
}

/// Returns the digits in reverse: the highest first.
fn reversed(digits: &[u8]) -> ArrayVec<u8, READ_ROOM>
    requires { length digits.now ≤ 346 }
    ensures { result.items ≡ reverse digits.now }
{
    let mut out = ArrayVec::new();
    let count = digits.len();
    for place in 0..count {
        out.push(digits[count - 1 - place]);
    }
    out
}

/// Returns whether the first digit is zero.
fn begins_with_zero(text: &[u8]) -> bool
    ensures { MatchBool result ((rest : List ℕ) × (text.now ≡ 49 ∷ rest))
        ((rest : List ℕ) → text.now ≢ 49 ∷ rest) }
{
    match split_character(text) {
        Some((b'1', _)) => true,
        _ => false,
    }
}

/// Returns the bytes that the text spells. Their first byte is not zero.
pub fn read_58(text: &[u8]) -> Result<ArrayVec<u8, READ_ROOM>, CidTextError>
    requires room { length text.now ≤ 172 }
    ensures { Reads58 text.now result }
{
    if begins_with_zero(text) {
        return Err(CidTextError::LeadingZero);
    }
    match digits_of_58(text) {
        Ok(digits) => Ok(reversed(&digits)),
        Err(error) => Err(error),
    }
}
