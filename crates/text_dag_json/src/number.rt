//! Integers among the numbers of JSON.

ghost use Rattle.std.specs.Prelude.{◌≡◌};
ghost use Rattle.ipld_tree.specs.Tree.{integer};
ghost use Rattle.text_dag_json.specs.Reading.{are_digits, is_whole, is_in_range, number_data, read_map};

use crate::error::DagJsonError;

/// Returns whether all bytes are digits.
fn are_digits(text: &[u8]) -> bool
    ensures { result ≡ are_digits text.now }
{
    for byte in text {
        if !byte.is_ascii_digit() {
            return false;
        }
    }
    true
}

/// Returns whether the number has neither a fraction nor an exponent.
fn is_whole(text: &[u8]) -> bool
    ensures { result ≡ is_whole text.now }
{
    match text {
        [] => false,
        [digit] => digit.is_ascii_digit(),
        [first, digits @ ..] => (first.is_ascii_digit() || *first == b'-') && are_digits(digits),
    }
}

/// Returns whether DAG-CBOR has the integer.
fn is_in_range(value: i128) -> bool
    ensures { result ≡ is_in_range value }
{
    -0x1_0000_0000_0000_0000 <= value && value < 0x1_0000_0000_0000_0000
}

/// Returns the integer that the number spells.
pub fn integer_of(text: &str) -> Result<i128, DagJsonError>
    ensures { number_data text.now ≡ read_map integer result }
{
    if !is_whole(text.as_bytes()) {
        return Err(DagJsonError::Float);
    }
    match text.parse::<i128>() {
        Ok(value) if is_in_range(value) => Ok(value),
        _ => Err(DagJsonError::OutOfRange),
    }
}
