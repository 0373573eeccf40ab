//! The fields of a struct, as a list of pairs.

ghost use Rattle.std.specs.Prelude.{◌≡◌, Option, None, Some, if◌then◌else◌, string_bytes};
ghost use Rattle.std.specs.Str.{bytes_eq};

/// Returns the value of a pair if its text is this name.
pub fn of_name<T: Drop>(pair: (String, T), name: &str) -> Option<T>
    ensures { result ≡ (if bytes_eq (string_bytes pair.0) name.now then Some pair.1 else None) }
{
    let (text, value) = pair;
    if text.as_str() == name {
        Some(value)
    } else {
        None
    }
}
