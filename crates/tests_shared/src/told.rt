//! Comparisons of answers with expected ones. A failing test reports both.

use std::alloc::Global;
use std::fmt::Debug;
use std::test::Fail;

/// Fails if the two differ.
pub fn agree<T: Debug + PartialEq + Copy>(answer: T, wanted: T) -> Result<(), Fail> {
    if answer == wanted {
        return Ok(());
    }
    Err(Fail::new(format_args!("{answer:?} in place of {wanted:?}")))
}

/// Fails if the value's debug text is another.
pub fn is_told<T: Debug>(alloc: Global, value: &T, wanted: &str) -> Result<(), Fail> {
    let text = format!(in alloc; "{value:?}")?;
    agree(text.as_str(), wanted)
}
