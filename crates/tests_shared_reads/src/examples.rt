//! How values of the examples are written and read, whichever way their types are implemented.

use crate::reads::each_answers;
use serde_ipld_dagcbor::{Deserialize, Serialize};
use std::alloc::Global;
use std::fmt::Debug;
use std::test::Fail;
use tests_shared::writes;

/// The note with the year 23 and the text "hi".
const NOTE: &[u8] = b"\xa2\x64text\x62hi\x64year\x17";

/// Blocks, and the answers of reading them.
const NOTES: &[(&[u8], &str)] = &[
    (NOTE, r#"Ok(Note { year: 23, text: "hi" })"#),
    // 18 17 spells 23 in two bytes, where one is enough.
    (
        b"\xa2\x64text\x62hi\x64year\x18\x17",
        r#"Err(NonMinimal { name: "u16", found: 24 })"#,
    ),
];

/// Fails if the note with the year 23 and the text "hi" is written otherwise, or if it, or another
/// spelling of it, is read otherwise, whatever pieces the bytes come in.
pub fn note_goes_both_ways<'de, T: Serialize + Deserialize<'de> + Debug + Drop>(
    alloc: Global,
    note: &T,
) -> Result<(), Fail> {
    writes(alloc, note, NOTE)?;
    each_answers::<T>(alloc, NOTES)
}

/// The answer of reading an album of two tracks.
pub const BLUE_TOLD: &str =
    r#"Ok(Album { year: Some(1971), title: "Blue", format: Vinyl, tracks: [Track { note: Some("take 2"), title: "Carey", seconds: 182 }, Track { note: None, title: "River", seconds: 244 }] })"#;

/// The answer of reading an album without a year and tracks.
pub const DEMO_TOLD: &str = r#"Ok(Album { year: None, title: "Demo", format: Tape, tracks: [] })"#;
