//! Uses of `serde_ipld_dagcbor`, as a caller writes them: types of the caller's own, and a caller
//! that is proved. Their tests are in `tests_by_hand`.
//!
//! | Use | File |
//! |---|---|
//! | a struct | `note.rt` |
//! | a struct with a field that may be absent | `person.rt` |
//! | a struct with a field that is left out | `optional_person.rt` |
//! | a struct that goes to devices | `mascot.rt` |
//! | an enum | `color.rt` |
//! | a struct that holds a list of structs and an enum | `album.rt` |
//! | a function whose contract rests on that of `from_slice` | `caller.rt` |
#![tactic(auto)]

mod album;
mod caller;
mod color;
mod mascot;
mod note;
mod optional_person;
mod person;

pub use album::{Album, Format, Track};
pub use caller::year_of;
pub use color::Color;
pub use mascot::Mascot;
pub use note::Note;
pub use optional_person::OptionalPerson;
pub use person::Person;
