//! The base of the types that `dagcbor-types` makes from an IPLD Schema: written tuples with any
//! number of parts, written structs with any number of fields, and values identified by a number,
//! by their kind, or by a tag before them.
#![tactic(auto)]

mod by_kind;
mod envelope;
mod from_parts;
mod implicit;
mod numbered;
mod pairs;
mod part_row;
mod written_groups;

pub use by_kind::{ByKind, NoKind};
pub use envelope::{Enveloped, read_enveloped};
pub use from_parts::{FromParts, read_from_parts};
pub use implicit::omit_implicit;
pub use numbered::{Numbered, read_numbered};
pub use pairs::of_name;
pub use part_row::{OptionalPart, Part, PartRow, write_parts};
pub use written_groups::{InGroups, OneGroup, WrittenGroup, WrittenGroups};
