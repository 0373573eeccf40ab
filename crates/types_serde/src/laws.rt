//! Laws of events, those of links among them. Each is the contract of a function that does nothing.

ghost use Rattle.types_serde.specs.Links.{LinksAreLinks, FieldsAreNoLinks};
ghost use Rattle.types_serde.specs.Making.{TreesAreWritten, LeavesAreWritten, ListsAreWritten, EntriesAreAdded};

use serde::Described;

/// The events of a link make that link.
pub fn links_are_links()
    ensures { LinksAreLinks }
{}

/// A field with another name, or in another case, does not make a link: a derive sends `/` as it
/// is.
#[tactic(auto, using(crate::proofs::LinkNames::only_link_names))]
pub fn fields_are_no_links()
    ensures { FieldsAreNoLinks }
{}

/// A value that is sent as a tree, as `Any` is, is written as that tree's spelling.
#[tactic(auto, using(crate::proofs::Making::written_trees))]
pub fn trees_are_written()
    ensures { TreesAreWritten }
{}

/// A number, a bool, a text, bytes, a link and `()` are each sent as that leaf.
pub fn leaves_are_written()
    ensures { LeavesAreWritten }
{}

/// A list whose items are sent as trees is sent as the list of these trees.
pub fn lists_are_written<T: Described>()
    ensures { ListsAreWritten T.writes }
{}

/// The entries of a flattened `Rest` come after those of the map around it. If a key is there
/// twice, that map has no tree.
#[tactic(auto, using(crate::proofs::Making::added_entries))]
pub fn entries_are_added()
    ensures { EntriesAreAdded }
{}
