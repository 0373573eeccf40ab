//! Laws of the definitions, each stated as the contract of a function that does nothing.

ghost use Rattle.atproto_events.specs.Laws.{StepsUndo, OpenedFill, NamedRight, UndoneRight};
ghost use Rattle.atproto_events.specs.Laws.{MissingIsLost};

/// A change undone on pieces is undone on any entries that they stand for; redone, it leads back.
pub fn steps_undo()
    ensures { StepsUndo }
{}

/// The pieces of an opened tree stand for its entries, if names bind the stored nodes.
pub fn opened_fill()
    ensures { OpenedFill }
{}

/// A root that is computed from pieces is that of any entries that they stand for.
pub fn named_right()
    ensures { NamedRight }
{}

/// If a tree is opened, the changes are undone on its pieces, and a root is computed from these,
/// then the changes lead from that root to the tree.
pub fn undone_right()
    ensures { UndoneRight }
{}

/// A node that is reported as missing is not stored.
pub fn missing_is_lost()
    ensures { MissingIsLost }
{}
