//! Laws of reading, each the contract of a function that does nothing.

ghost use Rattle.dagcbor_items.specs.Laws.{ReadsAreDecoded};

/// The functions of the format read the trees that are in bytes. So the result of a read of known
/// bytes is given by an equation, as its refusals are: the tree or value that its function reads,
/// and the bytes after it.
pub fn reads_decoded()
    ensures { ReadsAreDecoded }
{}
