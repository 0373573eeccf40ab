//! Laws of the definitions, each the contract of a function that does nothing.

ghost use Rattle.dagcbor_core.specs.Laws.{HeadsAreUnique};

/// Bytes begin with at most one head, whatever follows it.
pub fn head_unique()
    ensures { HeadsAreUnique }
{}
