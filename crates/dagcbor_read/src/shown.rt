//! Types and their views of trees.

ghost use Rattle.ipld_tree.specs.Tree.{Tree};
ghost use Rattle.dagcbor_items.specs.Shapes.{Shape};

/// A type with a view of trees.
pub trait Shown {
    /// What a value holds, wherever it is in memory.
    ghost View: { Type 0 };

    ghost meaning: { Self → View };

    /// The view of a tree, the steps that reading it takes, whether it needs a loan of the input,
    /// and whether it may take memory.
    ghost shape: { Shape Tree View };
}
