//! Grids, that is sets of leaves: their definitions stand in `specs/`, and the kinds of nodes here.

/// What a node of a tree is.
#[derive(Clone, Copy, Debug, PartialEq, Eq)]
pub enum NodeKind {
    /// A leaf.
    Leaf,
    /// A parent of at least one leaf.
    AboveLeaf,
    /// Any other node: a parent of parents alone.
    Inner,
}
