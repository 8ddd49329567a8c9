//! The tree.

ghost use Rattle.block_tree.specs.Listed.{IsTree};

use crate::blocks::{block_over, child_block, is_in_domain, most_nodes, parent_block};
use crate::forest::nodes_of;
use crate::places::{push_place, root_blocks};
use crate::rule::keeps_level_rule;
use crate::search::place_of;
use amr_num::{BlockAt, CellAt, OutOfMemory};
pub use mesh_model::NodeKind;
use mesh_model::Shape;
use std::alloc::Global;

/// Why there is no tree after refining and merging.
#[derive(Clone, Copy, Debug, PartialEq, Eq)]
pub enum GrowStop {
    /// So many nodes would stand, which are too many.
    Blocks(u32),
    /// Memory was refused.
    OutOfMemory,
}

/// Why there is no tree with flags.
#[derive(Clone, Copy, Debug, PartialEq, Eq)]
pub enum KindsStop {
    /// No tree of the shape has these flags.
    NotTree,
    /// Memory was refused.
    OutOfMemory,
}

/// The nodes of a mesh's tree of blocks, in Morton order. Its leaves tile the domain and keep the level rule, and
/// its nodes are at most 8,192, or 4,096 where blocks have 4 guard cells on each side.
#[derive(Drop)]
pub struct Tree {
    shape: Shape,
    nodes: Vec<BlockAt>,
    pub ghost valid: { ∥ IsTree shape nodes.items ∥₁ },
}

impl Tree {
    ghost use Rattle.amr_num.specs.declared.BlockAt.{BlockAt};
    ghost use Rattle.block_tree.specs.FromKinds.{IsKindsStop};
    ghost use Rattle.block_tree.specs.GridOf.{grid_of};
    ghost use Rattle.block_tree.specs.Growing.{IsGrowStop, MayRegrow, grid_after};
    ghost use Rattle.block_tree.specs.Places.{is_taken_back};
    ghost use Rattle.mesh_model.specs.Tree.Kinds.{kind_of};
    ghost use Rattle.block_tree.specs.Numbered.{IsLeafOver, IsNode, IsNumberOf, block_at, blocks_of, flag_in};
    ghost use Rattle.mesh_model.specs.Geometry.Blocks as model;
    ghost use Rattle.mesh_model.specs.Geometry.Coordinates.{Inside};
    ghost use Rattle.mesh_model.specs.Geometry.Limits as limits;
    ghost use Rattle.mesh_model.specs.Geometry.Limits.{IsShape};
    ghost use Rattle.mesh_model.specs.Tree.Forest.{HasFlags};
    ghost use Rattle.mesh_model.specs.Tree.Order.{IsIn, nodes};
    ghost use Rattle.mesh_model.specs.Tree.Kinds.{block_of, is_leaf_block, is_split};
    ghost use Rattle.mesh_model.specs.Tree.Start.{start_grid};
    ghost use Rattle.mesh_model.specs.Tree.ValidGrid.{FewNodes};
    ghost use Rattle.mesh_model.specs.Geometry.Blocks.{InDomain, LiesIn};
    ghost use Rattle.std.specs.Prelude.{◌≡◌, ◌*◌, ◌<◌, ◌≤◌, ◌⊎◌};
    ghost use Rattle.std.specs.Prelude.{IfErr, IfNone, IfOk, IfSome, MatchOption, OnOk, OnSome, false, true, length};

    /// The tree whose leaves are the roots of the domain.
    pub fn roots(alloc: Global, shape: Shape) -> Result<Tree, OutOfMemory>
        requires { IsShape shape }
        ensures { IfOk result (λ tree. grid_of tree ≡ start_grid shape) }
    {
        let nodes = root_blocks(alloc, &shape)?;
        Ok(Tree { shape, nodes })
    }

    /// The tree whose nodes in Morton order have these flags: up for a parent, down for a leaf. `NotTree` comes exactly
    /// where no tree of the shape has them: flags are wanting or left over, a parent stands at the finest level, leaves
    /// that touch differ by more than one level, or there are more nodes than the limit.
    pub fn from_kinds(alloc: Global, shape: Shape, above: &[bool]) -> Result<Tree, KindsStop>
        requires { IsShape shape }
        ensures tree { IfOk result (λ tree. HasFlags shape above.now (grid_of tree)) }
        ensures stop { IfErr result (IsKindsStop shape above.now) }
    {
        if above.len() > most_nodes(&shape) as usize {
            return Err(KindsStop::NotTree);
        }
        let nodes = match nodes_of(alloc, &shape, above) {
            Ok(Some(nodes)) => nodes,
            Ok(None) => return Err(KindsStop::NotTree),
            Err(OutOfMemory) => return Err(KindsStop::OutOfMemory),
        };
        if !keeps_level_rule(&shape, &nodes, above) {
            return Err(KindsStop::NotTree);
        }
        Ok(Tree { shape, nodes })
    }

    /// The shape of the mesh.
    pub fn shape(&self) -> Shape
        ensures value { result ≡ (grid_of self.now).shape }
        ensures limits { IsShape result }
    {
        self.shape
    }

    /// How many nodes there are.
    pub fn len(&self) -> u32
        ensures value { result ≡ length (nodes (grid_of self.now).leaves) }
        ensures few { result ≤ limits.most_nodes (grid_of self.now).shape }
    {
        self.nodes.len() as u32
    }

    /// How many leaves there are.
    pub fn leaf_count(&self) -> u32
        ensures { result ≡ length (grid_of self.now).leaves }
    {
        let mut count = 0;
        for node in 0..self.len() {
            if self.is_leaf(node) {
                count += 1;
            }
        }
        count
    }

    /// The block of a node.
    pub fn at(&self, node: u32) -> BlockAt
        requires { IsNode (grid_of self.now) node }
        ensures value { result ≡ block_at (grid_of self.now) node }
        ensures inside { InDomain (grid_of self.now).shape result }
    {
        self.nodes[node as usize]
    }

    /// Whether a node is a leaf.
    pub fn is_leaf(&self, node: u32) -> bool
        requires { IsNode (grid_of self.now) node }
        ensures { result ≡ is_leaf_block (grid_of self.now) (block_at (grid_of self.now) node) }
    {
        let b = self.at(node);
        let next = node + 1;
        if b.level >= 10 || next >= self.len() {
            return true;
        }
        // The first child of a node stands directly behind it.
        self.at(next) != child_block(b, 0)
    }

    /// The node of a block. `None` exactly where the block is no node.
    pub fn node_at(&self, b: BlockAt) -> Option<u32>
        ensures { MatchOption result (IsIn b (nodes (grid_of self.now).leaves) → ⊥) (IsNumberOf (grid_of self.now) b) }
    {
        if !is_in_domain(&self.shape, b) {
            return None;
        }
        match place_of(&self.nodes, b) {
            Some(place) => Some(place as u32),
            None => None,
        }
    }

    /// The node of a block that is a leaf. `None` exactly where the block is no leaf.
    pub fn leaf_at(&self, b: BlockAt) -> Option<u32>
        ensures { MatchOption result (is_leaf_block (grid_of self.now) b ≡ false)
            (λ node. (is_leaf_block (grid_of self.now) b ≡ true) × IsNumberOf (grid_of self.now) b node) }
    {
        let node = self.node_at(b)?;
        if self.is_leaf(node) { Some(node) } else { None }
    }

    /// The parent of a node. `None` exactly for a root.
    pub fn parent(&self, node: u32) -> Option<u32>
        requires { IsNode (grid_of self.now) node }
        ensures { let b = block_at (grid_of self.now) node in
            MatchOption result (b.level ≡ 0) (λ parent. (0 < b.level) × IsNumberOf (grid_of self.now) (model.parent_block b) parent) }
    {
        let b = self.at(node);
        if b.level == 0 {
            return None;
        }
        self.node_at(parent_block(b))
    }

    /// The child `octant` of a node, with octant i + 2 j + 4 k for the half i of the block on x, j on y and k on z.
    /// `None` exactly for a leaf.
    pub fn child(&self, node: u32, octant: u32) -> Option<u32>
        requires node { IsNode (grid_of self.now) node }
        requires octant { octant < 8 }
        ensures { let b = block_at (grid_of self.now) node in
            MatchOption result (is_leaf_block (grid_of self.now) b ≡ true)
            (λ child. (is_leaf_block (grid_of self.now) b ≡ false) × IsNumberOf (grid_of self.now) (model.child_block b octant) child) }
    {
        if self.is_leaf(node) {
            return None;
        }
        self.node_at(child_block(self.at(node), octant))
    }

    /// What a node is.
    pub fn kind(&self, node: u32) -> NodeKind
        requires { IsNode (grid_of self.now) node }
        ensures { result ≡ kind_of (grid_of self.now) (block_at (grid_of self.now) node) }
    {
        if self.is_leaf(node) {
            return NodeKind::Leaf;
        }
        let b = self.at(node);
        for octant in 0..8 {
            if self.leaf_at(child_block(b, octant)).is_some() {
                return NodeKind::AboveLeaf;
            }
        }
        NodeKind::Inner
    }

    /// The leaf in which a cell lies. `None` exactly where the cell is split or outside the domain.
    pub fn covering(&self, c: CellAt) -> Option<u32>
        ensures leaf { IfSome result (IsLeafOver (grid_of self.now) c) }
        ensures whole { OnSome result (is_split (grid_of self.now) c ≡ false) }
        ensures inside { OnSome result (Inside (grid_of self.now).shape c) }
        ensures none { IfNone result ((is_split (grid_of self.now) c ≡ true) ⊎ (Inside (grid_of self.now).shape c → ⊥)) }
        ensures nowhere { let g = grid_of self.now in
            IfNone result ((leaf : BlockAt) → IsIn leaf g.leaves → LiesIn (block_of g.shape.n c) leaf → ⊥) }
    {
        let finest = self.shape.max.min(c.level);
        for level in 0..finest + 1 {
            let leaf = self.leaf_at(block_over(self.shape.n, c, level));
            if leaf.is_some() {
                return leaf;
            }
        }
        None
    }

    /// The tree after its flagged leaves are refined and its flagged parents merged. The lists have one flag for each
    /// node. `Blocks` comes exactly where more nodes than the limit would stand, and carries their number.
    pub fn regrown(&self, alloc: Global, refine: &[bool], merge: &[bool]) -> Result<Tree, GrowStop>
        requires refine { length refine.now ≡ length (nodes (grid_of self.now).leaves) }
        requires merge { length merge.now ≡ length (nodes (grid_of self.now).leaves) }
        requires may { let g = grid_of self.now in
            MayRegrow g (blocks_of g (flag_in refine.now)) (blocks_of g (flag_in merge.now)) }
        ensures tree { IfOk result (λ tree. grid_of tree ≡ grid_after (grid_of self.now) refine.now merge.now) }
        ensures few { OnOk result (FewNodes (grid_after (grid_of self.now) refine.now merge.now)) }
        ensures stop { IfErr result (IsGrowStop (grid_after (grid_of self.now) refine.now merge.now)) }
    {
        let nodes = match self.nodes_after(alloc, refine, merge) {
            Ok(nodes) => nodes,
            Err(OutOfMemory) => return Err(GrowStop::OutOfMemory),
        };
        let count = nodes.len() as u32;
        if count > most_nodes(&self.shape) {
            return Err(GrowStop::Blocks(count));
        }
        Ok(Tree {
            shape: self.shape,
            nodes,
        })
    }

    /// The nodes after refining and merging: a refined leaf is followed by its children, and the children of a merged
    /// parent go.
    fn nodes_after(
        &self,
        alloc: Global,
        refine: &[bool],
        merge: &[bool],
    ) -> Result<Vec<BlockAt>, OutOfMemory>
        requires refine { length refine.now ≡ length (nodes (grid_of self.now).leaves) }
        requires merge { length merge.now ≡ length (nodes (grid_of self.now).leaves) }
        requires may { let g = grid_of self.now in
            MayRegrow g (blocks_of g (flag_in refine.now)) (blocks_of g (flag_in merge.now)) }
        ensures nodes { IfOk result (λ all. all.items ≡ nodes (grid_after (grid_of self.now) refine.now merge.now).leaves) }
        ensures few { IfOk result (λ all. length all.items ≤ 9 * length refine.now) }
    {
        let mut nodes = Vec::new(alloc);
        for node in 0..self.len() {
            let goes = self.goes(node, merge);
            push_place(&mut nodes, self.at(node), refine[node as usize], goes)?;
        }
        Ok(nodes)
    }

    /// Whether a node goes since its parent is merged.
    fn goes(&self, node: u32, merge: &[bool]) -> bool
        requires node { IsNode (grid_of self.now) node }
        requires merge { length merge.now ≡ length (nodes (grid_of self.now).leaves) }
        ensures { result ≡ is_taken_back (blocks_of (grid_of self.now) (flag_in merge.now)) (block_at (grid_of self.now) node) }
    {
        match self.parent(node) {
            Some(parent) => merge[parent as usize],
            None => false,
        }
    }
}
