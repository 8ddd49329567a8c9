//! Sums of finer numbers, in all nodes above the leaves.

ghost use Rattle.amr_num.specs.declared.CellAt.{CellAt};
ghost use Rattle.amr_num.specs.declared.EdgeAt.{EdgeAt};
ghost use Rattle.amr_num.specs.declared.FaceAt.{FaceAt};
ghost use Rattle.block_tree.specs.Numbered.{IsNode, IsNumberOf, block_at};
ghost use Rattle.guard_fill.specs.Restricting.{AddUp, ChildrenHave, FieldOf, HaveSmallViews, IsGroupOf, IsReady, LeavesHave, LeavesHoldOf, NodeHas, NodesHave, NodesHoldOf, OnlyParentArrays, OnlyParentAxes, OnlyParents, OnlyParentsOf};
ghost use Rattle.mesh_model.specs.declared.fields.values.Var.TheVariants.{Edge, Face};
ghost use Rattle.mesh_model.specs.Fields.ArrayPlaces.{IsSize, extents_of, number_at, size_of};
ghost use Rattle.mesh_model.specs.Fields.Arrays.{array_in};
ghost use Rattle.mesh_model.specs.Fields.FinePlaces.{FineSumsAreSmall, IsSummed};
ghost use Rattle.mesh_model.specs.Fields.Ranks.{IsFit, OnlyOf, rank_at};
ghost use Rattle.mesh_model.specs.Geometry.Blocks.{child_block};
ghost use Rattle.mesh_model.specs.Tree.Kinds.{is_leaf_block};
ghost use Rattle.rank_world.specs.Holding.{IsOfValidMesh, LeavesHold, LeavesHoldEdges, LeavesHoldFaces, NodesHold, NodesHoldEdges, NodesHoldFaces};
ghost use Rattle.std.specs.Prelude.{◌≡◌, ◌<◌, ◌≤◌, ℕ, ℤ, false, length};

use amr_num::Axis;
use block_store::Extents;
use mesh_model::{Group, Var};
use rank_world::World;
use restrict_op::{restrict_cells, restrict_edges, restrict_faces};

/// The most places that an array of cells has: 16 along each axis.
pub(crate) const MOST_PLACES: usize = 4096;

/// The most places that any array has: 17, 17 and 16 along the axes.
pub(crate) const MOST_NUMBERS: usize = 4624;

/// How many places a variable's array has.
pub(crate) fn place_count(n: usize, g: usize, var: Var) -> usize
    requires size { IsSize n g }
    ensures value { result ≡ size_of (extents_of n g var) }
    ensures few { result ≤ 4624 }
{
    Extents::of(n, g, var).count()
}

/// Sets an octant of a block's array of a variable to the sums of its child's numbers there.
fn sum_child<const N: usize, const G: usize>(
    var: Var,
    octant: u32,
    child: &[i64],
    parent: &mut [i64],
)
    requires size { IsSize N G }
    requires octant { octant < 8 }
    requires child { length child.now ≡ size_of (extents_of N G var) }
    requires parent { length parent.old ≡ size_of (extents_of N G var) }
    requires few { FineSumsAreSmall N G var (number_at (extents_of N G var) child.now) }
    ensures { IsSummed N G var octant child.now parent.old parent.new }
{
    match var {
        Var::Cell(_) => restrict_cells::<N, G>(octant, child, parent),
        Var::CellWork => restrict_cells::<N, G>(octant, child, parent),
        Var::Face(axis) => restrict_faces::<N, G>(axis, octant, child, parent),
        Var::FaceWork(axis) => restrict_faces::<N, G>(axis, octant, child, parent),
        Var::Edge(axis) => restrict_edges::<N, G>(axis, octant, child, parent),
        Var::EdgeWork(axis) => restrict_edges::<N, G>(axis, octant, child, parent),
    }
}

/// Sums a child's array into that of a node. The numbers go by way of `room`, which has an array's length.
fn restrict_child<const N: usize, const G: usize>(
    world: &mut World<N, G>,
    var: Var,
    node: u32,
    octant: u32,
    child: u32,
    room: &mut [i64],
)
    requires ready { IsReady N G world.old var }
    requires node { IsNode world.old.told.grid node }
    requires child { IsNode world.old.told.grid child }
    requires octant { octant < 8 }
    requires room { length room.old ≡ size_of (extents_of N G var) }
    requires small { FineSumsAreSmall N G var (number_at (extents_of N G var) (array_in (rank_at world.old 0).own.values var child)) }
    ensures only { OnlyOf world.old world.new 0 var node }
    ensures fit { IsFit N G world.new }
    ensures sums { let old = (rank_at world.old 0).own.values in
        IsSummed N G var octant (array_in old var child) (array_in old var node) (array_in (rank_at world.new 0).own.values var node) }
{
    room.copy_from_slice(world.values(var, child));
    sum_child::<N, G>(var, octant, room, world.values_mut(var, node));
}

/// Sums the arrays of the children of a node into that of the node.
fn restrict_node<const N: usize, const G: usize>(
    world: &mut World<N, G>,
    var: Var,
    node: u32,
    room: &mut [i64],
)
    requires ready { IsReady N G world.old var }
    requires node { IsNode world.old.told.grid node }
    requires parent { is_leaf_block world.old.told.grid (block_at world.old.told.grid node) ≡ false }
    requires room { length room.old ≡ size_of (extents_of N G var) }
    requires small { (q child : ℕ) → q < 8 → IsNumberOf world.old.told.grid (child_block (block_at world.old.told.grid node) q) child
        → FineSumsAreSmall N G var (number_at (extents_of N G var) (array_in (rank_at world.old 0).own.values var child)) }
    ensures only { OnlyOf world.old world.new 0 var node }
    ensures fit { IsFit N G world.new }
    ensures views { (view : CellAt → ℤ) → AddUp var view → ChildrenHave world.old var view node → NodeHas world.new var view node }
{
    for octant in 0..8 {
        match world.tree().child(node, octant) {
            Some(child) => restrict_child(world, var, node, octant, child, room),
            None => unreachable!(),
        }
    }
}

/// Sums the arrays of a variable into all nodes above the leaves. A node stands before its children, so the last nodes
/// come first.
fn restrict_nodes<const N: usize, const G: usize>(
    world: &mut World<N, G>,
    var: Var,
    room: &mut [i64],
)
    requires ready { IsReady N G world.old var }
    requires room { length room.old ≡ size_of (extents_of N G var) }
    requires field { HaveSmallViews world.old var }
    ensures only { OnlyParentArrays world.old world.new var }
    ensures fit { IsFit N G world.new }
    ensures views { (view : CellAt → ℤ) → AddUp var view → LeavesHave world.old var view → NodesHave world.new var view }
{
    for node in (0..world.tree().len()).rev() {
        if !world.tree().is_leaf(node) {
            restrict_node(world, var, node, room);
        }
    }
}

/// Sums the arrays of a variable into all nodes above the leaves, by way of a room of its own.
fn restrict_arrays<const N: usize, const G: usize>(world: &mut World<N, G>, var: Var)
    requires ready { IsReady N G world.old var }
    requires field { HaveSmallViews world.old var }
    ensures only { OnlyParentArrays world.old world.new var }
    ensures fit { IsFit N G world.new }
    ensures views { (view : CellAt → ℤ) → AddUp var view → LeavesHave world.old var view → NodesHave world.new var view }
{
    let mut room = [0i64; MOST_NUMBERS];
    let places = &mut room[..place_count(N, G, var)];
    restrict_nodes(world, var, places);
}

/// Sums the cells of a cell variable into all nodes above the leaves.
fn restrict_cells_of<const N: usize, const G: usize>(world: &mut World<N, G>, v: u32)
    requires fit { IsFit N G world.old }
    requires mesh { IsOfValidMesh world.old }
    requires variable { v < world.old.told.counts.cells }
    ensures only { OnlyParents world.old world.new v }
    ensures fit { IsFit N G world.new }
    ensures views { (content : CellAt → ℤ) → LeavesHold world.old v content → NodesHold world.new v content }
{
    let _shape = world.tree().shape();
    restrict_arrays(world, Var::Cell(v));
}

/// Sums the faces on each axis into all nodes above the leaves.
fn restrict_faces_of<const N: usize, const G: usize>(world: &mut World<N, G>)
    requires fit { IsFit N G world.old }
    requires mesh { IsOfValidMesh world.old }
    requires variable { 0 < world.old.told.counts.faces }
    ensures only { OnlyParentAxes Face world.old world.new }
    ensures fit { IsFit N G world.new }
    ensures views { (field : FaceAt → ℤ) → LeavesHoldFaces world.old field → NodesHoldFaces world.new field }
{
    let _shape = world.tree().shape();
    restrict_arrays(world, Var::Face(Axis::X));
    restrict_arrays(world, Var::Face(Axis::Y));
    restrict_arrays(world, Var::Face(Axis::Z));
}

/// Sums the edges along each axis into all nodes above the leaves.
fn restrict_edges_of<const N: usize, const G: usize>(world: &mut World<N, G>)
    requires fit { IsFit N G world.old }
    requires mesh { IsOfValidMesh world.old }
    requires variable { 0 < world.old.told.counts.edges }
    ensures only { OnlyParentAxes Edge world.old world.new }
    ensures fit { IsFit N G world.new }
    ensures views { (field : EdgeAt → ℤ) → LeavesHoldEdges false world.old field → NodesHoldEdges world.new field }
{
    let _shape = world.tree().shape();
    restrict_arrays(world, Var::Edge(Axis::X));
    restrict_arrays(world, Var::Edge(Axis::Y));
    restrict_arrays(world, Var::Edge(Axis::Z));
}

/// Sums the numbers of a variable into all nodes above the leaves. The leaves stay as they are, and so does each other
/// variable.
pub fn restrict_all<const N: usize, const G: usize>(world: &mut World<N, G>, group: Group)
    requires fit { IsFit N G world.old }
    requires mesh { IsOfValidMesh world.old }
    requires group { IsGroupOf world.old.told.counts group }
    ensures only { OnlyParentsOf group world.old world.new }
    ensures fit { IsFit N G world.new }
    ensures views { (field : FieldOf group) → LeavesHoldOf world.old group field → NodesHoldOf world.new group field }
{
    match group {
        Group::Cell(v) => restrict_cells_of(world, v),
        Group::Face => restrict_faces_of(world),
        Group::Edge => restrict_edges_of(world),
    }
}
