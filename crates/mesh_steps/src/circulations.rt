//! What faces become by the circulations of edges round them, in all leaves: those of the edge variable, or what is left
//! without those of the electromotive forces.

ghost use Rattle.amr_num.specs.declared.Axis.{Axis as Axes};
ghost use Rattle.amr_num.specs.declared.EdgeAt.{EdgeAt};
ghost use Rattle.amr_num.specs.declared.FaceAt.{FaceAt};
ghost use Rattle.block_tree.specs.GridOf.{grid_of};
ghost use Rattle.block_tree.specs.Numbered.{block_at};
ghost use Rattle.mesh_model.specs.Fields.Induct.{curled};
ghost use Rattle.mesh_model.specs.Fields.Ranks.{IsFit, OnlyOf};
ghost use Rattle.mesh_model.specs.Geometry.Blocks.{InDomain};
ghost use Rattle.mesh_model.specs.declared.fields.values.Var.TheVariants.{FaceWork};
ghost use Rattle.mesh_steps.specs.Circulations.{AreEdgesSmall, HaveGiven, IsFacesTaken, IsGiven, IsSmall, LeavesShow, MayStep, NodeShows, OnlyFacesAndWork, HasRead, given, numbers_given, stepped};
ghost use Rattle.mesh_steps.specs.declared.circulations.Step.{Step as Steps};
ghost use Rattle.mesh_steps.specs.declared.circulations.Step.TheVariants.{Curl, Induct};
ghost use Rattle.rank_world.specs.FaceRange as above;
ghost use Rattle.rank_world.specs.FaceRange.{CountLeafFaces, HasAxis, HasWorkField};
ghost use Rattle.rank_world.specs.Holding.{IsLeafNode, LeavesHoldEdges, LeavesHoldFaces, OnlyAxes, OnlyAxesOf};
ghost use Rattle.staggered.specs.Facing.{walked_above};
ghost use Rattle.step_induct.specs.Circling.{counted, first_above};
ghost use Rattle.std.specs.Prelude.{◌≡◌, ◌<◌, ◌≤◌, ℕ, ℤ, true, false, None, Some, OnOk, IfErr};

use amr_num::{Axis, BlockAt};
use block_store::{Above, Beside};
use block_tree::Tree;
use mesh_model::Var;
use rank_world::{FaceAbove, World, face_told, leaf_faces};
use step_induct::{RangeAt, apply, curl};

/// What the faces of leaves become.
#[derive(Clone, Copy)]
pub(crate) enum Step {
    /// They get the circulations of the edge variable.
    Curl,
    /// They lose those of the electromotive forces, which stand in the work edges.
    Induct,
}

/// On which sides of a leaf its faces are leaf faces, in the order x low, x high, y low, y high, z low, z high.
fn leaf_sides(tree: &Tree, block: BlockAt) -> [bool; 6]
    requires { InDomain (grid_of tree.now).shape block }
    ensures { (a : Axes) → CountLeafFaces (grid_of tree.now) block (counted a result) }
{
    let x = leaf_faces(tree, Axis::X, block);
    let y = leaf_faces(tree, Axis::Y, block);
    let z = leaf_faces(tree, Axis::Z, block);
    [x.low, x.high, y.low, y.high, z.low, z.high]
}

/// Gives the work faces of a leaf normal to an axis the circulations of its edges round them. The first of those on leaf
/// faces that is out of range is told.
fn circle_axis<const N: usize, const G: usize>(
    world: &mut World<N, G>,
    node: u32,
    axis: Axis,
    sides: [bool; 6],
) -> Result<(), RangeAt>
    requires leaf { MayStep Curl N G world.old node }
    ensures only { OnlyOf world.old world.new 0 (FaceWork axis) node }
    ensures fit { IsFit N G world.new }
    ensures given { IsGiven Curl N G world.old world.new node axis }
    ensures in_range { OnOk result (first_above N axis sides (numbers_given Curl N G world.old node axis) ≡ None) }
    ensures refused { IfErr result (λ at. first_above N axis sides (numbers_given Curl N G world.old node axis) ≡ Some at) }
{
    let _shape = world.tree().shape();
    let reads = [
        Var::Edge(Axis::X),
        Var::Edge(Axis::Y),
        Var::Edge(Axis::Z),
        Var::Edge(Axis::Z),
    ];
    let Beside { a, b, c, d: _, out } = world.beside(node, reads, Var::FaceWork(axis));
    curl::<N, G>(axis, a, b, c, sides, out)
}

/// Gives them the numbers of its faces without the circulations of its work edges round them, in the same way.
fn lessen_axis<const N: usize, const G: usize>(
    world: &mut World<N, G>,
    node: u32,
    axis: Axis,
    sides: [bool; 6],
) -> Result<(), RangeAt>
    requires leaf { MayStep Induct N G world.old node }
    ensures only { OnlyOf world.old world.new 0 (FaceWork axis) node }
    ensures fit { IsFit N G world.new }
    ensures given { IsGiven Induct N G world.old world.new node axis }
    ensures in_range { OnOk result (first_above N axis sides (numbers_given Induct N G world.old node axis) ≡ None) }
    ensures refused { IfErr result (λ at. first_above N axis sides (numbers_given Induct N G world.old node axis) ≡ Some at) }
{
    let _shape = world.tree().shape();
    let reads = [
        Var::Face(axis),
        Var::EdgeWork(Axis::X),
        Var::EdgeWork(Axis::Y),
        Var::EdgeWork(Axis::Z),
    ];
    let Beside { a, b, c, d, out } = world.beside(node, reads, Var::FaceWork(axis));
    apply::<N, G>(axis, a, b, c, d, sides, out)
}

/// The one or the other.
fn give_axis<const N: usize, const G: usize>(
    world: &mut World<N, G>,
    step: Step,
    node: u32,
    axis: Axis,
    sides: [bool; 6],
) -> Result<(), RangeAt>
    requires leaf { MayStep step N G world.old node }
    ensures only { OnlyOf world.old world.new 0 (FaceWork axis) node }
    ensures fit { IsFit N G world.new }
    ensures given { IsGiven step N G world.old world.new node axis }
    ensures in_range { OnOk result (first_above N axis sides (numbers_given step N G world.old node axis) ≡ None) }
    ensures refused { IfErr result (λ at. first_above N axis sides (numbers_given step N G world.old node axis) ≡ Some at) }
{
    match step {
        Step::Curl => circle_axis(world, node, axis, sides),
        Step::Induct => lessen_axis(world, node, axis, sides),
    }
}

/// What is told of a face of a leaf that is out of range.
fn told<const N: usize, const G: usize>(world: &World<N, G>, node: u32, found: RangeAt) -> FaceAbove
    requires fit { IsFit N G world.now }
    requires leaf { IsLeafNode world.now.told.grid node }
    requires place { (found.i ≤ N) × (found.j ≤ N) × (found.k ≤ N) }
    ensures { result ≡ above.told_face world.now.told.grid.shape (block_at world.now.told.grid node) found.axis (record { i = found.i; j = found.j; k = found.k; value = found.value }) }
{
    let tree = world.tree();
    let place = Above {
        i: found.i,
        j: found.j,
        k: found.k,
        value: found.value,
    };
    face_told(&tree.shape(), tree.at(node), found.axis, place)
}

/// Gives the work faces of a leaf normal to an axis what the step makes of the fields of which it holds the views.
fn step_axis<const N: usize, const G: usize>(
    world: &mut World<N, G>,
    step: Step,
    node: u32,
    axis: Axis,
    sides: [bool; 6],
) -> Result<(), FaceAbove>
    requires leaf { MayStep step N G world.old node }
    requires sides { CountLeafFaces world.old.told.grid (block_at world.old.told.grid node) (counted axis sides) }
    ensures only { OnlyOf world.old world.new 0 (FaceWork axis) node }
    ensures fit { IsFit N G world.new }
    ensures has { (faces : FaceAt → ℤ) (edges : EdgeAt → ℤ) → NodeShows step world.old faces edges node
        → HasAxis true world.new (given step world.old.told.grid faces edges) node axis }
    ensures in_range { (faces : FaceAt → ℤ) (edges : EdgeAt → ℤ) → NodeShows step world.old faces edges node
        → OnOk result (above.axis_above world.old.told.grid (stepped step world.old.told.grid faces edges) (block_at world.old.told.grid node) axis ≡ None) }
    ensures refused { (faces : FaceAt → ℤ) (edges : EdgeAt → ℤ) → NodeShows step world.old faces edges node
        → IfErr result (λ told. above.axis_above world.old.told.grid (stepped step world.old.told.grid faces edges) (block_at world.old.told.grid node) axis ≡ Some told) }
{
    let tree = world.tree();
    let _block = tree.at(node);
    match give_axis(world, step, node, axis, sides) {
        Ok(()) => Ok(()),
        Err(found) => Err(told(world, node, found)),
    }
}

/// The same on all axes. The first leaf face out of range is told, axis by axis, and x goes fastest, then y, then z.
fn step_leaf<const N: usize, const G: usize>(
    world: &mut World<N, G>,
    step: Step,
    node: u32,
) -> Result<(), FaceAbove>
    requires leaf { MayStep step N G world.old node }
    ensures only { OnlyAxesOf FaceWork world.old world.new node }
    ensures fit { IsFit N G world.new }
    ensures has { (faces : FaceAt → ℤ) (edges : EdgeAt → ℤ) → NodeShows step world.old faces edges node
        → OnOk result (HasWorkField world.new (given step world.old.told.grid faces edges) node) }
    ensures in_range { (faces : FaceAt → ℤ) (edges : EdgeAt → ℤ) → NodeShows step world.old faces edges node
        → OnOk result (above.first_above world.old.told.grid (stepped step world.old.told.grid faces edges) (block_at world.old.told.grid node) ≡ None) }
    ensures refused { (faces : FaceAt → ℤ) (edges : EdgeAt → ℤ) → NodeShows step world.old faces edges node
        → IfErr result (λ told. above.first_above world.old.told.grid (stepped step world.old.told.grid faces edges) (block_at world.old.told.grid node) ≡ Some told) }
{
    let tree = world.tree();
    let sides = leaf_sides(tree, tree.at(node));
    step_axis(world, step, node, Axis::X, sides)?;
    step_axis(world, step, node, Axis::Y, sides)?;
    step_axis(world, step, node, Axis::Z, sides)
}

/// Gives the work faces of all leaves what the step makes, in Morton order. Where a number of a leaf face would be out of
/// range the first such face in the walk over the leaves is told.
pub(crate) fn step_leaves<const N: usize, const G: usize>(
    world: &mut World<N, G>,
    step: Step,
) -> Result<(), FaceAbove>
    requires fit { IsFit N G world.old }
    requires declared { HasRead step world.old.told.counts }
    requires small { (node : ℕ) → IsLeafNode world.old.told.grid node → IsSmall step N G world.old node }
    ensures only { OnlyAxes FaceWork world.old world.new }
    ensures fit { IsFit N G world.new }
    ensures has { (faces : FaceAt → ℤ) (edges : EdgeAt → ℤ) → LeavesShow step world.old faces edges → OnOk result (HaveGiven step world.new faces edges) }
    ensures in_range { (faces : FaceAt → ℤ) (edges : EdgeAt → ℤ) → LeavesShow step world.old faces edges
        → OnOk result (walked_above world.old.told.grid (stepped step world.old.told.grid faces edges) ≡ None) }
    ensures refused { (faces : FaceAt → ℤ) (edges : EdgeAt → ℤ) → LeavesShow step world.old faces edges
        → IfErr result (λ told. walked_above world.old.told.grid (stepped step world.old.told.grid faces edges) ≡ Some told) }
{
    for node in 0..world.tree().len() {
        if world.tree().is_leaf(node) {
            step_leaf(world, step, node)?;
        }
    }
    Ok(())
}

/// Exchanges a leaf's faces normal to each axis with its work faces.
fn take_leaf<const N: usize, const G: usize>(world: &mut World<N, G>, node: u32)
    requires fit { IsFit N G world.old }
    requires faces { 0 < world.old.told.counts.faces }
    requires leaf { IsLeafNode world.old.told.grid node }
    ensures taken { IsFacesTaken world.old world.new node }
    ensures fit { IsFit N G world.new }
{
    world.exchange(node, Var::Face(Axis::X), Var::FaceWork(Axis::X));
    world.exchange(node, Var::Face(Axis::Y), Var::FaceWork(Axis::Y));
    world.exchange(node, Var::Face(Axis::Z), Var::FaceWork(Axis::Z));
}

/// Makes each leaf's work faces its faces. No array is copied.
pub(crate) fn take_faces<const N: usize, const G: usize>(world: &mut World<N, G>)
    requires fit { IsFit N G world.old }
    requires faces { 0 < world.old.told.counts.faces }
    ensures only { OnlyFacesAndWork world.old world.new }
    ensures fit { IsFit N G world.new }
    ensures holds { (step : Steps) (faces : FaceAt → ℤ) (edges : EdgeAt → ℤ) → HaveGiven step world.old faces edges
        → LeavesHoldFaces world.new (stepped step world.old.told.grid faces edges) }
{
    for node in 0..world.tree().len() {
        if world.tree().is_leaf(node) {
            take_leaf(world, node);
        }
    }
}

/// Sets each leaf face to the circulation of the edge variable round it, so that no leaf cell has a net flux, and each
/// coarse face beside finer leaves to the sum of the four finer ones. The copies of edges in the leaves have to agree, and
/// their numbers to be at most 2^58 in absolute value. The guards of faces are not said afterwards, and the work faces are
/// used.
///
/// # Errors
///
/// Where a number of a leaf face would be out of range, the first such face in the walk over the leaves. The face variable
/// stays.
pub fn set_curl<const N: usize, const G: usize>(world: &mut World<N, G>) -> Result<(), FaceAbove>
    requires fit { IsFit N G world.old }
    requires faces { 0 < world.old.told.counts.faces }
    requires edges { 0 < world.old.told.counts.edges }
    requires small { AreEdgesSmall N G world.old }
    ensures only { OnlyFacesAndWork world.old world.new }
    ensures fit { IsFit N G world.new }
    ensures in_range { (edges : EdgeAt → ℤ) → LeavesHoldEdges false world.old edges → OnOk result (walked_above world.old.told.grid (curled world.old.told.grid edges) ≡ None) }
    ensures holds { (edges : EdgeAt → ℤ) → LeavesHoldEdges false world.old edges → OnOk result (LeavesHoldFaces world.new (curled world.old.told.grid edges)) }
    ensures stop { (edges : EdgeAt → ℤ) → LeavesHoldEdges false world.old edges
        → IfErr result (λ told. walked_above world.old.told.grid (curled world.old.told.grid edges) ≡ Some told) }
    ensures stays { IfErr result (λ told. OnlyAxes FaceWork world.old world.new) }
{
    step_leaves(world, Step::Curl)?;
    take_faces(world);
    Ok(())
}
