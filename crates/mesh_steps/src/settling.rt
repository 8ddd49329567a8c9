//! The contents of leaf cells after a step.

ghost use Rattle.amr_num.specs.Numbers.{Within, number_range};
ghost use Rattle.amr_num.specs.declared.Axis.TheVariants.{X, Y, Z};
ghost use Rattle.amr_num.specs.declared.CellAt.{CellAt as Cells};
ghost use Rattle.staggered.specs.Blocks.{IsSmallBlock};
ghost use Rattle.mesh_steps.specs.Flowing.{AreGuarded, IsReady};
ghost use Rattle.mesh_steps.specs.Settling.{AreFluxed, AreStepFaces, IsLost, IsRefused, IsSettled, IsStepped, MaySettle, OnlyCellsAndWork, OnlyWorkCells, WorkCellsHold, flows_at, node_above, work_cells};
ghost use Rattle.block_tree.specs.GridOf.{grid_of};
ghost use Rattle.block_tree.specs.Numbered.{IsNode, block_at};
ghost use Rattle.flux_conserve.specs.Jumps as jumps_at;
ghost use Rattle.flux_conserve.specs.Work.{HasNoJump, IsJumpNode, WorkWithin};
ghost use Rattle.mesh_model.specs.Fields.Advect.{advected, keeps_courant, outflow, three};
ghost use Rattle.mesh_model.specs.Fields.ArrayPlaces.{IsSize, face_extents, size_of};
ghost use Rattle.mesh_model.specs.Fields.RangeWalk.{cells_walked, is_above};
ghost use Rattle.mesh_model.specs.Geometry.Coordinates as coordinates;
ghost use Rattle.mesh_model.specs.Geometry.Limits.{IsShape};
ghost use Rattle.mesh_model.specs.Geometry.Places.{in_block};
ghost use Rattle.mesh_model.specs.Fields.Ranks.{IsFit, OnlyOf};
ghost use Rattle.mesh_model.specs.Language.Commands.{AreThree};
ghost use Rattle.mesh_model.specs.declared.fields.values.Var.TheVariants.{Cell, CellWork};
ghost use Rattle.rank_world.specs.Exchanging.{IsWorldExchanged};
ghost use Rattle.rank_world.specs.Holding.{IsLeafNode, LeavesHold, LeavesInRange, cell_array};
ghost use Rattle.rank_world.specs.Writing.{IsLeafArray};
ghost use Rattle.std.specs.Prelude.{◌≡◌, ◌<◌, ◌≤◌, ◌^◌, ◌&&◌, not, true, false, ℤ, Some, None, OnOk, IfOk, IfErr, find, length};
ghost use Rattle.step_advect.specs.Applied.{AreInRange, IsApplied, first_out, flows_in, left_at, out_through};
ghost use Rattle.step_advect.specs.Lifts.{AreOuterSides, is_at_high_side, is_at_low_side};

use crate::flowing::flux_along;
use crate::hindrance::Above;
use amr_num::{Axis, BlockAt};
use block_store::{Beside, Extents};
use block_tree::Tree;
use flux_conserve::is_at_jump;
use mesh_model::geometry::axes::{block_on, is_periodic, roots};
use mesh_model::{Shape, Var};
use rank_world::World;
use staggered::cells::cell_in;
use step_advect::{RangeAt, apply};

/// The most faces normal to an axis that a block's array has: those of 8 cells with 4 guard cells on each side.
const MOST_FACES: usize = 17 * 16 * 16;

/// How many places an array of the faces normal to an axis has.
fn face_count(n: usize, g: usize, axis: Axis) -> usize
    requires { IsSize n g }
    ensures value { result ≡ size_of (face_extents n g axis) }
    ensures few { result ≤ 4352 }
{
    let extents = Extents::of_faces(n, g, axis);
    extents.x * (extents.y * extents.z)
}

/// Whether the low side of a block on an axis lies on an outer side of the domain.
fn is_low_outer(shape: &Shape, block: BlockAt, axis: Axis) -> bool
    requires { IsShape shape.now }
    ensures { result ≡ (is_at_low_side axis block && not (coordinates.is_periodic shape.now axis)) }
{
    block_on(axis, block) == 0 && !is_periodic(shape, axis)
}

/// Whether its high side does.
fn is_high_outer(shape: &Shape, block: BlockAt, axis: Axis) -> bool
    requires shape { IsShape shape.now }
    requires block { IsSmallBlock block }
    ensures { result ≡ (is_at_high_side shape.now axis block && not (coordinates.is_periodic shape.now axis)) }
{
    block_on(axis, block) + 1 == roots(shape, axis) << block.level && !is_periodic(shape, axis)
}

/// Which sides of a block lie on outer sides of the domain, in the order x low, x high, y low, y high, z low, z high.
fn outer_sides(shape: &Shape, block: BlockAt) -> [bool; 6]
    requires shape { IsShape shape.now }
    requires block { IsSmallBlock block }
    ensures { AreOuterSides shape.now block result }
{
    [
        is_low_outer(shape, block, Axis::X),
        is_high_outer(shape, block, Axis::X),
        is_low_outer(shape, block, Axis::Y),
        is_high_outer(shape, block, Axis::Y),
        is_low_outer(shape, block, Axis::Z),
        is_high_outer(shape, block, Axis::Z),
    ]
}

/// The cell of a block at a place that is refused.
fn above_at(n: u32, block: BlockAt, at: RangeAt) -> Above
    requires size { n ≤ 8 }
    requires block { IsSmallBlock block }
    requires place { (at.i < n) × (at.j < n) × (at.k < n) }
    ensures { result ≡ record { cell = in_block n block at.i at.j at.k; value = at.value } }
{
    Above {
        cell: cell_in(n, block, at.i, at.j, at.k),
        value: i128::from(at.value),
    }
}

/// Writes what is left of a leaf's cells of a variable into its work cells: of a leaf at a jump of level, from its work
/// faces.
fn step_leaf<const N: usize, const G: usize>(
    world: &mut World<N, G>,
    v: u32,
    node: u32,
    outer: [bool; 6],
) -> Result<i128, RangeAt>
    requires may { MaySettle N G world.old v }
    requires leaf { IsJumpNode world.old.told.grid node }
    ensures only { OnlyOf world.old world.new 0 CellWork node }
    ensures fit { IsFit N G world.new }
    ensures left { IfOk result (λ flown. IsApplied N G (flows_at N G world.old v node) (work_cells world.old node) (work_cells world.new node)) }
    ensures in_range { IfOk result (λ flown. AreInRange N (left_at (flows_at N G world.old v node))) }
    ensures flown { IfOk result (λ flown. flown ≡ out_through N (flows_at N G world.old v node) outer) }
    ensures refused { IfErr result (λ at. first_out N (left_at (flows_at N G world.old v node)) ≡ Some at) }
{
    let _shape = world.tree().shape();
    let reads = [
        Var::Cell(v),
        Var::FaceWork(Axis::X),
        Var::FaceWork(Axis::Y),
        Var::FaceWork(Axis::Z),
    ];
    let Beside { a, b, c, d, out } = world.beside(node, reads, Var::CellWork);
    apply::<N, G>(a, b, c, d, outer, out)
}

/// The same from fluxes through its faces normal to x, y and z.
fn step_faces<const N: usize, const G: usize>(
    world: &mut World<N, G>,
    v: u32,
    node: u32,
    outer: [bool; 6],
    x: &[i64],
    y: &[i64],
    z: &[i64],
) -> Result<i128, RangeAt>
    requires may { MaySettle N G world.old v }
    requires leaf { IsLeafNode world.old.told.grid node }
    requires faces { AreStepFaces N G x.now y.now z.now }
    ensures only { OnlyOf world.old world.new 0 CellWork node }
    ensures fit { IsFit N G world.new }
    ensures left { IfOk result (λ flown. IsApplied N G (flows_in N G (cell_array world.old v node) x.now y.now z.now) (work_cells world.old node) (work_cells world.new node)) }
    ensures in_range { IfOk result (λ flown. AreInRange N (left_at (flows_in N G (cell_array world.old v node) x.now y.now z.now))) }
    ensures flown { IfOk result (λ flown. flown ≡ out_through N (flows_in N G (cell_array world.old v node) x.now y.now z.now) outer) }
    ensures refused { IfErr result (λ at. first_out N (left_at (flows_in N G (cell_array world.old v node) x.now y.now z.now)) ≡ Some at) }
{
    let _shape = world.tree().shape();
    let Beside {
        a,
        b: _,
        c: _,
        d: _,
        out,
    } = world.beside(node, [Var::Cell(v); 4], Var::CellWork);
    apply::<N, G>(a, x, y, z, outer, out)
}

/// The same of a leaf at no jump of level, whose fluxes stand in `x`, `y` and `z` for as long.
fn step_calm<const N: usize, const G: usize>(
    world: &mut World<N, G>,
    v: u32,
    node: u32,
    speeds: [i64; 3],
    outer: [bool; 6],
    x: &mut [i64],
    y: &mut [i64],
    z: &mut [i64],
) -> Result<i128, RangeAt>
    requires may { MaySettle N G world.old v }
    requires ready { IsReady N G world.old v (three speeds) }
    requires speeds { AreThree (2 ^ 20) speeds }
    requires leaf { IsLeafNode world.old.told.grid node }
    requires calm { jumps_at.is_at_jump world.old.told.grid (block_at world.old.told.grid node) ≡ false }
    requires x { length x.old ≡ size_of (face_extents N G X) }
    requires y { length y.old ≡ size_of (face_extents N G Y) }
    requires z { length z.old ≡ size_of (face_extents N G Z) }
    ensures x { length x.new ≡ length x.old }
    ensures y { length y.new ≡ length y.old }
    ensures z { length z.new ≡ length z.old }
    ensures only { OnlyOf world.old world.new 0 CellWork node }
    ensures fit { IsFit N G world.new }
    ensures stepped { IsStepped N G world.old world.new v node (three speeds) outer result }
{
    let _shape = world.tree().shape();
    flux_along(world, v, node, Axis::X, speeds, x);
    flux_along(world, v, node, Axis::Y, speeds, y);
    flux_along(world, v, node, Axis::Z, speeds, z);
    step_faces(world, v, node, outer, x, y, z)
}

/// Whether a leaf is at a jump of level, where `jumps` tells whether any is.
fn is_jump_leaf(tree: &Tree, node: u32, jumps: bool) -> bool
    requires leaf { IsLeafNode (grid_of tree.now) node }
    requires calm { jumps ≡ false → HasNoJump (grid_of tree.now) }
    ensures { result ≡ jumps_at.is_at_jump (grid_of tree.now) (block_at (grid_of tree.now) node) }
{
    jumps && is_at_jump(tree, tree.at(node))
}

/// The same of any leaf.
fn step_either<const N: usize, const G: usize>(
    world: &mut World<N, G>,
    v: u32,
    node: u32,
    speeds: [i64; 3],
    jumps: bool,
    outer: [bool; 6],
    x: &mut [i64],
    y: &mut [i64],
    z: &mut [i64],
) -> Result<i128, RangeAt>
    requires may { MaySettle N G world.old v }
    requires ready { IsReady N G world.old v (three speeds) }
    requires speeds { AreThree (2 ^ 20) speeds }
    requires calm { jumps ≡ false → HasNoJump world.old.told.grid }
    requires leaf { IsLeafNode world.old.told.grid node }
    requires x { length x.old ≡ size_of (face_extents N G X) }
    requires y { length y.old ≡ size_of (face_extents N G Y) }
    requires z { length z.old ≡ size_of (face_extents N G Z) }
    ensures x { length x.new ≡ length x.old }
    ensures y { length y.new ≡ length y.old }
    ensures z { length z.new ≡ length z.old }
    ensures only { OnlyOf world.old world.new 0 CellWork node }
    ensures fit { IsFit N G world.new }
    ensures stepped { IsStepped N G world.old world.new v node (three speeds) outer result }
{
    let tree = world.tree();
    let _shape = tree.shape();
    if is_jump_leaf(tree, node, jumps) {
        step_leaf(world, v, node, outer)
    } else {
        step_calm(world, v, node, speeds, outer, x, y, z)
    }
}

/// Writes the advected contents of a leaf into its work cells, and tells what flows out of it.
fn settle_leaf<const N: usize, const G: usize>(
    world: &mut World<N, G>,
    v: u32,
    node: u32,
    speeds: [i64; 3],
    jumps: bool,
    x: &mut [i64],
    y: &mut [i64],
    z: &mut [i64],
) -> Result<i128, Above>
    requires may { MaySettle N G world.old v }
    requires ready { IsReady N G world.old v (three speeds) }
    requires speeds { AreThree (2 ^ 20) speeds }
    requires calm { jumps ≡ false → HasNoJump world.old.told.grid }
    requires x { length x.old ≡ size_of (face_extents N G X) }
    requires y { length y.old ≡ size_of (face_extents N G Y) }
    requires z { length z.old ≡ size_of (face_extents N G Z) }
    requires leaf { IsLeafNode world.old.told.grid node }
    ensures x { length x.new ≡ length x.old }
    ensures y { length y.new ≡ length y.old }
    ensures z { length z.new ≡ length z.old }
    ensures only { OnlyOf world.old world.new 0 CellWork node }
    ensures fit { IsFit N G world.new }
    ensures settled { OnOk result ((content : Cells → ℤ) → AreFluxed world.old v content (three speeds) → IsSettled world.old world.new content (three speeds) node) }
    ensures flown { IfOk result (λ flown. (content : Cells → ℤ) → AreFluxed world.old v content (three speeds) → IsLost world.old content (three speeds) node flown) }
    ensures stop { IfErr result (λ above. (content : Cells → ℤ) → AreFluxed world.old v content (three speeds)
        → IsRefused world.old.told.grid content (three speeds) (node_above world.old.told.grid content (three speeds) node) above) }
    ensures size { IfOk result (λ flown. Within (2 ^ 70) flown) }
{
    let tree = world.tree();
    let shape = tree.shape();
    let block = tree.at(node);
    let outer = outer_sides(&shape, block);
    match step_either(world, v, node, speeds, jumps, outer, x, y, z) {
        Ok(flown) => Ok(flown),
        Err(at) => Err(above_at(N as u32, block, at)),
    }
}

/// The same of a node, where it is a leaf.
fn settle_node<const N: usize, const G: usize>(
    world: &mut World<N, G>,
    v: u32,
    node: u32,
    speeds: [i64; 3],
    jumps: bool,
    x: &mut [i64],
    y: &mut [i64],
    z: &mut [i64],
) -> Result<i128, Above>
    requires may { MaySettle N G world.old v }
    requires ready { IsReady N G world.old v (three speeds) }
    requires speeds { AreThree (2 ^ 20) speeds }
    requires calm { jumps ≡ false → HasNoJump world.old.told.grid }
    requires x { length x.old ≡ size_of (face_extents N G X) }
    requires y { length y.old ≡ size_of (face_extents N G Y) }
    requires z { length z.old ≡ size_of (face_extents N G Z) }
    requires node { IsNode world.old.told.grid node }
    ensures x { length x.new ≡ length x.old }
    ensures y { length y.new ≡ length y.old }
    ensures z { length z.new ≡ length z.old }
    ensures only { OnlyOf world.old world.new 0 CellWork node }
    ensures fit { IsFit N G world.new }
    ensures settled { OnOk result ((content : Cells → ℤ) → AreFluxed world.old v content (three speeds) → IsSettled world.old world.new content (three speeds) node) }
    ensures flown { IfOk result (λ flown. (content : Cells → ℤ) → AreFluxed world.old v content (three speeds) → IsLost world.old content (three speeds) node flown) }
    ensures stop { IfErr result (λ above. (content : Cells → ℤ) → AreFluxed world.old v content (three speeds)
        → IsRefused world.old.told.grid content (three speeds) (node_above world.old.told.grid content (three speeds) node) above) }
    ensures size { IfOk result (λ flown. Within (2 ^ 70) flown) }
{
    if world.tree().is_leaf(node) {
        settle_leaf(world, v, node, speeds, jumps, x, y, z)
    } else {
        Ok(0)
    }
}

/// Settles the leaves, one after the other: the fluxes of those at no jump of level stand in `x`, `y` and `z`.
fn walk<const N: usize, const G: usize>(
    world: &mut World<N, G>,
    v: u32,
    speeds: [i64; 3],
    jumps: bool,
    x: &mut [i64],
    y: &mut [i64],
    z: &mut [i64],
) -> Result<i128, Above>
    requires may { MaySettle N G world.old v }
    requires ready { IsReady N G world.old v (three speeds) }
    requires speeds { AreThree (2 ^ 20) speeds }
    requires calm { jumps ≡ false → HasNoJump world.old.told.grid }
    requires x { length x.old ≡ size_of (face_extents N G X) }
    requires y { length y.old ≡ size_of (face_extents N G Y) }
    requires z { length z.old ≡ size_of (face_extents N G Z) }
    ensures only { OnlyWorkCells world.old world.new }
    ensures fit { IsFit N G world.new }
    ensures made { OnOk result ((content : Cells → ℤ) → AreFluxed world.old v content (three speeds)
        → WorkCellsHold world.new (advected world.old.told.grid content (three speeds))) }
    ensures flown { IfOk result (λ flown. (content : Cells → ℤ) → AreFluxed world.old v content (three speeds) → flown ≡ outflow world.old.told.grid content (three speeds)) }
    ensures none { OnOk result ((content : Cells → ℤ) → AreFluxed world.old v content (three speeds)
        → find (λ c. is_above number_range (advected world.old.told.grid content (three speeds) c)) (cells_walked world.old.told.grid) ≡ None) }
    ensures stop { IfErr result (λ above. (content : Cells → ℤ) → AreFluxed world.old v content (three speeds)
        → IsRefused world.old.told.grid content (three speeds) (find (λ c. is_above number_range (advected world.old.told.grid content (three speeds) c)) (cells_walked world.old.told.grid)) above) }
    ensures size { IfOk result (λ flown. Within (2 ^ 90) flown) }
{
    let mut flown: i128 = 0;
    for node in 0..world.tree().len() {
        flown += settle_node(world, v, node, speeds, jumps, x, y, z)?;
    }
    Ok(flown)
}

/// Writes what each leaf cell of a variable holds after a step into the leaf's work cells, and tells what flows out
/// through the outer sides of the domain. The guard cells straight across the sides of leaves
/// are filled, and the work faces of leaves at a jump of level hold the fluxes through their faces, where `jumps` tells whether there are any. Those of other leaves
/// are neither read nor written.
///
/// Where a new content is above 2^40 in absolute value, the first such cell is refused with that content: leaves go in
/// Morton order, and in each x goes fastest, then y, then z. What the work cells hold then is not said.
pub fn settle<const N: usize, const G: usize>(
    world: &mut World<N, G>,
    v: u32,
    speeds: [i64; 3],
    jumps: bool,
) -> Result<i128, Above>
    requires fit { IsFit N G world.old }
    requires variable { v < world.old.told.counts.cells }
    requires guarded { AreGuarded world.old v }
    requires speeds { AreThree (2 ^ 20) speeds }
    requires calm { jumps ≡ false → HasNoJump world.old.told.grid }
    requires courant { keeps_courant world.old.told.grid.shape (three speeds) ≡ true }
    requires range { LeavesInRange world.old }
    requires small { WorkWithin world.old (2 ^ 58) }
    ensures only { OnlyWorkCells world.old world.new }
    ensures fit { IsFit N G world.new }
    ensures made { OnOk result ((content : Cells → ℤ) → AreFluxed world.old v content (three speeds)
        → WorkCellsHold world.new (advected world.old.told.grid content (three speeds))) }
    ensures flown { IfOk result (λ flown. (content : Cells → ℤ) → AreFluxed world.old v content (three speeds) → flown ≡ outflow world.old.told.grid content (three speeds)) }
    ensures none { OnOk result ((content : Cells → ℤ) → AreFluxed world.old v content (three speeds)
        → find (λ c. is_above number_range (advected world.old.told.grid content (three speeds) c)) (cells_walked world.old.told.grid) ≡ None) }
    ensures stop { IfErr result (λ above. (content : Cells → ℤ) → AreFluxed world.old v content (three speeds)
        → IsRefused world.old.told.grid content (three speeds) (find (λ c. is_above number_range (advected world.old.told.grid content (three speeds) c)) (cells_walked world.old.told.grid)) above) }
    ensures size { IfOk result (λ flown. Within (2 ^ 90) flown) }
{
    let _shape = world.tree().shape();
    let mut x = [0i64; MOST_FACES];
    let mut y = [0i64; MOST_FACES];
    let mut z = [0i64; MOST_FACES];
    walk(
        world,
        v,
        speeds,
        jumps,
        &mut x[..face_count(N, G, Axis::X)],
        &mut y[..face_count(N, G, Axis::Y)],
        &mut z[..face_count(N, G, Axis::Z)],
    )
}

/// Exchanges a leaf's array of a variable with that of its work cells.
fn take_leaf<const N: usize, const G: usize>(world: &mut World<N, G>, v: u32, node: u32)
    requires leaf { IsLeafArray N G world.old v node }
    ensures taken { IsWorldExchanged world.old world.new node (Cell v) CellWork }
    ensures fit { IsFit N G world.new }
{
    world.exchange(node, Var::Cell(v), Var::CellWork);
}

/// Makes each leaf's work cells its cells of a variable. No array is copied: the guard cells are those of the work cells
/// then, and the work cells what the variable's were.
pub fn take_over<const N: usize, const G: usize>(world: &mut World<N, G>, v: u32)
    requires fit { IsFit N G world.old }
    requires variable { v < world.old.told.counts.cells }
    ensures only { OnlyCellsAndWork world.old world.new v }
    ensures fit { IsFit N G world.new }
    ensures holds { (content : Cells → ℤ) → WorkCellsHold world.old content → LeavesHold world.new v content }
{
    for node in 0..world.tree().len() {
        if world.tree().is_leaf(node) {
            take_leaf(world, v, node);
        }
    }
}
