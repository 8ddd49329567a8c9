//! Fluxes of a cell variable into the work faces of leaves.

ghost use Rattle.amr_num.specs.declared.Axis.{Axis as Axes};
ghost use Rattle.amr_num.specs.declared.CellAt.{CellAt};
ghost use Rattle.mesh_steps.specs.Flowing.{AreFlowed, AreFluxes, AreGuarded, HasFluxes, IsReady};
ghost use Rattle.block_tree.specs.Numbered.{IsNode, block_at};
ghost use Rattle.flux_conserve.specs.Work.{IsJumpNode, OnlyWorkFaces, WorkHolds, WorkWithin};
ghost use Rattle.guard_fill.specs.Filling.{LeavesSided};
ghost use Rattle.mesh_model.specs.Fields.Advect.{is_closed_kind, keeps_courant, leaf_flux, speed as speed_on, three};
ghost use Rattle.mesh_model.specs.Fields.ArrayPlaces.{IsSize, cell_extents, face_extents, number_at, size_of};
ghost use Rattle.mesh_model.specs.Fields.Ranks.{IsFit, IsSized};
ghost use Rattle.mesh_model.specs.Tree.Kinds.{Grid};
ghost use Rattle.step_advect.specs.Fluxed.{AreSidesWithin};
ghost use Rattle.mesh_model.specs.Geometry.Blocks.{InDomain};
ghost use Rattle.mesh_model.specs.Geometry.Coordinates.{side_index, side_kind};
ghost use Rattle.mesh_model.specs.Geometry.Limits.{IsShape};
ghost use Rattle.mesh_model.specs.Language.Commands.{AreThree};
ghost use Rattle.rank_world.specs.Holding.{IsLeafNode, cell_array};
ghost use Rattle.step_advect.specs.Lifts.{is_at_high_side, is_at_low_side};
ghost use Rattle.std.specs.Prelude.{◌≡◌, ℤ, ◌<◌, ◌^◌, ◌&&◌, length, suc, true};

use amr_num::{Axis, BlockAt, SideKind};
use block_store::{Beside, Cells};
use flux_conserve::is_at_jump;
use mesh_model::geometry::axes::{block_on, roots};
use mesh_model::{Shape, Var};
use rank_world::World;
use step_advect::face_fluxes;

/// The speed on an axis.
fn speed_along(speeds: [i64; 3], axis: Axis) -> i64
    requires { AreThree (2 ^ 20) speeds }
    ensures { result ≡ speed_on (three speeds) axis }
{
    match axis {
        Axis::X => speeds[0],
        Axis::Y => speeds[1],
        Axis::Z => speeds[2],
    }
}

/// Whether nothing flows through sides of the kind.
fn is_closed(kind: SideKind) -> bool
    ensures { result ≡ is_closed_kind kind }
{
    match kind {
        SideKind::Periodic => false,
        SideKind::Outflow => false,
        SideKind::Closed => true,
    }
}

/// The kind of the domain's low side on an axis.
fn low_side(shape: &Shape, axis: Axis) -> SideKind
    requires { IsShape shape.now }
    ensures { result ≡ side_kind shape.now.sides (side_index axis) }
{
    match axis {
        Axis::X => shape.sides[0],
        Axis::Y => shape.sides[2],
        Axis::Z => shape.sides[4],
    }
}

/// The kind of the domain's high side on an axis.
fn high_side(shape: &Shape, axis: Axis) -> SideKind
    requires { IsShape shape.now }
    ensures { result ≡ side_kind shape.now.sides (suc (side_index axis)) }
{
    match axis {
        Axis::X => shape.sides[1],
        Axis::Y => shape.sides[3],
        Axis::Z => shape.sides[5],
    }
}

/// Whether a block's low side on an axis lies on a closed side of the domain.
pub(crate) fn is_closed_low(shape: &Shape, axis: Axis, block: BlockAt) -> bool
    requires { IsShape shape.now }
    ensures { result ≡ (is_at_low_side axis block && is_closed_kind (side_kind shape.now.sides (side_index axis))) }
{
    block_on(axis, block) == 0 && is_closed(low_side(shape, axis))
}

/// Whether a block's high side on an axis lies on a closed side of the domain.
pub(crate) fn is_closed_high(shape: &Shape, axis: Axis, block: BlockAt) -> bool
    requires shape { IsShape shape.now }
    requires inside { InDomain shape.now block }
    ensures { result ≡ (is_at_high_side shape.now axis block && is_closed_kind (side_kind shape.now.sides (suc (side_index axis)))) }
{
    let is_last = block_on(axis, block) + 1 == roots(shape, axis) << block.level;
    is_last && is_closed(high_side(shape, axis))
}

/// Sets the faces of a block normal to an axis to the fluxes of the field of which its cells have the views.
fn flux_cells<const N: usize, const G: usize>(
    shape: &Shape,
    block: BlockAt,
    cells: &[i64],
    axis: Axis,
    speeds: [i64; 3],
    out: &mut [i64],
)
    requires size { IsSize N G }
    requires shape { IsShape shape.now }
    requires inside { InDomain shape.now block }
    requires cells { length cells.now ≡ size_of (cell_extents N G) }
    requires speeds { AreThree (2 ^ 20) speeds }
    requires courant { keeps_courant shape.now (three speeds) ≡ true }
    requires small { AreSidesWithin (2 ^ 56) N G axis (number_at (cell_extents N G) cells.now) }
    requires out { length out.old ≡ size_of (face_extents N G axis) }
    ensures size { length out.new ≡ length out.old }
    ensures fluxes { (g : Grid) → shape.now ≡ g.shape → IsSized N G g.shape → AreFluxes g (three speeds) axis block cells.now out.new }
{
    let closed_low = is_closed_low(shape, axis, block);
    let closed_high = is_closed_high(shape, axis, block);
    let speed = speed_along(speeds, axis);
    let cells = Cells::<N, G>::new(cells);
    face_fluxes(
        &cells,
        axis,
        block.level,
        speed,
        closed_low,
        closed_high,
        out,
    );
}

/// Sets the faces of a leaf normal to an axis, in an array of their own, to the fluxes of the variable.
pub(crate) fn flux_along<const N: usize, const G: usize>(
    world: &World<N, G>,
    v: u32,
    node: u32,
    axis: Axis,
    speeds: [i64; 3],
    out: &mut [i64],
)
    requires ready { IsReady N G world.now v (three speeds) }
    requires speeds { AreThree (2 ^ 20) speeds }
    requires leaf { IsLeafNode world.now.told.grid node }
    requires out { length out.old ≡ size_of (face_extents N G axis) }
    ensures size { length out.new ≡ length out.old }
    ensures fluxes { AreFluxes world.now.told.grid (three speeds) axis (block_at world.now.told.grid node) (cell_array world.now v node) out.new }
{
    let tree = world.tree();
    let shape = tree.shape();
    let block = tree.at(node);
    let cells = world.values(Var::Cell(v), node);
    flux_cells::<N, G>(&shape, block, cells, axis, speeds, out);
}

/// Gives the work faces of a leaf normal to an axis the fluxes of the variable.
fn flow_axis<const N: usize, const G: usize>(
    world: &mut World<N, G>,
    v: u32,
    node: u32,
    axis: Axis,
    speeds: [i64; 3],
)
    requires ready { IsReady N G world.old v (three speeds) }
    requires speeds { AreThree (2 ^ 20) speeds }
    requires leaf { IsLeafNode world.old.told.grid node }
    ensures flowed { AreFlowed N G world.old world.new v (three speeds) }
    ensures here { HasFluxes world.new v (three speeds) node axis }
{
    let tree = world.tree();
    let shape = tree.shape();
    let block = tree.at(node);
    let Beside {
        a,
        b: _,
        c: _,
        d: _,
        out,
    } = world.beside(node, [Var::Cell(v); 4], Var::FaceWork(axis));
    flux_cells::<N, G>(&shape, block, a, axis, speeds, out);
}

/// Gives all work faces of a leaf the fluxes of the variable.
fn flow_leaf<const N: usize, const G: usize>(
    world: &mut World<N, G>,
    v: u32,
    node: u32,
    speeds: [i64; 3],
)
    requires ready { IsReady N G world.old v (three speeds) }
    requires speeds { AreThree (2 ^ 20) speeds }
    requires leaf { IsLeafNode world.old.told.grid node }
    ensures flowed { AreFlowed N G world.old world.new v (three speeds) }
    ensures here { (a : Axes) → HasFluxes world.new v (three speeds) node a }
{
    flow_axis(world, v, node, Axis::X, speeds);
    flow_axis(world, v, node, Axis::Y, speeds);
    flow_axis(world, v, node, Axis::Z, speeds);
}

/// The same of a node, where it is a leaf at a jump of level.
fn flow_node<const N: usize, const G: usize>(
    world: &mut World<N, G>,
    v: u32,
    node: u32,
    speeds: [i64; 3],
)
    requires ready { IsReady N G world.old v (three speeds) }
    requires speeds { AreThree (2 ^ 20) speeds }
    requires node { IsNode world.old.told.grid node }
    ensures flowed { AreFlowed N G world.old world.new v (three speeds) }
    ensures here { (a : Axes) → IsJumpNode world.old.told.grid node → HasFluxes world.new v (three speeds) node a }
{
    let tree = world.tree();
    if tree.is_leaf(node) && is_at_jump(tree, tree.at(node)) {
        flow_leaf(world, v, node, speeds);
    }
}

/// Gives each work face of a leaf at a jump of level what the speed on its axis carries through it in a step of the
/// variable, as the leaf itself has it, and 0 on a closed side of the domain. The guard cells straight across the sides of leaves must be filled,
/// and the speeds keep the Courant limit. All else of the world stays.
pub fn flow<const N: usize, const G: usize>(world: &mut World<N, G>, v: u32, speeds: [i64; 3])
    requires fit { IsFit N G world.old }
    requires variable { v < world.old.told.counts.cells }
    requires guarded { AreGuarded world.old v }
    requires speeds { AreThree (2 ^ 20) speeds }
    requires courant { keeps_courant world.old.told.grid.shape (three speeds) ≡ true }
    ensures only { OnlyWorkFaces world.old world.new }
    ensures fit { IsFit N G world.new }
    ensures holds { (content : CellAt → ℤ) → LeavesSided world.old v content
        → WorkHolds world.new (leaf_flux world.old.told.grid content (three speeds)) }
    ensures small { WorkWithin world.new (2 ^ 56) }
{
    for node in 0..world.tree().len() {
        flow_node(world, v, node, speeds);
    }
}
