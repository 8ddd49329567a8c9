//! The electromotive forces of the face variable, in the work edges of leaves.

ghost use Rattle.amr_num.specs.declared.Axis.{Axis as Axes};
ghost use Rattle.amr_num.specs.declared.FaceAt.{FaceAt};
ghost use Rattle.edge_average.specs.EdgeArrays.{EdgesWithin};
ghost use Rattle.guard_fill.specs.Guarding.{LeavesGuardedFaces};
ghost use Rattle.mesh_model.specs.Fields.Advect.{keeps_courant, three};
ghost use Rattle.mesh_model.specs.Fields.ArrayPlaces.{IsSize, edge_extents, face_extents, size_of};
ghost use Rattle.mesh_model.specs.Fields.FaceSplits.{by_axis};
ghost use Rattle.mesh_model.specs.Fields.Induct.{leaf_electromotive_force};
ghost use Rattle.mesh_model.specs.Fields.Ranks.{IsFit, IsSized};
ghost use Rattle.mesh_model.specs.Geometry.Blocks.{InDomain};
ghost use Rattle.mesh_model.specs.Geometry.Limits.{IsShape};
ghost use Rattle.mesh_model.specs.Language.Commands.{AreThree};
ghost use Rattle.mesh_model.specs.Tree.Kinds.{Grid};
ghost use Rattle.mesh_model.specs.declared.fields.values.Var.TheVariants.{EdgeWork};
ghost use Rattle.mesh_steps.specs.Forcing.{AreClosedSides, AreFacesGuarded, AreForced, AreForces, HasForces, MayForce};
ghost use Rattle.rank_world.specs.Holding.{IsLeafNode, LeafEdgesHold, OnlyAxes};
ghost use Rattle.step_induct.specs.Forces.{AreFacesNear};
ghost use Rattle.std.specs.Prelude.{◌≡◌, ◌*◌, ◌<◌, ◌≤◌, ◌^◌, ℕ, ℤ, length, true};

use crate::flowing::{is_closed_high, is_closed_low};
use amr_num::{Axis, BlockAt};
use block_store::Beside;
use mesh_model::{Shape, Var};
use rank_world::World;
use step_induct::edge_values;

/// Which sides of a block lie on closed sides of the domain, in the order x low, x high, y low, y high, z low, z high.
fn closed_sides(shape: &Shape, block: BlockAt) -> [bool; 6]
    requires shape { IsShape shape.now }
    requires inside { InDomain shape.now block }
    ensures { AreClosedSides shape.now block result }
{
    [
        is_closed_low(shape, Axis::X, block),
        is_closed_high(shape, Axis::X, block),
        is_closed_low(shape, Axis::Y, block),
        is_closed_high(shape, Axis::Y, block),
        is_closed_low(shape, Axis::Z, block),
        is_closed_high(shape, Axis::Z, block),
    ]
}

/// Sets the edges of a block along an axis to the electromotive forces of the field of which its faces have the views, with
/// their guards.
fn force_edges<const N: usize, const G: usize>(
    shape: &Shape,
    block: BlockAt,
    bx: &[i64],
    by: &[i64],
    bz: &[i64],
    axis: Axis,
    speeds: [i64; 3],
    out: &mut [i64],
)
    requires size { IsSize N G }
    requires shape { IsShape shape.now }
    requires inside { InDomain shape.now block }
    requires whole { (a : Axes) → length (by_axis bx.now by.now bz.now a) ≡ size_of (face_extents N G a) }
    requires near { AreFacesNear (2 ^ 50) N G (by_axis bx.now by.now bz.now) }
    requires speeds { AreThree (2 ^ 20) speeds }
    requires courant { keeps_courant shape.now (three speeds) ≡ true }
    requires out { length out.old ≡ size_of (edge_extents N G axis) }
    ensures size { length out.new ≡ length out.old }
    ensures forces { (g : Grid) → shape.now ≡ g.shape → IsSized N G g.shape → AreForces g (three speeds) axis block (by_axis bx.now by.now bz.now) out.new }
{
    let closed = closed_sides(shape, block);
    edge_values::<N, G>(bx, by, bz, axis, block.level, speeds, closed, out);
}

/// Gives the work edges of a leaf along an axis the electromotive forces.
fn force_axis<const N: usize, const G: usize>(
    world: &mut World<N, G>,
    node: u32,
    axis: Axis,
    speeds: [i64; 3],
)
    requires may { MayForce N G world.old (three speeds) }
    requires speeds { AreThree (2 ^ 20) speeds }
    requires leaf { IsLeafNode world.old.told.grid node }
    ensures forced { AreForced N G world.old world.new (three speeds) }
    ensures here { HasForces world.new (three speeds) node axis }
{
    let tree = world.tree();
    let shape = tree.shape();
    let block = tree.at(node);
    let reads = [
        Var::Face(Axis::X),
        Var::Face(Axis::Y),
        Var::Face(Axis::Z),
        Var::Face(Axis::Z),
    ];
    let Beside { a, b, c, d: _, out } = world.beside(node, reads, Var::EdgeWork(axis));
    force_edges::<N, G>(&shape, block, a, b, c, axis, speeds, out);
}

/// Gives all work edges of a leaf the electromotive forces.
fn force_leaf<const N: usize, const G: usize>(world: &mut World<N, G>, node: u32, speeds: [i64; 3])
    requires may { MayForce N G world.old (three speeds) }
    requires speeds { AreThree (2 ^ 20) speeds }
    requires leaf { IsLeafNode world.old.told.grid node }
    ensures forced { AreForced N G world.old world.new (three speeds) }
    ensures here { (a : Axes) → HasForces world.new (three speeds) node a }
{
    force_axis(world, node, Axis::X, speeds);
    force_axis(world, node, Axis::Y, speeds);
    force_axis(world, node, Axis::Z, speeds);
}

/// Gives each work edge of each leaf the electromotive force of the face variable there, as the leaf itself has it, and 0 on
/// a closed side of the domain. The guard faces of leaves must be filled, and the speeds keep the Courant limit. All else of
/// the world stays.
pub(crate) fn force<const N: usize, const G: usize>(world: &mut World<N, G>, speeds: [i64; 3])
    requires fit { IsFit N G world.old }
    requires declared { 0 < world.old.told.counts.faces }
    requires guarded { AreFacesGuarded world.old }
    requires speeds { AreThree (2 ^ 20) speeds }
    requires courant { keeps_courant world.old.told.grid.shape (three speeds) ≡ true }
    ensures only { OnlyAxes EdgeWork world.old world.new }
    ensures fit { IsFit N G world.new }
    ensures holds { (field : FaceAt → ℤ) → LeavesGuardedFaces world.old field → LeafEdgesHold true world.new (leaf_electromotive_force world.old.told.grid field (three speeds)) }
    ensures small { EdgesWithin true world.new (2 ^ 56) }
{
    for node in 0..world.tree().len() {
        if world.tree().is_leaf(node) {
            force_leaf(world, node, speeds);
        }
    }
}
