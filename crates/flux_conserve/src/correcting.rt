//! The faces of leaves at jumps of level: the work faces, and those of the face variable.

ghost use Rattle.amr_num.specs.Numbers.{Within, at};
ghost use Rattle.amr_num.specs.declared.Axis.{Axis as Axes};
ghost use Rattle.amr_num.specs.declared.FaceAt.{FaceAt};
ghost use Rattle.block_tree.specs.Numbered.{IsNode, block_at};
ghost use Rattle.flux_conserve.specs.Jumps.{BlockFaces, corrected, four_finer, jumped, octant_on, quarter_sum, side_half, side_position};
ghost use Rattle.flux_conserve.specs.Sums.{four_at, quarter_size, sum_place};
ghost use Rattle.flux_conserve.specs.FaceArrays.{AreSummed, CalmHas, FacesHave, FacesHold, FacesWithin, IsFinerNode, IsTame, NearHas, NearWithin, OnlyFaces, SideHas, SideTaken, stored, stored_at};
ghost use Rattle.flux_conserve.specs.Work.{OnlyWorkFaces, WorkHas, WorkHolds, WorkWithin};
ghost use Rattle.mesh_model.specs.Fields.ArrayPlaces.{IsRowWritten};
ghost use Rattle.mesh_model.specs.Fields.Arrays.{HasVar};
ghost use Rattle.mesh_model.specs.Fields.Ranks.{IsFit};
ghost use Rattle.mesh_model.specs.Tree.Kinds.{is_leaf_block};
ghost use Rattle.mesh_model.specs.Tree.ValidGrid.{Valid};
ghost use Rattle.rank_world.specs.Holding as holding;
ghost use Rattle.rank_world.specs.Holding.{IsLeafNode, LeafFacesHold};
ghost use Rattle.std.specs.Prelude.{◌≡◌, ◌+◌, ◌*◌, ◌/◌, ◌%◌, ◌^◌, ◌<◌, ◌≤◌, ℕ, ℤ, Bool, not, false, length};

use crate::faces::Faces;
use crate::sums::{set_side, sum_side};
use amr_num::Axis;
use block_tree::finer_beside;
use rank_world::{World, face_var};

/// The position of the faces at the low or the high side of a block.
fn position(n: usize, high: bool) -> usize
    ensures { result ≡ side_position n high }
{
    if high { n } else { 0 }
}

/// The octant of a block that is the quarter `quarter` of its low or high half on an axis. Quarters are j + 2 k, i + 2 k
/// and i + 2 j for the axes x, y and z.
fn octant_in(axis: Axis, high: bool, quarter: u32) -> u32
    requires { quarter < 4 }
    ensures value { result ≡ octant_on axis (side_half high) quarter }
    ensures octant { result < 8 }
{
    let half = u32::from(high);
    let first = quarter % 2;
    let second = quarter / 2 % 2;
    match axis {
        Axis::X => half + 2 * first + 4 * second,
        Axis::Y => first + 2 * half + 4 * second,
        Axis::Z => first + 2 * second + 4 * half,
    }
}

/// Puts the sums of a finer leaf's faces at its side towards the coarser one, which is opposite to the side `high` of
/// that, among the sums of the four quarters.
fn sum_child<const N: usize, const G: usize>(
    world: &World<N, G>,
    work: bool,
    child: u32,
    axis: Axis,
    high: bool,
    quarter: usize,
    sums: &mut [i64],
)
    requires fit { IsFit N G world.now }
    requires declared { HasVar world.now.told.counts (holding.face_var work axis) }
    requires child { IsNode world.now.told.grid child }
    requires small { (s t : ℕ) → s < world.now.told.grid.shape.n → t < world.now.told.grid.shape.n
        → Within (2 ^ 56) (stored_at work world.now axis child (side_position world.now.told.grid.shape.n (not high)) s t) }
    requires quarter { quarter < 4 }
    requires room { N * N ≤ length sums.old }
    ensures row { let h = N / 2 in
        IsRowWritten (quarter_size N * quarter) (quarter_size N) (λ m. four_at N G axis (stored work world.now axis child) (side_position N (not high)) (m % h) (m / h)) sums.old sums.new }
    ensures within { (m : ℕ) → m < quarter_size N → Within (2 ^ 58) (at sums.new (quarter_size N * quarter + m)) }
{
    let faces = Faces { n: N, g: G, axis };
    let values = world.values(face_var(work, axis), child);
    let half = N / 2;
    sum_side(
        faces,
        values,
        position(N, !high),
        half * half * quarter,
        sums,
    );
}

/// Sums the faces of the finer leaves at the side `high` of a coarser one, by quarters of the side.
fn gather<const N: usize, const G: usize>(
    world: &World<N, G>,
    work: bool,
    beside: u32,
    axis: Axis,
    high: bool,
    sums: &mut [i64],
)
    requires fit { IsFit N G world.now }
    requires declared { HasVar world.now.told.counts (holding.face_var work axis) }
    requires node { IsNode world.now.told.grid beside }
    requires inner { is_leaf_block world.now.told.grid (block_at world.now.told.grid beside) ≡ false }
    requires small { NearWithin work world.now axis high beside }
    requires room { N * N ≤ length sums.old }
    ensures sums { (faces : BlockFaces) → NearHas work world.now faces axis high beside → (s t : ℕ) → s < N → t < N
        → at sums.new (sum_place N s t) ≡ four_finer N faces axis high (block_at world.now.told.grid beside) s t }
    ensures within { (s t : ℕ) → s < N → t < N → Within (2 ^ 58) (at sums.new (sum_place N s t)) }
{
    let tree = world.tree();
    for quarter in 0..4 {
        match tree.child(beside, octant_in(axis, !high, quarter)) {
            Some(child) => sum_child(world, work, child, axis, high, quarter as usize, sums),
            None => unreachable!(),
        }
    }
}

/// Gives the faces of a leaf at a side the sums of the faces of the finer leaves there.
fn take_sums<const N: usize, const G: usize>(
    world: &mut World<N, G>,
    work: bool,
    node: u32,
    axis: Axis,
    high: bool,
    beside: u32,
)
    requires fit { IsFit N G world.old }
    requires declared { HasVar world.old.told.counts (holding.face_var work axis) }
    requires leaf { IsLeafNode world.old.told.grid node }
    requires beside { IsFinerNode world.old.told.grid axis high (block_at world.old.told.grid node) beside }
    requires small { NearWithin work world.old axis high beside }
    ensures { SideTaken work N G world.old world.new node axis high beside }
{
    let _shape = world.tree().shape();
    let mut sums = [0i64; 64];
    gather(world, work, beside, axis, high, &mut sums);
    let values = world.values_mut(face_var(work, axis), node);
    set_side(Faces { n: N, g: G, axis }, values, position(N, high), &sums);
}

/// Corrects a side of a leaf.
fn correct_side<const N: usize, const G: usize>(
    world: &mut World<N, G>,
    work: bool,
    node: u32,
    axis: Axis,
    high: bool,
)
    requires fit { IsFit N G world.old }
    requires declared { HasVar world.old.told.counts (holding.face_var work axis) }
    requires leaf { IsLeafNode world.old.told.grid node }
    requires tame { IsTame work world.old }
    ensures summed { AreSummed work N G world.old world.new }
    ensures side { (faces : BlockFaces) → CalmHas work world.old faces → SideHas work world.new faces node axis high }
{
    let tree = world.tree();
    match finer_beside(tree, axis, high, tree.at(node)) {
        Some(beside) => take_sums(world, work, node, axis, high, beside),
        None => (),
    }
}

/// Corrects both sides of a leaf on an axis.
fn correct_axis<const N: usize, const G: usize>(
    world: &mut World<N, G>,
    work: bool,
    node: u32,
    axis: Axis,
)
    requires fit { IsFit N G world.old }
    requires declared { HasVar world.old.told.counts (holding.face_var work axis) }
    requires leaf { IsLeafNode world.old.told.grid node }
    requires tame { IsTame work world.old }
    ensures summed { AreSummed work N G world.old world.new }
    ensures sides { (faces : BlockFaces) (high : Bool) → CalmHas work world.old faces → SideHas work world.new faces node axis high }
{
    correct_side(world, work, node, axis, false);
    correct_side(world, work, node, axis, true);
}

/// Corrects all sides of a leaf.
fn correct_leaf<const N: usize, const G: usize>(world: &mut World<N, G>, work: bool, node: u32)
    requires fit { IsFit N G world.old }
    requires declared { (a : Axes) → HasVar world.old.told.counts (holding.face_var work a) }
    requires leaf { IsLeafNode world.old.told.grid node }
    requires tame { IsTame work world.old }
    ensures summed { AreSummed work N G world.old world.new }
    ensures sides { (faces : BlockFaces) (a : Axes) (high : Bool) → CalmHas work world.old faces → SideHas work world.new faces node a high }
{
    correct_axis(world, work, node, Axis::X);
    correct_axis(world, work, node, Axis::Y);
    correct_axis(world, work, node, Axis::Z);
}

/// Corrects a node, where it is a leaf.
fn correct_node<const N: usize, const G: usize>(world: &mut World<N, G>, work: bool, node: u32)
    requires fit { IsFit N G world.old }
    requires declared { (a : Axes) → HasVar world.old.told.counts (holding.face_var work a) }
    requires node { IsNode world.old.told.grid node }
    requires tame { IsTame work world.old }
    ensures summed { AreSummed work N G world.old world.new }
    ensures sides { (faces : BlockFaces) (a : Axes) (high : Bool) → IsLeafNode world.old.told.grid node → CalmHas work world.old faces
        → SideHas work world.new faces node a high }
{
    if world.tree().is_leaf(node) {
        correct_leaf(world, work, node);
    }
}

/// Corrects all sides of all leaves.
fn correct_arrays<const N: usize, const G: usize>(world: &mut World<N, G>, work: bool)
    requires fit { IsFit N G world.old }
    requires declared { (a : Axes) → HasVar world.old.told.counts (holding.face_var work a) }
    requires tame { IsTame work world.old }
    ensures only { OnlyFaces work world.old world.new }
    ensures fit { IsFit N G world.new }
    ensures tame { IsTame work world.new }
    ensures valid { Valid world.old.told.grid }
    ensures places { (faces : BlockFaces) → CalmHas work world.old faces → FacesHave work world.new (corrected world.old.told.grid faces) }
{
    for node in 0..world.tree().len() {
        correct_node(world, work, node);
    }
}

/// Gives each work face of a leaf beside finer leaves the sum of the four finer work faces there, wrapped on a periodic
/// axis, so that what finer leaves lose through a side their coarser neighbour gains. All other faces of leaves at a jump
/// of level, and all other arrays, stay. Of the work faces of leaves at no jump nothing is asked or told.
pub fn correct<const N: usize, const G: usize>(world: &mut World<N, G>)
    requires fit { IsFit N G world.old }
    requires small { WorkWithin world.old (2 ^ 56) }
    ensures only { OnlyWorkFaces world.old world.new }
    ensures fit { IsFit N G world.new }
    ensures field { (field : FaceAt → ℤ) → WorkHolds world.old field → WorkHolds world.new (jumped world.old.told.grid field) }
    ensures places { (faces : BlockFaces) → WorkHas world.old faces → WorkHas world.new (corrected world.old.told.grid faces) }
    ensures small { WorkWithin world.new (2 ^ 58) }
{
    correct_arrays(world, true);
}

/// Gives each face of a leaf beside finer leaves the sum of the four finer faces there, as `correct` does for the work
/// faces. Each leaf's other faces stay, and so do all other arrays. What stood on the coarse faces before counts for nothing.
/// There has to be a face variable.
pub fn correct_faces<const N: usize, const G: usize>(world: &mut World<N, G>)
    requires fit { IsFit N G world.old }
    requires declared { 0 < world.old.told.counts.faces }
    requires small { FacesWithin false world.old (2 ^ 56) }
    ensures only { OnlyFaces false world.old world.new }
    ensures fit { IsFit N G world.new }
    ensures field { (field : FaceAt → ℤ) → FacesHold false world.old field → FacesHold false world.new (jumped world.old.told.grid field) }
    ensures leaf_faces { (field : FaceAt → ℤ) → LeafFacesHold world.old field → FacesHold false world.new (jumped world.old.told.grid field) }
    ensures places { (faces : BlockFaces) → FacesHave false world.old faces → FacesHave false world.new (corrected world.old.told.grid faces) }
    ensures small { FacesWithin false world.new (2 ^ 58) }
{
    correct_arrays(world, false);
}
