//! The copies of one number in several leaves.

ghost use Rattle.edge_average.specs.Groups.{AreThere, CopiesAgree, CopiesWithin, OnlyCopies};
ghost use Rattle.mesh_model.specs.Fields.Ranks.{IsFit};
ghost use Rattle.mesh_model.specs.declared.fields.values.Group.TheVariants.{Cell, Face};
ghost use Rattle.std.specs.Prelude.{◌≡◌, ◌^◌, ℕ, false};

use crate::halving::agree_edges;
use flux_conserve::correct_faces;
use mesh_model::Group;
use rank_world::World;

/// Makes the copies of a group's numbers agree, once each copy of each leaf face's or leaf edge's number is that number: a
/// coarse face beside finer leaves gets the sum of the four finer faces, and a coarse edge round which finer leaves stand
/// the sum of its two halves, whatever stood there. Each leaf then holds the views of the numbers on leaf faces or leaf
/// edges, and all other arrays stay. The guards of these arrays may have anything afterwards.
///
/// The group is the face variable, or the edge variable, which has to be declared, or with `work` the work edges, which are
/// always there. Nothing is refused, and no memory is taken.
pub fn agree<const N: usize, const G: usize>(world: &mut World<N, G>, group: Group, work: bool)
    requires fit { IsFit N G world.old }
    requires group { (v : ℕ) → group ≡ Cell v → ⊥ }
    requires work { group ≡ Face → work ≡ false }
    requires declared { AreThere group work world.old.told.counts }
    requires small { CopiesWithin group work world.old (2 ^ 56) }
    ensures only { OnlyCopies group work world.old world.new }
    ensures fit { IsFit N G world.new }
    ensures views { CopiesAgree group work world.old world.new }
    ensures small { CopiesWithin group work world.new (2 ^ 58) }
{
    let _tree = world.tree();
    match group {
        Group::Face => correct_faces(world),
        Group::Edge => agree_edges(world, work),
        Group::Cell(_) => (),
    }
}
