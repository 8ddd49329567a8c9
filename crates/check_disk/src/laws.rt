//! Which areas hold nothing damaged, and what areas hold of meshes.
ghost use Rattle.std.specs.Prelude.{◌≡◌};
ghost use Rattle.outside_io.specs.Areas.{Areas};
ghost use Rattle.mesh_model.specs.Images.Held as plain;
ghost use Rattle.mesh_model.specs.Images.Held.{IsWhole};
ghost use Rattle.check_disk.specs.Held.{held, IsGood};
ghost use Rattle.check_disk.specs.Images.{images};

use crate::pieces::Pieces;

/// Nothing damaged is held exactly where each area is closed, or open with an image.
pub fn good_is_whole<P: Pieces>()
    ensures whole { (areas : Areas) → IsGood P.format areas.a → IsGood P.format areas.b → IsWhole (held P.format areas) }
    ensures good { (areas : Areas) → IsWhole (held P.format areas) → IsGood P.format areas.a × IsGood P.format areas.b }
{}

/// The images of meshes are a format, and what areas hold by it is what two areas of bytes hold.
pub fn images_are_a_format()
    ensures { (areas : Areas) → held images areas ≡ plain.held areas.a areas.b }
{}
