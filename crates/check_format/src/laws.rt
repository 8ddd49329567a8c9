//! Laws of images: each is the contract of a function that does nothing.

ghost use Rattle.mesh_model.specs.Images.Laws as laws;
ghost use Rattle.check_format.specs.Own.{EdgesByLeaves, FacesByLeaves};
ghost use Rattle.check_format.specs.Writing.{PiecesAreBody, SamePieces};

/// Bytes are read exactly where they are the image of a valid mesh.
pub fn images_are_read()
    ensures read { laws.ImagesAreRead }
    ensures image { laws.ReadIsImage }
    ensures one { laws.OneSpelling }
{}

/// The faces and edges with numbers are the own ones of each leaf, one leaf after the other.
pub fn numbers_stand_under_leaves()
    ensures faces { FacesByLeaves }
    ensures edges { EdgesByLeaves }
{}

/// The numbered pieces of a mesh are its image but for the digest, and what stands for a mesh has its pieces.
pub fn pieces_are_the_image()
    ensures body { PiecesAreBody }
    ensures same { SamePieces }
{}
