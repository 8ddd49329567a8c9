//! The image of an engine's mesh, some bytes at a time.

ghost use Rattle.amr_engine.specs.EngineMesh.{IsLaidOut, mesh_of};
ghost use Rattle.amr_engine.specs.Saving.{IsUnderWay, Resumes, given_of, turn_of};
ghost use Rattle.check_disk.specs.Images.{images};
ghost use Rattle.mesh_model.specs.Fields.Plain.{Mesh};
ghost use Rattle.mesh_model.specs.Fields.Ranks.{IsFit};
ghost use Rattle.mesh_model.specs.Fields.Valid.{ValidMesh};
ghost use Rattle.mesh_model.specs.Geometry.Limits.{IsShape};
ghost use Rattle.mesh_model.specs.Images.Image.{image};
ghost use Rattle.std.specs.Prelude.{◌≡◌, ◌⊎◌, ◌↔◌, ◌+◌, ◌≤◌, None, Some, drop, length, take};

use block_tree::Marks;
use check_disk::pieces::Pieces;
use check_format::ImageWriter;
use mesh_model::Shape;
use mesh_model::language::names::Names;
use rank_world::World;

/// The pieces of the image of a mesh, which is given by its parts: the names of its variables, the world with its tree and numbers,
/// the marks on its leaves, and what has flowed out of each cell variable.
#[derive(Drop)]
pub(crate) struct MeshPieces<'a, const N: usize, const G: usize> {
    names: &'a Names,
    world: &'a World<N, G>,
    marks: &'a Marks,
    outs: &'a [i128],
    writer: Option<ImageWriter>,
    ghost fit: { IsFit N G world.now },
    ghost laid_out: { IsLaidOut names.now world.now outs.now marks.now },
    ghost valid: { ∥ ValidMesh (mesh_of names.now world.now outs.now marks.now) ∥₁ },
    ghost came: { IsUnderWay (mesh_of names.now world.now outs.now marks.now) writer },
}

/// The writer that goes on, or a new one.
fn resumed(writer: Option<ImageWriter>, shape: Shape, turn: u8) -> ImageWriter
    requires shape { IsShape shape }
    requires few { turn ≤ 2 }
    ensures { (m : Mesh) → ValidMesh m → m.grid.shape ≡ shape → IsUnderWay m writer → (given_of m writer ≡ 0) ⊎ (turn_of writer ≡ turn) → Resumes m writer turn result }
{
    match writer {
        Some(writer) => writer,
        None => ImageWriter::new(shape, turn),
    }
}

impl<'a, const N: usize, const G: usize> MeshPieces<'a, N, G> {
    ghost use Rattle.amr_engine.specs.Pieced.{pieced};

    /// All pieces of the image of a valid mesh.
    pub(crate) fn new(
        names: &'a Names,
        world: &'a World<N, G>,
        marks: &'a Marks,
        outs: &'a [i128],
    ) -> MeshPieces<'a, N, G>
        requires fit { IsFit N G world.now }
        requires laid_out { IsLaidOut names.now world.now outs.now marks.now }
        requires valid { ValidMesh (mesh_of names.now world.now outs.now marks.now) }
        ensures mesh { pieced result ≡ mesh_of names.now world.now outs.now marks.now }
        ensures none { result.writer ≡ None }
    {
        MeshPieces {
            names,
            world,
            marks,
            outs,
            writer: None,
        }
    }

    /// Writes the next bytes of the image with that turn, and answers how many: 0 exactly at the end.
    fn write(&mut self, turn: u8, buf: &mut [u8]) -> u32
        requires room { 64 ≤ length buf.old }
        requires few { turn ≤ 2 }
        requires same { (given_of (pieced self.old) self.old.writer ≡ 0) ⊎ (turn_of self.old.writer ≡ turn) }
        ensures within { result ≤ length buf.new }
        ensures bytes { take result buf.new ≡ take result (drop (given_of (pieced self.old) self.old.writer) (image (pieced self.old) turn)) }
        ensures given { given_of (pieced self.new) self.new.writer ≡ given_of (pieced self.old) self.old.writer + result }
        ensures size { given_of (pieced self.new) self.new.writer ≤ length (image (pieced self.old) turn) }
        ensures end { (result ≡ 0) ↔ (given_of (pieced self.old) self.old.writer ≡ length (image (pieced self.old) turn)) }
        ensures mesh { pieced self.new ≡ pieced self.old }
        ensures turn { turn_of self.new.writer ≡ turn }
    {
        let tree = self.world.tree();
        let mut writer = resumed(self.writer.take(), tree.shape(), turn);
        let size = writer.next(tree, self.marks, self.names, self.outs, self.world, buf);
        self.writer = Some(writer);
        size
    }
}

impl<'a, const N: usize, const G: usize> Pieces for MeshPieces<'a, N, G> {
    ghost use Rattle.amr_engine.specs.Pieced.{pieced};

    ghost format = { images };

    ghost mesh = { λ p. pieced p };

    ghost given = { λ p. given_of (pieced p) p.writer };

    ghost turn_was = { λ p. turn_of p.writer };

    fn next(&mut self, turn: u8, buf: &mut [u8]) -> u32 {
        self.write(turn, buf)
    }
}
