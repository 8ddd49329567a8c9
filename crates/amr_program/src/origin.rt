//! Where the commands of a run begin.

ghost use Rattle.amr_engine.specs.Plain.{declared_of, plain};
ghost use Rattle.amr_program.specs.Origins.{CanBegin, mesh_from};
ghost use Rattle.mesh_model.specs.Fields.Ranks.{IsSized};
ghost use Rattle.mesh_model.specs.Geometry.Limits.{IsShape};
ghost use Rattle.mesh_model.specs.Run.Runs.{declared_in};
ghost use Rattle.std.specs.Prelude.{◌≡◌, IfOk};

use amr_engine::engine::Engine;
use amr_num::OutOfMemory;
use check_format::Image;
use mesh_model::Shape;
use mesh_model::language::script::Declared;
use std::alloc::Global;

/// The mesh with which the commands of a run begin.
#[derive(Drop)]
pub enum Origin {
    /// That of the declarations, all of whose numbers are 0.
    Declared(Declared),
    /// That of an image.
    Image(Image),
}

impl Origin {
    /// The shape of the mesh.
    pub fn shape(&self) -> Shape
        ensures { result ≡ (declared_in (mesh_from self.now)).shape }
    {
        match self {
            Origin::Declared(declared) => declared.shape,
            Origin::Image(image) => image.declared.shape,
        }
    }

    /// An engine that has the mesh, in blocks of `N` cells along each axis with `G` guard cells on each side.
    pub fn engine<const N: usize, const G: usize>(
        self,
        alloc: Global,
    ) -> Result<Engine<N, G>, OutOfMemory>
        requires begins { CanBegin self }
        requires sizes { IsSized N G (declared_in (mesh_from self)).shape }
        ensures mesh { IfOk result (λ engine. plain engine ≡ mesh_from self) }
        ensures declared { IfOk result (λ engine. declared_of engine ≡ declared_in (mesh_from self)) }
    {
        match self {
            Origin::Declared(declared) => Engine::new(alloc, declared),
            Origin::Image(image) => Engine::restore(alloc, image),
        }
    }
}
