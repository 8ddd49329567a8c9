//! The mesh of a run, and each command on it.

use crate::cause::{Cause, Stop};
use crate::filling::fill_leaves;
use crate::marking::{Where, mark_where};
use crate::netting::net_fluxes;
use crate::region::{CellBox, Fill, Region};
use crate::saving::MeshPieces;
use crate::totals::total;
use amr_num::{BlockAt, EdgeAt, FaceAt, OutOfMemory};
use amr_report::{
    print_guards, print_mesh, print_netflux, print_size, print_total, print_tree, print_var,
};
use block_store::Layout;
use block_tree::Marks;
use check_disk::save::save;
use check_format::Image;
use edge_average::agree;
use guard_fill::{fill, restrict_all};
use mesh_model::language::names::Names;
use mesh_model::language::script::{Command, Declared, Line};
use mesh_model::{Group, Spot};
use mesh_restore::world_of;
use mesh_steps::{advect, induct, set_curl};
use outside_io::Failed;
use outside_io::disk::Disk;
use outside_io::sink::Sink;
use rank_world::World;
use refine_marks::{SetMarks, close};
use regrid_move::regrid;
use staggered::{NoEdge, NoFace, set_edge, set_face, set_uniform};
use std::alloc::Global;

/// How many bytes of an image are written to the disk at a time.
const PIECE: usize = 65536;

/// A mesh on which the commands of a script are done: its world, which has the tree and the numbers in blocks of `N`
/// cells along each axis with `G` guard cells on each side, the marks on its leaves, and what has flowed out of each
/// cell variable; and room for a piece of its image.
#[derive(Drop)]
pub struct Engine<const N: usize, const G: usize> {
    alloc: Global,
    names: Names,
    world: World<N, G>,
    marks: Marks,
    outs: Vec<i128>,
    piece: Vec<u8>,
    ghost room: { length piece.items ≡ 65536 },
    ghost named: { NamesFit names } by { Prim.hlevel props },
    ghost fit: { IsFit N G world },
    ghost laid_out: { IsLaidOut names world outs.items marks },
    ghost valid: { ∥ ValidMesh (mesh_of names world outs.items marks) ∥₁ },
}

ghost use Rattle.amr_engine.specs.EngineMesh.{IsLaidOut, mesh_of};
ghost use Rattle.mesh_model.specs.Fields.Ranks.{IsFit};
ghost use Rattle.mesh_model.specs.Fields.Valid.{ValidMesh};
ghost use Rattle.mesh_model.specs.Images.Reading.{NamesFit};
ghost use Rattle.mesh_model.specs.Language.Commands.{IsGroup};
ghost use Rattle.mesh_model.specs.Run.Texts.{group_name};
ghost use Rattle.std.proofs.Props.{props};
ghost use Rattle.std.specs.Prelude.{◌≡◌, ◌↔◌, ◌≤◌, None, IfOk, MatchResult, Ok, Err, length, pos, replicate};

/// A call that prints stops a command where the sink fails.
fn written(printed: Result<(), Failed>) -> Result<(), Cause>
    ensures { MatchResult printed (λ done. result ≡ Ok tt) (λ failed. result ≡ Err Cause.WriteFault) }
{
    match printed {
        Ok(()) => Ok(()),
        Err(Failed) => Err(Cause::WriteFault),
    }
}

/// What has flowed out of each variable at the start, which is nothing.
fn zero_outs(alloc: Global, variables: u32) -> Result<Vec<i128>, OutOfMemory>
    ensures { IfOk result (λ list. list.items ≡ replicate variables (pos 0)) }
{
    match vec![in alloc; 0i128; variables as usize] {
        Ok(list) => Ok(list),
        Err(_) => Err(OutOfMemory),
    }
}

/// Room for a piece of an image.
fn piece_room(alloc: Global) -> Result<Vec<u8>, OutOfMemory>
    ensures { IfOk result (λ list. length list.items ≡ 65536) }
{
    match vec![in alloc; 0u8; PIECE] {
        Ok(list) => Ok(list),
        Err(_) => Err(OutOfMemory),
    }
}

/// How many face variables are declared: none or one.
fn face_variables(names: &Names) -> u32
    ensures any { (result ≡ 0) ↔ (names.now.face ≡ None) }
{
    match names.face() {
        Some(_) => 1,
        None => 0,
    }
}

/// How many edge variables are declared: none or one.
fn edge_variables(names: &Names) -> u32
    ensures any { (result ≡ 0) ↔ (names.now.edge ≡ None) }
{
    match names.edge() {
        Some(_) => 1,
        None => 0,
    }
}

/// The name of a variable that is declared.
fn name_of(names: &Names, group: Group) -> &str
    requires { IsGroup names.now group }
    ensures name { result.now ≡ group_name names.now group }
    ensures short { length result.now ≤ 16 }
{
    match group {
        Group::Cell(var) => names.cell(var),
        Group::Face => match names.face() {
            Some(name) => name,
            None => unreachable!(),
        },
        Group::Edge => match names.edge() {
            Some(name) => name,
            None => unreachable!(),
        },
    }
}

impl<const N: usize, const G: usize> Engine<N, G> {
    ghost use Rattle.amr_engine.specs.Built.{IsBuiltLine, is_built_command};
    ghost use Rattle.mesh_model.specs.Run.Runs.{MakesBalance};
    ghost use Rattle.amr_engine.specs.Plain.{declared_of, plain};
    ghost use Rattle.amr_engine.specs.Regions.{IsRegionOf, filled};
    ghost use Rattle.amr_engine.specs.MarkedWhere.{marked_where, number_of};
    ghost use Rattle.check_format.specs.ReadImages.{IsRead, stored_in};
    ghost use Rattle.mesh_model.specs.Images.Image as images;
    ghost use Rattle.amr_engine.specs.Saving.{CountsFault, HasSaved, StaysWhole};
    ghost use Rattle.amr_engine.specs.Stopping.{Acts, Changes, IsCause, stopped_by};
    ghost use Rattle.amr_report.specs.Printing.{Prints};
    ghost use Rattle.mesh_model.specs.Language.Commands.{AreThree, IsCellVariable, IsCommandOf, IsGroup, IsLeafNumber, IsLineOf, IsPlace};
    ghost use Rattle.mesh_model.specs.Geometry.Limits.{IsShape};
    ghost use Rattle.mesh_model.specs.Fields.Ranks.{IsSized};
    ghost use Rattle.guard_fill.specs.Guarding.{LeavesGuardedOf};
    ghost use Rattle.amr_engine.specs.Guards.{field_of};
    ghost use Rattle.rank_world.specs.Holding.{IsOfMesh};
    ghost use Rattle.mesh_model.specs.Run.Runs.{KeepsBalance, KeepsOuts, KeepsTotals, StaysPositive, TheDisk, mesh_after, needs, saved_by, text_of};
    ghost use Rattle.mesh_model.specs.Fields.Start.{start_mesh};
    ghost use Rattle.mesh_model.specs.Run.Stops.{refusal};
    ghost use Rattle.mesh_model.specs.Run.Texts.{netflux_text, total_text, variable_text};
    ghost use Rattle.outside_io.specs.Moved.{Takes};
    ghost use Rattle.std.specs.Prelude.{◌≢◌, ◌≤◌, ◌^◌, ◌∷◌, [], true, IfErr, IfOk, IsSome, OnErr, OnOk, length};

    /// The start mesh of what was declared: all contents 0. `N` and `G` are the shape's.
    pub fn new(alloc: Global, declared: Declared) -> Result<Engine<N, G>, OutOfMemory>
        requires shape { IsShape declared.shape }
        requires sizes { IsSized N G declared.shape }
        requires names { NamesFit declared.names }
        ensures mesh { IfOk result (λ engine. plain engine ≡ start_mesh declared.shape declared.names) }
        ensures declared { IfOk result (λ engine. declared_of engine ≡ declared) }
    {
        let Declared { shape, names } = declared;
        let variables = names.cells();
        let faces = face_variables(&names);
        let edges = edge_variables(&names);
        let layout = Layout {
            cells: variables,
            faces,
            edges,
        };
        let world = World::new(alloc, shape, layout)?;
        let marks = Marks::empty(alloc, world.tree())?;
        let outs = zero_outs(alloc, variables)?;
        let piece = piece_room(alloc)?;
        Ok(Engine {
            alloc,
            names,
            world,
            marks,
            outs,
            piece,
        })
    }

    /// The mesh of an image: its tree, its marks, its numbers and what has flowed out, as they were saved. `N` and `G` are the
    /// shape's.
    pub fn restore(alloc: Global, image: Image) -> Result<Engine<N, G>, OutOfMemory>
        requires read { IsRead image }
        requires sizes { IsSized N G image.declared.shape }
        ensures mesh { IfOk result (λ engine. plain engine ≡ images.mesh_of (stored_in image)) }
        ensures declared { IfOk result (λ engine. declared_of engine ≡ image.declared) }
    {
        let Image {
            declared,
            tree,
            marks,
            outs,
            cells,
            faces,
            edges,
            ..
        } = image;
        let Declared { names, .. } = declared;
        let layout = Layout {
            cells: names.cells(),
            faces: face_variables(&names),
            edges: edge_variables(&names),
        };
        let world = world_of(alloc, tree, layout, &cells, &faces, &edges)?;
        let piece = piece_room(alloc)?;
        Ok(Engine {
            alloc,
            names,
            world,
            marks,
            outs,
            piece,
        })
    }

    /// The names of the variables.
    pub fn names(&self) -> &Names
        ensures { result.now ≡ (declared_of self.now).names }
    {
        &self.names
    }

    /// The tree with the numbers in its blocks.
    pub fn world(&self) -> &World<N, G>
        ensures tree { result.now.told.grid ≡ (plain self.now).grid }
        ensures contents { IsOfMesh result.now (plain self.now) }
    {
        &self.world
    }

    /// Does the command of a line: changes the mesh, prints, or saves.
    pub fn command<K: Sink, D: Disk>(
        &mut self,
        line: &Line,
        sink: &mut K,
        disk: &mut D,
    ) -> Result<(), Stop>
        requires fits { IsLineOf (declared_of self.old) line.now }
        requires built { IsBuiltLine line.now }
        ensures mesh { OnOk result (plain self.new ≡ mesh_after (plain self.old) line.now.command) }
        ensures text { OnOk result (Takes (K.taken sink.old) (text_of (plain self.old) line.now.command) (K.taken sink.new)) }
        ensures calm { OnOk result (K.faults sink.new ≡ K.faults sink.old) }

        // It stops exactly where the mesh refuses the command, or where what the command needs fails, be it the sink, the disk or
        // memory; it leaves the mesh then.
        ensures allowed { OnOk result (refusal (plain self.old) line.now.command ≡ None) }
        ensures line { IfErr result (λ stop. stop.line ≡ line.now.number) }
        ensures cause { IfErr result (λ stop. IsCause stop.cause (plain self.old) line.now.command (record { before = K.taken sink.old; after = K.taken sink.new; faults = K.faults sink.old; new_faults = K.faults sink.new })) }
        ensures refused { OnErr result (plain self.new ≡ plain self.old) }

        // What a command keeps: totals with what has flowed out, what has flowed out, contents that are not below 0, and a face
        // variable without net flux out of any leaf cell. What uniform makes has none.
        ensures totals { OnOk result (KeepsTotals (plain self.old) line.now.command (plain self.new)) }
        ensures outs { OnOk result (KeepsOuts (plain self.old) line.now.command (plain self.new)) }
        ensures positive { OnOk result (StaysPositive (plain self.old) line.now.command (plain self.new)) }
        ensures balance { OnOk result (KeepsBalance (plain self.old) line.now.command (plain self.new)) }
        ensures balanced { OnOk result (MakesBalance (plain self.old) line.now.command (plain self.new)) }
        ensures valid { ValidMesh (plain self.new) }

        // Only a checkpoint calls the disk. Where nothing was pending and nothing is damaged, the disk stopped at any moment holds
        // what was held or the mesh of the checkpoint, whole; and after a checkpoint that is done the disk rests on that mesh.
        ensures disk { needs line.now.command ≢ TheDisk → disk.new ≡ disk.old }
        ensures whole { StaysWhole D.holds D.may_leave D.moment D.left_since (saved_by (plain self.old) line.now.command) disk.old disk.new }
        ensures saved { OnOk result (HasSaved D.holds D.may_leave (saved_by (plain self.old) line.now.command) disk.old disk.new) }
        ensures disk_calm { OnOk result (D.faults disk.new ≡ D.faults disk.old) }
        ensures disk_fault { IfErr result (λ stop. CountsFault (stopped_by stop.cause) (D.faults disk.old) (D.faults disk.new)) }
        ensures declared { declared_of self.new ≡ declared_of self.old }
    {
        match self.carry_out(line.command, sink, disk) {
            Ok(()) => Ok(()),
            Err(cause) => Err(Stop {
                line: line.number,
                cause,
            }),
        }
    }

    /// Does a command, on the disk or apart from it.
    fn carry_out<K: Sink, D: Disk>(
        &mut self,
        command: Command,
        sink: &mut K,
        disk: &mut D,
    ) -> Result<(), Cause>
        requires fits { IsCommandOf (declared_of self.old) command }
        requires built { is_built_command command ≡ true }
        ensures acts { Acts result (plain self.old) command (plain self.new) (record { before = K.taken sink.old; after = K.taken sink.new; faults = K.faults sink.old; new_faults = K.faults sink.new }) }
        ensures disk { needs command ≢ TheDisk → disk.new ≡ disk.old }
        ensures whole { StaysWhole D.holds D.may_leave D.moment D.left_since (saved_by (plain self.old) command) disk.old disk.new }
        ensures saved { OnOk result (HasSaved D.holds D.may_leave (saved_by (plain self.old) command) disk.old disk.new) }
        ensures disk_calm { OnOk result (D.faults disk.new ≡ D.faults disk.old) }
        ensures disk_fault { IfErr result (λ cause. CountsFault (stopped_by cause) (D.faults disk.old) (D.faults disk.new)) }
        ensures declared { declared_of self.new ≡ declared_of self.old }
    {
        match command {
            Command::Checkpoint => self.checkpoint(disk),
            _ => self.act(command, sink),
        }
    }

    /// Saves the mesh on the disk, in the area that is not the newer one.
    fn checkpoint<D: Disk>(&mut self, disk: &mut D) -> Result<(), Cause>
        ensures changes { Changes result (plain self.old) Command.Checkpoint (plain self.new) }
        ensures whole { StaysWhole D.holds D.may_leave D.moment D.left_since (plain self.old ∷ []) disk.old disk.new }
        ensures saved { OnOk result (HasSaved D.holds D.may_leave (plain self.old ∷ []) disk.old disk.new) }
        ensures disk_calm { OnOk result (D.faults disk.new ≡ D.faults disk.old) }
        ensures disk_fault { IfErr result (λ cause. CountsFault (stopped_by cause) (D.faults disk.old) (D.faults disk.new)) }
        ensures declared { declared_of self.new ≡ declared_of self.old }
    {
        let mut pieces = MeshPieces::new(&self.names, &self.world, &self.marks, &self.outs);
        match save(disk, &mut pieces, &mut self.piece) {
            Ok(()) => Ok(()),
            Err(Failed) => Err(Cause::DiskFault),
        }
    }

    /// Does a command that leaves the disk.
    fn act<K: Sink>(&mut self, command: Command, sink: &mut K) -> Result<(), Cause>
        requires fits { IsCommandOf (declared_of self.old) command }
        requires built { is_built_command command ≡ true }
        requires aside { needs command ≢ TheDisk }
        ensures acts { Acts result (plain self.old) command (plain self.new) (record { before = K.taken sink.old; after = K.taken sink.new; faults = K.faults sink.old; new_faults = K.faults sink.new }) }
        ensures declared { declared_of self.new ≡ declared_of self.old }
    {
        match command {
            Command::FillAll { var, value } => {
                let region = Region::Everywhere;
                self.fill(var, Fill { region, value });
                Ok(())
            }
            Command::FillBox {
                var,
                level,
                low,
                high,
                value,
            } => {
                let region = Region::Within(CellBox { level, low, high });
                self.fill(var, Fill { region, value });
                Ok(())
            }
            Command::MarkRefine { at } => self.mark_refine(at),
            Command::MarkDerefine { at } => self.mark_derefine(at),
            Command::RefineWhere { var, above } => {
                self.mark_where(var, Where::RefineAbove(above));
                Ok(())
            }
            Command::DerefineWhere { var, below } => {
                self.mark_where(var, Where::DerefineBelow(below));
                Ok(())
            }
            Command::Regrid => self.regrid(),
            Command::Uniform { b } => self.uniform(b),
            Command::FaceSet { at, value } => self.set_face(at, value),
            Command::Advect { var, speeds } => self.advect(var, speeds),
            Command::PrintSize => written(print_size(sink, self.world.tree())),
            Command::PrintMesh => written(print_mesh(sink, self.world.tree())),
            Command::PrintTree => written(print_tree(sink, self.world.tree())),
            Command::PrintGuards { group, at } => self.print_guards(group, at, sink),
            Command::PrintVar { group } => written(self.print_variable(group, sink)),
            Command::Total { var } => written(self.print_total(var, sink)),
            Command::NetFlux => written(self.print_net_flux(sink)),
            Command::Curl => self.curl(),
            Command::Induct { speeds } => self.induct(speeds),
            Command::EdgeSet { at, value } => self.set_edge(at, value),
            _ => unreachable!(),
        }
    }

    /// Every leaf cell of the variable that the fill covers takes its value.
    fn fill(&mut self, var: u32, fill: Fill)
        requires variable { IsCellVariable (declared_of self.old).names var }
        requires region { IsRegionOf (declared_of self.old).shape fill.region }
        requires value { IsLeafNumber fill.value }
        ensures mesh { plain self.new ≡ filled (plain self.old) var fill }
        ensures declared { declared_of self.new ≡ declared_of self.old }
    {
        fill_leaves(&mut self.world, var, fill);
    }

    /// Marks a leaf to be refined.
    fn mark_refine(&mut self, at: BlockAt) -> Result<(), Cause>
        requires place { IsPlace at }
        ensures changes { Changes result (plain self.old) (Command.MarkRefine at) (plain self.new) }
        ensures declared { declared_of self.new ≡ declared_of self.old }
    {
        let node = match self.world.tree().leaf_at(at) {
            Some(node) => node,
            None => return Err(Cause::PlaceBlock(at)),
        };
        match self.marks.set_refine(self.world.tree(), node) {
            Ok(()) => Ok(()),
            Err(stop) => Err(Cause::Level(stop)),
        }
    }

    /// Marks a leaf to be merged with its siblings.
    fn mark_derefine(&mut self, at: BlockAt) -> Result<(), Cause>
        requires place { IsPlace at }
        ensures changes { Changes result (plain self.old) (Command.MarkDerefine at) (plain self.new) }
        ensures declared { declared_of self.new ≡ declared_of self.old }
    {
        let node = match self.world.tree().leaf_at(at) {
            Some(node) => node,
            None => return Err(Cause::PlaceBlock(at)),
        };
        match self.marks.set_derefine(self.world.tree(), node) {
            Ok(()) => Ok(()),
            Err(stop) => Err(Cause::Level(stop)),
        }
    }

    /// Marks every leaf whose contents of the variable ask for it.
    fn mark_where(&mut self, var: u32, rule: Where)
        requires variable { IsCellVariable (declared_of self.old).names var }
        requires number { IsLeafNumber (number_of rule) }
        ensures mesh { plain self.new ≡ marked_where (plain self.old) var rule }
        ensures declared { declared_of self.new ≡ declared_of self.old }
    {
        mark_where(&self.world, &mut self.marks, var, rule);
    }

    /// Refines and merges as the marks and the level rule ask, and takes the marks away.
    fn regrid(&mut self) -> Result<(), Cause>
        ensures changes { Changes result (plain self.old) Command.Regrid (plain self.new) }
        ensures declared { declared_of self.new ≡ declared_of self.old }
    {
        let plan = match close(self.alloc, self.world.tree(), &self.marks) {
            Ok(plan) => plan,
            Err(OutOfMemory) => return Err(Cause::OutOfMemory),
        };
        match regrid(self.alloc, &mut self.world, &plan) {
            Ok(()) => {
                self.marks.reset(self.world.tree());
                Ok(())
            }
            Err(stop) => Err(Cause::of_regrid(stop)),
        }
    }

    /// Sets each leaf face to the flux on its axis, times its area in finest faces.
    fn uniform(&mut self, b: [i64; 3]) -> Result<(), Cause>
        requires face { IsSome (declared_of self.old).names.face }
        requires fluxes { AreThree (2 ^ 40) b }
        ensures changes { Changes result (plain self.old) (Command.Uniform b) (plain self.new) }
        ensures declared { declared_of self.new ≡ declared_of self.old }
    {
        match set_uniform(&mut self.world, b) {
            Ok(()) => Ok(()),
            Err(found) => Err(Cause::of_faces(found)),
        }
    }

    /// Sets one leaf face, and with it what the coarse face at a jump has there.
    fn set_face(&mut self, at: FaceAt, value: i64) -> Result<(), Cause>
        requires fits { IsCommandOf (declared_of self.old) (Command.FaceSet at value) }
        ensures changes { Changes result (plain self.old) (Command.FaceSet at value) (plain self.new) }
        ensures declared { declared_of self.new ≡ declared_of self.old }
    {
        match set_face(&mut self.world, at, value) {
            Ok(()) => {
                agree(&mut self.world, Group::Face, false);
                Ok(())
            }
            Err(NoFace) => Err(Cause::Place(Spot::Face(at))),
        }
    }

    /// Sets one leaf edge, and with it what the coarse edges round which finer leaves stand have there.
    fn set_edge(&mut self, at: EdgeAt, value: i64) -> Result<(), Cause>
        requires fits { IsCommandOf (declared_of self.old) (Command.EdgeSet at value) }
        ensures changes { Changes result (plain self.old) (Command.EdgeSet at value) (plain self.new) }
        ensures declared { declared_of self.new ≡ declared_of self.old }
    {
        match set_edge(&mut self.world, at, value) {
            Ok(()) => {
                agree(&mut self.world, Group::Edge, false);
                Ok(())
            }
            Err(NoEdge) => Err(Cause::Place(Spot::Edge(at))),
        }
    }

    /// Sets each leaf face to the circulation of the edge variable round it.
    fn curl(&mut self) -> Result<(), Cause>
        requires fits { IsCommandOf (declared_of self.old) Command.Curl }
        ensures changes { Changes result (plain self.old) Command.Curl (plain self.new) }
        ensures declared { declared_of self.new ≡ declared_of self.old }
    {
        match set_curl(&mut self.world) {
            Ok(()) => Ok(()),
            Err(found) => Err(Cause::of_faces(found)),
        }
    }

    /// Makes one step of the face variable.
    fn induct(&mut self, speeds: [i64; 3]) -> Result<(), Cause>
        requires fits { IsCommandOf (declared_of self.old) (Command.Induct speeds) }
        ensures changes { Changes result (plain self.old) (Command.Induct speeds) (plain self.new) }
        ensures declared { declared_of self.new ≡ declared_of self.old }
    {
        match induct(&mut self.world, speeds) {
            Ok(()) => Ok(()),
            Err(hindrance) => Err(Cause::of_induct(speeds, hindrance)),
        }
    }

    /// Makes one step of the variable.
    fn advect(&mut self, var: u32, speeds: [i64; 3]) -> Result<(), Cause>
        requires variable { IsCellVariable (declared_of self.old).names var }
        requires speeds { AreThree (2 ^ 20) speeds }
        ensures changes { Changes result (plain self.old) (Command.Advect var speeds) (plain self.new) }
        ensures declared { declared_of self.new ≡ declared_of self.old }
    {
        let out = self.outs[var as usize];
        match advect(&mut self.world, var, speeds, out) {
            Ok(out) => {
                self.outs[var as usize] = out;
                Ok(())
            }
            Err(hindrance) => Err(Cause::of_advect(var, speeds, hindrance)),
        }
    }

    /// Prints the numbers of a variable.
    fn print_variable<K: Sink>(&self, group: Group, sink: &mut K) -> Result<(), Failed>
        requires { IsGroup (declared_of self.now).names group }
        ensures { Prints result (K.taken sink.old) (variable_text (plain self.now) group) (K.taken sink.new) (K.faults sink.old) (K.faults sink.new) }
    {
        let name = name_of(&self.names, group);
        print_var(sink, self.world.tree(), name, group, &self.world)
    }

    /// Fills the guards of the variable in all leaves. No number of the mesh changes.
    fn fill_guards(&mut self, group: Group)
        requires group { IsGroup (declared_of self.old).names group }
        ensures mesh { plain self.new ≡ plain self.old }
        ensures told { self.new.world.told ≡ self.old.world.told }
        ensures guards { LeavesGuardedOf self.new.world group (field_of (plain self.old) group) }
        ensures declared { declared_of self.new ≡ declared_of self.old }
    {
        restrict_all(&mut self.world, group);
        fill(&mut self.world, group);
    }

    /// Prints the numbers of a variable in and round a leaf.
    fn print_guards<K: Sink>(
        &mut self,
        group: Group,
        at: BlockAt,
        sink: &mut K,
    ) -> Result<(), Cause>
        requires group { IsGroup (declared_of self.old).names group }
        ensures acts { Acts result (plain self.old) (Command.PrintGuards group at) (plain self.new) (record { before = K.taken sink.old; after = K.taken sink.new; faults = K.faults sink.old; new_faults = K.faults sink.new }) }
        ensures declared { declared_of self.new ≡ declared_of self.old }
    {
        let node = match self.world.tree().leaf_at(at) {
            Some(node) => node,
            None => return Err(Cause::PlaceBlock(at)),
        };
        self.fill_guards(group);
        let name = name_of(&self.names, group);
        let tree = self.world.tree();
        written(print_guards(sink, tree, name, group, &self.world, node))
    }

    /// Prints the number of leaf cells with a net flux.
    fn print_net_flux<K: Sink>(&self, sink: &mut K) -> Result<(), Failed>
        requires { IsSome (declared_of self.now).names.face }
        ensures { Prints result (K.taken sink.old) (netflux_text (plain self.now)) (K.taken sink.new) (K.faults sink.old) (K.faults sink.new) }
    {
        let name = name_of(&self.names, Group::Face);
        print_netflux(sink, name, net_fluxes(&self.world))
    }

    /// Prints the total of a cell variable.
    fn print_total<K: Sink>(&self, var: u32, sink: &mut K) -> Result<(), Failed>
        requires { IsCellVariable (declared_of self.now).names var }
        ensures { Prints result (K.taken sink.old) (total_text (plain self.now) var) (K.taken sink.new) (K.faults sink.old) (K.faults sink.new) }
    {
        let total = total(&self.world, var);
        let name = name_of(&self.names, Group::Cell(var));
        print_total(sink, name, total, self.outs[var as usize])
    }
}
