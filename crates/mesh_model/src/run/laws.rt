//! Laws of the run of commands: each is the contract of a function that does nothing. A run goes up to the
//! first command that is refused.

ghost use Rattle.mesh_model.specs.Language.Commands.{IsCommandOf, IsLineOf};
ghost use Rattle.mesh_model.specs.Fields.Plain.{Mesh};
ghost use Rattle.mesh_model.specs.Run.Runs.{AtEachCommand, KeepsBalance, KeepsOuts, KeepsTotals, StaysPositive, TheSink, declared_in, done, mesh_after, needs, text_of};
ghost use Rattle.mesh_model.specs.Run.Stops.{refusal};
ghost use Rattle.mesh_model.specs.Fields.Valid.{ValidMesh};
ghost use Rattle.mesh_model.specs.declared.language.script.Command.{Command};
ghost use Rattle.mesh_model.specs.declared.language.script.Line.{Line};
ghost use Rattle.std.specs.Prelude.{◌≡◌, ◌≢◌, List, [], None, All};

/// A command that is not refused makes a valid mesh of a valid one, with the same declarations.
pub fn commands_keep_validity()
    ensures valid { (m : Mesh) (command : Command) → ValidMesh m → IsCommandOf (declared_in m) command → refusal m command ≡ None → ValidMesh (mesh_after m command) }
    ensures declared { (m : Mesh) (command : Command) → declared_in (mesh_after m command) ≡ declared_in m }
{}

/// The total of a variable and what has flowed out of it are together kept by each command that does not fill
/// it, and what has flowed out by each that does not advect it.
pub fn runs_keep_totals()
    ensures totals { (m : Mesh) (lines : List Line) → ValidMesh m → All (IsLineOf (declared_in m)) lines → AtEachCommand KeepsTotals m (done m lines) }
    ensures outs { (m : Mesh) (lines : List Line) → ValidMesh m → All (IsLineOf (declared_in m)) lines → AtEachCommand KeepsOuts m (done m lines) }
{}

/// An advect leaves no content below 0 where none was.
pub fn runs_stay_positive()
    ensures { (m : Mesh) (lines : List Line) → ValidMesh m → All (IsLineOf (declared_in m)) lines → AtEachCommand StaysPositive m (done m lines) }
{}

/// Where each leaf cell has net flux 0, it has it after each command that sets no single face.
pub fn runs_keep_balance()
    ensures { (m : Mesh) (lines : List Line) → ValidMesh m → All (IsLineOf (declared_in m)) lines → AtEachCommand KeepsBalance m (done m lines) }
{}

/// A command prints only where it needs the sink.
pub fn reports_alone_print()
    ensures { (m : Mesh) (command : Command) → needs command ≢ TheSink → text_of m command ≡ [] }
{}
