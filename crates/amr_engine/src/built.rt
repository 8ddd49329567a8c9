//! Which scripts are run.

ghost use Rattle.amr_engine.specs.Built as plain;
ghost use Rattle.mesh_model.specs.Language.Commands.{plain_script};
ghost use Rattle.std.specs.List.{list_all};
ghost use Rattle.std.specs.Prelude.{◌≡◌};

use mesh_model::language::script::{Command, Line, Script};

/// Whether the command is built.
fn is_built_command(command: Command) -> bool
    ensures { result ≡ plain.is_built_command command }
{
    match command {
        Command::MarkRefine { .. } => true,
        Command::MarkDerefine { .. } => true,
        Command::RefineWhere { .. } => true,
        Command::DerefineWhere { .. } => true,
        Command::Regrid => true,
        Command::Advect { .. } => true,
        Command::PrintSize => true,
        Command::PrintMesh => true,
        Command::PrintTree => true,
        Command::FillAll { .. } => true,
        Command::FillBox { .. } => true,
        Command::FaceSet { .. } => true,
        Command::EdgeSet { .. } => true,
        Command::Uniform { .. } => true,
        Command::Curl => true,
        Command::Induct { .. } => true,
        Command::NetFlux => true,
        Command::Checkpoint => true,
        Command::PrintGuards { .. } => true,
        Command::PrintVar { .. } => true,
        Command::Total { .. } => true,
        _ => false,
    }
}

/// Whether all commands of the lines are built.
fn are_built(lines: &[Line]) -> bool
    ensures { result ≡ list_all (λ line. plain.is_built_command line.command) lines.now }
{
    lines.iter().all(|line| is_built_command(line.command))
}

/// Whether all that the script asks for is built, for so many ranks and workers. What is not built is
/// not run.
#[tactic(auto, unfolding(crate::specs::Built::is_built))]
pub fn built(script: &Script, ranks: u32, workers: u32) -> bool
    ensures { result ≡ plain.is_built (plain_script script.now) ranks workers }
{
    ranks <= 1 && workers <= 1 && are_built(&script.lines)
}
