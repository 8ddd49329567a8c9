//! Why nothing is run.

ghost use Rattle.amr_program.specs.Answer.{status_unrun};
ghost use Rattle.std.specs.Prelude.{◌≡◌};

use crate::status::Status;
use mesh_model::BadImage;
use mesh_model::language::script::Reason;
use outside_io::disk::Area;

/// Why nothing is run.
#[derive(Clone, Copy, Debug, PartialEq, Eq)]
pub enum NotRun {
    /// The words are refused.
    Words,
    /// A restart was asked for, and no area of the disk is open.
    NoCheckpoint,
    /// A restart was asked for, and an open area holds no image: the first such area, and why it holds none.
    Damaged { area: Area, bad: BadImage },
    /// The script has a fault: the number of the line, and the reason. Line 0 stands for the whole script.
    Fault { line: u32, reason: Reason },
    /// The script asks for what is not built.
    NotBuilt,
}

impl NotRun {
    /// The status of the run.
    pub fn status(self) -> Status
        ensures { result ≡ status_unrun self }
    {
        match self {
            NotRun::Words => Status::Words,
            NotRun::NoCheckpoint => Status::NoCheckpoint,
            NotRun::Damaged { .. } => Status::Damaged,
            NotRun::Fault { .. } | NotRun::NotBuilt => Status::Script,
        }
    }
}
