//! How a run ends, and its exit number.

use mesh_model::run::stops::Refusal;

/// How a run of the program ended.
#[derive(Clone, Copy, Debug, PartialEq, Eq)]
pub enum Status {
    /// The source was read to its end and the script to its `end`.
    Done,
    /// The words are refused.
    Words,
    /// The script is refused.
    Script,
    /// A command was refused for another reason than its level.
    Stopped,
    /// A mark was refused at the limit of levels.
    Level,
    /// The source failed.
    ReadFault,
    /// The sink failed.
    WriteFault,
    /// The disk failed.
    DiskFault,
    /// An open area of the disk holds no image.
    Damaged,
    /// No area of the disk is open.
    NoCheckpoint,
    /// Memory was refused.
    OutOfMemory,
}

impl Status {
    ghost use Rattle.amr_program.specs.Answer.{status_of};
    ghost use Rattle.amr_program.specs.Exit.{exit_of};
    ghost use Rattle.std.specs.Prelude.{◌≡◌};

    /// The status of a run that a refused command ends.
    pub fn of_refusal(why: Refusal) -> Status
        ensures { result ≡ status_of why }
    {
        match why {
            Refusal::Level(_) => Status::Level,
            Refusal::Range(_)
            | Refusal::Courant(_)
            | Refusal::Place(_)
            | Refusal::PlaceBlock(_)
            | Refusal::Blocks(_) => Status::Stopped,
        }
    }

    /// The exit number of the program.
    pub fn exit(self) -> u8
        ensures { result ≡ exit_of self }
    {
        match self {
            Status::Done => 0,
            Status::Words => 2,
            Status::Script => 3,
            Status::Stopped => 4,
            Status::Level => 5,
            Status::ReadFault => 6,
            Status::WriteFault => 7,
            Status::DiskFault => 8,
            Status::Damaged => 9,
            Status::NoCheckpoint => 10,
            Status::OutOfMemory => 11,
        }
    }
}
