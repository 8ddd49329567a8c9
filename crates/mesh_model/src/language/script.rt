//! What a script says: its declarations and its commands.

use crate::fields::values::Group;
use crate::geometry::Shape;
use crate::language::names::Names;
use amr_num::{BlockAt, EdgeAt, FaceAt};

/// What the declarations of a script say: the shape of the mesh, and the names of its variables.
#[derive(Debug, Drop)]
pub struct Declared {
    pub shape: Shape,
    pub names: Names,
}

/// One action of a script. Numbers of variables count from 0 in declared order.
#[derive(Clone, Copy, Debug, PartialEq, Eq)]
pub enum Command {
    /// Every leaf cell of the variable takes the value.
    FillAll {
        var: u32,
        value: i64,
    },
    /// Every leaf cell whose whole region lies in the box takes the value. The box holds the cells of
    /// `level` from `low` up to below `high`, by axis.
    FillBox {
        var: u32,
        level: u32,
        low: [u32; 3],
        high: [u32; 3],
        value: i64,
    },
    /// The leaf face takes the value. Its coordinate on its axis is its position.
    FaceSet {
        at: FaceAt,
        value: i64,
    },
    /// The leaf edge takes the value. Its coordinates on the other two axes are its positions.
    EdgeSet {
        at: EdgeAt,
        value: i64,
    },
    /// Sets the face variable to the flux of a uniform field with these numbers on the axes.
    Uniform {
        b: [i64; 3],
    },
    /// Marks the leaf for refining.
    MarkRefine {
        at: BlockAt,
    },
    /// Marks the leaf for merging.
    MarkDerefine {
        at: BlockAt,
    },
    /// Marks for refining every leaf below the greatest level with a content above the number.
    RefineWhere {
        var: u32,
        above: i64,
    },
    /// Marks for merging every leaf above the least level whose contents are all below the number.
    DerefineWhere {
        var: u32,
        below: i64,
    },
    /// Refines and merges as the marks and the level rule ask, and clears the marks.
    Regrid,
    /// Moves the cell variable by one step at these speeds on the axes, in units of 2^-20 of a cell of level 0.
    Advect {
        var: u32,
        speeds: [i64; 3],
    },
    /// Sets the face variable to the circulations of the edge variable.
    Curl,
    /// Moves the face variable by one step at these speeds on the axes.
    Induct {
        speeds: [i64; 3],
    },
    /// Saves an image.
    Checkpoint,
    /// Prints how many nodes and leaves there are.
    PrintSize,
    /// Prints the leaves.
    PrintMesh,
    /// Prints the nodes with their parents and neighbours.
    PrintTree,
    /// Prints what each rank has.
    PrintRanks,
    /// Prints the events of the last phase.
    PrintTrace,
    /// Prints the numbers of a variable.
    PrintVar {
        group: Group,
    },
    /// Prints the numbers of a variable in and round one leaf.
    PrintGuards {
        group: Group,
        at: BlockAt,
    },
    /// Prints the total of a cell variable.
    Total {
        var: u32,
    },
    /// Prints how many leaf cells have a net flux.
    NetFlux,
}

/// The lines that declare, by their first word.
#[derive(Clone, Copy, Debug, PartialEq, Eq)]
pub enum Declaration {
    Domain,
    Cells,
    Bounds,
    Levels,
    CellVar,
    FaceVar,
    EdgeVar,
}

/// The lines that act, by their first word.
#[derive(Clone, Copy, Debug, PartialEq, Eq)]
pub enum Action {
    Fill,
    FaceSet,
    EdgeSet,
    Uniform,
    Mark,
    Regrid,
    Advect,
    Curl,
    Induct,
    Checkpoint,
    Print,
    Total,
    NetFlux,
}

/// What a line does, by its first word.
#[derive(Clone, Copy, Debug, PartialEq, Eq)]
pub enum Keyword {
    Declares(Declaration),
    Acts(Action),
    /// The word `end`.
    Ends,
}

/// Why a line of a script, or the whole script, is refused.
#[derive(Clone, Copy, Debug, PartialEq, Eq)]
pub enum Reason {
    /// The script has more than 2^20 bytes.
    TooLong,
    /// A command after `end`.
    TextAfterEnd,
    /// The first word is none of the commands.
    UnknownCommand,
    /// The first command is not `domain`, and no declarations were given.
    DomainMissing,
    /// A declaration after an action, or where the declarations were given.
    TooLate,
    /// A second declaration that may come once.
    Twice,
    /// Not a count of words that the command has.
    WordCount,
    /// No such variable is declared.
    UnknownVariable,
    /// The word is no number.
    NotNumber,
    /// The number is too small or too great.
    OutOfRange,
    /// Another word has to stand there.
    UnknownWord,
    /// The word is no name.
    BadName,
    /// A variable has the name already.
    NameTaken,
    /// There are as many variables as a mesh can have.
    TooMany,
    /// One side of an axis is periodic and the other is not.
    Unpaired,
    /// The box is empty, or reaches beyond the domain.
    BadBox,
    /// The script has no `end`.
    EndMissing,
}

impl Reason {
    ghost use Rattle.mesh_model.specs.Language.Reasons.{reason_text};
    ghost use Rattle.std.specs.Prelude.{◌≡◌, ◌≤◌, length};

    /// The reason as it is printed.
    pub fn text(self) -> &'static str
        ensures text { result.now ≡ reason_text self }
        ensures short { length result.now ≤ 21 }
    {
        match self {
            Reason::TooLong => "too long",
            Reason::TextAfterEnd => "text after end",
            Reason::UnknownCommand => "unknown command",
            Reason::DomainMissing => "domain missing",
            Reason::TooLate => "declaration too late",
            Reason::Twice => "declared twice",
            Reason::WordCount => "wrong number of words",
            Reason::UnknownVariable => "unknown variable",
            Reason::NotNumber => "not a number",
            Reason::OutOfRange => "number out of range",
            Reason::UnknownWord => "unknown word",
            Reason::BadName => "bad name",
            Reason::NameTaken => "name taken",
            Reason::TooMany => "too many variables",
            Reason::Unpaired => "periodic must pair",
            Reason::BadBox => "bad box",
            Reason::EndMissing => "end missing",
        }
    }
}

/// What is known of a script between two of its lines.
#[derive(Debug, Drop)]
pub struct Reading {
    /// What the lines so far declare, and the defaults of what they do not.
    pub declared: Declared,
    /// Whether a `domain` line stands among the lines so far, or the declarations were given.
    pub domain: bool,
    /// Whether a `cells` line does.
    pub cells: bool,
    /// Whether a `bounds` line does.
    pub bounds: bool,
    /// Whether a `levels` line does.
    pub levels: bool,
    /// Whether an action does, or the declarations were given.
    pub acting: bool,
    /// Whether `end` does.
    pub ended: bool,
}

/// An action, with the number of its line in the script, from 1.
#[derive(Clone, Copy, Debug, PartialEq, Eq)]
pub struct Line {
    pub number: u32,
    pub command: Command,
}

/// An accepted script: its declarations, and its actions in order.
#[derive(Debug, Drop)]
pub struct Script {
    pub declared: Declared,
    pub lines: Vec<Line>,
}
