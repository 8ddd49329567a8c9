//! The numbers of an image, as lists.

ghost use Rattle.std.specs.Prelude.{◌≡◌, ◌+◌, ◌++◌, ◌∷◌, [], length, OnOk};
ghost use Rattle.check_format.specs.Numbers.{variables_in};

use amr_num::OutOfMemory;
use std::alloc::Global;

/// How many numbers there are.
#[derive(Clone, Copy, Debug, PartialEq, Eq)]
pub struct Counts {
    /// Cell variables.
    pub variables: usize,
    /// Cells of all leaves.
    pub cells: usize,
    /// Faces with a number, 0 where no face variable is declared.
    pub faces: usize,
    /// Edges with a number, 0 where no edge variable is declared.
    pub edges: usize,
}

/// The numbers of the cell variables.
#[derive(Drop)]
pub struct Variables {
    /// What flowed out of each.
    pub outs: Vec<i128>,
    /// The contents of each, in the order of the image.
    pub cells: Vec<Vec<i64>>,
}

/// All numbers of an image.
#[derive(Drop)]
pub struct Values {
    pub variables: Variables,
    pub faces: Vec<i64>,
    pub edges: Vec<i64>,
}

/// Adds an item behind the others of a list.
pub fn push<T: Drop>(list: &mut Vec<T>, item: T) -> Result<(), OutOfMemory>
    ensures { OnOk result (list.new.items ≡ list.old.items ++ item ∷ []) }
{
    match list.push(item) {
        Ok(()) => Ok(()),
        Err(_) => Err(OutOfMemory),
    }
}

impl Variables {
    /// No variables.
    pub fn new(alloc: Global) -> Variables
        ensures none { variables_in result ≡ [] }
        ensures outs { length result.outs.items ≡ 0 }
        ensures cells { length result.cells.items ≡ 0 }
    {
        Variables {
            outs: Vec::new(alloc),
            cells: Vec::new(alloc),
        }
    }

    /// Adds a variable.
    pub fn add(&mut self, out: i128, contents: Vec<i64>) -> Result<(), OutOfMemory>
        requires { length self.old.cells.items ≡ length self.old.outs.items }
        ensures added { OnOk result (variables_in self.new ≡ variables_in self.old ++ (out, contents.items) ∷ []) }
        ensures outs { OnOk result (length self.new.outs.items ≡ length self.old.outs.items + 1) }
        ensures cells { OnOk result (length self.new.cells.items ≡ length self.old.cells.items + 1) }
    {
        push(&mut self.outs, out)?;
        push(&mut self.cells, contents)?;
        Ok(())
    }
}
