//! The names of the variables.

ghost use Rattle.std.specs.Prelude.{◌≡◌, ℕ, ◌<◌, ◌≤◌, List, [], ◌∷◌, ◌++◌, length, map, slice_get, IfOk, IfSome, OnOk, OnErr, Option, Some, None};
ghost use Rattle.std.specs.Option.{option_copied, option_map};
ghost use Rattle.mesh_model.specs.Fields.VariableNames.{longest_name, most_cell_variables, no_names};

use amr_num::OutOfMemory;
use std::alloc::Global;
use std::marker::Model;

/// The most cell variables that a mesh has.
pub const CELL_VARIABLES: u32 = 4;

/// The names of a mesh's variables: up to four cell variables, in declared order, and the face and the
/// edge variable where they are declared.
#[derive(Debug, Drop)]
pub struct Names {
    cells: Vec<String>,
    face: Option<String>,
    edge: Option<String>,
}

impl Model for Names {
    ghost use Rattle.std.specs.Prelude.{◌≤◌, All, IfSome, length, map, string_bytes};
    ghost use Rattle.std.specs.Option.{option_map};
    ghost use Rattle.mesh_model.specs.Fields.VariableNames.{VariableNames, longest_name, most_cell_variables};

    ghost Value = { VariableNames };

    ghost view = { λ n. record { cells = map (λ s. string_bytes s) n.cells.items; face = option_map (λ s. string_bytes s) n.face; edge = option_map (λ s. string_bytes s) n.edge } };

    ghost invariant = { λ n. (length n.cells.items ≤ most_cell_variables) × All (λ s. length (string_bytes s) ≤ longest_name) n.cells.items × IfSome n.face (λ s. length (string_bytes s) ≤ longest_name) × IfSome n.edge (λ s. length (string_bytes s) ≤ longest_name) };
}

impl Names {
    /// No names yet.
    pub fn new(alloc: Global) -> Names
        ensures { result ≡ no_names }
    {
        Names {
            cells: Vec::new(alloc),
            face: None,
            edge: None,
        }
    }

    /// How many cell variables there are.
    pub fn cells(&self) -> u32
        ensures count { result ≡ length self.now.cells }
        ensures few { result ≤ most_cell_variables }
    {
        self.cells.len() as u32
    }

    /// The name of the cell variable `v`.
    pub fn cell(&self, v: u32) -> &str
        requires { v < length self.now.cells }
        ensures name { slice_get self.now.cells v ≡ Some result.now }
        ensures short { length result.now ≤ longest_name }
    {
        self.cells[v as usize].as_str()
    }

    /// The name of the face variable: `None` exactly where none is declared.
    pub fn face(&self) -> Option<&str>
        ensures name { option_copied result ≡ self.now.face }
        ensures short { IfSome result (λ name. length name.now ≤ longest_name) }
    {
        match &self.face {
            Some(name) => Some(name.as_str()),
            None => None,
        }
    }

    /// The name of the edge variable: `None` exactly where none is declared.
    pub fn edge(&self) -> Option<&str>
        ensures name { option_copied result ≡ self.now.edge }
        ensures short { IfSome result (λ name. length name.now ≤ longest_name) }
    {
        match &self.edge {
            Some(name) => Some(name.as_str()),
            None => None,
        }
    }

    /// The same names, kept on their own.
    pub fn try_clone(&self, alloc: Global) -> Result<Names, OutOfMemory>
        ensures { IfOk result (λ names. names ≡ self.now) }
    {
        let mut names = Names::new(alloc);
        for v in 0..self.cells() {
            names.add_cell(alloc, self.cell(v))?;
        }
        if let Some(name) = self.face() {
            names.set_face(alloc, name)?;
        }
        if let Some(name) = self.edge() {
            names.set_edge(alloc, name)?;
        }
        Ok(names)
    }

    /// Declares the cell variable `name`, after those before.
    pub fn add_cell(&mut self, alloc: Global, name: &str) -> Result<(), OutOfMemory>
        requires room { length self.old.cells < most_cell_variables }
        requires short { length name.now ≤ longest_name }
        ensures ok { OnOk result (self.new ≡ record self.old { cells = self.old.cells ++ name.now ∷ [] }) }
        ensures err { OnErr result (self.new ≡ self.old) }
    {
        let name = match String::from_str(alloc, name) {
            Ok(name) => name,
            Err(_) => return Err(OutOfMemory),
        };
        match self.cells.push(name) {
            Ok(()) => Ok(()),
            Err(_) => Err(OutOfMemory),
        }
    }

    /// Declares the face variable `name`.
    pub fn set_face(&mut self, alloc: Global, name: &str) -> Result<(), OutOfMemory>
        requires { length name.now ≤ longest_name }
        ensures ok { OnOk result (self.new ≡ record self.old { face = Some name.now }) }
        ensures err { OnErr result (self.new ≡ self.old) }
    {
        match String::from_str(alloc, name) {
            Ok(name) => {
                self.face = Some(name);
                Ok(())
            }
            Err(_) => Err(OutOfMemory),
        }
    }

    /// Declares the edge variable `name`.
    pub fn set_edge(&mut self, alloc: Global, name: &str) -> Result<(), OutOfMemory>
        requires { length name.now ≤ longest_name }
        ensures ok { OnOk result (self.new ≡ record self.old { edge = Some name.now }) }
        ensures err { OnErr result (self.new ≡ self.old) }
    {
        match String::from_str(alloc, name) {
            Ok(name) => {
                self.edge = Some(name);
                Ok(())
            }
            Err(_) => Err(OutOfMemory),
        }
    }
}
