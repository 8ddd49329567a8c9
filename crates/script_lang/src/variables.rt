//! Variables by their names.

ghost use Rattle.std.specs.Prelude.{◌≡◌, ◌≤◌, true, false, Ok, Err, length, IfOk, MatchResult, OnOk};
ghost use Rattle.std.specs.Option.{option_copied};
ghost use Rattle.mesh_model.specs.Fields.VariableNames.{longest_name};
ghost use Rattle.mesh_model.specs.Language.Forms as form;
ghost use Rattle.mesh_model.specs.Language.Words.{is_name};

use mesh_model::Group;
use mesh_model::language::names::Names;
use mesh_model::language::script::Reason;
use mesh_model::language::words::is_name;

/// The number of the cell variable with this name.
fn find_cell(names: &Names, name: &[u8]) -> Option<u32>
    ensures { result ≡ form.cell_named names.now name.now }
{
    for v in 0..names.cells() {
        if names.cell(v).as_bytes() == name {
            return Some(v);
        }
    }
    None
}

/// Whether the name is there, and is this word.
fn is_named(name: Option<&str>, word: &[u8]) -> bool
    ensures { result ≡ form.is_named (option_copied name.entry) word.now }
{
    match name {
        Some(name) => name.as_bytes() == word,
        None => false,
    }
}

/// The cell variable that the word names.
#[tactic(auto, unfolding(mesh_model::specs::Language::Forms::cell_variable))]
pub fn cell_variable(names: &Names, word: &[u8]) -> Result<u32, Reason>
    ensures { result ≡ form.cell_variable names.now word.now }
{
    find_cell(names, word).ok_or(Reason::UnknownVariable)
}

#[tactic(auto, unfolding(mesh_model::specs::Language::Forms::variable_named))]
fn find(names: &Names, word: &[u8]) -> Option<Group>
    ensures { result ≡ form.variable_named names.now word.now }
{
    if is_named(names.face(), word) {
        return Some(Group::Face);
    }
    if is_named(names.edge(), word) {
        return Some(Group::Edge);
    }
    match find_cell(names, word) {
        Some(v) => Some(Group::Cell(v)),
        None => None,
    }
}

/// The variable that the word names.
#[tactic(auto, unfolding(mesh_model::specs::Language::Forms::variable))]
pub fn variable(names: &Names, word: &[u8]) -> Result<Group, Reason>
    ensures { result ≡ form.variable names.now word.now }
{
    find(names, word).ok_or(Reason::UnknownVariable)
}

#[tactic(auto, unfolding(mesh_model::specs::Language::Forms::is_taken))]
fn is_taken(names: &Names, word: &[u8]) -> bool
    ensures { result ≡ form.is_taken names.now word.now }
{
    find_cell(names, word).is_some() || is_named(names.face(), word) || is_named(names.edge(), word)
}

/// The name as text.
fn text_of(name: &[u8]) -> &str
    requires { is_name name.now ≡ true }
    ensures text { result.now ≡ name.now }
    ensures short { length result.now ≤ longest_name }
{
    match str::from_utf8(name) {
        Ok(text) => text,
        Err(_) => unreachable!(),
    }
}

/// The word as the name of a further variable, where `full` says that none of its kind may come.
#[tactic(auto, unfolding(mesh_model::specs::Language::Forms::new_name))]
pub fn new_name<'a>(names: &Names, full: bool, word: &'a [u8]) -> Result<&'a str, Reason>
    ensures name { MatchResult result (λ s. form.new_name names.now full word.now ≡ Ok s.now) (λ e. form.new_name names.now full word.now ≡ Err e) }
    ensures room { OnOk result (full ≡ false) }
    ensures short { IfOk result (λ s. length s.now ≤ longest_name) }
{
    if !is_name(word) {
        return Err(Reason::BadName);
    }
    if is_taken(names, word) {
        return Err(Reason::NameTaken);
    }
    if full {
        return Err(Reason::TooMany);
    }
    Ok(text_of(word))
}
