//! The lines that declare: their words after the first, from left to right.

ghost use Rattle.std.specs.Prelude.{◌≡◌, ◌∷◌, [], ◌++◌, ◌<◌, ◌≤◌, length, Some, Ok, Err, MatchResult, IfOk, OnOk};
ghost use Rattle.mesh_model.specs.Fields.VariableNames.{longest_name, most_cell_variables};
ghost use Rattle.mesh_model.specs.Geometry.Coordinates.{is_periodic_kind};
ghost use Rattle.mesh_model.specs.Language.Declarations as plain;
ghost use Rattle.script_lang.specs.Answers.{texts, IsNarrow};

use crate::variables::new_name;
use crate::words::{count, level, one_of, side, word};
use amr_num::SideKind;
use mesh_model::Shape;
use mesh_model::language::names::{CELL_VARIABLES, Names};
use mesh_model::language::script::Reason;

/// `domain RX RY RZ`
#[tactic(auto, unfolding(mesh_model::specs::Language::Declarations::domain))]
pub fn domain(shape: Shape, words: &[&[u8]]) -> Result<Shape, Reason>
    requires words { length words.now ≡ 4 }
    requires narrow { IsNarrow shape }
    ensures domain { result ≡ plain.domain shape (texts words.now) }
    ensures narrow { IfOk result IsNarrow }
{
    let rx = count(word(words, 1), 1, 8)?;
    let ry = count(word(words, 2), 1, 8)?;
    let rz = count(word(words, 3), 1, 8)?;
    Ok(Shape {
        rx,
        ry,
        rz,
        ..shape
    })
}

/// `cells N G`
#[tactic(auto, unfolding(mesh_model::specs::Language::Declarations::cells))]
pub fn cells(shape: Shape, words: &[&[u8]]) -> Result<Shape, Reason>
    requires words { length words.now ≡ 3 }
    requires narrow { IsNarrow shape }
    ensures cells { result ≡ plain.cells shape (texts words.now) }
    ensures narrow { IfOk result IsNarrow }
{
    let n = one_of(word(words, 1), &[4, 8])?;
    let g = one_of(word(words, 2), &[1, 2, 4])?;
    Ok(Shape { n, g, ..shape })
}

fn is_periodic(side: SideKind) -> bool
    ensures { result ≡ is_periodic_kind side }
{
    match side {
        SideKind::Periodic => true,
        SideKind::Outflow | SideKind::Closed => false,
    }
}

/// Whether both sides of an axis are periodic, or none is.
fn are_paired(low: SideKind, high: SideKind) -> bool
    ensures { result ≡ plain.are_paired low high }
{
    if is_periodic(low) {
        is_periodic(high)
    } else {
        !is_periodic(high)
    }
}

/// `bounds XL XH YL YH ZL ZH`
#[tactic(auto, unfolding(mesh_model::specs::Language::Declarations::bounds))]
pub fn bounds(shape: Shape, words: &[&[u8]]) -> Result<Shape, Reason>
    requires words { length words.now ≡ 7 }
    requires narrow { IsNarrow shape }
    ensures bounds { result ≡ plain.bounds shape (texts words.now) }
    ensures narrow { IfOk result IsNarrow }
{
    let xl = side(word(words, 1))?;
    let xh = side(word(words, 2))?;
    let yl = side(word(words, 3))?;
    let yh = side(word(words, 4))?;
    let zl = side(word(words, 5))?;
    let zh = side(word(words, 6))?;
    if are_paired(xl, xh) && are_paired(yl, yh) && are_paired(zl, zh) {
        let sides = [xl, xh, yl, yh, zl, zh];
        Ok(Shape { sides, ..shape })
    } else {
        Err(Reason::Unpaired)
    }
}

/// `levels MIN MAX`
#[tactic(auto, unfolding(mesh_model::specs::Language::Declarations::levels))]
pub fn levels(shape: Shape, words: &[&[u8]]) -> Result<Shape, Reason>
    requires words { length words.now ≡ 3 }
    requires narrow { IsNarrow shape }
    ensures levels { result ≡ plain.levels shape (texts words.now) }
    ensures narrow { IfOk result IsNarrow }
{
    let min = level(word(words, 1))?;
    let max = level(word(words, 2))?;
    if min > max {
        return Err(Reason::OutOfRange);
    }
    Ok(Shape { min, max, ..shape })
}

/// `cellvar NAME`
#[tactic(auto, unfolding(mesh_model::specs::Language::Declarations::cellvar))]
pub fn cellvar<'a>(names: &Names, words: &[&'a [u8]]) -> Result<&'a str, Reason>
    requires { length words.now ≡ 2 }
    ensures name { MatchResult result (λ s. plain.cellvar names.now (texts words.now) ≡ Ok (record names.now { cells = names.now.cells ++ s.now ∷ [] })) (λ e. plain.cellvar names.now (texts words.now) ≡ Err e) }
    ensures room { OnOk result (length names.now.cells < most_cell_variables) }
    ensures short { IfOk result (λ s. length s.now ≤ longest_name) }
{
    let full = names.cells() >= CELL_VARIABLES;
    new_name(names, full, word(words, 1))
}

/// `facevar NAME`
#[tactic(auto, unfolding(mesh_model::specs::Language::Declarations::facevar))]
pub fn facevar<'a>(names: &Names, words: &[&'a [u8]]) -> Result<&'a str, Reason>
    requires { length words.now ≡ 2 }
    ensures name { MatchResult result (λ s. plain.facevar names.now (texts words.now) ≡ Ok (record names.now { face = Some s.now })) (λ e. plain.facevar names.now (texts words.now) ≡ Err e) }
    ensures short { IfOk result (λ s. length s.now ≤ longest_name) }
{
    new_name(names, names.face().is_some(), word(words, 1))
}

/// `edgevar NAME`
#[tactic(auto, unfolding(mesh_model::specs::Language::Declarations::edgevar))]
pub fn edgevar<'a>(names: &Names, words: &[&'a [u8]]) -> Result<&'a str, Reason>
    requires { length words.now ≡ 2 }
    ensures name { MatchResult result (λ s. plain.edgevar names.now (texts words.now) ≡ Ok (record names.now { edge = Some s.now })) (λ e. plain.edgevar names.now (texts words.now) ≡ Err e) }
    ensures short { IfOk result (λ s. length s.now ≤ longest_name) }
{
    new_name(names, names.edge().is_some(), word(words, 1))
}
