//! The lines that act: their words after the first, from left to right.

ghost use Rattle.std.specs.Prelude.{◌≡◌, ℕ, ◌*◌, ◌^◌, ◌≤◌, ◌⊎◌, length};
ghost use Rattle.mesh_model.specs.Language.Actions as plain;
ghost use Rattle.script_lang.specs.Answers.{texts, IsNarrow};

use crate::variables::{cell_variable, variable};
use crate::words::{axis, block, fixed, leaf_number, level, numbers, point, word};
use amr_num::{EdgeAt, FaceAt};
use mesh_model::Shape;
use mesh_model::language::names::Names;
use mesh_model::language::script::{Command, Declared, Reason};

/// How many cells of `level` stand side by side on the axis.
fn extent(roots: u32, n: u32, level: u32) -> u32
    requires roots { roots ≤ 8 }
    requires n { n ≤ 8 }
    requires level { level ≤ 10 }
    ensures { result ≡ roots * n * 2 ^ level }
{
    (roots * n) << level
}

/// Whether the box begins below its end on each axis, and ends within the domain.
#[tactic(auto, unfolding(mesh_model::specs::Language::Actions::is_box))]
fn is_box(shape: &Shape, level: u32, low: &[u32; 3], high: &[u32; 3]) -> bool
    requires narrow { IsNarrow shape.now }
    requires level { level ≤ 10 }
    ensures { result ≡ plain.is_box shape.now level low.now high.now }
{
    low[0] < high[0]
        && high[0] <= extent(shape.rx, shape.n, level)
        && low[1] < high[1]
        && high[1] <= extent(shape.ry, shape.n, level)
        && low[2] < high[2]
        && high[2] <= extent(shape.rz, shape.n, level)
}

/// `fill VAR all V`
#[tactic(auto, unfolding(mesh_model::specs::Language::Actions::fill_all))]
fn fill_all(declared: &Declared, words: &[&[u8]]) -> Result<Command, Reason>
    requires { length words.now ≡ 4 }
    ensures { result ≡ plain.fill_all declared.now (texts words.now) }
{
    let var = cell_variable(&declared.names, word(words, 1))?;
    fixed(word(words, 2), b"all")?;
    let value = leaf_number(word(words, 3))?;
    Ok(Command::FillAll { var, value })
}

/// `fill VAR box L X0 Y0 Z0 X1 Y1 Z1 V`
#[tactic(auto, unfolding(mesh_model::specs::Language::Actions::fill_box))]
fn fill_box(declared: &Declared, words: &[&[u8]]) -> Result<Command, Reason>
    requires words { length words.now ≡ 11 }
    requires narrow { IsNarrow declared.now.shape }
    ensures { result ≡ plain.fill_box declared.now (texts words.now) }
{
    let var = cell_variable(&declared.names, word(words, 1))?;
    fixed(word(words, 2), b"box")?;
    let level = level(word(words, 3))?;
    let low = point(words, 4)?;
    let high = point(words, 7)?;
    let value = leaf_number(word(words, 10))?;
    if !is_box(&declared.shape, level, &low, &high) {
        return Err(Reason::BadBox);
    }
    Ok(Command::FillBox {
        var,
        level,
        low,
        high,
        value,
    })
}

/// `fill` with 4 or 11 words
#[tactic(auto, unfolding(mesh_model::specs::Language::Actions::fill))]
pub fn fill(declared: &Declared, words: &[&[u8]]) -> Result<Command, Reason>
    requires words { (length words.now ≡ 4) ⊎ (length words.now ≡ 11) }
    requires narrow { IsNarrow declared.now.shape }
    ensures { result ≡ plain.fill declared.now (texts words.now) }
{
    if words.len() == 4 {
        fill_all(declared, words)
    } else {
        fill_box(declared, words)
    }
}

/// `faceset A L X Y Z V`
#[tactic(auto, unfolding(mesh_model::specs::Language::Actions::faceset))]
pub fn faceset(words: &[&[u8]]) -> Result<Command, Reason>
    requires { length words.now ≡ 7 }
    ensures { result ≡ plain.faceset (texts words.now) }
{
    let axis = axis(word(words, 1))?;
    let block = block(words, 2)?;
    let value = leaf_number(word(words, 6))?;
    let at = FaceAt {
        axis,
        level: block.level,
        x: block.x,
        y: block.y,
        z: block.z,
    };
    Ok(Command::FaceSet { at, value })
}

/// `edgeset A L X Y Z V`
#[tactic(auto, unfolding(mesh_model::specs::Language::Actions::edgeset))]
pub fn edgeset(words: &[&[u8]]) -> Result<Command, Reason>
    requires { length words.now ≡ 7 }
    ensures { result ≡ plain.edgeset (texts words.now) }
{
    let axis = axis(word(words, 1))?;
    let block = block(words, 2)?;
    let value = leaf_number(word(words, 6))?;
    let at = EdgeAt {
        axis,
        level: block.level,
        x: block.x,
        y: block.y,
        z: block.z,
    };
    Ok(Command::EdgeSet { at, value })
}

/// `uniform BX BY BZ`
#[tactic(auto, unfolding(mesh_model::specs::Language::Actions::uniform))]
pub fn uniform(words: &[&[u8]]) -> Result<Command, Reason>
    requires { length words.now ≡ 4 }
    ensures { result ≡ plain.uniform (texts words.now) }
{
    let b = numbers(words, 1, 1 << 40)?;
    Ok(Command::Uniform { b })
}

/// `mark refine where VAR above V`
#[tactic(auto, unfolding(mesh_model::specs::Language::Actions::refine_where))]
fn refine_where(names: &Names, words: &[&[u8]]) -> Result<Command, Reason>
    requires { length words.now ≡ 6 }
    ensures { result ≡ plain.refine_where names.now (texts words.now) }
{
    let var = cell_variable(names, word(words, 3))?;
    fixed(word(words, 4), b"above")?;
    let above = leaf_number(word(words, 5))?;
    Ok(Command::RefineWhere { var, above })
}

/// `mark refine L X Y Z`
#[tactic(auto, unfolding(mesh_model::specs::Language::Actions::refine_block))]
fn refine_block(words: &[&[u8]]) -> Result<Command, Reason>
    requires { length words.now ≡ 6 }
    ensures { result ≡ plain.refine_block (texts words.now) }
{
    let at = block(words, 2)?;
    Ok(Command::MarkRefine { at })
}

/// `mark derefine where VAR below V`
#[tactic(auto, unfolding(mesh_model::specs::Language::Actions::derefine_where))]
fn derefine_where(names: &Names, words: &[&[u8]]) -> Result<Command, Reason>
    requires { length words.now ≡ 6 }
    ensures { result ≡ plain.derefine_where names.now (texts words.now) }
{
    let var = cell_variable(names, word(words, 3))?;
    fixed(word(words, 4), b"below")?;
    let below = leaf_number(word(words, 5))?;
    Ok(Command::DerefineWhere { var, below })
}

/// `mark derefine L X Y Z`
#[tactic(auto, unfolding(mesh_model::specs::Language::Actions::derefine_block))]
fn derefine_block(words: &[&[u8]]) -> Result<Command, Reason>
    requires { length words.now ≡ 6 }
    ensures { result ≡ plain.derefine_block (texts words.now) }
{
    let at = block(words, 2)?;
    Ok(Command::MarkDerefine { at })
}

/// `mark`
#[tactic(auto, unfolding(mesh_model::specs::Language::Actions::mark))]
pub fn mark(names: &Names, words: &[&[u8]]) -> Result<Command, Reason>
    requires { length words.now ≡ 6 }
    ensures { result ≡ plain.mark names.now (texts words.now) }
{
    if word(words, 1) == b"refine".as_slice() {
        if word(words, 2) == b"where".as_slice() {
            return refine_where(names, words);
        }
        return refine_block(words);
    }
    if word(words, 1) == b"derefine".as_slice() {
        if word(words, 2) == b"where".as_slice() {
            return derefine_where(names, words);
        }
        return derefine_block(words);
    }
    Err(Reason::UnknownWord)
}

/// `advect VAR NX NY NZ`
#[tactic(auto, unfolding(mesh_model::specs::Language::Actions::advect))]
pub fn advect(names: &Names, words: &[&[u8]]) -> Result<Command, Reason>
    requires { length words.now ≡ 5 }
    ensures { result ≡ plain.advect names.now (texts words.now) }
{
    let var = cell_variable(names, word(words, 1))?;
    let speeds = numbers(words, 2, 1 << 20)?;
    Ok(Command::Advect { var, speeds })
}

/// `induct NX NY NZ`
#[tactic(auto, unfolding(mesh_model::specs::Language::Actions::induct))]
pub fn induct(words: &[&[u8]]) -> Result<Command, Reason>
    requires { length words.now ≡ 4 }
    ensures { result ≡ plain.induct (texts words.now) }
{
    let speeds = numbers(words, 1, 1 << 20)?;
    Ok(Command::Induct { speeds })
}

/// `print VAR`
#[tactic(auto, unfolding(mesh_model::specs::Language::Actions::print_var))]
fn print_var(names: &Names, words: &[&[u8]]) -> Result<Command, Reason>
    requires { length words.now ≡ 2 }
    ensures { result ≡ plain.print_var names.now (texts words.now) }
{
    let group = variable(names, word(words, 1))?;
    Ok(Command::PrintVar { group })
}

/// `print` with 2 words
#[tactic(auto, unfolding(mesh_model::specs::Language::Actions::print_one))]
fn print_one(names: &Names, words: &[&[u8]]) -> Result<Command, Reason>
    requires { length words.now ≡ 2 }
    ensures { result ≡ plain.print_one names.now (texts words.now) }
{
    let what = word(words, 1);
    if what == b"size".as_slice() {
        return Ok(Command::PrintSize);
    }
    if what == b"mesh".as_slice() {
        return Ok(Command::PrintMesh);
    }
    if what == b"tree".as_slice() {
        return Ok(Command::PrintTree);
    }
    if what == b"ranks".as_slice() {
        return Ok(Command::PrintRanks);
    }
    if what == b"trace".as_slice() {
        return Ok(Command::PrintTrace);
    }
    print_var(names, words)
}

/// `print guards VAR L X Y Z`
#[tactic(auto, unfolding(mesh_model::specs::Language::Actions::print_guards))]
fn print_guards(names: &Names, words: &[&[u8]]) -> Result<Command, Reason>
    requires { length words.now ≡ 7 }
    ensures { result ≡ plain.print_guards names.now (texts words.now) }
{
    fixed(word(words, 1), b"guards")?;
    let group = variable(names, word(words, 2))?;
    let at = block(words, 3)?;
    Ok(Command::PrintGuards { group, at })
}

/// `print` with 2 or 7 words
#[tactic(auto, unfolding(mesh_model::specs::Language::Actions::print))]
pub fn print(names: &Names, words: &[&[u8]]) -> Result<Command, Reason>
    requires { (length words.now ≡ 2) ⊎ (length words.now ≡ 7) }
    ensures { result ≡ plain.print names.now (texts words.now) }
{
    if words.len() == 2 {
        print_one(names, words)
    } else {
        print_guards(names, words)
    }
}

/// `total VAR`
#[tactic(auto, unfolding(mesh_model::specs::Language::Actions::total))]
pub fn total(names: &Names, words: &[&[u8]]) -> Result<Command, Reason>
    requires { length words.now ≡ 2 }
    ensures { result ≡ plain.total names.now (texts words.now) }
{
    let var = cell_variable(names, word(words, 1))?;
    Ok(Command::Total { var })
}
