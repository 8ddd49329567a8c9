//! Reading a script, line by line.

ghost use Rattle.std.specs.Prelude.{◌≡◌, ℕ, ◌<◌, ◌≤◌, ◌^◌, ◌-◌, true, false, length, IfOk, IfErr, IfSome, Option, Ok, Err, All};
ghost use Rattle.std.specs.Option.{option_copied};
ghost use Rattle.mesh_model.specs.Language.Grammar as grammar;
ghost use Rattle.mesh_model.specs.Language.Grammar.{script_of};
ghost use Rattle.mesh_model.specs.Language.Words as plain;
ghost use Rattle.mesh_model.specs.Language.Commands.{plain_script, InLimits, IsLineOf};
ghost use Rattle.script_lang.specs.Answers.{texts, Answers, Adds, Stopped, Halts, IsNarrow};

use crate::actions::{advect, edgeset, faceset, fill, induct, mark, print, total, uniform};
use crate::declarations::{bounds, cells, cellvar, domain, edgevar, facevar, levels};
use crate::words::{lines_of, word, words_of};
use amr_num::{OutOfMemory, SideKind};
use mesh_model::Shape;
use mesh_model::language::names::Names;
use mesh_model::language::script::{
    Action, Command, Declaration, Declared, Keyword, Line, Reading, Reason, Script,
};
use std::alloc::{AllocError, Global};

/// Why no script was read.
#[derive(Clone, Copy, Debug, PartialEq, Eq)]
pub enum ScriptStop {
    /// The first fault: the number of its line, from 1, and why it is refused. Line 0 stands for the
    /// whole script.
    Fault { line: u32, reason: Reason },
    /// Memory was refused.
    OutOfMemory,
}

impl From<AllocError> for ScriptStop {
    ghost use Rattle.script_lang.specs.declared.reader.ScriptStop.TheVariants.{OutOfMemory};

    ghost from_gives = { λ _ stop. stop ≡ OutOfMemory };

    fn from(_: AllocError) -> Self {
        ScriptStop::OutOfMemory
    }
}

impl From<OutOfMemory> for ScriptStop {
    ghost use Rattle.script_lang.specs.declared.reader.ScriptStop.TheVariants as ends;

    ghost from_gives = { λ _ stop. stop ≡ ends.OutOfMemory };

    fn from(_: OutOfMemory) -> Self {
        ScriptStop::OutOfMemory
    }
}

/// What stops the reading of a line.
#[derive(Clone, Copy, Debug, PartialEq, Eq)]
enum Stop {
    Fault(Reason),
    OutOfMemory,
}

impl From<Reason> for Stop {
    ghost use Rattle.script_lang.specs.declared.reader.Stop.TheVariants.{Fault as Faulty};

    ghost from_gives = { λ reason stop. stop ≡ Faulty reason };

    fn from(reason: Reason) -> Self {
        Stop::Fault(reason)
    }
}

impl From<OutOfMemory> for Stop {
    ghost use Rattle.script_lang.specs.declared.reader.Stop.TheVariants as ends;

    ghost from_gives = { λ _ stop. stop ≡ ends.OutOfMemory };

    fn from(_: OutOfMemory) -> Self {
        Stop::OutOfMemory
    }
}

impl From<AllocError> for Stop {
    ghost use Rattle.script_lang.specs.declared.reader.Stop.TheVariants.{OutOfMemory};

    ghost from_gives = { λ _ stop. stop ≡ OutOfMemory };

    fn from(_: AllocError) -> Self {
        Stop::OutOfMemory
    }
}

#[tactic(auto, unfolding(mesh_model::specs::Language::Grammar::declaration_of))]
fn declaration_of(word: &[u8]) -> Option<Declaration>
    ensures { result ≡ grammar.declaration_of word.now }
{
    if word == b"domain".as_slice() {
        return Some(Declaration::Domain);
    }
    if word == b"cells".as_slice() {
        return Some(Declaration::Cells);
    }
    if word == b"bounds".as_slice() {
        return Some(Declaration::Bounds);
    }
    if word == b"levels".as_slice() {
        return Some(Declaration::Levels);
    }
    if word == b"cellvar".as_slice() {
        return Some(Declaration::CellVar);
    }
    if word == b"facevar".as_slice() {
        return Some(Declaration::FaceVar);
    }
    if word == b"edgevar".as_slice() {
        return Some(Declaration::EdgeVar);
    }
    None
}

#[tactic(auto, unfolding(mesh_model::specs::Language::Grammar::setting_of))]
fn setting_of(word: &[u8]) -> Option<Action>
    ensures { result ≡ grammar.setting_of word.now }
{
    if word == b"fill".as_slice() {
        return Some(Action::Fill);
    }
    if word == b"faceset".as_slice() {
        return Some(Action::FaceSet);
    }
    if word == b"edgeset".as_slice() {
        return Some(Action::EdgeSet);
    }
    if word == b"uniform".as_slice() {
        return Some(Action::Uniform);
    }
    if word == b"mark".as_slice() {
        return Some(Action::Mark);
    }
    None
}

#[tactic(auto, unfolding(mesh_model::specs::Language::Grammar::step_of))]
fn step_of(word: &[u8]) -> Option<Action>
    ensures { result ≡ grammar.step_of word.now }
{
    if word == b"regrid".as_slice() {
        return Some(Action::Regrid);
    }
    if word == b"advect".as_slice() {
        return Some(Action::Advect);
    }
    if word == b"curl".as_slice() {
        return Some(Action::Curl);
    }
    if word == b"induct".as_slice() {
        return Some(Action::Induct);
    }
    if word == b"checkpoint".as_slice() {
        return Some(Action::Checkpoint);
    }
    None
}

#[tactic(auto, unfolding(mesh_model::specs::Language::Grammar::report_of))]
fn report_of(word: &[u8]) -> Option<Action>
    ensures { result ≡ grammar.report_of word.now }
{
    if word == b"print".as_slice() {
        return Some(Action::Print);
    }
    if word == b"total".as_slice() {
        return Some(Action::Total);
    }
    if word == b"netflux".as_slice() {
        return Some(Action::NetFlux);
    }
    None
}

fn action_of(word: &[u8]) -> Option<Action>
    ensures { result ≡ grammar.action_of word.now }
{
    setting_of(word).or(step_of(word)).or(report_of(word))
}

#[tactic(auto, unfolding(mesh_model::specs::Language::Grammar::keyword_of))]
fn keyword_of(word: &[u8]) -> Option<Keyword>
    ensures { result ≡ grammar.keyword_of word.now }
{
    if let Some(declaration) = declaration_of(word) {
        return Some(Keyword::Declares(declaration));
    }
    if let Some(action) = action_of(word) {
        return Some(Keyword::Acts(action));
    }
    if word == b"end".as_slice() {
        return Some(Keyword::Ends);
    }
    None
}

fn declaration_has(declaration: Declaration, n: usize) -> bool
    ensures { result ≡ grammar.declaration_has declaration n }
{
    match declaration {
        Declaration::Domain => n == 4,
        Declaration::Cells => n == 3,
        Declaration::Bounds => n == 7,
        Declaration::Levels => n == 3,
        Declaration::CellVar => n == 2,
        Declaration::FaceVar => n == 2,
        Declaration::EdgeVar => n == 2,
    }
}

fn action_has(action: Action, n: usize) -> bool
    ensures { result ≡ grammar.action_has action n }
{
    match action {
        Action::Fill => n == 4 || n == 11,
        Action::FaceSet => n == 7,
        Action::EdgeSet => n == 7,
        Action::Uniform => n == 4,
        Action::Mark => n == 6,
        Action::Regrid => n == 1,
        Action::Advect => n == 5,
        Action::Curl => n == 1,
        Action::Induct => n == 4,
        Action::Checkpoint => n == 1,
        Action::Print => n == 2 || n == 7,
        Action::Total => n == 2,
        Action::NetFlux => n == 1,
    }
}

/// Whether the line may have `n` words, with the first.
fn has_count(keyword: Keyword, n: usize) -> bool
    ensures { result ≡ grammar.has_count keyword n }
{
    match keyword {
        Keyword::Declares(declaration) => declaration_has(declaration, n),
        Keyword::Acts(action) => action_has(action, n),
        Keyword::Ends => n == 1,
    }
}

/// Whether the line may come once, and came before.
fn comes_again(reading: &Reading, keyword: Keyword) -> bool
    ensures { result ≡ grammar.comes_again reading.now keyword }
{
    match keyword {
        Keyword::Declares(Declaration::Domain) => reading.domain,
        Keyword::Declares(Declaration::Cells) => reading.cells,
        Keyword::Declares(Declaration::Bounds) => reading.bounds,
        Keyword::Declares(Declaration::Levels) => reading.levels,
        _ => false,
    }
}

fn wants_face(action: Action) -> bool
    ensures { result ≡ grammar.wants_face action }
{
    match action {
        Action::FaceSet => true,
        Action::Uniform => true,
        Action::Curl => true,
        Action::Induct => true,
        Action::NetFlux => true,
        _ => false,
    }
}

fn wants_edge(action: Action) -> bool
    ensures { result ≡ grammar.wants_edge action }
{
    match action {
        Action::EdgeSet => true,
        Action::Curl => true,
        _ => false,
    }
}

/// Whether a variable that the line wants is not declared.
fn lacks_variable(names: &Names, keyword: Keyword) -> bool
    ensures { result ≡ grammar.lacks_variable names.now keyword }
{
    match keyword {
        Keyword::Acts(action) => {
            (wants_face(action) && names.face().is_none())
                || (wants_edge(action) && names.edge().is_none())
        }
        _ => false,
    }
}

fn is_domain(keyword: Keyword) -> bool
    ensures { result ≡ grammar.is_domain keyword }
{
    match keyword {
        Keyword::Declares(Declaration::Domain) => true,
        _ => false,
    }
}

fn is_declaration(keyword: Keyword) -> bool
    ensures { result ≡ grammar.is_declaration keyword }
{
    match keyword {
        Keyword::Declares(_) => true,
        _ => false,
    }
}

/// Whether a line of `n` words that does this may stand here.
#[tactic(auto, unfolding(mesh_model::specs::Language::Grammar::placed))]
fn placed(reading: &Reading, keyword: Keyword, n: usize) -> Result<Keyword, Reason>
    ensures placed { result ≡ grammar.placed reading.now keyword n }
    ensures counted { IfOk result (λ k. grammar.has_count k n ≡ true) }
{
    if !reading.domain && !is_domain(keyword) {
        return Err(Reason::DomainMissing);
    }
    if is_declaration(keyword) && reading.acting {
        return Err(Reason::TooLate);
    }
    if comes_again(reading, keyword) {
        return Err(Reason::Twice);
    }
    if !has_count(keyword, n) {
        return Err(Reason::WordCount);
    }
    if lacks_variable(&reading.declared.names, keyword) {
        return Err(Reason::UnknownVariable);
    }
    Ok(keyword)
}

/// What the line does, as far as its first word and the number of its words say.
#[tactic(auto, unfolding(mesh_model::specs::Language::Grammar::command_of))]
fn command_of(reading: &Reading, words: &[&[u8]]) -> Result<Keyword, Reason>
    requires { 0 < length words.now }
    ensures command { result ≡ grammar.command_of reading.now (texts words.now) }
    ensures counted { IfOk result (λ k. grammar.has_count k (length words.now) ≡ true) }
{
    if reading.ended {
        return Err(Reason::TextAfterEnd);
    }
    let keyword = keyword_of(word(words, 0)).ok_or(Reason::UnknownCommand)?;
    placed(reading, keyword, words.len())
}

/// Takes what the line declares into `reading`.
#[tactic(auto, unfolding(mesh_model::specs::Language::Grammar::declares))]
fn declare(
    alloc: Global,
    reading: &mut Reading,
    declaration: Declaration,
    words: &[&[u8]],
) -> Result<(), Stop>
    requires counted { grammar.declaration_has declaration (length words.now) ≡ true }
    requires narrow { IsNarrow reading.old.declared.shape }
    ensures declares { Answers (λ done. reading.new) result (grammar.declares reading.old declaration (texts words.now)) }
    ensures narrow { IsNarrow reading.new.declared.shape }
{
    match declaration {
        Declaration::Domain => {
            reading.declared.shape = domain(reading.declared.shape, words)?;
            reading.domain = true;
        }
        Declaration::Cells => {
            reading.declared.shape = cells(reading.declared.shape, words)?;
            reading.cells = true;
        }
        Declaration::Bounds => {
            reading.declared.shape = bounds(reading.declared.shape, words)?;
            reading.bounds = true;
        }
        Declaration::Levels => {
            reading.declared.shape = levels(reading.declared.shape, words)?;
            reading.levels = true;
        }
        Declaration::CellVar => {
            let name = cellvar(&reading.declared.names, words)?;
            reading.declared.names.add_cell(alloc, name)?;
        }
        Declaration::FaceVar => {
            let name = facevar(&reading.declared.names, words)?;
            reading.declared.names.set_face(alloc, name)?;
        }
        Declaration::EdgeVar => {
            let name = edgevar(&reading.declared.names, words)?;
            reading.declared.names.set_edge(alloc, name)?;
        }
    }
    Ok(())
}

/// The command of the line.
#[tactic(auto, unfolding(mesh_model::specs::Language::Grammar::acts))]
fn act(declared: &Declared, action: Action, words: &[&[u8]]) -> Result<Command, Reason>
    requires counted { grammar.action_has action (length words.now) ≡ true }
    requires narrow { IsNarrow declared.now.shape }
    ensures { result ≡ grammar.acts declared.now action (texts words.now) }
{
    match action {
        Action::Fill => fill(declared, words),
        Action::FaceSet => faceset(words),
        Action::EdgeSet => edgeset(words),
        Action::Uniform => uniform(words),
        Action::Mark => mark(&declared.names, words),
        Action::Regrid => Ok(Command::Regrid),
        Action::Advect => advect(&declared.names, words),
        Action::Curl => Ok(Command::Curl),
        Action::Induct => induct(words),
        Action::Checkpoint => Ok(Command::Checkpoint),
        Action::Print => print(&declared.names, words),
        Action::Total => total(&declared.names, words),
        Action::NetFlux => Ok(Command::NetFlux),
    }
}

/// Reads a line of these words, which does `keyword`.
#[tactic(auto, unfolding(mesh_model::specs::Language::Grammar::says))]
fn read_words(
    alloc: Global,
    reading: &mut Reading,
    keyword: Keyword,
    words: &[&[u8]],
) -> Result<Option<Command>, Stop>
    requires counted { grammar.has_count keyword (length words.now) ≡ true }
    requires narrow { IsNarrow reading.old.declared.shape }
    ensures says { Answers (λ command. (reading.new, command)) result (grammar.says reading.old keyword (texts words.now)) }
    ensures narrow { IsNarrow reading.new.declared.shape }
{
    match keyword {
        Keyword::Declares(declaration) => {
            declare(alloc, reading, declaration, words)?;
            Ok(None)
        }
        Keyword::Acts(action) => {
            let command = act(&reading.declared, action, words)?;
            reading.acting = true;
            Ok(Some(command))
        }
        Keyword::Ends => {
            reading.ended = true;
            Ok(None)
        }
    }
}

fn is_passed_over(words: &[&[u8]]) -> bool
    ensures { result ≡ plain.is_passed_over (texts words.now) }
{
    match words.first() {
        Some(first) => !first.is_empty() && first[0] == b'#',
        None => true,
    }
}

/// Reads a line.
#[tactic(auto, unfolding(mesh_model::specs::Language::Grammar::line_of))]
fn read_line(alloc: Global, reading: &mut Reading, line: &[u8]) -> Result<Option<Command>, Stop>
    requires narrow { IsNarrow reading.old.declared.shape }
    ensures says { Answers (λ command. (reading.new, command)) result (grammar.line_of reading.old (plain.words_of line.now)) }
    ensures narrow { IsNarrow reading.new.declared.shape }
{
    let words = words_of(alloc, line)?;
    if is_passed_over(&words) {
        return Ok(None);
    }
    let keyword = command_of(reading, &words)?;
    read_words(alloc, reading, keyword, &words)
}

/// Reads the line with this number, and adds its command to those before.
fn add_line(
    alloc: Global,
    reading: &mut Reading,
    read: &mut Vec<Line>,
    number: u32,
    line: &[u8],
) -> Result<(), ScriptStop>
    requires narrow { IsNarrow reading.old.declared.shape }
    ensures adds { IfOk result (λ done. Adds (grammar.line_of reading.old (plain.words_of line.now)) reading.new number read.old.items read.new.items) }
    ensures fault { IfErr result (λ stop. Stopped stop number (grammar.line_of reading.old (plain.words_of line.now))) }
    ensures narrow { IsNarrow reading.new.declared.shape }
{
    match read_line(alloc, reading, line) {
        Ok(None) => Ok(()),
        Ok(Some(command)) => match read.push(Line { number, command }) {
            Ok(()) => Ok(()),
            Err(_) => Err(ScriptStop::OutOfMemory),
        },
        Err(Stop::Fault(reason)) => Err(ScriptStop::Fault {
            line: number,
            reason,
        }),
        Err(Stop::OutOfMemory) => Err(ScriptStop::OutOfMemory),
    }
}

/// Reads the lines, the first of which has the number 1.
fn read_lines(
    alloc: Global,
    reading: &mut Reading,
    lines: &[&[u8]],
) -> Result<Vec<Line>, ScriptStop>
    requires few { length lines.now < 2 ^ 32 - 1 }
    requires narrow { IsNarrow reading.old.declared.shape }
    ensures says { IfOk result (λ read. grammar.lines_say reading.old 1 (texts lines.now) ≡ Ok (reading.new, read.items)) }
    ensures fault { IfErr result (λ stop. Halts stop (grammar.lines_say reading.old 1 (texts lines.now))) }
{
    let mut read = Vec::new(alloc);
    let mut number: u32 = 1;
    for line in lines {
        add_line(alloc, reading, &mut read, number, line)?;
        number += 1;
    }
    Ok(read)
}

/// The defaults of what is not declared.
fn defaults(alloc: Global) -> Declared
    ensures { result ≡ grammar.defaults }
{
    Declared {
        shape: Shape {
            rx: 1,
            ry: 1,
            rz: 1,
            n: 8,
            g: 2,
            min: 0,
            max: 3,
            sides: [SideKind::Periodic; 6],
        },
        names: Names::new(alloc),
    }
}

fn copied(alloc: Global, declared: &Declared) -> Result<Declared, OutOfMemory>
    ensures { IfOk result (λ d. d ≡ declared.now) }
{
    Ok(Declared {
        shape: declared.shape,
        names: declared.names.try_clone(alloc)?,
    })
}

/// Before the first line.
fn at_start(alloc: Global, start: Option<&Declared>) -> Result<Reading, OutOfMemory>
    requires { IfSome start (λ d. InLimits d.now) }
    ensures reading { IfOk result (λ r. r ≡ grammar.at_start (option_copied start.entry)) }
    ensures narrow { IfOk result (λ r. IsNarrow r.declared.shape) }
{
    let declared = match start {
        Some(given) => copied(alloc, given)?,
        None => defaults(alloc),
    };
    let given = start.is_some();
    Ok(Reading {
        declared,
        domain: given,
        cells: false,
        bounds: false,
        levels: false,
        acting: given,
        ended: false,
    })
}

/// The most bytes of a script.
pub const MOST_BYTES: usize = 1 << 20;

/// The script that the bytes say, or the first fault in them.
#[tactic(auto, unfolding(mesh_model::specs::Language::Grammar::script_of))]
fn read(alloc: Global, start: Option<&Declared>, bytes: &[u8]) -> Result<Script, ScriptStop>
    requires { IfSome start (λ d. InLimits d.now) }
    ensures script { IfOk result (λ s. script_of (option_copied start.entry) bytes.now ≡ Ok (plain_script s)) }
    ensures fault { IfErr result (λ stop. Halts stop (script_of (option_copied start.entry) bytes.now)) }
{
    if bytes.len() > MOST_BYTES {
        return Err(ScriptStop::Fault {
            line: 0,
            reason: Reason::TooLong,
        });
    }
    let lines = lines_of(alloc, bytes)?;
    let mut reading = at_start(alloc, start)?;
    let read = read_lines(alloc, &mut reading, &lines)?;
    let Reading {
        declared,
        ended,
        ..
    } = reading;
    if !ended {
        return Err(ScriptStop::Fault {
            line: lines.len() as u32,
            reason: Reason::EndMissing,
        });
    }
    Ok(Script {
        declared,
        lines: read,
    })
}

/// The script that the bytes say, or the first fault in them. With `start` the declarations are given,
/// and no line may declare.
pub fn read_script(
    alloc: Global,
    start: Option<&Declared>,
    bytes: &[u8],
) -> Result<Script, ScriptStop>
    requires { IfSome start (λ d. InLimits d.now) }
    ensures script { IfOk result (λ s. script_of (option_copied start.entry) bytes.now ≡ Ok (plain_script s)) }
    ensures fault { IfErr result (λ stop. Halts stop (script_of (option_copied start.entry) bytes.now)) }
    ensures limits { IfOk result (λ s. InLimits s.declared) }
    ensures lines { IfOk result (λ s. All (IsLineOf s.declared) s.lines.items) }
{
    read(alloc, start, bytes)
}

#[cfg(test)]
mod tests;
