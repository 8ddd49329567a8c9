//! The line of a command that the mesh refuses.

ghost use Rattle.amr_program.specs.Lines.{more_words};
ghost use Rattle.mesh_model.specs.Run.StopTexts as plain;
ghost use Rattle.mesh_model.specs.Run.StopTexts.{refusal_words, spot_words};
ghost use Rattle.mesh_model.specs.Run.Texts as texts;
ghost use Rattle.std.specs.Fmt.{signed_decimal};
ghost use Rattle.std.specs.Prelude.{◌≡◌, ◌+◌, ◌≤◌, [], ◌∷◌, ◌++◌, decimal, length, map};

use amr_report::{Line, axis_name};
use mesh_model::language::names::Names;
use mesh_model::run::stops::Refusal;
use mesh_model::{Group, Spot};

/// The name of a group's variable, which is empty where there is none.
fn group_name(names: &Names, group: Group) -> &str
    ensures name { result.now ≡ texts.group_name names.now group }
    ensures short { length result.now ≤ 16 }
{
    match group {
        Group::Cell(var) => {
            if var < names.cells() {
                names.cell(var)
            } else {
                ""
            }
        }
        Group::Face => names.face().unwrap_or(""),
        Group::Edge => names.edge().unwrap_or(""),
    }
}

/// Adds a level and three coordinates.
fn push_place(text: &mut Line, level: u32, x: u32, y: u32, z: u32)
    requires { length text.old ≤ 256 }
    ensures text { text.new ≡ text.old ++ more_words (decimal level ∷ decimal x ∷ decimal y ∷ decimal z ∷ []) }
    ensures short { length text.new ≤ length text.old + 44 }
{
    text.push_number(level);
    text.push_number(x);
    text.push_number(y);
    text.push_number(z);
}

/// Adds the place at which a number stands.
fn push_spot(text: &mut Line, spot: Spot)
    requires { length text.old ≤ 200 }
    ensures text { text.new ≡ text.old ++ more_words (spot_words spot) }
    ensures short { length text.new ≤ length text.old + 51 }
{
    match spot {
        Spot::Cell(at) => {
            text.push_word("cell");
            push_place(text, at.level, at.x, at.y, at.z);
        }
        Spot::Face(at) => {
            text.push_word("face");
            text.push_word(axis_name(at.axis));
            push_place(text, at.level, at.x, at.y, at.z);
        }
        Spot::Edge(at) => {
            text.push_word("edge");
            text.push_word(axis_name(at.axis));
            push_place(text, at.level, at.x, at.y, at.z);
        }
        Spot::Out => text.push_word("out"),
    }
}

/// Adds up to three numbers.
fn push_numbers(text: &mut Line, numbers: &[i64])
    requires room { length text.old ≤ 256 }
    requires few { length numbers.now ≤ 3 }
    ensures text { text.new ≡ text.old ++ more_words (map signed_decimal numbers.now) }
    ensures short { length text.new ≤ length text.old + 63 }
{
    for number in numbers {
        text.push_number(*number);
    }
}

/// Adds why a command is refused.
fn push_refusal(text: &mut Line, names: &Names, why: Refusal)
    requires { length text.old ≤ 100 }
    ensures text { text.new ≡ text.old ++ more_words (refusal_words names.now why) }
    ensures short { length text.new ≤ length text.old + 200 }
{
    match why {
        Refusal::Range(stop) => {
            text.push_word("range");
            text.push_word(group_name(names, stop.var));
            push_spot(text, stop.spot);
            text.push_number(stop.value);
        }
        Refusal::Courant(speeds) => {
            text.push_word("courant");
            push_numbers(text, &speeds);
        }
        Refusal::Level(stop) => {
            text.push_word("level");
            text.push_number(stop.level);
            text.push_word("limit");
            text.push_number(stop.limit);
        }
        Refusal::Place(spot) => {
            text.push_word("place");
            push_spot(text, spot);
        }
        Refusal::PlaceBlock(at) => {
            text.push_word("place");
            text.push_word("block");
            push_place(text, at.level, at.x, at.y, at.z);
        }
        Refusal::Blocks(count) => {
            text.push_word("blocks");
            text.push_number(count);
        }
    }
}

/// The line that a run ends with where the command of a line is refused.
pub fn stop_text(names: &Names, line: u32, why: Refusal) -> Line
    ensures { result ≡ plain.stop_line names.now line why }
{
    let mut text = Line::begin("error:");
    text.push_word("line");
    text.push_number(line);
    text.push_text(":");
    push_refusal(&mut text, names, why);
    text.end();
    text
}
