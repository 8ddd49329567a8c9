//! The sample script of a seed.

ghost use Rattle.mesh_model.specs.Language.Sample as plain;
ghost use Rattle.std.specs.Prelude.{◌≡◌, ◌+◌, ◌<◌, ◌++◌, IfOk, OnOk, string_bytes};

use std::alloc::{AllocError, Global};

/// How many values a draw may have.
const DRAW_VALUES: u32 = 65537;

/// The draws of a seed, one after another.
#[derive(Drop)]
struct Draws {
    /// The last draw, and the remainder of the seed before the first.
    last: u32,
    ghost in_range: { last < 65537 },
}

impl Draws {
    /// The draws of a seed, from the first on.
    fn of_seed(seed: u32) -> Draws
        ensures { result.last ≡ plain.draw seed 0 }
    {
        Draws {
            last: seed % DRAW_VALUES,
        }
    }

    /// The next draw.
    fn next(&mut self) -> u32
        ensures value { result ≡ self.new.last }
        ensures last { self.new.last ≡ plain.draw self.old.last 1 }
    {
        self.last = (75 * self.last + 74) % DRAW_VALUES;
        self.last
    }

    /// The next draw as the coordinate of a box's low cell.
    fn next_corner(&mut self) -> u32
        ensures value { result ≡ plain.corner self.new.last }
        ensures last { self.new.last ≡ plain.draw self.old.last 1 }
    {
        self.next() % 28
    }

    /// The next draw as the position of an edge.
    fn next_position(&mut self) -> u32
        ensures value { result ≡ plain.position self.new.last }
        ensures last { self.new.last ≡ plain.draw self.old.last 1 }
    {
        8 + self.next() % 16
    }

    /// The next draw as what a cell or a loop holds.
    fn next_content(&mut self) -> u32
        ensures value { result ≡ 1000 + self.new.last }
        ensures last { self.new.last ≡ plain.draw self.old.last 1 }
    {
        1000 + self.next()
    }

    /// The next draw as a speed.
    fn next_speed(&mut self) -> i32
        ensures value { result ≡ plain.speed self.new.last }
        ensures last { self.new.last ≡ plain.draw self.old.last 1 }
    {
        (self.next() % 60001) as i32 - 30000
    }
}

/// The lines that declare: the mesh of every sample script, and its variables.
const DECLARATIONS: &str =
    "domain 4 4 4\ncells 8 2\nbounds periodic periodic outflow outflow closed closed\nlevels 0 3\ncellvar u\nfacevar b\nedgevar e\n";

/// Adds the line that fills a box of four cells along each axis, whose low cell has these
/// coordinates.
fn push_box(text: &mut String, a: u32, b: u32, c: u32, content: u32) -> Result<(), AllocError>
    requires a { a < 28 }
    requires b { b < 28 }
    requires c { c < 28 }
    ensures { OnOk result (string_bytes text.new ≡ string_bytes text.old ++ plain.box a b c content) }
{
    write!(
        text,
        "fill u box 0 {a} {b} {c} {} {} {} {content}\n",
        a + 4,
        b + 4,
        c + 4
    )
}

/// Adds the lines that lay a loop of the face variable round an edge.
fn push_loop(text: &mut String, p: u32, q: u32, value: u32) -> Result<(), AllocError>
    ensures { OnOk result (string_bytes text.new ≡ string_bytes text.old ++ plain.loop p q value) }
{
    write!(text, "edgeset z 0 {p} {q} 5 {value}\ncurl\n")
}

/// Adds the box and the loop, by the next seven draws.
fn push_start(text: &mut String, draws: &mut Draws) -> Result<(), AllocError>
    ensures text { OnOk result (string_bytes text.new ≡ string_bytes text.old ++ plain.start draws.old.last) }
    ensures draws { OnOk result (draws.new.last ≡ plain.draw draws.old.last 7) }
{
    let a = draws.next_corner();
    let b = draws.next_corner();
    let c = draws.next_corner();
    let content = draws.next_content();
    push_box(text, a, b, c, content)?;
    let p = draws.next_position();
    let q = draws.next_position();
    let value = draws.next_content();
    push_loop(text, p, q, value)
}

/// Adds a round: refinement where a content is above the threshold, the two steps with these
/// speeds, reports, and merging.
fn push_round(text: &mut String, threshold: u32, x: i32, y: i32, z: i32) -> Result<(), AllocError>
    ensures { OnOk result (string_bytes text.new ≡ string_bytes text.old ++ plain.round threshold x y z) }
{
    write!(
        text,
        "mark refine where u above {threshold}\nregrid\nadvect u {x} {y} {z}\ninduct {x} {y} {z}\ntotal u\nnetflux\nprint size\nmark derefine where u below 1\nregrid\n"
    )
}

/// Adds a round whose speeds are the next three draws.
fn push_next_round(text: &mut String, threshold: u32, draws: &mut Draws) -> Result<(), AllocError>
    ensures text { OnOk result (string_bytes text.new ≡ string_bytes text.old ++ plain.round_after threshold draws.old.last 0) }
    ensures draws { OnOk result (draws.new.last ≡ plain.draw draws.old.last 3) }
{
    let x = draws.next_speed();
    let y = draws.next_speed();
    let z = draws.next_speed();
    push_round(text, threshold, x, y, z)
}

/// The sample script of a seed: a box and a magnetic loop that are carried over a refined mesh, in
/// three rounds with ever lower thresholds of refinement.
pub fn sample(alloc: Global, seed: u32) -> Result<Vec<u8>, AllocError>
    ensures { IfOk result (λ bytes. bytes.items ≡ plain.sample seed) }
{
    let mut draws = Draws::of_seed(seed);
    let mut text = String::from_str(alloc, DECLARATIONS)?;
    push_start(&mut text, &mut draws)?;
    push_next_round(&mut text, 800, &mut draws)?;
    push_next_round(&mut text, 100, &mut draws)?;
    push_next_round(&mut text, 12, &mut draws)?;
    text.push_str("end\n")?;
    Ok(text.into_bytes())
}

#[cfg(test)]
mod tests;
