//! The arrays of a node: a head line, and then the numbers line by line.

ghost use Rattle.amr_report.specs.Arrays as arrays;
ghost use Rattle.amr_report.specs.Arrays.{AreThere, IsSmall};
ghost use Rattle.amr_report.specs.Printing.{Prints, with_words};
ghost use Rattle.amr_num.specs.declared.Axis.{Axis};
ghost use Rattle.amr_num.specs.declared.Axis.TheVariants as axis;
ghost use Rattle.mesh_model.specs.Run.Texts as texts;
ghost use Rattle.std.specs.Prelude.{◌≡◌, ◌+◌, ◌*◌, ◌<◌, ◌≤◌, length};

use crate::line::Line;
use amr_num::{Axis, BlockAt};
use block_tree::{array_on, axes_of, places_along};
use mesh_model::{BlockValues, Group, Var};
use outside_io::Failed;
use outside_io::sink::Sink;

/// What is printed of a node's arrays: the interior places, or these and all guard places round them.
#[derive(Clone, Copy)]
pub struct Shown {
    pub node: u32,
    pub block: BlockAt,
    /// How many cells the block has along each axis.
    pub cells: u32,
    /// How many guard cells it has on each side, where they are printed.
    pub guards: Option<u32>,
}

impl Shown {
    /// How many guard places are printed at each end of each axis.
    fn margin(&self) -> u32
        ensures { result ≡ arrays.margin self.now }
    {
        match self.guards {
            Some(guards) => guards,
            None => 0,
        }
    }

    /// How many places are printed along an axis.
    fn size_along(&self, var: Var, axis: Axis) -> u32
        requires { IsSmall self.now }
        ensures value { result ≡ arrays.size_along self.now var axis }
        ensures some { 0 < result }
        ensures few { result ≤ 17 }
    {
        places_along(self.cells, var, axis) + 2 * self.margin()
    }

    /// The block index of a place, counted from the first that is printed.
    fn index(&self, place: u32) -> i64
        ensures { result ≡ arrays.index_of self.now place }
    {
        i64::from(place) - i64::from(self.margin())
    }

    /// The first word of a head line.
    fn head_word(&self, var: Var) -> &'static str
        ensures word { result.now ≡ arrays.head_word self.now var }
        ensures short { length result.now ≤ 6 }
    {
        match self.guards {
            Some(_) => "guards",
            None => array_word(var),
        }
    }
}

/// What an array is called in a head line.
fn array_word(var: Var) -> &'static str
    ensures word { result.now ≡ arrays.array_word var }
    ensures short { length result.now ≤ 4 }
{
    match var {
        Var::Cell(_) => "cell",
        Var::Face(_) => "face",
        Var::Edge(_) => "edge",
        Var::CellWork => "cell",
        Var::FaceWork(_) => "face",
        Var::EdgeWork(_) => "edge",
    }
}

/// The name of an axis: `x`, `y` or `z`.
pub fn axis_name(axis: Axis) -> &'static str
    ensures name { result.now ≡ texts.axis_name axis }
    ensures short { length result.now ≤ 1 }
{
    match axis {
        Axis::X => "x",
        Axis::Y => "y",
        Axis::Z => "z",
    }
}

/// Adds the axis of an array that has one.
fn push_axis(line: &mut Line, var: Var)
    requires { length line.old ≤ 100 }
    ensures text { line.new ≡ with_words line.old (arrays.axis_words var) }
    ensures short { length line.new ≤ length line.old + 2 }
{
    match var {
        Var::Cell(_) => {}
        Var::Face(normal) => line.push_word(axis_name(normal)),
        Var::Edge(along) => line.push_word(axis_name(along)),
        Var::CellWork => {}
        Var::FaceWork(normal) => line.push_word(axis_name(normal)),
        Var::EdgeWork(along) => line.push_word(axis_name(along)),
    }
}

/// Adds the level and the place of a block.
fn push_block(line: &mut Line, b: BlockAt)
    requires { length line.old ≤ 200 }
    ensures text { line.new ≡ with_words line.old (texts.block_words b) }
    ensures short { length line.new ≤ length line.old + 50 }
{
    line.push_word("block");
    line.push_number(b.level);
    line.push_number(b.x);
    line.push_number(b.y);
    line.push_number(b.z);
}

fn head_line(name: &str, shown: &Shown, var: Var) -> Line
    requires { length name.now ≤ 16 }
    ensures { result ≡ arrays.head_line name.now shown.now var }
{
    let mut line = Line::begin(shown.head_word(var));
    line.push_word(name);
    push_axis(&mut line, var);
    push_block(&mut line, shown.block);
    line.end();
    line
}

/// The number at a place, counted from the first that is printed.
fn number_at<V: BlockValues>(values: &V, shown: &Shown, var: Var, i: u32, j: u32, k: u32) -> i64
    requires there { AreThere (V.is_there values.now) shown.now var }
    requires x { i < arrays.size_along shown.now var axis.X }
    requires y { j < arrays.size_along shown.now var axis.Y }
    requires z { k < arrays.size_along shown.now var axis.Z }
    ensures { result ≡ arrays.at_place (V.number values.now) shown.now var i j k }
{
    values.value(
        var,
        shown.node,
        shown.index(i),
        shown.index(j),
        shown.index(k),
    )
}

/// The numbers of a row over x, at the places `j` on y and `k` on z.
fn row_line<V: BlockValues>(values: &V, shown: &Shown, var: Var, j: u32, k: u32) -> Line
    requires small { IsSmall shown.now }
    requires there { AreThere (V.is_there values.now) shown.now var }
    requires y { j < arrays.size_along shown.now var axis.Y }
    requires z { k < arrays.size_along shown.now var axis.Z }
    ensures { result ≡ arrays.row_text (V.number values.now) shown.now var k j }
{
    let size = shown.size_along(var, Axis::X);
    let mut line = Line::begin_number(number_at(values, shown, var, 0, j, k));
    for i in 1..size {
        line.push_number(number_at(values, shown, var, i, j, k));
    }
    line.end();
    line
}

/// Prints a row over x.
fn print_row<K: Sink, V: BlockValues>(
    sink: &mut K,
    values: &V,
    shown: &Shown,
    var: Var,
    j: u32,
    k: u32,
) -> Result<(), Failed>
    requires small { IsSmall shown.now }
    requires there { AreThere (V.is_there values.now) shown.now var }
    requires y { j < arrays.size_along shown.now var axis.Y }
    requires z { k < arrays.size_along shown.now var axis.Z }
    ensures { Prints result (K.taken sink.old) (arrays.row_text (V.number values.now) shown.now var k j)
        (K.taken sink.new) (K.faults sink.old) (K.faults sink.new) }
{
    row_line(values, shown, var, j, k).print(sink)
}

/// Prints the rows at the place `k` on z.
fn print_plane<K: Sink, V: BlockValues>(
    sink: &mut K,
    values: &V,
    shown: &Shown,
    var: Var,
    k: u32,
) -> Result<(), Failed>
    requires small { IsSmall shown.now }
    requires there { AreThere (V.is_there values.now) shown.now var }
    requires z { k < arrays.size_along shown.now var axis.Z }
    ensures { Prints result (K.taken sink.old) (arrays.plane_text (V.number values.now) shown.now var k)
        (K.taken sink.new) (K.faults sink.old) (K.faults sink.new) }
{
    for j in 0..shown.size_along(var, Axis::Y) {
        print_row(sink, values, shown, var, j, k)?;
    }
    Ok(())
}

/// Prints the numbers of an array.
fn print_planes<K: Sink, V: BlockValues>(
    sink: &mut K,
    values: &V,
    shown: &Shown,
    var: Var,
) -> Result<(), Failed>
    requires small { IsSmall shown.now }
    requires there { AreThere (V.is_there values.now) shown.now var }
    ensures { Prints result (K.taken sink.old) (arrays.planes_text (V.number values.now) shown.now var)
        (K.taken sink.new) (K.faults sink.old) (K.faults sink.new) }
{
    for k in 0..shown.size_along(var, Axis::Z) {
        print_plane(sink, values, shown, var, k)?;
    }
    Ok(())
}

/// Prints the array of a group for an axis, with its head line.
fn print_array<K: Sink, V: BlockValues>(
    sink: &mut K,
    name: &str,
    group: Group,
    values: &V,
    shown: &Shown,
    axis: Axis,
) -> Result<(), Failed>
    requires name { length name.now ≤ 16 }
    requires small { IsSmall shown.now }
    requires there { AreThere (V.is_there values.now) shown.now (arrays.array_on group axis) }
    ensures { Prints result (K.taken sink.old) (arrays.named_array (V.number values.now) name.now shown.now group axis)
        (K.taken sink.new) (K.faults sink.old) (K.faults sink.new) }
{
    let var = array_on(group, axis);
    head_line(name, shown, var).print(sink)?;
    print_planes(sink, values, shown, var)
}

/// Prints the arrays of a group. A name has at most 16 bytes.
pub fn print_group<K: Sink, V: BlockValues>(
    sink: &mut K,
    name: &str,
    group: Group,
    values: &V,
    shown: &Shown,
) -> Result<(), Failed>
    requires name { length name.now ≤ 16 }
    requires small { IsSmall shown.now }
    requires there { (a : Axis) → AreThere (V.is_there values.now) shown.now (arrays.array_on group a) }
    ensures { Prints result (K.taken sink.old) (arrays.group_text (V.number values.now) name.now shown.now group)
        (K.taken sink.new) (K.faults sink.old) (K.faults sink.new) }
{
    for axis in axes_of(group) {
        print_array(sink, name, group, values, shown, *axis)?;
    }
    Ok(())
}
