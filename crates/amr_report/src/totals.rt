//! Totals of cell variables, and the count of cells with a net flux.

ghost use Rattle.amr_report.specs.Printing.{Prints};
ghost use Rattle.mesh_model.specs.Run.Texts as totals;
ghost use Rattle.std.specs.Prelude.{◌≡◌, ◌≤◌, length, pos};

use crate::line::Line;
use outside_io::Failed;
use outside_io::sink::Sink;

fn total_line(name: &str, total: i128, out: i128) -> Line
    requires { length name.now ≤ 16 }
    ensures { result ≡ totals.total_line name.now total out }
{
    let mut line = Line::begin("total");
    line.push_word(name);
    line.push_number(total);
    line.push_word("out");
    line.push_number(out);
    line.end();
    line
}

/// Prints the total of a cell variable, and what has flowed out of the domain. A name has at most 16 bytes.
pub fn print_total<K: Sink>(sink: &mut K, name: &str, total: i128, out: i128) -> Result<(), Failed>
    requires { length name.now ≤ 16 }
    ensures { Prints result (K.taken sink.old) (totals.total_line name.now total out)
        (K.taken sink.new) (K.faults sink.old) (K.faults sink.new) }
{
    total_line(name, total, out).print(sink)
}

fn netflux_line(name: &str, cells: u64) -> Line
    requires { length name.now ≤ 16 }
    ensures { result ≡ totals.netflux_line name.now (pos cells) }
{
    let mut line = Line::begin("netflux");
    line.push_word(name);
    line.push_word("cells");
    line.push_number(cells);
    line.end();
    line
}

/// Prints the number of leaf cells whose net flux is not 0. A name has at most 16 bytes.
pub fn print_netflux<K: Sink>(sink: &mut K, name: &str, cells: u64) -> Result<(), Failed>
    requires { length name.now ≤ 16 }
    ensures { Prints result (K.taken sink.old) (totals.netflux_line name.now (pos cells))
        (K.taken sink.new) (K.faults sink.old) (K.faults sink.new) }
{
    netflux_line(name, cells).print(sink)
}
