//! Which leaf cells a fill takes.

ghost use Rattle.amr_engine.specs.Regions.{IsCellBox, IsRegion, covers as covered};
ghost use Rattle.mesh_model.specs.Fields.Fill.{is_in_box};
ghost use Rattle.mesh_model.specs.Geometry.Touch.{high_end, low_end};
ghost use Rattle.std.specs.Prelude.{◌≡◌, ◌<◌, ◌≤◌, ◌^◌, ◌&&◌, nat_le};

use amr_num::CellAt;

/// A box of the cells of a level, from `low` up to below `high`.
#[derive(Clone, Copy, Debug, PartialEq, Eq)]
pub struct CellBox {
    pub level: u32,
    pub low: [u32; 3],
    pub high: [u32; 3],
}

/// Which leaf cells a fill takes.
#[derive(Clone, Copy, Debug, PartialEq, Eq)]
pub enum Region {
    /// All of them.
    Everywhere,
    /// Those whose whole region lies in the box.
    Within(CellBox),
}

/// A fill of a cell variable: which leaf cells take the value.
#[derive(Clone, Copy, Debug, PartialEq, Eq)]
pub struct Fill {
    pub region: Region,
    pub value: i64,
}

/// Where a cell of a level begins on an axis, in units of the finest level.
fn begin_of(level: u32, at: u32) -> u64
    requires level { level ≤ 10 }
    requires at { at ≤ 2 ^ 20 }
    ensures { result ≡ low_end level at }
{
    u64::from(at) << (10 - level)
}

/// Whether the cell at `at` of `level` lies whole between the cells `low` and `high` of the box's level.
fn lies_between(box_level: u32, low: u32, high: u32, level: u32, at: u32) -> bool
    requires levels { (box_level ≤ 10) × (level ≤ 10) }
    requires places { (low ≤ 2 ^ 20) × (high ≤ 2 ^ 20) × (at < 2 ^ 20) }
    ensures { result ≡ nat_le (low_end box_level low) (low_end level at) && nat_le (high_end level at) (low_end box_level high) }
{
    let begins = begin_of(box_level, low) <= begin_of(level, at);
    let ends = begin_of(level, at + 1) <= begin_of(box_level, high);
    begins && ends
}

/// Whether the cell's whole region lies in the box.
#[tactic(auto, unfolding(mesh_model::specs::Fields::Fill::is_in_box))]
fn is_within(cells: CellBox, cell: CellAt) -> bool
    requires cells { IsCellBox cells }
    requires level { cell.level ≤ 10 }
    requires cell { (cell.x < 2 ^ 20) × (cell.y < 2 ^ 20) × (cell.z < 2 ^ 20) }
    ensures { result ≡ is_in_box cells.level cells.low cells.high cell }
{
    let CellBox { level, low, high } = cells;
    let on_x = lies_between(level, low[0], high[0], cell.level, cell.x);
    let on_y = lies_between(level, low[1], high[1], cell.level, cell.y);
    let on_z = lies_between(level, low[2], high[2], cell.level, cell.z);
    on_x && on_y && on_z
}

/// Whether a fill of the region takes the leaf cell.
pub fn covers(region: Region, cell: CellAt) -> bool
    requires region { IsRegion region }
    requires level { cell.level ≤ 10 }
    requires cell { (cell.x < 2 ^ 20) × (cell.y < 2 ^ 20) × (cell.z < 2 ^ 20) }
    ensures { result ≡ covered region cell }
{
    match region {
        Region::Everywhere => true,
        Region::Within(cells) => is_within(cells, cell),
    }
}
