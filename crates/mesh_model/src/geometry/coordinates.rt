//! Sub-cells, subfaces and half edges, and what they are parts of.

ghost use Rattle.std.specs.Prelude.{◌≡◌, ◌%◌, ◌<◌, ◌≤◌};
ghost use Rattle.mesh_model.specs.Geometry.Coordinates as coordinates;
ghost use Rattle.mesh_model.specs.Geometry.Coordinates.{on, next, face_numbers, edge_numbers};

use amr_num::{Axis, CellAt, EdgeAt, FaceAt};

/// The sub-cell `octant` of a cell, with octant i + 2 j + 4 k for the half i of the cell on x, j on y and k
/// on z.
pub fn sub_cell(c: CellAt, octant: u32) -> CellAt
    requires octant { octant < 8 }
    requires level { c.level < 10 }
    requires coordinates { (c.x ≤ 65536) × (c.y ≤ 65536) × (c.z ≤ 65536) }
    ensures { result ≡ coordinates.sub_cell c octant }
{
    CellAt {
        level: c.level + 1,
        x: 2 * c.x + octant % 2,
        y: 2 * c.y + octant / 2 % 2,
        z: 2 * c.z + octant / 4 % 2,
    }
}

/// The cell one level coarser in which a cell lies.
pub fn parent_cell(c: CellAt) -> CellAt
    requires { 0 < c.level }
    ensures { result ≡ coordinates.parent_cell c }
{
    CellAt {
        level: c.level - 1,
        x: c.x / 2,
        y: c.y / 2,
        z: c.z / 2,
    }
}

/// The subface `quarter` of a face, with quarter j + 2 k for a face normal to x, i + 2 k for y and i + 2 j
/// for z.
pub fn sub_face(f: FaceAt, quarter: u32) -> FaceAt
    requires quarter { quarter < 4 }
    requires level { f.level < 10 }
    requires coordinates { (f.x ≤ 65536) × (f.y ≤ 65536) × (f.z ≤ 65536) }
    ensures { result ≡ coordinates.sub_face f quarter }
{
    let first = quarter % 2;
    let second = quarter / 2 % 2;
    let (x, y, z) = match f.axis {
        Axis::X => (0, first, second),
        Axis::Y => (first, 0, second),
        Axis::Z => (first, second, 0),
    };
    FaceAt {
        axis: f.axis,
        level: f.level + 1,
        x: 2 * f.x + x,
        y: 2 * f.y + y,
        z: 2 * f.z + z,
    }
}

/// The face one level coarser of which a face at an even position is a quarter.
pub fn parent_face(f: FaceAt) -> FaceAt
    requires level { 0 < f.level }
    requires even { on f.axis (face_numbers f) % 2 ≡ 0 }
    ensures { result ≡ coordinates.parent_face f }
{
    FaceAt {
        axis: f.axis,
        level: f.level - 1,
        x: f.x / 2,
        y: f.y / 2,
        z: f.z / 2,
    }
}

/// The half `half` of an edge, 0 for the one at the smaller coordinate along the edge.
pub fn half_edge(e: EdgeAt, half: u32) -> EdgeAt
    requires half { half < 2 }
    requires level { e.level < 10 }
    requires coordinates { (e.x ≤ 65536) × (e.y ≤ 65536) × (e.z ≤ 65536) }
    ensures { result ≡ coordinates.half_edge e half }
{
    let (x, y, z) = match e.axis {
        Axis::X => (half, 0, 0),
        Axis::Y => (0, half, 0),
        Axis::Z => (0, 0, half),
    };
    EdgeAt {
        axis: e.axis,
        level: e.level + 1,
        x: 2 * e.x + x,
        y: 2 * e.y + y,
        z: 2 * e.z + z,
    }
}

/// The edge one level coarser of which an edge at even positions is a half.
pub fn parent_edge(e: EdgeAt) -> EdgeAt
    requires level { 0 < e.level }
    requires even { on (next e.axis) (edge_numbers e) % 2 ≡ 0 }
    requires even_too { on (next (next e.axis)) (edge_numbers e) % 2 ≡ 0 }
    ensures { result ≡ coordinates.parent_edge e }
{
    EdgeAt {
        axis: e.axis,
        level: e.level - 1,
        x: e.x / 2,
        y: e.y / 2,
        z: e.z / 2,
    }
}
