//! What stands in an image before the nodes.

ghost use Rattle.std.specs.Prelude.{◌≡◌, ◌+◌, ◌<◌, ◌≤◌, None, Some, if◌then◌else◌, length, IfOk, IfSome, bytes_eq, drop, slice_index_or, []};
ghost use Rattle.std.specs.List.{list_any};
ghost use Rattle.std.specs.Option.{option_map};
ghost use Rattle.mesh_model.specs.Fields.VariableNames.{longest_name, no_names};
ghost use Rattle.mesh_model.specs.Geometry.Limits.{IsShape};
ghost use Rattle.mesh_model.specs.Images.Codec.{times};
ghost use Rattle.mesh_model.specs.Images.Reading as plain;
ghost use Rattle.mesh_model.specs.Language.Declarations as declarations;
ghost use Rattle.mesh_model.specs.Language.Words as words;
ghost use Rattle.check_format.specs.Readers.{head_in, with_cells, with_edge, with_face};
ghost use Rattle.check_format.specs.Written.{all_names};

use crate::names::{name_count, nth_name};
use crate::reading::fields::{after_magic, any_at, bytes_at, side_at, upto_at};
use amr_num::{OutOfMemory, SideKind};
use mesh_model::Shape;
use mesh_model::language::names::Names;
use mesh_model::language::script::Declared;
use mesh_model::language::words::is_name;
use std::alloc::Global;

/// What stands in an image before the nodes.
#[derive(Drop)]
pub struct Header {
    pub turn: u8,
    pub declared: Declared,
}

/// The kinds of the six sides, and the bytes after them.
fn sides_at(bytes: &[u8]) -> Option<([SideKind; 6], &[u8])>
    ensures read { option_map (λ x. (x.0, x.1.now)) result ≡ (times 6 plain.side).read bytes.now }
    ensures six { IfSome result (λ x. length x.0 ≡ 6) }
{
    let (x_low, bytes) = side_at(bytes)?;
    let (x_high, bytes) = side_at(bytes)?;
    let (y_low, bytes) = side_at(bytes)?;
    let (y_high, bytes) = side_at(bytes)?;
    let (z_low, bytes) = side_at(bytes)?;
    let (z_high, bytes) = side_at(bytes)?;
    Some(([x_low, x_high, y_low, y_high, z_low, z_high], bytes))
}

/// Whether both sides of an axis are periodic, or none is.
fn are_paired(low: SideKind, high: SideKind) -> bool
    ensures { result ≡ declarations.are_paired low high }
{
    (low == SideKind::Periodic) == (high == SideKind::Periodic)
}

/// Whether the shape keeps its limits.
fn is_shape(shape: &Shape) -> bool
    ensures { result ≡ plain.is_shape shape.now }
{
    let [x_low, x_high, y_low, y_high, z_low, z_high] = shape.sides;
    (shape.n == 4 || shape.n == 8)
        && (shape.g == 1 || (shape.g == 2 || shape.g == 4))
        && (0 < shape.rx && shape.rx <= 8)
        && (0 < shape.ry && shape.ry <= 8)
        && (0 < shape.rz && shape.rz <= 8)
        && (shape.min <= shape.max && shape.max <= 10)
        && (are_paired(x_low, x_high) && are_paired(y_low, y_high) && are_paired(z_low, z_high))
}

/// The shape, and the bytes after it.
fn shape_at(bytes: &[u8]) -> Option<(Shape, &[u8])>
    ensures read { option_map (λ x. (x.0, x.1.now)) result ≡ plain.shape.read bytes.now }
    ensures limits { IfSome result (λ x. IsShape x.0) }
{
    let (n, bytes) = any_at(bytes)?;
    let (g, bytes) = any_at(bytes)?;
    let (rx, bytes) = any_at(bytes)?;
    let (ry, bytes) = any_at(bytes)?;
    let (rz, bytes) = any_at(bytes)?;
    let (min, bytes) = any_at(bytes)?;
    let (max, bytes) = any_at(bytes)?;
    let (sides, bytes) = sides_at(bytes)?;
    let shape = Shape {
        rx: u32::from(rx),
        ry: u32::from(ry),
        rz: u32::from(rz),
        n: u32::from(n),
        g: u32::from(g),
        min: u32::from(min),
        max: u32::from(max),
        sides,
    };
    if is_shape(&shape) {
        Some((shape, bytes))
    } else {
        None
    }
}

/// The bytes as a name, where they are one.
fn name_in(bytes: &[u8]) -> Option<&str>
    ensures text { option_map (λ x. x.now) result ≡ (if words.is_name bytes.now then Some bytes.now else None) }
    ensures short { IfSome result (λ x. length x.now ≤ longest_name) }
{
    if !is_name(bytes) {
        return None;
    }
    match str::from_utf8(bytes) {
        Ok(text) => Some(text),
        Err(_) => None,
    }
}

/// A name, and the bytes after it.
fn name_at(bytes: &[u8]) -> Option<(&str, &[u8])>
    ensures name { option_map (λ x. (x.0.now, x.1.now)) result ≡ plain.name.read bytes.now }
    ensures short { IfSome result (λ x. length x.0.now ≤ longest_name) }
{
    let (size, bytes) = any_at(bytes)?;
    let (name, bytes) = bytes_at(usize::from(size), bytes)?;
    let name = name_in(name)?;
    Some((name, bytes))
}

/// So many names of cell variables, and the bytes after them.
fn cells_at(alloc: Global, count: u8, bytes: &[u8]) -> Result<Option<(Names, &[u8])>, OutOfMemory>
    requires { count ≤ 4 }
    ensures { IfOk result (λ r. option_map (λ x. (x.0, x.1.now)) r
        ≡ with_cells no_names ((times count plain.name).read bytes.now)) }
{
    let mut names = Names::new(alloc);
    let mut rest = bytes;
    for _ in 0..count {
        match name_at(rest) {
            None => return Ok(None),
            Some((name, after)) => {
                names.add_cell(alloc, name)?;
                rest = after;
            }
        }
    }
    Ok(Some((names, rest)))
}

/// The name of the face variable, where there is one, and what stands after it.
fn add_face<'a>(
    alloc: Global,
    names: &mut Names,
    count: u8,
    bytes: &'a [u8],
) -> Result<Option<&'a [u8]>, OutOfMemory>
    requires few { count ≤ 1 }
    requires none { names.old.face ≡ None }
    ensures { IfOk result (λ r. option_map (λ rest. (names.new, rest.now)) r
        ≡ with_face names.old ((times count plain.name).read bytes.now)) }
{
    if count == 0 {
        return Ok(Some(bytes));
    }
    match name_at(bytes) {
        None => Ok(None),
        Some((name, rest)) => {
            names.set_face(alloc, name)?;
            Ok(Some(rest))
        }
    }
}

/// The name of the edge variable, where there is one, and what stands after it.
fn add_edge<'a>(
    alloc: Global,
    names: &mut Names,
    count: u8,
    bytes: &'a [u8],
) -> Result<Option<&'a [u8]>, OutOfMemory>
    requires few { count ≤ 1 }
    requires none { names.old.edge ≡ None }
    ensures { IfOk result (λ r. option_map (λ rest. (names.new, rest.now)) r
        ≡ with_edge names.old ((times count plain.name).read bytes.now)) }
{
    if count == 0 {
        return Ok(Some(bytes));
    }
    match name_at(bytes) {
        None => Ok(None),
        Some((name, rest)) => {
            names.set_edge(alloc, name)?;
            Ok(Some(rest))
        }
    }
}

/// Whether the name at place `i` stands at a later place too.
fn comes_again(names: &Names, i: u32) -> bool
    requires { i < length (all_names names.now) }
    ensures { result ≡ list_any (bytes_eq (slice_index_or (all_names names.now) i [])) (drop (i + 1) (all_names names.now)) }
{
    let end = name_count(names);
    for j in i + 1..end {
        if nth_name(names, i).as_bytes() == nth_name(names, j).as_bytes() {
            return true;
        }
    }
    false
}

/// Whether no name is taken before.
fn names_differ(names: &Names) -> bool
    ensures { result ≡ plain.names_differ names.now }
{
    let end = name_count(names);
    for i in 0..end {
        if comes_again(names, i) {
            return false;
        }
    }
    true
}

/// The names, and the bytes after them.
fn names_at(alloc: Global, bytes: &[u8]) -> Result<Option<(Names, &[u8])>, OutOfMemory>
    ensures { IfOk result (λ r. option_map (λ x. (x.0, x.1.now)) r ≡ plain.names.read bytes.now) }
{
    let Some((cells, bytes)) = upto_at(4, bytes) else {
        return Ok(None);
    };
    let Some((face, bytes)) = upto_at(1, bytes) else {
        return Ok(None);
    };
    let Some((edge, bytes)) = upto_at(1, bytes) else {
        return Ok(None);
    };
    let Some((mut names, bytes)) = cells_at(alloc, cells, bytes)? else {
        return Ok(None);
    };
    let Some(bytes) = add_face(alloc, &mut names, face, bytes)? else {
        return Ok(None);
    };
    let Some(bytes) = add_edge(alloc, &mut names, edge, bytes)? else {
        return Ok(None);
    };
    if names_differ(&names) {
        Ok(Some((names, bytes)))
    } else {
        Ok(None)
    }
}

/// The header, and the bytes after it.
pub fn header_at(alloc: Global, bytes: &[u8]) -> Result<Option<(Header, &[u8])>, OutOfMemory>
    ensures read { IfOk result (λ r. option_map (λ x. (head_in x.0, x.1.now)) r ≡ plain.head.read bytes.now) }
    ensures limits { IfOk result (λ r. IfSome r (λ x. IsShape x.0.declared.shape)) }
{
    let Some(bytes) = after_magic(bytes) else {
        return Ok(None);
    };
    let Some((turn, bytes)) = upto_at(2, bytes) else {
        return Ok(None);
    };
    let Some((shape, bytes)) = shape_at(bytes) else {
        return Ok(None);
    };
    let Some((names, bytes)) = names_at(alloc, bytes)? else {
        return Ok(None);
    };
    let declared = Declared { shape, names };
    Ok(Some((Header { turn, declared }, bytes)))
}
