//! The numbers of an image.

ghost use Rattle.std.specs.Prelude.{◌≡◌, ◌^◌, ◌≤◌, IfOk, IfSome, unsigned_abs};
ghost use Rattle.std.specs.Option.{option_map};
ghost use Rattle.mesh_model.specs.Images.Codec.{followed, times};
ghost use Rattle.mesh_model.specs.Images.Reading as plain;
ghost use Rattle.check_format.specs.Numbers.{HasVariables, counted_values, values_in, variable, variables_in};

use crate::reading::fields::{content_at, out_at};
use crate::reading::lists::{Counts, Values, Variables, push};
use amr_num::OutOfMemory;
use std::alloc::Global;

/// So many contents, and the bytes after them.
fn contents_at(
    alloc: Global,
    count: usize,
    bytes: &[u8],
) -> Result<Option<(Vec<i64>, &[u8])>, OutOfMemory>
    ensures { IfOk result (λ r. option_map (λ x. (x.0.items, x.1.now)) r ≡ (times count plain.content).read bytes.now) }
{
    if bytes.len() / 8 < count {
        return Ok(None);
    }
    let Ok(mut contents) = Vec::with_capacity(alloc, count) else {
        return Err(OutOfMemory);
    };
    let mut rest = bytes;
    for _ in 0..count {
        match content_at(rest) {
            None => return Ok(None),
            Some((content, after)) => {
                push(&mut contents, content)?;
                rest = after;
            }
        }
    }
    Ok(Some((contents, rest)))
}

/// What flowed out of a variable, its contents, and the bytes after them.
fn variable_at(
    alloc: Global,
    count: usize,
    bytes: &[u8],
) -> Result<Option<(i128, Vec<i64>, &[u8])>, OutOfMemory>
    ensures read { IfOk result (λ r. option_map (λ x. ((x.0, x.1.items), x.2.now)) r ≡ (variable count).read bytes.now) }
    ensures small { IfOk result (λ r. IfSome r (λ x. unsigned_abs x.0 ≤ 2 ^ 100)) }
{
    let Some((out, bytes)) = out_at(bytes) else {
        return Ok(None);
    };
    match contents_at(alloc, count, bytes)? {
        None => Ok(None),
        Some((contents, rest)) => Ok(Some((out, contents, rest))),
    }
}

/// The numbers of so many variables, and the bytes after them.
fn variables_at(
    alloc: Global,
    counts: Counts,
    bytes: &[u8],
) -> Result<Option<(Variables, &[u8])>, OutOfMemory>
    ensures read { IfOk result (λ r. option_map (λ x. (variables_in x.0, x.1.now)) r
        ≡ (times counts.variables (variable counts.cells)).read bytes.now) }
    ensures many { IfOk result (λ r. IfSome r (λ x. HasVariables counts.variables x.0)) }
{
    let mut variables = Variables::new(alloc);
    let mut rest = bytes;
    for _ in 0..counts.variables {
        match variable_at(alloc, counts.cells, rest)? {
            None => return Ok(None),
            Some((out, contents, after)) => {
                variables.add(out, contents)?;
                rest = after;
            }
        }
    }
    Ok(Some((variables, rest)))
}

/// All numbers, and the bytes after them.
pub fn values_at(
    alloc: Global,
    counts: Counts,
    bytes: &[u8],
) -> Result<Option<(Values, &[u8])>, OutOfMemory>
    ensures read { IfOk result (λ r. option_map (λ x. (values_in x.0, x.1.now)) r ≡ (counted_values counts).read bytes.now) }
    ensures many { IfOk result (λ r. IfSome r (λ x. HasVariables counts.variables x.0.variables)) }
{
    let Some((variables, bytes)) = variables_at(alloc, counts, bytes)? else {
        return Ok(None);
    };
    let Some((faces, bytes)) = contents_at(alloc, counts.faces, bytes)? else {
        return Ok(None);
    };
    let Some((edges, bytes)) = contents_at(alloc, counts.edges, bytes)? else {
        return Ok(None);
    };
    let values = Values {
        variables,
        faces,
        edges,
    };
    Ok(Some((values, bytes)))
}
