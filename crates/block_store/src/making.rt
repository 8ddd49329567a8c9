//! Arrays of zeros.

ghost use Rattle.block_store.specs.Held.{all_numbers, numbers};
ghost use Rattle.block_store.specs.Making.{AreZeroBlocks, IsArrayLength, IsZeroBlock};
ghost use Rattle.mesh_model.specs.Fields.ArrayPlaces.{IsSize};
ghost use Rattle.std.specs.Prelude.{◌≡◌, ◌<◌, ◌≤◌, ◌++◌, ◌+◌, IfOk, length, replicate, false, vec_len, vec_capacity, pos};

use crate::layout::Layout;
use amr_num::OutOfMemory;
use std::alloc::Global;

/// So long, where there are such variables.
fn if_any(variables: u32, long: usize) -> usize
    ensures { 0 < variables → result ≡ long }
{
    if variables > 0 { long } else { 0 }
}

/// How many numbers the array with a number among those of a block has.
fn array_length(n: usize, g: usize, layout: Layout, number: usize) -> usize
    requires { IsSize n g }
    ensures { IsArrayLength n g layout number result }
{
    let side = n + 2 * g;
    let longer = side + 1;
    if number == 0 {
        return side * (side * side);
    }
    if number < 4 {
        return longer * (side * side);
    }
    if number < 7 {
        return side * (longer * longer);
    }
    if number < 10 {
        return if_any(layout.faces, longer * (side * side));
    }
    if number < 13 {
        return if_any(layout.edges, side * (longer * longer));
    }
    side * (side * side)
}

/// Numbers that are 0.
fn zeros(alloc: Global, count: usize) -> Result<Vec<i64>, OutOfMemory>
    ensures { IfOk result (λ array. array.items ≡ replicate count (pos 0)) }
{
    match vec![in alloc; 0i64; count] {
        Ok(array) => Ok(array),
        Err(_) => Err(OutOfMemory),
    }
}

/// The arrays of a block, all of zeros.
fn zero_block(
    alloc: Global,
    n: usize,
    g: usize,
    layout: Layout,
) -> Result<Vec<Vec<i64>>, OutOfMemory>
    requires { IsSize n g }
    ensures { IfOk result (λ block. IsZeroBlock n g layout (numbers block.items)) }
{
    let mut block = Vec::new(alloc);
    for number in 0..layout.arrays() {
        let array = zeros(alloc, array_length(n, g, layout, number))?;
        if block.push(array).is_err() {
            return Err(OutOfMemory);
        }
    }
    Ok(block)
}

/// The arrays of so many blocks, all of zeros.
pub(crate) fn zero_blocks(
    alloc: Global,
    n: usize,
    g: usize,
    layout: Layout,
    count: u32,
) -> Result<Vec<Vec<Vec<i64>>>, OutOfMemory>
    requires { IsSize n g }
    ensures { IfOk result (λ blocks. AreZeroBlocks n g layout count (all_numbers blocks.items)) }
{
    let mut blocks = Vec::new(alloc);
    for _block in 0..count {
        if blocks.push(zero_block(alloc, n, g, layout)?).is_err() {
            return Err(OutOfMemory);
        }
    }
    Ok(blocks)
}

/// Adds slots that are free, for which there is room.
pub(crate) fn push_free(taken: &mut Vec<bool>, count: u32)
    requires { vec_len taken.old + count ≤ vec_capacity taken.old }
    ensures { taken.new.items ≡ taken.old.items ++ replicate count false }
{
    for _slot in 0..count {
        taken.push_reserved(false);
    }
}
