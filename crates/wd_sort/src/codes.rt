//! The stable sort of positions by numbers that compare as their rows do.

ghost use Rattle.std.specs.Prelude.{◌≡◌, ℕ, ◌*◌, ◌^◌, ◌<◌, List, IfOk, get_or, length, map};
ghost use Rattle.wd_sort.specs.Codes.{ArePacked, IsCoding, position_in};
ghost use Rattle.wd_sort.specs.Sorting.{IsStableSortOf};
ghost use Rattle.wd_value.specs.Rows.{Row};
ghost use Rattle.wd_value.specs.declared.order.SortColumn.{SortColumn};

use std::alloc::Global;
use wd_value::OutOfMemory;

/// The positions in the order of their codes, each of which is below `bound`; positions with equal codes keep their order. Takes n log n
/// comparisons of two numbers, of 64 bits where the bound times the count fits these, else of 128.
pub fn sort_by_codes(
    alloc: Global,
    codes: Vec<u64>,
    bound: u64,
    positions: &[u64],
) -> Result<Vec<u64>, OutOfMemory>
    requires long { length codes.items ≡ length positions.now }
    requires below { (k : ℕ) → k < length positions.now → get_or codes.items k 0 < bound }
    ensures { IfOk result (λ v. (columns : List SortColumn) (rows : List Row) → IsCoding columns rows positions.now codes.items → IsStableSortOf columns rows positions.now v.items) }
{
    if bound.checked_mul(positions.len() as u64).is_some() {
        Ok(sort_narrow(codes, bound, positions))
    } else {
        sort_wide(alloc, codes, positions)
    }
}

/// The sorted positions, in the codes' own memory.
fn sort_narrow(codes: Vec<u64>, bound: u64, positions: &[u64]) -> Vec<u64>
    requires long { length codes.items ≡ length positions.now }
    requires below { (k : ℕ) → k < length positions.now → get_or codes.items k 0 < bound }
    requires room { bound * length positions.now < 2 ^ 64 }
    ensures { (columns : List SortColumn) (rows : List Row) → IsCoding columns rows positions.now codes.items → IsStableSortOf columns rows positions.now result.items }
{
    let mut numbers = pack(codes, bound);
    numbers.sort_unstable();
    unpack(numbers, positions)
}

/// Each code and its place as one number.
fn pack(codes: Vec<u64>, bound: u64) -> Vec<u64>
    requires below { (k : ℕ) → k < length codes.items → get_or codes.items k 0 < bound }
    requires room { bound * length codes.items < 2 ^ 64 }
    ensures { ArePacked codes.items result.items }
{
    let count = codes.len() as u64;
    let mut numbers = codes;
    for place in 0..numbers.len() {
        numbers[place] = numbers[place] * count + place as u64;
    }
    numbers
}

/// For each number the position at the place that it holds.
fn unpack(numbers: Vec<u64>, positions: &[u64]) -> Vec<u64>
    requires { length numbers.items ≡ length positions.now }
    ensures { result.items ≡ map (position_in positions.now) numbers.items }
{
    let count = positions.len() as u64;
    let mut order = numbers;
    for i in 0..order.len() {
        order[i] = positions[(order[i] % count) as usize];
    }
    order
}

/// The sorted positions, by numbers of 128 bits, which hold any code and place.
fn sort_wide(alloc: Global, codes: Vec<u64>, positions: &[u64]) -> Result<Vec<u64>, OutOfMemory>
    requires { length codes.items ≡ length positions.now }
    ensures { IfOk result (λ v. (columns : List SortColumn) (rows : List Row) → IsCoding columns rows positions.now codes.items → IsStableSortOf columns rows positions.now v.items) }
{
    let mut packed = pack_wide(alloc, &codes)?;
    packed.sort_unstable();
    let order = unpack_wide(&packed, positions, codes);
    Ok(order)
}

fn pack_wide(alloc: Global, codes: &[u64]) -> Result<Vec<u128>, OutOfMemory>
    ensures { IfOk result (λ v. ArePacked codes.now v.items) }
{
    let count = codes.len() as u128;
    let mut numbers = Vec::with_capacity(alloc, codes.len())?;
    for place in 0..codes.len() {
        numbers.push(codes[place] as u128 * count + place as u128)?;
    }
    Ok(numbers)
}

/// For each number the position at the place that it holds, in the memory of the codes.
fn unpack_wide(numbers: &[u128], positions: &[u64], codes: Vec<u64>) -> Vec<u64>
    requires numbers_long { length numbers.now ≡ length positions.now }
    requires codes_long { length codes.items ≡ length positions.now }
    ensures { result.items ≡ map (position_in positions.now) numbers.now }
{
    let count = positions.len() as u128;
    let mut order = codes;
    for i in 0..order.len() {
        order[i] = positions[(numbers[i] % count) as usize];
    }
    order
}
