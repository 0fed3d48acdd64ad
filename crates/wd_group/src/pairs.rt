//! The pairs of two numbers that are met, numbered.

ghost use Rattle.std.specs.Prelude.{◌≡◌, IfOk, OnOk, Some, length};
ghost use Rattle.wd_group.specs.Pairs.{ArePairNumbers, AreApart, Keeps, number_in};

use std::alloc::Global;
use std::collections::HashMap;
use std::hash::{DefaultHasher, Hasher};
use wd_sort::{Coding, Seeded};
use wd_value::OutOfMemory;

/// A number for each place of two lists, in the order in which the pairs there are met first: two numbers are equal exactly where the
/// pairs are.
pub(crate) fn pair_numbers(
    alloc: Global,
    first: &[u64],
    second: &[u64],
) -> Result<Coding, OutOfMemory>
    requires { length first.now ≡ length second.now }
    ensures { IfOk result (λ c. ArePairNumbers first.now second.now c.bound c.codes.items) }
{
    let mut met = HashMap::with_hasher(alloc, seed_from(first, second));
    let mut codes = Vec::with_capacity(alloc, first.len())?;
    for k in 0..first.len() {
        let number = pair_number(&mut met, (first[k], second[k]))?;
        codes.push(number)?;
    }
    let bound = met.len() as u64;
    Ok(Coding { codes, bound })
}

/// A seed for the hashes of the pairs, made of them.
fn seed_from(first: &[u64], second: &[u64]) -> Seeded
    requires { length first.now ≡ length second.now }
{
    let mut all = DefaultHasher::new();
    for k in 0..first.len() {
        all.write_u64(first[k]);
        all.write_u64(second[k]);
    }
    Seeded::by(&all)
}

/// The number of a pair, which counts as met from then on.
fn pair_number(
    met: &mut HashMap<(u64, u64), u64, Seeded>,
    pair: (u64, u64),
) -> Result<u64, OutOfMemory>
    requires { AreApart met.old }
    ensures apart { OnOk result (AreApart met.new) }
    ensures kept { OnOk result (Keeps met.old met.new) }
    ensures is { IfOk result (λ n. number_in met.new pair ≡ Some n) }
{
    match met.get(&pair).copied() {
        Some(number) => Ok(number),
        None => {
            let number = met.len() as u64;
            met.insert(pair, number)?;
            Ok(number)
        }
    }
}
