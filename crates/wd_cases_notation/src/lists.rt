//! Lists of numbers.

use std::alloc::Global;
use wd_cases::{Failure, is_nothing};

/// Numbers parted by blanks, or `-` for none.
pub fn numbers_of(alloc: Global, text: &str) -> Result<Vec<u64>, Failure> {
    let mut numbers = Vec::new(alloc);
    for word in text.split(' ') {
        if !is_nothing(word) {
            numbers.push(word.parse::<u64>()?)?;
        }
    }
    Ok(numbers)
}

/// Lists of numbers parted by `;`.
pub fn orderings_of(alloc: Global, text: &str) -> Result<Vec<Vec<u64>>, Failure> {
    let mut orderings = Vec::new(alloc);
    if !text.is_empty() {
        for part in text.split(';') {
            orderings.push(numbers_of(alloc, part)?)?;
        }
    }
    Ok(orderings)
}

/// Numbers of peer groups parted by blanks, or `-` for none.
pub fn groups_of(alloc: Global, text: &str) -> Result<Vec<u32>, Failure> {
    let mut groups = Vec::new(alloc);
    for word in text.split(' ') {
        if !is_nothing(word) {
            groups.push(word.parse::<u32>()?)?;
        }
    }
    Ok(groups)
}
