//! Hash maps over values that an attacker may have chosen.
//!
//! std's maps start each hash from one fixed seed, so values can be chosen whose hashes collide, and a map of them takes time quadratic
//! in their number. Here the seed is itself a hash (SipHash) of all the values that will be looked up: whoever changes a value changes
//! the seed. Random numbers from the machine would do as well, but the functions that use these maps have no access to the machine.

use std::hash::{BuildHasher, DefaultHasher, FoldHasher, Hash, Hasher};
use wd_columns::RowSource;
use wd_value::Value;

/// Makes hashers with a seed.
#[derive(Clone, Copy)]
pub struct Seeded {
    initial: FoldHasher,
}

impl Seeded {
    /// Takes the hash of everything that was written to a hasher as the seed.
    pub fn by(all: &DefaultHasher) -> Seeded {
        let mut initial = FoldHasher::default();
        initial.write_u64(all.finish());
        Seeded { initial }
    }

    /// Takes a hash of the values of a column at these positions as the seed.
    pub(crate) fn by_column(rows: &RowSource, column: u16, positions: &[u64]) -> Seeded {
        let mut all = DefaultHasher::new();
        for i in 0..positions.len() {
            write_value(rows, column, positions[i], &mut all);
        }
        Seeded::by(&all)
    }
}

impl BuildHasher for Seeded {
    type Hasher = FoldHasher;

    ghost build_hasher = { λ s. s.initial };

    fn build_hasher(&self) -> FoldHasher {
        self.initial
    }
}

/// Writes a text or a whole number of a column to a hasher; other values are not looked up.
fn write_value(rows: &RowSource, column: u16, position: u64, all: &mut DefaultHasher) {
    match rows.value(position, column as usize) {
        Value::Int(whole) => whole.hash(all),
        Value::Text(text) => text.as_str().hash(all),
        Value::Null | Value::Bool(_) => {}
    }
}
