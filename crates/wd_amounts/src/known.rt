//! What is known of names by their uses. The uses are gone through once, and of each name it is kept what its uses so far come to.

ghost use Rattle.std.specs.Prelude.{◌≡◌, map, ℕ, List, None, Some, IfOk, OnOk};
ghost use Rattle.wd_amounts.specs.Seen.{kept_seen, known_seen, use_seen};
ghost use Rattle.wd_amounts.specs.Uses.{agreed_from, known_by, with_next, with_use};

use crate::uses::{NameUse, NameValue};
use std::alloc::Global;
use std::collections::HashMap;
use wd_value::OutOfMemory;

/// What the values of names are, where that is known.
#[derive(Drop)]
pub struct KnownNames<V> {
    values: HashMap<String, Option<V>>,
}

/// What the uses of a name come to so far, and one more.
fn with_use<V: NameValue>(so_far: Option<Option<V>>, value: Option<V>) -> Option<V>
    ensures { Some result ≡ with_use V.either so_far value }
{
    match so_far {
        None => value,
        Some(first) => V::either(first, value),
    }
}

impl<V: NameValue> KnownNames<V> {
    /// No name is known.
    pub(crate) fn new(alloc: Global) -> KnownNames<V>
        ensures { (name : List ℕ) → kept_seen result name ≡ None }
    {
        KnownNames {
            values: HashMap::new(alloc),
        }
    }

    /// What is known of names that are used so.
    pub fn from_uses(alloc: Global, uses: &[NameUse<V>]) -> Result<KnownNames<V>, OutOfMemory>
        ensures { IfOk result (λ known. known_seen known ≡ known_by V.either (map use_seen uses.now)) }
    {
        let mut known = KnownNames::new(alloc);
        known.add_all(alloc, uses)?;
        Ok(known)
    }

    /// What the values of a name are.
    pub fn value_named(&self, name: &str) -> Option<V>
        ensures { result ≡ known_seen self.now name.now }
    {
        match self.values.get(name) {
            Some(value) => *value,
            None => None,
        }
    }

    /// A name is used once more.
    fn add(&mut self, alloc: Global, next: &NameUse<V>) -> Result<(), OutOfMemory>
        ensures { OnOk result ((other : List ℕ) → kept_seen self.new other ≡ with_next V.either (kept_seen self.old other) (use_seen next.now) other) }
    {
        let value = with_use(self.values.get(next.name).copied(), next.value);
        let key = String::from_str(alloc, next.name)?;
        self.values.insert(key, value)?;
        Ok(())
    }

    /// Names are used once more, one after the other.
    #[tactic(auto, unfolding(crate::specs::Uses::agreed_from))]
    pub(crate) fn add_all(&mut self, alloc: Global, uses: &[NameUse<V>]) -> Result<(), OutOfMemory>
        ensures { OnOk result ((other : List ℕ) → kept_seen self.new other ≡ agreed_from V.either (kept_seen self.old other) other (map use_seen uses.now)) }
    {
        let mut rest = uses;
        while let [first, after @ ..] = rest {
            self.add(alloc, first)?;
            rest = after;
        }
        Ok(())
    }
}
