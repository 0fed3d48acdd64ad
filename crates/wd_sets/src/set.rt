//! Sets of members.

ghost use Rattle.std.specs.Prelude.{◌≡◌, ◌<◌, ◌≤◌, ◌/◌, ℕ, true, false, not, ◌||◌, nat_eq, length, IfOk, IfErr, IsTrue, get_or};
ghost use Rattle.wd_step_facts.specs.declared.facts.Member.{Member as AMember};
ghost use Rattle.wd_sets.specs.Sets.{same_member};
ghost use Rattle.wd_sets.specs.Sets as spec;

use std::alloc::Global;
use wd_facts::Member;
use wd_value::OutOfMemory;

/// The number of a member's bit: the row's, the sides', then the columns' in order.
pub fn place(member: Member) -> usize
    ensures { result ≡ spec.place member }
{
    match member {
        Member::Row => 0,
        Member::Left => 1,
        Member::Right => 2,
        Member::Column(column) => column as usize + 3,
    }
}

/// Whether a bit is set.
fn has_bit(words: &[u64], at: usize) -> bool
    ensures { result ≡ spec.has_bit words.now at }
{
    if at / 64 < words.len() {
        (words[at / 64] >> (at % 64)) & 1 == 1
    } else {
        false
    }
}

/// Sets a bit.
fn set_bit(words: &mut [u64], at: usize)
    requires within { at / 64 < length words.old }
    ensures bits { (i : ℕ) → spec.has_bit words.new i ≡ (nat_eq i at || spec.has_bit words.old i) }
{
    words[at / 64] |= 1u64 << (at % 64);
}

/// Appends words until there are so many, with no room beyond: sets are kept by the million.
fn widen(words: &mut Vec<u64>, count: usize) -> Result<(), OutOfMemory>
    ensures within { IfOk result (λ _. count ≤ length words.new.items) }
    ensures bits { (i : ℕ) → get_or words.new.items i 0 ≡ get_or words.old.items i 0 }
{
    words.reserve_exact(count.saturating_sub(words.len()))?;
    while words.len() < count {
        words.push(0)?;
    }
    Ok(())
}

/// Adds the bits of other words.
fn or_words(words: &mut [u64], others: &[u64])
    requires { length others.now ≤ length words.old }
    ensures { (i : ℕ) → spec.has_bit words.new i ≡ (spec.has_bit words.old i || spec.has_bit others.now i) }
{
    for (at, other) in others.iter().enumerate() {
        words[at] |= *other;
    }
}

/// The word with a number, which is empty past the last.
fn word_at(words: &[u64], at: usize) -> u64
    ensures { result ≡ get_or words.now at 0 }
{
    match words.get(at) {
        Some(word) => *word,
        None => 0,
    }
}

/// Whether each bit of the words is set in one of two others.
fn are_within(words: &[u64], first: &[u64], second: &[u64]) -> bool
    ensures within { IsTrue result → (i : ℕ) → spec.has_bit words.now i ≡ true → (spec.has_bit first.now i || spec.has_bit second.now i) ≡ true }
    ensures outside { result ≡ false → (i : ℕ) × (spec.has_bit words.now i ≡ true) × ((spec.has_bit first.now i || spec.has_bit second.now i) ≡ false) }
{
    for (at, word) in words.iter().enumerate() {
        let among = word_at(first, at) | word_at(second, at);
        if *word | among != among {
            return false;
        }
    }
    true
}

/// A set of columns, the sides of a Join and the row, as bits; it grows with its members.
#[derive(Drop)]
pub struct Set {
    words: Vec<u64>,
}

impl Set {
    /// The empty set.
    pub fn new(alloc: Global) -> Set
        ensures { (m : AMember) → spec.has result m ≡ false }
    {
        Set {
            words: Vec::new(alloc),
        }
    }

    /// Whether a member is in the set.
    pub fn contains(&self, member: Member) -> bool
        ensures { result ≡ spec.has self.now member }
    {
        has_bit(&self.words, place(member))
    }

    /// Adds a member; the result is whether it was new.
    ///
    /// # Errors
    /// Where memory runs out; the set is then unchanged.
    pub fn insert(&mut self, member: Member) -> Result<bool, OutOfMemory>
        ensures fresh { IfOk result (λ b. b ≡ not (spec.has self.old member)) }
        ensures has { IfOk result (λ _. (m : AMember) → spec.has self.new m ≡ (same_member m member || spec.has self.old m)) }
        ensures kept { IfErr result (λ _. (m : AMember) → spec.has self.new m ≡ spec.has self.old m) }
    {
        let at = place(member);
        widen(&mut self.words, at / 64 + 1)?;
        if has_bit(&self.words, at) {
            return Ok(false);
        }
        set_bit(&mut self.words, at);
        Ok(true)
    }

    /// Adds all members of another set.
    ///
    /// # Errors
    /// Where memory runs out; the set is then unchanged.
    pub fn insert_all(&mut self, other: &Set) -> Result<(), OutOfMemory>
        ensures has { IfOk result (λ _. (m : AMember) → spec.has self.new m ≡ (spec.has self.old m || spec.has other.now m)) }
        ensures kept { IfErr result (λ _. (m : AMember) → spec.has self.new m ≡ spec.has self.old m) }
    {
        widen(&mut self.words, other.words.len())?;
        or_words(&mut self.words, &other.words);
        Ok(())
    }

    /// Whether each member is in one of two other sets, by a look at whole words.
    pub fn is_within(&self, first: &Set, second: &Set) -> bool
        ensures within { IsTrue result → (m : AMember) → spec.has self.now m ≡ true → (spec.has first.now m || spec.has second.now m) ≡ true }
        ensures outside { result ≡ false → (m : AMember) × (spec.has self.now m ≡ true) × ((spec.has first.now m || spec.has second.now m) ≡ false) }
    {
        are_within(&self.words, &first.words, &second.words)
    }
}
