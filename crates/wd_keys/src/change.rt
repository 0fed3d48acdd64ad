//! What is put into a text.

ghost use Rattle.std.specs.Prelude.{◌≡◌, ◌++◌, codes, string_bytes, IfOk, IfSome, IfNone, OnErr};
ghost use Rattle.wd_keys.specs.Changes.{ArePut, ComeInOrder, IsBlank, IsCopy, IsKeyChange, IsOrderBy};

use std::alloc::Global;
use wd_sites::KeyPlace;
use wd_value::OutOfMemory;

/// A range of a text, and what is put in its place. Where sort keys are added the range is empty.
#[derive(Drop)]
pub struct Change {
    /// The byte at which the range begins.
    pub at: u64,
    /// The byte before which the range ends.
    pub end: u64,
    /// What is put there: of sort keys a comma or ORDER BY, and the keys.
    pub text: String,
    /// The sort keys alone.
    pub keys: String,
}

impl Change {
    /// The first keys at a place of a text: after a comma, or after ORDER BY where there are no keys yet.
    pub fn first(
        alloc: Global,
        query: &[u8],
        place: KeyPlace,
        keys: &str,
    ) -> Result<Change, OutOfMemory>
        ensures { IfOk result (IsKeyChange place keys.now) }
    {
        let text = match place.order {
            Some(_) => format!(in alloc; ", {keys}")?,
            None => order_by(alloc, query, place.at as usize, keys)?,
        };
        Ok(Change {
            at: place.at,
            end: place.at,
            text,
            keys: String::from_str(alloc, keys)?,
        })
    }

    /// Adds keys after those that the change has. Where memory runs out, the change stays as it was.
    pub fn add(&mut self, alloc: Global, keys: &str) -> Result<(), OutOfMemory>
        ensures at { self.new.at ≡ self.old.at }
        ensures end { self.new.end ≡ self.old.end }
        ensures text { IfOk result (λ _. string_bytes self.new.text ≡ string_bytes self.old.text ++ codes ", " ++ keys.now) }
        ensures keys { IfOk result (λ _. string_bytes self.new.keys ≡ string_bytes self.old.keys ++ codes ", " ++ keys.now) }
        ensures kept { OnErr result (self.new ≡ self.old) }
    {
        let text = longer(alloc, self.text.as_str(), keys)?;
        let all = longer(alloc, self.keys.as_str(), keys)?;
        self.text = text;
        self.keys = all;
        Ok(())
    }

    /// An equal change.
    pub fn copy(&self, alloc: Global) -> Result<Change, OutOfMemory>
        ensures { IfOk result (λ c. IsCopy self.now c) }
    {
        Ok(Change {
            at: self.at,
            end: self.end,
            text: String::from_str(alloc, self.text.as_str())?,
            keys: String::from_str(alloc, self.keys.as_str())?,
        })
    }
}

/// A text followed by keys, after a comma.
fn longer(alloc: Global, text: &str, keys: &str) -> Result<String, OutOfMemory>
    ensures { IfOk result (λ t. string_bytes t ≡ text.now ++ codes ", " ++ keys.now) }
{
    let mut longer = String::from_str(alloc, text)?;
    longer.push_str(", ")?;
    longer.push_str(keys)?;
    Ok(longer)
}

/// ORDER BY and keys, to be put in at a place of a text: with a blank where a word or a token is next to it.
fn order_by(alloc: Global, query: &[u8], at: usize, keys: &str) -> Result<String, OutOfMemory>
    ensures { IfOk result (λ t. IsOrderBy keys.now (string_bytes t)) }
{
    let before = blank_if(!matches!(byte_before(query, at), Some(b'(')));
    let after = blank_if(matches!(query.get(at), Some(b) if b.is_ascii_alphanumeric()));
    Ok(format!(in alloc; "{before}ORDER BY {keys}{after}")?)
}

/// A blank, where one is needed.
fn blank_if(is_wanted: bool) -> &'static str
    ensures { IsBlank result.now }
{
    if is_wanted { " " } else { "" }
}

/// The byte before a place.
fn byte_before(text: &[u8], at: usize) -> Option<u8> {
    text.get(at.checked_sub(1)?).copied()
}

/// A text with changes put in, which must come in the order of their places without overlapping. `None` where they do not, or where one
/// reaches past the text.
pub fn apply_changes(
    alloc: Global,
    text: &[u8],
    changes: &[Change],
) -> Result<Option<Vec<u8>>, OutOfMemory>
    ensures put { IfOk result (λ found. IfSome found (λ t. ArePut text.now changes.now t.items)) }
    ensures wrong { IfOk result (λ found. IfNone found (ComeInOrder text.now 0 changes.now → ⊥)) }
{
    let mut out = Vec::new(alloc);
    let mut start = 0;
    for change in changes {
        let at = change.at as usize;
        let end = change.end as usize;
        if at < start || end < at || end > text.len() {
            return Ok(None);
        }
        out.extend_from_slice(&text[start..at])?;
        out.extend_from_slice(change.text.as_bytes())?;
        start = end;
    }
    out.extend_from_slice(&text[start..])?;
    Ok(Some(out))
}
