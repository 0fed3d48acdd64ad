//! How often lines appear in a list.

ghost use Rattle.std.specs.Prelude.{◌≡◌, ◌+◌, ◌-◌, ◌<◌, ◌^◌, ℕ, List, nat_lt, IfOk, OnOk};
ghost use Rattle.std.specs.List.{count_by};
ghost use Rattle.std.specs.Str.{bytes_eq};
ghost use Rattle.std.specs.String.{string_bytes};
ghost use Rattle.wd_baseline.specs.Counts.{count_in, one_if};

use std::alloc::Global;
use std::collections::HashMap;
use wd_value::OutOfMemory;

/// How often a line is counted.
fn count_of(counts: &HashMap<String, u64>, line: &str) -> u64
    ensures { result ≡ count_in counts.now line.now }
{
    counts.get(line).copied().unwrap_or(0)
}

/// Counts a line once more.
fn add_one(counts: &mut HashMap<String, u64>, alloc: Global, line: &str) -> Result<(), OutOfMemory>
    requires { count_in counts.old line.now + 1 < 2 ^ 64 }
    ensures { OnOk result ((other : List ℕ) → count_in counts.new other ≡ count_in counts.old other + one_if (bytes_eq line.now other)) }
{
    let next = count_of(counts, line) + 1;
    let key = String::from_str(alloc, line)?;
    counts.insert(key, next)?;
    Ok(())
}

/// Counts a line once less, where it is counted; else nothing changes. Returns whether it was counted.
pub(crate) fn take_one(counts: &mut HashMap<String, u64>, line: &str) -> bool
    ensures counted { result ≡ nat_lt 0 (count_in counts.old line.now) }
    ensures taken { (other : List ℕ) → count_in counts.new other ≡ count_in counts.old other - one_if (bytes_eq line.now other) }
{
    match counts.get_mut(line) {
        Some(count) => {
            let was = *count;
            let left = was.saturating_sub(1);
            *count = left;
            was > 0
        }
        None => false,
    }
}

/// How often each of these lines appears.
pub(crate) fn line_counts(
    alloc: Global,
    lines: &[String],
) -> Result<HashMap<String, u64>, OutOfMemory>
    ensures { IfOk result (λ m. (line : List ℕ) → count_in m line ≡ count_by (λ s. bytes_eq (string_bytes s) line) lines.now) }
{
    let mut counts = HashMap::new(alloc);
    for line in lines {
        add_one(&mut counts, alloc, line.as_str())?;
    }
    Ok(counts)
}
