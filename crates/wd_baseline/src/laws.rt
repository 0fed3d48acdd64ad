//! Laws of baselines, and a round trip: a baseline that is written is read back.

ghost use Rattle.std.specs.Prelude.{◌≡◌, ℕ, List, IfOk, IfErr};
ghost use Rattle.std.specs.List.{All, count_by};
ghost use Rattle.std.specs.Str.{bytes_eq};
ghost use Rattle.std.specs.String.{string_bytes};
ghost use Rattle.wd_baseline.specs.Baselines.{count_of};
ghost use Rattle.wd_baseline.specs.Laws.{HasOneList, IsFindingLine, IsReadBack};
ghost use Rattle.wd_baseline.specs.declared.error.BaselineError.TheVariants as error;

use crate::baseline::{Baseline, baseline_text};
use crate::error::BaselineError;
use std::alloc::Global;

/// Bytes spell at most one list of findings.
pub fn has_one_list()
    ensures { HasOneList }
{}

/// The text that is written of the lines of findings spells these findings.
pub fn is_read_back()
    ensures { IsReadBack }
{}

/// A baseline that is written of the lines of findings and read again has each finding as often as it was given, unless memory runs out.
pub fn read_back(alloc: Global, lines: Vec<String>) -> Result<Baseline, BaselineError>
    ensures same { All IsFindingLine lines.items
        → IfOk result (λ b. (line : List ℕ) → count_of b line ≡ count_by (λ s. bytes_eq (string_bytes s) line) lines.items) }
    ensures memory { All IsFindingLine lines.items → IfErr result (λ e. e ≡ error.OutOfMemory) }
{
    let bytes = baseline_text(alloc, lines)?;
    Baseline::read(alloc, &bytes)
}
