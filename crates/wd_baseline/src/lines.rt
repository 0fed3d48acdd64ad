//! The lines of a baseline.

ghost use Rattle.std.specs.Prelude.{◌≡◌, List, map, IfOk, IfErr};
ghost use Rattle.std.specs.String.{string_bytes};
ghost use Rattle.wd_baseline.specs.Findings.{FindingRecord, finding_text};
ghost use Rattle.wd_baseline.specs.Lines.{AreFindings};
ghost use Rattle.wd_baseline.specs.Refusals.{HasLineCause};

use crate::error::{BaselineError, at_line};
use crate::read::line_of;
use std::alloc::Global;
use wd_json_lines::split_line;

/// The lines of the findings that bytes spell, as `Known::line` writes them. The first line has the number 2.
pub(crate) fn lines_in(alloc: Global, bytes: &[u8]) -> Result<Vec<String>, BaselineError>
    ensures ok { IfOk result (λ v. (fs : List FindingRecord) × AreFindings fs bytes.now × (map string_bytes v.items ≡ map finding_text fs)) }
    ensures refused { IfErr result (λ e. HasLineCause e bytes.now) }
{
    let mut found = Vec::new(alloc);
    let mut rest = bytes;
    while !rest.is_empty() {
        let (line, after) = split_line(rest);
        let number = found.len() as u64 + 2;
        match line_of(alloc, line) {
            Ok(text) => found.push(text)?,
            Err(error) => return Err(at_line(error, number)),
        }
        rest = after;
    }
    Ok(found)
}
