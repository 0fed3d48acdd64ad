//! Reading lines.

ghost use Rattle.std.specs.Prelude.{◌≤◌, length, map, IfOk, IfErr};
ghost use Rattle.wd_json_lines.specs.Lines.{AreLines};
ghost use Rattle.wd_json_lines.specs.Refusals.{HasCause, IsWithin};

use crate::error::{LineError, at_line};
use crate::line::{InLine, split_line};
use std::alloc::Global;

/// The values of the lines of a text. After the last line feed there need not be anything. The first line that is of no value is refused.
pub fn read_lines<T: InLine>(alloc: Global, bytes: &[u8]) -> Result<Vec<T>, LineError>
    ensures ok { IfOk result (λ v. AreLines T.json (map T.said v.items) bytes.now) }
    ensures refused { IfErr result (λ e. HasCause T.json e bytes.now) }
    ensures within { IfErr result (λ e. IsWithin e (length bytes.now)) }
{
    let mut found = Vec::new(alloc);
    let mut rest = bytes;
    while !rest.is_empty() {
        let (line, after) = split_line(rest);
        let number = found.len() as u64 + 1;
        match T::from_line(alloc, line) {
            Ok(value) => found.push(value)?,
            Err(error) => return Err(at_line(error, number)),
        }
        rest = after;
    }
    Ok(found)
}
