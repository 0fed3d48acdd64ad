//! Writing lines.

ghost use Rattle.std.specs.Prelude.{◌≡◌, map, IfOk};
ghost use Rattle.wd_json_lines.specs.Lines.{AreLines, lines_text};

use crate::line::InLine;
use std::alloc::Global;
use wd_value::OutOfMemory;

/// The lines of values, each with its line feed.
pub fn write_lines<T: InLine>(alloc: Global, items: &[T]) -> Result<Vec<u8>, OutOfMemory>
    ensures text { IfOk result (λ b. b.items ≡ lines_text T.json (map T.said items.now)) }
    ensures spells { IfOk result (λ b. AreLines T.json (map T.said items.now) b.items) }
{
    let mut text = Vec::new(alloc);
    for item in items {
        let line = item.to_line(alloc)?;
        text.extend_from_slice(&line)?;
        text.push(b'\n')?;
    }
    Ok(text)
}
