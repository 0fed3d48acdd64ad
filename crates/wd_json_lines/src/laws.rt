//! Laws of lines, and a round trip: what is written is read back.

ghost use Rattle.std.specs.Prelude.{◌≡◌, map, IfOk, IfErr};
ghost use Rattle.wd_json_lines.specs.Laws.{HaveOneList};
ghost use Rattle.wd_json_lines.specs.declared.error.LineError.TheVariants as error;

use crate::error::LineError;
use crate::line::InLine;
use crate::read::read_lines;
use crate::write::write_lines;
use std::alloc::Global;

/// Lines are those of at most one list of JSON values.
pub fn have_one_list<T: InLine>()
    ensures { HaveOneList T.json }
{}

/// Values that are written and read again are unchanged, in number and in order, unless memory runs out.
pub fn read_back<T: InLine>(alloc: Global, items: &[T]) -> Result<Vec<T>, LineError>
    ensures same { IfOk result (λ v. map T.json (map T.said v.items) ≡ map T.json (map T.said items.now)) }
    ensures memory { IfErr result (λ e. e ≡ error.OutOfMemory) }
{
    let bytes = write_lines(alloc, items)?;
    read_lines(alloc, &bytes)
}
