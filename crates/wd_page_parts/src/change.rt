//! A help: the lines of a query that change, before and after.

ghost use Rattle.std.specs.Prelude.{◌≡◌, length, take, OnErr, OnOk};

use std::alloc::Global;
use wd_markup::{Class, Page, Tag};
use wd_value::OutOfMemory;

/// Adds the lines in which two texts of equally many lines differ: each line of the old text in red, and below it the line of the new one
/// in green.
pub fn add_change(alloc: Global, page: &mut Page, old: &[u8], new: &[u8]) -> Result<(), OutOfMemory>
    ensures appended { OnOk result (take (length page.old) page.new ≡ page.old) }
    ensures kept { OnErr result (page.new ≡ page.old) }
{
    let part = change_part(alloc, old, new)?;
    Ok(page.append(&part)?)
}

/// The lines in which two texts differ.
fn change_part(alloc: Global, old: &[u8], new: &[u8]) -> Result<Page, OutOfMemory> {
    let mut page = Page::new(alloc);
    page.open(Tag::Preformatted, Class::Plain)?;
    let mut others = new.split(|byte| *byte == b'\n');
    for line in old.split(|byte| *byte == b'\n') {
        if let Some(other) = others.next() {
            add_line(&mut page, line, other)?;
        }
    }
    page.close(Tag::Preformatted)?;
    Ok(page)
}

/// Adds a line and its replacement, if they differ.
fn add_line(page: &mut Page, old: &[u8], new: &[u8]) -> Result<(), OutOfMemory> {
    if old == new {
        return Ok(());
    }
    page.open(Tag::Deleted, Class::Plain)?;
    page.text(b"- ")?;
    page.text(old)?;
    page.close(Tag::Deleted)?;
    page.open(Tag::Inserted, Class::Plain)?;
    page.text(b"+ ")?;
    page.text(new)?;
    Ok(page.close(Tag::Inserted)?)
}
