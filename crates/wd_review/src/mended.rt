//! Files with added sort keys.

use crate::run::Run;
use std::alloc::Global;
use wd_file::Reviewed;
use wd_formats::Level;
use wd_judged::File;
use wd_output::Report;
use wd_sources::{MOST_BYTES, STANDARD_INPUT, SourceError, Sources};
use wd_value::OutOfMemory;

/// The remark on a file that is not written with its keys.
const NOT_FIXED: &str = "not fixed";

/// Writes a file with its mended statements, if there are any, and reports it. The new text of standard input is appended to a text.
pub(crate) fn write_mended<S: Sources>(
    run: &mut Run<'_, S>,
    file: File<'_>,
    reviewed: Reviewed,
    input: &mut Vec<u8>,
    report: &mut Report,
) -> Result<(), OutOfMemory> {
    let Reviewed {
        statements,
        mended,
        text,
        ..
    } = reviewed;
    let alloc = run.alloc;
    if file.text.len() as u64 >= MOST_BYTES {
        let reason = "it has more than 65,536 bytes";
        return run.tell_not_done(NOT_FIXED, file.path, reason, report);
    }
    if file.path == STANDARD_INPUT {
        match text {
            Some(text) => input.extend_from_slice(&text)?,
            None => input.extend_from_slice(file.text)?,
        }
    } else if let Some(text) = text {
        if let Some(remark) = replace_text(alloc, file, &text, run.sources)? {
            return run.tell_not_done(NOT_FIXED, file.path, remark, report);
        }
    }
    if mended == 0 {
        return Ok(());
    }
    let line = format!(in alloc; "fixed: {mended} of {statements} queries")?;
    report.add_line(alloc, "fixed", Level::Warning, file.path, line.as_str())
}

/// Replaces the text of a file, if it still is the text that was checked. The result is why it is not replaced.
fn replace_text<S: Sources>(
    alloc: Global,
    file: File<'_>,
    text: &[u8],
    sources: &mut S,
) -> Result<Option<&'static str>, OutOfMemory> {
    let is_as_judged = match sources.read(alloc, file.path, MOST_BYTES) {
        Ok(now) => now.as_slice() == file.text,
        Err(_) => false,
    };
    if !is_as_judged {
        return Ok(Some("it has changed meanwhile"));
    }
    match sources.replace(alloc, file.path, text) {
        Ok(()) => Ok(None),
        Err(error) => Ok(Some(words_of_error(error)?)),
    }
}

/// Why a file is not written.
pub(crate) fn words_of_error(error: SourceError) -> Result<&'static str, OutOfMemory> {
    match error {
        SourceError::Missing | SourceError::Failed => Ok("it can't be written"),
        SourceError::Taken => Ok("a file .NAME.wdreport-new stands beside it: take it away"),
        SourceError::OutOfMemory => Err(OutOfMemory),
    }
}
