//! The walk over all files.

use crate::run::{Run, Step};
use crate::stop::Stop;
use std::io::Write;
use std::rt::Clock;
use wd_output::{Report, Screen, Watch};
use wd_sources::Sources;
use wd_value::OutOfMemory;
use wd_words::Format;

/// What is done with each file.
pub(crate) trait EachFile {
    /// Does it with the file of a path, and reports it.
    fn take<S: Sources, W: Watch>(
        &mut self,
        run: &mut Run<'_, S>,
        path: &str,
        report: &mut Report,
        watch: &mut W,
    ) -> Result<(), OutOfMemory>;
}

/// Does it with the files, one after the other, and writes what is reported of each.
pub(crate) fn walk<'w, S: Sources, C: Clock, O: Write, E: Write, T: EachFile>(
    run: &mut Run<'_, S>,
    steps: &[Step],
    format: Format,
    task: &mut T,
    screen: &mut Screen<'_, C, O, E>,
) -> Result<(), Stop<'w>> {
    for step in steps {
        screen.begin_file();
        let mut report = Report::new(run.alloc, format);
        take_step(run, step, task, &mut report, screen)?;
        screen.tell(run.alloc, &report)?;
    }
    Ok(())
}

/// Does it with a file, or reports that its path is wrong.
fn take_step<S: Sources, W: Watch, T: EachFile>(
    run: &mut Run<'_, S>,
    step: &Step,
    task: &mut T,
    report: &mut Report,
    watch: &mut W,
) -> Result<(), OutOfMemory> {
    match step {
        Step::File(path) => task.take(run, path.as_str(), report, watch),
        Step::Wrong(path, error) => run.tell_wrong(path.as_str(), *error, report),
    }
}
