//! The program over its words, files and streams.

ghost use Rattle.std.specs.Prelude.{◌≡◌, ◌-◌, ◌^◌, ◌<◌, ◌≤◌, codes, map, IfOk, IfErr};
ghost use Rattle.wd_report.specs.Words.{line};
ghost use Rattle.wd_run.specs.Runs.{data_of};
ghost use Rattle.wd_command.specs.Commands.{HasAnswer};
ghost use Rattle.wd_command.specs.Failures.{HasReason, IsUnanswered};
ghost use Rattle.wd_command.specs.Files.{reads};
ghost use Rattle.wd_command.specs.Inputs.{table_by, task_of_texts};
ghost use Rattle.wd_command.specs.Outputs.{Makes};
ghost use Rattle.wd_command.specs.Statuses.{Fails, IsEnding, Succeeds, WritesWhole, world};
ghost use Rattle.wd_command.specs.Words.TaskOf.{Check, Explain, Refute, Run, Usage, Verify};

use crate::failure::{Failure, report};
use crate::files::Files;
use crate::inputs::read_inputs;
use crate::streams::write_and_flush;
use crate::task::{Table, Task};
use crate::words::read_words;
use std::alloc::{AllocError, Global};
use std::io::Write;
use wd_accept::{verify, verify_list};
use wd_decide::{decide, decide_list, examine};
use wd_refute::refute;
use wd_report::{Output, explain, report_list};
use wd_run::run_kept;
use wd_tables::answer_text_from;

const USAGE: &str = "wdcheck check [--list] SCHEMA QUERY
wdcheck explain SCHEMA QUERY
wdcheck verify [--list] SCHEMA QUERY CERT
wdcheck refute SCHEMA QUERY WITNESS
wdcheck run SCHEMA QUERY [NAME=PATH]...
";

/// Runs the program on the words after its own name, and returns its exit status. The words are checked before any file is read; the
/// files are read in the order of the words, up to the first that fails, before any of them is checked; and the whole output is made
/// before any of it is written.
pub fn command<F: Files, O: Write, E: Write>(
    alloc: Global,
    words: &[&str],
    files: &mut F,
    out: &mut O,
    err: &mut E,
) -> u8
    requires { F.failures files.old < 2 ^ 64 - 1 }
    ensures success { result < 3 → Succeeds (map (λ w. w.now) words.now)
        (world (F.handed files.old) (F.failures files.old) (O.contents out.old) (E.contents err.old))
        (world (F.handed files.new) (F.failures files.new) (O.contents out.new) (E.contents err.new)) result }
    ensures failure { 3 ≤ result → Fails (map (λ w. w.now) words.now)
        (world (F.handed files.old) (F.failures files.old) (O.contents out.old) (E.contents err.old))
        (world (F.handed files.new) (F.failures files.new) (O.contents out.new) (E.contents err.new)) result }
{
    match write_output(alloc, words, files, out) {
        Ok(status) => status,
        Err(failure) => report(&failure, err),
    }
}

// Writes the output for the words, and returns the exit status.
fn write_output<'a, F: Files, O: Write>(
    alloc: Global,
    words: &'a [&'a str],
    files: &mut F,
    out: &mut O,
) -> Result<u8, Failure<'a>>
    requires { F.failures files.old < 2 ^ 64 - 1 }
    ensures small { IfOk result (λ status. status < 3) }
    ensures ok { IfOk result (WritesWhole (map (λ w. w.now) words.now)
        (reads (F.handed files.old) (F.failures files.old)) (reads (F.handed files.new) (F.failures files.new)) (O.contents out.old) (O.contents out.new)) }
    ensures err { IfErr result (IsEnding (map (λ w. w.now) words.now)
        (reads (F.handed files.old) (F.failures files.old)) (reads (F.handed files.new) (F.failures files.new)) (O.contents out.old) (O.contents out.new)) }
{
    let output = make_output(alloc, words, files)?;
    match write_and_flush(out, output.text.as_slice()) {
        Ok(()) => Ok(output.status),
        Err(_) => Err(Failure::CannotWrite),
    }
}

// The whole output for the words.
fn make_output<'a, F: Files>(
    alloc: Global,
    words: &'a [&'a str],
    files: &mut F,
) -> Result<Output, Failure<'a>>
    requires { F.failures files.old < 2 ^ 64 - 1 }
    ensures small { IfOk result (λ output. output.status < 3) }
    ensures ok { IfOk result (Makes (map (λ w. w.now) words.now)
        (reads (F.handed files.old) (F.failures files.old)) (reads (F.handed files.new) (F.failures files.new))) }
    ensures err { IfErr result (HasReason (map (λ w. w.now) words.now)
        (reads (F.handed files.old) (F.failures files.old)) (reads (F.handed files.new) (F.failures files.new))) }
{
    let task = read_words(alloc, words)?;
    let task = read_inputs(alloc, files, task)?;
    answer(alloc, &task)
}

// The answer to a task by the texts of its inputs.
fn answer<'a>(alloc: Global, task: &Task<'_, Vec<u8>>) -> Result<Output, Failure<'a>>
    ensures small { IfOk result (λ output. output.status < 3) }
    ensures ok { IfOk result (λ output. HasAnswer (task_of_texts task.now) output.text.items output.status) }
    ensures err { IfErr result (IsUnanswered (task_of_texts task.now)) }
{
    match task {
        Task::Usage => usage(alloc),
        Task::Check {
            listed,
            schema,
            query,
        } => check_output(alloc, *listed, schema.as_slice(), query.as_slice()),
        Task::Explain { schema, query } => {
            explain_output(alloc, schema.as_slice(), query.as_slice())
        }
        Task::Verify {
            listed,
            schema,
            query,
            certificate,
        } => verify_output(
            alloc,
            *listed,
            schema.as_slice(),
            query.as_slice(),
            certificate.as_slice(),
        ),
        Task::Refute {
            schema,
            query,
            witness,
        } => refute_output(
            alloc,
            schema.as_slice(),
            query.as_slice(),
            witness.as_slice(),
        ),
        Task::Run {
            schema,
            query,
            tables,
        } => run_output(
            alloc,
            schema.as_slice(),
            query.as_slice(),
            tables.as_slice(),
        ),
    }
}

// The forms of the command line.
fn usage<'a>(alloc: Global) -> Result<Output, Failure<'a>>
    ensures small { IfOk result (λ output. output.status < 3) }
    ensures ok { IfOk result (λ output. HasAnswer Usage output.text.items output.status) }
    ensures err { IfErr result (IsUnanswered Usage) }
{
    let text = Vec::from_slice(alloc, USAGE.as_bytes())?;
    Ok(Output { text, status: 0 })
}

// The answer of `check`, with the flag or without.
fn check_output<'a>(
    alloc: Global,
    listed: bool,
    schema: &[u8],
    query: &[u8],
) -> Result<Output, Failure<'a>>
    ensures small { IfOk result (λ output. output.status < 3) }
    ensures ok { IfOk result (λ output. HasAnswer (Check listed schema.now query.now) output.text.items output.status) }
    ensures err { IfErr result (IsUnanswered (Check listed schema.now query.now)) }
{
    if listed {
        let verdict = decide_list(alloc, schema, query)?;
        let output = report_list(alloc, &verdict)?;
        return Ok(output);
    }
    let verdict = decide(alloc, schema, query)?;
    let output = wd_report::report(alloc, &verdict)?;
    Ok(output)
}

// The answer of `explain`.
fn explain_output<'a>(alloc: Global, schema: &[u8], query: &[u8]) -> Result<Output, Failure<'a>>
    ensures small { IfOk result (λ output. output.status < 3) }
    ensures ok { IfOk result (λ output. HasAnswer (Explain schema.now query.now) output.text.items output.status) }
    ensures err { IfErr result (IsUnanswered (Explain schema.now query.now)) }
{
    let examined = examine(alloc, schema, query)?;
    let output = explain(alloc, examined)?;
    Ok(output)
}

// The answer of `verify`, with the flag or without.
fn verify_output<'a>(
    alloc: Global,
    listed: bool,
    schema: &[u8],
    query: &[u8],
    certificate: &[u8],
) -> Result<Output, Failure<'a>>
    ensures small { IfOk result (λ output. output.status < 3) }
    ensures ok { IfOk result (λ output. HasAnswer (Verify listed schema.now query.now certificate.now) output.text.items output.status) }
    ensures err { IfErr result (IsUnanswered (Verify listed schema.now query.now certificate.now)) }
{
    if listed {
        verify_list(alloc, schema, query, certificate)?;
        return Ok(valid_output(alloc)?);
    }
    verify(alloc, schema, query, certificate)?;
    Ok(valid_output(alloc)?)
}

// What is printed of a certificate that is accepted.
fn valid_output(alloc: Global) -> Result<Output, AllocError>
    ensures text { IfOk result (λ output. output.text.items ≡ line (codes "ACCEPTED")) }
    ensures status { IfOk result (λ output. output.status ≡ 0) }
{
    let text = Vec::from_slice(alloc, b"ACCEPTED\n")?;
    Ok(Output { text, status: 0 })
}

// The answer of `refute`.
fn refute_output<'a>(
    alloc: Global,
    schema: &[u8],
    query: &[u8],
    witness: &[u8],
) -> Result<Output, Failure<'a>>
    ensures small { IfOk result (λ output. output.status < 3) }
    ensures ok { IfOk result (λ output. HasAnswer (Refute schema.now query.now witness.now) output.text.items output.status) }
    ensures err { IfErr result (IsUnanswered (Refute schema.now query.now witness.now)) }
{
    refute(alloc, schema, query, witness)?;
    let text = Vec::from_slice(alloc, b"REFUTED\n")?;
    Ok(Output { text, status: 1 })
}

// The answer of `run`.
fn run_output<'a>(
    alloc: Global,
    schema: &[u8],
    query: &[u8],
    tables: &[Table<'_, Vec<u8>>],
) -> Result<Output, Failure<'a>>
    ensures small { IfOk result (λ output. output.status < 3) }
    ensures ok { IfOk result (λ output. HasAnswer (Run schema.now query.now (map (table_by (λ text. text.items)) tables.now)) output.text.items output.status) }
    ensures err { IfErr result (IsUnanswered (Run schema.now query.now (map (table_by (λ text. text.items)) tables.now))) }
{
    let data = data(alloc, tables)?;
    let (names, answer) = run_kept(alloc, schema, query, data.as_slice())?;
    match answer.rows() {
        Ok(rows) => {
            let text = answer_text_from(alloc, names.as_slice(), &rows)?;
            Ok(Output { text, status: 0 })
        }
        Err(fault) => Err(Failure::Fault(fault)),
    }
}

// The tables' names with their texts.
fn data<'a>(
    alloc: Global,
    tables: &'a [Table<'_, Vec<u8>>],
) -> Result<Vec<(&'a str, &'a [u8])>, AllocError>
    ensures { IfOk result (λ v. data_of v.items ≡ map (table_by (λ text. text.items)) tables.now) }
{
    let mut data = Vec::with_capacity(alloc, tables.len())?;
    for table in tables {
        data.push((table.name, table.file.as_slice()))?;
    }
    Ok(data)
}
