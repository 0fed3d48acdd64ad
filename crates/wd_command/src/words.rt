//! What the words of the command line ask for.

ghost use Rattle.std.specs.Prelude.{◌≡◌, ℕ, List, map, codes, option_map, false, Any, Some, IfOk, IfErr, IfSome, IfNone};
ghost use Rattle.clap.specs.Words.{app_of, found_of, rows_of, rule_of, subcommand_rows_of};
ghost use Rattle.clap.specs.declared.builder.command.Command.TheViews.{out-Command as fields_of};
ghost use Rattle.wd_command.specs.CommandLine as spec;
ghost use Rattle.wd_command.specs.CommandLine.{AskFor, line_after, line_in};
ghost use Rattle.wd_command.specs.Failures.{HasReason, IsUncut};
ghost use Rattle.wd_command.specs.Files.{Reads};
ghost use Rattle.wd_command.specs.Inputs.{table_by, task_of_paths};
ghost use Rattle.wd_command.specs.Words.{AreCut, HasNoEquals, HasUncut, IsCut, word_of, words_of};

use crate::failure::Failure;
use crate::task::{Table, Task};
use clap::error::ErrorKind;
use clap::{Arg, ArgAction, ArgMatches, Command};
use std::alloc::{AllocError, Global};

/// Reads the words after the program's own name.
pub fn read_words<'a>(alloc: Global, words: &'a [&'a str]) -> Result<Task<'a, &'a str>, Failure<'a>>
    ensures ok { IfOk result (λ task. AskFor (map (λ w. w.now) words.now) (task_of_paths task)) }
    ensures err { IfErr result (λ failure. (reads : Reads) → HasReason (map (λ w. w.now) words.now) reads reads failure) }
{
    if words.is_empty() {
        return Ok(Task::Usage);
    }
    let mut command = command_line(alloc)?;
    let matches = command.try_get_matches_from_mut(words)?;
    match parsed_task(alloc, &matches)? {
        Some(task) => Ok(task),
        None => {
            let error = command.error(ErrorKind::MissingSubcommand, "no command was given")?;
            Err(Failure::from(error))
        }
    }
}

// What the program's help says below the commands.
const STATUSES: &str = "Exit status:
  0  DETERMINISTIC, LISTED, ACCEPTED, or the rows of the answer
  1  DEPENDS or REFUTED: two orders of rows that tie give two answers
  2  UNKNOWN: neither is shown; LIST OPEN: one answer is, but no order of its rows
  3  an input is refused (WHERE: refused N), or the command line
  4  the query ends in a fault (fault F1, fault F2)
  5  a file can't be read, the output can't be written, or memory runs out";

// The command line: one level of subcommands, each with positional words.
fn command_line<'a>(alloc: Global) -> Result<Command<'a>, AllocError>
    ensures { IfOk result (λ command. app_of command ≡ spec.command_line) }
{
    let command = program(alloc)?
        .subcommand(check_command(alloc)?)?
        .subcommand(explain_command(alloc)?)?
        .subcommand(verify_command(alloc)?)?
        .subcommand(refute_command(alloc)?)?
        .subcommand(run_command(alloc)?)?;
    Ok(command)
}

// The program's name, after which a command is required.
fn program<'a>(alloc: Global) -> Result<Command<'a>, AllocError>
    ensures { IfOk result (λ command. app_of command ≡ spec.program) }
{
    Command::new(alloc, "wdcheck")
        .about(
            "Tells whether a SQL query with window functions has one answer, whatever the order of rows that tie.",
        )
        .after_help(STATUSES)
        .no_binary_name(true)
        .subcommand_required(true)
        .bin_name("wdcheck")
}

fn check_command<'a>(alloc: Global) -> Result<Command<'a>, AllocError>
    ensures app { IfOk result (λ command. app_of command ≡ spec.with_list (spec.paths_command (codes "check"))) }
    ensures local { IfOk result (λ command. (fields_of command).has_globals ≡ false) }
{
    let command = paths_command(alloc, "check")?.arg(list_flag(alloc))?;
    Ok(command.about("Prints the verdict: DETERMINISTIC, DEPENDS or UNKNOWN, and what shows it"))
}

fn explain_command<'a>(alloc: Global) -> Result<Command<'a>, AllocError>
    ensures app { IfOk result (λ command. app_of command ≡ spec.paths_command (codes "explain")) }
    ensures local { IfOk result (λ command. (fields_of command).has_globals ≡ false) }
{
    let command = paths_command(alloc, "explain")?;
    Ok(command.about("Prints the plan, with the rule of each window call and limit"))
}

fn verify_command<'a>(alloc: Global) -> Result<Command<'a>, AllocError>
    ensures app { IfOk result (λ command. app_of command ≡ spec.with_list (spec.file_command (codes "verify"))) }
    ensures local { IfOk result (λ command. (fields_of command).has_globals ≡ false) }
{
    let certificate = file_word(alloc, "CERT").help("A file with the certificate's line");
    let command = paths_command(alloc, "verify")?
        .arg(certificate)?
        .arg(list_flag(alloc))?;
    Ok(command.about(
        "Prints ACCEPTED where the certificate is valid, so that the query has one answer",
    ))
}

fn refute_command<'a>(alloc: Global) -> Result<Command<'a>, AllocError>
    ensures app { IfOk result (λ command. app_of command ≡ spec.file_command (codes "refute")) }
    ensures local { IfOk result (λ command. (fields_of command).has_globals ≡ false) }
{
    let witness = file_word(alloc, "WITNESS").help("A file with the witness's line");
    let command = paths_command(alloc, "refute")?.arg(witness)?;
    Ok(command.about("Prints REFUTED where the witness's two orders give two answers"))
}

// The words `run SCHEMA QUERY [NAME=PATH]...`.
fn run_command<'a>(alloc: Global) -> Result<Command<'a>, AllocError>
    ensures app { IfOk result (λ command. app_of command ≡ spec.tables_command (codes "run")) }
    ensures local { IfOk result (λ command. (fields_of command).has_globals ≡ false) }
{
    let tables = Arg::new(alloc, "tables")
        .num_args(0..)
        .value_name("NAME=PATH")
        .help("A table of the query and its CSV file with a header");
    let command = paths_command(alloc, "run")?.arg(tables)?;
    Ok(command.about("Prints the answer over CSV tables, as CSV"))
}

// The words `NAME SCHEMA QUERY`.
fn paths_command<'a>(alloc: Global, name: &'a str) -> Result<Command<'a>, AllocError>
    ensures app { IfOk result (λ command. app_of command ≡ spec.paths_command name.entry.now) }
    ensures local { IfOk result (λ command. (fields_of command).has_globals ≡ false) }
{
    let schema = Arg::new(alloc, "schema")
        .required(true)
        .value_name("SCHEMA")
        .help("A file of CREATE TABLE statements");
    let query = Arg::new(alloc, "query")
        .required(true)
        .value_name("QUERY")
        .help("A file with one SELECT");
    Command::new(alloc, name).arg(schema)?.arg(query)
}

// One more path, after the words `NAME SCHEMA QUERY`.
fn file_word<'a>(alloc: Global, value_name: &'a str) -> Arg<'a>
    ensures rule { rule_of result ≡ spec.wanted (codes "file") }
    ensures local { result.global ≡ false }
{
    Arg::new(alloc, "file")
        .required(true)
        .value_name(value_name)
}

// The flag `--list`.
fn list_flag<'a>(alloc: Global) -> Arg<'a>
    ensures rule { rule_of result ≡ spec.flag (codes "list") }
    ensures local { result.global ≡ false }
{
    Arg::new(alloc, "list")
        .long("list")
        .action(ArgAction::SetTrue)
        .help("Asks for one list of rows: their order must be fixed too")
}

// The task in what a parse has found, if any.
fn parsed_task<'a>(
    alloc: Global,
    matches: &ArgMatches<'a>,
) -> Result<Option<Task<'a, &'a str>>, Failure<'a>>
    ensures ok { IfOk result (λ task. option_map (λ t. words_of (task_of_paths t)) task ≡ line_in (subcommand_rows_of matches.now)) }
    ensures cut { IfOk result (λ task. IfSome task (λ t. IsCut (task_of_paths t))) }
    ensures err { IfErr result (IsUncut (λ word. (line : List (List ℕ)) × (line_in (subcommand_rows_of matches.now) ≡ Some line) × HasUncut line word)) }
{
    if let Some(given) = matches.subcommand_matches("check") {
        return Ok(check_task(given));
    }
    if let Some(given) = matches.subcommand_matches("explain") {
        return Ok(explain_task(given));
    }
    if let Some(given) = matches.subcommand_matches("verify") {
        return Ok(verify_task(given));
    }
    if let Some(given) = matches.subcommand_matches("refute") {
        return Ok(refute_task(given));
    }
    if let Some(given) = matches.subcommand_matches("run") {
        return run_task(alloc, given);
    }
    Ok(None)
}

// The paths of the schema and the query.
fn two_paths<'a>(given: &ArgMatches<'a>) -> Option<(&'a str, &'a str)>
    ensures { option_map {U = List ℕ × List ℕ} (λ paths. (paths.0.now, paths.1.now)) result ≡ spec.two_paths (rows_of (found_of given.now)) }
{
    Some((given.get_str("schema")?, given.get_str("query")?))
}

// The paths of the schema and the query, and the path of one more file.
fn three_paths<'a>(given: &ArgMatches<'a>) -> Option<(&'a str, &'a str, &'a str)>
    ensures { option_map {U = List ℕ × List ℕ × List ℕ} (λ paths. (paths.0.now, paths.1.now, paths.2.now)) result
        ≡ spec.three_paths (rows_of (found_of given.now)) }
{
    let file = given.get_str("file")?;
    let (schema, query) = two_paths(given)?;
    Some((schema, query, file))
}

// Whether the flag `--list` was given. `get_flag` does the same, but its contract does not say what it makes of a text that is neither
// `true` nor `false`.
fn is_listed(given: &ArgMatches<'_>) -> bool
    ensures { result ≡ spec.is_listed (rows_of (found_of given.now)) }
{
    given.get_one("list").unwrap_or(false)
}

fn check_task<'a>(given: &ArgMatches<'a>) -> Option<Task<'a, &'a str>>
    ensures words { option_map (λ t. words_of (task_of_paths t)) result ≡ line_after (codes "check") (rows_of (found_of given.now)) }
    ensures cut { IfSome result (λ t. IsCut (task_of_paths t)) }
{
    let (schema, query) = two_paths(given)?;
    Some(Task::Check {
        listed: is_listed(given),
        schema,
        query,
    })
}

fn explain_task<'a>(given: &ArgMatches<'a>) -> Option<Task<'a, &'a str>>
    ensures words { option_map (λ t. words_of (task_of_paths t)) result ≡ line_after (codes "explain") (rows_of (found_of given.now)) }
    ensures cut { IfSome result (λ t. IsCut (task_of_paths t)) }
{
    let (schema, query) = two_paths(given)?;
    Some(Task::Explain { schema, query })
}

fn verify_task<'a>(given: &ArgMatches<'a>) -> Option<Task<'a, &'a str>>
    ensures words { option_map (λ t. words_of (task_of_paths t)) result ≡ line_after (codes "verify") (rows_of (found_of given.now)) }
    ensures cut { IfSome result (λ t. IsCut (task_of_paths t)) }
{
    let (schema, query, certificate) = three_paths(given)?;
    Some(Task::Verify {
        listed: is_listed(given),
        schema,
        query,
        certificate,
    })
}

fn refute_task<'a>(given: &ArgMatches<'a>) -> Option<Task<'a, &'a str>>
    ensures words { option_map (λ t. words_of (task_of_paths t)) result ≡ line_after (codes "refute") (rows_of (found_of given.now)) }
    ensures cut { IfSome result (λ t. IsCut (task_of_paths t)) }
{
    let (schema, query, witness) = three_paths(given)?;
    Some(Task::Refute {
        schema,
        query,
        witness,
    })
}

fn run_task<'a>(
    alloc: Global,
    given: &ArgMatches<'a>,
) -> Result<Option<Task<'a, &'a str>>, Failure<'a>>
    ensures ok { IfOk result (λ task. option_map (λ t. words_of (task_of_paths t)) task ≡ line_after (codes "run") (rows_of (found_of given.now))) }
    ensures cut { IfOk result (λ task. IfSome task (λ t. IsCut (task_of_paths t))) }
    ensures err { IfErr result (IsUncut (λ word. (line : List (List ℕ)) × (line_after (codes "run") (rows_of (found_of given.now)) ≡ Some line) × HasUncut line word)) }
{
    let Some((schema, query)) = two_paths(given) else {
        return Ok(None);
    };
    let tables = tables_named(alloc, given.get_strs("tables").unwrap_or(&[]))?;
    Ok(Some(Task::Run {
        schema,
        query,
        tables,
    }))
}

// The tables of words NAME=PATH, each cut at its first `=`.
fn tables_named<'a>(
    alloc: Global,
    words: &[&'a str],
) -> Result<Vec<Table<'a, &'a str>>, Failure<'a>>
    ensures ok { IfOk result (λ v. AreCut (map (λ w. w.now) words.now) (map (table_by (λ path. path.now)) v.items)) }
    ensures err { IfErr result (IsUncut (λ word. HasNoEquals word × Any (λ w. w ≡ word) (map (λ w. w.now) words.now))) }
{
    let mut tables = Vec::with_capacity(alloc, words.len())?;
    for word in words {
        let Some(table) = table_from(word) else {
            return Err(Failure::Unassigned(word));
        };
        tables.push(table)?;
    }
    Ok(tables)
}

fn table_from<'a>(word: &'a str) -> Option<Table<'a, &'a str>>
    ensures joined { IfSome result (λ table. word.entry.now ≡ word_of (table_by (λ path. path.now) table)) }
    ensures first { IfSome result (λ table. HasNoEquals table.name.now) }
    ensures none { IfNone result (HasNoEquals word.entry.now) }
{
    let (name, file) = word.split_once('=')?;
    Some(Table { name, file })
}
