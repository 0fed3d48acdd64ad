//! Reads the words of the command line.

use crate::request::{Asked, Colour, FilesRequest, Format, Request};
use clap::{Arg, ArgAction, ArgMatches, Command, Error};
use std::alloc::{AllocError, Global};

/// Reads the words after the program's own name. Help and version, which have a text too, are returned as the error.
pub fn read_words<'a>(alloc: Global, words: &'a [&'a str]) -> Result<Asked<'a>, Error> {
    let matches = command_line(alloc)?.try_get_matches_from(words)?;
    let asked = asked_in(alloc, &matches)?;
    Ok(asked)
}

/// What the words request.
fn asked_in<'a>(alloc: Global, matches: &ArgMatches<'a>) -> Result<Asked<'a>, AllocError> {
    if matches.subcommand_matches("schema").is_some() {
        return Ok(Asked::Catalog);
    }
    let lock = matches.subcommand_matches("lock");
    let paths = paths_in(alloc, lock.unwrap_or(matches))?;
    Ok(asked_of(matches, lock, paths))
}

/// The paths among the words.
fn paths_in<'a>(alloc: Global, matches: &ArgMatches<'a>) -> Result<Vec<&'a str>, AllocError> {
    Vec::from_slice(alloc, matches.get_strs("paths").unwrap_or(&[]))
}

/// What is requested of the paths, by the words of the program or of the command `lock`.
fn asked_of<'a>(
    matches: &ArgMatches<'a>,
    lock: Option<&ArgMatches<'a>>,
    paths: Vec<&'a str>,
) -> Asked<'a> {
    if let Some(lock) = lock {
        return Asked::Lock(files_of(lock, paths));
    }
    if matches.get_flag("show-respelled") {
        return Asked::Respelled(files_of(matches, paths));
    }
    Asked::Report(report_of(matches, paths))
}

/// The paths, and the schema among the words.
fn files_of<'a>(matches: &ArgMatches<'a>, paths: Vec<&'a str>) -> FilesRequest<'a> {
    FilesRequest {
        schema: matches.get_str("schema"),
        paths,
    }
}

/// The request for a report on the paths.
fn report_of<'a>(matches: &ArgMatches<'a>, paths: Vec<&'a str>) -> Request<'a> {
    Request {
        schema: matches.get_str("schema"),
        format: Format::named(matches.get_str("format")),
        is_fix: matches.get_flag("fix"),
        allows_unknown: matches.get_flag("allow-unknown"),
        html: matches.get_str("html"),
        baseline: matches.get_str("baseline"),
        writes_baseline: matches.get_flag("baseline-write"),
        colour: Colour::named(matches.get_str("color")),
        paths,
    }
}

// The text below the words in the program's help.
const STATUSES: &str =
    "Each statement of each file is judged. A file's schema is FILE, or schema.sql beside it or in the nearest folder above it.

Exit status:
  0  each query is deterministic, excused or known
  1  some others depend on the order of rows that tie, or may, or lost their certificate
  2  some others are not read
  3  a path, a schema, a baseline, a lock or a word of the command line is wrong, or a file can't be written
With --fix it is that of the files as they are written.";

// The text below the words in the help of `lock`.
const LOCKS: &str =
    "The lock of latest.sql is latest.sql.cert. It has a line for each query of the file: its certificate, or null where none is found.
wdreport PATH.. counts a query as deterministic where its certificate still holds, and tells which queries lost theirs.

Exit status:
  0  each lock is written
  3  a path, a schema or a word of the command line is wrong, or a file can't be written";

// A word of the command line.
struct Word<'a> {
    name: &'a str,
    form: Form<'a>,
    help: &'a str,
}

// What follows a word.
enum Form<'a> {
    /// Nothing: the word stands or not.
    Flag,
    /// A value, called so in the help.
    Value(&'a str),
    /// A value, called so in the help, which is one of these.
    OneOf(&'a str, &'a [&'a str]),
    /// The word is called so in the help, and stands for one or more of the values that are given without a name.
    Values(&'a str),
}

// The word that names a schema.
const SCHEMA: Word<'static> = Word {
    name: "schema",
    form: Form::Value("FILE"),
    help: "A file of CREATE TABLE statements, as pg_dump -s writes them too, for all queries",
};

// The paths of queries and of folders.
const PATHS: Word<'static> = Word {
    name: "paths",
    form: Form::Values("PATH"),
    help: "A file of queries, or a folder whose files *.sql are judged; - is standard input",
};

// The words of a lock.
const WORDS_OF_LOCK: [Word<'static>; 2] = [SCHEMA, PATHS];

// The words of a report.
const WORDS_OF_REPORT: [Word<'static>; 10] = [
    Word {
        name: "fix",
        form: Form::Flag,
        help: "Writes the sort keys into the files; with the path -, prints what standard input becomes",
    },
    Word {
        name: "allow-unknown",
        form: Form::Flag,
        help: "Queries that may tie pass: the status is 0 where no other is open",
    },
    Word {
        name: "baseline-write",
        form: Form::Flag,
        help: "Writes the baseline: all that is found now is known",
    },
    Word {
        name: "show-respelled",
        form: Form::Flag,
        help: "Prints, in place of a report, each schema's tables as queries are judged over them",
    },
    SCHEMA,
    Word {
        name: "format",
        form: Form::OneOf("FORMAT", &["text", "json", "github"]),
        help: "text, for a person; json, an object a line; github, annotations of a workflow",
    },
    Word {
        name: "html",
        form: Form::Value("FILE"),
        help: "Writes a page of HTML that shows all queries, with what is found of each",
    },
    Word {
        name: "baseline",
        form: Form::Value("FILE"),
        help: "A file of findings that are known: only others count",
    },
    Word {
        name: "color",
        form: Form::OneOf("WHEN", &["auto", "always", "never"]),
        help: "Colours in text: auto, where a terminal shows it; always; never",
    },
    PATHS,
];

// The command line.
fn command_line<'a>(alloc: Global) -> Result<Command<'a>, AllocError> {
    let words = arguments(alloc, &WORDS_OF_REPORT)?;
    let program = described_program(alloc).args(words)?.bin_name("wdreport")?;
    with_commands(alloc, program)
}

// The program with its commands.
fn with_commands<'a>(alloc: Global, program: Command<'a>) -> Result<Command<'a>, AllocError> {
    let program = program.subcommand(schema_command(alloc))?;
    program.subcommand(lock_command(alloc)?)
}

// The program by itself.
fn described_program<'a>(alloc: Global) -> Command<'a> {
    Command::new(alloc, "wdreport")
        .about(
            "Tells which SQL queries have more than one answer, where, and with which sort key they have one.",
        )
        .after_help(STATUSES)
        .version("1.0.0")
        .no_binary_name(true)
        .args_conflicts_with_subcommands(true)
        .disable_help_subcommand(true)
}

// The command that prints the SQL of a schema.
fn schema_command<'a>(alloc: Global) -> Command<'a> {
    Command::new(alloc, "schema").about(
        "Prints the SQL that makes a schema file from a PostgreSQL database: psql -qAt -f <(wdreport schema) DATABASE > schema.sql",
    )
}

// The command that writes locks.
fn lock_command<'a>(alloc: Global) -> Result<Command<'a>, AllocError> {
    let words = arguments(alloc, &WORDS_OF_LOCK)?;
    Command::new(alloc, "lock")
        .about(
            "Writes the certificates of queries beside them, so that a later run tells which of them no longer hold",
        )
        .after_help(LOCKS)
        .args(words)
}

// The words as the command line has them.
fn arguments<'a>(alloc: Global, words: &[Word<'a>]) -> Result<Vec<Arg<'a>>, AllocError> {
    let mut arguments = Vec::with_capacity(alloc, words.len())?;
    for word in words {
        arguments.push(argument(alloc, word))?;
    }
    Ok(arguments)
}

// A word as the command line has it.
fn argument<'a>(alloc: Global, word: &Word<'a>) -> Arg<'a> {
    let named = Arg::new(alloc, word.name).help(word.help);
    match word.form {
        Form::Flag => named.long(word.name).action(ArgAction::SetTrue),
        Form::Value(value) => named.long(word.name).value_name(value),
        Form::OneOf(value, names) => named.long(word.name).value_name(value).value_parser(names),
        Form::Values(value) => named.value_name(value).num_args(1..).required(true),
    }
}
