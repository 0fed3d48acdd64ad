//! Why the program ends without its output.

ghost use Rattle.std.specs.Prelude.{◌≡◌, ◌++◌, IfSome, OnOk};
ghost use Rattle.std.specs.Io.KnownBytes.{Appends};
ghost use Rattle.wd_command.specs.Failures as spec;
ghost use Rattle.wd_command.specs.Failures.{IsFaultOfWords, IsRefusal, Says, SaysDecide, SaysRun, SaysVerify, SaysWitness, Shows, line_of, refusal_line, status_of, where_of};
ghost use Rattle.wd_command.specs.Streams.{AppendsPart};
ghost use Rattle.wd_command.specs.declared.failure.Failure.TheVariants as failed;

use crate::streams::{Piece, write_pieces};
use clap::error::ErrorKind;
use std::alloc::{AllocError, AllocFailed};
use std::io;
use std::io::Write;
use wd_accept::{VerifyError, VerifyOrigin};
use wd_decide::DecideError;
use wd_query::TextError;
use wd_refute::{WitnessError, WitnessOrigin};
use wd_run::RunError;
use wd_value::{Fault, OutOfMemory, Text};

/// Why the program ends without its output.
#[derive(Drop)]
pub enum Failure<'a> {
    /// The words are no command.
    CommandLine(clap::Error),
    /// A word of the command line isn't UTF-8.
    NotText,
    /// This word has the place of NAME=PATH and has no `=`.
    Unassigned(&'a str),
    /// An input is refused.
    Refused(Refusal),
    Fault(Fault),
    CannotRead(&'a str),
    CannotWrite,
    OutOfMemory,
}

/// What a refusal says.
#[derive(Drop)]
pub struct Refusal {
    pub input: Input,
    pub number: u32,
    /// The byte, the token, the node or the record that it is about, if any.
    pub place: Option<u64>,
}

/// The input that a refusal is about.
#[derive(Drop)]
pub enum Input {
    Schema,
    Query,
    Certificate,
    Witness,
    /// The data that was given, or should have been, under this name.
    Data(Text),
    Run,
}

impl Failure<'_> {
    /// The program's exit status.
    pub fn status(&self) -> u8
        ensures { result ≡ status_of self.now }
    {
        match self {
            Failure::CommandLine(_)
            | Failure::NotText
            | Failure::Unassigned(_)
            | Failure::Refused(_) => 3,
            Failure::Fault(_) => 4,
            Failure::CannotRead(_) | Failure::CannotWrite | Failure::OutOfMemory => 5,
        }
    }
}

impl From<OutOfMemory> for Failure<'_> {
    ghost from_gives = { λ _ failure. failure ≡ failed.OutOfMemory };

    fn from(_error: OutOfMemory) -> Self {
        Failure::OutOfMemory
    }
}

impl From<AllocError> for Failure<'_> {
    ghost from_gives = { λ _ failure. failure ≡ failed.OutOfMemory };

    fn from(_error: AllocError) -> Self {
        Failure::OutOfMemory
    }
}

impl<T: Drop> From<AllocFailed<T>> for Failure<'_> {
    ghost from_gives = { λ _ failure. failure ≡ failed.OutOfMemory };

    fn from(_error: AllocFailed<T>) -> Self {
        Failure::OutOfMemory
    }
}

impl From<clap::Error> for Failure<'_> {
    ghost from_gives = { λ e failure. IsFaultOfWords e failure };

    fn from(error: clap::Error) -> Self {
        match error.kind() {
            ErrorKind::OutOfMemory => Failure::OutOfMemory,
            _ => Failure::CommandLine(error),
        }
    }
}

impl From<RunError> for Failure<'_> {
    ghost from_gives = { λ e failure. IsRefusal (SaysRun e) failure };

    fn from(error: RunError) -> Self {
        let (number, place) = (error.number(), error.place());
        refusal_of(run_input(error), number, place)
    }
}

impl From<DecideError> for Failure<'_> {
    ghost from_gives = { λ e failure. IsRefusal (SaysDecide e) failure };

    fn from(error: DecideError) -> Self {
        refusal_of(decide_input(&error), error.number(), error.place())
    }
}

impl From<VerifyError> for Failure<'_> {
    ghost from_gives = { λ e failure. IsRefusal (SaysVerify e) failure };

    fn from(error: VerifyError) -> Self {
        refusal_of(verify_input(&error), error.number(), error.place())
    }
}

impl From<WitnessError> for Failure<'_> {
    ghost from_gives = { λ e failure. IsRefusal (SaysWitness e) failure };

    fn from(error: WitnessError) -> Self {
        refusal_of(witness_input(&error), error.number(), error.place())
    }
}

// A refusal; running out of memory where there is no number.
fn refusal_of<'a>(input: Input, number: Option<u32>, place: Option<u64>) -> Failure<'a>
    ensures { IsRefusal (Says input number place) result }
{
    match number {
        Some(number) => Failure::Refused(Refusal {
            input,
            number,
            place,
        }),
        None => Failure::OutOfMemory,
    }
}

// The input that a run's refusal is about.
fn run_input(error: RunError) -> Input
    ensures { result ≡ spec.run_input error }
{
    match error {
        RunError::Texts(TextError::Schema(_)) => Input::Schema,
        RunError::Texts(TextError::Query(_)) => Input::Query,
        RunError::Given { name } => Input::Data(name),
        RunError::Data { name, .. } => Input::Data(name),
        RunError::Evaluation(_) | RunError::OutOfMemory => Input::Run,
    }
}

// The input that a refusal of a schema and a query is about.
fn decide_input(error: &DecideError) -> Input
    ensures { result ≡ spec.decide_input error.now }
{
    match error {
        DecideError::Texts(TextError::Schema(_)) => Input::Schema,
        DecideError::Texts(TextError::Query(_)) => Input::Query,
        DecideError::OutOfMemory => Input::Run,
    }
}

// The input that a refusal of a certificate is about.
fn verify_input(error: &VerifyError) -> Input
    ensures { result ≡ spec.verify_input error.now }
{
    match error.origin() {
        VerifyOrigin::Schema => Input::Schema,
        VerifyOrigin::Query => Input::Query,
        VerifyOrigin::Certificate => Input::Certificate,
    }
}

// The input that a refusal of a witness is about; 802 is about the run.
fn witness_input(error: &WitnessError) -> Input
    ensures { result ≡ spec.witness_input error.now }
{
    match error.origin() {
        WitnessOrigin::Schema => Input::Schema,
        WitnessOrigin::Query => Input::Query,
        WitnessOrigin::Witness => Input::Witness,
        WitnessOrigin::Run => Input::Run,
    }
}

/// Prints the failure's line, and returns the exit status whether or not printing succeeds.
pub fn report<E: Write>(failure: &Failure<'_>, err: &mut E) -> u8
    ensures status { result ≡ status_of failure.now }
    ensures shown { Shows (E.contents err.old) (E.contents err.new) failure.now }
{
    let _ = write_line(failure, err);
    failure.status()
}

// Writes the line for standard error; for a fault of the command line it is the text of `clap`.
fn write_line<E: Write>(failure: &Failure<'_>, err: &mut E) -> io::Result<()>
    ensures whole { OnOk result (IfSome (line_of failure.now) (Appends (E.contents err.old) (E.contents err.new))) }
    ensures part { Shows (E.contents err.old) (E.contents err.new) failure.now }
{
    match failure {
        Failure::CommandLine(error) => write!(err, "{error}"),
        Failure::NotText => write_pieces(
            err,
            &[Piece::Text("error: invalid UTF-8 was detected in one or more arguments\n")],
        ),
        Failure::Unassigned(word) => write_pieces(
            err,
            &[
                Piece::Text("data "),
                Piece::Text(word),
                Piece::Text(": refused 707\n"),
            ],
        ),
        Failure::Refused(refusal) => write_refusal(refusal, err),
        Failure::Fault(fault) => write_pieces(err, &[Piece::Text(fault_line(*fault))]),
        Failure::CannotRead(path) => write_pieces(
            err,
            &[
                Piece::Text("cannot read "),
                Piece::Text(path),
                Piece::Text("\n"),
            ],
        ),
        Failure::CannotWrite => write_pieces(err, &[Piece::Text("cannot write\n")]),
        Failure::OutOfMemory => write_pieces(err, &[Piece::Text("out of memory\n")]),
    }
}

fn fault_line(fault: Fault) -> &'static str
    ensures { result.now ≡ spec.fault_line fault }
{
    match fault {
        Fault::DivisionByZero => "fault F1: division by zero\n",
        Fault::OutOfRange => "fault F2: out of range\n",
    }
}

// Writes the line of a refusal: what it is about, its number and its place.
fn write_refusal<E: Write>(refusal: &Refusal, err: &mut E) -> io::Result<()>
    ensures whole { OnOk result (Appends (E.contents err.old) (E.contents err.new) (refusal_line refusal.now)) }
    ensures part { AppendsPart (E.contents err.old) (E.contents err.new) (refusal_line refusal.now) }
{
    let (input, name) = where_text(&refusal.input);
    let input = Piece::Text(input);
    let name = Piece::Text(name);
    let refused = Piece::Text(": refused ");
    let number = Piece::Number(refusal.number as u64);
    let end = Piece::Text("\n");
    match refusal.place {
        Some(place) => {
            let at = Piece::Text(" at ");
            let place = Piece::Number(place);
            write_pieces(err, &[input, name, refused, number, at, place, end])
        }
        None => write_pieces(err, &[input, name, refused, number, end]),
    }
}

// The input that a refusal is about, as text: its kind, and the name of a table.
fn where_text<'a>(input: &'a Input) -> (&'a str, &'a str)
    ensures { result.0.now ++ result.1.now ≡ where_of input.now }
{
    match input {
        Input::Schema => ("schema", ""),
        Input::Query => ("query", ""),
        Input::Certificate => ("certificate", ""),
        Input::Witness => ("witness", ""),
        Input::Data(name) => ("data ", name.as_str()),
        Input::Run => ("run", ""),
    }
}
