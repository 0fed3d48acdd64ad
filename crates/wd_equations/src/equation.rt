//! What the standard defines a test, a call or a CASE to be.

ghost use Rattle.std.specs.Prelude.{◌≡◌, ◌++◌, ◌+◌, ◌^◌, ◌<◌, ◌≤◌, OnOk, IfOk};
ghost use Rattle.wd_equations.specs.Equations as spec;
ghost use Rattle.wd_equations.specs.Equations.{each, equation};

use std::alloc::{AllocError, Global};
use wd_lex::Terminal;

/// The forms that equations define.
#[derive(Clone, Copy)]
pub enum Form {
    Between,
    Among,
    Distinct,
    IsTrue,
    IsFalse,
    IsUnknown,
    Coalesce,
    NullIf,
    CountAll,
    Filter,
    SimpleCase,
}

/// A piece of what is written in place of an equation's left side.
#[derive(Clone, Copy)]
pub enum Piece {
    /// A reserved word or a symbol.
    Mark(Terminal),
    /// The number 1.
    One,
    /// The part with this number, in brackets.
    Operand(usize),
    /// The part with this number, as it is.
    Clause(usize),
}

/// What an equation repeats for each of its values.
#[derive(Clone, Copy)]
enum Arm {
    /// Of IN: OR the operand is this value.
    OrEqual,
    /// Of COALESCE: this value, where it is not NULL.
    Known,
    /// Of CASE: where the operand is this value.
    Equal,
}

use Piece::{Clause, Mark, One, Operand};

/// `(x >= a AND x <= b)`
const BETWEEN: [Piece; 9] = [
    Mark(Terminal::LeftBracket),
    Operand(0),
    Mark(Terminal::GreaterOrEqual),
    Operand(1),
    Mark(Terminal::And),
    Operand(0),
    Mark(Terminal::LessOrEqual),
    Operand(2),
    Mark(Terminal::RightBracket),
];

/// `CASE WHEN x IS NULL THEN y IS NOT NULL WHEN y IS NULL THEN TRUE ELSE x <> y END`
const DISTINCT: [Piece; 21] = [
    Mark(Terminal::Case),
    Mark(Terminal::When),
    Operand(0),
    Mark(Terminal::Is),
    Mark(Terminal::Null),
    Mark(Terminal::Then),
    Operand(1),
    Mark(Terminal::Is),
    Mark(Terminal::Not),
    Mark(Terminal::Null),
    Mark(Terminal::When),
    Operand(1),
    Mark(Terminal::Is),
    Mark(Terminal::Null),
    Mark(Terminal::Then),
    Mark(Terminal::True),
    Mark(Terminal::Else),
    Operand(0),
    Mark(Terminal::NotEquals),
    Operand(1),
    Mark(Terminal::End),
];

/// `CASE WHEN x THEN TRUE ELSE FALSE END`
const IS_TRUE: [Piece; 8] = [
    Mark(Terminal::Case),
    Mark(Terminal::When),
    Operand(0),
    Mark(Terminal::Then),
    Mark(Terminal::True),
    Mark(Terminal::Else),
    Mark(Terminal::False),
    Mark(Terminal::End),
];

/// `CASE WHEN NOT x THEN TRUE ELSE FALSE END`
const IS_FALSE: [Piece; 9] = [
    Mark(Terminal::Case),
    Mark(Terminal::When),
    Mark(Terminal::Not),
    Operand(0),
    Mark(Terminal::Then),
    Mark(Terminal::True),
    Mark(Terminal::Else),
    Mark(Terminal::False),
    Mark(Terminal::End),
];

/// `(x IS NULL)`
const IS_UNKNOWN: [Piece; 5] = [
    Mark(Terminal::LeftBracket),
    Operand(0),
    Mark(Terminal::Is),
    Mark(Terminal::Null),
    Mark(Terminal::RightBracket),
];

/// `CASE WHEN x = y THEN NULL ELSE x END`
const NULL_IF: [Piece; 10] = [
    Mark(Terminal::Case),
    Mark(Terminal::When),
    Operand(0),
    Mark(Terminal::Equals),
    Operand(1),
    Mark(Terminal::Then),
    Mark(Terminal::Null),
    Mark(Terminal::Else),
    Operand(0),
    Mark(Terminal::End),
];

/// `COUNT(CASE WHEN p THEN 1 END)`
const COUNT_ALL: [Piece; 9] = [
    Clause(0),
    Mark(Terminal::LeftBracket),
    Mark(Terminal::Case),
    Mark(Terminal::When),
    Operand(1),
    Mark(Terminal::Then),
    One,
    Mark(Terminal::End),
    Mark(Terminal::RightBracket),
];

/// `f(CASE WHEN p THEN x END)`
const FILTER: [Piece; 9] = [
    Clause(0),
    Mark(Terminal::LeftBracket),
    Mark(Terminal::Case),
    Mark(Terminal::When),
    Operand(1),
    Mark(Terminal::Then),
    Operand(2),
    Mark(Terminal::End),
    Mark(Terminal::RightBracket),
];

/// What an equation writes for its value with this number, from 0.
fn arm_of(alloc: Global, arm: Arm, index: usize) -> Result<Vec<Piece>, AllocError>
    requires { index + 1 < 2 ^ 63 }
    ensures { IfOk result (λ pieces. pieces.items ≡ spec.arm arm index) }
{
    match arm {
        Arm::OrEqual => Vec::from_slice(
            alloc,
            &[
                Mark(Terminal::Or),
                Operand(0),
                Mark(Terminal::Equals),
                Operand(index + 2),
            ],
        ),
        Arm::Known => Vec::from_slice(
            alloc,
            &[
                Mark(Terminal::When),
                Operand(index),
                Mark(Terminal::Is),
                Mark(Terminal::Not),
                Mark(Terminal::Null),
                Mark(Terminal::Then),
                Operand(index),
            ],
        ),
        Arm::Equal => Vec::from_slice(
            alloc,
            &[
                Mark(Terminal::When),
                Operand(0),
                Mark(Terminal::Equals),
                Operand(2 * index + 1),
                Mark(Terminal::Then),
                Clause(2 * index + 2),
            ],
        ),
    }
}

/// Adds what an equation writes for `count` values.
fn push_each(pieces: &mut Vec<Piece>, repeated: Arm, count: usize) -> Result<(), AllocError>
    requires { count < 2 ^ 63 }
    ensures { OnOk result (pieces.new.items ≡ pieces.old.items ++ each repeated 0 count) }
{
    for index in 0..count {
        let pieces_of_one = arm_of(*pieces.allocator(), repeated, index)?;
        pieces.extend_from_slice(&pieces_of_one)?;
    }
    Ok(())
}

/// `(x = a OR x = b OR ..)`, of `count` parts.
fn among(alloc: Global, count: usize) -> Result<Vec<Piece>, AllocError>
    requires { count < 2 ^ 63 }
    ensures { IfOk result (λ pieces. pieces.items ≡ spec.among count) }
{
    let mut pieces = Vec::from_slice(
        alloc,
        &[
            Mark(Terminal::LeftBracket),
            Operand(0),
            Mark(Terminal::Equals),
            Operand(1),
        ],
    )?;
    push_each(&mut pieces, Arm::OrEqual, count.saturating_sub(2))?;
    pieces.push(Mark(Terminal::RightBracket))?;
    Ok(pieces)
}

/// `CASE WHEN x IS NOT NULL THEN x .. ELSE last END`, of `count` parts.
fn coalesce(alloc: Global, count: usize) -> Result<Vec<Piece>, AllocError>
    requires { count < 2 ^ 63 }
    ensures { IfOk result (λ pieces. pieces.items ≡ spec.coalesce count) }
{
    let mut pieces = Vec::from_slice(alloc, &[Mark(Terminal::Case)])?;
    let last = count.saturating_sub(1);
    push_each(&mut pieces, Arm::Known, last)?;
    pieces.extend_from_slice(&[Mark(Terminal::Else), Operand(last), Mark(Terminal::End)])?;
    Ok(pieces)
}

/// `CASE WHEN x = a THEN r .. END`, of `count` parts.
fn simple_case(alloc: Global, count: usize) -> Result<Vec<Piece>, AllocError>
    requires { count < 2 ^ 63 }
    ensures { IfOk result (λ pieces. pieces.items ≡ spec.simple_case count) }
{
    let mut pieces = Vec::from_slice(alloc, &[Mark(Terminal::Case)])?;
    push_each(&mut pieces, Arm::Equal, count / 2)?;
    pieces.push(Mark(Terminal::End))?;
    Ok(pieces)
}

/// What is written in place of a form of `count` parts.
pub fn pieces_of(alloc: Global, form: Form, count: usize) -> Result<Vec<Piece>, AllocError>
    requires { count < 2 ^ 63 }
    ensures { IfOk result (λ pieces. pieces.items ≡ equation form count) }
{
    match form {
        Form::Between => Vec::from_slice(alloc, &BETWEEN),
        Form::Among => among(alloc, count),
        Form::Distinct => Vec::from_slice(alloc, &DISTINCT),
        Form::IsTrue => Vec::from_slice(alloc, &IS_TRUE),
        Form::IsFalse => Vec::from_slice(alloc, &IS_FALSE),
        Form::IsUnknown => Vec::from_slice(alloc, &IS_UNKNOWN),
        Form::Coalesce => coalesce(alloc, count),
        Form::NullIf => Vec::from_slice(alloc, &NULL_IF),
        Form::CountAll => Vec::from_slice(alloc, &COUNT_ALL),
        Form::Filter => Vec::from_slice(alloc, &FILTER),
        Form::SimpleCase => simple_case(alloc, count),
    }
}

/// The pieces, or with NOT that they do not hold.
pub fn negate_if(alloc: Global, is_not: bool, pieces: &[Piece]) -> Result<Vec<Piece>, AllocError>
    ensures { IfOk result (λ all. all.items ≡ spec.stated is_not pieces.now) }
{
    if !is_not {
        return Vec::from_slice(alloc, pieces);
    }
    let mut all = Vec::from_slice(alloc, &[Mark(Terminal::LeftBracket), Mark(Terminal::Not)])?;
    all.extend_from_slice(pieces)?;
    all.push(Mark(Terminal::RightBracket))?;
    Ok(all)
}
