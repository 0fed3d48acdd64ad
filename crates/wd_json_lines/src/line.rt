//! A line, and what it may be.

ghost use Rattle.std.specs.Prelude.{◌≡◌, ◌≤◌, length, IfOk, IfErr};
ghost use Rattle.serde_json.specs.Data.{Data};
ghost use Rattle.serde_json.specs.Written.{compact_text};
ghost use Rattle.wd_json.specs.Json.{IsJsonOf};
ghost use Rattle.wd_json.specs.declared.misread.Misread.TheVariants as misread;
ghost use Rattle.wd_json_lines.specs.Lines.{after_line, first_line};
ghost use Rattle.wd_json_lines.specs.Lines as spec;

use std::alloc::Global;
use wd_json::Misread;
use wd_value::OutOfMemory;

/// A value that has a line of JSON.
pub trait InLine: Drop {
    // What contracts see of a value, and the JSON value of that.
    ghost Said: { Type 0 };

    ghost said: { Self → Self.Said };

    ghost json: { Self.Said → Data };

    /// The value of a line, whatever the line's white space and the order of its members; refused where the line is that of no value.
    fn from_line(alloc: Global, line: &[u8]) -> Result<Self, Misread>
        ensures ok { IfOk result (λ x. IsJsonOf (Self.json (Self.said x)) line.now) }
        ensures refused { IfErr result (λ e. e ≡ misread.Shape → (x : Self.Said) → ¬ IsJsonOf (Self.json x) line.now) };

    /// The value's line, without its line feed: JSON without white space, which is read back as the value.
    fn to_line(&self, alloc: Global) -> Result<Vec<u8>, OutOfMemory>
        ensures text { IfOk result (λ b. b.items ≡ compact_text (Self.json (Self.said self.now))) }
        ensures spells { IfOk result (λ b. IsJsonOf (Self.json (Self.said self.now)) b.items) };
}

/// How many bytes the first line has, without its line feed.
fn line_len(bytes: &[u8]) -> usize
    ensures value { result ≡ spec.line_len bytes.now }
    ensures within { result ≤ length bytes.now }
{
    bytes.iter().take_while(|b| **b != b'\n').count()
}

/// The first line without its line feed, and what follows that.
pub fn split_line(bytes: &[u8]) -> (&[u8], &[u8])
    ensures line { result.0.now ≡ first_line bytes.now }
    ensures rest { result.1.now ≡ after_line bytes.now }
{
    let (line, rest) = bytes.split_at(line_len(bytes));
    match rest {
        [_, rest @ ..] => (line, rest),
        [] => (line, rest),
    }
}
