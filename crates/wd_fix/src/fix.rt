//! Statements of a text that are mended.

ghost use Rattle.std.specs.Prelude.{IfOk, length, map};
ghost use Rattle.wd_fix.specs.Fixes.{IsFixed, span_of};
ghost use Rattle.wd_source.specs.Statements.{StandInOrder};

use std::alloc::Global;
use wd_lex::Span;
use wd_value::OutOfMemory;

/// A statement of a text that is mended.
#[derive(Drop)]
pub struct Fix {
    /// Where the statement is in the text.
    pub span: Span,
    /// What replaces the statement.
    pub text: Vec<u8>,
}

/// A text with each mended statement in place of the original one, and all else as it was, byte for byte.
pub fn fixed_text(alloc: Global, text: &[u8], fixes: &[Fix]) -> Result<Vec<u8>, OutOfMemory>
    requires { StandInOrder 0 (map span_of fixes.now) (length text.now) }
    ensures { IfOk result (λ after. IsFixed text.now fixes.now after.items) }
{
    let mut out = Vec::new(alloc);
    let mut start = 0;
    for fix in fixes {
        out.extend_from_slice(&text[start..fix.span.start as usize])?;
        out.extend_from_slice(&fix.text)?;
        start = fix.span.end as usize;
    }
    out.extend_from_slice(&text[start..])?;
    Ok(out)
}
