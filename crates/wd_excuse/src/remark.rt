//! The remark above a statement.

ghost use Rattle.std.specs.Prelude.{◌≡◌, ◌<◌, ◌≤◌, ◌+◌, ◌^◌, length, option_map};
ghost use Rattle.std.specs.List.{list_any};
ghost use Rattle.wd_lex.specs.Characters as characters;
ghost use Rattle.wd_lex.specs.Lexed.{start_of};
ghost use Rattle.wd_excuse.specs.Remarks.{IsRemark};
ghost use Rattle.wd_excuse.specs.Remarks as spec;

use crate::gap::{gap_len, is_line_end};
use crate::line::{reason_in, words_to_program};
use wd_lex::Span;

/// What a comment above a statement tells `wdreport`.
#[derive(Clone, Copy)]
pub enum Remark<'t> {
    /// The query may depend on the order of rows that tie, for this reason, which has no white space at its start and end.
    Excused { reason: &'t [u8], comment: Span },
    /// A comment that begins `wdreport:` and excuses nothing.
    Unread { comment: Span },
}

impl Remark<'_> {
    /// The comment, by the bytes of the statement's text from its `--` to its line's end.
    pub fn comment(self) -> Span
        ensures { result ≡ spec.comment_of (spec.seen self.entry) }
    {
        match self {
            Remark::Excused { comment, .. } | Remark::Unread { comment } => comment,
        }
    }
}

/// The remark above a statement, by the statement's text, which begins with the white space and the comments before its first token.
///
/// It is what the first line comment there says that begins with `wdreport:`, in upper or lower case. `-- wdreport: may depend, REASON`
/// excuses the query, if it gives a reason and the comment is on a line of its own or after another comment. After the semicolon of the
/// statement before, on the same line, it excuses nothing, since it may be about that statement; so `is_first` says whether the
/// statement is the first of its file. Block comments say nothing, nor does anything after the first token.
pub fn remark_above(text: &[u8], is_first: bool) -> Option<Remark<'_>>
    ensures { IsRemark text.now is_first (option_map spec.seen result) }
{
    let mut at = mark_len(text);
    let mut is_above = is_first;
    while let Some(len) = gap_len(&text[at..]) {
        let end = at + len;
        let gap = &text[at..end];
        if let Some(remark) = remark_in(gap, at as u64, is_above) {
            return Some(remark);
        }
        is_above = is_above || ends_line(gap);
        at = end;
    }
    None
}

/// How many bytes a byte order mark at the start has, if there is one.
fn mark_len(text: &[u8]) -> usize
    ensures value { result ≡ start_of text.now }
    ensures within { result ≤ length text.now }
{
    if text.starts_with(b"\xEF\xBB\xBF") {
        3
    } else {
        0
    }
}

/// Whether a line ends among the bytes.
fn ends_line(bytes: &[u8]) -> bool
    ensures { result ≡ list_any characters.is_line_end bytes.now }
{
    bytes.iter().any(|b| is_line_end(*b))
}

/// What white space or a comment at a place says, by its bytes.
fn remark_in(gap: &[u8], place: u64, is_above: bool) -> Option<Remark<'_>>
    requires { place + length gap.now < 2 ^ 64 }
    ensures { option_map spec.seen result ≡ spec.bytes_say is_above place gap.now }
{
    let words = words_to_program(gap.strip_prefix(b"--")?)?;
    let end = place + gap.len() as u64;
    Some(remark_of(words, Span { start: place, end }, is_above))
}

/// What words to the program say, in a comment at this place.
fn remark_of(words: &[u8], span: Span, is_above: bool) -> Remark<'_>
    ensures { spec.seen result ≡ spec.words_say is_above span words.now }
{
    match reason_in(words) {
        Some(reason) if is_above => Remark::Excused {
            reason,
            comment: span,
        },
        _ => Remark::Unread { comment: span },
    }
}
