//! Tokens between brackets. CASE and END are a pair of brackets too.

ghost use Rattle.std.specs.Prelude.{◌≡◌, ◌≤◌, length, Some, None, if◌then◌else◌};
ghost use Rattle.wd_operands.specs.Nests.{closed_by, is_pair, nest_length, open_after, opens, step_of};
ghost use Rattle.wd_operands.specs.Opened.{open_in};

use wd_lex::{Terminal, Token, TokenKind};

/// The most brackets that may be open at once.
const MOST_OPEN: usize = 64;

/// A kind of brackets.
#[derive(Clone, Copy)]
enum Bracket {
    /// `(` and `)`
    Round,
    /// CASE and END
    Case,
}

/// What a token does to the open brackets.
#[derive(Clone, Copy)]
enum Step {
    Opens(Bracket),
    Closes(Bracket),
    Passes,
}

/// The brackets that are open: the first `count`, in the order in which they were opened.
#[derive(Drop)]
struct Open {
    brackets: [Bracket; MOST_OPEN],
    count: usize,
}

fn step_of(kind: &TokenKind) -> Step
    ensures { result ≡ step_of kind.now }
{
    match kind {
        TokenKind::Terminal(Terminal::LeftBracket) => Step::Opens(Bracket::Round),
        TokenKind::Terminal(Terminal::Case) => Step::Opens(Bracket::Case),
        TokenKind::Terminal(Terminal::RightBracket) => Step::Closes(Bracket::Round),
        TokenKind::Terminal(Terminal::End) => Step::Closes(Bracket::Case),
        _ => Step::Passes,
    }
}

/// Whether a step opens a bracket.
fn opens(step: Step) -> bool
    ensures { result ≡ opens step }
{
    matches!(step, Step::Opens(_))
}

/// Whether a bracket is closed by a bracket of that kind.
fn is_pair(opened: Bracket, closing: Bracket) -> bool
    ensures { result ≡ is_pair opened closing }
{
    matches!(
        (opened, closing),
        (Bracket::Round, Bracket::Round) | (Bracket::Case, Bracket::Case)
    )
}

impl Open {
    /// Opens a bracket, if there is room.
    fn push(&mut self, bracket: Bracket) -> bool
        requires { self.old.count ≤ 64 }
        ensures brackets { open_after (open_in self.old) (Step.Opens bracket) ≡ (if result then Some (open_in self.new) else None) }
        ensures within { self.new.count ≤ 64 }
    {
        if self.count >= MOST_OPEN {
            return false;
        }
        self.brackets[self.count] = bracket;
        self.count += 1;
        true
    }

    /// Closes the bracket that was opened last, if it is of that kind.
    fn close(&mut self, bracket: Bracket) -> bool
        requires { self.old.count ≤ 64 }
        ensures brackets { closed_by bracket (open_in self.old) ≡ (if result then Some (open_in self.new) else None) }
        ensures within { self.new.count ≤ 64 }
    {
        if self.count == 0 || !is_pair(self.brackets[self.count - 1], bracket) {
            return false;
        }
        self.count -= 1;
        true
    }

    /// Takes a token, unless it closes a bracket that is not open or opens one too many.
    fn pass(&mut self, step: Step) -> bool
        requires { self.old.count ≤ 64 }
        ensures brackets { open_after (open_in self.old) step ≡ (if result then Some (open_in self.new) else None) }
        ensures within { self.new.count ≤ 64 }
    {
        match step {
            Step::Opens(bracket) => self.push(bracket),
            Step::Closes(bracket) => self.close(bracket),
            Step::Passes => true,
        }
    }
}

/// How many tokens there are up to and including the bracket that closes the first one. 0 where the first token opens no bracket, or the
/// bracket is not closed or is closed by one of the other kind, or more than 64 are open at once.
#[tactic(auto, unfolding(crate::specs::Nests::nest_length, crate::specs::Nests::nest_from))]
pub fn nest_length(tokens: &[Token]) -> usize
    ensures value { result ≡ nest_length tokens.now }
    ensures within { result ≤ length tokens.now }
{
    let [first, ..] = tokens else {
        return 0;
    };
    if !opens(step_of(&first.kind)) {
        return 0;
    }
    let mut unclosed = Open {
        brackets: [Bracket::Round; MOST_OPEN],
        count: 0,
    };
    let mut length = 0;
    let mut rest = tokens;
    while let [token, after @ ..] = rest {
        if !unclosed.pass(step_of(&token.kind)) {
            return 0;
        }
        length += 1;
        if unclosed.count == 0 {
            return length;
        }
        rest = after;
    }
    0
}
