//! Laws of texts and their tokens, over the definitions alone.

ghost use Rattle.wd_lex.specs.Examples.{TextsComeOut};
ghost use Rattle.wd_lex.specs.Laws.{HasOneListOfTokens, HasOneAnswer, HasAnswer, IsLongestFront, CommentsComeFirst};

/// A text has at most one list of tokens.
pub fn one_list_of_tokens()
    ensures { HasOneListOfTokens }
{}

/// A text has at most one answer: one list of tokens, or one refusal at one place.
pub fn one_answer()
    ensures { HasOneAnswer }
{}

/// Each text has an answer: its tokens, or a refusal.
pub fn has_answer()
    ensures { HasAnswer }
{}

/// A piece is the longest piece that the bytes from its place on begin with.
pub fn longest_front()
    ensures { IsLongestFront }
{}

/// Where `--` or `/*` begins a piece, the piece is a comment.
pub fn comments_come_first()
    ensures { CommentsComeFirst }
{}

/// Worked texts: bytes that are no UTF-8, and byte order marks.
pub fn texts_come_out()
    ensures { TextsComeOut }
{}
