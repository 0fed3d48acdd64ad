//! The law of tokens that have a spelling, over the definitions alone.

ghost use Rattle.wd_token_text.specs.Texts.{LexedAreSpellable};

/// Each token that the lexer reads has a spelling.
pub fn lexed_are_spellable()
    ensures { LexedAreSpellable }
{}
