//! The operand or the brackets at the start of tokens, and the tokens after it.

ghost use Rattle.std.specs.Prelude.{◌≡◌, ◌+◌, length, IfSome};
ghost use Rattle.wd_operands.specs.Given.{Finds, pair};
ghost use Rattle.wd_operands.specs.Parts as spec;

use crate::nest::nest_length;
use crate::operand::operand_length;
use crate::token::is_left_bracket;
use wd_lex::Token;

/// The operand at the start, and the tokens after it.
#[tactic(auto, unfolding(crate::specs::Parts::operand_at))]
pub fn operand_at(tokens: &[Token]) -> Option<(&[Token], &[Token])>
    ensures value { Finds pair result (spec.operand_at tokens.now) }
    ensures whole { IfSome result (λ x. length x.0.now + length x.1.now ≡ length tokens.now) }
{
    let length = operand_length(tokens);
    if length == 0 {
        return None;
    }
    Some(tokens.split_at(length))
}

/// What is between the brackets at the start, or between CASE and END, and the tokens after them.
#[tactic(auto, unfolding(crate::specs::Parts::nest_at))]
pub fn nest_at(tokens: &[Token]) -> Option<(&[Token], &[Token])>
    ensures { Finds pair result (spec.nest_at tokens.now) }
{
    let length = nest_length(tokens);
    if length < 2 {
        return None;
    }
    let (nest, rest) = tokens.split_at(length);
    let (front, _) = nest.split_at(length - 1);
    let (_, inside) = front.split_at(1);
    Some((inside, rest))
}

/// What is between the round brackets at the start, and the tokens after them.
#[tactic(auto, unfolding(crate::specs::Parts::brackets_at))]
pub fn brackets_at(tokens: &[Token]) -> Option<(&[Token], &[Token])>
    ensures { Finds pair result (spec.brackets_at tokens.now) }
{
    match tokens {
        [first, ..] => {
            if is_left_bracket(&first.kind) {
                nest_at(tokens)
            } else {
                None
            }
        }
        [] => None,
    }
}
