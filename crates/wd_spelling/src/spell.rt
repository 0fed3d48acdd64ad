//! Expressions, word by word. The words still to be written wait on the heap, so the depth of the expression takes no stack.

ghost use Rattle.std.specs.Prelude.{◌≡◌, ℕ, ◌+◌, ◌*◌, ◌≤◌, ◌++◌, [], ◌∷◌, List, get_or, codes, string_bytes, IfOk, OnOk, if◌then◌else◌};
ghost use Rattle.std.specs.List.{sum_by};
ghost use Rattle.wd_plan.specs.Expressions.{expression_of};
ghost use Rattle.wd_plan.specs.Walks.{steps};
ghost use Rattle.wd_spelling.specs.Spelling.{IsWordOf, fitting, item_weight, item_words, waiting_words, within};
ghost use Rattle.wd_spelling.specs.Spelling as spec;

use crate::literal::literal;
use crate::operator::{
    arithmetic_level, arithmetic_word, branch_word, comparison_word, else_word, end_word, level,
};
use std::alloc::Global;
use wd_plan::{Branch, Expr};
use wd_value::{OutOfMemory, Text, Value};

/// The most bytes of an expression that are written.
const ROOM: usize = 200;

/// What is still to be written.
#[derive(Clone, Copy)]
enum Item<'e> {
    Word(&'static str),
    /// The name of a column.
    Name(u16),
    Literal(&'e Value),
    /// An operand, in brackets if it binds less closely than this.
    Operand(u8, &'e Expr),
}

/// An expression as SQL, over columns of these names: its words as long as they fit into 200 bytes, and `..` in place of the first that
/// doesn't fit.
#[tactic(auto, using(crate::proofs::Waiting::waiting_push))]
pub fn spell_expression(
    alloc: Global,
    names: &[Text],
    expression: &Expr,
) -> Result<String, OutOfMemory>
    ensures { IfOk result (λ s. string_bytes s ≡ fitting ROOM (spec.spelled names.now (expression_of expression.now))) }
{
    let mut text = String::new(alloc);
    let mut room = ROOM;
    let mut waiting = Vec::new(alloc);
    push(&mut waiting, Item::Operand(0, expression))?;
    while let Some(item) = waiting.pop() {
        if let Item::Operand(asked, operand) = item {
            add_operand(&mut waiting, asked, operand)?;
        } else {
            let word = word_of(alloc, names, item)?;
            if !add_word(&mut text, &mut room, word.as_str())? {
                return Ok(text);
            }
        }
    }
    Ok(text)
}

/// Adds a word if there is room for it, or else `..`; the result is whether there was room.
fn add_word(text: &mut String, room: &mut usize, word: &str) -> Result<bool, OutOfMemory>
    ensures { IfOk result (λ fits. (rest : List (List ℕ)) → string_bytes text.old ++ fitting room.old (word.now ∷ rest) ≡ string_bytes text.new ++ (if fits then fitting room.new rest else [])) }
{
    if word.len() > *room {
        text.push_str("..")?;
        return Ok(false);
    }
    *room -= word.len();
    text.push_str(word)?;
    Ok(true)
}

/// The word of a word, a name or a literal; an operand has none.
fn word_of<'e>(alloc: Global, names: &[Text], item: Item<'e>) -> Result<String, OutOfMemory>
    ensures { IfOk result (λ s. IsWordOf names.now item.entry (string_bytes s)) }
{
    match item {
        Item::Word(word) => Ok(String::from_str(alloc, word)?),
        Item::Name(column) => Ok(String::from_str(alloc, name_of(names, column))?),
        Item::Literal(value) => literal(alloc, value),
        Item::Operand(_, _) => Ok(String::new(alloc)),
    }
}

/// The name of a column.
pub(crate) fn name_of(names: &[Text], column: u16) -> &str
    ensures { result.now ≡ get_or names.now column (codes "?") }
{
    match names.get(usize::from(column)) {
        Some(name) => name.as_str(),
        None => "?",
    }
}

/// Adds an item before all that wait.
#[tactic(auto, using(crate::proofs::Waiting::waiting_push))]
fn push<'e>(waiting: &mut Vec<Item<'e>>, item: Item<'e>) -> Result<(), OutOfMemory>
    ensures words { OnOk result ((names : List (List ℕ)) → waiting_words names waiting.new.items ≡ item_words names item.entry ++ waiting_words names waiting.old.items) }
    ensures weight { OnOk result (sum_by item_weight waiting.new.items ≡ sum_by item_weight waiting.old.items + item_weight item.entry) }
{
    Ok(waiting.push(item)?)
}

/// Adds the words of an operand before all that wait.
fn add_operand<'e>(
    waiting: &mut Vec<Item<'e>>,
    asked: u8,
    operand: &'e Expr,
) -> Result<(), OutOfMemory>
    ensures words { OnOk result ((names : List (List ℕ)) → waiting_words names waiting.new.items ≡ within asked (expression_of operand.now) (spec.spelled names (expression_of operand.now)) ++ waiting_words names waiting.old.items) }
    ensures weight { OnOk result (sum_by item_weight waiting.new.items + 1 ≤ sum_by item_weight waiting.old.items + 4 * steps (expression_of operand.now)) }
{
    if level(operand) < asked {
        push(waiting, Item::Word(")"))?;
        add_parts(waiting, operand)?;
        push(waiting, Item::Word("("))
    } else {
        add_parts(waiting, operand)
    }
}

/// Adds the words of an expression before all that wait, without brackets.
fn add_parts<'e>(waiting: &mut Vec<Item<'e>>, expression: &'e Expr) -> Result<(), OutOfMemory>
    ensures words { OnOk result ((names : List (List ℕ)) → waiting_words names waiting.new.items ≡ spec.spelled names (expression_of expression.now) ++ waiting_words names waiting.old.items) }
    ensures weight { OnOk result (sum_by item_weight waiting.new.items + 3 ≤ sum_by item_weight waiting.old.items + 4 * steps (expression_of expression.now)) }
{
    match expression {
        Expr::Column(column) => push(waiting, Item::Name(*column)),
        Expr::Literal(value, _) => push(waiting, Item::Literal(value)),
        Expr::Negate(a) => add_prefixed(waiting, "-", 8, a),
        Expr::Not(a) => add_prefixed(waiting, "NOT ", 3, a),
        Expr::IsNull(a) => add_tested(waiting, a, " IS NULL"),
        Expr::IsNotNull(a) => add_tested(waiting, a, " IS NOT NULL"),
        Expr::Arithmetic(op, a, b) => {
            let own = arithmetic_level(*op);
            add_two(waiting, own, a, arithmetic_word(*op), own + 1, b)
        }
        Expr::Compare(op, a, b) => add_two(waiting, 5, a, comparison_word(*op), 5, b),
        Expr::And(a, b) => add_two(waiting, 2, a, " AND ", 3, b),
        Expr::Or(a, b) => add_two(waiting, 1, a, " OR ", 2, b),
        Expr::Case(branch, a, b, c) => add_branch(waiting, *branch, a, b, c),
    }
}

/// Adds a word and the operand after it before all that wait.
fn add_prefixed<'e>(
    waiting: &mut Vec<Item<'e>>,
    word: &'static str,
    asked: u8,
    a: &'e Expr,
) -> Result<(), OutOfMemory>
    ensures words { OnOk result ((names : List (List ℕ)) → waiting_words names waiting.new.items ≡ (word.now ∷ within asked (expression_of a.now) (spec.spelled names (expression_of a.now))) ++ waiting_words names waiting.old.items) }
    ensures weight { OnOk result (sum_by item_weight waiting.new.items ≡ sum_by item_weight waiting.old.items + 4 * steps (expression_of a.now) + 1) }
{
    push(waiting, Item::Operand(asked, a))?;
    push(waiting, Item::Word(word))
}

/// Adds an operand and the test after it before all that wait.
fn add_tested<'e>(
    waiting: &mut Vec<Item<'e>>,
    a: &'e Expr,
    word: &'static str,
) -> Result<(), OutOfMemory>
    ensures words { OnOk result ((names : List (List ℕ)) → waiting_words names waiting.new.items ≡ (within 5 (expression_of a.now) (spec.spelled names (expression_of a.now)) ++ word.now ∷ []) ++ waiting_words names waiting.old.items) }
    ensures weight { OnOk result (sum_by item_weight waiting.new.items ≡ sum_by item_weight waiting.old.items + 4 * steps (expression_of a.now) + 1) }
{
    push(waiting, Item::Word(word))?;
    push(waiting, Item::Operand(5, a))
}

/// Adds two operands with a word between them before all that wait.
fn add_two<'e>(
    waiting: &mut Vec<Item<'e>>,
    first: u8,
    a: &'e Expr,
    word: &'static str,
    second: u8,
    b: &'e Expr,
) -> Result<(), OutOfMemory>
    ensures words { OnOk result ((names : List (List ℕ)) → waiting_words names waiting.new.items ≡ (within first (expression_of a.now) (spec.spelled names (expression_of a.now)) ++ word.now ∷ within second (expression_of b.now) (spec.spelled names (expression_of b.now))) ++ waiting_words names waiting.old.items) }
    ensures weight { OnOk result (sum_by item_weight waiting.new.items ≡ sum_by item_weight waiting.old.items + 4 * steps (expression_of a.now) + 4 * steps (expression_of b.now) + 1) }
{
    push(waiting, Item::Operand(second, b))?;
    push(waiting, Item::Word(word))?;
    push(waiting, Item::Operand(first, a))
}

/// Adds a branch of a CASE, and the rest after it, before all that wait.
fn add_branch<'e>(
    waiting: &mut Vec<Item<'e>>,
    branch: Branch,
    a: &'e Expr,
    b: &'e Expr,
    c: &'e Expr,
) -> Result<(), OutOfMemory>
    ensures words { OnOk result ((names : List (List ℕ)) → waiting_words names waiting.new.items ≡ (spec.branch_word branch ∷ (spec.spelled names (expression_of a.now) ++ codes " THEN " ∷ (spec.spelled names (expression_of b.now) ++ spec.else_word (expression_of c.now) ∷ (spec.spelled names (expression_of c.now) ++ spec.end_word (expression_of c.now) ∷ [])))) ++ waiting_words names waiting.old.items) }
    ensures weight { OnOk result (sum_by item_weight waiting.new.items ≡ sum_by item_weight waiting.old.items + 4 * steps (expression_of a.now) + 4 * steps (expression_of b.now) + 4 * steps (expression_of c.now) + 4) }
{
    push(waiting, Item::Word(end_word(c)))?;
    push(waiting, Item::Operand(0, c))?;
    push(waiting, Item::Word(else_word(c)))?;
    push(waiting, Item::Operand(0, b))?;
    push(waiting, Item::Word(" THEN "))?;
    push(waiting, Item::Operand(0, a))?;
    push(waiting, Item::Word(branch_word(branch)))
}
