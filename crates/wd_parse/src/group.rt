//! GROUP BY and HAVING.

ghost use Rattle.std.specs.Prelude.{◌≡◌, map};
ghost use Rattle.wd_lex.specs.Lexed.{kinds_of};
ghost use Rattle.wd_syntax.specs.Limits.{most_operators};
ghost use Rattle.wd_syntax.specs.Tokens.{whole_height};
ghost use Rattle.wd_syntax.specs.Tree.{columns, constructed};
ghost use Rattle.wd_syntax.specs.View.{view_set, view_group_item, view_option, view_grouping};
ghost use Rattle.wd_read_expression.specs.Reading.{read};
ghost use Rattle.wd_parse.specs.Reading.{group_column_at, some_columns_at, columns_at, set_at, takes_empty, grouping_word_at, sets_at, group_item_at, group_at, having_at, grouping_at};
ghost use Rattle.wd_read_cursor.specs.Given.{Finds, Gives};

use std::alloc::Global;
use wd_lex::{Terminal, Token};
use wd_read_cursor::{KeyWord, Reader, Refusal, eat, eat_word, expect, list_at, name_at};
use wd_read_expression::{deeper, expression_at};
use wd_syntax::{Expr, GroupColumn, GroupItem, Grouping, GroupingSet, GroupingWord};

/// Reads columns that are grouped by.
#[derive(Clone, Copy)]
struct GroupColumns {}

impl Reader for GroupColumns {
    ghost use Rattle.wd_syntax.specs.declared.query.GroupColumn.{GroupColumn as ColumnTree};
    ghost use Rattle.wd_parse.specs.Reading.{group_column_at};

    type Item = GroupColumn;

    ghost Tree = { ColumnTree };

    ghost tree = { λ c. c };

    ghost item = { λ columns. group_column_at };

    #[tactic(auto, unfolding(crate::specs::Reading::group_column_at))]
    fn read<'t>(
        &self,
        alloc: Global,
        tokens: &'t [Token],
    ) -> Result<(GroupColumn, &'t [Token]), Refusal> {
        let (name, rest) = name_at(alloc, tokens)?;
        match eat(rest, Terminal::Dot) {
            Some(rest) => {
                let (column, rest) = name_at(alloc, rest)?;
                Ok((
                    GroupColumn {
                        table: Some(name),
                        name: column,
                    },
                    rest,
                ))
            }
            None => Ok((GroupColumn { table: None, name }, rest)),
        }
    }
}

/// `column {, column} )`
#[tactic(auto, unfolding(crate::specs::Reading::some_columns_at))]
fn some_columns(alloc: Global, tokens: &[Token]) -> Result<(Vec<GroupColumn>, &[Token]), Refusal>
    ensures { Gives (λ x. (x.0.items, kinds_of x.1.now)) result (some_columns_at (kinds_of tokens.now)) }
{
    let (columns, rest) = list_at(alloc, &GroupColumns {}, Terminal::Comma, tokens)?;
    let rest = expect(rest, Terminal::RightBracket)?;
    Ok((columns, rest))
}

/// `column {, column} )`, or `)` where there may be no column.
#[tactic(auto, unfolding(crate::specs::Reading::columns_at))]
fn columns(
    alloc: Global,
    empty: bool,
    tokens: &[Token],
) -> Result<(Vec<GroupColumn>, &[Token]), Refusal>
    ensures { Gives (λ x. (x.0.items, kinds_of x.1.now)) result (columns_at empty (kinds_of tokens.now)) }
{
    if empty {
        if let Some(rest) = eat(tokens, Terminal::RightBracket) {
            return Ok((Vec::new(alloc), rest));
        }
    }
    some_columns(alloc, tokens)
}

/// Reads sets, with the given number of levels left; `empty` says whether `()` is one.
#[derive(Clone, Copy)]
struct GroupingSets {
    depth: u8,
    empty: bool,
}

impl Reader for GroupingSets {
    ghost use Rattle.wd_syntax.specs.Tree.{SetTree};
    ghost use Rattle.wd_syntax.specs.View.{view_set};
    ghost use Rattle.wd_parse.specs.Reading.{set_at};

    type Item = GroupingSet;

    ghost Tree = { SetTree };

    ghost tree = { view_set };

    ghost item = { λ sets. set_at sets.depth sets.empty };

    fn read<'t>(
        &self,
        alloc: Global,
        tokens: &'t [Token],
    ) -> Result<(GroupingSet, &'t [Token]), Refusal> {
        set(alloc, self.depth, self.empty, tokens)
    }
}

/// A column, or columns in brackets.
#[tactic(auto, unfolding(crate::specs::Reading::set_at), using(wd_read_expression::proofs::Loops::length_kinds))]
fn set(
    alloc: Global,
    depth: u8,
    empty: bool,
    tokens: &[Token],
) -> Result<(GroupingSet, &[Token]), Refusal>
    ensures { Gives (λ x. (view_set x.0, kinds_of x.1.now)) result (set_at depth empty (kinds_of tokens.now)) }
{
    match eat(tokens, Terminal::LeftBracket) {
        Some(rest) => {
            deeper(depth, tokens.len())?;
            let (columns, rest) = columns(alloc, empty, rest)?;
            Ok((GroupingSet::Columns(columns), rest))
        }
        None => {
            let (column, rest) = GroupColumns {}.read(alloc, tokens)?;
            Ok((GroupingSet::Column(column), rest))
        }
    }
}

/// Whether empty sets may appear between the brackets of the word.
fn may_hold_empty(word: GroupingWord) -> bool
    ensures { result ≡ takes_empty word }
{
    match word {
        GroupingWord::Rollup => false,
        GroupingWord::Cube => false,
        GroupingWord::Sets => true,
    }
}

/// `ROLLUP` or `CUBE` before a bracket, or `GROUPING SETS`, if the tokens begin with one.
#[tactic(auto, unfolding(crate::specs::Reading::grouping_word_at))]
fn word_at(tokens: &[Token]) -> Option<(GroupingWord, &[Token])>
    ensures { Finds (λ x. (x.0, kinds_of x.1.now)) result (grouping_word_at (kinds_of tokens.now)) }
{
    if let Some(rest) = eat_word(tokens, KeyWord::Rollup) {
        return match eat(rest, Terminal::LeftBracket) {
            Some(_) => Some((GroupingWord::Rollup, rest)),
            None => None,
        };
    }
    if let Some(rest) = eat_word(tokens, KeyWord::Cube) {
        return match eat(rest, Terminal::LeftBracket) {
            Some(_) => Some((GroupingWord::Cube, rest)),
            None => None,
        };
    }
    let Some(rest) = eat_word(tokens, KeyWord::Grouping) else {
        return None;
    };
    match eat_word(rest, KeyWord::Sets) {
        Some(rest) => Some((GroupingWord::Sets, rest)),
        None => None,
    }
}

/// `( set {, set} )`, after the word.
#[tactic(auto, unfolding(crate::specs::Reading::sets_at), using(wd_read_expression::proofs::Loops::length_kinds))]
fn sets(
    alloc: Global,
    depth: u8,
    word: GroupingWord,
    tokens: &[Token],
) -> Result<(GroupItem, &[Token]), Refusal>
    ensures { Gives (λ x. (view_group_item x.0, kinds_of x.1.now)) result (sets_at depth word (kinds_of tokens.now)) }
{
    let rest = expect(tokens, Terminal::LeftBracket)?;
    let inside = deeper(depth, tokens.len())?;
    let reader = GroupingSets {
        depth: inside,
        empty: may_hold_empty(word),
    };
    let (sets, rest) = list_at(alloc, &reader, Terminal::Comma, rest)?;
    let rest = expect(rest, Terminal::RightBracket)?;
    Ok((GroupItem::Sets(word, sets), rest))
}

/// Reads members of GROUP BY, with the given number of levels left.
#[derive(Clone, Copy)]
struct GroupItems {
    depth: u8,
}

impl Reader for GroupItems {
    ghost use Rattle.wd_syntax.specs.Tree.{GroupTree};
    ghost use Rattle.wd_syntax.specs.View.{view_group_item};
    ghost use Rattle.wd_parse.specs.Reading.{group_item_at};

    type Item = GroupItem;

    ghost Tree = { GroupTree };

    ghost tree = { view_group_item };

    ghost item = { λ items. group_item_at items.depth };

    #[tactic(auto, unfolding(crate::specs::Reading::group_item_at))]
    fn read<'t>(
        &self,
        alloc: Global,
        tokens: &'t [Token],
    ) -> Result<(GroupItem, &'t [Token]), Refusal> {
        match word_at(tokens) {
            Some((word, rest)) => sets(alloc, self.depth, word, rest),
            None => {
                let (set, rest) = set(alloc, self.depth, true, tokens)?;
                Ok((GroupItem::Set(set), rest))
            }
        }
    }
}

/// `[GROUP BY item {, item}]`
#[tactic(auto, unfolding(crate::specs::Reading::group_at))]
fn items(alloc: Global, depth: u8, tokens: &[Token]) -> Result<(Vec<GroupItem>, &[Token]), Refusal>
    ensures { Gives (λ x. (map view_group_item x.0.items, kinds_of x.1.now)) result (group_at depth (kinds_of tokens.now)) }
{
    match eat(tokens, Terminal::Group) {
        Some(rest) => {
            let rest = expect(rest, Terminal::By)?;
            list_at(alloc, &GroupItems { depth }, Terminal::Comma, rest)
        }
        None => Ok((Vec::new(alloc), tokens)),
    }
}

/// `[HAVING expr]`
#[tactic(auto, unfolding(crate::specs::Reading::having_at))]
fn having(alloc: Global, depth: u8, tokens: &[Token]) -> Result<(Option<Expr>, &[Token]), Refusal>
    ensures { Gives (λ x. (view_option x.0, kinds_of x.1.now)) result (having_at (read most_operators depth whole_height) (kinds_of tokens.now)) }
{
    match eat(tokens, Terminal::Having) {
        Some(rest) => {
            let (expr, rest) = expression_at(alloc, depth, rest)?;
            Ok((Some(Box::into_inner(expr)), rest))
        }
        None => Ok((None, tokens)),
    }
}

/// `[GROUP BY item {, item}] [HAVING expr]`
#[tactic(auto, unfolding(crate::specs::Reading::grouping_at))]
pub fn grouping(alloc: Global, depth: u8, tokens: &[Token]) -> Result<(Grouping, &[Token]), Refusal>
    ensures { Gives (λ x. (view_grouping x.0, kinds_of x.1.now)) result (grouping_at depth (read most_operators depth whole_height) (kinds_of tokens.now)) }
{
    let (items, rest) = items(alloc, depth, tokens)?;
    let (having, rest) = having(alloc, depth, rest)?;
    Ok((Grouping { items, having }, rest))
}
