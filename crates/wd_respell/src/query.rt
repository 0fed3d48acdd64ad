//! The equations applied to a query.

ghost use Rattle.std.specs.Prelude.{◌≡◌, ◌<◌, ◌⊎◌, length, Some, Err, IfOk, IfSome, IfNone, IsTrue};
ghost use Rattle.std.specs.String.{string_bytes};
ghost use Rattle.wd_lex.specs.Lexed.{IsLexed, kinds_of};
ghost use Rattle.wd_print.specs.Printed.{HasTokens};
ghost use Rattle.wd_token_text.specs.Texts.{AreWritable};
ghost use Rattle.wd_schema.specs.Schemas.{schema_of};
ghost use Rattle.wd_clauses.specs.Given.{most_tokens};
ghost use Rattle.wd_casts.specs.Decimals.{with_literals};
ghost use Rattle.wd_casts.specs.Masked.{masked};
ghost use Rattle.wd_casts.specs.Terms as casts;
ghost use Rattle.wd_casts.specs.Walked as uncasts;
ghost use Rattle.wd_with.specs.Expanded as members;
ghost use Rattle.wd_with.specs.Expanded.{Said, said};
ghost use Rattle.wd_inner_with.specs.Inner.{without_inner};
ghost use Rattle.wd_distinct_on.specs.Respelled.{Gives};
ghost use Rattle.wd_equations.specs.Expanded as expressions;
ghost use Rattle.wd_moments.specs.Numbered as numbers;
ghost use Rattle.wd_respell.specs.Respelled as spec;
ghost use Rattle.wd_respell.specs.Respelled.{AreEquated, AreFew, AreGiven, AreUncast, IsEquated, IsLeft, IsRespelled, IsShortWay, IsTakenOut};

use crate::layout::lay_out;
use std::alloc::Global;
use wd_casts::{has_casts, mask_query, with_literals, without_casts};
use wd_clauses::RespellError;
use wd_dialect_read::Statement;
use wd_distinct_counts::without_distinct_counts;
use wd_distinct_on::without_distinct_on;
use wd_equations::{ExpandError, expand};
use wd_grouping::without_expression_keys;
use wd_inner_with::without_inner_with;
use wd_lex::{LexError, Token, lex};
use wd_membership::without_membership;
use wd_moments::{MomentError, with_numbers};
use wd_natural::without_natural;
use wd_qualified::unqualified_query;
use wd_schema::Schema;
use wd_token_text::{say_the_same, token_text};
use wd_using::without_using;
use wd_value::OutOfMemory;
use wd_with::{Expanded, without_with};

/// A query respelled by the equations.
#[derive(Drop)]
pub struct Respelled {
    /// Its text.
    pub text: String,
    /// The names of the members of its WITH clause that are read more than once.
    pub read_twice: Vec<Token>,
}

/// The text of a query with the equations applied, if they change it. Also `None` where its own text has no tokens, or the other tokens
/// would be too many or cannot be written. What its columns count is known from the statements that PostgreSQL has for its schema.
pub fn respell(
    alloc: Global,
    schema: &Schema,
    statements: &[Statement],
    query: &[u8],
) -> Result<Option<Respelled>, OutOfMemory>
    // The text has the tokens that the equations give for the query.
    ensures respelled { IfOk result (λ o. IfSome o (λ r. IsRespelled (schema_of schema.now) statements.now query.now (string_bytes r.text) r.read_twice.items)) }

    // A query is left only where it cannot be respelled.
    ensures left { IfOk result (λ o. IfNone o (IsLeft (schema_of schema.now) statements.now query.now)) }
{
    match mask_query(alloc, query)? {
        Some(text) => respell_masked(alloc, schema, statements, query, &text),
        None => Ok(None),
    }
}

/// The text of a query with this masked text, with the equations applied.
fn respell_masked(
    alloc: Global,
    schema: &Schema,
    statements: &[Statement],
    query: &[u8],
    text: &[u8],
) -> Result<Option<Respelled>, OutOfMemory>
    requires { masked query.now ≡ Some text.now }
    ensures respelled { IfOk result (λ o. IfSome o (λ r. IsRespelled (schema_of schema.now) statements.now query.now (string_bytes r.text) r.read_twice.items)) }
    ensures left { IfOk result (λ o. IfNone o (IsLeft (schema_of schema.now) statements.now query.now)) }
{
    match lex(alloc, text) {
        Ok(tokens) => respell_tokens(alloc, schema, statements, query, text, &tokens),
        Err(error) => match error {
            LexError::OutOfMemory => Err(OutOfMemory),
            _ => Ok(None),
        },
    }
}

/// The text of a query with this masked text and its tokens, with the equations applied.
fn respell_tokens(
    alloc: Global,
    schema: &Schema,
    statements: &[Statement],
    query: &[u8],
    text: &[u8],
    tokens: &[Token],
) -> Result<Option<Respelled>, OutOfMemory>
    requires masked { masked query.now ≡ Some text.now }
    requires lexed { IsLexed text.now tokens.now }
    ensures respelled { IfOk result (λ o. IfSome o (λ r. IsRespelled (schema_of schema.now) statements.now query.now (string_bytes r.text) r.read_twice.items)) }
    ensures left { IfOk result (λ o. IfNone o (IsLeft (schema_of schema.now) statements.now query.now)) }
{
    match equated_literals(alloc, schema, statements, query, tokens)? {
        Some(equated) => respelled_query(alloc, schema, statements, query, text, tokens, equated),
        None => Ok(None),
    }
}

/// The tokens of a masked query by the equations, with a literal for each number with a point.
fn equated_literals(
    alloc: Global,
    schema: &Schema,
    statements: &[Statement],
    query: &[u8],
    tokens: &[Token],
) -> Result<Option<Expanded>, OutOfMemory>
    ensures equated { IfOk result (λ o. IfSome o (λ e. AreEquated (schema_of schema.now) statements.now (with_literals query.now tokens.now) (said e))) }
    ensures none { IfOk result (λ o. IfNone o ((e : Said) → AreGiven (schema_of schema.now) statements.now (with_literals query.now tokens.now) e → ⊥)) }
{
    let literals = with_literals(alloc, query, tokens)?;
    without_any_casts(alloc, schema, statements, &literals)
}

/// The tokens without casts, if none is left.
fn uncast(
    alloc: Global,
    statements: &[Statement],
    tokens: &[Token],
) -> Result<Option<Vec<Token>>, OutOfMemory>
    ensures uncast { IfOk result (λ o. IfSome o (λ uncast. AreUncast statements.now tokens.now uncast.items)) }
    ensures none { IfOk result (λ o. IfNone o (IsTrue (casts.has_casts (uncasts.without_casts statements.now tokens.now)) ⊎ (most_tokens < length (uncasts.without_casts statements.now tokens.now)))) }
{
    match without_casts(alloc, statements, tokens) {
        Ok(uncast) => Ok((!has_casts(&uncast)).then_some(uncast)),
        Err(RespellError::OutOfMemory) => Err(OutOfMemory),
        Err(RespellError::TooLong) => Ok(None),
    }
}

/// The tokens by the equations, first without casts; `None` where a cast is left or they would be too many.
fn without_any_casts(
    alloc: Global,
    schema: &Schema,
    statements: &[Statement],
    tokens: &[Token],
) -> Result<Option<Expanded>, OutOfMemory>
    ensures equated { IfOk result (λ o. IfSome o (λ e. AreEquated (schema_of schema.now) statements.now tokens.now (said e))) }
    ensures none { IfOk result (λ o. IfNone o ((e : Said) → AreGiven (schema_of schema.now) statements.now tokens.now e → ⊥)) }
{
    match uncast(alloc, statements, tokens)? {
        Some(uncast) => {
            let found = apply_equations(alloc, schema, statements, &uncast)?;
            Ok(found)
        }
        None => Ok(None),
    }
}

/// The tokens by the equations, unless they would be too many.
fn apply_equations(
    alloc: Global,
    schema: &Schema,
    statements: &[Statement],
    tokens: &[Token],
) -> Result<Option<Expanded>, OutOfMemory>
    ensures equated { IfOk result (λ o. IfSome o (λ e. IsEquated (schema_of schema.now) statements.now tokens.now (said e))) }
    ensures none { IfOk result (λ o. IfNone o ((e : Said) → IsShortWay (schema_of schema.now) statements.now tokens.now → IsEquated (schema_of schema.now) statements.now tokens.now e → ⊥)) }
{
    match without_with_clauses(alloc, schema, tokens) {
        Ok(taken) => {
            let Expanded { tokens, read_twice } = taken;
            expand_and_number(alloc, statements, &tokens, read_twice)
        }
        Err(RespellError::OutOfMemory) => Err(OutOfMemory),
        Err(RespellError::TooLong) => Ok(None),
    }
}

/// The tokens without WITH clauses, those within brackets first, and then with the equations of `plain`.
fn without_with_clauses(
    alloc: Global,
    schema: &Schema,
    tokens: &[Token],
) -> Result<Expanded, RespellError>
    ensures taken { IfOk result (λ e. IsTakenOut (schema_of schema.now) tokens.now (said e)) }
    ensures long { result ≡ Err RespellError.TooLong → (taken : Said) → IsTakenOut (schema_of schema.now) tokens.now taken → ((inner : Said) → without_inner tokens.now ≡ Ok inner → AreFew (members.expanded inner.tokens).tokens) → ⊥ }
{
    let inner = without_inner_with(alloc, tokens)?;
    let Expanded {
        tokens: within,
        read_twice: mut names,
    } = inner;
    let outer = without_with(alloc, &within)?;
    let Expanded {
        tokens: first,
        read_twice: mut others,
    } = outer;
    names.append(&mut others)?;
    let tokens = plain(alloc, schema, &first)?;
    Ok(Expanded {
        tokens,
        read_twice: names,
    })
}

/// The tokens without schemas of tables, DISTINCT ON, NATURAL JOIN, USING and memberships, with columns for the keys of GROUP BY, and
/// without distinct counts.
fn plain(alloc: Global, schema: &Schema, tokens: &[Token]) -> Result<Vec<Token>, RespellError>
    ensures { Gives (λ x. x.items) result (spec.plain (schema_of schema.now) tokens.now) }
{
    let tables = unqualified_query(alloc, tokens)?;
    let first = without_distinct_on(alloc, &tables)?;
    let named = without_natural(alloc, schema, &first)?;
    let joined = without_using(alloc, schema, &named)?;
    let among = without_membership(alloc, &joined)?;
    let grouped = without_expression_keys(alloc, &among)?;
    without_distinct_counts(alloc, &grouped)
}

/// The tokens with the equations of expressions, and with numbers for moments; the names are kept as they are.
fn expand_and_number(
    alloc: Global,
    statements: &[Statement],
    tokens: &[Token],
    read_twice: Vec<Token>,
) -> Result<Option<Expanded>, OutOfMemory>
    ensures numbered { IfOk result (λ o. IfSome o (λ e. e.tokens.items ≡ numbers.with_numbers statements.now (expressions.expanded tokens.now))) }
    ensures names { IfOk result (λ o. IfSome o (λ e. e.read_twice.items ≡ read_twice.items)) }
    ensures none { IfOk result (λ o. IfNone o ((most_tokens < length (expressions.expanded tokens.now)) ⊎ (most_tokens < length (numbers.with_numbers statements.now (expressions.expanded tokens.now))))) }
{
    match expand(alloc, tokens) {
        Ok(expanded) => match with_numbers(alloc, statements, &expanded) {
            Ok(tokens) => Ok(Some(Expanded { tokens, read_twice })),
            Err(MomentError::OutOfMemory) => Err(OutOfMemory),
            Err(MomentError::TooLong) => Ok(None),
        },
        Err(ExpandError::OutOfMemory) => Err(OutOfMemory),
        Err(ExpandError::TooLong) => Ok(None),
    }
}

/// The text of the other tokens, if they differ and can be written.
fn respelled_query(
    alloc: Global,
    schema: &Schema,
    statements: &[Statement],
    query: &[u8],
    masked_text: &[u8],
    tokens: &[Token],
    equated: Expanded,
) -> Result<Option<Respelled>, OutOfMemory>
    requires masked { masked query.now ≡ Some masked_text.now }
    requires lexed { IsLexed masked_text.now tokens.now }
    requires equated { AreEquated (schema_of schema.now) statements.now (with_literals query.now tokens.now) (said equated) }
    ensures respelled { IfOk result (λ o. IfSome o (λ r. IsRespelled (schema_of schema.now) statements.now query.now (string_bytes r.text) r.read_twice.items)) }
    ensures left { IfOk result (λ o. IfNone o (IsLeft (schema_of schema.now) statements.now query.now)) }
{
    let Expanded {
        tokens: others,
        read_twice,
    } = equated;
    match other_text(alloc, query, tokens, &others)? {
        Some(text) => Ok(Some(Respelled { text, read_twice })),
        None => Ok(None),
    }
}

/// The text of the other tokens, if they differ from those of the query and can be written.
fn other_text(
    alloc: Global,
    query: &[u8],
    tokens: &[Token],
    others: &[Token],
) -> Result<Option<String>, OutOfMemory>
    ensures read { IfOk result (λ o. IfSome o (λ text. HasTokens (string_bytes text) (kinds_of others.now))) }
    ensures none { IfOk result (λ o. IfNone o ((kinds_of others.now ≡ kinds_of tokens.now) ⊎ (AreWritable others.now → ⊥))) }
{
    if say_the_same(others, tokens) {
        Ok(None)
    } else {
        text_of(alloc, query, tokens, others)
    }
}

/// The text of the other tokens: laid out as those of the query are, if the lexer reads just these tokens in it, or else one after the
/// other.
fn text_of(
    alloc: Global,
    query: &[u8],
    tokens: &[Token],
    others: &[Token],
) -> Result<Option<String>, OutOfMemory>
    ensures read { IfOk result (λ o. IfSome o (λ text. HasTokens (string_bytes text) (kinds_of others.now))) }
    ensures none { IfOk result (λ o. IfNone o (AreWritable others.now → ⊥)) }
{
    let start = match tokens.first() {
        Some(first) => first.span.start as usize,
        None => 0,
    };
    let text = lay_out(alloc, query, start, others)?;
    if is_read_as(alloc, text.as_str(), others)? {
        Ok(Some(text))
    } else {
        token_text(alloc, others)
    }
}

/// Whether the lexer reads just these tokens in a text.
fn is_read_as(alloc: Global, text: &str, tokens: &[Token]) -> Result<bool, OutOfMemory>
    ensures { IfOk result (λ read. IsTrue read → HasTokens text.now (kinds_of tokens.now)) }
{
    match lex(alloc, text.as_bytes()) {
        Ok(own) => Ok(say_the_same(&own, tokens)),
        Err(LexError::OutOfMemory) => Err(OutOfMemory),
        Err(_) => Ok(false),
    }
}
