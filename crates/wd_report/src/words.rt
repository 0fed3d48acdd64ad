//! The printed words of functions and rules.

ghost use Rattle.std.specs.Prelude.{◌≡◌};
ghost use Rattle.wd_plan.specs.Functions.{word};
ghost use Rattle.wd_report.specs.Words as spec;

use wd_analyse::RuleName;
use wd_plan::FunctionName;

/// A function's name, in lower case.
pub(crate) fn function_word(name: FunctionName) -> &'static str
    ensures { result.now ≡ word name }
{
    match name {
        FunctionName::RowNumber => "row_number",
        FunctionName::Rank => "rank",
        FunctionName::DenseRank => "dense_rank",
        FunctionName::Ntile => "ntile",
        FunctionName::Lag => "lag",
        FunctionName::Lead => "lead",
        FunctionName::FirstValue => "first_value",
        FunctionName::LastValue => "last_value",
        FunctionName::NthValue => "nth_value",
        FunctionName::Count => "count",
        FunctionName::Sum => "sum",
        FunctionName::Min => "min",
        FunctionName::Max => "max",
    }
}

/// A rule's name; `open` for no rule.
pub(crate) fn rule_word(rule: Option<RuleName>) -> &'static str
    ensures { result.now ≡ spec.rule_word rule }
{
    match rule {
        None => "open",
        Some(RuleName::Peers) => "peers",
        Some(RuleName::Unique) => "unique",
        Some(RuleName::Values) => "values",
        Some(RuleName::Exchange) => "exchange",
        Some(RuleName::Whole) => "whole",
        Some(RuleName::Ties) => "ties",
        Some(RuleName::Keys) => "keys",
    }
}
