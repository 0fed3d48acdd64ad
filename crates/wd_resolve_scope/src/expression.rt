//! What expressions and windows mean over the columns in scope.

ghost use Rattle.std.specs.Prelude.{◌≡◌, [], map, option_map, Some, None, Ok};
ghost use Rattle.wd_plan.specs.Expressions.{expression_of};
ghost use Rattle.wd_syntax.specs.View.{view, view_link, view_window, view_over, view_over_option, view_else_option, view_arm, view_key, view_named_window};
ghost use Rattle.wd_syntax.specs.View as shown;
ghost use Rattle.wd_syntax.specs.Tree.{trees_of, arms_of, keys_of};
ghost use Rattle.wd_resolve_operand.specs.Causes.{Gives};
ghost use Rattle.wd_resolve_call.specs.Functions.{group_function_named};
ghost use Rattle.wd_resolve_scope.specs.Grouped.{column_allowed, grouped_of};
ghost use Rattle.wd_resolve_call.specs.References.{operand_of, operands_of, arm_of, bound_expression_of};
ghost use Rattle.wd_resolve_call.specs.Rows.{row_expression_of};
ghost use Rattle.wd_resolve_scope.specs.Parts as parts;
ghost use Rattle.wd_resolve_scope.specs.Resolving.{context_of};
ghost use Rattle.wd_resolve_scope.specs.Resolving as spec;
ghost use Rattle.wd_resolve_scope.specs.Scopes.{scope_of};
ghost use Rattle.wd_resolve_call.specs.Windows.{key_of, window_of, known_of};

use crate::context::{Context, Grouped, Place};
use crate::scope::Scope;
use std::alloc::Global;
use std::rc::Rc;
use wd_plan::{Expr, ValueKind, has_column};
use wd_resolve_call::{
    GroupFunction, KnownWindow, OrderKey, RowReference, SelectReference, Window, WindowCall,
    apply_function, find_base, find_window, group_function_named, make_group_call, over_columns,
    over_rows, resolve_window, settle_argument, sort_key,
};
use wd_resolve_operand::{
    BoundExpression, CaseArm, Cause, ResolveError, TypedOperand, case_of, combine, literal, negate,
    sign_operand, signed_number, test_null,
};
use wd_syntax as written;
use wd_syntax::{Arm, Link, Literal, Name, NamedWindow, Over, Sign, SortKey};
use wd_value::Text;

impl Context<'_> {
    /// This context at another place.
    fn moved_to(&self, place: Place) -> Context<'_>
        ensures { context_of result ≡ spec.moved_to place (context_of self.now) }
    {
        Context {
            scope: self.scope,
            groups: self.groups,
            windows: self.windows,
            place,
        }
    }

    /// Whether aggregates and GROUPING may appear here: in a grouped select, and at a place that allows them.
    fn may_group(&self) -> bool
        ensures { result ≡ spec.may_group (context_of self.now) }
    {
        match self.groups {
            None => false,
            Some(_) => self.place.allows_group_calls(),
        }
    }

    /// The context of the arguments of a call without OVER.
    fn without_over(&self, name: &Name) -> Context<'_>
        ensures { context_of result ≡ spec.without_over (group_function_named name.now.text) (context_of self.now) }
    {
        match group_function_named(name.text.as_str()) {
            None => self.moved_to(self.place),
            Some(GroupFunction::Aggregate(_)) => Context {
                scope: self.scope,
                groups: None,
                windows: &[],
                place: Place::Aggregated,
            },
            Some(GroupFunction::Grouping) => Context {
                scope: self.scope,
                groups: match self.groups {
                    None => None,
                    Some(groups) => Some(Grouped {
                        columns: groups.columns,
                        other: Cause::GroupingOfOther,
                    }),
                },
                windows: self.windows,
                place: self.place,
            },
        }
    }

    /// The context of a call's arguments.
    #[tactic(auto, using(crate::proofs::OverCalls::moved_within))]
    fn arguments_in(&self, name: &Name, over: &Option<Box<Over>>) -> Context<'_>
        ensures { context_of result ≡ spec.arguments_in (context_of self.now) name.now (view_over_option over.now) }
    {
        match over {
            None => self.without_over(name),
            Some(_) => self.moved_to(self.place.within_call()),
        }
    }

    /// Allows a column; in a grouped select only one that it is grouped by.
    pub fn allow_column(&self, number: u16) -> Result<(), ResolveError>
        ensures { Gives (λ u. u) result (column_allowed (option_map grouped_of self.now.groups) number) }
    {
        match self.groups {
            Some(groups) if !has_column(groups.columns, number) => {
                Err(ResolveError::Refused(groups.other))
            }
            _ => Ok(()),
        }
    }

    /// A column, which a grouped select has to be grouped by.
    fn column(
        &self,
        alloc: Global,
        table: Option<&Text>,
        name: &Text,
    ) -> Result<TypedOperand<SelectReference>, ResolveError>
        ensures { Gives operand_of result (parts.column_resolved (context_of self.now) (option_map (λ t. t.now) table.entry) name.now) }
    {
        let (number, kind) = self.scope.column(table, name)?;
        self.allow_column(number)?;
        let reference = SelectReference::Row(RowReference::Column(number));
        TypedOperand::typed(alloc, BoundExpression::Reference(reference), kind)
    }
}

/// The meaning of an expression.
#[cycle(resolve)]
pub fn resolve_expression(
    alloc: Global,
    context: &Context<'_>,
    tree: &written::Expr,
) -> Result<TypedOperand<SelectReference>, ResolveError>
    ensures { Gives operand_of result (spec.resolved (context_of context.now) (view tree.now)) }
{
    match tree {
        written::Expr::Literal(value) => literal(alloc, value),
        written::Expr::Column(name) => context.column(alloc, None, &name.text),
        written::Expr::Qualified(table, name) => {
            context.column(alloc, Some(&table.text), &name.text)
        }
        written::Expr::CallAll(name, over) => call_over(alloc, context, name, None, over),
        written::Expr::Call(name, arguments, over) => {
            let arguments = resolve_all(alloc, &context.arguments_in(name, over), arguments)?;
            call_over(alloc, context, name, Some(arguments), over)
        }
        written::Expr::Case(arms, other) => {
            let arms = resolve_arms(alloc, context, arms)?;
            end_case(alloc, context, arms, other)
        }
        written::Expr::Bracket(inner) => resolve_expression(alloc, context, inner),
        written::Expr::Signed(sign, inner) => match written_number(inner) {
            Some(number) => signed_number(alloc, *sign, number),
            None => {
                let operand = resolve_expression(alloc, context, inner)?;
                sign_operand(alloc, *sign, operand)
            }
        },
        written::Expr::Compare(operator, left, right) => {
            let left = resolve_expression(alloc, context, left)?;
            let right = resolve_expression(alloc, context, right)?;
            combine(alloc, *operator, left, right)
        }
        written::Expr::Chain(first, before, last) => {
            let first = resolve_expression(alloc, context, first)?;
            let left = resolve_chain(alloc, context, first, before)?;
            resolve_last(alloc, context, left, last)
        }
        written::Expr::Tests(inner, before, last) => {
            let operand = resolve_tests(alloc, context, inner, before)?;
            test_null(alloc, *last, operand)
        }
        written::Expr::Not(inner) => {
            let inner = resolve_expression(alloc, context, inner)?;
            negate(alloc, inner)
        }
    }
}

/// The number directly after a sign, if the expression is one.
pub fn written_number(tree: &written::Expr) -> Option<u64>
    ensures { result ≡ spec.written_number (view tree.now) }
{
    match tree {
        written::Expr::Literal(Literal::Number(n)) => Some(*n),
        _ => None,
    }
}

/// A call after its arguments: first what is in OVER, then the call itself.
#[tactic(auto, using(crate::proofs::OverCalls::over_called))]
#[cycle(resolve)]
fn call_over(
    alloc: Global,
    context: &Context<'_>,
    name: &Name,
    arguments: Option<Vec<TypedOperand<SelectReference>>>,
    over: &Option<Box<Over>>,
) -> Result<TypedOperand<SelectReference>, ResolveError>
    ensures { Gives operand_of result (spec.call_over (context_of context.now) name.now (option_map operands_of arguments) (view_over_option over.now)) }
{
    let Some(over) = over else {
        return call_group(alloc, context, name, arguments);
    };
    if !context.place.allows_window_calls() {
        return Err(ResolveError::Refused(Cause::CallNotAllowed));
    }
    let window = resolve_over(alloc, context, over)?;
    call_function(alloc, name, arguments, window)
}

/// A call without OVER, after its arguments: 405 where it is neither an aggregate nor GROUPING, and 416 where these may not appear, as in
/// a select that is not grouped.
/// select that is not grouped.
fn call_group(
    alloc: Global,
    context: &Context<'_>,
    name: &Name,
    arguments: Option<Vec<TypedOperand<SelectReference>>>,
) -> Result<TypedOperand<SelectReference>, ResolveError>
    ensures { Gives operand_of result (spec.group_called (context_of context.now) (group_function_named name.now.text) (option_map operands_of arguments)) }
{
    let Some(function) = group_function_named(name.text.as_str()) else {
        return Err(ResolveError::Refused(Cause::WrongCall));
    };
    if !context.may_group() {
        return Err(ResolveError::Refused(Cause::GroupCallNotAllowed));
    }
    let call = make_group_call(alloc, function, arguments)?;
    let kind = call.kind();
    let reference = SelectReference::Row(RowReference::Group(Rc::new(alloc, call)?));
    TypedOperand::typed(alloc, BoundExpression::Reference(reference), kind)
}

/// A CASE after its arms: first its end, then the CASE itself.
#[cycle(resolve)]
fn end_case(
    alloc: Global,
    context: &Context<'_>,
    arms: Vec<CaseArm<SelectReference>>,
    other: &Option<Box<written::Expr>>,
) -> Result<TypedOperand<SelectReference>, ResolveError>
    ensures { Gives operand_of result (parts.case_ended (context_of context.now) (map arm_of arms.items) (view_else_option other.now)) }
{
    let other = resolve_else(alloc, context, other)?;
    case_of(alloc, arms, other)
}

/// The last operator of a chain and its right operand, over what is to its left.
#[cycle(resolve)]
fn resolve_last(
    alloc: Global,
    context: &Context<'_>,
    left: TypedOperand<SelectReference>,
    last: &Link,
) -> Result<TypedOperand<SelectReference>, ResolveError>
    ensures { Gives operand_of result (parts.link_meant (context_of context.now) (view_link last.now) (operand_of left)) }
{
    let right = resolve_expression(alloc, context, &last.operand)?;
    combine(alloc, last.operator, left, right)
}

/// Operators and their right operands, over what is to their left.
#[cycle(resolve)]
fn resolve_chain(
    alloc: Global,
    context: &Context<'_>,
    first: TypedOperand<SelectReference>,
    links: &[Link],
) -> Result<TypedOperand<SelectReference>, ResolveError>
    ensures { Gives operand_of result (parts.chain_meant (context_of context.now) (map view_link links.now) (operand_of first)) }
{
    let mut left = first;
    for link in links {
        let right = resolve_expression(alloc, context, &link.operand)?;
        left = combine(alloc, link.operator, left, right)?;
    }
    Ok(left)
}

/// Tests for NULL, one after another.
#[tactic(auto, using(crate::proofs::Chains::tests_mean))]
#[cycle(resolve)]
fn resolve_tests(
    alloc: Global,
    context: &Context<'_>,
    inner: &written::Expr,
    tests: &[bool],
) -> Result<TypedOperand<SelectReference>, ResolveError>
    ensures { Gives operand_of result (spec.resolved (context_of context.now) (shown.tested (view inner.now) tests.now)) }
{
    let mut operand = resolve_expression(alloc, context, inner)?;
    for not in tests {
        operand = test_null(alloc, *not, operand)?;
    }
    Ok(operand)
}

/// A call, after its arguments and its window.
fn call_function(
    alloc: Global,
    name: &Name,
    arguments: Option<Vec<TypedOperand<SelectReference>>>,
    window: Window,
) -> Result<TypedOperand<SelectReference>, ResolveError>
    ensures { Gives operand_of result (spec.called name.now (option_map operands_of arguments) (window_of window)) }
{
    let function = apply_function(alloc, name.text.as_str(), arguments)?;
    let kind = function.kind();
    let call = Box::new(alloc, WindowCall { function, window })?;
    TypedOperand::typed(
        alloc,
        BoundExpression::Reference(SelectReference::Call(call)),
        kind,
    )
}

/// The arguments of a call, and the expressions of a partition.
#[cycle(resolve)]
fn resolve_all(
    alloc: Global,
    context: &Context<'_>,
    trees: &[written::Expr],
) -> Result<Vec<TypedOperand<SelectReference>>, ResolveError>
    ensures { Gives operands_of result (spec.all_resolved (context_of context.now) (trees_of (map view trees.now))) }
{
    let mut operands = Vec::new(alloc);
    for tree in trees {
        operands.push(resolve_expression(alloc, context, tree)?)?;
    }
    Ok(operands)
}

/// The conditions and results of a CASE.
#[cycle(resolve)]
fn resolve_arms(
    alloc: Global,
    context: &Context<'_>,
    arms: &[Arm],
) -> Result<Vec<CaseArm<SelectReference>>, ResolveError>
    ensures { Gives (λ v. map arm_of v.items) result (spec.arms_resolved (context_of context.now) (arms_of (map view_arm arms.now))) }
{
    let mut parts = Vec::new(alloc);
    for arm in arms {
        let when = resolve_expression(alloc, context, &arm.when)?;
        let gives = resolve_expression(alloc, context, &arm.gives)?;
        parts.push(CaseArm { when, gives })?;
    }
    Ok(parts)
}

/// The operand of ELSE; NULL without ELSE.
#[cycle(resolve)]
fn resolve_else(
    alloc: Global,
    context: &Context<'_>,
    other: &Option<Box<written::Expr>>,
) -> Result<TypedOperand<SelectReference>, ResolveError>
    ensures { Gives operand_of result (spec.else_resolved (context_of context.now) (view_else_option other.now)) }
{
    match other {
        None => Ok(TypedOperand::Null),
        Some(tree) => resolve_expression(alloc, context, tree),
    }
}

/// The sort keys of a window.
#[cycle(resolve)]
fn resolve_keys(
    alloc: Global,
    context: &Context<'_>,
    keys: &[SortKey],
) -> Result<Vec<OrderKey>, ResolveError>
    ensures { Gives (λ v. map key_of v.items) result (spec.keys_resolved (context_of context.now) (keys_of (map view_key keys.now))) }
{
    let mut order = Vec::new(alloc);
    for key in keys {
        let operand = resolve_expression(alloc, context, &key.expr)?;
        order.push(order_key(alloc, &operand, key)?)?;
    }
    Ok(order)
}

/// An expression to sort by.
fn order_key(
    alloc: Global,
    operand: &TypedOperand<SelectReference>,
    written: &SortKey,
) -> Result<OrderKey, ResolveError>
    ensures { Gives key_of result (spec.key_meant (operand_of operand.now) written.now.direction written.now.nulls) }
{
    Ok(OrderKey {
        expression: settle_argument(alloc, operand)?,
        kind: operand.kind(),
        key: sort_key(written.direction, written.nulls),
    })
}

/// The window of a call, where one is allowed.
#[cycle(resolve)]
fn resolve_over(alloc: Global, context: &Context<'_>, over: &Over) -> Result<Window, ResolveError>
    ensures { Gives window_of result (parts.over_meant (context_of context.now) (view_over over.now)) }
{
    match over {
        Over::Name(name) => Ok(find_window(context.windows, &name.text)?.share()?),
        Over::Window(window) => resolve_written_window(alloc, context, window),
    }
}

/// A window: the one that it copies, its partition, its order, and then its frame.
#[cycle(resolve)]
fn resolve_written_window(
    alloc: Global,
    context: &Context<'_>,
    window: &written::Window,
) -> Result<Window, ResolveError>
    ensures { Gives window_of result (spec.window_resolved (context_of context.now) (view_window window.now)) }
{
    let written::Window {
        base,
        partition,
        order,
        frame,
    } = window;
    let base = find_base(context.windows, base)?;
    let inside = context.moved_to(Place::Window);
    let operands = resolve_all(alloc, &inside, partition)?;
    let partition = settle_all(alloc, &operands)?;
    let order = resolve_keys(alloc, &inside, order)?;
    resolve_window(alloc, base, partition, order, *frame)
}

/// The expressions in places that require no kind; 406 where a window call is in one.
fn settle_all(
    alloc: Global,
    operands: &[TypedOperand<SelectReference>],
) -> Result<Vec<BoundExpression<RowReference>>, ResolveError>
    ensures { Gives (λ v. map row_expression_of v.items) result (spec.all_settled (map operand_of operands.now)) }
{
    let mut expressions = Vec::with_capacity(alloc, operands.len())?;
    for operand in operands {
        expressions.push(settle_argument(alloc, operand)?)?;
    }
    Ok(expressions)
}

/// An expression at a place where no windows have names.
pub fn plain(
    alloc: Global,
    scope: &Scope,
    groups: Option<Grouped<'_>>,
    place: Place,
    tree: &written::Expr,
) -> Result<TypedOperand<SelectReference>, ResolveError>
    ensures { Gives operand_of result (spec.plain place (option_map grouped_of groups.entry) (scope_of scope.now) (view tree.now)) }
{
    let context = Context {
        scope,
        groups,
        windows: &[],
        place,
    };
    resolve_expression(alloc, &context, tree)
}

/// The condition of HAVING, over groups.
pub fn group_condition(
    alloc: Global,
    scope: &Scope,
    groups: Option<Grouped<'_>>,
    tree: &written::Expr,
) -> Result<BoundExpression<RowReference>, ResolveError>
    ensures { Gives row_expression_of result (spec.group_condition (option_map grouped_of groups.entry) (scope_of scope.now) (view tree.now)) }
{
    let operand = plain(alloc, scope, groups, Place::Having, tree)?;
    let truth = operand.of_kind(alloc, ValueKind::Truth)?;
    over_rows(alloc, &truth)
}

/// The condition of WHERE or of ON.
pub fn condition(
    alloc: Global,
    scope: &Scope,
    place: Place,
    tree: &written::Expr,
) -> Result<Expr, ResolveError>
    ensures { Gives expression_of result (spec.condition place (scope_of scope.now) (view tree.now)) }
{
    let operand = plain(alloc, scope, None, place, tree)?;
    let truth = operand.of_kind(alloc, ValueKind::Truth)?;
    over_columns(alloc, &truth)
}

fn is_known(windows: &[KnownWindow], name: &Name) -> bool
    ensures { result ≡ spec.is_known (map known_of windows.now) name.now.text }
{
    for known in windows {
        if known.name.as_str() == name.text.as_str() {
            return true;
        }
    }
    false
}

/// A window of the WINDOW clause, which may copy the ones before it.
fn define_window(
    alloc: Global,
    scope: &Scope,
    groups: Option<Grouped<'_>>,
    windows: &[KnownWindow],
    window: &NamedWindow,
) -> Result<KnownWindow, ResolveError>
    ensures { Gives known_of result (spec.defined (scope_of scope.now) (option_map grouped_of groups.entry) (map known_of windows.now) window.now.name (view_window window.now.window)) }
{
    if is_known(windows, &window.name) {
        return Err(ResolveError::Refused(Cause::UnknownWindow));
    }
    let context = Context {
        scope,
        groups,
        windows,
        place: Place::Window,
    };
    let meaning = resolve_written_window(alloc, &context, &window.window)?;
    Ok(KnownWindow {
        name: window.name.text.copy()?,
        window: meaning,
    })
}

/// The windows of the WINDOW clause; each is checked, even where no call uses it.
pub fn define_windows(
    alloc: Global,
    scope: &Scope,
    groups: Option<Grouped<'_>>,
    written: &[NamedWindow],
) -> Result<Vec<KnownWindow>, ResolveError>
    ensures { Gives (λ v. map known_of v.items) result (spec.all_defined (scope_of scope.now) (option_map grouped_of groups.entry) [] (map view_named_window written.now)) }
{
    let mut windows = Vec::new(alloc);
    for window in written {
        let known = define_window(alloc, scope, groups, &windows, window)?;
        windows.push(known)?;
    }
    Ok(windows)
}
