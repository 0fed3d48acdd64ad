//! Words in postfix notation: an operand goes onto the stack of its kind, and an operator takes
//! what it needs from the stacks.

use crate::operators::{Binary, aggregate_of, function, neighbour, operator_of};
use crate::words::{
    DEFAULT_FRAME, LimitWord, Word, column_of, frame_of, item_of, kind_of, table_of,
};
use std::alloc::Global;
use std::mem::replace;
use wd_cases::{Failure, is_nothing, value_of};
use wd_plan::{
    Branch, Call, Class, Expr, Frame, Function, Group, GroupCall, Limit, Plan, ValueKind, Window,
};
use wd_value::{SortColumn, Value};

/// What the words of a line have left.
#[derive(Drop)]
pub struct Stacks {
    alloc: Global,
    /// The class of the calls that follow.
    class: u16,
    pub expressions: Vec<Expr>,
    pub items: Vec<SortColumn>,
    pub window: Window,
    /// The calls of the Group that follows.
    group_calls: Vec<GroupCall>,
    pub plans: Vec<Plan>,
    /// The frame of the calls that follow.
    pub frame: Frame,
}

/// A Window without classes and calls.
fn no_calls(alloc: Global) -> Window {
    Window {
        classes: Vec::new(alloc),
        calls: Vec::new(alloc),
    }
}

impl Stacks {
    /// Nothing yet.
    pub(crate) fn new(alloc: Global) -> Stacks {
        Stacks {
            alloc,
            class: 0,
            expressions: Vec::new(alloc),
            items: Vec::new(alloc),
            window: no_calls(alloc),
            group_calls: Vec::new(alloc),
            plans: Vec::new(alloc),
            frame: DEFAULT_FRAME,
        }
    }

    /// Empties the stacks, and goes through the words.
    pub(crate) fn read(&mut self, words: &str) -> Result<(), Failure> {
        *self = Stacks::new(self.alloc);
        for word in words.split(' ') {
            if !word.is_empty() {
                self.push(word)?;
            }
        }
        Ok(())
    }

    fn push(&mut self, word: &str) -> Result<(), Failure> {
        if let Some(column) = column_of(word) {
            return self.push_expression(Expr::Column(column));
        }
        if let Some(item) = item_of(word) {
            return Ok(self.items.push(item)?);
        }
        if let Some(operator) = operator_of(word) {
            return self.push_binary(operator);
        }
        self.push_operator(word)
    }

    fn push_operator(&mut self, word: &str) -> Result<(), Failure> {
        match word {
            "negate" | "not" | "is_null" | "is_not_null" => self.push_unary(word),
            "case" => self.push_case(),
            "filter" => self.push_filter(),
            "map" => self.push_map(),
            "join" => self.push_join(),
            "window" => self.push_window(),
            "of_group" => self.push_of_group(),
            "distinct" => self.push_distinct(),
            _ => self.push_named(Word::of(word)),
        }
    }

    fn push_named(&mut self, word: Word) -> Result<(), Failure> {
        if let Some(frame) = frame_of(word) {
            self.frame = frame;
            return Ok(());
        }
        if let Some(function) = function(word) {
            return self.push_call(function);
        }
        if let Some(table) = table_of(word.name) {
            return self.push_table(table, word.arguments);
        }
        match word.name {
            "lag" | "lead" => self.push_neighbour(word),
            "over" => self.push_class(word.arguments),
            "class" => self.set_class(word.arguments),
            "grouping" => self.push_grouping(word.arguments),
            "group" => self.push_group(word.arguments),
            "limit" => self.push_limit(word),
            _ => self.push_literal(word),
        }
    }

    fn push_expression(&mut self, expression: Expr) -> Result<(), Failure> {
        Ok(self.expressions.push(expression)?)
    }

    fn expression(&mut self) -> Result<Box<Expr>, Failure> {
        let expression = self.expressions.pop().ok_or(Failure::NoCase)?;
        Ok(Box::new(self.alloc, expression)?)
    }

    fn push_binary(&mut self, operator: Binary) -> Result<(), Failure> {
        let right = self.expression()?;
        let left = self.expression()?;
        self.push_expression(operator.over(left, right))
    }

    fn push_unary(&mut self, word: &str) -> Result<(), Failure> {
        let operand = self.expression()?;
        self.push_expression(match word {
            "negate" => Expr::Negate(operand),
            "not" => Expr::Not(operand),
            "is_null" => Expr::IsNull(operand),
            _ => Expr::IsNotNull(operand),
        })
    }

    fn push_case(&mut self) -> Result<(), Failure> {
        let other = self.expression()?;
        let chosen = self.expression()?;
        let condition = self.expression()?;
        self.push_expression(Expr::Case(Branch::First, condition, chosen, other))
    }

    fn push_call(&mut self, function: Function) -> Result<(), Failure> {
        Ok(
            self.window.calls.push(Call {
                class: self.class,
                function,
                frame: self.frame,
            })?,
        )
    }

    /// `lag(c0,1,null)`
    fn push_neighbour(&mut self, word: Word) -> Result<(), Failure> {
        let default = value_of(self.alloc, word.argument(2).ok_or(Failure::NoCase)?)?;
        self.push_call(neighbour(word, default).ok_or(Failure::NoCase)?)
    }

    /// `over(c1,c2+)`: a class partitioned by c1 and sorted by c2, of which the calls are that
    /// follow.
    fn push_class(&mut self, arguments: &str) -> Result<(), Failure> {
        self.class = u16::try_from(self.window.classes.len())
            .ok()
            .ok_or(Failure::NoCase)?;
        let class = class_of(self.alloc, arguments)?;
        Ok(self.window.classes.push(class)?)
    }

    /// `class(1)`: the calls that follow are of that class.
    fn set_class(&mut self, arguments: &str) -> Result<(), Failure> {
        self.class = arguments.parse::<u16>()?;
        Ok(())
    }

    fn push_plan(&mut self, plan: Plan) -> Result<(), Failure> {
        Ok(self.plans.push(plan)?)
    }

    fn plan(&mut self) -> Result<Box<Plan>, Failure> {
        let plan = self.plans.pop().ok_or(Failure::NoCase)?;
        Ok(Box::new(self.alloc, plan)?)
    }

    /// A join under the expression that stands there, if any.
    fn push_join(&mut self) -> Result<(), Failure> {
        let right = self.plan()?;
        let left = self.plan()?;
        let condition = self.expressions.pop();
        self.push_plan(Plan::Join {
            left,
            right,
            condition,
        })
    }

    fn push_filter(&mut self) -> Result<(), Failure> {
        let input = self.plan()?;
        let condition = self.expressions.pop().ok_or(Failure::NoCase)?;
        self.push_plan(Plan::Filter { input, condition })
    }

    /// A Map to all expressions that stand there.
    fn push_map(&mut self) -> Result<(), Failure> {
        let input = self.plan()?;
        let outputs = replace(&mut self.expressions, Vec::new(self.alloc));
        self.push_plan(Plan::Map { input, outputs })
    }

    /// A Window of all classes and calls that stand there.
    fn push_window(&mut self) -> Result<(), Failure> {
        let input = self.plan()?;
        let window = replace(&mut self.window, no_calls(self.alloc));
        self.frame = DEFAULT_FRAME;
        self.push_plan(Plan::Window { input, window })
    }

    /// The call that stands last, an aggregate, as one of the group's rows.
    fn push_of_group(&mut self) -> Result<(), Failure> {
        let call = self.window.calls.pop().ok_or(Failure::NoCase)?;
        let aggregate = aggregate_of(&call.function).ok_or(Failure::NoCase)?;
        Ok(self.group_calls.push(GroupCall::OfRows(aggregate))?)
    }

    /// `grouping(0,1)`: which of these grouping columns the set lacks.
    fn push_grouping(&mut self, arguments: &str) -> Result<(), Failure> {
        let columns = columns_of(self.alloc, arguments)?;
        Ok(self.group_calls.push(GroupCall::Grouping(columns))?)
    }

    /// `group(2;0,1;0;-)`: a Group by the first two columns, with these three sets, of the calls that stand there.
    fn push_group(&mut self, arguments: &str) -> Result<(), Failure> {
        let (columns, sets) = arguments.split_once(';').ok_or(Failure::NoCase)?;
        let columns = columns.parse::<u16>()?;
        let sets = sets_of(self.alloc, sets)?;
        let input = self.plan()?;
        let calls = replace(&mut self.group_calls, Vec::new(self.alloc));
        self.push_plan(Plan::Group {
            input,
            group: Group {
                columns,
                sets,
                calls,
            },
        })
    }

    fn push_distinct(&mut self) -> Result<(), Failure> {
        let input = self.plan()?;
        self.push_plan(Plan::Distinct { input })
    }

    /// `limit(OFFSET,COUNT)`, with `all` for no count, or `limit(OFFSET,COUNT,ties)`, by all keys
    /// that stand there.
    fn push_limit(&mut self, word: Word) -> Result<(), Failure> {
        let LimitWord {
            offset,
            count,
            ties,
        } = word.limit().ok_or(Failure::NoCase)?;
        let input = self.plan()?;
        let keys = replace(&mut self.items, Vec::new(self.alloc));
        self.push_plan(Plan::Limit {
            input,
            limit: Limit {
                keys,
                offset,
                count,
                ties,
            },
        })
    }

    /// `t0(3)`: the table with number 0, of 3 columns.
    fn push_table(&mut self, table: u16, arguments: &str) -> Result<(), Failure> {
        let columns = arguments.parse::<u16>()?;
        self.push_plan(Plan::Scan { table, columns })
    }

    /// `7`, `'a'`, `true`, `null`, or marked with a kind, as `null(truth)`.
    fn push_literal(&mut self, word: Word) -> Result<(), Failure> {
        let value = value_of(self.alloc, word.name)?;
        let kind = match word.arguments {
            "" => kind_of_value(&value),
            kind => kind_of(kind).ok_or(Failure::NoCase)?,
        };
        self.push_expression(Expr::Literal(value, kind))
    }
}

/// The kind of a value, a number's for NULL.
fn kind_of_value(value: &Value) -> ValueKind {
    match value {
        Value::Null | Value::Int(_) => ValueKind::Number,
        Value::Text(_) => ValueKind::Text,
        Value::Bool(_) => ValueKind::Truth,
    }
}

/// The class of words such as `c1,c2+`.
fn class_of(alloc: Global, words: &str) -> Result<Class, Failure> {
    let mut class = Class {
        partition: Vec::new(alloc),
        order: Vec::new(alloc),
    };
    for word in words.split(',') {
        push_key(&mut class, word)?;
    }
    Ok(class)
}

fn push_key(class: &mut Class, word: &str) -> Result<(), Failure> {
    if let Some(column) = column_of(word) {
        class.partition.push(column)?;
    } else if let Some(item) = item_of(word) {
        class.order.push(item)?;
    } else if !word.is_empty() {
        return Err(Failure::NoCase);
    }
    Ok(())
}

/// Grouping sets parted by `;`.
fn sets_of(alloc: Global, words: &str) -> Result<Vec<Vec<u16>>, Failure> {
    let mut sets = Vec::new(alloc);
    for set in words.split(';') {
        sets.push(columns_of(alloc, set)?)?;
    }
    Ok(sets)
}

/// Numbers of columns parted by `,`, or `-` for none.
fn columns_of(alloc: Global, words: &str) -> Result<Vec<u16>, Failure> {
    let mut columns = Vec::new(alloc);
    for word in words.split(',') {
        if !is_nothing(word) {
            columns.push(word.parse::<u16>()?)?;
        }
    }
    Ok(columns)
}
