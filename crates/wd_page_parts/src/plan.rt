//! The plan of a query as boxes within one another: each node's inputs are in its box.

ghost use Rattle.std.specs.Prelude.{◌≡◌, length, take, OnErr, OnOk};

use crate::place::Place;
use crate::words::separator;
use std::alloc::Global;
use std::fmt::Write;
use wd_certificate::{Certificate, Rule};
use wd_markup::{Class, Page, Tag};
use wd_plan::{Call, Class as CallClass, Expr, Group, Limit, Plan, Window};
use wd_schema::{Key, Schema, Table};
use wd_spelling::{
    call_text, group_names, output_names, scan_names, spell_expression, table_names, window_names,
};
use wd_value::{OutOfMemory, SortColumn, Text};

/// The length from which a list of names is cut, in bytes.
const LONG: usize = 400;

/// What is known of a plan: the schema of its tables, the certificate that justifies each call and each limit, if there is one, and what
/// is open.
#[derive(Clone, Copy)]
pub struct Grounds<'s, 'c, 'p> {
    pub schema: &'s Schema,
    pub certificate: Option<&'c Certificate>,
    pub places: &'p [Place],
}

/// Adds the box of a plan, whose nodes are numbered from `first` on; the result is the number after them.
pub fn add_plan(
    alloc: Global,
    page: &mut Page,
    grounds: Grounds<'_, '_, '_>,
    first: u64,
    plan: &Plan,
) -> Result<u64, OutOfMemory>
    ensures appended { OnOk result (take (length page.old) page.new ≡ page.old) }
    ensures kept { OnErr result (page.new ≡ page.old) }
{
    let tables = table_names(alloc, grounds.schema, plan)?;
    let mut part = Page::new(alloc);
    let from = At {
        node: first,
        scan: 0,
    };
    let drawn = add_box(alloc, &mut part, grounds, &tables, from, plan)?;
    page.append(&part)?;
    Ok(drawn.after.node)
}

/// The state of a walk over a plan: the number of the next node, and how many tables it has met.
#[derive(Clone, Copy)]
struct At {
    node: u64,
    scan: usize,
}

/// The result of drawing a plan: the state of the walk after it, and the names of its columns.
#[derive(Drop)]
struct Drawn {
    after: At,
    names: Vec<Text>,
}

/// Adds the box of a plan to a page of its own.
fn add_box(
    alloc: Global,
    page: &mut Page,
    grounds: Grounds<'_, '_, '_>,
    tables: &[Text],
    at: At,
    plan: &Plan,
) -> Result<Drawn, OutOfMemory> {
    page.open(Tag::Division, Class::Node)?;
    let below = match plan {
        Plan::Scan { .. } => Drawn {
            after: at,
            names: Vec::new(alloc),
        },
        Plan::Join { left, right, .. } => {
            let first = add_box(alloc, page, grounds, tables, at, left)?;
            let second = add_box(alloc, page, grounds, tables, first.after, right)?;
            join_plans(first.names, second)?
        }
        Plan::Filter { input, .. }
        | Plan::Map { input, .. }
        | Plan::Group { input, .. }
        | Plan::Window { input, .. }
        | Plan::Distinct { input }
        | Plan::Limit { input, .. } => add_box(alloc, page, grounds, tables, at, input)?,
    };
    add_node(
        alloc,
        page,
        grounds,
        tables,
        below.after,
        &below.names,
        plan,
    )?;
    page.close(Tag::Division)?;
    above(alloc, grounds.schema, tables, below, plan)
}

/// Two plans joined: the columns of both.
fn join_plans(names: Vec<Text>, second: Drawn) -> Result<Drawn, OutOfMemory> {
    let Drawn { after, names: more } = second;
    let mut names = names;
    for name in more {
        names.push(name)?;
    }
    Ok(Drawn { after, names })
}

/// The result of drawing the top node of a plan whose inputs are drawn.
fn above(
    alloc: Global,
    schema: &Schema,
    tables: &[Text],
    below: Drawn,
    plan: &Plan,
) -> Result<Drawn, OutOfMemory> {
    let Drawn { after, names } = below;
    let At { node, scan } = after;
    let node = node.saturating_add(1);
    let next = match plan {
        Plan::Scan { .. } => scan.saturating_add(1),
        Plan::Join { .. }
        | Plan::Filter { .. }
        | Plan::Map { .. }
        | Plan::Group { .. }
        | Plan::Window { .. }
        | Plan::Distinct { .. }
        | Plan::Limit { .. } => scan,
    };
    let names = match plan {
        Plan::Scan { table, .. } => scan_names(alloc, schema, *table, qualifier(tables, scan))?,
        Plan::Map { outputs, .. } => output_names(alloc, &names, outputs)?,
        Plan::Group { group, .. } => group_names(alloc, &names, group)?,
        Plan::Window { window, .. } => window_names(alloc, &names, window)?,
        Plan::Join { .. } | Plan::Filter { .. } | Plan::Distinct { .. } | Plan::Limit { .. } => {
            names
        }
    };
    Ok(Drawn {
        after: At { node, scan: next },
        names,
    })
}

/// The qualifier of the names of a table's columns, where several tables are read.
fn qualifier(tables: &[Text], scan: usize) -> Option<&str> {
    if tables.len() < 2 {
        return None;
    }
    match tables.get(scan) {
        Some(name) => Some(name.as_str()),
        None => None,
    }
}

/// Adds what a plan's top node does, over columns of these names.
fn add_node(
    alloc: Global,
    page: &mut Page,
    grounds: Grounds<'_, '_, '_>,
    tables: &[Text],
    at: At,
    names: &[Text],
    plan: &Plan,
) -> Result<(), OutOfMemory> {
    match plan {
        Plan::Scan { table, .. } => add_scan(alloc, page, grounds.schema, tables, at, *table),
        Plan::Join { condition, .. } => add_join(alloc, page, names, condition.as_ref()),
        Plan::Filter { condition, .. } => {
            add_condition(alloc, page, "Filter", "the rows with", names, condition)
        }
        Plan::Map { outputs, .. } => add_select(alloc, page, names, outputs),
        Plan::Group { group, .. } => add_group(alloc, page, names, group),
        Plan::Window { window, .. } => add_window(alloc, page, grounds, at.node, names, window),
        Plan::Distinct { .. } => add_line(page, "Distinct", "one of rows that are the same"),
        Plan::Limit { limit, .. } => add_limit(alloc, page, grounds, at.node, names, limit),
    }
}

/// Adds what a node does, and how.
fn add_line(page: &mut Page, does: &str, words: &str) -> Result<(), OutOfMemory> {
    page.open(Tag::Paragraph, Class::Plain)?;
    page.element(Tag::Span, Class::Does, does.as_bytes())?;
    page.text(words.as_bytes())?;
    Ok(page.close(Tag::Paragraph)?)
}

/// Adds what a node does, and SQL.
fn add_sql(page: &mut Page, does: &str, words: &str, sql: &str) -> Result<(), OutOfMemory> {
    page.open(Tag::Paragraph, Class::Plain)?;
    page.element(Tag::Span, Class::Does, does.as_bytes())?;
    page.text(words.as_bytes())?;
    page.text(b" ")?;
    page.element(Tag::Code, Class::Plain, sql.as_bytes())?;
    Ok(page.close(Tag::Paragraph)?)
}

/// Adds what a node does by a condition.
fn add_condition(
    alloc: Global,
    page: &mut Page,
    does: &str,
    words: &str,
    names: &[Text],
    condition: &Expr,
) -> Result<(), OutOfMemory> {
    let sql = spell_expression(alloc, names, condition)?;
    add_sql(page, does, words, sql.as_str())
}

/// Adds which pairs of rows a Join returns.
fn add_join(
    alloc: Global,
    page: &mut Page,
    names: &[Text],
    condition: Option<&Expr>,
) -> Result<(), OutOfMemory> {
    match condition {
        Some(condition) => {
            add_condition(
                alloc,
                page,
                "Join",
                "the pairs of rows with",
                names,
                condition,
            )
        }
        None => add_line(page, "Join", "all pairs of rows"),
    }
}

/// Adds what a select list returns.
fn add_select(
    alloc: Global,
    page: &mut Page,
    names: &[Text],
    outputs: &[Expr],
) -> Result<(), OutOfMemory> {
    let sql = listed_outputs(alloc, names, outputs)?;
    add_sql(page, "Select", "", sql.as_str())
}

/// Outputs in one line, as many as fit.
fn listed_outputs(alloc: Global, names: &[Text], outputs: &[Expr]) -> Result<String, OutOfMemory> {
    let mut words = String::new(alloc);
    for (number, output) in outputs.iter().enumerate() {
        if words.len() > LONG {
            return more(words);
        }
        words.push_str(separator(number))?;
        words.push_str(spell_expression(alloc, names, output)?.as_str())?;
    }
    Ok(words)
}

/// Adds what a Group groups by, and its calls.
fn add_group(
    alloc: Global,
    page: &mut Page,
    names: &[Text],
    group: &Group,
) -> Result<(), OutOfMemory> {
    let given = group_names(alloc, names, group)?;
    let (keys, calls) = given.split_at(usize::from(group.columns).min(given.len()));
    let sql = list_names(alloc, keys)?;
    add_sql(page, "Group by", "", sql.as_str())?;
    if calls.is_empty() {
        return Ok(());
    }
    let sql = list_names(alloc, calls)?;
    add_sql(page, "", "with", sql.as_str())
}

/// Names in one line, as many as fit.
fn list_names(alloc: Global, names: &[Text]) -> Result<String, OutOfMemory> {
    let mut words = String::new(alloc);
    for (number, name) in names.iter().enumerate() {
        if words.len() > LONG {
            return more(words);
        }
        words.push_str(separator(number))?;
        words.push_str(name.as_str())?;
    }
    Ok(words)
}

/// Words after which more are left out.
fn more(words: String) -> Result<String, OutOfMemory> {
    let mut words = words;
    words.push_str(", ..")?;
    Ok(words)
}

/// Adds the table that a node reads, and its keys.
fn add_scan(
    alloc: Global,
    page: &mut Page,
    schema: &Schema,
    tables: &[Text],
    at: At,
    table: u16,
) -> Result<(), OutOfMemory> {
    let called = match tables.get(at.scan) {
        Some(name) => name.as_str(),
        None => "",
    };
    match schema.tables.get_index(usize::from(table)) {
        Some((_, table)) => add_table(alloc, page, called, table),
        None => Ok(()),
    }
}

/// Adds a table under its name, and its keys.
fn add_table(
    alloc: Global,
    page: &mut Page,
    called: &str,
    table: &Table,
) -> Result<(), OutOfMemory> {
    add_line(page, "Table", called)?;
    for key in &table.keys {
        let words = key_words(alloc, table, key)?;
        page.element(Tag::Paragraph, Class::Soft, words.as_bytes())?;
    }
    Ok(())
}

/// The words for a key of a table.
fn key_words(alloc: Global, table: &Table, key: &Key) -> Result<String, OutOfMemory> {
    let mut words = String::new(alloc);
    for (number, column) in key.columns.iter().enumerate() {
        words.push_str(separator(number))?;
        if let Some(column) = table.columns.get(usize::from(*column)) {
            words.push_str(column.name.as_str())?;
        }
    }
    words.push_str(" is a key of ")?;
    words.push_str(table.name.as_str())?;
    Ok(words)
}

/// Adds the name of a column.
fn push_column(words: &mut String, names: &[Text], column: u16) -> Result<(), OutOfMemory> {
    match names.get(usize::from(column)) {
        Some(name) => Ok(words.push_str(name.as_str())?),
        None => Ok(()),
    }
}

/// Adds the sort keys of a node.
fn push_keys(words: &mut String, names: &[Text], keys: &[SortColumn]) -> Result<(), OutOfMemory> {
    for (number, key) in keys.iter().enumerate() {
        words.push_str(separator(number))?;
        push_column(words, names, key.column)?;
        if key.key.desc {
            words.push_str(" DESC")?;
        }
    }
    Ok(())
}

/// Adds the partition and the sort keys of a class of calls.
fn push_class(words: &mut String, names: &[Text], class: &CallClass) -> Result<(), OutOfMemory> {
    if !class.partition.is_empty() {
        words.push_str(" partition by ")?;
        for (number, column) in class.partition.iter().enumerate() {
            words.push_str(separator(number))?;
            push_column(words, names, *column)?;
        }
    }
    if !class.order.is_empty() {
        words.push_str(" order by ")?;
        push_keys(words, names, &class.order)?;
    }
    Ok(())
}

/// Adds the calls of a Window, each with its rule.
fn add_window(
    alloc: Global,
    page: &mut Page,
    grounds: Grounds<'_, '_, '_>,
    node: u64,
    names: &[Text],
    window: &Window,
) -> Result<(), OutOfMemory> {
    add_line(page, "Window", "")?;
    for (number, call) in window.calls.iter().enumerate() {
        let number = u32::try_from(number).unwrap_or(u32::MAX);
        page.open(Tag::Paragraph, Class::Plain)?;
        add_call(alloc, page, names, window, call)?;
        add_call_grounds(page, grounds, node, number)?;
        page.close(Tag::Paragraph)?;
    }
    Ok(())
}

/// Adds what a call does.
fn add_call(
    alloc: Global,
    page: &mut Page,
    names: &[Text],
    window: &Window,
    call: &Call,
) -> Result<(), OutOfMemory> {
    let words = call_words(alloc, names, window, call)?;
    Ok(page.text(words.as_bytes())?)
}

/// Adds the rule of a call, or what it lacks.
fn add_call_grounds(
    page: &mut Page,
    grounds: Grounds<'_, '_, '_>,
    node: u64,
    call: u32,
) -> Result<(), OutOfMemory> {
    match grounds.certificate {
        Some(certificate) => add_rule(page, call_rule(certificate, node, call)),
        None => add_lack(page, lack_of(grounds.places, node, Some(call))),
    }
}

/// What a call does.
fn call_words(
    alloc: Global,
    names: &[Text],
    window: &Window,
    call: &Call,
) -> Result<String, OutOfMemory> {
    let mut words = call_text(alloc, names, &call.function)?;
    if let Some(class) = window.classes.get(usize::from(call.class)) {
        push_class(&mut words, names, class)?;
    }
    Ok(words)
}

/// The rule that a certificate has of a node's call.
fn call_rule(certificate: &Certificate, node: u64, call: u32) -> Option<Rule> {
    let entry = certificate.nodes.get(node as usize)?;
    Some(*entry.calls.get(call as usize)?)
}

/// What a call or a limit lacks, if it is open.
fn lack_of(places: &[Place], node: u64, call: Option<u32>) -> Option<&'static str> {
    for place in places {
        if place.node == node && place.call == call {
            return Some(place.lack);
        }
    }
    None
}

/// Adds what a call or a limit lacks, if it is open.
fn add_lack(page: &mut Page, lack: Option<&'static str>) -> Result<(), OutOfMemory> {
    if let Some(words) = lack {
        page.open(Tag::Span, Class::Open)?;
        page.text(b" open: ")?;
        page.text(words.as_bytes())?;
        page.close(Tag::Span)?;
    }
    Ok(())
}

/// Adds the rule of a call.
fn add_rule(page: &mut Page, rule: Option<Rule>) -> Result<(), OutOfMemory> {
    let words = match rule {
        None => "",
        Some(Rule::Peers) => " rows that tie have the same value of it",
        Some(Rule::Unique(_)) => " its columns have a key among them, so no two rows tie",
        Some(Rule::Values(_)) => " rows that tie have the same argument of it",
        Some(Rule::Exchange(_)) => " rows that tie are the same in all columns",
    };
    Ok(page.element(Tag::Span, Class::Rule, words.as_bytes())?)
}

/// Adds the sort keys and the numbers of a Limit, with its rule.
fn add_limit(
    alloc: Global,
    page: &mut Page,
    grounds: Grounds<'_, '_, '_>,
    node: u64,
    names: &[Text],
    limit: &Limit,
) -> Result<(), OutOfMemory> {
    let does = if is_sort(limit) { "Order by" } else { "Limit" };
    page.open(Tag::Paragraph, Class::Plain)?;
    page.element(Tag::Span, Class::Does, does.as_bytes())?;
    add_limit_words(alloc, page, names, limit)?;
    add_limit_grounds(page, grounds, node, limit)?;
    Ok(page.close(Tag::Paragraph)?)
}

/// Adds what a Limit does.
fn add_limit_words(
    alloc: Global,
    page: &mut Page,
    names: &[Text],
    limit: &Limit,
) -> Result<(), OutOfMemory> {
    let words = limit_words(alloc, names, limit)?;
    Ok(page.text(words.as_bytes())?)
}

/// Adds the rule of a Limit, or what it lacks.
fn add_limit_grounds(
    page: &mut Page,
    grounds: Grounds<'_, '_, '_>,
    node: u64,
    limit: &Limit,
) -> Result<(), OutOfMemory> {
    match grounds.certificate {
        Some(certificate) => add_limit_rule(page, limit, limit_trace(certificate, node)),
        None => add_lack(page, lack_of(grounds.places, node, None)),
    }
}

/// Whether a Limit only sorts: it keeps all rows.
fn is_sort(limit: &Limit) -> bool {
    limit.count.is_none() && limit.offset == 0
}

/// The words of a Limit: its sort keys, and before them which rows it keeps, if it doesn't keep all.
fn limit_words(alloc: Global, names: &[Text], limit: &Limit) -> Result<String, OutOfMemory> {
    let mut words = String::new(alloc);
    if !is_sort(limit) {
        push_counts(&mut words, limit)?;
        words.push_str(if limit.keys.is_empty() {
            ""
        } else {
            " order by "
        })?;
    }
    push_keys(&mut words, names, &limit.keys)?;
    Ok(words)
}

/// Adds which rows a Limit keeps.
fn push_counts(words: &mut String, limit: &Limit) -> Result<(), OutOfMemory> {
    let offset = limit.offset;
    match limit.count {
        Some(count) => write!(words, "{count} rows")?,
        None => words.push_str("the rows")?,
    }
    if offset > 0 {
        write!(words, " after the first {offset}")?;
    }
    if limit.ties {
        words.push_str(" with ties")?;
    }
    Ok(())
}

/// The trace that a certificate has of a node's limit.
fn limit_trace(certificate: &Certificate, node: u64) -> Option<u64> {
    certificate.nodes.get(node as usize)?.limit
}

/// Adds the rule of a Limit.
fn add_limit_rule(page: &mut Page, limit: &Limit, trace: Option<u64>) -> Result<(), OutOfMemory> {
    let words = match (trace, limit.count) {
        (Some(_), _) => " its keys tell all rows apart, so the same rows are kept",
        (None, Some(_)) => " rows that tie with the last are kept, too",
        (None, None) => " no row is left out by chance",
    };
    Ok(page.element(Tag::Span, Class::Rule, words.as_bytes())?)
}
