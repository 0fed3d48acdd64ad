//! What lines set for the lines after them.

use crate::lists::{groups_of, orderings_of};
use crate::stacks::Stacks;
use crate::words::Line;
use std::alloc::Global;
use wd_cases::{Failure, row_of, rows_of};
use wd_frame::Part;
use wd_plan::{Choice, Plan};
use wd_schema::{Schema, read_schema};
use wd_value::{Instance, Row, Value};

/// What lines have set, and what was read of the last one.
#[derive(Drop)]
pub struct State {
    pub schema: Option<Schema>,
    /// The rows of the first table, once there are some.
    pub instance: Instance,
    /// The right side of joins.
    pub right: Vec<Row>,
    pub plan: Option<Plan>,
    /// What the words of the line have left.
    pub stacks: Stacks,
    /// The lists after the line's colon.
    pub choice: Choice,
    groups: Vec<u32>,
    keys: Vec<Value>,
    desc: bool,
}

impl State {
    /// Nothing is set yet.
    pub fn new(alloc: Global) -> State {
        State {
            schema: None,
            instance: Vec::new(alloc),
            right: Vec::new(alloc),
            plan: None,
            stacks: Stacks::new(alloc),
            choice: Choice {
                orderings: Vec::new(alloc),
            },
            groups: Vec::new(alloc),
            keys: Vec::new(alloc),
            desc: false,
        }
    }

    /// The rows of the first table.
    pub fn rows(&self) -> &[Row] {
        match self.instance.first() {
            Some(rows) => rows,
            None => &[],
        }
    }

    /// The partition that `part` has set.
    pub fn part(&self) -> Part<'_> {
        Part {
            groups: &self.groups,
            keys: &self.keys,
            desc: self.desc,
        }
    }

    /// The first list after the line's colon.
    pub fn ordering(&self) -> &[u64] {
        match self.choice.orderings.first() {
            Some(ordering) => ordering,
            None => &[],
        }
    }

    /// Reads the line's words and its lists.
    pub fn read(&mut self, alloc: Global, line: Line) -> Result<(), Failure> {
        self.choice.orderings = orderings_of(alloc, line.lists)?;
        self.stacks.read(line.words)
    }

    /// Sets what the line's name says; answers whether that is something to be set.
    pub fn set(&mut self, alloc: Global, line: Line) -> Result<bool, Failure> {
        match line.word.name {
            "schema" => self.set_schema(alloc, line.words)?,
            "rows" => self.set_rows(alloc, line.words)?,
            "right" => self.right = rows_of(alloc, line.words, ',')?,
            "plan" => self.set_plan(line.words)?,
            "part" => self.set_part(alloc, line)?,
            _ => return Ok(false),
        }
        Ok(true)
    }

    /// `schema TEXT`
    fn set_schema(&mut self, alloc: Global, text: &str) -> Result<(), Failure> {
        self.schema = Some(read_schema(alloc, text.as_bytes())?);
        Ok(())
    }

    /// `rows ROWS`
    fn set_rows(&mut self, alloc: Global, text: &str) -> Result<(), Failure> {
        let rows = rows_of(alloc, text, ',')?;
        self.instance.clear();
        Ok(self.instance.push(rows)?)
    }

    /// `plan WORDS`
    fn set_plan(&mut self, words: &str) -> Result<(), Failure> {
        self.stacks.read(words)?;
        self.plan = self.stacks.plans.pop();
        Ok(())
    }

    /// `part GROUPS : KEYS`, or with `part(desc)`
    fn set_part(&mut self, alloc: Global, line: Line) -> Result<(), Failure> {
        self.groups = groups_of(alloc, line.words)?;
        self.keys = keys_of(alloc, line.lists)?;
        self.desc = line.word.arguments == "desc";
        Ok(())
    }
}

fn keys_of(alloc: Global, text: &str) -> Result<Vec<Value>, Failure> {
    if text.is_empty() {
        return Ok(Vec::new(alloc));
    }
    row_of(alloc, text, ',')
}
