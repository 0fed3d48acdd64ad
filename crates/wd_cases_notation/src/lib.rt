//! How the cases of wd_cases_plans are written. A line is `NAME(ARGUMENTS) WORDS : LISTS`, of which
//! all but the name may be missing. Some lines are only set, for the lines after them:
//! `schema TEXT`, `rows ROWS` (the rows of the one table), `right ROWS` (the right side of joins),
//! `part GROUPS : KEYS` or `part(desc) ..`, and `plan WORDS`.
//!
//! - Values are `null`, `7`, `'a'` and `true`; a row has them parted by commas, and rows are parted
//!   by `;`. Lists have numbers parted by blanks, and are parted by `;`. `-` is no row or the empty
//!   list.
//! - Words are in postfix notation. Each operand goes onto the stack of its kind, and an operator
//!   takes what it needs from there.
//! - Expressions: `c0` (a column), values, also with a kind, as `null(truth)` or `1(text)`, and the
//!   operators `+ - * / % = <> < <= > >= and or not negate is_null is_not_null case`.
//! - Sort keys: `c0+` and `c0-`, ascending with NULL last and descending with NULL first, or as
//!   `c0+first` and `c0-last`.
//! - Classes: `over(c1,c2+)` is PARTITION BY c1 ORDER BY c2. Frames: `rows(-1,+1)`,
//!   `range(first,row)`, `groups(row,last,ties)`, with `current`, `group` or `ties` for what is
//!   excluded. Calls, each of the class (or `class(1)`) and with the frame said last: `row_number`,
//!   `rank`, `dense_rank`, `ntile(2)`, `lag(c0,1,null)`, `lead(c0,1,null)`, `first_value(c0)`,
//!   `last_value(c0)`, `nth_value(c0,2)`, `count(*)`, `count(c0)`, `sum(c0)`, `min(c0)`, `max(c0)`.
//! - Calls of a Group: an aggregate and after it `of_group`, as `sum(c1) of_group`, or
//!   `grouping(0,1)`, of the grouping columns 0 and 1.
//! - Plans: `t0(3)` (the table with number 0, of 3 columns), `filter`, `map`, `join`, `window`,
//!   `distinct`, `limit(OFFSET,COUNT)` or `limit(OFFSET,all,ties)`, and `group(2;0,1;0;-)`, a Group
//!   by the first two columns of its input with the sets of columns 0 and 1, of column 0, and the
//!   empty one.
#![tactic(auto)]

mod lists;
mod operators;
mod stacks;
mod state;
mod words;

pub use stacks::Stacks;
pub use state::State;
pub use words::{LimitWord, Line, Word};
