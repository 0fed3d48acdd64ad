//! The sentences of blocks.

use wd_value::Fault;

/// What a fault is called.
pub(crate) fn fault_words(fault: Fault) -> &'static str {
    match fault {
        Fault::DivisionByZero => "division by zero",
        Fault::OutOfRange => "a number out of range",
    }
}

/// The sentence of a refusal's number, and what to write in place of what is refused.
pub(crate) fn refusal_words(number: u32) -> (&'static str, &'static str) {
    match number {
        101 => (
            "no token begins with this character",
            "write a function or a column for `||`, `::` and the like; quotes are ' and \"",
        ),
        102 => (
            "a text in single quotes is not closed",
            "close it; a quote within a text is written twice",
        ),
        103 => (
            "a name in double quotes is empty or not closed",
            "close it; a text stands in single quotes",
        ),
        104 => (
            "a number too large, or joined to what follows",
            "there are no decimal numbers: keep cents or tenths as whole numbers",
        ),
        105 => ("a comment is not closed", "each /* wants a */ of its own"),
        106 => ("the text is not UTF-8", "save the file as UTF-8"),
        107 => (
            "the text has more than 65,536 bytes",
            "take out comments, or cut the file up",
        ),
        201 => (
            "no query goes on with this word",
            "README lists what is not read and what to write in its place",
        ),
        202 => (
            "nested too deeply, or chained too long",
            "compute a part in a derived table",
        ),
        _ => meaning_words(number),
    }
}

/// The sentence and the remedy of a refusal of a query without a plan, or of a schema.
fn meaning_words(number: u32) -> (&'static str, &'static str) {
    match number {
        401 => (
            "a table is not in the schema, or not in FROM",
            "names without quotes are in lower case",
        ),
        402 => (
            "a column is not there",
            "look for a text in double quotes, and for an alias that is used where it is not known yet",
        ),
        403 => (
            "several columns or outputs have one name",
            "write TABLE.COLUMN, and give each table a name of its own by AS",
        ),
        404 => (
            "an operand of another type than its place asks for",
            "numbers are added, and values of one type compared",
        ),
        405 => (
            "an unknown function, wrong arguments, or a window function without OVER",
            "README lists the functions",
        ),
        406 => (
            "a window call outside the select list, or within another call",
            "show the call in a derived table",
        ),
        407 => (
            "an unknown window, or a window's name twice",
            "declare it: WINDOW w AS (ORDER BY v)",
        ),
        408 => (
            "a window copies another one and adds what that may not have",
            "write the window out",
        ),
        409 => (
            "a frame ends before it can start",
            "write BETWEEN with both bounds",
        ),
        410 => (
            "RANGE with an offset wants one sort key of whole numbers",
            "order by one number, or use ROWS or GROUPS",
        ),
        411 => ("GROUPS without ORDER BY", "add ORDER BY to the window"),
        412 => (
            "ORDER BY names an output that is not there",
            "name the output",
        ),
        413 => ("WITH TIES without ORDER BY", "add ORDER BY, or write ONLY"),
        414 => (
            "with DISTINCT, a sort key that is not shown",
            "show it, or sort above a derived table",
        ),
        415 => (
            "too many columns, or more than 8 tables in one FROM",
            "show fewer columns, or join in a derived table",
        ),
        416 => (
            "an aggregate in WHERE, in ON or in an aggregate",
            "a condition on groups stands in HAVING",
        ),
        417 => (
            "a query that groups reads a column that is not grouped by",
            "add it to GROUP BY, or take MIN of it",
        ),
        418 => (
            "GROUPING of a column that is not grouped by",
            "name columns of GROUP BY",
        ),
        419 => (
            "more than 64 grouping sets",
            "write GROUPING SETS with those that you want",
        ),
        _ => schema_words(number),
    }
}

fn schema_words(number: u32) -> (&'static str, &'static str) {
    match number {
        301 => ("a table is declared twice", "take one out"),
        302 => ("a column is declared twice", "rename one"),
        303 => (
            "a key over a column that the table does not have",
            "check the spelling",
        ),
        304 => ("a second primary key", "write UNIQUE for one of them"),
        305 => ("a column twice in one key", "name it once"),
        306 => (
            "too many tables, columns or keys",
            "leave out what the queries do not read",
        ),
        307 => (
            "an unknown type",
            "the types are SMALLINT, INTEGER, BIGINT, TEXT and BOOLEAN",
        ),
        308 => ("NULL on a column that is not null", "take out NULL"),
        309 => (
            "no schema goes on with this word",
            "only CREATE TABLE with columns, NOT NULL, PRIMARY KEY and UNIQUE is read",
        ),
        _ => ("it is refused", "see docs/REFUSALS.md"),
    }
}
