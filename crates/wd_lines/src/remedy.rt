//! What to write in place of a word that is not read.
//!
//! A refusal's number says what is wrong in general; the word at which it is, or else the word before that, often says what its author
//! meant. So each number that comes with a word has a table of such words here, and `remedy_at` looks one up. The word at the place
//! comes first: a column may be named `date`.

use wd_lex::Span;

/// What to write in place of what is refused by this number at a range of a text, where the word there tells what was meant.
pub(crate) fn remedy_at(number: u32, text: &[u8], span: Span) -> Option<&'static str> {
    let start = (span.start as usize).min(text.len());
    let end = (span.end as usize).min(text.len()).max(start);
    let (before, rest) = text.split_at(start);
    let word = &rest[..end - start];
    match number {
        101 => find_remedy(&AT_CHARACTER, word),
        201 => find_remedy(&AT_WORD, word).or_else(|| find_remedy(&AFTER_WORD, last_word(before))),
        307 => find_remedy(&OF_TYPE, word),
        309 => find_remedy(&IN_SCHEMA, word).or_else(|| find_remedy(&OF_TYPE, last_word(before))),
        402 => find_remedy(&OF_NAME, word),
        405 => find_remedy(&OF_FUNCTION, first_word(word)).or_else(|| find_remedy(
            &OF_ARGUMENT,
            called_function(before),
        )),
        _ => None,
    }
}

/// What a table has for a word, in upper or lower case.
fn find_remedy(table: &[(&'static str, &'static str)], word: &[u8]) -> Option<&'static str> {
    for (known, remedy) in table {
        if word.eq_ignore_ascii_case(known.as_bytes()) {
            return Some(remedy);
        }
    }
    None
}

/// The last word of a text, apart from white space after it.
fn last_word(text: &[u8]) -> &[u8] {
    let text = text.trim_ascii_end();
    let start = match text.iter().rposition(|byte| !is_of_word(*byte)) {
        Some(at) => at + 1,
        None => 0,
    };
    &text[start..]
}

/// The word with which a text begins.
fn first_word(text: &[u8]) -> &[u8] {
    let end = match text.iter().position(|byte| !is_of_word(*byte)) {
        Some(at) => at,
        None => text.len(),
    };
    &text[..end]
}

/// The function in whose brackets a text ends.
fn called_function(text: &[u8]) -> &[u8] {
    match text.trim_ascii_end().split_last() {
        Some((b'(', before)) => last_word(before),
        _ => &[],
    }
}

/// Whether a byte is of a word.
fn is_of_word(byte: u8) -> bool {
    byte.is_ascii_alphanumeric() || byte == b'_'
}

const JOIN_ALL: &str = "write JOIN, where each row finds one; no outer join is read";

const EACH_SELECT: &str = "write each SELECT into a query of its own";

const DATES: &str =
    "keep dates as texts such as '2026-01-31', which sort rightly, and write the text alone";

const CLAUSES: &str =
    "the clauses stand in the order FROM, WHERE, GROUP BY, HAVING, WINDOW, ORDER BY, OFFSET, FETCH FIRST; a list ends without a comma";

const PRODUCT: &str =
    "a product of two decimals has the places of both: multiply by whole numbers, or compute it in the report";

const QUOTIENT: &str =
    "a quotient of decimals has further places: show both numbers, and divide them in the report";

const UNLIKE: &str =
    "the sides count different units, as decimals of two scales or a decimal and a whole number do: keep both in one unit";

const PLACES: &str =
    "a number with a point is read where it is compared with a column numeric(p, s) of as many places, or added to it; else keep cents or tenths as whole numbers";

/// By the character with which no token begins.
const AT_CHARACTER: [(&str, &str); 8] = [
    ("|", "`||` is not read: keep the joined text as a column"),
    (
        ":",
        "`::` is not read: keep the value as a column of that type",
    ),
    (
        "{",
        "check the compiled query: braces of a template are not read",
    ),
    ("`", "write names with double quotes, or without quotes"),
    ("[", "write names with double quotes, or without quotes"),
    ("$", "write a value in place of a parameter"),
    ("?", "write a value in place of a parameter"),
    ("@", "write a value in place of a variable"),
];

/// By the word that cannot come next in a query.
const AT_WORD: [(&str, &str); 40] = [
    (
        "in",
        "write x = 1 OR x = 2; for a subquery join (SELECT DISTINCT y ..) AS s",
    ),
    ("between", "write x >= 1 AND x <= 2"),
    ("like", "for LIKE 'ab%' write x >= 'ab' AND x < 'ac'"),
    (
        "ilike",
        "compare a column that is in lower case, with >= and <",
    ),
    ("similar", "compare with =, or with >= and <"),
    ("with", "write a derived table: FROM (SELECT ..) AS s"),
    ("using", "write ON a.c = b.c"),
    ("natural", "write JOIN b ON a.c = b.c"),
    ("left", JOIN_ALL),
    ("right", JOIN_ALL),
    ("full", JOIN_ALL),
    ("outer", JOIN_ALL),
    (
        "lateral",
        "join a derived table that does not read the tables beside it",
    ),
    ("union", EACH_SELECT),
    ("intersect", EACH_SELECT),
    ("except", EACH_SELECT),
    (
        "distinct",
        "for COUNT(DISTINCT x) write COUNT(x) over (SELECT DISTINCT g, x ..) AS s",
    ),
    (
        "select",
        "a SELECT stands in FROM alone: join (SELECT DISTINCT y ..) AS s",
    ),
    ("values", "write the rows into a table of the schema"),
    (
        "as",
        "CAST is not read: keep the value as a column of that type",
    ),
    (
        "from",
        "take out the comma before it; EXTRACT is not read: keep that part of the date as a column",
    ),
    (
        "within",
        "percentiles are not read: number the rows and pick one",
    ),
    (
        "qualify",
        "show the call in a derived table, and write WHERE above it",
    ),
    ("top", "write FETCH FIRST n ROWS ONLY at the end"),
    ("respect", "NULLs count as values: leave it out"),
    (
        "ignore",
        "NULLs can't be passed over: filter them in a derived table",
    ),
    ("for", "leave it out: a query only reads"),
    ("where", CLAUSES),
    ("group", CLAUSES),
    ("having", CLAUSES),
    ("window", CLAUSES),
    ("order", CLAUSES),
    ("offset", CLAUSES),
    ("limit", CLAUSES),
    ("fetch", CLAUSES),
    (".", "leave out the schema's name: a table has one name"),
    (
        "::",
        "leave it out: keep the value as a column of that type",
    ),
    ("decimal_product", PRODUCT),
    ("decimal_quotient", QUOTIENT),
    ("unlike_units", UNLIKE),
];

/// By the word before the one that cannot come next in a query.
const AFTER_WORD: [(&str, &str); 13] = [
    (
        "filter",
        "for SUM(x) FILTER (WHERE p) write SUM(CASE WHEN p THEN x END)",
    ),
    ("date", DATES),
    ("time", DATES),
    ("timestamp", DATES),
    ("timestamptz", DATES),
    (
        "interval",
        "keep days or seconds as whole numbers, and add these",
    ),
    ("numeric", PLACES),
    (
        "distinct",
        "for DISTINCT ON number the rows by ROW_NUMBER in a derived table, and keep the first",
    ),
    (
        "by",
        "name a column: the number of an output, and an expression to group by, are not read",
    ),
    ("exists", "join (SELECT DISTINCT y ..) AS s"),
    ("decimal_product", PRODUCT),
    ("decimal_quotient", QUOTIENT),
    ("unlike_units", UNLIKE),
];

const WHOLE: &str = "write BIGINT";

const TENTHS: &str = "write BIGINT, and keep cents or tenths as whole numbers";

const TEXTS: &str = "write TEXT";

const DAYS: &str = "write TEXT: dates such as '2026-01-31' sort rightly as texts";

/// By a type of other databases.
const OF_TYPE: [(&str, &str); 24] = [
    ("varchar", TEXTS),
    ("character", TEXTS),
    ("char", TEXTS),
    ("string", TEXTS),
    ("uuid", TEXTS),
    ("citext", TEXTS),
    ("json", TEXTS),
    ("jsonb", TEXTS),
    ("date", DAYS),
    ("time", DAYS),
    ("datetime", DAYS),
    ("timestamp", DAYS),
    ("timestamptz", DAYS),
    ("numeric", TENTHS),
    ("decimal", TENTHS),
    ("money", TENTHS),
    ("real", TENTHS),
    ("double", TENTHS),
    ("float", TENTHS),
    ("int", "write INTEGER"),
    ("int4", "write INTEGER"),
    ("int8", WHOLE),
    ("serial", "write INTEGER NOT NULL"),
    ("bigserial", "write BIGINT NOT NULL"),
];

const TAKE_OUT: &str = "take it out: of the data only NOT NULL, PRIMARY KEY and UNIQUE are asked";

/// By the word that cannot come next in a schema.
const IN_SCHEMA: [(&str, &str); 12] = [
    ("default", TAKE_OUT),
    ("check", TAKE_OUT),
    ("references", TAKE_OUT),
    ("foreign", TAKE_OUT),
    ("generated", TAKE_OUT),
    ("collate", TAKE_OUT),
    ("alter", "write the key into its CREATE TABLE"),
    ("index", "write UNIQUE (..) into its CREATE TABLE"),
    ("not", "leave out IF NOT EXISTS"),
    ("temporary", "leave it out"),
    (
        "public",
        "leave out the schema's name: a table has one name",
    ),
    (".", "leave out the schema's name: a table has one name"),
];

const TODAY: &str = "write the day or the time: what is asked of today changes from day to day";

const NO_NUMBER: &str = "a row has no number of its own: name the columns of a key";

/// By a name that is no column's.
const OF_NAME: [(&str, &str); 8] = [
    ("current_date", TODAY),
    ("current_time", TODAY),
    ("current_timestamp", TODAY),
    ("localtime", TODAY),
    ("localtimestamp", TODAY),
    ("ctid", NO_NUMBER),
    ("rowid", NO_NUMBER),
    ("rownum", NO_NUMBER),
];

/// By the function whose argument is not read.
const OF_ARGUMENT: [(&str, &str); 1] = [(
    "sum",
    "SUM adds whole numbers; a sum of real or double precision goes by the order in which they are added",
)];

const OF_DATE: &str = "keep that part of the date as a column of the table";

const OF_TEXT: &str = "keep the text that it gives as a column of the table";

const BESIDE: &str = "show the numbers that it is computed from, and compute it in the report";

const IN_ORDER: &str =
    "what it gives goes by the order of its rows: show the rows in an order that a key makes sure of";

/// By a function that is not read.
const OF_FUNCTION: [(&str, &str); 47] = [
    (
        "avg",
        "for a mean write SUM(v) OVER w / COUNT(v) OVER w, of a group SUM(v) / COUNT(v)",
    ),
    (
        "percent_rank",
        "write RANK() OVER w and COUNT(*) over the same partition, and divide them in the report",
    ),
    (
        "cume_dist",
        "write COUNT(*) OVER w and COUNT(*) over the same partition, and divide them in the report",
    ),
    ("stddev", BESIDE),
    ("stddev_pop", BESIDE),
    ("stddev_samp", BESIDE),
    ("variance", BESIDE),
    ("var_pop", BESIDE),
    ("var_samp", BESIDE),
    ("corr", BESIDE),
    ("round", BESIDE),
    ("floor", BESIDE),
    ("ceil", BESIDE),
    ("ceiling", BESIDE),
    ("trunc", BESIDE),
    ("array_agg", IN_ORDER),
    ("string_agg", IN_ORDER),
    ("group_concat", IN_ORDER),
    ("listagg", IN_ORDER),
    ("json_agg", IN_ORDER),
    ("jsonb_agg", IN_ORDER),
    ("abs", "write CASE WHEN v < 0 THEN -v ELSE v END"),
    ("greatest", "write CASE WHEN a > b THEN a ELSE b END"),
    ("least", "write CASE WHEN a < b THEN a ELSE b END"),
    ("bool_and", "write COUNT(CASE WHEN NOT p THEN 1 END) = 0"),
    ("bool_or", "write COUNT(CASE WHEN p THEN 1 END) > 0"),
    ("date_trunc", OF_DATE),
    ("date_part", OF_DATE),
    ("to_char", OF_DATE),
    ("to_date", OF_DATE),
    ("age", OF_DATE),
    ("strftime", OF_DATE),
    ("year", OF_DATE),
    ("month", OF_DATE),
    ("day", OF_DATE),
    ("now", TODAY),
    ("lower", OF_TEXT),
    ("upper", OF_TEXT),
    ("trim", OF_TEXT),
    ("substr", OF_TEXT),
    ("substring", OF_TEXT),
    ("replace", OF_TEXT),
    ("concat", OF_TEXT),
    ("split_part", OF_TEXT),
    ("length", "keep the length as a column of the table"),
    (
        "random",
        "leave it out: what it gives changes from run to run",
    ),
    (
        "nextval",
        "leave it out: what it gives changes from run to run",
    ),
];
