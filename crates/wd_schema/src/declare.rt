//! What the declaration of a table says, and why it is refused.

ghost use Rattle.std.specs.Prelude.{◌≡◌, ◌≢◌, ◌≤◌, ◌&&◌, ◌++◌, ◌∷◌, [], length, map, count_by, is_some, not, All, AllPairs, IfOk, IfErr, OnOk, IfSome, IfNone, MatchOption, Some, None, ◌⊎◌};
ghost use Rattle.std.specs.List.{list_all, list_any, position_or_len};
ghost use Rattle.std.specs.Option.{is_none};
ghost use Rattle.std.specs.Str.{bytes_eq};
ghost use Rattle.wd_schema.specs.Declares.{IsAllowed, Keeps, columns_of, keys_of, keys_of_rules};
ghost use Rattle.wd_schema.specs.Declares as spec;
ghost use Rattle.wd_schema.specs.Keys.{said};
ghost use Rattle.wd_schema.specs.Tables.{key_of, table_of};
ghost use Rattle.wd_read_statements.specs.Written.{column_tree, element_tree, name_text, table_tree};

use crate::error::SchemaError;
use crate::table::{Column, Key, Table};
use std::alloc::{AllocError, Global};
use wd_read_statements::{
    ColumnRule, Element, KeyWords, Name, Nulls, Rule, WrittenColumn, WrittenKey, WrittenTable,
};
use wd_value::{ColumnType, Text};

/// The most columns of a table.
const MOST_COLUMNS: usize = 256;

/// The most keys of a table.
const MOST_KEYS: usize = 64;

/// A place in a table's declaration: which of its elements, and which part of that.
#[derive(Clone, Copy)]
pub struct ElementPlace {
    pub element: usize,
    pub part: usize,
}

impl ElementPlace {
    /// The place of the words of a column's rule, after the column's name and type.
    fn of_rule(element: usize, rule: usize) -> ElementPlace {
        ElementPlace {
            element,
            part: rule.saturating_add(2),
        }
    }

    /// The place of one of the names after the words of a key.
    fn of_name(self, name: usize) -> ElementPlace {
        ElementPlace {
            element: self.element,
            part: name.saturating_add(1),
        }
    }

    fn is_before(self, other: ElementPlace) -> bool {
        self.element < other.element || self.element == other.element && self.part < other.part
    }
}

/// A key, and the place of its words.
#[derive(Drop)]
pub struct KeyAt {
    pub words: KeyWords,
    pub columns: Vec<Text>,
    pub place: ElementPlace,
}

/// The type that a name in lower case stands for.
pub fn type_named(name: &str) -> Option<ColumnType>
    ensures { result ≡ spec.type_named name.now }
{
    match name {
        "smallint" | "int2" => Some(ColumnType::SmallInt),
        "integer" | "int" | "int4" => Some(ColumnType::Integer),
        "bigint" | "int8" => Some(ColumnType::BigInt),
        "text" => Some(ColumnType::Text),
        "boolean" | "bool" => Some(ColumnType::Boolean),
        _ => None,
    }
}

/// Whether the name is among the names.
fn is_among(names: &[Text], name: &Text) -> bool
    ensures { result ≡ list_any (bytes_eq name.now) names.now }
{
    for other in names {
        if name.as_str() == other.as_str() {
            return true;
        }
    }
    false
}

/// The number of the first name that an earlier one equals.
fn first_repeat(names: &[Text]) -> Option<usize>
    ensures differ { IfNone result (AllPairs (λ a b. a ≢ b) names.now) }
    ensures repeat { IfSome result (λ _. AllPairs (λ a b. a ≢ b) names.now → ⊥) }
{
    for (i, name) in names.iter().enumerate() {
        if is_among(&names[..i], name) {
            return Some(i);
        }
    }
    None
}

/// The number of the first name that no column has.
fn first_unknown(columns: &[Text], names: &[Text]) -> Option<usize>
    ensures { is_none result ≡ list_all (λ name. list_any (bytes_eq name) columns.now) names.now }
{
    for (i, name) in names.iter().enumerate() {
        if !is_among(columns, name) {
            return Some(i);
        }
    }
    None
}

/// The number of the column of that name, and the number of columns where none has it.
fn column_number(columns: &[Text], name: &Text) -> usize
    ensures number { result ≡ spec.column_number columns.now name.now }
    ensures within { result ≤ length columns.now }
{
    for (number, other) in columns.iter().enumerate() {
        if name.as_str() == other.as_str() {
            return number;
        }
    }
    columns.len()
}

/// The names of the columns.
pub fn column_names(alloc: Global, elements: &[Element]) -> Result<Vec<Text>, AllocError>
    ensures { IfOk result (λ v. v.items ≡ spec.names_of (map element_tree elements.now)) }
{
    let mut names = Vec::new(alloc);
    for element in elements {
        if let Element::Column(column) = element {
            names.push(column.name.text.copy()?)?;
        }
    }
    Ok(names)
}

/// The keys, in the order of the text.
pub fn written_keys(alloc: Global, elements: &[Element]) -> Result<Vec<KeyAt>, AllocError>
    ensures { IfOk result (λ v. map said v.items ≡ keys_of (map element_tree elements.now)) }
{
    let mut keys = Vec::new(alloc);
    for (e, element) in elements.iter().enumerate() {
        match element {
            Element::Column(column) => add_column_keys(alloc, &mut keys, e, column)?,
            Element::Key(key) => keys.push(table_key(alloc, e, key)?)?,
        }
    }
    Ok(keys)
}

/// Adds the keys among the rules of a column.
fn add_column_keys(
    alloc: Global,
    keys: &mut Vec<KeyAt>,
    element: usize,
    column: &WrittenColumn,
) -> Result<(), AllocError>
    ensures { OnOk result (map said keys.new.items ≡ map said keys.old.items ++ keys_of_rules (name_text column.now.name) column.now.rules.items) }
{
    for (r, rule) in column.rules.iter().enumerate() {
        if let Rule::Key(words) = rule.rule {
            let place = ElementPlace::of_rule(element, r);
            keys.push(column_key(alloc, words, &column.name, place)?)?;
        }
    }
    Ok(())
}

fn column_key(
    alloc: Global,
    words: KeyWords,
    name: &Name,
    place: ElementPlace,
) -> Result<KeyAt, AllocError>
    ensures { IfOk result (λ key. said key ≡ record { words = words; columns = name_text name.now ∷ [] }) }
{
    let mut columns = Vec::new(alloc);
    columns.push(name.text.copy()?)?;
    Ok(KeyAt {
        words,
        columns,
        place,
    })
}

fn table_key(alloc: Global, element: usize, key: &WrittenKey) -> Result<KeyAt, AllocError>
    ensures { IfOk result (λ found. said found ≡ record { words = key.now.words; columns = map name_text key.now.columns.items }) }
{
    let columns = texts_of(alloc, &key.columns)?;
    let place = ElementPlace { element, part: 0 };
    Ok(KeyAt {
        words: key.words,
        columns,
        place,
    })
}

fn texts_of(alloc: Global, names: &[Name]) -> Result<Vec<Text>, AllocError>
    ensures { IfOk result (λ v. v.items ≡ map name_text names.now) }
{
    let mut texts = Vec::with_capacity(alloc, names.len())?;
    for name in names {
        texts.push(name.text.copy()?)?;
    }
    Ok(texts)
}

/// 305: the place of the first name that appears twice in a key.
fn key_column_twice(keys: &[KeyAt]) -> Option<ElementPlace>
    ensures differ { IfNone result (All (λ key. AllPairs (λ a b. a ≢ b) key.columns) (map said keys.now)) }
    ensures twice { IfSome result (λ _. All (λ key. AllPairs (λ a b. a ≢ b) key.columns) (map said keys.now) → ⊥) }
{
    for key in keys {
        if let Some(name) = first_repeat(&key.columns) {
            return Some(key.place.of_name(name));
        }
    }
    None
}

/// 303: the place of the first name in a key that no column has.
fn unknown_column(columns: &[Text], keys: &[KeyAt]) -> Option<ElementPlace>
    ensures { is_none result ≡ list_all (λ key. list_all (λ name. list_any (bytes_eq name) columns.now) key.columns) (map said keys.now) }
{
    for key in keys {
        if let Some(name) = first_unknown(columns, &key.columns) {
            return Some(key.place.of_name(name));
        }
    }
    None
}

fn is_primary(words: KeyWords) -> bool
    ensures { result ≡ spec.is_primary words }
{
    match words {
        KeyWords::Primary => true,
        KeyWords::Unique(_) => false,
    }
}

/// 304: the place of the second primary key.
fn second_primary(keys: &[KeyAt]) -> Option<ElementPlace>
    ensures one { IfNone result (count_by (λ key. spec.is_primary key.words) (map said keys.now) ≤ 1) }
    ensures two { IfSome result (λ _. count_by (λ key. spec.is_primary key.words) (map said keys.now) ≤ 1 → ⊥) }
{
    let mut seen = false;
    for key in keys {
        if is_primary(key.words) {
            if seen {
                return Some(key.place);
            }
            seen = true;
        }
    }
    None
}

/// 307: the place of the first unknown type.
fn unknown_type(elements: &[Element]) -> Option<ElementPlace>
    ensures { is_none result ≡ list_all (λ column. is_some (spec.type_named (name_text column.kind))) (columns_of (map element_tree elements.now)) }
{
    for (e, element) in elements.iter().enumerate() {
        if let Element::Column(column) = element {
            if type_named(column.kind.text.as_str()).is_none() {
                return Some(ElementPlace {
                    element: e,
                    part: 1,
                });
            }
        }
    }
    None
}

/// The number of the first rule that is NULL.
fn first_null(rules: &[ColumnRule]) -> Option<usize>
    ensures { is_some result ≡ list_any (λ r. spec.says_null r.rule) rules.now }
{
    for (r, rule) in rules.iter().enumerate() {
        if let Rule::Null = rule.rule {
            return Some(r);
        }
    }
    None
}

fn says_not_null(rules: &[ColumnRule]) -> bool
    ensures { result ≡ list_any (λ r. spec.says_not_null r.rule) rules.now }
{
    for rule in rules {
        if let Rule::NotNull = rule.rule {
            return true;
        }
    }
    false
}

/// Whether the column of that name is in the primary key.
fn is_in_primary(keys: &[KeyAt], name: &Text) -> bool
    ensures { result ≡ spec.is_in_primary (map said keys.now) name.now }
{
    for key in keys {
        if is_primary(key.words) && is_among(&key.columns, name) {
            return true;
        }
    }
    false
}

/// Whether a column is NOT NULL: it says so or is in the primary key.
fn is_not_null(keys: &[KeyAt], column: &WrittenColumn) -> bool
    ensures { result ≡ spec.is_not_null (map said keys.now) (column_tree column.now) }
{
    says_not_null(&column.rules) || is_in_primary(keys, &column.name.text)
}

/// 308: the place of the first word NULL on a column that is NOT NULL.
fn forbidden_null(keys: &[KeyAt], elements: &[Element]) -> Option<ElementPlace>
    ensures { is_some result ≡ list_any (spec.is_forbidden (map said keys.now)) (columns_of (map element_tree elements.now)) }
{
    for (e, element) in elements.iter().enumerate() {
        if let Element::Column(column) = element {
            if let Some(place) = null_in(keys, e, column) {
                return Some(place);
            }
        }
    }
    None
}

fn null_in(keys: &[KeyAt], element: usize, column: &WrittenColumn) -> Option<ElementPlace>
    ensures { is_some result ≡ spec.is_forbidden (map said keys.now) (column_tree column.now) }
{
    let rule = first_null(&column.rules)?;
    if is_not_null(keys, column) {
        Some(ElementPlace::of_rule(element, rule))
    } else {
        None
    }
}

/// 306: the place of the 257th column or the 65th key, whichever comes first.
fn too_many(columns: &[Text], keys: &[KeyAt], elements: &[Element]) -> Option<ElementPlace>
    ensures few { IfNone result ((length columns.now ≤ 256) × (length keys.now ≤ 64)) }
    ensures many { IfSome result (λ _. (length columns.now ≤ 256) × (length keys.now ≤ 64) → ⊥) }
{
    if columns.len() <= MOST_COLUMNS {
        let key = keys.get(MOST_KEYS)?;
        return Some(key.place);
    }
    let column = place_of_column(elements, MOST_COLUMNS);
    match keys.get(MOST_KEYS) {
        Some(key) if key.place.is_before(column) => Some(key.place),
        _ => Some(column),
    }
}

/// The place of the column of that number.
fn place_of_column(elements: &[Element], number: usize) -> ElementPlace {
    let mut left = number;
    for (e, element) in elements.iter().enumerate() {
        if let Element::Column(_) = element {
            if left == 0 {
                return ElementPlace {
                    element: e,
                    part: 0,
                };
            }
            left -= 1;
        }
    }
    ElementPlace {
        element: elements.len(),
        part: 0,
    }
}

/// 302: the place of the first column with the name of an earlier one, up to the column that is too many.
fn column_twice(columns: &[Text], elements: &[Element]) -> Option<ElementPlace>
    ensures differ { IfNone result (length columns.now ≤ 256 → AllPairs (λ a b. a ≢ b) columns.now) }
    ensures twice { IfSome result (λ _. AllPairs (λ a b. a ≢ b) columns.now → ⊥) }
{
    let first = &columns[..columns.len().min(MOST_COLUMNS + 1)];
    match first_repeat(first) {
        Some(number) => Some(place_of_column(elements, number)),
        None => None,
    }
}

/// A refusal and the place of its cause.
#[derive(Clone, Copy)]
struct PlacedError {
    place: ElementPlace,
    error: SchemaError,
}

/// The refusal with the earlier place; the first argument where both have one place.
fn earlier(one: Option<PlacedError>, other: Option<PlacedError>) -> Option<PlacedError>
    ensures { MatchOption result ((one ≡ None) × (other ≡ None)) (λ r. (one ≡ Some r) ⊎ (other ≡ Some r)) }
{
    match (one, other) {
        (None, _) => other,
        (_, None) => one,
        (Some(a), Some(b)) => {
            if b.place.is_before(a.place) {
                other
            } else {
                one
            }
        }
    }
}

fn refusal_at(place: Option<ElementPlace>, error: SchemaError) -> Option<PlacedError>
    ensures none { result ≡ None → place ≡ None }
    ensures some { IfSome result (λ r. (place ≢ None) × (r.error ≡ error)) }
{
    let place = place?;
    Some(PlacedError { place, error })
}

/// The refusal whose cause comes first in a table's declaration; of two at one token, the one with the lower number.
fn first_refusal(table: &WrittenTable, columns: &[Text], keys: &[KeyAt]) -> Option<PlacedError>
    requires columns { columns.now ≡ spec.names_of (map element_tree table.now.elements.items) }
    requires keys { map said keys.now ≡ keys_of (map element_tree table.now.elements.items) }
    ensures allowed { IfNone result (IsAllowed (table_tree table.now)) }
    ensures refused { IfSome result (λ r. Keeps r.error (table_tree table.now) → ⊥) }
{
    let elements = &table.elements;
    let twice = refusal_at(column_twice(columns, elements), SchemaError::ColumnTwice);
    let unknown = refusal_at(unknown_column(columns, keys), SchemaError::UnknownColumn);
    let second = refusal_at(second_primary(keys), SchemaError::SecondPrimaryKey);
    let again = refusal_at(key_column_twice(keys), SchemaError::KeyColumnTwice);
    let many = refusal_at(too_many(columns, keys, elements), SchemaError::TooMany);
    let untyped = refusal_at(unknown_type(elements), SchemaError::UnknownType);
    let null = refusal_at(forbidden_null(keys, elements), SchemaError::NullForbidden);
    let first = earlier(twice, unknown);
    let first = earlier(first, second);
    let first = earlier(first, again);
    let first = earlier(first, many);
    let first = earlier(first, untyped);
    earlier(first, null)
}

fn declared_columns(
    alloc: Global,
    elements: &[Element],
    keys: &[KeyAt],
) -> Result<Vec<Column>, AllocError>
    ensures { IfOk result (λ v. v.items ≡ map (spec.column_declared (map said keys.now)) (columns_of (map element_tree elements.now))) }
{
    let mut columns = Vec::new(alloc);
    for element in elements {
        if let Element::Column(column) = element {
            columns.push(declared_column(alloc, column, keys)?)?;
        }
    }
    Ok(columns)
}

fn declared_column(
    alloc: Global,
    column: &WrittenColumn,
    keys: &[KeyAt],
) -> Result<Column, AllocError>
    ensures { IfOk result (λ found. found ≡ spec.column_declared (map said keys.now) (column_tree column.now)) }
{
    Ok(Column {
        name: column.name.text.copy()?,
        kind: type_named(column.kind.text.as_str()).unwrap_or(ColumnType::Text),
        not_null: is_not_null(keys, column),
    })
}

fn declared_keys(alloc: Global, columns: &[Text], keys: &[KeyAt]) -> Result<Vec<Key>, AllocError>
    requires { length columns.now ≤ 256 }
    ensures { IfOk result (λ v. map key_of v.items ≡ map (spec.key_declared columns.now) (map said keys.now)) }
{
    let mut declared = Vec::with_capacity(alloc, keys.len())?;
    for key in keys {
        declared.push(declared_key(alloc, columns, key)?)?;
    }
    Ok(declared)
}

fn declared_key(alloc: Global, columns: &[Text], key: &KeyAt) -> Result<Key, AllocError>
    requires { length columns.now ≤ 256 }
    ensures { IfOk result (λ found. key_of found ≡ spec.key_declared columns.now (said key.now)) }
{
    Ok(Key {
        columns: numbers_of(alloc, columns, &key.columns)?,
        primary: is_primary(key.words),
        nulls_distinct: takes_nulls_distinct(key.words),
    })
}

fn takes_nulls_distinct(words: KeyWords) -> bool
    ensures { result ≡ spec.takes_nulls_distinct words }
{
    match words {
        KeyWords::Primary | KeyWords::Unique(Nulls::NotDistinct) => false,
        KeyWords::Unique(Nulls::Unsaid | Nulls::Distinct) => true,
    }
}

fn numbers_of(alloc: Global, columns: &[Text], names: &[Text]) -> Result<Vec<u16>, AllocError>
    requires { length columns.now ≤ 256 }
    ensures { IfOk result (λ v. v.items ≡ map (spec.column_number columns.now) names.now) }
{
    let mut numbers = Vec::with_capacity(alloc, names.len())?;
    for name in names {
        numbers.push(column_number(columns, name) as u16)?;
    }
    Ok(numbers)
}

/// The table that a declaration declares, or its first refusal.
pub fn declare(alloc: Global, table: &WrittenTable) -> Result<Table, SchemaError>
    ensures declared { IfOk result (λ found. table_of found ≡ spec.table_declared (table_tree table.now)) }
    ensures allowed { OnOk result (IsAllowed (table_tree table.now)) }
    ensures refused { IfErr result (λ e. e ≢ SchemaError.OutOfMemory → Keeps e (table_tree table.now) → ⊥) }
{
    let names = column_names(alloc, &table.elements)?;
    let keys = written_keys(alloc, &table.elements)?;
    if let Some(refusal) = first_refusal(table, &names, &keys) {
        return Err(refusal.error);
    }
    Ok(Table {
        name: table.name.text.copy()?,
        columns: declared_columns(alloc, &table.elements, &keys)?,
        keys: declared_keys(alloc, &names, &keys)?,
    })
}
