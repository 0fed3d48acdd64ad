ghost use Rattle.std.specs.Prelude.{◌≡◌, map, IfOk, IfErr};
ghost use Rattle.csv.specs.Records.{fields_of};
ghost use Rattle.wd_value.specs.Bags.{times};
ghost use Rattle.std.specs.Str.{bytes_eq};
ghost use Rattle.wd_tables.specs.Refusals.{RefusesHeader};
ghost use Rattle.wd_tables.specs.Data.{NamesEachOnce};
ghost use Rattle.wd_tables.specs.Data as spec;

use crate::error::DataError;
use crate::record::field_at;
use csv::StringRecord;
use std::alloc::Global;
use wd_schema::Column;
use wd_value::{OutOfMemory, Text};

/// The place of each column's name in a header that names each column once.
pub fn places_of(
    alloc: Global,
    columns: &[Column],
    header: &StringRecord,
) -> Result<Vec<usize>, DataError>
    ensures named { IfOk result (λ v. NamesEachOnce columns.now (fields_of header.now)) }
    ensures places { IfOk result (λ v. v.items ≡ map (λ column. spec.field_place (fields_of header.now) column.name) columns.now) }
    ensures refused { IfErr result (λ e. RefusesHeader columns.now (fields_of header.now) e) }
{
    if header.len() != columns.len() {
        return Err(DataError::Header);
    }
    let names = names_of(alloc, header)?;
    let mut places = Vec::with_capacity(alloc, columns.len())?;
    for column in columns {
        if count_of(&names, column.name.as_bytes()) != 1 {
            return Err(DataError::Header);
        }
        places.push(field_place(&names, column.name.as_bytes()))?;
    }
    Ok(places)
}

fn names_of(alloc: Global, header: &StringRecord) -> Result<Vec<Text>, OutOfMemory>
    ensures { IfOk result (λ v. v.items ≡ fields_of header.now) }
{
    let mut names = Vec::with_capacity(alloc, header.len())?;
    for place in 0..header.len() {
        names.push(Text::from_str(alloc, field_at(header, place))?)?;
    }
    Ok(names)
}

fn count_of(names: &[Text], name: &[u8]) -> usize
    ensures { result ≡ times bytes_eq name.now names.now }
{
    names
        .iter()
        .filter(|other| name == other.as_bytes())
        .count()
}

// The first place of a name, and the number of names where it is not among them.
fn field_place(names: &[Text], name: &[u8]) -> usize
    ensures { result ≡ spec.field_place names.now name.now }
{
    for (place, other) in names.iter().enumerate() {
        if name == other.as_bytes() {
            return place;
        }
    }
    names.len()
}
