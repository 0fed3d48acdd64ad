//! Reads dates.

ghost use Rattle.std.specs.Prelude.{◌≡◌, IfSome, true};
ghost use Rattle.wd_calendar.specs.Calendar.{is_date};
ghost use Rattle.wd_calendar.specs.Dates as spec;
ghost use Rattle.wd_calendar.specs.Given.{Finds};

use crate::calendar::Date;
use crate::characters::{number_at, past};

/// The date at the start of a text, and the text after it.
#[tactic(auto, unfolding(crate::specs::Dates::date_at))]
pub fn date_at(text: &[u8]) -> Option<(Date, &[u8])>
    ensures value { Finds (λ x. (x.0, x.1.now)) result (spec.date_at text.now) }
    ensures date { IfSome result (λ x. is_date x.0 ≡ true) }
{
    let (year, rest) = number_at(text, 4)?;
    let rest = past(rest, b'-')?;
    let (month, rest) = number_at(rest, 2)?;
    let rest = past(rest, b'-')?;
    let (day, rest) = number_at(rest, 2)?;
    let date = Date { year, month, day };
    if date.is_date() {
        Some((date, rest))
    } else {
        None
    }
}

/// The number of the day that a text gives as `YYYY-MM-DD`, counted from 1970-01-01. `None` where it gives no such day.
#[tactic(auto, unfolding(crate::specs::Dates::day_of))]
pub fn day_of(text: &[u8]) -> Option<i64>
    ensures { result ≡ spec.day_of text.now }
{
    let (date, rest) = date_at(text)?;
    if rest.is_empty() {
        Some(date.day_number())
    } else {
        None
    }
}
