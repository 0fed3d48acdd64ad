//! Reads times of a day, moments and spans, as microseconds.

ghost use Rattle.std.specs.Prelude.{◌≡◌, ◌||◌, ◌<◌, ◌≤◌, IfSome, true};
ghost use Rattle.std.specs.Str.{bytes_eq};
ghost use Rattle.wd_calendar.specs.Calendar.{is_date};
ghost use Rattle.wd_calendar.specs.Times as spec;

use crate::calendar::{Date, EPOCH};
use crate::characters::{digits_length, number_at, number_of, past};
use crate::date::date_at;

const SECOND: u64 = 1_000_000;

const MINUTE: u64 = 60 * SECOND;

const HOUR: u64 = 60 * MINUTE;

const DAY: u64 = 24 * HOUR;

const WEEK: u64 = 7 * DAY;

/// The microseconds of one unit in the last of `count` places after the point.
fn last_place(count: usize) -> Option<u64>
    ensures value { result ≡ spec.last_place count }
    ensures within { IfSome result (λ place. place ≤ 100000) }
{
    match count {
        1 => Some(100_000),
        2 => Some(10_000),
        3 => Some(1_000),
        4 => Some(100),
        5 => Some(10),
        6 => Some(1),
        _ => None,
    }
}

/// The microseconds of `.f`, or of nothing.
#[tactic(auto, unfolding(crate::specs::Times::fraction_of))]
fn fraction_of(text: &[u8]) -> Option<u64>
    ensures value { result ≡ spec.fraction_of text.now }
    ensures within { IfSome result (λ fraction. fraction ≤ 100000000000000) }
{
    if text.is_empty() {
        return Some(0);
    }
    let digits = past(text, b'.')?;
    let place = last_place(digits.len())?;
    let number = number_of(digits)?;
    Some(number * place)
}

/// The microseconds of `:SS` or `:SS.f`, or of nothing.
#[tactic(auto, unfolding(crate::specs::Times::seconds_of))]
fn seconds_of(text: &[u8]) -> Option<u64>
    ensures value { result ≡ spec.seconds_of text.now }
    ensures within { IfSome result (λ seconds. seconds ≤ 100060000000000) }
{
    if text.is_empty() {
        return Some(0);
    }
    let rest = past(text, b':')?;
    let (seconds, rest) = number_at(rest, 2)?;
    let fraction = fraction_of(rest)?;
    if seconds < 60 {
        Some(seconds * SECOND + fraction)
    } else {
        None
    }
}

/// The microseconds of `HH:MM` and what follows it.
#[tactic(auto, unfolding(crate::specs::Times::time_of))]
fn time_of(text: &[u8]) -> Option<u64>
    ensures value { result ≡ spec.time_of text.now }
    ensures within { IfSome result (λ time. time ≤ 200000000000000) }
{
    let (hours, rest) = number_at(text, 2)?;
    let rest = past(rest, b':')?;
    let (minutes, rest) = number_at(rest, 2)?;
    let seconds = seconds_of(rest)?;
    if hours < 24 && minutes < 60 {
        Some(hours * HOUR + minutes * MINUTE + seconds)
    } else {
        None
    }
}

/// The microseconds of a blank or T and a time, or of nothing.
#[tactic(auto, unfolding(crate::specs::Times::time_after))]
fn time_after(text: &[u8]) -> Option<u64>
    ensures value { result ≡ spec.time_after text.now }
    ensures within { IfSome result (λ time. time ≤ 200000000000000) }
{
    match text {
        [] => Some(0),
        [first, rest @ ..] => if *first == b' ' || *first == b'T' {
            time_of(rest)
        } else {
            None
        },
    }
}

/// The number of microseconds from the start of 1970-01-01 to a time of a date.
#[tactic(auto, unfolding(crate::specs::Times::microsecond_number))]
fn microsecond_number(date: Date, time: u64) -> i64
    requires date { is_date date ≡ true }
    requires within { time ≤ 200000000000000 }
    ensures { result ≡ spec.microsecond_number date time }
{
    (date.days_before() * DAY + time) as i64 - (EPOCH.days_before() * DAY) as i64
}

/// The number of the microsecond that a text gives as `YYYY-MM-DD`, or as such a date with a blank or T and `HH:MM`, `HH:MM:SS` or
/// `HH:MM:SS.f` with up to six digits, counted from the first of 1970-01-01. `None` where it gives no such moment.
#[tactic(auto, unfolding(crate::specs::Times::microsecond_of))]
pub fn microsecond_of(text: &[u8]) -> Option<i64>
    ensures { result ≡ spec.microsecond_of text.now }
{
    let (date, rest) = date_at(text)?;
    let time = time_after(rest)?;
    Some(microsecond_number(date, time))
}

/// Whether a text is one of two.
fn is_either(text: &[u8], one: &[u8], other: &[u8]) -> bool
    ensures { result ≡ (bytes_eq text.now one.now || bytes_eq text.now other.now) }
{
    text == one || text == other
}

/// The microseconds of a unit.
#[tactic(auto, unfolding(crate::specs::Times::unit_of))]
fn unit_of(text: &[u8]) -> Option<u64>
    ensures { result ≡ spec.unit_of text.now }
{
    if is_either(text, b"second", b"seconds") {
        Some(SECOND)
    } else if is_either(text, b"minute", b"minutes") {
        Some(MINUTE)
    } else if is_either(text, b"hour", b"hours") {
        Some(HOUR)
    } else if is_either(text, b"day", b"days") {
        Some(DAY)
    } else if is_either(text, b"week", b"weeks") {
        Some(WEEK)
    } else {
        None
    }
}

/// The microseconds of a number of units, where 64 bits hold them.
fn microseconds_in(number: u64, unit: u64) -> Option<i64>
    ensures { result ≡ spec.counted number unit }
{
    let span = number.checked_mul(unit)?;
    if span <= i64::MAX as u64 {
        Some(span as i64)
    } else {
        None
    }
}

/// The microseconds of the span that a text gives as a number of at most nine digits, a blank, and second, minute, hour, day or week,
/// also with an s. A day has 24 hours. `None` where it gives no such span, or one that 64 bits do not hold.
#[tactic(auto, unfolding(crate::specs::Times::interval_of))]
pub fn interval_of(text: &[u8]) -> Option<i64>
    ensures { result ≡ spec.interval_of text.now }
{
    let count = digits_length(text);
    if count == 0 {
        return None;
    }
    let (digits, rest) = text.split_at(count);
    let number = number_of(digits)?;
    let rest = past(rest, b' ')?;
    let unit = unit_of(rest)?;
    microseconds_in(number, unit)
}
