//! Reads numbers and marks at the start of a text.

ghost use Rattle.std.specs.Prelude.{◌≡◌, ◌≤◌, ◌<◌, length, OnSome, IfSome};
ghost use Rattle.wd_calendar.specs.Characters as spec;
ghost use Rattle.wd_calendar.specs.Characters.{digits_from, number_after};
ghost use Rattle.wd_calendar.specs.Given.{Finds};

/// The number that digits write; `None` where the text has another character or the number is above 999,999,999.
#[tactic(auto, unfolding(crate::specs::Characters::number_after))]
pub fn number_of(text: &[u8]) -> Option<u64>
    ensures value { result ≡ spec.number_of text.now }
    ensures within { IfSome result (λ number. number < 1000000000) }
{
    let mut number = 0;
    let mut rest = text;
    while let [first, after @ ..] = rest {
        if !first.is_ascii_digit() || number >= 100_000_000 {
            return None;
        }
        number = number * 10 + u64::from(*first - b'0');
        rest = after;
    }
    Some(number)
}

/// The number that exactly `count` digits at the start write, and the text after them.
#[tactic(auto, unfolding(crate::specs::Characters::number_at))]
pub fn number_at(text: &[u8], count: usize) -> Option<(u64, &[u8])>
    ensures value { Finds (λ x. (x.0, x.1.now)) result (spec.number_at count text.now) }
    ensures within { IfSome result (λ x. x.0 < 1000000000) }
{
    if text.len() < count {
        return None;
    }
    let (digits, rest) = text.split_at(count);
    match number_of(digits) {
        Some(number) => Some((number, rest)),
        None => None,
    }
}

/// The text after a character, if the text begins with it.
#[tactic(auto, unfolding(crate::specs::Characters::past))]
pub fn past(text: &[u8], character: u8) -> Option<&[u8]>
    ensures { Finds (λ r. r.now) result (spec.past character text.now) }
{
    match text {
        [first, rest @ ..] => if *first == character {
            Some(rest)
        } else {
            None
        },
        [] => None,
    }
}

/// How many digits the text begins with.
#[tactic(auto, unfolding(crate::specs::Characters::digits_from))]
pub fn digits_length(text: &[u8]) -> usize
    ensures value { result ≡ digits_from 0 text.now }
    ensures within { result ≤ length text.now }
{
    let mut count = 0;
    let mut rest = text;
    while let [first, after @ ..] = rest {
        if !first.is_ascii_digit() {
            return count;
        }
        count += 1;
        rest = after;
    }
    count
}
