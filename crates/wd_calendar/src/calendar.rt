//! Counts days.

ghost use Rattle.std.specs.Prelude.{◌≡◌, ◌≤◌, ◌*◌, true};
ghost use Rattle.wd_calendar.specs.Calendar as spec;
ghost use Rattle.wd_calendar.specs.Calendar.{days_of_months, days_of_years, is_date};

/// A day, by the numbers of its year, its month and its day.
#[derive(Clone, Copy)]
pub struct Date {
    pub year: u64,
    pub month: u64,
    pub day: u64,
}

/// The day from which days are counted.
pub const EPOCH: Date = Date {
    year: 1970,
    month: 1,
    day: 1,
};

fn is_leap(year: u64) -> bool
    ensures { result ≡ spec.is_leap year }
{
    year % 4 == 0 && (year % 100 != 0 || year % 400 == 0)
}

fn days_of_year(year: u64) -> u64
    ensures value { result ≡ spec.days_of_year year }
    ensures within { result ≤ 366 }
{
    if is_leap(year) { 366 } else { 365 }
}

fn days_of_month(year: u64, month: u64) -> u64
    ensures value { result ≡ spec.days_of_month year month }
    ensures within { result ≤ 31 }
{
    match month {
        2 => if is_leap(year) { 29 } else { 28 },
        4 | 6 | 9 | 11 => 30,
        _ => 31,
    }
}

/// The number of days in the first `years` years, from the year 1 on.
fn years_days(years: u64) -> u64
    requires { years ≤ 9999 }
    ensures value { result ≡ days_of_years years }
    ensures within { result ≤ 366 * years }
{
    let mut days = 0;
    for year in 0..years {
        days += days_of_year(year + 1);
    }
    days
}

/// The number of days in the first `months` months of a year.
fn months_days(year: u64, months: u64) -> u64
    requires { months ≤ 12 }
    ensures value { result ≡ days_of_months year months }
    ensures within { result ≤ 31 * months }
{
    let mut days = 0;
    for month in 0..months {
        days += days_of_month(year, month + 1);
    }
    days
}

impl Date {
    /// Whether there is such a day.
    pub fn is_date(&self) -> bool
        ensures { result ≡ is_date self.now }
    {
        1 <= self.year
            && self.year <= 9999
            && 1 <= self.month
            && self.month <= 12
            && 1 <= self.day
            && self.day <= days_of_month(self.year, self.month)
    }

    /// The number of days before it, from 0001-01-01 on.
    #[tactic(auto, unfolding(crate::specs::Calendar::days_before))]
    pub fn days_before(&self) -> u64
        requires { is_date self.now ≡ true }
        ensures value { result ≡ spec.days_before self.now }
        ensures within { result ≤ 4000000 }
    {
        years_days(self.year - 1) + months_days(self.year, self.month - 1) + (self.day - 1)
    }

    /// The number of the day, counted from 1970-01-01.
    #[tactic(auto, unfolding(crate::specs::Calendar::day_number))]
    pub fn day_number(&self) -> i64
        requires { is_date self.now ≡ true }
        ensures { result ≡ spec.day_number self.now }
    {
        self.days_before() as i64 - EPOCH.days_before() as i64
    }
}
