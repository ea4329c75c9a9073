//! The Gregorian calendar: the date that is some days after the first of January 1970.

ghost use Rattle.std.specs.Prelude.{◌≡◌, ◌+◌, ◌<◌, ◌≤◌, IfNone, IfSome};
ghost use Rattle.rasta_run.specs.Calendar.{IsDate, days_of_february, days_of_month, days_of_months, days_of_year, days_of_years, is_leap, is_short, years_most};

/// The number of years that have four digits, from 1970 on.
const YEARS_MAX: u64 = 8_030;

/// A date, as time that has passed since the first of January 1970.
#[derive(Clone, Copy, Debug, PartialEq, Eq)]
pub struct Date {
    /// The whole years.
    pub years: u64,
    /// The whole months after them.
    pub months: u64,
    /// The whole days after them.
    pub days: u64,
}

/// Returns the date that is some days after the first of January 1970, if its year has four digits.
#[tactic(auto, using(crate::proofs::Dates::no_years, crate::proofs::Dates::more_years, crate::proofs::Dates::months_of_year))]
pub fn date_of(days: u64) -> Option<Date>
    // The date that `date_of` returns is that many days after the first of January 1970.
    ensures some { IfSome result (IsDate days) }
    // If `date_of` returns `None`, that day is after the year 9999.
    ensures none { IfNone result (days_of_years years_most ≤ days) }
{
    let mut rest = days;
    'years: for years in 0..YEARS_MAX {
        let length = days_of_year(years);
        if rest < length {
            let (months, days) = month_of(is_leap(1970 + years), rest);
            return Some(Date {
                years,
                months,
                days,
            });
        }
        rest -= length;
    }
    None
}

/// Returns the whole months before a day of a year, counted from 0, and the days after them.
#[tactic(auto, using(crate::proofs::Dates::no_months, crate::proofs::Dates::more_months, crate::proofs::Dates::last_month))]
fn month_of(leap: bool, day: u64) -> (u64, u64)
    requires { day < days_of_months leap 12 }
    // The months that `month_of` returns have as many days as there are before that day, less those after them.
    ensures sum { days_of_months leap result.0 + result.1 ≡ day }
    // `month_of` returns fewer than 12 months.
    ensures months { result.0 < 12 }
    // The days that `month_of` returns are fewer than those of the next month.
    ensures days { result.1 < days_of_month leap result.0 }
    // The days that `month_of` returns are fewer than 31.
    ensures short { result.1 < 31 }
{
    let mut rest = day;
    'months: for months in 0..11u64 {
        let length = days_of_month(leap, months);
        if rest < length {
            return (months, rest);
        }
        rest -= length;
    }
    (11, rest)
}

/// Returns the number of days of the year that is some years after 1970.
fn days_of_year(years: u64) -> u64
    requires { years < years_most }
    ensures { result ≡ days_of_year years }
{
    if is_leap(1970 + years) { 366 } else { 365 }
}

/// Returns whether a year is a leap year.
fn is_leap(year: u64) -> bool
    ensures { result ≡ is_leap year }
{
    year % 4 == 0 && (year % 100 != 0 || year % 400 == 0)
}

/// Returns the number of days of a month, counted from 0.
fn days_of_month(leap: bool, months: u64) -> u64
    // `days_of_month` returns 28 or 29 for February, 30 for four others, and else 31.
    ensures days { result ≡ days_of_month leap months }
    // No month has more than 31 days.
    ensures bound { result ≤ 31 }
{
    match months {
        1 => days_of_february(leap),
        3 | 5 | 8 | 10 => 30,
        _ => 31,
    }
}

/// Returns the number of days of February.
fn days_of_february(leap: bool) -> u64
    // `days_of_february` returns 29 in a leap year, and else 28.
    ensures days { result ≡ days_of_february leap }
    // February has at most 29 days.
    ensures bound { result ≤ 29 }
{
    match leap {
        true => 29,
        false => 28,
    }
}
