//! Dates of the Gregorian calendar.

ghost use Rattle.std.specs.Prelude.{◌≡◌, ◌≤◌, ◌<◌, ◌^◌};
ghost use Rattle.capture_text.specs.Dates.{date_of, date_on, month_from_march, years_before, year_day_of};

/// A date.
#[derive(Clone, Copy, Debug, PartialEq, Eq)]
pub(crate) struct Date {
    /// The year.
    pub year: u64,
    /// The month, from 1.
    pub month: u64,
    /// The day of the month, from 1.
    pub day: u64,
}

/// A day of a year that begins with March, so that a leap day is its last day.
#[derive(Clone, Copy, Debug, PartialEq, Eq)]
pub(crate) struct YearDay {
    /// The number of the year.
    pub year: u64,
    /// How many days of the year are before this one.
    pub day: u64,
}

/// The days of 400 years.
const CYCLE: u64 = 146_097;

/// The days of a century that does not end with a leap day.
const CENTURY: u64 = 36_524;

/// The days of four years, of which the last ends with a leap day.
const FOUR_YEARS: u64 = 1_461;

/// The days of a year that does not end with a leap day.
const YEAR: u64 = 365;

/// The days from 1 March of the year 0 to the start of 1970.
const EPOCH: u64 = 719_468;

/// Returns the date of a day, counted from the start of 1970.
pub(crate) fn date_of_day(days: u64) -> Date
    requires { days < 2 ^ 40 }
    ensures { result ≡ date_of days }
{
    let day = days + EPOCH;
    let within = split(day % CYCLE);
    date_in_year(YearDay {
        year: day / CYCLE * 400 + within.year,
        day: within.day,
    })
}

/// Splits days of 400 years, which begin with March, into whole years and a day.
fn split(days: u64) -> YearDay
    requires { days < 146097 }
    // There are up to three whole centuries, then whole times of four years, then up to three whole years
    // (`year_day_of`).
    ensures value { result ≡ year_day_of days }
    // A year has at most 366 days.
    ensures bound { result.day ≤ 365 }
    // The years are fewer than 400.
    ensures years { result.year < 400 }
{
    let centuries = (days / CENTURY).min(3);
    let in_century = days - centuries * CENTURY;
    let in_four = in_century % FOUR_YEARS;
    let years = (in_four / YEAR).min(3);
    YearDay {
        year: centuries * 100 + in_century / FOUR_YEARS * 4 + years,
        day: in_four - years * YEAR,
    }
}

/// Returns the date of a day of a year that begins with March.
fn date_in_year(at: YearDay) -> Date
    requires day { at.day ≤ 365 }
    requires year { at.year < 2 ^ 50 }
    ensures { result ≡ date_on at }
{
    let month = (5 * at.day + 2) / 153;
    Date {
        year: at.year + years_to(month),
        month: number_of_month(month),
        day: at.day - (153 * month + 2) / 5 + 1,
    }
}

/// Returns by how many years a month is later than the year that began with March.
fn years_to(month: u64) -> u64
    // January and February, the months 10 and 11 from March, are one year later.
    ensures value { result ≡ years_before month }
    // It is at most one year.
    ensures bound { result ≤ 1 }
{
    if month < 10 { 0 } else { 1 }
}

/// Returns the number of a month that is counted from March.
fn number_of_month(month: u64) -> u64
    requires { month ≤ 11 }
    ensures { result ≡ month_from_march month }
{
    if month < 10 { month + 3 } else { month - 9 }
}
