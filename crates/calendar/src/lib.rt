// The calendar: a day number to its date and back, by a table of the days before each month, and the day one year after.
#![tactic(auto)]

ghost use Rattle.std.specs.Prelude.{◌≡◌, ℕ, ◌+◌, ◌-◌, ◌≤◌, ◌<◌};
ghost use Rattle.model.specs.Limits.{max_day};
ghost use Rattle.model.specs.Calendar.{leap_year, year_days, month_days, date_of, days_of_years, days_of_months, day_of, one_year_after, year_after};
ghost use Rattle.model.specs.Years.{IsDate};
ghost use Rattle.calendar.specs.Dates.{date_in};

// Years, months and days as they are written: from 2000, from 1 and from 1.
#[derive(Clone, Copy)]
pub struct Date {
    pub year: u32,
    pub month: u32,
    pub day: u32,
}

const FIRST_YEAR: u32 = 2000;

// Days before each month, January first, in a year that is no leap year.
const BEFORE: [u16; 12] = [0, 31, 59, 90, 120, 151, 181, 212, 243, 273, 304, 334];

fn leap_year(year: u32) -> bool
    ensures { result ≡ leap_year year }
{
    year % 4 == 0 && (year % 100 != 0 || year % 400 == 0)
}

// Days from 1 January 2000 to 1 January of a year: every fourth year has one more.
#[tactic(auto, using(crate::proofs::Laws::years_closed))]
fn before_year(year: u32) -> u32
    requires { (2000 ≤ year) × (year ≤ 2100) }
    ensures { (result ≡ days_of_years (year - 2000)) × (result ≤ 36525) }
{
    let years = year - FIRST_YEAR;
    365 * years + (years + 3) / 4
}

// Days of a year before a month.
fn before_month(year: u32, month: u32) -> u32
    requires { (1 ≤ month) × (month ≤ 12) }
    ensures { (result ≡ days_of_months year (month - 1)) × (result ≤ 335) }
{
    let days = BEFORE[(month - 1) as usize] as u32;
    if month > 2 && leap_year(year) {
        days + 1
    } else {
        days
    }
}

// The month in which `over` days of the year are over.
#[tactic(auto, using(crate::proofs::Laws::no_month, crate::proofs::Laws::all_months))]
fn month_of(year: u32, over: u32) -> u32
    requires { over < year_days year }
    ensures { (1 ≤ result) × (result ≤ 12) × (days_of_months year (result - 1) ≤ over) × (over < days_of_months year result) }
{
    for month in 1..12 {
        if over < before_month(year, month + 1) {
            return month;
        }
    }
    12
}

// The date of a day.
pub fn date_of(day: u32) -> Date
    requires { day ≤ max_day }
    ensures { date_in result ≡ date_of day }
{
    let year = FIRST_YEAR + 4 * day / 1461;
    let over = day - before_year(year);
    let month = month_of(year, over);
    Date {
        year,
        month,
        day: over - before_month(year, month) + 1,
    }
}

// The day of a date.
#[tactic(auto, using(crate::proofs::Laws::days_most))]
pub fn day_of(date: Date) -> u32
    requires { IsDate (date_in date) × (date.year ≤ 2100) }
    ensures { result ≡ day_of (date_in date) }
{
    before_year(date.year) + before_month(date.year, date.month) + (date.day - 1)
}

// The day of the month one year after: "29 February goes to 28 February."
fn day_kept(date: Date) -> u32
    ensures { result ≡ (one_year_after (date_in date)).day }
{
    if date.month == 2 && date.day == 29 {
        28
    } else {
        date.day
    }
}

// The day of "right's calendar date one year after".
pub fn year_after(day: u32) -> u32
    requires { day ≤ max_day }
    ensures { result ≡ year_after day }
{
    let date = date_of(day);
    let kept = day_kept(date);
    day_of(Date {
        year: date.year + 1,
        month: date.month,
        day: kept,
    })
}
