// Gregorian dates of the years 0000 to 9999 as day numbers, counted from 0 for 0000-01-01, and back (document 01,
// "Fields": 52 and 272). A date is the number that YYYYMMDD writes; every day number below DAYS is a date's.
#![tactic(auto)]

ghost use Rattle.std.specs.Prelude.{◌≡◌, true, ◌≤◌, ◌<◌};
ghost use Rattle.calendar.specs.Calendar.{days, leap, days_in, days_to, year_days, days_before, is_date, day_of, year_of, month_of, date_in, date_number};

// The days of the years 0000 to 9999.
pub const DAYS: u64 = 3652425;

// The days of each month of a year that isn't leap, January at 1.
const MONTHS: [u64; 13] = [0, 31, 28, 31, 30, 31, 30, 31, 31, 30, 31, 30, 31];

// The days of such a year before each month.
const BEFORE: [u64; 13] = [0, 0, 31, 59, 90, 120, 151, 181, 212, 243, 273, 304, 334];

// Whether 4 divides the year, and 100 does not unless 400 does.
#[tactic(auto, unfolding(crate::specs::Calendar::leap))]
fn leap_year(y: u64) -> bool
    ensures { result ≡ leap y }
{
    y % 4 == 0 && (y % 100 != 0 || y % 400 == 0)
}

// The days of a month; what is no month has none.
#[tactic(auto, using(crate::proofs::Months::no_month), unfolding(crate::specs::Calendar::days_in, crate::specs::Calendar::months))]
fn days_in(l: bool, m: u64) -> u64
    ensures { result ≡ days_in l m }
{
    match m {
        2 if l => 29,
        0..=12 => MONTHS[m as usize],
        _ => 0,
    }
}

// The days of a year before a month.
#[tactic(auto, using(crate::proofs::Months::by_table), unfolding(crate::proofs::Months::table))]
fn days_to(l: bool, m: u64) -> u64
    requires { m ≤ 12 }
    ensures { result ≡ days_to l m }
{
    BEFORE[m as usize] + u64::from(l && 2 < m)
}

// The days before a year: 365 a year, and one for each leap year among them.
#[tactic(auto, using(crate::proofs::Years::before_closed), unfolding(crate::proofs::Years::closed))]
fn days_before(y: u64) -> u64
    requires { y ≤ 10000 }
    ensures { result ≡ days_before y }
{
    y * 365 + (y + 3) / 4 + (y + 399) / 400 - (y + 99) / 100
}

// Whether YYYYMMDD is a date.
#[tactic(auto, unfolding(crate::specs::Calendar::is_date))]
pub fn is_date(n: u64) -> bool
    ensures { result ≡ is_date n }
{
    let d = n % 100;
    let last = days_in(leap_year(n / 10000), n / 100 % 100);
    1 <= d && d <= last
}

// The day of the date YYYYMMDD.
#[tactic(auto, using(crate::proofs::Dates::a_date, crate::proofs::Dates::day_lt), unfolding(crate::specs::Calendar::day_of))]
pub fn day_of(n: u64) -> u64
    requires { (n < 100000000) × (is_date n ≡ true) }
    ensures { (result ≡ day_of n) × (result < days) }
{
    let y = n / 10000;
    days_before(y) + days_to(leap_year(y), n / 100 % 100) + (n % 100 - 1)
}

// The year of a day. No year has more than 366 days, so the search starts at most 28 years early.
fn year_of(day: u64) -> u64
    requires { day < days }
    ensures { result ≡ year_of day }
{
    (day / 366..9999)
        .find(|y| day < days_before(*y + 1))
        .unwrap_or(9999)
}

// The month of a day of a year. No month has more than 31 days, so the search starts at most one month early.
fn month_of(l: bool, day: u64) -> u64
    requires { day < 366 }
    ensures { result ≡ month_of l day }
{
    (day / 32 + 1..12)
        .find(|m| day < days_to(l, *m + 1))
        .unwrap_or(12)
}

// YYYYMMDD of a year, leap or not, and a day of it.
#[tactic(auto, using(crate::proofs::Dates::monthed, crate::proofs::Months::year_most))]
fn date_in(y: u64, l: bool, d: u64) -> u64
    requires { (y < 10000) × (d < year_days l) }
    ensures { result ≡ date_in y l d }
{
    let m = month_of(l, d);
    y * 10000 + m * 100 + (d - days_to(l, m) + 1)
}

// YYYYMMDD of a day.
#[tactic(auto, using(crate::proofs::Dates::placed), unfolding(crate::specs::Calendar::date_number))]
pub fn date_number(day: u64) -> u64
    requires { day < days }
    ensures { result ≡ date_number day }
{
    let y = year_of(day);
    let start = days_before(y);
    date_in(y, leap_year(y), day - start)
}
