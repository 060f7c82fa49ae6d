// Dates, times of day and moments (document 01, "Fields": 52, 272 and 273), each held as one number of one range without
// a hole: a day below calendar::DAYS, a time of day below SPAN, a moment below MOMENTS. A second of 60 has its own place
// in every minute, so that it is written again as it was read.
#![tactic(auto)]

ghost use Rattle.std.specs.Prelude.{◌≡◌, ◌+◌, ◌*◌, ◌^◌, ◌≤◌, ◌<◌, pos};
ghost use Rattle.text.specs.Text.{Wrote};
ghost use Rattle.calendar.specs.Calendar.{days};
ghost use Rattle.moment.specs.Moments.{date_of, two_of, join, held, hour_in, minute_in, second_in, milli_in, minutes_of, clock_of, time_of, moment_of, span, moments, time_number, date_text, clock_text, time_text, moment_text};
ghost use Rattle.moment.specs.Ages.{millis, age_of, since_zero};

// The places of a day: 24 hours of 60 minutes of 61 seconds of 1,000 milliseconds.
pub const SPAN: u64 = 87840000;

// The moments of the years 0000 to 9999.
pub const MOMENTS: u64 = calendar::DAYS * SPAN;

// YYYYMMDD, held as its day.
#[tactic(auto, unfolding(crate::specs::Moments::date_of))]
pub fn date(text: &[u8]) -> Option<u64>
    ensures { result ≡ date_of text.now }
{
    if text.len() != 8 {
        return None;
    }
    let n = digits::digits(text, 8)?;
    if calendar::is_date(n) {
        Some(calendar::day_of(n))
    } else {
        None
    }
}

// Hours, minutes or seconds.
#[tactic(auto, unfolding(crate::specs::Moments::two_of))]
fn two(text: &[u8], high: u64) -> Option<u64>
    ensures { result ≡ two_of high text.now }
{
    digits::digits(text, 2).filter(|v| *v <= high)
}

// Two parts as one number, where both were read.
fn joined(a: Option<u64>, k: u64, b: Option<u64>) -> Option<u64>
    requires { held a * k + held b < 2 ^ 64 }
    ensures { result ≡ join k a b }
{
    Some(a? * k + b?)
}

// HH:MM.
#[tactic(auto, unfolding(crate::specs::Moments::minutes_of))]
fn minutes(text: &[u8]) -> Option<u64>
    ensures { result ≡ minutes_of text.now }
{
    if text.len() != 5 || text[2] != b':' {
        return None;
    }
    joined(two(&text[..2], 23), 60, two(&text[3..], 59))
}

// HH:MM:SS.
#[tactic(auto, unfolding(crate::specs::Moments::clock_of))]
fn clock(text: &[u8]) -> Option<u64>
    ensures { result ≡ clock_of text.now }
{
    if text.len() != 8 || text[5] != b':' {
        return None;
    }
    joined(minutes(&text[..5]), 61, two(&text[6..], 60))
}

// HH:MM:SS with or without .sss.
#[tactic(auto, unfolding(crate::specs::Moments::time_of))]
pub fn time(text: &[u8]) -> Option<u64>
    ensures { result ≡ time_of text.now }
{
    match text.len() {
        8 => joined(clock(text), 1000, Some(0)),
        12 if text[8] == b'.' => joined(clock(&text[..8]), 1000, digits::digits(&text[9..], 3)),
        _ => None,
    }
}

// YYYYMMDD-HH:MM:SS with or without .sss, as in tag 52.
#[tactic(auto, unfolding(crate::specs::Moments::moment_of))]
pub fn moment(text: &[u8]) -> Option<u64>
    ensures { result ≡ moment_of text.now }
{
    if text.len() < 9 || text[8] != b'-' {
        return None;
    }
    joined(date(&text[..8]), SPAN, time(&text[9..]))
}

// A time of day by its parts.
#[derive(Clone, Copy)]
struct Parts {
    hour: u64,
    minute: u64,
    second: u64,
    milli: u64,
}

fn split(t: u64) -> Parts
    ensures { (result.hour ≡ hour_in t) × (result.minute ≡ minute_in t) × (result.second ≡ second_in t) × (result.milli ≡ milli_in t) }
{
    let seconds = t / 1000;
    Parts {
        hour: seconds / 3660,
        minute: seconds / 61 % 60,
        second: seconds % 61,
        milli: t % 1000,
    }
}

// YYYYMMDD of a day.
#[tactic(auto, unfolding(crate::specs::Moments::date_text))]
pub fn put_date(out: &mut [u8], at: usize, day: u64) -> usize
    requires { (at < 2 ^ 31) × (day < days) }
    ensures { Wrote out.old at (date_text day) out.new result × (result ≡ at + 8) }
{
    text::put_fixed(out, at, 8, calendar::date_number(day))
}

// HH:MM:SS of a time of day.
fn put_clock(out: &mut [u8], at: usize, t: u64) -> usize
    requires { at < 2 ^ 31 }
    ensures { Wrote out.old at (clock_text t) out.new result × (result ≡ at + 8) }
{
    let Parts {
        hour,
        minute,
        second,
        milli: _,
    } = split(t);
    let a = text::put_fixed(out, at, 2, hour);
    let b = text::put(out, a, b':');
    let d = text::put_fixed(out, b, 2, minute);
    let e = text::put(out, d, b':');
    text::put_fixed(out, e, 2, second)
}

// HH:MM:SS.sss of a time of day.
pub fn put_time(out: &mut [u8], at: usize, t: u64) -> usize
    requires { at < 2 ^ 31 }
    ensures { Wrote out.old at (time_text t) out.new result × (result ≡ at + 12) }
{
    let a = put_clock(out, at, t);
    let b = text::put(out, a, b'.');
    text::put_fixed(out, b, 3, t % 1000)
}

// YYYYMMDD-HH:MM:SS.sss of a moment.
pub fn put_moment(out: &mut [u8], at: usize, m: u64) -> usize
    requires { (at < 2 ^ 30) × (m < moments) }
    ensures { Wrote out.old at (moment_text m) out.new result × (result ≡ at + 21) }
{
    let a = put_date(out, at, m / SPAN);
    let b = text::put(out, a, b'-');
    put_time(out, b, m % SPAN)
}

// HHMMSSsss of a time of day.
#[tactic(auto, unfolding(crate::specs::Moments::time_number))]
pub fn time_number(t: u64) -> u64
    requires { t < span }
    ensures { result ≡ time_number t }
{
    let Parts {
        hour,
        minute,
        second,
        milli,
    } = split(t);
    hour * 10000000 + minute * 100000 + second * 1000 + milli
}

// A time of day in milliseconds.
#[tactic(auto, unfolding(crate::specs::Ages::millis))]
fn millis_of(t: u64) -> u64
    requires { t < span }
    ensures { (result ≡ millis t) × (result ≤ 86460000) }
{
    let Parts {
        hour,
        minute,
        second,
        milli,
    } = split(t);
    ((hour * 60 + minute) * 60 + second) * 1000 + milli
}

// A moment in milliseconds since 0000-01-01.
fn since_zero(m: u64) -> i64
    requires { m < moments }
    ensures { result ≡ pos (since_zero m) }
{
    (m / SPAN * 86400000 + millis_of(m % SPAN)) as i64
}

// How old what was heard at a moment is now, in milliseconds; below 0 where it lies ahead.
pub fn age(now: u64, heard: u64) -> i64
    requires { (now < moments) × (heard < moments) }
    ensures { result ≡ age_of now heard }
{
    since_zero(now) - since_zero(heard)
}
