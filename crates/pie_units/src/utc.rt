//! Wall-clock times in UTC: `2026-11-24T20:00:00.265333333Z`.
//! Dates of the Gregorian calendar, as days since 1970-01-01.
//! Moments in human-readable form: whole nanoseconds, or a number with a unit, such as `1.5ms`.
//! Bounds of moments in human-readable form: a moment, or a wall-clock time.
ghost use Rattle.std.specs.Prelude.{◌≡◌, ◌≤◌, ◌-◌, ◌^◌, IfSome, length, min, ◌<◌};
ghost use Rattle.pie_units.specs.Time.{date_part, has_marks, nanos_in, number_in, number_within, seconds_part, unix_of, utc_in, utc_with, date_in, date_of, day_number, days_in_month, is_leap, march_month, march_year, month_of, year_among, year_day, moment_fault, moment_in, is_date, when_in};

use crate::number::{
    Quantity, UnitFault, decimals_in, digit_count, number_after, parts_of, read, unit_in,
};
use std::fmt;
use std::fmt::Display;
use std::str::FromStr;
use thiserror::Error;

/// The end of a wall-clock time.
const END: &[u8] = b"Z";

/// The nanoseconds of a day.
const DAY: u64 = 86_400_000_000_000;

/// The nanoseconds of a second.
const SECOND: u64 = 1_000_000_000;

/// The reason why a text is not a wall-clock time.
#[derive(Clone, Copy, Debug, PartialEq, Eq, Error)]
pub enum UtcFault {
    /// The text has another form, or the date or hour does not exist.
    #[error("a wall-clock time must have the form 2026-11-24T20:00:00Z, with at most nine decimals of a second")]
    NotUtc,
    /// The time is before 1970, or more than 2^64 - 1 nanoseconds after its beginning.
    #[error("a wall-clock time must be between 1970 and 2554-07-21T23:34:33.709551615Z")]
    OutOfRange,
}

/// A wall-clock time: the number of nanoseconds after 1970-01-01T00:00:00Z, without leap seconds. It is written with
/// nine decimals of a second.
#[derive(Clone, Copy)]
pub struct Utc(pub u64);

impl Display for Utc {
    ghost use Rattle.std.specs.Prelude.{Some};
    ghost use Rattle.pie_units.specs.Time.{utc_text};

    ghost output = { λ time. Some (utc_text time.0) };

    fn fmt<W: fmt::Write>(&self, f: &mut fmt::Formatter<W>) -> fmt::Result {
        let Date { year, month, day } = date_of(self.0 / DAY);
        let seconds = self.0 % DAY / SECOND;
        let (hour, minute, second) = (seconds / 3600, seconds / 60 % 60, seconds % 60);
        let nanos = self.0 % SECOND;
        write!(
            f,
            "{year:04}-{month:02}-{day:02}T{hour:02}:{minute:02}:{second:02}.{nanos:09}Z"
        )
    }
}

/// Parses a number of up to four digits, if `digits` has nothing else.
fn number_in(digits: &[u8]) -> Option<u64>
    ensures { result ≡ number_in digits.now }
{
    if digit_count(digits) != digits.len() {
        return None;
    }
    Some(number_after(0, digits).min(9999) as u64)
}

/// Parses a number of up to four digits that is at least `first` and at most `last`.
fn number_within(digits: &[u8], first: u64, last: u64) -> Option<u64>
    ensures number { result ≡ number_within digits.now first last }
    ensures within { IfSome result (λ number. number ≤ last) }
{
    let number = number_in(digits)?;
    if number < first || last < number {
        return None;
    }
    Some(number)
}

/// Returns true if the separators between the numbers of a date and an hour are present.
#[tactic(auto, unfolding(crate::specs::Time::has_marks))]
fn has_marks(text: &[u8]) -> bool
    requires { 19 ≤ length text.now }
    ensures { result ≡ has_marks text.now }
{
    text[4] == b'-' && text[7] == b'-' && text[10] == b'T' && text[13] == b':' && text[16] == b':'
}

/// Parses the date at the start of a text.
#[tactic(auto, unfolding(crate::specs::Time::date_part))]
fn date_part(text: &[u8]) -> Option<Date>
    requires { 19 ≤ length text.now }
    ensures date { result ≡ date_part text.now }
    ensures within { IfSome result (λ date. (date.year ≤ 9999) × (date.month ≤ 12) × (date.day ≤ 31)) }
{
    let year = number_within(&text[0..4], 0, 9999)?;
    let month = number_within(&text[5..7], 1, 12)?;
    let day = number_within(&text[8..10], 1, days_in_month(year, month))?;
    Some(Date { year, month, day })
}

/// Returns the nanoseconds of the decimals of a second, at most nine of them.
#[tactic(auto, unfolding(crate::specs::Time::nanos_in))]
fn nanos_in(decimals: &[u8]) -> u64
    requires { length decimals.now ≤ 9 }
    ensures { result ≡ nanos_in decimals.now }
{
    parts_of(9, b"", decimals).min(999_999_999) as u64
}

/// Parses the hour after the date, in seconds of the day.
#[tactic(auto, unfolding(crate::specs::Time::seconds_part))]
fn seconds_part(text: &[u8]) -> Option<u64>
    requires { 19 ≤ length text.now }
    ensures seconds { result ≡ seconds_part text.now }
    ensures few { IfSome result (λ seconds. seconds ≤ 86399) }
{
    let hour = number_within(&text[11..13], 0, 23)?;
    let minute = number_within(&text[14..16], 0, 59)?;
    let second = number_within(&text[17..19], 0, 59)?;
    Some(hour * 3600 + minute * 60 + second)
}

/// Returns the wall-clock time of a date, seconds of its day and nanoseconds.
#[tactic(auto, unfolding(crate::specs::Time::unix_of))]
fn unix_of(date: Date, seconds: u64, nanos: u64) -> Result<u64, UtcFault>
    requires year { date.year ≤ 9999 }
    requires month { date.month ≤ 12 }
    requires day { date.day ≤ 31 }
    requires seconds { seconds ≤ 86399 }
    ensures { result ≡ unix_of date seconds nanos }
{
    if date.year < 1970 {
        return Err(UtcFault::OutOfRange);
    }
    let whole = day_number(date) * 86400 + seconds;
    let unix = u128::from(whole) * u128::from(SECOND) + u128::from(nanos);
    if unix > u128::from(u64::MAX) {
        return Err(UtcFault::OutOfRange);
    }
    Ok(unix as u64)
}

/// Parses a text that has at least 19 bytes and ends with these decimals of a second.
#[tactic(auto, unfolding(crate::specs::Time::utc_with))]
fn utc_with(text: &[u8], decimals: &[u8]) -> Result<u64, UtcFault>
    requires long { 19 ≤ length text.now }
    requires few { length decimals.now ≤ 9 }
    ensures { result ≡ utc_with text.now decimals.now }
{
    if !has_marks(text) {
        return Err(UtcFault::NotUtc);
    }
    let Some(date) = date_part(text) else {
        return Err(UtcFault::NotUtc);
    };
    let Some(seconds) = seconds_part(text) else {
        return Err(UtcFault::NotUtc);
    };
    unix_of(date, seconds, nanos_in(decimals))
}

/// Parses a wall-clock time, in nanoseconds after 1970-01-01T00:00:00Z.
#[tactic(auto, unfolding(crate::specs::Time::utc_in))]
pub(crate) fn utc_in(text: &[u8]) -> Result<u64, UtcFault>
    ensures { result ≡ utc_in text.now }
{
    if text.len() < 20 {
        return Err(UtcFault::NotUtc);
    }
    let rest = &text[19..];
    let decimals = decimals_in(rest);
    if decimals.len() > 9 || unit_in(decimals.len(), rest) != END {
        return Err(UtcFault::NotUtc);
    }
    utc_with(text, decimals)
}

impl FromStr for Utc {
    type Err = UtcFault;

    ghost use Rattle.pie_units.specs.Time.{ParsesUtc};

    ghost from_str_gives = { λ text read. ParsesUtc text read };

    fn from_str(text: &str) -> Result<Utc, UtcFault> {
        let unix = utc_in(text.as_bytes())?;
        Ok(Utc(unix))
    }
}

/// A date of the Gregorian calendar.
#[derive(Clone, Copy)]
pub struct Date {
    /// The year.
    pub year: u64,
    /// The month, 1 to 12.
    pub month: u64,
    /// The day of the month, counted from 1.
    pub day: u64,
}

/// Returns the year, among 400 years that begin on 1 March, that contains the day `day` of them.
#[tactic(auto, unfolding(crate::specs::Time::year_among))]
fn year_among(day: u64) -> u64
    requires { day < 146097 }
    ensures year { result ≡ year_among day }
    ensures few { result ≤ 400 }
{
    (day - day / 1460 + day / 36524 - day / 146096) / 365
}

/// Returns the day of that year, counted from 0.
#[tactic(auto, unfolding(crate::specs::Time::year_day))]
fn year_day(day: u64) -> u64
    requires { day < 146097 }
    ensures day { result ≡ year_day day }
    ensures few { result < 146097 }
{
    let year = year_among(day);
    day.saturating_sub(365 * year + year / 4 - year / 100)
}

/// Returns the month of the calendar, from a month counted from March as 0.
fn month_of(march_month: u64) -> u64
    requires { march_month ≤ 1000000 }
    ensures { result ≡ month_of march_month }
{
    if march_month < 10 {
        march_month + 3
    } else {
        march_month - 9
    }
}

/// Returns the date of the day `day` of 400 years that begin on 1 March, `years` years after 0000-03-01.
#[tactic(auto, unfolding(crate::specs::Time::date_in))]
fn date_in(years: u64, day: u64) -> Date
    requires few { years ≤ 10000 }
    requires day { day < 146097 }
    ensures { result ≡ date_in years day }
{
    let rest = year_day(day);
    let march_month = (5 * rest + 2) / 153;
    let next = if march_month < 10 { 0 } else { 1 };
    Date {
        year: years + year_among(day) + next,
        month: month_of(march_month),
        day: rest.saturating_sub((153 * march_month + 2) / 5) + 1,
    }
}

/// Returns the date `days` days after 1970-01-01.
#[tactic(auto, unfolding(crate::specs::Time::date_of))]
pub fn date_of(days: u64) -> Date
    requires { days ≤ 213504 }
    ensures { result ≡ date_of days }
{
    let since_march = days + 719468;
    date_in(since_march / 146097 * 400, since_march % 146097)
}

/// Returns true if `year` has a 29 February.
fn is_leap(year: u64) -> bool
    ensures { result ≡ is_leap year }
{
    (year % 4 == 0 && year % 100 != 0) || year % 400 == 0
}

/// Returns the number of days of `month` in `year`.
pub fn days_in_month(year: u64, month: u64) -> u64
    ensures days { result ≡ days_in_month year month }
    ensures few { result ≤ 31 }
{
    if month == 2 {
        if is_leap(year) { 29 } else { 28 }
    } else if month == 4 || month == 6 || month == 9 || month == 11 {
        30
    } else {
        31
    }
}

/// Returns the year from 1 March on that contains `month` of `year`.
fn march_year(year: u64, month: u64) -> u64
    ensures year { result ≡ march_year year month }
    ensures few { result ≤ year }
{
    if month < 3 {
        year.saturating_sub(1)
    } else {
        year
    }
}

/// Returns the number of a month, counted from March as 0.
fn march_month(month: u64) -> u64
    requires { month ≤ 12 }
    ensures month { result ≡ march_month month }
    ensures few { result ≤ 11 }
{
    if month < 3 { month + 9 } else { month - 3 }
}

/// Returns the number of days from 1970-01-01 to `date`, which is not before it.
#[tactic(auto, unfolding(crate::specs::Time::day_number))]
pub fn day_number(date: Date) -> u64
    requires year { date.year ≤ 9999 }
    requires month { date.month ≤ 12 }
    requires day { date.day ≤ 31 }
    ensures number { result ≡ day_number date }
    ensures few { result ≤ 4000000 }
{
    let year = march_year(date.year, date.month);
    let before = 365 * year + year / 4 - year / 100 + year / 400;
    let months = (153 * march_month(date.month) + 2) / 5;
    (before + months + date.day).saturating_sub(719469)
}

/// The reason why a text is not a moment.
#[derive(Clone, Copy, Debug, PartialEq, Eq, Error)]
pub enum MomentFault {
    /// The text has another form.
    #[error("a moment must be a whole number of nanoseconds, or a number with ns, us, ms, s, m or h, such as 1.5ms or 2m")]
    NotAMoment,
    /// The value is not a whole number of nanoseconds, or the text has more than 18 decimals.
    #[error("a moment must be a whole number of nanoseconds")]
    TooFine,
    /// The value is above 2^60 - 1 nanoseconds.
    #[error("a moment must be at most 1152921504606846975 ns")]
    TooLate,
}

/// A moment, or a length of time, in nanoseconds: at most 2^60 - 1.
#[derive(Clone, Copy)]
pub struct Moment(pub u64);

/// Returns the reason why a text is not a moment, from the reason why it is not a number.
fn moment_fault(why: UnitFault) -> MomentFault
    ensures { result ≡ moment_fault why }
{
    match why {
        UnitFault::NotANumber => MomentFault::NotAMoment,
        UnitFault::TooPrecise => MomentFault::TooFine,
        UnitFault::TooGreat => MomentFault::TooLate,
    }
}

/// Parses a moment, in nanoseconds.
pub(crate) fn moment_in(text: &[u8]) -> Result<u64, MomentFault>
    ensures { result ≡ moment_in text.now }
{
    read(Quantity::Moment, text).map_err(moment_fault)
}

impl FromStr for Moment {
    type Err = MomentFault;

    ghost use Rattle.pie_units.specs.Time.{ParsesMoment};

    ghost from_str_gives = { λ text read. ParsesMoment text read };

    fn from_str(text: &str) -> Result<Moment, MomentFault> {
        let moment = moment_in(text.as_bytes())?;
        Ok(Moment(moment))
    }
}

/// A moment, or a wall-clock time.
#[derive(Clone, Copy)]
pub enum When {
    /// A moment in nanoseconds: at most 2^60 - 1.
    Moment(u64),
    /// A wall-clock time, in nanoseconds after 1970-01-01T00:00:00Z.
    Unix(u64),
}

/// The reason why a text is neither.
#[derive(Clone, Copy, Debug, PartialEq, Eq, Error)]
pub enum WhenFault {
    /// The text is not a moment.
    #[error("{0}")]
    Moment(MomentFault),
    /// The text is not a wall-clock time.
    #[error("{0}")]
    Utc(UtcFault),
}

/// Returns true if a text begins as a date does: its fifth byte is `-`, which no moment has.
fn is_date(text: &[u8]) -> bool
    ensures { result ≡ is_date text.now }
{
    text.len() > 4 && text[4] == b'-'
}

/// Parses a bound.
fn when_in(text: &[u8]) -> Result<When, WhenFault>
    ensures { result ≡ when_in text.now }
{
    if is_date(text) {
        utc_in(text).map(When::Unix).map_err(WhenFault::Utc)
    } else {
        moment_in(text).map(When::Moment).map_err(WhenFault::Moment)
    }
}

impl FromStr for When {
    type Err = WhenFault;

    ghost use Rattle.pie_units.specs.Time.{ParsesWhen};

    ghost from_str_gives = { λ text read. ParsesWhen text read };

    fn from_str(text: &str) -> Result<When, WhenFault> {
        when_in(text.as_bytes())
    }
}
