//! Times of RFC 3339, and their days.

ghost use Rattle.std.specs.Prelude.{◌≡◌, ◌≢◌, ◌<◌, ◌≤◌, ◌+◌, ℕ, ℤ, pos, ◌+ℤ◌, ◌-ℤ◌, ◌*ℤ◌, true, drop, length, option_and_then, None, Some, Err, IfErr, IfOk, IfSome, if◌then◌else◌, take_while};
ghost use Rattle.std.specs.Option.{option_copied};
ghost use Rattle.std.specs.Char.{is_ascii_digit};
ghost use Rattle.jiff_core.specs.Calendar.{IsEpochDay, IsWithin, days_from_civil};
ghost use Rattle.attributes.specs.steps.Time.{IsShaped};
ghost use Rattle.attributes.specs.Time.{after_digits, after_fraction, are_digits_at, date_of, has_byte_at, has_clock, has_date, has_shape, if_in_range, is_civil, is_clock, is_day, is_offset, is_utc, offset_of, second_of_day, time_day, two_at, utc_day, zoned_day};
ghost use Rattle.attributes.specs.declared.fault.Fault.TheVariants.{OutOfMemory, Time};

use crate::fault::Fault;
use crate::text::Text;
use jiff::civil::Date;
use std::alloc::Global;
use std::marker::Model;

/// A time of RFC 3339 with its UTC day, seen as its text. The day is in the years 0000 to 9999.
#[derive(Drop)]
pub struct Moment {
    text: Text,
    day: i32,
}

impl Model for Moment {
    ghost use Rattle.std.specs.Prelude.{◌≡◌, List, ℕ, Some};
    ghost use Rattle.attributes.specs.Time.{time_day};

    ghost Value = { List ℕ };

    ghost view = { λ m. m.text };

    ghost invariant = { λ m. time_day m.text ≡ Some m.day };
}

/// Whether this byte stands at a place of an event's time.
fn has_byte_at(bytes: &[u8], i: usize, byte: u8) -> bool
    requires { i < length bytes.now }
    ensures { result ≡ has_byte_at bytes.now i byte }
{
    bytes[i] == byte
}

/// Whether two digits stand from a place of an event's time on.
fn are_digits_at(bytes: &[u8], i: usize) -> bool
    requires { i + 1 < length bytes.now }
    ensures { result ≡ are_digits_at bytes.now i }
{
    bytes[i].is_ascii_digit() && bytes[i + 1].is_ascii_digit()
}

/// The number that two digits of an event's time write.
fn two_at(bytes: &[u8], i: usize) -> u32
    requires inside { i + 1 < length bytes.now }
    requires digits { are_digits_at bytes.now i ≡ true }
    ensures value { result ≡ two_at bytes.now i }
    ensures small { result < 100 }
{
    10 * (bytes[i] - b'0') as u32 + (bytes[i + 1] - b'0') as u32
}

/// Whether a date stands at the beginning of an event's time, and the letter behind it.
fn has_date(bytes: &[u8]) -> bool
    requires { 20 ≤ length bytes.now }
    ensures { result ≡ has_date bytes.now }
{
    are_digits_at(bytes, 0)
        && are_digits_at(bytes, 2)
        && has_byte_at(bytes, 4, b'-')
        && are_digits_at(bytes, 5)
        && has_byte_at(bytes, 7, b'-')
        && are_digits_at(bytes, 8)
        && (has_byte_at(bytes, 10, b'T') || has_byte_at(bytes, 10, b't'))
}

/// Whether a clock stands behind the date of an event's time.
fn has_clock(bytes: &[u8]) -> bool
    requires { 20 ≤ length bytes.now }
    ensures { result ≡ has_clock bytes.now }
{
    are_digits_at(bytes, 11)
        && has_byte_at(bytes, 13, b':')
        && are_digits_at(bytes, 14)
        && has_byte_at(bytes, 16, b':')
        && are_digits_at(bytes, 17)
}

/// Whether an event's time has a date and a clock, and something after them.
fn has_shape(bytes: &[u8]) -> bool
    ensures { result ≡ has_shape bytes.now }
{
    bytes.len() >= 20 && has_date(bytes) && has_clock(bytes)
}

/// The day number of the date of an event's time, where the calendar has it.
fn date_day(year: u32, month: u32, day: u32) -> Option<i32>
    requires years { year < 10000 }
    requires months { month < 100 }
    requires days { day < 100 }
    ensures date { IfSome result IsEpochDay }
    ensures day { result ≡ (if is_day year month day
        then Some (days_from_civil (pos year) month day) else None) }
{
    match Date::new(year as i16, month as i8, day as i8) {
        Ok(date) => Some(date.to_plain().to_unix_epoch_day()),
        Err(_) => None,
    }
}

/// Whether hour, minute and second of an event's time are in range.
fn is_clock(bytes: &[u8]) -> bool
    requires { IsShaped bytes.now }
    ensures { result ≡ is_clock bytes.now }
{
    two_at(bytes, 11) <= 23 && two_at(bytes, 14) <= 59 && two_at(bytes, 17) <= 60
}

/// The day number of the date of an event's time, where date and clock are in range.
fn civil_day(bytes: &[u8]) -> Option<i32>
    requires { IsShaped bytes.now }
    ensures date { IfSome result IsEpochDay }
    ensures day { result ≡ (if is_civil bytes.now then Some (date_of bytes.now) else None) }
{
    if !is_clock(bytes) {
        return None;
    }
    date_day(
        100 * two_at(bytes, 0) + two_at(bytes, 2),
        two_at(bytes, 5),
        two_at(bytes, 8),
    )
}

/// The second of the day of an event's time; second 60 counts as 59.
fn second_of_day(bytes: &[u8]) -> u32
    requires { IsShaped bytes.now }
    ensures value { result ≡ second_of_day bytes.now }
    ensures small { result < 1000000 }
{
    3600 * two_at(bytes, 11) + 60 * two_at(bytes, 14) + two_at(bytes, 17).min(59)
}

/// How many digits stand at the beginning of the fraction of an event's time.
fn leading_digits(bytes: &[u8]) -> usize
    ensures value { result ≡ length (take_while is_ascii_digit bytes.now) }
    ensures within { result ≤ length bytes.now }
{
    bytes.iter().take_while(|b| b.is_ascii_digit()).count()
}

/// What follows one or more digits of the fraction of an event's time.
fn after_digits(bytes: &[u8]) -> Option<&[u8]>
    ensures { option_copied result ≡ after_digits bytes.now }
{
    if bytes.is_empty() || !bytes[0].is_ascii_digit() {
        return None;
    }
    let rest = &bytes[1..];
    Some(&rest[leading_digits(rest)..])
}

/// What follows a fraction of an event's second, where one stands.
fn after_fraction(bytes: &[u8]) -> Option<&[u8]>
    ensures { option_copied result ≡ after_fraction bytes.now }
{
    if bytes.is_empty() || bytes[0] != b'.' {
        return Some(bytes);
    }
    after_digits(&bytes[1..])
}

/// Whether the zone of an event's time is `Z` or `z`.
fn is_utc(zone: &[u8]) -> bool
    ensures { result ≡ is_utc zone.now }
{
    zone.len() == 1 && (has_byte_at(zone, 0, b'Z') || has_byte_at(zone, 0, b'z'))
}

/// Whether an event's time zone is an offset, with hours to 23 and minutes to 59.
fn is_offset(zone: &[u8]) -> bool
    ensures { result ≡ is_offset zone.now }
{
    zone.len() == 6
        && (has_byte_at(zone, 0, b'+') || has_byte_at(zone, 0, b'-'))
        && are_digits_at(zone, 1)
        && has_byte_at(zone, 3, b':')
        && are_digits_at(zone, 4)
        && two_at(zone, 1) <= 23
        && two_at(zone, 4) <= 59
}

/// The seconds that the zone of an event's time is ahead of UTC.
fn offset_of(zone: &[u8]) -> Option<i32>
    ensures value { result ≡ offset_of zone.now }
    ensures small { IfSome result (λ z. IsWithin 90000 z) }
{
    if is_utc(zone) {
        return Some(0);
    }
    if !is_offset(zone) {
        return None;
    }
    let distance = (3600 * two_at(zone, 1) + 60 * two_at(zone, 4)) as i32;
    if has_byte_at(zone, 0, b'-') {
        Some(-distance)
    } else {
        Some(distance)
    }
}

/// The day of an event's time, where it is one of the years 0000 to 9999.
fn if_in_range(day: i64) -> Option<i32>
    ensures { result ≡ if_in_range day }
{
    if day >= -719_528 && day <= 2_932_896 {
        Some(day as i32)
    } else {
        None
    }
}

/// The UTC day of an event's time: of a second of a day with this offset.
fn utc_day(day: i32, second: u32, offset: i32) -> Option<i32>
    requires date { IsEpochDay day }
    requires seconds { second < 1000000 }
    requires near { IsWithin 90000 offset }
    ensures { result ≡ if_in_range (utc_day day second offset) }
{
    let seconds = i64::from(day) * 86_400 + i64::from(second) - i64::from(offset);
    if_in_range(seconds.div_euclid(86_400))
}

/// The day of the date and clock of an event's time, by what follows them.
fn zoned_day(bytes: &[u8], day: i32) -> Option<i32>
    requires shaped { IsShaped bytes.now }
    requires date { IsEpochDay day }
    requires civil { day ≡ date_of bytes.now }
    ensures { result ≡ zoned_day bytes.now }
{
    match after_fraction(&bytes[19..]) {
        Some(zone) => match offset_of(zone) {
            Some(offset) => utc_day(day, second_of_day(bytes), offset),
            None => None,
        },
        None => None,
    }
}

/// The day of an attribute `time`; none where the text is no time.
pub(crate) fn day_in(text: &str) -> Option<i32>
    ensures { result ≡ time_day text.now }
{
    let bytes = text.as_bytes();
    if !has_shape(bytes) {
        return None;
    }
    match civil_day(bytes) {
        Some(day) => zoned_day(bytes, day),
        None => None,
    }
}

impl Moment {
    /// Reads `YYYY-MM-DD`, `T` or `t`, `hh:mm:ss`, perhaps a fraction, and `Z`, `z` or an offset
    /// `+hh:mm` or `-hh:mm` (RFC 3339). Second 60 counts as 59, and a fraction plays no part. The
    /// fault is `Time`, or want of memory for the copy of a time.
    pub fn of_text(alloc: Global, text: &str) -> Result<Moment, Fault>
        ensures ok { IfOk result (λ m. m ≡ text.now) }
        ensures time { IfOk result (λ m. time_day text.now ≢ None) }
        ensures refused { IfErr result (λ f.
            f ≢ OutOfMemory → (f ≡ Time) × (time_day text.now ≡ None)) }

        // What is no time is found before any memory is asked for.
        ensures no_time { time_day text.now ≡ None → result ≡ Err Time }
    {
        match day_in(text) {
            Some(day) => Ok(Moment {
                text: Text::of(alloc, text)?,
                day,
            }),
            None => Err(Fault::Time),
        }
    }

    /// The attribute `time` as it was written.
    pub fn as_str(&self) -> &str
        ensures { result.now ≡ self.now }
    {
        self.text.as_str()
    }

    /// The UTC day of an event's time, counted from 1970-01-01, in -719,528 to 2,932,896.
    pub fn day(&self) -> i32
        ensures { time_day self.now ≡ Some result }
    {
        self.day
    }
}
