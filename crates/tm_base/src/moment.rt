//! Moments: whole seconds of the years 1970 to 9999, in UTC.
ghost use Rattle.std.specs.Prelude.{◌≡◌, ◌≢◌, ℕ, ◌+◌, ◌-◌, ◌*◌, ◌/◌, ◌%◌, ◌<◌, ◌≤◌, ◌↔◌, min, pos, ◌≤ℤ◌, IfOk, IfErr, IfSome, IfNone, MatchOption, OnErr, IsNone, IsTrue, Some, None, Ok, string_bytes, length, slice_index, unsigned_abs, IsAscii};
ghost use Rattle.tm_base.specs.Days.{moment_text, last_moment};
ghost use Rattle.tm_base.specs.Moments.{Names, date_text, text_of, IsWholeSecond, HasParts, HasPartsOf, two};

use crate::limits::LAST_MOMENT;
use jiff_core::civil::{Date, DateTime, Time};
use std::alloc::{AllocError, Global};
use std::marker::Model;
use thiserror::Error;

/// A moment in whole seconds from 1970-01-01T00:00:00 to the end of the year 9999, in UTC.
///
/// Seen as the number of seconds since 1970-01-01T00:00:00.
#[derive(Clone, Copy, Debug, PartialEq, Eq, PartialOrd, Ord, Hash)]
pub struct Moment {
    seconds: u64,
}

impl Model for Moment {
    ghost Value = { ℕ };

    ghost view = { λ m. m.seconds };

    ghost invariant = { λ m. m.seconds ≤ last_moment };

    ghost inverse = { λ n. record { seconds = n } };
}

/// The text names no moment.
#[derive(Clone, Copy, Debug, PartialEq, Eq, Error)]
#[error("not a date")]
pub struct BadDate;

// What a byte is as a digit, where it is one.
fn digit(byte: u8) -> u8
    ensures { result ≡ min (byte - 48) 9 }
{
    byte.saturating_sub(b'0').min(9)
}

fn number(high: u8, low: u8) -> u8
    ensures value { result ≡ two high low }
    ensures small { result < 100 }
{
    digit(high) * 10 + digit(low)
}

fn digit_byte(digit: u8) -> u8
    requires { digit < 10 }
    ensures { result ≡ 48 + digit }
{
    b'0' + digit
}

// The text of a date and time with these parts.
fn printed_parts(year: u16, month: u8, day: u8, hour: u8, minute: u8, second: u8) -> [u8; 17]
    requires year_in { year < 10000 }
    requires month_in { month < 100 }
    requires day_in { day < 100 }
    requires hour_in { hour < 100 }
    requires minute_in { minute < 100 }
    requires second_in { second < 100 }
    ensures { result ≡ date_text year month day hour minute second }
{
    [
        digit_byte((year / 1000) as u8),
        digit_byte((year / 100 % 10) as u8),
        digit_byte((year / 10 % 10) as u8),
        digit_byte((year % 10) as u8),
        b'-',
        digit_byte(month / 10),
        digit_byte(month % 10),
        b'-',
        digit_byte(day / 10),
        digit_byte(day % 10),
        b'-',
        digit_byte(hour / 10),
        digit_byte(hour % 10),
        digit_byte(minute / 10),
        digit_byte(minute % 10),
        digit_byte(second / 10),
        digit_byte(second % 10),
    ]
}

// The text of a date and time.
fn printed(at: DateTime) -> [u8; 17]
    requires { pos 0 ≤ℤ at.date.year }
    ensures text { result ≡ text_of at }
    ensures ascii { IsAscii result }
{
    printed_parts(
        at.date.year as u16,
        at.date.month,
        at.date.day,
        at.time.hour,
        at.time.minute,
        at.time.second,
    )
}

// The date and time with these parts.
fn civil_at(year: u16, month: u8, day: u8, hour: u8, minute: u8, second: u8) -> Option<DateTime>
    requires year_in { year < 10000 }
    requires month_in { month < 100 }
    requires day_in { day < 100 }
    requires hour_in { hour < 100 }
    requires minute_in { minute < 100 }
    requires second_in { second < 100 }
    ensures some { IfSome result (λ t. HasParts t year month day hour minute second) }
    ensures none { IfNone result ((t : _) → HasParts t year month day hour minute second → ⊥) }
{
    match Date::new(year as i16, month as i8, day as i8) {
        Ok(date) => match Time::new(hour as i8, minute as i8, second as i8, 0) {
            Ok(time) => Some(DateTime { date, time }),
            Err(_) => None,
        },
        Err(_) => None,
    }
}

// The date and time of the digits of a text.
fn civil_of(text: &[u8]) -> Option<DateTime>
    requires { length text.now ≡ 17 }
    ensures some { IfSome result (λ t. HasPartsOf t text.now) }
    ensures none { IfNone result ((t : _) → HasPartsOf t text.now → ⊥) }
{
    let year = number(text[0], text[1]) as u16 * 100 + number(text[2], text[3]) as u16;
    let month = number(text[5], text[6]);
    let day = number(text[8], text[9]);
    let hour = number(text[11], text[12]);
    let minute = number(text[13], text[14]);
    let second = number(text[15], text[16]);
    civil_at(year, month, day, hour, minute, second)
}

// The moment that a text names.
fn named(text: &[u8]) -> Option<Moment>
    ensures some { IfSome result (λ m. Names text.now m) }
    ensures in_range { IfSome result (λ m. m ≤ last_moment) }
    ensures none { IfNone result ((n : ℕ) → Names text.now n → ⊥) }
{
    if text.len() != 17 {
        return None;
    }
    let Some(at) = civil_of(text) else {
        return None;
    };
    if printed(at).as_slice() != text {
        return None;
    }
    let seconds = at.to_second();
    if seconds < 0 {
        return None;
    }
    Some(Moment {
        seconds: seconds as u64,
    })
}

impl Moment {
    /// The moment that a text `YYYY-MM-DD-HHMMSS` names; [`BadDate`] exactly where it names none.
    /// It takes no memory.
    pub fn read(text: &[u8]) -> Result<Moment, BadDate>
        ensures value { IfOk result (λ m. text.now ≡ moment_text m) }
        ensures bad { IfErr result (λ _. (n : ℕ) → n ≤ last_moment → text.now ≢ moment_text n) }
    {
        match named(text) {
            Some(moment) => Ok(moment),
            None => Err(BadDate),
        }
    }

    /// The seconds since 1970-01-01T00:00:00. It takes no memory.
    pub fn seconds(self) -> u64
        ensures value { result ≡ self }
        ensures bound { result ≤ last_moment }
    {
        self.seconds
    }

    /// The moment so many seconds after 1970-01-01T00:00:00; none exactly after the year 9999. It
    /// takes no memory.
    pub fn from_seconds(seconds: u64) -> Option<Moment>
        ensures none { IsNone result ↔ (last_moment < seconds) }
        ensures some { IfSome result (λ m. m ≡ seconds) }
    {
        if seconds > LAST_MOMENT {
            return None;
        }
        Some(Moment { seconds })
    }

    /// The text `YYYY-MM-DD-HHMMSS` that names the moment; only want of memory can refuse it.
    pub fn print(self, alloc: Global) -> Result<String, AllocError>
        ensures text { IfOk result (λ text. string_bytes text ≡ moment_text self) }
        ensures in_range { self ≤ last_moment }
    {
        let date = Date::from_days_since_min((self.seconds / 86_400) as u32 + 4_371_587);
        let time = Time::from_second((self.seconds % 86_400) as u32, 0);
        let bytes = printed(DateTime { date, time });
        let text = str::from_utf8(bytes.as_slice()).unwrap();
        String::from_str(alloc, text)
    }
}
