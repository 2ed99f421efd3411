//! Dates with a time of day as literals write them.

ghost use Rattle.std.specs.Prelude.{◌≡◌, ◌+◌, ◌*◌, ◌^◌, pos, ◌+ℤ◌, ◌-ℤ◌, ◌*ℤ◌, ◌<◌, ◌≤◌, ◌==◌, length, MatchOption, None, Some, IsTrue, if◌then◌else◌};
ghost use Rattle.rdf_meaning.specs.Characters.{is_digit};
ghost use Rattle.rdf_value_meaning.specs.Calendar.{day_number};
ghost use Rattle.rdf_value_meaning.specs.Moments.{is_pictured, number_at, is_date, seconds_of_text, fraction_and_zone, minutes_of_zone, instant_of_text};

use crate::number::{billionths, count_digits, is_fine, number_of_digits};
use jiff::civil::Date;
use rdf_spelling::is_digit;

// Whether a byte may stand where a picture has this one: a zero is any digit.
fn fits(expected: u8, byte: u8) -> bool
    ensures { result ≡ (if expected == 48 then is_digit byte else byte == expected) }
{
    if expected == b'0' {
        is_digit(byte)
    } else {
        byte == expected
    }
}

#[tactic(auto, using(crate::proofs::Moments::other_length, crate::proofs::Moments::next_place))]
fn is_pictured(picture: &[u8], text: &[u8]) -> bool
    ensures value { result ≡ is_pictured picture.now text.now }
    ensures length { IsTrue result → length text.now ≡ length picture.now }
{
    if text.len() != picture.len() {
        return false;
    }
    for (i, byte) in text.iter().enumerate() {
        if !fits(picture[i], *byte) {
            return false;
        }
    }
    true
}

// The number that stands at a place, of at most four digits.
fn number_at(text: &[u8], place: usize, digits: usize) -> u32
    requires few { digits ≤ 4 }
    requires within { place + digits ≤ length text.now }
    ensures value { result ≡ number_at place digits text.now }
    ensures below { result < 230000 }
{
    number_of_digits(&text[place..place + digits]) as u32
}

// The number of a day that the calendar has.
fn day_number(year: u32, month: u32, day: u32) -> Option<i32>
    ensures { result ≡ (if is_date year month day then Some (day_number year month day) else None) }
{
    if year < 1 || year > 9999 || month > 12 || day > 31 {
        return None;
    }
    let Ok(date) = Date::new(year as i16, month as i8, day as i8) else {
        return None;
    };
    Some(date.to_plain().to_unix_epoch_day())
}

// YYYY-MM-DDThh:mm:ss, in seconds from 1970-01-01T00:00:00.
fn seconds_of(text: &[u8]) -> Option<i64>
    ensures { result ≡ seconds_of_text text.now }
{
    if !is_pictured(b"0000-00-00T00:00:00", text) {
        return None;
    }
    let day = day_number(
        number_at(text, 0, 4),
        number_at(text, 5, 2),
        number_at(text, 8, 2),
    )?;
    let (hour, minute, second) = (
        number_at(text, 11, 2),
        number_at(text, 14, 2),
        number_at(text, 17, 2),
    );
    if hour > 23 || minute > 59 || second > 59 {
        return None;
    }
    Some(i64::from(day) * 86_400 + i64::from(hour * 3_600 + minute * 60 + second))
}

// The digits behind the point, where there is a point, and the zone.
fn split_fraction(tail: &[u8]) -> Option<(&[u8], &[u8])>
    ensures { MatchOption result (fraction_and_zone tail.now ≡ None) (λ parts. fraction_and_zone tail.now ≡ Some (parts.0.now, parts.1.now)) }
{
    let Some((b'.', rest)) = tail.split_first() else {
        return Some((&[], tail));
    };
    let digits = count_digits(rest);
    if digits == 0 {
        return None;
    }
    Some(rest.split_at(digits))
}

// How far a zone is ahead of UTC, in minutes.
fn minutes_of_zone(zone: &[u8]) -> Option<i32>
    ensures { result ≡ minutes_of_zone zone.now }
{
    let Some((sign, time)) = zone.split_first() else {
        return Some(0);
    };
    if *sign == b'Z' {
        return if time.is_empty() { Some(0) } else { None };
    }
    if *sign != b'+' && *sign != b'-' || !is_pictured(b"00:00", time) {
        return None;
    }
    let minutes = number_at(time, 0, 2) * 60 + number_at(time, 3, 2);
    if number_at(time, 3, 2) > 59 || minutes > 14 * 60 {
        return None;
    }
    Some(if *sign == b'-' {
        -(minutes as i32)
    } else {
        minutes as i32
    })
}

// From seconds on the clock of a zone that is so many minutes ahead, and a fraction.
fn nanoseconds(seconds: i64, minutes: i32, fraction: u128) -> i128
    requires { fraction < 23 * 10 ^ 9 }
    ensures { result ≡ (seconds -ℤ minutes *ℤ pos 60) *ℤ pos (10 ^ 9) +ℤ pos fraction }
{
    let utc = i128::from(seconds) - i128::from(minutes) * 60;
    utc * 1_000_000_000 + fraction as i128
}

/// The nanoseconds from 1970-01-01T00:00:00 UTC to the moment with this text.
pub(crate) fn instant_of(text: &[u8]) -> Option<i128>
    ensures { result ≡ instant_of_text text.now }
{
    let (date_time, tail) = text.split_at(usize::min(19, text.len()));
    let seconds = seconds_of(date_time)?;
    let (fraction, zone) = split_fraction(tail)?;
    let minutes = minutes_of_zone(zone)?;
    if !is_fine(fraction) {
        return None;
    }
    Some(nanoseconds(seconds, minutes, billionths(fraction)))
}
