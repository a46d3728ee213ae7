//! How dates are printed, and read back.

ghost use Rattle.std.specs.Prelude.{◌≡◌, ◌+◌, ◌<◌, ◌≤◌, ◌++◌, ◌∷◌, length, take};
ghost use Rattle.tz.specs.PrintedText.{date_text, two_digits};
ghost use Rattle.tz_civil.specs.DateTexts.{midnight_text, part_of_date};
ghost use Rattle.tz_civil.specs.Dates.{midnight_of};

use super::Date;
use std::fmt;
use tz::inner::TextBuffer;
use tz::{DateTimePart, ParseDateTimeError, ParsedDateTime};

/// Appends a hyphen, and a number below 100 as two digits.
#[tactic(auto, unfolding(tz::specs::PrintedText::two_digits))]
fn push_part(line: &mut TextBuffer, number: u8)
    requires below { number < 100 }
    requires room { length line.old + 3 ≤ 128 }
    ensures text { line.new ≡ line.old ++ 45 ∷ two_digits number }
    ensures len { length line.new ≡ length line.old + 3 }
{
    line.push(b'-');
    line.push(b'0' + number / 10);
    line.push(b'0' + number % 10);
}

/// The text of a date.
fn line_of(date: Date) -> TextBuffer
    ensures { result ≡ date_text (midnight_of date) }
{
    let mut line = TextBuffer::new();
    line.push_year(date.year);
    push_part(&mut line, date.month);
    push_part(&mut line, date.month_day);
    line
}

/// Prints the year, the month and the day, as `2024-01-31`, whatever the format's width. The year
/// is printed as by [`UtcDateTime`](tz::UtcDateTime), without zeros before it: `33-01-31`. Dates of
/// the years 1000 to 9999 are a full-date of RFC 3339, section 5.6.
impl fmt::Display for Date {
    ghost use Rattle.std.specs.Prelude.{Some};
    ghost use Rattle.tz.specs.PrintedText.{date_text};
    ghost use Rattle.tz_civil.specs.Dates.{midnight_of};

    ghost output = { λ d. Some (date_text (midnight_of d)) };

    ghost styled_output = { λ d _. Some (date_text (midnight_of d)) };

    fn fmt<W: fmt::Write>(&self, f: &mut fmt::Formatter<W>) -> fmt::Result {
        f.write_str(line_of(*self).as_str())
    }
}

/// How many bytes of a text are read.
const LONGEST: usize = 100;

/// The time of midnight, which makes a date time of a date.
static MIDNIGHT: [u8; 20] = *b"T00:00:00.000000000Z";

/// A text with a midnight after it, and zeros.
fn with_midnight(text: &[u8]) -> [u8; 120]
    requires { length text.now ≤ 100 }
    ensures { take (length text.now + 20) result ≡ text.now ++ midnight_text }
{
    let end = text.len();
    let mut line = [0; 120];
    line[..end].copy_from_slice(text);
    line[end..end + 20].copy_from_slice(&MIDNIGHT);
    line
}

/// The part that is missing in a date, in whose text the end stands for a separator.
fn part_of_date(part: DateTimePart) -> DateTimePart
    ensures { result ≡ part_of_date part }
{
    match part {
        DateTimePart::Separator => DateTimePart::End,
        other => other,
    }
}

impl Date {
    ghost use Rattle.std.specs.Prelude.{IfOk, IfErr};
    ghost use Rattle.tz_civil.specs.DateTexts.{IsDateText, IsDateTextFault};

    /// Reads a date in the form of RFC 3339, with years as `Display` prints them and
    /// [`ParsedDateTime::parse`] reads them. Texts of more than 100 bytes are refused.
    ///
    /// # Errors
    ///
    /// [`ParseDateTimeError`] with the first part that the text does not have, and its position. A
    /// text that goes on after the date with `T`, `t` or a space is read on as a date time, so this
    /// part can be one of the time or of the offset.
    pub fn parse(text: &[u8]) -> Result<Self, ParseDateTimeError>
        ensures ok { IfOk result (IsDateText text.now) }
        ensures err { IfErr result (IsDateTextFault text.now) }
    {
        if text.len() > LONGEST {
            return Err(ParseDateTimeError {
                expected: DateTimePart::End,
                position: LONGEST,
            });
        }
        let line = with_midnight(text);
        match ParsedDateTime::parse(&line[..text.len() + 20]) {
            Ok(parsed) => Ok(Date::of(&parsed.local())),
            Err(missing) => Err(ParseDateTimeError {
                expected: part_of_date(missing.expected),
                position: missing.position,
            }),
        }
    }
}
