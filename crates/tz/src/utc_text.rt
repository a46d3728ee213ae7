//! Texts of UTC date times, read back. (RFC 3339, section 5.6)

ghost use Rattle.std.specs.Prelude.{IfOk, IfErr, ℕ, List, MatchOption, MatchResult};
ghost use Rattle.tz.specs.UtcText.{IsUtcMark, utc_date_time, IsUtcText, IsUtcTextFault};

use crate::datetime::UtcDateTime;
use crate::parse::{
    DateTimePart, Missing, ParseDateTimeError, after_separator, expect, read_date, read_time,
};
use std::str::FromStr;

/// The bytes after `Z`.
fn after_utc_mark(text: &[u8]) -> Option<&[u8]>
    ensures { MatchOption result ((rest : List ℕ) → ¬ IsUtcMark text.now tt rest)
        (λ rest. IsUtcMark text.now tt rest.now) }
{
    match text {
        [b'Z' | b'z', rest @ ..] => Some(rest),
        _ => None,
    }
}

/// The UTC date time that the whole text is.
fn read_utc_date_time(text: &[u8]) -> Result<UtcDateTime, Missing<'_>>
    ensures { MatchResult result (λ d. IsUtcText text.now d)
        (λ e. utc_date_time.misses text.now e.part e.rest.now) }
{
    let (date, text) = read_date(text)?;
    let text = expect(DateTimePart::Separator, text, after_separator(text))?;
    let (fields, text) = read_time(&date, text)?;
    let text = expect(DateTimePart::Offset, text, after_utc_mark(text))?;
    expect(DateTimePart::End, text, text.is_empty().then_some(()))?;
    Ok(UtcDateTime::of_fields(fields))
}

/// The UTC date time of a text, or the first part that the text does not have.
fn parse_utc(text: &[u8]) -> Result<UtcDateTime, ParseDateTimeError>
    ensures ok { IfOk result (IsUtcText text.now) }
    ensures err { IfErr result (IsUtcTextFault text.now) }
{
    match read_utc_date_time(text) {
        Ok(date_time) => Ok(date_time),
        Err(missing) => Err(ParseDateTimeError {
            expected: missing.part,
            position: text.len() - missing.rest.len(),
        }),
    }
}

/// Reads a UTC date time in the form of [`ParsedDateTime::parse`](crate::ParsedDateTime::parse),
/// with `Z` or `z` for the offset.
///
/// # Errors
///
/// [`ParseDateTimeError`] with the first part that the text does not have, and its position. This
/// is [`DateTimePart::Offset`] if there is another offset than `Z`, or none.
impl FromStr for UtcDateTime {
    type Err = ParseDateTimeError;

    ghost from_str_gives = { λ s r. IfOk r (IsUtcText s) × IfErr r (IsUtcTextFault s) };

    fn from_str(s: &str) -> Result<UtcDateTime, ParseDateTimeError> {
        parse_utc(s.as_bytes())
    }
}

/// Reads a text as `FromStr` does.
impl TryFrom<&str> for UtcDateTime {
    type Error = ParseDateTimeError;

    ghost try_from_gives = { λ s r. IfOk r (IsUtcText s.now) × IfErr r (IsUtcTextFault s.now) };

    fn try_from(t: &str) -> Result<UtcDateTime, ParseDateTimeError> {
        parse_utc(t.as_bytes())
    }
}
