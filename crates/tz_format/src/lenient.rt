//! Local times as people write them: what RFC 3339 has may be left out, and the name of a time zone
//! may follow. (RFC 3339, section 5.6; RFC 9557, section 3)

ghost use Rattle.std.specs.Prelude.{◌≡◌, ◌≤◌, ℕ, length, take, drop, [], IfOk, IfErr, Some, None};
ghost use Rattle.std.specs.List.{list_all, position_from};
ghost use Rattle.std.specs.Prelude.{MatchOption, MatchBool, IfSome, ◌==◌, ◌<◌};
ghost use Rattle.tz_format.specs.Lenient.{is_name_byte, zoned, is_separator, is_offset_mark};
ghost use Rattle.tz_format.specs.Lenient.{whole_seconds, whole, IsLenientText, IsLenientFault};
ghost use Rattle.tz.specs.DateTimeGrammar.{IsDateTimeText, IsDateTimeTextFault};
ghost use Rattle.std.specs.Prelude.{◌+◌, ◌++◌};

use crate::line::Line;
use thiserror::Error;
use tz::{LocalTimeType, ParseDateTimeError, ParsedDateTime};

/// Why a text is not read as a local time with the name of a zone.
#[derive(Clone, Copy, Debug, PartialEq, Eq, Error)]
pub enum LenientDateTimeError {
    /// After a `[`, the text does not end with the name of a time zone and `]`.
    #[error("expected the name of a time zone in brackets at the end")]
    ZoneName,
    /// The local time is none, even with what may be left out.
    #[error("{0}")]
    DateTime(ParseDateTimeError),
}

/// Whether names have the byte: letters, digits and `+-./_`.
fn is_name_byte(byte: u8) -> bool
    ensures { result ≡ is_name_byte byte }
{
    byte.is_ascii_alphabetic() || (b'-' <= byte && byte <= b'9') || byte == b'+' || byte == b'_'
}

/// Whether a name has all of the bytes.
fn are_name_bytes(bytes: &[u8]) -> bool
    ensures { result ≡ list_all is_name_byte bytes.now }
{
    bytes.iter().all(|byte| is_name_byte(*byte))
}

/// Where the first `[` stands.
fn first_bracket(text: &[u8]) -> Option<usize>
    ensures value { result ≡ position_from (λ b. b == 91) 0 text.now }
    ensures within { IfSome result (λ i. i < length text.now) }
{
    text.iter().position(|byte| *byte == b'[')
}

/// Where the first `T`, `t` or space stands.
fn first_separator(text: &[u8]) -> Option<usize>
    ensures value { result ≡ position_from is_separator 0 text.now }
    ensures within { IfSome result (λ i. i < length text.now) }
{
    text.iter()
        .position(|byte| *byte == b'T' || *byte == b't' || *byte == b' ')
}

/// A local time, and the name of a zone, which is empty if there is none.
#[derive(Clone, Copy)]
struct Zoned<'a> {
    local: &'a [u8],
    name: &'a [u8],
}

/// The local time and the name in brackets after it.
fn split_zone(text: &[u8]) -> Option<Zoned<'_>>
    ensures { MatchOption result (zoned text.now ≡ None)
        (λ z. zoned text.now ≡ Some (record { local = z.local.now; name = z.name.now })) }
{
    let Some(position) = first_bracket(text) else {
        return Some(Zoned {
            local: text,
            name: &[],
        });
    };
    let suffix = &text[position + 1..];
    if suffix.len() < 2 || suffix[suffix.len() - 1] != b']' {
        return None;
    }
    let name = &suffix[..suffix.len() - 1];
    if !are_name_bytes(name) {
        return None;
    }
    Some(Zoned {
        local: &text[..position],
        name,
    })
}

/// Appends what follows the minutes, with what RFC 3339 has.
fn push_whole_seconds(line: &mut Line, rest: &[u8])
    requires { length line.old + length rest.now ≤ 125 }
    ensures { line.new ≡ line.old ++ whole_seconds rest.now }
{
    if rest.is_empty() || matches!(rest[0], b'Z' | b'z' | b'+' | b'-') {
        line.push_all(b":00");
        line.push_all(rest);
    } else if rest.len() > 3 && rest[0] == b':' && rest[3] == b',' {
        line.push_all(&rest[..3]);
        line.push(b'.');
        line.push_all(&rest[4..]);
    } else {
        line.push_all(rest);
    }
}

/// Appends a local time with what RFC 3339 has.
fn push_whole(line: &mut Line, local: &[u8])
    requires empty { line.old ≡ [] }
    requires short { length local.now ≤ 119 }
    ensures { line.new ≡ whole local.now }
{
    let Some(separator) = first_separator(local) else {
        line.push_all(local);
        line.push_all(b"T00:00:00");
        return;
    };
    let end = (separator + 6).min(local.len());
    line.push_all(&local[..end]);
    push_whole_seconds(line, &local[end..]);
}

/// A date time whose whole form is a text of RFC 3339.
fn parse_whole(local: &[u8]) -> Result<ParsedDateTime, ParseDateTimeError>
    requires { length local.now ≤ 119 }
    ensures ok { IfOk result (λ p. IsDateTimeText (whole local.now) p) }
    ensures err { IfErr result (IsDateTimeTextFault (whole local.now)) }
{
    let mut line = Line::new();
    push_whole(&mut line, local);
    ParsedDateTime::parse(line.as_bytes())
}

/// A local time and an offset as [`ParsedDateTime::parse`] reads them, from a text that may have
/// less, and the name of a time zone.
#[derive(Clone, Copy, Debug)]
pub struct LenientDateTime<'a> {
    date_time: ParsedDateTime,
    zone_name: &'a [u8],
}

impl<'a> LenientDateTime<'a> {
    /// Reads what [`ParsedDateTime::parse`] reads and, of at most 119 bytes, a date alone, which is
    /// its midnight, an hour and a minute without a second, and a comma before the fraction. The
    /// name of a time zone in brackets may follow, as in `2000-11-03 05:06[Europe/Paris]`.
    ///
    /// # Errors
    ///
    /// [`LenientDateTimeError::ZoneName`], or else [`LenientDateTimeError::DateTime`] with the
    /// first part that RFC 3339 has and the local time does not, and its position.
    pub fn parse(text: &'a [u8]) -> Result<Self, LenientDateTimeError>
        ensures ok { IfOk result (λ d. IsLenientText text.now d.date_time d.zone_name.now) }
        ensures err { IfErr result (IsLenientFault text.now) }
    {
        let Some(zoned) = split_zone(text) else {
            return Err(LenientDateTimeError::ZoneName);
        };
        match ParsedDateTime::parse(zoned.local) {
            Ok(date_time) => Ok(LenientDateTime {
                date_time,
                zone_name: zoned.name,
            }),
            Err(error) => {
                if zoned.local.len() > 119 {
                    return Err(LenientDateTimeError::DateTime(error));
                }
                match parse_whole(zoned.local) {
                    Ok(date_time) => Ok(LenientDateTime {
                        date_time,
                        zone_name: zoned.name,
                    }),
                    Err(_) => Err(LenientDateTimeError::DateTime(error)),
                }
            }
        }
    }

    /// The local time and the offset, if the text has one.
    pub const fn date_time(&self) -> ParsedDateTime
        ensures { result ≡ self.now.date_time }
    {
        self.date_time
    }

    /// The name of the time zone as it stands in the text, in letters, digits and `+-./_`, or
    /// `None` if there is none. No zone need have it.
    pub fn zone_name(&self) -> Option<&'a [u8]>
        ensures { MatchOption result (self.now.zone_name.now ≡ [])
            (λ name. (name.now ≡ self.now.zone_name.now) × (1 ≤ length name.now)) }
    {
        if self.zone_name.is_empty() {
            None
        } else {
            Some(self.zone_name)
        }
    }

    /// Whether the text has no offset or that of the local time type, as the one that a zone has at
    /// this local time: an offset and a zone in one text may disagree.
    pub fn agrees_with(&self, local_time_type: &LocalTimeType) -> bool
        ensures { MatchBool result
            (IfSome self.now.date_time.ut_offset (λ o. o ≡ local_time_type.now.ut_offset))
            (IfSome self.now.date_time.ut_offset (λ o. o ≡ local_time_type.now.ut_offset) → ⊥) }
    {
        match self.date_time.ut_offset() {
            Some(ut_offset) => ut_offset == local_time_type.ut_offset(),
            None => true,
        }
    }
}
