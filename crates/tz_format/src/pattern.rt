//! Patterns, and why a text is none.

ghost use Rattle.std.specs.Prelude.{◌≡◌, ◌+◌, ◌<◌, ◌≤◌, min, length, None, Some, OnOk, IfOk, IfErr, codes};
ghost use Rattle.std.proofs.Props.{props};
ghost use Rattle.tz_format.specs.Patterns.{IsPattern, IsPatternFault, items_of, first_unknown, width_of};

use crate::conversion::{conversion_at, width_of};
use thiserror::Error;

/// The sum of a width and more bytes, or 129 if it is above 128.
const fn widened(width: usize, more: usize) -> usize
    requires { (width ≤ 129) × (more ≤ 18) }
    ensures { result ≡ min (width + more) 129 }
{
    if width + more > 129 {
        129
    } else {
        width + more
    }
}

/// The most bytes of the texts that a pattern prints, or 129 if there are more than 128.
///
/// # Errors
///
/// How many bytes stand before the first `%` that spells no conversion.
const fn measure(pattern: &[u8]) -> Result<usize, usize>
    ensures known { OnOk result (first_unknown (items_of pattern.now) ≡ None) }
    ensures width { IfOk result (λ width. width ≡ min (width_of pattern.now) 129) }
    ensures err { IfErr result (λ position. first_unknown (items_of pattern.now)
        ≡ Some position) }
{
    let mut position = 0;
    let mut width = 0;
    while position < pattern.len() {
        if pattern[position] == b'%' {
            let Some((conversion, spelled)) = conversion_at(pattern, position + 1) else {
                return Err(position);
            };
            width = widened(width, width_of(conversion));
            position += 1 + spelled;
        } else {
            width = widened(width, 1);
            position += 1;
        }
    }
    Ok(width)
}

/// Why a text is no pattern.
#[derive(Clone, Copy, Debug, PartialEq, Eq, Error)]
pub enum PatternError {
    /// A `%` spells no conversion.
    #[error("no conversion begins at byte {position}")]
    UnknownConversion {
        /// How many bytes stand before it.
        position: usize,
    },
    /// What the pattern prints has more than 128 bytes for some date time.
    #[error("a pattern that prints more than 128 bytes")]
    TooLong,
}

/// A pattern of date times: a text whose `%` and the letters after it are conversions, which print
/// a part of a date time.
#[derive(Clone, Copy, Debug, PartialEq, Eq)]
pub struct Pattern<'a> {
    text: &'a str,
    ghost known: { first_unknown (items_of text.now) ≡ None } by { Prim.hlevel props },
    ghost fits: { width_of text.now ≤ 128 } by { Prim.hlevel props },
}

impl<'a> Pattern<'a> {
    /// The pattern with this text.
    ///
    /// # Errors
    ///
    /// [`PatternError::UnknownConversion`] at the first `%` that spells no conversion, or else
    /// [`PatternError::TooLong`] if the pattern prints more than 128 bytes for some date time.
    pub const fn new(text: &'a str) -> Result<Self, PatternError>
        ensures text { IfOk result (λ p. p.text.now ≡ text.now) }
        ensures ok { OnOk result (IsPattern text.now) }
        ensures err { IfErr result (IsPatternFault text.now) }
    {
        match measure(text.as_bytes()) {
            Err(position) => Err(PatternError::UnknownConversion { position }),
            Ok(width) if width > 128 => Err(PatternError::TooLong),
            Ok(_) => Ok(Pattern { text }),
        }
    }

    /// The pattern's text.
    pub const fn as_str(&self) -> &'a str
        ensures { result.now ≡ self.now.text.now }
    {
        self.text
    }

    /// The most bytes that it prints, whatever the date time: 128 at most.
    pub const fn max_len(&self) -> usize
        ensures value { result ≡ width_of self.now.text.now }
        ensures bound { result ≤ 128 }
    {
        match measure(self.text.as_bytes()) {
            Ok(width) => width,
            Err(_) => 0,
        }
    }
}

impl Pattern<'_> {
    /// Dates in messages, as `Fri, 03 Nov 2000 05:06:07 +0100`. Years below 1900 and offsets of 100
    /// hours or more are printed too, which the standard does not have. (RFC 2822, section 3.3)
    pub const RFC_2822: Pattern<'static> = Pattern {
        text: "%a, %d %b %Y %H:%M:%S %z",
    };

    /// Dates on the Internet, with milliseconds, as `2000-11-03T05:06:07.089+01:00`. (RFC 3339,
    /// section 5.6)
    pub const RFC_3339_MILLIS: Pattern<'static> = Pattern {
        text: "%Y-%m-%dT%H:%M:%S%.3f%:z",
    };

    /// Dates of the Common Log Format of web servers, as `03/Nov/2000:05:06:07 +0100`.
    pub const COMMON_LOG: Pattern<'static> = Pattern {
        text: "%d/%b/%Y:%H:%M:%S %z",
    };
}

/// A pattern of date times of UTC alone, as that of HTTP's dates, which names the time zone.
#[derive(Clone, Copy, Debug, PartialEq, Eq)]
pub struct UtcPattern<'a> {
    pattern: Pattern<'a>,
}

impl<'a> UtcPattern<'a> {
    /// Dates in HTTP, as `Sun, 06 Nov 1994 08:49:37 GMT`. (RFC 9110, section 5.6.7)
    pub const HTTP_DATE: UtcPattern<'static> = UtcPattern {
        pattern: Pattern {
            text: "%a, %d %b %Y %H:%M:%S GMT",
        },
    };

    /// Makes a pattern one of date times of UTC alone.
    pub const fn new(pattern: Pattern<'a>) -> Self
        ensures { result.pattern.text.now ≡ pattern.entry.text.now }
    {
        UtcPattern { pattern }
    }

    /// The pattern itself, for date times of every zone.
    pub const fn pattern(&self) -> Pattern<'a>
        ensures { result.text.now ≡ self.now.pattern.text.now }
    {
        self.pattern
    }
}
