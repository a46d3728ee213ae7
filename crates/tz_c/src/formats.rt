//! Date times printed and read by patterns.

ghost use Rattle.std.specs.Prelude.{◌≡◌, ◌≢◌, ◌<◌, ◌↔◌, IsTrue, IfOk, IfErr, length};
ghost use Rattle.tz_format.specs.DateTimes.{shown_date_time, shown_utc};
ghost use Rattle.tz_format.specs.Readings.{IsReading};
ghost use Rattle.tz_format.specs.Shown.{Shown};
ghost use Rattle.tz_c.specs.Codes.{buffer_length};
ghost use Rattle.tz_c.specs.Formats.{IsFormatAnswer, IsPatternReadAnswer, IsPatternRefusal};
ghost use Rattle.tz_c.specs.Formats.{IsPatternText, IsWrittenAs, IsZonedFormatAnswer};
ghost use Rattle.tz_c.specs.Formats.{http_date, pattern_code, read_code};

use crate::codes::{
    OK, PATTERN_MISMATCH, PATTERN_NOT_READABLE, PATTERN_OF_UTC, PATTERN_TOO_LONG,
    PATTERN_UNKNOWN_CONVERSION, PATTERN_UTF8,
};
use crate::date_times::ParsedData;
use crate::texts::write_text;
use std::str;
use tz::{DateTime, UtcDateTime};
use tz_format::inner::{Line, push_date_time, push_utc_date_time};
use tz_format::{Pattern, PatternError, ReadPatternError};

/// The code of bytes that are no pattern.
fn pattern_code(error: PatternError) -> u32
    ensures value { result ≡ pattern_code error }
    ensures other { 143 < result }
{
    match error {
        PatternError::UnknownConversion { .. } => PATTERN_UNKNOWN_CONVERSION,
        PatternError::TooLong => PATTERN_TOO_LONG,
    }
}

/// The code of a text that is not read.
fn read_code(error: ReadPatternError) -> u32
    ensures value { result ≡ read_code error }
    ensures other { 143 < result }
{
    match error {
        ReadPatternError::NotReadable => PATTERN_NOT_READABLE,
        ReadPatternError::Mismatch { .. } => PATTERN_MISMATCH,
    }
}

/// The pattern of these bytes, or the code of what they have that patterns have not.
fn checked(pattern: &[u8]) -> Result<Pattern<'_>, u32>
    ensures text { IfOk result (λ p. p.text.now ≡ pattern.now) }
    ensures ok { IfOk result (λ p. IsPatternText pattern.now) }
    ensures err { IfErr result (IsPatternRefusal pattern.now) }
    ensures other { IfErr result (λ code. 143 < code) }
{
    match str::from_utf8(pattern) {
        Ok(text) => match Pattern::new(text) {
            Ok(pattern) => Ok(pattern),
            Err(error) => Err(pattern_code(error)),
        },
        Err(_) => Err(PATTERN_UTF8),
    }
}

/// Whether the pattern is that of HTTP's dates.
fn is_http_date(pattern: &[u8]) -> bool
    ensures { IsTrue result ↔ (pattern.now ≡ http_date) }
{
    pattern == b"%a, %d %b %Y %H:%M:%S GMT".as_slice()
}

/// The date time as the pattern prints it, but for the pattern of HTTP's dates, which names UTC.
#[unsafe(no_mangle)]
pub extern "C" fn tz_date_time_format(
    date_time: &DateTime,
    pattern: &[u8],
    text: &mut [u8],
    len: &mut usize,
) -> u32
    ensures answer { IsZonedFormatAnswer pattern.now (shown_date_time date_time.now) result text.old
        text.new len.new }
    ensures most { result ≡ buffer_length → length text.old < 128 }
    ensures text_kept { result ≢ 0 → text.new ≡ text.old }
    ensures len_kept { result ≢ 0 → len.new ≡ len.old }
{
    if is_http_date(pattern) {
        return PATTERN_OF_UTC;
    }
    let pattern = match checked(pattern) {
        Ok(pattern) => pattern,
        Err(code) => return code,
    };
    let mut line = Line::new();
    push_date_time(&mut line, &pattern, date_time);
    write_text(line.as_bytes(), text, len)
}

/// The date time of UTC as the pattern prints it.
#[unsafe(no_mangle)]
pub extern "C" fn tz_utc_format(
    utc: &UtcDateTime,
    pattern: &[u8],
    text: &mut [u8],
    len: &mut usize,
) -> u32
    ensures answer { IsFormatAnswer pattern.now (shown_utc utc.now) result text.old text.new
        len.new }
    ensures most { result ≡ buffer_length → length text.old < 128 }
    ensures text_kept { result ≢ 0 → text.new ≡ text.old }
    ensures len_kept { result ≢ 0 → len.new ≡ len.old }
{
    let pattern = match checked(pattern) {
        Ok(pattern) => pattern,
        Err(code) => return code,
    };
    let mut line = Line::new();
    push_utc_date_time(&mut line, &pattern, utc);
    write_text(line.as_bytes(), text, len)
}

/// The local time and the offset of a text that the pattern prints, as `Pattern::read` reads it.
#[unsafe(no_mangle)]
pub extern "C" fn tz_pattern_read(pattern: &[u8], text: &[u8], out: &mut ParsedData) -> u32
    ensures answer { IsPatternReadAnswer pattern.now text.now result out.new }
    ensures once { result ≡ 0 → (s : Shown) → IsReading pattern.now text.now s
        → IsWrittenAs pattern.now text.now out.new s }
    ensures kept { result ≢ 0 → out.new ≡ out.old }
{
    let pattern = match checked(pattern) {
        Ok(pattern) => pattern,
        Err(code) => return code,
    };
    match pattern.read(text) {
        Ok(read) => {
            *out = ParsedData::new(&read.local(), read.ut_offset());
            OK
        }
        Err(error) => read_code(error),
    }
}
