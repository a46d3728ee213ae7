//! The error types, and what `?` makes of an error. `TzError` and `Error` are for errors of any
//! kind, `ReadFault` is for those of a file reader.

ghost use Rattle.tz_base.specs.declared.error.TzError.TheVariants as tz;
ghost use Rattle.tz_base.specs.declared.error.Error.TheVariants as any;
ghost use Rattle.tz_base.specs.declared.error.ReadFault.TheVariants as read;
ghost use Rattle.tz_base.specs.declared.error.TzStringError.TheVariants as text;
ghost use Rattle.tz_base.specs.declared.error.TzFileError.TheVariants as file;
ghost use Rattle.std.specs.Prelude.{◌≡◌, alloc_error};

use std::alloc::{AllocError, AllocFailed};
use std::num::ParseIntError;
use std::str::Utf8Error;
use thiserror::Error;

/// The field that is out of range.
#[derive(Clone, Copy, Debug, PartialEq, Eq, Error)]
pub enum DateTimeError {
    /// The month is not in 1 to 12.
    #[error("invalid month")]
    InvalidMonth,
    /// The day is not in 1 to 31, or is past the end of its month.
    #[error("invalid month day")]
    InvalidMonthDay,
    /// The hour is above 23.
    #[error("invalid hour")]
    InvalidHour,
    /// The minute is above 59.
    #[error("invalid minute")]
    InvalidMinute,
    /// The second is above 60.
    #[error("invalid second")]
    InvalidSecond,
    /// The nanoseconds are 10^9 or more.
    #[error("invalid nanoseconds")]
    InvalidNanoseconds,
}

/// Why parts do not make a local time type.
#[derive(Clone, Copy, Debug, PartialEq, Eq, Error)]
pub enum LocalTimeTypeError {
    /// The designation does not have 1 to 7 bytes.
    // The text is that of tz-rs. POSIX wants 3 characters or more, but names of 1 and 2 are
    // accepted, as tz-rs accepts them.
    #[error("time zone designation must have between 3 and 7 characters")]
    InvalidTimeZoneDesignationLength,
    /// A byte of the designation is not an ASCII letter or digit, `+` or `-`.
    #[error("invalid characters in time zone designation")]
    InvalidTimeZoneDesignationChar,
    /// The offset is the least `i32`.
    #[error("invalid UTC offset")]
    InvalidUtcOffset,
}

/// Why parts do not make a transition rule.
#[derive(Clone, Copy, Debug, PartialEq, Eq, Error)]
pub enum TransitionRuleError {
    /// The number of the day is outside its range.
    #[error("invalid rule day julian day")]
    InvalidRuleDayJulianDay,
    /// The month is not in 1 to 12.
    #[error("invalid rule day month")]
    InvalidRuleDayMonth,
    /// The week is not in 1 to 5.
    #[error("invalid rule day week")]
    InvalidRuleDayWeek,
    /// The week day is not in 0 to 6.
    #[error("invalid rule day week day")]
    InvalidRuleDayWeekDay,
    /// The standard offset is not above -25 and below 26 hours.
    #[error("invalid standard time UTC offset")]
    InvalidStdUtcOffset,
    /// The daylight offset is not above -25 and below 26 hours.
    #[error("invalid Daylight Saving Time UTC offset")]
    InvalidDstUtcOffset,
    /// A day time is a week or more away from the day.
    #[error("invalid DST start or end time")]
    InvalidDstStartEndTime,
    /// Start and end swap order from one year to another.
    #[error("DST transition rules are not consistent from one year to another")]
    InconsistentRule,
}

/// Why parts do not make a time zone.
#[derive(Clone, Copy, Debug, PartialEq, Eq, Error)]
pub enum TimeZoneError {
    /// There is no local time type.
    #[error("list of local time types must not be empty")]
    NoLocalTimeType,
    /// A transition names a type that does not exist.
    #[error("invalid local time type index")]
    InvalidLocalTimeTypeIndex,
    /// The times of transitions do not rise.
    #[error("invalid transition")]
    InvalidTransition,
    /// The leap seconds are not a valid table.
    #[error("invalid leap second")]
    InvalidLeapSecond,
    /// The extra rule has another type at the last transition.
    #[error("extra transition rule is inconsistent with the last transition")]
    InconsistentExtraRule,
}

/// Why the next bytes are not what is expected.
#[derive(Clone, Copy, Debug, PartialEq, Eq, Error)]
pub enum ParseDataError {
    /// The bytes end too early.
    #[error("unexpected end of data")]
    UnexpectedEof,
    /// There is another byte than the expected one.
    #[error("invalid data")]
    InvalidData,
}

/// Why a string is not a TZ string.
#[derive(Clone, Debug, Drop, PartialEq, Eq, Error)]
pub enum TzStringError {
    /// The bytes are not UTF-8. No call returns this, since only digits are converted.
    #[error(transparent)]
    Utf8(Utf8Error),
    /// Digits are missing, or their number does not fit its type.
    #[error(transparent)]
    ParseInt(ParseIntError),
    /// A byte is missing or wrong.
    #[error(transparent)]
    ParseData(ParseDataError),
    /// The hour of an offset is above 24.
    #[error("invalid offset hour")]
    InvalidOffsetHour,
    /// The minute of an offset is above 59.
    #[error("invalid offset minute")]
    InvalidOffsetMinute,
    /// The second of an offset is above 59.
    #[error("invalid offset second")]
    InvalidOffsetSecond,
    /// The hour of a day time is outside its range.
    #[error("invalid day time hour")]
    InvalidDayTimeHour,
    /// The minute of a day time is above 59.
    #[error("invalid day time minute")]
    InvalidDayTimeMinute,
    /// The second of a day time is above 59.
    #[error("invalid day time second")]
    InvalidDayTimeSecond,
    /// A daylight name is not followed by rules.
    #[error("missing DST start and end rules")]
    MissingDstStartEndRules,
    /// Bytes follow the end of the string.
    #[error("remaining data after parsing TZ string")]
    RemainingData,
    /// The string is empty.
    #[error("empty TZ string")]
    Empty,
}

/// Why bytes are not a TZif file.
#[derive(Clone, Debug, Drop, PartialEq, Eq, Error)]
pub enum TzFileError {
    /// The footer is not UTF-8.
    #[error(transparent)]
    Utf8(Utf8Error),
    /// Bytes are missing.
    #[error(transparent)]
    ParseData(ParseDataError),
    /// The header does not begin with `TZif`.
    #[error("invalid magic number")]
    InvalidMagicNumber,
    /// The version is not supported.
    #[error("unsupported TZ file version")]
    UnsupportedTzFileVersion,
    /// The counts of the header do not fit together.
    #[error("invalid header")]
    InvalidHeader,
    /// The footer is not between line feeds, or its text begins with a colon or has a zero byte.
    #[error("invalid footer")]
    InvalidFooter,
    /// A daylight byte is neither 0 nor 1.
    #[error("invalid DST indicator")]
    InvalidDstIndicator,
    /// The index of a name is past the name bytes, or no zero byte ends the name.
    #[error("invalid time zone designation char index")]
    InvalidTimeZoneDesignationCharIndex,
    /// Indicators of a type do not fit together.
    #[error("invalid couple of standard/wall and UT/local indicators")]
    InvalidStdWallUtLocal,
    /// Bytes follow the block of a version 1 file.
    #[error("remaining data after the end of a TZif v1 data block")]
    RemainingDataV1,
}

/// Any error but that of a file that cannot be read.
#[derive(Clone, Debug, Drop, PartialEq, Eq, Error)]
pub enum TzError {
    /// The bytes are not a TZif file.
    #[error("invalid TZ file: {0}")]
    TzFile(TzFileError),
    /// The string is not a TZ string.
    #[error("invalid TZ string: {0}")]
    TzString(TzStringError),
    /// The parts do not make a local time type.
    #[error("invalid local time type: {0}")]
    LocalTimeType(LocalTimeTypeError),
    /// The parts do not make a transition rule.
    #[error("invalid transition rule: {0}")]
    TransitionRule(TransitionRuleError),
    /// The parts do not make a time zone.
    #[error("invalid time zone: {0}")]
    TimeZone(TimeZoneError),
    /// The fields do not make a date time.
    #[error("invalid date time: {0}")]
    DateTime(DateTimeError),
    /// A value is outside the range of its type, or an instant outside the years of a zone's rule,
    /// or before a leap-second table that begins late.
    #[error("out of range operation")]
    OutOfRange,
    /// The zone's last transition has taken effect, and the zone has no rule for later instants.
    #[error("no local time type is available for the specified timestamp")]
    NoAvailableLocalTimeType,
    /// Out of memory: an allocation failed.
    #[error("no memory")]
    Memory(AllocError),
}

/// Any error.
#[derive(Debug, Drop, Error)]
pub enum Error {
    /// A file could not be read.
    #[error(transparent)]
    Io(anyhow::Error),
    /// Every other error.
    #[error(transparent)]
    Tz(TzError),
}

/// Why a file reader returned no bytes.
#[derive(Debug, Drop, Error)]
pub enum ReadFault {
    /// Out of memory: an allocation failed.
    #[error("no memory")]
    Memory(AllocError),
    /// The file could not be read.
    #[error(transparent)]
    Failed(anyhow::Error),
}

impl From<DateTimeError> for TzError {
    ghost from_gives = { λ e r. r ≡ tz.DateTime e };

    fn from(error: DateTimeError) -> Self {
        TzError::DateTime(error)
    }
}

impl From<LocalTimeTypeError> for TzError {
    ghost from_gives = { λ e r. r ≡ tz.LocalTimeType e };

    fn from(error: LocalTimeTypeError) -> Self {
        TzError::LocalTimeType(error)
    }
}

impl From<TransitionRuleError> for TzError {
    ghost from_gives = { λ e r. r ≡ tz.TransitionRule e };

    fn from(error: TransitionRuleError) -> Self {
        TzError::TransitionRule(error)
    }
}

impl From<TimeZoneError> for TzError {
    ghost from_gives = { λ e r. r ≡ tz.TimeZone e };

    fn from(error: TimeZoneError) -> Self {
        TzError::TimeZone(error)
    }
}

impl From<TzStringError> for TzError {
    ghost from_gives = { λ e r. r ≡ tz.TzString e };

    fn from(error: TzStringError) -> Self {
        TzError::TzString(error)
    }
}

impl From<TzFileError> for TzError {
    ghost from_gives = { λ e r. r ≡ tz.TzFile e };

    fn from(error: TzFileError) -> Self {
        TzError::TzFile(error)
    }
}

impl From<AllocError> for TzError {
    ghost from_gives = { λ e r. r ≡ tz.Memory e };

    fn from(error: AllocError) -> Self {
        TzError::Memory(error)
    }
}

impl<T: Drop> From<AllocFailed<T>> for TzError {
    ghost from_gives = { λ _ r. r ≡ tz.Memory alloc_error };

    fn from(error: AllocFailed<T>) -> Self {
        TzError::Memory(AllocError::from(error))
    }
}

impl From<DateTimeError> for Error {
    ghost from_gives = { λ e r. r ≡ any.Tz (tz.DateTime e) };

    fn from(error: DateTimeError) -> Self {
        Error::Tz(TzError::DateTime(error))
    }
}

impl From<LocalTimeTypeError> for Error {
    ghost from_gives = { λ e r. r ≡ any.Tz (tz.LocalTimeType e) };

    fn from(error: LocalTimeTypeError) -> Self {
        Error::Tz(TzError::LocalTimeType(error))
    }
}

impl From<TransitionRuleError> for Error {
    ghost from_gives = { λ e r. r ≡ any.Tz (tz.TransitionRule e) };

    fn from(error: TransitionRuleError) -> Self {
        Error::Tz(TzError::TransitionRule(error))
    }
}

impl From<TimeZoneError> for Error {
    ghost from_gives = { λ e r. r ≡ any.Tz (tz.TimeZone e) };

    fn from(error: TimeZoneError) -> Self {
        Error::Tz(TzError::TimeZone(error))
    }
}

impl From<TzStringError> for Error {
    ghost from_gives = { λ e r. r ≡ any.Tz (tz.TzString e) };

    fn from(error: TzStringError) -> Self {
        Error::Tz(TzError::TzString(error))
    }
}

impl From<TzFileError> for Error {
    ghost from_gives = { λ e r. r ≡ any.Tz (tz.TzFile e) };

    fn from(error: TzFileError) -> Self {
        Error::Tz(TzError::TzFile(error))
    }
}

impl From<AllocError> for Error {
    ghost from_gives = { λ e r. r ≡ any.Tz (tz.Memory e) };

    fn from(error: AllocError) -> Self {
        Error::Tz(TzError::Memory(error))
    }
}

impl<T: Drop> From<AllocFailed<T>> for Error {
    ghost from_gives = { λ _ r. r ≡ any.Tz (tz.Memory alloc_error) };

    fn from(error: AllocFailed<T>) -> Self {
        Error::Tz(TzError::Memory(AllocError::from(error)))
    }
}

impl From<TzError> for Error {
    ghost from_gives = { λ e r. r ≡ any.Tz e };

    fn from(error: TzError) -> Self {
        Error::Tz(error)
    }
}

impl From<Utf8Error> for TzStringError {
    ghost from_gives = { λ e r. r ≡ text.Utf8 e };

    fn from(error: Utf8Error) -> Self {
        TzStringError::Utf8(error)
    }
}

impl From<ParseIntError> for TzStringError {
    ghost from_gives = { λ e r. r ≡ text.ParseInt e };

    fn from(error: ParseIntError) -> Self {
        TzStringError::ParseInt(error)
    }
}

impl From<ParseDataError> for TzStringError {
    ghost from_gives = { λ e r. r ≡ text.ParseData e };

    fn from(error: ParseDataError) -> Self {
        TzStringError::ParseData(error)
    }
}

impl From<Utf8Error> for TzFileError {
    ghost from_gives = { λ e r. r ≡ file.Utf8 e };

    fn from(error: Utf8Error) -> Self {
        TzFileError::Utf8(error)
    }
}

impl From<ParseDataError> for TzFileError {
    ghost from_gives = { λ e r. r ≡ file.ParseData e };

    fn from(error: ParseDataError) -> Self {
        TzFileError::ParseData(error)
    }
}

impl From<AllocError> for ReadFault {
    ghost from_gives = { λ e r. r ≡ read.Memory e };

    fn from(error: AllocError) -> Self {
        ReadFault::Memory(error)
    }
}

impl<T: Drop> From<AllocFailed<T>> for ReadFault {
    ghost from_gives = { λ _ r. r ≡ read.Memory alloc_error };

    fn from(error: AllocFailed<T>) -> Self {
        ReadFault::Memory(AllocError::from(error))
    }
}

/// Why fields do not make a date time.
pub mod datetime {
    pub use super::DateTimeError;
}

/// Why bytes or a string do not make a time zone.
pub mod parse {
    pub use super::{ParseDataError, TzFileError, TzStringError};
}

/// Why parts do not make a local time type, a transition rule or a time zone.
pub mod timezone {
    pub use super::{LocalTimeTypeError, TimeZoneError, TransitionRuleError};
}
