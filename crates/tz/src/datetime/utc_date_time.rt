//! Date times of UTC; date times moved by durations, and durations between totals.

ghost use Rattle.std.specs.Prelude.{◌≡◌, MatchBool, ◌<◌, ◌↔◌, pos, negsuc, ◌^◌, ◌+ℤ◌, ◌-ℤ◌, ◌≤ℤ◌, IfOk};
ghost use Rattle.std.specs.Prelude.{IfErr, IsSome, IfSome};
ghost use Rattle.std.specs.Duration.{as_nanos};
ghost use Rattle.tz_base.specs.Fields.{IsReading, IsTimespec, IsValid, total_nanoseconds_of};
ghost use Rattle.tz.specs.DateTimes.{IsPastTheEnd, IsUtc, IsUtcTotal, IsNearTotal, IsForwards};
ghost use Rattle.tz.specs.DateTimes.{IsBackwards, IsUtcFault};

use super::DateTime;
use std::fmt;
use std::marker::Model;
use std::ops::{Add, AddAssign, Sub, SubAssign};
use std::time::Duration;
use tz_base::constants::NANOSECONDS_PER_SECOND;
use tz_base::error::{DateTimeError, TzError};
use tz_base::fields::{Fields, is_reading, timespec, total_nanoseconds};
use tz_base::text_buffer::TextBuffer;
use tz_zone::timezone::TimeZoneRef;

/// A date time of UTC, in a year of 32 bits. (ISO 8601)
///
/// Date times are compared field by field, so second 60 comes before the next minute's second 0,
/// although both have the same Unix time.
#[repr(C)]
#[derive(Clone, Copy)]
#[derive_where(PartialEq, Eq, PartialOrd, Ord, Hash)]
pub struct UtcDateTime {
    fields: Fields,
    // The reading of the fields: sums and conversions need not work it out again.
    #[derive_where(skip(EqHashOrd))]
    unix_time: i64,
}

impl Model for UtcDateTime {
    ghost use Rattle.std.specs.Prelude.{◌≡◌};
    ghost use Rattle.tz_base.specs.declared.fields.Fields.{Fields};
    ghost use Rattle.tz_base.specs.Fields.{reading};
    ghost use Rattle.tz.specs.DateTimes.{IsUtc};

    ghost Value = { Fields };

    ghost view = { λ d. d.fields };

    ghost invariant = { λ d. IsUtc d.fields × (d.unix_time ≡ reading d.fields) };

    ghost inverse = { λ f. record { fields = f; unix_time = reading f } };
}

const _: () = prove!(
    UtcDateTime::UNIX_EPOCH.fields.year == 1970
        && UtcDateTime::UNIX_EPOCH.fields.month == 1
        && UtcDateTime::UNIX_EPOCH.fields.month_day == 1
        && UtcDateTime::UNIX_EPOCH.fields.hour == 0
        && UtcDateTime::UNIX_EPOCH.fields.minute == 0
        && UtcDateTime::UNIX_EPOCH.fields.second == 0
        && UtcDateTime::UNIX_EPOCH.fields.nanoseconds == 0
        && UtcDateTime::UNIX_EPOCH.unix_time == 0
);

const _: () = prove!(
    UtcDateTime::MIN.fields.year == i32::MIN
        && UtcDateTime::MIN.fields.month == 1
        && UtcDateTime::MIN.fields.month_day == 1
        && UtcDateTime::MIN.fields.hour == 0
        && UtcDateTime::MIN.fields.minute == 0
        && UtcDateTime::MIN.fields.second == 0
        && UtcDateTime::MIN.fields.nanoseconds == 0
        && UtcDateTime::MIN.unix_time == -67_768_100_567_971_200
);

const _: () = prove!(
    UtcDateTime::MAX.fields.year == i32::MAX
        && UtcDateTime::MAX.fields.month == 12
        && UtcDateTime::MAX.fields.month_day == 31
        && UtcDateTime::MAX.fields.hour == 23
        && UtcDateTime::MAX.fields.minute == 59
        && UtcDateTime::MAX.fields.second == 59
        && UtcDateTime::MAX.fields.nanoseconds == 999_999_999
        && UtcDateTime::MAX.unix_time == 67_767_976_233_532_799
);

/// Whether the fields are second 60 of the last minute, which reads as a second past the years of
/// 32 bits.
pub(crate) const fn is_past_the_end(fields: &Fields) -> bool
    ensures { MatchBool result (IsPastTheEnd fields.now) (¬ IsPastTheEnd fields.now) }
{
    fields.year == i32::MAX
        && fields.month == 12
        && fields.month_day == 31
        && fields.hour == 23
        && fields.minute == 59
        && fields.second == 60
}

/// Why fields make no date time. It is cold, so that the usual path has one exit.
#[cold]
const fn fields_fault(fields: &Fields) -> TzError
    requires { IsValid fields.now → IsPastTheEnd fields.now }
    ensures { IsUtcFault fields.now result }
{
    if is_past_the_end(fields) {
        return TzError::OutOfRange;
    }
    match fields.check() {
        Err(error) => TzError::DateTime(error),
        Ok(()) => TzError::OutOfRange,
    }
}

impl UtcDateTime {
    ghost use Rattle.std.specs.Prelude.{◌≡◌, ◌<◌, pos, ◌+ℤ◌, ◌-ℤ◌, OnOk, IfOk, IfErr, IsSome, IfSome, ◌↔◌};
    ghost use Rattle.std.specs.Duration.{as_nanos};
    ghost use Rattle.tz_base.specs.Days.{week_day_of, first_day};
    ghost use Rattle.tz_base.specs.Fields.{IsCivil, IsReading, reading, day_of, fields_of};
    ghost use Rattle.tz.specs.DateTimes.{IsUtc, IsUtcFault, IsShowFault, utc_total, IsUtcTotal, IsUtcAt, IsForwards, IsBackwards, ShowsByClock, IsClockFault};
    ghost use Rattle.tz_zone.specs.ZoneRef.{zone_of};

    /// 1970-01-01T00:00:00Z, from which Unix time counts.
    pub const UNIX_EPOCH: Self = UtcDateTime {
        fields: Fields {
            year: 1970,
            month: 1,
            month_day: 1,
            hour: 0,
            minute: 0,
            second: 0,
            nanoseconds: 0,
        },
        unix_time: 0,
    };

    /// The first date time.
    pub const MIN: Self = UtcDateTime {
        fields: Fields {
            year: i32::MIN,
            month: 1,
            month_day: 1,
            hour: 0,
            minute: 0,
            second: 0,
            nanoseconds: 0,
        },
        unix_time: -67_768_100_567_971_200,
    };

    /// The last date time.
    pub const MAX: Self = UtcDateTime {
        fields: Fields {
            year: i32::MAX,
            month: 12,
            month_day: 31,
            hour: 23,
            minute: 59,
            second: 59,
            nanoseconds: 999_999_999,
        },
        unix_time: 67_767_976_233_532_799,
    };

    /// The date time with these fields: the month from 1 to 12, the day of the month from 1, the
    /// hour from 0 to 23, the minute from 0 to 59, the second from 0 to 60 and the nanoseconds
    /// below a second.
    ///
    /// The Moon landing, in UTC:
    ///
    /// ```rust
    /// pub fn moon_landing() -> Result<UtcDateTime, TzError> {
    ///     UtcDateTime::new(1969, 7, 20, 20, 17, 40, 0)
    /// }
    /// ```
    ///
    /// # Errors
    ///
    /// - [`TzError::OutOfRange`] for second 60 of the last minute of the year `i32::MAX`, whatever
    ///   the nanoseconds;
    /// - [`TzError::DateTime`] with the first field that is out of range, in the order of the
    ///   arguments, or else with `InvalidMonthDay` if the month does not have the day.
    pub const fn new(
        year: i32,
        month: u8,
        month_day: u8,
        hour: u8,
        minute: u8,
        second: u8,
        nanoseconds: u32,
    ) -> Result<Self, TzError>
        ensures value { IfOk result
            (λ d. d ≡ fields_of year month month_day hour minute second nanoseconds) }
        ensures ok { OnOk result
            (IsUtc (fields_of year month month_day hour minute second nanoseconds)) }
        ensures err { IfErr result (IsUtcFault (fields_of year month month_day hour minute second
            nanoseconds)) }
    {
        let fields = Fields::new(year, month, month_day, hour, minute, second, nanoseconds);
        match fields.check() {
            Ok(()) if !is_past_the_end(&fields) => Ok(UtcDateTime::of_fields(fields)),
            _ => Err(fields_fault(&fields)),
        }
    }

    /// The date time with fields that are known to have one.
    pub(crate) const fn of_fields(fields: Fields) -> Self
        requires { IsUtc fields }
        ensures { result ≡ fields }
    {
        UtcDateTime {
            fields,
            unix_time: fields.reading(),
        }
    }

    /// The date time of a Unix time and nanoseconds that are known to have one.
    const fn at(unix_time: i64, nanoseconds: u32) -> Self
        requires in_range { IsReading unix_time }
        requires part { nanoseconds < 1000000000 }
        ensures { IsCivil unix_time nanoseconds result }
    {
        UtcDateTime {
            fields: Fields::from_reading(unix_time, nanoseconds),
            unix_time,
        }
    }

    /// The date time of a Unix time and nanoseconds below a second.
    ///
    /// # Errors
    ///
    /// - [`TzError::DateTime`] with [`DateTimeError::InvalidNanoseconds`] if there are 10^9
    ///   nanoseconds or more;
    /// - [`TzError::OutOfRange`] if the year does not fit an `i32`.
    pub const fn from_timespec(unix_time: i64, nanoseconds: u32) -> Result<Self, TzError>
        ensures ok { IfOk result (IsCivil unix_time nanoseconds) }
        ensures instant { OnOk result (IsReading unix_time) }
        ensures err { IfErr result (IsShowFault unix_time nanoseconds) }
    {
        if nanoseconds >= NANOSECONDS_PER_SECOND {
            return Err(TzError::DateTime(DateTimeError::InvalidNanoseconds));
        }
        if !is_reading(unix_time) {
            return Err(TzError::OutOfRange);
        }
        Ok(UtcDateTime::at(unix_time, nanoseconds))
    }

    /// The date time a number of nanoseconds after [`UtcDateTime::UNIX_EPOCH`], or before it if the
    /// number is negative.
    ///
    /// # Errors
    ///
    /// [`TzError::OutOfRange`] if its year does not fit an `i32`.
    pub fn from_total_nanoseconds(total_nanoseconds: i128) -> Result<Self, TzError>
        ensures ok { IfOk result (IsUtcAt total_nanoseconds) }
        ensures err { IfErr result (λ e. (e ≡ TzError.OutOfRange)
            × ¬ IsUtcTotal total_nanoseconds) }
    {
        let Some((unix_time, nanoseconds)) = utc_timespec(total_nanoseconds) else {
            return Err(TzError::OutOfRange);
        };
        Ok(UtcDateTime::at(unix_time, nanoseconds))
    }

    /// The date time of the current time, which the caller passes as Unix seconds and nanoseconds
    /// below a second.
    ///
    /// # Errors
    ///
    /// Those of [`UtcDateTime::from_timespec`].
    pub fn now(unix_time: i64, nanoseconds: u32) -> Result<Self, TzError>
        ensures ok { IfOk result (IsCivil unix_time nanoseconds) }
        ensures err { IfErr result (IsShowFault unix_time nanoseconds) }
    {
        UtcDateTime::from_timespec(unix_time, nanoseconds)
    }

    /// The fields.
    pub(crate) const fn fields(&self) -> &Fields
        ensures value { result.now ≡ self.now }
        ensures sound { IsUtc self.now }
    {
        &self.fields
    }

    /// Seconds from [`UtcDateTime::UNIX_EPOCH`] on. Second 60 counts as the next minute's second 0.
    pub const fn unix_time(&self) -> i64
        ensures { result ≡ reading self.now }
    {
        self.unix_time
    }

    /// The year.
    pub const fn year(&self) -> i32
        ensures { result ≡ self.now.year }
    {
        self.fields.year
    }

    /// The month, from 1 to 12.
    pub const fn month(&self) -> u8
        ensures { result ≡ self.now.month }
    {
        self.fields.month
    }

    /// The day of the month, from 1 to 31.
    pub const fn month_day(&self) -> u8
        ensures { result ≡ self.now.month_day }
    {
        self.fields.month_day
    }

    /// Hours since midnight, from 0 to 23.
    pub const fn hour(&self) -> u8
        ensures { result ≡ self.now.hour }
    {
        self.fields.hour
    }

    /// Minutes since the hour, from 0 to 59.
    pub const fn minute(&self) -> u8
        ensures { result ≡ self.now.minute }
    {
        self.fields.minute
    }

    /// Seconds since the minute, from 0 to 60.
    pub const fn second(&self) -> u8
        ensures { result ≡ self.now.second }
    {
        self.fields.second
    }

    /// Nanoseconds since the second, below 1000000000.
    pub const fn nanoseconds(&self) -> u32
        ensures { result ≡ self.now.nanoseconds }
    {
        self.fields.nanoseconds
    }

    /// The week day, from Sunday = 0 to 6.
    ///
    /// The next Monday at 9:00 in a zone:
    ///
    /// ```rust
    /// pub fn next_monday_at_nine(
    ///     zone: TimeZoneRef<'_>,
    ///     now: i64,
    /// ) -> Result<Option<DateTime>, TzError> {
    ///     let today = DateTime::from_timespec(now, 0, zone)?;
    ///     let nine =
    ///         UtcDateTime::new(today.year(), today.month(), today.month_day(), 9, 0, 0, 0)?;
    ///     for days in 0..8u64 {
    ///         let local = nine
    ///             .checked_add(Duration::from_secs(86_400 * days))
    ///             .ok_or(TzError::OutOfRange)?;
    ///         if local.week_day() == 1 {
    ///             match DateTime::from_local(local, Disambiguation::Compatible, zone)? {
    ///                 Some(monday) if now < monday.unix_time() => return Ok(Some(monday)),
    ///                 _ => {}
    ///             }
    ///         }
    ///     }
    ///     Ok(None)
    /// }
    /// ```
    pub const fn week_day(&self) -> u8
        ensures value { pos result ≡ week_day_of (day_of self.now) }
        ensures bound { result < 7 }
    {
        self.fields.week_day()
    }

    /// Days since January 1st, from 0 to 365.
    pub const fn year_day(&self) -> u16
        ensures value { pos result ≡ day_of self.now -ℤ first_day self.now.year }
        ensures bound { result < 366 }
    {
        self.fields.year_day()
    }

    /// Nanoseconds from [`UtcDateTime::UNIX_EPOCH`] on.
    pub const fn total_nanoseconds(&self) -> i128
        ensures value { result ≡ utc_total self.now }
        ensures bound { IsUtcTotal result }
    {
        total_nanoseconds(self.unix_time(), self.fields.nanoseconds)
    }

    /// What the zone's clock shows at this instant.
    ///
    /// What clocks an hour behind UTC show at the beginning of 2024 in UTC:
    ///
    /// ```rust
    /// pub fn new_year_an_hour_behind(alloc: Global) -> Result<DateTime, TzError> {
    ///     let zone = TimeZone::fixed(alloc, -3600)?;
    ///     UtcDateTime::new(2024, 1, 1, 0, 0, 0, 0)?.project(zone.as_ref())
    /// }
    /// ```
    ///
    /// # Errors
    ///
    /// Those of [`DateTime::from_timespec`] at an instant with valid nanoseconds.
    pub fn project(&self, time_zone_ref: TimeZoneRef<'_>) -> Result<DateTime, TzError>
        ensures ok { IfOk result (ShowsByClock (zone_of time_zone_ref.entry)
            (reading self.now) self.now.nanoseconds) }
        ensures err { IfErr result (IsClockFault (zone_of time_zone_ref.entry)
            (reading self.now) self.now.nanoseconds) }
    {
        DateTime::from_timespec(self.unix_time(), self.fields.nanoseconds, time_zone_ref)
    }

    /// The date time later by a duration, or `None` if that is past [`UtcDateTime::MAX`].
    ///
    /// A meeting at one local time each week. Weeks are added to the local time, not to the first
    /// instant: an hour may be lost or gained between.
    ///
    /// ```rust
    /// pub fn weekly_meetings(
    ///     alloc: Global,
    ///     zone: TimeZoneRef<'_>,
    ///     first: UtcDateTime,
    ///     weeks: u32,
    /// ) -> Result<Vec<DateTime>, TzError> {
    ///     let mut meetings = Vec::new(alloc);
    ///     for week in 0..weeks {
    ///         let after_first = Duration::from_secs(604_800 * u64::from(week));
    ///         let local = first.checked_add(after_first).ok_or(TzError::OutOfRange)?;
    ///         if let Some(meeting) =
    ///             DateTime::from_local(local, Disambiguation::Compatible, zone)?
    ///         {
    ///             meetings.push(meeting)?;
    ///         }
    ///     }
    ///     Ok(meetings)
    /// }
    /// ```
    pub fn checked_add(&self, duration: Duration) -> Option<Self>
        ensures in_range { IsSome result
            ↔ IsUtcTotal (utc_total self.now +ℤ pos (as_nanos duration)) }
        ensures some { IfSome result (IsUtcAt (utc_total self.now +ℤ pos (as_nanos duration))) }
    {
        let moved = time_after(self.unix_time(), self.fields.nanoseconds, duration);
        let (unix_time, nanoseconds) = moved?;
        Some(UtcDateTime::at(unix_time, nanoseconds))
    }

    /// The date time earlier by a duration, or `None` if that is before [`UtcDateTime::MIN`].
    pub fn checked_sub(&self, duration: Duration) -> Option<Self>
        ensures in_range { IsSome result
            ↔ IsUtcTotal (utc_total self.now -ℤ pos (as_nanos duration)) }
        ensures some { IfSome result (IsUtcAt (utc_total self.now -ℤ pos (as_nanos duration))) }
    {
        let moved = time_before(self.unix_time(), self.fields.nanoseconds, duration);
        let (unix_time, nanoseconds) = moved?;
        Some(UtcDateTime::at(unix_time, nanoseconds))
    }

    /// The duration from an earlier date time to this one.
    ///
    /// # Errors
    ///
    /// The duration from this date time to the other one, if that one is later.
    pub const fn duration_since(&self, earlier: Self) -> Result<Duration, Duration>
        ensures ok { IfOk result (IsForwards (utc_total earlier) (utc_total self.now)) }
        ensures err { IfErr result (IsBackwards (utc_total earlier) (utc_total self.now)) }
    {
        duration_between(earlier.total_nanoseconds(), self.total_nanoseconds())
    }
}

/// The date time later by a duration. Rattle requires a proof that it is not past
/// [`UtcDateTime::MAX`]; the Rust crate panics if it is. [`UtcDateTime::checked_add`] returns
/// `None` then.
impl Add<Duration> for UtcDateTime {
    ghost use Rattle.std.specs.Prelude.{pos, ◌+ℤ◌};
    ghost use Rattle.std.specs.Duration.{as_nanos};
    ghost use Rattle.tz.specs.DateTimes.{utc_total, IsUtcTotal, IsUtcAt};

    type Output = UtcDateTime;

    ghost can_add = { λ d s. IsUtcTotal (utc_total d +ℤ pos (as_nanos s)) };

    ghost add_gives = { λ d s r. IsUtcAt (utc_total d +ℤ pos (as_nanos s)) r };

    fn add(self, duration: Duration) -> UtcDateTime {
        self.checked_add(duration).unwrap()
    }
}

/// The date time earlier by a duration. Rattle requires a proof that it is not before
/// [`UtcDateTime::MIN`]; the Rust crate panics if it is. [`UtcDateTime::checked_sub`] returns
/// `None` then.
impl Sub<Duration> for UtcDateTime {
    ghost use Rattle.std.specs.Prelude.{pos, ◌-ℤ◌};
    ghost use Rattle.std.specs.Duration.{as_nanos};
    ghost use Rattle.tz.specs.DateTimes.{utc_total, IsUtcTotal, IsUtcAt};

    type Output = UtcDateTime;

    ghost can_sub = { λ d s. IsUtcTotal (utc_total d -ℤ pos (as_nanos s)) };

    ghost sub_gives = { λ d s r. IsUtcAt (utc_total d -ℤ pos (as_nanos s)) r };

    fn sub(self, duration: Duration) -> UtcDateTime {
        self.checked_sub(duration).unwrap()
    }
}

/// Adds a duration, with the requirement of `+`: the sum is not past [`UtcDateTime::MAX`].
impl AddAssign<Duration> for UtcDateTime {
    ghost use Rattle.std.specs.Prelude.{pos, ◌+ℤ◌};
    ghost use Rattle.std.specs.Duration.{as_nanos};
    ghost use Rattle.tz.specs.DateTimes.{utc_total, IsUtcTotal, IsUtcAt};

    ghost can_add_assign = { λ d s. IsUtcTotal (utc_total d +ℤ pos (as_nanos s)) };

    ghost add_assign_gives = { λ d s r. IsUtcAt (utc_total d +ℤ pos (as_nanos s)) r };

    fn add_assign(&mut self, duration: Duration) {
        *self = *self + duration;
    }
}

/// Subtracts a duration, with the requirement of `-`: the difference is not before
/// [`UtcDateTime::MIN`].
impl SubAssign<Duration> for UtcDateTime {
    ghost use Rattle.std.specs.Prelude.{pos, ◌-ℤ◌};
    ghost use Rattle.std.specs.Duration.{as_nanos};
    ghost use Rattle.tz.specs.DateTimes.{utc_total, IsUtcTotal, IsUtcAt};

    ghost can_sub_assign = { λ d s. IsUtcTotal (utc_total d -ℤ pos (as_nanos s)) };

    ghost sub_assign_gives = { λ d s r. IsUtcAt (utc_total d -ℤ pos (as_nanos s)) r };

    fn sub_assign(&mut self, duration: Duration) {
        *self = *self - duration;
    }
}

/// The UTC date time of the same instant.
///
/// # Errors
///
/// [`TzError::OutOfRange`] if its year does not fit an `i32`.
impl TryFrom<DateTime> for UtcDateTime {
    ghost use Rattle.std.specs.Prelude.{◌≡◌, IfOk, IfErr};
    ghost use Rattle.tz_base.specs.Fields.{IsCivil, IsReading};
    ghost use Rattle.tz_base.specs.declared.error.TzError.TheVariants.{OutOfRange};

    type Error = TzError;

    ghost try_from_gives = { λ d r. IfOk r (IsCivil d.unix_time d.fields.nanoseconds)
        × IfErr r (λ e. (e ≡ OutOfRange) × ¬ IsReading d.unix_time) };

    fn try_from(date_time: DateTime) -> Result<Self, TzError> {
        if !is_reading(date_time.unix_time()) {
            return Err(TzError::OutOfRange);
        }
        Ok(UtcDateTime::at(date_time.unix_time(), date_time.nanoseconds()))
    }
}

/// Prints the name of the type and its fields, as if they stood in the type itself.
impl fmt::Debug for UtcDateTime {
    fn fmt<W: fmt::Write>(&self, f: &mut fmt::Formatter<W>) -> fmt::Result {
        f.debug_struct("UtcDateTime")
            .field("year", &self.fields.year)
            .field("month", &self.fields.month)
            .field("month_day", &self.fields.month_day)
            .field("hour", &self.fields.hour)
            .field("minute", &self.fields.minute)
            .field("second", &self.fields.second)
            .field("nanoseconds", &self.fields.nanoseconds)
            .finish()
    }
}

/// Prints `year-MM-DDThh:mm:ss.nnnnnnnnnZ`, whatever the format's width. (ISO 8601-1, 5.4.2)
impl fmt::Display for UtcDateTime {
    ghost use Rattle.std.specs.Prelude.{Some, pos};
    ghost use Rattle.tz.specs.PrintedText.{printed_text};

    ghost output = { λ d. Some (printed_text d (pos 0)) };

    ghost styled_output = { λ d _. Some (printed_text d (pos 0)) };

    fn fmt<W: fmt::Write>(&self, f: &mut fmt::Formatter<W>) -> fmt::Result {
        let mut line = TextBuffer::new();
        line.push_date_time(&self.fields, 0);
        f.write_str(line.as_str())
    }
}

/// The fields of a date time of UTC, which are valid.
pub const fn utc_fields_of(date_time: &UtcDateTime) -> &Fields
    ensures fields { result.now ≡ date_time.now }
    ensures sound { IsUtc date_time.now }
{
    date_time.fields()
}

/// The seconds of the total, rounded down, and the nanoseconds that remain, if the seconds are
/// those of a UTC date time.
fn utc_timespec(total: i128) -> Option<(i64, u32)>
    ensures some { IfSome result (λ t. IsReading t.0 × IsTimespec total t.0 t.1) }
    ensures in_range { IsSome result ↔ IsUtcTotal total }
{
    let (seconds, nanoseconds) = timespec(total)?;
    if !is_reading(seconds) {
        return None;
    }
    Some((seconds, nanoseconds))
}

/// The seconds from the first reading of UTC date times to the last.
const ALL_SECONDS: u64 = 135_536_076_801_503_999;

/// The seconds with the whole ones of the nanoseconds, and the nanoseconds that remain, if the
/// seconds are those of a UTC date time.
fn carried(seconds: i64, nanoseconds: u32) -> Option<(i64, u32)>
    requires { (negsuc (2 ^ 62) ≤ℤ seconds) × (seconds ≤ℤ pos (2 ^ 62)) }
    ensures some { IfSome result (λ t. IsReading t.0
        × IsTimespec (total_nanoseconds_of seconds nanoseconds) t.0 t.1) }
    ensures in_range { IsSome result ↔ IsUtcTotal (total_nanoseconds_of seconds nanoseconds) }
{
    let whole = seconds + i64::from(nanoseconds / NANOSECONDS_PER_SECOND);
    if !is_reading(whole) {
        return None;
    }
    Some((whole, nanoseconds % NANOSECONDS_PER_SECOND))
}

/// The seconds and nanoseconds a duration after others, if the seconds are those of a UTC date
/// time.
fn time_after(seconds: i64, nanoseconds: u32, duration: Duration) -> Option<(i64, u32)>
    requires instant { IsReading seconds }
    requires part { nanoseconds < 1000000000 }
    ensures some { IfSome result (λ t. IsReading t.0
        × IsTimespec (total_nanoseconds_of seconds nanoseconds +ℤ pos (as_nanos duration)) t.0
        t.1) }
    ensures in_range { IsSome result ↔ IsUtcTotal (total_nanoseconds_of seconds nanoseconds +ℤ pos
        (as_nanos duration)) }
{
    let added = duration.as_secs();
    if added > ALL_SECONDS {
        return None;
    }
    let nanoseconds = nanoseconds + duration.subsec_nanos();
    carried(seconds + added as i64, nanoseconds)
}

/// The seconds and nanoseconds a duration before others, if the seconds are those of a UTC date
/// time.
fn time_before(seconds: i64, nanoseconds: u32, duration: Duration) -> Option<(i64, u32)>
    requires instant { IsReading seconds }
    requires part { nanoseconds < 1000000000 }
    ensures some { IfSome result (λ t. IsReading t.0
        × IsTimespec (total_nanoseconds_of seconds nanoseconds -ℤ pos (as_nanos duration)) t.0
        t.1) }
    ensures in_range { IsSome result ↔ IsUtcTotal (total_nanoseconds_of seconds nanoseconds -ℤ pos
        (as_nanos duration)) }
{
    let taken = duration.as_secs();
    if taken > ALL_SECONDS {
        return None;
    }
    let borrowed = nanoseconds + NANOSECONDS_PER_SECOND - duration.subsec_nanos();
    carried(seconds - taken as i64 - 1, borrowed)
}

/// The duration between two totals: `Ok` if the later one is not below the earlier one, and
/// otherwise `Err` with the way back.
pub(super) const fn duration_between(earlier: i128, later: i128) -> Result<Duration, Duration>
    requires earlier { IsNearTotal earlier }
    requires later { IsNearTotal later }
    ensures ok { IfOk result (IsForwards earlier later) }
    ensures err { IfErr result (IsBackwards earlier later) }
{
    let difference = later - earlier;
    let nanoseconds = difference.unsigned_abs();
    let (whole, part) = (nanoseconds / 1_000_000_000, nanoseconds % 1_000_000_000);
    let duration = Duration::new(whole as u64, part as u32);
    if difference >= 0 {
        Ok(duration)
    } else {
        Err(duration)
    }
}
