//! Date times of a local time type.

ghost use Rattle.std.specs.Prelude.{◌≡◌, ◌<◌, ◌+ℤ◌};
ghost use Rattle.tz_base.specs.Fields.{IsReading, IsValid};
ghost use Rattle.tz_rule.specs.LocalTimeType.{LocalTimeType};
ghost use Rattle.tz_zone.specs.Clock.{IsClock};
ghost use Rattle.tz_zone.specs.ZoneOfData.{zone_of_data};
ghost use Rattle.tz.specs.DateTimes.{IsDateTime, IsClockFault};

use super::utc_date_time::duration_between;
use std::cmp::Ordering;
use std::fmt;
use std::hash::{Hash, Hasher};
use std::marker::Model;
use std::time::Duration;
use tz_base::constants::NANOSECONDS_PER_SECOND;
use tz_base::error::{DateTimeError, TzError};
use tz_base::fields::{Fields, is_reading, local_reading, timespec, total_nanoseconds};
use tz_base::text_buffer::TextBuffer;
use tz_rule::timezone::LocalTimeType;
use tz_zone::inner::ZoneData;
use tz_zone::timezone::TimeZoneRef;

/// A date time with the local time type that shows it, and its Unix time.
///
/// Date times are compared by Unix time and then by nanoseconds, whatever their local time types.
#[repr(C)]
#[derive(Clone, Copy)]
pub struct DateTime {
    fields: Fields,
    local_time_type: LocalTimeType,
    unix_time: i64,
}

impl Model for DateTime {
    ghost use Rattle.tz.specs.DateTimes.{DateTime, IsDateTime};

    ghost Value = { DateTime };

    ghost view = { λ d. record {
      fields = d.fields;
      local_time_type = d.local_time_type;
      unix_time = d.unix_time;
    } };

    ghost invariant = { λ d. IsDateTime (record {
      fields = d.fields;
      local_time_type = d.local_time_type;
      unix_time = d.unix_time;
    }) };

    ghost inverse = { λ d. record {
      fields = d.fields;
      local_time_type = d.local_time_type;
      unix_time = d.unix_time;
    } };
}

impl PartialEq for DateTime {
    ghost use Rattle.std.specs.Cmp.Rules.{comparing};
    ghost use Rattle.std.proofs.Common.{rules};
    ghost use Rattle.tz.specs.DateTimes.{moment_eq};

    ghost eq = { moment_eq };

    ghost laws = { Prim.search (comparing, rules) };

    fn eq(&self, other: &DateTime) -> bool {
        self.unix_time == other.unix_time && self.fields.nanoseconds == other.fields.nanoseconds
    }
}

impl Eq for DateTime {
    ghost use Rattle.std.specs.Cmp.Rules.{comparing};
    ghost use Rattle.std.proofs.Common.{rules};

    ghost laws = { Prim.search (comparing, rules) };
}

impl Hash for DateTime {
    ghost use Rattle.std.specs.Prelude.{◌++◌};
    ghost use Rattle.std.specs.Hash as fed;
    ghost use Rattle.std.specs.Cmp.Rules.{hashing};
    ghost use Rattle.std.proofs.Common.{rules};

    ghost hash_input = { λ d. fed.i64 d.unix_time ++ fed.u32 d.fields.nanoseconds };

    ghost respects_eq = { Prim.search (hashing, rules) };

    fn hash<H: Hasher>(&self, state: &mut H) {
        self.unix_time.hash(state);
        self.fields.nanoseconds.hash(state);
    }
}

impl PartialOrd for DateTime {
    ghost use Rattle.std.specs.Cmp.{partial_order_from_own_ties};
    ghost use Rattle.std.specs.Cmp.Rules.{comparing};
    ghost use Rattle.std.specs.Ordering.{as_partial_cmp};
    ghost use Rattle.std.proofs.Common.{rules};
    ghost use Rattle.tz.specs.DateTimes.{moment_cmp};

    ghost partial_cmp = { as_partial_cmp moment_cmp };

    ghost laws = { partial_order_from_own_ties (Prim.search (comparing, rules))
        (Prim.search (comparing, rules)) };

    fn partial_cmp(&self, other: &DateTime) -> Option<Ordering> {
        Some(self.cmp(other))
    }
}

impl Ord for DateTime {
    ghost use Rattle.std.specs.Cmp.Rules.{comparing};
    ghost use Rattle.std.proofs.Common.{rules};
    ghost use Rattle.tz.specs.DateTimes.{moment_cmp};

    ghost cmp = { moment_cmp };

    ghost total = { Prim.search (comparing, rules) };

    ghost matches_partial_cmp = { Prim.search (comparing, rules) };

    ghost matches_eq = { Prim.search (comparing, rules) };

    fn cmp(&self, other: &DateTime) -> Ordering {
        self.unix_time
            .cmp(&other.unix_time)
            .then(self.fields.nanoseconds.cmp(&other.fields.nanoseconds))
    }
}

impl DateTime {
    ghost use Rattle.std.specs.Prelude.{◌≡◌, ◌<◌, pos, ◌+ℤ◌, ◌-ℤ◌, OnOk, IfOk, IfErr};
    ghost use Rattle.tz_base.specs.Days.{week_day_of, first_day};
    ghost use Rattle.tz_base.specs.Fields.{IsValid, IsReading, reading, day_of, fields_of};
    ghost use Rattle.tz_rule.specs.LocalTimeType.{LocalTimeType};
    ghost use Rattle.tz_zone.specs.ZoneOfData.{zone_of_data};
    ghost use Rattle.tz_zone.specs.ZoneRef.{zone_of};
    ghost use Rattle.tz.specs.DateTimes.{DateTime, IsDateTime, ShowsInstant, IsShowFault, IsLocalFault, total_of, IsNearTotal, IsForwards, IsBackwards, ShowsByClock, IsClockFault, IsTotalFault, IsTotalClockFault, ShowsTotal, ShowsTotalByClock};

    /// The date time with these fields, which the type shows: the month from 1 to 12, the day of
    /// the month from 1, the hour from 0 to 23, the minute from 0 to 59, the second from 0 to 60
    /// and the nanoseconds below 10^9.
    ///
    /// The date time that clocks nine hours ahead of UTC show on 2024-05-01 at 8:30:
    ///
    /// ```rust
    /// pub fn morning_in_tokyo() -> Result<DateTime, TzError> {
    ///     let tokyo = LocalTimeType::with_ut_offset(32_400)?;
    ///     DateTime::new(2024, 5, 1, 8, 30, 0, 0, tokyo)
    /// }
    /// ```
    ///
    /// # Errors
    ///
    /// - [`TzError::DateTime`] with the first field that is out of range, in the order of the
    ///   arguments, or else with `InvalidMonthDay` if the month does not have the day;
    /// - [`TzError::OutOfRange`] if the year in UTC does not fit an `i32`.
    pub fn new(
        year: i32,
        month: u8,
        month_day: u8,
        hour: u8,
        minute: u8,
        second: u8,
        nanoseconds: u32,
        local_time_type: LocalTimeType,
    ) -> Result<Self, TzError>
        ensures value { IfOk result (λ d. d ≡ record {
          fields = fields_of year month month_day hour minute second nanoseconds;
          local_time_type = local_time_type;
          unix_time = reading (fields_of year month month_day hour minute second nanoseconds)
              -ℤ local_time_type.ut_offset;
        }) }
        ensures ok { OnOk result
            (IsValid (fields_of year month month_day hour minute second nanoseconds)) }
        ensures instant { OnOk result (IsReading (reading
            (fields_of year month month_day hour minute second nanoseconds)
            -ℤ local_time_type.ut_offset)) }
        ensures err { IfErr result (IsLocalFault (fields_of year month month_day hour minute second
            nanoseconds) local_time_type.ut_offset) }
    {
        let fields = Fields::new(year, month, month_day, hour, minute, second, nanoseconds);
        if let Err(error) = fields.check() {
            return Err(TzError::DateTime(error));
        }
        let unix_time = fields.reading() - i64::from(local_time_type.ut_offset());
        if !is_reading(unix_time) {
            return Err(TzError::OutOfRange);
        }
        Ok(DateTime::of_fields(&fields, local_time_type, unix_time))
    }

    /// The date time with valid fields, which the type shows at a Unix time.
    pub(crate) const fn of_fields(
        fields: &Fields,
        local_time_type: LocalTimeType,
        unix_time: i64,
    ) -> Self
        requires valid { IsValid fields.now }
        requires instant { unix_time ≡ reading fields.now -ℤ local_time_type.ut_offset }
        ensures { result ≡ record {
          fields = fields.now;
          local_time_type = local_time_type;
          unix_time = unix_time;
        } }
    {
        DateTime {
            fields: *fields,
            local_time_type,
            unix_time,
        }
    }

    /// The date time that the type shows at a Unix time, with nanoseconds below 10^9.
    ///
    /// # Errors
    ///
    /// - [`TzError::DateTime`] with [`DateTimeError::InvalidNanoseconds`] if there are 10^9
    ///   nanoseconds or more;
    /// - [`TzError::OutOfRange`] if the year that the type shows does not fit an `i32`.
    pub const fn from_timespec_and_local(
        unix_time: i64,
        nanoseconds: u32,
        local_time_type: LocalTimeType,
    ) -> Result<Self, TzError>
        ensures ok { IfOk result (ShowsInstant unix_time nanoseconds local_time_type) }
        ensures reads { IfOk result (λ d. IsReading (reading d.fields)) }
        ensures err { IfErr result
            (IsShowFault (unix_time +ℤ local_time_type.ut_offset) nanoseconds) }
    {
        if nanoseconds >= NANOSECONDS_PER_SECOND {
            return Err(TzError::DateTime(DateTimeError::InvalidNanoseconds));
        }
        DateTime::shown_by(unix_time, nanoseconds, local_time_type)
    }

    /// The date time that the type shows at a Unix time.
    #[inline(always)]
    pub(super) const fn shown_by(
        unix_time: i64,
        nanoseconds: u32,
        local_time_type: LocalTimeType,
    ) -> Result<Self, TzError>
        requires { nanoseconds < 1000000000 }
        ensures ok { IfOk result (ShowsInstant unix_time nanoseconds local_time_type) }
        ensures reads { OnOk result (IsReading (unix_time +ℤ local_time_type.ut_offset)) }
        ensures err { IfErr result (λ e. (e ≡ TzError.OutOfRange)
            × ¬ IsReading (unix_time +ℤ local_time_type.ut_offset)) }
    {
        let Some(reading) = local_reading(unix_time, local_time_type.ut_offset()) else {
            return Err(TzError::OutOfRange);
        };
        Ok(DateTime {
            fields: Fields::from_reading(reading, nanoseconds),
            local_time_type,
            unix_time,
        })
    }

    /// The date time that the zone's clock shows at a Unix time.
    #[inline(always)]
    pub(super) fn shown_by_clock(
        unix_time: i64,
        nanoseconds: u32,
        zone: &ZoneData<'_>,
    ) -> Result<Self, TzError>
        ensures ok { IfOk result (ShowsByClock (zone_of_data zone.now) unix_time nanoseconds) }
        ensures reads { IfOk result (λ d. IsReading (reading d.fields)) }
        ensures err { IfErr result (IsClockFault (zone_of_data zone.now) unix_time nanoseconds) }
    {
        if nanoseconds < NANOSECONDS_PER_SECOND {
            if let Ok(local_time_type) = zone.find_local_time_type(unix_time) {
                if let Ok(date_time) = DateTime::shown_by(
                    unix_time,
                    nanoseconds,
                    *local_time_type,
                ) {
                    return Ok(date_time);
                }
            }
        }
        Err(clock_fault(unix_time, nanoseconds, *zone))
    }

    /// The date time that the zone's clock shows at a Unix time, with nanoseconds below 10^9.
    ///
    /// What clocks of a zone show at a Unix time, and the name of their time:
    ///
    /// ```rust
    /// pub fn print_instant(
    ///     alloc: Global,
    ///     zone: TimeZoneRef<'_>,
    ///     unix_time: i64,
    /// ) -> Result<String, TzError> {
    ///     let date_time = DateTime::from_timespec(unix_time, 0, zone)?;
    ///     let name = date_time.local_time_type().time_zone_designation();
    ///     Ok(format!(in alloc; "{date_time} {name}")?)
    /// }
    /// ```
    ///
    /// # Errors
    ///
    /// - [`TzError::DateTime`] with [`DateTimeError::InvalidNanoseconds`] if there are 10^9
    ///   nanoseconds or more;
    /// - [`TzError::NoAvailableLocalTimeType`] or [`TzError::OutOfRange`] of
    ///   [`TimeZoneRef::find_local_time_type`] if the clock has no type at the instant;
    /// - [`TzError::OutOfRange`] if the year that the clock shows does not fit an `i32`.
    #[inline(always)]
    pub fn from_timespec(
        unix_time: i64,
        nanoseconds: u32,
        time_zone_ref: TimeZoneRef<'_>,
    ) -> Result<Self, TzError>
        ensures ok { IfOk result
            (ShowsByClock (zone_of time_zone_ref.entry) unix_time nanoseconds) }
        ensures reads { IfOk result (λ d. IsReading (reading d.fields)) }
        ensures err { IfErr result
            (IsClockFault (zone_of time_zone_ref.entry) unix_time nanoseconds) }
    {
        DateTime::shown_by_clock(unix_time, nanoseconds, &ZoneData::of(&time_zone_ref))
    }

    /// The date time that the type shows a number of nanoseconds after 1970-01-01T00:00:00Z, or
    /// before it if the number is negative.
    ///
    /// # Errors
    ///
    /// [`TzError::OutOfRange`] if the year that the type shows does not fit an `i32`.
    pub const fn from_total_nanoseconds_and_local(
        total_nanoseconds: i128,
        local_time_type: LocalTimeType,
    ) -> Result<Self, TzError>
        ensures ok { IfOk result (ShowsTotal total_nanoseconds local_time_type) }
        ensures reads { IfOk result (λ d. IsReading (reading d.fields)) }
        ensures err { IfErr result (IsTotalFault total_nanoseconds local_time_type.ut_offset) }
    {
        let total = timespec(total_nanoseconds);
        let Some((unix_time, nanoseconds)) = total else {
            return Err(TzError::OutOfRange);
        };
        DateTime::shown_by(unix_time, nanoseconds, local_time_type)
    }

    /// The date time that the zone's clock shows a number of nanoseconds after
    /// 1970-01-01T00:00:00Z, or before it if the number is negative.
    ///
    /// # Errors
    ///
    /// - [`TzError::OutOfRange`] if the seconds do not fit an `i64`;
    /// - those of [`DateTime::from_timespec`] at an instant with valid nanoseconds.
    pub fn from_total_nanoseconds(
        total_nanoseconds: i128,
        time_zone_ref: TimeZoneRef<'_>,
    ) -> Result<Self, TzError>
        ensures ok { IfOk result
            (ShowsTotalByClock (zone_of time_zone_ref.entry) total_nanoseconds) }
        ensures reads { IfOk result (λ d. IsReading (reading d.fields)) }
        ensures err { IfErr result
            (IsTotalClockFault (zone_of time_zone_ref.entry) total_nanoseconds) }
    {
        let Some((unix_time, nanoseconds)) = timespec(total_nanoseconds) else {
            return Err(TzError::OutOfRange);
        };
        DateTime::from_timespec(unix_time, nanoseconds, time_zone_ref)
    }

    /// What the zone's clock shows at this instant.
    ///
    /// # Errors
    ///
    /// Those of [`DateTime::from_timespec`] at an instant with valid nanoseconds.
    pub fn project(&self, time_zone_ref: TimeZoneRef<'_>) -> Result<Self, TzError>
        ensures ok { IfOk result (ShowsByClock (zone_of time_zone_ref.entry) self.now.unix_time
            self.now.fields.nanoseconds) }
        ensures reads { IfOk result (λ d. IsReading (reading d.fields)) }
        ensures err { IfErr result (IsClockFault (zone_of time_zone_ref.entry) self.now.unix_time
            self.now.fields.nanoseconds) }
    {
        DateTime::from_timespec(self.unix_time, self.fields.nanoseconds, time_zone_ref)
    }

    /// What the zone's clock shows at the current time, which the caller passes as Unix seconds and
    /// nanoseconds below a second.
    ///
    /// What clocks of a zone show now, by the system's clock:
    ///
    /// ```rust
    /// pub fn show_now<C: Clock>(clock: &C, zone: TimeZoneRef<'_>) -> anyhow::Result<DateTime> {
    ///     let since_1970 = SystemTime::now(clock)?.duration_since(UNIX_EPOCH)?;
    ///     let seconds = i64::try_from(since_1970.as_secs())?;
    ///     Ok(DateTime::now(seconds, since_1970.subsec_nanos(), zone)?)
    /// }
    /// ```
    ///
    /// # Errors
    ///
    /// Those of [`DateTime::from_timespec`].
    pub fn now(
        unix_time: i64,
        nanoseconds: u32,
        time_zone_ref: TimeZoneRef<'_>,
    ) -> Result<Self, TzError>
        ensures ok { IfOk result
            (ShowsByClock (zone_of time_zone_ref.entry) unix_time nanoseconds) }
        ensures reads { IfOk result (λ d. IsReading (reading d.fields)) }
        ensures err { IfErr result
            (IsClockFault (zone_of time_zone_ref.entry) unix_time nanoseconds) }
    {
        DateTime::from_timespec(unix_time, nanoseconds, time_zone_ref)
    }

    /// The year.
    pub const fn year(&self) -> i32
        ensures { result ≡ self.now.fields.year }
    {
        self.fields.year
    }

    /// The month, from 1 to 12.
    pub const fn month(&self) -> u8
        ensures { result ≡ self.now.fields.month }
    {
        self.fields.month
    }

    /// The day of the month, from 1 to 31.
    pub const fn month_day(&self) -> u8
        ensures { result ≡ self.now.fields.month_day }
    {
        self.fields.month_day
    }

    /// Hours since midnight, from 0 to 23.
    pub const fn hour(&self) -> u8
        ensures { result ≡ self.now.fields.hour }
    {
        self.fields.hour
    }

    /// Minutes since the hour, from 0 to 59.
    pub const fn minute(&self) -> u8
        ensures { result ≡ self.now.fields.minute }
    {
        self.fields.minute
    }

    /// Seconds since the minute, from 0 to 60.
    pub const fn second(&self) -> u8
        ensures { result ≡ self.now.fields.second }
    {
        self.fields.second
    }

    /// Nanoseconds since the second, below 1000000000.
    pub const fn nanoseconds(&self) -> u32
        ensures { result ≡ self.now.fields.nanoseconds }
    {
        self.fields.nanoseconds
    }

    /// The week day, from Sunday = 0 to 6.
    pub const fn week_day(&self) -> u8
        ensures value { pos result ≡ week_day_of (day_of self.now.fields) }
        ensures bound { result < 7 }
    {
        self.fields.week_day()
    }

    /// Days since January 1st, from 0 to 365.
    pub const fn year_day(&self) -> u16
        ensures value { pos result ≡ day_of self.now.fields -ℤ first_day self.now.fields.year }
        ensures bound { result < 366 }
    {
        self.fields.year_day()
    }

    /// The local time type that shows these fields.
    pub const fn local_time_type(&self) -> &LocalTimeType
        ensures { result.now ≡ self.now.local_time_type }
    {
        &self.local_time_type
    }

    /// Seconds from 1970-01-01T00:00:00Z on.
    pub const fn unix_time(&self) -> i64
        ensures { result ≡ self.now.unix_time }
    {
        self.unix_time
    }

    /// Nanoseconds from 1970-01-01T00:00:00Z on.
    pub const fn total_nanoseconds(&self) -> i128
        ensures value { result ≡ total_of self.now }
        ensures bound { IsNearTotal result }
    {
        total_nanoseconds(self.unix_time, self.fields.nanoseconds)
    }

    /// The duration from an earlier date time to this one.
    ///
    /// # Errors
    ///
    /// The duration from this date time to the other one, if that one is later.
    pub const fn duration_since(&self, earlier: Self) -> Result<Duration, Duration>
        ensures ok { IfOk result (IsForwards (total_of earlier) (total_of self.now)) }
        ensures err { IfErr result (IsBackwards (total_of earlier) (total_of self.now)) }
    {
        duration_between(earlier.total_nanoseconds(), self.total_nanoseconds())
    }

    /// The fields, which are valid and shown.
    pub(crate) const fn fields(&self) -> &Fields
        ensures fields { result.now ≡ self.now.fields }
        ensures sound { IsDateTime self.now }
    {
        &self.fields
    }
}

/// Why the zone's clock shows no date time at a Unix time. It looks the type up again, so that a
/// lookup that succeeds passes on no error, and takes the zone by value, so that this stays in
/// registers.
#[cold]
fn clock_fault(unix_time: i64, nanoseconds: u32, zone: ZoneData<'_>) -> TzError
    requires { nanoseconds < 1000000000 → (t : LocalTimeType)
        → IsClock (zone_of_data zone) unix_time t → ¬ IsReading (unix_time +ℤ t.ut_offset) }
    ensures { IsClockFault (zone_of_data zone.entry) unix_time nanoseconds result }
{
    if nanoseconds >= NANOSECONDS_PER_SECOND {
        return TzError::DateTime(DateTimeError::InvalidNanoseconds);
    }
    match zone.find_local_time_type(unix_time) {
        Ok(_) => TzError::OutOfRange,
        Err(error) => error,
    }
}

/// Prints the name of the type and its parts, the fields as if they stood in the type itself.
impl fmt::Debug for DateTime {
    fn fmt<W: fmt::Write>(&self, f: &mut fmt::Formatter<W>) -> fmt::Result {
        f.debug_struct("DateTime")
            .field("year", &self.fields.year)
            .field("month", &self.fields.month)
            .field("month_day", &self.fields.month_day)
            .field("hour", &self.fields.hour)
            .field("minute", &self.fields.minute)
            .field("second", &self.fields.second)
            .field("local_time_type", &self.local_time_type)
            .field("unix_time", &self.unix_time)
            .field("nanoseconds", &self.fields.nanoseconds)
            .finish()
    }
}

/// Prints `year-MM-DDThh:mm:ss.nnnnnnnnn` and `Z` or the offset, as `+hh:mm`, with `:ss` where it
/// has seconds. The format's width plays no part. (ISO 8601-1, 5.4.2)
impl fmt::Display for DateTime {
    ghost use Rattle.std.specs.Prelude.{Some};
    ghost use Rattle.tz.specs.PrintedText.{printed_text};

    ghost output = { λ d. Some (printed_text d.fields d.local_time_type.ut_offset) };

    ghost styled_output = { λ d _. Some (printed_text d.fields d.local_time_type.ut_offset) };

    fn fmt<W: fmt::Write>(&self, f: &mut fmt::Formatter<W>) -> fmt::Result {
        let mut line = TextBuffer::new();
        line.push_date_time(&self.fields, self.local_time_type.ut_offset());
        f.write_str(line.as_str())
    }
}

/// The fields of a date time, which are valid.
pub const fn fields_of(date_time: &DateTime) -> &Fields
    ensures fields { result.now ≡ date_time.now.fields }
    ensures valid { IsValid result.now }
    ensures sound { IsDateTime date_time.now }
{
    date_time.fields()
}
