//! Date times of a zone and of UTC, and their texts.

ghost use Rattle.tz_base.specs.declared.error.TzError.TheVariants as faults;
ghost use Rattle.std.specs.Prelude.{◌≡◌, ◌≢◌, ◌+ℤ◌, ◌-ℤ◌, pos, ◌*◌, ◌+◌, ◌<◌};
ghost use Rattle.tz_base.specs.Days.{week_day_of, first_day};
ghost use Rattle.tz_base.specs.Fields.{IsCivil, IsReading, day_of, reading};
ghost use Rattle.tz.specs.DateTimes.{IsLocalFault, IsShowFault, IsClockFault, ShowsByClock, ShowsInstant, IsUtcAt, IsUtcFault, utc_total};
ghost use Rattle.tz_c.specs.Codes.{IsAnswer};
ghost use Rattle.tz_c.specs.DateTimes.{IsDateTimeDataOf, IsUtcDataOf, shown_by, IsMoveFault};
ghost use Rattle.tz_c.specs.DateTimeTexts.{IsParsedAnswer, part_code};
ghost use Rattle.tz_c.specs.ZoneOfData.{zone_of_data};

use crate::codes::{INVALID_NANOSECONDS, OK, OUT_OF_RANGE, code_of};
use crate::date_time_data::{DateTimeData, UtcData};
use crate::zone_data::TzZone;
use std::time::Duration;
use tz::inner::{Fields, local_reading};
use tz::{DateTime, DateTimePart, ParsedDateTime, UtcDateTime};
use tz_base::constants::NANOSECONDS_PER_SECOND;
use tz_rule::timezone::LocalTimeType;

/// The date time with the fields, which the type shows.
#[unsafe(no_mangle)]
pub extern "C" fn tz_date_time_new(
    fields: &Fields,
    local_time_type: &LocalTimeType,
    out: &mut DateTimeData,
) -> u32
    ensures answer { IsAnswer result
        (IsDateTimeDataOf (λ d. d ≡ shown_by fields.now local_time_type.now)
        out.new) (IsLocalFault fields.now local_time_type.now.ut_offset) }
    ensures instant { result ≡ 0 → IsReading (reading fields.now -ℤ local_time_type.now.ut_offset) }
    ensures kept { result ≢ 0 → out.new ≡ out.old }
{
    match DateTime::new(
        fields.year,
        fields.month,
        fields.month_day,
        fields.hour,
        fields.minute,
        fields.second,
        fields.nanoseconds,
        *local_time_type,
    ) {
        Ok(date_time) => {
            *out = DateTimeData::of(&date_time);
            OK
        }
        Err(error) => code_of(&error),
    }
}

/// What the type shows at an instant.
#[unsafe(no_mangle)]
pub extern "C" fn tz_date_time_from_timespec_and_local(
    unix_time: i64,
    nanoseconds: u32,
    local_time_type: &LocalTimeType,
    out: &mut DateTimeData,
) -> u32
    ensures answer { IsAnswer result
        (IsDateTimeDataOf (ShowsInstant unix_time nanoseconds local_time_type.now) out.new)
        (IsShowFault (unix_time +ℤ local_time_type.now.ut_offset) nanoseconds) }
    ensures kept { result ≢ 0 → out.new ≡ out.old }
{
    match DateTime::from_timespec_and_local(unix_time, nanoseconds, *local_time_type) {
        Ok(date_time) => {
            *out = DateTimeData::of(&date_time);
            OK
        }
        Err(error) => code_of(&error),
    }
}

/// What the zone's clock shows at an instant.
#[unsafe(no_mangle)]
pub extern "C" fn tz_date_time_from_timespec(
    unix_time: i64,
    nanoseconds: u32,
    zone: &TzZone<'_>,
    out: &mut DateTimeData,
) -> u32
    ensures answer { IsAnswer result
        (IsDateTimeDataOf (ShowsByClock (zone_of_data zone.now) unix_time nanoseconds) out.new)
        (IsClockFault (zone_of_data zone.now) unix_time nanoseconds) }
    ensures kept { result ≢ 0 → out.new ≡ out.old }
{
    if nanoseconds >= NANOSECONDS_PER_SECOND {
        return INVALID_NANOSECONDS;
    }
    let local_time_type = match zone.as_zone_data().find_local_time_type(unix_time) {
        Ok(local_time_type) => local_time_type,
        Err(error) => return code_of(&error),
    };
    let Some(reading) = local_reading(unix_time, local_time_type.ut_offset()) else {
        return OUT_OF_RANGE;
    };
    *out = DateTimeData {
        fields: Fields::from_reading(reading, nanoseconds),
        local_time_type: *local_time_type,
        unix_time,
    };
    OK
}

/// The date time of UTC at the same instant.
#[unsafe(no_mangle)]
pub extern "C" fn tz_date_time_to_utc(date_time: &DateTime, out: &mut UtcData) -> u32
    ensures answer { IsAnswer result
        (IsUtcDataOf (IsCivil date_time.now.unix_time date_time.now.fields.nanoseconds) out.new)
        (λ e. (e ≡ faults.OutOfRange) × ¬ IsReading date_time.now.unix_time) }
    ensures kept { result ≢ 0 → out.new ≡ out.old }
{
    match UtcDateTime::try_from(*date_time) {
        Ok(utc) => {
            *out = UtcData::of(&utc);
            OK
        }
        Err(error) => code_of(&error),
    }
}

/// The week day, from Sunday = 0 to 6.
#[unsafe(no_mangle)]
pub extern "C" fn tz_date_time_week_day(date_time: &DateTime) -> u8
    ensures { pos result ≡ week_day_of (day_of date_time.now.fields) }
{
    date_time.week_day()
}

/// Days since January 1st, from 0 to 365.
#[unsafe(no_mangle)]
pub extern "C" fn tz_date_time_year_day(date_time: &DateTime) -> u16
    ensures { pos result ≡ day_of date_time.now.fields -ℤ first_day date_time.now.fields.year }
{
    date_time.year_day()
}

/// The date time of UTC with the fields.
#[unsafe(no_mangle)]
pub extern "C" fn tz_utc_new(fields: &Fields, out: &mut UtcData) -> u32
    ensures answer { IsAnswer result (IsUtcDataOf (λ d. d ≡ fields.now) out.new)
        (IsUtcFault fields.now) }
    ensures kept { result ≢ 0 → out.new ≡ out.old }
{
    match UtcDateTime::new(
        fields.year,
        fields.month,
        fields.month_day,
        fields.hour,
        fields.minute,
        fields.second,
        fields.nanoseconds,
    ) {
        Ok(date_time) => {
            *out = UtcData::of(&date_time);
            OK
        }
        Err(error) => code_of(&error),
    }
}

/// The date time of UTC at an instant.
#[unsafe(no_mangle)]
pub extern "C" fn tz_utc_from_timespec(unix_time: i64, nanoseconds: u32, out: &mut UtcData) -> u32
    ensures answer { IsAnswer result (IsUtcDataOf (IsCivil unix_time nanoseconds) out.new)
        (IsShowFault unix_time nanoseconds) }
    ensures kept { result ≢ 0 → out.new ≡ out.old }
{
    match UtcDateTime::from_timespec(unix_time, nanoseconds) {
        Ok(date_time) => {
            *out = UtcData::of(&date_time);
            OK
        }
        Err(error) => code_of(&error),
    }
}

/// The date time of UTC a duration later.
#[unsafe(no_mangle)]
pub extern "C" fn tz_utc_add(
    utc: &UtcDateTime,
    seconds: u64,
    nanoseconds: u32,
    out: &mut UtcData,
) -> u32
    ensures answer { let total = utc_total utc.now +ℤ pos (1000000000 * seconds + nanoseconds) in
        IsAnswer result (IsUtcDataOf (IsUtcAt total) out.new) (IsMoveFault total nanoseconds) }
    ensures part { result ≡ 0 → nanoseconds < 1000000000 }
    ensures kept { result ≢ 0 → out.new ≡ out.old }
{
    if nanoseconds >= NANOSECONDS_PER_SECOND {
        return INVALID_NANOSECONDS;
    }
    match utc.checked_add(Duration::new(seconds, nanoseconds)) {
        Some(date_time) => {
            *out = UtcData::of(&date_time);
            OK
        }
        None => OUT_OF_RANGE,
    }
}

/// The date time of UTC a duration earlier.
#[unsafe(no_mangle)]
pub extern "C" fn tz_utc_sub(
    utc: &UtcDateTime,
    seconds: u64,
    nanoseconds: u32,
    out: &mut UtcData,
) -> u32
    ensures answer { let total = utc_total utc.now -ℤ pos (1000000000 * seconds + nanoseconds) in
        IsAnswer result (IsUtcDataOf (IsUtcAt total) out.new) (IsMoveFault total nanoseconds) }
    ensures part { result ≡ 0 → nanoseconds < 1000000000 }
    ensures kept { result ≢ 0 → out.new ≡ out.old }
{
    if nanoseconds >= NANOSECONDS_PER_SECOND {
        return INVALID_NANOSECONDS;
    }
    match utc.checked_sub(Duration::new(seconds, nanoseconds)) {
        Some(date_time) => {
            *out = UtcData::of(&date_time);
            OK
        }
        None => OUT_OF_RANGE,
    }
}

/// The week day, from Sunday = 0 to 6.
#[unsafe(no_mangle)]
pub extern "C" fn tz_utc_week_day(utc: &UtcDateTime) -> u8
    ensures { pos result ≡ week_day_of (day_of utc.now) }
{
    utc.week_day()
}

/// Days since January 1st, from 0 to 365.
#[unsafe(no_mangle)]
pub extern "C" fn tz_utc_year_day(utc: &UtcDateTime) -> u16
    ensures { pos result ≡ day_of utc.now -ℤ first_day utc.now.year }
{
    utc.year_day()
}

/// What a text says: a local time, and an offset, which is zero if the text has none.
#[repr(C)]
#[derive(Clone, Copy)]
pub struct ParsedData {
    pub(crate) local: UtcData,
    pub(crate) ut_offset: i32,
    pub(crate) has_offset: bool,
}

impl ParsedData {
    ghost use Rattle.tz_c.specs.DateTimeTexts.{IsParsedData, parsed_of};

    /// The data of a local time, and of an offset if there is one.
    pub(crate) fn new(local: &UtcDateTime, ut_offset: Option<i32>) -> Self
        ensures value { parsed_of result ≡ record { local = local.now; ut_offset = ut_offset } }
        ensures sound { IsParsedData result }
    {
        let local = UtcData::of(local);
        match ut_offset {
            Some(ut_offset) => ParsedData {
                local,
                ut_offset,
                has_offset: true,
            },
            None => ParsedData {
                local,
                ut_offset: 0,
                has_offset: false,
            },
        }
    }

    /// The data of a text that was read.
    fn of(parsed: &ParsedDateTime) -> Self
        ensures value { parsed_of result ≡ parsed.now }
        ensures sound { IsParsedData result }
    {
        ParsedData::new(&parsed.local(), parsed.ut_offset())
    }
}

/// The code of a part that a text does not have.
pub(crate) fn part_code(part: DateTimePart) -> u32
    ensures { result ≡ part_code part }
{
    match part {
        DateTimePart::Year => 128,
        DateTimePart::Hyphen => 129,
        DateTimePart::Month => 130,
        DateTimePart::MonthDay => 131,
        DateTimePart::Separator => 132,
        DateTimePart::Hour => 133,
        DateTimePart::Colon => 134,
        DateTimePart::Minute => 135,
        DateTimePart::Second => 136,
        DateTimePart::Fraction => 137,
        DateTimePart::Offset => 138,
        DateTimePart::OffsetHour => 139,
        DateTimePart::OffsetMinute => 140,
        DateTimePart::OffsetSecond => 141,
        DateTimePart::End => 142,
    }
}

/// The local time and the offset of a text, as `ParsedDateTime::parse` reads it.
#[unsafe(no_mangle)]
pub extern "C" fn tz_date_time_read(text: &[u8], out: &mut ParsedData) -> u32
    ensures answer { IsParsedAnswer text.now result out.new }
    ensures kept { result ≢ 0 → out.new ≡ out.old }
{
    match ParsedDateTime::parse(text) {
        Ok(parsed) => {
            *out = ParsedData::of(&parsed);
            OK
        }
        Err(error) => part_code(error.expected),
    }
}
