//! Dates: when they begin in a zone, months later, and week dates.

ghost use Rattle.tz_base.specs.declared.error.TzError.TheVariants as faults;
ghost use Rattle.std.specs.Prelude.{◌≡◌, ◌≢◌, IfOk, IfErr, OnOk};
ghost use Rattle.tz_civil.specs.Dates.{Date, IsDate, IsDateFault};
ghost use Rattle.tz_civil.specs.Steps.{IsMonthsLater};
ghost use Rattle.tz_c.specs.Codes.{IsAnswer};
ghost use Rattle.tz_c.specs.Dates.{HasWeekDate, IsMonthsFault, IsStartAnswer, IsWeekDateFault, date_given};
ghost use Rattle.tz_c.specs.ZoneOfData.{zone_of_data};

use crate::codes::{NO_DATE_TIME, OK, OUT_OF_RANGE, code_of};
use crate::zone_data::TzZone;
use tz_base::error::TzError;
use tz_civil::inner::{first_of_day, parts_of};
use tz_civil::{Date, WeekDate};

/// A date as C passes it: calls check it.
#[repr(C)]
#[derive(Clone, Copy)]
pub struct DateData {
    year: i32,
    month: u8,
    month_day: u8,
}

/// The year, month and day of a date, laid out for C.
fn written(date: Date) -> DateData
    ensures value { date_given result ≡ date }
    ensures date { IsDate date }
{
    let (year, month, month_day) = parts_of(date);
    DateData {
        year,
        month,
        month_day,
    }
}

/// The date with these parts, as `Date::new` makes it.
fn checked(date: &DateData) -> Result<Date, TzError>
    ensures value { IfOk result (λ d. d ≡ date_given date.now) }
    ensures ok { OnOk result (IsDate (date_given date.now)) }
    ensures err { IfErr result (IsDateFault (date_given date.now)) }
{
    Date::new(date.year, date.month, date.month_day)
}

/// The least instant at which the zone's clock shows a date, at which `TimeZoneRef::start_of_day`
/// returns its date time.
#[unsafe(no_mangle)]
pub extern "C" fn tz_zone_start_of_day(
    zone: &TzZone<'_>,
    date: &DateData,
    unix_time: &mut i64,
) -> u32
    ensures answer { IsStartAnswer (zone_of_data zone.now) (date_given date.now) result
        unix_time.new }
    ensures kept { result ≢ 0 → unix_time.new ≡ unix_time.old }
{
    let date = match checked(date) {
        Ok(date) => date,
        Err(error) => return code_of(&error),
    };
    match first_of_day(&zone.as_zone_data(), date.day_number()) {
        Ok(Some(start)) => {
            *unix_time = start.unix_time;
            OK
        }
        Ok(None) => NO_DATE_TIME,
        Err(error) => code_of(&error),
    }
}

/// The date this many months later, or earlier if they are negative, as `Date::checked_add_months`
/// finds it.
#[unsafe(no_mangle)]
pub extern "C" fn tz_date_add_months(date: &DateData, months: i32, out: &mut DateData) -> u32
    ensures answer { let d = date_given date.now in
        IsAnswer result (IsDate d × IsMonthsLater d months (date_given out.new))
        (IsMonthsFault d months) }
    ensures kept { result ≢ 0 → out.new ≡ out.old }
{
    let date = match checked(date) {
        Ok(date) => date,
        Err(error) => return code_of(&error),
    };
    match date.checked_add_months(months) {
        Some(later) => {
            *out = written(later);
            OK
        }
        None => OUT_OF_RANGE,
    }
}

/// The week date of a date, as `Date::week_date` finds it.
#[unsafe(no_mangle)]
pub extern "C" fn tz_date_week_date(date: &DateData, out: &mut WeekDate) -> u32
    ensures answer { IsAnswer result (HasWeekDate (date_given date.now) out.new)
        (IsWeekDateFault (date_given date.now)) }
    ensures kept { result ≢ 0 → out.new ≡ out.old }
{
    let date = match checked(date) {
        Ok(date) => date,
        Err(error) => return code_of(&error),
    };
    match date.week_date() {
        Some(week_date) => {
            *out = week_date;
            OK
        }
        None => OUT_OF_RANGE,
    }
}

/// The date with a week date, as `Date::from_week_date` finds it.
#[unsafe(no_mangle)]
pub extern "C" fn tz_date_from_week_date(week_date: &WeekDate, out: &mut DateData) -> u32
    ensures answer { IsAnswer result (HasWeekDate (date_given out.new) week_date.now)
        (λ e. (e ≡ faults.OutOfRange) × ((d : Date) → ¬ HasWeekDate d week_date.now)) }
    ensures kept { result ≢ 0 → out.new ≡ out.old }
{
    match Date::from_week_date(*week_date) {
        Some(date) => {
            *out = written(date);
            OK
        }
        None => OUT_OF_RANGE,
    }
}
