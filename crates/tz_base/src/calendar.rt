//! The proleptic Gregorian calendar over all years of 32 bits: leap years, the lengths of months,
//! week days, and days by number and back.
//!
//! Years are moved by cycles of 400 years, so that none is negative. A cycle has 146097 days, which
//! are whole weeks, so a moved year has the months and the week days of the year that it stands
//! for.

ghost use Rattle.std.specs.Prelude.{◌≡◌, Bool, if◌then◌else◌, ◌+◌, ◌-◌, ◌/◌, ◌^◌, ◌<◌, ◌≤◌, true, pos, negsuc, ◌+ℤ◌, ◌-ℤ◌, ◌≤ℤ◌, MatchBool};
ghost use Rattle.tz_base.specs.Cycles.{days_of_years, days_of_march_years as closed_march_days, march_month, march_month_day};
ghost use Rattle.tz_base.specs.Days.{is_leap, month_length, months_length, first_day, day_number, week_day_of, IsDateOf};
ghost use Rattle.tz_base.specs.Fields.{IsMonth, IsReading};

use crate::constants::{
    CUMUL_DAYS_IN_MONTHS_LEAP_YEAR, CUMUL_DAYS_IN_MONTHS_NORMAL_YEAR, DAYS_PER_400_YEARS,
    SECONDS_PER_DAY,
};

/// How many cycles a year is moved by.
const CYCLES: i64 = 5_368_710;

/// How many years the moved years are counted earlier.
const ADDED_YEARS: i64 = 400 * CYCLES;

/// The days from January 1st of the year -2147484000, which is moved to 0, to 1970-01-01.
pub const ADDED_DAYS: i64 = DAYS_PER_400_YEARS * CYCLES + 719_528;

/// The seconds of [`ADDED_DAYS`].
const ADDED_SECONDS: i64 = SECONDS_PER_DAY * ADDED_DAYS;

/// The days from the day before March 1st of the year -2147484000 to 1970-01-01.
const ADDED_MARCH_DAYS: i64 = 784_353_144_339;

/// Days from March 1st to the first of each month: January and February come last.
const DAYS_FROM_MARCH: [u16; 12] = [306, 337, 0, 31, 61, 92, 122, 153, 184, 214, 245, 275];

/// The year, counted from a multiple of 400 years before all years of an `i32`, so that none is
/// negative.
pub const fn moved_year(year: i32) -> u64
    ensures value { pos result ≡ year +ℤ pos 2147484000 }
    ensures bound { (352 ≤ result) × (result ≤ 4294967647) }
{
    (year as i64 + ADDED_YEARS) as u64
}

/// The year that a moved year stands for.
pub const fn year_of_moved(years: u64) -> i32
    requires { (352 ≤ years) × (years ≤ 4294967647) }
    ensures { result +ℤ pos 2147484000 ≡ pos years }
{
    (years as i64 - ADDED_YEARS) as i32
}

/// Seconds from 1970-01-01 00:00:00 on, counted from January 1st of the year -2147484000 instead.
pub const fn moved_seconds(seconds: i64) -> u64
    requires { IsReading seconds }
    ensures { pos result ≡ seconds +ℤ pos 67768111675987200 }
{
    (seconds + ADDED_SECONDS) as u64
}

/// Whether the year is leap: divisible by 4 but not by 100, or divisible by 400.
pub const fn is_leap_year(year: i32) -> bool
    ensures { result ≡ is_leap year }
{
    is_moved_year_leap(moved_year(year))
}

/// Whether a moved year is leap. One that is divisible by 100 is divisible by 400 exactly if it is
/// by 16.
pub const fn is_moved_year_leap(years: u64) -> bool
    requires { years ≤ 4294967647 }
    ensures { result ≡ is_leap (pos years) }
{
    if 100 * centuries_before(years) == years {
        years % 16 == 0
    } else {
        years % 4 == 0
    }
}

/// How many years before a moved year are divisible by 100. A multiplication and a shift stand for
/// the division.
const fn centuries_before(years: u64) -> u64
    requires { years ≤ 4294967647 }
    ensures { result ≡ (years + 99) / 100 }
{
    1_374_389_535 * (years + 99) / 137_438_953_472
}

/// How many days a month has in a leap year, or in a year of 365 days.
#[tactic(auto, unfolding(crate::specs::Days::month_length))]
pub const fn days_of_month(leap: bool, month: u8) -> u8
    requires { IsMonth month }
    ensures { result ≡ month_length leap month }
{
    match month {
        2 => { if leap { 29 } else { 28 } }
        4 | 6 | 9 | 11 => 30,
        _ => 31,
    }
}

/// How many days the month of a year has.
pub const fn days_in_month(year: i32, month: u8) -> u8
    requires { IsMonth month }
    ensures { result ≡ month_length (is_leap year) month }
{
    days_of_month(is_leap_year(year), month)
}

/// Whether the month of a year has the day; a day up to the 28th is not looked up.
pub(crate) const fn has_month_day(year: i32, month: u8, month_day: u8) -> bool
    requires { IsMonth month }
    ensures { MatchBool result (month_day ≤ month_length (is_leap year) month)
        (month_length (is_leap year) month < month_day) }
{
    if month_day <= 28 {
        return true;
    }
    month_day <= days_in_month(year, month)
}

/// The number of January 1st of the year, where 1970-01-01 has the number 0.
pub const fn first_day_of_year(year: i32) -> i64
    ensures value { result ≡ first_day year }
    ensures bound { (negsuc 784353015832 ≤ℤ result) × (result ≤ℤ pos 784351576412) }
{
    days_before_moved_year(moved_year(year)) as i64 - ADDED_DAYS
}

/// The days before a moved year, from January 1st of the year -2147484000 on.
pub const fn days_before_moved_year(years: u64) -> u64
    requires { years ≤ 4294967647 }
    ensures value { result ≡ days_of_years years }
    ensures bound { result < 2 ^ 42 }
{
    (1461 * years + 3) / 4 - 3 * centuries_before(years) / 4
}

/// How many days of a leap year, or of a year of 365 days, come before a month.
pub const fn days_before_month(leap: bool, month: u8) -> u16
    requires { IsMonth month }
    ensures value { result ≡ months_length leap (month - 1) }
    ensures bound { result ≤ 335 }
{
    let index = month as usize - 1;
    if leap {
        CUMUL_DAYS_IN_MONTHS_LEAP_YEAR[index] as u16
    } else {
        CUMUL_DAYS_IN_MONTHS_NORMAL_YEAR[index] as u16
    }
}

/// The days from March 1st to the first of a month.
const fn days_from_march(month: u8) -> u64
    requires { IsMonth month }
    ensures early { month < 3 → (leap : Bool) → result ≡ 306 + months_length leap (month - 1) }
    ensures late { 3 ≤ month → (leap : Bool) → result + (if leap then 60 else 59)
        ≡ months_length leap (month - 1) }
    ensures bound { result ≤ 337 }
{
    let index = month as usize - 1;
    DAYS_FROM_MARCH[index] as u64
}

/// The year, moved as by `moved_year`, whose March 1st is the last one up to the month: the year
/// itself from March on, and the one before in January and February.
const fn moved_march_year(year: i32, month: u8) -> u64
    ensures early { month < 3 → pos result +ℤ pos 1 ≡ year +ℤ pos 2147484000 }
    ensures late { 3 ≤ month → pos result ≡ year +ℤ pos 2147484000 }
    ensures bound { result ≤ 4294967647 }
{
    moved_year(year) - (month < 3) as u64
}

/// The days of a number of years, the first of which begins on March 1st of a year that 400
/// divides.
///
/// A multiplication and a shift stand for a division by 100.
#[tactic(auto, unfolding(crate::specs::Cycles::days_of_march_years))]
const fn days_of_march_years(years: u64) -> u64
    requires { years ≤ 4294967647 }
    ensures value { result ≡ closed_march_days years }
    ensures bound { result < 2 ^ 42 }
{
    let centuries = 1_374_389_535 * years / 137_438_953_472;
    1461 * years / 4 - centuries + centuries / 4
}

/// The number of the day, where 1970-01-01 has the number 0. A day past the end of its month counts
/// on.
pub const fn days_since_unix_epoch(year: i32, month: u8, month_day: u8) -> i64
    requires month { IsMonth month }
    requires month_day { 1 ≤ month_day }
    ensures value { result ≡ day_number year month month_day }
    ensures bound { (negsuc 784353015832 ≤ℤ result) × (result ≤ℤ pos 784351577001) }
{
    let days_before = days_of_march_years(moved_march_year(year, month)) + days_from_march(month);
    (days_before + month_day as u64) as i64 - ADDED_MARCH_DAYS
}

/// The week day of a day by its number, from Sunday = 0.
#[tactic(auto, unfolding(crate::specs::Days::week_day_of))]
pub const fn week_day_of_day(day: i64) -> u8
    requires { (negsuc (2 ^ 62) ≤ℤ day) × (day ≤ℤ pos (2 ^ 62)) }
    ensures value { pos result ≡ week_day_of day }
    ensures bound { result < 7 }
{
    (day + 4).rem_euclid(7) as u8
}

/// The year, of those that begin on March 1st, in which a day lies, and the day's place in it, from
/// 0. The given day and the year are counted from March 1st of a year that 400 divides.
const fn march_year(day: u64) -> (u64, u64)
    requires { day < 2 ^ 42 }
    ensures value { closed_march_days result.0 + result.1 ≡ day }
    ensures bound { (result.0 < 2 ^ 35) × (result.1 ≤ 365) }
    ensures leap { result.1 ≡ 365 → is_leap (pos (result.0 + 1)) ≡ true }
{
    let quarters = 4 * day + 3;
    let century = quarters / 146_097;
    let quarters_of_century = 4 * (quarters % 146_097 / 4) + 3;
    let year = quarters_of_century / 1461;
    (100 * century + year, quarters_of_century % 1461 / 4)
}

/// The month of a day of a year that begins on March 1st, from 3 to 14, and the day of that month,
/// from 0.
#[tactic(auto, unfolding(crate::specs::Cycles::march_month, crate::specs::Cycles::march_month_day))]
const fn month_of_march_day(day: u32) -> (u8, u8)
    requires { day ≤ 365 }
    ensures month { result.0 ≡ march_month day }
    ensures day { result.1 ≡ march_month_day day }
    ensures before_january { day < 306 → result.0 ≤ 12 }
    ensures from_january { 306 ≤ day → 13 ≤ result.0 }
    ensures bound { result.1 ≤ 30 }
{
    let parts = 2141 * day + 197_913;
    ((parts / 65_536) as u8, (parts % 65_536 / 2141) as u8)
}

/// The year, the month and the day of the month of a day that is counted from January 1st of the
/// year -2147484000.
pub(crate) const fn date_of_day(day: u64) -> (i32, u8, u8)
    requires { (128565 ≤ day) × (day ≤ 1568704721174) }
    ensures { IsDateOf (pos day -ℤ pos 784353144398) result.0 result.1 result.2 }
{
    // In that year, which is leap, March 1st comes 60 days after January 1st. In any year, the next
    // January 1st comes 306 days after March 1st.
    let (march_year, day_of_year) = march_year(day - 60);
    let (month, month_day) = month_of_march_day(day_of_year as u32);
    if day_of_year < 306 {
        (year_of_moved(march_year), month, month_day + 1)
    } else {
        (year_of_moved(march_year + 1), month - 12, month_day + 1)
    }
}
