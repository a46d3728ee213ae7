//! Leap times and effects around the leap seconds up to 2016, and of a table that begins later.

use crate::expect::expect_eq_at;
use std::process::Abort;
use tz_base::error::TzError;
use tz_samples::instants::LEAP_TIMES;
use tz_samples::utc;
use tz_zone::inner::{effect, unix_time_to_unix_leap_time};
use tz_zone::timezone::{LeapSecond, LocalTimeType, TimeZoneRef};

/// The leap seconds from 1972 to 2016.
fn leap_seconds_to_2016() -> [LeapSecond; 27] {
    let mut leap_seconds = [LeapSecond::new(0, 0); 27];
    for i in 0..27usize {
        leap_seconds[i] = LeapSecond::new(LEAP_TIMES[i], i as i32 + 1);
    }
    leap_seconds
}

/// The leap time of an instant, once the leap seconds are checked.
fn leap_of(leap_seconds: &[LeapSecond], unix_time: i64) -> Result<i64, TzError> {
    let types = [LocalTimeType::utc()];
    let zone = TimeZoneRef::new(&[], &types, leap_seconds, &None)?;
    unix_time_to_unix_leap_time(zone.leap_seconds(), unix_time)
}

/// Where a leap time takes effect, once the leap seconds are checked.
fn effect_of(leap_seconds: &[LeapSecond], unix_leap_time: i64) -> Result<i64, TzError> {
    let types = [LocalTimeType::utc()];
    let zone = TimeZoneRef::new(&[], &types, leap_seconds, &None)?;
    effect(zone.leap_seconds(), unix_leap_time)
}

/// Whether a time is out of range.
fn is_out_of_range(time: Result<i64, TzError>) -> bool {
    matches!(time, Err(TzError::OutOfRange))
}

/// The leap times of instants are these, or out of range where there is none.
fn expect_leap_times(rt: &impl Abort, leap_seconds: &[LeapSecond], rows: &[(i64, Option<i64>)]) {
    for (unix_time, expected) in rows {
        let found = leap_of(leap_seconds, *unix_time);
        if expected.is_some() {
            expect_eq_at(rt, unix_time, &found.ok(), expected);
        } else {
            assert!(rt; is_out_of_range(found), "{unix_time}");
        }
    }
}

/// Leap times take effect at these instants, or out of range where there is none.
fn expect_effects(rt: &impl Abort, leap_seconds: &[LeapSecond], rows: &[(i64, Option<i64>)]) {
    for (unix_leap_time, expected) in rows {
        let found = effect_of(leap_seconds, *unix_leap_time);
        if expected.is_some() {
            expect_eq_at(rt, unix_leap_time, &found.ok(), expected);
        } else {
            assert!(rt; is_out_of_range(found), "{unix_leap_time}");
        }
    }
}

#[test]
fn the_leap_second_of_2005(rt: HostRuntime) {
    const NEW_YEAR: i64 = utc!(2006-01-01 00:00:00);
    static LEAPS: [(i64, Option<i64>); 3] = [
        (NEW_YEAR - 1, Some(NEW_YEAR + 21)),
        (NEW_YEAR, Some(NEW_YEAR + 23)),
        (NEW_YEAR + 1, Some(NEW_YEAR + 24)),
    ];
    static EFFECTS: [(i64, Option<i64>); 4] = [
        (NEW_YEAR + 21, Some(NEW_YEAR - 1)),
        (NEW_YEAR + 22, Some(NEW_YEAR)),
        (NEW_YEAR + 23, Some(NEW_YEAR)),
        (NEW_YEAR + 24, Some(NEW_YEAR + 1)),
    ];
    let leap_seconds = leap_seconds_to_2016();
    expect_leap_times(&rt, &leap_seconds, &LEAPS);
    expect_effects(&rt, &leap_seconds, &EFFECTS);
}

/// Before the start of the table there is no leap time, and its first effect is at the start.
#[test]
fn a_table_that_begins_later(rt: HostRuntime) {
    const NEW_YEAR: i64 = utc!(2017-01-01 00:00:00);
    static LEAPS: [(i64, Option<i64>); 6] = [
        (i64::MIN, None),
        (0, None),
        (NEW_YEAR - 2, None),
        (NEW_YEAR - 1, Some(NEW_YEAR + 26)),
        (NEW_YEAR, Some(NEW_YEAR + 27)),
        (1_700_000_000, Some(1_700_000_000 + 27)),
    ];
    static EFFECTS: [(i64, Option<i64>); 5] = [
        (i64::MIN, None),
        (i64::MIN + 1, Some(NEW_YEAR - 1)),
        (0, Some(NEW_YEAR - 1)),
        (NEW_YEAR + 26, Some(NEW_YEAR - 1)),
        (NEW_YEAR + 27, Some(NEW_YEAR)),
    ];
    let leap_seconds = [
        LeapSecond::new(NEW_YEAR + 26, 27),
        LeapSecond::new(1_700_000_000, 27),
    ];
    expect_leap_times(&rt, &leap_seconds, &LEAPS);
    expect_effects(&rt, &leap_seconds, &EFFECTS);
}
