//! Zones and their clocks: lookups by rules of two types, which last transitions such a rule agrees
//! with, and how long types are borrowed.

use crate::expect::{expect_eq, expect_eq_at};
use std::test::Fail;
use tz_base::error::TimeZoneError::InconsistentExtraRule;
use tz_base::error::TzError;
use tz_samples::faults::{Fault, named};
use tz_samples::tz_strings::extended_rule;
use tz_samples::utc;
use tz_zone::timezone::{LocalTimeType, TimeZoneRef, Transition, TransitionRule};

/// Central European Time, and other rules whose starts and ends are at given times.
const CENTRAL_EUROPE: &str = "CET-1CEST,M3.5.0,M10.5.0/3";

/// The offset and the daylight flag that a zone without transitions has at an instant.
fn found_at(
    types: &[LocalTimeType],
    rule: &Option<TransitionRule>,
    unix_time: i64,
) -> Result<(i32, bool), TzError> {
    let zone = TimeZoneRef::new(&[], types, &[], rule)?;
    let found = zone.find_local_time_type(unix_time)?;
    Ok((found.ut_offset(), found.is_dst()))
}

#[test]
fn the_zone_has_the_type_of_its_rule(rt: HostRuntime) -> Result<(), Fail> {
    const LEAP_DAY: &str = "STD0DST0,59/0,J60/0";
    const ALL_YEAR: &str = "EST5EDT,0/0,J365/25";
    const DUBLIN: &str = "STD-1DST0,M10.5.0/2,M3.5.0/1";
    const NUUK: &str = "STD3DST2,M3.5.0/-2,M10.5.0/-1";
    const SHORT_GAP: &str = "STD0DST0,100/0,101/-24:01:40";
    const AUCKLAND: &str = "NZST-12NZDT,M10.1.0,M3.3.0";
    static ROWS: [(&str, i64, i32, bool); 24] = [
        (LEAP_DAY, utc!(2000-02-29 00:00:00), 0, true),
        (LEAP_DAY, utc!(2000-03-01 00:00:00), 0, false),
        (LEAP_DAY, utc!(2001-03-01 00:00:00), 0, false),
        (ALL_YEAR, utc!(2000-01-01 04:30:00), -14_400, true),
        (ALL_YEAR, utc!(2000-01-01 04:59:59), -14_400, true),
        (ALL_YEAR, utc!(2000-01-01 05:00:00), -14_400, true),
        (
            "STD0DST,J1/0,J365/48",
            utc!(2000-12-31 23:30:00),
            3600,
            true,
        ),
        ("STD0DST0,J60/0,59/0", utc!(2001-01-01 00:00:00), 0, true),
        (DUBLIN, utc!(2000-03-26 00:59:59), 0, true),
        (DUBLIN, utc!(2000-03-26 01:00:00), 3600, false),
        (DUBLIN, utc!(2000-10-29 00:59:59), 3600, false),
        (DUBLIN, utc!(2000-10-29 01:00:00), 0, true),
        (NUUK, utc!(2000-03-26 00:59:59), -10_800, false),
        (NUUK, utc!(2000-03-26 01:00:00), -7200, true),
        (NUUK, utc!(2000-10-29 00:59:59), -7200, true),
        (NUUK, utc!(2000-10-29 01:00:00), -10_800, false),
        (SHORT_GAP, utc!(1970-04-10 23:58:19), 0, true),
        (SHORT_GAP, utc!(1970-04-10 23:58:20), 0, false),
        (SHORT_GAP, utc!(1970-04-10 23:59:59), 0, false),
        (SHORT_GAP, utc!(1970-04-11 00:00:00), 0, true),
        (AUCKLAND, utc!(2000-03-18 12:59:59), 46_800, true),
        (AUCKLAND, utc!(2000-03-18 13:00:00), 43_200, false),
        (AUCKLAND, utc!(2000-09-30 13:59:59), 43_200, false),
        (AUCKLAND, utc!(2000-09-30 14:00:00), 46_800, true),
    ];
    let types = [LocalTimeType::utc()];
    for (text, unix_time, ut_offset, is_dst) in &ROWS {
        let rule = extended_rule(rt.alloc(), text)?;
        let found = found_at(&types, &rule, *unix_time).ok();
        expect_eq_at(
            &rt,
            &(text, unix_time),
            &found,
            &Some((*ut_offset, *is_dst)),
        );
    }
    Ok(())
}

#[test]
fn no_rule_of_two_types_answers_at_the_ends(rt: HostRuntime) -> Result<(), Fail> {
    static TEXTS: [&str; 3] = [CENTRAL_EUROPE, "EST5EDT,0/0,J365/25", "STD0DST0,J60/0,59/0"];
    let types = [LocalTimeType::utc()];
    for text in &TEXTS {
        let rule = extended_rule(rt.alloc(), text)?;
        for unix_time in [i64::MIN, i64::MAX] {
            let refused = found_at(&types, &rule, unix_time).err().map(named);
            expect_eq_at(&rt, text, &refused, &Some(Fault::OutOfRange));
        }
    }
    Ok(())
}

#[test]
fn the_last_transition_agrees_with_the_rule(rt: HostRuntime) -> Result<(), Fail> {
    const INCONSISTENT: Option<Fault> = Some(Fault::Zone(InconsistentExtraRule));
    static ROWS: [(i64, usize, Option<Fault>); 10] = [
        (utc!(2000-03-26 00:59:59), 0, None),
        (utc!(2000-03-26 00:59:59), 1, INCONSISTENT),
        (utc!(2000-03-26 01:00:00), 0, INCONSISTENT),
        (utc!(2000-03-26 01:00:00), 1, None),
        (utc!(2000-03-26 01:00:00), 2, INCONSISTENT),
        (utc!(2000-10-29 00:59:59), 1, None),
        (utc!(2000-10-29 01:00:00), 0, None),
        (utc!(2000-10-29 01:00:00), 1, INCONSISTENT),
        (i64::MAX, 0, Some(Fault::OutOfRange)),
        (i64::MIN, 0, Some(Fault::OutOfRange)),
    ];
    let rule = extended_rule(rt.alloc(), CENTRAL_EUROPE)?;
    let types = [
        LocalTimeType::new(3600, false, Some(b"CET")).map_err(|_| "no type")?,
        LocalTimeType::new(7200, true, Some(b"CEST")).map_err(|_| "no type")?,
        LocalTimeType::new(7200, false, Some(b"CEST")).map_err(|_| "no type")?,
    ];
    for (unix_leap_time, index, expected) in &ROWS {
        let transitions = [Transition::new(*unix_leap_time, *index)];
        let zone = TimeZoneRef::new(&transitions, &types, &[], &rule);
        let fault = zone.err().map(named);
        expect_eq_at(&rt, unix_leap_time, &fault, expected);
    }
    Ok(())
}

/// The types before a transition at 0 and from there on, of a zone that is gone when they are
/// returned.
fn types_around_zero<'a>(
    transitions: &'a [Transition],
    local_time_types: &'a [LocalTimeType],
    extra_rule: &'a Option<TransitionRule>,
) -> Result<(&'a LocalTimeType, &'a LocalTimeType), TzError> {
    let zone = TimeZoneRef::new(transitions, local_time_types, &[], extra_rule)?;
    Ok((
        zone.find_local_time_type(-1)?,
        zone.find_local_time_type(0)?,
    ))
}

/// A type is borrowed from the zone's list, so it can outlive the zone.
#[test]
fn types_outlive_the_zone(rt: HostRuntime) -> Result<(), Fail> {
    let later = LocalTimeType::with_ut_offset(3600)?;
    let transitions = [Transition::new(0, 1)];
    let local_time_types = [LocalTimeType::utc(), later];
    let extra_rule = Some(TransitionRule::Fixed(later));
    let types = types_around_zero(&transitions, &local_time_types, &extra_rule)?;
    expect_eq(&rt, &types, &(&LocalTimeType::utc(), &later));
    Ok(())
}
