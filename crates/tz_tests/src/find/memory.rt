//! Searches and copies with each growth refused in turn.

use super::*;
use crate::expect::expect_eq;
use tz_samples::refusing::Refusing;

/// Of this many allocations that are passed on, with how few a call is refused, if it is.
const MOST: u64 = 12;

/// What `find` finds where a number of allocations are passed on, if there is memory, and how many
/// are refused.
fn found_with(
    alloc: Global,
    left: u64,
    zone: TimeZoneRef<'_>,
    reading: Reading,
) -> Result<(Option<Vec<Summary>>, u64), TzError> {
    let heap = Refusing::new(alloc, left);
    match find(&heap, zone, reading) {
        Ok(list) => Ok((Some(summaries(alloc, list)?), heap.refused())),
        Err(TzError::Memory(_)) => Ok((None, heap.refused())),
        Err(error) => Err(error),
    }
}

/// `find` is refused memory exactly where a growth is refused, and else it finds these; how many
/// growths it has.
fn growths(
    rt: &impl Abort,
    alloc: Global,
    zone: TimeZoneRef<'_>,
    reading: Reading,
    expected: &[Summary],
) -> Result<u64, TzError> {
    let mut growths = 0u64;
    for left in 0..MOST {
        let (found, refused) = found_with(alloc, left, zone, reading)?;
        expect_eq(rt, &refused, &u64::from(found.is_none()));
        match found {
            Some(found) => expect_eq(rt, &found.as_slice(), &expected),
            None => growths = left + 1,
        }
    }
    Ok(growths)
}

/// `find` takes memory, and finds these once all its growths are granted.
fn expect_growths(
    rt: &impl Abort,
    alloc: Global,
    zone: TimeZoneRef<'_>,
    reading: Reading,
    expected: &[Summary],
) -> Result<(), TzError> {
    let growths = growths(rt, alloc, zone, reading, expected)?;
    assert!(rt; growths > 0);
    assert!(rt; growths < MOST);
    Ok(())
}

#[test]
fn an_hour_twice_with_each_growth_refused(rt: HostRuntime) -> Result<(), Fail> {
    static FOUND: [Summary; 2] = [
        (utc!(2000-10-29 00:30:00), 7200, 7200),
        (utc!(2000-10-29 01:30:00), 3600, 3600),
    ];
    let rule = central_europe()?;
    let types = [*rule.std(), *rule.dst()];
    let rule = Some(TransitionRule::Alternate(rule));
    let zone = TimeZoneRef::new(&[], &types, &[], &rule)?;
    expect_growths(&rt, rt.alloc(), zone, (2000, 10, 29, 2, 30, 0), &FOUND)?;
    Ok(())
}

#[test]
fn jumps_that_cross_with_each_growth_refused(rt: HostRuntime) -> Result<(), Fail> {
    let zone = zone_of(rt.alloc(), &CROSSING)?;
    expect_growths(
        &rt,
        rt.alloc(),
        zone.as_ref(),
        (1970, 1, 1, 2, 30, 0),
        &CROSSED,
    )?;
    Ok(())
}

/// A list that is found empty takes no memory.
#[test]
fn nothing_is_found_without_memory(rt: HostRuntime) -> Result<(), Fail> {
    let zone = zone_of(rt.alloc(), &CROSSING)?;
    let growths = growths(&rt, rt.alloc(), zone.as_ref(), (1970, 1, 1, 5, 0, 0), &[])?;
    expect_eq(&rt, &growths, &0);
    Ok(())
}

/// What a list holds, and whether its copy is equal to it, if there is memory for one.
type Copied = (Vec<Summary>, Option<bool>);

fn copied<A: Allocator + Copy>(
    alloc: Global,
    list: FoundDateTimeList<A>,
) -> Result<Copied, TzError> {
    let is_equal = match list.try_clone() {
        Ok(copy) => Some(copy == list),
        Err(TzError::Memory(_)) => None,
        Err(error) => return Err(error),
    };
    Ok((summaries(alloc, list)?, is_equal))
}

/// What came of a copy where growths are refused.
#[derive(Clone, Copy, Debug, PartialEq, Eq)]
enum Outcome {
    /// There was no memory for the list.
    NotFound,
    /// There was none for the copy.
    NotCopied,
    Copied,
}

/// The jumps that cross, found in their zone and copied where a number of allocations are passed
/// on; and how many allocations were refused and not freed.
fn copied_with(
    rt: &impl Abort,
    alloc: Global,
    zone: TimeZoneRef<'_>,
    left: u64,
) -> Result<(Outcome, u64, u64), TzError> {
    let heap = Refusing::new(alloc, left);
    let Ok(list) = find(&heap, zone, (1970, 1, 1, 2, 30, 0)) else {
        return Ok((Outcome::NotFound, heap.refused(), heap.held()));
    };
    let (kept, is_equal) = copied(alloc, list)?;
    expect_eq(rt, &kept.as_slice(), &CROSSED.as_slice());
    assert!(rt; is_equal != Some(false));
    let outcome = if is_equal.is_some() {
        Outcome::Copied
    } else {
        Outcome::NotCopied
    };
    Ok((outcome, heap.refused(), heap.held()))
}

/// In the zone with jumps that cross.
fn expect_copies(rt: &impl Abort, alloc: Global, zone: TimeZoneRef<'_>) -> Result<(), TzError> {
    let mut last = Outcome::NotFound;
    let mut refusals = 0u64;
    for left in 0..MOST {
        let (outcome, refused, held) = copied_with(rt, alloc, zone, left)?;
        expect_eq(rt, &refused, &u64::from(outcome != Outcome::Copied));
        expect_eq(rt, &held, &0);
        if outcome == Outcome::NotCopied {
            refusals = left + 1;
        }
        last = outcome;
    }
    assert!(rt; refusals > 1);
    expect_eq(rt, &last, &Outcome::Copied);
    Ok(())
}

#[test]
fn a_copy_with_each_growth_refused(rt: HostRuntime) -> Result<(), Fail> {
    let zone = zone_of(rt.alloc(), &CROSSING)?;
    expect_copies(&rt, rt.alloc(), zone.as_ref())?;
    Ok(())
}

/// A zone whose clocks are set back by an hour at each hour from 1970 on, so that they show 00:30
/// forty times.
fn forty_times(alloc: Global) -> Result<TimeZone, TzError> {
    let mut transitions = Vec::new(alloc);
    let mut types = Vec::new(alloc);
    for hour in 0..40u8 {
        transitions.push(Transition::new(i64::from(hour) * 3600, usize::from(hour)))?;
        types.push(LocalTimeType::with_ut_offset(i32::from(hour) * -3600)?)?;
    }
    transitions.push(Transition::new(144_000, 0))?;
    TimeZone::new(transitions, types, Vec::new(alloc), None)
}

/// A long list is copied, too, if there is memory.
#[test]
fn a_copy_of_forty_entries(rt: HostRuntime) -> Result<(), Fail> {
    let zone = forty_times(rt.alloc())?;
    let list = find(rt.alloc(), zone.as_ref(), (1970, 1, 1, 0, 30, 0))?;
    let (kept, is_equal) = copied(rt.alloc(), list)?;
    expect_eq(&rt, &kept.len(), &40);
    expect_eq(&rt, &is_equal, &Some(true));
    Ok(())
}
