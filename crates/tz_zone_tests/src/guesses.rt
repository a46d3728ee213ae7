//! Lookups among as many transitions as a place is guessed in, and beside these numbers.

use crate::clocks::three_types;
use crate::expect::expect_eq_at;
use std::alloc::{AllocError, Allocator, Global};
use std::process::Abort;
use std::test::Fail;
use tz_base::error::TzError;
use tz_zone::timezone::{LeapSecond, LocalTimeType, TimeZoneRef, Transition};

const DAY: i64 = 86_400;

/// When the first transition comes, and two distances that follow in turn.
type Distances = (i64, i64, i64);

/// The least and the greatest number at which a place is guessed, that of a block, and the numbers
/// beside them.
static COUNTS: [u32; 15] = [0, 1, 2, 3, 4, 5, 8, 9, 127, 128, 129, 130, 257, 1024, 1025];

static DISTANCES: [Distances; 7] = [
    // All a second apart: the guess lies near the end.
    (1_000_000, 1, 1),
    // A half year apart, as the guess has it.
    (-1_000_000_000, 15_778_476, 15_778_476),
    // Two in each year, as in New York.
    (1_000_000, 127 * DAY, 238 * DAY),
    // Two in each lunar year, as in Casablanca.
    (1_000_000, 35 * DAY, 319 * DAY),
    // Ten years apart: the guess lies before the first place.
    (1_000_000, 3652 * DAY, 3653 * DAY),
    // From the least time on.
    (i64::MIN + 1, 127 * DAY, 238 * DAY),
    // Up to the greatest time.
    (i64::MAX - 300_000_000, 1, 2),
];

/// Few transitions over all times: the distance to the last one does not fit an `i64`.
static OVER_ALL_TIMES: Distances = (
    -9_000_000_000_000_000_000,
    2_000_000_000_000_000_000,
    2_200_000_000_000_000_000,
);

/// Transitions to types 1, 2 and 0 in turn.
fn transitions_at<A: Allocator + Copy>(
    alloc: A,
    count: u32,
    distances: &Distances,
) -> Result<Vec<Transition, A>, AllocError> {
    let mut transitions = Vec::new(alloc);
    let (mut unix_leap_time, short, long) = *distances;
    for i in 0..count {
        transitions.push(Transition::new(unix_leap_time, (i as usize + 1) % 3))?;
        let distance = if i % 2 == 0 { short } else { long };
        unix_leap_time = unix_leap_time.saturating_add(distance);
    }
    Ok(transitions)
}

/// A lookup and a counted one give this type.
fn expect_type(
    rt: &impl Abort,
    zone: &TimeZoneRef<'_>,
    unix_time: i64,
    wanted: Option<&LocalTimeType>,
) {
    let found = zone.find_local_time_type(unix_time).ok();
    expect_eq_at(rt, &unix_time, &found, &wanted);
    let counted = zone.find_local_time_type_counted(unix_time).0.ok();
    expect_eq_at(rt, &unix_time, &counted, &wanted);
}

/// Up to the last transition, each type begins at its transition and ends right before the next.
fn expect_each_place(rt: &impl Abort, zone: &TimeZoneRef<'_>, correction: i64) {
    let mut since = i64::MIN;
    let mut index = 0;
    for transition in zone.transitions() {
        let until = transition.unix_leap_time().saturating_sub(correction);
        let last = until.saturating_sub(1);
        let wanted = zone.local_time_types().get(index);
        for unix_time in [since, since.saturating_add(1).min(last), last] {
            expect_type(rt, zone, unix_time, wanted);
        }
        since = until;
        index = transition.local_time_type_index();
    }
}

/// A zone of so many transitions has the type of each place.
fn expect_places(
    rt: &impl Abort,
    alloc: Global,
    count: u32,
    distances: &Distances,
) -> Result<(), TzError> {
    let types = three_types()?;
    let transitions = transitions_at(alloc, count, distances)?;
    let zone = TimeZoneRef::new(&transitions, &types, &[], &None)?;
    expect_each_place(rt, &zone, 0);
    Ok(())
}

#[test]
fn at_and_beside_each_transition(rt: HostRuntime) -> Result<(), Fail> {
    for distances in &DISTANCES {
        for count in &COUNTS {
            expect_places(&rt, rt.alloc(), *count, distances)?;
        }
    }
    Ok(())
}

#[test]
fn transitions_over_all_times(rt: HostRuntime) -> Result<(), Fail> {
    expect_places(&rt, rt.alloc(), 8, &OVER_ALL_TIMES)?;
    expect_places(&rt, rt.alloc(), 9, &OVER_ALL_TIMES)?;
    Ok(())
}

#[test]
fn with_a_leap_second(rt: HostRuntime) -> Result<(), Fail> {
    let types = three_types()?;
    let leap_seconds = [LeapSecond::new(0, 1)];
    for count in &COUNTS {
        let transitions = transitions_at(rt.alloc(), *count, &DISTANCES[2])?;
        let zone = TimeZoneRef::new(&transitions, &types, &leap_seconds, &None)?;
        expect_each_place(&rt, &zone, 1);
    }
    Ok(())
}
