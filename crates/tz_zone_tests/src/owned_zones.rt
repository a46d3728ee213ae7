//! Zones that own their parts: with memory enough, and with each growth refused in turn.

use crate::expect::expect_eq;
use std::alloc::{AllocError, Allocator};
use std::test::Fail;
use tz_base::error::{LocalTimeTypeError, TimeZoneError, TzError};
use tz_samples::refusing::Refusing;
use tz_zone::timezone::{LeapSecond, LocalTimeType, TimeZone, Transition, TransitionRule};

/// Two transitions, two types and a leap second.
fn parts<A: Allocator + Copy>(
    alloc: A,
) -> Result<
    (
        Vec<Transition, A>,
        Vec<LocalTimeType, A>,
        Vec<LeapSecond, A>,
    ),
    TzError,
> {
    let summer = LocalTimeType::new(3600, true, Some(b"BST"))?;
    Ok((
        Vec::from_slice(alloc, &[Transition::new(0, 1), Transition::new(7200, 0)])?,
        Vec::from_slice(alloc, &[LocalTimeType::utc(), summer])?,
        Vec::from_slice(alloc, &[LeapSecond::new(100, 1)])?,
    ))
}

/// The zone of the two transitions, which goes on in UTC.
fn two_transitions<A: Allocator + Copy>(alloc: A) -> Result<TimeZone<A>, TzError> {
    let (transitions, local_time_types, leap_seconds) = parts(alloc)?;
    let extra_rule = Some(TransitionRule::Fixed(LocalTimeType::utc()));
    TimeZone::new(transitions, local_time_types, leap_seconds, extra_rule)
}

/// Whether a call was refused for an allocation failure.
fn is_memory<T>(answer: &Result<T, TzError>) -> bool {
    matches!(answer, Err(TzError::Memory(AllocError)))
}

/// What the zone of the two transitions prints after the name of its type.
const PARTS: &str = "{ transitions: [Transition { unix_leap_time: 0, local_time_type_index: 1 }, \
    Transition { unix_leap_time: 7200, local_time_type_index: 0 }], \
    local_time_types: [LocalTimeType { ut_offset: 0, is_dst: false, time_zone_designation: None }, \
    LocalTimeType { ut_offset: 3600, is_dst: true, time_zone_designation: Some(\"BST\") }], \
    leap_seconds: [LeapSecond { unix_leap_time: 100, correction: 1 }], \
    extra_rule: Some(Fixed(LocalTimeType { ut_offset: 0, is_dst: false, time_zone_designation: None })) }";

#[test]
fn zones_print_their_four_parts(rt: HostRuntime) -> Result<(), Fail> {
    let alloc = rt.alloc();
    let zone = two_transitions(alloc)?;
    let owned = format!(in alloc; "{zone:?}")?;
    let borrowed = format!(in alloc; "{:?}", zone.as_ref())?;
    expect_eq(&rt, &owned.strip_prefix("TimeZone "), &Some(PARTS));
    expect_eq(&rt, &borrowed.strip_prefix("TimeZoneRef "), &Some(PARTS));
    Ok(())
}

/// The offset is refused first, whether there is memory or not.
#[test]
fn one_type_with_each_growth_refused(rt: HostRuntime) {
    for left in 0..2u64 {
        let heap = Refusing::new(rt.alloc(), left);
        expect_eq(&rt, &is_memory(&TimeZone::utc(&heap)), &(left == 0));
        expect_eq(&rt, &heap.held(), &0);
        let heap = Refusing::new(rt.alloc(), left);
        expect_eq(&rt, &is_memory(&TimeZone::fixed(&heap, 3600)), &(left == 0));
        expect_eq(&rt, &heap.held(), &0);
        let heap = Refusing::new(rt.alloc(), left);
        assert!(rt;
            matches!(
                TimeZone::fixed(&heap, i32::MIN),
                Err(TzError::LocalTimeType(LocalTimeTypeError::InvalidUtcOffset))
            )
        );
        expect_eq(&rt, &heap.refused(), &0);
    }
}

/// A clone equals its source and takes its source's allocator: one block for each list that is not
/// empty. The source stays as it is.
#[test]
fn a_clone_with_each_growth_refused(rt: HostRuntime) -> Result<(), Fail> {
    let source = two_transitions(rt.alloc())?;
    let mut blocks = 0u64;
    for left in 0..20u64 {
        let heap = Refusing::new(rt.alloc(), left);
        if let Ok(zone) = two_transitions(&heap) {
            let held = heap.held();
            let clone = zone.try_clone();
            assert!(rt; zone.as_ref() == source.as_ref());
            match &clone {
                Ok(clone) => {
                    expect_eq(&rt, &heap.held(), &held.wrapping_mul(2));
                    assert!(rt; *clone == zone);
                    blocks = held;
                }
                Err(_) => {
                    assert!(rt; is_memory(&clone));
                    expect_eq(&rt, &heap.held(), &held);
                    expect_eq(&rt, &heap.refused(), &1);
                }
            }
        }
        expect_eq(&rt, &heap.held(), &0);
    }
    expect_eq(&rt, &blocks, &3);
    Ok(())
}

/// Lists that make no zone are given back to their allocator.
#[test]
fn refused_parts_are_dropped(rt: HostRuntime) -> Result<(), Fail> {
    let heap = Refusing::new(rt.alloc(), u64::MAX);
    let (transitions, local_time_types, leap_seconds) = parts(&heap)?;
    expect_eq(&rt, &heap.held(), &3);
    let extra_rule = Some(TransitionRule::Fixed(LocalTimeType::with_ut_offset(1)?));
    let zone = TimeZone::new(transitions, local_time_types, leap_seconds, extra_rule);
    assert!(rt;
        matches!(
            zone,
            Err(TzError::TimeZone(TimeZoneError::InconsistentExtraRule))
        )
    );
    expect_eq(&rt, &heap.held(), &0);
    Ok(())
}
