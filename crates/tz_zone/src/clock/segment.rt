//! Changes of a clock, and segments: spans of time through which it keeps its type.

ghost use Rattle.std.specs.Prelude.{◌≡◌, pos, negsuc, ◌-ℤ◌, ◌<ℤ◌, IfSome, IfNone, MatchOption, ◌≢◌, ◌⊎◌, ℤ, ◌+◌, ◌<◌, ◌≤◌, ◌+ℤ◌, ◌≤ℤ◌, [], length, None, ◌↔◌, IsTrue, option_copied};
ghost use Rattle.tz_zone.specs.Changes.{Change as ChangeParts, change_of, IsChange};
ghost use Rattle.tz_zone.specs.Clock.{IsClock, HasNoType, IsTypeAfter};
ghost use Rattle.tz_zone.specs.Looks.{list_of, looks_of, one_look_more, IsAfterLooks, IsAfterSearch};
ghost use Rattle.tz_zone.specs.Table.{Zone};
ghost use Rattle.tz_rule.specs.LocalTimeType.{LocalTimeType};
ghost use Rattle.tz_zone.specs.LeapTime.{IsBeforeStart, IsPastInstants, IsLeapTimeRefused, IsWideEffect, IsTimeReached};
ghost use Rattle.tz_zone.specs.ClockSegments.{IsReachedAt, IsSegmentAt};
ghost use Rattle.tz_zone.specs.TableChanges.{IsChangeByRule, IsTableStart, IsFar, HasTableEnds};
ghost use Rattle.tz_zone.specs.ValidZone.{AreLeapSeconds};
ghost use Rattle.tz_zone.specs.ZoneOfData.{zone_of_data};

use super::binary_search::position_at;
use super::lookup::{after_table, before, type_of};
use crate::leap::LeapSecond;
use crate::leap::leap_time::{
    effect_of_reached, first_begun, has_begun, last_before, last_instant, last_instant_up_to,
};
use crate::table::{Transition, TransitionView};
use crate::timezone::zone_data::ZoneData;
use tz_rule::timezone::LocalTimeType;

/// A change of the clock of a zone, from one type to another.
#[derive(Clone, Copy, Debug, PartialEq, Eq, Hash)]
pub struct Change<'a> {
    unix_time: i64,
    before: &'a LocalTimeType,
    after: &'a LocalTimeType,
}

impl<'a> Change<'a> {
    ghost use Rattle.tz_zone.specs.Changes.{change_of};

    /// The change with these parts.
    pub(crate) const fn new(
        unix_time: i64,
        before: &'a LocalTimeType,
        after: &'a LocalTimeType,
    ) -> Self
        ensures { change_of result ≡ record {
          unix_time = unix_time;
          before = before.now;
          after = after.now;
        } }
    {
        Change {
            unix_time,
            before,
            after,
        }
    }

    /// The first instant with the new type, in Unix seconds.
    pub const fn unix_time(&self) -> i64
        ensures { result ≡ (change_of self.now).unix_time }
    {
        self.unix_time
    }

    /// The type at the instant before.
    pub const fn before(&self) -> &'a LocalTimeType
        ensures { result.now ≡ (change_of self.now).before }
    {
        self.before
    }

    /// The type from the instant on.
    pub const fn after(&self) -> &'a LocalTimeType
        ensures { result.now ≡ (change_of self.now).after }
    {
        self.after
    }
}

/// The change at an instant, by the types at the instant before and at it.
pub(super) fn change_at<'a>(
    unix_time: i64,
    before: Option<&'a LocalTimeType>,
    after: Option<&'a LocalTimeType>,
) -> Option<Change<'a>>
    ensures same { IfNone result
        (IfSome before.entry (λ a. IfSome after.entry (λ b. a.now ≡ b.now))) }
    ensures change { (z : Zone) → negsuc 9223372036854775807 <ℤ unix_time
        → MatchOption before.entry (HasNoType z (unix_time -ℤ pos 1))
        (λ a. IsClock z (unix_time -ℤ pos 1) a.now)
        → MatchOption after.entry (HasNoType z unix_time) (λ b. IsClock z unix_time b.now)
        → MatchOption result ((c : ChangeParts) → c.unix_time ≡ unix_time
        → ¬ IsChange z c) (λ c. ((change_of c).unix_time ≡ unix_time) × IsChange z (change_of c)) }
{
    let before = before?;
    let after = after?;
    if before.is_same(after) {
        return None;
    }
    Some(Change::new(unix_time, before, after))
}

/// A span of time through which the clock of a zone has one type, or none.
///
/// The next segment may have the same type: a segment also ends at a transition to an equal type. A
/// [`Change`](super::Change) is an instant at which the type differs.
#[derive(Clone, Copy, Debug, PartialEq, Eq, Hash)]
pub struct Segment<'a> {
    pub(super) from: i64,
    pub(super) last: i64,
    pub(super) local_time_type: Option<&'a LocalTimeType>,
}

impl<'a> Segment<'a> {
    ghost use Rattle.tz_zone.specs.Changes.{segment_of};

    /// The first instant, in Unix seconds.
    pub const fn from(&self) -> i64
        ensures { result ≡ (segment_of self.now).from }
    {
        self.from
    }

    /// The last instant, in Unix seconds. The segment around the next one may begin before it.
    pub const fn last(&self) -> i64
        ensures { result ≡ (segment_of self.now).last }
    {
        self.last
    }

    /// The type that the clock has throughout the segment, or `None` if it has none.
    pub const fn local_time_type(&self) -> Option<&'a LocalTimeType>
        ensures { option_copied result ≡ (segment_of self.now).local_time_type }
    {
        self.local_time_type
    }

    /// Whether an instant, in Unix seconds, is in the segment.
    pub const fn contains(&self, unix_time: i64) -> bool
        ensures { IsTrue result ↔ (((segment_of self.now).from ≤ℤ unix_time)
            × (unix_time ≤ℤ (segment_of self.now).last)) }
    {
        self.from <= unix_time && unix_time <= self.last
    }
}

/// The last instant before a truncated start.
fn last_before_start(leap_seconds: &[LeapSecond], unix_time: i64) -> i64
    requires { IsBeforeStart leap_seconds.now unix_time }
    ensures from { unix_time ≤ℤ result }
    ensures before { (v : ℤ) → v ≤ℤ result → IsBeforeStart leap_seconds.now v }
    ensures begun { result <ℤ pos 9223372036854775807
        → ¬ IsBeforeStart leap_seconds.now (result +ℤ pos 1) }
{
    let Some(first) = first_begun(leap_seconds, unix_time) else {
        return i64::MAX;
    };
    first - 1
}

/// The first instant from which on none has a leap time, because it would leave 64 bits.
fn first_past(leap_seconds: &[LeapSecond], unix_time: i64) -> i64
    requires leaps { AreLeapSeconds leap_seconds.now }
    requires begun { ¬ IsBeforeStart leap_seconds.now unix_time }
    requires refused { IsLeapTimeRefused leap_seconds.now unix_time }
    ensures up_to { result ≤ℤ unix_time }
    ensures far { pos 80000000000000000 <ℤ result }
    ensures refused { (v : ℤ) → result ≤ℤ v → IsLeapTimeRefused leap_seconds.now v }
{
    last_instant(leap_seconds) + 1
}

/// The segment of instants that have no leap time.
fn undefined_segment<'a>(leap_seconds: &[LeapSecond], unix_time: i64) -> Segment<'a>
    requires leaps { AreLeapSeconds leap_seconds.now }
    requires refused { IsLeapTimeRefused leap_seconds.now unix_time }
    ensures within { (result.from ≤ℤ unix_time) × (unix_time ≤ℤ result.last) }
    ensures refused { (v : ℤ) → result.from ≤ℤ v → v ≤ℤ result.last
        → IsLeapTimeRefused leap_seconds.now v }
    ensures from { result.from ≢ negsuc 9223372036854775807 → IsFar leap_seconds.now result.from }
    ensures last { result.last ≢ pos 9223372036854775807
        → IsTableStart leap_seconds.now (result.last +ℤ pos 1) }
    ensures local_time_type { result.local_time_type ≡ None }
{
    if has_begun(leap_seconds, unix_time) {
        return Segment {
            from: first_past(leap_seconds, unix_time),
            last: i64::MAX,
            local_time_type: None,
        };
    }
    Segment {
        from: i64::MIN,
        last: last_before_start(leap_seconds, unix_time),
        local_time_type: None,
    }
}

/// The segment around an instant at which the last transition is reached.
fn segment_from_last<'a>(zone: &ZoneData<'a>, last: Transition, unix_time: i64) -> Segment<'a>
    requires { IsTimeReached (zone_of_data zone.now).leap_seconds last.unix_leap_time unix_time }
    ensures within { (result.from ≤ℤ unix_time) × (unix_time ≤ℤ result.last) }
    ensures reached { (v : ℤ) → result.from ≤ℤ v → v ≤ℤ result.last
        → IsTimeReached (zone_of_data zone.now).leap_seconds last.unix_leap_time v }
    ensures holds { (v : ℤ) → result.from ≤ℤ v → v ≤ℤ result.last
        → MatchOption result.local_time_type
        ((t : LocalTimeType) → ¬ IsTypeAfter (zone_of_data zone.now).extra_rule v t)
        (λ t. IsTypeAfter (zone_of_data zone.now).extra_rule v t.now) }
    ensures from { IsWideEffect (zone_of_data zone.now).leap_seconds last.unix_leap_time result.from
        ⊎ IsChangeByRule (zone_of_data zone.now).extra_rule result.from }
    ensures last { result.last ≢ pos 9223372036854775807
        → IsPastInstants (zone_of_data zone.now).leap_seconds (result.last +ℤ pos 1)
        ⊎ IsChangeByRule (zone_of_data zone.now).extra_rule (result.last +ℤ pos 1) }
{
    let from = effect_of_reached(zone.leap_seconds, last.unix_leap_time());
    let segment = after_table(zone, false, unix_time);
    Segment {
        from: from.max(segment.from),
        last: last_instant_up_to(zone.leap_seconds, segment.last),
        local_time_type: segment.local_time_type,
    }
}

/// The segment around an instant that lies at a position.
#[inline(always)]
fn segment_at_position<'a>(
    view: &mut TransitionView<'_>,
    zone: &ZoneData<'a>,
    position: usize,
    unix_time: i64,
) -> Segment<'a>
    requires view { list_of view.old ≡ (zone_of_data zone.now).transitions }
    requires at_least_one { 0 < length (list_of view.old) }
    requires within { position ≤ length (list_of view.old) }
    requires at { IsReachedAt (zone_of_data zone.now) unix_time position }
    ensures at { IsSegmentAt (zone_of_data zone.now) unix_time result }
    ensures ends { HasTableEnds (zone_of_data zone.now) result.from result.last }
    ensures looks { IsAfterLooks view.old view.new 2 }
{
    let before = before(view, position);
    if position == view.len() {
        return segment_from_last(zone, before, unix_time);
    }
    let next = view.look(position);
    Segment {
        from: effect_of_reached(zone.leap_seconds, before.unix_leap_time()),
        last: last_before(zone.leap_seconds, next.unix_leap_time()),
        local_time_type: Some(type_of(zone, before)),
    }
}

/// The segment of the clock around an instant.
#[inline(always)]
pub fn clock_segment_at<'a>(
    view: &mut TransitionView<'_>,
    zone: &ZoneData<'a>,
    unix_time: i64,
) -> Segment<'a>
    requires view { list_of view.old ≡ (zone_of_data zone.now).transitions }
    ensures at { IsSegmentAt (zone_of_data zone.now) unix_time result }
    ensures ends { HasTableEnds (zone_of_data zone.now) result.from result.last }
    ensures looks { IsAfterSearch view.old view.new 3 }
    ensures at_least_one { 0 < length (list_of view.old)
        → one_look_more (looks_of view.old) ≤ looks_of view.new }
    ensures none { list_of view.old ≡ [] → looks_of view.new ≡ looks_of view.old }
{
    if view.len() == 0 {
        return after_table(zone, true, unix_time);
    }
    let Some(position) = position_at(view, zone, unix_time) else {
        return undefined_segment(zone.leap_seconds, unix_time);
    };
    segment_at_position(view, zone, position, unix_time)
}
