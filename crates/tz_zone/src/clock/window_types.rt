//! The types that a clock has in a window of instants, and its spans one after the other.

ghost use Rattle.std.specs.Prelude.{◌≡◌, ◌-◌, ◌⊎◌, ℤ, pos, ◌+◌, ◌+ℤ◌, ◌<◌, ◌≤◌, ◌≤ℤ◌, ◌<ℤ◌, [], length, IfSome, MatchOption, ◌==◌, Some};
ghost use Rattle.tz_zone.specs.Clock.{IsClock, HasNoType, IsPositionAt, IsTypeAfterTable};
ghost use Rattle.tz_zone.specs.ClockSpans.{IsStage};
ghost use Rattle.tz_zone.specs.Looks.{list_of, looks_of, one_look_more, IsAfterLooks, IsAfterSearch};
ghost use Rattle.tz_zone.specs.TableChanges.{IsChangeByRule};
ghost use Rattle.tz_zone.specs.WindowTypes.{IsPositionOf, AreTypesIn, IfMore};
ghost use Rattle.tz_zone.specs.ZoneOfData.{zone_of_data};
ghost use Rattle.tz_zone.specs.LeapTime.{IsLeapTime};

use super::binary_search::{position_at, position_of};
use super::lookup::{after_table, type_before, type_of};
use crate::leap::leap_time::{effect_of_reached, first_begun, last_before, leap_time, stay_before};
use crate::table::TransitionView;
use crate::timezone::zone_data::ZoneData;
use tz_rule::timezone::LocalTimeType;

/// How far a walk along a clock has come.
#[derive(Clone, Copy)]
pub struct Stage<'a> {
    /// How many transitions are passed. The next one may take effect at the same instant; then the
    /// span between them is empty.
    pub position: usize,
    /// The type of the last of them, or the first type. After all transitions it is not used: there
    /// the rule has the types.
    pub local_time_type: &'a LocalTimeType,
}

/// A span of time through which a clock has one type, or none: a piece of a `Segment`, from where a
/// walk has come to up to the segment's end or the walk's last instant.
#[derive(Clone, Copy)]
pub struct Span<'a> {
    /// The last instant, which is before the first one in an empty span.
    pub last: i64,
    /// The type, where the clock has one.
    pub local_time_type: Option<&'a LocalTimeType>,
    /// Where the walk goes on after it.
    pub next: Stage<'a>,
}

/// The first instant from `unix_time` on that has a leap time, and the stage of a walk that begins
/// there. `position` is that of `unix_time`, or `None` if there are transitions and it has no leap
/// time. In a zone without transitions the first instant is `unix_time` itself.
pub fn first_stage<'a>(
    view: &mut TransitionView<'_>,
    zone: &ZoneData<'a>,
    position: Option<usize>,
    unix_time: i64,
) -> Option<(i64, Stage<'a>)>
    requires view { list_of view.old ≡ (zone_of_data zone.now).transitions }
    requires position { IsPositionOf (zone_of_data zone.now) unix_time position }
    ensures stage { MatchOption result
        ((v : ℤ) → unix_time ≤ℤ v → v ≤ℤ pos 9223372036854775807
        → HasNoType (zone_of_data zone.now) v)
        (λ found. (unix_time ≤ℤ found.0)
        × IsStage (zone_of_data zone.now) found.0 found.0 found.1
        × ((v : ℤ) → unix_time ≤ℤ v → v <ℤ found.0 → HasNoType (zone_of_data zone.now) v)) }
    ensures looks { IsAfterSearch view.old view.new 2 }
    ensures known { IfSome position (λ k. IsAfterLooks view.old view.new 1) }
    ensures none { list_of view.old ≡ [] → looks_of view.new ≡ looks_of view.old }
{
    if let Some(position) = position {
        let local_time_type = type_before(view, zone, position);
        return Some((
            unix_time,
            Stage {
                position,
                local_time_type,
            },
        ));
    }
    let first = first_begun(zone.leap_seconds, unix_time)?;
    let position = position_at(view, zone, first)?;
    let local_time_type = type_before(view, zone, position);
    Some((
        first,
        Stage {
            position,
            local_time_type,
        },
    ))
}

/// The span of a clock from where a walk has come to, up to `high` at most. `high` is not above
/// `ALWAYS_DEFINED_UP_TO` of `leap_time.rt`, so every instant from `since` to it has a leap time.
pub fn span_from<'a>(
    view: &mut TransitionView<'_>,
    zone: &ZoneData<'a>,
    stage: Stage<'a>,
    since: i64,
    high: i64,
) -> Span<'a>
    requires view { list_of view.old ≡ (zone_of_data zone.now).transitions }
    requires stage { (first : ℤ) × IsStage (zone_of_data zone.now) first since stage }
    requires window { (since ≤ℤ high) × (high ≤ℤ pos 80000000000000000) }
    ensures up_to { result.last ≤ℤ high }
    ensures holds { (v : ℤ) → since ≤ℤ v → v ≤ℤ result.last
        → MatchOption result.local_time_type (HasNoType (zone_of_data zone.now) v)
        (λ t. IsClock (zone_of_data zone.now) v t.now) }
    ensures next { (first from : ℤ) → IsStage (zone_of_data zone.now) first since stage.entry
        → since ≤ℤ from → result.last <ℤ from → from ≤ℤ high
        → IsStage (zone_of_data zone.now) first from result.next }
    ensures onward { ((result.next.position ≡ stage.entry.position) × (since ≤ℤ result.last))
        ⊎ (result.next.position ≡ stage.entry.position + 1) }
    ensures within { result.next.position ≤ length (list_of view.old) }
    ensures whole { stage.entry.position ≡ length (list_of view.old) → (result.last ≡ high)
        ⊎ IsChangeByRule (zone_of_data zone.now).extra_rule (result.last +ℤ pos 1) }
    ensures looks { IsAfterLooks view.old view.new (result.next.position - stage.entry.position) }
{
    let count = view.len();
    if stage.position == count {
        let segment = after_table(zone, count == 0, since);
        return Span {
            last: segment.last.min(high),
            local_time_type: segment.local_time_type,
            next: stage,
        };
    }
    let next = view.look(stage.position);
    Span {
        last: last_before(zone.leap_seconds, next.unix_leap_time()).min(high),
        local_time_type: Some(stage.local_time_type),
        next: Stage {
            position: stage.position + 1,
            local_time_type: type_of(zone, next),
        },
    }
}

/// The types that a clock has in a window of instants.
#[derive(Clone, Copy)]
pub enum WindowTypes<'a> {
    /// One type throughout.
    One(&'a LocalTimeType),
    /// One type up to an instant, and another from there on.
    Two {
        /// The instant from which on the clock has the second type.
        unix_time: i64,
        /// The type before that.
        before: &'a LocalTimeType,
        /// The type from there on.
        after: &'a LocalTimeType,
    },
    /// Perhaps more, or none at some instant; with the position at which the first instant lies, or
    /// `None` if there are transitions and it has no leap time.
    More(Option<usize>),
}

/// The type that the clock has throughout, from one instant up to another, both from the last
/// transition on or in a zone without transitions; `None` if it has none or several.
fn type_through<'a>(
    zone: ZoneData<'a>,
    is_empty: bool,
    unix_time: i64,
    high: i64,
) -> Option<&'a LocalTimeType>
    ensures { IfSome result (λ t. (v : ℤ) → unix_time ≤ℤ v → v ≤ℤ high
        → IsTypeAfterTable is_empty (zone_of_data zone.entry) v t.now) }
{
    let segment = after_table(&zone, is_empty, unix_time);
    if segment.last < high {
        return None;
    }
    segment.local_time_type
}

/// The types in a window after the last of so many transitions, or in a zone that has none.
#[inline(always)]
fn types_after_table<'a>(zone: ZoneData<'a>, count: usize, low: i64, high: i64) -> WindowTypes<'a>
    ensures types { AreTypesIn (IsTypeAfterTable (count == 0) (zone_of_data zone.entry))
        low high result }
    ensures more { IfMore result (λ position. position ≡ Some count) }
{
    let first = after_table(&zone, count == 0, low);
    let Some(before) = first.local_time_type else {
        return WindowTypes::More(Some(count));
    };
    if high <= first.last {
        return WindowTypes::One(before);
    }
    let unix_time = first.last + 1;
    match type_through(zone, count == 0, unix_time, high) {
        Some(after) => WindowTypes::Two {
            unix_time,
            before,
            after,
        },
        None => WindowTypes::More(Some(count)),
    }
}

/// The types in a window that begins at a position before the last transition, whose first instant
/// has a leap time.
#[inline(always)]
fn types_at_position<'a>(
    view: &mut TransitionView<'_>,
    zone: ZoneData<'a>,
    position: usize,
    low: i64,
    low_leap_time: i64,
    high: i64,
) -> WindowTypes<'a>
    requires view { list_of view.old ≡ (zone_of_data zone).transitions }
    requires position { position < length (list_of view.old) }
    requires leap { IsLeapTime (zone_of_data zone).leap_seconds low low_leap_time }
    requires at { IsPositionAt (list_of view.old) low_leap_time position }
    ensures types { AreTypesIn (IsClock (zone_of_data zone.entry)) low high result }
    ensures looks { IsAfterLooks view.old view.new 3 }
    ensures more { IfMore result (λ from. (from ≡ Some position)
        × IsAfterLooks view.old view.new 2) }
{
    let leap_seconds = zone.leap_seconds;
    let count = view.len();
    let next = view.look(position);
    let next_leap_time = next.unix_leap_time();
    // Without leap seconds the leap time of `high` is `high` itself, so that this test would save
    // nothing.
    if !leap_seconds.is_empty()
        && stay_before(leap_seconds, low, low_leap_time, high, next_leap_time)
    {
        return WindowTypes::One(type_before(view, &zone, position));
    }
    let Some(high_leap_time) = leap_time(leap_seconds, high) else {
        return WindowTypes::More(Some(position));
    };
    if high_leap_time < next_leap_time {
        return WindowTypes::One(type_before(view, &zone, position));
    }
    // From the last transition on the rule has the types: a walk finds them.
    if position + 1 == count {
        return WindowTypes::More(Some(position));
    }
    let later = view.look(position + 1);
    let later_leap_time = later.unix_leap_time();
    if later_leap_time <= high_leap_time {
        return WindowTypes::More(Some(position));
    }
    let unix_time = effect_of_reached(leap_seconds, next_leap_time);
    let before = type_before(view, &zone, position);
    let after = type_of(&zone, next);
    WindowTypes::Two {
        unix_time,
        before,
        after,
    }
}

/// The types of the clock in a window.
///
/// One or two types are known by the position at which the first instant lies and the one or two
/// transitions that come next, or by the rule; but not two if the last transition lies in the
/// window. Otherwise the answer is `More`.
#[inline(always)]
pub fn window_types<'a>(
    view: &mut TransitionView<'_>,
    zone: ZoneData<'a>,
    low: i64,
    high: i64,
) -> WindowTypes<'a>
    requires view { list_of view.old ≡ (zone_of_data zone).transitions }
    ensures types { AreTypesIn (IsClock (zone_of_data zone.entry)) low high result }
    ensures looks { IsAfterSearch view.old view.new 4 }
    ensures position { IfMore result (IsPositionOf (zone_of_data zone.entry) low) }
    ensures more { IfMore result (λ position. MatchOption position
        (IsAfterLooks view.old view.new 1) (λ k. IsAfterSearch view.old view.new 3)) }
    ensures at_least_one { 0 < length (list_of view.old)
        → one_look_more (looks_of view.old) ≤ looks_of view.new }
    ensures none { list_of view.old ≡ [] → looks_of view.new ≡ looks_of view.old }
{
    let count = view.len();
    if count > 0 {
        let last = view.look(count - 1);
        let Some(low_leap_time) = leap_time(zone.leap_seconds, low) else {
            return WindowTypes::More(None);
        };
        let position = position_of(view, last, low_leap_time);
        if position < count {
            return types_at_position(view, zone, position, low, low_leap_time, high);
        }
        // A window may end after the last instant that has a leap time; that of a search never
        // does.
        let Some(_) = leap_time(zone.leap_seconds, high) else {
            return WindowTypes::More(Some(position));
        };
    }
    types_after_table(zone, count, low, high)
}
