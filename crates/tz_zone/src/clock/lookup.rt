//! The clock's type at an instant, over a view of the transitions.

ghost use Rattle.std.specs.Prelude.{◌≡◌, min, ◌≢◌, ℤ, pos, negsuc, ◌+ℤ◌, ◌≤ℤ◌, MatchOption, ◌+◌, ◌<◌, ◌≤◌, length, Some, [], IfOk, IfErr};
ghost use Rattle.tz_rule.specs.LocalTimeType.{LocalTimeType};
ghost use Rattle.tz_zone.specs.Clock.{IsTypeAfter, IsTypeAfterTable, IsTypeAt, IsTypeOfLast, IsClock, HasNoType, IsLookupFault};
ghost use Rattle.tz_zone.specs.Looks.{list_of, looks_of, one_look_more, IsAfterLooks, IsAfterSearch};
ghost use Rattle.tz_zone.specs.TableChanges.{IsChangeByRule};
ghost use Rattle.tz_zone.specs.ZoneOfData.{zone_of_data};
ghost use Rattle.tz_zone.specs.ClockSegments.{IsBefore, IsReachedAt};

use super::binary_search::position_at;
use super::segment::Segment;
use crate::table::{Transition, TransitionView};
use crate::timezone::zone_data::ZoneData;
use tz_base::error::TzError;
use tz_rule::timezone::LocalTimeType;

/// The segment around an instant of a clock whose transitions are all reached, or of one that has
/// none: that of the extra rule. Without a rule the segment is all time, with type number 0 if the
/// zone has no transitions, and otherwise with none.
#[inline(always)]
pub(super) fn after_table<'a>(zone: &ZoneData<'a>, is_empty: bool, unix_time: i64) -> Segment<'a>
    ensures within { (result.from ≤ℤ unix_time) × (unix_time ≤ℤ result.last) }
    ensures holds { (v : ℤ) → result.from ≤ℤ v → v ≤ℤ result.last
        → MatchOption result.local_time_type
        ((t : LocalTimeType) → ¬ IsTypeAfterTable is_empty (zone_of_data zone.now) v t)
        (λ t. IsTypeAfterTable is_empty (zone_of_data zone.now) v t.now) }
    ensures from { result.from ≢ negsuc 9223372036854775807
        → IsChangeByRule (zone_of_data zone.now).extra_rule result.from }
    ensures last { result.last ≢ pos 9223372036854775807
        → IsChangeByRule (zone_of_data zone.now).extra_rule (result.last +ℤ pos 1) }
{
    let Some(rule) = zone.rule() else {
        return Segment {
            from: i64::MIN,
            last: i64::MAX,
            local_time_type: if is_empty {
                Some(&zone.local_time_types[0])
            } else {
                None
            },
        };
    };
    let segment = tz_rule::inner::segment_at(rule, unix_time);
    Segment {
        from: segment.from,
        last: segment.last,
        local_time_type: segment.local_time_type,
    }
}

/// The type at an instant from the last transition on.
pub(super) fn type_from_last<'a>(zone: &ZoneData<'a>, unix_time: i64) -> Option<&'a LocalTimeType>
    ensures { MatchOption result
        ((t : LocalTimeType) → ¬ IsTypeAfter (zone_of_data zone.now).extra_rule unix_time t)
        (λ t. IsTypeAfter (zone_of_data zone.now).extra_rule unix_time t.now) }
{
    after_table(zone, false, unix_time).local_time_type
}

/// The last transition before a position. Position 0 has none: there it is one at the least leap
/// time, to the first type.
pub(super) fn before(view: &mut TransitionView<'_>, position: usize) -> Transition
    requires { position ≤ length (list_of view.old) }
    ensures before { IsBefore (list_of view.old) position result }
    ensures looks { IsAfterLooks view.old view.new (min position 1) }
{
    if position == 0 {
        return Transition::new(i64::MIN, 0);
    }
    view.look(position - 1)
}

/// The type of a transition.
pub(super) const fn type_of<'a>(zone: &ZoneData<'a>, change: Transition) -> &'a LocalTimeType
    requires { change.type_index < length (zone_of_data zone.now).types }
    ensures { IsTypeAt (zone_of_data zone.now) change.type_index result.now }
{
    &zone.local_time_types[change.local_time_type_index()]
}

/// The type of the last transition before a position, or the first type if there is none.
pub(super) fn type_before<'a>(
    view: &mut TransitionView<'_>,
    zone: &ZoneData<'a>,
    position: usize,
) -> &'a LocalTimeType
    requires view { list_of view.old ≡ (zone_of_data zone.now).transitions }
    requires position { position ≤ length (list_of view.old) }
    ensures value { IsTypeOfLast (zone_of_data zone.now) position result.now }
    ensures looks { IsAfterLooks view.old view.new (min position 1) }
{
    let change = before(view, position);
    type_of(zone, change)
}

/// The type at an instant, from a position at which it lies, or from an earlier position whose type
/// is the same.
pub(super) fn type_at<'a>(
    zone: &ZoneData<'a>,
    position: usize,
    unix_time: i64,
) -> Option<&'a LocalTimeType>
    requires within { position ≤ length (zone_of_data zone.now).transitions }
    requires at_least_one { 0 < length (zone_of_data zone.now).transitions }
    requires before { position < length (zone_of_data zone.now).transitions → (t : LocalTimeType)
        → IsTypeOfLast (zone_of_data zone.now) position t
        → IsClock (zone_of_data zone.now) unix_time t }
    requires all { position ≡ length (zone_of_data zone.now).transitions
        → IsReachedAt (zone_of_data zone.now) unix_time position }
    ensures { MatchOption result (HasNoType (zone_of_data zone.now) unix_time)
        (λ t. IsClock (zone_of_data zone.now) unix_time t.now) }
{
    let transitions = zone.transitions;
    if position == transitions.len() {
        return type_from_last(zone, unix_time);
    }
    Some(type_before(&mut TransitionView::new(transitions), zone, position))
}

/// Why there is no type from the last transition on, or in a zone without transitions: there is no
/// rule, or it is not defined at the instant.
fn fault_after(zone: &ZoneData<'_>) -> TzError
    ensures { MatchOption (zone_of_data zone.now).extra_rule
        (result ≡ TzError.NoAvailableLocalTimeType) (λ rule. result ≡ TzError.OutOfRange) }
{
    match zone.rule() {
        Some(_) => TzError::OutOfRange,
        None => TzError::NoAvailableLocalTimeType,
    }
}

/// The clock's type at an instant. (RFC 8536, section 3.2)
#[inline(always)]
pub fn find_local_time_type<'a>(
    view: &mut TransitionView<'_>,
    zone: &ZoneData<'a>,
    unix_time: i64,
) -> Result<&'a LocalTimeType, TzError>
    requires view { list_of view.old ≡ (zone_of_data zone.now).transitions }
    ensures ok { IfOk result (λ t. IsClock (zone_of_data zone.now) unix_time t.now) }
    ensures err { IfErr result (IsLookupFault (zone_of_data zone.now) unix_time) }
    ensures looks { IsAfterSearch view.old view.new 2 }
    ensures at_least_one { 0 < length (list_of view.old)
        → one_look_more (looks_of view.old) ≤ looks_of view.new }
    ensures none { list_of view.old ≡ [] → looks_of view.new ≡ looks_of view.old }
{
    let count = view.len();
    if count > 0 {
        let Some(position) = position_at(view, zone, unix_time) else {
            return Err(TzError::OutOfRange);
        };
        if position < count {
            return Ok(type_before(view, zone, position));
        }
    }
    match after_table(zone, count == 0, unix_time).local_time_type {
        Some(local_time_type) => Ok(local_time_type),
        None => Err(fault_after(zone)),
    }
}
