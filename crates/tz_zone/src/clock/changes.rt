//! The first change of a zone's clock after an instant, and the last one before it.
//!
//! Up to the last transition a walk goes from position to position. It reads the types of
//! transitions, and looks for the instant at which one takes effect only if its type differs from
//! the one before. From the last one on the rule has the changes. The walk back does the same from
//! the rule on.

ghost use Rattle.std.specs.Prelude.{◌≡◌, ℕ, ◌<◌, ◌≤◌, [], length, slice_get, Some, IfSome};
ghost use Rattle.std.specs.Prelude.{MatchOption, ℤ, pos, negsuc, ◌+ℤ◌, ◌-ℤ◌, ◌≤ℤ◌, ◌<ℤ◌};
ghost use Rattle.tz_rule.specs.LocalTimeType.{LocalTimeType};
ghost use Rattle.tz_zone.specs.Changes.{change_of, IsFollowing, HasNoFollowing, IsPreceding};
ghost use Rattle.tz_zone.specs.Changes.{HasNoPreceding};
ghost use Rattle.tz_zone.specs.Clock.{IsTypeOfLast};
ghost use Rattle.tz_zone.specs.ClockSegments.{IsReachedAt};
ghost use Rattle.tz_zone.specs.LeapTime.{IsLeapTimeRefused, IsWideEffect};
ghost use Rattle.tz_zone.specs.Runs.{LiesAt, IsWalkedUp, IsWalkedDown, IsRunStart};
ghost use Rattle.tz_zone.specs.Runs.{HasNoneAfterSeam};
ghost use Rattle.tz_zone.specs.Table.{Transition, without_transitions};
ghost use Rattle.tz_zone.specs.ZoneOfData.{zone_of_data};

use super::binary_search::position_in;
use super::lookup::{type_at, type_before, type_of};
use super::segment::{Change, change_at};
use crate::leap::leap_time::{
    effect_if_reached, effect_of_reached, existing_leap_time, first_begun, last_instant_up_to,
    leap_time,
};
use crate::table::TransitionView;
use crate::timezone::zone_data::ZoneData;
use tz_rule::inner::{change_after, change_up_to};
use tz_rule::timezone::LocalTimeType;

/// The first change of a rule after an instant: that of a zone with the rule and without
/// transitions.
fn following_by_rule<'a>(zone: &ZoneData<'a>, unix_time: i64) -> Option<Change<'a>>
    ensures { MatchOption result
        (HasNoFollowing (without_transitions (zone_of_data zone.now)) unix_time)
        (λ c. IsFollowing (without_transitions (zone_of_data zone.now)) unix_time (change_of c)) }
{
    let rule = zone.rule()?;
    let change = change_after(rule, unix_time)?;
    Some(Change::new(change.unix_time, change.before, change.after))
}

/// The position at which the effect of a transition lies. It is not right after the transition
/// where the next one takes effect at the same instant.
fn position_at_effect(zone: &ZoneData<'_>, index: usize, effect: i64) -> usize
    requires inside { index < length (zone_of_data zone.now).transitions }
    requires transition { (change : Transition)
        × (slice_get (zone_of_data zone.now).transitions index ≡ Some change)
        × IsWideEffect (zone_of_data zone.now).leap_seconds change.unix_leap_time effect }
    requires defined { ¬ IsLeapTimeRefused (zone_of_data zone.now).leap_seconds effect }
    ensures within { index < result }
    ensures at { LiesAt (zone_of_data zone.now) effect result }
{
    let transitions = zone.transitions;
    let mut position = index + 1;
    if zone.leap_seconds.is_empty() {
        return position;
    }
    let unix_leap_time = existing_leap_time(zone.leap_seconds, effect);
    while position < transitions.len() && transitions[position].unix_leap_time() <= unix_leap_time {
        position += 1;
    }
    position
}

/// The last position of the run of `position`: the transitions from `position` up to it are to one
/// type, `local_time_type`. The position after all transitions is a run of its own: from there on
/// the rule has the types.
const fn end_of_run(zone: &ZoneData<'_>, position: usize, local_time_type: &LocalTimeType) -> usize
    requires position { position < length (zone_of_data zone.now).transitions }
    requires is_type { IsTypeOfLast (zone_of_data zone.now) position local_time_type.now }
    ensures within { (position ≤ result) × (result < length (zone_of_data zone.now).transitions) }
    ensures types { (i : ℕ) → position ≤ i → i ≤ result
        → IsTypeOfLast (zone_of_data zone.now) i local_time_type.now }
{
    let transitions = zone.transitions;
    let mut end = position;
    while end + 1 < transitions.len() && type_of(zone, transitions[end]).is_same(local_time_type) {
        end += 1;
    }
    end
}

/// The first instant from `unix_time` on that has a leap time, and the position at which it lies.
#[inline(always)]
fn first_position(zone: &ZoneData<'_>, unix_time: i64) -> Option<(i64, usize)>
    requires { 0 < length (zone_of_data zone.now).transitions }
    ensures { MatchOption result (HasNoFollowing (zone_of_data zone.now) unix_time)
        (λ found. IsWalkedUp (zone_of_data zone.now) unix_time found.0 found.1) }
{
    let first = first_begun(zone.leap_seconds, unix_time)?;
    let position = position_in(zone, first)?;
    Some((first, position))
}

/// The change at the next transition after an instant that lies at a position, and the position
/// after it, if there are no leap seconds, that transition is to another type, and it is not the
/// last one. That is the usual case, and needs no walk.
fn change_at_next<'a>(
    zone: &ZoneData<'a>,
    unix_time: i64,
    position: usize,
) -> Option<(Change<'a>, usize)>
    requires { LiesAt (zone_of_data zone.now) unix_time position }
    ensures { IfSome result
        (λ found. IsFollowing (zone_of_data zone.now) unix_time (change_of found.0)) }
{
    let transitions = zone.transitions;
    if !zone.leap_seconds.is_empty() || transitions.len() <= position + 1 {
        return None;
    }
    let next = transitions[position];
    let before = type_before(&mut TransitionView::new(transitions), zone, position);
    let after = type_of(zone, next);
    let change = change_at(next.unix_leap_time(), Some(before), Some(after))?;
    Some((change, position + 1))
}

/// The first change of the clock after an instant that lies at a position, and the position after
/// it.
fn following_from<'a>(
    zone: &ZoneData<'a>,
    unix_time: i64,
    position: usize,
) -> Option<(Change<'a>, usize)>
    requires at_least_one { 0 < length (zone_of_data zone.now).transitions }
    requires at { LiesAt (zone_of_data zone.now) unix_time position }
    ensures { MatchOption result (HasNoFollowing (zone_of_data zone.now) unix_time)
        (λ found. IsFollowing (zone_of_data zone.now) unix_time (change_of found.0)) }
{
    let transitions = zone.transitions;
    let mut since = unix_time;
    let mut position = position;
    while position < transitions.len() {
        let before = type_before(&mut TransitionView::new(transitions), zone, position);
        let end = end_of_run(zone, position, before);
        let effect = effect_if_reached(zone.leap_seconds, transitions[end].unix_leap_time())?;
        let next = position_at_effect(zone, end, effect);
        let after = type_at(zone, next, effect);
        if let Some(change) = change_at(effect, Some(before), after) {
            return Some((change, next));
        }
        since = effect;
        position = next;
    }
    let change = following_by_rule(zone, since)?;
    Some((change, position))
}

/// The change at the transition with the index `position`, and the position after it, if the
/// transition before takes effect at the instant: as times rise, this one comparison shows that the
/// instant lies at `position`.
pub fn change_after_last<'a>(
    zone: &ZoneData<'a>,
    unix_time: i64,
    position: usize,
) -> Option<(Change<'a>, usize)>
    ensures { IfSome result
        (λ found. IsFollowing (zone_of_data zone.now) unix_time (change_of found.0)) }
{
    let transitions = zone.transitions;
    if position == 0 || transitions.len() <= position || !zone.leap_seconds.is_empty() {
        return None;
    }
    if transitions[position - 1].unix_leap_time() != unix_time {
        return None;
    }
    change_at_next(zone, unix_time, position)
}

/// The first change of the clock after an instant, and the position after it.
#[inline(always)]
pub fn find_following<'a>(zone: &ZoneData<'a>, unix_time: i64) -> Option<(Change<'a>, usize)>
    ensures { MatchOption result (HasNoFollowing (zone_of_data zone.now) unix_time)
        (λ found. IsFollowing (zone_of_data zone.now) unix_time (change_of found.0)) }
{
    let transitions = zone.transitions;
    if transitions.is_empty() {
        let change = following_by_rule(zone, unix_time)?;
        return Some((change, 0));
    }
    let (since, position) = first_position(zone, unix_time)?;
    if position == transitions.len() {
        let change = following_by_rule(zone, since)?;
        return Some((change, position));
    }
    if let Some(found) = change_at_next(zone, since, position) {
        return Some(found);
    }
    following_from(zone, since, position)
}

/// The last change of a rule up to an instant: that of a zone with the rule and without
/// transitions.
fn preceding_by_rule<'a>(zone: &ZoneData<'a>, last: i64) -> Option<Change<'a>>
    ensures { MatchOption result
        (HasNoPreceding (without_transitions (zone_of_data zone.now)) (last +ℤ pos 1))
        (λ c. IsPreceding (without_transitions (zone_of_data zone.now)) (last +ℤ pos 1)
        (change_of c)) }
{
    let rule = zone.rule()?;
    let change = change_up_to(rule, last)?;
    Some(Change::new(change.unix_time, change.before, change.after))
}

/// The first position, from 1 on, of the run of `position`: the transitions from the one before it
/// up to `position` are to one type, `local_time_type`.
const fn start_of_run(
    zone: &ZoneData<'_>,
    position: usize,
    local_time_type: &LocalTimeType,
) -> usize
    requires position { (0 < position) × (position ≤ length (zone_of_data zone.now).transitions) }
    requires is_type { IsTypeOfLast (zone_of_data zone.now) position local_time_type.now }
    ensures within { (0 < result) × (result ≤ position) }
    ensures types { (i : ℕ) → result ≤ i → i ≤ position
        → IsTypeOfLast (zone_of_data zone.now) i local_time_type.now }
{
    let transitions = zone.transitions;
    let mut start = position;
    while start > 1 && type_of(zone, transitions[start - 2]).is_same(local_time_type) {
        start -= 1;
    }
    start
}

/// The last instant before `unix_time` that has a leap time, and the position at which it lies.
#[inline(always)]
fn last_position(zone: &ZoneData<'_>, unix_time: i64) -> Option<(i64, usize)>
    requires at_least_one { 0 < length (zone_of_data zone.now).transitions }
    requires not_least { negsuc 9223372036854775807 <ℤ unix_time }
    ensures { MatchOption result (HasNoPreceding (zone_of_data zone.now) unix_time)
        (λ found. IsWalkedDown (zone_of_data zone.now) unix_time found.0 found.1) }
{
    let last = last_instant_up_to(zone.leap_seconds, unix_time - 1);
    let position = position_in(zone, last)?;
    Some((last, position))
}

/// The last change of the clock up to an instant that lies at a position, if it comes after all
/// transitions. From the effect of the last transition on, the seam, the rule has the types.
fn preceding_after_table<'a>(zone: &ZoneData<'a>, position: usize, last: i64) -> Option<Change<'a>>
    requires at_least_one { 0 < length (zone_of_data zone.now).transitions }
    requires at { LiesAt (zone_of_data zone.now) last position }
    ensures { MatchOption result
        (HasNoneAfterSeam (zone_of_data zone.now) position (last +ℤ pos 1))
        (λ c. IsPreceding (zone_of_data zone.now) (last +ℤ pos 1) (change_of c)) }
{
    let transitions = zone.transitions;
    if position < transitions.len() {
        return None;
    }
    let change = preceding_by_rule(zone, last)?;
    let seam = effect_of_reached(
        zone.leap_seconds,
        transitions[position - 1].unix_leap_time(),
    );
    if change.unix_time() <= seam {
        return None;
    }
    Some(change)
}

/// The first position, from 1 on, of the run of a position. The position after all transitions is a
/// run of its own: from there on the rule has the types.
fn first_of_run(zone: &ZoneData<'_>, position: usize) -> usize
    requires { (0 < position) × (position ≤ length (zone_of_data zone.now).transitions) }
    ensures within { (0 < result) × (result ≤ position) }
    ensures types { position < length (zone_of_data zone.now).transitions
        → (t : LocalTimeType) × ((i : ℕ) → result ≤ i → i ≤ position
        → IsTypeOfLast (zone_of_data zone.now) i t) }
    ensures all { position ≡ length (zone_of_data zone.now).transitions → result ≡ position }
{
    let transitions = zone.transitions;
    if position == transitions.len() {
        return position;
    }
    let local_time_type = type_before(&mut TransitionView::new(transitions), zone, position);
    start_of_run(zone, position, local_time_type)
}

/// The first position of the run of a position, and the instant at which the transition before it
/// takes effect.
fn run_start(zone: &ZoneData<'_>, position: usize) -> (usize, i64)
    requires position { (0 < position) × (position ≤ length (zone_of_data zone.now).transitions) }
    requires at { (w : ℤ) × (w ≤ℤ pos 9223372036854775807)
        × IsReachedAt (zone_of_data zone.now) w position }
    ensures { IsRunStart (zone_of_data zone.now) position result.0 result.1 }
{
    let transitions = zone.transitions;
    let start = first_of_run(zone, position);
    let effect = effect_of_reached(zone.leap_seconds, transitions[start - 1].unix_leap_time());
    (start, effect)
}

/// The change at the last transition before an instant, and the position before it, if the instant
/// a second earlier lies at a position, there are no leap seconds, that transition is from another
/// type, and it is not the last one of all. That is the usual case, and needs no walk.
fn change_at_last<'a>(
    zone: &ZoneData<'a>,
    unix_time: i64,
    position: usize,
) -> Option<(Change<'a>, usize)>
    requires { LiesAt (zone_of_data zone.now) (unix_time -ℤ pos 1) position }
    ensures { IfSome result
        (λ found. IsPreceding (zone_of_data zone.now) unix_time (change_of found.0)) }
{
    let transitions = zone.transitions;
    if transitions.len() <= position || position == 0 || !zone.leap_seconds.is_empty() {
        return None;
    }
    let last = transitions[position - 1];
    let time = last.unix_leap_time();
    if time == i64::MIN {
        return None;
    }
    let before = type_before(&mut TransitionView::new(transitions), zone, position - 1);
    let after = type_of(zone, last);
    let change = change_at(time, Some(before), Some(after))?;
    Some((change, position - 1))
}

/// The change at the transition before `position`, and the position before it, if the transition
/// with the index `position` takes effect at the instant: then the instant a second earlier lies at
/// `position`.
pub fn change_before_next<'a>(
    zone: &ZoneData<'a>,
    unix_time: i64,
    position: usize,
) -> Option<(Change<'a>, usize)>
    ensures { IfSome result
        (λ found. IsPreceding (zone_of_data zone.now) unix_time (change_of found.0)) }
{
    let transitions = zone.transitions;
    if position == 0 || transitions.len() <= position || !zone.leap_seconds.is_empty() {
        return None;
    }
    if transitions[position].unix_leap_time() != unix_time {
        return None;
    }
    change_at_last(zone, unix_time, position)
}

/// The position at which the instant before the effect of a transition lies, if it has a leap time.
/// Where several transitions take effect at that instant, it is the one before the first of them.
fn position_before_effect(zone: &ZoneData<'_>, index: usize, effect: i64) -> Option<usize>
    requires inside { index < length (zone_of_data zone.now).transitions }
    requires not_least { negsuc 9223372036854775807 <ℤ effect }
    requires transition { (change : Transition)
        × (slice_get (zone_of_data zone.now).transitions index ≡ Some change)
        × IsWideEffect (zone_of_data zone.now).leap_seconds change.unix_leap_time effect }
    ensures { MatchOption result
        (IsLeapTimeRefused (zone_of_data zone.now).leap_seconds (effect -ℤ pos 1))
        (λ position. LiesAt (zone_of_data zone.now) (effect -ℤ pos 1) position) }
{
    let transitions = zone.transitions;
    let unix_leap_time = leap_time(zone.leap_seconds, effect - 1)?;
    let mut position = index;
    while position > 0 && unix_leap_time < transitions[position - 1].unix_leap_time() {
        position -= 1;
    }
    Some(position)
}

/// The last change of the clock before an instant, and the position before it. After `last`, which
/// lies at `position`, there is none.
fn preceding_from<'a>(
    zone: &ZoneData<'a>,
    unix_time: i64,
    last: i64,
    position: usize,
) -> Option<(Change<'a>, usize)>
    requires at_least_one { 0 < length (zone_of_data zone.now).transitions }
    requires walked { IsWalkedDown (zone_of_data zone.now) unix_time last position }
    ensures { MatchOption result (HasNoPreceding (zone_of_data zone.now) unix_time)
        (λ found. IsPreceding (zone_of_data zone.now) unix_time (change_of found.0)) }
{
    if let Some(change) = preceding_after_table(zone, position, last) {
        return Some((change, position));
    }
    let mut position = position;
    while position > 0 {
        let (start, effect) = run_start(zone, position);
        if effect == i64::MIN {
            return None;
        }
        let earlier = position_before_effect(zone, start - 1, effect)?;
        let before = type_before(&mut TransitionView::new(zone.transitions), zone, earlier);
        let after = type_at(zone, start, effect);
        if let Some(change) = change_at(effect, Some(before), after) {
            return Some((change, earlier));
        }
        position = earlier;
    }
    None
}

/// The last change of the clock before an instant, and the position before it.
#[inline(always)]
pub fn find_preceding<'a>(zone: &ZoneData<'a>, unix_time: i64) -> Option<(Change<'a>, usize)>
    ensures { MatchOption result (HasNoPreceding (zone_of_data zone.now) unix_time)
        (λ found. IsPreceding (zone_of_data zone.now) unix_time (change_of found.0)) }
{
    if unix_time == i64::MIN {
        return None;
    }
    if zone.transitions.is_empty() {
        let change = preceding_by_rule(zone, unix_time - 1)?;
        return Some((change, 0));
    }
    let (last, position) = last_position(zone, unix_time)?;
    if let Some(found) = change_at_last(zone, last + 1, position) {
        return Some(found);
    }
    preceding_from(zone, unix_time, last, position)
}
