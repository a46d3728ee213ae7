//! How many transitions are reached at an instant: a guess by the time, which two looks confirm, or
//! a binary search.

ghost use Rattle.std.specs.Prelude.{◌≡◌, ℕ, ◌+◌, ◌-◌, ◌^◌, ◌<◌, ◌≤◌, ◌⊎◌, length, IsTrue, IfSome, ◌≤ℤ◌, ◌<ℤ◌};
ghost use Rattle.std.specs.Prelude.{IfNone, MatchOption};
ghost use Rattle.tz_zone.specs.Clock.{AreReached, AreAhead, IsLast, IsPositionAt};
ghost use Rattle.tz_zone.specs.ClockSegments.{IsReachedAt};
ghost use Rattle.tz_zone.specs.LeapTime.{IsLeapTimeRefused};
ghost use Rattle.tz_zone.specs.Looks.{list_of, looks_of, may_guess_of, one_look_more, IsAfterLooks, IsAfterSearch};
ghost use Rattle.tz_zone.specs.PositionsLeft.{IsAmongPositions};
ghost use Rattle.tz_zone.specs.Runs.{LiesAt};
ghost use Rattle.tz_zone.specs.ValidZone.{IsRising};
ghost use Rattle.tz_zone.specs.ZoneOfData.{zone_of_data};

use crate::leap::leap_time::leap_time;
use crate::table::{Transition, TransitionView};
use crate::timezone::zone_data::ZoneData;

/// How many positions the last seven looks of a halving choose from.
const BLOCK: usize = 128;

/// Half a mean Gregorian year, in seconds: clocks with daylight saving time change twice a year.
const HALF_YEAR: u64 = 15_778_476;

/// The most transitions at which a position is guessed: more of them are hardly half a year apart.
const MOST_GUESSED: usize = 1024;

/// The greatest power of two up to a number.
const fn power_up_to(number: usize) -> usize
    requires { 0 < number }
    ensures power { (exponent : ℕ) × (result ≡ 2 ^ exponent) }
    ensures within { (0 < result) × (result ≤ number) }
    ensures next { number < result + result }
{
    1 << number.ilog2()
}

/// The later of two positions if a transition is reached at a leap time, or else the earlier one.
#[inline(always)]
const fn later_if_reached(
    change: Transition,
    position: usize,
    later: usize,
    unix_leap_time: i64,
) -> usize
    ensures { ((result ≡ later) × (change.unix_leap_time ≤ℤ unix_leap_time))
        ⊎ ((result ≡ position) × (unix_leap_time <ℤ change.unix_leap_time)) }
{
    if change.unix_leap_time() <= unix_leap_time {
        later
    } else {
        position
    }
}

/// The later of two positions, if the transition before it is reached at a leap time, or else the
/// earlier one.
#[inline(always)]
fn position_after_look(
    view: &mut TransitionView<'_>,
    position: usize,
    later: usize,
    unix_leap_time: i64,
) -> usize
    requires rising { IsRising (list_of view.old) }
    requires order { position < later }
    requires within { later ≤ length (list_of view.old) }
    ensures position { ((result ≡ later) × AreReached (list_of view.old) unix_leap_time later)
        ⊎ ((result ≡ position) × AreAhead (list_of view.old) unix_leap_time (later - 1)) }
    ensures counted { looks_of view.new ≡ one_look_more (looks_of view.old) }
    ensures looks { IsAfterLooks view.old view.new 1 }
{
    later_if_reached(view.look(later - 1), position, later, unix_leap_time)
}

/// Of twice `count` positions from `position` on, the first of the `count` among which the leap
/// time's position is, by a look at the transition in the middle.
fn half(view: &mut TransitionView<'_>, position: usize, count: usize, unix_leap_time: i64) -> usize
    requires rising { IsRising (list_of view.old) }
    requires some { 0 < count }
    requires among { IsAmongPositions (list_of view.old) unix_leap_time position (count + count) }
    ensures rising { IsRising (list_of view.new) }
    ensures among { IsAmongPositions (list_of view.new) unix_leap_time result count }
    ensures looks { IsAfterLooks view.old view.new 1 }
{
    position_after_look(view, position, position + count, unix_leap_time)
}

/// Halves `count` positions from `position` on until `least` of them are left, both powers of two,
/// and returns the first of these.
///
/// A step compares once, and changes `position` by that alone; no step needs a branch of its own.
#[inline(always)]
fn halved(
    view: &mut TransitionView<'_>,
    position: usize,
    count: usize,
    least: usize,
    unix_leap_time: i64,
) -> usize
    requires rising { IsRising (list_of view.old) }
    requires powers { (e f : ℕ) × (count ≡ 2 ^ e) × (least ≡ 2 ^ f) × (f ≤ e) }
    requires among { IsAmongPositions (list_of view.old) unix_leap_time position count }
    ensures same { list_of view.new ≡ list_of view.old }
    ensures among { IsAmongPositions (list_of view.new) unix_leap_time result least }
    ensures looks { (e f : ℕ) → count ≡ 2 ^ e → least ≡ 2 ^ f → f ≤ e
        → IsAfterLooks view.old view.new (e - f) }
{
    let mut position = position;
    let mut left = count;
    while left != least {
        left /= 2;
        position = half(view, position, left, unix_leap_time);
    }
    position
}

/// Of twice `count` places of a block from `place` on, the first of the `count` among which that of
/// the leap time is, by the transition in the middle.
fn half_of_block(
    block: &[Transition; BLOCK],
    place: usize,
    count: usize,
    unix_leap_time: i64,
) -> usize
    requires rising { IsRising block.now }
    requires some { 0 < count }
    requires among { IsAmongPositions block.now unix_leap_time place (count + count) }
    ensures { IsAmongPositions block.now unix_leap_time result count }
{
    let later = place + count;
    later_if_reached(block[later - 1], place, later, unix_leap_time)
}

/// The place of a leap time in a block whose last transition is ahead of it. Each distance is a
/// constant, so a step takes five instructions, and neither a branch nor a check of bounds.
#[inline(always)]
fn place_in_block(block: &[Transition; BLOCK], unix_leap_time: i64) -> usize
    requires rising { IsRising block.now }
    requires among { IsAmongPositions block.now unix_leap_time 0 128 }
    ensures { IsAmongPositions block.now unix_leap_time result 1 }
{
    let among_64 = half_of_block(block, 0, 64, unix_leap_time);
    let among_32 = half_of_block(block, among_64, 32, unix_leap_time);
    let among_16 = half_of_block(block, among_32, 16, unix_leap_time);
    let among_8 = half_of_block(block, among_16, 8, unix_leap_time);
    let among_4 = half_of_block(block, among_8, 4, unix_leap_time);
    let among_2 = half_of_block(block, among_4, 2, unix_leap_time);
    half_of_block(block, among_2, 1, unix_leap_time)
}

/// The position of a leap time among 128, by seven looks, or by as many transitions of a block if
/// looks are not counted.
#[inline(always)]
fn position_in_block(view: &mut TransitionView<'_>, position: usize, unix_leap_time: i64) -> usize
    requires rising { IsRising (list_of view.old) }
    requires among { IsAmongPositions (list_of view.old) unix_leap_time position 128 }
    ensures among { IsAmongPositions (list_of view.new) unix_leap_time result 1 }
    ensures looks { IsAfterLooks view.old view.new 7 }
{
    if view.may_guess() {
        if let Some(block) = view.chunk_at(position) {
            return position + place_in_block(block, unix_leap_time);
        }
    }
    halved(view, position, BLOCK, 1, unix_leap_time)
}

/// The position at which a leap time before the last transition lies, by binary search.
///
/// After the first look the number of positions to choose from is a power of two.
#[inline(always)]
fn position_by_halving(view: &mut TransitionView<'_>, unix_leap_time: i64) -> usize
    requires rising { IsRising (list_of view.old) }
    requires at_least_one { 0 < length (list_of view.old) }
    requires ahead { AreAhead (list_of view.old) unix_leap_time (length (list_of view.old) - 1) }
    ensures within { result < length (list_of view.old) }
    ensures at { IsPositionAt (list_of view.old) unix_leap_time result }
    ensures looks { IsAfterSearch view.old view.new 0 }
{
    let count = view.len();
    if count == 1 {
        return 0;
    }
    let power = power_up_to(count - 1);
    let first = position_after_look(view, 0, count - power, unix_leap_time);
    if power < BLOCK {
        return halved(view, first, power, 1, unix_leap_time);
    }
    let block = halved(view, first, power, BLOCK, unix_leap_time);
    position_in_block(view, block, unix_leap_time)
}

/// The position of a leap time before the last transition, if it lies among the four transitions
/// that are around it where two come in each year. In the last half year of a table there are no
/// such four, nor where so many would begin before it.
#[inline(always)]
fn guessed(view: &TransitionView<'_>, last: Transition, unix_leap_time: i64) -> Option<usize>
    requires guess { IsTrue (may_guess_of view.now) }
    requires rising { IsRising (list_of view.now) }
    ensures within { IfSome result (λ position. position < length (list_of view.now)) }
    ensures at { IfSome result
        (λ position. IsPositionAt (list_of view.now) unix_leap_time position) }
{
    let half_years = last.unix_leap_time().abs_diff(unix_leap_time) / HALF_YEAR;
    let first = (view.len() as u64).checked_sub(half_years + 3)? as usize;
    let four: &[Transition; 4] = view.chunk_at(first)?;
    if unix_leap_time < four[0].unix_leap_time() || four[3].unix_leap_time() <= unix_leap_time {
        return None;
    }
    let next = later_if_reached(four[1], first + 1, first + 2, unix_leap_time);
    Some(later_if_reached(four[2], next, first + 3, unix_leap_time))
}

/// The position of a leap time before the last of 128 to 256 transitions, all of which lie in the
/// first or in the last 128.
///
/// Each block of 128 is searched in seven steps without a loop.
#[inline(always)]
fn in_two_blocks(view: &TransitionView<'_>, unix_leap_time: i64) -> Option<usize>
    requires guess { IsTrue (may_guess_of view.now) }
    requires rising { IsRising (list_of view.now) }
    requires ahead { AreAhead (list_of view.now) unix_leap_time (length (list_of view.now) - 1) }
    ensures within { IfSome result (λ position. position < length (list_of view.now)) }
    ensures at { IfSome result
        (λ position. IsPositionAt (list_of view.now) unix_leap_time position) }
{
    let count = view.len();
    if count < BLOCK || count > 2 * BLOCK {
        return None;
    }
    let start = count - BLOCK;
    let early: &[Transition; BLOCK] = view.chunk_at(0)?;
    let late: &[Transition; BLOCK] = view.chunk_at(start)?;
    if early[BLOCK - 1].unix_leap_time() <= unix_leap_time {
        return Some(start + place_in_block(late, unix_leap_time));
    }
    Some(place_in_block(early, unix_leap_time))
}

/// The position at which a leap time before the last transition lies: by a guess, or else by
/// binary search.
///
/// A guess may read in vain, so there is none where the looks are to be few. It decides nothing by
/// itself: it is taken only if the transitions around it show that it is right.
#[inline(always)]
fn position_before(view: &mut TransitionView<'_>, last: Transition, unix_leap_time: i64) -> usize
    requires rising { IsRising (list_of view.old) }
    requires at_least_one { 0 < length (list_of view.old) }
    requires ahead { AreAhead (list_of view.old) unix_leap_time (length (list_of view.old) - 1) }
    ensures within { result < length (list_of view.old) }
    ensures at { IsPositionAt (list_of view.old) unix_leap_time result }
    ensures looks { IsAfterSearch view.old view.new 0 }
{
    let count = view.len();
    if count <= MOST_GUESSED && view.may_guess() {
        if let Some(position) = guessed(view, last, unix_leap_time) {
            return position;
        }
        if let Some(position) = in_two_blocks(view, unix_leap_time) {
            return position;
        }
    }
    position_by_halving(view, unix_leap_time)
}

/// The position at which a leap time lies. If the last transition is reached, no other one is
/// looked at.
#[inline(always)]
pub(super) fn position_of(
    view: &mut TransitionView<'_>,
    last: Transition,
    unix_leap_time: i64,
) -> usize
    requires rising { IsRising (list_of view.old) }
    requires last { IsLast (list_of view.old) last }
    requires at_least_one { 0 < length (list_of view.old) }
    ensures within { result ≤ length (list_of view.old) }
    ensures at { IsPositionAt (list_of view.old) unix_leap_time result }
    ensures looks { IsAfterSearch view.old view.new 0 }
{
    if last.unix_leap_time() <= unix_leap_time {
        return view.len();
    }
    position_before(view, last, unix_leap_time)
}

/// The position at which an instant lies: how many transitions are reached. There is none if the
/// instant has no leap time.
///
/// The last transition is looked at first: if it is reached, no other one is looked at.
#[inline(always)]
pub(super) fn position_at(
    view: &mut TransitionView<'_>,
    zone: &ZoneData<'_>,
    unix_time: i64,
) -> Option<usize>
    requires view { list_of view.old ≡ (zone_of_data zone.now).transitions }
    requires at_least_one { 0 < length (list_of view.old) }
    ensures position { MatchOption result
        (IsLeapTimeRefused (zone_of_data zone.now).leap_seconds unix_time)
        (λ position. (position ≤ length (list_of view.old))
        × IsReachedAt (zone_of_data zone.now) unix_time position) }
    ensures at_least_one { one_look_more (looks_of view.old) ≤ looks_of view.new }
    ensures none { IfNone result (IsAfterLooks view.old view.new 1) }
    ensures looks { IsAfterSearch view.old view.new 1 }
{
    let count = view.len();
    let last = view.look(count - 1);
    let Some(unix_leap_time) = leap_time(zone.leap_seconds, unix_time) else {
        return None;
    };
    Some(position_of(view, last, unix_leap_time))
}

/// The position at which an instant lies in a zone that has transitions, if it has a leap time.
/// Looks are not counted here, so none is taken before the leap time is known.
#[inline(always)]
pub(super) fn position_in(zone: &ZoneData<'_>, unix_time: i64) -> Option<usize>
    requires { 0 < length (zone_of_data zone.now).transitions }
    ensures { MatchOption result
        (IsLeapTimeRefused (zone_of_data zone.now).leap_seconds unix_time)
        (λ position. LiesAt (zone_of_data zone.now) unix_time position) }
{
    let transitions = zone.transitions;
    let unix_leap_time = leap_time(zone.leap_seconds, unix_time)?;
    let last = transitions[transitions.len() - 1];
    Some(position_of(&mut TransitionView::new(transitions), last, unix_leap_time))
}
