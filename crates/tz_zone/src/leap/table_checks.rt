//! The table of leap seconds, and its checks.

ghost use Rattle.std.specs.Prelude.{◌≡◌, ◌<◌, ◌≤◌, ℤ, pos, ◌+ℤ◌, ◌-ℤ◌, ◌≤ℤ◌, length, slice_get};
ghost use Rattle.std.specs.Prelude.{IfSome, IfNone, MatchBool, MatchOption};
ghost use Rattle.tz_zone.specs.LeapTime.{IsOneSecond, IsStart};
ghost use Rattle.tz_zone.specs.LeapTime.{correction_at_start as correction_of_start};
ghost use Rattle.tz_zone.specs.LeapTime.{correction_before as correction_at_index};
ghost use Rattle.tz_zone.specs.Table.{LeapSecond};
ghost use Rattle.tz_zone.specs.ValidZone.{AreLeapSeconds, MayBeFirst, MayFollow, FollowsAt};
ghost use Rattle.tz_zone.specs.ValidZone.{HasBegunAt, ExpiresAt, IsPlainTable};

use std::hash::{Hash, Hasher};
use std::marker::Model;
use tz_base::constants::SECONDS_PER_28_DAYS;

/// A leap time from which on leap time is ahead of Unix time by a correction.
#[repr(C)]
#[derive(Clone, Copy, Debug, PartialEq, Eq)]
pub struct LeapSecond {
    unix_leap_time: i64,
    correction: i32,
}

impl Model for LeapSecond {
    ghost use Rattle.tz_zone.specs.Table.{LeapSecond};

    ghost Value = { LeapSecond };

    ghost view = { λ l. record { unix_leap_time = l.unix_leap_time; correction = l.correction } };

    ghost inverse = { λ l. record {
      unix_leap_time = l.unix_leap_time;
      correction =
          l.correction;
    } };
}

impl Hash for LeapSecond {
    ghost use Rattle.std.specs.Cmp.Rules.{hashing};
    ghost use Rattle.std.proofs.Common.{rules};
    ghost use Rattle.tz_zone.specs.ZoneHash.{leap_input};

    ghost hash_input = { leap_input };

    ghost respects_eq = { Prim.search (hashing, rules) };

    fn hash<H: Hasher>(&self, state: &mut H) {
        self.unix_leap_time.hash(state);
        self.correction.hash(state);
    }
}

impl LeapSecond {
    /// The leap second at this leap time, from which on leap time is ahead of Unix time by this
    /// correction.
    pub const fn new(unix_leap_time: i64, correction: i32) -> Self
        ensures { result ≡ record { unix_leap_time = unix_leap_time; correction = correction } }
    {
        LeapSecond {
            unix_leap_time,
            correction,
        }
    }

    /// The leap time at which the correction begins.
    pub const fn unix_leap_time(&self) -> i64
        ensures { result ≡ self.now.unix_leap_time }
    {
        self.unix_leap_time
    }

    /// The seconds by which leap time is ahead of Unix time from then on.
    pub const fn correction(&self) -> i32
        ensures { result ≡ self.now.correction }
    {
        self.correction
    }
}

/// Whether a leap second may come first.
const fn may_be_first(leap_second: LeapSecond) -> bool
    ensures { MatchBool result (MayBeFirst leap_second) (¬ MayBeFirst leap_second) }
{
    leap_second.unix_leap_time() >= 0
}

/// Whether two corrections differ by one second.
fn is_one_second_apart(correction: i32, next: i32) -> bool
    ensures { MatchBool result (IsOneSecond (next -ℤ correction))
        (¬ IsOneSecond (next -ℤ correction)) }
{
    let apart = i64::from(next) - i64::from(correction);
    apart == 1 || apart == -1
}

/// Whether `next` comes at least 28 days, less a second, after the leap time `time`.
fn is_far_from(time: i64, next: i64) -> bool
    ensures { MatchBool result ((time +ℤ pos 2419199) ≤ℤ next) (¬ ((time +ℤ pos 2419199) ≤ℤ next)) }
{
    i128::from(time) + i128::from(SECONDS_PER_28_DAYS) - 1 <= i128::from(next)
}

/// Whether the leap second `next` may come after `leap_second`.
fn may_follow(leap_second: &LeapSecond, next: &LeapSecond) -> bool
    ensures { MatchBool result (MayFollow leap_second.now next.now)
        (¬ MayFollow leap_second.now next.now) }
{
    is_far_from(leap_second.unix_leap_time(), next.unix_leap_time())
        && is_one_second_apart(leap_second.correction(), next.correction())
}

/// Whether the record after an index comes later and, unless it is the table's expiry, is a leap
/// second that may follow.
fn follows_at(leap_seconds: &[LeapSecond], index: usize) -> bool
    requires { index < length leap_seconds.now }
    ensures { MatchBool result (FollowsAt leap_seconds.now index)
        (¬ FollowsAt leap_seconds.now index) }
{
    if index + 1 == leap_seconds.len() {
        return true;
    }
    let leap_second = &leap_seconds[index];
    let next = &leap_seconds[index + 1];
    if index + 2 == leap_seconds.len() && next.correction() == leap_second.correction() {
        return leap_second.unix_leap_time() < next.unix_leap_time();
    }
    may_follow(leap_second, next)
}

/// Whether the leap seconds make a table.
pub(crate) fn are_leap_seconds(leap_seconds: &[LeapSecond]) -> bool
    ensures { MatchBool result (AreLeapSeconds leap_seconds.now)
        (¬ AreLeapSeconds leap_seconds.now) }
{
    if leap_seconds.is_empty() {
        return true;
    }
    if !may_be_first(leap_seconds[0]) {
        return false;
    }
    for i in 0..leap_seconds.len() {
        if !follows_at(leap_seconds, i) {
            return false;
        }
    }
    true
}

/// The truncated start: the first record, if its correction is neither 1 nor -1. Instants before it
/// have no leap time. (RFC 9636, 3.2)
pub(crate) fn truncated_start(leap_seconds: &[LeapSecond]) -> Option<&LeapSecond>
    ensures { MatchOption result ((l : LeapSecond) → ¬ IsStart leap_seconds.now l)
        (λ l. IsStart leap_seconds.now l.now) }
{
    let first = leap_seconds.first()?;
    let correction = first.correction();
    if correction == 1 || correction == -1 {
        return None;
    }
    Some(first)
}

/// Whether the table has begun at the leap time: it has no truncated start, or that is reached.
pub(crate) fn has_begun_at(leap_seconds: &[LeapSecond], unix_leap_time: i64) -> bool
    ensures { MatchBool result (HasBegunAt leap_seconds.now unix_leap_time)
        (¬ HasBegunAt leap_seconds.now unix_leap_time) }
{
    match truncated_start(leap_seconds) {
        Some(start) => start.unix_leap_time() <= unix_leap_time,
        None => true,
    }
}

/// The leap time at which the table expires: that of a last record that repeats the correction
/// before it.
pub(crate) fn expiry(leap_seconds: &[LeapSecond]) -> Option<i64>
    ensures some { IfSome result (ExpiresAt leap_seconds.now) }
    ensures none { IfNone result ((time : ℤ) → ¬ ExpiresAt leap_seconds.now time) }
{
    if leap_seconds.len() < 2 {
        return None;
    }
    let before = &leap_seconds[leap_seconds.len() - 2];
    let last = &leap_seconds[leap_seconds.len() - 1];
    if last.correction() != before.correction() {
        return None;
    }
    Some(last.unix_leap_time())
}

/// Whether the table begins with its first leap second and does not expire, as in files before
/// version 4.
pub(crate) fn is_plain_table(leap_seconds: &[LeapSecond]) -> bool
    ensures { MatchBool result (IsPlainTable leap_seconds.now) (¬ IsPlainTable leap_seconds.now) }
{
    truncated_start(leap_seconds).is_none() && expiry(leap_seconds).is_none()
}

/// The correction before the first index of the list: 0, or at a truncated start that of the first
/// record.
pub(crate) fn correction_at_start(leap_seconds: &[LeapSecond]) -> i32
    ensures { result ≡ correction_of_start (slice_get leap_seconds.now 0) }
{
    match truncated_start(leap_seconds) {
        Some(start) => start.correction(),
        None => 0,
    }
}

/// The correction before an index of the list.
pub(crate) fn correction_before(leap_seconds: &[LeapSecond], index: usize) -> i32
    requires { index ≤ length leap_seconds.now }
    ensures { result ≡ correction_at_index leap_seconds.now index }
{
    if index == 0 {
        return correction_at_start(leap_seconds);
    }
    leap_seconds[index - 1].correction()
}
