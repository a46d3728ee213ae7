//! The segments of a zone's clock, and where it changes.

use super::{Change, Segment, TimeZone, TimeZoneRef};
use crate::clock;
use std::alloc::Allocator;
use std::iter::FusedIterator;

impl<'a> TimeZoneRef<'a> {
    ghost use Rattle.std.specs.Prelude.{◌≡◌, ◌≤ℤ◌, MatchOption};
    ghost use Rattle.tz_zone.specs.Changes.{segment_of, change_of, IsTrueSegment, IsFollowing, IsPreceding, HasNoFollowing, HasNoPreceding};
    ghost use Rattle.tz_zone.specs.ChangesInTurn.{position_after, position_before};
    ghost use Rattle.tz_zone.specs.TableChanges.{HasTableEnds};
    ghost use Rattle.tz_zone.specs.ZoneRef.{zone_of};

    /// The segment around an instant, in Unix seconds. Does not allocate.
    ///
    /// The next segment is the one around `last() + 1`. It may have the same type, as after a
    /// transition to an equal type.
    ///
    /// What clocks show at a Unix time of a log, with the segment cached for the next entry:
    ///
    /// ```rust
    /// pub fn show_entry<'a>(
    ///     zone: TimeZoneRef<'a>,
    ///     segment: &mut Segment<'a>,
    ///     unix_time: i64,
    /// ) -> Result<DateTime, TzError> {
    ///     if !segment.contains(unix_time) {
    ///         *segment = zone.segment_at(unix_time);
    ///     }
    ///     let local_time_type = segment
    ///         .local_time_type()
    ///         .ok_or(TzError::NoAvailableLocalTimeType)?;
    ///     DateTime::from_timespec_and_local(unix_time, 0, *local_time_type)
    /// }
    /// ```
    pub fn segment_at(&self, unix_time: i64) -> Segment<'a>
        ensures within { ((segment_of result).from ≤ℤ unix_time)
            × (unix_time ≤ℤ (segment_of result).last) }
        ensures segment { IsTrueSegment (zone_of self.now) (segment_of result) }
        ensures ends { HasTableEnds (zone_of self.now) (segment_of result).from
            (segment_of result).last }
    {
        self.zone_data.segment_at(unix_time)
    }

    /// The first change after an instant, in Unix seconds, or `None` if the clock does not change
    /// any more. Does not allocate.
    ///
    /// A transition to an equal type is not a change, nor is the point where a clock begins or
    /// ceases to have a type.
    ///
    /// If the next transition, or the next start or end of daylight saving time, is a change, this
    /// costs about as much as a lookup, and for a rule that never changes the type a few times as
    /// much. It costs most over a run of transitions to equal types, all of which are read, and for
    /// a rule whose start and end coincide in most years, of which all are read up to one in which
    /// they differ.
    ///
    /// When clocks are set next, and by how many seconds forward:
    ///
    /// ```rust
    /// pub fn next_change(
    ///     zone: TimeZoneRef<'_>,
    ///     now: i64,
    /// ) -> Result<Option<(DateTime, i64)>, TzError> {
    ///     let Some(change) = zone.following(now) else {
    ///         return Ok(None);
    ///     };
    ///     let shown = DateTime::from_timespec(change.unix_time(), 0, zone)?;
    ///     let seconds =
    ///         i64::from(change.after().ut_offset()) - i64::from(change.before().ut_offset());
    ///     Ok(Some((shown, seconds)))
    /// }
    /// ```
    pub fn following(&self, unix_time: i64) -> Option<Change<'a>>
        ensures { MatchOption result (HasNoFollowing (zone_of self.now) unix_time)
            (λ c. IsFollowing (zone_of self.now) unix_time (change_of c)) }
    {
        self.zone_data.following(unix_time)
    }

    /// The first change after an instant, and the position after it, for the next call. `position`
    /// may be that after a change at the instant: one comparison shows whether it is, and if not,
    /// the table is searched.
    #[inline(always)]
    pub(crate) fn following_from(
        &self,
        unix_time: i64,
        position: usize,
    ) -> Option<(Change<'a>, usize)>
        ensures { MatchOption result (HasNoFollowing (zone_of self.now) unix_time)
            (λ found. IsFollowing (zone_of self.now) unix_time (change_of found.0)) }
    {
        if let Some(found) = clock::change_after_last(&self.zone_data, unix_time, position) {
            return Some(found);
        }
        self.search_following(unix_time)
    }

    /// The first change after an instant, and the position after it.
    fn search_following(&self, unix_time: i64) -> Option<(Change<'a>, usize)>
        ensures { MatchOption result (HasNoFollowing (zone_of self.now) unix_time)
            (λ found. IsFollowing (zone_of self.now) unix_time (change_of found.0)) }
    {
        clock::find_following(&self.zone_data, unix_time)
    }

    /// The last change before an instant, in Unix seconds, or `None` if the clock has not changed
    /// before. Does not allocate.
    ///
    /// A transition to an equal type is not a change, nor is the point where a clock begins or
    /// ceases to have a type. The cost is that of [`TimeZoneRef::following`].
    ///
    /// How many seconds ago clocks changed last:
    ///
    /// ```rust
    /// pub fn since_last_change(zone: TimeZoneRef<'_>, now: i64) -> Option<u64> {
    ///     let change = zone.preceding(now)?;
    ///     Some(now.abs_diff(change.unix_time()))
    /// }
    /// ```
    pub fn preceding(&self, unix_time: i64) -> Option<Change<'a>>
        ensures { MatchOption result (HasNoPreceding (zone_of self.now) unix_time)
            (λ c. IsPreceding (zone_of self.now) unix_time (change_of c)) }
    {
        self.zone_data.preceding(unix_time)
    }

    /// The last change before an instant, and the position before it, for the next call. `position`
    /// may be that before a change at the instant: one comparison shows whether it is, and if not,
    /// the table is searched.
    #[inline(always)]
    pub(crate) fn preceding_from(
        &self,
        unix_time: i64,
        position: usize,
    ) -> Option<(Change<'a>, usize)>
        ensures { MatchOption result (HasNoPreceding (zone_of self.now) unix_time)
            (λ found. IsPreceding (zone_of self.now) unix_time (change_of found.0)) }
    {
        if let Some(found) = clock::change_before_next(&self.zone_data, unix_time, position) {
            return Some(found);
        }
        self.search_preceding(unix_time)
    }

    /// The last change before an instant, and the position before it.
    fn search_preceding(&self, unix_time: i64) -> Option<(Change<'a>, usize)>
        ensures { MatchOption result (HasNoPreceding (zone_of self.now) unix_time)
            (λ found. IsPreceding (zone_of self.now) unix_time (change_of found.0)) }
    {
        clock::find_preceding(&self.zone_data, unix_time)
    }

    /// The changes after an instant, in Unix seconds, in the order of time: the one that
    /// `following` returns, and so on from each. Does not allocate.
    ///
    /// A step costs about as much as a call of [`TimeZoneRef::following`]. It first looks at the
    /// transition after that of the last change, and so rarely searches the table.
    ///
    /// The changes of a zone in the 20 years before an instant and at it, and the next two after
    /// it:
    ///
    /// ```rust
    /// pub fn changes_around(
    ///     alloc: Global,
    ///     zone: TimeZoneRef<'_>,
    ///     now: i64,
    /// ) -> Result<Vec<Change<'_>>, TzError> {
    ///     // 20 years of 365.2425 days.
    ///     let start = now.saturating_sub(20 * 31_556_952);
    ///     let mut changes = Vec::new(alloc);
    ///     for change in zone.changes_after(start) {
    ///         if now < change.unix_time() {
    ///             break;
    ///         }
    ///         changes.push(change)?;
    ///     }
    ///     for change in zone.changes_after(now).take(2) {
    ///         changes.push(change)?;
    ///     }
    ///     Ok(changes)
    /// }
    /// ```
    pub const fn changes_after(&self, unix_time: i64) -> ChangesAfter<'a>
        ensures { position_after result ≡ record {
          zone = zone_of self.now;
          unix_time = unix_time;
        } }
    {
        ChangesAfter::new(*self, unix_time)
    }

    /// The changes before an instant, in Unix seconds, from the last one back: the one that
    /// `preceding` returns, and so on from each. Does not allocate.
    ///
    /// The cost of a step is that of [`TimeZoneRef::changes_after`].
    ///
    /// When clocks were last set forward before an instant:
    ///
    /// ```rust
    /// pub fn last_set_forward(zone: TimeZoneRef<'_>, now: i64) -> Option<i64> {
    ///     for change in zone.changes_before(now) {
    ///         if change.before().ut_offset() < change.after().ut_offset() {
    ///             return Some(change.unix_time());
    ///         }
    ///     }
    ///     None
    /// }
    /// ```
    pub const fn changes_before(&self, unix_time: i64) -> ChangesBefore<'a>
        ensures { position_before result ≡ record {
          zone = zone_of self.now;
          unix_time = unix_time;
        } }
    {
        ChangesBefore::new(*self, unix_time)
    }
}

impl<A: Allocator + Copy> TimeZone<A> {
    ghost use Rattle.std.specs.Prelude.{◌≡◌, ◌≤ℤ◌, MatchOption};
    ghost use Rattle.tz_zone.specs.Changes.{segment_of, change_of, IsTrueSegment, IsFollowing, IsPreceding, HasNoFollowing, HasNoPreceding};
    ghost use Rattle.tz_zone.specs.ChangesInTurn.{position_after, position_before};
    ghost use Rattle.tz_zone.specs.TableChanges.{HasTableEnds};
    ghost use Rattle.tz_zone.specs.ZoneRef.{own_zone_of};

    /// The segment around an instant, as [`TimeZoneRef::segment_at`] returns it.
    pub fn segment_at(&self, unix_time: i64) -> Segment<'_>
        ensures within { ((segment_of result).from ≤ℤ unix_time)
            × (unix_time ≤ℤ (segment_of result).last) }
        ensures segment { IsTrueSegment (own_zone_of self.now) (segment_of result) }
        ensures ends { HasTableEnds (own_zone_of self.now) (segment_of result).from
            (segment_of result).last }
    {
        self.as_ref().segment_at(unix_time)
    }

    /// The first change after an instant, as [`TimeZoneRef::following`] returns it.
    pub fn following(&self, unix_time: i64) -> Option<Change<'_>>
        ensures { MatchOption result (HasNoFollowing (own_zone_of self.now) unix_time)
            (λ c. IsFollowing (own_zone_of self.now) unix_time (change_of c)) }
    {
        self.as_ref().following(unix_time)
    }

    /// The last change before an instant, as [`TimeZoneRef::preceding`] returns it.
    pub fn preceding(&self, unix_time: i64) -> Option<Change<'_>>
        ensures { MatchOption result (HasNoPreceding (own_zone_of self.now) unix_time)
            (λ c. IsPreceding (own_zone_of self.now) unix_time (change_of c)) }
    {
        self.as_ref().preceding(unix_time)
    }

    /// The changes after an instant, as [`TimeZoneRef::changes_after`] returns them.
    pub fn changes_after(&self, unix_time: i64) -> ChangesAfter<'_>
        ensures { position_after result ≡ record {
          zone = own_zone_of self.now;
          unix_time = unix_time;
        } }
    {
        self.as_ref().changes_after(unix_time)
    }

    /// The changes before an instant, as [`TimeZoneRef::changes_before`] returns them.
    pub fn changes_before(&self, unix_time: i64) -> ChangesBefore<'_>
        ensures { position_before result ≡ record {
          zone = own_zone_of self.now;
          unix_time = unix_time;
        } }
    {
        self.as_ref().changes_before(unix_time)
    }
}

/// The changes of a clock after an instant, each one after the one before. Does not allocate.
///
/// After `None` each call returns `None`.
#[derive(Clone, Debug, Drop)]
pub struct ChangesAfter<'a> {
    zone: TimeZoneRef<'a>,
    unix_time: i64,
    position: usize,
}

impl<'a> ChangesAfter<'a> {
    ghost use Rattle.std.specs.Prelude.{◌≡◌};
    ghost use Rattle.tz_zone.specs.ChangesInTurn.{position_after};
    ghost use Rattle.tz_zone.specs.ZoneRef.{zone_of};

    /// The changes of a zone's clock after an instant.
    pub(crate) const fn new(zone: TimeZoneRef<'a>, unix_time: i64) -> Self
        ensures { position_after result ≡ record {
          zone = zone_of zone.entry;
          unix_time = unix_time;
        } }
    {
        ChangesAfter {
            zone,
            unix_time,
            position: 0,
        }
    }
}

impl<'a> Iterator for ChangesAfter<'a> {
    ghost use Rattle.std.specs.Prelude.{pos, ◌-ℤ◌, unsigned_abs};
    ghost use Rattle.std.specs.Iterator.{at_most};
    ghost use Rattle.tz_zone.specs.ChangesInTurn.{GivesFollowing};

    type Item = Change<'a>;

    ghost next_gives = { GivesFollowing };

    ghost remaining = { λ s. at_most (unsigned_abs (pos 9223372036854775807 -ℤ s.unix_time)) };

    fn next(&mut self) -> Option<Change<'a>> {
        let (next, position) = self.zone.following_from(self.unix_time, self.position)?;
        self.unix_time = next.unix_time();
        self.position = position;
        Some(next)
    }
}

impl FusedIterator for ChangesAfter<'_> {}

/// The changes of a clock before an instant, from the latest back. Does not allocate.
///
/// After `None` each call returns `None`.
#[derive(Clone, Debug, Drop)]
pub struct ChangesBefore<'a> {
    zone: TimeZoneRef<'a>,
    unix_time: i64,
    position: usize,
}

impl<'a> ChangesBefore<'a> {
    ghost use Rattle.std.specs.Prelude.{◌≡◌};
    ghost use Rattle.tz_zone.specs.ChangesInTurn.{position_before};
    ghost use Rattle.tz_zone.specs.ZoneRef.{zone_of};

    /// The changes of a zone's clock before an instant.
    pub(crate) const fn new(zone: TimeZoneRef<'a>, unix_time: i64) -> Self
        ensures { position_before result ≡ record {
          zone = zone_of zone.entry;
          unix_time = unix_time;
        } }
    {
        ChangesBefore {
            zone,
            unix_time,
            position: 0,
        }
    }
}

impl<'a> Iterator for ChangesBefore<'a> {
    ghost use Rattle.std.specs.Prelude.{negsuc, ◌-ℤ◌, unsigned_abs};
    ghost use Rattle.std.specs.Iterator.{at_most};
    ghost use Rattle.tz_zone.specs.ChangesInTurn.{GivesPreceding};

    type Item = Change<'a>;

    ghost next_gives = { GivesPreceding };

    ghost remaining = { λ s. at_most (unsigned_abs (s.unix_time -ℤ negsuc 9223372036854775807)) };

    fn next(&mut self) -> Option<Change<'a>> {
        let (previous, position) = self.zone.preceding_from(self.unix_time, self.position)?;
        self.unix_time = previous.unix_time();
        self.position = position;
        Some(previous)
    }
}

impl FusedIterator for ChangesBefore<'_> {}
