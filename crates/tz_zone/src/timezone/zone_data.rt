//! Zones as plain data, whose tables and rule another owner has.

ghost use Rattle.std.specs.Prelude.{◌≡◌};
ghost use mir.Val.{SFits};
ghost use Rattle.std.specs.Int.{w32};
ghost use Rattle.tz_zone.specs.Offsets.{AreEndOffsets};
ghost use Rattle.tz_zone.specs.Table.{zone_with};
ghost use Rattle.tz_zone.specs.ValidZone.{IsSoundTable, IsSoundTable-prop, IsValidZone};
ghost use Rattle.tz_zone.specs.BorrowedRules.{borrowed_rule};

use super::zone_checks::{check_parts, offset_range};
use super::{Change, LeapSecond, LocalTimeType, Segment, TimeZoneRef, Transition, TransitionRule};
use crate::clock::{self, find_following, find_preceding};
use crate::table::TransitionView;
use tz_base::error::TzError;
use tz_rule::inner::RuleRef;

/// A time zone as slices of plain data, and its rule.
#[derive(Clone, Copy)]
pub struct ZoneData<'a> {
    pub(crate) transitions: &'a [Transition],
    pub(crate) local_time_types: &'a [LocalTimeType],
    pub(crate) leap_seconds: &'a [LeapSecond],
    rule: Option<RuleRef<'a>>,
    least_offset: i32,
    greatest_offset: i32,
    ghost sound: { IsSoundTable
        (zone_with transitions.now local_time_types.now leap_seconds.now
        (borrowed_rule rule)) } by { IsSoundTable-prop
            (zone_with transitions.now local_time_types.now leap_seconds.now
            (borrowed_rule rule)) },
    ghost valid: { ∥ IsValidZone (zone_with transitions.now local_time_types.now leap_seconds.now
        (borrowed_rule rule)) ∥₁ },
    ghost offsets: { ∥ AreEndOffsets
        (zone_with transitions.now local_time_types.now leap_seconds.now
        (borrowed_rule rule)) least_offset greatest_offset ∥₁ },
    ghost least_fits: { SFits w32 least_offset },
    ghost greatest_fits: { SFits w32 greatest_offset },
}

/// A reference to a rule, if there is one.
pub(super) const fn rule_ref(extra_rule: &Option<TransitionRule>) -> Option<RuleRef<'_>>
    ensures { borrowed_rule result ≡ extra_rule.now }
{
    match extra_rule {
        Some(rule) => Some(RuleRef::of(rule)),
        None => None,
    }
}

impl<'a> ZoneData<'a> {
    ghost use Rattle.std.specs.Prelude.{◌≡◌, ◌≤ℤ◌, IfOk, IfErr, OnOk, MatchOption};
    ghost use Rattle.tz_zone.specs.Changes.{segment_of, change_of, IsTrueSegment, IsFollowing, IsPreceding, HasNoFollowing, HasNoPreceding};
    ghost use Rattle.tz_zone.specs.Clock.{IsClock, IsLookupFault};
    ghost use Rattle.tz_zone.specs.Offsets.{AreEndOffsets};
    ghost use Rattle.tz_zone.specs.Table.{zone_with};
    ghost use Rattle.tz_zone.specs.TableChanges.{HasTableEnds};
    ghost use Rattle.tz_zone.specs.ValidZone.{IsSoundTable, IsValidZone, IsFirstZoneFault};
    ghost use Rattle.tz_zone.specs.BorrowedRules.{borrowed_rule};
    ghost use Rattle.tz_zone.specs.ZoneOfData.{zone_of_data};
    ghost use Rattle.tz_zone.specs.ZoneRef.{zone_of};

    /// The data of a zone.
    pub const fn of(zone: &TimeZoneRef<'a>) -> Self
        ensures { zone_of_data result ≡ zone_of zone.entry.now }
    {
        zone.zone_data
    }

    /// The zone with these parts, once they are checked.
    pub fn new(
        transitions: &'a [Transition],
        local_time_types: &'a [LocalTimeType],
        leap_seconds: &'a [LeapSecond],
        rule: Option<RuleRef<'a>>,
    ) -> Result<Self, TzError>
        ensures parts { IfOk result (λ z. zone_of_data z
            ≡ zone_with transitions.now local_time_types.now
            leap_seconds.now (borrowed_rule rule.entry)) }
        ensures ok { OnOk result (IsValidZone (zone_with transitions.now local_time_types.now
            leap_seconds.now (borrowed_rule rule.entry))) }
        ensures err { IfErr result (IsFirstZoneFault
            (zone_with transitions.now local_time_types.now leap_seconds.now
            (borrowed_rule rule.entry))) }
    {
        check_parts(false, transitions, local_time_types, leap_seconds, rule)?;
        let (least_offset, greatest_offset) = offset_range(local_time_types, rule);
        Ok(ZoneData {
            transitions,
            local_time_types,
            leap_seconds,
            rule,
            least_offset,
            greatest_offset,
        })
    }

    /// The zone with parts that are known to make one, and with its least and its greatest offset.
    pub const fn from_valid_parts(
        transitions: &'a [Transition],
        local_time_types: &'a [LocalTimeType],
        leap_seconds: &'a [LeapSecond],
        rule: Option<RuleRef<'a>>,
        least_offset: i32,
        greatest_offset: i32,
    ) -> Self
        requires sound { IsSoundTable (zone_with
            transitions.now local_time_types.now leap_seconds.now (borrowed_rule rule)) }
        requires valid { ∥ IsValidZone (zone_with
            transitions.now local_time_types.now leap_seconds.now (borrowed_rule rule)) ∥₁ }
        requires offsets { ∥ AreEndOffsets (zone_with
            transitions.now local_time_types.now leap_seconds.now (borrowed_rule rule))
            least_offset greatest_offset ∥₁ }
        ensures { zone_of_data result ≡ zone_with
            transitions.now local_time_types.now leap_seconds.now (borrowed_rule rule.entry) }
    {
        ZoneData {
            transitions,
            local_time_types,
            leap_seconds,
            rule,
            least_offset,
            greatest_offset,
        }
    }

    /// The transitions, in order.
    pub const fn transitions(&self) -> &'a [Transition]
        ensures { result.now ≡ (zone_of_data self.now).transitions }
    {
        self.transitions
    }

    /// The local time types, which the transitions name by their numbers.
    pub const fn local_time_types(&self) -> &'a [LocalTimeType]
        ensures { result.now ≡ (zone_of_data self.now).types }
    {
        self.local_time_types
    }

    /// The leap seconds, in order.
    pub const fn leap_seconds(&self) -> &'a [LeapSecond]
        ensures { result.now ≡ (zone_of_data self.now).leap_seconds }
    {
        self.leap_seconds
    }

    /// The rule from the last transition on.
    pub const fn rule(&self) -> Option<RuleRef<'a>>
        ensures { borrowed_rule result ≡ (zone_of_data self.now).extra_rule }
    {
        self.rule
    }

    /// The least and the greatest offset of the types and of the rule.
    pub const fn offsets(&self) -> (i32, i32)
        ensures { AreEndOffsets (zone_of_data self.now) result.0 result.1 }
    {
        (self.least_offset, self.greatest_offset)
    }

    /// The clock's type at an instant.
    #[inline(always)]
    pub fn find_local_time_type(&self, unix_time: i64) -> Result<&'a LocalTimeType, TzError>
        ensures ok { IfOk result (λ t. IsClock (zone_of_data self.now) unix_time t.now) }
        ensures err { IfErr result (IsLookupFault (zone_of_data self.now) unix_time) }
    {
        let mut view = TransitionView::new(self.transitions);
        clock::find_local_time_type(&mut view, self, unix_time)
    }

    /// The segment around an instant: the type of the clock, and from when until when it has it.
    pub fn segment_at(&self, unix_time: i64) -> Segment<'a>
        ensures within { ((segment_of result).from ≤ℤ unix_time)
            × (unix_time ≤ℤ (segment_of result).last) }
        ensures segment { IsTrueSegment (zone_of_data self.now) (segment_of result) }
        ensures ends { HasTableEnds (zone_of_data self.now) (segment_of result).from
            (segment_of result).last }
    {
        let mut view = TransitionView::new(self.transitions);
        clock::clock_segment_at(&mut view, self, unix_time)
    }

    /// The first change of the clock after an instant.
    pub fn following(&self, unix_time: i64) -> Option<Change<'a>>
        ensures { MatchOption result (HasNoFollowing (zone_of_data self.now) unix_time)
            (λ c. IsFollowing (zone_of_data self.now) unix_time (change_of c)) }
    {
        let (change, _) = find_following(self, unix_time)?;
        Some(change)
    }

    /// The last change of the clock before an instant.
    pub fn preceding(&self, unix_time: i64) -> Option<Change<'a>>
        ensures { MatchOption result (HasNoPreceding (zone_of_data self.now) unix_time)
            (λ c. IsPreceding (zone_of_data self.now) unix_time (change_of c)) }
    {
        let (change, _) = find_preceding(self, unix_time)?;
        Some(change)
    }
}
