//! Borrowed time zones.

ghost use Rattle.std.specs.Prelude.{◌≡◌};
ghost use Rattle.tz_zone.specs.BorrowedRules.{borrowed_rule};

use super::zone_data::{ZoneData, rule_ref};
use super::{LeapSecond, LocalTimeType, Transition, TransitionRule};
use crate::clock;
use crate::leap::table_checks::expiry;
use crate::table::TransitionView;
use std::fmt;
use std::hash::{Hash, Hasher};
use tz_base::error::TzError;

/// A borrowed time zone.
///
/// Before the last transition, the transitions determine its clock; from there on the extra rule
/// does.
#[derive(Clone, Copy)]
pub struct TimeZoneRef<'a> {
    pub(crate) zone_data: ZoneData<'a>,
    // The rule that `zone_data` keeps, as `extra_rule` returns it.
    extra_rule: &'a Option<TransitionRule>,
    ghost same: { borrowed_rule zone_data.rule ≡ extra_rule.now },
}

impl<'a> PartialEq for TimeZoneRef<'a> {
    ghost use Rattle.std.specs.Cmp.{on_per, partial_equiv_from_equiv};
    ghost use Rattle.tz_rule.specs.Same.{IsEquivalence-from_equality};
    ghost use Rattle.tz_zone.specs.SameZone.{same_zone, Decides-same_zone};
    ghost use Rattle.tz_zone.specs.ZoneRef.{zone_of};

    ghost eq = { λ a b. same_zone (zone_of a) (zone_of b) };

    ghost laws = { on_per zone_of (partial_equiv_from_equiv
        (IsEquivalence-from_equality same_zone Decides-same_zone)) };

    fn eq(&self, other: &TimeZoneRef<'a>) -> bool {
        self.zone_data.transitions == other.zone_data.transitions
            && self.zone_data.local_time_types == other.zone_data.local_time_types
            && self.zone_data.leap_seconds == other.zone_data.leap_seconds
            && self.extra_rule == other.extra_rule
    }
}

impl<'a> Eq for TimeZoneRef<'a> {
    ghost use Rattle.std.specs.Cmp.{on_equiv};
    ghost use Rattle.tz_rule.specs.Same.{IsEquivalence-from_equality};
    ghost use Rattle.tz_zone.specs.SameZone.{same_zone, Decides-same_zone};
    ghost use Rattle.tz_zone.specs.ZoneRef.{zone_of};

    ghost laws = { on_equiv zone_of (IsEquivalence-from_equality same_zone Decides-same_zone) };
}

impl<'a> Hash for TimeZoneRef<'a> {
    ghost use Rattle.std.proofs.Common.{ap};
    ghost use Rattle.tz_zone.specs.SameZone.{Decides-same_zone};
    ghost use Rattle.tz_zone.specs.ZoneHash.{zone_input};
    ghost use Rattle.tz_zone.specs.ZoneRef.{zone_of};

    ghost hash_input = { λ z. zone_input (zone_of z) };

    ghost respects_eq = { λ a b h. ap zone_input ((Decides-same_zone (zone_of a) (zone_of b)).0 h) };

    fn hash<H: Hasher>(&self, state: &mut H) {
        self.zone_data.transitions.hash(state);
        self.zone_data.local_time_types.hash(state);
        self.zone_data.leap_seconds.hash(state);
        self.extra_rule.hash(state);
    }
}

impl<'a> TimeZoneRef<'a> {
    ghost use Rattle.std.specs.Prelude.{◌≡◌, ◌+◌, ◌^◌, ◌<◌, ◌≤◌, ℕ, ℤ, pos, [], length, IfOk, IfErr, OnOk, IfSome, IfNone};
    ghost use Rattle.tz_rule.specs.LocalTimeType.{plain_type};
    ghost use Rattle.tz_zone.specs.Clock.{IsClock, IsLookupFault};
    ghost use Rattle.tz_zone.specs.Table.{zone_with, zone_of_type};
    ghost use Rattle.tz_zone.specs.Offsets.{AreEndOffsets};
    ghost use Rattle.tz_zone.specs.ValidZone.{ExpiresAt, IsSoundTable, IsValidZone, IsFirstZoneFault};
    ghost use Rattle.tz_zone.specs.ZoneRef.{zone_of};

    /// The zone with these parts. (RFC 8536, section 3.2)
    ///
    /// A zone from parts, without allocating: clocks were an hour ahead of UTC until the year 2000,
    /// and are two hours ahead from then on.
    ///
    /// ```rust
    /// pub fn moved_ahead_in_2000(unix_time: i64) -> Result<DateTime, TzError> {
    ///     let before = LocalTimeType::new(3600, false, Some(b"EARLY"))?;
    ///     let after = LocalTimeType::new(7200, false, Some(b"LATE"))?;
    ///     let types = [before, after];
    ///     let transitions = [Transition::new(946_684_800, 1)];
    ///     let rule = Some(TransitionRule::Fixed(after));
    ///     let zone = TimeZoneRef::new(&transitions, &types, &[], &rule)?;
    ///     DateTime::from_timespec(unix_time, 0, zone)
    /// }
    /// ```
    ///
    /// # Errors
    ///
    /// The first of these:
    ///
    /// - [`TzError::TimeZone`] with `NoLocalTimeType` if there is no local time type;
    /// - [`TzError::TimeZone`] for the first transition that names no type
    ///   (`InvalidLocalTimeTypeIndex`), or that names one and is not before the next transition
    ///   (`InvalidTransition`);
    /// - [`TzError::TimeZone`] with `InvalidLeapSecond` if the first leap second is before 0, or if
    ///   another one is less than 28 days less a second after the one before it, or does not change
    ///   the correction by one second; the last record may instead repeat the correction, at any
    ///   later time, at which the table expires;
    /// - [`TzError::OutOfRange`] if the last transition takes effect at no instant, or the rule has
    ///   no type at that instant;
    /// - [`TzError::TimeZone`] with `InconsistentExtraRule` if the rule's type there is not that of
    ///   the transition.
    ///
    /// The last two are checked only if there are a rule and a transition, and the last transition
    /// is not before the leap-second table begins.
    pub fn new(
        transitions: &'a [Transition],
        local_time_types: &'a [LocalTimeType],
        leap_seconds: &'a [LeapSecond],
        extra_rule: &'a Option<TransitionRule>,
    ) -> Result<Self, TzError>
        ensures parts { IfOk result (λ z. zone_of z ≡ zone_with transitions.now local_time_types.now
            leap_seconds.now extra_rule.now) }
        ensures ok { OnOk result (IsValidZone (zone_with transitions.now local_time_types.now
            leap_seconds.now extra_rule.now)) }
        ensures err { IfErr result (IsFirstZoneFault
            (zone_with transitions.now local_time_types.now leap_seconds.now extra_rule.now)) }
    {
        let rule = rule_ref(extra_rule);
        let zone_data = ZoneData::new(transitions, local_time_types, leap_seconds, rule)?;
        Ok(TimeZoneRef {
            zone_data,
            extra_rule,
        })
    }

    /// The zone with parts that are known to make one, and with its least and its greatest offset.
    pub(crate) const fn from_valid_parts(
        transitions: &'a [Transition],
        local_time_types: &'a [LocalTimeType],
        leap_seconds: &'a [LeapSecond],
        extra_rule: &'a Option<TransitionRule>,
        least_offset: i32,
        greatest_offset: i32,
    ) -> Self
        requires sound { IsSoundTable (zone_with transitions.now local_time_types.now
            leap_seconds.now
            extra_rule.now) }
        requires valid { ∥ IsValidZone
            (zone_with transitions.now local_time_types.now leap_seconds.now
            extra_rule.now) ∥₁ }
        requires offsets { ∥ AreEndOffsets
            (zone_with transitions.now local_time_types.now leap_seconds.now
            extra_rule.now) least_offset greatest_offset ∥₁ }
        ensures { zone_of result ≡ zone_with transitions.now local_time_types.now leap_seconds.now
            extra_rule.now }
    {
        let zone_data = ZoneData::from_valid_parts(
            transitions,
            local_time_types,
            leap_seconds,
            rule_ref(extra_rule),
            least_offset,
            greatest_offset,
        );
        TimeZoneRef {
            zone_data,
            extra_rule,
        }
    }

    /// The zone of UTC. Does not allocate.
    pub fn utc() -> TimeZoneRef<'static>
        ensures { zone_of result ≡ zone_of_type (plain_type (pos 0)) }
    {
        TimeZoneRef::from_valid_parts(
            &[],
            tz_rule::inner::utc_types(),
            &[],
            tz_rule::inner::no_rule(),
            0,
            0,
        )
    }

    /// The transitions, in order.
    pub const fn transitions(&self) -> &'a [Transition]
        ensures { result.now ≡ (zone_of self.now).transitions }
    {
        self.zone_data.transitions
    }

    /// The local time types, which the transitions name by their numbers.
    pub const fn local_time_types(&self) -> &'a [LocalTimeType]
        ensures { result.now ≡ (zone_of self.now).types }
    {
        self.zone_data.local_time_types
    }

    /// The leap seconds, in order.
    pub const fn leap_seconds(&self) -> &'a [LeapSecond]
        ensures { result.now ≡ (zone_of self.now).leap_seconds }
    {
        self.zone_data.leap_seconds
    }

    /// The leap time at which the leap-second table expires: that of a last record that repeats the
    /// correction before it. `None` if there is no such record.
    pub fn leap_expiry(&self) -> Option<i64>
        ensures some { IfSome result (ExpiresAt (zone_of self.now).leap_seconds) }
        ensures none { IfNone result ((time : ℤ)
            → ¬ ExpiresAt (zone_of self.now).leap_seconds time) }
    {
        expiry(self.zone_data.leap_seconds)
    }

    /// The rule from the last transition on.
    pub const fn extra_rule(&self) -> &'a Option<TransitionRule>
        ensures { result.now ≡ (zone_of self.now).extra_rule }
    {
        self.extra_rule
    }

    /// The clock's type at an instant, in Unix seconds. (RFC 8536, section 3.2)
    ///
    /// Before the first transition it is type number 0, from there up to the last one it is the
    /// type of the last transition that has been reached, and from the last one on that of the
    /// extra rule. A zone without transitions has the type of its rule, or type number 0 if it has
    /// no rule.
    ///
    /// # Errors
    ///
    /// - [`TzError::NoAvailableLocalTimeType`] if the last transition has taken effect and there is
    ///   no rule;
    /// - [`TzError::OutOfRange`] if the rule is needed and is not defined in that year: an
    ///   alternate rule is defined from the year `i32::MIN + 2` to `i32::MAX - 2` in UTC; or if the
    ///   zone has transitions and the instant has no leap time, because it is before a leap-second
    ///   table that begins late, or because the leap time does not fit an `i64`.
    #[inline(always)]
    pub fn find_local_time_type(&self, unix_time: i64) -> Result<&'a LocalTimeType, TzError>
        ensures ok { IfOk result (λ t. IsClock (zone_of self.now) unix_time t.now) }
        ensures err { IfErr result (IsLookupFault (zone_of self.now) unix_time) }
    {
        self.zone_data.find_local_time_type(unix_time)
    }

    /// The clock's type at an instant, and how many transitions were read. The count saturates at
    /// `u64::MAX`.
    ///
    /// # Errors
    ///
    /// Those of [`TimeZoneRef::find_local_time_type`].
    pub fn find_local_time_type_counted(
        &self,
        unix_time: i64,
    ) -> (Result<&'a LocalTimeType, TzError>, u64)
        ensures ok { IfOk result.0 (λ t. IsClock (zone_of self.now) unix_time t.now) }
        ensures err { IfErr result.0 (IsLookupFault (zone_of self.now) unix_time) }
        ensures at_most { (b : ℕ) → length (zone_of self.now).transitions < 2 ^ b
            → result.1 ≤ b + 2 }
        ensures at_least_one { 0 < length (zone_of self.now).transitions → 1 ≤ result.1 }
        ensures none { (zone_of self.now).transitions ≡ [] → result.1 ≡ 0 }
    {
        let mut view = TransitionView::counted(self.zone_data.transitions);
        let answer = clock::find_local_time_type(&mut view, &self.zone_data, unix_time);
        (answer, view.looks())
    }
}

/// Prints the name of the type and the four parts.
impl fmt::Debug for TimeZoneRef<'_> {
    fn fmt<W: fmt::Write>(&self, f: &mut fmt::Formatter<W>) -> fmt::Result {
        f.debug_struct("TimeZoneRef")
            .field("transitions", &self.zone_data.transitions)
            .field("local_time_types", &self.zone_data.local_time_types)
            .field("leap_seconds", &self.zone_data.leap_seconds)
            .field("extra_rule", &self.extra_rule)
            .finish()
    }
}
