//! Time zones that own their parts. `TimeZone::from_tz_data` is in `parse/tz_file.rt`, zones are
//! opened by settings and names in `settings.rt`, and changes are in `changes.rt`.

ghost use Rattle.tz_zone.specs.Offsets.{AreEndOffsets};
ghost use Rattle.tz_zone.specs.Table.{zone_with};
ghost use Rattle.tz_zone.specs.ValidZone.{IsSoundTable, IsSoundTable-prop, IsValidZone};

use super::zone_checks::{check_parts, offset_range};
use super::zone_data::rule_ref;
use super::{LeapSecond, LocalTimeType, TimeZoneRef, Transition, TransitionRule};
use std::alloc::{Allocator, Global};
use std::fmt;
use std::hash::{Hash, Hasher};
use tz_base::error::TzError;

/// A time zone that owns its parts, on one allocator.
#[derive(Drop)]
pub struct TimeZone<A: Allocator + Copy = Global> {
    transitions: Vec<Transition, A>,
    local_time_types: Vec<LocalTimeType, A>,
    leap_seconds: Vec<LeapSecond, A>,
    extra_rule: Option<TransitionRule>,
    least_offset: i32,
    greatest_offset: i32,
    ghost sound: { IsSoundTable
        (zone_with transitions.items local_time_types.items leap_seconds.items
        extra_rule) } by { IsSoundTable-prop
            (zone_with transitions.items local_time_types.items leap_seconds.items
            extra_rule) },
    ghost valid: { ∥ IsValidZone
        (zone_with transitions.items local_time_types.items leap_seconds.items
        extra_rule) ∥₁ },
    ghost offsets: { ∥ AreEndOffsets
        (zone_with transitions.items local_time_types.items leap_seconds.items
        extra_rule) least_offset greatest_offset ∥₁ },
}

impl<A: Allocator + Copy> PartialEq for TimeZone<A> {
    ghost use Rattle.std.specs.Cmp.{on_per, partial_equiv_from_equiv};
    ghost use Rattle.tz_rule.specs.Same.{IsEquivalence-from_equality};
    ghost use Rattle.tz_zone.specs.SameZone.{same_zone, Decides-same_zone};
    ghost use Rattle.tz_zone.specs.ZoneRef.{own_zone_of};

    ghost eq = { λ a b. same_zone (own_zone_of a) (own_zone_of b) };

    ghost laws = { on_per own_zone_of (partial_equiv_from_equiv
        (IsEquivalence-from_equality same_zone Decides-same_zone)) };

    fn eq(&self, other: &TimeZone<A>) -> bool {
        self.as_ref() == other.as_ref()
    }
}

impl<A: Allocator + Copy> Eq for TimeZone<A> {
    ghost use Rattle.std.specs.Cmp.{on_equiv};
    ghost use Rattle.tz_rule.specs.Same.{IsEquivalence-from_equality};
    ghost use Rattle.tz_zone.specs.SameZone.{same_zone, Decides-same_zone};
    ghost use Rattle.tz_zone.specs.ZoneRef.{own_zone_of};

    ghost laws = { on_equiv own_zone_of (IsEquivalence-from_equality same_zone Decides-same_zone) };
}

impl<A: Allocator + Copy> Hash for TimeZone<A> {
    ghost use Rattle.std.proofs.Common.{ap};
    ghost use Rattle.tz_zone.specs.SameZone.{Decides-same_zone};
    ghost use Rattle.tz_zone.specs.ZoneHash.{zone_input};
    ghost use Rattle.tz_zone.specs.ZoneRef.{own_zone_of};

    ghost hash_input = { λ z. zone_input (own_zone_of z) };

    ghost respects_eq = { λ a b h. ap zone_input
        ((Decides-same_zone (own_zone_of a) (own_zone_of b)).0 h) };

    fn hash<H: Hasher>(&self, state: &mut H) {
        self.as_ref().hash(state);
    }
}

impl<A: Allocator + Copy> TimeZone<A> {
    ghost use Rattle.std.specs.Prelude.{◌≡◌, ◌⊎◌, pos, alloc_error, IfOk, IfErr, OnOk, length, true};
    ghost use Rattle.tz_base.specs.declared.error.LocalTimeTypeError.TheVariants as faults;
    ghost use Rattle.tz_rule.specs.LocalTimeType.{plain_type, IsOffset};
    ghost use Rattle.tz_zone.specs.Table.{zone_with, zone_of_type};
    ghost use Rattle.tz_zone.specs.Clock.{IsClock, IsLookupFault};
    ghost use Rattle.tz_zone.specs.ValidZone.{AreSound, IsValidZone, IsFirstZoneFault};
    ghost use Rattle.tz_zone.specs.ZoneRef.{zone_of, own_zone_of};

    /// The zone with these parts. (RFC 8536, section 3.2)
    ///
    /// A zone with a rule and no transitions:
    ///
    /// ```rust
    /// pub fn zone_of_rule(alloc: Global, rule: AlternateTime) -> Result<TimeZone, TzError> {
    ///     let types = Vec::from_array(alloc, [*rule.std(), *rule.dst()])?;
    ///     let rule = Some(TransitionRule::Alternate(rule));
    ///     TimeZone::new(Vec::new(alloc), types, Vec::new(alloc), rule)
    /// }
    /// ```
    ///
    /// # Errors
    ///
    /// The first of these:
    ///
    /// - [`TzError::TimeZone`] with `NoLocalTimeType` if there is no local time type;
    /// - [`TzError::TimeZone`] for the first transition that names no type
    ///   (`InvalidLocalTimeTypeIndex`), or that names one and is not before the next transition
    ///   (`InvalidTransition`);
    /// - [`TzError::TimeZone`] with `InvalidLeapSecond` if the first leap second is before 0, or if
    ///   another one is less than 28 days less a second after the one before it, or does not change
    ///   the correction by one second; the last record may instead repeat the correction, at any
    ///   later time, at which the table expires;
    /// - [`TzError::OutOfRange`] if the last transition takes effect at no instant, or the rule has
    ///   no type at that instant;
    /// - [`TzError::TimeZone`] with `InconsistentExtraRule` if the rule's type there is not that of
    ///   the transition.
    ///
    /// The last two are checked only if there are a rule and a transition, and the last transition
    /// is not before the leap-second table begins. On an error the lists are dropped.
    pub fn new(
        transitions: Vec<Transition, A>,
        local_time_types: Vec<LocalTimeType, A>,
        leap_seconds: Vec<LeapSecond, A>,
        extra_rule: Option<TransitionRule>,
    ) -> Result<Self, TzError>
        ensures parts { IfOk result (λ z. own_zone_of z
            ≡ zone_with transitions.items local_time_types.items
            leap_seconds.items extra_rule) }
        ensures ok { OnOk result (IsValidZone (zone_with transitions.items local_time_types.items
            leap_seconds.items extra_rule)) }
        ensures err { IfErr result (IsFirstZoneFault
            (zone_with transitions.items local_time_types.items leap_seconds.items extra_rule)) }
    {
        TimeZone::with_transitions(
            false,
            transitions,
            local_time_types,
            leap_seconds,
            extra_rule,
        )
    }

    /// The zone with these parts. If `are_sound`, the transitions are not checked again.
    pub(crate) fn with_transitions(
        are_sound: bool,
        transitions: Vec<Transition, A>,
        local_time_types: Vec<LocalTimeType, A>,
        leap_seconds: Vec<LeapSecond, A>,
        extra_rule: Option<TransitionRule>,
    ) -> Result<Self, TzError>
        requires { are_sound ≡ true
            → AreSound transitions.items (length local_time_types.items) }
        ensures parts { IfOk result (λ z. own_zone_of z
            ≡ zone_with transitions.items local_time_types.items
            leap_seconds.items extra_rule) }
        ensures ok { OnOk result (IsValidZone (zone_with transitions.items local_time_types.items
            leap_seconds.items extra_rule)) }
        ensures err { IfErr result (IsFirstZoneFault
            (zone_with transitions.items local_time_types.items leap_seconds.items extra_rule)) }
    {
        check_parts(
            are_sound,
            &transitions,
            &local_time_types,
            &leap_seconds,
            rule_ref(&extra_rule),
        )?;
        let (least_offset, greatest_offset) = offset_range(
            &local_time_types,
            rule_ref(&extra_rule),
        );
        Ok(TimeZone {
            transitions,
            local_time_types,
            leap_seconds,
            extra_rule,
            least_offset,
            greatest_offset,
        })
    }

    /// The zone that has UTC's type alone. [`TimeZoneRef::utc`] makes it without allocating.
    ///
    /// # Errors
    ///
    /// [`TzError::Memory`] if an allocation fails.
    pub fn utc(alloc: A) -> Result<Self, TzError>
        ensures ok { IfOk result (λ z. own_zone_of z ≡ zone_of_type (plain_type (pos 0))) }
        ensures err { IfErr result (λ e. e ≡ TzError.Memory alloc_error) }
    {
        TimeZone::with_type(alloc, LocalTimeType::utc())
    }

    /// The zone that has one type alone, with this offset from UTC in seconds.
    ///
    /// # Errors
    ///
    /// - [`TzError::LocalTimeType`] with `InvalidUtcOffset` if the offset is `i32::MIN`, which is
    ///   checked before anything is allocated;
    /// - [`TzError::Memory`] if an allocation fails.
    pub fn fixed(alloc: A, ut_offset: i32) -> Result<Self, TzError>
        ensures ok { IfOk result (λ z. IsOffset ut_offset
            × (own_zone_of z ≡ zone_of_type (plain_type ut_offset))) }
        ensures err { IfErr result (λ e. ((e ≡ TzError.LocalTimeType faults.InvalidUtcOffset)
            × ¬ IsOffset ut_offset) ⊎ ((e ≡ TzError.Memory alloc_error) × IsOffset ut_offset)) }
    {
        let local_time_type = LocalTimeType::with_ut_offset(ut_offset)?;
        TimeZone::with_type(alloc, local_time_type)
    }

    /// The zone that has one type alone.
    fn with_type(alloc: A, local_time_type: LocalTimeType) -> Result<Self, TzError>
        ensures ok { IfOk result (λ z. own_zone_of z ≡ zone_of_type local_time_type) }
        ensures err { IfErr result (λ e. e ≡ TzError.Memory alloc_error) }
    {
        let ut_offset = local_time_type.ut_offset();
        let local_time_types = Vec::from_array(alloc, [local_time_type])?;
        Ok(TimeZone {
            transitions: Vec::new(alloc),
            local_time_types,
            leap_seconds: Vec::new(alloc),
            extra_rule: None,
            least_offset: ut_offset,
            greatest_offset: ut_offset,
        })
    }

    /// A copy of the zone, on the same allocator.
    ///
    /// # Errors
    ///
    /// [`TzError::Memory`] if an allocation fails.
    pub fn try_clone(&self) -> Result<Self, TzError>
        ensures ok { IfOk result (λ z. own_zone_of z ≡ own_zone_of self.now) }
        ensures err { IfErr result (λ e. e ≡ TzError.Memory alloc_error) }
    {
        let transitions = self.transitions.clone()?;
        let local_time_types = self.local_time_types.clone()?;
        let leap_seconds = self.leap_seconds.clone()?;
        Ok(TimeZone {
            transitions,
            local_time_types,
            leap_seconds,
            extra_rule: self.extra_rule,
            least_offset: self.least_offset,
            greatest_offset: self.greatest_offset,
        })
    }

    /// The zone, borrowed.
    pub fn as_ref(&self) -> TimeZoneRef<'_>
        ensures { zone_of result ≡ own_zone_of self.now }
    {
        TimeZoneRef::from_valid_parts(
            &self.transitions,
            &self.local_time_types,
            &self.leap_seconds,
            &self.extra_rule,
            self.least_offset,
            self.greatest_offset,
        )
    }

    /// The clock's type at an instant, in Unix seconds. (RFC 8536, section 3.2)
    ///
    /// Before the first transition it is type number 0, from there up to the last one it is the
    /// type of the last transition that has been reached, and from the last one on that of the
    /// extra rule. A zone without transitions has the type of its rule, or type number 0 if it has
    /// no rule.
    ///
    /// # Errors
    ///
    /// - [`TzError::NoAvailableLocalTimeType`] if the last transition has taken effect and there is
    ///   no rule;
    /// - [`TzError::OutOfRange`] if the rule is needed and is not defined in that year: an
    ///   alternate rule is defined from the year `i32::MIN + 2` to `i32::MAX - 2` in UTC; or if the
    ///   zone has transitions and the instant has no leap time, because it is before a leap-second
    ///   table that begins late, or because the leap time does not fit an `i64`.
    pub fn find_local_time_type(&self, unix_time: i64) -> Result<&LocalTimeType, TzError>
        ensures ok { IfOk result (λ t. IsClock (own_zone_of self.now) unix_time t.now) }
        ensures err { IfErr result (IsLookupFault (own_zone_of self.now) unix_time) }
    {
        self.as_ref().find_local_time_type(unix_time)
    }

    /// The clock's type at the current time, which the caller passes as Unix seconds.
    ///
    /// # Errors
    ///
    /// Those of [`TimeZone::find_local_time_type`].
    pub fn find_current_local_time_type(&self, unix_time: i64) -> Result<&LocalTimeType, TzError>
        ensures ok { IfOk result (λ t. IsClock (own_zone_of self.now) unix_time t.now) }
        ensures err { IfErr result (IsLookupFault (own_zone_of self.now) unix_time) }
    {
        self.find_local_time_type(unix_time)
    }
}

/// Prints the name of the type and the four parts.
impl<A: Allocator + Copy> fmt::Debug for TimeZone<A> {
    fn fmt<W: fmt::Write>(&self, f: &mut fmt::Formatter<W>) -> fmt::Result {
        f.debug_struct("TimeZone")
            .field("transitions", &self.transitions)
            .field("local_time_types", &self.local_time_types)
            .field("leap_seconds", &self.leap_seconds)
            .field("extra_rule", &self.extra_rule)
            .finish()
    }
}
