//! The checks of a zone: transitions in order and to types of the zone, its table of leap seconds,
//! and a rule that agrees with the last transition.

ghost use Rattle.std.specs.Prelude.{◌≡◌, ℕ, ◌+◌, ◌<◌, length, OnOk, IfOk, IfErr, MatchBool, ◌⊎◌, ℤ, ◌≤ℤ◌, true};
ghost use Rattle.tz_rule.specs.LocalTimeType.{LocalTimeType};
ghost use Rattle.tz_rule.specs.RuleRef.{rule_seen};
ghost use Rattle.tz_zone.specs.Table.{zone_with};
ghost use Rattle.tz_zone.specs.BorrowedRules.{borrowed_rule};
ghost use Rattle.tz_zone.specs.ValidZone.{AreSound, IsRuleTypeAt, AreLeapSeconds, HasTypeAtIndex, RisesAtIndex, IsFirstTransitionFault, IsSoundTable, IsRuleFault, RuleAnswers, RuleAgrees, IsValidZone, IsFirstZoneFault};
ghost use Rattle.tz_zone.specs.Offsets.{IsOffsetOfTypes, IsOffsetOfRule, IsLeastOffset, IsGreatestOffset};

use super::{LeapSecond, LocalTimeType, Transition};
use crate::leap::leap_time::effect;
use crate::leap::table_checks::{are_leap_seconds, has_begun_at};
use tz_base::error::{TimeZoneError, TzError};
use tz_rule::inner::RuleRef;

/// Whether the type index of the transition at an index is below `types`, the number of types.
const fn has_type_at(transitions: &[Transition], types: usize, index: usize) -> bool
    requires { index < length transitions.now }
    ensures { MatchBool result (HasTypeAtIndex transitions.now types index)
        (¬ HasTypeAtIndex transitions.now types index) }
{
    transitions[index].local_time_type_index() < types
}

/// Whether the transition at an index comes before the next one.
const fn rises_at(transitions: &[Transition], index: usize) -> bool
    requires { index < length transitions.now }
    ensures { MatchBool result (RisesAtIndex transitions.now index)
        (¬ RisesAtIndex transitions.now index) }
{
    if index + 1 == transitions.len() {
        return true;
    }
    transitions[index].unix_leap_time() < transitions[index + 1].unix_leap_time()
}

/// Checks that each transition names one of so many types, and comes before the next one.
fn check_transitions(transitions: &[Transition], types: usize) -> Result<(), TimeZoneError>
    ensures ok { OnOk result (AreSound transitions.now types) }
    ensures err { IfErr result (IsFirstTransitionFault transitions.now types) }
{
    for i in 0..transitions.len() {
        if !has_type_at(transitions, types, i) {
            return Err(TimeZoneError::InvalidLocalTimeTypeIndex);
        }
        if !rises_at(transitions, i) {
            return Err(TimeZoneError::InvalidTransition);
        }
    }
    Ok(())
}

/// Checks transitions against the number of types, unless they are known to be sound.
fn check_unless_sound(
    are_sound: bool,
    transitions: &[Transition],
    types: usize,
) -> Result<(), TimeZoneError>
    requires { are_sound ≡ true → AreSound transitions.now types }
    ensures ok { OnOk result (AreSound transitions.now types) }
    ensures err { IfErr result (IsFirstTransitionFault transitions.now types) }
{
    if are_sound {
        return Ok(());
    }
    check_transitions(transitions, types)
}

/// The type that a rule has at the instant at which a leap time takes effect.
fn rule_type_at<'a>(
    rule: RuleRef<'a>,
    leap_seconds: &[LeapSecond],
    unix_leap_time: i64,
) -> Result<&'a LocalTimeType, TzError>
    requires { AreLeapSeconds leap_seconds.now }
    ensures ok { IfOk result
        (λ t. IsRuleTypeAt leap_seconds.now (rule_seen rule.entry) unix_leap_time t.now) }
    ensures err { IfErr result (λ e. (e ≡ TzError.OutOfRange)
        × ((t : LocalTimeType) → ¬ IsRuleTypeAt leap_seconds.now
        (rule_seen rule.entry) unix_leap_time t)) }
{
    match effect(leap_seconds, unix_leap_time) {
        Ok(unix_time) => tz_rule::inner::find_local_time_type(rule, unix_time),
        Err(error) => Err(error),
    }
}

/// Checks that the extra rule has the last transition's type there, unless the transition is before
/// a truncated start.
fn check_extra_rule(
    transitions: &[Transition],
    local_time_types: &[LocalTimeType],
    leap_seconds: &[LeapSecond],
    extra_rule: Option<RuleRef<'_>>,
) -> Result<(), TzError>
    requires { IsSoundTable (zone_with transitions.now local_time_types.now leap_seconds.now
        (borrowed_rule extra_rule)) }
    ensures answers { OnOk result (RuleAnswers
        (zone_with transitions.now local_time_types.now leap_seconds.now
        (borrowed_rule extra_rule.entry))) }
    ensures agrees { OnOk result (RuleAgrees
        (zone_with transitions.now local_time_types.now leap_seconds.now
        (borrowed_rule extra_rule.entry))) }
    ensures err { IfErr result (IsRuleFault
        (zone_with transitions.now local_time_types.now leap_seconds.now
        (borrowed_rule extra_rule.entry))) }
{
    let Some(rule) = extra_rule else {
        return Ok(());
    };
    let Some(last) = transitions.last() else {
        return Ok(());
    };
    let last_time = last.unix_leap_time();
    if !has_begun_at(leap_seconds, last_time) {
        return Ok(());
    }
    let rule_type = rule_type_at(rule, leap_seconds, last_time)?;
    if !rule_type.is_same(&local_time_types[last.local_time_type_index()]) {
        return Err(TzError::TimeZone(TimeZoneError::InconsistentExtraRule));
    }
    Ok(())
}

/// Checks the parts of a zone, in the order of their errors. If `are_sound`, the transitions are
/// not checked again.
pub(crate) fn check_parts(
    are_sound: bool,
    transitions: &[Transition],
    local_time_types: &[LocalTimeType],
    leap_seconds: &[LeapSecond],
    extra_rule: Option<RuleRef<'_>>,
) -> Result<(), TzError>
    requires { are_sound ≡ true → AreSound transitions.now (length local_time_types.now) }
    ensures ok { OnOk result (IsValidZone
        (zone_with transitions.now local_time_types.now leap_seconds.now
        (borrowed_rule extra_rule.entry))) }
    ensures err { IfErr result (IsFirstZoneFault
        (zone_with transitions.now local_time_types.now leap_seconds.now
        (borrowed_rule extra_rule.entry))) }
{
    if local_time_types.is_empty() {
        return Err(TzError::TimeZone(TimeZoneError::NoLocalTimeType));
    }
    if let Err(error) = check_unless_sound(are_sound, transitions, local_time_types.len()) {
        return Err(TzError::TimeZone(error));
    }
    if !are_leap_seconds(leap_seconds) {
        return Err(TzError::TimeZone(TimeZoneError::InvalidLeapSecond));
    }
    check_extra_rule(transitions, local_time_types, leap_seconds, extra_rule)
}

/// The range of offsets from `least` to `greatest`, widened just enough to hold `offset`.
fn with_offset(least: i32, greatest: i32, offset: i32) -> (i32, i32)
    ensures least { result.0 ≤ℤ least }
    ensures greatest { greatest ≤ℤ result.1 }
    ensures between { (result.0 ≤ℤ offset) × (offset ≤ℤ result.1) }
    ensures exact { ((result.0 ≡ least) ⊎ (result.0 ≡ offset))
        × ((result.1 ≡ greatest) ⊎ (result.1 ≡ offset)) }
{
    (least.min(offset), greatest.max(offset))
}

/// The least and the greatest offset of the types.
fn offsets_of_types(local_time_types: &[LocalTimeType]) -> (i32, i32)
    requires { 0 < length local_time_types.now }
    ensures of_types { IsOffsetOfTypes local_time_types.now result.0
        × IsOffsetOfTypes local_time_types.now result.1 }
    ensures between { (o : ℤ) → IsOffsetOfTypes local_time_types.now o
        → (result.0 ≤ℤ o) × (o ≤ℤ result.1) }
{
    let first = local_time_types[0].ut_offset();
    let (mut least, mut greatest) = (first, first);
    for index in 0..local_time_types.len() {
        let ends = with_offset(least, greatest, local_time_types[index].ut_offset());
        least = ends.0;
        greatest = ends.1;
    }
    (least, greatest)
}

/// The range of offsets from `least` to `greatest`, widened just enough to hold those of the rule.
fn with_rule(rule: RuleRef<'_>, least: i32, greatest: i32) -> (i32, i32)
    ensures least { result.0 ≤ℤ least }
    ensures greatest { greatest ≤ℤ result.1 }
    ensures between { (o : ℤ) → IsOffsetOfRule (rule_seen rule.entry) o
        → (result.0 ≤ℤ o) × (o ≤ℤ result.1) }
    ensures exact { ((result.0 ≡ least) ⊎ IsOffsetOfRule (rule_seen rule.entry) result.0)
        × ((result.1 ≡ greatest) ⊎ IsOffsetOfRule (rule_seen rule.entry) result.1) }
{
    match rule {
        RuleRef::Fixed(local_time_type) => {
            with_offset(least, greatest, local_time_type.ut_offset())
        }
        RuleRef::Alternate(rule) => {
            let with_std = with_offset(least, greatest, rule.std().ut_offset());
            with_offset(with_std.0, with_std.1, rule.dst().ut_offset())
        }
    }
}

/// The least and the greatest offset of the types and of the rule.
pub(super) fn offset_range(
    local_time_types: &[LocalTimeType],
    extra_rule: Option<RuleRef<'_>>,
) -> (i32, i32)
    requires { 0 < length local_time_types.now }
    ensures least { IsLeastOffset local_time_types.now (borrowed_rule extra_rule.entry) result.0 }
    ensures greatest { IsGreatestOffset local_time_types.now (borrowed_rule extra_rule.entry)
        result.1 }
{
    let (least, greatest) = offsets_of_types(local_time_types);
    match extra_rule {
        Some(rule) => with_rule(rule, least, greatest),
        None => (least, greatest),
    }
}
