//! Local time types, rule days, alternate rules, and zones.

ghost use Rattle.tz_base.specs.declared.error.TransitionRuleError.TheVariants as rule_faults;
ghost use Rattle.tz_rule.specs.declared.timezone.rule_day.RuleDay.TheVariants as days;
ghost use Rattle.tz_base.specs.declared.error.TzError.TheVariants as faults;
ghost use Rattle.std.specs.Prelude.{◌≡◌, ◌≢◌, MatchOption, ◌≤ℤ◌, ◌<◌, ◌++◌, ◌⊎◌, ℕ, slice_get};
ghost use Rattle.tz_rule.specs.Alternate.{alternate_of};
ghost use Rattle.tz_rule.specs.RuleDayNumbers.{IsJulianDay, IsZeroBasedDay};
ghost use Rattle.tz_rule.specs.LocalTimeType.{type_of};
ghost use Rattle.tz_rule.specs.MonthWeek.{IsMonthWeek, IsFirstMonthWeekFault, month_week};
ghost use Rattle.tz_zone.specs.Changes.{IsTrueSegment, IsFollowing, IsPreceding, HasNoFollowing};
ghost use Rattle.tz_zone.specs.Changes.{HasNoPreceding};
ghost use Rattle.tz_zone.specs.Clock.{IsClock, IsLookupFault};
ghost use Rattle.tz_zone.specs.LeapTime.{IsLeapTime, IsLeapTimeRefused, IsEffect, IsEffectRefused};
ghost use Rattle.tz_zone.specs.BorrowedRules.{borrowed_rule};
ghost use Rattle.tz_zone.specs.Offsets.{AreEndOffsets};
ghost use Rattle.tz_zone.specs.TableChanges.{HasTableEnds};
ghost use Rattle.tz_zone.specs.ValidZone.{IsValidZone, IsFirstZoneFault};
ghost use Rattle.tz_c.specs.Codes.{IsAnswerBy, rule_code, IsAnswer, IsAnswerOr, no_change};
ghost use Rattle.tz_c.specs.Indexes.{IsClockIndex, IsFirstIndex, Stands, rule_types};
ghost use Rattle.tz_c.specs.Rules.{IsTypeAnswer, name_if, IsAlternateAnswer, IsConflictAnswer};
ghost use Rattle.tz_c.specs.Rules.{IsRuleTypeAnswer, rule_of_lists};
ghost use Rattle.tz_c.specs.ZoneOfData.{zone_of_data};
ghost use Rattle.tz_c.specs.Zones.{HasZerosWithoutType, zone_of_parts, segment_written};
ghost use Rattle.tz_c.specs.Zones.{change_written};

use crate::codes::{
    NO_CHANGE, NO_CONFLICT, NO_RULE, OK, OUT_OF_RANGE, code_of, rule_code, type_code,
};
use crate::zone_data::TzZone;
use tz_rule::inner::{AlternateData, DayData, RuleRef, find_local_time_type};
use tz_rule::timezone::{
    AlternateTime, Julian0WithLeap, Julian1WithoutLeap, LocalTimeType, MonthWeekDay, RuleDay,
};
use tz_zone::inner::{self, effect, unix_time_to_unix_leap_time};
use tz_zone::timezone::{Change, LeapSecond, Segment, Transition};

/// The local time type with these parts, as `LocalTimeType::new` makes it.
#[unsafe(no_mangle)]
pub extern "C" fn tz_local_time_type_new(
    ut_offset: i32,
    is_dst: bool,
    has_name: bool,
    name: &[u8],
    out: &mut LocalTimeType,
) -> u32
    ensures answer { IsTypeAnswer (type_of ut_offset is_dst (name_if has_name name.now)) result
        out.new }
    ensures kept { result ≢ 0 → out.new ≡ out.old }
{
    let name = if has_name { Some(name) } else { None };
    match LocalTimeType::new(ut_offset, is_dst, name) {
        Ok(local_time_type) => {
            *out = local_time_type;
            OK
        }
        Err(error) => type_code(error),
    }
}

/// The day with this number of the days that are not February 29th, as `Julian1WithoutLeap::new`
/// makes it.
#[unsafe(no_mangle)]
pub extern "C" fn tz_julian_1_new(julian_day_1: u16, out: &mut DayData) -> u32
    ensures answer { IsAnswerBy rule_code result (IsJulianDay julian_day_1
        × (out.new ≡ days.Julian1WithoutLeap julian_day_1))
        (λ e. (e ≡ rule_faults.InvalidRuleDayJulianDay) × ¬ IsJulianDay julian_day_1) }
    ensures kept { result ≢ 0 → out.new ≡ out.old }
{
    match Julian1WithoutLeap::new(julian_day_1) {
        Ok(day) => {
            *out = DayData::of(&RuleDay::Julian1WithoutLeap(day));
            OK
        }
        Err(error) => rule_code(error),
    }
}

/// The day this many days after January 1st, as `Julian0WithLeap::new` makes it.
#[unsafe(no_mangle)]
pub extern "C" fn tz_julian_0_new(julian_day_0: u16, out: &mut DayData) -> u32
    ensures answer { IsAnswerBy rule_code result (IsZeroBasedDay julian_day_0
        × (out.new ≡ days.Julian0WithLeap julian_day_0))
        (λ e. (e ≡ rule_faults.InvalidRuleDayJulianDay) × ¬ IsZeroBasedDay julian_day_0) }
    ensures kept { result ≢ 0 → out.new ≡ out.old }
{
    match Julian0WithLeap::new(julian_day_0) {
        Ok(day) => {
            *out = DayData::of(&RuleDay::Julian0WithLeap(day));
            OK
        }
        Err(error) => rule_code(error),
    }
}

/// The week day of a month, as `MonthWeekDay::new` makes it.
#[unsafe(no_mangle)]
pub extern "C" fn tz_month_week_day_new(month: u8, week: u8, week_day: u8, out: &mut DayData) -> u32
    ensures answer { let d = month_week month week week_day in
        IsAnswerBy rule_code result (IsMonthWeek d × (out.new ≡ days.MonthWeekDay d))
        (IsFirstMonthWeekFault d) }
    ensures kept { result ≢ 0 → out.new ≡ out.old }
{
    match MonthWeekDay::new(month, week, week_day) {
        Ok(day) => {
            *out = DayData::of(&RuleDay::MonthWeekDay(day));
            OK
        }
        Err(error) => rule_code(error),
    }
}

/// Years that show why parts make no rule.
#[repr(C)]
#[derive(Clone, Copy)]
pub struct ConflictData {
    first_year: i32,
    second_year: i32,
    distance: i32,
}

/// The rule with these parts, as `AlternateTime::new` makes it.
#[unsafe(no_mangle)]
pub extern "C" fn tz_alternate_new(
    std: &LocalTimeType,
    dst: &LocalTimeType,
    dst_start: &DayData,
    dst_start_time: i32,
    dst_end: &DayData,
    dst_end_time: i32,
    out: &mut AlternateData,
) -> u32
    ensures answer { IsAlternateAnswer
        (alternate_of std.now dst.now dst_start.now dst_start_time dst_end.now
        dst_end_time) result out.new }
    ensures kept { result ≢ 0 → out.new ≡ out.old }
{
    match AlternateTime::new(
        *std,
        *dst,
        dst_start.day(),
        dst_start_time,
        dst_end.day(),
        dst_end_time,
    ) {
        Ok(rule) => {
            *out = *AlternateData::of(&rule);
            OK
        }
        Err(error) => rule_code(error),
    }
}

/// Why parts in range make no rule, as `AlternateTime::conflict` says it.
#[unsafe(no_mangle)]
pub extern "C" fn tz_alternate_conflict(
    std: &LocalTimeType,
    dst: &LocalTimeType,
    dst_start: &DayData,
    dst_start_time: i32,
    dst_end: &DayData,
    dst_end_time: i32,
    out: &mut ConflictData,
) -> u32
    ensures answer { IsConflictAnswer
        (alternate_of std.now dst.now dst_start.now dst_start_time dst_end.now
        dst_end_time) result out.new }
    ensures kept { result ≢ 0 → out.new ≡ out.old }
{
    match AlternateTime::conflict(
        *std,
        *dst,
        dst_start.day(),
        dst_start_time,
        dst_end.day(),
        dst_end_time,
    ) {
        Some((first_year, second_year, distance)) => {
            *out = ConflictData {
                first_year,
                second_year,
                distance,
            };
            OK
        }
        None => NO_CONFLICT,
    }
}

/// The rule that two lists give: the first type of `fixed`, or else the first rule of `alternate`.
pub(crate) fn rule_of_lists<'a>(
    fixed: &'a [LocalTimeType],
    alternate: &'a [AlternateData],
) -> Option<RuleRef<'a>>
    ensures { borrowed_rule result ≡ rule_of_lists fixed.now alternate.now }
{
    if !fixed.is_empty() {
        return Some(RuleRef::Fixed(&fixed[0]));
    }
    if !alternate.is_empty() {
        return Some(RuleRef::Alternate(&alternate[0]));
    }
    None
}

/// The type of a rule at an instant.
#[unsafe(no_mangle)]
pub extern "C" fn tz_rule_type_at(
    fixed: &[LocalTimeType],
    alternate: &[AlternateData],
    unix_time: i64,
    out: &mut LocalTimeType,
) -> u32
    ensures answer { IsRuleTypeAnswer (rule_of_lists fixed.now alternate.now) unix_time result
        out.new }
    ensures kept { result ≢ 0 → out.new ≡ out.old }
{
    let Some(rule) = rule_of_lists(fixed, alternate) else {
        return NO_RULE;
    };
    match find_local_time_type(rule, unix_time) {
        Ok(local_time_type) => {
            *out = *local_time_type;
            OK
        }
        Err(_) => OUT_OF_RANGE,
    }
}

/// Parts that may make a zone.
#[repr(C)]
#[derive(Clone, Copy)]
pub struct PartsData<'a> {
    pub(crate) transitions: &'a [Transition],
    pub(crate) local_time_types: &'a [LocalTimeType],
    pub(crate) leap_seconds: &'a [LeapSecond],
    pub(crate) fixed: &'a [LocalTimeType],
    pub(crate) alternate: &'a [AlternateData],
}

/// The least and the greatest offset of a zone.
#[repr(C)]
#[derive(Clone, Copy)]
pub struct OffsetsData {
    pub(crate) least: i32,
    pub(crate) greatest: i32,
}

/// What a call writes of a segment. Without a type the type is UTC's, whose bytes are zero.
#[repr(C)]
#[derive(Clone, Copy)]
pub struct SegmentData {
    from: i64,
    last: i64,
    has_type: bool,
    local_time_type: LocalTimeType,
}

/// What a call writes of a change.
#[repr(C)]
#[derive(Clone, Copy)]
pub struct ChangeData {
    unix_time: i64,
    before: LocalTimeType,
    after: LocalTimeType,
}

impl SegmentData {
    ghost use Rattle.tz_zone.specs.Changes.{segment_of};

    /// The data of a segment.
    fn of(segment: &Segment<'_>) -> Self
        ensures segment { segment_written result ≡ segment_of segment.now }
        ensures zeros { HasZerosWithoutType result }
    {
        let (from, last) = (segment.from(), segment.last());
        match segment.local_time_type() {
            Some(local_time_type) => SegmentData {
                from,
                last,
                has_type: true,
                local_time_type: *local_time_type,
            },
            None => SegmentData {
                from,
                last,
                has_type: false,
                local_time_type: LocalTimeType::utc(),
            },
        }
    }
}

impl ChangeData {
    ghost use Rattle.tz_zone.specs.Changes.{change_of};

    /// The data of a change.
    fn of(change: &Change<'_>) -> Self
        ensures { change_written result ≡ change_of change.now }
    {
        ChangeData {
            unix_time: change.unix_time(),
            before: *change.before(),
            after: *change.after(),
        }
    }
}

/// Whether parts make a zone, as `TimeZoneRef::new` checks them, and its end offsets.
#[unsafe(no_mangle)]
pub extern "C" fn tz_zone_check(parts: &PartsData<'_>, out: &mut OffsetsData) -> u32
    ensures answer { let z = zone_of_parts parts.now in
        IsAnswer result (IsValidZone z × AreEndOffsets z out.new.least out.new.greatest)
        (IsFirstZoneFault z) }
    ensures kept { result ≢ 0 → out.new ≡ out.old }
{
    match inner::ZoneData::new(
        parts.transitions,
        parts.local_time_types,
        parts.leap_seconds,
        rule_of_lists(parts.fixed, parts.alternate),
    ) {
        Ok(zone) => {
            let (least, greatest) = zone.offsets();
            *out = OffsetsData { least, greatest };
            OK
        }
        Err(error) => code_of(&error),
    }
}

/// The type of a zone's clock at an instant, as `TimeZoneRef::find_local_time_type` finds it.
#[unsafe(no_mangle)]
pub extern "C" fn tz_zone_type_at(zone: &TzZone<'_>, unix_time: i64, out: &mut LocalTimeType) -> u32
    ensures answer { IsAnswer result (IsClock (zone_of_data zone.now) unix_time out.new)
        (IsLookupFault (zone_of_data zone.now) unix_time) }
    ensures kept { result ≢ 0 → out.new ≡ out.old }
{
    match zone.as_zone_data().find_local_time_type(unix_time) {
        Ok(local_time_type) => {
            *out = *local_time_type;
            OK
        }
        Err(error) => code_of(&error),
    }
}

/// The segment around an instant, as `TimeZoneRef::segment_at` finds it.
#[unsafe(no_mangle)]
pub extern "C" fn tz_zone_segment_at(
    zone: &TzZone<'_>,
    unix_time: i64,
    out: &mut SegmentData,
) -> u32
    ensures ok { result ≡ 0 }
    ensures within { (out.new.from ≤ℤ unix_time) × (unix_time ≤ℤ out.new.last) }
    ensures segment { IsTrueSegment (zone_of_data zone.now) (segment_written out.new) }
    ensures ends { HasTableEnds (zone_of_data zone.now) out.new.from out.new.last }
    ensures zeros { HasZerosWithoutType out.new }
{
    *out = SegmentData::of(&zone.as_zone_data().segment_at(unix_time));
    OK
}

/// The first change after an instant, as `TimeZoneRef::following` finds it.
#[unsafe(no_mangle)]
pub extern "C" fn tz_zone_following(zone: &TzZone<'_>, unix_time: i64, out: &mut ChangeData) -> u32
    ensures answer { IsAnswerOr result no_change (IsFollowing (zone_of_data zone.now) unix_time
        (change_written out.new)) (HasNoFollowing (zone_of_data zone.now) unix_time) }
    ensures kept { result ≢ 0 → out.new ≡ out.old }
{
    match zone.as_zone_data().following(unix_time) {
        Some(change) => {
            *out = ChangeData::of(&change);
            OK
        }
        None => NO_CHANGE,
    }
}

/// The last change before an instant, as `TimeZoneRef::preceding` finds it.
#[unsafe(no_mangle)]
pub extern "C" fn tz_zone_preceding(zone: &TzZone<'_>, unix_time: i64, out: &mut ChangeData) -> u32
    ensures answer { IsAnswerOr result no_change (IsPreceding (zone_of_data zone.now) unix_time
        (change_written out.new)) (HasNoPreceding (zone_of_data zone.now) unix_time) }
    ensures kept { result ≢ 0 → out.new ≡ out.old }
{
    match zone.as_zone_data().preceding(unix_time) {
        Some(change) => {
            *out = ChangeData::of(&change);
            OK
        }
        None => NO_CHANGE,
    }
}

/// The first index of a type in a list.
fn index_in(types: &[LocalTimeType], local_time_type: &LocalTimeType) -> Option<usize>
    ensures { MatchOption result ((k : ℕ) → slice_get types.now k ≢ Some local_time_type.now)
        (IsFirstIndex types.now local_time_type.now) }
{
    for index in 0..types.len() {
        if types[index] == *local_time_type {
            return Some(index);
        }
    }
    None
}

/// The first index of a type among those of a rule, of which it is one.
fn index_in_rule(rule: Option<RuleRef<'_>>, local_time_type: &LocalTimeType) -> usize
    requires { Stands (rule_types (borrowed_rule rule)) local_time_type.now }
    ensures index { IsFirstIndex (rule_types (borrowed_rule rule.entry)) local_time_type.now
        result }
    ensures bound { result < 2 }
{
    match rule {
        Some(RuleRef::Alternate(rule)) => { if rule.std() == local_time_type { 0 } else { 1 } }
        _ => 0,
    }
}

/// The first index of one of a zone's types among those of its list and of its rule.
fn index_of(zone: &TzZone<'_>, local_time_type: &LocalTimeType) -> usize
    requires { Stands (zone_of_data zone.now).types local_time_type.now
        ⊎ Stands (rule_types (zone_of_data zone.now).extra_rule) local_time_type.now }
    ensures { let z = zone_of_data zone.now in
        IsFirstIndex (z.types ++ rule_types z.extra_rule) local_time_type.now result }
{
    let types = zone.parts.local_time_types;
    match index_in(types, local_time_type) {
        Some(index) => index,
        None => types.len() + index_in_rule(zone.as_zone_data().rule(), local_time_type),
    }
}

/// The index of the type of a zone's clock at an instant.
#[unsafe(no_mangle)]
pub extern "C" fn tz_zone_place_at(zone: &TzZone<'_>, unix_time: i64, out: &mut usize) -> u32
    ensures answer { IsAnswer result (IsClockIndex (zone_of_data zone.now) unix_time out.new)
        (IsLookupFault (zone_of_data zone.now) unix_time) }
    ensures kept { result ≢ 0 → out.new ≡ out.old }
{
    match zone.as_zone_data().find_local_time_type(unix_time) {
        Ok(local_time_type) => {
            *out = index_of(zone, local_time_type);
            OK
        }
        Err(error) => code_of(&error),
    }
}

/// The leap time of an instant.
#[unsafe(no_mangle)]
pub extern "C" fn tz_zone_leap_time(zone: &TzZone<'_>, unix_time: i64, out: &mut i64) -> u32
    ensures answer { IsAnswer result
        (IsLeapTime (zone_of_data zone.now).leap_seconds unix_time out.new)
        (λ e. (e ≡ faults.OutOfRange) × IsLeapTimeRefused (zone_of_data zone.now).leap_seconds
        unix_time) }
    ensures kept { result ≢ 0 → out.new ≡ out.old }
{
    match unix_time_to_unix_leap_time(zone.parts.leap_seconds, unix_time) {
        Ok(leap_time) => {
            *out = leap_time;
            OK
        }
        Err(error) => code_of(&error),
    }
}

/// The least instant at which a leap time is reached.
#[unsafe(no_mangle)]
pub extern "C" fn tz_zone_effect(zone: &TzZone<'_>, leap_time: i64, out: &mut i64) -> u32
    ensures answer { IsAnswer result
        (IsEffect (zone_of_data zone.now).leap_seconds leap_time out.new)
        (λ e. (e ≡ faults.OutOfRange) × IsEffectRefused (zone_of_data zone.now).leap_seconds
        leap_time) }
    ensures kept { result ≢ 0 → out.new ≡ out.old }
{
    match effect(zone.parts.leap_seconds, leap_time) {
        Ok(unix_time) => {
            *out = unix_time;
            OK
        }
        Err(error) => code_of(&error),
    }
}
