//! Alternate rules: their parts, the ranges of these, and when daylight saving time starts and
//! ends.

ghost use Rattle.std.specs.Prelude.{◌≡◌, OnOk, IfOk, IfErr, IfSome, IfNone, MatchBool};
ghost use Rattle.tz_rule.specs.Alternate.{start_of, end_of, alternate_of, IsRuleOffset, IsRuleTime, IsInRuleRange, IsRangeFault, IsFirstRuleFault, IsConsistentRule, switch_of, AreRuleDays, IsNearYear};
ghost use Rattle.tz_rule.specs.Pairing.{IsConflict, IsInconsistent, EndsNextYear};
ghost use Rattle.std.specs.Bool.{OnTrue};
ghost use Rattle.tz_rule.specs.LikelyYears.{HasInnerSwitches};
ghost use Rattle.tz_rule.specs.YearTables.{IsTableOf};
ghost use Rattle.tz_rule.specs.ZeroRule.{zero_rule};

use super::rule_day::DayData;
use super::year_table::{BoundedTable, YearTable};
use super::{LocalTimeType, RuleDay};
use std::fmt;
use std::hash::{Hash, Hasher};
use std::marker::Model;
use tz_base::error::TransitionRuleError;

/// Whether the offset is above -25 and below 26 hours.
const fn is_rule_offset(offset: i32) -> bool
    ensures { MatchBool result (IsRuleOffset offset) (¬ IsRuleOffset offset) }
{
    -90_000 < offset && offset < 93_600
}

/// Whether the time is less than a week either way.
const fn is_rule_time(time: i32) -> bool
    ensures { MatchBool result (IsRuleTime time) (¬ IsRuleTime time) }
{
    -604_800 < time && time < 604_800
}

/// The six parts of an alternate rule.
#[repr(C)]
#[derive(Clone, Copy)]
pub(super) struct Parts {
    pub(super) std: LocalTimeType,
    pub(super) dst: LocalTimeType,
    pub(super) dst_start: DayData,
    pub(super) dst_start_time: i32,
    pub(super) dst_end: DayData,
    pub(super) dst_end_time: i32,
}

impl Parts {
    ghost use Rattle.tz_rule.specs.Parts.{rule_of};
    ghost use Rattle.tz_rule.specs.RuleDays.{IsRuleDay};
    ghost use Rattle.tz_rule.specs.YearTables.{AreExactBounds, start_table, end_table};

    /// Checks the offsets and the times, in the order of their errors.
    pub(super) const fn check_range(&self) -> Result<(), TransitionRuleError>
        ensures ok { OnOk result (IsInRuleRange (rule_of self.now)) }
        ensures err { IfErr result (IsRangeFault (rule_of self.now)) }
    {
        if !is_rule_offset(self.std.ut_offset()) {
            return Err(TransitionRuleError::InvalidStdUtcOffset);
        }
        if !is_rule_offset(self.dst.ut_offset()) {
            return Err(TransitionRuleError::InvalidDstUtcOffset);
        }
        if !is_rule_time(self.dst_start_time) || !is_rule_time(self.dst_end_time) {
            return Err(TransitionRuleError::InvalidDstStartEndTime);
        }
        Ok(())
    }

    /// How many seconds after 00:00 UTC of January 1st daylight saving time starts, by the kind of
    /// the year. `day` is the part `dst_start` as a `RuleDay`, which saves its conversion.
    pub(super) const fn starts(&self, day: &RuleDay) -> BoundedTable
        requires range { IsInRuleRange (rule_of self.now) }
        requires day { day.now ≡ (rule_of self.now).dst_start }
        ensures table { result.table.0 ≡ start_table (rule_of self.now) }
        ensures bounds { AreExactBounds result.table.0 result.least result.greatest }
        ensures day { IsRuleDay (rule_of self.now).dst_start }
    {
        BoundedTable::of_day(day, self.dst_start_time - self.std.ut_offset())
    }

    /// How many seconds after 00:00 UTC of January 1st daylight saving time ends, by the kind of
    /// the year. `day` is the part `dst_end` as a `RuleDay`.
    pub(super) const fn ends(&self, day: &RuleDay) -> BoundedTable
        requires range { IsInRuleRange (rule_of self.now) }
        requires day { day.now ≡ (rule_of self.now).dst_end }
        ensures table { result.table.0 ≡ end_table (rule_of self.now) }
        ensures bounds { AreExactBounds result.table.0 result.least result.greatest }
        ensures day { IsRuleDay (rule_of self.now).dst_end }
    {
        BoundedTable::of_day(day, self.dst_end_time - self.dst.ut_offset())
    }
}

/// Standard time and daylight saving time, and when each begins in every year.
///
/// A start and an end never change their order from one year to another, at any distance in years.
/// If some year's end comes before its start, daylight saving time lasts from each start to its end
/// in the next year, and otherwise to its end in the same year.
#[derive(Clone, Copy)]
pub struct AlternateTime {
    rule: AlternateData,
    // Both days again: `dst_start()` and `dst_end()` lend a `RuleDay`, which the data has as
    // numbers (`DayData`).
    dst_start: RuleDay,
    dst_end: RuleDay,
}

impl Model for AlternateTime {
    ghost use Rattle.tz_rule.specs.Alternate.{AlternateTime};

    ghost Value = { AlternateTime };

    ghost use Rattle.tz_rule.specs.RuleWithDays.{HasItsDays, with_days, with_its_days};

    ghost view = { λ r. r.rule };

    ghost invariant = { HasItsDays };

    ghost inverse = { with_days };

    ghost inverse_ok = { λ r k. with_its_days r k };
}

impl AlternateTime {
    /// The rule with these parts. Times are seconds from 00:00 of the local day; the start's is in
    /// standard time and the end's in daylight saving time. (POSIX.1-2017, Base Definitions, 8.3)
    ///
    /// Offsets are above -25 and below 26 hours, and times less than a week either way.
    ///
    /// The rule of New York, with daylight saving time from 2:00 on the second Sunday of March to
    /// 2:00 on the first Sunday of November:
    ///
    /// ```rust
    /// pub fn new_york_rule() -> Result<AlternateTime, TzError> {
    ///     let std = LocalTimeType::new(-18_000, false, Some(b"EST"))?;
    ///     let dst = LocalTimeType::new(-14_400, true, Some(b"EDT"))?;
    ///     let start = RuleDay::MonthWeekDay(MonthWeekDay::new(3, 2, 0)?);
    ///     let end = RuleDay::MonthWeekDay(MonthWeekDay::new(11, 1, 0)?);
    ///     Ok(AlternateTime::new(std, dst, start, 7200, end, 7200)?)
    /// }
    /// ```
    ///
    /// # Errors
    ///
    /// The first of these:
    ///
    /// - [`TransitionRuleError::InvalidStdUtcOffset`] if the offset of standard time is out of
    ///   range;
    /// - [`TransitionRuleError::InvalidDstUtcOffset`] if that of daylight saving time is;
    /// - [`TransitionRuleError::InvalidDstStartEndTime`] if one of the two times is;
    /// - [`TransitionRuleError::InconsistentRule`] if start and end change their order from one
    ///   year to another.
    pub const fn new(
        std: LocalTimeType,
        dst: LocalTimeType,
        dst_start: RuleDay,
        dst_start_time: i32,
        dst_end: RuleDay,
        dst_end_time: i32,
    ) -> Result<Self, TransitionRuleError>
        ensures value { IfOk result (λ r. r ≡ alternate_of std dst dst_start dst_start_time dst_end
            dst_end_time) }
        ensures ok { OnOk result (IsConsistentRule
            (alternate_of std dst dst_start dst_start_time dst_end dst_end_time)) }
        ensures err { IfErr result (IsFirstRuleFault
            (alternate_of std dst dst_start dst_start_time dst_end dst_end_time)) }
    {
        let parts = Parts {
            std,
            dst,
            dst_start: DayData::of(&dst_start),
            dst_start_time,
            dst_end: DayData::of(&dst_end),
            dst_end_time,
        };
        match parts.check_range() {
            Ok(()) => {}
            Err(error) => return Err(error),
        }
        let starts = parts.starts(&dst_start);
        let ends = parts.ends(&dst_end);
        let Some(ends_next_year) = starts.order(&ends) else {
            return Err(TransitionRuleError::InconsistentRule);
        };
        Ok(AlternateTime {
            rule: AlternateData::of_tables(parts, starts, ends, ends_next_year),
            dst_start,
            dst_end,
        })
    }

    /// Why parts in range make no rule: two years x and y and a distance k in years, such that the
    /// start of x comes after the end of x + k, and the start of y before the end of y + k. `None`
    /// if they make one, or are out of range.
    pub const fn conflict(
        std: LocalTimeType,
        dst: LocalTimeType,
        dst_start: RuleDay,
        dst_start_time: i32,
        dst_end: RuleDay,
        dst_end_time: i32,
    ) -> Option<(i32, i32, i32)>
        ensures range { IfSome result (λ _. IsInRuleRange
            (alternate_of std dst dst_start dst_start_time dst_end dst_end_time)) }
        ensures some { IfSome result (λ c. IsConflict
            (start_of (alternate_of std dst dst_start dst_start_time dst_end dst_end_time))
            (end_of (alternate_of std dst dst_start dst_start_time dst_end dst_end_time))
            c.0 c.1 c.2) }
        ensures none { IfNone result (¬
            (IsInRuleRange (alternate_of std dst dst_start dst_start_time dst_end dst_end_time)
            × IsInconsistent
            (start_of (alternate_of std dst dst_start dst_start_time dst_end dst_end_time))
            (end_of (alternate_of std dst dst_start dst_start_time dst_end dst_end_time)))) }
    {
        let parts = Parts {
            std,
            dst,
            dst_start: DayData::of(&dst_start),
            dst_start_time,
            dst_end: DayData::of(&dst_end),
            dst_end_time,
        };
        match parts.check_range() {
            Ok(()) => {}
            Err(_) => return None,
        }
        let starts = parts.starts(&dst_start);
        let ends = parts.ends(&dst_end);
        starts.table.conflict(&ends.table)
    }

    /// The type of standard time.
    pub const fn std(&self) -> &LocalTimeType
        ensures { result.now ≡ self.now.std }
    {
        self.rule.std()
    }

    /// The type of daylight saving time.
    pub const fn dst(&self) -> &LocalTimeType
        ensures { result.now ≡ self.now.dst }
    {
        self.rule.dst()
    }

    /// The day on which daylight saving time starts.
    pub const fn dst_start(&self) -> &RuleDay
        ensures { result.now ≡ self.now.dst_start }
    {
        &self.dst_start
    }

    /// When daylight saving time starts on its day, in seconds from 00:00 of standard time, less
    /// than a week either way.
    pub const fn dst_start_time(&self) -> i32
        ensures { result ≡ self.now.dst_start_time }
    {
        self.rule.dst_start_time()
    }

    /// The day on which daylight saving time ends.
    pub const fn dst_end(&self) -> &RuleDay
        ensures { result.now ≡ self.now.dst_end }
    {
        &self.dst_end
    }

    /// When daylight saving time ends on its day, in seconds from 00:00 of daylight saving time,
    /// less than a week either way.
    pub const fn dst_end_time(&self) -> i32
        ensures { result ≡ self.now.dst_end_time }
    {
        self.rule.dst_end_time()
    }
}

impl PartialEq for AlternateTime {
    ghost use Rattle.std.specs.Cmp.{partial_equiv_from_equiv};
    ghost use Rattle.tz_rule.specs.Same.{IsEquivalence-from_equality};
    ghost use Rattle.tz_rule.specs.SameRule.{same_alternate, Decides-same_alternate};

    ghost eq = { same_alternate };

    ghost laws = { partial_equiv_from_equiv
        (IsEquivalence-from_equality same_alternate Decides-same_alternate) };

    fn eq(&self, other: &AlternateTime) -> bool {
        let (a, b) = (&self.rule, &other.rule);
        a.std() == b.std()
            && a.dst() == b.dst()
            && self.dst_start == other.dst_start
            && a.dst_start_time() == b.dst_start_time()
            && self.dst_end == other.dst_end
            && a.dst_end_time() == b.dst_end_time()
    }
}

impl Eq for AlternateTime {
    ghost use Rattle.tz_rule.specs.Same.{IsEquivalence-from_equality};
    ghost use Rattle.tz_rule.specs.SameRule.{same_alternate, Decides-same_alternate};

    ghost laws = { IsEquivalence-from_equality same_alternate Decides-same_alternate };
}

impl Hash for AlternateTime {
    ghost use Rattle.std.proofs.Common.{ap};
    ghost use Rattle.tz_rule.specs.RuleHash.{alternate_input};
    ghost use Rattle.tz_rule.specs.SameRule.{Decides-same_alternate};

    ghost hash_input = { alternate_input };

    ghost respects_eq = { λ a b h. ap alternate_input ((Decides-same_alternate a b).0 h) };

    fn hash<H: Hasher>(&self, state: &mut H) {
        self.std().hash(state);
        self.dst().hash(state);
        self.dst_start.hash(state);
        self.dst_start_time().hash(state);
        self.dst_end.hash(state);
        self.dst_end_time().hash(state);
    }
}

impl fmt::Debug for AlternateTime {
    fn fmt<W: fmt::Write>(&self, f: &mut fmt::Formatter<W>) -> fmt::Result {
        f.debug_struct("AlternateTime")
            .field("std", self.std())
            .field("dst", self.dst())
            .field("dst_start", self.dst_start())
            .field("dst_start_time", &self.dst_start_time())
            .field("dst_end", self.dst_end())
            .field("dst_end_time", &self.dst_end_time())
            .finish()
    }
}

/// Standard time and daylight saving time, and when each begins in every year, in C's layout.
#[repr(C)]
#[derive(Clone, Copy)]
pub struct AlternateData {
    parts: Parts,
    ends_next_year: bool,
    has_inner_switches: bool,
    starts: YearTable,
    ends: YearTable,
}

impl Model for AlternateData {
    ghost use Rattle.tz_rule.specs.Alternate.{AlternateTime};

    ghost Value = { AlternateTime };

    ghost use Rattle.tz_rule.specs.Parts.{rule_of};
    ghost use Rattle.tz_rule.specs.RuleInside.{IsRuleInside, parts_of, ends_come_first, kept_of, kept_rule};

    ghost view = { λ r. rule_of r.parts };

    ghost invariant = { IsRuleInside };

    ghost inverse = { kept_of };

    ghost inverse_ok = { λ r k. kept_rule r k };
}

impl AlternateData {
    ghost use Rattle.tz_rule.specs.Parts.{rule_of};
    ghost use Rattle.tz_rule.specs.YearTables.{AreExactBounds, start_table, end_table, ComesFirst, ChangesOrder};

    /// The data of a rule.
    pub const fn of(rule: &AlternateTime) -> &Self
        ensures { result.now ≡ rule.now }
    {
        &rule.rule
    }

    /// The rule of parts in range with their tables, whose starts and ends keep their order.
    pub(super) const fn of_tables(
        parts: Parts,
        starts: BoundedTable,
        ends: BoundedTable,
        ends_next_year: bool,
    ) -> Self
        requires range { IsInRuleRange (rule_of parts) }
        requires days { AreRuleDays (rule_of parts) }
        requires starts { starts.table.0 ≡ start_table (rule_of parts) }
        requires ends { ends.table.0 ≡ end_table (rule_of parts) }
        requires start_bounds { AreExactBounds starts.table.0 starts.least starts.greatest }
        requires end_bounds { AreExactBounds ends.table.0 ends.least ends.greatest }
        requires order { ¬ ChangesOrder starts.table.0 ends.table.0 }
        requires first { MatchBool ends_next_year (ComesFirst ends.table.0 starts.table.0)
            (¬ ComesFirst ends.table.0 starts.table.0) }
        ensures value { result ≡ rule_of parts }
        ensures ok { IsConsistentRule (rule_of parts) }
    {
        AlternateData {
            parts,
            ends_next_year,
            has_inner_switches: starts.is_inner() && ends.is_inner(),
            starts: starts.table,
            ends: ends.table,
        }
    }

    /// The rule whose bytes are all zero: UTC without a name all year.
    pub const fn zeros() -> Self
        ensures { result ≡ zero_rule }
    {
        let parts = Parts {
            std: LocalTimeType::utc(),
            dst: LocalTimeType::utc(),
            dst_start: DayData::zeros(),
            dst_start_time: 0,
            dst_end: DayData::zeros(),
            dst_end_time: 0,
        };
        AlternateData {
            parts,
            ends_next_year: false,
            has_inner_switches: false,
            starts: YearTable::zeros(),
            ends: YearTable::zeros(),
        }
    }

    /// The type of standard time.
    pub const fn std(&self) -> &LocalTimeType
        ensures { result.now ≡ self.now.std }
    {
        &self.parts.std
    }

    /// The type of daylight saving time.
    pub const fn dst(&self) -> &LocalTimeType
        ensures { result.now ≡ self.now.dst }
    {
        &self.parts.dst
    }

    /// The day on which daylight saving time starts.
    pub fn dst_start(&self) -> &DayData
        ensures { result.now ≡ self.now.dst_start }
    {
        &self.parts.dst_start
    }

    /// When daylight saving time starts on its day, in seconds from 00:00 of standard time.
    pub const fn dst_start_time(&self) -> i32
        ensures { result ≡ self.now.dst_start_time }
    {
        self.parts.dst_start_time
    }

    /// The day on which daylight saving time ends.
    pub fn dst_end(&self) -> &DayData
        ensures { result.now ≡ self.now.dst_end }
    {
        &self.parts.dst_end
    }

    /// When daylight saving time ends on its day, in seconds from 00:00 of daylight saving time.
    pub const fn dst_end_time(&self) -> i32
        ensures { result ≡ self.now.dst_end_time }
    {
        self.parts.dst_end_time
    }

    /// The table of the starts of daylight saving time, or of its ends.
    pub(super) const fn table(&self, is_end: bool) -> &YearTable
        ensures { IsTableOf (switch_of self.now is_end) result.now.0 }
    {
        if is_end { &self.ends } else { &self.starts }
    }

    /// The instant at which daylight saving time starts, or ends, in a year.
    pub(crate) const fn switch_in(&self, is_end: bool, year: i32) -> i64
        ensures value { result ≡ switch_of self.now is_end year }
        ensures bound { IsNearYear result year }
    {
        self.parts_are_sound();
        self.table(is_end).in_year(year)
    }

    /// Whether the end comes before the start in some year, so that daylight saving time lasts from
    /// each start to its end in the next year.
    pub(crate) const fn ends_next_year(&self) -> bool
        ensures { MatchBool result (EndsNextYear (start_of self.now) (end_of self.now))
            (¬ EndsNextYear (start_of self.now) (end_of self.now)) }
    {
        self.ends_next_year
    }

    /// Whether each start and each end is ten days or more from the ends of its year.
    pub(super) const fn has_inner_switches(&self) -> bool
        ensures { OnTrue result (HasInnerSwitches self.now) }
    {
        self.has_inner_switches
    }

    /// The parts are those of a valid rule. This does nothing; its contract is what holds of every
    /// value.
    pub const fn parts_are_sound(&self)
        ensures rule { IsConsistentRule self.now }
        ensures days { AreRuleDays self.now }
    {
        let _ = &self.parts;
    }
}
