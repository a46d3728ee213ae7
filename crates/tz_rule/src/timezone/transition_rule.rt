//! Transition rules: one type for all time, or an alternate rule.

ghost use Rattle.std.specs.Prelude.{◌≡◌, ◌≤◌, ◌≢◌, ◌+ℤ◌, ◌≤ℤ◌, ℤ, pos, negsuc, IfOk, IfErr, MatchOption};
ghost use Rattle.tz_rule.specs.LocalTimeType.{LocalTimeType};
ghost use Rattle.tz_rule.specs.Rule.{IsRuleType};
ghost use Rattle.tz_rule.specs.RuleRef.{rule_seen};
ghost use Rattle.tz_rule.specs.RuleSegments.{IsRuleChange};

use super::alternate_time::AlternateData;
use super::rule_segments::RuleSegment;
use super::{AlternateTime, LocalTimeType};
use std::hash::{Hash, Hasher};
use tz_base::error::TzError;

/// The local time of a zone after its last transition.
#[derive(Clone, Copy, Debug)]
pub enum TransitionRule {
    /// One type for all time.
    Fixed(LocalTimeType),
    /// Two types that alternate.
    Alternate(AlternateTime),
}

impl PartialEq for TransitionRule {
    ghost use Rattle.std.specs.Cmp.{partial_equiv_from_equiv};
    ghost use Rattle.tz_rule.specs.Same.{IsEquivalence-from_equality};
    ghost use Rattle.tz_rule.specs.SameRule.{same_rule, Decides-same_rule};

    ghost eq = { same_rule };

    ghost laws = { partial_equiv_from_equiv
        (IsEquivalence-from_equality same_rule Decides-same_rule) };

    fn eq(&self, other: &TransitionRule) -> bool {
        match (self, other) {
            (TransitionRule::Fixed(a), TransitionRule::Fixed(b)) => a == b,
            (TransitionRule::Alternate(a), TransitionRule::Alternate(b)) => a == b,
            _ => false,
        }
    }
}

impl Eq for TransitionRule {
    ghost use Rattle.tz_rule.specs.Same.{IsEquivalence-from_equality};
    ghost use Rattle.tz_rule.specs.SameRule.{same_rule, Decides-same_rule};

    ghost laws = { IsEquivalence-from_equality same_rule Decides-same_rule };
}

impl Hash for TransitionRule {
    ghost use Rattle.std.proofs.Common.{ap};
    ghost use Rattle.tz_rule.specs.RuleHash.{rule_input};
    ghost use Rattle.tz_rule.specs.SameRule.{Decides-same_rule};

    ghost hash_input = { rule_input };

    ghost respects_eq = { λ a b h. ap rule_input ((Decides-same_rule a b).0 h) };

    fn hash<H: Hasher>(&self, state: &mut H) {
        match self {
            TransitionRule::Fixed(local_time_type) => {
                state.write_u8(0);
                local_time_type.hash(state);
            }
            TransitionRule::Alternate(rule) => {
                state.write_u8(1);
                rule.hash(state);
            }
        }
    }
}

/// A borrowed rule: a fixed type, or the data of an alternate rule.
#[derive(Clone, Copy)]
pub enum RuleRef<'a> {
    /// One type for all time.
    Fixed(&'a LocalTimeType),
    /// Two types that alternate.
    Alternate(&'a AlternateData),
}

impl<'a> RuleRef<'a> {
    /// A reference to a rule.
    pub const fn of(rule: &'a TransitionRule) -> RuleRef<'a>
        ensures { rule_seen result ≡ rule.now }
    {
        match rule {
            TransitionRule::Fixed(local_time_type) => RuleRef::Fixed(local_time_type),
            TransitionRule::Alternate(rule) => RuleRef::Alternate(AlternateData::of(rule)),
        }
    }
}

/// The segment of the rule around an instant: the first and the last instant through which it has
/// one type, or none.
#[tactic(auto, unfolding(crate::specs::Rule::IsRuleType))]
#[inline(always)]
pub const fn segment_at<'a>(rule: RuleRef<'a>, unix_time: i64) -> RuleSegment<'a>
    ensures within { (result.from ≤ℤ unix_time) × (unix_time ≤ℤ result.last) }
    ensures holds { (v : ℤ) → result.from ≤ℤ v → v ≤ℤ result.last
        → MatchOption result.local_time_type ((t : LocalTimeType)
        → ¬ IsRuleType (rule_seen rule.entry) v t)
        (λ t. IsRuleType (rule_seen rule.entry) v t.now) }
    ensures from { (result.from ≢ negsuc 9223372036854775807)
        → IsRuleChange (rule_seen rule.entry) result.from }
    ensures last { (result.last ≢ pos 9223372036854775807)
        → IsRuleChange (rule_seen rule.entry) (result.last +ℤ pos 1) }
{
    match rule {
        RuleRef::Fixed(local_time_type) => RuleSegment {
            from: i64::MIN,
            last: i64::MAX,
            local_time_type: Some(local_time_type),
        },
        RuleRef::Alternate(rule) => rule.segment(unix_time),
    }
}

/// The type of the rule at an instant. An alternate rule has one in the UTC years that are two or
/// more from both ends of `i32`.
pub const fn find_local_time_type<'a>(
    rule: RuleRef<'a>,
    unix_time: i64,
) -> Result<&'a LocalTimeType, TzError>
    ensures ok { IfOk result (λ t. IsRuleType (rule_seen rule.entry) unix_time t.now) }
    ensures err { IfErr result (λ e. (e ≡ TzError.OutOfRange)
        × ((t : LocalTimeType) → ¬ IsRuleType (rule_seen rule.entry) unix_time t)) }
{
    match segment_at(rule, unix_time).local_time_type {
        Some(local_time_type) => Ok(local_time_type),
        None => Err(TzError::OutOfRange),
    }
}
