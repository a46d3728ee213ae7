//! Laws of rules, for proofs of programs that use them: a call of a law makes its contract known.
//!
//! Each function does nothing, or calls the laws on which it rests; its contract is the law.

ghost use Rattle.std.specs.Prelude.{◌≡◌, ℤ, pos, ◌+ℤ◌, ◌≤ℤ◌, ◌<ℤ◌};
ghost use Rattle.tz_rule.specs.Alternate.{AlternateTime, start_of, end_of, IsNearYear, IsUtcYear, IsInRuleYears, IsAlternateType, IsUnchanged};
ghost use Rattle.tz_rule.specs.LocalTimeType.{LocalTimeType};
ghost use Rattle.tz_rule.specs.Rule.{IsRuleType, IsSoundRule};
ghost use Rattle.tz_rule.specs.declared.timezone.transition_rule.TransitionRule.{TransitionRule as Rule};

use crate::timezone::alternate_time::AlternateData;
use crate::timezone::{AlternateTime, TransitionRule};

/// A rule and its days pass the checks of their constructors.
pub fn rule_parts_are_sound(rule: &TransitionRule)
    ensures { IsSoundRule rule.now }
{
    match rule {
        TransitionRule::Fixed(_) => {}
        TransitionRule::Alternate(rule) => AlternateData::of(rule).parts_are_sound(),
    }
}

/// A rule has no two types at an instant.
#[tactic(auto, using(crate::proofs::RuleTypes::rule_type_unique))]
pub fn rule_types_are_unique()
    ensures { (rule : Rule) (u : ℤ) (t t' : LocalTimeType) → IsRuleType rule u t
        → IsRuleType rule u t'
        → t ≡ t' }
{}

/// A rule has a type at each instant of the years over which it is defined.
#[tactic(auto, using(crate::proofs::RuleTypes::rule_type_total))]
pub fn rule_types_are_total(rule: &TransitionRule)
    ensures { (u : ℤ) → IsInRuleYears u → (t : LocalTimeType) × IsRuleType rule.now u t }
{
    rule_parts_are_sound(rule);
}

/// If no start and no end is after an instant, up to a later one, the rule has one type at both.
pub fn rule_types_change_at_starts_and_ends()
    ensures { (r : AlternateTime) (u v : ℤ) (t : LocalTimeType) → u ≤ℤ v → IsUnchanged r u v
        → IsAlternateType r u t → IsAlternateType r v t }
{}

/// Each start and each end is less than ten days outside its year.
pub fn starts_and_ends_are_near(rule: &AlternateTime)
    ensures starts { (year : ℤ) → IsNearYear (start_of rule.now year) year }
    ensures ends { (year : ℤ) → IsNearYear (end_of rule.now year) year }
{
    AlternateData::of(rule).parts_are_sound();
}

/// For an instant only the starts and ends of its year in UTC and of the two neighbours matter:
/// earlier ones are over, and later ones are yet to come.
pub fn far_starts_and_ends_are_over_or_to_come(rule: &AlternateTime)
    ensures over { (u year y : ℤ) → IsUtcYear u year → (y +ℤ pos 2) ≤ℤ year
        → (start_of rule.now y ≤ℤ u)
        × (end_of rule.now y ≤ℤ u) }
    ensures to_come { (u year y : ℤ) → IsUtcYear u year → (year +ℤ pos 2) ≤ℤ y
        → (u <ℤ start_of rule.now y)
        × (u <ℤ end_of rule.now y) }
{
    AlternateData::of(rule).parts_are_sound();
}

/// After 400 years, which are 12622780800 seconds, a rule has the same type.
#[tactic(auto, using(crate::proofs::RuleTypes::rule_type_repeats))]
pub fn rule_types_repeat(rule: &TransitionRule)
    ensures { (u : ℤ) (t t' : LocalTimeType) → IsRuleType rule.now u t
        → IsRuleType rule.now (u +ℤ pos 12622780800) t' → t ≡ t' }
{
    rule_parts_are_sound(rule);
}
