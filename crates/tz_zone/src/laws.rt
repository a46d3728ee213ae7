//! Laws of zones, for proofs of programs that use them: a call of a law makes its contract known.
//!
//! A function here does nothing, or looks at each type of a zone. Its contract is the law.

ghost use Rattle.std.specs.Prelude.{◌≡◌, ℕ, ◌<◌, ℤ, pos, ◌+ℤ◌, ◌-ℤ◌, ◌≤ℤ◌, ◌<ℤ◌, List, [], ◌∷◌, ◌++◌, ◌↔◌, Some, None, Bool, length, slice_get, map, codes, FitsSigned};
ghost use Rattle.std.specs.Int.{w32};
ghost use Rattle.std.specs.Iterator.{YieldsThen};
ghost use Rattle.tz_base.specs.declared.error.TzError.{TzError};
ghost use Rattle.tz_rule.specs.LocalTimeType.{LocalTimeType, IsLocalTimeType};
ghost use Rattle.tz_rule.specs.Rule.{IsRuleType};
ghost use Rattle.tz_rule.specs.declared.timezone.transition_rule.TransitionRule.{TransitionRule as Rule};
ghost use Rattle.tz_zone.specs.Changes.{Change, change_of, IsChange, IsFollowing, IsPreceding, HasNoFollowing, HasNoPreceding};
ghost use Rattle.tz_zone.specs.ChangesInTurn.{GivesFollowing, GivesPreceding, IsNthFollowing, IsNthPreceding};
ghost use Rattle.tz_zone.specs.Table.{LeapSecond, Zone};
ghost use Rattle.tz_zone.specs.LeapTime.{IsEffect, IsLeapTime};
ghost use Rattle.tz_zone.specs.Clock.{IsClock};
ghost use Rattle.tz_zone.specs.TzFile.{IsTzFile};
ghost use Rattle.tz_zone.specs.TzFileFault.{FileFails};
ghost use Rattle.tz_zone.specs.TzText.{IsTzText};
ghost use Rattle.tz_zone.specs.TzTextFault.{IsTzTextFault};
ghost use Rattle.tz_zone.specs.ValidZone.{AreLeapSeconds, ExpiresAt, IsValidZone};
ghost use Rattle.tz_zone.specs.ZoneRef.{zone_of, own_zone_of};
ghost use Rattle.tz_zone.specs.declared.clock.segment.Change.{Change as KeptChange};
ghost use Rattle.tz_zone.specs.declared.timezone.changes.ChangesAfter.{ChangesAfter};
ghost use Rattle.tz_zone.specs.declared.timezone.changes.ChangesBefore.{ChangesBefore};

use crate::timezone::{DEFAULT_DIRECTORIES, LocalTimeType, TimeZone, TimeZoneRef, TransitionRule};
use std::alloc::Allocator;

/// The clock of a zone has no two types at one instant.
pub fn clocks_have_one_type()
    ensures { (z : Zone) (u : ℤ) (t t' : LocalTimeType) → IsClock z u t → IsClock z u t' → t ≡ t' }
{}

/// A leap time takes effect at no two instants.
pub fn effects_are_unique()
    ensures { (leaps : List LeapSecond) (v u u' : ℤ) → IsEffect leaps v u → IsEffect leaps v u'
        → u ≡ u' }
{}

/// An instant comes at the effect of a leap time or after it exactly where its own leap time is not
/// below that one. So transitions come by their effects as they come by their times.
pub fn effects_fit_leap_times()
    ensures { (leaps : List LeapSecond) (v u w l : ℤ) → AreLeapSeconds leaps → IsEffect leaps v u
        → IsLeapTime leaps w l → (u ≤ℤ w) ↔ (v ≤ℤ l) }
{}

/// A table of leap seconds that expires has the leap times that it has without its last record, the
/// expiry.
pub fn expiries_change_no_leap_time()
    ensures { (leaps : List LeapSecond) (expiry : LeapSecond) (time : ℤ)
        → AreLeapSeconds (leaps ++ expiry ∷ []) → ExpiresAt (leaps ++ expiry ∷ []) time
        → (u v : ℤ) → IsLeapTime (leaps ++ expiry ∷ []) u v ↔ IsLeapTime leaps u v }
{}

/// The bytes of a TZif file denote one zone, and have no fault for which a reader refuses bytes: so
/// [`TimeZone::from_tz_data`] returns that zone, or `Memory`.
pub fn files_denote_one_zone()
    ensures unique { (bytes : List ℕ) (y z : Zone) → IsTzFile bytes y → IsTzFile bytes z → y ≡ z }
    ensures sound { (bytes : List ℕ) (z : Zone) (e : TzError) → IsTzFile bytes z
        → ¬ FileFails bytes e }
{}

/// A TZ string denotes one rule, and has no fault for which a reader refuses a text.
pub fn tz_strings_denote_one_rule()
    ensures unique { (extended : Bool) (text : List ℕ) (r s : Rule) → IsTzText extended text r
        → IsTzText extended text s → r ≡ s }
    ensures sound { (extended : Bool) (text : List ℕ) (r : Rule) (e : TzError)
        → IsTzText extended text r → ¬ IsTzTextFault extended text e }
{}

/// The parts of every borrowed zone make a valid zone.
pub fn zones_are_valid(zone: &TimeZoneRef<'_>)
    ensures { ∥ IsValidZone (zone_of zone.now) ∥₁ }
{}

/// The parts of every zone that owns them make a valid zone.
pub fn own_zones_are_valid<A: Allocator + Copy>(zone: &TimeZone<A>)
    ensures { ∥ IsValidZone (own_zone_of zone.now) ∥₁ }
{}

/// The first change after an instant is one, if there is any, and so is the last change before it.
pub fn nearest_changes_are_unique()
    ensures following { (z : Zone) (u : ℤ) (c d : Change) → IsFollowing z u c → IsFollowing z u d
        → c ≡ d }
    ensures preceding { (z : Zone) (u : ℤ) (c d : Change) → IsPreceding z u c → IsPreceding z u d
        → c ≡ d }
    ensures none_following { (z : Zone) (u : ℤ) (c : Change) → IsFollowing z u c
        → ¬ HasNoFollowing z u }
    ensures none_preceding { (z : Zone) (u : ℤ) (c : Change) → IsPreceding z u c
        → ¬ HasNoPreceding z u }
{}

/// The changes that an iterator returns one after the other are the first, the second and so on
/// after its instant, or before it. If it returns `None` after some, there are no more.
pub fn iterators_return_changes_in_turn()
    ensures after { (s t : ChangesAfter) (earlier : List KeptChange) (c : KeptChange)
        → YieldsThen GivesFollowing s earlier (Some c) t
        → IsNthFollowing (zone_of s.zone) s.unix_time (length earlier) (change_of c) }
    ensures none_after { (s t : ChangesAfter) (earlier : List KeptChange)
        → YieldsThen GivesFollowing s earlier None t
        → (c : Change) → ¬ IsNthFollowing (zone_of s.zone) s.unix_time (length earlier) c }
    ensures before { (s t : ChangesBefore) (later : List KeptChange) (c : KeptChange)
        → YieldsThen GivesPreceding s later (Some c) t
        → IsNthPreceding (zone_of s.zone) s.unix_time (length later) (change_of c) }
    ensures none_before { (s t : ChangesBefore) (later : List KeptChange)
        → YieldsThen GivesPreceding s later None t
        → (c : Change) → ¬ IsNthPreceding (zone_of s.zone) s.unix_time (length later) c }
{}

/// At most one change is the n-th after an instant. Those before it are exactly the changes
/// between.
pub fn changes_are_counted()
    ensures unique { (z : Zone) (u : ℤ) (n : ℕ) (c d : Change)
        → IsNthFollowing z u n c → IsNthFollowing z u n d → c ≡ d }
    ensures changes { (z : Zone) (u : ℤ) (n : ℕ) (c : Change) → IsNthFollowing z u n c
        → IsChange z c }
    ensures between { (z : Zone) (u : ℤ) (n : ℕ) (c d : Change) → IsNthFollowing z u n c
        → IsChange z d → u <ℤ d.unix_time → d.unix_time <ℤ c.unix_time
        → (m : ℕ) × (m < n) × IsNthFollowing z u m d }
    ensures earlier { (z : Zone) (u : ℤ) (n m : ℕ) (c : Change) → IsNthFollowing z u n c → m < n
        → (d : Change) × IsNthFollowing z u m d × (d.unix_time <ℤ c.unix_time) }
{}

/// A change is the last one before the instant after it, and the first one after the instant
/// before it. The change that follows it is preceded by it, and the one that precedes it is
/// followed by it.
pub fn changes_are_nearest_to_their_neighbours()
    ensures preceding { (z : Zone) (c : Change) → IsChange z c
        → IsPreceding z (c.unix_time +ℤ pos 1) c }
    ensures following { (z : Zone) (c : Change) → IsChange z c
        → IsFollowing z (c.unix_time -ℤ pos 1) c }
    ensures before_the_following { (z : Zone) (c d : Change)
        → IsChange z c → IsFollowing z c.unix_time d → IsPreceding z d.unix_time c }
    ensures after_the_preceding { (z : Zone) (c d : Change)
        → IsChange z c → IsPreceding z c.unix_time d → IsFollowing z d.unix_time c }
{}

/// The parts of a local time type pass the checks of the constructor.
pub fn type_parts_are_sound(local_time_type: &LocalTimeType)
    ensures sound { IsLocalTimeType local_time_type.now }
    ensures fits { FitsSigned w32 local_time_type.now.ut_offset }
{
    let _ = local_time_type.ut_offset();
    let _ = local_time_type.time_zone_designation();
}

/// The parts of each type of a list pass the checks of the constructor.
fn listed_types_are_sound(local_time_types: &[LocalTimeType])
    ensures { (i : ℕ) (t : LocalTimeType) → slice_get local_time_types.now i ≡ Some t
        → IsLocalTimeType t × FitsSigned w32 t.ut_offset }
{
    for local_time_type in local_time_types {
        type_parts_are_sound(local_time_type);
    }
}

/// The parts of the types of a rule pass the checks of the constructor.
fn rule_types_are_sound(rule: &TransitionRule)
    ensures { (u : ℤ) (t : LocalTimeType) → IsRuleType rule.now u t
        → IsLocalTimeType t × FitsSigned w32 t.ut_offset }
{
    match rule {
        TransitionRule::Fixed(fixed) => type_parts_are_sound(fixed),
        TransitionRule::Alternate(rule) => {
            type_parts_are_sound(rule.std());
            type_parts_are_sound(rule.dst());
        }
    }
}

/// Every local time type that the clock of a zone shows has the parts that one may have, and its
/// offset fits 32 bits.
pub fn shown_types_are_sound(zone: &TimeZoneRef<'_>)
    ensures sound { (u : ℤ) (t : LocalTimeType) → IsClock (zone_of zone.now) u t
        → IsLocalTimeType t }
    ensures fits { (u : ℤ) (t : LocalTimeType) → IsClock (zone_of zone.now) u t
        → FitsSigned w32 t.ut_offset }
{
    listed_types_are_sound(zone.local_time_types());
    if let Some(rule) = zone.extra_rule() {
        rule_types_are_sound(rule);
    }
}

/// The directories in which [`TimeZone::from_posix_tz`] and [`TimeZone::named`] look for files, in
/// their order.
pub fn default_directories_have_their_values()
    ensures { map (λ directory. directory.now) DEFAULT_DIRECTORIES.now ≡ codes "/usr/share/zoneinfo"
        ∷ codes "/share/zoneinfo" ∷ codes "/etc/zoneinfo" ∷ [] }
{}
