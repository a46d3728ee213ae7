//! Laws of the calendar, over every whole year, and of the constants, for proofs of programs that
//! use them: a call of a law makes its contract known.
//!
//! Each function does nothing; its contract is the law.

ghost use Rattle.std.specs.Prelude.{◌≡◌, ℕ, ◌*◌, ℤ, pos, ◌+ℤ◌, ◌<ℤ◌, [], ◌∷◌};
ghost use Rattle.tz_base.specs.Days.{is_leap, year_length, first_day, day_number, week_day_of, IsDay, IsEarlierDate};
ghost use Rattle.tz_base.specs.Fields.{IsCivil};
ghost use Rattle.tz_base.specs.declared.fields.Fields.{Fields};

use crate::constants::*;

/// A reading has one list of civil fields.
pub fn civil_fields_are_unique()
    ensures { (x : ℤ) (nanoseconds : ℕ) (f g : Fields) → IsCivil x nanoseconds f
        → IsCivil x nanoseconds g
        → f ≡ g }
{}

/// An earlier date has a smaller day number.
pub fn day_numbers_rise()
    ensures { (y : ℤ) (m d : ℕ) (y' : ℤ) (m' d' : ℕ) → IsDay y m d → IsDay y' m' d'
        → IsEarlierDate y m d y' m' d' → day_number y m d <ℤ day_number y' m' d' }
{}

/// The next year begins when the days of the year are over.
pub fn years_follow()
    ensures { (year : ℤ) → first_day (year +ℤ pos 1) ≡ first_day year +ℤ pos (year_length year) }
{}

/// After 400 years leap years and week days repeat, 146097 days later.
pub fn years_repeat()
    ensures leap { (year : ℤ) (cycles : ℕ) → is_leap (year +ℤ pos (400 * cycles)) ≡ is_leap year }
    ensures first { (year : ℤ) (cycles : ℕ)
        → first_day (year +ℤ pos (400 * cycles)) ≡ first_day year +ℤ pos
        (146097 * cycles) }
    ensures week_day { (day : ℤ) (cycles : ℕ)
        → week_day_of (day +ℤ pos (146097 * cycles)) ≡ week_day_of day }
{}

/// The values of the constants.
pub fn constants_have_their_values()
    ensures nanoseconds_per_second { NANOSECONDS_PER_SECOND ≡ 1000000000 }
    ensures seconds_per_minute { SECONDS_PER_MINUTE ≡ pos 60 }
    ensures minutes_per_hour { MINUTES_PER_HOUR ≡ pos 60 }
    ensures hours_per_day { HOURS_PER_DAY ≡ pos 24 }
    ensures seconds_per_hour { SECONDS_PER_HOUR ≡ pos 3600 }
    ensures seconds_per_day { SECONDS_PER_DAY ≡ pos 86400 }
    ensures seconds_per_week { SECONDS_PER_WEEK ≡ pos 604800 }
    ensures days_per_week { DAYS_PER_WEEK ≡ pos 7 }
    ensures months_per_year { MONTHS_PER_YEAR ≡ pos 12 }
    ensures seconds_per_28_days { SECONDS_PER_28_DAYS ≡ pos 2419200 }
    ensures days_per_normal_year { DAYS_PER_NORMAL_YEAR ≡ pos 365 }
    ensures seconds_per_normal_year { SECONDS_PER_NORMAL_YEAR ≡ pos 31536000 }
    ensures seconds_per_leap_year { SECONDS_PER_LEAP_YEAR ≡ pos 31622400 }
    ensures days_per_4_years { DAYS_PER_4_YEARS ≡ pos 1461 }
    ensures days_per_100_years { DAYS_PER_100_YEARS ≡ pos 36524 }
    ensures days_per_400_years { DAYS_PER_400_YEARS ≡ pos 146097 }
    ensures days_in_months_normal_year { DAYS_IN_MONTHS_NORMAL_YEAR
        ≡ pos 31 ∷ pos 28 ∷ pos 31 ∷ pos 30 ∷ pos 31 ∷ pos 30 ∷ pos 31 ∷ pos 31 ∷ pos 30 ∷ pos 31
        ∷ pos 30 ∷ pos 31 ∷ [] }
    ensures cumul_days_in_months_normal_year { CUMUL_DAYS_IN_MONTHS_NORMAL_YEAR
        ≡ pos 0 ∷ pos 31 ∷ pos 59 ∷ pos 90 ∷ pos 120 ∷ pos 151 ∷ pos 181 ∷ pos 212 ∷ pos 243
        ∷ pos 273 ∷ pos 304 ∷ pos 334 ∷ [] }
    ensures cumul_days_in_months_leap_year { CUMUL_DAYS_IN_MONTHS_LEAP_YEAR
        ≡ pos 0 ∷ pos 31 ∷ pos 60 ∷ pos 91 ∷ pos 121 ∷ pos 152 ∷ pos 182 ∷ pos 213 ∷ pos 244
        ∷ pos 274 ∷ pos 305 ∷ pos 335 ∷ [] }
    ensures unix_offset_secs { UNIX_OFFSET_SECS ≡ pos 951868800 }
    ensures offset_year { OFFSET_YEAR ≡ pos 2000 }
    ensures day_in_months_leap_year_from_march { DAY_IN_MONTHS_LEAP_YEAR_FROM_MARCH
        ≡ pos 31 ∷ pos 30 ∷ pos 31 ∷ pos 30 ∷ pos 31 ∷ pos 31 ∷ pos 30 ∷ pos 31 ∷ pos 30 ∷ pos 31
        ∷ pos 31 ∷ pos 29 ∷ [] }
{}
