//! Laws of dates and of their starts, for proofs of programs that use them: a call of a law makes
//! its contract known.
//!
//! Each function does nothing; its contract is the law, stated like the contracts of
//! [`Date`](crate::Date) and [`start_of_day`](crate::start_of_day).

ghost use Rattle.std.specs.Prelude.{◌≡◌, ℕ, ℤ, pos, ◌-ℤ◌, List};
ghost use Rattle.tz_base.specs.declared.error.TzError.{TzError};
ghost use Rattle.tz_zone.specs.Table.{Zone};
ghost use Rattle.tz.specs.DateTimes.{DateTime};
ghost use Rattle.tz.specs.PrintedText.{date_text};
ghost use Rattle.tz.specs.declared.parse.ParseDateTimeError.{ParseDateTimeError};
ghost use Rattle.tz_civil.specs.DateTexts.{IsDateText, IsDateTextFault};
ghost use Rattle.tz_civil.specs.Dates.{Date, IsDate, date_of, midnight_of, number_of};
ghost use Rattle.tz_civil.specs.DayStarts.{IsSkippedDay, IsStartFault, IsStartOfDay, ShowsDay, StartsDay};
ghost use Rattle.tz_civil.specs.Steps.{IsDaysLater, IsMonthsLater};
ghost use Rattle.tz_civil.specs.WeekDates.{IsWeekDate};
ghost use Rattle.tz_civil.specs.WeekDays.{IsNextWeekDay, IsNthWeekDay};

/// A number of days, or of months, after a date there is one date.
pub fn later_dates_are_unique()
    ensures number { (d e : Date) → IsDate d → IsDate e → number_of d ≡ number_of e → d ≡ e }
    ensures days { (d e e' : Date) (days : ℤ) → IsDate e → IsDate e' → IsDaysLater d days e
        → IsDaysLater d days e'
        → e ≡ e' }
    ensures months { (d e e' : Date) (months : ℤ) → IsMonthsLater d months e
        → IsMonthsLater d months e'
        → e ≡ e' }
{}

/// [`Date::parse`](crate::Date::parse) reads each printed date as itself, and has one result for a
/// text: one date, or an error.
pub fn printed_dates_are_read()
    ensures read { (d : Date) → IsDate d → IsDateText (date_text (midnight_of d)) d }
    ensures one { (text : List ℕ) (d e : Date) → IsDateText text d → IsDateText text e → d ≡ e }
    ensures either { (text : List ℕ) (d : Date) (e : ParseDateTimeError) → IsDateText text d
        → ¬ IsDateTextFault text e }
{}

/// A month has one n-th day with a week day, and a date one next date with it.
pub fn week_days_are_unique()
    ensures nth { (year : ℤ) (month : ℕ) (n : ℤ) (week_day d d' : ℕ)
        → IsNthWeekDay year month n week_day d → IsNthWeekDay year month n week_day d'
        → d ≡ d' }
    ensures next { (d e e' : Date) (week_day : ℕ) → IsDate e → IsDate e'
        → IsNextWeekDay d week_day e → IsNextWeekDay d week_day e'
        → e ≡ e' }
{}

/// [`Date::week_date`](crate::Date::week_date) and
/// [`Date::from_week_date`](crate::Date::from_week_date) are inverse to each other: a day has one
/// week date, and a week date one day.
pub fn week_dates_come_back()
    ensures one_week_date { (day year year' : ℤ) (week week' week_day week_day' : ℕ)
        → IsWeekDate day year week week_day → IsWeekDate day year' week' week_day'
        → (year ≡ year') × (week ≡ week') × (week_day ≡ week_day') }
    ensures one_day { (day day' year : ℤ) (week week_day : ℕ) → IsWeekDate day year week week_day
        → IsWeekDate day' year week week_day
        → day ≡ day' }
{}

/// [`start_of_day`](crate::start_of_day) has one result for a zone and a day: one instant, none if
/// the clock skips the day, or one error if it has no type in the whole window.
pub fn starts_are_unique()
    ensures start { (z : Zone) (day u v : ℤ) → IsStartOfDay z day u → IsStartOfDay z day v → u ≡ v }
    ensures skipped { (z : Zone) (day u : ℤ) → IsStartOfDay z day u → ¬ IsSkippedDay z day }
    ensures refused { (z : Zone) (day u : ℤ) (e : TzError) → IsStartOfDay z day u
        → ¬ IsStartFault z day e }
    ensures either { (z : Zone) (day : ℤ) (e : TzError) → IsSkippedDay z day
        → ¬ IsStartFault z day e }
    ensures fault { (z : Zone) (day : ℤ) (e e' : TzError) → IsStartFault z day e
        → IsStartFault z day e'
        → e ≡ e' }
{}

/// At the start of a day the clock shows its date, and at the instant before it does not.
pub fn starts_show_their_date()
    ensures date { (z : Zone) (d : Date) (start : DateTime) → IsDate d
        → StartsDay z (number_of d) start
        → date_of start.fields.year start.fields.month start.fields.month_day ≡ d }
    ensures at { (z : Zone) (day u : ℤ) → IsStartOfDay z day u → ShowsDay z day u }
    ensures before { (z : Zone) (day u : ℤ) → IsStartOfDay z day u
        → ¬ ShowsDay z day (u -ℤ pos 1) }
{}
