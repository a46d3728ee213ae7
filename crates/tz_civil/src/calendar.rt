//! Leap years and the lengths of months.

ghost use Rattle.std.specs.Prelude.{◌≡◌, IfSome, IfNone};
ghost use Rattle.tz_base.specs.Fields.{IsMonth};
ghost use Rattle.tz_civil.specs.Steps.{last_day_of};

use tz_base::calendar::days_in_month as length_of_month;
pub use tz_base::calendar::is_leap_year;

/// How many days the month of a year has, or `None` if the month is not in 1 to 12.
pub const fn days_in_month(year: i32, month: u8) -> Option<u8>
    ensures some { IfSome result (λ days. IsMonth month × (days ≡ last_day_of year month)) }
    ensures none { IfNone result (¬ IsMonth month) }
{
    if month < 1 || month > 12 {
        return None;
    }
    Some(length_of_month(year, month))
}
