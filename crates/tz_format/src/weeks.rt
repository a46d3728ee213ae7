//! Numbers of weeks: those of ISO 8601, and those of a year from its first Sunday or Monday on.

ghost use Rattle.std.specs.Prelude.{◌≡◌, ◌≤◌, pos, ◌+ℤ◌, ◌-ℤ◌, ◌≤ℤ◌};
ghost use Rattle.tz_base.specs.Days.{year_length};
ghost use Rattle.tz_base.specs.Fields.{IsValid};
ghost use Rattle.tz_format.specs.Weeks.{week_of, week_of_year, days_since_monday, year_day};

use tz_base::calendar::{is_leap_year, is_moved_year_leap, moved_year};
use tz_base::fields::Fields;

/// Days since Monday.
pub(crate) fn days_since_monday(fields: &Fields) -> u8
    requires { IsValid fields.now }
    ensures value { result ≡ days_since_monday fields.now }
    ensures bound { result ≤ 6 }
{
    (fields.week_day() + 6) % 7
}

/// How many days the year has.
#[tactic(auto, unfolding(tz_base::specs::Days::year_length))]
fn days_of_year(year: i32) -> u16
    ensures value { result ≡ year_length year }
    ensures bound { (365 ≤ result) × (result ≤ 366) }
{
    if is_leap_year(year) { 366 } else { 365 }
}

/// How many days the year before has.
fn days_of_year_before(year: i32) -> u16
    ensures value { result ≡ year_length (year -ℤ pos 1) }
    ensures bound { (365 ≤ result) × (result ≤ 366) }
{
    if is_moved_year_leap(moved_year(year) - 1) {
        366
    } else {
        365
    }
}

/// The week of the year, from 0 to 53, if weeks begin on the week day that was `since_first` days
/// before the date. The days before the year's first such day are in week 0.
pub(crate) fn week_of_year(year_day: u16, since_first: u8) -> u8
    requires { (year_day ≤ 365) × (since_first ≤ 6) }
    ensures value { result ≡ week_of_year year_day since_first }
    ensures bound { result ≤ 53 }
{
    ((year_day + 7 - u16::from(since_first)) / 7) as u8
}

/// The year of the date's week, and the number of the week in it.
pub(crate) fn week_of(fields: &Fields) -> (i64, u8)
    requires { IsValid fields.now }
    ensures year { result.0 ≡ (week_of fields.now).year }
    ensures number { result.1 ≡ (week_of fields.now).number }
    ensures bound { (1 ≤ result.1) × (result.1 ≤ 53) }
    ensures near { ((fields.now.year -ℤ pos 1) ≤ℤ result.0)
        × (result.0 ≤ℤ (fields.now.year +ℤ pos 1)) }
{
    let year = i64::from(fields.year);
    let days = fields.year_day() + 3;
    let since_monday = u16::from(days_since_monday(fields));
    if days < since_monday {
        let thursday = days_of_year_before(fields.year) + days - since_monday;
        return (year - 1, (thursday / 7 + 1) as u8);
    }
    let thursday = days - since_monday;
    let days_of_year = days_of_year(fields.year);
    if thursday < days_of_year {
        (year, (thursday / 7 + 1) as u8)
    } else {
        (year + 1, ((thursday - days_of_year) / 7 + 1) as u8)
    }
}
