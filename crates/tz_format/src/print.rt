//! What conversions print.

ghost use Rattle.std.specs.Prelude.{◌≡◌, ◌+◌, ◌-◌, ◌*◌, ◌/◌, ◌%◌, ◌^◌, ◌<◌, ◌≤◌, ◌∷◌, ◌++◌, [], length, ℤ, if◌then◌else◌};
ghost use Rattle.std.specs.Prelude.{pos, unsigned_abs, None, codes, IsUtf8, IsTrue, IfSome, OnSome, drop};
ghost use Rattle.std.specs.Fmt.{signed_decimal};
ghost use Rattle.tz.specs.PrintedText.{two_digits, nine_digits};
ghost use Rattle.tz_base.specs.Fields.{IsValid};
ghost use Rattle.tz_format.specs.Names.{month_name, week_day_name, short};
ghost use Rattle.tz_format.specs.Patterns.{items_of, first_unknown, text_of, width_of};
ghost use Rattle.tz_format.specs.Shown.{IsShown, shown_of};
ghost use Rattle.tz_format.specs.Texts.{conversion_text, four_digits_or_more, year_text};
ghost use Rattle.tz_format.specs.Texts.{year_of_century, spaced_digits, half_day_hour, half_day};
ghost use Rattle.tz_format.specs.Texts.{three_digits, six_digits, hours_and_minutes};
ghost use Rattle.tz_format.specs.Texts.{offset_digits, zone_text};
ghost use Rattle.tz_format.specs.Widths.{conversion_width};
ghost use Rattle.tz_format.specs.declared.conversion.Conversion.TheVariants.{Hour};

use crate::conversion::{Conversion, conversion_at};
use crate::line::Line;
use crate::moment::Moment;
use crate::weeks::{days_since_monday, week_of, week_of_year};
use tz::inner::pair_of;
use tz_base::fields::Fields;

/// The name of a month.
pub(crate) fn month_name(month: u8) -> &'static str
    requires { (1 ≤ month) × (month ≤ 12) }
    ensures value { result.now ≡ month_name month }
    ensures len { (3 ≤ length result.now) × (length result.now ≤ 9) }
{
    match month {
        1 => "January",
        2 => "February",
        3 => "March",
        4 => "April",
        5 => "May",
        6 => "June",
        7 => "July",
        8 => "August",
        9 => "September",
        10 => "October",
        11 => "November",
        _ => "December",
    }
}

/// The name of the day so many days after Sunday.
fn week_day_name(day: u8) -> &'static str
    requires { day < 7 }
    ensures value { result.now ≡ week_day_name day }
    ensures len { (3 ≤ length result.now) × (length result.now ≤ 9) }
{
    match day {
        0 => "Sunday",
        1 => "Monday",
        2 => "Tuesday",
        3 => "Wednesday",
        4 => "Thursday",
        5 => "Friday",
        _ => "Saturday",
    }
}

/// The last two digits of a year.
fn year_of_century(year: i64) -> u8
    ensures value { result ≡ year_of_century year }
    ensures bound { result < 100 }
{
    year.rem_euclid(100) as u8
}

/// The hour on a clock of twelve hours.
const fn half_day_hour(hour: u8) -> u8
    requires { hour < 24 }
    ensures value { result ≡ half_day_hour hour }
    ensures bound { result < 100 }
{
    (hour + 11) % 12 + 1
}

/// A fraction of a second, cut to milliseconds.
const fn milliseconds_of(nanoseconds: u32) -> u16
    requires { nanoseconds < 1000000000 }
    ensures value { result ≡ nanoseconds / 1000000 }
    ensures bound { result < 1000 }
{
    (nanoseconds / 1_000_000) as u16
}

/// A fraction of a second, cut to microseconds.
const fn microseconds_of(nanoseconds: u32) -> u32
    requires { nanoseconds < 1000000000 }
    ensures value { result ≡ nanoseconds / 1000 }
    ensures bound { result < 1000000 }
{
    nanoseconds / 1000
}

impl Line {
    /// Appends a name's first three letters.
    fn push_short(&mut self, name: &str)
        requires long { 3 ≤ length name.now }
        requires room { length self.old + 3 ≤ 128 }
        ensures text { self.new ≡ self.old ++ short name.now }
        ensures len { length self.new ≡ length self.old + 3 }
    {
        // Bytes of an array of its own need no test for an overlap with the line.
        let mut letters = [0; 3];
        letters.copy_from_slice(&name.as_bytes()[..3]);
        self.push_all(&letters);
    }

    /// Appends a number below 100 in two bytes, with a space in the place of a first zero.
    #[tactic(auto, unfolding(crate::specs::Texts::spaced_digits))]
    fn push_spaced(&mut self, number: u8)
        requires below { number < 100 }
        requires room { length self.old + 2 ≤ 128 }
        ensures text { self.new ≡ self.old ++ spaced_digits number }
        ensures len { length self.new ≡ length self.old + 2 }
    {
        if number < 10 {
            self.push_all(&[b' ', b'0' + number]);
        } else {
            self.push_two_digits(number);
        }
    }

    /// Appends three digits.
    fn push_three_digits(&mut self, number: u16)
        requires below { number < 1000 }
        requires room { length self.old + 3 ≤ 128 }
        ensures text { self.new ≡ self.old ++ three_digits number }
        ensures len { length self.new ≡ length self.old + 3 }
    {
        self.push(b'0' + (number / 100) as u8);
        self.push_two_digits((number % 100) as u8);
    }

    /// Appends six digits.
    fn push_six_digits(&mut self, number: u32)
        requires below { number < 1000000 }
        requires room { length self.old + 6 ≤ 128 }
        ensures text { self.new ≡ self.old ++ six_digits number }
        ensures len { length self.new ≡ length self.old + 6 }
    {
        self.push_three_digits((number / 1000) as u16);
        self.push_three_digits((number % 1000) as u16);
    }

    /// Appends nine digits.
    fn push_nine_digits(&mut self, number: u32)
        requires below { number < 1000000000 }
        requires room { length self.old + 9 ≤ 128 }
        ensures text { self.new ≡ self.old ++ nine_digits number }
        ensures len { length self.new ≡ length self.old + 9 }
    {
        self.push_six_digits(number / 1000);
        self.push_three_digits((number % 1000) as u16);
    }

    /// Appends four digits or more, and at most ten.
    #[tactic(auto, using(crate::proofs::Digits::digits_below_10_10), unfolding(crate::specs::Texts::four_digits_or_more))]
    fn push_four_digits_or_more(&mut self, number: u64)
        requires below { number < 10000000000 }
        requires room { length self.old + 10 ≤ 128 }
        ensures text { self.new ≡ self.old ++ four_digits_or_more number }
        ensures len { length self.new ≤ length self.old + 10 }
    {
        if number < 10_000 {
            let front = pair_of((number / 100) as u8);
            let back = pair_of((number % 100) as u8);
            self.push_all(&[front[0], front[1], back[0], back[1]]);
        } else {
            self.push_digits(number);
        }
    }

    /// Appends a year.
    #[tactic(auto, unfolding(crate::specs::Texts::year_text))]
    fn push_year(&mut self, year: i64)
        requires bound { unsigned_abs year < 10000000000 }
        requires room { length self.old + 11 ≤ 128 }
        ensures text { self.new ≡ self.old ++ year_text year }
        ensures len { length self.new ≤ length self.old + 11 }
    {
        if year < 0 {
            self.push(b'-');
        }
        self.push_four_digits_or_more(year.unsigned_abs());
    }

    /// Appends 100 hours or more and minutes, with a colon between or not.
    #[tactic(auto, using(crate::proofs::Digits::digits_below_10_6), unfolding(tz::specs::PrintedText::two_digits_or_more, crate::specs::Texts::hours_and_minutes))]
    fn push_long_hours_and_minutes(&mut self, colon: bool, seconds: u32)
        requires bounds { (360000 ≤ seconds) × (seconds < 2 ^ 31) }
        requires room { length self.old + (if colon then 9 else 8) ≤ 128 }
        ensures text { self.new ≡ self.old ++ hours_and_minutes colon seconds }
        ensures len { length self.new ≤ length self.old + (if colon then 9 else 8) }
    {
        self.push_digits(u64::from(seconds / 3600));
        if colon {
            self.push(b':');
        }
        self.push_two_digits((seconds / 60 % 60) as u8);
    }
}

impl Line {
    /// Appends a sign, hours and minutes, with a colon between these or not.
    fn push_signed(&mut self, sign: u8, colon: bool, seconds: u32)
        requires below { seconds < 2 ^ 31 }
        requires room { length self.old + (if colon then 10 else 9) ≤ 128 }
        ensures text { self.new ≡ self.old ++ sign ∷ hours_and_minutes colon seconds }
        ensures len { length self.new ≤ length self.old + (if colon then 10 else 9) }
    {
        if seconds < 360_000 {
            let hours = pair_of((seconds / 3600) as u8);
            let minutes = pair_of((seconds / 60 % 60) as u8);
            if colon {
                self.push_all(&[sign, hours[0], hours[1], b':', minutes[0], minutes[1]]);
            } else {
                self.push_all(&[sign, hours[0], hours[1], minutes[0], minutes[1]]);
            }
        } else {
            self.push(sign);
            self.push_long_hours_and_minutes(colon, seconds);
        }
    }

    /// Appends an offset's sign, its hours and its minutes, with a colon between or not.
    #[tactic(auto, unfolding(crate::specs::Texts::offset_digits))]
    fn push_offset(&mut self, colon: bool, ut_offset: i32)
        requires bound { unsigned_abs ut_offset < 2 ^ 31 }
        requires room { length self.old + (if colon then 10 else 9) ≤ 128 }
        ensures text { self.new ≡ self.old ++ offset_digits colon ut_offset }
        ensures len { length self.new ≤ length self.old + (if colon then 10 else 9) }
    {
        let sign = if ut_offset < 0 { b'-' } else { b'+' };
        self.push_signed(sign, colon, ut_offset.unsigned_abs());
    }

    /// Appends a name, or the offset if it is empty.
    fn push_designation(&mut self, designation: &str, ut_offset: i32)
        requires short { length designation.now ≤ 7 }
        requires bound { unsigned_abs ut_offset < 2 ^ 31 }
        requires room { length self.old + 10 ≤ 128 }
        ensures text { self.new ≡ self.old ++ zone_text ut_offset designation.now }
        ensures len { length self.new ≤ length self.old + 10 }
    {
        if designation.is_empty() {
            self.push_offset(true, ut_offset);
        } else {
            self.push_all(designation.as_bytes());
        }
    }

    /// Appends a Unix time.
    #[tactic(auto, using(crate::proofs::Digits::digits_below_10_17))]
    fn push_unix_time(&mut self, unix_time: i64)
        requires bound { unsigned_abs unix_time < 10 ^ 17 }
        requires room { length self.old + 18 ≤ 128 }
        ensures text { self.new ≡ self.old ++ signed_decimal unix_time }
        ensures len { length self.new ≤ length self.old + 18 }
    {
        if unix_time < 0 {
            self.push(b'-');
        }
        self.push_digits(unix_time.unsigned_abs());
    }

    /// Appends the month, the day of the month and the last two digits of the year, with slashes.
    fn push_date_with_slashes(&mut self, fields: &Fields)
        requires valid { IsValid fields.now }
        requires room { length self.old + 8 ≤ 128 }
        ensures text { self.new ≡ self.old ++ (two_digits fields.now.month ++ (47
            ∷ two_digits fields.now.month_day
            ++ (47 ∷ two_digits (year_of_century fields.now.year)))) }
        ensures len { length self.new ≡ length self.old + 8 }
    {
        self.push_two_digits(fields.month);
        self.push(b'/');
        self.push_two_digits(fields.month_day);
        self.push(b'/');
        self.push_two_digits(year_of_century(i64::from(fields.year)));
    }

    /// Appends the date.
    fn push_date(&mut self, fields: &Fields)
        requires valid { IsValid fields.now }
        requires room { length self.old + 17 ≤ 128 }
        ensures text { self.new ≡ self.old ++ (year_text fields.now.year ++ (45
            ∷ two_digits fields.now.month ++ (45 ∷ two_digits fields.now.month_day))) }
        ensures len { length self.new ≤ length self.old + 17 }
    {
        self.push_year(i64::from(fields.year));
        self.push(b'-');
        self.push_two_digits(fields.month);
        self.push(b'-');
        self.push_two_digits(fields.month_day);
    }

    /// Appends the hour and the minute.
    fn push_time_to_minutes(&mut self, fields: &Fields)
        requires valid { IsValid fields.now }
        requires room { length self.old + 5 ≤ 128 }
        ensures text { self.new
            ≡ self.old ++ (two_digits fields.now.hour ++ (58 ∷ two_digits fields.now.minute)) }
        ensures len { length self.new ≡ length self.old + 5 }
    {
        self.push_two_digits(fields.hour);
        self.push(b':');
        self.push_two_digits(fields.minute);
    }

    /// Appends the time of day.
    fn push_time(&mut self, fields: &Fields)
        requires valid { IsValid fields.now }
        requires room { length self.old + 8 ≤ 128 }
        ensures text { self.new ≡ self.old ++ (two_digits fields.now.hour ++ (58
            ∷ two_digits fields.now.minute ++ (58 ∷ two_digits fields.now.second))) }
        ensures len { length self.new ≡ length self.old + 8 }
    {
        let hour = pair_of(fields.hour);
        let (minute, second) = (pair_of(fields.minute), pair_of(fields.second));
        self.push_all(&[
            hour[0], hour[1], b':', minute[0], minute[1], b':', second[0], second[1],
        ]);
    }
}

impl Line {
    /// Appends what a conversion prints, one by one.
    #[inline(never)]
    #[tactic(auto, unfolding(crate::specs::Texts::conversion_text, crate::specs::Widths::conversion_width))]
    fn push_any_conversion(&mut self, conversion: Conversion, moment: &Moment<'_>)
        requires shown { IsShown (shown_of moment.now) }
        requires room { length self.old + conversion_width conversion ≤ 128 }
        ensures text { self.new ≡ self.old ++ conversion_text (shown_of moment.now) conversion }
        ensures len { length self.new ≤ length self.old + conversion_width conversion }
    {
        let fields = &moment.fields;
        match conversion {
            Conversion::Year => self.push_year(i64::from(fields.year)),
            Conversion::YearOfCentury => {
                self.push_two_digits(year_of_century(i64::from(fields.year)));
            }
            Conversion::WeekYear => self.push_year(week_of(fields).0),
            Conversion::WeekYearOfCentury => {
                self.push_two_digits(year_of_century(week_of(fields).0));
            }
            Conversion::Month => self.push_two_digits(fields.month),
            Conversion::MonthName => self.push_all(month_name(fields.month).as_bytes()),
            Conversion::ShortMonthName => self.push_short(month_name(fields.month)),
            Conversion::MonthDay => self.push_two_digits(fields.month_day),
            Conversion::SpacedMonthDay => self.push_spaced(fields.month_day),
            Conversion::YearDay => self.push_three_digits(fields.year_day() + 1),
            Conversion::Hour => self.push_two_digits(fields.hour),
            Conversion::SpacedHour => self.push_spaced(fields.hour),
            Conversion::HalfDayHour => self.push_two_digits(half_day_hour(fields.hour)),
            Conversion::HalfDay => self.push_all(if fields.hour < 12 { b"AM" } else { b"PM" }),
            Conversion::Minute => self.push_two_digits(fields.minute),
            Conversion::Second => self.push_two_digits(fields.second),
            Conversion::WeekDayName => self.push_all(week_day_name(fields.week_day()).as_bytes()),
            Conversion::ShortWeekDayName => self.push_short(week_day_name(fields.week_day())),
            Conversion::WeekDayFromMonday => self.push(b'1' + days_since_monday(fields)),
            Conversion::WeekDayFromSunday => self.push(b'0' + fields.week_day()),
            Conversion::Week => self.push_two_digits(week_of(fields).1),
            Conversion::WeekFromSunday => {
                self.push_two_digits(week_of_year(fields.year_day(), fields.week_day()));
            }
            Conversion::WeekFromMonday => {
                self.push_two_digits(week_of_year(fields.year_day(), days_since_monday(fields)));
            }
            Conversion::UnixTime => self.push_unix_time(moment.unix_time),
            Conversion::Offset => self.push_offset(false, moment.ut_offset),
            Conversion::OffsetWithColon => self.push_offset(true, moment.ut_offset),
            Conversion::Designation => {
                self.push_designation(moment.name.text(), moment.ut_offset);
            }
            Conversion::Date => self.push_date(fields),
            Conversion::DateWithSlashes => self.push_date_with_slashes(fields),
            Conversion::Time => self.push_time(fields),
            Conversion::TimeToMinutes => self.push_time_to_minutes(fields),
            Conversion::Milliseconds => {
                self.push_three_digits(milliseconds_of(fields.nanoseconds));
            }
            Conversion::Microseconds => self.push_six_digits(microseconds_of(fields.nanoseconds)),
            Conversion::Nanoseconds => self.push_nine_digits(fields.nanoseconds),
            Conversion::PointMilliseconds => {
                self.push(b'.');
                self.push_three_digits(milliseconds_of(fields.nanoseconds));
            }
            Conversion::PointMicroseconds => {
                self.push(b'.');
                self.push_six_digits(microseconds_of(fields.nanoseconds));
            }
            Conversion::PointNanoseconds => {
                self.push(b'.');
                self.push_nine_digits(fields.nanoseconds);
            }
            Conversion::LineFeed => self.push(b'\n'),
            Conversion::Tab => self.push(b'\t'),
            Conversion::Percent => self.push(b'%'),
        }
    }

    /// Appends what a conversion prints, the usual ones here, where no register has to be saved for
    /// a call. In the loop over a pattern LLVM would compute before it what all conversions need.
    #[inline(never)]
    #[tactic(auto, unfolding(crate::specs::Texts::conversion_text, crate::specs::Widths::conversion_width))]
    fn push_conversion(&mut self, conversion: Conversion, moment: &Moment<'_>)
        requires shown { IsShown (shown_of moment.now) }
        requires room { length self.old + conversion_width conversion ≤ 128 }
        ensures text { self.new ≡ self.old ++ conversion_text (shown_of moment.now) conversion }
        ensures len { length self.new ≤ length self.old + conversion_width conversion }
    {
        match conversion {
            Conversion::Year => self.push_year(i64::from(moment.fields.year)),
            Conversion::ShortMonthName => self.push_short(month_name(moment.fields.month)),
            Conversion::Offset => self.push_offset(false, moment.ut_offset),
            _ => self.push_any_conversion(conversion, moment),
        }
    }
}

/// The number that a conversion prints as two digits, of those that most patterns have.
#[tactic(auto, unfolding(crate::specs::Texts::conversion_text, crate::specs::Widths::conversion_width))]
fn two_digits_of(conversion: Conversion, moment: &Moment<'_>) -> Option<u8>
    requires { IsShown (shown_of moment.now) }
    ensures below { IfSome result (λ number. number < 100) }
    ensures text { IfSome result (λ number. conversion_text (shown_of moment.now) conversion
        ≡ two_digits number) }
    ensures width { OnSome result (conversion_width conversion ≡ 2) }
{
    match conversion {
        Conversion::Month => Some(moment.fields.month),
        Conversion::MonthDay => Some(moment.fields.month_day),
        Conversion::Hour => Some(moment.fields.hour),
        Conversion::Minute => Some(moment.fields.minute),
        Conversion::Second => Some(moment.fields.second),
        _ => None,
    }
}

/// Whether the conversion begins the time of day, as `%H:%M:%S` does in most patterns.
fn begins_time(conversion: Conversion, pattern: &[u8], position: usize) -> bool
    requires { position ≤ length pattern.now }
    ensures hour { IsTrue result → conversion ≡ Hour }
    ensures rest { IsTrue result
        → drop position pattern.now ≡ codes ":%M:%S" ++ drop 6 (drop position pattern.now) }
{
    if !matches!(conversion, Conversion::Hour) {
        return false;
    }
    let rest = &pattern[position..];
    // Six bytes at once would be compared in three parts.
    rest.starts_with(b":%M:") && rest[4..].starts_with(b"%S")
}

/// Appends what a pattern prints.
pub(crate) fn push_pattern(line: &mut Line, pattern: &str, moment: &Moment<'_>)
    requires empty { line.old ≡ [] }
    requires shown { IsShown (shown_of moment.now) }
    requires known { first_unknown (items_of pattern.now) ≡ None }
    requires fits { width_of pattern.now ≤ 128 }
    ensures text { line.new ≡ text_of pattern.now (shown_of moment.now) }
    ensures utf8 { IsUtf8 line.new }
{
    let pattern = pattern.as_bytes();
    let mut position = 0;
    while position < pattern.len() {
        let byte = pattern[position];
        position += 1;
        if byte == b'%' {
            let Some((conversion, spelled)) = conversion_at(pattern, position) else {
                return;
            };
            position += spelled;
            if begins_time(conversion, pattern, position) {
                line.push_time(&moment.fields);
                position += 6;
            } else if let Some(number) = two_digits_of(conversion, moment) {
                line.push_two_digits(number);
            } else {
                line.push_conversion(conversion, moment);
            }
        } else {
            line.push(byte);
        }
    }
}
