//! How dates, times and offsets are printed.

ghost use Rattle.std.specs.Prelude.{◌≡◌, ◌+◌, ◌<◌, ◌≤◌, ◌++◌, ◌∷◌, pos, unsigned_abs, length, IsAscii};
ghost use Rattle.std.specs.Fmt.{signed_decimal};
ghost use Rattle.tz_base.specs.Fields.{IsValid};
ghost use Rattle.tz_base.specs.PrintedText.{two_digits_or_more, middle_text, seconds_text, duration_text, offset_text, printed_text};

use crate::fields::Fields;
use crate::text_buffer::{TextBuffer, pair_of};

/// What stands between the year and the nanoseconds: month and day, and the time of day up to the
/// point.
pub fn middle_of(fields: &Fields) -> [u8; 16]
    requires { IsValid fields.now }
    ensures text { result ≡ middle_text fields.now }
    ensures ascii { IsAscii result }
{
    let (month, day) = (pair_of(fields.month), pair_of(fields.month_day));
    let hour = pair_of(fields.hour);
    let (minute, second) = (pair_of(fields.minute), pair_of(fields.second));
    [
        b'-', month[0], month[1], b'-', day[0], day[1], b'T', hour[0], hour[1], b':', minute[0],
        minute[1], b':', second[0], second[1], b'.',
    ]
}

/// The sign of an offset other than zero.
fn sign_of(ut_offset: i32) -> u8
    requires { ¬ (ut_offset ≡ pos 0) }
    ensures text { result ∷ duration_text (unsigned_abs ut_offset) ≡ offset_text ut_offset }
    ensures ascii { result < 128 }
{
    if ut_offset < 0 { b'-' } else { b'+' }
}

impl TextBuffer {
    /// Appends a year.
    pub fn push_year(&mut self, year: i32)
        requires { length self.old + 11 ≤ 128 }
        ensures text { self.new ≡ self.old ++ signed_decimal year }
        ensures len { length self.new ≤ length self.old + 11 }
    {
        if year < 0 {
            self.push(b'-');
        }
        self.push_decimal(year.unsigned_abs());
    }

    /// Appends hours, with two digits at least.
    #[tactic(auto, unfolding(crate::specs::PrintedText::two_digits_or_more))]
    fn push_hours(&mut self, hours: u32)
        requires { length self.old + 10 ≤ 128 }
        ensures text { self.new ≡ self.old ++ two_digits_or_more hours }
        ensures len { length self.new ≤ length self.old + 10 }
    {
        if hours < 100 {
            self.push_two_digits(hours as u8);
        } else {
            self.push_decimal(hours);
        }
    }

    /// Appends :ss unless the seconds are zero.
    pub fn push_seconds(&mut self, seconds: u8)
        requires below { seconds < 60 }
        requires room { length self.old + 3 ≤ 128 }
        ensures text { self.new ≡ self.old ++ seconds_text seconds }
        ensures len { length self.new ≤ length self.old + 3 }
    {
        if seconds != 0 {
            self.push(b':');
            self.push_two_digits(seconds);
        }
    }

    /// Appends hh:mm, and :ss unless the seconds are zero.
    fn push_duration(&mut self, seconds: u32)
        requires { length self.old + 16 ≤ 128 }
        ensures text { self.new ≡ self.old ++ duration_text seconds }
        ensures len { length self.new ≤ length self.old + 16 }
    {
        let hours = seconds / 3600;
        let minutes = (seconds / 60 % 60) as u8;
        let rest = (seconds % 60) as u8;
        if hours < 100 && rest == 0 {
            let (hours, minutes) = (pair_of(hours as u8), pair_of(minutes));
            self.push_ascii(&[hours[0], hours[1], b':', minutes[0], minutes[1]]);
        } else {
            self.push_hours(hours);
            self.push(b':');
            self.push_two_digits(minutes);
            self.push_seconds(rest);
        }
    }

    /// Appends `Z`, or the sign and the size of an offset in seconds.
    pub fn push_offset(&mut self, ut_offset: i32)
        requires { length self.old + 17 ≤ 128 }
        ensures text { self.new ≡ self.old ++ offset_text ut_offset }
        ensures len { length self.new ≤ length self.old + 17 }
    {
        if ut_offset == 0 {
            self.push(b'Z');
        } else {
            self.push(sign_of(ut_offset));
            self.push_duration(ut_offset.unsigned_abs());
        }
    }

    /// Appends the printed date time of the fields and an offset in seconds, part by part.
    fn push_parts(&mut self, fields: &Fields, ut_offset: i32)
        requires valid { IsValid fields.now }
        requires room { length self.old + 53 ≤ 128 }
        ensures text { self.new ≡ self.old ++ printed_text fields.now ut_offset }
        ensures len { length self.new ≤ length self.old + 53 }
    {
        self.push_year(fields.year);
        self.push_ascii(&middle_of(fields));
        self.push_nine_digits(fields.nanoseconds);
        self.push_offset(ut_offset);
    }

    /// Appends the printed date time of the fields, whose year need not have four digits, and an
    /// offset in seconds.
    #[cold]
    fn push_parts_of_any_year(&mut self, fields: &Fields, ut_offset: i32)
        requires valid { IsValid fields.now }
        requires room { length self.old + 53 ≤ 128 }
        ensures text { self.new ≡ self.old ++ printed_text fields.now ut_offset }
        ensures len { length self.new ≤ length self.old + 53 }
    {
        self.push_parts(fields, ut_offset);
    }

    /// Appends the printed date time of the fields and an offset in seconds.
    ///
    /// Years of four digits have code of their own: in it the compiler knows the position of each
    /// part, and checks none.
    pub fn push_date_time(&mut self, fields: &Fields, ut_offset: i32)
        requires valid { IsValid fields.now }
        requires room { length self.old + 53 ≤ 128 }
        ensures text { self.new ≡ self.old ++ printed_text fields.now ut_offset }
        ensures len { length self.new ≤ length self.old + 53 }
    {
        if fields.year >= 1000 && fields.year < 10_000 {
            self.push_parts(fields, ut_offset);
        } else {
            self.push_parts_of_any_year(fields, ut_offset);
        }
    }
}
