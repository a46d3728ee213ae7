//! Date times as a pattern prints them.

ghost use Rattle.std.specs.Prelude.{◌≡◌, [], IsUtf8};
ghost use Rattle.tz_format.specs.DateTimes.{shown_date_time, shown_utc};
ghost use Rattle.tz_format.specs.Patterns.{text_of};
ghost use Rattle.tz_format.specs.Shown.{IsShown, shown_of};

use crate::line::Line;
use crate::moment::{Moment, Name};
use crate::pattern::{Pattern, UtcPattern};
use crate::print::push_pattern;
use std::fmt;
use tz::inner::{fields_of, utc_fields_of};
use tz::{DateTime, UtcDateTime};
use tz_base::fields::Fields;
use tz_zone::laws::type_parts_are_sound;

/// A date time as a pattern prints it.
#[derive(Clone, Copy, Debug)]
pub struct FormattedDateTime<'a> {
    pattern: Pattern<'a>,
    date_time: DateTime,
}

/// A date time of UTC as a pattern prints it.
#[derive(Clone, Copy, Debug)]
pub struct FormattedUtcDateTime<'a> {
    pattern: Pattern<'a>,
    date_time: UtcDateTime,
}

/// The fields by value.
const fn copied(fields: &Fields) -> Fields
    ensures { result ≡ fields.now }
{
    *fields
}

/// What patterns print of a date time.
fn moment_of(date_time: &DateTime) -> Moment<'_>
    ensures value { shown_of result ≡ shown_date_time date_time.now }
    ensures shown { IsShown (shown_of result) }
{
    let local_time_type = date_time.local_time_type();
    type_parts_are_sound(local_time_type);
    Moment {
        fields: copied(fields_of(date_time)),
        ut_offset: local_time_type.ut_offset(),
        name: Name::OfType(local_time_type),
        unix_time: date_time.unix_time(),
    }
}

/// What patterns print of a date time of UTC.
fn moment_of_utc(date_time: &UtcDateTime) -> Moment<'static>
    ensures value { shown_of result ≡ shown_utc date_time.now }
    ensures shown { IsShown (shown_of result) }
{
    Moment {
        fields: copied(utc_fields_of(date_time)),
        ut_offset: 0,
        name: Name::Fixed("UTC"),
        unix_time: date_time.unix_time(),
    }
}

/// Appends what a pattern prints of a date time.
pub fn push_date_time(line: &mut Line, pattern: &Pattern<'_>, date_time: &DateTime)
    requires { line.old ≡ [] }
    ensures text { line.new ≡ text_of pattern.now.text.now (shown_date_time date_time.now) }
    ensures utf8 { IsUtf8 line.new }
{
    push_pattern(line, pattern.as_str(), &moment_of(date_time));
}

/// Appends what a pattern prints of a date time of UTC.
pub fn push_utc_date_time(line: &mut Line, pattern: &Pattern<'_>, date_time: &UtcDateTime)
    requires { line.old ≡ [] }
    ensures text { line.new ≡ text_of pattern.now.text.now (shown_utc date_time.now) }
    ensures utf8 { IsUtf8 line.new }
{
    push_pattern(line, pattern.as_str(), &moment_of_utc(date_time));
}

impl<'a> Pattern<'a> {
    /// The date time as the pattern prints it.
    pub const fn format(self, date_time: &DateTime) -> FormattedDateTime<'a>
        ensures { (result.pattern.text.now ≡ self.entry.text.now)
            × (result.date_time ≡ date_time.now) }
    {
        FormattedDateTime {
            pattern: self,
            date_time: *date_time,
        }
    }
}

impl<'a> UtcPattern<'a> {
    /// The date time of UTC as the pattern prints it. The name of its time is UTC.
    pub const fn format(self, date_time: &UtcDateTime) -> FormattedUtcDateTime<'a>
        ensures { (result.pattern.text.now ≡ self.entry.pattern.text.now)
            × (result.date_time ≡ date_time.now) }
    {
        FormattedUtcDateTime {
            pattern: self.pattern(),
            date_time: *date_time,
        }
    }
}

/// Prints the date time by the pattern, whatever the width of the format.
impl fmt::Display for FormattedDateTime<'_> {
    ghost use Rattle.std.specs.Prelude.{Some};
    ghost use Rattle.tz_format.specs.Patterns.{text_of};
    ghost use Rattle.tz_format.specs.DateTimes.{shown_date_time};

    ghost output = { λ x. Some (text_of x.pattern.text.now (shown_date_time x.date_time)) };

    ghost styled_output = { λ x _. Some
        (text_of x.pattern.text.now (shown_date_time x.date_time)) };

    fn fmt<W: fmt::Write>(&self, f: &mut fmt::Formatter<W>) -> fmt::Result {
        let mut line = Line::new();
        push_pattern(
            &mut line,
            self.pattern.as_str(),
            &moment_of(&self.date_time),
        );
        f.write_str(line.as_str())
    }
}

/// Prints the date time by the pattern, whatever the width of the format.
impl fmt::Display for FormattedUtcDateTime<'_> {
    ghost use Rattle.std.specs.Prelude.{Some};
    ghost use Rattle.tz_format.specs.Patterns.{text_of};
    ghost use Rattle.tz_format.specs.DateTimes.{shown_utc};

    ghost output = { λ x. Some (text_of x.pattern.text.now (shown_utc x.date_time)) };

    ghost styled_output = { λ x _. Some
        (text_of x.pattern.text.now (shown_utc x.date_time)) };

    fn fmt<W: fmt::Write>(&self, f: &mut fmt::Formatter<W>) -> fmt::Result {
        let mut line = Line::new();
        push_pattern(
            &mut line,
            self.pattern.as_str(),
            &moment_of_utc(&self.date_time),
        );
        f.write_str(line.as_str())
    }
}
