//! What patterns print of a date time.

ghost use Rattle.std.specs.Prelude.{◌≡◌};
ghost use Rattle.tz_format.specs.Shown.{name_text};

use tz::LocalTimeType;
use tz_base::fields::Fields;

/// Where the name of a moment's type stands. That of a local time type is made when it is printed,
/// since Rust checks the text each time that it is made.
#[derive(Clone, Copy)]
pub(crate) enum Name<'a> {
    /// This text.
    Fixed(&'static str),
    /// The name of this type, which is empty if there is none.
    OfType(&'a LocalTimeType),
}

impl<'a> Name<'a> {
    /// The name.
    pub(crate) fn text(self) -> &'a str
        ensures { result.now ≡ name_text self.entry }
    {
        match self {
            Name::Fixed(text) => text,
            Name::OfType(local_time_type) => local_time_type.time_zone_designation(),
        }
    }
}

/// The fields, the offset from UTC in seconds, the name of the type, which is empty if there is
/// none, and the Unix time.
#[derive(Clone, Copy)]
pub(crate) struct Moment<'a> {
    pub(crate) fields: Fields,
    pub(crate) ut_offset: i32,
    pub(crate) name: Name<'a>,
    pub(crate) unix_time: i64,
}
