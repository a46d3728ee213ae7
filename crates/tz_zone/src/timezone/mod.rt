//! Transitions, leap seconds and time zones.

mod changes;
pub(crate) mod files;
pub(crate) mod settings;
mod zone;
pub(crate) mod zone_checks;
pub(crate) mod zone_data;
mod zone_names;
mod zone_ref;

pub use crate::clock::{Change, Segment};
pub use crate::leap::LeapSecond;
pub use crate::table::Transition;
pub use changes::{ChangesAfter, ChangesBefore};
pub use files::{read_file, read_file_up_to, read_up_to};
pub use settings::{DEFAULT_DIRECTORIES, TimeZoneSettings};
pub use tz_rule::timezone::{
    AlternateTime, Julian0WithLeap, Julian1WithoutLeap, LocalTimeType, MonthWeekDay, RuleDay,
    TransitionRule,
};
pub use zone::TimeZone;
pub use zone_names::is_zone_name;
pub use zone_ref::TimeZoneRef;
