//! Leap seconds: their table, leap time, and the way back from it.

pub(crate) mod leap_time;
pub(crate) mod table_checks;

pub use table_checks::LeapSecond;
