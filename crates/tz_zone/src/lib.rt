//! Time zones: transitions, leap seconds and an extra rule, and the clock that they make.
#![tactic(auto)]

mod clock;
pub mod inner;
pub mod laws;
mod leap;
pub(crate) mod parse;
mod table;
pub mod timezone;

pub use crate::parse::tz_string_writer::TzString;
