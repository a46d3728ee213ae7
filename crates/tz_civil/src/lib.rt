//! Dates of the proleptic Gregorian calendar, steps from one to another, week dates, and when a
//! date begins in a time zone.
#![tactic(auto)]

pub mod calendar;
mod date;
mod day_starts;
pub mod inner;
pub mod laws;

pub use date::{Date, WeekDate};
pub use day_starts::start_of_day;
