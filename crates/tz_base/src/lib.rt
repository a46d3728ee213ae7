//! What the crates above share: the constants, the error types, the proleptic Gregorian calendar
//! both ways, the fields of date times and how they are printed, text without an allocation,
//! instants as totals of nanoseconds, and the order of numbers.
#![tactic(auto)]

pub mod calendar;
pub mod constants;
pub mod error;
pub mod fields;
pub mod laws;
pub mod order;
pub mod print;
pub mod text_buffer;
