//! Local time types, and the rules by which they change from year to year.
#![tactic(auto)]

pub mod inner;
pub mod laws;
pub mod timezone;
