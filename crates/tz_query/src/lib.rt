//! Lines of queries about date times, and the program that answers them.
#![tactic(auto)]

pub mod laws;
pub mod query;
