//! What several test crates use: instants, rules, zones and files, and an allocator that refuses.
#![tactic(auto)]

pub mod faults;
pub mod files;
pub mod footers;
pub mod instants;
pub mod refusing;
pub mod rules;
pub mod tz_strings;
pub mod zones;
