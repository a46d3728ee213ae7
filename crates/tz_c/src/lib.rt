//! The library of C programs: exports that state the contracts of `tz` again. The header is
//! bindings/c/tz.h.
#![tactic(auto)]

mod codes;
mod columns;
mod date_time_data;
mod date_times;
mod dates;
pub mod file_laws;
mod formats;
pub mod laws;
mod rule_data;
mod searches;
mod texts;
mod zone_data;
mod zones;
