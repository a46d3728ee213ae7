//! Tests of date times, of printed text, and of searches by rows.
#![tactic(auto)]

#[cfg(test)]
mod date_times;
#[cfg(test)]
mod expect;
#[cfg(test)]
mod find;
#[cfg(test)]
mod meanings;
#[cfg(test)]
mod memory;
#[cfg(test)]
mod parsed;
#[cfg(test)]
mod searches;
#[cfg(test)]
mod tz_strings;
