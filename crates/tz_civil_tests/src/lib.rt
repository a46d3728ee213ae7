//! Tests of dates, of steps from one to another, and of their starts in zones, by rows.
#![tactic(auto)]

#[cfg(test)]
mod dates;
#[cfg(test)]
mod expect;
#[cfg(test)]
mod starts;
#[cfg(test)]
mod steps;
#[cfg(test)]
mod week_dates;
