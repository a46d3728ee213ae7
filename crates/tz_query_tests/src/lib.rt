//! Tests of query lines and of the program.
#![tactic(auto)]

#[cfg(test)]
mod expect;
#[cfg(test)]
mod failing;
#[cfg(test)]
mod growths;
#[cfg(test)]
mod large;
#[cfg(test)]
mod lines;
#[cfg(test)]
mod meetings;
#[cfg(test)]
mod program;
#[cfg(test)]
mod search;
#[cfg(test)]
mod streams;
#[cfg(test)]
mod tzif;
