//! Date times printed and read by patterns, and local times as people write them.
#![tactic(auto)]

pub mod constants;
mod conversion;
mod formatted;
pub mod inner;
pub mod laws;
mod lenient;
mod line;
mod moment;
mod pattern;
mod print;
mod read;
mod weeks;

pub use crate::formatted::{FormattedDateTime, FormattedUtcDateTime};
pub use crate::lenient::{LenientDateTime, LenientDateTimeError};
pub use crate::pattern::{Pattern, PatternError, UtcPattern};
pub use crate::read::{ReadDateTime, ReadPatternError};
