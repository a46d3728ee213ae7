//! For the crates above and their tests, and not part of the public API: references to rules and
//! what is asked of them, rules as plain data, and the parts of UTC's zone.

pub use crate::timezone::alternate_time::AlternateData;
pub use crate::timezone::local_time_type::designation_bytes;
pub use crate::timezone::rule_changes::{RuleChange, change_after, change_up_to};
pub use crate::timezone::rule_day::DayData;
pub use crate::timezone::transition_rule::{RuleRef, find_local_time_type, segment_at};
pub use crate::timezone::utc_statics::{no_rule, utc_types};
