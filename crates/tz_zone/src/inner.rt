//! For the crates above and their tests, and no part of the public surface: the clock of a zone
//! over a view of its transitions, leap times, what is read of a zone, and its data, which no
//! public call of `TimeZoneRef` returns.

pub use crate::clock::window_types::{WindowTypes, window_types};
pub use crate::clock::{Span, Stage, clock_segment_at, first_stage, span_from};
pub use crate::leap::leap_time::{effect, unix_time_to_unix_leap_time};
pub use crate::parse::after_byte;
pub use crate::parse::tz_file::{FileSizes, file_sizes};
pub use crate::parse::tz_string::parse_posix_tz;
pub use crate::table::TransitionView;
pub use crate::timezone::files::{open_fault, read_to_end};
pub use crate::timezone::zone_data::ZoneData;
