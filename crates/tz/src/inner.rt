//! For the crates above and their tests, and no part of the public surface: fields, texts, searches
//! for fields and the slots that they fill, columns, and readers of bytes.

pub use crate::columns::date_times::{DateTimeSlot, write_date_times};
pub use crate::columns::instants::{NoInstant, write_instants, write_instants_of_readings};
pub use crate::columns::{Unanswered, write_offsets};
pub use crate::datetime::date_time::fields_of;
pub use crate::datetime::disambiguation::find_one;
pub use crate::datetime::find::find_fields;
pub use crate::datetime::gaps_and_folds::{types_of_window, window_of};
pub use crate::datetime::in_place::{FoundDateTimes, find_in_place};
pub use crate::datetime::slots::{Slot, find_into};
pub use crate::datetime::utc_date_time::utc_fields_of;
pub use crate::parse::{read_digits, value_of};
pub use tz_base::fields::{Fields, is_reading, local_reading};
pub use tz_base::print::middle_of;
pub use tz_base::text_buffer::{TextBuffer, pair_of, two_pairs};
pub use tz_zone::inner::{WindowTypes, ZoneData, after_byte, read_to_end};
