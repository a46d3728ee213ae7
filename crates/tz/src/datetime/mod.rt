//! Date times.

pub(crate) mod date_time;
pub(crate) mod disambiguation;
mod entry_ends;
pub(crate) mod entry_takers;
pub(crate) mod find;
mod found;
pub(crate) mod gaps_and_folds;
pub(crate) mod in_place;
mod meaning;
pub(crate) mod slots;
pub(crate) mod utc_date_time;

pub use date_time::DateTime;
pub use disambiguation::Disambiguation;
pub use found::{FoundDateTimeKind, FoundDateTimeList, FoundDateTimeListRefMut};
pub use meaning::Meaning;
pub use utc_date_time::UtcDateTime;
