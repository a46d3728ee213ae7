//! For the crates above, and no part of the public surface: the parts of a date, and when a day
//! begins in a zone of plain data.

pub use crate::date::parts_of;
pub use crate::day_starts::{Shown, first_of_day};
