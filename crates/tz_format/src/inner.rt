//! For the crates above, and no part of the public surface: lines, and what patterns print there.

pub use crate::formatted::{push_date_time, push_utc_date_time};
pub use crate::line::Line;
