//! Lines of queries and their answers, as the program `tzq` reads and writes them.

use std::alloc::Global;
use tz::TzError;
use tz_query::query;

/// The answers of query lines over the zone of a TZif file whose bytes are at hand.
pub fn answer_lines(alloc: Global, file: &[u8], lines: &[u8]) -> Result<Vec<u8>, TzError> {
    query::answer_tzif(alloc, file, lines)
}
