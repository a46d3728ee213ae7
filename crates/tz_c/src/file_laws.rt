//! A law of files: the sizes that one call writes are those that the other takes.
//!
//! The function here makes both calls. Its contract is the law. No C program sees it.

ghost use Rattle.std.specs.Prelude.{◌≡◌};
ghost use Rattle.tz_zone.specs.Table.{Zone};
ghost use Rattle.tz_zone.specs.TzFile.{IsTzFile};
ghost use Rattle.tz_c.specs.Tables.{AreOfSizes, IsReadBySizes};

use crate::rule_data::RuleData;
use crate::texts::{tz_file_read, tz_file_sizes};
use crate::zones::OffsetsData;
use std::alloc::Global;
use tz_rule::timezone::LocalTimeType;
use tz_zone::inner::FileSizes;
use tz_zone::laws::files_denote_one_zone;
use tz_zone::timezone::{LeapSecond, Transition};

/// Of the file of a zone [`tz_file_sizes`] writes the sizes, and [`tz_file_read`] takes slices of
/// these lengths and no others: for others it returns that the lengths differ.
pub fn file_sizes_are_taken(
    alloc: Global,
    bytes: &[u8],
    sizes: &mut FileSizes,
    transitions: &mut [Transition],
    local_time_types: &mut [LocalTimeType],
    leap_seconds: &mut [LeapSecond],
    rule: &mut RuleData,
    offsets: &mut OffsetsData,
) -> u32
    ensures { (zone : Zone) → IsTzFile bytes.now zone → IsReadBySizes result
        (AreOfSizes sizes.new transitions.new local_time_types.new leap_seconds.new) }
{
    files_denote_one_zone();
    let _ = tz_file_sizes(bytes, sizes);
    tz_file_read(
        alloc,
        bytes,
        transitions,
        local_time_types,
        leap_seconds,
        rule,
        offsets,
    )
}
