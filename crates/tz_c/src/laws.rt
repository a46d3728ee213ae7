//! Laws of columns: at each index a column has what the call for one value writes there.
//!
//! A function here calls a column, and then answers with the call for the value at an index. Its
//! contract is the law. No C program sees it.

ghost use Rattle.std.specs.Int.{w32};
ghost use Rattle.std.specs.Prelude.{◌≡◌, ◌≢◌, ◌<◌, FitsSigned, Some, length, slice_get};
ghost use Rattle.tz_c.specs.Columns.{AreOfLength};

use crate::columns::{tz_column_date_times, tz_column_instants, tz_column_offsets};
use crate::date_time_data::DateTimeData;
use crate::date_times::tz_date_time_from_timespec;
use crate::searches::tz_find_one;
use crate::zone_data::TzZone;
use crate::zones::tz_zone_type_at;
use tz::inner::Fields;
use tz_rule::timezone::LocalTimeType;

/// The year of a date time that is written fits 32 bits.
fn year_fits(date_time: &DateTimeData)
    ensures { FitsSigned w32 date_time.now.fields.year }
{
    let _year = date_time.fields.year;
}

/// A column of offsets has the code of [`tz_zone_type_at`], and the offset of the type that it
/// writes.
pub fn offsets_are_single_calls(
    unix_times: &[i64],
    zone: &TzZone<'_>,
    offsets: &mut [i32],
    codes: &mut [u32],
    index: usize,
    local_time_type: &mut LocalTimeType,
) -> u32
    requires lengths { AreOfLength (length unix_times.now) offsets.old codes.old }
    requires within { index < length unix_times.now }
    ensures code { slice_get codes.new index ≡ Some result }
    ensures value { result ≡ 0
        → slice_get offsets.new index ≡ Some local_time_type.new.ut_offset }
    ensures kept { result ≢ 0 → slice_get offsets.new index ≡ slice_get offsets.old index }
{
    let _ = tz_column_offsets(unix_times, zone, offsets, codes);
    tz_zone_type_at(zone, unix_times[index], local_time_type)
}

/// A column of date times has the code of [`tz_date_time_from_timespec`], and the date time that it
/// writes.
pub fn date_times_are_single_calls(
    unix_times: &[i64],
    nanoseconds: &[u32],
    zone: &TzZone<'_>,
    date_times: &mut [DateTimeData],
    codes: &mut [u32],
    index: usize,
    date_time: &mut DateTimeData,
) -> u32
    requires lengths { AreOfLength (length unix_times.now) date_times.old codes.old }
    requires nanoseconds { length nanoseconds.now ≡ length unix_times.now }
    requires within { index < length unix_times.now }
    ensures code { slice_get codes.new index ≡ Some result }
    ensures value { result ≡ 0 → slice_get date_times.new index ≡ Some date_time.new }
    ensures kept { result ≢ 0 → slice_get date_times.new index ≡ slice_get date_times.old index }
{
    let _ = tz_column_date_times(unix_times, nanoseconds, zone, date_times, codes);
    year_fits(&date_times[index]);
    let code = tz_date_time_from_timespec(unix_times[index], nanoseconds[index], zone, date_time);
    year_fits(date_time);
    code
}

/// A column of instants has the code of [`tz_find_one`], and the instant of the date time that it
/// writes.
pub fn instants_are_single_calls(
    fields: &[Fields],
    choice: u8,
    zone: &TzZone<'_>,
    unix_times: &mut [i64],
    codes: &mut [u32],
    index: usize,
    date_time: &mut DateTimeData,
) -> u32
    requires choice { choice < 4 }
    requires lengths { AreOfLength (length fields.now) unix_times.old codes.old }
    requires within { index < length fields.now }
    ensures code { slice_get codes.new index ≡ Some result }
    ensures value { result ≡ 0
        → slice_get unix_times.new index ≡ Some date_time.new.unix_time }
    ensures kept { result ≢ 0 → slice_get unix_times.new index ≡ slice_get unix_times.old index }
{
    let _ = tz_column_instants(fields, choice, zone, unix_times, codes);
    let code = tz_find_one(&fields[index], choice, zone, date_time);
    year_fits(date_time);
    code
}
