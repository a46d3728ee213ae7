//! Whole columns in one call: each index has a code of its own, an error at one does not stop the
//! others, and all buffers have one length.

ghost use Rattle.std.specs.Prelude.{◌≡◌, ◌≢◌, length};
ghost use Rattle.tz_c.specs.Codes.{IsAnswerOr, buffer_length};
ghost use Rattle.tz_c.specs.Columns.{AreAnswers, AreInstantsBy, AreInstantsOfReadingsBy, AreOfLength, AreOkFrom, IsCodeOfNone, IsDateTimeAt, IsOffsetAt};
ghost use Rattle.tz_c.specs.DateTimes.{choice_of};
ghost use Rattle.tz_c.specs.ZoneOfData.{zone_of_data};

use crate::codes::{BUFFER_LENGTH, NO_DATE_TIME, OK, UNKNOWN_CHOICE, code_of};
use crate::date_time_data::DateTimeData;
use crate::searches::choice_of;
use crate::zone_data::TzZone;
use tz::inner::{
    Fields, write_date_times, write_instants, write_instants_of_readings, write_offsets,
};
use tz_base::error::TzError;

/// Sets all codes to `OK`.
fn clear(codes: &mut [u32])
    ensures length { length codes.new ≡ length codes.old }
    ensures cleared { AreOkFrom 0 codes.new }
{
    codes.fill(OK);
}

/// The code of an element that has no instant: that of its error, if there is one.
fn code_of_none(error: &Option<TzError>) -> u32
    ensures { IsCodeOfNone error.now result }
{
    match error {
        Some(error) => code_of(error),
        None => NO_DATE_TIME,
    }
}

/// The offsets of the zone's clock at instants.
#[unsafe(no_mangle)]
pub extern "C" fn tz_column_offsets(
    unix_times: &[i64],
    zone: &TzZone<'_>,
    offsets: &mut [i32],
    codes: &mut [u32],
) -> u32
    ensures answer { IsAnswerOr result buffer_length
        (AreOfLength (length unix_times.now) offsets.old codes.old
        × AreAnswers (IsOffsetAt (zone_of_data zone.now) unix_times.now) offsets.old offsets.new
        codes.new)
        (¬ AreOfLength (length unix_times.now) offsets.old codes.old) }
    ensures offsets_kept { result ≢ 0 → offsets.new ≡ offsets.old }
    ensures codes_kept { result ≢ 0 → codes.new ≡ codes.old }
{
    if offsets.len() != unix_times.len() || codes.len() != unix_times.len() {
        return BUFFER_LENGTH;
    }
    clear(codes);
    let data = zone.as_zone_data();
    let mut first = 0;
    while let Err(unanswered) = write_offsets(unix_times, first, &data, offsets) {
        codes[unanswered.index] = code_of(&unanswered.error);
        first = unanswered.index + 1;
    }
    OK
}

/// What the zone's clock shows at instants.
#[unsafe(no_mangle)]
pub extern "C" fn tz_column_date_times(
    unix_times: &[i64],
    nanoseconds: &[u32],
    zone: &TzZone<'_>,
    date_times: &mut [DateTimeData],
    codes: &mut [u32],
) -> u32
    ensures answer { IsAnswerOr result buffer_length
        ((length nanoseconds.now ≡ length unix_times.now)
        × AreOfLength (length unix_times.now) date_times.old codes.old
        × AreAnswers (IsDateTimeAt (zone_of_data zone.now) unix_times.now nanoseconds.now)
        date_times.old date_times.new codes.new)
        (¬ ((length nanoseconds.now ≡ length unix_times.now)
        × AreOfLength (length unix_times.now) date_times.old codes.old)) }
    ensures date_times_kept { result ≢ 0 → date_times.new ≡ date_times.old }
    ensures codes_kept { result ≢ 0 → codes.new ≡ codes.old }
{
    if nanoseconds.len() != unix_times.len()
        || date_times.len() != unix_times.len()
        || codes.len() != unix_times.len()
    {
        return BUFFER_LENGTH;
    }
    clear(codes);
    let data = zone.as_zone_data();
    let mut first = 0;
    while let Err(unshown) = write_date_times(unix_times, nanoseconds, first, &data, date_times) {
        codes[unshown.index] = code_of(&unshown.error);
        first = unshown.index + 1;
    }
    OK
}

/// The instants that fields mean by a choice.
#[unsafe(no_mangle)]
pub extern "C" fn tz_column_instants(
    fields: &[Fields],
    choice: u8,
    zone: &TzZone<'_>,
    unix_times: &mut [i64],
    codes: &mut [u32],
) -> u32
    ensures answer { AreInstantsBy (zone_of_data zone.now) (choice_of choice) fields.now result
        unix_times.old
        unix_times.new codes.old codes.new }
    ensures unix_times_kept { result ≢ 0 → unix_times.new ≡ unix_times.old }
    ensures codes_kept { result ≢ 0 → codes.new ≡ codes.old }
{
    let Some(disambiguation) = choice_of(choice) else {
        return UNKNOWN_CHOICE;
    };
    if unix_times.len() != fields.len() || codes.len() != fields.len() {
        return BUFFER_LENGTH;
    }
    clear(codes);
    let data = zone.as_zone_data();
    let mut first = 0;
    while let Err(none) = write_instants(fields, first, disambiguation, &data, unix_times) {
        codes[none.index] = code_of_none(&none.error);
        first = none.index + 1;
    }
    OK
}

/// The instants that readings mean by a choice: those of fields that are read so, without
/// nanoseconds.
#[unsafe(no_mangle)]
pub extern "C" fn tz_column_instants_of_readings(
    readings: &[i64],
    choice: u8,
    zone: &TzZone<'_>,
    unix_times: &mut [i64],
    codes: &mut [u32],
) -> u32
    ensures answer { AreInstantsOfReadingsBy (zone_of_data zone.now) (choice_of choice) readings.now
        result unix_times.old unix_times.new codes.old codes.new }
    ensures unix_times_kept { result ≢ 0 → unix_times.new ≡ unix_times.old }
    ensures codes_kept { result ≢ 0 → codes.new ≡ codes.old }
{
    let Some(disambiguation) = choice_of(choice) else {
        return UNKNOWN_CHOICE;
    };
    if unix_times.len() != readings.len() || codes.len() != readings.len() {
        return BUFFER_LENGTH;
    }
    clear(codes);
    let data = zone.as_zone_data();
    let mut first = 0;
    while let Err(none) = write_instants_of_readings(
        readings,
        first,
        disambiguation,
        &data,
        unix_times,
    ) {
        codes[none.index] = code_of_none(&none.error);
        first = none.index + 1;
    }
    OK
}
