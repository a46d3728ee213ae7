//! Searches for date times.

ghost use Rattle.std.specs.Prelude.{◌≡◌, ◌≢◌, List, length};
ghost use Rattle.tz_zone.specs.Clock.{IsClock};
ghost use Rattle.tz.specs.Buffers.{placed};
ghost use Rattle.tz.specs.FindFaults.{IsFindFault};
ghost use Rattle.tz.specs.Found.{IsFound};
ghost use Rattle.tz.specs.declared.datetime.found.FoundDateTimeKind.{FoundDateTimeKind};
ghost use Rattle.tz_c.specs.Codes.{IsAnswer};
ghost use Rattle.tz_c.specs.DateTimeData.{entries_from};
ghost use Rattle.tz_c.specs.DateTimes.{CanBeSearched, IsChoiceAnswer, choice_of};
ghost use Rattle.tz_c.specs.ZoneOfData.{zone_of_data};

use crate::codes::{NO_DATE_TIME, OK, UNKNOWN_CHOICE, code_of};
use crate::date_time_data::{DateTimeData, FoundData};
use crate::zone_data::TzZone;
use tz::datetime::Disambiguation;
use tz::inner::{Fields, find_into, find_one};

/// Writes the entries that a search finds of the fields, without the first `skip`, to the slots as
/// far as they go, and counts all.
#[unsafe(no_mangle)]
pub extern "C" fn tz_find_n(
    fields: &Fields,
    zone: &TzZone<'_>,
    skip: usize,
    slots: &mut [FoundData],
    count: &mut usize,
) -> u32
    ensures answer { IsAnswer result
        ((found : List FoundDateTimeKind)
        × IsFound (IsClock (zone_of_data zone.now)) fields.now found
        × (count.new ≡ length found) × (slots.new ≡ placed slots.old (entries_from skip found)))
        (IsFindFault ⊥ (IsClock (zone_of_data zone.now)) fields.now) }
    ensures searched { result ≡ 0 → CanBeSearched (zone_of_data zone.now) fields.now }
    ensures slots_kept { result ≢ 0 → slots.new ≡ slots.old }
    ensures count_kept { result ≢ 0 → count.new ≡ count.old }
{
    match find_into(slots, skip, fields, &zone.as_zone_data()) {
        Ok(found) => {
            *count = found;
            OK
        }
        Err(error) => code_of(&error),
    }
}

/// The choice that has the number in C.
pub(crate) fn choice_of(choice: u8) -> Option<Disambiguation>
    ensures { result ≡ choice_of choice }
{
    match choice {
        0 => Some(Disambiguation::Compatible),
        1 => Some(Disambiguation::Earlier),
        2 => Some(Disambiguation::Later),
        3 => Some(Disambiguation::Reject),
        _ => None,
    }
}

/// The one date time that the fields mean by a choice.
#[unsafe(no_mangle)]
pub extern "C" fn tz_find_one(
    fields: &Fields,
    choice: u8,
    zone: &TzZone<'_>,
    out: &mut DateTimeData,
) -> u32
    ensures answer { IsChoiceAnswer (zone_of_data zone.now) (choice_of choice) fields.now result
        out.new }
    ensures kept { result ≢ 0 → out.new ≡ out.old }
{
    let Some(disambiguation) = choice_of(choice) else {
        return UNKNOWN_CHOICE;
    };
    match find_one(fields, disambiguation, &zone.as_zone_data()) {
        Ok(Some(date_time)) => {
            *out = DateTimeData::of(&date_time);
            OK
        }
        Ok(None) => NO_DATE_TIME,
        Err(error) => code_of(&error),
    }
}
