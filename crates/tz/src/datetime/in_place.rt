//! The search into a list that holds one date time in place, without an allocation, where the types
//! of a window say that there is no more.

ghost use Rattle.std.specs.Prelude.{◌≡◌, List, ⊤, IfOk, IfErr, OnOk, MatchOption};
ghost use Rattle.tz_base.specs.Fields.{IsValid, reading as reading_of};
ghost use Rattle.tz_zone.specs.Clock.{IsClock};
ghost use Rattle.tz_zone.specs.WindowTypes.{AreTypesIn, IfMore, IsPositionOf};
ghost use Rattle.tz_zone.specs.ZoneOfData.{zone_of_data};
ghost use Rattle.tz.specs.FindFaults.{IsSearchFault};
ghost use Rattle.tz.specs.Found.{EachCanBeMade, IsFound};
ghost use Rattle.tz.specs.InPlace.{IsShownOnce, IsShownOnceIn, all_of};
ghost use Rattle.tz.specs.Outcomes.{IsOutcome};
ghost use Rattle.tz.specs.Windows.{IsSearchable, IsSmall};
ghost use Rattle.tz.specs.declared.datetime.found.FoundDateTimeKind.{FoundDateTimeKind};

use super::entry_takers::{DateTimeList, Dated};
use super::gaps_and_folds::{give_in_window, shown_at, types_of_window, window_of};
use super::{DateTime, FoundDateTimeKind, FoundDateTimeList};
use std::alloc::{Allocator, Global};
use tz_base::error::TzError;
use tz_base::fields::Fields;
use tz_zone::inner::{TransitionView, WindowTypes, ZoneData};
use tz_zone::timezone::LocalTimeType;

/// The date times that a search found, by rising Unix time: one in place, or a list, of any number.
#[derive(Drop)]
pub enum FoundDateTimes<A: Allocator + Copy = Global> {
    /// One, and no more.
    Once(FoundDateTimeKind),
    /// All of them.
    Listed(FoundDateTimeList<A>),
}

impl<A: Allocator + Copy> FoundDateTimes<A> {
    ghost use Rattle.std.specs.Prelude.{◌≡◌, IfOk, IfErr, alloc_error};
    ghost use Rattle.tz.specs.Found.{unique_of, earliest_of, latest_of};
    ghost use Rattle.tz.specs.InPlace.{all_of};

    /// A copy, on the same allocator.
    ///
    /// # Errors
    ///
    /// [`TzError::Memory`] if an allocation fails.
    pub fn try_clone(&self) -> Result<Self, TzError>
        ensures ok { IfOk result (λ copy. all_of copy ≡ all_of self.now) }
        ensures err { IfErr result (λ e. e ≡ TzError.Memory alloc_error) }
    {
        match self {
            FoundDateTimes::Once(found) => Ok(FoundDateTimes::Once(*found)),
            FoundDateTimes::Listed(list) => Ok(FoundDateTimes::Listed(list.try_clone()?)),
        }
    }

    /// The date time, if exactly one was found and no jump, and otherwise `None`.
    pub fn unique(&self) -> Option<DateTime>
        ensures { result ≡ unique_of (all_of self.now) }
    {
        match self {
            FoundDateTimes::Once(FoundDateTimeKind::Normal(date_time)) => Some(*date_time),
            FoundDateTimes::Once(FoundDateTimeKind::Skipped { .. }) => None,
            FoundDateTimes::Listed(list) => list.unique(),
        }
    }

    /// The earliest date time; of a jump the side before it. `None` if nothing was found.
    pub fn earliest(&self) -> Option<DateTime>
        ensures { result ≡ earliest_of (all_of self.now) }
    {
        match self {
            FoundDateTimes::Once(found) => Some(*found.sides().0),
            FoundDateTimes::Listed(list) => list.earliest(),
        }
    }

    /// The latest date time; of a jump the side after it. `None` if nothing was found.
    pub fn latest(&self) -> Option<DateTime>
        ensures { result ≡ latest_of (all_of self.now) }
    {
        match self {
            FoundDateTimes::Once(found) => Some(*found.sides().1),
            FoundDateTimes::Listed(list) => list.latest(),
        }
    }
}

/// The type in which clocks show a reading, if by the types of its window they show it once and are
/// not set forward over it.
fn type_shown_once<'a>(reading: i64, types: WindowTypes<'a>) -> Option<&'a LocalTimeType>
    requires { IsSmall reading }
    ensures { MatchOption result (¬ IsShownOnce reading types.entry)
        (λ t. IsShownOnceIn reading types.entry t.now) }
{
    match types {
        WindowTypes::One(local_time_type) => Some(local_time_type),
        WindowTypes::Two {
            unix_time,
            before,
            after,
        } => {
            let is_before = shown_at(reading, before) < unix_time;
            let is_after = unix_time <= shown_at(reading, after);
            // Both in a fold, and none in a gap.
            match (is_before, is_after) {
                (true, false) => Some(before),
                (false, true) => Some(after),
                _ => None,
            }
        }
        WindowTypes::More(_) => None,
    }
}

/// Adds the entries for valid fields to the list, in order, by the types that the clock has in
/// their window.
fn search_by_types<'a, L: DateTimeList>(
    list: &mut L,
    fields: &Fields,
    zone: &ZoneData<'a>,
    types: WindowTypes<'a>,
    low: i64,
    high: i64,
) -> Result<(), TzError>
    requires valid { IsValid fields.now }
    requires searchable { IsSearchable (zone_of_data zone.now) (reading_of fields.now) low high }
    requires types { AreTypesIn (IsClock (zone_of_data zone.now)) low high types }
    requires position { IfMore types (IsPositionOf (zone_of_data zone.now) low) }
    ensures ok { OnOk result ((found : List FoundDateTimeKind) × L.gains list.old list.new found
        × IsFound (IsClock (zone_of_data zone.now)) fields.now found) }
    ensures made { OnOk result (EachCanBeMade (IsClock (zone_of_data zone.now)) fields.now) }
    ensures err { IfErr result
        (IsSearchFault L.takes_memory (IsClock (zone_of_data zone.now)) fields.now) }
{
    let reading = fields.reading();
    let mut view = TransitionView::new(zone.transitions());
    let mut dated = Dated { fields, list };
    give_in_window(&mut dated, reading, &mut view, *zone, types, low, high)
}

/// The list of what [`DateTime::find`] finds of valid fields, by the types that the clock has in
/// their window.
#[cold]
fn list_by_types<'a, A: Allocator + Copy>(
    alloc: A,
    fields: &Fields,
    zone: &ZoneData<'a>,
    types: WindowTypes<'a>,
    low: i64,
    high: i64,
) -> Result<FoundDateTimes<A>, TzError>
    requires valid { IsValid fields.now }
    requires searchable { IsSearchable (zone_of_data zone.now) (reading_of fields.now) low high }
    requires types { AreTypesIn (IsClock (zone_of_data zone.now)) low high types }
    requires position { IfMore types (IsPositionOf (zone_of_data zone.now) low) }
    ensures ok { IfOk result (λ found.
        IsFound (IsClock (zone_of_data zone.now)) fields.now (all_of found)) }
    ensures made { OnOk result (EachCanBeMade (IsClock (zone_of_data zone.now)) fields.now) }
    ensures err { IfErr result (IsSearchFault ⊤ (IsClock (zone_of_data zone.now)) fields.now) }
{
    let mut list = FoundDateTimeList::new_in(alloc);
    search_by_types(&mut list, fields, zone, types, low, high)?;
    Ok(FoundDateTimes::Listed(list))
}

/// What [`DateTime::find`] finds of the fields. It does not allocate if by the types that the clock
/// has in their window they are shown once, and no jump is over them.
pub fn find_in_place<A: Allocator + Copy>(
    alloc: A,
    fields: &Fields,
    zone: &ZoneData<'_>,
) -> Result<FoundDateTimes<A>, TzError>
    ensures ok { IfOk result (λ found.
        IsFound (IsClock (zone_of_data zone.now)) fields.now (all_of found)) }
    ensures outcome { IsOutcome (λ e. e) ⊤ (zone_of_data zone.now) fields.now result }
{
    fields.check()?;
    let reading = fields.reading();
    let (low, high) = window_of(zone, reading);
    let types = types_of_window(zone, low, high);
    let Some(local_time_type) = type_shown_once(reading, types) else {
        return list_by_types(alloc, fields, zone, types, low, high);
    };
    let unix_time = shown_at(reading, local_time_type);
    let date_time = DateTime::of_fields(fields, *local_time_type, unix_time);
    Ok(FoundDateTimes::Once(FoundDateTimeKind::Normal(date_time)))
}
