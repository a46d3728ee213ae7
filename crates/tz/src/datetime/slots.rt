//! Slots of a caller, to which a search writes its entries, as many as there is room for.

ghost use Rattle.std.specs.Prelude.{◌≡◌, List, drop, length, map, IfOk, IfErr, OnOk};
ghost use Rattle.tz_base.specs.Fields.{IsValid};
ghost use Rattle.tz_zone.specs.Clock.{IsClock};
ghost use Rattle.tz_zone.specs.ZoneOfData.{zone_of_data};
ghost use Rattle.tz.specs.Buffers.{placed};
ghost use Rattle.tz.specs.FindFaults.{IsFindFault, IsSearchFault};
ghost use Rattle.tz.specs.Found.{EachCanBeMade, IsFound};
ghost use Rattle.tz.specs.declared.datetime.found.FoundDateTimeKind.{FoundDateTimeKind};

use super::disambiguation::meant_in;
use super::entry_takers::DateTimeList;
use super::gaps_and_folds::search;
use super::{Disambiguation, FoundDateTimeKind};
use std::alloc::AllocError;
use tz_base::error::TzError;
use tz_base::fields::Fields;
use tz_zone::inner::{TransitionView, ZoneData};

/// What holds one entry of a list.
pub trait Slot {
    ghost use Rattle.std.specs.Prelude.{◌≡◌};
    ghost use Rattle.tz.specs.declared.datetime.found.FoundDateTimeKind.{FoundDateTimeKind};

    /// The slot that holds an entry.
    ghost holding: { FoundDateTimeKind → Self };

    /// Writes an entry to the slot.
    fn set(&mut self, found: &FoundDateTimeKind)
        ensures { self.new ≡ holding found.now };
}

impl Slot for Option<FoundDateTimeKind> {
    ghost use Rattle.std.specs.Prelude.{Some};

    ghost holding = { Some };

    fn set(&mut self, found: &FoundDateTimeKind) {
        *self = Some(*found);
    }
}

/// The slots that a search writes to in order from one of its entries on, and how many it found.
#[derive(Drop)]
pub(crate) struct SlotWriter<'a, S> {
    slots: &'a mut [S],
    skip: usize,
    pub(super) count: usize,
}

impl<'a, S: Slot> SlotWriter<'a, S> {
    ghost use Rattle.std.specs.Prelude.{◌≡◌, ◌+◌, ◌-◌, ◌<◌, ◌≤◌, length, min, slice_set};

    /// A writer to `slots` that has been given no entry. The first `skip` entries are counted, and
    /// get no slot.
    pub(super) const fn new(slots: &'a mut [S], skip: usize) -> Self
        ensures same_reference { result.slots.ghost_name ≡ slots.entry.ghost_name }
        ensures slots { result.slots.now ≡ slots.old }
        ensures skip { result.skip ≡ skip }
        ensures count { result.count ≡ 0 }
    {
        SlotWriter {
            slots,
            skip,
            count: 0,
        }
    }

    /// Counts the entry, and writes it to its slot, if the slots go that far.
    fn write(&mut self, found: &FoundDateTimeKind)
        ensures same_reference { self.new.slots.ghost_name ≡ self.old.slots.ghost_name }
        ensures skip { self.new.skip ≡ self.old.skip }
        ensures slots { self.old.skip ≤ self.old.count
            → self.old.count - self.old.skip < length self.old.slots.now
            → self.new.slots.now ≡ slice_set self.old.slots.now (self.old.count - self.old.skip)
            (S.holding found.now) }
        ensures skipped { self.old.count < self.old.skip → self.new.slots.now ≡ self.old.slots.now }
        ensures full { self.old.skip ≤ self.old.count
            → length self.old.slots.now ≤ self.old.count - self.old.skip
            → self.new.slots.now ≡ self.old.slots.now }
        ensures count { self.new.count ≡ min (self.old.count + 1) usize.MAX }
    {
        if self.skip <= self.count {
            let index = self.count - self.skip;
            if index < self.slots.len() {
                self.slots[index].set(found);
            }
        }
        // A list has at most 2^33 entries, and where a `usize` has 32 bits memory has no room for
        // the transitions of 2^31, so the count never comes to its end.
        self.count = self.count.saturating_add(1);
    }
}

impl<S: Slot> DateTimeList for SlotWriter<'_, S> {
    ghost use Rattle.tz.specs.Buffers.{GrowsBy, grows_by_none, grows_by_more};

    ghost gains = { GrowsBy S.holding };

    ghost takes_memory = { ⊥ };

    ghost none = { grows_by_none S.holding };

    ghost more = { grows_by_more S.holding };

    fn push(&mut self, found: FoundDateTimeKind) -> Result<(), AllocError> {
        self.write(&found);
        Ok(())
    }
}

/// Whether each entry of the fields can be made, by a search that writes nothing. It is cold, so
/// that the search that writes stays small.
#[cold]
fn check_by_search(fields: &Fields, zone: &ZoneData<'_>) -> Result<(), TzError>
    requires { IsValid fields.now }
    ensures made { OnOk result (EachCanBeMade (IsClock (zone_of_data zone.now)) fields.now) }
    ensures err { IfErr result (IsSearchFault ⊥ (IsClock (zone_of_data zone.now)) fields.now) }
{
    meant_in(fields.reading(), Disambiguation::Compatible, zone)?;
    Ok(())
}

/// Searches for fields near the ends of the years, so that a search that is refused is refused
/// before anything is written.
fn check_entries(fields: &Fields, zone: &ZoneData<'_>) -> Result<(), TzError>
    requires { IsValid fields.now }
    ensures made { OnOk result (EachCanBeMade (IsClock (zone_of_data zone.now)) fields.now) }
    ensures err { IfErr result (IsSearchFault ⊥ (IsClock (zone_of_data zone.now)) fields.now) }
{
    // 200 years or more from both ends of 32 bits.
    if -2_147_483_448 <= fields.year && fields.year <= 2_147_483_447 {
        return Ok(());
    }
    check_by_search(fields, zone)
}

/// Writes the entries for the fields, from one of them on, to the slots, as far as they go, and
/// counts all.
pub fn find_into<S: Slot>(
    slots: &mut [S],
    skip: usize,
    fields: &Fields,
    zone: &ZoneData<'_>,
) -> Result<usize, TzError>
    ensures ok { IfOk result (λ count. (found : List FoundDateTimeKind)
        × IsFound (IsClock (zone_of_data zone.now)) fields.now found
        × (count ≡ length found)
        × (slots.new ≡ placed slots.old (map S.holding (drop skip found)))) }
    ensures valid { OnOk result (IsValid fields.now) }
    ensures made { OnOk result (EachCanBeMade (IsClock (zone_of_data zone.now)) fields.now) }
    ensures kept { IfErr result (λ _. slots.new ≡ slots.old) }
    ensures err { IfErr result (IsFindFault ⊥ (IsClock (zone_of_data zone.now)) fields.now) }
{
    fields.check()?;
    check_entries(fields, zone)?;
    let mut writer = SlotWriter::new(slots, skip);
    let mut view = TransitionView::new(zone.transitions());
    search(&mut writer, fields, &mut view, zone)?;
    Ok(writer.count)
}
