//! The date times at which the clock of a zone shows given fields.

ghost use Rattle.std.specs.Prelude.{◌≡◌, ◌⊎◌, ◌+◌, ◌^◌, ◌<◌, ◌≤◌, List, length, ⊤, IfOk, OnOk};
ghost use Rattle.tz_base.specs.Fields.{IsValid, reading};
ghost use Rattle.tz_zone.specs.Clock.{IsClock};
ghost use Rattle.tz_zone.specs.Looks.{list_of};
ghost use Rattle.tz_zone.specs.ZoneOfData.{zone_of_data};
ghost use Rattle.tz.specs.Found.{IsFound};
ghost use Rattle.tz.specs.Lists.{found_of};
ghost use Rattle.tz.specs.Outcomes.{AreLooksOf, IsOutcome};
ghost use Rattle.tz.specs.declared.datetime.found.FoundDateTimeKind.{FoundDateTimeKind};

use super::entry_takers::DateTimeList;
use super::gaps_and_folds::search;
use super::slots::SlotWriter;
use super::{DateTime, FoundDateTimeKind, FoundDateTimeList, FoundDateTimeListRefMut, UtcDateTime};
use std::alloc::Allocator;
use tz_base::error::TzError;
use tz_base::fields::Fields;
use tz_zone::inner::{TransitionView, ZoneData};
use tz_zone::timezone::TimeZoneRef;

/// A search that failed, and the buffer as it left it.
#[derive(Drop)]
pub(super) struct Refused<'a> {
    buf: &'a mut [Option<FoundDateTimeKind>],
    pub(super) fault: TzError,
}

/// What [`DateTime::find`] finds of the fields.
pub fn find_fields<A: Allocator + Copy>(
    alloc: A,
    fields: &Fields,
    zone: &ZoneData<'_>,
) -> Result<FoundDateTimeList<A>, TzError>
    ensures ok { IfOk result (λ list.
        IsFound (IsClock (zone_of_data zone.now)) fields.now (found_of list)) }
    ensures outcome { IsOutcome (λ e. e) ⊤ (zone_of_data zone.now) fields.now result }
{
    let mut list = FoundDateTimeList::new_in(alloc);
    let mut view = TransitionView::new(zone.transitions());
    find_in(&mut list, fields, &mut view, zone)?;
    Ok(list)
}

/// Adds what [`DateTime::find`] finds of the fields to a list, through a view of the zone's
/// transitions.
pub(super) fn find_in<L: DateTimeList>(
    list: &mut L,
    fields: &Fields,
    view: &mut TransitionView<'_>,
    zone: &ZoneData<'_>,
) -> Result<(), TzError>
    requires { list_of view.old ≡ (zone_of_data zone.now).transitions }
    ensures ok { OnOk result ((found : List FoundDateTimeKind) × L.gains list.old list.new found
        × IsFound (IsClock (zone_of_data zone.now)) fields.now found × (length found ≤ 2 ^ 33)) }
    ensures untouched { IsValid fields.now ⊎ (list.new ≡ list.old) }
    ensures outcome { IsOutcome (λ e. e) L.takes_memory (zone_of_data zone.now) fields.now result }
    ensures looks { AreLooksOf (zone_of_data zone.now) (reading fields.now)
        view.old view.new result }
{
    fields.check()?;
    search(list, fields, view, zone)
}

impl DateTime {
    ghost use Rattle.std.specs.Prelude.{◌≡◌, ◌⊎◌, ◌+◌, ◌*◌, ◌^◌, ◌<◌, ◌≤◌, ℕ, List, length, ⊤, IfOk, IfErr};
    ghost use Rattle.std.specs.Borrow.{sem};
    ghost use Rattle.tz_base.specs.Fields.{IsValid, reading, fields_of};
    ghost use Rattle.tz_zone.specs.Clock.{IsClock};
    ghost use Rattle.tz_zone.specs.ZoneOfData.{zone_of_data};
    ghost use Rattle.tz_zone.specs.ZoneRef.{zone_of};
    ghost use Rattle.tz.specs.Windows.{AtMostTakeEffectAround};
    ghost use Rattle.tz.specs.Found.{IsFound};
    ghost use Rattle.tz.specs.Lists.{found_of, slots_of, count_of, reference_of};
    ghost use Rattle.tz.specs.Outcomes.{AreLooksOf, IsOutcome};
    ghost use Rattle.tz.specs.Slots.{filled};
    ghost use Rattle.tz.specs.BorrowedSlots.{RestsIfInvalid};
    ghost use Rattle.tz.specs.declared.datetime.found.FoundDateTimeKind.{FoundDateTimeKind};

    /// All date times at which the zone's clock shows the fields, and the forward jumps over them,
    /// in order of Unix time.
    ///
    /// The month is from 1 to 12, the day of the month from 1, the hour from 0 to 23, the minute
    /// from 0 to 59, the second from 0 to 60 and the nanoseconds below 10^9. A date time keeps the
    /// fields that were passed, second 60 included.
    ///
    /// # Errors
    ///
    /// - [`TzError::DateTime`] with the first field that is out of range, in the order of the
    ///   arguments, or else with `InvalidMonthDay` if the month does not have the day;
    /// - [`TzError::OutOfRange`] if an entry is outside the years of an `i32`, as only the local
    ///   time before or after a jump can be. This cannot happen 200 years or more from both ends of
    ///   these years, nor three years or more from them if all offsets of the zone are above -25
    ///   and below 26 hours;
    /// - [`TzError::Memory`] if an allocation for the list fails.
    pub fn find<A: Allocator + Copy>(
        alloc: A,
        year: i32,
        month: u8,
        month_day: u8,
        hour: u8,
        minute: u8,
        second: u8,
        nanoseconds: u32,
        time_zone_ref: TimeZoneRef<'_>,
    ) -> Result<FoundDateTimeList<A>, TzError>
        ensures ok { IfOk result (λ list. IsFound (IsClock (zone_of time_zone_ref.entry))
            (fields_of year month month_day hour minute second nanoseconds) (found_of list)) }
        ensures outcome { IsOutcome (λ e. e) ⊤ (zone_of time_zone_ref.entry)
            (fields_of year month month_day hour minute second nanoseconds) result }
    {
        let fields = Fields::new(year, month, month_day, hour, minute, second, nanoseconds);
        find_fields(alloc, &fields, &ZoneData::of(&time_zone_ref))
    }

    /// What [`DateTime::find`] returns for the fields of the local time. The `UtcDateTime` is read
    /// as a local time, without an offset.
    ///
    /// When an alarm that is set to a local time rings: at the first instant at which clocks show
    /// that time or are set forward over it. At a jump it rings as many nanoseconds late as `local`
    /// has.
    ///
    /// ```rust
    /// pub fn alarm(
    ///     alloc: Global,
    ///     zone: TimeZoneRef<'_>,
    ///     local: UtcDateTime,
    /// ) -> Result<Option<DateTime>, TzError> {
    ///     let found = DateTime::find_local(alloc, local, zone)?;
    ///     Ok(match found.into_inner().as_slice() {
    ///         [] => None,
    ///         [FoundDateTimeKind::Normal(date_time), ..] => Some(*date_time),
    ///         [
    ///             FoundDateTimeKind::Skipped {
    ///                 after_transition,
    ///                 ..
    ///             },
    ///             ..
    ///         ] => Some(*after_transition),
    ///     })
    /// }
    /// ```
    ///
    /// # Errors
    ///
    /// - [`TzError::OutOfRange`] as for [`DateTime::find`];
    /// - [`TzError::Memory`] if an allocation for the list fails.
    pub fn find_local<A: Allocator + Copy>(
        alloc: A,
        local: UtcDateTime,
        time_zone_ref: TimeZoneRef<'_>,
    ) -> Result<FoundDateTimeList<A>, TzError>
        ensures ok { IfOk result (λ list. IsFound (IsClock (zone_of time_zone_ref.entry)) local
            (found_of list)) }
        ensures outcome { IsOutcome (λ e. e) ⊤ (zone_of time_zone_ref.entry) local result }
    {
        find_fields(alloc, local.fields(), &ZoneData::of(&time_zone_ref))
    }

    /// Writes what [`DateTime::find`] returns to the slots of a buffer, as far as they go, and
    /// counts all entries. The other slots stay as they are. This call does not allocate.
    ///
    /// The month is from 1 to 12, the day of the month from 1, the hour from 0 to 23, the minute
    /// from 0 to 59, the second from 0 to 60 and the nanoseconds below 10^9. A date time keeps the
    /// fields that were passed, second 60 included.
    ///
    /// # Errors
    ///
    /// Those of [`DateTime::find`] but `Memory`. If a field is invalid, nothing is written.
    pub fn find_n<'a>(
        buf: &'a mut [Option<FoundDateTimeKind>],
        year: i32,
        month: u8,
        month_day: u8,
        hour: u8,
        minute: u8,
        second: u8,
        nanoseconds: u32,
        time_zone_ref: TimeZoneRef<'_>,
    ) -> Result<FoundDateTimeListRefMut<'a>, TzError>
        ensures* untouched { sem 𝓛 (RestsIfInvalid reference_of buf.entry
            (fields_of year month month_day hour minute second nanoseconds) result) }
        ensures same_reference { IfOk result (λ list. reference_of list ≡ buf.entry.ghost_name) }
        ensures ok { IfOk result (λ list. (found : List FoundDateTimeKind)
            × IsFound (IsClock (zone_of time_zone_ref.entry))
            (fields_of year month month_day hour minute second nanoseconds) found
            × (count_of list ≡ length found) × (slots_of list ≡ filled buf.old found)) }
        ensures outcome { IsOutcome (λ e. e) ⊥ (zone_of time_zone_ref.entry)
            (fields_of year month month_day hour minute second nanoseconds) result }
    {
        // A call and a match: the proof of `untouched` follows these statements.
        match DateTime::listed(
            buf,
            year,
            month,
            month_day,
            hour,
            minute,
            second,
            nanoseconds,
            time_zone_ref,
        ) {
            Ok(list) => Ok(list),
            Err(refused) => Err(refused.fault),
        }
    }

    /// What [`DateTime::find_n`] returns for the fields of the local time. The `UtcDateTime` is
    /// read as a local time, without an offset.
    ///
    /// How many instants and jumps a local time has, without allocating: almost always 1, and 2 if
    /// clocks show it twice.
    ///
    /// ```rust
    /// pub fn count_meanings(zone: TimeZoneRef<'_>, local: UtcDateTime) -> Result<usize, TzError> {
    ///     let mut slots = [None; 2];
    ///     Ok(DateTime::find_n_local(&mut slots, local, zone)?.count())
    /// }
    /// ```
    ///
    /// # Errors
    ///
    /// [`TzError::OutOfRange`] as for [`DateTime::find`]. Entries that come before the one that is
    /// out of range may have been written.
    pub fn find_n_local<'a>(
        buf: &'a mut [Option<FoundDateTimeKind>],
        local: UtcDateTime,
        time_zone_ref: TimeZoneRef<'_>,
    ) -> Result<FoundDateTimeListRefMut<'a>, TzError>
        ensures same_reference { IfOk result (λ list. reference_of list ≡ buf.entry.ghost_name) }
        ensures ok { IfOk result (λ list. (found : List FoundDateTimeKind)
            × IsFound (IsClock (zone_of time_zone_ref.entry)) local found
            × (count_of list ≡ length found) × (slots_of list ≡ filled buf.old found)) }
        ensures outcome { IsOutcome (λ e. e) ⊥ (zone_of time_zone_ref.entry) local result }
    {
        let mut view = TransitionView::new(time_zone_ref.transitions());
        match DateTime::listed_in(
            buf,
            local.fields(),
            &mut view,
            &ZoneData::of(&time_zone_ref),
        ) {
            Ok(list) => Ok(list),
            Err(refused) => Err(refused.fault),
        }
    }

    /// What [`DateTime::find_n`] returns, and how many transitions were read.
    ///
    /// If a zone has n transitions, of which w take effect in the window of the local time (from
    /// the local time less the zone's greatest offset to the local time less its least one), a
    /// search reads at most 2 b + w + 4, where b is the number of binary digits of n. The count
    /// saturates at `u64::MAX`.
    ///
    /// # Errors
    ///
    /// Those of [`DateTime::find_n`].
    pub fn find_n_counted<'a>(
        buf: &'a mut [Option<FoundDateTimeKind>],
        year: i32,
        month: u8,
        month_day: u8,
        hour: u8,
        minute: u8,
        second: u8,
        nanoseconds: u32,
        time_zone_ref: TimeZoneRef<'_>,
    ) -> Result<(FoundDateTimeListRefMut<'a>, u64), TzError>
        ensures* untouched { sem 𝓛 (RestsIfInvalid (λ counted. reference_of counted.0) buf.entry
            (fields_of year month month_day hour minute second nanoseconds) result) }
        ensures same_reference { IfOk result (λ found. reference_of found.0
            ≡ buf.entry.ghost_name) }
        ensures ok { IfOk result (λ counted. (found : List FoundDateTimeKind)
            × IsFound (IsClock (zone_of time_zone_ref.entry))
            (fields_of year month month_day hour minute second nanoseconds) found
            × (count_of counted.0 ≡ length found) × (slots_of counted.0 ≡ filled buf.old found)) }
        ensures outcome { IsOutcome (λ e. e) ⊥ (zone_of time_zone_ref.entry)
            (fields_of year month month_day hour minute second nanoseconds) result }
        ensures at_most { IfOk result (λ counted. (b w : ℕ)
            → length (zone_of time_zone_ref.entry).transitions < 2 ^ b
            → AtMostTakeEffectAround (zone_of time_zone_ref.entry)
            (reading (fields_of year month month_day hour minute second nanoseconds)) w
            → counted.1 ≤ 2 * b + w + 4) }
        ensures at_least_one { IfOk result
            (λ counted. 0 < length (zone_of time_zone_ref.entry).transitions
            → 1 ≤ counted.1) }
        ensures none { IfOk result (λ counted. length (zone_of time_zone_ref.entry).transitions ≡ 0
            → counted.1 ≡ 0) }
    {
        // A call and a match: the proof of `untouched` follows these statements.
        match DateTime::listed_counted(
            buf,
            year,
            month,
            month_day,
            hour,
            minute,
            second,
            nanoseconds,
            time_zone_ref,
        ) {
            Ok(counted) => Ok(counted),
            Err(refused) => Err(refused.fault),
        }
    }

    /// What [`DateTime::find_n`] returns, or the buffer and the error.
    fn listed<'a>(
        buf: &'a mut [Option<FoundDateTimeKind>],
        year: i32,
        month: u8,
        month_day: u8,
        hour: u8,
        minute: u8,
        second: u8,
        nanoseconds: u32,
        time_zone_ref: TimeZoneRef<'_>,
    ) -> Result<FoundDateTimeListRefMut<'a>, Refused<'a>>
        ensures same_reference { IfOk result (λ list. reference_of list ≡ buf.entry.ghost_name) }
        ensures ok { IfOk result (λ list. (found : List FoundDateTimeKind)
            × IsFound (IsClock (zone_of time_zone_ref.entry))
            (fields_of year month month_day hour minute second nanoseconds) found
            × (count_of list ≡ length found) × (slots_of list ≡ filled buf.old found)) }
        ensures refused_reference { IfErr result (λ refused. refused.buf.ghost_name
            ≡ buf.entry.ghost_name) }
        ensures untouched { IfErr result (λ refused. IsValid
            (fields_of year month month_day hour minute second nanoseconds)
            ⊎ (refused.buf.now ≡ buf.old)) }
        ensures outcome { IsOutcome (λ refused. refused.fault) ⊥ (zone_of time_zone_ref.entry)
            (fields_of year month month_day hour minute second nanoseconds) result }
    {
        let fields = Fields::new(year, month, month_day, hour, minute, second, nanoseconds);
        let mut view = TransitionView::new(time_zone_ref.transitions());
        DateTime::listed_in(buf, &fields, &mut view, &ZoneData::of(&time_zone_ref))
    }

    /// What [`DateTime::find_n_counted`] returns, or the buffer and the error.
    fn listed_counted<'a>(
        buf: &'a mut [Option<FoundDateTimeKind>],
        year: i32,
        month: u8,
        month_day: u8,
        hour: u8,
        minute: u8,
        second: u8,
        nanoseconds: u32,
        time_zone_ref: TimeZoneRef<'_>,
    ) -> Result<(FoundDateTimeListRefMut<'a>, u64), Refused<'a>>
        ensures same_reference { IfOk result (λ counted. reference_of counted.0
            ≡ buf.entry.ghost_name) }
        ensures ok { IfOk result (λ counted. (found : List FoundDateTimeKind)
            × IsFound (IsClock (zone_of time_zone_ref.entry))
            (fields_of year month month_day hour minute second nanoseconds) found
            × (count_of counted.0 ≡ length found) × (slots_of counted.0 ≡ filled buf.old found)) }
        ensures refused_reference { IfErr result (λ refused. refused.buf.ghost_name
            ≡ buf.entry.ghost_name) }
        ensures untouched { IfErr result (λ refused. IsValid
            (fields_of year month month_day hour minute second nanoseconds)
            ⊎ (refused.buf.now ≡ buf.old)) }
        ensures outcome { IsOutcome (λ refused. refused.fault) ⊥ (zone_of time_zone_ref.entry)
            (fields_of year month month_day hour minute second nanoseconds) result }
        ensures at_most { IfOk result (λ counted. (b w : ℕ)
            → length (zone_of time_zone_ref.entry).transitions < 2 ^ b
            → AtMostTakeEffectAround (zone_of time_zone_ref.entry)
            (reading (fields_of year month month_day hour minute second nanoseconds)) w
            → counted.1 ≤ 2 * b + w + 4) }
        ensures at_least_one { IfOk result
            (λ counted. 0 < length (zone_of time_zone_ref.entry).transitions
            → 1 ≤ counted.1) }
        ensures none { IfOk result (λ counted. length (zone_of time_zone_ref.entry).transitions ≡ 0
            → counted.1 ≡ 0) }
    {
        let fields = Fields::new(year, month, month_day, hour, minute, second, nanoseconds);
        let mut view = TransitionView::counted(time_zone_ref.transitions());
        let list = DateTime::listed_in(buf, &fields, &mut view, &ZoneData::of(&time_zone_ref))?;
        Ok((list, view.looks()))
    }

    /// What [`DateTime::find_n`] returns for the fields, through a view of the zone's transitions,
    /// or the buffer and the error.
    fn listed_in<'a>(
        buf: &'a mut [Option<FoundDateTimeKind>],
        fields: &Fields,
        view: &mut TransitionView<'_>,
        zone: &ZoneData<'_>,
    ) -> Result<FoundDateTimeListRefMut<'a>, Refused<'a>>
        requires { list_of view.old ≡ (zone_of_data zone.now).transitions }
        ensures same_reference { IfOk result (λ list. reference_of list ≡ buf.entry.ghost_name) }
        ensures ok { IfOk result (λ list. (found : List FoundDateTimeKind)
            × IsFound (IsClock (zone_of_data zone.now)) fields.now found
            × (count_of list ≡ length found) × (slots_of list ≡ filled buf.old found)) }
        ensures refused_reference { IfErr result (λ refused.
            refused.buf.ghost_name ≡ buf.entry.ghost_name) }
        ensures untouched { IfErr result (λ refused.
            IsValid fields.now ⊎ (refused.buf.now ≡ buf.old)) }
        ensures outcome { IsOutcome (λ refused. refused.fault) ⊥ (zone_of_data zone.now)
            fields.now result }
        ensures looks { AreLooksOf (zone_of_data zone.now) (reading fields.now)
            view.old view.new result }
    {
        let mut writer = SlotWriter::new(buf, 0);
        match find_in(&mut writer, fields, view, zone) {
            Ok(()) => {
                let count = writer.count;
                Ok(FoundDateTimeListRefMut::counted(buf, count))
            }
            Err(fault) => Err(Refused { buf, fault }),
        }
    }
}
