//! The search for a reading in the clock of a zone: the instants that show it, two or more in a
//! fold, and the forward jumps that pass over it, each a gap. It looks at the changes of the
//! reading's window, the instants among which it finds all that the reading means.

ghost use Rattle.std.specs.Prelude.{◌≡◌, ◌+◌, ◌*◌, ◌^◌, ◌<◌, ◌≤◌, ℕ, pos, List, ◌-ℤ◌, ◌≤ℤ◌};
ghost use Rattle.std.specs.Prelude.{OnOk, IfErr, MatchBool, length};
ghost use Rattle.tz_base.specs.Fields.{IsValid, reading as reading_of};
ghost use Rattle.tz_zone.specs.Clock.{IsClock};
ghost use Rattle.tz_zone.specs.Looks.{list_of, looks_of, one_look_more};
ghost use Rattle.tz_zone.specs.Table.{Zone};
ghost use Rattle.tz_zone.specs.WindowTypes.{AreTypesIn, IfMore, IsPositionOf};
ghost use Rattle.tz_zone.specs.ZoneOfData.{zone_of_data};
ghost use Rattle.tz.specs.Entries.{Entry, AreEntries, Finds, HasTwoTypes, IsEntryIn, IsGiven};
ghost use Rattle.tz.specs.Entries.{IsGivenFault, IsRefused, TakesFrom, borrowed_type};
ghost use Rattle.tz.specs.FindFaults.{IsSearchFault};
ghost use Rattle.tz.specs.Found.{EachCanBeMade, IsFound};
ghost use Rattle.tz.specs.GapsAndFolds.{IsJumpOver};
ghost use Rattle.tz.specs.Outcomes.{AreLooksOf};
ghost use Rattle.tz.specs.Windows.{AtMostTakeEffectIn, IsSearchable, IsSmall, IsWindow};
ghost use Rattle.tz.specs.Windows.{first_looks, looks_after};
ghost use Rattle.tz.specs.declared.datetime.found.FoundDateTimeKind.{FoundDateTimeKind};

use super::entry_takers::{DateTimeList, Dated, EntryTaker};
use tz_base::error::TzError;
use tz_base::fields::Fields;
use tz_zone::inner::{TransitionView, WindowTypes, ZoneData, first_stage, span_from, window_types};
use tz_zone::timezone::LocalTimeType;

/// The instant at which a type shows a reading.
pub(super) fn shown_at(reading: i64, local_time_type: &LocalTimeType) -> i64
    requires { IsSmall reading }
    ensures { result ≡ reading -ℤ local_time_type.now.ut_offset }
{
    reading - i64::from(local_time_type.ut_offset())
}

/// Whether clocks that change at an instant from one type to another are set forward over a
/// reading.
pub(super) fn passes_over(
    reading: i64,
    unix_time: i64,
    before: &LocalTimeType,
    after: &LocalTimeType,
) -> bool
    requires { IsSmall reading }
    ensures { MatchBool result (IsJumpOver reading unix_time before.now after.now)
        (¬ IsJumpOver reading unix_time before.now after.now) }
{
    shown_at(reading, after) < unix_time && unix_time <= shown_at(reading, before)
}

/// Gives what a reading has from `since` to `last`, throughout which the clock has one type or
/// none: an instant that shows it, or else the jump at `since` from the type before.
fn give<'a, E: EntryTaker<'a>>(
    entries: &mut E,
    reading: i64,
    before: Option<&'a LocalTimeType>,
    since: i64,
    local_time_type: Option<&'a LocalTimeType>,
    last: i64,
) -> Result<(), TzError>
    requires small { IsSmall reading }
    requires takes { TakesFrom E.gains E.takes entries.old reading }
    ensures ok { OnOk result ((es : List Entry) × E.gains entries.old entries.new es
        × IsGiven reading (borrowed_type before.entry) since
        (borrowed_type local_time_type.entry) last es) }
    ensures err { IfErr result (IsGivenFault E.refuses reading (borrowed_type before.entry) since
        (borrowed_type local_time_type.entry) last) }
{
    let Some(after) = local_time_type else {
        return Ok(());
    };
    let unix_time = shown_at(reading, after);
    if since <= unix_time && unix_time <= last {
        return entries.shown(unix_time, after);
    }
    match before {
        Some(before) if passes_over(reading, since, before, after) => {
            entries.skipped(since, before, after)
        }
        _ => Ok(()),
    }
}

/// Gives what a reading has in its window if the clock has one type before an instant, and another
/// from there on. The offsets of both are between the least and the greatest one, so what shows the
/// reading is in the window.
#[inline(always)]
fn give_around<'a, E: EntryTaker<'a>>(
    entries: &mut E,
    reading: i64,
    since: i64,
    before: &'a LocalTimeType,
    after: &'a LocalTimeType,
) -> Result<(), TzError>
    requires small { IsSmall reading }
    requires takes { TakesFrom E.gains E.takes entries.old reading }
    ensures ok { OnOk result ((es : List Entry) × E.gains entries.old entries.new es
        × ((z : Zone) → HasTwoTypes z reading since before.entry.now after.entry.now
        → AreEntries (IsClock z) reading es)) }
    ensures err { IfErr result (λ e. (entry : Entry) × E.refuses e entry
        × ((z : Zone) → HasTwoTypes z reading since before.entry.now after.entry.now
        → IsEntryIn (IsClock z) reading entry)) }
{
    let (first, second) = (shown_at(reading, before), shown_at(reading, after));
    if passes_over(reading, since, before, after) {
        return entries.skipped(since, before, after);
    }
    if since <= first {
        // The type before does not show the reading, and the jump does not pass over it. So `since
        // <= second`, and the type after shows it.
        return entries.shown(second, after);
    }
    entries.shown(first, before)?;
    if since <= second {
        entries.shown(second, after)
    } else {
        Ok(())
    }
}

/// Gives all that a reading has in its window, in order, by the spans of the clock from the
/// position on at which the window begins.
#[cold]
fn walk<'a, E: EntryTaker<'a>>(
    entries: &mut E,
    reading: i64,
    view: &mut TransitionView<'_>,
    zone: &ZoneData<'a>,
    position: Option<usize>,
    low: i64,
    high: i64,
) -> Result<(), TzError>
    requires view { list_of view.old ≡ (zone_of_data zone.now).transitions }
    requires searchable { IsSearchable (zone_of_data zone.now) reading low high }
    requires takes { TakesFrom E.gains E.takes entries.old reading }
    requires position { IsPositionOf (zone_of_data zone.now) low position }
    ensures ok { OnOk result (Finds E.gains (IsClock (zone_of_data zone.now)) reading
        entries.old entries.new) }
    ensures err { IfErr result (IsRefused E.refuses (IsClock (zone_of_data zone.now)) reading) }
    ensures kept { looks_of view.old ≤ looks_of view.new }
    ensures at_most { OnOk result ((b w : ℕ) → length (list_of view.old) < 2 ^ b
        → AtMostTakeEffectIn (zone_of_data zone.now) low high w
        → looks_of view.new ≤ looks_of view.old + (first_looks position b + w)) }
    ensures none { OnOk result (length (list_of view.old) ≡ 0
        → looks_of view.new ≡ looks_of view.old) }
{
    let Some((first, stage)) = first_stage(view, zone, position, low) else {
        return Ok(());
    };
    // A jump at `first` is no entry. It would pass over the reading only if the type after it
    // showed the reading before `first`, but before `low` no type does; and if `first` is later
    // than `low`, there is no type before it.
    let mut before = None;
    let (mut since, mut stage) = (first, stage);
    while since <= high {
        let span = span_from(view, zone, stage, since, high);
        stage = span.next;
        // If two transitions take effect at the same instant, as around an inserted second, the
        // span between them is empty.
        if since <= span.last {
            let after = span.local_time_type;
            give(entries, reading, before, since, after, span.last)?;
            before = after;
            since = span.last + 1;
        }
    }
    Ok(())
}

/// Gives all that a reading has in its window, in order, by the types that the clock has there.
#[inline(always)]
pub(super) fn give_in_window<'a, E: EntryTaker<'a>>(
    entries: &mut E,
    reading: i64,
    view: &mut TransitionView<'_>,
    zone: ZoneData<'a>,
    types: WindowTypes<'a>,
    low: i64,
    high: i64,
) -> Result<(), TzError>
    requires view { list_of view.old ≡ (zone_of_data zone).transitions }
    requires searchable { IsSearchable (zone_of_data zone) reading low high }
    requires takes { TakesFrom E.gains E.takes entries.old reading }
    requires types { AreTypesIn (IsClock (zone_of_data zone)) low high types }
    requires position { IfMore types (IsPositionOf (zone_of_data zone) low) }
    ensures ok { OnOk result (Finds E.gains (IsClock (zone_of_data zone.entry)) reading
        entries.old entries.new) }
    ensures err { IfErr result (IsRefused E.refuses (IsClock (zone_of_data zone.entry)) reading) }
    ensures kept { looks_of view.old ≤ looks_of view.new }
    ensures at_most { OnOk result ((b w : ℕ) → length (list_of view.old) < 2 ^ b
        → AtMostTakeEffectIn (zone_of_data zone.entry) low high w
        → looks_of view.new ≤ looks_of view.old + looks_after types.entry b w) }
    ensures none { OnOk result (length (list_of view.old) ≡ 0
        → looks_of view.new ≡ looks_of view.old) }
{
    match types {
        WindowTypes::One(local_time_type) => {
            // Its offset is between the least and the greatest one, so it shows the reading within
            // the window.
            entries.shown(shown_at(reading, local_time_type), local_time_type)
        }
        WindowTypes::Two {
            unix_time,
            before,
            after,
        } => give_around(entries, reading, unix_time, before, after),
        WindowTypes::More(position) => {
            // The walk gets copies of the zone and the view, so that without a walk these need not
            // be in memory, and its count is not computed where nobody asks for it.
            let whole = zone;
            let mut rest = view.fresh();
            let answer = walk(entries, reading, &mut rest, &whole, position, low, high);
            view.add_looks(rest.looks());
            answer
        }
    }
}

/// Gives all that a reading has in its window, in order.
#[inline(always)]
fn search_window<'a, E: EntryTaker<'a>>(
    entries: &mut E,
    reading: i64,
    view: &mut TransitionView<'_>,
    zone: ZoneData<'a>,
    low: i64,
    high: i64,
) -> Result<(), TzError>
    requires view { list_of view.old ≡ (zone_of_data zone).transitions }
    requires searchable { IsSearchable (zone_of_data zone) reading low high }
    requires takes { TakesFrom E.gains E.takes entries.old reading }
    ensures ok { OnOk result (Finds E.gains (IsClock (zone_of_data zone.entry)) reading
        entries.old entries.new) }
    ensures err { IfErr result (IsRefused E.refuses (IsClock (zone_of_data zone.entry)) reading) }
    ensures at_most { OnOk result ((b w : ℕ) → length (list_of view.old) < 2 ^ b
        → AtMostTakeEffectIn (zone_of_data zone.entry) low high w
        → looks_of view.new ≤ looks_of view.old + (2 * b + w + 4)) }
    ensures at_least_one { OnOk result (0 < length (list_of view.old)
        → one_look_more (looks_of view.old) ≤ looks_of view.new) }
    ensures none { OnOk result (length (list_of view.old) ≡ 0
        → looks_of view.new ≡ looks_of view.old) }
{
    let types = window_types(view, zone, low, high);
    give_in_window(entries, reading, view, zone, types, low, high)
}

/// The first and the last instant at which a clock with offsets from the least to the greatest one
/// can show a reading, or be set forward over it. Both are so near that no leap second takes a leap
/// time out of 64 bits before them.
fn window(reading: i64, least: i32, greatest: i32) -> (i64, i64)
    requires small { IsSmall reading }
    requires order { least ≤ℤ greatest }
    ensures low { result.0 ≡ reading -ℤ greatest }
    ensures high { result.1 ≡ reading -ℤ least }
    ensures order { result.0 ≤ℤ result.1 }
    ensures width { (result.1 -ℤ result.0) ≤ℤ pos (2 ^ 32) }
    ensures reach { result.1 ≤ℤ pos 80000000000000000 }
{
    (reading - i64::from(greatest), reading - i64::from(least))
}

/// The first and the last instant of a reading's window, by the least and the greatest offset of a
/// zone.
pub fn window_of(zone: &ZoneData<'_>, reading: i64) -> (i64, i64)
    requires { IsSmall reading }
    ensures window { IsWindow (zone_of_data zone.now).types (zone_of_data zone.now).extra_rule
        reading result.0 result.1 }
    ensures searchable { IsSearchable (zone_of_data zone.now) reading result.0 result.1 }
{
    let (least, greatest) = zone.offsets();
    window(reading, least, greatest)
}

/// The types that the clock of a zone has in a window.
#[inline(always)]
pub fn types_of_window<'a>(zone: &ZoneData<'a>, low: i64, high: i64) -> WindowTypes<'a>
    ensures types { AreTypesIn (IsClock (zone_of_data zone.now)) low high result }
    ensures position { IfMore result (IsPositionOf (zone_of_data zone.now) low) }
{
    let mut view = TransitionView::new(zone.transitions());
    window_types(&mut view, *zone, low, high)
}

/// Adds the entries for valid fields to the list, in order.
pub(super) fn search<L: DateTimeList>(
    list: &mut L,
    fields: &Fields,
    view: &mut TransitionView<'_>,
    zone: &ZoneData<'_>,
) -> Result<(), TzError>
    requires valid { IsValid fields.now }
    requires view { list_of view.old ≡ (zone_of_data zone.now).transitions }
    ensures ok { OnOk result ((found : List FoundDateTimeKind) × L.gains list.old list.new found
        × IsFound (IsClock (zone_of_data zone.now)) fields.now found × (length found ≤ 2 ^ 33)) }
    ensures made { OnOk result (EachCanBeMade (IsClock (zone_of_data zone.now)) fields.now) }
    ensures err { IfErr result
        (IsSearchFault L.takes_memory (IsClock (zone_of_data zone.now)) fields.now) }
    ensures looks { AreLooksOf (zone_of_data zone.now) (reading_of fields.now)
        view.old view.new result }
{
    let reading = fields.reading();
    let (low, high) = window_of(zone, reading);
    let mut dated = Dated { fields, list };
    search_window(&mut dated, reading, view, *zone, low, high)
}
