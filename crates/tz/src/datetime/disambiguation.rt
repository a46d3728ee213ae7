//! Which date time a local time means in a zone, by a choice for gaps and folds.

ghost use Rattle.std.specs.Prelude.{◌≡◌, IfOk, IfErr, OnOk};
ghost use Rattle.tz_base.specs.Fields.{IsReading, IsValid, reading as reading_of};
ghost use Rattle.tz_zone.specs.Clock.{IsClock};
ghost use Rattle.tz_zone.specs.WindowTypes.{AreTypesIn, IfMore, IsPositionOf};
ghost use Rattle.tz_zone.specs.ZoneOfData.{zone_of_data};
ghost use Rattle.tz.specs.DateTimes.{ShowsByClock, IsClockFault};
ghost use Rattle.tz.specs.EntryEnds.{HasMeant, HasMeantAround, IsOutsideAround, IsOutsideFault};
ghost use Rattle.tz.specs.EntryEnds.{instant_between};
ghost use Rattle.tz.specs.Entries.{IsRefused};
ghost use Rattle.tz.specs.Found.{EachCanBeMade};
ghost use Rattle.tz.specs.Choices.{IsMeaning, IsMeaningFault};
ghost use Rattle.tz.specs.InstantColumns.{HasNoInstantOfReading, IsInstantOfReading};
ghost use Rattle.tz.specs.Windows.{IsSearchable, IsSmall};

use super::entry_ends::{Entry, EntryEnds, ends_by_walk, jump_inside};
use super::gaps_and_folds::{passes_over, shown_at, types_of_window, window_of};
use super::{DateTime, UtcDateTime};
use tz_base::error::TzError;
use tz_base::fields::Fields;
use tz_zone::inner::{WindowTypes, ZoneData};
use tz_zone::timezone::{LocalTimeType, TimeZoneRef};

/// Which date time a local time means if clocks are set forward over it or show it more than once.
///
/// | choice | in a fold, where they show it twice | in a gap, where they skip it |
/// |---|---|---|
/// | `Compatible` | the first instant | as much later as clocks are set forward: 2:30 becomes 3:30 |
/// | `Earlier` | the first instant | as much earlier: 2:30 becomes 1:30 |
/// | `Later` | the last instant | as much later: 2:30 becomes 3:30 |
/// | `Reject` | none | none |
///
/// If clocks show a local time exactly once and are not set forward over it, all choices mean that.
/// If they do both, as when they are set back soon after, `Compatible` means the first instant at
/// which they show it, `Earlier` and `Later` the first and the last entry of
/// [`DateTime::find`](super::DateTime::find), and `Reject` none. If they are set forward over it
/// twice and never show it, `Compatible` and `Later` mean what they mean in the last of the two
/// gaps, `Earlier` what it means in the first, and `Reject` none.
#[derive(Clone, Copy, Debug, Default, Hash, PartialEq, Eq)]
pub enum Disambiguation {
    /// The first instant at which clocks show it, or, in a gap, as much later as clocks are set
    /// forward: what calendars do. (RFC 5545, 3.3.5)
    #[default]
    Compatible,
    /// The first entry: an instant at which clocks show it, or, in a gap, as much earlier as clocks
    /// are set forward.
    Earlier,
    /// The last entry: an instant at which clocks show it, or, in a gap, as much later as clocks
    /// are set forward.
    Later,
    /// The only instant at which clocks show it, or none if there are several or if clocks are also
    /// set forward over it.
    Reject,
}

impl<'a> EntryEnds<'a> {
    ghost use Rattle.tz.specs.EntryEnds.{IsMeantOf};

    /// The entry that is meant, if there is one.
    fn meant(&self, disambiguation: Disambiguation) -> Option<Entry<'a>>
        ensures { IsMeantOf disambiguation self.now result }
    {
        match disambiguation {
            Disambiguation::Compatible => self.shown.or(self.last),
            Disambiguation::Earlier => self.first,
            Disambiguation::Later => self.last,
            Disambiguation::Reject if self.count == 1 => self.shown,
            Disambiguation::Reject => None,
        }
    }
}

/// The entry that a choice means of those in a reading's window, by a walk of the changes there. It
/// is cold: few windows need a walk.
#[cold]
fn meant_by_walk<'a>(
    reading: i64,
    disambiguation: Disambiguation,
    zone: &ZoneData<'a>,
    types: WindowTypes<'a>,
    low: i64,
    high: i64,
) -> Result<Option<Entry<'a>>, TzError>
    requires searchable { IsSearchable (zone_of_data zone.now) reading low high }
    requires types { AreTypesIn (IsClock (zone_of_data zone.now)) low high types }
    requires position { IfMore types (IsPositionOf (zone_of_data zone.now) low) }
    ensures ok { IfOk result
        (HasMeant (IsClock (zone_of_data zone.now)) reading disambiguation) }
    ensures err { IfErr result
        (IsRefused IsOutsideFault (IsClock (zone_of_data zone.now)) reading) }
{
    let ends = ends_by_walk(reading, *zone, types, low, high)?;
    Ok(ends.meant(disambiguation))
}

/// The entry that is meant of all that a reading has in its window if the clock has one type before
/// an instant, and another from there on. It makes no `EntryEnds`, so that it is small enough to be
/// inlined.
fn meant_around<'a>(
    reading: i64,
    disambiguation: Disambiguation,
    since: i64,
    before: &'a LocalTimeType,
    after: &'a LocalTimeType,
) -> Result<Option<Entry<'a>>, TzError>
    requires { IsSmall reading }
    ensures ok { IfOk result
        (HasMeantAround reading since before.entry.now after.entry.now disambiguation) }
    ensures err { IfErr result
        (IsOutsideAround reading since before.entry.now after.entry.now) }
{
    let (first, second) = (shown_at(reading, before), shown_at(reading, after));
    if passes_over(reading, since, before, after) {
        let jump = jump_inside(since, before, after)?;
        return Ok(match disambiguation {
            Disambiguation::Compatible => Some(jump),
            Disambiguation::Earlier => Some(jump),
            Disambiguation::Later => Some(jump),
            Disambiguation::Reject => None,
        });
    }
    if since <= first {
        return Ok(Some(Entry::Shown(second, after)));
    }
    if second < since {
        return Ok(Some(Entry::Shown(first, before)));
    }
    Ok(match disambiguation {
        Disambiguation::Compatible => Some(Entry::Shown(first, before)),
        Disambiguation::Earlier => Some(Entry::Shown(first, before)),
        Disambiguation::Later => Some(Entry::Shown(second, after)),
        Disambiguation::Reject => None,
    })
}

/// The entry that a choice means, of all that a reading has in a zone's clock.
///
/// # Errors
///
/// [`TzError::OutOfRange`] if a side of a jump is outside the years of an `i32`.
#[inline(always)]
pub(super) fn meant_in<'a>(
    reading: i64,
    disambiguation: Disambiguation,
    zone: &ZoneData<'a>,
) -> Result<Option<Entry<'a>>, TzError>
    requires { IsSmall reading }
    ensures ok { IfOk result
        (HasMeant (IsClock (zone_of_data zone.now)) reading disambiguation) }
    ensures err { IfErr result
        (IsRefused IsOutsideFault (IsClock (zone_of_data zone.now)) reading) }
{
    let (low, high) = window_of(zone, reading);
    let types = types_of_window(zone, low, high);
    match types {
        WindowTypes::One(local_time_type) => {
            let unix_time = shown_at(reading, local_time_type);
            Ok(Some(Entry::Shown(unix_time, local_time_type)))
        }
        WindowTypes::Two {
            unix_time,
            before,
            after,
        } => meant_around(reading, disambiguation, unix_time, before, after),
        WindowTypes::More(_) => meant_by_walk(reading, disambiguation, zone, types, low, high),
    }
}

/// The instant at which the clock is looked up for a jump over a reading.
fn lookup_instant(
    reading: i64,
    disambiguation: Disambiguation,
    before: &LocalTimeType,
    after: &LocalTimeType,
) -> i64
    requires { IsSmall reading }
    ensures { result ≡ instant_between disambiguation reading before.now after.now }
{
    let local_time_type = match disambiguation {
        Disambiguation::Earlier => after,
        _ => before,
    };
    reading - i64::from(local_time_type.ut_offset())
}

/// `DateTime::shown_by_clock`, out of line: few searches need it.
#[cold]
fn shown_apart(unix_time: i64, nanoseconds: u32, zone: &ZoneData<'_>) -> Result<DateTime, TzError>
    ensures ok { IfOk result (ShowsByClock (zone_of_data zone.now) unix_time nanoseconds) }
    ensures err { IfErr result (IsClockFault (zone_of_data zone.now) unix_time nanoseconds) }
{
    DateTime::shown_by_clock(unix_time, nanoseconds, zone)
}

/// The one date time that valid fields mean by a choice, if there is one. `reading` is that of the
/// fields.
#[inline(always)]
pub(crate) fn find_one_valid(
    fields: &Fields,
    reading: i64,
    disambiguation: Disambiguation,
    zone: &ZoneData<'_>,
) -> Result<Option<DateTime>, TzError>
    requires valid { IsValid fields.now }
    requires reading { reading ≡ reading_of fields.now }
    requires small { IsSmall reading }
    ensures ok { IfOk result (IsMeaning (zone_of_data zone.now) disambiguation fields.now) }
    ensures made { OnOk result (EachCanBeMade (IsClock (zone_of_data zone.now)) fields.now) }
    ensures err { IfErr result (IsMeaningFault (zone_of_data zone.now) disambiguation fields.now) }
{
    match meant_in(reading, disambiguation, zone)? {
        None => Ok(None),
        Some(Entry::Shown(unix_time, local_time_type)) => {
            let date_time = DateTime::of_fields(fields, *local_time_type, unix_time);
            Ok(Some(date_time))
        }
        Some(Entry::Jump(_, before, after)) => {
            let unix_time = lookup_instant(reading, disambiguation, before, after);
            Ok(Some(shown_apart(unix_time, fields.nanoseconds, zone)?))
        }
    }
}

/// The instant that a reading means by a choice, with no nanoseconds, or why it means none.
pub(crate) fn find_instant(
    reading: i64,
    disambiguation: Disambiguation,
    zone: &ZoneData<'_>,
) -> Result<i64, Option<TzError>>
    requires { IsReading reading }
    ensures ok { IfOk result (IsInstantOfReading (zone_of_data zone.now) disambiguation reading) }
    ensures err { IfErr result
        (HasNoInstantOfReading (zone_of_data zone.now) disambiguation reading) }
{
    match meant_in(reading, disambiguation, zone) {
        Ok(None) => Err(None),
        Ok(Some(Entry::Shown(unix_time, _))) => Ok(unix_time),
        Ok(Some(Entry::Jump(_, before, after))) => {
            let unix_time = lookup_instant(reading, disambiguation, before, after);
            match shown_apart(unix_time, 0, zone) {
                Ok(_) => Ok(unix_time),
                Err(error) => Err(Some(error)),
            }
        }
        Err(error) => Err(Some(error)),
    }
}

/// The one date time that fields mean by a choice, if there is one.
#[inline(always)]
pub fn find_one(
    fields: &Fields,
    disambiguation: Disambiguation,
    zone: &ZoneData<'_>,
) -> Result<Option<DateTime>, TzError>
    ensures ok { IfOk result (IsMeaning (zone_of_data zone.now) disambiguation fields.now) }
    ensures valid { OnOk result (IsValid fields.now) }
    ensures made { OnOk result (EachCanBeMade (IsClock (zone_of_data zone.now)) fields.now) }
    ensures err { IfErr result (IsMeaningFault (zone_of_data zone.now) disambiguation fields.now) }
{
    fields.check()?;
    find_one_valid(fields, fields.reading(), disambiguation, zone)
}

impl DateTime {
    ghost use Rattle.std.specs.Prelude.{IfOk, IfErr, OnOk};
    ghost use Rattle.tz_base.specs.Fields.{IsValid, fields_of};
    ghost use Rattle.tz_zone.specs.Clock.{IsClock};
    ghost use Rattle.tz_zone.specs.ZoneRef.{zone_of};
    ghost use Rattle.tz.specs.Found.{EachCanBeMade};
    ghost use Rattle.tz.specs.Choices.{IsMeaning, IsMeaningFault};

    /// The one date time that a local time means, or `None` if the zone's clock neither shows it
    /// nor is set forward over it, or if `Reject` rejects it.
    ///
    /// The fields are in the ranges of [`DateTime::find`]. If the choice means a jump over the
    /// local time, the result is what the clock shows at another instant, earlier or later. This
    /// call does not allocate.
    ///
    /// Noon of a date in a zone:
    ///
    /// ```rust
    /// pub fn noon(
    ///     zone: TimeZoneRef<'_>,
    ///     year: i32,
    ///     month: u8,
    ///     month_day: u8,
    /// ) -> Result<Option<DateTime>, TzError> {
    ///     let choice = Disambiguation::Compatible;
    ///     DateTime::find_one(year, month, month_day, 12, 0, 0, 0, choice, zone)
    /// }
    /// ```
    ///
    /// # Errors
    ///
    /// - those of [`DateTime::find`] but `Memory`;
    /// - those of [`DateTime::from_timespec`] at that other instant, if the choice means a jump.
    pub fn find_one(
        year: i32,
        month: u8,
        month_day: u8,
        hour: u8,
        minute: u8,
        second: u8,
        nanoseconds: u32,
        disambiguation: Disambiguation,
        time_zone_ref: TimeZoneRef<'_>,
    ) -> Result<Option<Self>, TzError>
        ensures ok { IfOk result (IsMeaning (zone_of time_zone_ref.entry) disambiguation
            (fields_of year month month_day hour minute second nanoseconds)) }
        ensures valid { OnOk result
            (IsValid (fields_of year month month_day hour minute second nanoseconds)) }
        ensures made { OnOk result (EachCanBeMade (IsClock (zone_of time_zone_ref.entry))
            (fields_of year month month_day hour minute second nanoseconds)) }
        ensures err { IfErr result (IsMeaningFault (zone_of time_zone_ref.entry) disambiguation
            (fields_of year month month_day hour minute second nanoseconds)) }
    {
        let fields = Fields::new(year, month, month_day, hour, minute, second, nanoseconds);
        find_one(&fields, disambiguation, &ZoneData::of(&time_zone_ref))
    }

    /// The one date time that a local time means. The local time is passed as a [`UtcDateTime`]
    /// with its fields, which serves here as a date and a time of day without a zone.
    ///
    /// The result is that of [`DateTime::find_one`] for these fields.
    ///
    /// When a daily job at a local time runs next after an instant:
    ///
    /// ```rust
    /// pub fn next_daily_run(
    ///     zone: TimeZoneRef<'_>,
    ///     hour: u8,
    ///     minute: u8,
    ///     now: i64,
    /// ) -> Result<Option<DateTime>, TzError> {
    ///     let today = DateTime::from_timespec(now, 0, zone)?;
    ///     let (year, month, month_day) = (today.year(), today.month(), today.month_day());
    ///     let local = UtcDateTime::new(year, month, month_day, hour, minute, 0, 0)?;
    ///     let day = Duration::from_secs(86_400);
    ///     // Yesterday's run is still to come where clocks have just been set over midnight.
    ///     for local in [local.checked_sub(day), Some(local), local.checked_add(day)] {
    ///         let local = local.ok_or(TzError::OutOfRange)?;
    ///         match DateTime::from_local(local, Disambiguation::Compatible, zone)? {
    ///             Some(run) if now < run.unix_time() => return Ok(Some(run)),
    ///             _ => {}
    ///         }
    ///     }
    ///     Ok(None)
    /// }
    /// ```
    ///
    /// # Errors
    ///
    /// Those of [`DateTime::find_one`] for fields that are valid.
    pub fn from_local(
        local: UtcDateTime,
        disambiguation: Disambiguation,
        time_zone_ref: TimeZoneRef<'_>,
    ) -> Result<Option<Self>, TzError>
        ensures ok { IfOk result (IsMeaning (zone_of time_zone_ref.entry) disambiguation local) }
        ensures made { OnOk result (EachCanBeMade (IsClock (zone_of time_zone_ref.entry)) local) }
        ensures err { IfErr result
            (IsMeaningFault (zone_of time_zone_ref.entry) disambiguation local) }
    {
        let zone = ZoneData::of(&time_zone_ref);
        find_one_valid(local.fields(), local.unix_time(), disambiguation, &zone)
    }
}
