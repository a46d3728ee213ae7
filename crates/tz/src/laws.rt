//! Laws of date times, for proofs of programs that use them: a call of a law makes its contract
//! known.
//!
//! A function here does nothing, or calls the laws on which it rests, or makes one call that the
//! law is about. Its contract is the law, stated like the contracts of [`crate::UtcDateTime`] and
//! [`crate::DateTime`].

ghost use Rattle.std.specs.Prelude.{◌≡◌, ◌≢◌, ℕ, ◌<◌, true, pos, ℤ, Some, None, ◌+ℤ◌, ◌↔◌, ◌≤◌, ◌≤ℤ◌, length, List, [], ◌∷◌, Option, IfSome, ⊤, alloc_error, FitsSigned};
ghost use Rattle.std.specs.List.{Contains};
ghost use Rattle.std.specs.Duration.{as_nanos};
ghost use Rattle.std.specs.Int.{w32};
ghost use Rattle.std.specs.Ordering.{int_cmp};
ghost use Rattle.std.specs.declared.cmp.Ordering.TheVariants.{Equal};
ghost use Rattle.std.specs.declared.time.Duration.{Duration};
ghost use Rattle.tz_base.specs.Fields.{IsCivil, IsFirstFault, IsReading, IsValid, fields_of, reading};
ghost use Rattle.tz_base.specs.declared.fields.Fields.{Fields};
ghost use Rattle.tz_base.specs.declared.error.TzError.{TzError};
ghost use Rattle.tz_base.specs.declared.error.TzError.TheVariants.{Memory};
ghost use Rattle.tz_base.specs.declared.error.DateTimeError.{DateTimeError};
ghost use Rattle.tz_rule.specs.LocalTimeType.{IsOffset, LocalTimeType};
ghost use Rattle.tz_zone.specs.Changes.{Change, IsChange};
ghost use Rattle.tz_zone.specs.Clock.{IsClock};
ghost use Rattle.tz_zone.specs.Table.{Zone};
ghost use Rattle.tz_zone.specs.ZoneRef.{zone_of};
ghost use Rattle.tz.specs.FindFaults.{IsPromised, IsFindFault};
ghost use Rattle.tz.specs.Found.{EachCanBeMade, IsFound};
ghost use Rattle.tz.specs.GapsAndFolds.{IsJumpOver};
ghost use Rattle.tz.specs.Choices.{IsMeaning, IsMeaningFault};
ghost use Rattle.tz.specs.Meanings.{ChoicesAgree, HasMeaning};
ghost use Rattle.tz.specs.Windows.{IsWindow, TakesEffectIn, AreRising, AtMostTakeEffectIn};
ghost use Rattle.tz.specs.PrintedText.{printed_text};
ghost use Rattle.tz.specs.DateTimeGrammar.{IsDateTimeText, IsDateTimeTextFault, IsTextOf};
ghost use Rattle.tz.specs.UtcText.{IsUtcText, IsUtcTextFault};
ghost use Rattle.tz.specs.declared.parse.ParsedDateTime.{ParsedDateTime};
ghost use Rattle.tz.specs.declared.parse.ParseDateTimeError.{ParseDateTimeError};
ghost use Rattle.tz.specs.declared.datetime.disambiguation.Disambiguation.{Disambiguation};
ghost use Rattle.tz.specs.declared.datetime.disambiguation.Disambiguation.TheVariants.{Reject as reject};
ghost use Rattle.tz.specs.declared.datetime.found.FoundDateTimeKind.{FoundDateTimeKind};
ghost use Rattle.tz.specs.declared.datetime.found.FoundDateTimeKind.TheVariants.{Normal as normal, Skipped as skipped};
ghost use Rattle.tz.specs.declared.datetime.meaning.Meaning.{Meaning};
ghost use Rattle.tz.specs.declared.datetime.meaning.Meaning.TheVariants.{Nothing as nothing, Once as once, Twice as twice, Skipped as gap, More as more};
ghost use Rattle.tz.specs.contracts.datetime.utc_date_time.UtcDateTimeOrd.TheImpl as utc_order;
ghost use Rattle.tz.specs.DateTimes.{DateTime, IsDateTime, IsUtc, IsUtcAt, IsPastTheEnd, IsShowFault, IsClockFault, IsForwards, IsBackwards, ShowsByClock, ShowsInstant, utc_total, total_of, moment_eq, moment_cmp};

use crate::{DateTime, TimeZoneRef};
use tz_zone::laws::{shown_types_are_sound, type_parts_are_sound};

/// [`UtcDateTime::from_timespec`] of a date time's Unix time and nanoseconds is that date time
/// again, unless its second is 60.
pub fn utc_date_times_come_back()
    ensures ok { (f g : Fields) → IsUtc f → f.second < 60 → IsCivil (reading f) f.nanoseconds g
        → g ≡ f }
    ensures err { (f : Fields) (e : TzError) → IsUtc f → ¬ IsShowFault (reading f) f.nanoseconds e }
{}

/// If [`UtcDateTime::checked_add`] returns a date time, [`UtcDateTime::duration_since`] returns the
/// duration.
pub fn added_durations_come_back()
    ensures ok { (f g : Fields) (d e : Duration) → IsUtcAt (utc_total f +ℤ pos (as_nanos d)) g
        → IsForwards (utc_total f) (utc_total g) e
        → as_nanos e ≡ as_nanos d }
    ensures err { (f g : Fields) (d e : Duration) → IsUtcAt (utc_total f +ℤ pos (as_nanos d)) g
        → ¬ IsBackwards (utc_total f) (utc_total g) e }
{}

/// Date times of local time types are equal if they have one Unix time and the same nanoseconds,
/// and are in the order of their total nanoseconds; nothing else of them counts.
pub fn date_times_compare_by_instant()
    ensures equal { (a b : DateTime) → (moment_eq a b ≡ true)
        ↔ ((a.unix_time ≡ b.unix_time) × (a.fields.nanoseconds ≡ b.fields.nanoseconds)) }
    ensures order { (a b : DateTime) → IsDateTime a → IsDateTime b
        → moment_cmp a b ≡ int_cmp (total_of a) (total_of b) }
    ensures agree { (a b : DateTime) → (moment_eq a b ≡ true) ↔ (moment_cmp a b ≡ Equal) }
{}

/// A date time has valid fields, and its local time type shows them at its Unix time.
pub fn date_time_parts_are_sound(date_time: &DateTime)
    ensures { IsDateTime date_time.now }
{
    let _ = date_time.fields();
}

/// The order of UTC date times is that of their total nanoseconds, among those with a second below
/// 60.
pub fn order_of_utc_date_times()
    ensures { (a b : Fields) → IsUtc a → IsUtc b → a.second < 60 → b.second < 60
        → (utc_order.ghosts).cmp a b ≡ int_cmp (utc_total a) (utc_total b) }
{}

/// [`crate::DateTime::from_timespec`] has one result for a zone and an instant: one date time, or
/// one error if there is none.
pub fn lookups_have_one_result()
    ensures shown { (z : Zone) (u : ℤ) (nanoseconds : ℕ) (d e : DateTime)
        → ShowsByClock z u nanoseconds d
        → ShowsByClock z u nanoseconds e → d ≡ e }
    ensures refused { (z : Zone) (u : ℤ) (nanoseconds : ℕ) (e e' : TzError)
        → IsClockFault z u nanoseconds e
        → IsClockFault z u nanoseconds e' → e ≡ e' }
    ensures either { (z : Zone) (u : ℤ) (nanoseconds : ℕ) (d : DateTime) (e : TzError)
        → ShowsByClock z u nanoseconds d → IsReading (reading d.fields)
        → ¬ IsClockFault z u nanoseconds e }
{}

/// Fields have one first error, and none if they are valid.
pub fn field_errors_are_unique()
    ensures first { (f : Fields) (a b : DateTimeError) → IsFirstFault f a → IsFirstFault f b
        → a ≡ b }
    ensures either { (f : Fields) (a : DateTimeError) → IsValid f → ¬ IsFirstFault f a }
{}

/// What [`crate::DateTime::find`] finds of fields is one list, whatever the search.
pub fn found_lists_are_unique()
    ensures { (z : Zone) (f : Fields) (found others : List FoundDateTimeKind)
        → IsFound (IsClock z) f found → IsFound (IsClock z) f others → found ≡ others }
{}

/// [`crate::DateTime::find`] has one error if it fails for fields and a zone, and none if each
/// entry of its list can be made, apart from `Memory`.
pub fn search_errors_are_unique()
    ensures refused { (z : Zone) (f : Fields) (e e' : TzError) → IsFindFault ⊥ (IsClock z) f e
        → IsFindFault ⊥ (IsClock z) f e' → e ≡ e' }
    ensures either { (z : Zone) (f : Fields) (e : TzError) → IsValid f → EachCanBeMade (IsClock z) f
        → ¬ IsFindFault ⊥ (IsClock z) f e }
{}

/// [`crate::DateTime::find_one`] has one result for a zone, a choice and fields: one date time,
/// none, or one error.
pub fn meanings_are_unique()
    ensures meant { (z : Zone) (choice : Disambiguation) (f : Fields) (d e : Option DateTime)
        → IsMeaning z choice f d → IsMeaning z choice f e → d ≡ e }
    ensures refused { (z : Zone) (choice : Disambiguation) (f : Fields) (e e' : TzError)
        → IsMeaningFault z choice f e → IsMeaningFault z choice f e' → e ≡ e' }
    ensures either { (z : Zone) (choice : Disambiguation) (f : Fields) (d : Option DateTime)
        (e : TzError) → IsMeaning z choice f d → IsValid f → EachCanBeMade (IsClock z) f
        → IfSome d (λ shown. FitsSigned w32 shown.fields.year) → ¬ IsMeaningFault z choice f e }
{}

/// [`crate::DateTime::meaning`] has one value for a zone and fields, by which the list of
/// [`crate::DateTime::find`] is known, or its length if that is all. Its errors are the search's.
pub fn local_meanings_are_unique()
    ensures unique { (z : Zone) (f : Fields) (m m' : Meaning)
        → HasMeaning z f m → HasMeaning z f m' → m ≡ m' }
    ensures nothing { (z : Zone) (f : Fields) → HasMeaning z f nothing ↔ IsFound (IsClock z) f [] }
    ensures once { (z : Zone) (f : Fields) (d : DateTime)
        → HasMeaning z f (once d) ↔ IsFound (IsClock z) f (normal d ∷ []) }
    ensures twice { (z : Zone) (f : Fields) (first last : DateTime)
        → HasMeaning z f (twice first last)
        ↔ IsFound (IsClock z) f (normal first ∷ normal last ∷ []) }
    ensures skipped { (z : Zone) (f : Fields) (before after : DateTime)
        → HasMeaning z f (gap before after) ↔ IsFound (IsClock z) f (skipped before after ∷ []) }
    ensures more { (z : Zone) (f : Fields) (count : ℕ) (found : List FoundDateTimeKind)
        → HasMeaning z f (more count) → IsFound (IsClock z) f found
        → (count ≡ length found) × (2 ≤ count) }
{}

/// What each [`crate::datetime::Disambiguation`] gives of fields agrees with their meaning. This is
/// `Once` exactly where every choice gives its date time, and `Nothing` exactly where a choice but
/// `Reject` gives none. `Reject` gives none wherever it is not `Once`.
pub fn choices_agree_with_meanings()
    ensures agree { (z : Zone) (f : Fields) (m : Meaning) → HasMeaning z f m → ChoicesAgree z f m }
    ensures once { (z : Zone) (f : Fields) (d : DateTime)
        → HasMeaning z f (once d) ↔ ((choice : Disambiguation) → IsMeaning z choice f (Some d)) }
    ensures nothing { (z : Zone) (f : Fields) (choice : Disambiguation)
        → choice ≢ reject → HasMeaning z f nothing ↔ IsMeaning z choice f None }
    ensures rejected { (z : Zone) (f : Fields) (m : Meaning)
        → HasMeaning z f m → IsMeaning z reject f None ↔ ((d : DateTime) → m ≢ once d) }
{}

/// No local time is lost: if the clock has a type at each instant of a reading's window, it shows
/// the reading there or is set forward over it.
pub fn no_local_time_is_lost()
    ensures { (z : Zone) (f : Fields) (low high : ℤ) (found : List FoundDateTimeKind) → IsValid f
        → IsWindow z.types z.extra_rule (reading f) low high
        → ((u : ℤ) → low ≤ℤ u → u ≤ℤ high → (t : LocalTimeType) × IsClock z u t)
        → IsFound (IsClock z) f found → found ≢ [] }
{}

/// A projection keeps the Unix time and the nanoseconds.
pub fn projections_keep_the_instant()
    ensures { (z : Zone) (u : ℤ) (nanoseconds : ℕ) (d : DateTime) → ShowsByClock z u nanoseconds d
        → (d.unix_time ≡ u) × (d.fields.nanoseconds ≡ nanoseconds) }
{}

/// What [`crate::DateTime::from_timespec`] shows, [`crate::DateTime::find`] of its fields lists, in
/// every year: wherever each entry of the list can be made and no allocation fails. Where the list
/// is promised each entry can be made, for offsets of 32 bits.
pub fn shown_date_times_are_found()
    ensures found { (z : Zone) (u : ℤ) (n : ℕ) (d : DateTime) (found : List FoundDateTimeKind)
        → ShowsByClock z u n d → IsFound (IsClock z) d.fields found
        → Contains found (normal d) }
    ensures refused { (z : Zone) (u : ℤ) (n : ℕ) (d : DateTime) (e : TzError) → ShowsByClock z u n d
        → EachCanBeMade (IsClock z) d.fields
        → IsFindFault ⊤ (IsClock z) d.fields e → e ≡ Memory alloc_error }
    ensures promised { (z : Zone) (f : Fields)
        → ((u : ℤ) (t : LocalTimeType) → IsClock z u t → FitsSigned w32 t.ut_offset) → IsValid f
        → IsPromised z f.year
        → EachCanBeMade (IsClock z) f }
{}

/// Each date time that [`crate::DateTime::find`] lists, [`crate::DateTime::from_timespec`] shows at
/// its Unix time, unless its second is 60.
pub fn found_date_times_are_shown()
    ensures { (z : Zone) (f : Fields) (d : DateTime) (found : List FoundDateTimeKind)
        → IsValid f → f.second < 60 → IsFound (IsClock z) f found → Contains found (normal d)
        → ShowsByClock z d.unix_time f.nanoseconds d }
{}

/// A search inverts lookups: what [`crate::DateTime::find`] lists of fields with a second below 60
/// contains a date time exactly if [`crate::DateTime::from_timespec`] shows it at its Unix time,
/// with these fields.
pub fn searches_invert_lookups()
    ensures { (z : Zone) (f : Fields) (d : DateTime) (found : List FoundDateTimeKind) → IsValid f
        → f.second < 60 → IsFound (IsClock z) f found → Contains found (normal d)
        ↔ (ShowsByClock z d.unix_time f.nanoseconds d × (d.fields ≡ f)) }
{
    found_date_times_are_shown();
    shown_date_times_are_found();
}

/// Each forward jump that [`crate::DateTime::find`] lists is a change of the zone's clock at its
/// instant, with the types of its sides, such as [`TimeZoneRef::following`] returns. And it lists
/// each change by which clocks are set forward over the fields.
pub fn jumps_are_changes(zone: &TimeZoneRef<'_>)
    ensures change { (f : Fields) (before after : DateTime) (found : List FoundDateTimeKind)
        → IsValid f → FitsSigned w32 f.year → IsFound (IsClock (zone_of zone.now)) f found
        → Contains found (skipped before after)
        → (before.unix_time ≡ after.unix_time) × IsChange (zone_of zone.now) (record {
          unix_time = after.unix_time;
          before = before.local_time_type;
          after = after.local_time_type;
        }) }
    ensures jump { (f : Fields) (c : Change) (before after : DateTime)
        (found : List FoundDateTimeKind) → IsFound (IsClock (zone_of zone.now)) f found
        → IsChange (zone_of zone.now) c → IsJumpOver (reading f) c.unix_time c.before c.after
        → ShowsInstant c.unix_time f.nanoseconds c.before before
        → ShowsInstant c.unix_time f.nanoseconds c.after after
        → Contains found (skipped before after) }
{
    shown_types_are_sound(zone);
}

/// Fields of which each entry can be made have a list of all that is found. So where
/// [`crate::DateTime::find`] of valid fields is refused, an entry cannot be made, or memory is out.
pub fn found_lists_exist(
    year: i32,
    month: u8,
    month_day: u8,
    hour: u8,
    minute: u8,
    second: u8,
    nanoseconds: u32,
    zone: &TimeZoneRef<'_>,
)
    ensures { let f = fields_of year month month_day hour minute second nanoseconds in IsValid f
        → EachCanBeMade (IsClock (zone_of zone.now)) f
        → (found : List FoundDateTimeKind) × IsFound (IsClock (zone_of zone.now)) f found }
{
    let _ = DateTime::meaning(
        year,
        month,
        month_day,
        hour,
        minute,
        second,
        nanoseconds,
        *zone,
    );
}

/// If the list of a search in a zone is promised, each of its entries can be made.
pub fn promised_entries_can_be_made(zone: &TimeZoneRef<'_>)
    ensures { (f : Fields) → IsValid f → IsPromised (zone_of zone.now) f.year
        → EachCanBeMade (IsClock (zone_of zone.now)) f }
{
    shown_types_are_sound(zone);
    shown_date_times_are_found();
}

/// The number of transitions that take effect in a window is the length of a rising list that holds
/// just these: at most w take effect there exactly if that length is at most w.
pub fn transitions_in_a_window_are_counted()
    ensures { (z : Zone) (low high : ℤ) (positions : List ℕ) → AreRising positions
        → ((i : ℕ) → TakesEffectIn z low high i ↔ Contains positions i)
        → (w : ℕ) → AtMostTakeEffectIn z low high w ↔ (length positions ≤ w) }
{}

/// [`crate::ParsedDateTime::parse`] has one result for a text: one local time and offset, or one
/// error.
pub fn parsed_texts_have_one_result()
    ensures read { (text : List ℕ) (p q : ParsedDateTime) → IsDateTimeText text p
        → IsDateTimeText text q
        → p ≡ q }
    ensures refused { (text : List ℕ) (e e' : ParseDateTimeError) → IsDateTimeTextFault text e
        → IsDateTimeTextFault text e' → e ≡ e' }
    ensures either { (text : List ℕ) (p : ParsedDateTime) (e : ParseDateTimeError)
        → IsDateTimeText text p
        → ¬ IsDateTimeTextFault text e }
{}

/// What [`DateTime`] and [`crate::UtcDateTime`] print, [`crate::ParsedDateTime::parse`] reads as
/// its fields and its offset: for all fields of a date time but second 60 of the last minute of
/// all, which no UTC date time has, and for the offset of every local time type.
pub fn printed_texts_are_read()
    ensures read { (f : Fields) (offset : ℤ) → IsValid f → ¬ IsPastTheEnd f → FitsSigned w32 f.year
        → FitsSigned w32 offset → IsOffset offset
        → IsDateTimeText (printed_text f offset) (record { local = f; ut_offset = Some offset }) }
    ensures utc { (f : Fields) → IsUtc f → ¬ IsPastTheEnd f }
{}

/// What [`DateTime`] prints, [`crate::ParsedDateTime::parse`] reads as its fields, its offset and
/// its Unix time, unless it has second 60 of the last minute of all.
pub fn printed_date_times_are_read(date_time: &DateTime)
    ensures { ¬ IsPastTheEnd date_time.now.fields
        → IsTextOf (printed_text date_time.now.fields date_time.now.local_time_type.ut_offset)
        date_time.now }
{
    date_time_parts_are_sound(date_time);
    type_parts_are_sound(date_time.local_time_type());
    let _ = date_time.year();
}

/// What [`crate::ParsedDateTime::parse`] reads of a text with an offset has a printed form, which a
/// date time with this local time and this offset prints. It is read as the same.
pub fn read_texts_have_a_printed_form()
    ensures { (text : List ℕ) (p : ParsedDateTime) (offset : ℤ)
        → IsDateTimeText text p → p.ut_offset ≡ Some offset
        → IsDateTimeText (printed_text p.local offset) p }
{}

/// Read as a [`crate::UtcDateTime`], a text has one result: a date time or an error. If it has a
/// date time, [`crate::ParsedDateTime::parse`] reads the same local time from it, at offset 0.
pub fn utc_texts_have_one_result()
    ensures read { (text : List ℕ) (f g : Fields) → IsUtcText text f → IsUtcText text g → f ≡ g }
    ensures refused { (text : List ℕ) (e e' : ParseDateTimeError) → IsUtcTextFault text e
        → IsUtcTextFault text e' → e ≡ e' }
    ensures either { (text : List ℕ) (f : Fields) (e : ParseDateTimeError) → IsUtcText text f
        → ¬ IsUtcTextFault text e }
    ensures parsed { (text : List ℕ) (f : Fields) → IsUtcText text f
        → IsDateTimeText text (record { local = f; ut_offset = Some (pos 0) }) }
{}

/// What a [`crate::UtcDateTime`] prints is read as this date time.
pub fn printed_utc_date_times_are_read()
    ensures { (f : Fields) → IsUtc f → FitsSigned w32 f.year
        → IsUtcText (printed_text f (pos 0)) f }
{}
