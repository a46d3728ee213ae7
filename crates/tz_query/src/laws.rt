//! Laws of query lines and their answers, for proofs of programs that use them: a call of a law
//! makes its contract known.
//!
//! A function here does nothing, or calls the laws on which it rests, or goes through what the law
//! is about. Its contract is the law, in the words of the contract of [`crate::query::answer`].

ghost use Rattle.std.specs.Prelude.{◌≡◌, ℕ, ℤ, List, [], ◌∷◌, ◌++◌, All};
ghost use Rattle.std.specs.List.{AllZip, flat_map};
ghost use Rattle.tz_rule.specs.LocalTimeType.{LocalTimeType, IsLocalTimeType};
ghost use Rattle.tz_zone.specs.Clock.{IsClock};
ghost use Rattle.tz_zone.specs.Table.{Zone};
ghost use Rattle.tz_zone.specs.ZoneRef.{zone_of};
ghost use Rattle.tz_query.specs.Lines.{line_feed, IsLine, AreLines, IsFirstLine, ended};
ghost use Rattle.tz_query.specs.Answers.{AreAnswers, IsAnswer, IsGroup, IsMeetingAnswer};
ghost use Rattle.tz_query.specs.Answers.{IsQueryAnswer, IsSearchAnswer, IsTimeAnswer};

use crate::query::meeting_answers::{first_day_begins, week_of};
use crate::query::read_query::{Query, after_line, read_query};
use tz::inner::Fields;
use tz::{DateTime, TimeZoneRef};
use tz_zone::laws::shown_types_are_sound;

/// Bytes are cut into lines in one way.
pub fn lines_are_unique()
    ensures { (bytes : List ℕ) (lines others : List (List ℕ)) → AreLines bytes lines
        → AreLines bytes others → lines ≡ others }
{}

/// The answer bytes are a group of lines for each query line, in their order, each ended by LF. A
/// group is one line, `F` with a number and as many lines, or `W` with a number and as many such
/// groups. No line of a group alone begins with `F` or `W` and a space, and no answer line holds an
/// LF. So whoever reads answers can cut them back into lines, and these into groups.
pub fn each_line_has_a_group_of_answer_lines()
    ensures each { (z : Zone) (queries bytes : List ℕ) (lines : List (List ℕ))
        → AreAnswers z queries bytes → AreLines queries lines
        → (answers : List (List (List ℕ))) × AllZip (IsAnswer z) lines answers
        × (bytes ≡ flat_map ended answers) }
    ensures group { (z : Zone) (line : List ℕ) (answer : List (List ℕ)) → IsAnswer z line answer
        → IsGroup answer }
    ensures lines { (z : Zone) (line : List ℕ) (answer : List (List ℕ))
        → ((u : ℤ) (t : LocalTimeType) → IsClock z u t → IsLocalTimeType t)
        → IsAnswer z line answer → All IsLine answer }
{}

/// No line of an answer over a zone holds an LF.
pub fn answers_are_cut_into_lines(zone: &TimeZoneRef<'_>)
    ensures { (line : List ℕ) (answer : List (List ℕ)) → IsAnswer (zone_of zone.now) line answer
        → All IsLine answer }
{
    shown_types_are_sound(zone);
    each_line_has_a_group_of_answer_lines();
}

/// Query bytes may be answered in pieces, each but the last of which ends in LF: the answers of two
/// pieces are those of both, one after the other, and the answers of both can be cut into these.
pub fn pieces_are_answered_apart()
    ensures joined { (z : Zone) (queries more bytes others : List ℕ)
        → AreAnswers z (queries ++ line_feed ∷ []) bytes → AreAnswers z more others
        → AreAnswers z (queries ++ line_feed ∷ more) (bytes ++ others) }
    ensures cut { (z : Zone) (queries more bytes : List ℕ)
        → AreAnswers z (queries ++ line_feed ∷ more) bytes
        → (first : List ℕ) × (others : List ℕ) × (bytes ≡ first ++ others)
        × AreAnswers z (queries ++ line_feed ∷ []) first × AreAnswers z more others }
{}

/// A line has one answer, whatever the line, the year and the zone, and so have all query bytes:
/// what is answered depends on these and the zone alone.
pub fn answers_are_unique()
    ensures line { (z : Zone) (line : List ℕ) (answer other : List (List ℕ))
        → IsAnswer z line answer
        → IsAnswer z line other → answer ≡ other }
    ensures all { (z : Zone) (queries bytes others : List ℕ) → AreAnswers z queries bytes
        → AreAnswers z queries others → bytes ≡ others }
{}

/// An instant has an answer line: the clock shows it or has an error.
fn times_have_answers(zone: &TimeZoneRef<'_>, unix_time: i64, nanoseconds: u32)
    ensures { (answer : List ℕ) × IsTimeAnswer (zone_of zone.now) unix_time nanoseconds answer }
{
    let _ = DateTime::from_timespec(unix_time, nanoseconds, *zone);
}

/// Fields have answer lines: those of a list, or of an error.
fn searches_have_answers(zone: &TimeZoneRef<'_>, fields: &Fields)
    ensures { (answer : List (List ℕ)) × IsSearchAnswer (zone_of zone.now) fields.now answer }
{
    let (year, month, month_day) = (fields.year, fields.month, fields.month_day);
    let (hour, minute, second) = (fields.hour, fields.minute, fields.second);
    let nanoseconds = fields.nanoseconds;
    let _ = DateTime::meaning(
        year,
        month,
        month_day,
        hour,
        minute,
        second,
        nanoseconds,
        *zone,
    );
}

/// A meeting has answer lines: those of its fields in each week, or of their first error.
fn meetings_have_answers(zone: &TimeZoneRef<'_>, count: u8, first: &Fields)
    ensures { (answer : List (List ℕ)) × IsMeetingAnswer (zone_of zone.now) count first.now answer }
{
    let begins = match first_day_begins(first) {
        Ok(begins) => begins,
        Err(_) => return,
    };
    for weeks in 0..count {
        if let Some(fields) = week_of(first, begins, weeks) {
            searches_have_answers(zone, &fields);
        }
    }
}

/// A query has answer lines.
fn queries_have_answers(zone: &TimeZoneRef<'_>, query: Query)
    ensures { (answer : List (List ℕ)) × IsQueryAnswer (zone_of zone.now) query answer }
{
    match query {
        Query::Time(unix_time, nanoseconds) => times_have_answers(zone, unix_time, nanoseconds),
        Query::Search(fields) => searches_have_answers(zone, &fields),
        Query::Meeting(count, fields) => meetings_have_answers(zone, count, &fields),
    }
}

/// The first line has answer lines; what is returned follows it.
fn first_lines_have_answers<'a>(zone: &TimeZoneRef<'_>, queries: &'a [u8]) -> &'a [u8]
    ensures { (line : List ℕ) × (answer : List (List ℕ)) × IsFirstLine queries.now line result.now
        × IsAnswer (zone_of zone.now) line answer }
{
    let Some((query, rest)) = read_query(queries) else {
        return after_line(queries);
    };
    queries_have_answers(zone, query);
    rest
}

/// Each line has an answer, whatever the line and the zone, and so all query bytes have answers. As
/// they have no others ([`answers_are_unique`]), these are a function of the bytes and the zone.
pub fn answers_exist(zone: &TimeZoneRef<'_>, queries: &[u8])
    ensures { (bytes : List ℕ) × AreAnswers (zone_of zone.now) queries.now bytes }
{
    let mut rest = queries;
    while !rest.is_empty() {
        rest = first_lines_have_answers(zone, rest);
    }
}
