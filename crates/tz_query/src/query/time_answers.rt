//! Answers of `T` lines: the date time of an instant.

ghost use Rattle.std.specs.Prelude.{◌+ℤ◌, IfSome, IfNone};
ghost use Rattle.tz_base.specs.Fields.{IsCivil, IsReading};

use super::answers::Answers;
use super::fault_names::fault_name;
use super::output::{Output, Written};
use super::read_query::Nanoseconds;
use super::suffixes::Suffix;
use std::alloc::Allocator;
use tz::LocalTimeType;
use tz::constants::NANOSECONDS_PER_SECOND;
use tz::inner::{Fields, local_reading};

/// What a clock with this offset from UTC shows at a Unix time, if its year is one of 32 bits. The
/// nanoseconds are 0: a line shows those of its query.
pub fn shown_fields(unix_time: i64, ut_offset: i32) -> Option<Fields>
    ensures some { IfSome result (λ f. IsCivil (unix_time +ℤ ut_offset) 0 f
        × IsReading (unix_time +ℤ ut_offset)) }
    ensures none { IfNone result (¬ IsReading (unix_time +ℤ ut_offset)) }
{
    let reading = local_reading(unix_time, ut_offset)?;
    Some(Fields::from_reading(reading, 0))
}

impl<A: Allocator> Output<A> {
    ghost use Rattle.std.specs.Prelude.{◌≡◌, ◌++◌, ◌∷◌, [], ℕ, List, IfOk};
    ghost use Rattle.tz_zone.specs.Clock.{IsClock};
    ghost use Rattle.tz_zone.specs.Table.{Zone};
    ghost use Rattle.tz_query.specs.Answers.{IsTimeAnswer};
    ghost use Rattle.tz_query.specs.Lines.{ended};
    ghost use Rattle.tz_query.specs.Nanoseconds.{number_of};
    ghost use Rattle.tz_query.specs.Outputs.{written};

    /// Writes the answer of an instant. `suffix` is that of the type that the clock has there.
    #[inline(always)]
    fn push_instant(
        &mut self,
        unix_time: i64,
        nanoseconds: &Nanoseconds,
        suffix: &Suffix,
    ) -> Written
        ensures { (z : Zone) → IsClock z unix_time suffix.now.local_time_type
            → IfOk result (λ _. (text : List ℕ)
            × IsTimeAnswer z unix_time (number_of nanoseconds.now) text
            × (written self.new ≡ written self.old ++ ended (text ∷ []))) }
    {
        let Some(fields) = shown_fields(unix_time, suffix.local_time_type.ut_offset()) else {
            return self.push_error("OutOfRange");
        };
        self.push_shown(b"", &fields, suffix, nanoseconds)
    }
}

impl<'a, A: Allocator + Copy> Answers<'a, A> {
    ghost use Rattle.std.specs.Prelude.{IfOk, IfSome};
    ghost use Rattle.tz_zone.specs.Clock.{IsClock};
    ghost use Rattle.tz_zone.specs.ZoneRef.{zone_of};
    ghost use Rattle.tz_query.specs.declared.query.read_query.Query.TheVariants.{Time};
    ghost use Rattle.tz_query.specs.Nanoseconds.{number_of};
    ghost use Rattle.tz_query.specs.Outputs.{IsAnswered, IsSound, Leaves};

    /// The type of the clock at an instant outside the kept segment, if it has one.
    fn type_at(&mut self, unix_time: i64) -> Option<&'a LocalTimeType>
        requires { IsSound self.old }
        ensures clock { IfSome result (λ t. IsClock (zone_of self.old.zone) unix_time t.now) }
        ensures kept { Leaves self.old self.new }
    {
        self.follow(unix_time);
        self.zone.find_local_time_type(unix_time).ok()
    }

    /// Answers an instant.
    #[inline(always)]
    pub fn answer_time(&mut self, unix_time: i64, nanoseconds: &Nanoseconds) -> Written
        requires { IsSound self.old }
        ensures { IfOk result (λ _. IsAnswered (Time unix_time (number_of nanoseconds.now)) self.old
            self.new) }
    {
        if self.segment.has(unix_time, unix_time) {
            let suffix = &self.segment.suffix;
            return self.output.push_instant(unix_time, nanoseconds, suffix);
        }
        let Some(local_time_type) = self.type_at(unix_time) else {
            return self.answer_by_lookup(unix_time, *nanoseconds);
        };
        let suffix = self.suffixes.of(local_time_type);
        self.output.push_instant(unix_time, nanoseconds, suffix)
    }

    /// Looks an instant up once more, for the error, which [`Answers::type_at`] drops. It finds no
    /// type then: the arm for one is there since `type_at` promises nothing of `None`.
    #[cold]
    fn answer_by_lookup(&mut self, unix_time: i64, nanoseconds: Nanoseconds) -> Written
        ensures { IfOk result
            (λ _. IsAnswered (Time unix_time (number_of nanoseconds)) self.old self.new) }
    {
        match self.zone.find_local_time_type(unix_time) {
            Ok(local_time_type) => {
                let suffix = self.suffixes.of(local_time_type);
                self.output.push_instant(unix_time, &nanoseconds, suffix)
            }
            Err(error) => self.output.push_error(fault_name(&error)),
        }
    }

    /// Answers an instant with any nanoseconds.
    #[inline(never)]
    pub fn answer_any_time(&mut self, unix_time: i64, nanoseconds: u32) -> Written
        requires { IsSound self.old }
        ensures { IfOk result (λ _. IsAnswered (Time unix_time nanoseconds) self.old self.new) }
    {
        if nanoseconds >= NANOSECONDS_PER_SECOND {
            return self.output.push_error("InvalidNanoseconds");
        }
        self.answer_time(unix_time, &Nanoseconds::new(nanoseconds))
    }
}
