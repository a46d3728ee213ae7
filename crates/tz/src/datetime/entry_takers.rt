//! What takes the entries of a search, in order of time: instants that show a reading, and jumps
//! over it. `Dated` makes date times of them for a list; `EntryEnds` (`entry_ends.rt`) keeps their
//! ends alone.

use super::{DateTime, FoundDateTimeKind};
use std::alloc::AllocError;
use tz_base::error::TzError;
use tz_base::fields::Fields;
use tz_zone::timezone::LocalTimeType;

/// What takes the entries of a search, in order of time.
pub(crate) trait EntryTaker<'a> {
    ghost use Rattle.std.specs.Prelude.{ℤ, ◌+ℤ◌, List, [], ◌∷◌, OnOk, IfErr};
    ghost use Rattle.tz_base.specs.declared.error.TzError.{TzError as Fault};
    ghost use Rattle.tz.specs.Entries.{Entry, Shown, Jump};

    /// `gains before after es`: by taking the entries `es`, `before` becomes `after`.
    ghost gains: { Self → Self → List Entry → Type 0 };

    /// `takes taker r`: the entries that it is given may be those of the reading `r`.
    ghost takes: { Self → ℤ → Type 0 };

    /// `refuses fault e`: the entry `e` can be refused by `fault`.
    ghost refuses: { Fault → Entry → Type 0 };

    /// Takes an instant at which a clock shows the reading in a type.
    fn shown(&mut self, unix_time: i64, local_time_type: &'a LocalTimeType) -> Result<(), TzError>
        requires { takes self.old (unix_time +ℤ local_time_type.now.ut_offset) }
        ensures ok { OnOk result
            (gains self.old self.new (Shown unix_time local_time_type.entry.now ∷ [])) }
        ensures err { IfErr result (λ e. refuses e (Shown unix_time local_time_type.entry.now)) };

    /// Takes a jump over the reading: the instant from which on a clock has the second type.
    fn skipped(
        &mut self,
        unix_time: i64,
        before: &'a LocalTimeType,
        after: &'a LocalTimeType,
    ) -> Result<(), TzError>
        requires { (r : ℤ) × takes self.old r }
        ensures ok { OnOk result (gains self.old self.new
            (Jump unix_time before.entry.now after.entry.now
            ∷ [])) }
        ensures err { IfErr result
            (λ e. refuses e (Jump unix_time before.entry.now after.entry.now)) };
}

/// A list that a search writes to.
pub(crate) trait DateTimeList {
    ghost use Rattle.std.specs.Prelude.{List, [], ◌∷◌, ◌++◌, OnOk, OnErr};
    ghost use Rattle.tz.specs.declared.datetime.found.FoundDateTimeKind.{FoundDateTimeKind};

    /// `gains list longer es`: `longer` is `list` with `es` at its end.
    ghost gains: { Self → Self → List FoundDateTimeKind → Type 0 };

    /// Whether a growing list can run out of memory.
    ghost takes_memory: { Type 0 };

    /// Adds one at the end. If out of memory, it adds none.
    fn push(&mut self, found: FoundDateTimeKind) -> Result<(), AllocError>
        ensures ok { OnOk result (gains self.old self.new (found ∷ [])) }
        ensures err { OnErr result (takes_memory × gains self.old self.new []) };

    /// A list that stays as it is gains nothing.
    ghost none: { (list : Self) → gains list list [] };

    /// One gain after another is a gain.
    ghost more: { (list middle grown : Self) (es fs : List FoundDateTimeKind) → gains list middle es
        → gains middle grown fs → gains list grown (es ++ fs) };
}

/// A list that takes the entries of fields as date times.
#[derive(Drop)]
pub(super) struct Dated<'l, L> {
    pub(super) fields: &'l Fields,
    pub(super) list: &'l mut L,
}

impl<'a, L: DateTimeList> EntryTaker<'a> for Dated<'_, L> {
    ghost use Rattle.tz.specs.EntryDateTimes.{GainsDated, TakesEntries, IsDatedFault};

    ghost gains = { GainsDated L.gains };

    ghost takes = { TakesEntries };

    ghost refuses = { IsDatedFault L.takes_memory };

    #[inline(always)]
    fn shown(&mut self, unix_time: i64, local_time_type: &'a LocalTimeType) -> Result<(), TzError> {
        let date_time = DateTime::of_fields(self.fields, *local_time_type, unix_time);
        self.list.push(FoundDateTimeKind::Normal(date_time))?;
        Ok(())
    }

    #[inline(always)]
    fn skipped(
        &mut self,
        unix_time: i64,
        before: &'a LocalTimeType,
        after: &'a LocalTimeType,
    ) -> Result<(), TzError> {
        let before_transition = DateTime::shown_by(unix_time, self.fields.nanoseconds, *before)?;
        let after_transition = DateTime::shown_by(unix_time, self.fields.nanoseconds, *after)?;
        self.list.push(FoundDateTimeKind::Skipped {
            before_transition,
            after_transition,
        })?;
        Ok(())
    }
}
