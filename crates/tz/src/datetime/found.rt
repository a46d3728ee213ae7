//! What a search of date times finds: an entry; lists of entries, in memory of their own or in a
//! buffer of the caller; and which of these is the unique, the earliest or the latest one.

use super::DateTime;
use super::entry_takers::DateTimeList;
use std::alloc::{AllocError, Allocator, Global};
use std::fmt;
use tz_base::error::TzError;

/// An entry of what a search finds: a date time with the fields, or a jump over them.
#[derive(Clone, Copy, Debug, PartialEq, Eq)]
pub enum FoundDateTimeKind {
    /// The clock shows the date time.
    Normal(DateTime),
    /// The clock was set forward over the date time.
    ///
    /// Both sides have the Unix time of the jump, and the nanoseconds of the search.
    Skipped {
        /// The date time that the clock would have shown without the jump.
        before_transition: DateTime,
        /// The date time that the clock shows.
        after_transition: DateTime,
    },
}

impl FoundDateTimeKind {
    ghost use Rattle.std.specs.Prelude.{◌≡◌};
    ghost use Rattle.tz.specs.Found.{first_side, last_side};

    /// The date time twice, or the sides before and after the jump.
    pub(crate) const fn sides(&self) -> (&DateTime, &DateTime)
        ensures first { result.0.now ≡ first_side self.now }
        ensures last { result.1.now ≡ last_side self.now }
    {
        match self {
            FoundDateTimeKind::Normal(date_time) => (date_time, date_time),
            FoundDateTimeKind::Skipped {
                before_transition,
                after_transition,
            } => (before_transition, after_transition),
        }
    }
}

/// The date times that a search found, by rising Unix time.
///
/// Lists are equal when their entries are, on whichever allocators.
#[derive(Drop)]
#[derive_where(PartialEq, Eq)]
pub struct FoundDateTimeList<A: Allocator + Copy = Global> {
    pub(super) found: Vec<FoundDateTimeKind, A>,
}

impl<A: Allocator + Copy> FoundDateTimeList<A> {
    ghost use Rattle.std.specs.Prelude.{◌≡◌, [], IfOk, IfErr, alloc_error};
    ghost use Rattle.tz.specs.Found.{unique_of, earliest_of, latest_of};
    ghost use Rattle.tz.specs.Lists.{found_of};

    /// An empty list.
    pub fn new_in(alloc: A) -> Self
        ensures { found_of result ≡ [] }
    {
        FoundDateTimeList {
            found: Vec::new(alloc),
        }
    }

    /// A copy of the list, on the same allocator.
    ///
    /// # Errors
    ///
    /// [`TzError::Memory`] if an allocation fails.
    pub fn try_clone(&self) -> Result<Self, TzError>
        ensures ok { IfOk result (λ list. found_of list ≡ found_of self.now) }
        ensures err { IfErr result (λ e. e ≡ TzError.Memory alloc_error) }
    {
        let found = self.found.clone()?;
        Ok(FoundDateTimeList { found })
    }

    /// The date time, if exactly one was found and no jump, and otherwise `None`.
    pub fn unique(&self) -> Option<DateTime>
        ensures { result ≡ unique_of (found_of self.now) }
    {
        match *self.found.as_slice() {
            [FoundDateTimeKind::Normal(date_time)] => Some(date_time),
            _ => None,
        }
    }

    /// The earliest date time; of a jump the side before it. `None` if nothing was found.
    pub fn earliest(&self) -> Option<DateTime>
        ensures { result ≡ earliest_of (found_of self.now) }
    {
        Some(*self.found.first()?.sides().0)
    }

    /// The latest date time; of a jump the side after it. `None` if nothing was found.
    pub fn latest(&self) -> Option<DateTime>
        ensures { result ≡ latest_of (found_of self.now) }
    {
        Some(*self.found.last()?.sides().1)
    }

    /// What was found.
    pub fn into_inner(self) -> Vec<FoundDateTimeKind, A>
        ensures { result.items ≡ found_of self }
    {
        self.found
    }
}

impl<A: Allocator + Copy> DateTimeList for FoundDateTimeList<A> {
    ghost use Rattle.std.specs.Prelude.{◌≡◌, ◌++◌, ⊤};
    ghost use Rattle.std.proofs.Common.{rules};
    ghost use Rattle.std.proofs.lemmas.Grind.{common_steps};

    ghost gains = { λ list grown found. grown.found.items ≡ list.found.items ++ found };

    ghost takes_memory = { ⊤ };

    ghost none = { Prim.search (rules, common_steps) };

    ghost more = { Prim.search (rules, common_steps) };

    /// The first one gets room for two, since a reading is found once, or twice if clocks are set
    /// back over it.
    #[inline(always)]
    fn push(&mut self, found: FoundDateTimeKind) -> Result<(), AllocError> {
        if self.found.is_empty() {
            self.found.reserve_exact(2)?;
        }
        self.found.push(found)?;
        Ok(())
    }
}

/// Prints the name of the type and what was found, as if that alone stood in it.
impl<A: Allocator + Copy> fmt::Debug for FoundDateTimeList<A> {
    fn fmt<W: fmt::Write>(&self, f: &mut fmt::Formatter<W>) -> fmt::Result {
        f.debug_tuple("FoundDateTimeList")
            .field(&self.found)
            .finish()
    }
}

/// The date times that a search found, by rising Unix time, as far as a buffer goes.
///
/// All are counted, and the first of them are in the buffer's first slots. Lists are equal if all
/// slots of the buffers are, and the counts are.
///
/// The Unix time of a local time that is in no gap and no fold. One slot is enough, as all entries
/// are counted:
///
/// ```rust
/// pub fn plain_instant(
///     zone: TimeZoneRef<'_>,
///     local: UtcDateTime,
/// ) -> Result<Option<i64>, TzError> {
///     let mut slots = [None; 1];
///     let found = DateTime::find_n_local(&mut slots, local, zone)?;
///     Ok(found.unique().map(|date_time| date_time.unix_time()))
/// }
/// ```
#[derive(Drop)]
pub struct FoundDateTimeListRefMut<'a> {
    buf: &'a mut [Option<FoundDateTimeKind>],
    count: usize,
}

impl<'a> FoundDateTimeListRefMut<'a> {
    ghost use Rattle.std.specs.Prelude.{◌≡◌, ◌<◌, ◌≤◌, ◌↔◌, IsTrue, Some, None, length, min};
    ghost use Rattle.tz.specs.Lists.{slots_of, count_of, reference_of};
    ghost use Rattle.tz.specs.Slots.{written_of, unique_slot, earliest_slot, latest_slot};

    /// A list of these slots with nothing found: its count is 0, and the slots stay as they are.
    pub const fn new(buf: &'a mut [Option<FoundDateTimeKind>]) -> Self
        ensures same_reference { reference_of result ≡ buf.entry.ghost_name }
        ensures slots { slots_of result ≡ buf.old }
        ensures count { count_of result ≡ 0 }
    {
        FoundDateTimeListRefMut { buf, count: 0 }
    }

    /// The list of `count` date times, the first of which are in the slots already.
    pub(super) fn counted(buf: &'a mut [Option<FoundDateTimeKind>], count: usize) -> Self
        ensures same_reference { reference_of result ≡ buf.entry.ghost_name }
        ensures slots { slots_of result ≡ buf.old }
        ensures count { count_of result ≡ count }
    {
        FoundDateTimeListRefMut { buf, count }
    }

    /// How many slots were written.
    fn written(&self) -> usize
        ensures { result ≡ min (count_of self.now) (length (slots_of self.now)) }
    {
        self.count.min(self.buf.len())
    }

    /// The slots that were written.
    pub fn data(&self) -> &[Option<FoundDateTimeKind>]
        ensures { result.now ≡ written_of (slots_of self.now) (count_of self.now) }
    {
        &self.buf[..self.written()]
    }

    /// How many date times were found, whether there was a slot for each or not.
    pub const fn count(&self) -> usize
        ensures { result ≡ count_of self.now }
    {
        self.count
    }

    /// Whether there was a slot for each date time.
    pub const fn is_exhaustive(&self) -> bool
        ensures { IsTrue result ↔ (count_of self.now ≤ length (slots_of self.now)) }
    {
        self.count <= self.buf.len()
    }

    /// The earliest date time that was written; of a jump the side before it. `None` if nothing was
    /// written.
    pub fn earliest(&self) -> Option<DateTime>
        ensures { result ≡ earliest_slot (written_of (slots_of self.now) (count_of self.now)) }
    {
        Some(*self.data().first()?.as_ref()?.sides().0)
    }

    /// The latest date time that was written; of a jump the side after it. `None` if nothing was
    /// written.
    pub fn latest(&self) -> Option<DateTime>
        ensures { result ≡ latest_slot (written_of (slots_of self.now) (count_of self.now)) }
    {
        Some(*self.data().last()?.as_ref()?.sides().1)
    }

    /// The date time, if exactly one was found and no jump, and there was a slot for it, and
    /// otherwise `None`.
    pub fn unique(&self) -> Option<DateTime>
        ensures exhaustive { count_of self.now ≤ length (slots_of self.now)
            → result ≡ unique_slot (written_of (slots_of self.now) (count_of self.now)) }
        ensures short { length (slots_of self.now) < count_of self.now → result ≡ None }
    {
        match *self.data() {
            [Some(FoundDateTimeKind::Normal(date_time))] if self.is_exhaustive() => Some(date_time),
            _ => None,
        }
    }
}

impl PartialEq for FoundDateTimeListRefMut<'_> {
    ghost use Rattle.std.specs.Cmp.Lexicographic.{pointwise};
    ghost use Rattle.std.specs.Cmp.Rules.{comparing};
    ghost use Rattle.std.specs.Prelude.{nat_eq};
    ghost use Rattle.std.specs.Option.{option_eq};
    ghost use Rattle.std.specs.Ordering.{on, eq_of_both};
    ghost use Rattle.std.proofs.Common.{rules};
    ghost use Rattle.tz.specs.SlotEquality.{options_per};
    ghost use Rattle.tz.specs.contracts.datetime.found.FoundDateTimeKindPartialEq.TheImpl as kind_eq;
    ghost use Rattle.tz.specs.contracts.datetime.found.FoundDateTimeKindPartialEq.TheImpl.Laws as kind_laws;

    ghost eq = { eq_of_both (on (λ l. l.buf.now) (pointwise (option_eq (kind_eq.ghosts).eq)))
        (on (λ l. l.count) nat_eq) };

    ghost laws = { Prim.search (comparing, rules, options_per, kind_laws.laws-law) };

    fn eq(&self, other: &Self) -> bool {
        *self.buf == *other.buf && self.count == other.count
    }
}

/// Prints the name of the type, all slots, how many of them were written, and how many date times
/// were found.
impl fmt::Debug for FoundDateTimeListRefMut<'_> {
    fn fmt<W: fmt::Write>(&self, f: &mut fmt::Formatter<W>) -> fmt::Result {
        f.debug_struct("FoundDateTimeListRefMut")
            .field("buf", &self.buf)
            .field("current_index", &self.written())
            .field("count", &self.count)
            .finish()
    }
}
