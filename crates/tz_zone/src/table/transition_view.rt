//! A zone's transitions as a function may read them: one at a time. Each read is a look, which is
//! counted.

ghost use mir.Val.{Fits};
ghost use Rattle.std.specs.Int.{w64};
ghost use Rattle.std.specs.Prelude.{length};

use super::Transition;

/// A view of transitions, which counts the looks at them.
///
/// A function that has its view by `&mut` can take looks and nothing else: it has no slice, and can
/// not set the count back. The count stays at `u64::MAX` once it is there.
#[derive(Clone, Copy)]
pub struct TransitionView<'a> {
    transitions: &'a [Transition],
    looks: u64,
    may_guess: bool,
    ghost fits: { Fits w64 (length transitions.now) },
}

impl<'a> TransitionView<'a> {
    ghost use Rattle.std.specs.Prelude.{◌≡◌, ◌+◌, ◌<◌, ◌≤◌, ◌^◌, length, slice_get, Some, IfSome, IsTrue, true, false};
    ghost use Rattle.tz_zone.specs.Looks.{list_of, looks_of, may_guess_of, one_look_more, IsAfterLooks, IsChunkAt};

    /// The view of these transitions for a caller that wants no count: a position may be guessed,
    /// and several transitions read as an array.
    pub const fn new(transitions: &'a [Transition]) -> Self
        ensures list { list_of result ≡ transitions.now }
        ensures guess { may_guess_of result ≡ true }
    {
        TransitionView {
            transitions,
            looks: 0,
            may_guess: true,
        }
    }

    /// The view of these transitions for a caller that wants the count: each read is a look.
    pub const fn counted(transitions: &'a [Transition]) -> Self
        ensures list { list_of result ≡ transitions.now }
        ensures looks { looks_of result ≡ 0 }
        ensures guess { may_guess_of result ≡ false }
    {
        TransitionView {
            transitions,
            looks: 0,
            may_guess: false,
        }
    }

    /// The number of looks so far.
    pub const fn looks(&self) -> u64
        ensures { result ≡ looks_of self.now }
    {
        self.looks
    }

    /// The number of transitions.
    pub const fn len(&self) -> usize
        ensures { result ≡ length (list_of self.now) }
    {
        self.transitions.len()
    }

    /// A look: the transition at an index.
    pub fn look(&mut self, index: usize) -> Transition
        requires { index < length (list_of self.old) }
        ensures value { slice_get (list_of self.old) index ≡ Some result }
        ensures counted { looks_of self.new ≡ one_look_more (looks_of self.old) }
        ensures looks { IsAfterLooks self.old self.new 1 }
    {
        self.looks = self.looks.saturating_add(1);
        self.transitions[index]
    }

    /// A view of the same transitions, at which no look has been taken.
    pub const fn fresh(&self) -> Self
        ensures list { list_of result ≡ list_of self.now }
        ensures looks { looks_of result ≡ 0 }
        ensures guess { may_guess_of result ≡ may_guess_of self.now }
    {
        TransitionView {
            transitions: self.transitions,
            looks: 0,
            may_guess: self.may_guess,
        }
    }

    /// Counts the looks at a view that [`TransitionView::fresh`] returned.
    pub fn add_looks(&mut self, looks: u64)
        ensures sum { looks_of self.old + looks < 2 ^ 64
            → looks_of self.new ≡ looks_of self.old + looks }
        ensures looks { IsAfterLooks self.old self.new looks }
    {
        self.looks = self.looks.saturating_add(looks);
    }

    /// Whether a position may be guessed.
    pub const fn may_guess(&self) -> bool
        ensures { result ≡ may_guess_of self.now }
    {
        self.may_guess
    }

    /// `N` transitions from an index on, if there are so many, for a caller that wants no count.
    pub fn chunk_at<const N: usize>(&self, index: usize) -> Option<&'a [Transition; N]>
        requires guess { IsTrue (may_guess_of self.now) }
        requires within { index ≤ length (list_of self.now) }
        ensures { IfSome result (λ chunk. IsChunkAt (list_of self.now) index N chunk.now) }
    {
        let (_, rest) = self.transitions.split_at(index);
        rest.first_chunk()
    }
}
