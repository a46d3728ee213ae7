//! Laws of patterns, for proofs of programs that use them: a call of a law makes its contract
//! known.
//!
//! Each function's contract is the law, stated like the contract of
//! [`Pattern::read`](crate::Pattern::read).

ghost use Rattle.std.specs.Prelude.{◌≡◌, ℕ, ◌<◌, false, pos, List};
ghost use Rattle.tz_format.specs.Patterns.{items_of, text_of};
ghost use Rattle.tz_format.specs.Readings.{IsPlain, IsReadablePattern, IsReadFault, IsReading};
ghost use Rattle.tz_format.specs.Readings.{are_shown, value};
ghost use Rattle.tz_format.specs.Shown.{Shown};
ghost use Rattle.tz_format.specs.declared.read.ReadPatternError.{ReadPatternError};

use crate::pattern::Pattern;

/// What a readable pattern prints of a date time that is read, [`Pattern::read`] reads: of years
/// from 0 to 9999, offsets of whole minutes below 100 hours, and with zero for each part that the
/// pattern does not show. So it returns the date time, by its contract.
pub fn printed_texts_are_read()
    ensures reading { (pattern : List ℕ) (s : Shown) → IsPlain s
        → ((k : ℕ) → k < 11 → are_shown k (items_of pattern) ≡ false → value s k ≡ pos 0)
        → IsReading pattern (text_of pattern s) s }
    ensures not_refused { (pattern text : List ℕ) (s : Shown) (e : ReadPatternError)
        → IsReadablePattern pattern → IsReading pattern text s
        → ¬ IsReadFault pattern text e }
{}

/// A text has at most one reading by a readable pattern.
pub fn readings_are_unique(pattern: &Pattern<'_>, text: &[u8])
    ensures { IsReadablePattern pattern.now.text.now
        → (s t : Shown) → IsReading pattern.now.text.now text.now s
        → IsReading pattern.now.text.now text.now t
        → s ≡ t }
{
    let _ = pattern.read(text);
}
