//! Answers on their way out: a page of them, and all before it.

ghost use Rattle.std.specs.Prelude.{◌≡◌, ◌+◌, ◌<◌, ◌≤◌, ◌∷◌, ◌++◌, [], length, codes, IfOk, ℕ, ℤ, List, MatchBool};
ghost use Rattle.std.specs.Fmt.{decimal, signed_decimal};
ghost use Rattle.tz_query.specs.Lines.{ended, line_feed};
ghost use Rattle.tz_query.specs.Numbers.{space};
ghost use Rattle.tz_query.specs.Pages.{HasRoom, HasRoomFor};
ghost use Rattle.tz_base.specs.Fields.{IsValid};
ghost use Rattle.tz.specs.DateTimes.{moment_of};
ghost use Rattle.tz.specs.PrintedText.{moment_text, suffix_text};
ghost use Rattle.tz_query.specs.Nanoseconds.{with_nanoseconds};

use super::read_query::Nanoseconds;
use super::suffixes::Suffix;
use std::alloc::{AllocError, Allocator};
use std::marker::Model;
use tz::inner::{Fields, TextBuffer, middle_of, two_pairs};

/// What writing returns: nothing, or that an allocation failed.
pub type Written = Result<(), AllocError>;

/// Where answers are written: onto a page. If the page has no room for one more line and its front
/// (what stands before the date time, such as `N `), it is first appended to the answers before it.
#[derive(Drop)]
pub struct Output<A: Allocator> {
    pub answers: Vec<u8, A>,
    pub page: Page,
}

impl<A: Allocator> Output<A> {
    ghost use Rattle.std.specs.Prelude.{◌≡◌, ◌≤◌, ◌∷◌, ◌++◌, [], ℤ, length, IfOk};
    ghost use Rattle.tz_base.specs.Fields.{IsValid};
    ghost use Rattle.tz.specs.DateTimes.{moment_of};
    ghost use Rattle.tz.specs.PrintedText.{moment_text};
    ghost use Rattle.tz_query.specs.Nanoseconds.{with_nanoseconds};
    ghost use Rattle.tz_query.specs.Pages.{EndsLine};
    ghost use Rattle.tz_query.specs.Outputs.{written};

    /// Appends what is on the page to the answers, and clears it.
    #[inline(never)]
    pub fn flush(&mut self) -> Written
        ensures text { IfOk result (λ _. written self.new ≡ written self.old) }
        ensures answers { IfOk result (λ _. self.new.answers.items ≡ written self.old) }
        ensures clear { IfOk result (λ _. self.new.page ≡ []) }
    {
        self.answers.extend_from_slice(self.page.as_bytes())?;
        self.page.clear();
        Ok(())
    }

    /// Makes room for one more line, with its front, on the page.
    pub fn make_room(&mut self) -> Written
        ensures room { IfOk result (λ _. HasRoom self.new.page) }
        ensures text { IfOk result (λ _. written self.new ≡ written self.old) }
    {
        if self.page.has_room() {
            return Ok(());
        }
        self.flush()
    }

    /// Writes a line of two pieces.
    fn push_line(&mut self, front: &[u8], text: &[u8]) -> Written
        requires { length front.now + length text.now < 128 }
        ensures { IfOk result (λ _. written self.new ≡ written self.old
            ++ (front.now ++ (text.now ++ line_feed ∷ []))) }
    {
        self.make_room()?;
        self.page.push(front);
        self.page.push(text);
        self.page.push(b"\n");
        Ok(())
    }

    /// Writes the line of an error.
    pub fn push_error(&mut self, name: &str) -> Written
        requires { length name.now ≤ 24 }
        ensures { IfOk result (λ _. written self.new ≡ written self.old
            ++ ended ((codes "E " ++ name.now) ∷ [])) }
    {
        self.push_line(b"E ", name.as_bytes())
    }

    /// Writes a line with a letter and a count.
    pub fn push_count(&mut self, letter: u8, count: usize) -> Written
        ensures { IfOk result (λ _. written self.new ≡ written self.old
            ++ ended ((letter ∷ space ∷ decimal count) ∷ [])) }
    {
        let mut text = TextBuffer::new();
        text.push_count(count as u64);
        self.push_line(&[letter, b' '], text.as_bytes())
    }

    /// Writes `front` and the line of fields that the type of a suffix shows.
    #[inline(always)]
    pub fn push_shown(
        &mut self,
        front: &[u8],
        fields: &Fields,
        suffix: &Suffix,
        nanoseconds: &Nanoseconds,
    ) -> Written
        requires front { length front.now ≤ 6 }
        requires valid { IsValid fields.now }
        ensures text { IfOk result (λ _. (u : ℤ) → written self.new ≡ written self.old ++ (front.now
            ++ (moment_text (moment_of (with_nanoseconds fields.now nanoseconds.now)
            suffix.now.local_time_type u) ++ line_feed ∷ []))) }
        ensures ended { IfOk result (λ _. EndsLine self.new.page) }
    {
        self.make_room()?;
        self.page.push(front);
        self.page.push_date_time(fields, nanoseconds, suffix);
        Ok(())
    }
}

/// The number of bytes that a page holds.
const SIZE: usize = 2040;

/// Room that is made at once: for a short line, or for a front (what stands before a date time,
/// such as `N `) and the line of the date time. Neither is longer.
const LONGEST: usize = 160;

/// Printed text of at most 2040 bytes, which is kept without an allocation.
///
/// A line is put together from pieces that are copied whole: the year, the rest of the date and
/// time, the nanoseconds and the suffix of the type.
#[derive(Drop)]
pub struct Page {
    bytes: [u8; SIZE],
    len: usize,
}

impl Model for Page {
    ghost use Rattle.std.specs.Prelude.{◌≤◌, ℕ, List, take};

    ghost Value = { List ℕ };

    ghost view = { λ page. take page.len page.bytes };

    ghost invariant = { λ page. page.len ≤ 2040 };
}

impl Page {
    /// Makes an empty page.
    pub fn new() -> Page
        ensures { result ≡ [] }
    {
        Page {
            bytes: [0; SIZE],
            len: 0,
        }
    }

    /// Whether one more line, with its front, fits onto the page.
    pub fn has_room(&self) -> bool
        ensures { MatchBool result (HasRoom self.now) (¬ HasRoom self.now) }
    {
        self.len <= SIZE - LONGEST
    }

    /// Clears the page.
    pub fn clear(&mut self)
        ensures { self.new ≡ [] }
    {
        self.len = 0;
    }

    /// Returns the text on the page.
    pub fn as_bytes(&self) -> &[u8]
        ensures { result.now ≡ self.now }
    {
        &self.bytes[..self.len]
    }

    /// Appends bytes to the page.
    pub fn push(&mut self, text: &[u8])
        requires { HasRoomFor (length text.now) self.old }
        ensures text { self.new ≡ self.old ++ text.now }
        ensures len { length self.new ≡ length self.old + length text.now }
    {
        let end = self.len + text.len();
        self.bytes[self.len..end].copy_from_slice(text);
        self.len = end;
    }

    /// Removes the last byte, if there is one.
    pub fn pop(&mut self)
        ensures text { (text : List ℕ) (byte : ℕ) → self.old ≡ text ++ byte ∷ [] → self.new ≡ text }
        ensures len { length self.new ≤ length self.old }
    {
        self.len = self.len.saturating_sub(1);
    }

    /// Appends a year of any number of digits.
    #[inline(never)]
    fn push_any_year(&mut self, year: i32)
        requires { HasRoomFor 11 self.old }
        ensures text { self.new ≡ self.old ++ signed_decimal year }
        ensures len { length self.new ≤ length self.old + 11 }
    {
        let mut text = TextBuffer::new();
        text.push_year(year);
        self.push(text.as_bytes());
    }

    /// Appends a year, in few steps if it has four digits.
    #[inline(always)]
    fn push_year(&mut self, year: i32)
        requires { HasRoomFor 11 self.old }
        ensures text { self.new ≡ self.old ++ signed_decimal year }
        ensures len { length self.new ≤ length self.old + 11 }
    {
        if year < 1000 || year > 9999 {
            self.push_any_year(year);
        } else {
            let (front, back) = two_pairs(year.unsigned_abs());
            self.push(&front);
            self.push(&back);
        }
    }

    /// Appends what follows the year on the line of a date time: month to second, the nanoseconds,
    /// and the suffix of its type.
    #[inline(always)]
    fn push_rest(&mut self, middle: &[u8; 16], digits: &[u8; 9], suffix: &Suffix)
        requires { HasRoomFor 57 self.old }
        ensures text { self.new ≡ self.old ++ (middle.now
            ++ (digits.now ++ suffix_text suffix.now.local_time_type)) }
        ensures len { length self.new ≤ length self.old + 57 }
    {
        let at = self.len;
        self.bytes[at..at + 16].copy_from_slice(middle);
        self.bytes[at + 16..at + 25].copy_from_slice(digits);
        self.bytes[at + 25..at + 57].copy_from_slice(&suffix.bytes);
        self.len = at + 25 + suffix.len;
    }

    /// Appends the line of a date time: the fields with these nanoseconds in the place of their
    /// own, the offset and the name of its type, and LF.
    #[inline(always)]
    pub fn push_date_time(&mut self, fields: &Fields, nanoseconds: &Nanoseconds, suffix: &Suffix)
        requires room { HasRoomFor 68 self.old }
        requires valid { IsValid fields.now }
        ensures text { (u : ℤ) → self.new ≡ self.old
            ++ (moment_text (moment_of (with_nanoseconds fields.now nanoseconds.now)
            suffix.now.local_time_type u) ++ 10 ∷ []) }
        ensures len { length self.new ≤ length self.old + 68 }
    {
        self.push_year(fields.year);
        self.push_rest(&middle_of(fields), &nanoseconds.digits, suffix);
    }
}
