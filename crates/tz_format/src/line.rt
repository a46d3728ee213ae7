//! A line of text, as it is printed.

ghost use Rattle.std.specs.Prelude.{◌≡◌, ◌+◌, ◌<◌, ◌≤◌, ◌∷◌, ◌++◌, [], length, IsUtf8};
ghost use Rattle.std.specs.Fmt.{decimal};
ghost use Rattle.tz.specs.PrintedText.{two_digits};

use std::marker::Model;
use std::str;
use tz::inner::pair_of;

/// Bytes of a line, at most 128. They are text once all of them stand there: those of one
/// character come one by one.
#[derive(Drop)]
pub struct Line {
    bytes: [u8; 128],
    len: usize,
}

impl Model for Line {
    ghost use Rattle.std.specs.Prelude.{◌≤◌, ℕ, List, take};

    ghost Value = { List ℕ };

    ghost view = { λ line. take line.len line.bytes };

    ghost invariant = { λ line. line.len ≤ 128 };
}

impl Line {
    /// An empty line.
    pub fn new() -> Self
        ensures { result ≡ [] }
    {
        Line {
            bytes: [0; 128],
            len: 0,
        }
    }

    /// The bytes.
    pub fn as_bytes(&self) -> &[u8]
        ensures text { result.now ≡ self.now }
        ensures len { length result.now ≤ 128 }
    {
        &self.bytes[..self.len]
    }

    /// The text.
    pub(crate) fn as_str(&self) -> &str
        requires { IsUtf8 self.now }
        ensures { result.now ≡ self.now }
    {
        unsafe { str::from_utf8_unchecked(self.as_bytes()) }
    }

    /// Appends a byte.
    pub(crate) fn push(&mut self, byte: u8)
        requires { length self.old + 1 ≤ 128 }
        ensures text { self.new ≡ self.old ++ byte ∷ [] }
        ensures len { length self.new ≡ length self.old + 1 }
    {
        self.bytes[self.len] = byte;
        self.len += 1;
    }

    /// Appends bytes.
    pub(crate) fn push_all(&mut self, bytes: &[u8])
        requires { length self.old + length bytes.now ≤ 128 }
        ensures text { self.new ≡ self.old ++ bytes.now }
        ensures len { length self.new ≡ length self.old + length bytes.now }
    {
        let end = self.len + bytes.len();
        self.bytes[self.len..end].copy_from_slice(bytes);
        self.len = end;
    }

    /// Appends a number below 100 as two digits.
    pub(crate) fn push_two_digits(&mut self, number: u8)
        requires below { number < 100 }
        requires room { length self.old + 2 ≤ 128 }
        ensures text { self.new ≡ self.old ++ two_digits number }
        ensures len { length self.new ≡ length self.old + 2 }
    {
        self.push_all(&pair_of(number));
    }

    /// Appends the digits of a number.
    #[tactic(auto, using(crate::proofs::Digits::length_of_digits))]
    pub(crate) fn push_digits(&mut self, number: u64)
        requires { length self.old + length (decimal number) ≤ 128 }
        ensures text { self.new ≡ self.old ++ decimal number }
        ensures len { length self.new ≡ length self.old + length (decimal number) }
    {
        if number < 10 {
            self.push(b'0' + number as u8);
        } else if number < 100 {
            self.push_two_digits(number as u8);
        } else {
            self.push_digits(number / 100);
            self.push_two_digits((number % 100) as u8);
        }
    }
}
