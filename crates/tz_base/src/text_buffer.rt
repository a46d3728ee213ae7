//! Text that is made without an allocation.

ghost use Rattle.std.specs.Prelude.{◌≡◌, ◌+◌, ◌/◌, ◌%◌, ◌<◌, ◌≤◌, ◌∷◌, ◌++◌, [], length, IsUtf8, IsAscii};
ghost use Rattle.std.specs.Fmt.{decimal};
ghost use Rattle.tz_base.specs.PrintedText.{two_digits, nine_digits};

use std::marker::Model;
use std::str;

/// Text of at most 128 bytes, which is made without an allocation.
///
/// By the bounds of the contracts a TZ string has at most 114 bytes, and a printed date time 53.
#[derive(Drop)]
pub struct TextBuffer {
    bytes: [u8; 128],
    len: usize,
}

impl Model for TextBuffer {
    ghost use Rattle.std.specs.Prelude.{◌≤◌, ℕ, List, take, IsUtf8};

    ghost Value = { List ℕ };

    ghost view = { λ line. take line.len line.bytes };

    ghost invariant = { λ line. (line.len ≤ 128) × ∥ IsUtf8 (take line.len line.bytes) ∥₁ };
}

/// The last two digits of each number that a byte holds, in order: so no position in it is checked.
static PAIRS: [u8; 512] =
    *b"00010203040506070809101112131415161718192021222324252627282930313233343536373839404142434445464748495051525354555657585960616263646566676869707172737475767778798081828384858687888990919293949596979899000102030405060708091011121314151617181920212223242526272829303132333435363738394041424344454647484950515253545556575859606162636465666768697071727374757677787980818283848586878889909192939495969798990001020304050607080910111213141516171819202122232425262728293031323334353637383940414243444546474849505152535455";

/// The two digits of a number below 100.
pub fn pair_of(number: u8) -> [u8; 2]
    requires { number < 100 }
    ensures { result ≡ two_digits number }
{
    let position = usize::from(number) * 2;
    let mut pair = [0; 2];
    pair.copy_from_slice(&PAIRS[position..position + 2]);
    pair
}

/// The digits of a number that has four: the first two, and the last two.
pub fn two_pairs(number: u32) -> ([u8; 2], [u8; 2])
    requires { (1000 ≤ number) × (number < 10000) }
    ensures text { result.0 ++ result.1 ≡ decimal number }
    ensures ascii { IsAscii result.0 × IsAscii result.1 }
{
    (pair_of((number / 100) as u8), pair_of((number % 100) as u8))
}

impl TextBuffer {
    /// An empty text.
    pub const fn new() -> Self
        ensures { result ≡ [] }
    {
        TextBuffer {
            bytes: [0; 128],
            len: 0,
        }
    }

    /// Clears the text.
    pub fn clear(&mut self)
        ensures { self.new ≡ [] }
    {
        self.len = 0;
    }

    /// The text's bytes.
    pub fn as_bytes(&self) -> &[u8]
        ensures text { result.now ≡ self.now }
        ensures utf8 { IsUtf8 result.now }
        ensures len { length result.now ≤ 128 }
    {
        &self.bytes[..self.len]
    }

    /// The text.
    pub fn as_str(&self) -> &str
        ensures { result.now ≡ self.now }
    {
        unsafe { str::from_utf8_unchecked(self.as_bytes()) }
    }

    /// Appends an ASCII byte.
    pub fn push(&mut self, byte: u8)
        requires ascii { byte < 128 }
        requires room { length self.old + 1 ≤ 128 }
        ensures text { self.new ≡ self.old ++ byte ∷ [] }
        ensures len { length self.new ≡ length self.old + 1 }
    {
        self.bytes[self.len] = byte;
        self.len += 1;
    }

    /// Appends a text.
    pub fn push_str(&mut self, text: &str)
        requires { length self.old + length text.now ≤ 128 }
        ensures text { self.new ≡ self.old ++ text.now }
        ensures len { length self.new ≡ length self.old + length text.now }
    {
        let end = self.len + text.len();
        self.bytes[self.len..end].copy_from_slice(text.as_bytes());
        self.len = end;
    }

    /// Appends ASCII bytes.
    pub fn push_ascii(&mut self, bytes: &[u8])
        requires ascii { IsAscii bytes.now }
        requires room { length self.old + length bytes.now ≤ 128 }
        ensures text { self.new ≡ self.old ++ bytes.now }
        ensures len { length self.new ≡ length self.old + length bytes.now }
    {
        let end = self.len + bytes.len();
        self.bytes[self.len..end].copy_from_slice(bytes);
        self.len = end;
    }

    /// Appends a number below 100 as two digits.
    pub fn push_two_digits(&mut self, number: u8)
        requires below { number < 100 }
        requires room { length self.old + 2 ≤ 128 }
        ensures text { self.new ≡ self.old ++ two_digits number }
        ensures len { length self.new ≡ length self.old + 2 }
    {
        self.push_ascii(&pair_of(number));
    }

    /// Appends nanoseconds as nine digits.
    pub fn push_nine_digits(&mut self, number: u32)
        requires below { number < 1000000000 }
        requires room { length self.old + 9 ≤ 128 }
        ensures text { self.new ≡ self.old ++ nine_digits number }
        ensures len { length self.new ≡ length self.old + 9 }
    {
        let high = number / 10_000;
        let low = number % 10_000;
        let first = b'0' + (high / 10_000) as u8;
        let (second, third) = (
            pair_of((high % 10_000 / 100) as u8),
            pair_of((high % 100) as u8),
        );
        let (fourth, fifth) = (pair_of((low / 100) as u8), pair_of((low % 100) as u8));
        self.push_ascii(&[
            first, second[0], second[1], third[0], third[1], fourth[0], fourth[1], fifth[0],
            fifth[1],
        ]);
    }

    /// Appends the digits of a number.
    #[tactic(auto, using(crate::proofs::PrintedDigits::length_of_digits))]
    pub fn push_digits(&mut self, number: u64)
        requires { length self.old + length (decimal number) ≤ 128 }
        ensures text { self.new ≡ self.old ++ decimal number }
        ensures len { length self.new ≡ length self.old + length (decimal number) }
    {
        if number < 10 {
            self.push(b'0' + number as u8);
        } else if number < 100 {
            self.push_two_digits(number as u8);
        } else {
            self.push_digits(number / 100);
            self.push_two_digits((number % 100) as u8);
        }
    }

    /// Appends the digits of a number, of which there are ten at most.
    #[tactic(auto, using(crate::proofs::PrintedDigits::ten_digits))]
    pub fn push_decimal(&mut self, number: u32)
        requires { length self.old + 10 ≤ 128 }
        ensures text { self.new ≡ self.old ++ decimal number }
        ensures len { length self.new ≤ length self.old + 10 }
    {
        if number >= 1000 && number < 10_000 {
            let (front, back) = two_pairs(number);
            self.push_ascii(&front);
            self.push_ascii(&back);
        } else {
            self.push_digits(u64::from(number));
        }
    }

    /// Appends the digits of a count, of which there are twenty at most.
    #[tactic(auto, using(crate::proofs::PrintedDigits::twenty_digits))]
    pub fn push_count(&mut self, count: u64)
        requires { length self.old + 20 ≤ 128 }
        ensures text { self.new ≡ self.old ++ decimal count }
        ensures len { length self.new ≤ length self.old + 20 }
    {
        self.push_digits(count);
    }
}
