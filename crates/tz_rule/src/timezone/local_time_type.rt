//! Local time types.

ghost use Rattle.std.specs.Prelude.{◌≡◌, ℕ, ◌≤◌, ◌↔◌, OnOk, IfOk, IfErr, IfSome, IsTrue, IsAscii};
ghost use Rattle.tz_rule.specs.LocalTimeType.{IsFirstTypeFault, IsLocalTimeType, IsDesignation, IsDesignationByte, plain_type, designation_text};

use std::hash::{Hash, Hasher};
use std::marker::Model;
use std::{fmt, str};
use tz_base::error::LocalTimeTypeError;

/// A name of one to seven ASCII bytes, or none, of length 0. The bytes after the name are zero.
#[repr(C)]
#[derive(Clone, Copy, Debug)]
pub(super) struct Designation {
    pub(super) bytes: [u8; 7],
    pub(super) len: u8,
}

/// A local time type: an offset that is added to UTC, a daylight flag and a name.
#[repr(C)]
#[derive(Clone, Copy)]
pub struct LocalTimeType {
    ut_offset: i32,
    is_dst: bool,
    time_zone_designation: Designation,
}

impl Model for LocalTimeType {
    ghost use Rattle.tz_rule.specs.LocalTimeType.{LocalTimeType};

    ghost Value = { LocalTimeType };

    ghost use Rattle.tz_rule.specs.KeptDesignation.{shown, kept, kept_shown, IsKeptType};

    ghost view = { shown };

    ghost invariant = { IsKeptType };

    ghost inverse = { λ t. record {
      ut_offset = t.ut_offset;
      is_dst = t.is_dst;
      time_zone_designation =
          kept t.designation;
    } };

    ghost inverse_ok = { λ t k. kept_shown t k };
}

impl PartialEq for LocalTimeType {
    ghost use Rattle.std.specs.Cmp.{partial_equiv_from_equiv};
    ghost use Rattle.tz_rule.specs.Same.{same_type, Decides-same_type, IsEquivalence-from_equality};

    ghost eq = { same_type };

    ghost laws = { partial_equiv_from_equiv
        (IsEquivalence-from_equality same_type Decides-same_type) };

    fn eq(&self, other: &LocalTimeType) -> bool {
        self.is_same(other)
    }
}

impl Eq for LocalTimeType {
    ghost use Rattle.tz_rule.specs.Same.{same_type, Decides-same_type, IsEquivalence-from_equality};

    ghost laws = { IsEquivalence-from_equality same_type Decides-same_type };
}

impl Hash for LocalTimeType {
    ghost use Rattle.std.proofs.Common.{ap};
    ghost use Rattle.tz_rule.specs.RuleHash.{type_input};
    ghost use Rattle.tz_rule.specs.Same.{Decides-same_type};

    ghost hash_input = { type_input };

    ghost respects_eq = { λ a b h. ap type_input ((Decides-same_type a b).0 h) };

    fn hash<H: Hasher>(&self, state: &mut H) {
        self.ut_offset.hash(state);
        self.is_dst.hash(state);
        self.designation().hash(state);
    }
}

impl fmt::Debug for LocalTimeType {
    fn fmt<W: fmt::Write>(&self, f: &mut fmt::Formatter<W>) -> fmt::Result {
        f.debug_struct("LocalTimeType")
            .field("ut_offset", &self.ut_offset)
            .field("is_dst", &self.is_dst)
            .field("time_zone_designation", &self.designation())
            .finish()
    }
}

/// A bit for each byte: that of `0-9A-Za-z+-` is set.
static NAME_BITS: [u32; 8] = [0, 0x03ff_2800, 0x07ff_fffe, 0x07ff_fffe, 0, 0, 0, 0];

/// Whether a name may have the byte.
const fn is_designation_byte(byte: u8) -> bool
    ensures { IsTrue result ↔ IsDesignationByte byte }
{
    NAME_BITS[(byte / 32) as usize] >> (byte % 32) & 1 == 1
}

impl Designation {
    ghost use Rattle.tz_rule.specs.KeptDesignation.{IsKept, name_of, kept, word_of};
    ghost use Rattle.tz_rule.specs.LocalTimeType.{IsDesignation, IsDesignationLength};
    ghost use Rattle.tz_base.specs.declared.error.LocalTimeTypeError.TheVariants as faults;
    ghost use Rattle.std.specs.Prelude.{All, IfOk, IfErr, OnOk, ◌⊎◌, ◌≡◌, IsAscii};

    /// No name.
    const fn none() -> Designation
        ensures { result ≡ kept None }
    {
        Designation {
            bytes: [0; 7],
            len: 0,
        }
    }

    /// Checks and stores a name.
    const fn new(name: &[u8]) -> Result<Designation, LocalTimeTypeError>
        ensures kept { IfOk result (λ d. IsKept d × (name_of d ≡ name.now) × (1 ≤ d.len)) }
        ensures err { IfErr result (λ e. ((e ≡ faults.InvalidTimeZoneDesignationLength)
            × ¬ IsDesignationLength name.now)
            ⊎ ((e ≡ faults.InvalidTimeZoneDesignationChar) × IsDesignationLength name.now
            × ¬ All IsDesignationByte name.now)) }
    {
        let len = name.len();
        if len < 1 || len > 7 {
            return Err(LocalTimeTypeError::InvalidTimeZoneDesignationLength);
        }
        let mut bytes = [0; 7];
        let mut index = 0;
        while index < len {
            if !is_designation_byte(name[index]) {
                return Err(LocalTimeTypeError::InvalidTimeZoneDesignationChar);
            }
            bytes[index] = name[index];
            index += 1;
        }
        Ok(Designation {
            bytes,
            len: len as u8,
        })
    }

    /// The bytes and the length, as one number.
    const fn word(&self) -> u64
        ensures { result ≡ word_of self.now }
    {
        let [b0, b1, b2, b3, b4, b5, b6] = self.bytes;
        u64::from_le_bytes([b0, b1, b2, b3, b4, b5, b6, self.len])
    }

    /// The bytes of the name, empty if there is no name.
    fn as_bytes(&self) -> &[u8]
        requires { IsKept self.now }
        ensures name { result.now ≡ name_of self.now }
        ensures ascii { IsAscii result.now }
    {
        self.bytes.split_at(self.len as usize).0
    }

    /// The name, empty if there is none.
    fn as_str(&self) -> &str
        requires { IsKept self.now }
        ensures { result.now ≡ name_of self.now }
    {
        unsafe { str::from_utf8_unchecked(self.as_bytes()) }
    }
}

impl LocalTimeType {
    ghost use Rattle.tz_rule.specs.LocalTimeType.{LocalTimeType, IsLocalTimeType, IsFirstTypeFault, type_of, plain_type, designation_text, IsOffset, IsDesignation};
    ghost use Rattle.tz_rule.specs.Same.{same_type};
    ghost use Rattle.std.specs.Option.{option_copied};
    ghost use Rattle.std.specs.Prelude.{pos, IfSome};
    ghost use Rattle.tz_base.specs.declared.error.LocalTimeTypeError.TheVariants as faults;

    /// The type with this offset in seconds, this daylight flag and this name of 1 to 7 bytes of
    /// `0-9A-Za-z+-`. (RFC 8536, section 3.2)
    ///
    /// Central European summer time, two hours ahead of UTC:
    ///
    /// ```rust
    /// pub fn summer_time() -> Result<LocalTimeType, TzError> {
    ///     Ok(LocalTimeType::new(7200, true, Some(b"CEST"))?)
    /// }
    /// ```
    ///
    /// # Errors
    ///
    /// The first of these:
    ///
    /// - [`LocalTimeTypeError::InvalidUtcOffset`] if the offset is `i32::MIN`;
    /// - [`LocalTimeTypeError::InvalidTimeZoneDesignationLength`] if the name does not have 1 to 7
    ///   bytes;
    /// - [`LocalTimeTypeError::InvalidTimeZoneDesignationChar`] if it has any other byte.
    pub const fn new(
        ut_offset: i32,
        is_dst: bool,
        time_zone_designation: Option<&[u8]>,
    ) -> Result<Self, LocalTimeTypeError>
        ensures value { IfOk result (λ t. t ≡ type_of ut_offset is_dst
            (option_copied time_zone_designation.entry)) }
        ensures ok { OnOk result (IsLocalTimeType (type_of ut_offset is_dst
            (option_copied time_zone_designation.entry))) }
        ensures err { IfErr result (IsFirstTypeFault
            (type_of ut_offset is_dst (option_copied time_zone_designation.entry))) }
    {
        if ut_offset == i32::MIN {
            return Err(LocalTimeTypeError::InvalidUtcOffset);
        }
        let time_zone_designation = match time_zone_designation {
            Some(name) => match Designation::new(name) {
                Ok(designation) => designation,
                Err(error) => return Err(error),
            },
            None => Designation::none(),
        };
        Ok(LocalTimeType {
            ut_offset,
            is_dst,
            time_zone_designation,
        })
    }

    /// The type of UTC, without a name.
    pub const fn utc() -> Self
        ensures { result ≡ plain_type (pos 0) }
    {
        LocalTimeType {
            ut_offset: 0,
            is_dst: false,
            time_zone_designation: Designation::none(),
        }
    }

    /// The type with this offset in seconds, without a name.
    ///
    /// # Errors
    ///
    /// [`LocalTimeTypeError::InvalidUtcOffset`] if the offset is `i32::MIN`.
    pub const fn with_ut_offset(ut_offset: i32) -> Result<Self, LocalTimeTypeError>
        ensures value { IfOk result (λ t. t ≡ plain_type ut_offset) }
        ensures ok { OnOk result (IsOffset ut_offset) }
        ensures err { IfErr result (λ e. (e ≡ faults.InvalidUtcOffset) × ¬ IsOffset ut_offset) }
    {
        LocalTimeType::new(ut_offset, false, None)
    }

    /// Seconds that are added to UTC, never `i32::MIN`.
    pub const fn ut_offset(&self) -> i32
        ensures value { result ≡ self.now.ut_offset }
        ensures range { IsOffset result }
    {
        self.ut_offset
    }

    /// Whether this is daylight saving time.
    pub const fn is_dst(&self) -> bool
        ensures { result ≡ self.now.is_dst }
    {
        self.is_dst
    }

    /// The name, empty if there is none.
    pub fn time_zone_designation(&self) -> &str
        ensures text { result.now ≡ designation_text self.now }
        ensures name { IfSome self.now.designation IsDesignation }
    {
        self.time_zone_designation.as_str()
    }

    /// Whether the other type has the same offset, daylight flag and name. This is what `==`
    /// returns, in a form that Rust can compute in a constant.
    pub const fn is_same(&self, other: &LocalTimeType) -> bool
        ensures { result ≡ same_type self.now other.now }
    {
        // The words compare the eight bytes of each name at once.
        self.ut_offset == other.ut_offset
            && self.is_dst == other.is_dst
            && self.time_zone_designation.word() == other.time_zone_designation.word()
    }

    /// The name, if there is one.
    fn designation(&self) -> Option<&str>
        ensures text { option_copied result ≡ self.now.designation }
        ensures name { IfSome self.now.designation IsDesignation }
    {
        if self.time_zone_designation.len == 0 {
            return None;
        }
        Some(self.time_zone_designation.as_str())
    }
}

/// The bytes of the type's name, empty if it has no name.
pub fn designation_bytes(local_time_type: &LocalTimeType) -> &[u8]
    ensures text { result.now ≡ designation_text local_time_type.now }
    ensures ascii { IsAscii result.now }
    ensures name { IfSome local_time_type.now.designation IsDesignation }
{
    local_time_type.time_zone_designation.as_bytes()
}
