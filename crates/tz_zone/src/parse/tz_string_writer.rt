//! Writes the TZ strings of rules.

ghost use Rattle.std.specs.Prelude.{◌≡◌, ◌≢◌, ◌≤◌, ◌<◌, ◌+◌, ◌++◌, ◌∷◌, ℕ, pos, ◌+ℤ◌, Bool, false, List, length, IfSome, IfNone, IsAscii, MatchBool};
ghost use Rattle.std.specs.Char.{is_ascii_alphabetic};
ghost use Rattle.std.specs.Fmt.{decimal};
ghost use Rattle.std.specs.List.{list_all};
ghost use Rattle.tz_rule.specs.LocalTimeType.{IsDesignation};
ghost use Rattle.tz_zone.specs.Bytes.{comma};
ghost use Rattle.tz_zone.specs.TzText.{IsTzText};
ghost use Rattle.tz_zone.specs.TzStrings.{minutes_text, plain_time_text, signed_time_text, offset_of_text, is_bare, name_text, day_text, turn_text, name_and_offset_text, daylight_text, tz_text, IsShortOffset, IsStandardText, IsDaylightText, IsWritable, AreNamed, is_extended};

use crate::parse::tz_string::{DEFAULT_HOUR, DEFAULT_SAVING};
use std::fmt;
use std::marker::Model;
use tz_base::text_buffer::TextBuffer;
use tz_rule::inner::designation_bytes;
use tz_rule::laws::rule_parts_are_sound;
use tz_rule::timezone::{AlternateTime, LocalTimeType, RuleDay, TransitionRule};

/// The TZ string of a rule, which is made without an allocation. (POSIX.1-2017, Base Definitions,
/// 8.3)
#[derive(Drop)]
pub struct TzString {
    text: TextBuffer,
}

impl Model for TzString {
    ghost use Rattle.std.specs.Prelude.{ℕ, List};

    ghost Value = { List ℕ };

    ghost view = { λ s. s.text };
}

/// Seconds of an hour.
const HOUR: u32 = 3600;

/// The default time of day of a start or an end in a TZ string, in seconds.
const DEFAULT_TIME: i32 = 3600 * DEFAULT_HOUR as i32;

/// The least offset in seconds that a TZ string cannot have.
const LONG_OFFSET: i32 = 90_000;

/// Appends a number of at most three digits.
#[tactic(auto, using(crate::proofs::TzStringTexts::three_digits))]
fn push_number(buffer: &mut TextBuffer, number: u16)
    requires below { number < 1000 }
    requires room { length buffer.old + 3 ≤ 128 }
    ensures text { buffer.new ≡ buffer.old ++ decimal number }
    ensures len { length buffer.new ≤ length buffer.old + 3 }
{
    buffer.push_digits(u64::from(number));
}

/// Appends :mm or :mm:ss of seconds of an hour, unless there are none.
#[tactic(auto, unfolding(crate::specs::TzStrings::minutes_text))]
fn push_minutes(buffer: &mut TextBuffer, seconds: u16)
    requires below { seconds < 3600 }
    requires room { length buffer.old + 6 ≤ 128 }
    ensures text { buffer.new ≡ buffer.old ++ minutes_text seconds }
    ensures len { length buffer.new ≤ length buffer.old + 6 }
{
    if seconds != 0 {
        buffer.push(b':');
        buffer.push_two_digits((seconds / 60) as u8);
        buffer.push_seconds((seconds % 60) as u8);
    }
}

/// Appends h, h:mm or h:mm:ss.
#[tactic(auto, unfolding(crate::specs::TzStrings::plain_time_text))]
fn push_plain_time(buffer: &mut TextBuffer, seconds: u32)
    requires { length buffer.old + 16 ≤ 128 }
    ensures text { buffer.new ≡ buffer.old ++ plain_time_text seconds }
    ensures len { length buffer.new ≤ length buffer.old + 16 }
{
    buffer.push_decimal(seconds / HOUR);
    push_minutes(buffer, (seconds % HOUR) as u16);
}

/// Appends a time after its sign, if it has one.
fn push_time(buffer: &mut TextBuffer, seconds: i32)
    requires { length buffer.old + 17 ≤ 128 }
    ensures text { buffer.new ≡ buffer.old ++ signed_time_text seconds }
    ensures len { length buffer.new ≤ length buffer.old + 17 }
{
    if seconds < 0 {
        buffer.push(b'-');
    }
    push_plain_time(buffer, seconds.unsigned_abs());
}

/// Whether the offset is at most 24:59:59 either way.
fn is_short_offset(ut_offset: i32) -> bool
    ensures { MatchBool result (IsShortOffset ut_offset) (¬ IsShortOffset ut_offset) }
{
    -LONG_OFFSET < ut_offset && ut_offset < LONG_OFFSET
}

/// Appends an offset with POSIX's sign: west of Greenwich is positive.
fn push_offset(buffer: &mut TextBuffer, ut_offset: i32)
    requires short { IsShortOffset ut_offset }
    requires room { length buffer.old + 17 ≤ 128 }
    ensures text { buffer.new ≡ buffer.old ++ offset_of_text ut_offset }
    ensures len { length buffer.new ≤ length buffer.old + 17 }
{
    push_time(buffer, -ut_offset);
}

/// Whether all bytes are ASCII letters.
fn are_letters(bytes: &[u8]) -> bool
    ensures { result ≡ list_all is_ascii_alphabetic bytes.now }
{
    bytes.iter().all(|byte| byte.is_ascii_alphabetic())
}

/// Whether a name needs no angle brackets.
#[tactic(auto, unfolding(crate::specs::TzStrings::is_bare))]
fn is_bare_name(name: &[u8]) -> bool
    ensures { result ≡ is_bare name.now }
{
    name.len() > 2 && are_letters(name)
}

/// Appends a name, in angle brackets if it needs them.
#[tactic(auto, unfolding(crate::specs::TzStrings::name_text))]
fn push_name(buffer: &mut TextBuffer, name: &[u8])
    requires short { length name.now ≤ 7 }
    requires ascii { IsAscii name.now }
    requires room { length buffer.old + 9 ≤ 128 }
    ensures text { buffer.new ≡ buffer.old ++ name_text name.now }
    ensures len { length buffer.new ≤ length buffer.old + 9 }
{
    if is_bare_name(name) {
        buffer.push_ascii(name);
    } else {
        buffer.push(b'<');
        buffer.push_ascii(name);
        buffer.push(b'>');
    }
}

/// Appends Jn, n or Mm.w.d.
#[tactic(auto, unfolding(crate::specs::TzStrings::day_text))]
fn push_day(buffer: &mut TextBuffer, day: &RuleDay)
    requires { length buffer.old + 12 ≤ 128 }
    ensures text { buffer.new ≡ buffer.old ++ day_text day.now }
    ensures len { length buffer.new ≤ length buffer.old + 12 }
{
    match day {
        RuleDay::Julian1WithoutLeap(day) => {
            buffer.push(b'J');
            push_number(buffer, day.get());
        }
        RuleDay::Julian0WithLeap(day) => push_number(buffer, day.get()),
        RuleDay::MonthWeekDay(day) => {
            buffer.push(b'M');
            push_number(buffer, u16::from(day.month()));
            buffer.push(b'.');
            push_number(buffer, u16::from(day.week()));
            buffer.push(b'.');
            push_number(buffer, u16::from(day.week_day()));
        }
    }
}

/// Appends a day on which daylight saving time starts or ends: a comma, the day, and after a slash
/// the time of day, unless it is two o'clock.
fn push_switch(buffer: &mut TextBuffer, day: &RuleDay, time: i32)
    requires { length buffer.old + 31 ≤ 128 }
    ensures text { buffer.new ≡ buffer.old ++ comma ∷ turn_text day.now time }
    ensures len { length buffer.new ≤ length buffer.old + 31 }
{
    buffer.push(b',');
    push_day(buffer, day);
    if time != DEFAULT_TIME {
        buffer.push(b'/');
        push_time(buffer, time);
    }
}

/// Appends the name of a type and its offset.
fn push_name_and_offset(buffer: &mut TextBuffer, local_time_type: &LocalTimeType)
    requires short { IsShortOffset local_time_type.now.ut_offset }
    requires room { length buffer.old + 26 ≤ 128 }
    ensures text { buffer.new ≡ buffer.old ++ name_and_offset_text local_time_type.now }
    ensures len { length buffer.new ≤ length buffer.old + 26 }
{
    push_name(buffer, designation_bytes(local_time_type));
    push_offset(buffer, local_time_type.ut_offset());
}

/// Appends the daylight name, its offset unless it is an hour more than the standard one, the start
/// and the end.
fn push_daylight(buffer: &mut TextBuffer, rule: &AlternateTime)
    requires std { IsShortOffset rule.now.std.ut_offset }
    requires dst { rule.now.dst.ut_offset ≢ rule.now.std.ut_offset +ℤ pos 3600
        → IsShortOffset rule.now.dst.ut_offset }
    requires room { length buffer.old + 88 ≤ 128 }
    ensures text { buffer.new ≡ buffer.old ++ daylight_text rule.now }
    ensures len { length buffer.new ≤ length buffer.old + 88 }
{
    push_name(buffer, designation_bytes(rule.dst()));
    if rule.dst().ut_offset() != rule.std().ut_offset() + DEFAULT_SAVING {
        push_offset(buffer, rule.dst().ut_offset());
    }
    push_switch(buffer, rule.dst_start(), rule.dst_start_time());
    push_switch(buffer, rule.dst_end(), rule.dst_end_time());
}

/// Whether a TZ string can begin with the type.
fn is_standard(local_time_type: &LocalTimeType) -> bool
    ensures { MatchBool result
        (IsStandardText local_time_type.now × IfSome local_time_type.now.designation IsDesignation)
        (¬ IsStandardText local_time_type.now) }
{
    !local_time_type.is_dst()
        && !designation_bytes(local_time_type).is_empty()
        && is_short_offset(local_time_type.ut_offset())
}

/// Whether a TZ string can have the type as daylight saving time after standard time with the
/// offset `std`.
fn is_daylight(std: i32, local_time_type: &LocalTimeType) -> bool
    requires { IsShortOffset std }
    ensures { MatchBool result
        (IsDaylightText std local_time_type.now
        × IfSome local_time_type.now.designation IsDesignation)
        (¬ IsDaylightText std local_time_type.now) }
{
    local_time_type.is_dst()
        && !designation_bytes(local_time_type).is_empty()
        && (is_short_offset(local_time_type.ut_offset())
            || local_time_type.ut_offset() == std + DEFAULT_SAVING)
}

/// Whether there is a TZ string of the rule.
fn is_writable(rule: &TransitionRule) -> bool
    ensures { MatchBool result (IsWritable rule.now × AreNamed rule.now) (¬ IsWritable rule.now) }
{
    match rule {
        TransitionRule::Fixed(fixed) => is_standard(fixed),
        TransitionRule::Alternate(rule) => {
            is_standard(rule.std()) && is_daylight(rule.std().ut_offset(), rule.dst())
        }
    }
}

impl TzString {
    /// The TZ string of the rule, or `None` if no TZ string denotes it: a type has no name, its
    /// daylight flag does not match its role, or its offset is 25 hours or more in either direction
    /// and not the default.
    ///
    /// The string is extended only if the rule has a time of day below 0:00 or above 24:59:59.
    /// Names of three letters or more are written without angle brackets. Minutes and seconds that
    /// are zero, the time of day 2:00, and a daylight offset of an hour more than the standard one
    /// are omitted. (POSIX.1-2017, Base Definitions, 8.3; RFC 8536, section 3.3.1)
    ///
    /// The TZ string of the rule of a zone, if it has one:
    ///
    /// ```rust
    /// pub fn rule_text(zone: TimeZoneRef<'_>) -> Option<TzString> {
    ///     match zone.extra_rule() {
    ///         Some(rule) => TzString::from_rule(rule),
    ///         None => None,
    ///     }
    /// }
    /// ```
    pub fn from_rule(rule: &TransitionRule) -> Option<TzString>
        ensures text { IfSome result (λ text. text ≡ tz_text rule.now) }
        ensures denotes { IfSome result (λ text. IsTzText (is_extended rule.now) text rule.now) }
        ensures length { IfSome result (λ text. length text ≤ 114) }
        ensures ordinary { (text : List ℕ) → IsTzText false text rule.now
            → is_extended rule.now ≡ false }
        ensures none { IfNone result ((extended : Bool) (text : List ℕ)
            → ¬ IsTzText extended text rule.now) }
    {
        rule_parts_are_sound(rule);
        if !is_writable(rule) {
            return None;
        }
        let mut text = TextBuffer::new();
        match rule {
            TransitionRule::Fixed(fixed) => push_name_and_offset(&mut text, fixed),
            TransitionRule::Alternate(rule) => {
                push_name_and_offset(&mut text, rule.std());
                push_daylight(&mut text, rule);
            }
        }
        Some(TzString { text })
    }

    /// The text.
    pub fn as_str(&self) -> &str
        ensures { result.now ≡ self.now }
    {
        self.text.as_str()
    }
}

impl PartialEq for TzString {
    ghost use Rattle.std.specs.Prelude.{nat_eq};
    ghost use Rattle.std.specs.Cmp.{partial_equiv_from_equiv};
    ghost use Rattle.std.specs.Cmp.Lexicographic.{pointwise, nat_list_eq_equiv};

    ghost eq = { pointwise nat_eq };

    ghost laws = { partial_equiv_from_equiv nat_list_eq_equiv };

    fn eq(&self, other: &TzString) -> bool {
        self.as_str() == other.as_str()
    }
}

impl Eq for TzString {
    ghost use Rattle.std.specs.Cmp.Lexicographic.{nat_list_eq_equiv};

    ghost laws = { nat_list_eq_equiv };
}

impl fmt::Debug for TzString {
    fn fmt<W: fmt::Write>(&self, f: &mut fmt::Formatter<W>) -> fmt::Result {
        f.debug_tuple("TzString").field(&self.as_str()).finish()
    }
}

/// Prints the text. The format's width plays no part.
impl fmt::Display for TzString {
    ghost use Rattle.std.specs.Prelude.{Some};

    ghost output = { λ text. Some text };

    ghost styled_output = { λ text _. Some text };

    fn fmt<W: fmt::Write>(&self, f: &mut fmt::Formatter<W>) -> fmt::Result {
        f.write_str(self.as_str())
    }
}
