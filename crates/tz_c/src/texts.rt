//! TZ strings, TZif files, names of zones and settings.

ghost use Rattle.std.specs.Prelude.{◌≡◌, ◌≢◌, ◌≤◌, length, pos, ◌↔◌, IsTrue, Some};
ghost use Rattle.tz_rule.specs.declared.timezone.transition_rule.TransitionRule.{TransitionRule};
ghost use Rattle.tz_zone.specs.FileSizes.{AreSizesOf};
ghost use Rattle.tz_zone.specs.Settings.{local_time};
ghost use Rattle.tz_zone.specs.Table.{Zone};
ghost use Rattle.tz_zone.specs.TzFile.{IsFramed, IsTzFile};
ghost use Rattle.tz_zone.specs.TzFileFault.{FrameFails};
ghost use Rattle.tz_zone.specs.TzText.{IsTzText};
ghost use Rattle.tz_zone.specs.TzTextFault.{IsTzTextFault};
ghost use Rattle.tz_zone.specs.ZoneNames.{IsZoneName};
ghost use Rattle.tz.specs.PrintedText.{printed_text};
ghost use Rattle.tz.specs.TzStrings.{tz_text};
ghost use Rattle.tz_c.specs.Codes.{IsAnswerOr, invalid_name, no_tz_string, IsAnswer, IsAnswerBy};
ghost use Rattle.tz_c.specs.Codes.{file_code};
ghost use Rattle.tz_c.specs.Files.{GivesTextRule};
ghost use Rattle.tz_c.specs.RuleData.{rule_given};
ghost use Rattle.tz_c.specs.Rules.{rule_of_lists};
ghost use Rattle.tz_c.specs.Settings.{IsSettingAnswer};
ghost use Rattle.tz_c.specs.Tables.{IsOnlyReadAnswer, IsReadAnswer, zone_written};
ghost use Rattle.tz_c.specs.Texts.{IsTextAnswer, IsRuleTextAnswer};

use crate::codes::{
    BUFFER_LENGTH, EMPTY_STRING, INVALID_NAME, NO_RULE, NO_TZ_STRING, OK, code_of, file_code,
};
use crate::rule_data::{RuleData, rule_of};
use crate::zones::{OffsetsData, rule_of_lists};
use std::alloc::Global;
use std::str;
use tz::inner::{TextBuffer, fields_of, utc_fields_of};
use tz::{DateTime, TzString, UtcDateTime};
use tz_rule::inner::AlternateData;
use tz_rule::timezone::LocalTimeType;
use tz_zone::inner::{FileSizes, ZoneData, file_sizes, parse_posix_tz};
use tz_zone::timezone::{LeapSecond, TimeZone, Transition, is_zone_name};

/// Copies a text to a buffer and stores its length, if there is room.
pub(crate) fn write_text(given: &[u8], text: &mut [u8], len: &mut usize) -> u32
    ensures answer { IsTextAnswer given.now result text.old text.new len.new }
    ensures text_kept { result ≢ 0 → text.new ≡ text.old }
    ensures len_kept { result ≢ 0 → len.new ≡ len.old }
{
    if given.len() > text.len() {
        return BUFFER_LENGTH;
    }
    text[..given.len()].copy_from_slice(given);
    *len = given.len();
    OK
}

/// The date time of UTC as its `Display` prints it.
#[unsafe(no_mangle)]
pub extern "C" fn tz_utc_text(utc: &UtcDateTime, text: &mut [u8], len: &mut usize) -> u32
    ensures answer { IsTextAnswer (printed_text utc.now (pos 0)) result text.old text.new len.new }
    ensures most { length (printed_text utc.now (pos 0)) ≤ 53 }
    ensures text_kept { result ≢ 0 → text.new ≡ text.old }
    ensures len_kept { result ≢ 0 → len.new ≡ len.old }
{
    let mut line = TextBuffer::new();
    line.push_date_time(utc_fields_of(utc), 0);
    write_text(line.as_bytes(), text, len)
}

/// The date time as its `Display` prints it.
#[unsafe(no_mangle)]
pub extern "C" fn tz_date_time_text(date_time: &DateTime, text: &mut [u8], len: &mut usize) -> u32
    ensures answer { IsTextAnswer (printed_text date_time.now.fields
        date_time.now.local_time_type.ut_offset)
        result text.old text.new len.new }
    ensures most { let ut_offset = date_time.now.local_time_type.ut_offset in
        length (printed_text date_time.now.fields ut_offset) ≤ 53 }
    ensures text_kept { result ≢ 0 → text.new ≡ text.old }
    ensures len_kept { result ≢ 0 → len.new ≡ len.old }
{
    let mut line = TextBuffer::new();
    let ut_offset = date_time.local_time_type().ut_offset();
    line.push_date_time(fields_of(date_time), ut_offset);
    write_text(line.as_bytes(), text, len)
}

/// The TZ string of a rule, as `TzString::from_rule` writes it.
#[unsafe(no_mangle)]
pub extern "C" fn tz_rule_text(
    fixed: &[LocalTimeType],
    alternate: &[AlternateData],
    text: &mut [u8],
    len: &mut usize,
) -> u32
    ensures answer { IsRuleTextAnswer (rule_of_lists fixed.now alternate.now) result text.old
        text.new len.new }
    ensures most { (rule : TransitionRule) → rule_of_lists fixed.now alternate.now ≡ Some rule
        → result ≢ no_tz_string → length (tz_text rule) ≤ 114 }
    ensures text_kept { result ≢ 0 → text.new ≡ text.old }
    ensures len_kept { result ≢ 0 → len.new ≡ len.old }
{
    let Some(rule) = rule_of_lists(fixed, alternate) else {
        return NO_RULE;
    };
    match TzString::from_rule(&rule_of(rule)) {
        Some(string) => write_text(string.as_str().as_bytes(), text, len),
        None => NO_TZ_STRING,
    }
}

/// Whether the text is a name of a time zone, as `is_zone_name` returns.
#[unsafe(no_mangle)]
pub extern "C" fn tz_name_check(name: &[u8]) -> u32
    ensures { IsAnswerOr result invalid_name (IsZoneName name.now) (¬ IsZoneName name.now) }
{
    match str::from_utf8(name) {
        Ok(text) => { if is_zone_name(text) { OK } else { INVALID_NAME } }
        Err(_) => INVALID_NAME,
    }
}

/// How the text of a setting, such as that of `TZ`, names a zone, and which bytes of it are the
/// name.
#[repr(C)]
#[derive(Clone, Copy)]
pub struct SettingData {
    /// 0: the machine's local time, 1: a file, 2: a file or a TZ string.
    kind: u32,
    /// The index of the name's first byte in the text.
    from: usize,
    /// The index after the name's last byte.
    until: usize,
}

/// Whether the text means the machine's local time.
fn is_local_time(text: &[u8]) -> bool
    ensures { IsTrue result ↔ (text.now ≡ local_time) }
{
    text == b"localtime".as_slice()
}

/// How the text of a setting names a zone.
#[unsafe(no_mangle)]
pub extern "C" fn tz_setting_read(text: &[u8], out: &mut SettingData) -> u32
    ensures answer { IsSettingAnswer text.now result out.new }
    ensures kept { result ≢ 0 → out.new ≡ out.old }
{
    if text.is_empty() {
        return EMPTY_STRING;
    }
    if is_local_time(text) {
        *out = SettingData {
            kind: 0,
            from: 0,
            until: 0,
        };
        return OK;
    }
    let is_file = text[0] == b':';
    *out = SettingData {
        kind: if is_file { 1 } else { 2 },
        from: if is_file { 1 } else { 0 },
        until: text.len(),
    };
    OK
}

/// The sizes of a TZif file, by its headers alone.
#[unsafe(no_mangle)]
pub extern "C" fn tz_file_sizes(bytes: &[u8], out: &mut FileSizes) -> u32
    ensures answer { IsAnswerBy file_code result (IsFramed bytes.now × AreSizesOf bytes.now out.new)
        (FrameFails bytes.now) }
    ensures kept { result ≢ 0 → out.new ≡ out.old }
{
    match file_sizes(bytes) {
        Ok(sizes) => {
            *out = sizes;
            OK
        }
        Err(error) => file_code(&error),
    }
}

/// The parts of a TZif file, and the least and the greatest offset of its zone.
#[unsafe(no_mangle)]
pub extern "C" fn tz_file_read(
    alloc: Global,
    bytes: &[u8],
    transitions: &mut [Transition],
    local_time_types: &mut [LocalTimeType],
    leap_seconds: &mut [LeapSecond],
    rule: &mut RuleData,
    out: &mut OffsetsData,
) -> u32
    ensures answer { let zone = zone_written transitions.new local_time_types.new leap_seconds.new
        rule.new in
        IsReadAnswer bytes.now result zone rule.new.kind out.new }
    ensures only { (zone : Zone) → IsTzFile bytes.now zone → IsOnlyReadAnswer zone result
        (zone_written transitions.new local_time_types.new leap_seconds.new rule.new) }
    ensures transitions_kept { result ≢ 0 → transitions.new ≡ transitions.old }
    ensures types_kept { result ≢ 0 → local_time_types.new ≡ local_time_types.old }
    ensures leap_seconds_kept { result ≢ 0 → leap_seconds.new ≡ leap_seconds.old }
    ensures rule_of_source { result ≢ 0 → rule.new ≡ rule.old }
    ensures offsets_kept { result ≢ 0 → out.new ≡ out.old }
{
    match TimeZone::from_tz_data(alloc, bytes) {
        Ok(zone) => {
            let read = zone.as_ref();
            if read.transitions().len() != transitions.len()
                || read.local_time_types().len() != local_time_types.len()
                || read.leap_seconds().len() != leap_seconds.len()
            {
                return BUFFER_LENGTH;
            }
            transitions.copy_from_slice(read.transitions());
            local_time_types.copy_from_slice(read.local_time_types());
            leap_seconds.copy_from_slice(read.leap_seconds());
            *rule = RuleData::of(read.extra_rule());
            let (least, greatest) = ZoneData::of(&read).offsets();
            *out = OffsetsData { least, greatest };
            OK
        }
        Err(error) => code_of(&error),
    }
}

/// The rule of a TZ string, ordinary or extended, without white space at its ends.
#[unsafe(no_mangle)]
pub extern "C" fn tz_string_read(text: &[u8], is_extended: bool, out: &mut RuleData) -> u32
    ensures answer { IsAnswer result (GivesTextRule is_extended text.now out.new)
        (IsTzTextFault is_extended text.now) }
    ensures only { (rule : TransitionRule) → IsTzText is_extended text.now rule
        → (result ≡ 0) × (rule_given out.new ≡ Some rule) }
    ensures kept { result ≢ 0 → out.new ≡ out.old }
{
    match parse_posix_tz(text, is_extended) {
        Ok(rule) => {
            *out = RuleData::of(&Some(rule));
            OK
        }
        Err(error) => code_of(&error),
    }
}
