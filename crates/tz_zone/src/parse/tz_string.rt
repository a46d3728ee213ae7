//! TZ strings: numbers, names and offsets, the days and times at which daylight saving time starts
//! and ends, whole rules, and zones of these. (POSIX.1-2017, Base Definitions, 8.3)

ghost use Rattle.std.specs.Prelude.{◌≡◌, ◌∷◌, MatchResult, [], ◌+◌, ◌^◌, ◌<◌, ◌≤◌, take_while};
ghost use Rattle.std.specs.Prelude.{IfSome, MatchOption, ℕ, List, Bool, false, Some, IfOk, IfErr};
ghost use Rattle.std.specs.Prelude.{pos, alloc_error, ◌⊎◌, Ok, Err};
ghost use Rattle.std.specs.Char.{is_ascii_digit, is_ascii_alphabetic};
ghost use Rattle.tz_base.specs.declared.error.Error.TheVariants.{Tz};
ghost use Rattle.tz_base.specs.declared.error.ParseDataError.{ParseDataError};
ghost use Rattle.tz_base.specs.declared.error.ParseDataError.TheVariants.{UnexpectedEof};
ghost use Rattle.tz_base.specs.declared.error.TransitionRuleError.TheVariants.{InvalidRuleDayJulianDay};
ghost use Rattle.tz_base.specs.declared.error.TzError.TheVariants.{TzString, Memory as NoMemory};
ghost use Rattle.tz_base.specs.declared.error.TzStringError.TheVariants.{ParseData};
ghost use Rattle.tz_rule.specs.Alternate.{IsRuleOffset};
ghost use Rattle.tz_rule.specs.RuleDayNumbers.{IsJulianDay, IsZeroBasedDay};
ghost use Rattle.tz_rule.specs.LocalTimeType.{IsDesignation, IsFirstTypeFault, type_of};
ghost use Rattle.tz_rule.specs.MonthWeek.{IsMonthWeek, month_week};
ghost use Rattle.tz_rule.specs.RuleDays.{IsRuleDay};
ghost use Rattle.tz_rule.specs.declared.timezone.transition_rule.TransitionRule.{TransitionRule};
ghost use Rattle.tz_zone.specs.Bytes.{comma, slash};
ghost use Rattle.tz_zone.specs.Settings.{IsTextAnswer, rule_zone};
ghost use Rattle.tz_zone.specs.TzText.{IsNumber, IsRun, IsName, is_in_brackets, IsTimeUpTo};
ghost use Rattle.tz_zone.specs.TzText.{offset_hours, IsPart, IsHms, IsSign, Begins, IsSignedTime};
ghost use Rattle.tz_zone.specs.TzText.{IsDaylightOffset, IsMonthWeekText, IsDay, IsDayTimeSign};
ghost use Rattle.tz_zone.specs.TzText.{IsDayTime, day_time_hours, IsRuleText, IsRuleInRange};
ghost use Rattle.tz_zone.specs.TzText.{IsTimeOfRule, plain_time, IsTzText};
ghost use Rattle.tz_zone.specs.TzTextFault.{IsMissingByte, IsNumberFault, IsUnclosed, IsPartFault};
ghost use Rattle.tz_zone.specs.TzTextFault.{IsTimeFault, IsTimeAbove, IsOffsetFault, offset_faults};
ghost use Rattle.tz_zone.specs.TzTextFault.{IsDayNumberFault, IsMonthWeekDayFault, IsDayFault};
ghost use Rattle.tz_zone.specs.TzTextFault.{IsDayTimeFault, day_time_faults, IsRuleTextFault};
ghost use Rattle.tz_zone.specs.TzTextFault.{IsLastRuleFault, IsRulesFault, IsDaylightFault};
ghost use Rattle.tz_zone.specs.TzTextFault.{IsTzTextFault};
ghost use Rattle.tz_zone.specs.ZoneRef.{own_zone_of};

use super::after_byte;
use crate::timezone::TimeZone;
use std::alloc::Allocator;
use std::str;
use tz_base::error::{Error, LocalTimeTypeError, ParseDataError, TzError, TzStringError};
use tz_rule::timezone::{
    AlternateTime, Julian0WithLeap, Julian1WithoutLeap, LocalTimeType, MonthWeekDay, RuleDay,
    TransitionRule,
};

/// The bytes after a byte, which must come first.
fn expect_byte(text: &[u8], byte: u8) -> Result<&[u8], TzStringError>
    ensures { MatchResult result (λ rest. text.now ≡ byte ∷ rest.now) (λ e. (f : ParseDataError)
        × (e ≡ TzStringError.ParseData f) × IsMissingByte byte text.now f) }
{
    if text.is_empty() {
        return Err(TzStringError::ParseData(ParseDataError::UnexpectedEof));
    }
    match after_byte(text, byte) {
        Some(rest) => Ok(rest),
        None => Err(TzStringError::ParseData(ParseDataError::InvalidData)),
    }
}

/// The longest run of digits at the beginning, and the rest of the bytes.
fn split_digits(text: &[u8]) -> (&[u8], &[u8])
    ensures { IsRun is_ascii_digit text.now result.0.now result.1.now }
{
    let len = text.iter().take_while(|byte| byte.is_ascii_digit()).count();
    text.split_at(len)
}

/// The value of the first byte, if it is a digit, and the rest of the bytes.
fn after_digit(text: &[u8]) -> Option<(u8, &[u8])>
    ensures { MatchOption result (take_while is_ascii_digit text.now ≡ [])
        (λ p. (text.now ≡ (p.0 + 48) ∷ p.1.now) × (p.0 ≤ 9)) }
{
    match text {
        [first, rest @ ..] if first.is_ascii_digit() => Some((*first - b'0', rest)),
        _ => None,
    }
}

/// The number at the beginning, if it has one digit or two, as most numbers of a string have, and
/// the rest of the bytes.
#[inline(always)]
fn read_two_digits(text: &[u8]) -> Option<(u8, &[u8])>
    ensures { IfSome result (λ p. IsNumber text.now p.0 p.1.now) }
{
    let (first, rest) = after_digit(text)?;
    let Some((second, after)) = after_digit(rest) else {
        return Some((first, rest));
    };
    match after_digit(after) {
        Some(_) => None,
        None => Some((10 * first + second, after)),
    }
}

/// The longest run of digits at the beginning, as a text, and the rest of the bytes.
fn read_digits(text: &[u8]) -> (&str, &[u8])
    ensures { IsRun is_ascii_digit text.now result.0.now result.1.now }
{
    let (digits, rest) = split_digits(text);
    (unsafe { str::from_utf8_unchecked(digits) }, rest)
}

/// A number of hours, minutes or seconds of any length, which fits 31 bits, and the rest of the
/// bytes.
fn read_long_time_number(text: &[u8]) -> Result<(u32, &[u8]), TzStringError>
    ensures { MatchResult result (λ p. IsNumber text.now p.0 p.1.now × (p.0 < 2 ^ 31))
        (IsNumberFault 31 text.now) }
{
    let (digits, rest) = read_digits(text);
    let number = digits.parse::<i32>()?;
    Ok((number as u32, rest))
}

/// The number of a day of the year of any length, and the rest of the bytes.
fn read_long_year_day(text: &[u8]) -> Result<(u16, &[u8]), TzStringError>
    ensures { MatchResult result (λ p. IsNumber text.now p.0 p.1.now) (IsNumberFault 16 text.now) }
{
    let (digits, rest) = read_digits(text);
    Ok((digits.parse::<u16>()?, rest))
}

/// The number of a month, a week or a week day of any length, and the rest of the bytes.
fn read_long_date_number(text: &[u8]) -> Result<(u8, &[u8]), TzStringError>
    ensures { MatchResult result (λ p. IsNumber text.now p.0 p.1.now) (IsNumberFault 8 text.now) }
{
    let (digits, rest) = read_digits(text);
    Ok((digits.parse::<u8>()?, rest))
}

/// A number of hours, minutes or seconds, which fits 31 bits, and the rest of the bytes.
#[inline(always)]
fn read_time_number(text: &[u8]) -> Result<(u32, &[u8]), TzStringError>
    ensures { MatchResult result (λ p. IsNumber text.now p.0 p.1.now × (p.0 < 2 ^ 31))
        (IsNumberFault 31 text.now) }
{
    match read_two_digits(text) {
        Some((number, rest)) => Ok((u32::from(number), rest)),
        None => read_long_time_number(text),
    }
}

/// The number of a day of the year, and the rest of the bytes.
fn read_year_day(text: &[u8]) -> Result<(u16, &[u8]), TzStringError>
    ensures { MatchResult result (λ p. IsNumber text.now p.0 p.1.now) (IsNumberFault 16 text.now) }
{
    match read_two_digits(text) {
        Some((number, rest)) => Ok((u16::from(number), rest)),
        None => read_long_year_day(text),
    }
}

/// The number of a month, a week or a week day, and the rest of the bytes.
fn read_date_number(text: &[u8]) -> Result<(u8, &[u8]), TzStringError>
    ensures { MatchResult result (λ p. IsNumber text.now p.0 p.1.now) (IsNumberFault 8 text.now) }
{
    match read_two_digits(text) {
        Some((number, rest)) => Ok((number, rest)),
        None => read_long_date_number(text),
    }
}

/// The longest run of ASCII letters at the beginning, and the rest of the bytes.
fn split_letters(text: &[u8]) -> (&[u8], &[u8])
    ensures { IsRun is_ascii_alphabetic text.now result.0.now result.1.now }
{
    let len = text
        .iter()
        .take_while(|byte| byte.is_ascii_alphabetic())
        .count();
    text.split_at(len)
}

/// The bytes before the first closing angle bracket, and the bytes from there on.
fn split_at_bracket(text: &[u8]) -> (&[u8], &[u8])
    ensures { IsRun is_in_brackets text.now result.0.now result.1.now }
{
    let len = text.iter().take_while(|byte| **byte != b'>').count();
    text.split_at(len)
}

/// The name at the beginning, and the rest of the bytes.
fn read_name(text: &[u8]) -> Result<(&[u8], &[u8]), TzStringError>
    ensures { MatchResult result (λ p. IsName text.now p.0.now p.1.now)
        (λ e. (e ≡ ParseData UnexpectedEof) × IsUnclosed text.now) }
{
    let Some(quoted) = after_byte(text, b'<') else {
        return Ok(split_letters(text));
    };
    let (name, rest) = split_at_bracket(quoted);
    match after_byte(rest, b'>') {
        Some(rest) => Ok((name, rest)),
        None => Err(TzStringError::ParseData(ParseDataError::UnexpectedEof)),
    }
}

/// The greatest hour of an offset, and of a day time in an ordinary string.
const DAY_HOURS: u32 = 24;

/// The greatest hour of a day time in an extended string.
const EXTENDED_HOURS: u32 = 167;

/// The greatest minute, and the greatest second.
const LAST_OF_SIXTY: u32 = 59;

/// A time as it is written: whether it has a minus sign, and its numbers.
#[derive(Clone, Copy)]
struct WrittenTime {
    minus: bool,
    hours: u32,
    minutes: u32,
    seconds: u32,
}

impl WrittenTime {
    ghost use Rattle.tz_zone.specs.TzText.{IsTimeUpTo, seconds_of};

    /// The time in seconds, less than a week either way.
    const fn total_seconds(self) -> i32
        requires { IsTimeUpTo 167 self }
        ensures { result ≡ seconds_of self }
    {
        let seconds = (3600 * self.hours + 60 * self.minutes + self.seconds) as i32;
        if self.minus { -seconds } else { seconds }
    }
}

impl WrittenTime {
    ghost use Rattle.tz_rule.specs.Alternate.{IsRuleOffset};
    ghost use Rattle.tz_zone.specs.TzText.{ut_offset_of, daylight_offset_of};

    /// The offset from UTC in seconds. In a string its sign is the opposite: west of Greenwich is
    /// positive.
    const fn ut_offset(self) -> i32
        requires { IsTimeUpTo offset_hours self }
        ensures value { result ≡ ut_offset_of self }
        ensures range { IsRuleOffset result }
    {
        -self.total_seconds()
    }

    /// The offset of daylight saving time from UTC in seconds, if `self` is that of standard time:
    /// the written one, or an hour more than that of standard time if none is written.
    fn daylight_ut_offset(self, daylight: Option<WrittenTime>) -> i32
        requires std { IsTimeUpTo offset_hours self }
        requires dst { IfSome daylight (IsTimeUpTo offset_hours) }
        ensures value { result ≡ daylight_offset_of self daylight }
        ensures range { IsRuleOffset result }
    {
        match daylight {
            Some(offset) => offset.ut_offset(),
            None => self.ut_offset() + DEFAULT_SAVING,
        }
    }
}

/// The number after a colon, or 0 if there is no colon, and the rest of the bytes.
#[inline(always)]
fn read_part(text: &[u8]) -> Result<(u32, &[u8]), TzStringError>
    ensures { MatchResult result (λ p. IsPart text.now p.0 p.1.now) (IsPartFault text.now) }
{
    match after_byte(text, b':') {
        Some(number) => read_time_number(number),
        None => Ok((0, text)),
    }
}

/// Hours, minutes and seconds after a sign that has been read, and the rest of the bytes.
#[inline(always)]
fn read_hms(text: &[u8], minus: bool) -> Result<(WrittenTime, &[u8]), TzStringError>
    ensures { MatchResult result
        (λ p. IsHms text.now p.0 p.1.now × (p.0.minus ≡ minus))
        (IsTimeFault text.now) }
{
    let (hours, rest) = read_time_number(text)?;
    let (minutes, rest) = read_part(rest)?;
    let (seconds, rest) = read_part(rest)?;
    Ok((
        WrittenTime {
            minus,
            hours,
            minutes,
            seconds,
        },
        rest,
    ))
}

/// Whether a minus comes first, and the bytes after it or after a plus.
fn read_sign(text: &[u8]) -> (bool, &[u8])
    ensures { IsSign text.now result.0 result.1.now }
{
    if let Some(rest) = after_byte(text, b'-') {
        return (true, rest);
    }
    if let Some(rest) = after_byte(text, b'+') {
        return (false, rest);
    }
    (false, text)
}

/// How far daylight saving time is ahead of standard time, in seconds, if a string does not say.
pub const DEFAULT_SAVING: i32 = 3600;

/// Checks that the numbers of an offset are in range.
fn check_offset(time: &WrittenTime) -> Result<(), TzStringError>
    ensures { MatchResult result (λ _. IsTimeUpTo offset_hours time.now)
        (IsTimeAbove offset_hours offset_faults time.now) }
{
    if time.hours > DAY_HOURS {
        return Err(TzStringError::InvalidOffsetHour);
    }
    if time.minutes > LAST_OF_SIXTY {
        return Err(TzStringError::InvalidOffsetMinute);
    }
    if time.seconds > LAST_OF_SIXTY {
        return Err(TzStringError::InvalidOffsetSecond);
    }
    Ok(())
}

/// The offset at the beginning, and the rest of the bytes.
#[inline(always)]
fn read_offset(text: &[u8]) -> Result<(WrittenTime, &[u8]), TzStringError>
    ensures { MatchResult result (λ p. IsSignedTime text.now p.0 p.1.now
        × IsTimeUpTo offset_hours p.0)
        (IsOffsetFault text.now) }
{
    let (minus, rest) = read_sign(text);
    let (offset, rest) = read_hms(rest, minus)?;
    check_offset(&offset)?;
    Ok((offset, rest))
}

/// The daylight offset, which may be omitted before a comma, and the rest of the bytes.
#[inline(always)]
fn read_daylight_offset(text: &[u8]) -> Result<(Option<WrittenTime>, &[u8]), TzStringError>
    ensures { MatchResult result
        (λ p. IsDaylightOffset text.now p.0 p.1.now × IfSome p.0 (IsTimeUpTo offset_hours))
        (λ e. ¬ Begins comma text.now × IsOffsetFault text.now e) }
{
    match after_byte(text, b',') {
        Some(_) => Ok((None, text)),
        None => {
            let (offset, rest) = read_offset(text)?;
            Ok((Some(offset), rest))
        }
    }
}

/// The number after a `J`, and the rest of the bytes.
fn read_julian_day(text: &[u8]) -> Result<(Julian1WithoutLeap, &[u8]), TzError>
    ensures { MatchResult result (λ p. IsNumber text.now p.0 p.1.now × IsJulianDay p.0)
        (IsDayNumberFault 16 IsJulianDay InvalidRuleDayJulianDay text.now) }
{
    let (number, rest) = read_year_day(text)?;
    Ok((Julian1WithoutLeap::new(number)?, rest))
}

/// A number of days from January 1st on, and the rest of the bytes.
fn read_zero_based_day(text: &[u8]) -> Result<(Julian0WithLeap, &[u8]), TzError>
    ensures { MatchResult result (λ p. IsNumber text.now p.0 p.1.now × IsZeroBasedDay p.0)
        (IsDayNumberFault 16 IsZeroBasedDay InvalidRuleDayJulianDay text.now) }
{
    let (number, rest) = read_year_day(text)?;
    Ok((Julian0WithLeap::new(number)?, rest))
}

/// The month, the week and the week day after an `M`, each of one digit or two, as strings usually
/// have them, and the rest of the bytes.
fn read_usual_month_week_day(text: &[u8]) -> Option<(u8, u8, u8, &[u8])>
    ensures { IfSome result (λ p. IsMonthWeekText text.now (month_week p.0 p.1 p.2) p.3.now) }
{
    let (month, rest) = read_two_digits(text)?;
    let rest = after_byte(rest, b'.')?;
    let (week, rest) = read_two_digits(rest)?;
    let rest = after_byte(rest, b'.')?;
    let (week_day, rest) = read_two_digits(rest)?;
    Some((month, week, week_day, rest))
}

/// The month, the week and the week day after an `M`, of any length, and the rest of the bytes.
fn read_long_month_week_day(text: &[u8]) -> Result<(MonthWeekDay, &[u8]), TzError>
    ensures { MatchResult result (λ p. IsMonthWeekText text.now p.0 p.1.now × IsMonthWeek p.0)
        (IsMonthWeekDayFault text.now) }
{
    let (month, rest) = read_date_number(text)?;
    let rest = expect_byte(rest, b'.')?;
    let (week, rest) = read_date_number(rest)?;
    let rest = expect_byte(rest, b'.')?;
    let (week_day, rest) = read_date_number(rest)?;
    Ok((MonthWeekDay::new(month, week, week_day)?, rest))
}

/// The month, the week and the week day after an `M`, and the rest of the bytes.
#[inline(always)]
fn read_month_week_day(text: &[u8]) -> Result<(MonthWeekDay, &[u8]), TzError>
    ensures { MatchResult result (λ p. IsMonthWeekText text.now p.0 p.1.now × IsMonthWeek p.0)
        (IsMonthWeekDayFault text.now) }
{
    match read_usual_month_week_day(text) {
        Some((month, week, week_day, rest)) => {
            Ok((MonthWeekDay::new(month, week, week_day)?, rest))
        }
        None => read_long_month_week_day(text),
    }
}

/// The day of a switch, and the rest of the bytes.
#[inline(always)]
fn read_rule_day(text: &[u8]) -> Result<(RuleDay, &[u8]), TzError>
    ensures { MatchResult result (λ p. IsDay text.now p.0 p.1.now × IsRuleDay p.0)
        (IsDayFault text.now) }
{
    if let Some(number) = after_byte(text, b'J') {
        return match read_julian_day(number) {
            Ok((day, rest)) => Ok((RuleDay::Julian1WithoutLeap(day), rest)),
            Err(error) => Err(error),
        };
    }
    if let Some(month) = after_byte(text, b'M') {
        return match read_month_week_day(month) {
            Ok((day, rest)) => Ok((RuleDay::MonthWeekDay(day), rest)),
            Err(error) => Err(error),
        };
    }
    match read_zero_based_day(text) {
        Ok((day, rest)) => Ok((RuleDay::Julian0WithLeap(day), rest)),
        Err(error) => Err(error),
    }
}

/// The sign of a day time, which an ordinary string does not have.
fn read_day_time_sign(text: &[u8], extended: bool) -> (bool, &[u8])
    ensures { IsDayTimeSign extended text.now result.0 result.1.now }
{
    if extended {
        return read_sign(text);
    }
    (false, text)
}

/// The greatest hour of a day time.
fn greatest_hour(extended: bool) -> u32
    ensures { result ≡ day_time_hours extended }
{
    if extended { EXTENDED_HOURS } else { DAY_HOURS }
}

/// Checks that the numbers of a day time are in range.
fn check_day_time(time: &WrittenTime, extended: bool) -> Result<(), TzStringError>
    ensures { MatchResult result (λ _. IsTimeUpTo (day_time_hours extended) time.now)
        (IsTimeAbove (day_time_hours extended) day_time_faults time.now) }
{
    if time.hours > greatest_hour(extended) {
        return Err(TzStringError::InvalidDayTimeHour);
    }
    if time.minutes > LAST_OF_SIXTY {
        return Err(TzStringError::InvalidDayTimeMinute);
    }
    if time.seconds > LAST_OF_SIXTY {
        return Err(TzStringError::InvalidDayTimeSecond);
    }
    Ok(())
}

/// The day time at the beginning, and the rest of the bytes.
#[inline(always)]
fn read_day_time(text: &[u8], extended: bool) -> Result<(WrittenTime, &[u8]), TzStringError>
    ensures { MatchResult result (λ p. IsDayTime extended text.now p.0 p.1.now
        × IsTimeUpTo (day_time_hours extended) p.0) (IsDayTimeFault extended text.now) }
{
    let (minus, rest) = read_day_time_sign(text, extended);
    let (time, rest) = read_hms(rest, minus)?;
    check_day_time(&time, extended)?;
    Ok((time, rest))
}

/// A switch: a day of each year, and a time of that day.
#[derive(Clone, Copy)]
struct DayAndTime {
    day: RuleDay,
    time: WrittenTime,
}

/// The hour of a switch for which a string has no time.
pub const DEFAULT_HOUR: u32 = 2;

/// Two o'clock, the time of a switch that has none.
fn two_o_clock() -> WrittenTime
    ensures { result ≡ plain_time 2 0 0 }
{
    WrittenTime {
        minus: false,
        hours: DEFAULT_HOUR,
        minutes: 0,
        seconds: 0,
    }
}

/// The time after a slash, or two o'clock if there is no slash, and the rest of the bytes.
#[inline(always)]
fn read_time_of_switch(text: &[u8], extended: bool) -> Result<(WrittenTime, &[u8]), TzStringError>
    ensures { MatchResult result
        (λ p. IsTimeOfRule extended text.now p.0 p.1.now × IsTimeUpTo (day_time_hours extended) p.0)
        (λ e. (time : List ℕ) × (text.now ≡ slash ∷ time) × IsDayTimeFault extended time e) }
{
    match after_byte(text, b'/') {
        Some(time) => read_day_time(time, extended),
        None => Ok((two_o_clock(), text)),
    }
}

/// A switch, and the rest of the bytes.
#[inline(always)]
fn read_switch(text: &[u8], extended: bool) -> Result<(DayAndTime, &[u8]), TzError>
    ensures { MatchResult result (λ p. IsRuleText extended text.now p.0 p.1.now
        × IsRuleInRange extended p.0) (IsRuleTextFault extended text.now) }
{
    match read_rule_day(text) {
        Ok((day, rest)) => {
            let (time, rest) = read_time_of_switch(rest, extended)?;
            Ok((DayAndTime { day, time }, rest))
        }
        Err(error) => Err(error),
    }
}

/// The last switch, with nothing after it.
#[inline(always)]
fn read_last_switch(text: &[u8], extended: bool) -> Result<DayAndTime, TzError>
    ensures { MatchResult result (λ switch. IsRuleText extended text.now switch []
        × IsRuleInRange extended switch) (IsLastRuleFault extended text.now) }
{
    match read_switch(text, extended) {
        Ok((switch, rest)) => {
            if !rest.is_empty() {
                return Err(TzError::TzString(TzStringError::RemainingData));
            }
            Ok(switch)
        }
        Err(error) => Err(error),
    }
}

/// The start and the end, with a comma between them and nothing after them.
#[inline(always)]
fn read_switches(text: &[u8], extended: bool) -> Result<(DayAndTime, DayAndTime), TzError>
    ensures { MatchResult result
        (λ p. ((end_text : List ℕ) × IsRuleText extended text.now p.0 (comma ∷ end_text)
        × IsRuleText extended end_text p.1 []) × IsRuleInRange extended p.0
        × IsRuleInRange extended p.1)
        (IsRulesFault extended text.now) }
{
    match read_switch(text, extended) {
        Ok((start, rest)) => {
            let end_text = expect_byte(rest, b',')?;
            let end = read_last_switch(end_text, extended)?;
            Ok((start, end))
        }
        Err(error) => Err(error),
    }
}

/// The daylight name, its offset, and the switches after a comma.
fn read_daylight(text: &[u8]) -> Result<(&[u8], Option<WrittenTime>, &[u8]), TzStringError>
    ensures { MatchResult result
        (λ p. ((after_name : List ℕ) × IsName text.now p.0.now after_name
        × IsDaylightOffset after_name p.1 (comma ∷ p.2.now)) × IfSome p.1 (IsTimeUpTo offset_hours))
        (λ e. (extended : Bool) → IsDaylightFault extended text.now (TzString e)) }
{
    let (name, rest) = read_name(text)?;
    if rest.is_empty() {
        return Err(TzStringError::MissingDstStartEndRules);
    }
    let (offset, rest) = read_daylight_offset(rest)?;
    if rest.is_empty() {
        return Err(TzStringError::MissingDstStartEndRules);
    }
    let switches = expect_byte(rest, b',')?;
    Ok((name, offset, switches))
}

/// The local time type with this name.
fn named_type(
    name: &[u8],
    ut_offset: i32,
    is_dst: bool,
) -> Result<LocalTimeType, LocalTimeTypeError>
    requires { IsRuleOffset ut_offset }
    ensures { MatchResult result
        (λ t. (t ≡ type_of ut_offset is_dst (Some name.now)) × IsDesignation name.now)
        (IsFirstTypeFault (type_of (pos 0) false (Some name.now))) }
{
    LocalTimeType::new(ut_offset, is_dst, Some(name))
}

/// The rule that the whole string denotes.
fn read_text(text: &[u8], extended: bool) -> Result<TransitionRule, TzError>
    ensures { MatchResult result (IsTzText extended text.now) (IsTzTextFault extended text.now) }
{
    let (std_name, rest) = read_name(text)?;
    let (std_offset, rest) = read_offset(rest)?;
    if rest.is_empty() {
        let fixed = named_type(std_name, std_offset.ut_offset(), false)?;
        return Ok(TransitionRule::Fixed(fixed));
    }
    let (dst_name, dst_offset, switches) = read_daylight(rest)?;
    let (start, end) = read_switches(switches, extended)?;
    let std = named_type(std_name, std_offset.ut_offset(), false)?;
    let dst = named_type(dst_name, std_offset.daylight_ut_offset(dst_offset), true)?;
    let start_time = start.time.total_seconds();
    let end_time = end.time.total_seconds();
    let rule = AlternateTime::new(std, dst, start.day, start_time, end.day, end_time)?;
    Ok(TransitionRule::Alternate(rule))
}

/// The rule that a TZ string denotes. (POSIX.1-2017, Base Definitions, 8.3)
///
/// An extended string may have signed day times, of at most 167 hours, 59 minutes and 59 seconds
/// either way. (RFC 8536, section 3.3.1)
pub fn parse_posix_tz(text: &[u8], extended: bool) -> Result<TransitionRule, TzError>
    ensures ok { IfOk result (IsTzText extended text.now) }
    ensures err { IfErr result (IsTzTextFault extended text.now) }
    ensures only { (rule : TransitionRule) → IsTzText extended text.now rule → result ≡ Ok rule }
{
    read_text(text, extended)
}

/// The types of a rule.
fn types_of<A: Allocator + Copy>(
    alloc: A,
    rule: &TransitionRule,
) -> Result<Vec<LocalTimeType, A>, TzError>
    ensures ok { IfOk result (λ types. types.items ≡ (rule_zone rule.now).types) }
    ensures err { IfErr result (λ e. e ≡ NoMemory alloc_error) }
{
    match rule {
        TransitionRule::Fixed(local_time_type) => Ok(Vec::from_array(alloc, [*local_time_type])?),
        TransitionRule::Alternate(rule) => Ok(Vec::from_array(alloc, [*rule.std(), *rule.dst()])?),
    }
}

/// The zone of a rule.
fn zone_of_rule<A: Allocator + Copy>(alloc: A, rule: TransitionRule) -> Result<TimeZone<A>, TzError>
    ensures ok { IfOk result (λ zone. own_zone_of zone ≡ rule_zone rule) }
    ensures err { IfErr result (λ e. e ≡ NoMemory alloc_error) }
{
    let types = types_of(alloc, &rule)?;
    TimeZone::new(Vec::new(alloc), types, Vec::new(alloc), Some(rule))
}

/// The zone of a TZ string, with white space at its ends or without.
pub(crate) fn zone_of_tz_string<A: Allocator + Copy>(
    alloc: A,
    text: &str,
) -> Result<TimeZone<A>, Error>
    ensures { MatchResult result (λ zone. IsTextAnswer text.now (Ok (own_zone_of zone)))
        (λ e. (e ≡ Tz (NoMemory alloc_error)) ⊎ IsTextAnswer text.now (Err e)) }
{
    let rule = parse_posix_tz(text.as_bytes().trim_ascii(), false)?;
    Ok(zone_of_rule(alloc, rule)?)
}
