//! Makes one call of the library many times: `tz_calls OPTION ARGUMENT CALL TIMES`, over the zone
//! of `-o OFFSET`, `-f FILE` or `-z STRING`, for the words on standard input. bench/peers/README.md
//! has the command line; its drivers over other libraries make the same calls.
//!
//! It prints a sum of what the calls returned, so that none can be left out, and so that all
//! programs are seen to have made the same calls.
#![tactic(auto)]

use anyhow::{Context, Result, bail};
use std::alloc::Global;
use std::cell::Cell;
use std::time::Duration;
use std::{env, fs, io};
use tz::datetime::{Disambiguation, Meaning};
use tz::error::ReadFault;
use tz::timezone::{AlternateTime, TransitionRule};
use tz::{
    DateTime, Error, ParsedDateTime, TimeZone, TimeZoneRef, TimeZoneSettings, TzError, TzString,
    UtcDateTime, timezone,
};
use tz_format::constants::common_log;

#[derive(Clone, Copy, Drop)]
struct Local {
    year: i32,
    month: u8,
    month_day: u8,
    hour: u8,
    minute: u8,
    second: u8,
}

/// The local time of a word such as 20001029023000.
fn local_of(word: u64) -> Result<Local> {
    Ok(Local {
        year: i32::try_from(word / 10_000_000_000)?,
        month: u8::try_from(word / 100_000_000 % 100)?,
        month_day: u8::try_from(word / 1_000_000 % 100)?,
        hour: u8::try_from(word / 10_000 % 100)?,
        minute: u8::try_from(word / 100 % 100)?,
        second: u8::try_from(word % 100)?,
    })
}

/// What the calls are made for.
#[derive(Drop)]
struct Words {
    instants: Vec<i64>,
    locals: Vec<Local>,
    date_times: Vec<DateTime>,
    utc_date_times: Vec<UtcDateTime>,
    printed: Vec<String>,
    logged: Vec<String>,
}

fn sum_of_fields(year: i32, month: u8, month_day: u8, hour: u8, minute: u8, second: u8) -> u64 {
    let small = u64::from(month) + u64::from(month_day) + u64::from(hour);
    let whole = small + u64::from(minute) + u64::from(second);
    whole.wrapping_add(u64::from(year.unsigned_abs()))
}

/// Reads the instants, and makes no call.
fn sum_of_instants(words: &[i64]) -> u64 {
    let mut sum = 0u64;
    for word in words {
        sum = sum.wrapping_add(word.cast_unsigned());
    }
    sum
}

/// Reads the local times, and makes no call.
fn sum_of_locals(locals: &[Local]) -> u64 {
    let mut sum = 0u64;
    for local in locals {
        sum = sum.wrapping_add(sum_of_fields(
            local.year,
            local.month,
            local.month_day,
            local.hour,
            local.minute,
            local.second,
        ));
    }
    sum
}

/// The offset of the zone's clock at each instant.
fn find_local_time_type(words: &[i64], zone: TimeZoneRef<'_>) -> Result<u64, TzError> {
    let mut sum = 0u64;
    for word in words {
        let local_time_type = zone.find_local_time_type(*word)?;
        sum = sum.wrapping_add(i64::from(local_time_type.ut_offset()).cast_unsigned());
    }
    Ok(sum)
}

fn from_timespec(words: &[i64], zone: TimeZoneRef<'_>) -> Result<u64, TzError> {
    let mut sum = 0u64;
    for word in words {
        let shown = DateTime::from_timespec(*word, 7, zone)?;
        sum = sum
            .wrapping_add(sum_of_fields(
                shown.year(),
                shown.month(),
                shown.month_day(),
                shown.hour(),
                shown.minute(),
                shown.second(),
            ))
            .wrapping_add(i64::from(shown.local_time_type().ut_offset()).cast_unsigned());
    }
    Ok(sum)
}

fn utc_from_timespec(words: &[i64]) -> Result<u64, TzError> {
    let mut sum = 0u64;
    for word in words {
        let shown = UtcDateTime::from_timespec(*word, 7)?;
        sum = sum.wrapping_add(sum_of_fields(
            shown.year(),
            shown.month(),
            shown.month_day(),
            shown.hour(),
            shown.minute(),
            shown.second(),
        ));
    }
    Ok(sum)
}

fn utc_new(locals: &[Local]) -> Result<u64, TzError> {
    let mut sum = 0u64;
    for local in locals {
        let made = UtcDateTime::new(
            local.year,
            local.month,
            local.month_day,
            local.hour,
            local.minute,
            local.second,
            7,
        )?;
        sum = sum.wrapping_add(made.unix_time().cast_unsigned());
    }
    Ok(sum)
}

fn utc_add(words: &[i64], date_times: &[UtcDateTime]) -> u64 {
    let mut sum = 0u64;
    for (word, date_time) in words.iter().zip(date_times) {
        let more = Duration::new(word.cast_unsigned() & 0xf_ffff, 7);
        let later = date_time.checked_add(more);
        sum = sum.wrapping_add(later.map_or(0, |later| later.unix_time().cast_unsigned()));
    }
    sum
}

/// The Unix time of what was found first.
fn sum_of_found(first: Option<DateTime>) -> u64 {
    first.map_or(1, |first| first.unix_time().cast_unsigned())
}

fn find(alloc: Global, locals: &[Local], zone: TimeZoneRef<'_>) -> Result<u64, TzError> {
    let mut sum = 0u64;
    for local in locals {
        let found = DateTime::find(
            alloc,
            local.year,
            local.month,
            local.month_day,
            local.hour,
            local.minute,
            local.second,
            7,
            zone,
        )?;
        sum = sum.wrapping_add(sum_of_found(found.earliest()));
    }
    Ok(sum)
}

fn find_n(locals: &[Local], zone: TimeZoneRef<'_>) -> Result<u64, TzError> {
    let mut sum = 0u64;
    let mut slots = [None; 2];
    for local in locals {
        let found = DateTime::find_n(
            &mut slots,
            local.year,
            local.month,
            local.month_day,
            local.hour,
            local.minute,
            local.second,
            7,
            zone,
        )?;
        sum = sum.wrapping_add(sum_of_found(found.earliest()));
    }
    Ok(sum)
}

/// The one date time that a local time means by the compatible choice.
fn find_one(locals: &[Local], zone: TimeZoneRef<'_>) -> Result<u64, TzError> {
    let mut sum = 0u64;
    for local in locals {
        let meant = DateTime::find_one(
            local.year,
            local.month,
            local.month_day,
            local.hour,
            local.minute,
            local.second,
            7,
            Disambiguation::Compatible,
            zone,
        )?;
        sum = sum.wrapping_add(sum_of_found(meant));
    }
    Ok(sum)
}

/// The same of local times that are UTC date times of the words.
fn from_local(date_times: &[UtcDateTime], zone: TimeZoneRef<'_>) -> Result<u64, TzError> {
    let mut sum = 0u64;
    for date_time in date_times {
        let meant = DateTime::from_local(*date_time, Disambiguation::Compatible, zone)?;
        sum = sum.wrapping_add(sum_of_found(meant));
    }
    Ok(sum)
}

fn display(alloc: Global, date_times: &[DateTime]) -> Result<u64, TzError> {
    let mut sum = 0u64;
    for date_time in date_times {
        sum = sum.wrapping_add(format!(in alloc; "{date_time}")?.len() as u64);
    }
    Ok(sum)
}

/// The length of a line of the Common Log Format, in a new string.
fn format_log(alloc: Global, date_times: &[DateTime]) -> Result<u64, TzError> {
    let pattern = common_log();
    let mut sum = 0u64;
    for date_time in date_times {
        let line = pattern.format(date_time);
        sum = sum.wrapping_add(format!(in alloc; "{line}")?.len() as u64);
    }
    Ok(sum)
}

/// Makes a zone of a file's bytes for each word.
fn from_tz_data(alloc: Global, words: &[i64], bytes: &[u8]) -> Result<u64, TzError> {
    let mut sum = 0u64;
    for _ in words {
        let zone = TimeZone::from_tz_data(alloc, bytes)?;
        sum = sum.wrapping_add(u64::from(!zone.as_ref().local_time_types().is_empty()));
    }
    Ok(sum)
}

/// The instant of the next change after each instant.
fn following(words: &[i64], zone: TimeZoneRef<'_>) -> u64 {
    let mut sum = 0u64;
    for word in words {
        if let Some(change) = zone.following(*word) {
            sum = sum.wrapping_add(change.unix_time().cast_unsigned());
        }
    }
    sum
}

/// The instant of the last change before each instant.
fn preceding(words: &[i64], zone: TimeZoneRef<'_>) -> u64 {
    let mut sum = 0u64;
    for word in words {
        if let Some(change) = zone.preceding(*word) {
            sum = sum.wrapping_add(change.unix_time().cast_unsigned());
        }
    }
    sum
}

/// What a log's lines show: the zone is looked up only for an instant outside of the segment
/// before.
fn kept_segment(words: &[i64], zone: TimeZoneRef<'_>) -> Result<u64, TzError> {
    let mut sum = 0u64;
    let mut segment = zone.segment_at(0);
    for word in words {
        if !segment.contains(*word) {
            segment = zone.segment_at(*word);
        }
        let local_time_type = segment
            .local_time_type()
            .ok_or(TzError::NoAvailableLocalTimeType)?;
        let shown = DateTime::from_timespec_and_local(*word, 7, *local_time_type)?;
        let offset = shown.local_time_type().ut_offset().unsigned_abs();
        sum = sum.wrapping_add(u64::from(offset));
        sum = sum.wrapping_add(sum_of_fields(
            shown.year(),
            shown.month(),
            shown.month_day(),
            shown.hour(),
            shown.minute(),
            shown.second(),
        ));
    }
    Ok(sum)
}

/// What local times mean: the Unix time of what is found first.
fn meaning(locals: &[Local], zone: TimeZoneRef<'_>) -> Result<u64, TzError> {
    let mut sum = 0u64;
    for local in locals {
        let first = match DateTime::meaning(
            local.year,
            local.month,
            local.month_day,
            local.hour,
            local.minute,
            local.second,
            7,
            zone,
        )? {
            Meaning::Once(date_time) => Some(date_time),
            Meaning::Twice { first, .. } => Some(first),
            Meaning::Skipped {
                before_transition,
                ..
            } => Some(before_transition),
            Meaning::Nothing | Meaning::More(_) => None,
        };
        sum = sum.wrapping_add(sum_of_found(first));
    }
    Ok(sum)
}

/// The Unix time of each printed text.
fn parse(texts: &[String]) -> Result<u64> {
    let mut sum = 0u64;
    for text in texts {
        let parsed = ParsedDateTime::parse(text.as_bytes())?;
        let unix_time = parsed.unix_time().context("offset")?;
        sum = sum.wrapping_add(unix_time.cast_unsigned());
    }
    Ok(sum)
}

/// The Unix time of each line of the Common Log Format.
fn read_log(texts: &[String]) -> Result<u64> {
    let pattern = common_log();
    let mut sum = 0u64;
    for text in texts {
        let read = pattern.read(text.as_bytes())?;
        let ut_offset = i64::from(read.ut_offset().context("offset")?);
        let unix_time = read.local().unix_time().wrapping_sub(ut_offset);
        sum = sum.wrapping_add(unix_time.cast_unsigned());
    }
    Ok(sum)
}

/// The first instant of the segment around each instant.
fn segment_at(words: &[i64], zone: TimeZoneRef<'_>) -> u64 {
    let mut sum = 0u64;
    for word in words {
        sum = sum.wrapping_add(zone.segment_at(*word).from().cast_unsigned());
    }
    sum
}

/// The instants of the changes from 1900 to 2100, one for each word, again and again.
fn walk(words: &[i64], zone: TimeZoneRef<'_>) -> u64 {
    let mut sum = 0u64;
    let mut changes = zone.changes_after(-2_208_988_800);
    for _ in words {
        match changes.next() {
            Some(change) if change.unix_time() < 4_102_444_800 => {
                sum = sum.wrapping_add(change.unix_time().cast_unsigned());
            }
            _ => changes = zone.changes_after(-2_208_988_800),
        }
    }
    sum
}

/// The same from 2100 to 1900.
fn walk_back(words: &[i64], zone: TimeZoneRef<'_>) -> u64 {
    let mut sum = 0u64;
    let mut changes = zone.changes_before(4_102_444_800);
    for _ in words {
        match changes.next() {
            Some(change) if change.unix_time() > -2_208_988_800 => {
                sum = sum.wrapping_add(change.unix_time().cast_unsigned());
            }
            _ => changes = zone.changes_before(4_102_444_800),
        }
    }
    sum
}

/// Makes a zone of a TZ string for each word.
fn from_posix_tz(rt: &HostRuntime, words: &[i64], string: &str) -> Result<u64, Error> {
    let mut sum = 0u64;
    for _ in words {
        let alloc = rt.alloc();
        let reader = |path: &str| timezone::read_file(rt, alloc, path);
        let zone = TimeZone::from_posix_tz(alloc, reader, string)?;
        sum = sum.wrapping_add(u64::from(!zone.as_ref().local_time_types().is_empty()));
    }
    Ok(sum)
}

/// The last byte of a path. It is never inlined, so that each path is made and read.
#[inline(never)]
fn last_byte(path: &str) -> u8 {
    match path.as_bytes() {
        [.., last] => *last,
        [] => 0,
    }
}

/// Makes a zone of a TZ string for each word, with a reader that fails for each path, and adds the
/// last bytes of the paths.
fn failing_reader(alloc: Global, words: &[i64], string: &str) -> Result<u64, Error> {
    let mut sum = 0u64;
    let seen = Cell::new(0u64);
    for _ in words {
        let reader = |path: &str| {
            seen.set(seen.get().wrapping_add(u64::from(last_byte(path))));
            Err(ReadFault::Failed(anyhow::Error::msg('-')))
        };
        let zone = TimeZone::from_posix_tz(alloc, reader, string)?;
        sum = sum.wrapping_add(u64::from(!zone.as_ref().local_time_types().is_empty()));
    }
    Ok(sum.wrapping_add(seen.get()))
}

/// Makes a zone of a TZ string for each word, and looks for no file of its name.
fn parse_string(rt: &HostRuntime, words: &[i64], string: &str) -> Result<u64, Error> {
    let mut sum = 0u64;
    for _ in words {
        let alloc = rt.alloc();
        let reader = |path: &str| timezone::read_file(rt, alloc, path);
        let zone = TimeZoneSettings::new(&[], reader).parse_posix_tz(alloc, string)?;
        sum = sum.wrapping_add(u64::from(!zone.as_ref().local_time_types().is_empty()));
    }
    Ok(sum)
}

/// Makes the zone's rule anew, of its parts, for each word.
fn rule(words: &[i64], zone: TimeZoneRef<'_>) -> Result<u64> {
    let Some(TransitionRule::Alternate(rule)) = zone.extra_rule() else {
        bail!("no rule with two types")
    };
    let mut sum = 0u64;
    for _ in words {
        let made = AlternateTime::new(
            *rule.std(),
            *rule.dst(),
            *rule.dst_start(),
            rule.dst_start_time(),
            *rule.dst_end(),
            rule.dst_end_time(),
        )
        .map_err(TzError::from)?;
        sum = sum.wrapping_add(u64::from(made.dst_end_time() == rule.dst_end_time()));
    }
    Ok(sum)
}

/// The length of the TZ string of the zone's rule, which is made for each word.
fn from_rule(words: &[i64], zone: TimeZoneRef<'_>) -> Result<u64> {
    let Some(rule) = zone.extra_rule() else {
        bail!("no rule")
    };
    let mut sum = 0u64;
    for _ in words {
        let string = TzString::from_rule(rule).context("no TZ string")?;
        sum = sum.wrapping_add(string.as_str().len() as u64);
    }
    Ok(sum)
}

/// Makes a call for each word, and adds up what it returned.
fn sum_of(
    rt: &HostRuntime,
    call: &str,
    words: &Words,
    first: usize,
    last: usize,
    argument: &str,
    bytes: &[u8],
    zone: TimeZoneRef<'_>,
) -> Result<u64> {
    let alloc = rt.alloc();
    let instants = words.instants.get(first..last).context("words")?;
    let locals = words.locals.get(first..last).context("words")?;
    let date_times = words.date_times.get(first..last).context("words")?;
    let utc_date_times = words.utc_date_times.get(first..last).context("words")?;
    let printed = words.printed.get(first..last).context("words")?;
    let logged = words.logged.get(first..last).context("words")?;
    Ok(match call {
        "instant" => sum_of_instants(instants),
        "local" => sum_of_locals(locals),
        "find_local_time_type" => find_local_time_type(instants, zone)?,
        "from_timespec" => from_timespec(instants, zone)?,
        "utc_from_timespec" => utc_from_timespec(instants)?,
        "utc_new" => utc_new(locals)?,
        "utc_add" => utc_add(instants, utc_date_times),
        "find" => find(alloc, locals, zone)?,
        "find_n" => find_n(locals, zone)?,
        "find_one" => find_one(locals, zone)?,
        "meaning" => meaning(locals, zone)?,
        "from_local" => from_local(utc_date_times, zone)?,
        "following" => following(instants, zone),
        "preceding" => preceding(instants, zone),
        "segment_at" => segment_at(instants, zone),
        "kept_segment" => kept_segment(instants, zone)?,
        "walk" => walk(instants, zone),
        "walk_back" => walk_back(instants, zone),
        "display" => display(alloc, date_times)?,
        "parse" => parse(printed)?,
        "format_log" => format_log(alloc, date_times)?,
        "read_log" => read_log(logged)?,
        "from_tz_data" => from_tz_data(alloc, instants, bytes)?,
        "from_posix_tz" => from_posix_tz(rt, instants, argument)?,
        "failing_reader" => failing_reader(alloc, instants, argument)?,
        "parse_string" => parse_string(rt, instants, argument)?,
        "rule" => rule(instants, zone)?,
        "from_rule" => from_rule(instants, zone)?,
        _ => bail!("no such call"),
    })
}

/// The words on standard input, one a line, as instants and, for calls that take these, as local
/// times.
fn read_words(rt: &HostRuntime, is_local: bool, zone: TimeZoneRef<'_>) -> Result<Words> {
    let alloc = rt.alloc();
    let text = io::read_to_string(alloc, rt.stdin())?;
    let mut words = Words {
        instants: Vec::new(alloc),
        locals: Vec::new(alloc),
        date_times: Vec::new(alloc),
        utc_date_times: Vec::new(alloc),
        printed: Vec::new(alloc),
        logged: Vec::new(alloc),
    };
    for line in text.lines() {
        let word = line.parse::<i64>().context("words")?;
        let instant = if is_local { 0 } else { word };
        words.instants.push(instant)?;
        words
            .locals
            .push(local_of(if is_local { word.unsigned_abs() } else { 0 })?)?;
        let date_time = DateTime::from_timespec(instant, 7, zone)?;
        words.printed.push(format!(in alloc; "{date_time}")?)?;
        let logged = common_log().format(&date_time);
        words.logged.push(format!(in alloc; "{logged}")?)?;
        words.date_times.push(date_time)?;
        words
            .utc_date_times
            .push(UtcDateTime::from_timespec(instant, 7)?)?;
    }
    Ok(words)
}

fn zone_of(rt: &HostRuntime, option: &str, argument: &str, bytes: &[u8]) -> Result<TimeZone> {
    let alloc = rt.alloc();
    let reader = |path: &str| timezone::read_file(rt, alloc, path);
    Ok(match option {
        "-o" => TimeZone::fixed(alloc, argument.parse::<i32>().context("OFFSET")?)?,
        "-f" => TimeZone::from_tz_data(alloc, bytes)?,
        _ => TimeZone::from_posix_tz(alloc, reader, argument)?,
    })
}

fn main(rt: HostRuntime) -> Result<()> {
    let alloc = rt.alloc();
    let arguments: Vec<String> = env::args(&rt)?.skip(1).collect(alloc)?;
    let [option, argument, call, times] = arguments.as_slice() else {
        bail!("usage: tz_calls OPTION ARGUMENT CALL TIMES")
    };
    let bytes = if option.as_str() == "-f" {
        fs::read(&rt, argument)?
    } else {
        Vec::new(alloc)
    };
    let zone = zone_of(&rt, option, argument, &bytes)?;
    let is_local = matches!(
        call.as_str(),
        "local" | "find" | "find_n" | "find_one" | "meaning" | "utc_new"
    );
    let words = read_words(&rt, is_local, zone.as_ref())?;
    let count = words.instants.len();
    if times.as_str() == "each" {
        for n in 0..count {
            let value = sum_of(&rt, call, &words, n, n + 1, argument, &bytes, zone.as_ref())?;
            println!(rt; "{value}")?;
        }
        return Ok(());
    }
    let times = times.parse::<usize>().context("TIMES")?;
    let mut sum = 0u64;
    if count > 0 {
        for _ in 0..times / count {
            sum = sum.wrapping_add(sum_of(
                &rt,
                call,
                &words,
                0,
                count,
                argument,
                &bytes,
                zone.as_ref(),
            )?);
        }
        sum = sum.wrapping_add(sum_of(
            &rt,
            call,
            &words,
            0,
            times % count,
            argument,
            &bytes,
            zone.as_ref(),
        )?);
    }
    println!(rt; "{call} {sum}")?;
    Ok(())
}
