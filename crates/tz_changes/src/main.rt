//! Prints each change of a clock between two instants: `tz_changes FROM UNTIL SETTING ..`, over the
//! zones of names, paths or TZ strings, forwards and then backwards. diff/changes compares the
//! lines with what zdump prints.
#![tactic(auto)]

use anyhow::{Context, Result, bail};
use std::alloc::Global;
use std::env;
use tz::{Change, LocalTimeType, TimeZone, TimeZoneRef, timezone};

fn print_type(rt: &HostRuntime, local_time_type: &LocalTimeType) -> Result<()> {
    let name = local_time_type.time_zone_designation();
    let is_dst = u8::from(local_time_type.is_dst());
    let ut_offset = local_time_type.ut_offset();
    print!(rt; " {name} {is_dst} {ut_offset}")?;
    Ok(())
}

fn print_change(rt: &HostRuntime, mark: &str, change: &Change<'_>) -> Result<()> {
    let unix_time = change.unix_time();
    print!(rt; "{mark} {unix_time}")?;
    print_type(rt, change.before())?;
    print_type(rt, change.after())?;
    println!(rt; "")?;
    Ok(())
}

fn print_changes(rt: &HostRuntime, zone: TimeZoneRef<'_>, from: i64, until: i64) -> Result<()> {
    let mut place = from;
    for _ in 0..u64::MAX {
        match zone.following(place) {
            Some(change) if change.unix_time() < until => {
                print_change(rt, ">", &change)?;
                place = change.unix_time();
            }
            _ => break,
        }
    }
    let mut place = until;
    for _ in 0..u64::MAX {
        match zone.preceding(place) {
            Some(change) if change.unix_time() > from => {
                print_change(rt, "<", &change)?;
                place = change.unix_time();
            }
            _ => break,
        }
    }
    Ok(())
}

fn main(rt: HostRuntime) -> Result<()> {
    let alloc = rt.alloc();
    let arguments: Vec<String> = env::args(&rt)?.skip(1).collect(alloc)?;
    let [from, until, settings @ ..] = arguments.as_slice() else {
        bail!("usage: tz_changes FROM UNTIL SETTING ..")
    };
    let from = from.parse::<i64>().context("FROM")?;
    let until = until.parse::<i64>().context("UNTIL")?;
    let reader = |path: &str| timezone::read_file(&rt, alloc, path);
    for setting in settings {
        let zone = TimeZone::from_posix_tz(alloc, reader, setting)?;
        println!(rt; "{setting}")?;
        print_changes(&rt, zone.as_ref(), from, until)?;
    }
    Ok(())
}
