//! The program's answers, and its faults with their lines and statuses, by rows.

use crate::expect::expect_eq_at;
use crate::failing::{FailingReader, FailingWriter};
use anyhow::anyhow;
use std::alloc::{AllocError, Global};
use std::process::Abort;
use std::test::Fail;
use tz::error::ReadFault;
use tz_query::query::tool;
use tz_samples::files::{UTC_V1, UTC_V4};
use tz_samples::refusing::Refusing;

/// A file of version 1 with one type, UTC, and a leap second before 1970.
const EARLY_LEAP_SECOND: &[u8] = b"TZif\0\
    \0\0\0\0\0\0\0\0\0\0\0\0\0\0\0\
    \0\0\0\0\0\0\0\0\0\0\0\x01\0\0\0\0\0\0\0\x01\0\0\0\x04\
    \0\0\0\0\0\0UTC\0\
    \xff\xff\xff\xff\0\0\0\x01";

/// The files: three of UTC, one without bytes, one cut short, one whose parts make no zone, and one
/// for which there is no memory.
fn file_at(alloc: Global, path: &str) -> Result<Vec<u8>, ReadFault> {
    static FILES: [(&str, &[u8]); 6] = [
        ("/utc", UTC_V1),
        ("/empty", b""),
        ("/early_leap_second", EARLY_LEAP_SECOND),
        ("/utc_v4", UTC_V4),
        ("/usr/share/zoneinfo/Zone/UTC", UTC_V1),
        ("/cut", b"TZif"),
    ];
    for (name, bytes) in &FILES {
        if *name == path {
            return Ok(Vec::from_slice(alloc, bytes)?);
        }
    }
    if path == "/large" {
        return Err(ReadFault::Memory(AllocError));
    }
    Err(ReadFault::Failed(anyhow!("no such file")))
}

/// The status and the outputs of the program, each after `|`.
fn written(alloc: Global, status: u8, out: &[u8], err: &[u8]) -> Result<String, Fail> {
    let out = std::str::from_utf8(out)?;
    let err = std::str::from_utf8(err)?;
    Ok(format!(in alloc; "{status}|{out}|{err}")?)
}

/// What the program does: its status, and its outputs, each after `|`.
fn outcome(alloc: Global, arguments: &[&str], queries: &[u8]) -> Result<String, Fail> {
    let mut input = queries;
    let mut out = Vec::new(alloc);
    let mut err = Vec::new(alloc);
    let reader = |path: &str| file_at(alloc, path);
    let status = tool(alloc, arguments, reader, &mut input, &mut out, &mut err);
    written(alloc, status, &out, &err)
}

/// The program does this.
fn expect_outcome(
    rt: &impl Abort,
    alloc: Global,
    arguments: &[&str],
    queries: &[u8],
    want: &str,
) -> Result<(), Fail> {
    let found = outcome(alloc, arguments, queries)?;
    expect_eq_at(rt, &arguments, &found.as_str(), &want);
    Ok(())
}

/// Asked for the epoch with the option and the value before ` | ` in a row, the program does what
/// stands after it, between two texts.
fn expect_row_around(
    rt: &impl Abort,
    alloc: Global,
    before: &str,
    row: &str,
    after: &str,
) -> Result<(), Fail> {
    let (arguments, text) = row.split_once(" | ").ok_or("no ` | ` in a row")?;
    let (option, value) = arguments.split_once(' ').ok_or("no value in a row")?;
    let want = format!(in alloc; "{before}{text}{after}")?;
    expect_outcome(rt, alloc, &[option, value], b"T 0 0\n", want.as_str())
}

/// The program does what each line says, between two texts.
fn expect_outcomes_around(
    rt: &impl Abort,
    alloc: Global,
    before: &str,
    rows: &str,
    after: &str,
) -> Result<(), Fail> {
    for row in rows.lines() {
        expect_row_around(rt, alloc, before, row, after)?;
    }
    Ok(())
}

/// Options with their values, and the epoch in their zone.
static ZONES: &str = "\
-o -3600 | 1969-12-31T23:00:00.000000000-01:00 -
-o -43200 | 1969-12-31T12:00:00.000000000-12:00 -
-o -0000 | 1970-01-01T00:00:00.000000000Z -
-o 86400 | 1970-01-02T00:00:00.000000000+24:00 -
-o 100000 | 1970-01-02T03:46:40.000000000+27:46:40 -
-o 2147483647 | 2038-01-19T03:14:07.000000000+596523:14:07 -
-f /utc | 1970-01-01T00:00:00.000000000Z UTC
-f /utc_v4 | 1970-01-01T00:00:00.000000000Z UTC
-z HST10 | 1969-12-31T14:00:00.000000000-10:00 HST
-z CET-1CEST,M3.5.0,M10.5.0/3 | 1970-01-01T01:00:00.000000000+01:00 CET
-z /utc | 1970-01-01T00:00:00.000000000Z UTC
-z :/utc | 1970-01-01T00:00:00.000000000Z UTC
-z Zone/UTC | 1970-01-01T00:00:00.000000000Z UTC
";

#[test]
fn answers_over_the_zone_of_the_arguments(rt: HostRuntime) -> Result<(), Fail> {
    expect_outcomes_around(&rt, rt.alloc(), "0|", ZONES, "\n|")?;
    let spaced = ["-z", " HST10\n"];
    expect_outcome(&rt, rt.alloc(), &spaced, b"T 0 0\n", EPOCH_OF_HAWAII)?;
    let want = "0|1999-12-31T23:00:00.123456789-01:00 -\n|";
    let queries = b"T 946684800 123456789\n";
    expect_outcome(&rt, rt.alloc(), &["-o", "-3600"], queries, want)?;
    expect_outcome(&rt, rt.alloc(), &["-z", "A0"], b"", "0||")
}

/// Options with their values, and the error of their zone.
static REFUSED_ZONES: &str = "\
-o -2147483648 | invalid local time type: invalid UTC offset
-f /cut | invalid TZ file: unexpected end of data
-f /empty | invalid TZ file: unexpected end of data
-f /early_leap_second | invalid time zone: invalid leap second
-z /empty | invalid TZ file: unexpected end of data
-z /early_leap_second | invalid time zone: invalid leap second
-z A0B0,J59/24:0:1,J60/0 | invalid transition rule: DST transition rules are not consistent from one year to another
-z /cut | invalid TZ file: unexpected end of data
-z EET-2EEST | invalid TZ string: missing DST start and end rules
-z  | invalid TZ string: empty TZ string
";

#[test]
fn refuses_zones_by_their_error(rt: HostRuntime) -> Result<(), Fail> {
    let before = "2||tzq: zone refused: ";
    expect_outcomes_around(&rt, rt.alloc(), before, REFUSED_ZONES, "\n")
}

/// Options with their values, and why there are no bytes.
static NO_FILES: &str = "\
-f / | cannot read file
-f  | cannot read file
-f Zone/UTC | cannot read file
-f HST10 | cannot read file
-f /large | no memory
-z :/none | cannot read file
-z :HST10 | cannot read file
-z localtime | cannot read file
-z /large | no memory
-z :/large | no memory
";

#[test]
fn names_files_that_give_no_bytes(rt: HostRuntime) -> Result<(), Fail> {
    expect_outcomes_around(&rt, rt.alloc(), "1||tzq: ", NO_FILES, "\n")
}

/// Arguments that are none of an option and its value.
static BAD_ARGUMENTS: [&[&str]; 15] = [
    &[],
    &["-o"],
    &["-f"],
    &["-z"],
    &["-o", "1", "2"],
    &["-z", "HST10", ""],
    &["-x", "1"],
    &["", "1"],
    &["-", "1"],
    &["1", "-o"],
    &["-o", "2147483648"],
    &["-o", ""],
    &["-o", "1 "],
    &["-o", "+1"],
    &["-O", "1"],
];

#[test]
fn takes_an_option_and_its_value_alone(rt: HostRuntime) -> Result<(), Fail> {
    for arguments in &BAD_ARGUMENTS {
        let want = "1||tzq: bad arguments\n";
        expect_outcome(&rt, rt.alloc(), arguments, b"T 0 0\n", want)?;
    }
    Ok(())
}

/// A writer over memory that fails after a number of writes.
fn failing_after(alloc: Global, calls: u8) -> FailingWriter {
    FailingWriter {
        bytes: Vec::new(alloc),
        piece: usize::MAX,
        calls,
    }
}

/// What the program does with an input that fails after a number of reads, an output that fails
/// after one of writes, and an error output that fails after one.
fn outcome_of_failing(
    alloc: Global,
    arguments: &[&str],
    reads: u8,
    writes: u8,
    complaints: u8,
) -> Result<String, Fail> {
    let mut input = FailingReader {
        bytes: b"T 0 0\n",
        calls: reads,
    };
    let mut out = failing_after(alloc, writes);
    let mut err = failing_after(alloc, complaints);
    let reader = |path: &str| file_at(alloc, path);
    let status = tool(alloc, arguments, reader, &mut input, &mut out, &mut err);
    written(alloc, status, &out.bytes, &err.bytes)
}

/// The program does this with streams that fail after these numbers of reads, writes and
/// complaints.
fn expect_outcome_of_failing(
    rt: &impl Abort,
    alloc: Global,
    arguments: &[&str],
    calls: (u8, u8, u8),
    want: &str,
) -> Result<(), Fail> {
    let (reads, writes, complaints) = calls;
    let found = outcome_of_failing(alloc, arguments, reads, writes, complaints)?;
    expect_eq_at(rt, &(arguments, calls), &found.as_str(), &want);
    Ok(())
}

/// After how many reads, writes and complaints the streams fail, and what the program does.
static FAILING_STREAMS: [(u8, u8, u8, &str); 6] = [
    (0, 9, 9, "1||tzq: cannot read queries\n"),
    (1, 9, 9, "1||tzq: cannot read queries\n"),
    (0, 9, 0, "1||"),
    (9, 0, 9, "1||tzq: cannot write answers\n"),
    (9, 0, 0, "1||"),
    (9, 9, 0, EPOCH),
];

#[test]
fn names_streams_that_fail(rt: HostRuntime) -> Result<(), Fail> {
    for (reads, writes, complaints, want) in &FAILING_STREAMS {
        let calls = (*reads, *writes, *complaints);
        expect_outcome_of_failing(&rt, rt.alloc(), &["-f", "/utc"], calls, want)?;
    }
    Ok(())
}

/// What the program does where parts make no zone, and where a file is cut short.
const NO_ZONE: &str = "2||tzq: zone refused: invalid time zone: invalid leap second\n";

const CUT_FILE: &str = "2||tzq: zone refused: invalid TZ file: unexpected end of data\n";

/// Options with their values, and what the program does where no byte can be read.
static FAULTS_OF_ZONES: [(&str, &str, &str); 6] = [
    ("-x", "0", "1||tzq: bad arguments\n"),
    ("-o", "x", "1||tzq: bad arguments\n"),
    ("-f", "/none", "1||tzq: cannot read file\n"),
    ("-f", "/large", "1||tzq: no memory\n"),
    ("-f", "/early_leap_second", NO_ZONE),
    ("-z", "/cut", CUT_FILE),
];

#[test]
fn the_zone_is_made_before_a_byte_is_read(rt: HostRuntime) -> Result<(), Fail> {
    for (option, value, want) in &FAULTS_OF_ZONES {
        expect_outcome_of_failing(&rt, rt.alloc(), &[option, value], (0, 9, 9), want)?;
    }
    Ok(())
}

/// What the program does where a number of growths are granted and each later one is refused, and
/// how many were refused.
fn outcome_of_refusing(
    alloc: Global,
    arguments: &[&str],
    left: u64,
) -> Result<(String, u64), Fail> {
    let heap = Refusing::new(alloc, left);
    let mut input = b"T 0 0\n".as_slice();
    let mut out = Vec::new(alloc);
    let mut err = Vec::new(alloc);
    let reader = |path: &str| file_at(alloc, path);
    let status = tool(&heap, arguments, reader, &mut input, &mut out, &mut err);
    Ok((written(alloc, status, &out, &err)?, heap.refused()))
}

/// How many growths the program needs to give the answer, where with each lesser number it has no
/// memory; none if it says otherwise.
fn needed(alloc: Global, arguments: &[&str], answer: &str) -> Result<Option<u64>, Fail> {
    for left in 0..40u64 {
        let (found, refused) = outcome_of_refusing(alloc, arguments, left)?;
        if refused == 0 {
            return Ok(if found.as_str() == answer {
                Some(left)
            } else {
                None
            });
        }
        if found.as_str() != "1||tzq: no memory\n" {
            return Ok(None);
        }
    }
    Ok(None)
}

/// The epoch over a file of UTC, and in Hawaii.
const EPOCH: &str = "0|1970-01-01T00:00:00.000000000Z UTC\n|";

const EPOCH_OF_HAWAII: &str = "0|1969-12-31T14:00:00.000000000-10:00 HST\n|";

/// Options with their values, the answer, and the least number of growths that it needs.
static NEEDS: [(&str, &str, &str, u64); 5] = [
    ("-o", "0", "0|1970-01-01T00:00:00.000000000Z -\n|", 2),
    ("-f", "/utc", EPOCH, 2),
    ("-z", "/utc", EPOCH, 2),
    ("-z", "Zone/UTC", EPOCH, 2),
    ("-z", "HST10", EPOCH_OF_HAWAII, 4),
];

/// The program needs at least this many growths.
fn expect_at_least(rt: &impl Abort, value: &str, growths: Option<u64>, least: u64) {
    assert!(rt; growths.is_some_and(|growths| growths >= least), "{value}");
}

#[test]
fn without_memory_it_writes_nothing(rt: HostRuntime) -> Result<(), Fail> {
    for (option, value, answer, least) in &NEEDS {
        let growths = needed(rt.alloc(), &[option, value], answer)?;
        expect_at_least(&rt, value, growths, *least);
    }
    Ok(())
}
